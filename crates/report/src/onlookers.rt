//! The threads of viewers that show each report as it is made.
ghost use Rattle.std.specs.Prelude.{◌≡◌, ◌<◌, ◌++◌, ◌∷◌, [], length, true, IfOk, IfSome, IsNone, OnErr, OnOk};
ghost use Rattle.report.specs.Onlooking.{HasGlanced, Returns, TakesOut, sent};

use crate::onlooking::{Glance, Onlooker};
use crate::starting::{Starter, in_thread, with_flag};
use crate::want::Want;
use board::viewers_cross_threads;
use cells::{Cell, KeyHash, Tuple};
use crew::Gate;
use std::alloc::{AllocError, Global};
use std::collections::VecDeque;
use std::marker::Model;
use std::snapshot;
use std::sync::atomic::AtomicBool;
use std::sync::atomic::Ordering::SeqCst;
use std::sync::{Arc, Wait};
use std::thread::{Promise, PromisedHandle, Threads};

/// What an onlooker's thread promises: one report more.
#[derive(Drop)]
struct GlanceOf<H: KeyHash<Cell>> {
    onlooker: snapshot::Snapshot<Onlooker<H>>,
}

impl<H: KeyHash<Cell>> GlanceOf<H> {
    /// One report of the onlooker.
    fn new(onlooker: &Onlooker<H>) -> GlanceOf<H>
        ensures { result.onlooker.value ≡ onlooker.now }
    {
        GlanceOf {
            onlooker: snapshot::Snapshot::of(onlooker),
        }
    }
}

impl<H: KeyHash<Cell>> Promise<Result<Glance<H>, Want>> for GlanceOf<H> {
    ghost use Rattle.std.specs.Prelude.{IfOk};
    ghost use Rattle.report.specs.Onlooking.{HasGlanced};

    ghost kept_by = { λ promise result. IfOk result (HasGlanced promise.onlooker.value) };
}

/// An onlooker whose thread was started: what the thread promises, and whether it has ended.
#[derive(Drop)]
struct Going<H: KeyHash<Cell>> {
    handle: PromisedHandle<Result<Glance<H>, Want>, GlanceOf<H>>,
    // no more than a hint: that the report is made is told by its handle
    has_ended: Arc<AtomicBool>,
}

/// Viewers that show each report as it is made. Those that have reports to make before their last one make them in threads
/// of their own, one at a time; the others wait.
#[derive(Drop)]
pub struct Onlookers<H: KeyHash<Cell>> {
    going: VecDeque<Going<H>>,
    waiting: VecDeque<Onlooker<H>>,
}

impl<H: KeyHash<Cell>> Model for Onlookers<H> {
    ghost use Rattle.std.specs.Prelude.{map};
    ghost use Rattle.std.specs.Coded.{codes};
    ghost use Rattle.board.specs.Editions.{coded_known};
    ghost use Rattle.query.specs.Codes.{coded_predicate};
    ghost use Rattle.report.specs.Onlookers.{onlooker_of};
    ghost use Rattle.report.specs.Onlooking.{OnlookersValue};

    ghost Value = { OnlookersValue };

    ghost coded = { Prim.hlevel (codes, coded_known, coded_predicate) };

    ghost view = { λ o. record { going = map onlooker_of o.going.items; waiting = o.waiting.items } };
}

impl<H: KeyHash<Cell>> Onlookers<H> {
    /// Nobody looks on.
    pub fn new(alloc: Global) -> Onlookers<H>
        ensures { result ≡ record { going = []; waiting = [] } }
    {
        Onlookers {
            going: VecDeque::new(alloc),
            waiting: VecDeque::new(alloc),
        }
    }

    /// How many make a report.
    pub fn count(&self) -> usize
        ensures { result ≡ length self.now.going }
    {
        self.going.len()
    }

    /// Sends an onlooker for its next report, which it makes in a thread of its own, on a snapshot that it takes then. One
    /// that has its last report alone to make waits. The gate is told of the snapshot before the answer on it, with the
    /// viewer's number.
    ///
    /// [`Want::Worker`] where the thread can't be started, [`Want::Memory`] where a growth was refused.
    pub fn send<'s, 'e: 's, R: Threads + Wait + Sync, G: Gate>(
        &mut self,
        starter: &Starter<'_, 's, 'e, R, G>,
        onlooker: Onlooker<H>,
    ) -> Result<(), Want>
    where
        H: KeyHash<Tuple> + Send + Sync + 's,
        ensures sent { OnOk result (self.new ≡ sent self.old onlooker) }
        ensures kept { OnErr result (self.new ≡ self.old) }
    {
        if onlooker.left() == 0 {
            self.push_waiting(onlooker)?;
            return Ok(());
        }
        let going = start(starter, onlooker)?;
        self.push_going(going)?;
        Ok(())
    }

    /// Puts an onlooker after those that wait.
    fn push_waiting(&mut self, onlooker: Onlooker<H>) -> Result<(), AllocError>
        ensures pushed { OnOk result (self.new ≡ record { going = self.old.going; waiting = self.old.waiting ++ onlooker ∷ [] }) }
        ensures kept { OnErr result (self.new ≡ self.old) }
    {
        self.waiting.push_back(onlooker)?;
        Ok(())
    }

    /// Puts an onlooker whose thread was started after the others.
    fn push_going(&mut self, going: Going<H>) -> Result<(), AllocError>
        ensures pushed { OnOk result (self.new ≡ record {
          going = self.old.going ++ going.handle.promise.onlooker.value ∷ [];
          waiting = self.old.waiting;
        }) }
        ensures kept { OnErr result (self.new ≡ self.old) }
    {
        self.going.push_back(going)?;
        Ok(())
    }

    /// Whether the onlooker that was sent first has made its report, as far as it is known. It does not wait.
    pub fn has_ended_one(&self) -> bool
        ensures { result ≡ true → 0 < length self.now.going }
    {
        match self.going.front() {
            Some(first) => first.has_ended.load(SeqCst),
            None => false,
        }
    }

    /// Waits for the onlooker that was sent first, of those whose threads go. It has made its report, or met want of memory or
    /// of a worker. None where no thread goes.
    pub fn next<R: Threads>(&mut self, rt: &R) -> Option<Result<Glance<H>, Want>>
        ensures some { IfSome result (Returns self.old self.new) }
        ensures none { IsNone result → (self.old.going ≡ []) × (self.new ≡ self.old) }
    {
        let Going {
            handle,
            has_ended: _,
        } = self.going.pop_front()?;
        Some(handle.join(rt))
    }

    /// The first onlooker of those that have their last report alone to make. None where there is none.
    pub fn next_waiting(&mut self) -> Option<Onlooker<H>>
        ensures some { IfSome result (TakesOut self.old self.new) }
        ensures none { IsNone result → (self.old.waiting ≡ []) × (self.new ≡ self.old) }
    {
        let onlooker = self.waiting.pop_front()?;
        Some(onlooker)
    }

    /// Waits for all threads, and forgets what they reported.
    pub fn join<R: Threads>(self, rt: &R) {
        for going in self.going {
            drop(going.handle.join(rt));
        }
    }
}

/// Starts a thread in which the onlooker makes one report.
fn start<
    's,
    'e: 's,
    H: KeyHash<Cell> + KeyHash<Tuple> + Send + Sync + 's,
    R: Threads + Wait + Sync,
    G: Gate,
>(starter: &Starter<'_, 's, 'e, R, G>, onlooker: Onlooker<H>) -> Result<Going<H>, Want>
    ensures { IfOk result (λ going. going.handle.promise.onlooker.value ≡ onlooker) }
{
    let flagged = with_flag(starter.answering.alloc, onlooker)?;
    let (onlooker, has_ended, ended) = flagged;
    let handle = start_ending(starter, onlooker, ended)?;
    Ok(Going { handle, has_ended })
}

/// The same; once the report is made, the flag is set.
fn start_ending<
    's,
    'e: 's,
    H: KeyHash<Cell> + KeyHash<Tuple> + Send + Sync + 's,
    R: Threads + Wait + Sync,
    G: Gate,
>(
    starter: &Starter<'_, 's, 'e, R, G>,
    onlooker: Onlooker<H>,
    ended: Arc<AtomicBool>,
) -> Result<PromisedHandle<Result<Glance<H>, Want>, GlanceOf<H>>, Want>
    ensures { IfOk result (λ handle. handle.promise.onlooker.value ≡ onlooker) }
{
    // The law by which a viewer may be moved to the thread; it does nothing.
    viewers_cross_threads::<H>();
    let promise = GlanceOf::new(&onlooker);
    let answering = starter.answering;
    let Onlooker {
        number,
        viewer,
        question,
        left,
        least,
    } = onlooker;
    let job = move || -> Result<Glance<H>, Want>
        ensures { IfOk result (HasGlanced (record { number = number; viewer = viewer; question = question; left = left; least = least })) }
    {
        let onlooker = Onlooker {
            number,
            viewer,
            question,
            left,
            least,
        };
        let made = onlooker.glanced(&answering);
        ended.store(true, SeqCst);
        made
    };
    in_thread(starter.scope, promise, job)
}
