//! The threads of viewers.
ghost use Rattle.std.specs.Prelude.{◌≡◌, ◌∷◌, ◌++◌, ◌+◌, ◌<◌, ◌≤◌, ◌^◌, [], IfOk, IfSome, IsNone, OnErr, OnOk};
ghost use Rattle.report.specs.Audiences.{watch_of};
ghost use Rattle.report.specs.Watching.{ComesBack, HasWatched, unwatched, with_watch, without_watch};

use crate::question::Question;
use crate::starting::{Starter, in_thread};
use crate::want::Want;
use crate::watching::Watcher;
use board::{Viewer, viewers_cross_threads};
use cells::{Cell, KeyHash, Tuple};
use crew::Gate;
use std::alloc::{AllocError, Global};
use std::collections::VecDeque;
use std::marker::Model;
use std::snapshot;
use std::sync::Wait;
use std::thread::{Promise, PromisedHandle, Threads};

/// What a viewer's thread promises: so many reports more.
#[derive(Drop)]
struct WatchOf<H: KeyHash<Cell>> {
    viewer: snapshot::Snapshot<Viewer<H>>,
    question: snapshot::Snapshot<Question>,
    number: u64,
    count: u64,
}

impl<H: KeyHash<Cell>> WatchOf<H> {
    /// So many reports of the question, by the viewer of this number.
    fn new(viewer: &Viewer<H>, question: &Question, number: u64, count: u64) -> WatchOf<H>
        ensures viewer { result.viewer.value ≡ viewer.now }
        ensures question { result.question.value ≡ question.now }
        ensures number { result.number ≡ number }
        ensures count { result.count ≡ count }
    {
        WatchOf {
            viewer: snapshot::Snapshot::of(viewer),
            question: snapshot::Snapshot::of(question),
            number,
            count,
        }
    }
}

impl<H: KeyHash<Cell>> Promise<Result<Watcher<H>, Want>> for WatchOf<H> {
    ghost use Rattle.std.specs.Prelude.{IfOk};
    ghost use Rattle.report.specs.Watching.{HasWatched, unwatched};

    ghost kept_by = { λ promise result. IfOk result (HasWatched (unwatched promise.viewer.value promise.question.value) promise.count) };
}

/// A viewer's thread, which was started.
#[derive(Drop)]
struct Started<H: KeyHash<Cell>> {
    handle: PromisedHandle<Result<Watcher<H>, Want>, WatchOf<H>>,
}

/// Viewers that report in threads of their own, in the order of their numbers.
#[derive(Drop)]
pub struct Audience<H: KeyHash<Cell>> {
    begun: u64,
    started: VecDeque<Started<H>>,
}

impl<H: KeyHash<Cell>> Model for Audience<H> {
    ghost use Rattle.std.specs.Prelude.{map};
    ghost use Rattle.std.specs.Coded.{codes};
    ghost use Rattle.board.specs.Editions.{coded_known};
    ghost use Rattle.query.specs.Codes.{coded_predicate};
    ghost use Rattle.report.specs.Audiences.{watch_of};
    ghost use Rattle.report.specs.Watching.{AudienceValue};

    ghost Value = { AudienceValue };

    ghost coded = { Prim.hlevel (codes, coded_known, coded_predicate) };

    ghost view = { λ a. record { begun = a.begun; watches = map watch_of a.started.items } };
}

impl<H: KeyHash<Cell>> Audience<H> {
    /// Nobody watches.
    pub fn new(alloc: Global) -> Audience<H>
        ensures { result ≡ record { begun = 0; watches = [] } }
    {
        Audience {
            begun: 0,
            started: VecDeque::new(alloc),
        }
    }

    /// Starts a thread in which the viewer answers the question so many times, each time on a snapshot that it takes then.
    /// The gate is told of each snapshot before the answer on it, with the viewer's number. Numbers count from 1 the
    /// viewers that were begun here, also those who are gone, so none is given twice; a call that fails spends its number.
    ///
    /// [`Want::Worker`] where the thread can't be started, [`Want::Memory`] where a growth was refused.
    pub fn begin<'s, 'e: 's, R: Threads + Wait + Sync, G: Gate>(
        &mut self,
        starter: &Starter<'_, 's, 'e, R, G>,
        viewer: Viewer<H>,
        question: Question,
        count: u64,
    ) -> Result<(), Want>
    where
        H: KeyHash<Tuple> + Send + Sync + 's,
        ensures watching { OnOk result (self.new ≡ with_watch self.old viewer question count) }
        ensures onward { OnErr result (self.old.begun ≤ self.new.begun) }
        ensures spent { OnErr result (self.old.begun + 1 < 2 ^ 64 → self.new ≡ without_watch self.old) }
    {
        let Some(number) = self.begun.checked_add(1) else {
            drop(viewer);
            drop(question);
            return Err(Want::Memory);
        };
        self.begun = number;
        let handle = start(starter, viewer, question, number, count)?;
        self.push(Started { handle })?;
        Ok(())
    }

    /// Puts a viewer whose thread was started behind the others.
    fn push(&mut self, started: Started<H>) -> Result<(), AllocError>
        ensures pushed { OnOk result (self.new ≡ record { begun = self.old.begun; watches = self.old.watches ++ watch_of started ∷ [] }) }
        ensures kept { OnErr result (self.new ≡ self.old) }
    {
        self.started.push_back(started)?;
        Ok(())
    }

    /// Waits for the viewer of the least number that is still here. It has made its reports, or met want of memory or of a
    /// worker. None where nobody is left.
    pub fn next<R: Threads>(&mut self, rt: &R) -> Option<Result<Watcher<H>, Want>>
        ensures some { IfSome result (ComesBack self.old.watches self.new.watches) }
        ensures none { IsNone result → self.old.watches ≡ [] }
        ensures begun { self.new.begun ≡ self.old.begun }
    {
        let Started { handle } = self.started.pop_front()?;
        Some(handle.join(rt))
    }

    /// Waits for all viewers, and forgets what they reported.
    pub fn join<R: Threads>(self, rt: &R) {
        for started in self.started {
            drop(started.handle.join(rt));
        }
    }
}

/// Starts a thread in which the viewer answers the question so many times.
fn start<
    's,
    'e: 's,
    H: KeyHash<Cell> + KeyHash<Tuple> + Send + Sync + 's,
    R: Threads + Wait + Sync,
    G: Gate,
>(
    starter: &Starter<'_, 's, 'e, R, G>,
    viewer: Viewer<H>,
    question: Question,
    number: u64,
    count: u64,
) -> Result<PromisedHandle<Result<Watcher<H>, Want>, WatchOf<H>>, Want>
    ensures viewer { IfOk result (λ handle. handle.promise.viewer.value ≡ viewer) }
    ensures question { IfOk result (λ handle. handle.promise.question.value ≡ question) }
    ensures number { IfOk result (λ handle. handle.promise.number ≡ number) }
    ensures count { IfOk result (λ handle. handle.promise.count ≡ count) }
{
    // The law by which a viewer may be moved to the thread; it does nothing.
    viewers_cross_threads::<H>();
    let promise = WatchOf::new(&viewer, &question, number, count);
    let answering = starter.answering;
    let job = move || -> Result<Watcher<H>, Want>
        ensures { IfOk result (HasWatched (unwatched viewer question) count) }
    { Watcher::new(answering.alloc, viewer, question).watched(&answering, number, count) };
    in_thread(starter.scope, promise, job)
}
