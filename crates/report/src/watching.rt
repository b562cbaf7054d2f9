//! Viewers that report in threads of their own while the keeper goes on.
ghost use Rattle.std.specs.Prelude.{◌≡◌, ◌+◌, ◌++◌, ◌∷◌, [], length, map, IfOk, OnOk};
ghost use mathlib.Core.List.{IsPrefix};
ghost use Rattle.board.specs.Editions.{IsLastOf, Looks, edition, history, published};
ghost use Rattle.report.specs.Waiting.{IsReportText};
ghost use Rattle.report.specs.Watching.{GoUpTo, HasWatched, IsLastEdition, IsLastShot, IsOf, IsShot, unwatched, up_to as up_to_last};

use crate::answering::Answering;
use crate::owned::handed_on;
use crate::question::Question;
use crate::want::Want;
use board::{Keeper, Snapshot, Viewer};
use cells::{Cell, KeyHash, Tuple};
use crew::Gate;
use std::alloc::{AllocError, Global};
use std::marker::Model;
use std::sync::Wait;
use std::thread::Threads;

/// A report of a viewer: the number of the edition that it is on, and its text.
#[derive(Drop)]
pub struct Shot {
    pub edition: u64,
    pub text: Vec<u8>,
}

impl Model for Shot {
    ghost use Rattle.report.specs.Watching.{Sight};

    ghost Value = { Sight };

    ghost view = { λ s. record { edition = s.edition; text = s.text.items } };
}

/// A viewer that answers one question again and again, with the reports that it made: the numbers of their editions never
/// fall, and each is the report on the edition of its number in the history that the viewer knows.
#[derive(Drop)]
pub struct Watcher<H: KeyHash<Cell>> {
    viewer: Viewer<H>,
    question: Question,
    shots: Vec<Shot>,
}

impl<H: KeyHash<Cell>> Model for Watcher<H> {
    ghost use Rattle.std.specs.Coded.{codes};
    ghost use Rattle.board.specs.Editions.{coded_known};
    ghost use Rattle.query.specs.Codes.{coded_predicate};
    ghost use Rattle.report.specs.Watching.{AreShots, Watching};

    ghost Value = { Watching };

    ghost coded = { Prim.hlevel (codes, coded_known, coded_predicate) };

    ghost view = { λ w. record { viewer = w.viewer; question = w.question; shots = w.shots.items } };

    ghost invariant = { λ w. AreShots w.viewer.history w.question 0 w.shots.items };
}

impl<'a, R: Threads + Wait + Sync, G: Gate> Answering<'a, R, G> {
    /// The report of the question on the snapshot.
    pub(crate) fn shot<H: KeyHash<Cell> + KeyHash<Tuple> + Send + Sync>(
        &self,
        snapshot: &Snapshot<H>,
        question: &Question,
    ) -> Result<Shot, Want>
        ensures edition { IfOk result (λ shot. shot.edition ≡ snapshot.now.number) }
        ensures text { IfOk result (λ shot. IsReportText snapshot.now.rows question.now shot.text) }
    {
        let text = self.text(0, snapshot, question)?;
        Ok(Shot {
            edition: snapshot.edition(),
            text,
        })
    }
}

impl<H: KeyHash<Cell>> Watcher<H> {
    /// The viewer before its first report.
    pub(crate) fn new(alloc: Global, viewer: Viewer<H>, question: Question) -> Watcher<H>
        ensures { result ≡ unwatched viewer question }
    {
        Watcher {
            viewer,
            question,
            shots: Vec::new(alloc),
        }
    }
}

impl<H: KeyHash<Cell> + KeyHash<Tuple> + Send + Sync> Watcher<H> {
    /// The viewer once it has made so many reports more, each on a snapshot that is taken then.
    pub(crate) fn watched<R: Threads + Wait + Sync, G: Gate>(
        self,
        answering: &Answering<'_, R, G>,
        number: u64,
        count: u64,
    ) -> Result<Watcher<H>, Want>
        ensures { IfOk result (HasWatched self count) }
    {
        let mut watcher = self;
        let made = watcher.watch(answering, number, count);
        handed_on(made, watcher)
    }

    /// Makes so many reports more.
    fn watch<R: Threads + Wait + Sync, G: Gate>(
        &mut self,
        answering: &Answering<'_, R, G>,
        number: u64,
        count: u64,
    ) -> Result<(), Want>
        ensures { OnOk result (HasWatched self.old count self.new) }
    {
        for _ in 0..count {
            self.watch_once(answering, number)?;
        }
        Ok(())
    }

    /// Makes one report more.
    fn watch_once<R: Threads + Wait + Sync, G: Gate>(
        &mut self,
        answering: &Answering<'_, R, G>,
        number: u64,
    ) -> Result<(), Want>
        ensures { OnOk result (HasWatched self.old 1 self.new) }
    {
        let shot = look(answering, &mut self.viewer, &self.question, number)?;
        self.shots.push(shot)?;
        Ok(())
    }

    /// The reports of the viewer with its last one, which the keeper's thread makes here: the viewer learns what the
    /// keeper tells, and so the report is on the last edition. The number of each edition is compared with that of the
    /// last one, and in place of a report on a higher one stands the last report.
    ///
    /// [`Want::Worker`] where a thread can't be started, [`Want::Memory`] where a growth was refused.
    pub fn finish<R: Threads + Wait + Sync, G: Gate>(
        self,
        answering: &Answering<'_, R, G>,
        keeper: &mut Keeper<H>,
    ) -> Result<Vec<Shot>, Want>
        requires own { IsOf keeper.old self.viewer }
        ensures same { keeper.new ≡ keeper.old }
        ensures shots { IfOk result (λ shots. GoUpTo (history keeper.old) self.question (edition keeper.old) 0 (length self.shots) shots.items) }
    {
        let Watcher {
            mut viewer,
            question,
            shots,
        } = self;
        let last = last_look(answering, &mut viewer, &question, keeper);
        drop(viewer);
        drop(question);
        Ok(ended(answering.alloc, shots, last?)?)
    }
}

/// The report on the last edition of the keeper, once the viewer has learnt what the keeper tells.
pub(crate) fn last_look<
    H: KeyHash<Cell> + KeyHash<Tuple> + Send + Sync,
    R: Threads + Wait + Sync,
    G: Gate,
>(
    answering: &Answering<'_, R, G>,
    viewer: &mut Viewer<H>,
    question: &Question,
    keeper: &mut Keeper<H>,
) -> Result<Shot, Want>
    requires own { IsOf keeper.old viewer.old }
    ensures same { keeper.new ≡ keeper.old }
    ensures learnt { IsPrefix viewer.old.history viewer.new.history × IsPrefix (history keeper.old) viewer.new.history }
    ensures last { IfOk result (IsLastShot keeper.old question.now) }
{
    let snapshot = last_edition(viewer, keeper)?;
    answering.shot(&snapshot, question)
}

/// A report on a snapshot that the viewer takes now. The gate is told of the snapshot before it is answered.
pub(crate) fn look<
    H: KeyHash<Cell> + KeyHash<Tuple> + Send + Sync,
    R: Threads + Wait + Sync,
    G: Gate,
>(
    answering: &Answering<'_, R, G>,
    viewer: &mut Viewer<H>,
    question: &Question,
    number: u64,
) -> Result<Shot, Want>
    ensures looks { Looks viewer.old viewer.new }
    ensures shot { IfOk result (λ shot. IsShot viewer.new.history question.now shot × (length viewer.new.history ≡ shot.edition + 1)) }
{
    let snapshot = viewer.snapshot()?;
    answering.gate.viewing(number, snapshot.edition());
    answering.shot(&snapshot, question)
}

/// The last edition of the keeper, as the viewer sees it once it has learnt what the keeper tells; should it see one above
/// that, then the keeper's own.
pub(crate) fn last_edition<H: KeyHash<Cell>>(
    viewer: &mut Viewer<H>,
    keeper: &mut Keeper<H>,
) -> Result<Snapshot<H>, Want>
    requires own { IsOf keeper.old viewer.old }
    ensures same { keeper.new ≡ keeper.old }
    ensures seen { IsPrefix viewer.old.history viewer.new.history }
    ensures own { IsOf keeper.old viewer.new }
    ensures learnt { IsPrefix (history keeper.old) viewer.new.history }
    ensures last { IfOk result (IsLastEdition keeper.old) }
    ensures ended { IsLastOf (history keeper.old) (edition keeper.old) (published keeper.old) }
{
    // The law by which the keeper's history ends with its last edition; it does nothing.
    keeper.rows_fit();
    viewer.learn(keeper.tell());
    let seen = viewer.snapshot()?;
    if seen.edition() > keeper.edition() {
        return Ok(keeper.snapshot()?);
    }
    Ok(seen)
}

/// The reports up to the last edition, and then the last report.
fn ended(alloc: Global, shots: Vec<Shot>, last: Shot) -> Result<Vec<Shot>, AllocError>
    ensures { IfOk result (λ all. all.items ≡ map (up_to_last last) shots.items ++ last ∷ []) }
{
    let mut all = Vec::new(alloc);
    for shot in shots {
        all.push(up_to(shot, &last)?)?;
    }
    all.push(last)?;
    Ok(all)
}

/// The report, or where it is on an edition above the last one, a copy of the last report.
fn up_to(shot: Shot, last: &Shot) -> Result<Shot, AllocError>
    ensures { IfOk result (λ s. s ≡ up_to_last last.now shot) }
{
    if shot.edition > last.edition {
        return Ok(Shot {
            edition: last.edition,
            text: last.text.clone()?,
        });
    }
    Ok(shot)
}
