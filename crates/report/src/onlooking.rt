//! Viewers that show each report as it is made.
ghost use Rattle.std.specs.Prelude.{◌≡◌, ◌-◌, IfOk};
ghost use mathlib.Core.List.{IsPrefix};
ghost use Rattle.board.specs.Editions.{history};
ghost use Rattle.report.specs.Onlooking.{HasGlanced, IsUpToNow, Shows, onlooking};
ghost use Rattle.report.specs.Watching.{IsLastShot, IsOf, IsShot};

use crate::answering::Answering;
use crate::owned::beside;
use crate::question::Question;
use crate::want::Want;
use crate::watching::{Shot, last_edition, last_look, look};
use board::{Keeper, Viewer};
use cells::{Cell, KeyHash, Tuple};
use crew::Gate;
use std::marker::Model;
use std::sync::Wait;
use std::thread::Threads;

/// A viewer that answers one question and shows each report as it is made: its number, how many reports it makes before its
/// last one, and the number of the edition that it showed last, which is 0 before it showed any.
#[derive(Drop)]
pub struct Onlooker<H: KeyHash<Cell>> {
    pub(crate) number: u64,
    pub(crate) viewer: Viewer<H>,
    pub(crate) question: Question,
    pub(crate) left: u64,
    pub(crate) least: u64,
}

impl<H: KeyHash<Cell>> Model for Onlooker<H> {
    ghost use Rattle.std.specs.Coded.{codes};
    ghost use Rattle.board.specs.Editions.{coded_known};
    ghost use Rattle.query.specs.Codes.{coded_predicate};
    ghost use Rattle.report.specs.Onlooking.{Onlooking};

    ghost Value = { Onlooking };

    ghost coded = { Prim.hlevel (codes, coded_known, coded_predicate) };

    ghost view = { λ o. record { number = o.number; viewer = o.viewer; question = o.question; left = o.left; least = o.least } };
}

/// An onlooker that has made a report, which it did not show yet.
#[derive(Drop)]
pub struct Glance<H: KeyHash<Cell>> {
    onlooker: Onlooker<H>,
    shot: Shot,
}

impl<H: KeyHash<Cell>> Model for Glance<H> {
    ghost use Rattle.std.specs.Coded.{codes};
    ghost use Rattle.board.specs.Editions.{coded_known};
    ghost use Rattle.query.specs.Codes.{coded_predicate};
    ghost use Rattle.report.specs.Onlooking.{Glanced};
    ghost use Rattle.report.specs.Watching.{IsShot};

    ghost Value = { Glanced };

    ghost coded = { Prim.hlevel (codes, coded_known, coded_predicate) };

    ghost view = { λ g. record { onlooker = g.onlooker; shot = g.shot } };

    ghost invariant = { λ g. IsShot g.onlooker.viewer.history g.onlooker.question g.shot };
}

impl<H: KeyHash<Cell>> Onlooker<H> {
    /// The viewer of this number before its first report, with so many to make before its last one.
    pub fn new(number: u64, viewer: Viewer<H>, question: Question, left: u64) -> Onlooker<H>
        ensures { result ≡ onlooking number viewer question left }
    {
        Onlooker {
            number,
            viewer,
            question,
            left,
            least: 0,
        }
    }

    /// The number of the viewer.
    pub fn number(&self) -> u64
        ensures { result ≡ self.now.number }
    {
        self.number
    }

    /// How many reports it makes before its last one.
    pub(crate) fn left(&self) -> u64
        ensures { result ≡ self.now.left }
    {
        self.left
    }
}

impl<H: KeyHash<Cell> + KeyHash<Tuple> + Send + Sync> Onlooker<H> {
    /// The onlooker with one report more, on a snapshot that is taken now.
    pub(crate) fn glanced<R: Threads + Wait + Sync, G: Gate>(
        self,
        answering: &Answering<'_, R, G>,
    ) -> Result<Glance<H>, Want>
        ensures { IfOk result (HasGlanced self) }
    {
        let mut onlooker = self;
        let number = onlooker.number;
        let looked = look(answering, &mut onlooker.viewer, &onlooker.question, number);
        let (onlooker, shot) = beside(looked, onlooker)?;
        Ok(Glance { onlooker, shot })
    }

    /// The last report of the viewer, which the keeper's thread makes here: the viewer learns what the keeper tells, and so
    /// the report is on the last edition.
    ///
    /// [`Want::Worker`] where a thread can't be started, [`Want::Memory`] where a growth was refused.
    pub fn finish<R: Threads + Wait + Sync, G: Gate>(
        self,
        answering: &Answering<'_, R, G>,
        keeper: &mut Keeper<H>,
    ) -> Result<Shot, Want>
        requires own { IsOf keeper.old self.viewer }
        ensures same { keeper.new ≡ keeper.old }
        ensures last { IfOk result (IsLastShot keeper.old self.question) }
    {
        let Onlooker {
            number: _,
            mut viewer,
            question,
            left: _,
            least: _,
        } = self;
        let last = last_look(answering, &mut viewer, &question, keeper);
        drop(viewer);
        drop(question);
        last
    }
}

impl<H: KeyHash<Cell> + KeyHash<Tuple> + Send + Sync> Glance<H> {
    /// The report that is shown, and the onlooker, which is to make one fewer. The viewer learns what the keeper tells. The
    /// number of the report's edition is compared with that of the last one, and in place of a report on a higher one stands
    /// the report on the last.
    ///
    /// [`Want::Worker`] where a thread can't be started, [`Want::Memory`] where a growth was refused.
    pub fn shown<R: Threads + Wait + Sync, G: Gate>(
        self,
        answering: &Answering<'_, R, G>,
        keeper: &mut Keeper<H>,
    ) -> Result<(Onlooker<H>, Shot), Want>
        requires own { IsOf keeper.old self.onlooker.viewer }
        ensures same { keeper.new ≡ keeper.old }
        ensures shown { IfOk result (λ x. Shows keeper.old self x.0 x.1) }
    {
        let Glance { mut onlooker, shot } = self;
        let now = up_to_now(
            answering,
            &mut onlooker.viewer,
            &onlooker.question,
            keeper,
            shot,
        );
        let (onlooker, shot) = beside(now, onlooker)?;
        Ok((onlooker.after(shot.edition), shot))
    }
}

impl<H: KeyHash<Cell>> Onlooker<H> {
    /// Once it has shown a report on this edition.
    fn after(self, edition: u64) -> Onlooker<H>
        ensures { result ≡ record { number = self.number; viewer = self.viewer; question = self.question; left = self.left - 1; least = edition } }
    {
        let Onlooker {
            number,
            viewer,
            question,
            left,
            least: _,
        } = self;
        Onlooker {
            number,
            viewer,
            question,
            left: left.saturating_sub(1),
            least: edition,
        }
    }
}

/// The report of a viewer, or, where it is on an edition above the keeper's last one, the report on that. The viewer learns
/// what the keeper tells.
fn up_to_now<H: KeyHash<Cell> + KeyHash<Tuple> + Send + Sync, R: Threads + Wait + Sync, G: Gate>(
    answering: &Answering<'_, R, G>,
    viewer: &mut Viewer<H>,
    question: &Question,
    keeper: &mut Keeper<H>,
    shot: Shot,
) -> Result<Shot, Want>
    requires own { IsOf keeper.old viewer.old }
    requires is { IsShot viewer.old.history question.now shot }
    ensures same { keeper.new ≡ keeper.old }
    ensures learnt { IsPrefix (history keeper.old) viewer.new.history }
    ensures own { IsOf keeper.old viewer.new }
    ensures shown { IfOk result (IsUpToNow keeper.old question.now shot) }
{
    let snapshot = last_edition(viewer, keeper)?;
    if shot.edition > snapshot.edition() {
        return answering.shot(&snapshot, question);
    }
    Ok(shot)
}
