//! Text that waits to be written behind reports that are under way.
ghost use Rattle.std.specs.Prelude.{◌≡◌, ℕ, ◌+◌, ◌<◌, ◌≤◌, ◌^◌, ◌++◌, ◌∷◌, [], List, length, true, IfErr, IfOk, IsErrOf, OnErr, OnOk};
ghost use Rattle.std.specs.Io.KnownBytes.{Appends};
ghost use Rattle.report.specs.Limits.{under_way_limit};
ghost use Rattle.report.specs.Taken.{TakesBeginning};
ghost use Rattle.report.specs.Waiting.{Awaits, AwaitsThen, Heads, WritesAll, WritesOn, with_report, with_text};
ghost use Rattle.report.specs.declared.unwritten.Unwritten.TheVariants as unwritten;
ghost use Rattle.report.specs.declared.want.Want.{Want as Wanted};
ghost use Rattle.report.specs.declared.want.Want.TheVariants as want;

use crate::limits::MAX_REPORTS;
use crate::out::{Out, write_whole};
use crate::question::Question;
use crate::starting::{Started, Starter};
use crate::unwritten::Unwritten;
use crate::want::Want;
use board::Snapshot;
use cells::{Cell, KeyHash, Tuple};
use crew::Gate;
use std::alloc::{AllocError, Global};
use std::collections::VecDeque;
use std::marker::Model;
use std::mem;
use std::sync::Wait;
use std::thread::Threads;

/// A report whose thread was started, with the text that is written before its answer.
#[derive(Drop)]
struct Pending<H: KeyHash<Cell>> {
    before: Vec<u8>,
    answer: Started<H>,
}

/// What waits to be written, in order: the answers of reports that are under way, of which there are at most
/// [`MAX_REPORTS`], and the texts before, between and behind them.
#[derive(Drop)]
pub struct Backlog<H: KeyHash<Cell>> {
    alloc: Global,
    reports: VecDeque<Pending<H>>,
    after: Vec<u8>,
}

impl<H: KeyHash<Cell>> Model for Backlog<H> {
    ghost use Rattle.std.specs.Prelude.{◌≤◌, length, map};
    ghost use Rattle.std.specs.Coded.{codes};
    ghost use Rattle.board.specs.Editions.{coded_edition};
    ghost use Rattle.query.specs.Codes.{coded_predicate};
    ghost use Rattle.report.specs.Limits.{under_way_limit};
    ghost use Rattle.report.specs.Waiting.{Waits, under_way};

    ghost Value = { Waits };

    ghost coded = { Prim.hlevel (codes, coded_edition, coded_predicate) };

    ghost view = { λ b. record { reports = map under_way b.reports.items; after = b.after.items } };

    ghost invariant = { λ b. length b.reports.items ≤ under_way_limit };
}

impl<H: KeyHash<Cell>> Backlog<H> {
    /// Nothing waits.
    pub fn new(alloc: Global) -> Backlog<H>
        ensures { result ≡ record { reports = []; after = [] } }
    {
        Backlog {
            alloc,
            reports: VecDeque::new(alloc),
            after: Vec::new(alloc),
        }
    }

    /// How many reports are under way.
    fn len(&self) -> usize
        ensures count { result ≡ length self.now.reports }
        ensures most { result ≤ under_way_limit }
    {
        self.reports.len()
    }

    /// The text waits behind all the rest.
    fn push_text(&mut self, text: &[u8]) -> Result<(), AllocError>
        ensures reports { self.new.reports ≡ self.old.reports }
        ensures text { OnOk result (self.new ≡ with_text self.old text.now) }
    {
        self.after.extend_from_slice(text)
    }

    /// Waits for the oldest report, and writes what waited up to its end.
    fn write_oldest<O: Out, R: Threads>(&mut self, rt: &R, out: &mut O) -> Result<(), Unwritten>
        requires some { 0 < length self.old.reports }
        requires faults { O.faults out.old + 1 < 2 ^ 64 }
        ensures fewer { length self.new.reports + 1 ≡ length self.old.reports }
        ensures goes_on { WritesOn O.taken O.faults out.old out.new self.new (Awaits self.old) result }
    {
        let Some(oldest) = self.reports.pop_front() else {
            unreachable!();
        };
        oldest.write(rt, out)
    }

    /// Makes room for a report: where as many as may be are under way, the oldest is waited for.
    fn make_room<O: Out, R: Threads>(&mut self, rt: &R, out: &mut O) -> Result<(), Unwritten>
        requires { O.faults out.old + 1 < 2 ^ 64 }
        ensures room { OnOk result (length self.new.reports < under_way_limit) }
        ensures early { length self.old.reports < under_way_limit → (self.new ≡ self.old) × (out.new ≡ out.old) }
        ensures goes_on { WritesOn O.taken O.faults out.old out.new self.new (Awaits self.old) result }
    {
        if self.len() < MAX_REPORTS {
            return Ok(());
        }
        self.write_oldest(rt, out)
    }

    /// Makes room for a report, whose heading waits after all the rest, and hands on what is asked.
    fn make_way<T: Drop, O: Out, R: Threads>(
        &mut self,
        rt: &R,
        out: &mut O,
        heading: &[u8],
        asked: T,
    ) -> Result<T, Unwritten>
        requires { O.faults out.old + 1 < 2 ^ 64 }
        ensures same { IfOk result (λ x. x ≡ asked) }
        ensures room { OnOk result (length self.new.reports < under_way_limit) }
        ensures early { length self.old.reports < under_way_limit → (out.new ≡ out.old) × OnOk result (self.new ≡ with_text self.old heading.now) }
        ensures goes_on { WritesOn O.taken O.faults out.old out.new self.new (AwaitsThen self.old (λ more. heading.now ≡ more)) result }
    {
        self.make_room(rt, out)?;
        self.push_text(heading)?;
        Ok(asked)
    }

    /// Writes what waits behind the last report. No report is under way.
    fn write_after<O: Out>(&mut self, out: &mut O) -> Result<(), Unwritten>
        requires idle { self.old.reports ≡ [] }
        requires faults { O.faults out.old + 1 < 2 ^ 64 }
        ensures idle { self.new.reports ≡ [] }
        ensures nothing { OnOk result (self.new.after ≡ []) }
        ensures written { OnOk result (Appends (O.taken out.old) (O.taken out.new) self.old.after) }
        ensures sound { OnOk result (O.faults out.new ≡ O.faults out.old) }
        ensures only { IfErr result (λ why. why ≡ unwritten.WriteFailed) }
        ensures fault { OnErr result (O.faults out.new ≡ O.faults out.old + 1) }
        ensures beginning { OnErr result (TakesBeginning (O.taken out.old) (O.taken out.new) self.old.after) }
    {
        let Ok(()) = write_whole(out, self.after.as_slice()) else {
            return Err(Unwritten::WriteFailed);
        };
        self.after.clear();
        Ok(())
    }

    /// The text is written once all that waits is: at once where no report is under way.
    ///
    /// It wants memory where there is no room for the text, and no worker.
    pub fn say<O: Out>(&mut self, out: &mut O, text: &[u8]) -> Result<(), Unwritten>
        requires { O.faults out.old + 1 < 2 ^ 64 }
        ensures goes_on { WritesOn O.taken O.faults out.old out.new self.new (AwaitsThen self.old (λ more. text.now ≡ more)) result }
        ensures at_once { self.old.reports ≡ [] → OnOk result (self.new.after ≡ []) }
        ensures reports { length self.new.reports ≡ length self.old.reports }
        ensures worker { IsErrOf result (unwritten.Want want.Worker) → ⊥ }
    {
        self.push_text(text)?;
        if self.len() > 0 {
            return Ok(());
        }
        self.write_after(out)
    }

    /// Starts the report of the line of this number in a thread of its own. The heading and then the answer are written once
    /// all that waits is.
    /// Where [`MAX_REPORTS`] are under way, the oldest is waited for first, and written; where fewer are, none is waited
    /// for and nothing is written.
    ///
    /// It wants a worker where a thread can't be started, or the report that was waited for met that, and memory where a
    /// growth was refused, here or in it. A report that is waited for ends before anything is written for it.
    pub fn begin<'s, 'e: 's, O: Out, R: Threads + Wait + Sync, G: Gate>(
        &mut self,
        starter: &Starter<'_, 's, 'e, R, G>,
        out: &mut O,
        line: u64,
        heading: &[u8],
        snapshot: Snapshot<H>,
        question: Question,
    ) -> Result<(), Unwritten>
    where
        H: KeyHash<Tuple> + Send + Sync + 's,
        requires faults { O.faults out.old + 1 < 2 ^ 64 }
        ensures goes_on { WritesOn O.taken O.faults out.old out.new self.new (AwaitsThen self.old (Heads heading.now snapshot question)) result }
        ensures early { length self.old.reports < under_way_limit →
            (out.new ≡ out.old) × OnOk result (self.new ≡ with_report (with_text self.old heading.now) snapshot question) }
    {
        let (snapshot, question) = self.make_way(
            starter.answering.rt,
            out,
            heading,
            (snapshot, question),
        )?;
        self.push_report(starter, line, snapshot, question)?;
        Ok(())
    }

    /// Starts a report, which waits behind all the rest.
    fn push_report<'s, 'e: 's, R: Threads + Wait + Sync, G: Gate>(
        &mut self,
        starter: &Starter<'_, 's, 'e, R, G>,
        line: u64,
        snapshot: Snapshot<H>,
        question: Question,
    ) -> Result<(), Want>
    where
        H: KeyHash<Tuple> + Send + Sync + 's,
        requires { length self.old.reports < under_way_limit }
        ensures { OnOk result (self.new ≡ with_report self.old snapshot question) }
    {
        let answer = starter.start(line, snapshot, question)?;
        self.push_started(answer)?;
        Ok(())
    }

    /// Puts a report whose thread was started behind all the rest.
    fn push_started(&mut self, answer: Started<H>) -> Result<(), AllocError>
        requires { length self.old.reports < under_way_limit }
        ensures { OnOk result (self.new ≡ with_report self.old answer.handle.promise.edition.value answer.handle.promise.question.value) }
    {
        let before = mem::replace(&mut self.after, Vec::new(self.alloc));
        self.reports.push_back(Pending { before, answer })?;
        Ok(())
    }

    /// Whether the oldest report has ended, as far as it is known. It does not wait.
    fn has_ended_one(&self) -> bool
        ensures { result ≡ true → 0 < length self.now.reports }
    {
        match self.reports.front() {
            Some(oldest) => oldest.answer.has_ended(),
            None => false,
        }
    }

    /// Writes what need not wait any more: the reports that have ended, up to the oldest that is still under way, and what
    /// waits before them; and all, where none is under way. It waits for no report that goes on.
    ///
    /// What is wanted, a report wanted.
    pub fn write_ended<O: Out, R: Threads>(&mut self, rt: &R, out: &mut O) -> Result<(), Unwritten>
        requires { O.faults out.old + 1 < 2 ^ 64 }
        ensures goes_on { WritesOn O.taken O.faults out.old out.new self.new (Awaits self.old) result }
        ensures at_once { self.new.reports ≡ [] → OnOk result (self.new.after ≡ []) }
        ensures fewer { length self.new.reports ≤ length self.old.reports }
        ensures worker { IsErrOf result (unwritten.Want want.Worker) → 0 < length self.old.reports }
    {
        while self.has_ended_one() {
            self.write_oldest(rt, out)?;
        }
        if 0 < self.len() {
            return Ok(());
        }
        self.write_after(out)
    }

    /// Waits for all reports, one after another, and writes all that waits.
    ///
    /// At an error later reports may still be under way. What is wanted, a report wanted.
    pub fn finish<O: Out, R: Threads>(&mut self, rt: &R, out: &mut O) -> Result<(), Unwritten>
        requires { O.faults out.old + 1 < 2 ^ 64 }
        ensures whole { WritesAll O.taken O.faults out.old out.new (Awaits self.old) result }
        ensures worker { IsErrOf result (unwritten.Want want.Worker) → 0 < length self.old.reports }
    {
        while self.len() > 0 {
            self.write_oldest(rt, out)?;
        }
        self.write_after(out)
    }

    /// Waits for all reports that are under way, and forgets what waits.
    pub fn join<R: Threads>(self, rt: &R) {
        for oldest in self.reports {
            drop(oldest.answer.join(rt));
        }
    }
}

impl<H: KeyHash<Cell>> Pending<H> {
    /// Waits for the report, and then writes what waits with it and its answer.
    fn write<O: Out, R: Threads>(self, rt: &R, out: &mut O) -> Result<(), Unwritten>
        requires { O.faults out.old + 1 < 2 ^ 64 }
        ensures whole { WritesAll O.taken O.faults out.old out.new
            (Heads self.before.items self.answer.handle.promise.edition.value self.answer.handle.promise.question.value) result }
        ensures waited { (wanted : Wanted) → IsErrOf result (unwritten.Want wanted) → O.taken out.new ≡ O.taken out.old }
    {
        let Pending { before, answer } = self;
        let answer = answer.join(rt)?;
        let Ok(()) = write_whole(out, before.as_slice()) else {
            return Err(Unwritten::WriteFailed);
        };
        let Ok(()) = write_whole(out, answer.as_slice()) else {
            return Err(Unwritten::WriteFailed);
        };
        Ok(())
    }
}
