//! A session: one table that is open while lines come, of which each is answered before the next one is heard.
ghost use Rattle.std.specs.Prelude.{◌≡◌, ◌+◌, ◌<◌, ◌^◌, ℕ, List, None, IfErr, IfOk, IfSome, IsErrOf, OnErr, OnOk, Err};
ghost use Rattle.script.specs.Changes.{IsChangeLine, Takes, taken_in};
ghost use Rattle.script.specs.Endings.{Ends, HasWorkers, refusal_named};
ghost use Rattle.script.specs.Givens.{givens_in};
ghost use Rattle.script.specs.Output.{deed_behind, edition};
ghost use Rattle.script.specs.Parameters.{filled};
ghost use Rattle.script.specs.Sessions.{AnswersAfter, AnswersFilled, Hearing, IsRefusedAfter, IsReply, counted, ended_by, unheard, was_refused, with_line};
ghost use Rattle.script.specs.Stops.{Tells};
ghost use Rattle.script.specs.ValueLines.{delete_line, publish_line, put_line};

use crate::answer::Answer;
use crate::ended::Ended;
use crate::heard::Heard;
use crate::how::How;
use crate::manner::Manner;
use crate::on_refusal::OnRefusal;
use crate::parameters::filled;
use crate::setup::SpeltSetup;
use crate::standing::Standing;
use crate::undone::Undone;
use crate::value_lines::{delete_line, put_line};
use cells::{Cell, KeyHash, Refused, Tuple};
use crew::Gate;
use report::Out;
use std::alloc::{AllocError, Global};
use std::marker::Model;
use std::sync::Wait;
use std::thread::Threads;

/// One table that is open while lines come. Each line is answered before the next one is heard: what [`line`](Session::line)
/// writes is the block that the line has in a script of all lines that came, with the same number.
///
/// Contracts see a session as what it was given, the lines that came, and why it has ended, where it has ([`Hearing`]).
///
/// It borrows what it was made with, and owns the table. No thread outlives a call.
#[derive(Drop)]
pub struct Session<'a, H: KeyHash<Cell>, R, G: Gate> {
    setup: SpeltSetup<'a, R, G>,
    standing: Standing<H>,
    ended: Option<Ended>,
}

impl<'a, H: KeyHash<Cell>, R, G: Gate> Model for Session<'a, H, R, G> {
    ghost use Rattle.std.specs.Prelude.{◌≡◌, None, Some};
    ghost use Rattle.script.specs.Givens.{givens_of};
    ghost use Rattle.script.specs.Sessions.{AnswersAfter, AnswersFilled, Hearing, StandsBehind};
    ghost use Rattle.script.specs.declared.ended.Ended.TheVariants.{NotShown};

    ghost Value = { Hearing };

    ghost view = { λ s. record { givens = givens_of s.setup; lines = s.standing.lines.items; ended = s.ended } };

    ghost invariant = { λ s. (s.ended ≡ None →
        StandsBehind (givens_of s.setup) s.standing.lines.items s.standing.desk s.standing.number) × (s.ended ≡ Some NotShown → ⊥) };
}

impl<'a, H: KeyHash<Cell>, R, G: Gate> Session<'a, H, R, G> {
    /// A session in which no line came yet. `rt` starts the threads of workers, which answer reports and load parts as `how`
    /// says; the parts are numbered from 1, in their order, for `load` lines; `manner` is the way in which answers are told; and
    /// `gate` is told of each publish, refusal, load, report and piece, as by [`run`](crate::run).
    pub fn new(
        rt: &'a R,
        alloc: Global,
        parts: &'a [Vec<u8>],
        how: &'a How,
        manner: &'a Manner,
        gate: &'a G,
    ) -> Session<'a, H, R, G>
        ensures { result ≡ unheard (givens_in manner.now how.now.rows parts.now) }
    {
        let setup = SpeltSetup {
            rt,
            alloc,
            how,
            parts,
            viewing: None,
            on_refusal: OnRefusal::GoesOn,
            manner,
            gate,
        };
        Session {
            setup,
            standing: Standing::new(),
            ended: None,
        }
    }
}

impl<
    'a,
    H: KeyHash<Cell> + KeyHash<Tuple> + Send + Sync,
    R: Threads + Wait + Sync,
    G: Gate,
> Session<'a, H, R, G> {
    /// Does what a line says, and writes its reply. The line is given without its line end. A report is answered in this
    /// call, over the rows that stand published, by workers that have ended when it returns. It tells whether the line was
    /// refused; the session goes on either way.
    ///
    /// A line of more than [`MAX_SCRIPT_BYTES`](crate::MAX_SCRIPT_BYTES) bytes is refused with the number 15 and counts as an
    /// empty line; so is each line once the numbers of a `u64` are used up. Nothing else limits a session.
    ///
    /// Where it ends early, a beginning of the reply was taken, and the session is over: [`Ended::OutOfMemory`] where a growth
    /// was refused, [`Ended::NoWorker`] where the thread of a worker could not be started, which only a report or a load
    /// meets, and [`Ended::WriteFailed`] where the writer failed in the call. A session that is over answers each further line
    /// with the same error, and writes nothing.
    pub fn line<O: Out>(&mut self, bytes: &[u8], out: &mut O) -> Result<Heard, Ended>
        requires { O.faults out.old + 1 < 2 ^ 64 }
        ensures replies { self.old.ended ≡ None → Ends O.taken O.faults out.old out.new
            (IsReply H.KeyHash-1.hash_of self.old.givens self.old.lines bytes.now)
            (HasWorkers (deed_behind self.old.givens (counted self.old.lines) bytes.now)) ⊥ result }
        ensures tells { IfOk result (λ heard. Tells (was_refused heard) (IsRefusedAfter self.old.givens self.old.lines bytes.now)) }
        ensures goes_on { OnOk result ((self.old.ended ≡ None) × (self.new ≡ with_line self.old bytes.now)) }
        ensures ends { IfErr result (λ why. self.new ≡ ended_by self.old why) }
        ensures over { IfSome self.old.ended (λ why. (result ≡ Err why) × (out.new ≡ out.old)) }
        ensures place { IsErrOf result Ended.NotShown → ⊥ }
    {
        if let Some(why) = self.ended {
            return Err(why);
        }
        match self.standing.reply(&self.setup, bytes, out) {
            Ok(heard) => Ok(heard),
            Err(why) => {
                self.ended = Some(why);
                Err(why)
            }
        }
    }

    /// What a query answers over the rows that stand published, as values: the headings and the rows of the reply to a
    /// `report` line of that query, arranged as the session's manner says. It is no line: the session stays as it is, and lines
    /// count as if it had not been asked. The gate is told of the report as of the line 0. The rows are owned, so later lines do
    /// not change them. They are values in each form: the marks of a table's subtotals are no part of them.
    ///
    /// It is refused as that line is: [`Refused::NoTable`] where no table is declared yet, else the first fault of the query,
    /// which has a number from 10 to 15. [`Refused::OutOfMemory`] where a growth was refused, and [`Refused::NoWorker`] where the
    /// thread of a worker could not be started: neither ends the session. One that is over gives the refusal of its end's name.
    pub fn report(&self, query: &str) -> Result<Answer, Refused>
        ensures answers { self.now.ended ≡ None → AnswersAfter self.now.givens self.now.lines query.now result }
        ensures over { IfSome self.now.ended (λ why. result ≡ Err (refusal_named why)) }
    {
        if let Some(why) = self.ended {
            return Err(Refused::from(why));
        }
        self.standing.report(&self.setup, query)
    }

    /// The same of a query with parameters. A parameter is a `?` outside of quotes; the literals of the cells stand in the places
    /// of the parameters, in their order, each between blanks. So a text is a literal whatever is in it, and no part of the query.
    ///
    /// [`Refused::QuerySyntax`] where a cell is NULL, which no literal is, or where the cells are not as many as the parameters;
    /// otherwise as [`report`](Session::report) of the query that is filled so, whose bytes the limit on a query counts.
    pub fn report_with(&self, query: &str, cells: &[Cell]) -> Result<Answer, Refused>
        ensures answers { self.now.ended ≡ None → AnswersFilled self.now.givens self.now.lines (filled cells.now query.now) result }
        ensures over { IfSome self.now.ended (λ why. result ≡ Err (refusal_named why)) }
    {
        if let Some(why) = self.ended {
            return Err(Refused::from(why));
        }
        let Some(text) = filled(self.setup.alloc, query, cells)? else {
            return Err(Refused::QuerySyntax);
        };
        self.standing.report(&self.setup, text.as_str())
    }
}

impl<'a, H: KeyHash<Cell>, R: Wait, G: Gate> Session<'a, H, R, G> {
    /// Puts a row of these cells, which stand in the order of the columns: it does what the line that they spell does
    /// ([`put_line`]), counts as that line, and writes nothing.
    ///
    /// [`Undone::Refused`] exactly where that line is refused, with its rule, as [`Refused::NoTable`], [`Refused::BadRecord`] or
    /// [`Refused::TooManyRows`]: nothing was put, and the session goes on. [`Undone::Ended`] where it is over, or ends here since a
    /// growth was refused.
    pub fn put(&mut self, cells: &[Cell]) -> Result<(), Undone>
        ensures takes { self.old.ended ≡ None → Takes H.hash_of self.old.givens self.old.lines (put_line cells.now) result }
        ensures counts { self.new ≡ taken_in self.old (put_line cells.now) result }
        ensures over { IfSome self.old.ended (λ why. result ≡ Err (Undone.Ended why)) }
    {
        if let Some(why) = self.ended {
            return Err(Undone::Ended(why));
        }
        match put_line(self.setup.alloc, cells) {
            Ok(line) => self.change(line.as_slice()),
            Err(AllocError) => Err(self.end()),
        }
    }

    /// Deletes the row of this key, where there is one: it does what the line that the key spells does ([`delete_line`]), counts
    /// as that line, and writes nothing.
    ///
    /// [`Undone::Refused`] exactly where that line is refused, with its rule, as [`Refused::NoTable`] or [`Refused::BadKey`];
    /// [`Undone::Ended`] as of [`put`](Session::put).
    pub fn delete(&mut self, key: &Cell) -> Result<(), Undone>
        ensures takes { self.old.ended ≡ None → Takes H.hash_of self.old.givens self.old.lines (delete_line key.now) result }
        ensures counts { self.new ≡ taken_in self.old (delete_line key.now) result }
        ensures over { IfSome self.old.ended (λ why. result ≡ Err (Undone.Ended why)) }
    {
        if let Some(why) = self.ended {
            return Err(Undone::Ended(why));
        }
        match delete_line(self.setup.alloc, key) {
            Ok(line) => self.change(line.as_slice()),
            Err(_) => Err(self.end()),
        }
    }

    /// Makes the draft the next edition, and gives its number: it does what the line `publish` does, counts as that line, and
    /// writes nothing. The gate is told of the publish, as of each refusal.
    ///
    /// [`Undone::Refused`] exactly where that line is refused, with its rule, as [`Refused::NoTable`]; [`Undone::Ended`] as of
    /// [`put`](Session::put).
    pub fn publish(&mut self) -> Result<u64, Undone>
        ensures takes { self.old.ended ≡ None → Takes H.hash_of self.old.givens self.old.lines publish_line result }
        ensures counts { self.new ≡ taken_in self.old publish_line result }
        ensures edition { IfOk result (λ number. number ≡ edition self.new.givens (counted self.new.lines)) }
        ensures over { IfSome self.old.ended (λ why. result ≡ Err (Undone.Ended why)) }
    {
        if let Some(why) = self.ended {
            return Err(Undone::Ended(why));
        }
        match self.change(b"publish") {
            Ok(()) => Ok(self.standing.edition()),
            Err(why) => Err(why),
        }
    }

    /// Does what a line says that puts, deletes or publishes, in a session that is open.
    fn change(&mut self, line: &[u8]) -> Result<(), Undone>
        requires open { self.old.ended ≡ None }
        requires changes { IsChangeLine line.now }
        ensures takes { Takes H.hash_of self.old.givens self.old.lines line.now result }
        ensures counts { self.new ≡ taken_in self.old line.now result }
    {
        match self.standing.change(&self.setup, line) {
            Ok(None) => Ok(()),
            Ok(Some(rule)) => Err(Undone::Refused(rule)),
            Err(AllocError) => {
                self.ended = Some(Ended::OutOfMemory);
                Err(Undone::Ended(Ended::OutOfMemory))
            }
        }
    }

    /// Ends the session for want of memory.
    fn end(&mut self) -> Undone
        ensures result { result ≡ Undone.Ended Ended.OutOfMemory }
        ensures over { self.new ≡ ended_by self.old Ended.OutOfMemory }
    {
        self.ended = Some(Ended::OutOfMemory);
        Undone::Ended(Ended::OutOfMemory)
    }
}
