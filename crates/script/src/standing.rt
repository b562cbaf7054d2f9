//! Where the lines that came have left a session.
ghost use Rattle.std.specs.Prelude.{◌≡◌, ◌+◌, ◌<◌, ◌^◌, ◌∷◌, [], ℕ, List, None, false, length, min, true, IfOk, IsErrOf, OnErr, OnOk};
ghost use Rattle.report.specs.Waiting.{Heads, WritesAll};
ghost use Rattle.report.specs.declared.unwritten.Unwritten.TheVariants as unwritten;
ghost use Rattle.report.specs.declared.want.Want.TheVariants as want;
ghost use Rattle.script.specs.Blocks.{IsAsked, WillBe, is_refused};
ghost use Rattle.script.specs.Changes.{IsChangeLine, IsRuled};
ghost use Rattle.script.specs.Endings.{Ends, HasWorkers};
ghost use Rattle.script.specs.Givens.{Givens, givens_of};
ghost use Rattle.script.specs.Output.{deed_behind, edition};
ghost use Rattle.script.specs.Sessions.{AnswersAfter, IsRefusedAfter, IsReply, StandsBehind, counted, is_heard, line_limit, was_refused};
ghost use Rattle.script.specs.Stops.{Tells};

use crate::answer::Answer;
use crate::block::{Asked, Block, refuse};
use crate::change::change;
use crate::ended::Ended;
use crate::fault::Fault;
use crate::heard::Heard;
use crate::limits::MAX_SCRIPT_BYTES;
use crate::reporting::report_values;
use crate::setup::SpeltSetup;
use crate::step::{Line, execute};
use board::Keeper;
use cells::{Cell, KeyHash, Refused, Text, Tuple};
use crew::Gate;
use query::each_text_has_an_answer;
use report::{Out, Unwritten, write_whole};
use shelf::{Shows, Told};
use std::alloc::AllocError;
use std::sync::Wait;
use std::thread::Threads;

/// Before the first line there is none.
struct NoLine;

impl Shows<(), Text> for NoLine {
    ghost use Rattle.std.specs.Prelude.{[]};

    ghost shown = { λ _. [] };
}

/// A line, and those that came before it.
#[derive(Drop)]
struct Came<'a> {
    line: &'a [u8],
    earlier: &'a Told<Text>,
}

/// The line comes before the others, since the last one is the first.
struct LastFirst;

impl<'a> Shows<Came<'a>, Text> for LastFirst {
    ghost use Rattle.std.specs.Prelude.{◌∷◌};

    ghost shown = { λ came. came.line.now ∷ came.earlier.now.items };
}

/// Where the lines that came have left a session: its table, where there is one, the number of the last line, and the lines,
/// for clauses alone.
#[derive(Drop)]
pub struct Standing<H: KeyHash<Cell>> {
    pub(crate) desk: Option<Keeper<H>>,
    pub(crate) number: u64,
    pub(crate) lines: Told<Text>,
}

impl<H: KeyHash<Cell>> Standing<H> {
    /// Before the first line.
    pub(crate) fn new() -> Standing<H>
        ensures desk { result.desk ≡ None }
        ensures number { result.number ≡ 0 }
        ensures lines { result.lines.items ≡ [] }
    {
        Standing {
            desk: None,
            number: 0,
            lines: Told::<Text>::of::<(), NoLine>(&()),
        }
    }

    /// Counts a line that came.
    fn count(&mut self, line: &[u8])
        ensures desk { self.new.desk ≡ self.old.desk }
        ensures number { self.new.number ≡ min (self.old.number + 1) line_limit }
        ensures lines { self.new.lines.items ≡ line.now ∷ self.old.lines.items }
    {
        self.number = self.number.saturating_add(1);
        self.lines = with_line(&self.lines, line);
    }
}

impl<H: KeyHash<Cell> + KeyHash<Tuple> + Send + Sync> Standing<H> {
    /// Does what a line says, and writes the reply. A line that is too long, or comes when the numbers are used up, is refused.
    pub(crate) fn reply<O: Out, G: Gate, R: Threads + Wait + Sync>(
        &mut self,
        setup: &SpeltSetup<'_, R, G>,
        line: &[u8],
        out: &mut O,
    ) -> Result<Heard, Ended>
        requires faults { O.faults out.old + 1 < 2 ^ 64 }
        requires stands { StandsBehind (givens_of setup.now) self.old.lines.items self.old.desk self.old.number }
        ensures ends { Ends O.taken O.faults out.old out.new
            (IsReply H.KeyHash-1.hash_of (givens_of setup.now) self.old.lines.items line.now)
            (HasWorkers (deed_behind (givens_of setup.now) (counted self.old.lines.items) line.now)) ⊥ result }
        ensures tells { IfOk result (λ heard. Tells (was_refused heard) (IsRefusedAfter (givens_of setup.now) self.old.lines.items line.now)) }
        ensures stands { OnOk result (StandsBehind (givens_of setup.now) self.new.lines.items self.new.desk self.new.number) }
        ensures lines { OnOk result (self.new.lines.items ≡ line.now ∷ self.old.lines.items) }
        ensures early { OnErr result (self.new.lines.items ≡ self.old.lines.items) }
    {
        if hears(self.number, line) {
            return self.hear(setup, line, out);
        }
        self.pass_over(setup, line, out)
    }

    /// What the query answers over the rows that stand published, as values.
    pub(crate) fn report<G: Gate, R: Threads + Wait + Sync>(
        &self,
        setup: &SpeltSetup<'_, R, G>,
        query: &str,
    ) -> Result<Answer, Refused>
        requires { StandsBehind (givens_of setup.now) self.now.lines.items self.now.desk self.now.number }
        ensures { AnswersAfter (givens_of setup.now) self.now.lines.items query.now result }
    {
        let Some(keeper) = &self.desk else {
            return Err(Refused::NoTable);
        };
        report_values(setup, keeper, query)
    }

    /// The reply to a line that is heard.
    fn hear<O: Out, G: Gate, R: Threads + Wait + Sync>(
        &mut self,
        setup: &SpeltSetup<'_, R, G>,
        line: &[u8],
        out: &mut O,
    ) -> Result<Heard, Ended>
        requires faults { O.faults out.old + 1 < 2 ^ 64 }
        requires stands { StandsBehind (givens_of setup.now) self.old.lines.items self.old.desk self.old.number }
        requires heard { is_heard self.old.lines.items line.now ≡ true }
        ensures ends { Ends O.taken O.faults out.old out.new
            (IsReply H.KeyHash-1.hash_of (givens_of setup.now) self.old.lines.items line.now)
            (HasWorkers (deed_behind (givens_of setup.now) (counted self.old.lines.items) line.now)) ⊥ result }
        ensures tells { IfOk result (λ heard. Tells (was_refused heard) (IsRefusedAfter (givens_of setup.now) self.old.lines.items line.now)) }
        ensures stands { OnOk result (StandsBehind (givens_of setup.now) self.new.lines.items self.new.desk self.new.number) }
        ensures lines { OnOk result (self.new.lines.items ≡ line.now ∷ self.old.lines.items) }
        ensures early { OnErr result (self.new.lines.items ≡ self.old.lines.items) }
    {
        // The law by which a line has a block, where it ends early; it does nothing.
        each_text_has_an_answer();
        let number = self.number.saturating_add(1);
        let block = execute(
            setup,
            &mut self.desk,
            Line {
                number,
                bytes: line,
            },
        )?;
        let heard = heard_of(&block);
        write_block(setup, number, block, out)?;
        self.count(line);
        Ok(heard)
    }

    /// The same of a line that is not heard, which is refused.
    fn pass_over<O: Out, G: Gate, R: Threads + Wait + Sync>(
        &mut self,
        setup: &SpeltSetup<'_, R, G>,
        line: &[u8],
        out: &mut O,
    ) -> Result<Heard, Ended>
        requires faults { O.faults out.old + 1 < 2 ^ 64 }
        requires stands { StandsBehind (givens_of setup.now) self.old.lines.items self.old.desk self.old.number }
        requires unheard { is_heard self.old.lines.items line.now ≡ false }
        ensures ends { Ends O.taken O.faults out.old out.new
            (IsReply H.KeyHash-1.hash_of (givens_of setup.now) self.old.lines.items line.now)
            (HasWorkers (deed_behind (givens_of setup.now) (counted self.old.lines.items) line.now)) ⊥ result }
        ensures tells { IfOk result (λ heard. Tells (was_refused heard) (IsRefusedAfter (givens_of setup.now) self.old.lines.items line.now)) }
        ensures stands { OnOk result (StandsBehind (givens_of setup.now) self.new.lines.items self.new.desk self.new.number) }
        ensures lines { OnOk result (self.new.lines.items ≡ line.now ∷ self.old.lines.items) }
        ensures early { OnErr result (self.new.lines.items ≡ self.old.lines.items) }
    {
        let number = self.number.saturating_add(1);
        let text = refuse(setup, number, Fault::Line(Refused::Limit))?;
        write_text(out, text.as_slice())?;
        self.count(line);
        Ok(Heard::Refused)
    }
}

impl<H: KeyHash<Cell>> Standing<H> {
    /// Does what a line says that puts, deletes or publishes, and writes nothing: it gives the rule that refuses the line, where
    /// one does. A line that is too long, or comes when the numbers are used up, is refused.
    pub(crate) fn change<G: Gate, R: Wait>(
        &mut self,
        setup: &SpeltSetup<'_, R, G>,
        line: &[u8],
    ) -> Result<Option<Refused>, AllocError>
        requires stands { StandsBehind (givens_of setup.now) self.old.lines.items self.old.desk self.old.number }
        requires changes { IsChangeLine line.now }
        ensures ruled { IfOk result (IsRuled H.hash_of (givens_of setup.now) self.old.lines.items line.now) }
        ensures stands { OnOk result (StandsBehind (givens_of setup.now) self.new.lines.items self.new.desk self.new.number) }
        ensures lines { OnOk result (self.new.lines.items ≡ line.now ∷ self.old.lines.items) }
        ensures early { OnErr result (self.new.lines.items ≡ self.old.lines.items) }
    {
        if hears(self.number, line) {
            return self.change_heard(setup, line);
        }
        Ok(self.leave(setup, line))
    }

    /// Does what such a line says that is heard. The gate is told of a refusal, as where the block is spelt.
    fn change_heard<G: Gate, R: Wait>(
        &mut self,
        setup: &SpeltSetup<'_, R, G>,
        line: &[u8],
    ) -> Result<Option<Refused>, AllocError>
        requires stands { StandsBehind (givens_of setup.now) self.old.lines.items self.old.desk self.old.number }
        requires heard { is_heard self.old.lines.items line.now ≡ true }
        requires changes { IsChangeLine line.now }
        ensures ruled { IfOk result (IsRuled H.hash_of (givens_of setup.now) self.old.lines.items line.now) }
        ensures stands { OnOk result (StandsBehind (givens_of setup.now) self.new.lines.items self.new.desk self.new.number) }
        ensures lines { OnOk result (self.new.lines.items ≡ line.now ∷ self.old.lines.items) }
        ensures early { OnErr result (self.new.lines.items ≡ self.old.lines.items) }
    {
        let rule = change(setup, &mut self.desk, line)?;
        self.count(line);
        tell(setup, self.number, rule);
        Ok(rule)
    }

    /// Passes over a line that is not heard.
    fn leave<G: Gate, R>(&mut self, setup: &SpeltSetup<'_, R, G>, line: &[u8]) -> Option<Refused>
        requires stands { StandsBehind (givens_of setup.now) self.old.lines.items self.old.desk self.old.number }
        requires unheard { is_heard self.old.lines.items line.now ≡ false }
        ensures ruled { IsRuled H.hash_of (givens_of setup.now) self.old.lines.items line.now result }
        ensures stands { StandsBehind (givens_of setup.now) self.new.lines.items self.new.desk self.new.number }
        ensures lines { self.new.lines.items ≡ line.now ∷ self.old.lines.items }
    {
        self.count(line);
        let rule = Some(Refused::Limit);
        tell(setup, self.number, rule);
        rule
    }

    /// The number of the last edition, 0 where no table is declared.
    pub(crate) fn edition(&self) -> u64
        ensures { (givens : Givens) → StandsBehind givens self.now.lines.items self.now.desk self.now.number →
            result ≡ edition givens (counted self.now.lines.items) }
    {
        match &self.desk {
            Some(keeper) => keeper.edition(),
            None => 0,
        }
    }
}

/// Tells the gate that the line of this number is refused, where it is.
fn tell<G: Gate, R>(setup: &SpeltSetup<'_, R, G>, number: u64, rule: Option<Refused>) {
    if let Some(rule) = rule {
        setup.gate.refused(number, rule);
    }
}

/// The lines, and one that came after them. It does nothing.
fn with_line<'a>(earlier: &'a Told<Text>, line: &'a [u8]) -> Told<Text>
    ensures { result.items ≡ line.now ∷ earlier.now.items }
{
    let came = Came { line, earlier };
    Told::<Text>::of::<Came<'a>, LastFirst>(&came)
}

/// Whether a line is heard that comes after the one of this number.
#[tactic(auto, using(crate::proofs::SessionsLemmas::none_heard, crate::proofs::SessionsLemmas::heard_by_length))]
fn hears(number: u64, line: &[u8]) -> bool
    ensures { (before : List (List ℕ)) → number ≡ min (length before) line_limit → result ≡ is_heard before line.now }
{
    if number == u64::MAX {
        return false;
    }
    line.len() <= MAX_SCRIPT_BYTES
}

/// What became of a line with this block.
fn heard_of<H: KeyHash<Cell>>(block: &Block<H>) -> Heard
    ensures { was_refused result ≡ is_refused block.now }
{
    if block.is_refused() {
        return Heard::Refused;
    }
    Heard::Accepted
}

/// Writes what a line gave: its text, or the report that it asks for, which is answered here.
fn write_block<
    H: KeyHash<Cell> + KeyHash<Tuple> + Send + Sync,
    O: Out,
    G: Gate,
    R: Threads + Wait + Sync,
>(setup: &SpeltSetup<'_, R, G>, number: u64, block: Block<H>, out: &mut O) -> Result<(), Unwritten>
    requires { O.faults out.old + 1 < 2 ^ 64 }
    ensures whole { WritesAll O.taken O.faults out.old out.new (WillBe block) result }
    ensures worker { IsErrOf result (unwritten.Want want.Worker) → IsAsked block }
{
    match block {
        Block::Text(text) => write_text(out, text.as_slice()),
        Block::Refusal(text) => write_text(out, text.as_slice()),
        Block::Report(asked) => {
            let written = write_asked(setup, number, &asked, out);
            drop(asked);
            written
        }
    }
}

/// Writes how the block of a report begins, and the answer.
fn write_asked<
    H: KeyHash<Cell> + KeyHash<Tuple> + Send + Sync,
    O: Out,
    G: Gate,
    R: Threads + Wait + Sync,
>(setup: &SpeltSetup<'_, R, G>, number: u64, asked: &Asked<H>, out: &mut O) -> Result<(), Unwritten>
    requires { O.faults out.old + 1 < 2 ^ 64 }
    ensures { WritesAll O.taken O.faults out.old out.new (Heads asked.now.opening.items asked.now.snapshot asked.now.question) result }
{
    let answering = setup.answering();
    let opening = asked.opening.as_slice();
    answering.write(out, number, opening, &asked.snapshot, &asked.question)
}

/// Writes a text. It wants nothing.
fn write_text<O: Out>(out: &mut O, text: &[u8]) -> Result<(), Unwritten>
    requires { O.faults out.old + 1 < 2 ^ 64 }
    ensures whole { WritesAll O.taken O.faults out.old out.new (λ more. text.now ≡ more) result }
    ensures worker { IsErrOf result (unwritten.Want want.Worker) → ⊥ }
{
    let Ok(()) = write_whole(out, text) else {
        return Err(Unwritten::WriteFailed);
    };
    Ok(())
}
