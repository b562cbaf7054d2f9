//! The output of a script as all shards together tell it: for a program that has no rows itself.
ghost use Rattle.std.specs.Prelude.{◌≡◌, ◌++◌, ◌+◌, ◌≤◌, ℕ, Bool, true, [], List, IfOk, IfSome, Ok, Result, Some, length};
ghost use Rattle.std.specs.Str.Lines.{lines};
ghost use Rattle.cells.specs.Updates.{Update};
ghost use Rattle.cells.specs.Values.{RowValue, Table};
ghost use Rattle.groups.specs.Groups.{kept};
ghost use Rattle.groups.specs.Told.{Tells};
ghost use Rattle.report.specs.Reports.{answer_to};
ghost use Rattle.script.specs.Givens.{Givens};
ghost use Rattle.script.specs.Limits.{part_limit, script_limit};
ghost use Rattle.script.specs.Output.{AreBlocks, IsOutput, IsReport, loaded, report};
ghost use Rattle.script.specs.Retelling.{GivesBlock, TellsKept};
ghost use Rattle.script.specs.Says.{answer_of};
ghost use Rattle.script.specs.Spelling.{opening, refusal};
ghost use Rattle.script.specs.Told.{AreTold, FitAll, FitsLoaded, IsToldReport, told_load};

use crate::block::{refusal_block, report_opening};
use crate::fault::Fault;
use crate::limits::MAX_SCRIPT_BYTES;
use crate::lines::lines_of;
use crate::manner::Manner;
use crate::owned::beside;
use crate::reporting::read_plan;
use crate::spelling;
use crate::told::Told;
use crate::walk::{Doing, Walk};
use cells::{Cell, KeyHash, Tuple};
use forms::Form;
use groups::{Partial, SetGroups};
use query::{Plan, a_text_has_one_answer};
use report::{Question, answer_of_partial};
use std::alloc::{AllocError, Global};

/// The output of a script of whose lines this is told, of the rows of all shards together: the same as
/// [`output_here`](crate::output_here) gives with all parts, where no line is refused for want of room for its rows.
///
/// None where it can't be told so: where the script has a `shape` line, which speaks of the whole table, where more or fewer lines
/// are told of than it has, where a report's groups are not those of its plan, and where it has more than 1,048,576 bytes. What is
/// told is let go of, and the text is the caller's. The only error is that a growth was refused.
pub fn output_of_told<H: KeyHash<Cell> + KeyHash<Tuple>>(
    alloc: Global,
    script: &[u8],
    tolds: Vec<Told>,
    manner: &Manner,
) -> Result<Option<Vec<u8>>, AllocError>
    ensures { (hash : Cell → ℕ) (givens : Givens) (all : Cell → Bool) → givens.manner ≡ manner.now →
        length givens.parts ≤ part_limit → length script.now ≤ script_limit → FitAll givens [] (lines script.now) →
        ((key : Cell) → all key ≡ true) → AreTold givens all [] (lines script.now) tolds.items →
        IfOk result (λ o. IfSome o (λ text. IsOutput hash givens script.now text.items)) }
{
    if script.len() > MAX_SCRIPT_BYTES {
        return Ok(None);
    }
    blocks_of_told::<H>(alloc, script, tolds, manner)
}

/// The blocks of the lines of a script that is not too long.
fn blocks_of_told<H: KeyHash<Cell> + KeyHash<Tuple>>(
    alloc: Global,
    script: &[u8],
    tolds: Vec<Told>,
    manner: &Manner,
) -> Result<Option<Vec<u8>>, AllocError>
    requires { length script.now ≤ script_limit }
    ensures { (hash : Cell → ℕ) (givens : Givens) (all : Cell → Bool) → givens.manner ≡ manner.now →
        ((key : Cell) → all key ≡ true) → FitAll givens [] (lines script.now) →
        AreTold givens all [] (lines script.now) tolds.items →
        IfOk result (λ o. IfSome o (λ text. AreBlocks hash givens [] (lines script.now) text.items)) }
{
    let mut text = Vec::new(alloc);
    let mut walk = Walk::new();
    let mut left = tolds.into_iter();
    for line in lines_of(script) {
        let doing = walk.go_over(alloc, line)?;
        let Some(told) = left.next() else {
            return Ok(None);
        };
        let Some(block) = block_of::<H>(alloc, manner, &walk, doing, told)? else {
            return Ok(None);
        };
        text.extend_from_slice(block.as_slice())?;
    }
    if left.len() > 0 {
        return Ok(None);
    }
    Ok(Some(text))
}

/// The block of a line that is gone over and does this, of which this is told. None where that can't be told.
fn block_of<H: KeyHash<Cell> + KeyHash<Tuple>>(
    alloc: Global,
    manner: &Manner,
    walk: &Walk,
    doing: Doing<'_>,
    told: Told,
) -> Result<Option<Vec<u8>>, AllocError>
    ensures { IfOk result (λ o. IfSome o (λ block. GivesBlock manner.now walk.now doing.entry told block.items)) }
{
    match doing {
        Doing::Quiet => Ok(Some(Vec::new(alloc))),
        Doing::Puts => Ok(Some(Vec::new(alloc))),
        Doing::Loads => block_of_load(alloc, manner.form, walk.number, told),
        Doing::Reports(query) => block_of_report::<H>(alloc, manner, walk, query, told),
        Doing::Shape => Ok(None),
        Doing::Refused(fault) => refusal_so(alloc, manner.form, walk.number, fault),
    }
}

/// The block of a refused line.
fn refusal_so(
    alloc: Global,
    form: Form,
    number: u64,
    fault: Fault,
) -> Result<Option<Vec<u8>>, AllocError>
    ensures { IfOk result (λ o. IfSome o (λ block. block.items ≡ refusal form number fault)) }
{
    let text = spelling::refusal(alloc, form, number, fault)?;
    Ok(Some(text.into_bytes()))
}

/// The block of a load. None where groups are told of it.
fn block_of_load(
    alloc: Global,
    form: Form,
    number: u64,
    told: Told,
) -> Result<Option<Vec<u8>>, AllocError>
    ensures { (limit : ℕ) (us : List Update) (held : Result (List RowValue) Fault) → FitsLoaded limit us held → told ≡ told_load held →
        IfOk result (λ o. IfSome o (λ block. block.items ≡ loaded form number limit us held)) }
{
    match told {
        Told::Nothing => Ok(Some(Vec::new(alloc))),
        Told::Refused(fault) => refusal_so(alloc, form, number, fault),
        Told::Kept(_) => Ok(None),
    }
}

/// The block of a report: its answer, or the refusal of its text.
fn block_of_report<H: KeyHash<Cell> + KeyHash<Tuple>>(
    alloc: Global,
    manner: &Manner,
    walk: &Walk,
    query: &str,
    told: Told,
) -> Result<Option<Vec<u8>>, AllocError>
    ensures { (t : Table) (rs : List RowValue) → walk.now.schema ≡ Some t → IsToldReport t rs query.now told →
        IfOk result (λ o. IfSome o (λ block. IsReport manner.now walk.now.number walk.now.edition t rs query.now block.items)) }
{
    // The law by which the groups are of the plan that is read here; it does nothing.
    a_text_has_one_answer();
    let Some(schema) = &walk.schema else {
        return Ok(None);
    };
    match read_plan(alloc, query, schema) {
        Ok(plan) => answer_of_told::<H>(alloc, manner, walk, plan, told),
        Err(fault) => {
            let block = refusal_block(alloc, manner.form, walk.number, Fault::Line(fault))?;
            Ok(Some(block))
        }
    }
}

/// The block of the plan's report. None where no groups of the plan are told.
fn answer_of_told<H: KeyHash<Cell> + KeyHash<Tuple>>(
    alloc: Global,
    manner: &Manner,
    walk: &Walk,
    plan: Plan,
    told: Told,
) -> Result<Option<Vec<u8>>, AllocError>
    ensures { (rs : List RowValue) → TellsKept plan rs told →
        IfOk result (λ o. IfSome o (λ block. block.items ≡ report manner.now walk.now.number walk.now.edition (Ok (answer_of plan rs)))) }
{
    let Told::Kept(sets) = told else {
        return Ok(None);
    };
    let (sets, question) = beside(manner.question(alloc, plan), sets)?;
    let answer = answer_of_sets::<H>(alloc, &question, sets);
    drop(question);
    match answer? {
        Some(answer) => under_opening(alloc, manner, walk, answer.as_slice()),
        None => Ok(None),
    }
}

/// The text of what is asked, of the rows of which this is kept.
fn answer_of_sets<H: KeyHash<Cell> + KeyHash<Tuple>>(
    alloc: Global,
    question: &Question,
    sets: Vec<SetGroups>,
) -> Result<Option<Vec<u8>>, AllocError>
    ensures { (rs : List RowValue) → Tells question.now.plan (kept question.now.plan.condition rs) sets.items →
        IfOk result (λ o. IfSome o (λ text. text.items ≡ answer_to question.now rs)) }
{
    match Partial::<H>::of_told(alloc, &question.plan, sets)? {
        Some(partial) => {
            let answer = answer_of_partial(alloc, question, partial)?;
            Ok(Some(answer))
        }
        None => Ok(None),
    }
}

/// The answer under the opening of its line's block.
fn under_opening(
    alloc: Global,
    manner: &Manner,
    walk: &Walk,
    answer: &[u8],
) -> Result<Option<Vec<u8>>, AllocError>
    ensures { IfOk result (λ o. IfSome o (λ block. block.items ≡ opening manner.now walk.now.number walk.now.edition ++ answer.now)) }
{
    let mut text = report_opening(alloc, manner, walk.number, walk.edition)?;
    text.extend_from_slice(answer)?;
    Ok(Some(text))
}
