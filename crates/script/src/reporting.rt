//! The reports of a run: what a text asks is read and checked at its line, over the edition that stands published there.
ghost use Rattle.std.specs.Prelude.{◌≡◌, IfOk, MatchResult};
ghost use Rattle.board.specs.Editions as editions;
ghost use Rattle.script.specs.Blocks.{WillReport, WillReportPlan};
ghost use Rattle.script.specs.Says.{GivesPlan, GivesValues, IsShown, IsWant};

use crate::answer::Answer;
use crate::block::{Asked, Block, refuse, report_opening};
use crate::fault::Fault;
use crate::manner::Manner;
use crate::owned::beside;
use crate::setup::SpeltSetup;
use board::{Keeper, Snapshot};
use cells::{Cell, KeyHash, Refused, Schema, Tuple};
use crew::Gate;
use query::{Plan, a_text_has_one_answer, check, read};
use std::alloc::{AllocError, Global};
use std::sync::Wait;
use std::thread::Threads;

/// The block of a report of the edition that stands published: what the text asks of it, or its first fault.
pub fn execute_report<H: KeyHash<Cell>, G: Gate, R>(
    setup: &SpeltSetup<'_, R, G>,
    last: &Snapshot<H>,
    text: &str,
    number: u64,
) -> Result<Block<H>, AllocError>
    ensures { IfOk result (WillReport setup.now.manner.now last.now number text.now) }
{
    // The law by which a line whose report is answered is not refused; it does nothing.
    a_text_has_one_answer();
    match read_plan(setup.alloc, text, last.schema()) {
        Ok(plan) => ask(setup.alloc, setup.manner, last, plan, number),
        Err(fault) => {
            let block = refuse(setup, number, Fault::Line(fault))?;
            Ok(Block::Refusal(block))
        }
    }
}

/// The plan of the query that the text is. The refusal is the first fault of the text, or of its query
/// for the table; or [`Refused::OutOfMemory`].
pub fn read_plan(alloc: Global, text: &str, schema: &Schema) -> Result<Plan, Refused>
    ensures { GivesPlan schema.now text.now result }
{
    let query = read(alloc, text)?;
    check(alloc, query, schema)
}

/// What the text asks of the last published edition, as values, or its first fault.
pub fn report_values<
    H: KeyHash<Cell> + KeyHash<Tuple> + Send + Sync,
    G: Gate,
    R: Threads + Wait + Sync,
>(setup: &SpeltSetup<'_, R, G>, keeper: &Keeper<H>, text: &str) -> Result<Answer, Refused>
    ensures { GivesValues setup.now.manner.now (editions.schema keeper.now) (editions.published keeper.now) text.now result }
{
    let plan = read_plan(setup.alloc, text, keeper.schema())?;
    plan_values(setup, keeper, plan)
}

/// The values of the plan's report over the last published edition. Only a want is refused.
fn plan_values<H: KeyHash<Cell> + KeyHash<Tuple> + Send + Sync, G: Gate, R: Threads + Wait + Sync>(
    setup: &SpeltSetup<'_, R, G>,
    keeper: &Keeper<H>,
    plan: Plan,
) -> Result<Answer, Refused>
    ensures { MatchResult result (IsShown setup.now.manner.now (editions.published keeper.now) plan) IsWant }
{
    let snapshot = keeper.snapshot()?;
    snapshot_values(setup, &snapshot, plan)
}

/// The same over the snapshot's edition.
fn snapshot_values<
    H: KeyHash<Cell> + KeyHash<Tuple> + Send + Sync,
    G: Gate,
    R: Threads + Wait + Sync,
>(setup: &SpeltSetup<'_, R, G>, snapshot: &Snapshot<H>, plan: Plan) -> Result<Answer, Refused>
    ensures { MatchResult result (IsShown setup.now.manner.now snapshot.now.rows plan) IsWant }
{
    let rows = setup
        .answering()
        .rows(snapshot, &plan, &setup.manner.arrangement)?;
    Ok(Answer { plan, rows })
}

/// One owner more of that edition, with the plan whose report of it is the block.
fn ask<H: KeyHash<Cell>>(
    alloc: Global,
    manner: &Manner,
    last: &Snapshot<H>,
    plan: Plan,
    number: u64,
) -> Result<Block<H>, AllocError>
    ensures { IfOk result (WillReportPlan manner.now last.now number plan) }
{
    let question = manner.question(alloc, plan)?;
    let opening = report_opening(alloc, manner, number, last.edition());
    let (question, opening) = beside(opening, question)?;
    let (question, snapshot) = beside(last.share(), question)?;
    Ok(Block::Report(Asked {
        opening,
        snapshot,
        question,
    }))
}
