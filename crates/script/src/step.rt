//! The step of one line: what it says is done, and its block is made.
ghost use Rattle.std.specs.Prelude.{◌≡◌, ◌+◌, ◌<◌, ◌≤◌, ◌^◌, ℕ, [], length, Err, IfErr, IfOk, IsErrOf, None, Ok, OnOk, Some};
ghost use Rattle.std.specs.FinMap.{remove};
ghost use Rattle.cells.specs.Fitting.{IsRowOf};
ghost use Rattle.board.specs.Editions.{ChangesDraft, Publishes};
ghost use Rattle.board.specs.Editions as editions;
ghost use Rattle.forms.specs.declared.form.Form.{Form};
ghost use Rattle.script.specs.Blocks.{Steps, quiet};
ghost use Rattle.script.specs.Changes.{change_text};
ghost use Rattle.script.specs.Deeds.{deed};
ghost use Rattle.report.specs.declared.want.Want.TheVariants as want;
ghost use Rattle.script.specs.Endings.{HasWorkers};
ghost use Rattle.script.specs.Givens.{givens_of};
ghost use Rattle.script.specs.Limits.{script_limit};
ghost use Rattle.script.specs.Stops.{IsQuiet};
ghost use Rattle.script.specs.Desks.{Executes, Publishable, PutsRow, schema_of_desk};

use crate::block::{Block, refuse, shape_block};
use crate::fault::Fault;
use crate::limits::VIEWERS;
use crate::load_line::execute_load;
use crate::reporting::execute_report;
use crate::setup::SpeltSetup;
use crate::statement::{Statement, read_first, read_statement};
use board::{Drafts, Keeper, rows_have_the_shape_of_their_keys};
use cells::{Cell, KeyHash, Refused, Row, later_puts_lie_over};
use crew::Gate;
use report::Want;
use std::alloc::{AllocError, Global};
use std::sync::Wait;
use std::thread::Threads;

/// A line of a script, with its number counted from 1.
#[derive(Clone, Copy)]
pub struct Line<'a> {
    pub number: u64,
    pub bytes: &'a [u8],
}

/// Does what a line says, and gives the line's block, or what its report asks of the edition that stands published. Any
/// line may want memory, and a load a worker, too.
pub fn execute<H: KeyHash<Cell> + Send + Sync, G: Gate, R: Threads + Wait>(
    setup: &SpeltSetup<'_, R, G>,
    desk: &mut Option<Keeper<H>>,
    line: Line<'_>,
) -> Result<Block<H>, Want>
    requires publishable { Publishable desk.old }
    requires short { length line.bytes.now ≤ script_limit }
    ensures step { IfOk result (Steps H.hash_of (givens_of setup.now) line.entry.bytes.now line.entry.number desk.old desk.new) }
    ensures worker { IsErrOf result want.Worker → HasWorkers (deed (schema_of_desk desk.old) line.entry.bytes.now) }
{
    if let Some(keeper) = desk {
        return execute_kept(setup, keeper, line);
    }
    let (keeper, block) = execute_first(setup, line)?;
    *desk = keeper;
    Ok(Block::quiet(block))
}

/// The same before there is a table.
#[tactic(auto, using(crate::proofs::StepsLemmas::executes_nothing, crate::proofs::StepsLemmas::executes_refused))]
fn execute_first<H: KeyHash<Cell>, G: Gate, R>(
    setup: &SpeltSetup<'_, R, G>,
    line: Line<'_>,
) -> Result<(Option<Keeper<H>>, Vec<u8>), AllocError>
    ensures step { IfOk result (λ r. Executes H.hash_of (givens_of setup.now) line.entry.bytes.now line.entry.number None r.0 r.1.items) }
    ensures writes { IfOk result (λ r. IsQuiet line.entry.number r.1.items) }
{
    let alloc = setup.alloc;
    match read_first(alloc, line.bytes) {
        Ok(None) => Ok((None, Vec::new(alloc))),
        Ok(Some(schema)) => match Keeper::new(alloc, schema, setup.how.rows(), VIEWERS.most) {
            Ok(keeper) => Ok((Some(keeper), Vec::new(alloc))),
            Err(_) => Err(AllocError),
        },
        Err(fault) => {
            let block = refuse(setup, line.number, fault)?;
            Ok((None, block))
        }
    }
}

/// The same once there is a table.
#[tactic(auto, using(crate::proofs::StepsLemmas::steps_nothing, crate::proofs::StepsLemmas::steps_report))]
fn execute_kept<H: KeyHash<Cell> + Send + Sync, G: Gate, R: Threads + Wait>(
    setup: &SpeltSetup<'_, R, G>,
    keeper: &mut Keeper<H>,
    line: Line<'_>,
) -> Result<Block<H>, Want>
    requires publishable { editions.edition keeper.old + 1 < 2 ^ 64 }
    requires short { length line.bytes.now ≤ script_limit }
    ensures step { IfOk result (Steps H.hash_of (givens_of setup.now) line.entry.bytes.now line.entry.number (Some keeper.old) (Some keeper.new)) }
    ensures worker { IsErrOf result want.Worker → HasWorkers (deed (Some (editions.schema keeper.old)) line.entry.bytes.now) }
{
    let alloc = setup.alloc;
    match read_statement(alloc, keeper.schema(), line.bytes) {
        Ok(Statement::Nothing) => Ok(Block::Text(Vec::new(alloc))),
        Ok(Statement::Load(listing)) => {
            // The law by which loaded rows are those of puts behind all that came before; it does nothing.
            later_puts_lie_over();
            let text = execute_load(setup, keeper, listing, line.number)?;
            Ok(Block::quiet(text))
        }
        Ok(Statement::Put(row)) => quiet_block(put(setup, keeper, row, line.number)),
        Ok(Statement::Delete(key)) => quiet_block(delete(alloc, keeper, key)),
        Ok(Statement::Publish) => quiet_block(publish(setup, keeper)),
        Ok(Statement::Report(query)) => {
            Ok(execute_report(setup, keeper.last(), query, line.number)?)
        }
        Ok(Statement::Shape) => {
            // The law by which the block is that of the published rows; it does nothing.
            rows_have_the_shape_of_their_keys::<H>();
            text_block(shape_block(alloc, setup.manner, keeper.last(), line.number))
        }
        Err(fault) => quiet_block(refuse(setup, line.number, fault)),
    }
}

/// The block of a line that gives this text.
pub fn text_block<H: KeyHash<Cell>>(text: Result<Vec<u8>, AllocError>) -> Result<Block<H>, Want>
    ensures found { IfOk text (λ bytes. result ≡ Ok (Block.Text bytes)) }
    ensures memory { IfErr text (λ _. result ≡ Err want.Memory) }
    ensures worker { IsErrOf result want.Worker → ⊥ }
{
    match text {
        Ok(bytes) => Ok(Block::Text(bytes)),
        Err(AllocError) => Err(Want::Memory),
    }
}

/// What a line gives that writes nothing where it is accepted.
pub fn quiet_block<H: KeyHash<Cell>>(text: Result<Vec<u8>, AllocError>) -> Result<Block<H>, Want>
    ensures found { IfOk text (λ bytes. result ≡ Ok (quiet bytes)) }
    ensures memory { IfErr text (λ _. result ≡ Err want.Memory) }
    ensures worker { IsErrOf result want.Worker → ⊥ }
{
    match text {
        Ok(bytes) => Ok(Block::quiet(bytes)),
        Err(AllocError) => Err(Want::Memory),
    }
}

/// Lays a row over the draft, or refuses it where the draft is full.
pub fn put<D: Drafts, G: Gate, R>(
    setup: &SpeltSetup<'_, R, G>,
    table: &mut D,
    row: Row,
    number: u64,
) -> Result<Vec<u8>, AllocError>
    requires row { IsRowOf (editions.schema (D.editions table.old)) row }
    ensures step { IfOk result (λ block. PutsRow setup.now.manner.now.form (D.editions table.old) (D.editions table.new) row number block.items) }
{
    match lay(table, row)? {
        None => Ok(Vec::new(setup.alloc)),
        Some(rule) => refuse(setup, number, Fault::Line(rule)),
    }
}

/// The same, but for the text: it gives the rule that refuses the row, where one does.
#[tactic(auto, using(crate::proofs::ChangesLemmas::laid, crate::proofs::ChangesLemmas::overflown))]
pub fn lay<D: Drafts>(table: &mut D, row: Row) -> Result<Option<Refused>, AllocError>
    requires row { IsRowOf (editions.schema (D.editions table.old)) row }
    ensures step { IfOk result (λ rule. (form : Form) (number : ℕ) →
        PutsRow form (D.editions table.old) (D.editions table.new) row number (change_text form number rule)) }
{
    match table.put(row) {
        Ok(()) => Ok(None),
        Err(Refused::TooManyRows) => Ok(Some(Refused::TooManyRows)),
        Err(_) => Err(AllocError),
    }
}

/// Takes the row of the key out of the draft.
pub fn delete<D: Drafts>(alloc: Global, table: &mut D, key: Cell) -> Result<Vec<u8>, AllocError>
    ensures draft { OnOk result (ChangesDraft (D.editions table.old) (D.editions table.new) (remove (editions.draft (D.editions table.old)) key)) }
    ensures nothing { IfOk result (λ block. block.items ≡ []) }
{
    if table.delete(&key).is_err() {
        return Err(AllocError);
    }
    Ok(Vec::new(alloc))
}

/// Publishes the draft, and tells the gate. What the keeper tells of it is dropped: viewers look without being told.
pub fn publish<H: KeyHash<Cell>, G: Gate, R: Wait>(
    setup: &SpeltSetup<'_, R, G>,
    keeper: &mut Keeper<H>,
) -> Result<Vec<u8>, AllocError>
    requires { editions.edition keeper.old + 1 < 2 ^ 64 }
    ensures published { OnOk result (Publishes keeper.old keeper.new) }
    ensures nothing { IfOk result (λ block. block.items ≡ []) }
{
    if keeper.publish(setup.rt).is_err() {
        return Err(AllocError);
    }
    setup.gate.published(keeper.edition(), keeper.rows());
    Ok(Vec::new(setup.alloc))
}
