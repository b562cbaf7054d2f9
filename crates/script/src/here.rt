//! The output of a script, made in the thread that calls.
ghost use Rattle.std.specs.Prelude.{◌≡◌, ◌+◌, ◌<◌, ◌≤◌, ◌^◌, [], ℕ, List, None, Some, IfErr, IfOk, OnOk, length, map, sum_by};
ghost use Rattle.std.specs.Str.Lines.{lines};
ghost use Rattle.cells.specs.CellOrder.{cell_cmp};
ghost use Rattle.cells.specs.Tables.{AreRowsOf, laid_over};
ghost use Rattle.trie.specs.Maps.{map_of};
ghost use Rattle.board.specs.Editions.{Publishes};
ghost use Rattle.board.specs.Editions as editions;
ghost use Rattle.crew.specs.Limits.{piece_limit};
ghost use Rattle.loader.specs.Parts.{part_len, part_of, rows_of_parts};
ghost use Rattle.report.specs.Waiting.{Heads};
ghost use Rattle.report.specs.declared.want.Want.TheVariants as want;
ghost use Rattle.script.specs.Blocks.{Steps, WillBe};
ghost use Rattle.script.specs.Desks.{Executes, LaysOrOverflows, LoadsRows, Publishable};
ghost use Rattle.script.specs.Givens.{givens_in, givens_of};
ghost use Rattle.script.specs.Limits.{script_limit};
ghost use Rattle.script.specs.Listings.{rows_held, rows_loaded};
ghost use Rattle.script.specs.Output.{AreBlocks, IsOutput};
ghost use Rattle.script.specs.Stops.{IsQuiet};

use crate::block::{Asked, Block, refuse, shape_block};
use crate::fault::Fault;
use crate::how::How;
use crate::limits::{MAX_PARTS, MAX_SCRIPT_BYTES};
use crate::lines::lines_of;
use crate::listing::{Listed, read_listing};
use crate::manner::Manner;
use crate::on_refusal::OnRefusal;
use crate::reporting::execute_report;
use crate::setup::SpeltSetup;
use crate::statement::{Statement, read_first, read_statement};
use crate::step::{Line, delete, put, quiet_block, text_block};
use board::{Ledger, rows_have_the_shape_of_their_keys};
use cells::{Cell, KeyHash, Refused, Tuple, later_puts_lie_over};
use columns::RowTrie;
use crew::Open;
use loader::{PartFault, load_here};
use report::{Want, answer_here};
use std::alloc::{AllocError, Global};

/// What a run is made with that has no thread beside the one that calls. It has no handle, and tells nobody.
type Here<'a> = SpeltSetup<'a, Open, Open>;

/// The output of a script, as [`run_in`](crate::run_in) writes it for a run that goes on at refusals and has no viewers, made in
/// the thread that calls, for programs that have no handle. Of `how` only the limit on rows counts.
///
/// The only error is that a growth was refused. A script of more than 1,048,576 bytes and more than 64 parts are refused as a
/// whole: the output is `line 0 refused 15`. The parts are numbered from 1, in their order, for the `load` lines of the script.
pub fn output_here<H: KeyHash<Cell> + KeyHash<Tuple>>(
    alloc: Global,
    script: &[u8],
    parts: &[Vec<u8>],
    how: &How,
    manner: &Manner,
) -> Result<Vec<u8>, AllocError>
    ensures { IfOk result (λ text. IsOutput H.KeyHash-1.hash_of (givens_in manner.now how.now.rows parts.now) script.now text.items) }
{
    output_of::<H>(alloc, script, parts, how, manner, &Open)
}

/// The same, with what stands in place of a handle, and of who is told.
fn output_of<'a, H: KeyHash<Cell> + KeyHash<Tuple>>(
    alloc: Global,
    script: &[u8],
    parts: &'a [Vec<u8>],
    how: &'a How,
    manner: &'a Manner,
    nobody: &'a Open,
) -> Result<Vec<u8>, AllocError>
    ensures { IfOk result (λ text. IsOutput H.KeyHash-1.hash_of (givens_in manner.now how.now.rows parts.now) script.now text.items) }
{
    let setup = SpeltSetup {
        rt: nobody,
        alloc,
        how,
        parts,
        viewing: None,
        on_refusal: OnRefusal::GoesOn,
        manner,
        gate: nobody,
    };
    if script.len() > MAX_SCRIPT_BYTES || parts.len() > MAX_PARTS {
        return refuse(&setup, 0, Fault::Line(Refused::Limit));
    }
    blocks_here::<H>(&setup, script)
}

/// The blocks of the lines of a script that is not too long.
fn blocks_here<H: KeyHash<Cell> + KeyHash<Tuple>>(
    setup: &Here<'_>,
    script: &[u8],
) -> Result<Vec<u8>, AllocError>
    requires { length script.now ≤ script_limit }
    ensures { IfOk result (λ text. AreBlocks H.KeyHash-1.hash_of (givens_of setup.now) [] (lines script.now) text.items) }
{
    let mut text = Vec::new(setup.alloc);
    let mut desk: Option<Ledger<H>> = None;
    let mut number = 0u64;
    for bytes in lines_of(script) {
        number += 1;
        let Ok(block) = execute_here(setup, &mut desk, Line { number, bytes }) else {
            return Err(AllocError);
        };
        let said = text_of(setup.alloc, block)?;
        text.extend_from_slice(said.as_slice())?;
    }
    Ok(text)
}

/// Does what a line says, as [`execute`](crate::step::execute), in the thread that calls. Any line may want memory.
fn execute_here<H: KeyHash<Cell>>(
    setup: &Here<'_>,
    desk: &mut Option<Ledger<H>>,
    line: Line<'_>,
) -> Result<Block<H>, Want>
    requires publishable { Publishable desk.old }
    requires short { length line.bytes.now ≤ script_limit }
    ensures step { IfOk result (Steps H.hash_of (givens_of setup.now) line.entry.bytes.now line.entry.number desk.old desk.new) }
{
    if let Some(ledger) = desk {
        return execute_kept_here(setup, ledger, line);
    }
    let (ledger, block) = execute_first_here(setup, line)?;
    *desk = ledger;
    Ok(Block::quiet(block))
}

/// The same before there is a table.
#[tactic(auto, using(crate::proofs::StepsLemmas::executes_nothing, crate::proofs::StepsLemmas::executes_refused))]
fn execute_first_here<H: KeyHash<Cell>>(
    setup: &Here<'_>,
    line: Line<'_>,
) -> Result<(Option<Ledger<H>>, Vec<u8>), AllocError>
    ensures step { IfOk result (λ r. Executes H.hash_of (givens_of setup.now) line.entry.bytes.now line.entry.number None r.0 r.1.items) }
    ensures writes { IfOk result (λ r. IsQuiet line.entry.number r.1.items) }
{
    let alloc = setup.alloc;
    match read_first(alloc, line.bytes) {
        Ok(None) => Ok((None, Vec::new(alloc))),
        Ok(Some(schema)) => match Ledger::new(alloc, schema, setup.how.rows()) {
            Ok(ledger) => Ok((Some(ledger), Vec::new(alloc))),
            Err(_) => Err(AllocError),
        },
        Err(fault) => {
            let block = refuse(setup, line.number, fault)?;
            Ok((None, block))
        }
    }
}

/// The same once there is a table.
#[tactic(auto, using(crate::proofs::StepsLemmas::steps_nothing, crate::proofs::StepsLemmas::steps_report))]
fn execute_kept_here<H: KeyHash<Cell>>(
    setup: &Here<'_>,
    ledger: &mut Ledger<H>,
    line: Line<'_>,
) -> Result<Block<H>, Want>
    requires publishable { editions.edition ledger.old + 1 < 2 ^ 64 }
    requires short { length line.bytes.now ≤ script_limit }
    ensures step { IfOk result (Steps H.hash_of (givens_of setup.now) line.entry.bytes.now line.entry.number (Some ledger.old) (Some ledger.new)) }
{
    let alloc = setup.alloc;
    match read_statement(alloc, ledger.schema(), line.bytes) {
        Ok(Statement::Nothing) => Ok(Block::Text(Vec::new(alloc))),
        Ok(Statement::Load(listing)) => {
            // The law by which loaded rows are those of puts behind all that came before; it does nothing.
            later_puts_lie_over();
            let text = execute_load_here(setup, ledger, listing, line.number)?;
            Ok(Block::quiet(text))
        }
        Ok(Statement::Put(row)) => quiet_block(put(setup, ledger, row, line.number)),
        Ok(Statement::Delete(key)) => quiet_block(delete(alloc, ledger, key)),
        Ok(Statement::Publish) => quiet_block(publish_here(alloc, ledger)),
        Ok(Statement::Report(query)) => {
            Ok(execute_report(setup, ledger.last(), query, line.number)?)
        }
        Ok(Statement::Shape) => {
            // The law by which the block is that of the published rows; it does nothing.
            rows_have_the_shape_of_their_keys::<H>();
            text_block(shape_block(alloc, setup.manner, ledger.last(), line.number))
        }
        Err(fault) => quiet_block(refuse(setup, line.number, fault)),
    }
}

/// Publishes the draft.
fn publish_here<H: KeyHash<Cell>>(
    alloc: Global,
    ledger: &mut Ledger<H>,
) -> Result<Vec<u8>, AllocError>
    requires { editions.edition ledger.old + 1 < 2 ^ 64 }
    ensures published { OnOk result (Publishes ledger.old ledger.new) }
    ensures nothing { IfOk result (λ block. block.items ≡ []) }
{
    if ledger.publish().is_err() {
        return Err(AllocError);
    }
    Ok(Vec::new(alloc))
}

/// Puts the rows of the parts that the text lists, and gives the line's block, as [`execute_load`](crate::load_line::execute_load).
fn execute_load_here<H: KeyHash<Cell>>(
    setup: &Here<'_>,
    ledger: &mut Ledger<H>,
    listing: &str,
    number: u64,
) -> Result<Vec<u8>, AllocError>
    requires { length listing.now ≤ script_limit }
    ensures step { IfOk result (λ block. LoadsRows setup.now.manner.now.form ledger.old ledger.new
        (rows_loaded (editions.schema ledger.old) (map (λ p. p.items) setup.now.parts.now) listing.now) number block.items) }
{
    match read_listing(setup.alloc, setup.parts, listing) {
        Ok(listed) => {
            let block = load_listed_here(setup, ledger, &listed, number);
            drop(listed);
            block
        }
        Err(fault) => refuse(setup, number, fault),
    }
}

/// The same of the listed parts.
fn load_listed_here<H: KeyHash<Cell>>(
    setup: &Here<'_>,
    ledger: &mut Ledger<H>,
    listed: &[Listed<'_>],
    number: u64,
) -> Result<Vec<u8>, AllocError>
    requires many { length listed.now ≤ piece_limit }
    ensures step { IfOk result (λ block. LoadsRows setup.now.manner.now.form ledger.old ledger.new
        (rows_held (rows_of_parts (editions.schema ledger.old) (map part_of listed.now))) number block.items) }
{
    match load_here(setup.alloc, listed, ledger.schema()) {
        Ok(rows) => lay_over_here(setup, ledger, rows, number),
        Err(PartFault::Bad { part, entry }) => {
            let fault = Fault::Part {
                part,
                record: entry,
            };
            refuse(setup, number, fault)
        }
        Err(_) => Err(AllocError),
    }
}

/// Lays loaded rows over the draft, or refuses them where it would have too many.
fn lay_over_here<H: KeyHash<Cell>>(
    setup: &Here<'_>,
    ledger: &mut Ledger<H>,
    rows: RowTrie<H>,
    number: u64,
) -> Result<Vec<u8>, AllocError>
    requires { AreRowsOf (editions.schema ledger.old) (map_of cell_cmp rows) }
    ensures step { IfOk result (λ block. LaysOrOverflows setup.now.manner.now.form ledger.old ledger.new
        (laid_over (map_of cell_cmp rows) (editions.draft ledger.old)) number block.items) }
{
    match ledger.absorb(rows) {
        Ok(()) => Ok(Vec::new(setup.alloc)),
        Err(refused) => refuse(setup, number, Fault::Line(refused)),
    }
}

/// The text of a line's block. A report is answered here.
fn text_of<H: KeyHash<Cell> + KeyHash<Tuple>>(
    alloc: Global,
    block: Block<H>,
) -> Result<Vec<u8>, AllocError>
    ensures { (text : List ℕ) → WillBe block text → IfOk result (λ said. said.items ≡ text) }
{
    match block {
        Block::Text(text) => Ok(text),
        Block::Refusal(text) => Ok(text),
        Block::Report(asked) => {
            let text = answered(alloc, &asked);
            drop(asked);
            text
        }
    }
}

/// How the block of a report begins, and the answer.
fn answered<H: KeyHash<Cell> + KeyHash<Tuple>>(
    alloc: Global,
    asked: &Asked<H>,
) -> Result<Vec<u8>, AllocError>
    ensures { (text : List ℕ) → Heads asked.now.opening.items asked.now.snapshot asked.now.question text → IfOk result (λ said. said.items ≡ text) }
{
    let answer = answer_here(alloc, &asked.snapshot, &asked.question)?;
    let mut text = Vec::with_capacity(alloc, asked.opening.len().saturating_add(answer.len()))?;
    text.extend_from_slice(asked.opening.as_slice())?;
    text.extend_from_slice(answer.as_slice())?;
    Ok(text)
}
