//! A run over a shard of the table, which tells what it has for those who join what all shards tell.
ghost use Rattle.std.specs.Prelude.{◌≡◌, ◌+◌, ◌<◌, ◌≤◌, ◌^◌, ◌⊎◌, ◌↔◌, [], ◌∷◌, IfErr, IfOk, IsErr, IsErrOf, None, OnOk, Some, length, map};
ghost use Rattle.std.specs.Str.Lines.{lines};
ghost use Rattle.cells.specs.CellOrder.{cell_cmp};
ghost use Rattle.cells.specs.Fitting.{IsRowOf};
ghost use Rattle.cells.specs.Tables.{AreRowsOf, laid_over};
ghost use Rattle.cells.specs.Updates.{Delete, Put};
ghost use Rattle.trie.specs.Maps.{map_of};
ghost use Rattle.board.specs.Editions.{ChangesDraft, Publishes};
ghost use Rattle.board.specs.Editions as editions;
ghost use Rattle.crew.specs.Limits.{piece_limit};
ghost use Rattle.loader.specs.Parts.{part_of, rows_of_parts};
ghost use Rattle.loader.specs.Shards.{takes};
ghost use Rattle.script.specs.Desks.{Publishable};
ghost use Rattle.script.specs.Givens.{Givens};
ghost use Rattle.script.specs.Limits.{part_limit, script_limit};
ghost use Rattle.script.specs.Listings.{rows_held, rows_loaded};
ghost use Rattle.script.specs.Telling.{EndsBy, EndsLine, EndsOver, EndsScript, EndsWithin, LaysSilently, LoadsShare, TellsLine, TellsReport, puts_of};
ghost use Rattle.script.specs.Told.{AreTold, FitAll};

use crate::fault::Fault;
use crate::how::How;
use crate::limits::{MAX_PARTS, MAX_SCRIPT_BYTES};
use crate::lines::lines_of;
use crate::listing::{Listed, read_listing};
use crate::reporting::read_plan;
use crate::statement::{Statement, read_first, read_statement};
use crate::step::Line;
use crate::told::Told;
use board::{Ledger, Snapshot};
use cells::{Cell, KeyHash, Refused, Row, Tuple, later_puts_lie_over};
use columns::RowTrie;
use loader::{PartFault, Shard, load_shard_here};
use report::told_here;
use std::alloc::{AllocError, Global};

/// Why a run over a shard tells nothing.
#[derive(Clone, Copy, Debug, PartialEq, Eq, Drop)]
pub enum Untold {
    /// A growth was refused.
    OutOfMemory,
    /// The script has too many bytes, or there are too many parts: it is refused as a whole.
    TooMuch,
    /// The line, counted from 1, asks for a shape, which what shards tell can't give.
    Shape { line: u64 },
    /// The line, counted from 1, would leave more rows of the shard than the limit says.
    TooManyRows { line: u64 },
}

/// What a run over a shard is made with.
#[derive(Drop)]
struct Sharing<'a> {
    alloc: Global,
    parts: &'a [Vec<u8>],
    how: &'a How,
    shard: &'a Shard,
}

/// What a run over a shard tells of a script, one after another for its lines. It is made in the thread that calls, over a table
/// that holds no other rows than those whose keys belong to the shard; `how` limits these rows, and nothing else of it counts.
/// The parts are numbered from 1, in their order, for the `load` lines of the script. They and the script are only read; what is
/// told is the caller's.
///
/// What is told is so as long as the whole table has room for the rows of each line, which no shard can see by itself: who joins
/// what the shards tell looks after that.
///
/// [`Untold::TooMuch`] exactly where the script has more than 1,048,576 bytes, or there are more than 64 parts.
/// [`Untold::Shape`] where a line asks for a shape, and [`Untold::TooManyRows`] where one would leave more rows of the shard than
/// the limit says; both name the line, at which the run ends. [`Untold::OutOfMemory`] where a growth was refused.
pub fn tell_here<H: KeyHash<Cell> + KeyHash<Tuple>>(
    alloc: Global,
    script: &[u8],
    parts: &[Vec<u8>],
    how: &How,
    shard: &Shard,
) -> Result<Vec<Told>, Untold>
    ensures told { (givens : Givens) → givens.parts ≡ map (λ p. p.items) parts.now → FitAll givens [] (lines script.now) →
        IfOk result (λ tolds. AreTold givens (takes H.KeyHash-1.hash_of shard.now) [] (lines script.now) tolds.items) }
    ensures much { IsErrOf result Untold.TooMuch ↔ ((script_limit < length script.now) ⊎ (part_limit < length parts.now)) }
    ensures ends { IfErr result (EndsScript (takes H.KeyHash-1.hash_of shard.now) (map (λ p. p.items) parts.now) how.now.rows script.now) }
{
    if script.len() > MAX_SCRIPT_BYTES {
        return Err(Untold::TooMuch);
    }
    if parts.len() > MAX_PARTS {
        return Err(Untold::TooMuch);
    }
    let sharing = Sharing {
        alloc,
        parts,
        how,
        shard,
    };
    tell_lines::<H>(&sharing, script)
}

/// The same of the lines of a script that is not too long.
fn tell_lines<H: KeyHash<Cell> + KeyHash<Tuple>>(
    sharing: &Sharing<'_>,
    script: &[u8],
) -> Result<Vec<Told>, Untold>
    requires { length script.now ≤ script_limit }
    ensures told { (givens : Givens) → givens.parts ≡ map (λ p. p.items) sharing.now.parts.now → FitAll givens [] (lines script.now) →
        IfOk result (λ tolds. AreTold givens (takes H.KeyHash-1.hash_of sharing.now.shard.now) [] (lines script.now) tolds.items) }
    ensures ends { IfErr result (EndsWithin (takes H.KeyHash-1.hash_of sharing.now.shard.now) (map (λ p. p.items) sharing.now.parts.now)
        sharing.now.how.now.rows (lines script.now)) }
{
    let mut tolds = Vec::new(sharing.alloc);
    let mut desk: Option<Ledger<H>> = None;
    let mut number = 0u64;
    for bytes in lines_of(script) {
        number += 1;
        let told = tell_line(sharing, &mut desk, Line { number, bytes })?;
        let Ok(()) = tolds.push(told) else {
            return Err(Untold::OutOfMemory);
        };
    }
    Ok(tolds)
}

/// Does what a line says, so far as the shard takes part in it, and gives what is told of the line.
fn tell_line<H: KeyHash<Cell> + KeyHash<Tuple>>(
    sharing: &Sharing<'_>,
    desk: &mut Option<Ledger<H>>,
    line: Line<'_>,
) -> Result<Told, Untold>
    requires publishable { Publishable desk.old }
    requires short { length line.bytes.now ≤ script_limit }
    ensures step { IfOk result (TellsLine (takes H.KeyHash-1.hash_of sharing.now.shard.now) (map (λ p. p.items) sharing.now.parts.now)
        sharing.now.how.now.rows line.entry.bytes.now desk.old desk.new) }
    ensures ends { IfErr result (EndsLine (takes H.KeyHash-1.hash_of sharing.now.shard.now) (map (λ p. p.items) sharing.now.parts.now)
        desk.old line.entry.number line.entry.bytes.now) }
{
    if let Some(ledger) = desk {
        return tell_kept(sharing, ledger, line);
    }
    *desk = tell_first(sharing, line.bytes)?;
    Ok(Told::Nothing)
}

/// The same before there is a table: it tells nothing.
#[tactic(auto, using(crate::proofs::TellingLemmas::first_nothing))]
fn tell_first<H: KeyHash<Cell> + KeyHash<Tuple>>(
    sharing: &Sharing<'_>,
    line: &[u8],
) -> Result<Option<Ledger<H>>, Untold>
    ensures step { IfOk result (λ desk. TellsLine (takes H.KeyHash-1.hash_of sharing.now.shard.now) (map (λ p. p.items) sharing.now.parts.now)
        sharing.now.how.now.rows line.now None desk Told.Nothing) }
    ensures ends { IfErr result (λ e. e ≡ Untold.OutOfMemory) }
{
    match read_first(sharing.alloc, line) {
        Ok(None) => Ok(None),
        Ok(Some(schema)) => match Ledger::new(sharing.alloc, schema, sharing.how.rows()) {
            Ok(ledger) => Ok(Some(ledger)),
            Err(_) => Err(Untold::OutOfMemory),
        },
        Err(fault) => {
            of_the_line(fault)?;
            Ok(None)
        }
    }
}

/// The same once there is a table.
fn tell_kept<H: KeyHash<Cell> + KeyHash<Tuple>>(
    sharing: &Sharing<'_>,
    ledger: &mut Ledger<H>,
    line: Line<'_>,
) -> Result<Told, Untold>
    requires publishable { editions.edition ledger.old + 1 < 2 ^ 64 }
    requires short { length line.bytes.now ≤ script_limit }
    ensures step { IfOk result (TellsLine (takes H.KeyHash-1.hash_of sharing.now.shard.now) (map (λ p. p.items) sharing.now.parts.now)
        sharing.now.how.now.rows line.entry.bytes.now (Some ledger.old) (Some ledger.new)) }
    ensures ends { IfErr result (EndsLine (takes H.KeyHash-1.hash_of sharing.now.shard.now) (map (λ p. p.items) sharing.now.parts.now)
        (Some ledger.old) line.entry.number line.entry.bytes.now) }
{
    match read_statement(sharing.alloc, ledger.schema(), line.bytes) {
        Ok(Statement::Nothing) => Ok(Told::Nothing),
        Ok(Statement::Load(listing)) => tell_load(sharing, ledger, listing, line.number),
        Ok(Statement::Put(row)) => put(sharing, ledger, row, line.number),
        Ok(Statement::Delete(key)) => delete(sharing, ledger, key),
        Ok(Statement::Publish) => publish(ledger),
        Ok(Statement::Report(query)) => tell_report(sharing.alloc, ledger.last(), query),
        Ok(Statement::Shape) => Err(Untold::Shape { line: line.number }),
        Err(fault) => {
            of_the_line(fault)?;
            Ok(Told::Nothing)
        }
    }
}

/// Ends the run where the fault is want of memory, which is none of a line.
fn of_the_line(fault: Fault) -> Result<(), Untold>
    ensures memory { fault ≡ Fault.Line Refused.OutOfMemory → IsErr result }
    ensures ends { IfErr result (λ e. e ≡ Untold.OutOfMemory) }
{
    if fault == Fault::Line(Refused::OutOfMemory) {
        return Err(Untold::OutOfMemory);
    }
    Ok(())
}

/// Lays a row over the draft, where its key belongs to the shard.
fn put<H: KeyHash<Cell>>(
    sharing: &Sharing<'_>,
    ledger: &mut Ledger<H>,
    row: Row,
    line: u64,
) -> Result<Told, Untold>
    requires { IsRowOf (editions.schema ledger.old) row }
    ensures laid { IfOk result (LaysSilently (takes H.hash_of sharing.now.shard.now) ledger.old ledger.new (Put row ∷ [])) }
    ensures ends { IfErr result (EndsBy (takes H.hash_of sharing.now.shard.now) ledger.old line (Put row ∷ [])) }
{
    let Ok(belongs) = takes_row::<H>(sharing, &row) else {
        return Err(Untold::OutOfMemory);
    };
    if !belongs {
        return Ok(Told::Nothing);
    }
    match ledger.put(row) {
        Ok(()) => Ok(Told::Nothing),
        Err(Refused::TooManyRows) => Err(Untold::TooManyRows { line }),
        Err(_) => Err(Untold::OutOfMemory),
    }
}

/// Whether the shard takes a row, by its key.
fn takes_row<H: KeyHash<Cell>>(sharing: &Sharing<'_>, row: &Row) -> Result<bool, AllocError>
    ensures { IfOk result (λ belongs. belongs ≡ takes H.hash_of sharing.now.shard.now row.now.key) }
{
    let key = row.key().owned(sharing.alloc)?;
    Ok(sharing.shard.takes::<H>(&key))
}

/// Takes the row of the key out of the draft, where the key belongs to the shard.
fn delete<H: KeyHash<Cell>>(
    sharing: &Sharing<'_>,
    ledger: &mut Ledger<H>,
    key: Cell,
) -> Result<Told, Untold>
    ensures laid { IfOk result (LaysSilently (takes H.hash_of sharing.now.shard.now) ledger.old ledger.new (Delete key ∷ [])) }
    ensures ends { IfErr result (λ e. e ≡ Untold.OutOfMemory) }
{
    if !sharing.shard.takes::<H>(&key) {
        return Ok(Told::Nothing);
    }
    match ledger.delete(&key) {
        Ok(()) => Ok(Told::Nothing),
        Err(_) => Err(Untold::OutOfMemory),
    }
}

/// Publishes the draft.
fn publish<H: KeyHash<Cell>>(ledger: &mut Ledger<H>) -> Result<Told, Untold>
    requires { editions.edition ledger.old + 1 < 2 ^ 64 }
    ensures published { OnOk result (Publishes ledger.old ledger.new) }
    ensures nothing { IfOk result (λ told. told ≡ Told.Nothing) }
    ensures ends { IfErr result (λ e. e ≡ Untold.OutOfMemory) }
{
    if ledger.publish().is_err() {
        return Err(Untold::OutOfMemory);
    }
    Ok(Told::Nothing)
}

/// Puts those rows of the parts that the text lists whose keys belong to the shard, or tells the first fault of the load, whatever
/// shard its row would be in.
fn tell_load<H: KeyHash<Cell>>(
    sharing: &Sharing<'_>,
    ledger: &mut Ledger<H>,
    listing: &str,
    line: u64,
) -> Result<Told, Untold>
    requires { length listing.now ≤ script_limit }
    ensures step { IfOk result (LoadsShare (takes H.hash_of sharing.now.shard.now) ledger.old ledger.new
        (rows_loaded (editions.schema ledger.old) (map (λ p. p.items) sharing.now.parts.now) listing.now)) }
    ensures ends { IfErr result (EndsBy (takes H.hash_of sharing.now.shard.now) ledger.old line
        (puts_of (rows_loaded (editions.schema ledger.old) (map (λ p. p.items) sharing.now.parts.now) listing.now))) }
{
    match read_listing(sharing.alloc, sharing.parts, listing) {
        Ok(listed) => {
            let told = load_listed(sharing, ledger, &listed, line);
            drop(listed);
            told
        }
        Err(fault) => {
            of_the_line(fault)?;
            Ok(Told::Refused(fault))
        }
    }
}

/// The same of the listed parts.
fn load_listed<H: KeyHash<Cell>>(
    sharing: &Sharing<'_>,
    ledger: &mut Ledger<H>,
    listed: &[Listed<'_>],
    line: u64,
) -> Result<Told, Untold>
    requires many { length listed.now ≤ piece_limit }
    ensures step { IfOk result (LoadsShare (takes H.hash_of sharing.now.shard.now) ledger.old ledger.new
        (rows_held (rows_of_parts (editions.schema ledger.old) (map part_of listed.now)))) }
    ensures ends { IfErr result (EndsBy (takes H.hash_of sharing.now.shard.now) ledger.old line
        (puts_of (rows_held (rows_of_parts (editions.schema ledger.old) (map part_of listed.now))))) }
{
    match load_shard_here(sharing.alloc, listed, ledger.schema(), sharing.shard) {
        Ok(rows) => {
            // The law by which loaded rows are those of puts behind all that came before; it does nothing.
            later_puts_lie_over();
            lay_over(ledger, rows, line)
        }
        Err(PartFault::Bad { part, entry }) => Ok(Told::Refused(Fault::Part {
            part,
            record: entry,
        })),
        Err(_) => Err(Untold::OutOfMemory),
    }
}

/// Lays loaded rows over the draft.
fn lay_over<H: KeyHash<Cell>>(
    ledger: &mut Ledger<H>,
    rows: RowTrie<H>,
    line: u64,
) -> Result<Told, Untold>
    requires { AreRowsOf (editions.schema ledger.old) (map_of cell_cmp rows) }
    ensures draft { OnOk result (ChangesDraft ledger.old ledger.new (laid_over (map_of cell_cmp rows) (editions.draft ledger.old))) }
    ensures nothing { IfOk result (λ told. told ≡ Told.Nothing) }
    ensures ends { IfErr result (EndsOver ledger.old line (laid_over (map_of cell_cmp rows) (editions.draft ledger.old))) }
{
    match ledger.absorb(rows) {
        Ok(()) => Ok(Told::Nothing),
        Err(Refused::TooManyRows) => Err(Untold::TooManyRows { line }),
        Err(_) => Err(Untold::OutOfMemory),
    }
}

/// What is kept of the edition's rows for the plan of a report, or nothing where the report is refused.
fn tell_report<H: KeyHash<Cell> + KeyHash<Tuple>>(
    alloc: Global,
    last: &Snapshot<H>,
    query: &str,
) -> Result<Told, Untold>
    ensures told { IfOk result (TellsReport last.now query.now) }
    ensures ends { IfErr result (λ e. e ≡ Untold.OutOfMemory) }
{
    match read_plan(alloc, query, last.schema()) {
        Ok(plan) => match told_here(alloc, last, &plan) {
            Ok(sets) => Ok(Told::Kept(sets)),
            Err(_) => Err(Untold::OutOfMemory),
        },
        Err(fault) => {
            of_the_line(Fault::Line(fault))?;
            Ok(Told::Nothing)
        }
    }
}
