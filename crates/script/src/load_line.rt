//! The loads of a run: the rows of listed parts are read by workers, and laid over the draft.
ghost use Rattle.std.specs.Prelude.{◌≡◌, ◌≤◌, length, map, sum_by, IfOk};
ghost use Rattle.cells.specs.CellOrder.{cell_cmp};
ghost use Rattle.cells.specs.Tables.{AreRowsOf, laid_over};
ghost use Rattle.trie.specs.Maps.{map_of};
ghost use Rattle.board.specs.Editions as editions;
ghost use Rattle.crew.specs.Limits.{piece_limit};
ghost use Rattle.loader.specs.Limits.{listed_limit};
ghost use Rattle.loader.specs.Parts.{part_len, part_of, rows_of_parts};
ghost use Rattle.script.specs.Endings.{want_of_load};
ghost use Rattle.script.specs.Limits.{script_limit};
ghost use Rattle.script.specs.Listings.{rows_held, rows_loaded};
ghost use Rattle.script.specs.Desks.{LaysOrOverflows, LoadsRows};

use crate::block::refuse;
use crate::fault::Fault;
use crate::listing::{Listed, read_listing};
use crate::setup::SpeltSetup;
use board::Keeper;
use cells::{Cell, KeyHash};
use columns::RowTrie;
use crew::Gate;
use loader::{PartFault, load};
use report::Want;
use std::alloc::AllocError;
use std::sync::Wait;
use std::thread::Threads;

/// Puts the rows of the parts that the text lists, in listed order, and gives the line's block: nothing, or the
/// refusal of the listing, of the first listed part that has a faulty record, or of a draft that would have too many
/// rows. A refused load leaves the draft. [`Want::Worker`] where the thread of a worker could not be started,
/// otherwise [`Want::Memory`] where a growth was refused, both whatever faults the parts have.
pub fn execute_load<H: KeyHash<Cell> + Send + Sync, G: Gate, R: Threads + Wait>(
    setup: &SpeltSetup<'_, R, G>,
    keeper: &mut Keeper<H>,
    listing: &str,
    number: u64,
) -> Result<Vec<u8>, Want>
    requires { length listing.now ≤ script_limit }
    ensures step { IfOk result (λ block. LoadsRows setup.now.manner.now.form keeper.old keeper.new
        (rows_loaded (editions.schema keeper.old) (map (λ p. p.items) setup.now.parts.now) listing.now) number block.items) }
{
    match read_listing(setup.alloc, setup.parts, listing) {
        Ok(listed) => {
            let block = load_listed(setup, keeper, &listed, number);
            drop(listed);
            block
        }
        Err(fault) => Ok(refuse(setup, number, fault)?),
    }
}

/// The same of the listed parts.
fn load_listed<H: KeyHash<Cell> + Send + Sync, G: Gate, R: Threads + Wait>(
    setup: &SpeltSetup<'_, R, G>,
    keeper: &mut Keeper<H>,
    listed: &[Listed<'_>],
    number: u64,
) -> Result<Vec<u8>, Want>
    requires many { length listed.now ≤ piece_limit }
    requires within { sum_by part_len (map part_of listed.now) ≤ listed_limit }
    ensures step { IfOk result (λ block. LoadsRows setup.now.manner.now.form keeper.old keeper.new
        (rows_held (rows_of_parts (editions.schema keeper.old) (map part_of listed.now))) number block.items) }
{
    let workers = setup.how.workers();
    match load(
        setup.rt,
        setup.alloc,
        listed,
        keeper.schema(),
        workers,
        setup.gate,
    ) {
        Ok(rows) => Ok(lay_over(setup, keeper, rows, number)?),
        Err(PartFault::Bad { part, entry }) => {
            let fault = Fault::Part {
                part,
                record: entry,
            };
            Ok(refuse(setup, number, fault)?)
        }
        Err(fault) => Err(want_of(fault)),
    }
}

/// What a load wanted that has no rows, and no faulty part.
fn want_of(fault: PartFault) -> Want
    ensures { result ≡ want_of_load fault }
{
    match fault {
        PartFault::NoWorker => Want::Worker,
        _ => Want::Memory,
    }
}

/// Lays loaded rows over the draft, or refuses them where it would have too many.
fn lay_over<H: KeyHash<Cell>, G: Gate, R>(
    setup: &SpeltSetup<'_, R, G>,
    keeper: &mut Keeper<H>,
    rows: RowTrie<H>,
    number: u64,
) -> Result<Vec<u8>, AllocError>
    requires { AreRowsOf (editions.schema keeper.old) (map_of cell_cmp rows) }
    ensures step { IfOk result (λ block. LaysOrOverflows setup.now.manner.now.form keeper.old keeper.new
        (laid_over (map_of cell_cmp rows) (editions.draft keeper.old)) number block.items) }
{
    match keeper.absorb(rows) {
        Ok(()) => Ok(Vec::new(setup.alloc)),
        Err(refused) => refuse(setup, number, Fault::Line(refused)),
    }
}
