//! Different cells in a list.
ghost use Rattle.std.specs.Prelude.{◌≡◌, IfOk, length, not};
ghost use Rattle.std.specs.FinSet.{from_list, len};
ghost use Rattle.aggs.specs.Differing.{different};
ghost use Rattle.aggs.specs.Values.{is_null};
ghost use Rattle.aggs.specs.declared.acc.Acc.TheVariants as acc;

use aggs::Acc;
use cells::{Cell, KeyHash, Tuple};
use std::alloc::{AllocError, Global};
use std::marker::Model;
use std::sync::Arc;

/// Different cells, of which none is NULL, in a list that its copies share. Contracts see the set of them.
#[derive(Drop)]
pub struct DifferentCells {
    cells: Arc<Vec<Cell>>,
}

impl Model for DifferentCells {
    ghost use Rattle.std.specs.Prelude.{◌≡◌, length};
    ghost use Rattle.std.specs.FinSet.{len};
    ghost use Rattle.aggs.specs.Differing.{Cells, different};
    ghost use Rattle.groups.specs.Codes.{coded_cells};

    ghost Value = { Cells };

    ghost coded = { coded_cells };

    ghost view = { λ d. different d.cells.value.items };

    // None is NULL, and none comes twice.
    ghost invariant = { λ d. len (different d.cells.value.items) ≡ length d.cells.value.items };
}

impl DifferentCells {
    /// Those of a list.
    pub fn of(alloc: Global, cells: Vec<Cell>) -> Result<DifferentCells, AllocError>
        ensures { IfOk result (λ d. d ≡ different cells.items) }
    {
        let cells = once_each(cells);
        Ok(DifferentCells {
            cells: Arc::new(alloc, cells)?,
        })
    }

    /// How many there are.
    pub fn len(&self) -> u64
        ensures { result ≡ len self.now }
    {
        self.cells.len() as u64
    }

    /// The same ones, in the same list.
    pub fn share(&self) -> Result<DifferentCells, AllocError>
        ensures { IfOk result (λ d. d ≡ self.now) }
    {
        Ok(DifferentCells {
            cells: Arc::try_clone(&self.cells)?,
        })
    }

    /// The cells, in a list.
    pub fn list(&self) -> Result<Tuple, AllocError>
        ensures { IfOk result (λ list. from_list list ≡ self.now) }
    {
        let cells = copies(&self.cells)?;
        Ok(Tuple::new(cells))
    }

    /// The accumulator of COUNT DISTINCT that has them.
    pub fn accumulator<H: KeyHash<Cell>>(&self, alloc: Global) -> Result<Acc<H>, AllocError>
        ensures { IfOk result (λ a. a ≡ acc.CountDistinct self.now) }
    {
        let cells: &Vec<Cell> = &self.cells;
        Acc::of_different(alloc, cells.clone()?)
    }
}

/// Copies of the cells.
fn copies(cells: &Vec<Cell>) -> Result<Vec<Cell>, AllocError>
    ensures { IfOk result (λ v. v.items ≡ cells.now.items) }
{
    cells.clone()
}

/// The cells that are not NULL, each once, rising.
fn once_each(cells: Vec<Cell>) -> Vec<Cell>
    ensures same { different result.items ≡ different cells.items }
    ensures once { len (different result.items) ≡ length result.items }
{
    let mut cells = cells;
    cells.sort_unstable();
    cells.dedup();
    cells.retain(|cell| is_present(cell));
    cells
}

/// Whether the cell is not NULL.
fn is_present(cell: &Cell) -> bool
    ensures { result ≡ not (is_null cell.now) }
{
    !matches!(cell, Cell::Null)
}
