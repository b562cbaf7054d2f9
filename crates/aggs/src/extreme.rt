//! What MIN and MAX share: a cell that may be there.
ghost use Rattle.std.specs.Prelude.{◌≡◌, IfOk};
ghost use Rattle.std.specs.Option.{option_copied};
ghost use Rattle.aggs.specs.Values.{total_or_null};
ghost use Rattle.cells.specs.TotalOrder.{cell_total};

use cells::{Cell, Total};
use std::alloc::AllocError;

/// A copy of a cell that may be there.
pub fn copied(cell: Option<&Cell>) -> Result<Option<Cell>, AllocError>
    ensures { IfOk result (λ c. c ≡ option_copied cell.entry) }
{
    match cell {
        None => Ok(None),
        Some(cell) => Ok(Some(cell.clone()?)),
    }
}

/// A cell that may be there as a value.
pub fn total_of(cell: Option<&Cell>) -> Result<Total, AllocError>
    ensures { IfOk result (λ t. t ≡ total_or_null cell_total (option_copied cell.entry)) }
{
    match cell {
        None => Ok(Total::Null),
        Some(Cell::Null) => Ok(Total::Null),
        Some(Cell::Int(n)) => Ok(Total::Int(i128::from(*n))),
        Some(Cell::Text(text)) => Ok(Total::Text(text.clone()?)),
    }
}
