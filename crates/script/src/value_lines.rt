//! Lines that values spell, for a program that has values: what puts a row, and what deletes one.
ghost use Rattle.std.specs.Prelude.{◌≡◌, IfErr, IfOk, map};
ghost use Rattle.cells.specs.TotalOrder.{cell_total};
ghost use Rattle.script.specs.ValueLines.{delete_line, put_line};

use cells::{Cell, Refused, Total, literal};
use forms::commas;
use std::alloc::{AllocError, Global};

/// The line that puts a row of these cells, which stand in the order of the columns, for [`line`](crate::Session::line). The
/// table's schema judges it, as any `put`; an empty text is NULL there. The only error is that a growth was refused.
pub fn put_line(alloc: Global, cells: &[Cell]) -> Result<Vec<u8>, AllocError>
    ensures { IfOk result (λ line. line.items ≡ put_line cells.now) }
{
    let totals = totals_of(alloc, cells)?;
    let mut line = Vec::new(alloc);
    line.extend_from_slice(b"put ")?;
    commas::push_row(&mut line, totals.as_slice())?;
    Ok(line)
}

/// The line that deletes the row of this key. NULL is the key of no row, and its line is refused. Only want of memory is
/// refused here.
pub fn delete_line(alloc: Global, key: &Cell) -> Result<Vec<u8>, Refused>
    ensures line { IfOk result (λ line. line.items ≡ delete_line key.now) }
    ensures refused { IfErr result (λ e. e ≡ Refused.OutOfMemory) }
{
    let total = total_of(key)?;
    let mut line = String::from_str(alloc, "delete ")?;
    line.push_str(literal(alloc, &total)?.as_str())?;
    Ok(line.into_bytes())
}

/// The cells as values of a report.
fn totals_of(alloc: Global, cells: &[Cell]) -> Result<Vec<Total>, AllocError>
    ensures { IfOk result (λ totals. totals.items ≡ map cell_total cells.now) }
{
    let mut totals = Vec::new(alloc);
    for cell in cells {
        totals.push(total_of(cell)?)?;
    }
    Ok(totals)
}

/// The cell as a value of a report.
fn total_of(cell: &Cell) -> Result<Total, AllocError>
    ensures { IfOk result (λ total. total ≡ cell_total cell.now) }
{
    match cell {
        Cell::Null => Ok(Total::Null),
        Cell::Int(number) => Ok(Total::Int(i128::from(*number))),
        Cell::Text(text) => Ok(Total::Text(text.clone()?)),
    }
}
