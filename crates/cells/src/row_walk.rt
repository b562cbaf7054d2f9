//! A walk over the cells of a row.
ghost use Rattle.std.specs.Prelude.{◌≡◌, ◌≤◌, slice_index_or};
ghost use Rattle.cells.specs.Lent.{lent_cell};
ghost use Rattle.cells.specs.Packing.{Fills, IsLeft, cells_in};
ghost use Rattle.cells.specs.declared.cell.Cell.TheVariants.{Null};

use crate::lent::LentCell;
use crate::packing::{behind, first_cell};
use std::marker::Model;

/// The cells of a row, which lends them by their indexes: [`Row::cell`](crate::Row::cell) begins at the first cell each
/// time, and a walk at the cell that it lent last. So who wants several goes over the row once, in the order of the columns.
#[derive(Drop)]
pub struct RowWalk<'a> {
    bytes: &'a [u8],
    count: usize,
    // the index of the cell that was lent last, and the bytes from it on
    index: usize,
    rest: &'a [u8],
}

impl<'a> Model for RowWalk<'a> {
    ghost use Rattle.std.specs.Prelude.{List};
    ghost use Rattle.cells.specs.declared.cell.Cell.{Cell};

    ghost Value = { List Cell };

    ghost use Rattle.std.specs.Prelude.{◌≤◌};
    ghost use Rattle.cells.specs.Packing.{Fills, IsLeft, cells_in};

    ghost view = { λ w. cells_in w.count w.bytes.now };

    ghost invariant = { λ w. ∥ Fills w.count w.bytes.now ∥₁ × (∥ IsLeft w.count w.index (cells_in w.count w.bytes.now) w.rest.now ∥₁
        × (w.index ≤ w.count)) };
}

impl<'a> RowWalk<'a> {
    /// A walk that begins at the first of so many cells.
    pub(crate) fn new(bytes: &'a [u8], count: usize) -> RowWalk<'a>
        requires { Fills count bytes.now }
        ensures { result ≡ cells_in count bytes.entry.now }
    {
        RowWalk {
            bytes,
            count,
            index: 0,
            rest: bytes,
        }
    }

    /// The cell at an index, lent; NULL where the row has none there.
    pub fn cell(&mut self, index: usize) -> LentCell<'a>
        ensures cell { lent_cell result ≡ slice_index_or self.old index Null }
        ensures same { self.new ≡ self.old }
    {
        if index >= self.count {
            return LentCell::Null;
        }
        let rest = seek(self.bytes, self.count, self.index, self.rest, index);
        self.index = index;
        self.rest = rest;
        first_cell(rest)
    }
}

/// What is left of so many cells behind those before an index, where `rest` is left behind those before the index `from`.
fn seek<'a>(bytes: &'a [u8], count: usize, from: usize, rest: &'a [u8], index: usize) -> &'a [u8]
    requires fills { Fills count bytes.now }
    requires left { ∥ IsLeft count from (cells_in count bytes.now) rest.now ∥₁ }
    requires few { index ≤ count }
    ensures { ∥ IsLeft count index (cells_in count bytes.entry.now) result.now ∥₁ }
{
    if index < from {
        return behind(bytes, count, index);
    }
    behind(rest, count - from, index - from)
}
