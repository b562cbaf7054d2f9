//! Cells that are lent by a row, or by who owns them.
ghost use Rattle.std.specs.Prelude.{◌≡◌, ◌↔◌, IfOk, IsTrue};
ghost use Rattle.cells.specs.Lent.{lent_cell};
ghost use Rattle.cells.specs.declared.cell.Cell.TheVariants.{Null};

use crate::cell::Cell;
use crate::lent_text::LentText;
use std::alloc::{AllocError, Global};

/// A cell that is lent: by a row, which holds its cells in bytes, or by who owns the cell.
#[derive(Clone, Copy, Debug, Drop)]
pub enum LentCell<'a> {
    Null,
    Int(i64),
    Text(LentText<'a>),
}

impl<'a> LentCell<'a> {
    /// The cell, lent.
    pub fn of(cell: &'a Cell) -> LentCell<'a>
        ensures { lent_cell result ≡ cell.entry.now }
    {
        match cell {
            Cell::Null => LentCell::Null,
            Cell::Int(n) => LentCell::Int(*n),
            Cell::Text(text) => LentCell::Text(text.lent()),
        }
    }

    /// Whether the cell is NULL.
    pub(crate) fn is_null(self) -> bool
        ensures { IsTrue result ↔ (lent_cell self.entry ≡ Null) }
    {
        matches!(self, LentCell::Null)
    }

    /// A copy of it. Want of memory comes of a text of more than 14 bytes alone.
    pub fn owned(self, alloc: Global) -> Result<Cell, AllocError>
        ensures { IfOk result (λ cell. cell ≡ lent_cell self.entry) }
    {
        match self {
            LentCell::Null => Ok(Cell::Null),
            LentCell::Int(n) => Ok(Cell::Int(n)),
            LentCell::Text(text) => Ok(Cell::Text(text.owned(alloc)?)),
        }
    }

    /// Whether it is the same cell.
    pub fn is(self, cell: &Cell) -> bool
        ensures { IsTrue result ↔ (lent_cell self.entry ≡ cell.now) }
    {
        match (self, cell) {
            (LentCell::Null, Cell::Null) => true,
            (LentCell::Int(one), Cell::Int(other)) => one == *other,
            (LentCell::Text(one), Cell::Text(other)) => one.bytes == other.as_bytes(),
            _ => false,
        }
    }
}
