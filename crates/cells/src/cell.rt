//! The cells of a table, and their order.
ghost use Rattle.std.specs.Prelude.{◌≡◌, ◌↔◌, IsTrue};

use crate::text::Text;
use std::alloc::AllocError;
use std::cmp::Ordering;

/// A cell: NULL, an integer or a text.
///
/// Two cells are equal where they are not distinct in the sense of ISO/IEC 9075-2:1999, 3.1.5: NULL
/// equals NULL. NULL stands before every integer, integers go by value and stand before every text,
/// and texts go by their bytes. The standard leaves the place of NULL and the collation open
/// (14.1 and 4.2.1); this is the product's choice.
///
/// A text cell that was read from a record has 1 to [`MAX_TEXT_BYTES`](crate::MAX_TEXT_BYTES) bytes.
#[derive(Debug, Drop)]
pub enum Cell {
    Null,
    Int(i64),
    Text(Text),
}

impl Cell {
    /// Whether the cell is NULL.
    pub fn is_null(&self) -> bool
        ensures { IsTrue result ↔ (self.now ≡ Cell.Null) }
    {
        matches!(self, Cell::Null)
    }
}

/// NULL, as a column has it that nothing is said of.
impl Default for Cell {
    ghost use Rattle.cells.specs.declared.cell.Cell.{Cell};

    ghost is_default = { λ cell. cell ≡ Cell.Null };

    fn default() -> Cell {
        Cell::Null
    }
}

impl Clone for Cell {
    ghost is_clone = { λ s t. t ≡ s };

    fn clone(&self) -> Result<Cell, AllocError> {
        match self {
            Cell::Null => Ok(Cell::Null),
            Cell::Int(n) => Ok(Cell::Int(*n)),
            Cell::Text(text) => Ok(Cell::Text(text.clone()?)),
        }
    }
}

impl PartialEq for Cell {
    ghost use Rattle.std.specs.Cmp.{partial_equiv_from_equiv};
    ghost use Rattle.cells.specs.CellOrder.{cell_eq, cell_eq-equiv};

    ghost eq = { cell_eq };

    ghost laws = { partial_equiv_from_equiv cell_eq-equiv };

    fn eq(&self, other: &Cell) -> bool {
        self.cmp(other) == Ordering::Equal
    }
}

impl Eq for Cell {
    ghost use Rattle.cells.specs.CellOrder.{cell_eq-equiv};

    ghost laws = { cell_eq-equiv };
}

impl PartialOrd for Cell {
    ghost use Rattle.std.specs.Prelude.{Some, refl};
    ghost use Rattle.std.specs.Cmp.{partial_order_from_agreeing_total};
    ghost use Rattle.cells.specs.CellOrder.{cell_cmp, cell_cmp-total};

    ghost partial_cmp = { λ x y. Some (cell_cmp x y) };

    ghost laws = { partial_order_from_agreeing_total cell_cmp cell_cmp-total (λ x y. refl) (λ x y. refl) };

    fn partial_cmp(&self, other: &Cell) -> Option<Ordering> {
        Some(self.cmp(other))
    }
}

impl Ord for Cell {
    ghost use Rattle.std.specs.Prelude.{refl};
    ghost use Rattle.cells.specs.CellOrder.{cell_cmp, cell_cmp-total};

    ghost cmp = { cell_cmp };

    ghost total = { cell_cmp-total };

    ghost matches_partial_cmp = { λ x y. refl };

    ghost matches_eq = { λ x y. refl };

    fn cmp(&self, other: &Cell) -> Ordering {
        match (self, other) {
            (Cell::Null, Cell::Null) => Ordering::Equal,
            (Cell::Null, _) => Ordering::Less,
            (_, Cell::Null) => Ordering::Greater,
            (Cell::Int(a), Cell::Int(b)) => a.cmp(b),
            (Cell::Int(_), Cell::Text(_)) => Ordering::Less,
            (Cell::Text(_), Cell::Int(_)) => Ordering::Greater,
            (Cell::Text(a), Cell::Text(b)) => a.cmp(b),
        }
    }
}
