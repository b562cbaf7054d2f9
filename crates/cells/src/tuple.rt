//! Tuples of cells, and their order.
ghost use Rattle.std.specs.Prelude.{◌≡◌};

use crate::cell::Cell;
use std::alloc::AllocError;
use std::cmp::Ordering;
use std::marker::Model;

/// A tuple of cells of any length, seen by contracts as the list of them. It owns its cells.
///
/// Two tuples are equal where they have as many cells and none is distinct from the one in its
/// place, so NULL equals NULL. They are ordered cell by cell: the first cell that differs decides,
/// and a tuple stands after its own beginnings.
#[derive(Debug, Drop)]
pub struct Tuple {
    cells: Vec<Cell>,
}

impl Model for Tuple {
    ghost use Rattle.std.specs.Prelude.{List};
    ghost use Rattle.cells.specs.declared.cell.Cell.{Cell};

    ghost Value = { List Cell };

    ghost view = { λ t. t.cells.items };
}

impl Tuple {
    /// The tuple of these cells, which it takes over.
    pub fn new(cells: Vec<Cell>) -> Tuple
        ensures { result ≡ cells.items }
    {
        Tuple { cells }
    }

    /// Its cells, in order.
    pub fn cells(&self) -> &[Cell]
        ensures { result.now ≡ self.now }
    {
        self.cells.as_slice()
    }
}

impl Clone for Tuple {
    ghost is_clone = { λ s t. t ≡ s };

    fn clone(&self) -> Result<Tuple, AllocError> {
        Ok(Tuple {
            cells: self.cells.clone()?,
        })
    }
}

impl PartialEq for Tuple {
    ghost use Rattle.std.specs.Cmp.{partial_equiv_from_equiv};
    ghost use Rattle.cells.specs.TupleOrder.{tuple_eq, tuple_eq-equiv};

    ghost eq = { tuple_eq };

    ghost laws = { partial_equiv_from_equiv tuple_eq-equiv };

    fn eq(&self, other: &Tuple) -> bool {
        self.cmp(other) == Ordering::Equal
    }
}

impl Eq for Tuple {
    ghost use Rattle.cells.specs.TupleOrder.{tuple_eq-equiv};

    ghost laws = { tuple_eq-equiv };
}

impl PartialOrd for Tuple {
    ghost use Rattle.std.specs.Prelude.{Some, refl};
    ghost use Rattle.std.specs.Cmp.{partial_order_from_agreeing_total};
    ghost use Rattle.cells.specs.TupleOrder.{tuple_cmp, tuple_cmp-total};

    ghost partial_cmp = { λ x y. Some (tuple_cmp x y) };

    ghost laws = { partial_order_from_agreeing_total tuple_cmp tuple_cmp-total (λ x y. refl) (λ x y. refl) };

    fn partial_cmp(&self, other: &Tuple) -> Option<Ordering> {
        Some(self.cmp(other))
    }
}

impl Ord for Tuple {
    ghost use Rattle.std.specs.Prelude.{refl};
    ghost use Rattle.cells.specs.TupleOrder.{tuple_cmp, tuple_cmp-total};

    ghost cmp = { tuple_cmp };

    ghost total = { tuple_cmp-total };

    ghost matches_partial_cmp = { λ x y. refl };

    ghost matches_eq = { λ x y. refl };

    fn cmp(&self, other: &Tuple) -> Ordering {
        self.cells().cmp(other.cells())
    }
}
