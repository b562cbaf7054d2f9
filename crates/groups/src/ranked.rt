//! Tuples beside what their first cell is, so that a sort seldom goes to their cells.
ghost use Rattle.std.specs.Prelude.{◌≡◌};
ghost use Rattle.groups.specs.Ranks.{first_kind, first_number};

use cells::{Cell, Tuple};
use std::cmp::Ordering;
use std::marker::Model;

/// A tuple, lent, beside the kind of its first cell and the number that this cell may be. It has the order of tuples: these
/// two decide where they differ, and the cells elsewhere.
#[derive(Drop)]
pub struct Ranked<'a> {
    kind: u8,
    number: i64,
    tuple: &'a Tuple,
}

impl<'a> Model for Ranked<'a> {
    ghost use Rattle.std.specs.Prelude.{List, ◌≡◌};
    ghost use Rattle.cells.specs.declared.cell.Cell.{Cell};
    ghost use Rattle.groups.specs.Ranks.{first_kind, first_number};

    ghost Value = { List Cell };

    ghost view = { λ r. r.tuple.now };

    ghost invariant = { λ r. (r.kind ≡ first_kind r.tuple.now) × (r.number ≡ first_number r.tuple.now) };
}

impl<'a> Ranked<'a> {
    /// The tuple, ranked.
    pub fn of(tuple: &'a Tuple) -> Ranked<'a>
        ensures { result ≡ tuple.now }
    {
        let (kind, number) = rank_of(tuple.cells());
        Ranked {
            kind,
            number,
            tuple,
        }
    }
}

/// The kind of the first of these cells, in the order of kinds, and the number that it is: 0 where it is none.
fn rank_of(cells: &[Cell]) -> (u8, i64)
    ensures kind { result.0 ≡ first_kind cells.now }
    ensures number { result.1 ≡ first_number cells.now }
{
    match cells.first() {
        None => (0, 0),
        Some(cell) => match cell {
            Cell::Null => (0, 0),
            Cell::Int(number) => (1, *number),
            Cell::Text(_) => (2, 0),
        },
    }
}

impl<'a> PartialEq for Ranked<'a> {
    ghost use Rattle.std.specs.Cmp.{partial_equiv_from_equiv};
    ghost use Rattle.cells.specs.TupleOrder.{tuple_eq, tuple_eq-equiv};

    ghost eq = { tuple_eq };

    ghost laws = { partial_equiv_from_equiv tuple_eq-equiv };

    fn eq(&self, other: &Self) -> bool {
        self.cmp(other) == Ordering::Equal
    }
}

impl<'a> Eq for Ranked<'a> {
    ghost use Rattle.cells.specs.TupleOrder.{tuple_eq-equiv};

    ghost laws = { tuple_eq-equiv };
}

impl<'a> PartialOrd for Ranked<'a> {
    ghost use Rattle.std.specs.Prelude.{Some, refl};
    ghost use Rattle.std.specs.Cmp.{partial_order_from_agreeing_total};
    ghost use Rattle.cells.specs.TupleOrder.{tuple_cmp, tuple_cmp-total};

    ghost partial_cmp = { λ x y. Some (tuple_cmp x y) };

    ghost laws = { partial_order_from_agreeing_total tuple_cmp tuple_cmp-total (λ x y. refl) (λ x y. refl) };

    fn partial_cmp(&self, other: &Self) -> Option<Ordering> {
        Some(self.cmp(other))
    }
}

impl<'a> Ord for Ranked<'a> {
    ghost use Rattle.std.specs.Prelude.{refl};
    ghost use Rattle.cells.specs.TupleOrder.{tuple_cmp, tuple_cmp-total};

    ghost cmp = { tuple_cmp };

    ghost total = { tuple_cmp-total };

    ghost matches_partial_cmp = { λ x y. refl };

    ghost matches_eq = { λ x y. refl };

    fn cmp(&self, other: &Self) -> Ordering {
        if self.kind != other.kind {
            return self.kind.cmp(&other.kind);
        }
        if self.number != other.number {
            return self.number.cmp(&other.number);
        }
        self.tuple.cmp(other.tuple)
    }
}
