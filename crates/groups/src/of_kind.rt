//! Accumulators of one aggregate each, which their types tell.
ghost use Rattle.std.specs.Prelude.{◌≡◌, List, refl};
ghost use Rattle.aggs.specs.Accs.{acc_of};
ghost use Rattle.aggs.specs.declared.acc.Acc.{Acc};
ghost use Rattle.aggs.specs.declared.acc.Acc.TheVariants as accs;
ghost use Rattle.aggs.specs.declared.acc.Kind.{Kind};
ghost use Rattle.aggs.specs.declared.acc.Kind.TheVariants as kinds;
ghost use Rattle.cells.specs.declared.cell.Cell.{Cell};

use crate::held::Held;
use aggs::{Acc, Aggregate, Count, CountRows, Max, Min, Sum};
use cells::{Cell, KeyHash};

/// An accumulator of an aggregate that is known from its type. A loop over such accumulators asks for no row which aggregate it
/// works for, and each takes no more memory than it needs; behind the loop each is held as one of any aggregate.
pub trait OfKind<H: KeyHash<Cell>>: Aggregate + Drop {
    /// Which aggregate it is of.
    ghost kind: { Kind };

    /// The same as an accumulator of any aggregate.
    ghost acc: { Self → Acc H };

    /// The same, held.
    fn held(self) -> Held<H>
        ensures { result ≡ acc self };

    ghost is_of: { (xs : List Cell) → acc (Self.of xs) ≡ acc_of kind xs };
}

impl<H: KeyHash<Cell>> OfKind<H> for CountRows {
    ghost kind = { kinds.CountRows };

    ghost acc = { accs.CountRows };

    fn held(self) -> Held<H> {
        Held::of(Acc::CountRows(self))
    }

    ghost is_of = { λ xs. refl };
}

impl<H: KeyHash<Cell>> OfKind<H> for Count {
    ghost kind = { kinds.Count };

    ghost acc = { accs.Count };

    fn held(self) -> Held<H> {
        Held::of(Acc::Count(self))
    }

    ghost is_of = { λ xs. refl };
}

impl<H: KeyHash<Cell>> OfKind<H> for Sum {
    ghost kind = { kinds.Sum };

    ghost acc = { accs.Sum };

    fn held(self) -> Held<H> {
        Held::of(Acc::Sum(self))
    }

    ghost is_of = { λ xs. refl };
}

impl<H: KeyHash<Cell>> OfKind<H> for Min {
    ghost kind = { kinds.Min };

    ghost acc = { accs.Min };

    fn held(self) -> Held<H> {
        Held::of(Acc::Min(self))
    }

    ghost is_of = { λ xs. refl };
}

impl<H: KeyHash<Cell>> OfKind<H> for Max {
    ghost kind = { kinds.Max };

    ghost acc = { accs.Max };

    fn held(self) -> Held<H> {
        Held::of(Acc::Max(self))
    }

    ghost is_of = { λ xs. refl };
}
