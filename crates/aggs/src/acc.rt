//! An accumulator of any of the aggregates.
ghost use Rattle.std.specs.Prelude.{◌≡◌, ◌≢◌, [], ◌∷◌, IfOk, OnErr};
ghost use Rattle.aggs.specs.Accs.{AccsFit, acc_of, acc_together, acc_total, kind_of};
ghost use Rattle.aggs.specs.declared.acc.Kind.TheVariants as kind;

use crate::aggregate::Aggregate;
use crate::count::{Count, CountRows};
use crate::distinct::CountDistinct;
use crate::greatest::Max;
use crate::least::Min;
use crate::sum::Sum;
use cells::{Cell, KeyHash, Total};
use std::alloc::{AllocError, Global};

/// Which aggregate: the set functions of ISO/IEC 9075-2:1999, 6.16, but AVG.
#[derive(Clone, Copy, Debug, PartialEq, Eq, Drop)]
pub enum Kind {
    /// COUNT(*)
    CountRows,
    /// COUNT of a column
    Count,
    /// COUNT DISTINCT of a column
    CountDistinct,
    /// SUM of a column of integers
    Sum,
    /// MIN of a column
    Min,
    /// MAX of a column
    Max,
}

/// An accumulator of one of the aggregates, chosen when the program runs. It owes what the trait
/// [`Aggregate`] asks, and does not implement it, since its `empty` needs a kind.
#[derive(Drop)]
pub enum Acc<H: KeyHash<Cell>> {
    CountRows(CountRows),
    Count(Count),
    CountDistinct(CountDistinct<H>),
    Sum(Sum),
    Min(Min),
    Max(Max),
}

impl<H: KeyHash<Cell>> Clone for Acc<H> {
    ghost is_clone = { λ s t. t ≡ s };

    fn clone(&self) -> Result<Acc<H>, AllocError> {
        match self {
            Acc::CountRows(acc) => Ok(Acc::CountRows(*acc)),
            Acc::Count(acc) => Ok(Acc::Count(*acc)),
            Acc::CountDistinct(acc) => Ok(Acc::CountDistinct(acc.clone()?)),
            Acc::Sum(acc) => Ok(Acc::Sum(*acc)),
            Acc::Min(acc) => Ok(Acc::Min(acc.clone()?)),
            Acc::Max(acc) => Ok(Acc::Max(acc.clone()?)),
        }
    }
}

impl<H: KeyHash<Cell>> Acc<H> {
    /// The accumulator of no cells.
    pub fn empty(kind: Kind) -> Acc<H>
        ensures { result ≡ acc_of kind [] }
    {
        match kind {
            Kind::CountRows => Acc::CountRows(CountRows::empty()),
            Kind::Count => Acc::Count(Count::empty()),
            Kind::CountDistinct => Acc::CountDistinct(CountDistinct::empty()),
            Kind::Sum => Acc::Sum(Sum::empty()),
            Kind::Min => Acc::Min(Min::empty()),
            Kind::Max => Acc::Max(Max::empty()),
        }
    }

    /// The accumulator of COUNT DISTINCT of a list, which is made at once: as if it had been stepped with each cell.
    pub fn of_different(alloc: Global, cells: Vec<Cell>) -> Result<Acc<H>, AllocError>
        ensures { IfOk result (λ acc. acc ≡ acc_of kind.CountDistinct cells.items) }
    {
        Ok(Acc::CountDistinct(CountDistinct::of_cells(alloc, cells)?))
    }

    /// Makes it the accumulator of its list and the cell behind it. It takes memory only where the
    /// cell or a part of it is kept. After a refusal, which is want of memory, it is as it was.
    pub fn step(&mut self, alloc: Global, cell: &Cell) -> Result<(), AllocError>
        requires { AccsFit self.old (acc_of (kind_of self.old) (cell.now ∷ [])) }
        ensures stepped { IfOk result (λ _. self.new ≡ acc_together self.old (acc_of (kind_of self.old) (cell.now ∷ []))) }
        ensures unchanged { OnErr result (self.new ≡ self.old) }
        ensures needed { OnErr result (acc_together self.old (acc_of (kind_of self.old) (cell.now ∷ [])) ≢ self.old) }
    {
        match self {
            Acc::CountRows(acc) => acc.step(alloc, cell),
            Acc::Count(acc) => acc.step(alloc, cell),
            Acc::CountDistinct(acc) => acc.step(alloc, cell),
            Acc::Sum(acc) => acc.step(alloc, cell),
            Acc::Min(acc) => acc.step(alloc, cell),
            Acc::Max(acc) => acc.step(alloc, cell),
        }
    }

    /// The accumulator of both lists put together. An accumulator of another aggregate adds nothing to this
    /// one.
    pub fn join(&self, alloc: Global, other: &Acc<H>) -> Result<Acc<H>, AllocError>
        requires { AccsFit self.now other.now }
        ensures { IfOk result (λ both. both ≡ acc_together self.now other.now) }
    {
        match (self, other) {
            (Acc::CountRows(first), Acc::CountRows(second)) => {
                Ok(Acc::CountRows(first.join(alloc, second)?))
            }
            (Acc::Count(first), Acc::Count(second)) => Ok(Acc::Count(first.join(alloc, second)?)),
            (Acc::CountDistinct(first), Acc::CountDistinct(second)) => {
                Ok(Acc::CountDistinct(first.join(alloc, second)?))
            }
            (Acc::Sum(first), Acc::Sum(second)) => Ok(Acc::Sum(first.join(alloc, second)?)),
            (Acc::Min(first), Acc::Min(second)) => Ok(Acc::Min(first.join(alloc, second)?)),
            (Acc::Max(first), Acc::Max(second)) => Ok(Acc::Max(first.join(alloc, second)?)),
            _ => self.clone(),
        }
    }

    /// The value of the aggregate over the list.
    pub fn finish(&self) -> Result<Total, AllocError>
        ensures { IfOk result (λ t. t ≡ acc_total self.now) }
    {
        match self {
            Acc::CountRows(acc) => acc.finish(),
            Acc::Count(acc) => acc.finish(),
            Acc::CountDistinct(acc) => acc.finish(),
            Acc::Sum(acc) => acc.finish(),
            Acc::Min(acc) => acc.finish(),
            Acc::Max(acc) => acc.finish(),
        }
    }
}
