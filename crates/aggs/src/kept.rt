//! Accumulators as plain values, and back.
ghost use Rattle.std.specs.Prelude.{◌≡◌, ◌+◌, ◌<◌, ◌^◌, List, IfOk, true};
ghost use Rattle.aggs.specs.Accs.{AccsFit, acc_of, kind_of};
ghost use Rattle.aggs.specs.Keeping.{IsKept, acc_of_kept, may_sum, sum_of_kept};
ghost use Rattle.cells.specs.declared.cell.Cell.{Cell};

use crate::acc::{Acc, Kind};
use crate::count::{Count, CountRows};
use crate::distinct::CountDistinct;
use crate::extreme::copied;
use crate::greatest::Max;
use crate::least::Min;
use crate::sum::Sum;
use cells::{Cell, KeyHash, Tuple};
use std::alloc::{AllocError, Global};

/// What an accumulator keeps of its cells, as plain values: for programs that take it elsewhere and make it again. It owns
/// its cells.
#[derive(Debug, Drop)]
pub enum Kept {
    /// Of COUNT(*) and COUNT: how many there were.
    Count(u64),
    /// Of COUNT DISTINCT: the different cells that are not NULL, in whatever order.
    Different(Tuple),
    /// Of SUM: the sum, and of how many integers.
    Sum { sum: i128, integers: u64 },
    /// Of MIN and MAX: the cell, where there is one.
    Extreme(Option<Cell>),
}

/// The most cells that an accumulator may stand for.
const CELL_LIMIT: u128 = 4_294_967_296;

impl<H: KeyHash<Cell>> Acc<H> {
    /// What it keeps of its cells. It owns copies. The only error is that a growth was refused.
    pub fn kept(&self, alloc: Global) -> Result<Kept, AllocError>
        ensures { (xs : List Cell) → self.now ≡ acc_of (kind_of self.now) xs → IfOk result (IsKept (kind_of self.now) xs) }
    {
        match self {
            Acc::CountRows(acc) => Ok(Kept::Count(acc.count)),
            Acc::Count(acc) => Ok(Kept::Count(acc.count)),
            Acc::CountDistinct(acc) => Ok(Kept::Different(acc.list(alloc)?)),
            Acc::Sum(acc) => Ok(Kept::Sum {
                sum: acc.sum,
                integers: acc.integers,
            }),
            Acc::Min(acc) => Ok(Kept::Extreme(copied(acc.least.as_ref())?)),
            Acc::Max(acc) => Ok(Kept::Extreme(copied(acc.greatest.as_ref())?)),
        }
    }

    /// The accumulator of this aggregate that keeps this. None where no accumulator of it does: what is kept is of another
    /// aggregate, or a sum is greater than that of so many integers of 64 bits can be. The only error is that a growth was
    /// refused.
    pub fn of_kept(alloc: Global, kind: Kind, kept: Kept) -> Result<Option<Acc<H>>, AllocError>
        ensures { IfOk result (λ o. o ≡ acc_of_kept kind kept) }
    {
        match (kind, kept) {
            (Kind::CountRows, Kept::Count(count)) => Ok(Some(Acc::CountRows(CountRows { count }))),
            (Kind::Count, Kept::Count(count)) => Ok(Some(Acc::Count(Count { count }))),
            (Kind::CountDistinct, Kept::Different(cells)) => {
                Ok(Some(Acc::CountDistinct(CountDistinct::of_all(alloc, &cells)?)))
            }
            (Kind::Sum, Kept::Sum { sum, integers }) => Ok(sum_of(sum, integers)),
            (Kind::Min, Kept::Extreme(least)) => Ok(Some(Acc::Min(Min { least }))),
            (Kind::Max, Kept::Extreme(greatest)) => Ok(Some(Acc::Max(Max { greatest }))),
            _ => Ok(None),
        }
    }

    /// Whether both can be put together: they stand for few enough cells, as far as they know.
    pub fn fits(&self, other: &Acc<H>) -> bool
        ensures room { result ≡ true → AccsFit self.now other.now }
        ensures only { AccsFit self.now other.now → result ≡ true }
    {
        match (self, other) {
            (Acc::CountRows(first), Acc::CountRows(second)) => {
                has_sum(first.count, second.count)
            }
            (Acc::Count(first), Acc::Count(second)) => has_sum(first.count, second.count),
            (Acc::CountDistinct(first), Acc::CountDistinct(second)) => {
                has_sum(first.len(), second.len())
            }
            (Acc::Sum(first), Acc::Sum(second)) => {
                u128::from(first.integers) + u128::from(second.integers) <= CELL_LIMIT
            }
            _ => true,
        }
    }
}

/// The accumulator of a sum of so many integers, where they can have it.
fn sum_of<H: KeyHash<Cell>>(sum: i128, integers: u64) -> Option<Acc<H>>
    ensures { result ≡ sum_of_kept sum integers }
{
    if may_sum(sum, integers) {
        return Some(Acc::Sum(Sum { sum, integers }));
    }
    None
}

/// Whether so many integers of 64 bits may have the sum.
fn may_sum(sum: i128, integers: u64) -> bool
    ensures { result ≡ may_sum sum integers }
{
    sum.unsigned_abs() <= u128::from(integers) * (1 << 63)
}

/// Whether the sum of two counts has 64 bits.
fn has_sum(first: u64, second: u64) -> bool
    ensures room { result ≡ true → first + second < 2 ^ 64 }
    ensures only { first + second < 2 ^ 64 → result ≡ true }
{
    first.checked_add(second).is_some()
}
