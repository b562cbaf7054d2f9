//! SUM.
ghost use Rattle.std.specs.Prelude.{◌+◌, ◌≤◌, refl};
ghost use Rattle.aggs.specs.Room.{cell_limit};
ghost use Rattle.aggs.specs.Sums.{sum_or_null, summed, sums};
ghost use Rattle.aggs.specs.Sums as laws;
ghost use Rattle.aggs.specs.Values.{sum};

use crate::aggregate::Aggregate;
use cells::{Cell, Total};
use std::alloc::{AllocError, Global};
use std::marker::Model;

/// The sum of the integers, where there is one: SUM of a column of integers. It passes over texts, as over
/// NULLs. 4,294,967,296 integers of 64 bits need 96 bits, so no sum is out of range.
#[derive(Clone, Copy, Debug, Drop)]
pub struct Sum {
    pub(crate) sum: i128,
    pub(crate) integers: u64,
}

impl Model for Sum {
    ghost use Rattle.std.specs.Prelude.{◌*◌, ◌≤◌, ◌^◌};
    ghost use Rattle.std.specs.Int.RustNames.{unsigned_abs};
    ghost use Rattle.aggs.specs.Totals.{Summed};

    ghost Value = { Summed };

    ghost view = { λ s. record { sum = s.sum; integers = s.integers } };

    // Each integer has 64 bits.
    ghost invariant = { λ s. unsigned_abs s.sum ≤ s.integers * 2 ^ 63 };

    ghost inverse = { λ s. record { sum = s.sum; integers = s.integers } };
}

impl Aggregate for Sum {
    ghost of = { summed };

    ghost together = { sums };

    ghost total = { λ a. sum_or_null a.integers a.sum };

    ghost fits = { λ a b. a.integers + b.integers ≤ cell_limit };

    ghost value = { sum };

    fn empty() -> Sum {
        Sum {
            sum: 0,
            integers: 0,
        }
    }

    fn step(&mut self, _alloc: Global, cell: &Cell) -> Result<(), AllocError> {
        if let Cell::Int(n) = cell {
            self.sum += i128::from(*n);
            self.integers += 1;
        }
        Ok(())
    }

    fn join(&self, _alloc: Global, other: &Sum) -> Result<Sum, AllocError> {
        Ok(Sum {
            sum: self.sum + other.sum,
            integers: self.integers + other.integers,
        })
    }

    fn finish(&self) -> Result<Total, AllocError> {
        if self.integers == 0 {
            return Ok(Total::Null);
        }
        Ok(Total::Int(self.sum))
    }

    ghost joins = { laws.sum_joins };

    ghost unit_first = { laws.sum_first };

    ghost unit_second = { laws.sum_second };

    ghost any_order = { laws.sum_any_order };

    ghost finishes = { laws.sum_finishes };

    ghost room = { laws.sum_room };
}
