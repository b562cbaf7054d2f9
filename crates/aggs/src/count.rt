//! COUNT(*) and COUNT of a column.
ghost use Rattle.std.specs.Prelude.{◌≡◌, ◌+◌, ◌<◌, ◌^◌, length, pos, refl};
ghost use Rattle.aggs.specs.Counts;
ghost use Rattle.aggs.specs.Values.{count, present, row_count};
ghost use Rattle.cells.specs.declared.total.Total.TheVariants as total;

use crate::aggregate::Aggregate;
use cells::{Cell, Total};
use std::alloc::{AllocError, Global};

/// The number of rows: COUNT(*). It is stepped with any cell of each row.
#[derive(Clone, Copy, Debug, Drop)]
pub struct CountRows {
    pub(crate) count: u64,
}

/// The number of cells that are not NULL: COUNT of a column.
#[derive(Clone, Copy, Debug, Drop)]
pub struct Count {
    pub(crate) count: u64,
}

impl Aggregate for CountRows {
    ghost of = { λ xs. record { count = length xs } };

    ghost together = { λ a b. record { count = a.count + b.count } };

    ghost total = { λ a. total.Int (pos a.count) };

    ghost fits = { λ a b. a.count + b.count < 2 ^ 64 };

    ghost value = { row_count };

    fn empty() -> CountRows {
        CountRows { count: 0 }
    }

    fn step(&mut self, _alloc: Global, _cell: &Cell) -> Result<(), AllocError> {
        self.count += 1;
        Ok(())
    }

    fn join(&self, _alloc: Global, other: &CountRows) -> Result<CountRows, AllocError> {
        Ok(CountRows {
            count: self.count + other.count,
        })
    }

    fn finish(&self) -> Result<Total, AllocError> {
        Ok(Total::Int(i128::from(self.count)))
    }

    ghost joins = { Counts.rows_join };

    ghost unit_first = { Counts.rows_first };

    ghost unit_second = { Counts.rows_second };

    ghost any_order = { Counts.rows_any_order };

    ghost finishes = { λ _. refl };

    ghost room = { Counts.rows_room };
}

impl Aggregate for Count {
    ghost of = { λ xs. record { count = length (present xs) } };

    ghost together = { λ a b. record { count = a.count + b.count } };

    ghost total = { λ a. total.Int (pos a.count) };

    ghost fits = { λ a b. a.count + b.count < 2 ^ 64 };

    ghost value = { count };

    fn empty() -> Count {
        Count { count: 0 }
    }

    fn step(&mut self, _alloc: Global, cell: &Cell) -> Result<(), AllocError> {
        if !cell.is_null() {
            self.count += 1;
        }
        Ok(())
    }

    fn join(&self, _alloc: Global, other: &Count) -> Result<Count, AllocError> {
        Ok(Count {
            count: self.count + other.count,
        })
    }

    fn finish(&self) -> Result<Total, AllocError> {
        Ok(Total::Int(i128::from(self.count)))
    }

    ghost joins = { Counts.count_joins };

    ghost unit_first = { Counts.count_first };

    ghost unit_second = { Counts.count_second };

    ghost any_order = { Counts.count_any_order };

    ghost finishes = { λ _. refl };

    ghost room = { Counts.count_room };
}
