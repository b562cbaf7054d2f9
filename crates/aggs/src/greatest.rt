//! MAX.
ghost use Rattle.std.specs.Prelude.{◌≡◌, ⊤, refl};
ghost use Rattle.std.specs.Option.{option_copied};
ghost use Rattle.aggs.specs.Extremes;
ghost use Rattle.aggs.specs.Reducing.{merged};
ghost use Rattle.aggs.specs.Values.{greater, greatest, greatest_of, total_or_null};
ghost use Rattle.cells.specs.TotalOrder.{cell_total};

use crate::aggregate::Aggregate;
use crate::extreme::{copied, total_of};
use cells::{Cell, Total};
use std::alloc::{AllocError, Global};

/// The greatest of the cells that are not NULL, where there is one: MAX of a column. It owns a copy of it.
#[derive(Debug, Drop)]
pub struct Max {
    pub(crate) greatest: Option<Cell>,
}

/// The greater of two cells that may be there.
fn greater_of<'a>(first: Option<&'a Cell>, second: Option<&'a Cell>) -> Option<&'a Cell>
    ensures { option_copied result ≡ merged greater (option_copied first.entry) (option_copied second.entry) }
{
    match (first, second) {
        (None, second) => second,
        (first, None) => first,
        (Some(first), Some(second)) => Some(if first < second { second } else { first }),
    }
}

impl Clone for Max {
    ghost is_clone = { λ s t. t ≡ s };

    fn clone(&self) -> Result<Max, AllocError> {
        Ok(Max {
            greatest: copied(self.greatest.as_ref())?,
        })
    }
}

impl Aggregate for Max {
    ghost of = { λ xs. record { greatest = greatest_of xs } };

    ghost together = { λ a b. record { greatest = merged greater a.greatest b.greatest } };

    ghost total = { λ a. total_or_null cell_total a.greatest };

    ghost fits = { λ a b. ⊤ };

    ghost value = { greatest };

    fn empty() -> Max {
        Max { greatest: None }
    }

    fn step(&mut self, _alloc: Global, cell: &Cell) -> Result<(), AllocError> {
        if cell.is_null() {
            return Ok(());
        }
        if let Some(greatest) = &self.greatest {
            if greatest >= cell {
                return Ok(());
            }
        }
        self.greatest = Some(cell.clone()?);
        Ok(())
    }

    fn join(&self, _alloc: Global, other: &Max) -> Result<Max, AllocError> {
        Ok(Max {
            greatest: copied(greater_of(self.greatest.as_ref(), other.greatest.as_ref()))?,
        })
    }

    fn finish(&self) -> Result<Total, AllocError> {
        total_of(self.greatest.as_ref())
    }

    ghost joins = { Extremes.greatest_joins };

    ghost unit_first = { λ _. refl };

    ghost unit_second = { Extremes.greatest_unit };

    ghost any_order = { Extremes.greatest_any_order };

    ghost finishes = { λ _. refl };

    ghost room = { λ xs ys may. tt };
}
