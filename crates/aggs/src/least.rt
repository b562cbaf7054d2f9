//! MIN.
ghost use Rattle.std.specs.Prelude.{◌≡◌, ⊤, refl};
ghost use Rattle.std.specs.Option.{option_copied};
ghost use Rattle.aggs.specs.Extremes;
ghost use Rattle.aggs.specs.Reducing.{merged};
ghost use Rattle.aggs.specs.Values.{least, least_of, lesser, total_or_null};
ghost use Rattle.cells.specs.TotalOrder.{cell_total};

use crate::aggregate::Aggregate;
use crate::extreme::{copied, total_of};
use cells::{Cell, Total};
use std::alloc::{AllocError, Global};

/// The least of the cells that are not NULL, where there is one: MIN of a column. It owns a copy of it.
#[derive(Debug, Drop)]
pub struct Min {
    pub(crate) least: Option<Cell>,
}

/// The lesser of two cells that may be there.
fn lesser_of<'a>(first: Option<&'a Cell>, second: Option<&'a Cell>) -> Option<&'a Cell>
    ensures { option_copied result ≡ merged lesser (option_copied first.entry) (option_copied second.entry) }
{
    match (first, second) {
        (None, second) => second,
        (first, None) => first,
        (Some(first), Some(second)) => Some(if second < first { second } else { first }),
    }
}

impl Clone for Min {
    ghost is_clone = { λ s t. t ≡ s };

    fn clone(&self) -> Result<Min, AllocError> {
        Ok(Min {
            least: copied(self.least.as_ref())?,
        })
    }
}

impl Aggregate for Min {
    ghost of = { λ xs. record { least = least_of xs } };

    ghost together = { λ a b. record { least = merged lesser a.least b.least } };

    ghost total = { λ a. total_or_null cell_total a.least };

    ghost fits = { λ a b. ⊤ };

    ghost value = { least };

    fn empty() -> Min {
        Min { least: None }
    }

    fn step(&mut self, _alloc: Global, cell: &Cell) -> Result<(), AllocError> {
        if cell.is_null() {
            return Ok(());
        }
        if let Some(least) = &self.least {
            if cell >= least {
                return Ok(());
            }
        }
        self.least = Some(cell.clone()?);
        Ok(())
    }

    fn join(&self, _alloc: Global, other: &Min) -> Result<Min, AllocError> {
        Ok(Min {
            least: copied(lesser_of(self.least.as_ref(), other.least.as_ref()))?,
        })
    }

    fn finish(&self) -> Result<Total, AllocError> {
        total_of(self.least.as_ref())
    }

    ghost joins = { Extremes.least_joins };

    ghost unit_first = { λ _. refl };

    ghost unit_second = { Extremes.least_unit };

    ghost any_order = { Extremes.least_any_order };

    ghost finishes = { λ _. refl };

    ghost room = { λ xs ys may. tt };
}
