//! Groups of a coarser grouping set, made from those of a finer one.
ghost use Rattle.std.specs.Prelude.{ℕ, List, IfOk, length};
ghost use Rattle.cells.specs.Values.{RowValue};
ghost use Rattle.groups.specs.Coarsening.{CanCoarsen, picked_columns};
ghost use Rattle.groups.specs.Bags.{AreWithin, Covers};
ghost use Rattle.groups.specs.declared.aggregation.Aggregation.{Aggregation};

use crate::bag::Bag;
use cells::{Cell, KeyHash};
use std::alloc::{AllocError, Global};

/// The groups of a finer set, put together by those of their cells that have these indexes: groups of the set of these
/// columns, over the same rows.
pub fn coarsened<H: KeyHash<Cell>>(
    alloc: Global,
    finer: &Bag<H>,
    indexes: &[usize],
) -> Result<Bag<H>, AllocError>
    requires { CanCoarsen indexes.now finer.now }
    ensures { (aggregations : List Aggregation) (columns : List ℕ) (rows : List RowValue) → AreWithin (length columns) indexes.now →
        Covers aggregations columns rows finer.now →
        IfOk result (λ b. Covers aggregations (picked_columns columns indexes.now) rows b) }
{
    let mut bag = Bag::new(alloc);
    for group in finer.groups() {
        bag.take_group(alloc, &group.0, &group.1, indexes)?;
    }
    Ok(bag)
}
