//! The columns that a plan needs of its rows.
ghost use Rattle.std.specs.Prelude.{◌≡◌, ◌++◌, true, List, IfOk, OnOk};
ghost use Rattle.std.specs.List.{concat};
ghost use Rattle.cells.specs.Values.{RowValue};
ghost use Rattle.columns.specs.Columns.{Hold, cells_at, cells_of, has};
ghost use Rattle.groups.specs.Needed.{needed_by, read_by, read_by_all};

use crate::aggregation::{Aggregation, aggregations};
use aggs::Kind;
use columns::{CodeColumn, Columns};
use query::{GroupSet, Plan};
use std::alloc::{AllocError, Global};

/// The indexes of the columns that the plan needs: those of its grouping sets, of its aggregates and of WHERE. One may be there
/// more than once.
pub fn needed_columns(alloc: Global, plan: &Plan) -> Result<Vec<usize>, AllocError>
    ensures { IfOk result (λ v. v.items ≡ needed_by plan.now) }
{
    let mut needed = Vec::new(alloc);
    add_sets(&mut needed, plan.sets())?;
    let aggregations = aggregations(alloc, plan.items())?;
    add_read(&mut needed, aggregations.as_slice())?;
    if let Some(predicate) = plan.condition() {
        let named = predicate.columns(alloc)?;
        needed.extend_from_slice(named.as_slice())?;
    }
    Ok(needed)
}

/// Adds the columns of the sets.
fn add_sets(needed: &mut Vec<usize>, sets: &[GroupSet]) -> Result<(), AllocError>
    ensures { OnOk result (needed.new.items ≡ needed.old.items ++ concat sets.now) }
{
    for set in sets {
        needed.extend_from_slice(set.columns.as_slice())?;
    }
    Ok(())
}

/// Adds the columns that the aggregates read.
fn add_read(needed: &mut Vec<usize>, aggregations: &[Aggregation]) -> Result<(), AllocError>
    ensures { OnOk result (needed.new.items ≡ needed.old.items ++ read_by_all aggregations.now) }
{
    for aggregation in aggregations {
        add_read_by(needed, *aggregation)?;
    }
    Ok(())
}

/// Adds the column that the aggregate reads, if it reads one.
fn add_read_by(needed: &mut Vec<usize>, aggregation: Aggregation) -> Result<(), AllocError>
    ensures { OnOk result (needed.new.items ≡ needed.old.items ++ read_by aggregation.kind aggregation.column) }
{
    match aggregation.kind {
        Kind::CountRows => Ok(()),
        Kind::Count | Kind::CountDistinct | Kind::Sum | Kind::Min | Kind::Max => {
            Ok(needed.push(aggregation.column)?)
        }
    }
}

/// The column of an index that has one.
pub(crate) fn column_of(columns: &Columns, index: usize) -> &CodeColumn
    requires { has columns.now index ≡ true }
    ensures { (rows : List RowValue) → Hold rows columns.now → cells_of result.now ≡ cells_at index rows }
{
    let Some(column) = columns.at(index) else {
        unreachable!();
    };
    column
}
