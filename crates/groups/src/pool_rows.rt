//! The rows of a plan's report, made straight from groups of the sources.
ghost use Rattle.std.specs.Prelude.{◌≡◌, List, ◌++◌, true, IfOk};
ghost use Rattle.cells.specs.Values.{RowValue};
ghost use Rattle.groups.specs.Accumulators.{aggregations_of};
ghost use Rattle.groups.specs.Groups.{rows_over, set_rows};
ghost use Rattle.groups.specs.Pools.{AreCounted, HaveFiner, IsPool, has_finer};

use crate::aggregation::Aggregation;
use crate::finishing::add_rows_of_bag;
use crate::pool::{SetBag, bag_from, bag_in, pool_of};
use crate::report_row::ReportRow;
use cells::{Cell, KeyHash, Tuple};
use query::{GroupSet, Plan};
use std::alloc::{AllocError, Global};

/// The rows of the report, set by set in the plan's order, for each list of rows that went into the sources.
pub(crate) fn rows_of_sources<H: KeyHash<Cell> + KeyHash<Tuple>>(
    alloc: Global,
    plan: &Plan,
    aggregations: &[Aggregation],
    sources: Vec<SetBag<H>>,
) -> Result<Vec<ReportRow>, AllocError>
    requires can { AreCounted aggregations.now sources.items }
    requires finer { HaveFiner sources.items plan.now.sets }
    requires asked { aggregations.now ≡ aggregations_of plan.now.items }
    ensures { (kept : List RowValue) → IsPool aggregations.now kept sources.items → IfOk result (λ v. v.items ≡ rows_over plan.now kept) }
{
    let sets = plan.sets();
    let pool = pool_of(alloc, sets, sources)?;
    let mut rows = Vec::new(alloc);
    for set in sets {
        add_rows_by(alloc, &mut rows, plan, set, aggregations, pool.as_slice())?;
    }
    Ok(rows)
}

/// The report's rows for a grouping set after those of others, from its groups in the pool. Where the pool has none, as of
/// the empty set, they are made from those of another set.
fn add_rows_by<H: KeyHash<Cell> + KeyHash<Tuple>>(
    alloc: Global,
    rows: &mut Vec<ReportRow>,
    plan: &Plan,
    set: &GroupSet,
    aggregations: &[Aggregation],
    pool: &[SetBag<H>],
) -> Result<(), AllocError>
    requires can { AreCounted aggregations.now pool.now }
    requires finer { has_finer pool.now set.now ≡ true }
    requires asked { aggregations.now ≡ aggregations_of plan.now.items }
    ensures { (kept : List RowValue) → IsPool aggregations.now kept pool.now →
        IfOk result (λ _. rows.new.items ≡ rows.old.items ++ set_rows plan.now set.now kept) }
{
    if let Some(groups) = bag_in(pool, set.columns.as_slice()) {
        return add_rows_of_bag(alloc, rows, plan, set, aggregations, groups);
    }
    let groups = bag_from(alloc, set.columns.as_slice(), pool)?;
    add_rows_of_bag(alloc, rows, plan, set, aggregations, &groups)
}
