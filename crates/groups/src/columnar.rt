//! The groups of a set over rows whose columns are at hand: all rows are numbered by their groups first, and then each
//! aggregate goes over its column (Boncz, Zukowski and Nes, MonetDB/X100, 2005).
ghost use Rattle.std.specs.Prelude.{◌≡◌, List, IfOk, IfSome, IsTrue, ◌<◌, length, map, take};
ghost use Rattle.std.specs.List.{AllByRecursion, AllZip};
ghost use Rattle.cells.specs.Values.{RowValue};
ghost use Rattle.columns.specs.Columns.{HaveAll, Hold};
ghost use Rattle.groups.specs.Bags.{Covers};
ghost use Rattle.groups.specs.Columnar.{TalliesRows, accs_at, aggregation_at, groups_from};
ghost use Rattle.groups.specs.Needed.{read_by, read_by_all};
ghost use Rattle.groups.specs.Numbered.{HaveRows, NumberAll, picked_rows};
ghost use Rattle.groups.specs.Pools.{IsPool, sets_of};

use crate::accumulators::Accumulators;
use crate::aggregation::Aggregation;
use crate::bag::Bag;
use crate::held::Held;
use crate::needed::column_of;
use crate::numbered::{NumberedRows, groups_of};
use crate::pool::SetBag;
use crate::tallying::{counted, tallied};
use aggs::Kind;
use cells::{Cell, KeyHash, Tuple};
use columns::Columns;
use std::alloc::{AllocError, Global};

/// The sets of the sources, each with its bag over the rows of these indexes. `alone` says that no groups of other sets are to be
/// made of these; nothing rests on it.
pub fn sources_from<H: KeyHash<Cell>>(
    alloc: Global,
    columns: &Columns,
    aggregations: &[Aggregation],
    rows: &[u32],
    sources: &[SetBag<H>],
    alone: bool,
) -> Result<Vec<SetBag<H>>, AllocError>
    requires rows { HaveRows columns.now rows.now }
    requires sets { AllByRecursion (λ set. HaveAll set columns.now) (sets_of sources.now) }
    requires read { HaveAll (read_by_all aggregations.now) columns.now }
    ensures sets { IfOk result (λ v. sets_of v.items ≡ sets_of sources.now) }
    ensures pool { (all : List RowValue) → Hold all columns.now →
        IfOk result (λ v. IsPool aggregations.now (picked_rows all rows.now) v.items) }
{
    let mut filled = Vec::with_capacity(alloc, sources.len())?;
    for source in sources {
        let set = Vec::from_slice(alloc, source.set.as_slice())?;
        let bag = bag_of(alloc, columns, set.as_slice(), aggregations, rows, alone)?;
        filled.push(SetBag { set, bag })?;
    }
    Ok(filled)
}

/// The bag of a set over the rows of these indexes.
fn bag_of<H: KeyHash<Cell>>(
    alloc: Global,
    columns: &Columns,
    set: &[usize],
    aggregations: &[Aggregation],
    rows: &[u32],
    alone: bool,
) -> Result<Bag<H>, AllocError>
    requires rows { HaveRows columns.now rows.now }
    requires set { HaveAll set.now columns.now }
    requires read { HaveAll (read_by_all aggregations.now) columns.now }
    ensures { (all : List RowValue) → Hold all columns.now →
        IfOk result (λ bag. Covers aggregations.now set.now (picked_rows all rows.now) bag) }
{
    let groups = groups_of(alloc, columns, set, rows)?;
    let tallies = tallies(alloc, columns, aggregations, rows, &groups, alone)?;
    let groups = listed(alloc, groups.tuples, tallies.as_slice())?;
    Ok(Bag::of(alloc, groups))
}

/// The accumulators of each aggregate, in their order, for all groups.
fn tallies<H: KeyHash<Cell>>(
    alloc: Global,
    columns: &Columns,
    aggregations: &[Aggregation],
    rows: &[u32],
    groups: &NumberedRows,
    alone: bool,
) -> Result<Vec<Vec<Held<H>>>, AllocError>
    requires rows { HaveRows columns.now rows.now }
    requires read { HaveAll (read_by_all aggregations.now) columns.now }
    requires all { NumberAll (length rows.now) groups.now.numbers.items groups.now.tuples.items }
    ensures { (all : List RowValue) → Hold all columns.now →
        IfOk result (λ v. AllZip (TalliesRows (picked_rows all rows.now) groups.now.numbers.items
        (length groups.now.tuples.items)) aggregations.now (map (λ accs. accs.items) v.items)) }
{
    let mut tallies = Vec::with_capacity(alloc, aggregations.len())?;
    for _at in 0..aggregations.len() {
        let before = tallies.as_slice();
        let accs = tally_next(alloc, columns, aggregations, rows, groups, alone, before)?;
        tallies.push(accs)?;
    }
    Ok(tallies)
}

/// The accumulators of the next aggregate behind those of which `before` has them. The same aggregate is tallied once: HAVING
/// often asks for what the select list shows.
fn tally_next<H: KeyHash<Cell>>(
    alloc: Global,
    columns: &Columns,
    aggregations: &[Aggregation],
    rows: &[u32],
    groups: &NumberedRows,
    alone: bool,
    before: &[Vec<Held<H>>],
) -> Result<Vec<Held<H>>, AllocError>
    requires rows { HaveRows columns.now rows.now }
    requires read { HaveAll (read_by_all aggregations.now) columns.now }
    requires all { NumberAll (length rows.now) groups.now.numbers.items groups.now.tuples.items }
    requires left { length before.now < length aggregations.now }
    ensures { (all : List RowValue) → Hold all columns.now →
        AllZip (TalliesRows (picked_rows all rows.now) groups.now.numbers.items (length groups.now.tuples.items))
        (take (length before.now) aggregations.now) (map (λ accs. accs.items) before.now) →
        IfOk result (λ v. TalliesRows (picked_rows all rows.now) groups.now.numbers.items (length groups.now.tuples.items)
        (aggregation_at aggregations.now (length before.now)) v.items) }
{
    let at = before.len();
    if let Some(same) = alike_before(aggregations, at) {
        let copies = copies_of(&before[same])?;
        return Ok(copies);
    }
    let accs = tally(alloc, columns, &aggregations[at], rows, groups, alone)?;
    Ok(accs)
}

/// Copies of the accumulators.
fn copies_of<H: KeyHash<Cell>>(accs: &Vec<Held<H>>) -> Result<Vec<Held<H>>, AllocError>
    ensures { IfOk result (λ v. v.items ≡ accs.now.items) }
{
    accs.clone()
}

/// The place of an aggregate that is the one at this place, before it, if there is one.
fn alike_before(aggregations: &[Aggregation], at: usize) -> Option<usize>
    requires { at < length aggregations.now }
    ensures { IfSome result (λ i. (i < at) × (aggregation_at aggregations.now i ≡ aggregation_at aggregations.now at)) }
{
    for before in 0..at {
        if are_alike(&aggregations[before], &aggregations[at]) {
            return Some(before);
        }
    }
    None
}

/// Whether both are the same aggregate of the same column.
fn are_alike(first: &Aggregation, second: &Aggregation) -> bool
    ensures { IsTrue result → first.now ≡ second.now }
{
    if first.column != second.column {
        return false;
    }
    match first.kind {
        Kind::CountRows => matches!(second.kind, Kind::CountRows),
        Kind::Count => matches!(second.kind, Kind::Count),
        Kind::CountDistinct => matches!(second.kind, Kind::CountDistinct),
        Kind::Sum => matches!(second.kind, Kind::Sum),
        Kind::Min => matches!(second.kind, Kind::Min),
        Kind::Max => matches!(second.kind, Kind::Max),
    }
}

/// The accumulators of an aggregate for all groups.
fn tally<H: KeyHash<Cell>>(
    alloc: Global,
    columns: &Columns,
    aggregation: &Aggregation,
    rows: &[u32],
    groups: &NumberedRows,
    alone: bool,
) -> Result<Vec<Held<H>>, AllocError>
    requires rows { HaveRows columns.now rows.now }
    requires read { HaveAll (read_by aggregation.now.kind aggregation.now.column) columns.now }
    requires all { NumberAll (length rows.now) groups.now.numbers.items groups.now.tuples.items }
    ensures { (all : List RowValue) → Hold all columns.now →
        IfOk result (λ v. TalliesRows (picked_rows all rows.now) groups.now.numbers.items (length groups.now.tuples.items) aggregation.now v.items) }
{
    let count = groups.tuples.len();
    let numbers = groups.numbers.as_slice();
    if let Kind::CountRows = aggregation.kind {
        return Ok(counted(alloc, count, numbers)?);
    }
    let column = column_of(columns, aggregation.column);
    Ok(tallied(alloc, aggregation.kind, count, numbers, rows, column, alone)?)
}

/// The groups of these tuples, which are moved there, each with its accumulators.
fn listed<H: KeyHash<Cell>>(
    alloc: Global,
    tuples: Vec<Tuple>,
    tallies: &[Vec<Held<H>>],
) -> Result<Vec<(Tuple, Accumulators<H>)>, AllocError>
    requires { AllByRecursion (λ accs. length accs.items ≡ length tuples.items) tallies.now }
    ensures { IfOk result (λ v. v.items ≡ groups_from tuples.items (map (λ accs. accs.items) tallies.now)) }
{
    let mut groups = Vec::with_capacity(alloc, tuples.len())?;
    for tuple in tuples {
        let accumulators = accumulators_at(alloc, tallies, groups.len())?;
        groups.push((tuple, accumulators))?;
    }
    Ok(groups)
}

/// The accumulators of one group.
fn accumulators_at<H: KeyHash<Cell>>(
    alloc: Global,
    tallies: &[Vec<Held<H>>],
    at: usize,
) -> Result<Accumulators<H>, AllocError>
    requires { AllByRecursion (λ accs. at < length accs.items) tallies.now }
    ensures { IfOk result (λ a. a ≡ accs_at at (map (λ accs. accs.items) tallies.now)) }
{
    let mut all = Vec::with_capacity(alloc, tallies.len())?;
    for accs in tallies {
        all.push(accs[at].clone()?)?;
    }
    Ok(Accumulators::of(all))
}
