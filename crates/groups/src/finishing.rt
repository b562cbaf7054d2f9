//! The rows of a grouping set, from its groups.
ghost use Rattle.std.specs.Prelude.{◌≡◌, List, ◌++◌, IfOk, drop, false, length, take};
ghost use Rattle.std.specs.List.{list_any};
ghost use Rattle.std.specs.List.Sorted.{IsPermutation, IsSorted};
ghost use Rattle.std.specs.Map.{keys_of};
ghost use Rattle.std.specs.Option.{option_to_list};
ghost use Rattle.std.specs.Vec.Iter.{into_iter_items};
ghost use Rattle.cells.specs.TupleOrder.{tuple_cmp};
ghost use Rattle.cells.specs.Values.{RowValue};
ghost use Rattle.groups.specs.Accumulators.{aggregations_of};
ghost use Rattle.groups.specs.Bags.{Covers, IsCounted};
ghost use Rattle.groups.specs.Finishing.{row_by, rows_by};
ghost use Rattle.groups.specs.Groups.{holds, set_rows, shown};
ghost use Rattle.groups.specs.Partials.{StandsAt};
ghost use Rattle.query.specs.Values.{is_long};
ghost use Rattle.trie.specs.Holding.{lent};

use crate::accumulators::Accumulators;
use crate::aggregation::Aggregation;
use crate::bag::Bag;
use crate::held::Held;
use crate::laying::trie_of;
use crate::report_row::{ReportRow, add_values, behind, row_of};
use crate::rising::{in_order, rise};
use cells::{Cell, KeyHash, Total, Tuple};
use query::{GroupSet, Item, Plan, Truth};
use std::alloc::{AllocError, Global};
use std::vec::IntoIter;
use trie::Trie;

/// The groups, their tuples rising.
pub(crate) fn by_tuple<'a, H: KeyHash<Cell> + KeyHash<Tuple>>(
    alloc: Global,
    groups: &'a Trie<Tuple, Accumulators<H>, H>,
) -> Result<IntoIter<(&'a Tuple, &'a Accumulators<H>)>, AllocError>
    ensures all { IfOk result (λ it. IsPermutation groups.now (lent (into_iter_items it))) }
    ensures rising { IfOk result (λ it. IsSorted tuple_cmp (keys_of (lent (into_iter_items it)))) }
{
    let mut all = groups.entries(alloc)?;
    all.sort_by_key(|group| group.0)?;
    Ok(all.into_iter())
}

/// The items that are shown: those of the select list.
fn shown_items(plan: &Plan) -> &[Item<usize>]
    ensures items { result.now ≡ take (length plan.now.headings) plan.now.items }
    ensures short { list_any is_long result.now ≡ false }
{
    let items = plan.items();
    let shown = plan.headings().len();
    if shown > items.len() {
        return items;
    }
    &items[..shown]
}

/// The items that HAVING asks for, which stand behind the select list's.
fn asked_items(plan: &Plan) -> &[Item<usize>]
    ensures items { result.now ≡ drop (length plan.now.headings) plan.now.items }
    ensures short { list_any is_long result.now ≡ false }
{
    let items = plan.items();
    let shown = plan.headings().len();
    if shown > items.len() {
        return &[];
    }
    &items[shown..]
}

/// Whether the plan's HAVING is true for a group, if it has one. The values that it asks for are put into `asked` in place of those of
/// another group, so that a group that is dropped takes no memory.
fn holds<H: KeyHash<Cell>>(
    plan: &Plan,
    set: &[usize],
    tuple: &Tuple,
    accumulators: &[Held<H>],
    asked: &mut Vec<Total>,
) -> Result<bool, AllocError>
    ensures { IfOk result (λ b. b ≡ holds plan.now.having (drop (length plan.now.headings) (row_by set.now tuple.now plan.now.items accumulators.now))) }
{
    let Some(predicate) = plan.having() else {
        return Ok(true);
    };
    let left = behind(shown_items(plan), accumulators);
    asked.clear();
    add_values(asked, set, asked_items(plan), tuple, left)?;
    Ok(matches!(predicate.truth_of(asked.as_slice()), Truth::True))
}

/// The row of a group as it is shown: the values of the select list, unless HAVING drops the group. `asked` is as [`holds`] has it.
fn shown_row<H: KeyHash<Cell>>(
    alloc: Global,
    plan: &Plan,
    set: &[usize],
    tuple: &Tuple,
    accumulators: &[Held<H>],
    asked: &mut Vec<Total>,
) -> Result<Option<ReportRow>, AllocError>
    ensures { IfOk result (λ row. option_to_list row ≡ shown plan.now (row_by set.now tuple.now plan.now.items accumulators.now)) }
{
    let stays = holds(plan, set, tuple, accumulators, asked)?;
    if !stays {
        return Ok(None);
    }
    let row = row_of(alloc, set, shown_items(plan), tuple, accumulators)?;
    Ok(Some(row))
}

/// Adds the row of each group that HAVING does not drop, in their order.
fn add_rows<H: KeyHash<Cell>>(
    alloc: Global,
    rows: &mut Vec<ReportRow>,
    plan: &Plan,
    set: &[usize],
    groups: IntoIter<(&Tuple, &Accumulators<H>)>,
) -> Result<(), AllocError>
    ensures { IfOk result (λ _. rows.new.items ≡ rows.old.items ++ rows_by set.now plan.now (lent (into_iter_items groups.entry))) }
{
    let mut asked = Vec::new(alloc);
    for group in groups {
        let accumulators = group.1.as_slice();
        let made = shown_row(alloc, plan, set, group.0, accumulators, &mut asked)?;
        let Some(row) = made else {
            continue;
        };
        rows.push(row)?;
    }
    Ok(())
}

/// The report's rows for a grouping set behind those of others, for each list of rows that its groups stand for.
pub(crate) fn add_rows_of_set<H: KeyHash<Cell> + KeyHash<Tuple>>(
    alloc: Global,
    rows: &mut Vec<ReportRow>,
    plan: &Plan,
    set: &GroupSet,
    groups: &Trie<Tuple, Accumulators<H>, H>,
) -> Result<(), AllocError>
    ensures { (kept : List RowValue) → StandsAt H.KeyHash-2.hash_of (aggregations_of plan.now.items) set.now kept groups.now →
        IfOk result (λ _. rows.new.items ≡ rows.old.items ++ set_rows plan.now set.now kept) }
{
    groups.keys_rise();
    let rising = by_tuple(alloc, groups)?;
    add_rows(alloc, rows, plan, set.columns.as_slice(), rising)
}

/// The report's rows for a grouping set after those of others, for each list of rows that went into its bag. Where each
/// group has a tuple of its own they are made straight from the groups.
pub(crate) fn add_rows_of_bag<H: KeyHash<Cell> + KeyHash<Tuple>>(
    alloc: Global,
    rows: &mut Vec<ReportRow>,
    plan: &Plan,
    set: &GroupSet,
    aggregations: &[Aggregation],
    bag: &Bag<H>,
) -> Result<(), AllocError>
    requires counted { IsCounted aggregations.now set.now bag.now }
    requires asked { aggregations.now ≡ aggregations_of plan.now.items }
    ensures { (kept : List RowValue) → Covers aggregations.now set.now kept bag.now →
        IfOk result (λ _. rows.new.items ≡ rows.old.items ++ set_rows plan.now set.now kept) }
{
    let columns = set.columns.as_slice();
    if columns.is_empty() {
        return add_rows_by_trie(alloc, rows, plan, set, aggregations, bag);
    }
    let groups = in_order(alloc, bag.groups())?;
    if !rise(groups.as_slice()) {
        return add_rows_by_trie(alloc, rows, plan, set, aggregations, bag);
    }
    add_rows(alloc, rows, plan, columns, groups.into_iter())
}

/// The same by a trie, which puts groups of one tuple together, and has the group of the empty set also of no rows.
fn add_rows_by_trie<H: KeyHash<Cell> + KeyHash<Tuple>>(
    alloc: Global,
    rows: &mut Vec<ReportRow>,
    plan: &Plan,
    set: &GroupSet,
    aggregations: &[Aggregation],
    bag: &Bag<H>,
) -> Result<(), AllocError>
    requires counted { IsCounted aggregations.now set.now bag.now }
    requires asked { aggregations.now ≡ aggregations_of plan.now.items }
    ensures { (kept : List RowValue) → Covers aggregations.now set.now kept bag.now →
        IfOk result (λ _. rows.new.items ≡ rows.old.items ++ set_rows plan.now set.now kept) }
{
    let trie = trie_of(alloc, bag, set.columns.as_slice(), aggregations)?;
    add_rows_of_set(alloc, rows, plan, set, &trie)
}
