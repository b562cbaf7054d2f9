//! The rows of a report.
ghost use Rattle.std.specs.Prelude.{◌≡◌, ◌≤◌, ◌++◌, IfOk, false, length, pos};
ghost use Rattle.std.specs.List.{list_any};
ghost use Rattle.cells.specs.TotalOrder.{cell_total};
ghost use Rattle.groups.specs.Finishing.{behind_first, first_total, left_by, left_by_all, row_by, value_by};
ghost use Rattle.groups.specs.Groups.{cell_at_index, grouping, mark};
ghost use Rattle.query.specs.Limits.{grouping_limit};
ghost use Rattle.query.specs.Values.{is_long};

use crate::held::Held;
use crate::set_columns::index_in;
use cells::{Cell, KeyHash, Total, Tuple};
use query::Item;
use std::alloc::{AllocError, Global};
use std::marker::Model;

/// A row of a report, seen as the list of its values: one for each item of the select list, in its order.
#[derive(Drop)]
pub struct ReportRow {
    pub totals: Vec<Total>,
}

impl Model for ReportRow {
    ghost use Rattle.std.specs.Prelude.{List};
    ghost use Rattle.cells.specs.declared.total.Total.{Total};

    ghost Value = { List Total };

    ghost view = { λ r. r.totals.items };
}

/// The cell as a value.
fn cell_total(cell: &Cell) -> Result<Total, AllocError>
    ensures { IfOk result (λ t. t ≡ cell_total cell.now) }
{
    match cell {
        Cell::Null => Ok(Total::Null),
        Cell::Int(n) => Ok(Total::Int(i128::from(*n))),
        Cell::Text(text) => Ok(Total::Text(text.clone()?)),
    }
}

/// The value of the tuple's cell of an index: NULL where there is none, as in a subtotal of the column.
fn total_at(tuple: &Tuple, index: Option<usize>) -> Result<Total, AllocError>
    ensures { IfOk result (λ t. t ≡ cell_total (cell_at_index tuple.now index)) }
{
    match index {
        None => Ok(Total::Null),
        Some(index) => match tuple.cells().get(index) {
            None => Ok(Total::Null),
            Some(cell) => cell_total(cell),
        },
    }
}

/// GROUPING of the columns: the number whose binary digits are their marks, that of the last column the lowest.
fn grouping(set: &[usize], columns: &[usize]) -> Total
    requires { length columns.now ≤ grouping_limit }
    ensures { result ≡ Total.Int (pos (grouping set.now columns.now)) }
{
    let mut found: u64 = 0;
    for column in columns {
        found = 2 * found + mark(index_in(set, *column));
    }
    Total::Int(i128::from(found))
}

/// The mark of a column: 0 where it stands in the grouping set, else 1.
fn mark(index: Option<usize>) -> u64
    ensures { result ≡ mark index }
{
    match index {
        None => 1,
        Some(_) => 0,
    }
}

/// The value of the first accumulator, and those behind it.
fn next_total<'a, H: KeyHash<Cell>>(
    accs: &'a [Held<H>],
) -> Result<(Total, &'a [Held<H>]), AllocError>
    ensures total { IfOk result (λ r. r.0 ≡ first_total accs.now) }
    ensures left { IfOk result (λ r. r.1.now ≡ behind_first accs.now) }
{
    match accs.split_first() {
        None => Ok((Total::Null, accs)),
        Some((acc, left)) => Ok((acc.finish()?, left)),
    }
}

/// The value of an item, and the accumulators that are left for the items behind it.
fn value_of<'a, H: KeyHash<Cell>>(
    item: &Item<usize>,
    set: &[usize],
    tuple: &Tuple,
    accs: &'a [Held<H>],
) -> Result<(Total, &'a [Held<H>]), AllocError>
    requires { is_long item.now ≡ false }
    ensures value { IfOk result (λ r. r.0 ≡ value_by set.now tuple.now item.now accs.now) }
    ensures left { IfOk result (λ r. r.1.now ≡ left_by item.now accs.now) }
{
    match item {
        Item::Column(column) => Ok((total_at(tuple, index_in(set, *column))?, accs)),
        Item::Grouping(columns) => Ok((grouping(set, columns.as_slice()), accs)),
        Item::CountRows
        | Item::Count(_)
        | Item::CountDistinct(_)
        | Item::Sum(_)
        | Item::Min(_)
        | Item::Max(_) => next_total(accs),
    }
}

/// The row of a group: the values of the items, of which the accumulators are.
pub(crate) fn row_of<H: KeyHash<Cell>>(
    alloc: Global,
    set: &[usize],
    items: &[Item<usize>],
    tuple: &Tuple,
    accumulators: &[Held<H>],
) -> Result<ReportRow, AllocError>
    requires { list_any is_long items.now ≡ false }
    ensures { IfOk result (λ row. row ≡ row_by set.now tuple.now items.now accumulators.now) }
{
    let mut totals = Vec::with_capacity(alloc, items.len())?;
    add_values(&mut totals, set, items, tuple, accumulators)?;
    Ok(ReportRow { totals })
}

/// Puts the values of the items of a group behind those that are there.
pub(crate) fn add_values<H: KeyHash<Cell>>(
    values: &mut Vec<Total>,
    set: &[usize],
    items: &[Item<usize>],
    tuple: &Tuple,
    accumulators: &[Held<H>],
) -> Result<(), AllocError>
    requires { list_any is_long items.now ≡ false }
    ensures { IfOk result (λ _. values.new.items ≡ values.old.items ++ row_by set.now tuple.now items.now accumulators.now) }
{
    let mut accs = accumulators;
    for item in items {
        let (total, left) = value_of(item, set, tuple, accs)?;
        values.push(total)?;
        accs = left;
    }
    Ok(())
}

/// The accumulators that are left for the items behind these.
pub(crate) fn behind<'a, H: KeyHash<Cell>>(
    items: &[Item<usize>],
    accumulators: &'a [Held<H>],
) -> &'a [Held<H>]
    ensures { result.now ≡ left_by_all items.now accumulators.now }
{
    let mut accs = accumulators;
    for item in items {
        accs = behind_one(item, accs);
    }
    accs
}

/// The accumulators that are left for the items behind this one.
fn behind_one<'a, H: KeyHash<Cell>>(item: &Item<usize>, accs: &'a [Held<H>]) -> &'a [Held<H>]
    ensures { result.now ≡ left_by item.now accs.now }
{
    match item {
        Item::Column(_) | Item::Grouping(_) => accs,
        Item::CountRows
        | Item::Count(_)
        | Item::CountDistinct(_)
        | Item::Sum(_)
        | Item::Min(_)
        | Item::Max(_) => behind_first(accs),
    }
}

/// The accumulators behind the first.
fn behind_first<'a, H: KeyHash<Cell>>(accs: &'a [Held<H>]) -> &'a [Held<H>]
    ensures { result.now ≡ behind_first accs.now }
{
    match accs.split_first() {
        None => accs,
        Some((_, left)) => left,
    }
}
