//! The order in which a report's rows stand, and how many of them are shown.
ghost use Rattle.std.specs.Prelude.{◌≡◌, IfOk, OnOk, Some, bytes_eq, map};
ghost use Rattle.std.specs.List.{position};
ghost use Rattle.cells.specs.TotalOrder.{total_cmp};
ghost use Rattle.report.specs.Arranging.{arranged, column_cmp, column_of, limited, ordered, rows_cmp, sorted, unarranged, value_at};

use cells::{Text, Total};
use groups::ReportRow;
use std::alloc::{AllocError, Global};
use std::cmp::Ordering;
use std::marker::Model;

/// A sort specification, as one of an <order by clause> of SQL: rows stand by their values in the first column of this heading.
/// NULL stands before all integers, and these before all texts; where the key descends, it is the other way round. A heading
/// that the report does not have decides nothing.
#[derive(Drop)]
pub struct SortKey {
    pub heading: Text,
    pub descends: bool,
}

impl Clone for SortKey {
    ghost is_clone = { λ one copy. copy ≡ one };

    fn clone(&self) -> Result<SortKey, AllocError> {
        Ok(SortKey {
            heading: self.heading.clone()?,
            descends: self.descends,
        })
    }
}

/// How the rows of a report are arranged: by the first key, those that tie by the next one, and so on; rows that tie by all of
/// them stand as they came. Then the first `limit` rows are shown, where there is a limit.
#[derive(Drop)]
pub struct Arrangement {
    pub order: Vec<SortKey>,
    pub limit: Option<u64>,
}

impl Model for Arrangement {
    ghost use Rattle.report.specs.Arranging.{ArrangementValue};

    ghost Value = { ArrangementValue };

    ghost view = { λ a. record { order = a.order.items; limit = a.limit } };
}

impl Arrangement {
    /// All rows, as they come.
    pub fn none(alloc: Global) -> Arrangement
        ensures { result ≡ unarranged }
    {
        Arrangement {
            order: Vec::new(alloc),
            limit: None,
        }
    }
}

impl Clone for Arrangement {
    ghost is_clone = { λ one copy. copy ≡ one };

    fn clone(&self) -> Result<Arrangement, AllocError> {
        Ok(Arrangement {
            order: self.order.clone()?,
            limit: self.limit,
        })
    }
}

/// Arranges the rows of a report with these headings.
pub(crate) fn arrange(
    alloc: Global,
    arrangement: &Arrangement,
    headings: &[Text],
    rows: &mut Vec<ReportRow>,
) -> Result<(), AllocError>
    ensures { OnOk result (rows.new.items ≡ arranged arrangement.now headings.now rows.old.items) }
{
    sort(alloc, arrangement.order.as_slice(), headings, rows)?;
    cut(arrangement.limit, rows);
    Ok(())
}

/// Leaves the first rows, as many as the limit says.
fn cut(limit: Option<u64>, rows: &mut Vec<ReportRow>)
    ensures { rows.new.items ≡ limited limit rows.old.items }
{
    if let Some(limit) = limit {
        rows.truncate(limit as usize);
    }
}

/// Puts the rows in the order of the keys; rows that tie stay as they stand.
fn sort(
    alloc: Global,
    order: &[SortKey],
    headings: &[Text],
    rows: &mut Vec<ReportRow>,
) -> Result<(), AllocError>
    ensures { OnOk result (rows.new.items ≡ ordered order.now headings.now rows.old.items) }
{
    if order.is_empty() {
        return Ok(());
    }
    let columns = columns_of(alloc, order, headings)?;
    sort_by_columns(columns.as_slice(), rows)
}

/// A column by which rows are sorted.
#[derive(Clone, Copy, Drop)]
struct SortColumn {
    index: Option<usize>,
    descends: bool,
}

/// The columns of the keys. A heading is looked up once and not at each comparison.
fn columns_of(
    alloc: Global,
    order: &[SortKey],
    headings: &[Text],
) -> Result<Vec<SortColumn>, AllocError>
    ensures { IfOk result (λ columns. columns.items ≡ map (column_of headings.now) order.now) }
{
    let mut columns = Vec::with_capacity(alloc, order.len())?;
    for key in order {
        columns.push(SortColumn {
            index: index_of(&key.heading, headings),
            descends: key.descends,
        })?;
    }
    Ok(columns)
}

/// The index of the first column of the heading.
fn index_of(heading: &Text, headings: &[Text]) -> Option<usize>
    ensures { result ≡ position (bytes_eq heading.now) headings.now }
{
    headings.iter().position(|other| *heading == *other)
}

/// Puts the rows in the order of the columns; rows that tie stay as they stand.
fn sort_by_columns(columns: &[SortColumn], rows: &mut Vec<ReportRow>) -> Result<(), AllocError>
    ensures { OnOk result (rows.new.items ≡ sorted (rows_cmp columns.now) rows.old.items) }
{
    rows.sort_by(|a, b| compare(columns, a.totals.as_slice(), b.totals.as_slice()))
}

/// How two rows compare by the columns: the first in which they differ decides.
fn compare(columns: &[SortColumn], a: &[Total], b: &[Total]) -> Ordering
    ensures { result ≡ rows_cmp columns.now a.now b.now }
{
    for column in columns {
        match column.compare(a, b) {
            Ordering::Equal => {}
            decided => return decided,
        }
    }
    Ordering::Equal
}

impl SortColumn {
    /// How two rows compare by the column.
    fn compare(self, a: &[Total], b: &[Total]) -> Ordering
        ensures { result ≡ column_cmp self a.now b.now }
    {
        let Some(index) = self.index else {
            return Ordering::Equal;
        };
        if self.descends {
            compare_at(index, b, a)
        } else {
            compare_at(index, a, b)
        }
    }
}

/// How the values of two rows compare in a column. There is NULL where a row does not have the column.
fn compare_at(index: usize, a: &[Total], b: &[Total]) -> Ordering
    ensures { result ≡ total_cmp (value_at a.now (Some index)) (value_at b.now (Some index)) }
{
    compare_values(
        a.get(index).unwrap_or(&Total::Null),
        b.get(index).unwrap_or(&Total::Null),
    )
}

/// How two values compare: NULL, then the integers by value, then the texts by bytes.
fn compare_values(a: &Total, b: &Total) -> Ordering
    ensures { result ≡ total_cmp a.now b.now }
{
    match a {
        Total::Null => match b {
            Total::Null => Ordering::Equal,
            _ => Ordering::Less,
        },
        Total::Int(a) => match b {
            Total::Null => Ordering::Greater,
            Total::Int(b) => a.cmp(b),
            Total::Text(_) => Ordering::Less,
        },
        Total::Text(a) => match b {
            Total::Text(b) => a.cmp(b),
            _ => Ordering::Greater,
        },
    }
}
