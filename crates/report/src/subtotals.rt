//! The rows of a table by their marks, which stand behind the values.
ghost use Rattle.std.specs.Prelude.{◌≡◌, IfOk, map};
ghost use Rattle.std.specs.List.{zip};
ghost use Rattle.report.specs.Subtotals.{is_all, told, told_row, unmarked};

use cells::{Text, Total};
use groups::ReportRow;
use std::alloc::{AllocError, Global};

/// What stands for the value of a column that the grouping set of a row lacks.
const ALL: &str = "(all)";

/// The headings without those of the marks.
pub fn unmarked(headings: &[Text]) -> &[Text]
    ensures { result.now ≡ unmarked headings.now }
{
    let (shown, _) = headings.split_at(headings.len() / 2);
    shown
}

/// The rows, each value by its mark.
pub fn told_rows(alloc: Global, rows: Vec<ReportRow>) -> Result<Vec<ReportRow>, AllocError>
    ensures { IfOk result (λ all. all.items ≡ map told_row rows.items) }
{
    let mut all = Vec::with_capacity(alloc, rows.len())?;
    for row in rows {
        all.push(told_row(alloc, row)?)?;
    }
    Ok(all)
}

/// The row, each value by its mark.
fn told_row(alloc: Global, row: ReportRow) -> Result<ReportRow, AllocError>
    ensures { IfOk result (λ made. made ≡ told_row row) }
{
    let ReportRow { totals: mut values } = row;
    let marks = values.split_off(values.len() / 2)?;
    let totals = told_all(alloc, values, marks)?;
    Ok(ReportRow { totals })
}

/// Values, each by its mark.
fn told_all(alloc: Global, values: Vec<Total>, marks: Vec<Total>) -> Result<Vec<Total>, AllocError>
    ensures { IfOk result (λ all. all.items ≡ map told (zip values.items marks.items)) }
{
    let mut all = Vec::with_capacity(alloc, values.len())?;
    for (value, mark) in values.into_iter().zip(marks) {
        all.push(told(alloc, value, &mark)?)?;
    }
    Ok(all)
}

/// A value by its mark.
fn told(alloc: Global, value: Total, mark: &Total) -> Result<Total, AllocError>
    ensures { IfOk result (λ made. made ≡ told (value, mark.now)) }
{
    if is_all(mark) {
        return Ok(Total::Text(Text::copied(alloc, ALL)?));
    }
    Ok(value)
}

/// Whether it is the mark of a column that the grouping set lacks.
fn is_all(mark: &Total) -> bool
    ensures { result ≡ is_all mark.now }
{
    match mark {
        Total::Int(mark) => *mark == 1,
        _ => false,
    }
}
