//! The text of a report, in each form.
ghost use Rattle.std.specs.Prelude.{◌≡◌, ◌∷◌, [], ◌++◌, IfErr, IfOk, OnOk};
ghost use Rattle.std.specs.List.{flat_map, join_by};
ghost use Rattle.forms.specs.Forms.{report_in};
ghost use Rattle.forms.specs.Json.{json_row};
ghost use Rattle.forms.specs.Tables.{table_row, widths_of};
ghost use Rattle.report.specs.Reports.{report_of, report_text};

use crate::subtotals::{told_rows, unmarked};
use cells::{Refused, Text};
use forms::table::Widths;
use forms::{Form, classic, commas, json, table};
use groups::ReportRow;
use query::Plan;
use std::alloc::{AllocError, Global};

/// The text of a report in the classic form: the plan's headings in one line, and then a line for each row.
///
/// [`Refused::OutOfMemory`] where a growth of the text was refused.
pub fn text(alloc: Global, plan: &Plan, rows: &[ReportRow]) -> Result<Vec<u8>, Refused>
    ensures text { IfOk result (λ text. text.items ≡ report_text plan.now rows.now) }
    ensures refused { IfErr result (λ e. e ≡ Refused.OutOfMemory) }
{
    Ok(classic_text(alloc, plan.headings(), rows)?)
}

/// The text of a report in a form, of whose rows each stands where it is written.
pub(crate) fn text_in(
    alloc: Global,
    form: Form,
    headings: &[Text],
    rows: Vec<ReportRow>,
) -> Result<Vec<u8>, AllocError>
    ensures { IfOk result (λ text. text.items ≡ report_of form headings.now rows.items) }
{
    match form {
        Form::Classic => classic_text(alloc, headings, rows.as_slice()),
        Form::Csv => csv_text(alloc, headings, rows.as_slice()),
        Form::Json => json_text(alloc, headings, rows.as_slice()),
        Form::Table => table_text(alloc, headings, rows),
    }
}

/// The headings in one line, and then a line for each row.
fn classic_text(alloc: Global, headings: &[Text], rows: &[ReportRow]) -> Result<Vec<u8>, AllocError>
    ensures { IfOk result (λ text. text.items ≡ report_of Form.Classic headings.now rows.now) }
{
    let mut text = Vec::new(alloc);
    classic::push_header(&mut text, headings)?;
    for row in rows {
        classic::push_row(alloc, &mut text, row.totals.as_slice())?;
    }
    Ok(text)
}

/// The headings as a record, and then a record for each row.
fn csv_text(alloc: Global, headings: &[Text], rows: &[ReportRow]) -> Result<Vec<u8>, AllocError>
    ensures { IfOk result (λ text. text.items ≡ report_of Form.Csv headings.now rows.now) }
{
    let mut text = Vec::new(alloc);
    commas::push_header(&mut text, headings)?;
    for row in rows {
        commas::push_row(&mut text, row.totals.as_slice())?;
    }
    Ok(text)
}

/// The last members of an object, and its end: the headings, and the rows.
fn json_text(alloc: Global, headings: &[Text], rows: &[ReportRow]) -> Result<Vec<u8>, AllocError>
    ensures { IfOk result (λ text. text.items ≡ report_of Form.Json headings.now rows.now) }
{
    let mut text = Vec::new(alloc);
    text.extend_from_slice(b"\"columns\":")?;
    json::push_columns(&mut text, headings)?;
    text.extend_from_slice(b",\"rows\":[")?;
    push_json_rows(&mut text, rows)?;
    text.extend_from_slice(b"]}\n")?;
    Ok(text)
}

/// The text with the arrays of the rows behind it, and a comma between two.
fn push_json_rows(text: &mut Vec<u8>, rows: &[ReportRow]) -> Result<(), AllocError>
    ensures { OnOk result (text.new.items ≡ text.old.items ++ join_by json_row (44 ∷ []) rows.now) }
{
    if let Some((first, rest)) = rows.split_first() {
        json::push_row(text, first.totals.as_slice())?;
        push_later_rows(text, rest)?;
    }
    Ok(())
}

/// The text with the arrays of the rows behind it, each after a comma.
fn push_later_rows(text: &mut Vec<u8>, rows: &[ReportRow]) -> Result<(), AllocError>
    ensures { OnOk result (text.new.items ≡ text.old.items ++ flat_map (λ row. 44 ∷ json_row row) rows.now) }
{
    for row in rows {
        text.push(b',')?;
        json::push_row(text, row.totals.as_slice())?;
    }
    Ok(())
}

/// The headings over dashes, and then a line for each row, in columns as wide as what stands in them.
/// Where the grouping set of a row lacks a column, `(all)` stands there, and no NULL.
fn table_text(alloc: Global, headings: &[Text], rows: Vec<ReportRow>) -> Result<Vec<u8>, AllocError>
    ensures { IfOk result (λ text. text.items ≡ report_of Form.Table headings.now rows.items) }
{
    let rows = told_rows(alloc, rows)?;
    unmarked_table(alloc, unmarked(headings), rows.as_slice())
}

/// The table of these headings and rows.
fn unmarked_table(
    alloc: Global,
    headings: &[Text],
    rows: &[ReportRow],
) -> Result<Vec<u8>, AllocError>
    ensures { IfOk result (λ text. text.items ≡ report_in Form.Table headings.now rows.now) }
{
    let widths = widths_of(alloc, headings, rows)?;
    let mut text = Vec::new(alloc);
    table::push_header(alloc, &mut text, &widths, headings)?;
    push_table_rows(alloc, &mut text, &widths, rows)?;
    Ok(text)
}

/// The text with a line for each row behind it, in columns of these widths.
fn push_table_rows(
    alloc: Global,
    text: &mut Vec<u8>,
    widths: &Widths,
    rows: &[ReportRow],
) -> Result<(), AllocError>
    ensures { OnOk result (text.new.items ≡ text.old.items ++ flat_map (table_row widths.now) rows.now) }
{
    for row in rows {
        table::push_row(alloc, text, widths, row.totals.as_slice())?;
    }
    Ok(())
}

/// The widths of the columns.
fn widths_of(alloc: Global, headings: &[Text], rows: &[ReportRow]) -> Result<Widths, AllocError>
    ensures { IfOk result (λ widths. widths ≡ widths_of headings.now rows.now) }
{
    let mut widths = Widths::of(alloc, headings)?;
    for row in rows {
        widths.widen(alloc, row.totals.as_slice())?;
    }
    Ok(widths)
}
