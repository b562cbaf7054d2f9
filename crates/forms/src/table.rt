//! A table for people: columns as wide as what stands in them, two blanks apart. A width counts characters.
ghost use Rattle.std.specs.Prelude.{◌≡◌, ◌∷◌, [], ◌++◌, IfOk, OnOk, map, replicate};
ghost use Rattle.std.specs.List.{flat_map};
ghost use Rattle.forms.specs.Tables.{at_left, cell_of, cells_of, gapped, shown_text, table_header, table_row, without_end_blanks};

mod cell;
mod widths;

use self::cell::{push_left, push_many, push_value, shown_text};
use cells::{Text, Total};
use std::alloc::{AllocError, Global};
pub use widths::Widths;

/// What stands between two columns.
const GAP: &[u8] = b"  ";

/// The text with the line of the headings behind it, and one of dashes below that. The only error is that a growth was
/// refused.
pub fn push_header(
    alloc: Global,
    text: &mut Vec<u8>,
    widths: &Widths,
    headings: &[Text],
) -> Result<(), AllocError>
    ensures { OnOk result (text.new.items ≡ text.old.items ++ table_header widths.now headings.now) }
{
    let headings = headings_of(alloc, widths, headings)?;
    push_line(text, headings.as_slice())?;
    let dashes = dashes_of(alloc, widths)?;
    push_line(text, dashes.as_slice())
}

/// The headings in their columns, each with a gap behind it.
fn headings_of(alloc: Global, widths: &Widths, headings: &[Text]) -> Result<Vec<u8>, AllocError>
    ensures { IfOk result (λ made. made.items ≡ flat_map gapped (cells_of (λ wide heading. at_left wide (shown_text heading)) widths.now headings.now)) }
{
    let mut made = Vec::new(alloc);
    for (place, heading) in headings.iter().enumerate() {
        let shown = shown_text(alloc, heading.as_str())?;
        push_left(&mut made, widths.at(place), shown.as_slice())?;
        made.extend_from_slice(GAP)?;
    }
    Ok(made)
}

/// Dashes as wide as each column, with a gap behind them.
fn dashes_of(alloc: Global, widths: &Widths) -> Result<Vec<u8>, AllocError>
    ensures { IfOk result (λ made. made.items ≡ flat_map gapped (map (λ wide. replicate wide 45) widths.now)) }
{
    let mut made = Vec::new(alloc);
    for wide in widths.as_slice() {
        push_many(&mut made, *wide, b'-')?;
        made.extend_from_slice(GAP)?;
    }
    Ok(made)
}

/// The text with the line of a row after it: integers at the right of their columns, `NULL` and texts at the left. A character of a
/// text that is not seen is escaped as in JSON, and a backslash is doubled. A column that has no width has width 0. The only error is
/// that a growth was refused.
pub fn push_row(
    alloc: Global,
    text: &mut Vec<u8>,
    widths: &Widths,
    totals: &[Total],
) -> Result<(), AllocError>
    ensures { OnOk result (text.new.items ≡ text.old.items ++ table_row widths.now totals.now) }
{
    let values = values_of(alloc, widths, totals)?;
    push_line(text, values.as_slice())
}

/// The values in their columns, each with a gap behind it.
fn values_of(alloc: Global, widths: &Widths, totals: &[Total]) -> Result<Vec<u8>, AllocError>
    ensures { IfOk result (λ made. made.items ≡ flat_map gapped (cells_of cell_of widths.now totals.now)) }
{
    let mut made = Vec::new(alloc);
    for (place, total) in totals.iter().enumerate() {
        push_value(alloc, &mut made, widths.at(place), total)?;
        made.extend_from_slice(GAP)?;
    }
    Ok(made)
}

/// The text with a line behind it, but for the blanks at its end.
fn push_line(text: &mut Vec<u8>, line: &[u8]) -> Result<(), AllocError>
    ensures { OnOk result (text.new.items ≡ text.old.items ++ (without_end_blanks line.now ++ 10 ∷ [])) }
{
    text.extend_from_slice(without_end_blanks(line))?;
    text.push(b'\n')?;
    Ok(())
}

/// The line without the blanks at its end.
fn without_end_blanks(line: &[u8]) -> &[u8]
    ensures { result.now ≡ without_end_blanks line.now }
{
    let mut rest = line;
    while let Some((last, front)) = rest.split_last() {
        if *last != b' ' {
            return rest;
        }
        rest = front;
    }
    rest
}
