//! The classic form: the headings in a line, and then a line of literals for each row.
ghost use Rattle.std.specs.Prelude.{◌≡◌, ◌++◌, OnOk};
ghost use Rattle.std.specs.List.{flat_map};
ghost use Rattle.cells.specs.Literals.{literal_of};
ghost use Rattle.forms.specs.Classic.{header_text, row_text, separator};

use cells::{Text, Total, literal};
use std::alloc::{AllocError, Global};

/// What stands between two values of a line.
const SEPARATOR: &[u8] = b" | ";

/// The text with the line of the headings behind it. The only error is that a growth was refused.
pub fn push_header(text: &mut Vec<u8>, headings: &[Text]) -> Result<(), AllocError>
    ensures { OnOk result (text.new.items ≡ text.old.items ++ header_text headings.now) }
{
    if let Some((first, rest)) = headings.split_first() {
        text.extend_from_slice(first.as_bytes())?;
        push_headings(text, rest)?;
    }
    text.push(b'\n')?;
    Ok(())
}

/// The text with the headings behind it, each after a separator.
fn push_headings(text: &mut Vec<u8>, headings: &[Text]) -> Result<(), AllocError>
    ensures { OnOk result (text.new.items ≡ text.old.items ++ flat_map (λ heading. separator ++ heading) headings.now) }
{
    for heading in headings {
        text.extend_from_slice(SEPARATOR)?;
        text.extend_from_slice(heading.as_bytes())?;
    }
    Ok(())
}

/// The text with the line of a row behind it. The only error is that a growth was refused.
pub fn push_row(alloc: Global, text: &mut Vec<u8>, totals: &[Total]) -> Result<(), AllocError>
    ensures { OnOk result (text.new.items ≡ text.old.items ++ row_text totals.now) }
{
    if let Some((first, rest)) = totals.split_first() {
        push_literal(alloc, text, first)?;
        push_literals(alloc, text, rest)?;
    }
    text.push(b'\n')?;
    Ok(())
}

/// The text with the values behind it, each after a separator.
fn push_literals(alloc: Global, text: &mut Vec<u8>, totals: &[Total]) -> Result<(), AllocError>
    ensures { OnOk result (text.new.items ≡ text.old.items ++ flat_map (λ total. separator ++ literal_of total) totals.now) }
{
    for total in totals {
        text.extend_from_slice(SEPARATOR)?;
        push_literal(alloc, text, total)?;
    }
    Ok(())
}

/// The text with a value behind it.
fn push_literal(alloc: Global, text: &mut Vec<u8>, total: &Total) -> Result<(), AllocError>
    ensures { OnOk result (text.new.items ≡ text.old.items ++ literal_of total.now) }
{
    let Ok(value) = literal(alloc, total) else {
        return Err(AllocError);
    };
    text.extend_from_slice(value.as_bytes())?;
    Ok(())
}
