//! CSV (RFC 4180): a record for each row, below one of the headings. Each line ends with a line feed, as all that is
//! written beside it.
ghost use Rattle.std.specs.Prelude.{◌≡◌, ◌∷◌, [], ◌++◌, OnOk, slice_index};
ghost use Rattle.std.specs.List.{flat_map, join_by, list_any};
ghost use Rattle.cells.specs.Spelling.{is_blank};
ghost use Rattle.forms.specs.Csv.{begins_with_bom, csv_field, csv_header, csv_row, doubled_byte, has_blank_end, in_quotes, is_lone_null, is_mark, needs_quotes, text_field};

use crate::integers::push_integer;
use cells::{Text, Total};
use std::alloc::AllocError;

/// The text with the record of the headings behind it, each in quotes. The only error is that a growth was refused.
pub fn push_header(text: &mut Vec<u8>, headings: &[Text]) -> Result<(), AllocError>
    ensures { OnOk result (text.new.items ≡ text.old.items ++ csv_header headings.now) }
{
    if let Some((first, rest)) = headings.split_first() {
        push_quoted(text, first.as_bytes())?;
        push_headings(text, rest)?;
    }
    text.push(b'\n')?;
    Ok(())
}

/// The text with the headings behind it, each after a comma.
fn push_headings(text: &mut Vec<u8>, headings: &[Text]) -> Result<(), AllocError>
    ensures { OnOk result (text.new.items ≡ text.old.items ++ flat_map (λ heading. 44 ∷ in_quotes heading) headings.now) }
{
    for heading in headings {
        text.push(b',')?;
        push_quoted(text, heading.as_bytes())?;
    }
    Ok(())
}

/// The text with the record of a row behind it: NULL is an empty field, and a text stands in quotes where it is empty, holds
/// a comma, a quote or a line break, begins or ends with a blank, or begins with a byte order mark. A row of one NULL alone is
/// two quotes, which a reader takes for an empty text: it would pass over an empty line. The only error is that a growth was
/// refused.
pub fn push_row(text: &mut Vec<u8>, totals: &[Total]) -> Result<(), AllocError>
    ensures { OnOk result (text.new.items ≡ text.old.items ++ csv_row totals.now) }
{
    if is_lone_null(totals) {
        text.extend_from_slice(b"\"\"")?;
    } else {
        push_fields(text, totals)?;
    }
    text.push(b'\n')?;
    Ok(())
}

/// Whether there is one value alone, and it is NULL.
fn is_lone_null(totals: &[Total]) -> bool
    ensures { result ≡ is_lone_null totals.now }
{
    matches!(totals, [Total::Null])
}

/// The text with the values behind it, with commas between them.
fn push_fields(text: &mut Vec<u8>, totals: &[Total]) -> Result<(), AllocError>
    ensures { OnOk result (text.new.items ≡ text.old.items ++ join_by csv_field (44 ∷ []) totals.now) }
{
    if let Some((first, rest)) = totals.split_first() {
        push_field(text, first)?;
        push_later(text, rest)?;
    }
    Ok(())
}

/// The text with the values behind it, each after a comma.
fn push_later(text: &mut Vec<u8>, totals: &[Total]) -> Result<(), AllocError>
    ensures { OnOk result (text.new.items ≡ text.old.items ++ flat_map (λ total. 44 ∷ csv_field total) totals.now) }
{
    for total in totals {
        text.push(b',')?;
        push_field(text, total)?;
    }
    Ok(())
}

/// The text with a value behind it.
fn push_field(text: &mut Vec<u8>, total: &Total) -> Result<(), AllocError>
    ensures { OnOk result (text.new.items ≡ text.old.items ++ csv_field total.now) }
{
    match total {
        Total::Null => Ok(()),
        Total::Int(n) => push_integer(text, *n),
        Total::Text(value) => push_text(text, value.as_bytes()),
    }
}

/// The text with another behind it, in quotes where it needs them.
fn push_text(text: &mut Vec<u8>, value: &[u8]) -> Result<(), AllocError>
    ensures { OnOk result (text.new.items ≡ text.old.items ++ text_field value.now) }
{
    if needs_quotes(value) {
        return push_quoted(text, value);
    }
    text.extend_from_slice(value)?;
    Ok(())
}

/// The text with another behind it, in quotes.
fn push_quoted(text: &mut Vec<u8>, value: &[u8]) -> Result<(), AllocError>
    ensures { OnOk result (text.new.items ≡ text.old.items ++ in_quotes value.now) }
{
    text.push(b'"')?;
    push_doubled(text, value)?;
    text.push(b'"')?;
    Ok(())
}

/// The text with another behind it, and each quote in that twice.
fn push_doubled(text: &mut Vec<u8>, value: &[u8]) -> Result<(), AllocError>
    ensures { OnOk result (text.new.items ≡ text.old.items ++ flat_map doubled_byte value.now) }
{
    for byte in value {
        push_byte(text, *byte)?;
    }
    Ok(())
}

/// The text with a byte behind it, which stands twice if it is a quote.
fn push_byte(text: &mut Vec<u8>, byte: u8) -> Result<(), AllocError>
    ensures { OnOk result (text.new.items ≡ text.old.items ++ doubled_byte byte) }
{
    if byte == b'"' {
        return text.extend_from_slice(b"\"\"");
    }
    text.push(byte)?;
    Ok(())
}

/// Whether a text would not be read back if it stood bare.
fn needs_quotes(value: &[u8]) -> bool
    ensures { result ≡ needs_quotes value.now }
{
    if value.is_empty() {
        return true;
    }
    if has_blank_end(value) {
        return true;
    }
    if begins_with_bom(value) {
        return true;
    }
    holds_mark(value)
}

/// Whether some byte may stand in quotes alone.
fn holds_mark(value: &[u8]) -> bool
    ensures { result ≡ list_any is_mark value.now }
{
    value.iter().any(|byte| is_mark(*byte))
}

/// Whether a byte may stand in quotes alone.
fn is_mark(byte: u8) -> bool
    ensures { result ≡ is_mark byte }
{
    byte == b',' || byte == b'"' || byte == b'\r' || byte == b'\n'
}

/// Whether a blank stands first or last.
fn has_blank_end(value: &[u8]) -> bool
    ensures { result ≡ has_blank_end value.now }
{
    is_blank(byte_at(value, 0)) || is_blank(byte_at(value, value.len().saturating_sub(1)))
}

/// Whether the text begins with a byte order mark.
fn begins_with_bom(value: &[u8]) -> bool
    ensures { result ≡ begins_with_bom value.now }
{
    byte_at(value, 0) == 0xEF && byte_at(value, 1) == 0xBB && byte_at(value, 2) == 0xBF
}

/// The byte at a place, or 0 past the end.
fn byte_at(value: &[u8], place: usize) -> u8
    ensures { result ≡ slice_index value.now place }
{
    match value.get(place) {
        Some(byte) => *byte,
        None => 0,
    }
}

/// Space, tab, line feed and carriage return.
fn is_blank(byte: u8) -> bool
    ensures { result ≡ is_blank byte }
{
    byte == b' ' || byte == b'\t' || byte == b'\n' || byte == b'\r'
}
