//! What stands in a column.
ghost use Rattle.std.specs.Prelude.{◌≡◌, ◌++◌, ◌-◌, IfOk, OnOk, replicate};
ghost use Rattle.std.specs.Fmt.{char_count, is_char_start, signed_decimal};
ghost use Rattle.forms.specs.Tables.{at_left, blanks, cell_of, shown, shown_text};

use crate::escapes::push_plain;
use crate::integers::push_integer;
use cells::Total;
use std::alloc::{AllocError, Global};

/// The text, in which a character that is not seen is escaped, so that it stays in its line.
pub(super) fn shown_text(alloc: Global, text: &str) -> Result<Vec<u8>, AllocError>
    ensures { IfOk result (λ shown. shown.items ≡ shown_text text.now) }
{
    let mut shown = Vec::new(alloc);
    for letter in text.chars() {
        push_plain(&mut shown, letter)?;
    }
    Ok(shown)
}

/// What is shown of a value.
pub(super) fn shown(alloc: Global, total: &Total) -> Result<Vec<u8>, AllocError>
    ensures { IfOk result (λ text. text.items ≡ shown total.now) }
{
    match total {
        Total::Null => Vec::from_slice(alloc, b"NULL"),
        Total::Int(n) => decimal(alloc, *n),
        Total::Text(text) => shown_text(alloc, text.as_str()),
    }
}

/// An integer in decimal.
fn decimal(alloc: Global, n: i128) -> Result<Vec<u8>, AllocError>
    ensures { IfOk result (λ text. text.items ≡ signed_decimal n) }
{
    let mut text = Vec::new(alloc);
    push_integer(&mut text, n)?;
    Ok(text)
}

/// How many characters the bytes spell.
#[tactic(auto, using(crate::proofs::WidthsLemmas::counted))]
pub(super) fn width(text: &[u8]) -> usize
    ensures { result ≡ char_count text.now }
{
    text.iter().filter(|byte| is_char_start(**byte)).count()
}

/// Whether a byte begins a character of UTF-8. The others, which are `10xxxxxx`, go on with one.
fn is_char_start(byte: u8) -> bool
    ensures { result ≡ is_char_start byte }
{
    byte < 128 || byte >= 192
}

/// The text with a value behind it, in a column of this width.
pub(super) fn push_value(
    alloc: Global,
    text: &mut Vec<u8>,
    wide: usize,
    total: &Total,
) -> Result<(), AllocError>
    ensures { OnOk result (text.new.items ≡ text.old.items ++ cell_of wide total.now) }
{
    let shown = shown(alloc, total)?;
    match total {
        Total::Int(_) => push_right(text, wide, shown.as_slice()),
        _ => push_left(text, wide, shown.as_slice()),
    }
}

/// The text with another behind it, at the right of a column of this width.
fn push_right(text: &mut Vec<u8>, wide: usize, value: &[u8]) -> Result<(), AllocError>
    ensures { OnOk result (text.new.items ≡ text.old.items ++ (blanks wide value.now ++ value.now)) }
{
    push_many(text, wide.saturating_sub(width(value)), b' ')?;
    text.extend_from_slice(value)?;
    Ok(())
}

/// The text with another behind it, at the left of a column of this width.
pub(super) fn push_left(text: &mut Vec<u8>, wide: usize, value: &[u8]) -> Result<(), AllocError>
    ensures { OnOk result (text.new.items ≡ text.old.items ++ at_left wide value.now) }
{
    text.extend_from_slice(value)?;
    push_many(text, wide.saturating_sub(width(value)), b' ')
}

/// The text with a byte behind it, so many times.
pub(super) fn push_many(text: &mut Vec<u8>, count: usize, byte: u8) -> Result<(), AllocError>
    ensures { OnOk result (text.new.items ≡ text.old.items ++ replicate count byte) }
{
    for _ in 0..count {
        text.push(byte)?;
    }
    Ok(())
}
