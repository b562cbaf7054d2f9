//! Why a field of a record spells no cell of its column.

use crate::shown::shown;
use cells::{ColumnType, MAX_TEXT_BYTES};
use std::alloc::{AllocError, Global};
use std::fmt;

/// Why a field spells no cell of its column, or no key.
#[derive(Drop)]
pub enum FieldFault {
    /// It is no UTF-8, from this byte of the field on, counted from 1.
    NotUtf8(usize),
    /// A text of so many bytes.
    TooLong(usize),
    /// It spells no integer, for this reason.
    NoNumber { found: String, why: &'static str },
    /// The field of the key is empty.
    EmptyKey,
}

impl fmt::Display for FieldFault {
    fn fmt<W: fmt::Write>(&self, f: &mut fmt::Formatter<W>) -> fmt::Result {
        match self {
            FieldFault::NotUtf8(place) => write!(f, "byte {place} is no UTF-8"),
            FieldFault::TooLong(bytes) => {
                write!(f, "a text of {bytes} bytes, {MAX_TEXT_BYTES} at most")
            }
            FieldFault::NoNumber { found, why } => write!(f, "{found}: {why}"),
            FieldFault::EmptyKey => write!(f, "empty, and the key may not be NULL"),
        }
    }
}

/// Why the field spells no cell of this type, where it spells none. The only error is that a growth was refused.
pub fn field_fault(
    alloc: Global,
    kind: ColumnType,
    field: &[u8],
) -> Result<FieldFault, AllocError> {
    match str::from_utf8(field) {
        Ok(text) => text_fault(alloc, kind, text),
        Err(error) => Ok(FieldFault::NotUtf8(error.valid_up_to().saturating_add(1))),
    }
}

/// The same of a field in UTF-8.
fn text_fault(alloc: Global, kind: ColumnType, text: &str) -> Result<FieldFault, AllocError> {
    match kind {
        ColumnType::Int => Ok(FieldFault::NoNumber {
            found: shown(alloc, text)?,
            why: why_no_number(text),
        }),
        ColumnType::Text => Ok(FieldFault::TooLong(text.len())),
    }
}

/// Why a text spells no integer.
fn why_no_number(text: &str) -> &'static str {
    if is_whole(text) {
        return "a number has 64 bits at most";
    }
    if text.starts_with('+') {
        return "a number has no plus";
    }
    if is_decimal(text) {
        return "numbers are whole";
    }
    "no whole number"
}

/// Whether the text is an optional `-` and one or more digits.
fn is_whole(text: &str) -> bool {
    are_digits(text.strip_prefix('-').unwrap_or(text))
}

/// Whether the text is a whole number, a point and digits.
fn is_decimal(text: &str) -> bool {
    match text.split_once('.') {
        Some((whole, digits)) => is_whole(whole) && are_digits(digits),
        None => false,
    }
}

/// Whether the text is one or more digits.
pub fn are_digits(text: &str) -> bool {
    !text.is_empty() && text.as_bytes().iter().all(|byte| byte.is_ascii_digit())
}
