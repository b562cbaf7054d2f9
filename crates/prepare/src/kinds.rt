//! The types that are proposed for the columns of parts.
ghost use Rattle.std.specs.Prelude.{◌≡◌, ℕ, ◌<◌, IfOk, length, map};
ghost use Rattle.std.specs.List.{slice_index_or};
ghost use Rattle.csv.specs.Records.{fields_of};
ghost use Rattle.cells.specs.declared.schema.ColumnType.TheVariants.{Text};
ghost use Rattle.prepare.specs.Proposals.{AreTypes, field_in, fits_int, is_padded, is_printed, narrowed, rows_of};

use crate::integers::integer_in;
use crate::rows::{Rows, field_in};
use cells::ColumnType;
use csv::ByteRecord;
use std::alloc::{AllocError, Global};

/// The types of the first so many columns of these parts, of which each has a header: INT where each field of the column, in all
/// parts, is NULL or an integer of 64 bits as it is printed, else TEXT. So `007`, `+7` and `-0` make a column one of texts. The only
/// error is that a growth was refused.
pub fn types_of(
    alloc: Global,
    parts: &[Vec<u8>],
    count: usize,
) -> Result<Vec<ColumnType>, AllocError>
    ensures { IfOk result (λ types. AreTypes (rows_of (map (λ p. p.items) parts.now)) count types.items) }
{
    let mut types = all_int(alloc, count)?;
    let mut rows = Rows::new(alloc, parts);
    let mut row = ByteRecord::new(alloc);
    while rows.next(&mut row)? {
        narrow(types.as_mut_slice(), &row);
    }
    Ok(types)
}

/// INT for each of so many columns.
fn all_int(alloc: Global, count: usize) -> Result<Vec<ColumnType>, AllocError>
    ensures length { IfOk result (λ types. length types.items ≡ count) }
    ensures each { IfOk result (λ types. (place : ℕ) → place < count → slice_index_or types.items place Text ≡ ColumnType.Int) }
{
    let mut types = Vec::new(alloc);
    for _ in 0..count {
        types.push(ColumnType::Int)?;
    }
    Ok(types)
}

/// The types of columns that have one record more.
fn narrow(types: &mut [ColumnType], row: &ByteRecord)
    ensures { (place : ℕ) → place < length types.old → slice_index_or types.new place Text ≡ narrowed (slice_index_or types.old place Text)
        (field_in place (fields_of row.now)) }
{
    for (place, kind) in types.iter_mut().enumerate() {
        *kind = narrowed(*kind, field_in(row, place));
    }
}

/// The type of a column that has one field more.
fn narrowed(kind: ColumnType, field: &[u8]) -> ColumnType
    ensures { result ≡ narrowed kind field.now }
{
    match kind {
        ColumnType::Int if fits_int(field) => ColumnType::Int,
        _ => ColumnType::Text,
    }
}

/// Whether a field is NULL or an integer as it is printed.
pub(crate) fn fits_int(field: &[u8]) -> bool
    ensures { result ≡ fits_int field.now }
{
    field.is_empty() || is_printed(field)
}

/// Whether a field is an integer of 64 bits as it is printed.
#[tactic(auto, using(crate::proofs::PrintedLemmas::padded_is_other, crate::proofs::PrintedLemmas::printed_is))]
fn is_printed(field: &[u8]) -> bool
    ensures { result ≡ is_printed field.now }
{
    if is_padded(field) {
        return false;
    }
    integer_in(field).is_some()
}

/// Whether a field begins with a zero and goes on, or with a minus and a zero.
fn is_padded(field: &[u8]) -> bool
    ensures { result ≡ is_padded field.now }
{
    match field {
        [b'0', _, ..] => true,
        [b'-', b'0', ..] => true,
        _ => false,
    }
}
