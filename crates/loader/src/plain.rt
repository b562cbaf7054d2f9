//! Records as most lines have them, with no quote and no line end: their fields are what stands between the commas.
ghost use Rattle.std.specs.Prelude.{◌≡◌, ◌∷◌, ◌==◌, ◌<◌, ◌&&◌, [], IfOk, IfSome, IsTrue, length, not};
ghost use Rattle.std.specs.List.{list_any, position};
ghost use Rattle.std.specs.Option.{option_map_or};
ghost use Rattle.cells.specs.Fitting.{IsRowOf};
ghost use Rattle.cells.specs.Records.{row_of};
ghost use Rattle.cells.specs.Refusals.{Answers};
ghost use Rattle.loader.specs.Records.{begins_plainly, between_commas, is_special, records_of};

use cells::{Refused, Row, RowReader, Schema};
use std::alloc::Global;

/// The first byte of a byte order mark.
pub(crate) const MARK: u8 = 0xEF;

/// Whether the text is one record as it stands. It has bytes, no quote and no line end among them, and begins as no byte
/// order mark does.
#[tactic(auto, using(crate::proofs::PlainLemmas::plain_record))]
pub(crate) fn is_plain(text: &[u8]) -> bool
    ensures record { IsTrue result → records_of text.now ≡ between_commas text.now ∷ [] }
    ensures exact { result ≡ (begins_plainly text.now && not (list_any is_special text.now)) }
{
    match text.first() {
        Some(first) if *first != MARK => !has_special(text),
        _ => false,
    }
}

/// Whether a quote or the end of a line is among these bytes.
fn has_special(text: &[u8]) -> bool
    ensures { result ≡ list_any is_special text.now }
{
    text.iter().any(|byte| is_special(*byte))
}

/// Whether a byte is a quote or ends a line.
fn is_special(byte: u8) -> bool
    ensures { result ≡ is_special byte }
{
    byte == b'"' || byte == b'\r' || byte == b'\n'
}

/// Reads the row that the fields between the text's commas spell in the schema, with no reader of CSV and no list
/// of them.
///
/// [`Refused::BadRecord`] exactly where they spell no row, [`Refused::OutOfMemory`] where a growth was refused.
pub(crate) fn read_plain(alloc: Global, text: &[u8], schema: &Schema) -> Result<Row, Refused>
    ensures exact { Answers Refused.BadRecord (row_of schema.now (between_commas text.now)) result }
    ensures fits { IfOk result (IsRowOf schema.now) }
{
    let mut row = RowReader::new(alloc, schema)?;
    let mut left = Some(text);
    while let Some(text) = left {
        let (field, rest) = first_field(text);
        row.read(field)?;
        left = rest;
    }
    row.finish()
}

/// What stands before the first comma, and what stands behind it, where there is one.
#[tactic(auto, using(crate::proofs::PlainLemmas::first_comma, crate::proofs::PlainLemmas::no_comma))]
fn first_field(text: &[u8]) -> (&[u8], Option<&[u8]>)
    ensures fields { between_commas text.now ≡ result.0.now ∷ option_map_or (λ rest. between_commas rest.now) result.1 [] }
    ensures shorter { IfSome result.1 (λ rest. length rest.now < length text.now) }
{
    match comma_at(text) {
        Some(at) => (&text[..at], Some(&text[at + 1..])),
        None => (text, None),
    }
}

/// The place of the first comma.
fn comma_at(text: &[u8]) -> Option<usize>
    ensures place { result ≡ position (λ b. b == 44) text.now }
    ensures within { IfSome result (λ at. at < length text.now) }
{
    text.iter().position(|byte| *byte == b',')
}
