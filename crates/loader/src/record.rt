//! The row of a record, and that of a `put` line.
ghost use Rattle.std.specs.Prelude.{◌≡◌, IfOk, option_map};
ghost use Rattle.cells.specs.Fitting.{IsRowOf};
ghost use Rattle.cells.specs.Records.{row_of};
ghost use Rattle.cells.specs.Refusals.{Answers};
ghost use Rattle.csv.specs.Records.{fields_of};
ghost use Rattle.loader.specs.Records.{records_of, row_of_text, sole};

use crate::plain::{is_plain, read_plain};
use cells::{Refused, Row, RowReader, Schema};
use csv::ByteRecord;
use records::Records;
use std::alloc::{AllocError, Global};

/// Reads the row that the text's one record spells in the schema.
///
/// [`Refused::BadRecord`] exactly where the text has not exactly one record, or its fields spell no
/// row. [`Refused::OutOfMemory`] where a growth was refused.
pub fn read_record(alloc: Global, text: &[u8], schema: &Schema) -> Result<Row, Refused>
    ensures exact { Answers Refused.BadRecord (row_of_text schema.now text.now) result }
    ensures fits { IfOk result (IsRowOf schema.now) }
{
    if is_plain(text) {
        return read_plain(alloc, text, schema);
    }
    let Some(record) = sole_record(alloc, text)? else {
        return Err(Refused::BadRecord);
    };
    read_row(alloc, &record, schema)
}

/// Reads the row that the record's fields spell in the schema, with no list of them in between.
///
/// [`Refused::BadRecord`] exactly where they spell no row, [`Refused::OutOfMemory`] where a growth was refused.
pub(crate) fn read_row(alloc: Global, record: &ByteRecord, schema: &Schema) -> Result<Row, Refused>
    ensures exact { Answers Refused.BadRecord (row_of schema.now (fields_of record.now)) result }
    ensures fits { IfOk result (IsRowOf schema.now) }
{
    let mut row = RowReader::new(alloc, schema)?;
    for field in record {
        row.read(field)?;
    }
    row.finish()
}

/// The record of a text, where it has exactly one.
fn sole_record(alloc: Global, text: &[u8]) -> Result<Option<ByteRecord>, AllocError>
    ensures { IfOk result (λ o. option_map fields_of o ≡ sole (records_of text.now)) }
{
    let mut records = Records::new(alloc, text, b',');
    let mut row = ByteRecord::new(alloc);
    if !records.next(&mut row)? {
        return Ok(None);
    }
    let mut other = ByteRecord::new(alloc);
    if records.next(&mut other)? {
        return Ok(None);
    }
    Ok(Some(row))
}
