//! Why the rest of a `put` line is no record of a row.

use crate::line_fault::{Found, LineFault};
use crate::record_fault::explained;
use cells::Schema;
use csv::ByteRecord;
use records::{Records, fields};
use std::alloc::{AllocError, Global};

/// Why a text has not exactly one record, or its fields spell no row.
pub fn put_fault(alloc: Global, text: &[u8], schema: &Schema) -> Result<Found, AllocError> {
    let mut record = ByteRecord::new(alloc);
    if let Some(why) = count_fault(alloc, text, &mut record)? {
        return Ok(Found::whole(LineFault::Plain(why)));
    }
    let fields = fields(alloc, &record)?;
    let fault = explained(alloc, fields.as_slice(), schema)?;
    Ok(Found::whole(LineFault::Record(fault)))
}

/// Reads the first record of a text, and says why the text has not exactly one.
fn count_fault(
    alloc: Global,
    text: &[u8],
    record: &mut ByteRecord,
) -> Result<Option<&'static str>, AllocError> {
    let mut records = Records::new(alloc, text, b',');
    let first = records.next(record);
    let more = has_more(alloc, &mut records);
    drop(records);
    if !first? {
        return Ok(Some("no record stands here"));
    }
    if more? {
        return Ok(Some("more than one record stands here"));
    }
    Ok(None)
}

/// Whether a record is left.
fn has_more(alloc: Global, records: &mut Records<'_>) -> Result<bool, AllocError> {
    let mut record = ByteRecord::new(alloc);
    records.next(&mut record)
}
