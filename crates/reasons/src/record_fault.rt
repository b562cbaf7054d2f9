//! Why the fields of a record spell no row.
ghost use Rattle.std.specs.Prelude.{◌<◌, IfOk, IfSome, MatchOption, length};
ghost use Rattle.cells.specs.Records.{row_of};
ghost use Rattle.csv.specs.Records.{fields_of};
ghost use Rattle.reasons.specs.Fields.{BeginRow, Explains, IsAt, IsFirstBad, bytes_of};
ghost use Rattle.reasons.specs.Records.{IsFaultOf};

use crate::field_fault::{FieldFault, field_fault};
use crate::shown::shown;
use cells::{Column, Refused, Row, RowReader, Schema};
use csv::ByteRecord;
use records::fields;
use std::alloc::{AllocError, Global};
use std::fmt;

/// Why the fields of a record spell no row.
#[derive(Drop)]
pub enum RecordFault {
    /// There are so many fields, and another number of columns.
    Fields {
        found: usize,
        wanted: usize,
    },
    /// The field at this place spells no cell of its column, and those before it do; or each spells one and the key is NULL.
    Field {
        place: usize,
        column: String,
        fault: FieldFault,
    },
}

impl fmt::Display for RecordFault {
    fn fmt<W: fmt::Write>(&self, f: &mut fmt::Formatter<W>) -> fmt::Result {
        match self {
            RecordFault::Fields { found, wanted } => {
                write!(f, "fields found: {found}, wanted: {wanted}")
            }
            RecordFault::Field { column, fault, .. } => write!(f, "column {column}: {fault}"),
        }
    }
}

/// Why the fields spell no row of the schema. None exactly where they spell one.
///
/// The only error is that a growth was refused.
pub fn record_fault(
    alloc: Global,
    record: &ByteRecord,
    schema: &Schema,
) -> Result<Option<RecordFault>, AllocError>
    ensures { IfOk result (IsFaultOf (row_of schema.now (fields_of record.now))) }
{
    let fields = fields(alloc, record)?;
    match Row::read(alloc, fields.as_slice(), schema) {
        Ok(_) => Ok(None),
        Err(Refused::BadRecord) => {
            let fault = explained(alloc, fields.as_slice(), schema)?;
            Ok(Some(fault))
        }
        Err(_) => Err(AllocError),
    }
}

/// Why fields spell no row, where they spell none. The number of fields is looked at first, since one that is missing
/// shifts those behind it. What is said of a field is tested and not proved.
pub fn explained(
    alloc: Global,
    fields: &[&[u8]],
    schema: &Schema,
) -> Result<RecordFault, AllocError>
    ensures { IfOk result (Explains schema.now fields.now) }
{
    let columns = schema.columns();
    if fields.len() != columns.len() {
        return Ok(RecordFault::Fields {
            found: fields.len(),
            wanted: columns.len(),
        });
    }
    match first_bad(alloc, fields, schema)? {
        Some(place) => at_field(alloc, place, &columns[place], fields[place]),
        None => at_key(alloc, schema),
    }
}

/// The place of the first field that spells no cell of its column. None where a row begins with the fields.
fn first_bad(alloc: Global, fields: &[&[u8]], schema: &Schema) -> Result<Option<usize>, AllocError>
    ensures bad { IfOk result (λ o. MatchOption o (BeginRow schema.now (bytes_of fields.now)) (IsFirstBad schema.now fields.now)) }
    ensures within { IfOk result (λ o. IfSome o (λ place. place < length fields.now)) }
{
    let mut row = RowReader::new(alloc, schema)?;
    for (place, field) in fields.iter().enumerate() {
        match row.read(field) {
            Ok(()) => {}
            Err(Refused::BadRecord) => return Ok(Some(place)),
            Err(_) => return Err(AllocError),
        }
    }
    Ok(None)
}

/// That the field at a place spells no cell of its column.
fn at_field(
    alloc: Global,
    place: usize,
    column: &Column,
    field: &[u8],
) -> Result<RecordFault, AllocError>
    ensures { IfOk result (IsAt place) }
{
    let name = shown(alloc, column.name.as_str())?;
    Ok(RecordFault::Field {
        place,
        column: name,
        fault: field_fault(alloc, column.kind, field)?,
    })
}

/// That the key is NULL.
fn at_key(alloc: Global, schema: &Schema) -> Result<RecordFault, AllocError>
    ensures { IfOk result (IsAt schema.now.key) }
{
    let place = schema.key();
    let column = shown(alloc, schema.columns()[place].name.as_str())?;
    let fault = FieldFault::EmptyKey;
    Ok(RecordFault::Field {
        place,
        column,
        fault,
    })
}
