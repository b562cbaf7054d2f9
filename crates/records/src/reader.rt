//! The records of a text.
ghost use Rattle.std.specs.Prelude.{◌≡◌, ◌∷◌, [], IfOk, OnErr, map};
ghost use Rattle.std.specs.Bool.{MatchBool};
ghost use Rattle.csv.specs.Records.{fields_of};
ghost use Rattle.records.specs.Records.{records_of};

use csv::{ByteRecord, Reader, ReaderBuilder};
use std::alloc::{AllocError, Global};
use std::marker::Model;

/// A reader of records, seen as the list of those that are left. Each is a list of fields, and each
/// field a list of bytes.
///
/// A field may stand between double quotes, where a double quote is written twice. No record is a header or a
/// comment, records may differ in length, and nothing is trimmed. A byte order mark at the start is passed over.
#[derive(Drop)]
pub struct Records<'a> {
    reader: Reader<&'a [u8]>,
    delimiter: u8,
    done: bool,
}

impl<'a> Model for Records<'a> {
    ghost use Rattle.std.specs.Prelude.{◌≡◌, List, ℕ, [], false, if◌then◌else◌};
    ghost use Rattle.records.specs.Records.{IsReading, records_left};

    ghost Value = { List (List (List ℕ)) };

    ghost view = { λ r. if r.done then [] else records_left r.delimiter r.reader };

    ghost invariant = { λ r. r.done ≡ false → IsReading r.delimiter r.reader };
}

impl<'a> Records<'a> {
    /// The records of these bytes, whose fields stand apart by the delimiter.
    pub fn new(alloc: Global, bytes: &'a [u8], delimiter: u8) -> Records<'a>
        ensures { result ≡ records_of delimiter bytes.entry.now }
    {
        let reader = ReaderBuilder::new()
            .has_headers(false)
            .flexible(true)
            .delimiter(delimiter)
            .from_reader(alloc, bytes);
        Records {
            reader,
            delimiter,
            done: false,
        }
    }

    /// Reads the next record into `row`, or answers that none is left.
    ///
    /// The only error is that a growth was refused. Then no record is left.
    pub fn next(&mut self, row: &mut ByteRecord) -> Result<bool, AllocError>
        ensures found { IfOk result (λ found. MatchBool found
            (self.old ≡ fields_of row.new ∷ self.new)
            ((self.old ≡ []) × (self.new ≡ []))) }
        ensures ended { OnErr result (self.new ≡ []) }
    {
        if self.done {
            return Ok(false);
        }
        // A reader over bytes in memory that takes records of any length fails for want of memory
        // alone.
        let Ok(found) = self.reader.read_byte_record(row) else {
            self.done = true;
            return Err(AllocError);
        };
        self.done = !found;
        Ok(found)
    }
}

/// The fields of a record, in their order. The only error is that a growth was refused.
pub fn fields<'a>(alloc: Global, row: &'a ByteRecord) -> Result<Vec<&'a [u8]>, AllocError>
    ensures { IfOk result (λ v. map (λ f. f.now) v.items ≡ fields_of row.entry.now) }
{
    let mut fields = Vec::new(alloc);
    for field in row {
        fields.push(field)?;
    }
    Ok(fields)
}
