//! The faulty records of a part, one after another.
ghost use Rattle.std.specs.Prelude.{◌≡◌, ◌+◌, ◌<◌, ◌≤◌, ◌^◌, ◌∷◌, [], IfOk, IfSome, MatchOption, length};
ghost use Rattle.reasons.specs.Records.{faulty_from, faulty_in, faulty_records};

use crate::header::{HeaderFault, other_names};
use crate::record_fault::{RecordFault, record_fault};
use cells::Schema;
use csv::ByteRecord;
use loader::is_header;
use records::{Records, fields, line_of};
use std::alloc::{AllocError, Global};
use std::fmt;
use std::marker::Model;

/// Why a record of a part is faulty. Its text names the record and what is wrong with it.
#[derive(Drop)]
pub struct PartReason {
    /// The line of the part's file on which the record begins, counted from 1 by line feeds.
    pub line: u64,
    /// The record's number: 0 is the header.
    pub record: u64,
    fault: RecordOrHeader,
}

/// What is wrong with it.
#[derive(Drop)]
enum RecordOrHeader {
    Header(HeaderFault),
    Record(RecordFault),
    /// No fault is known: there is no such record, or no table.
    Unknown,
}

impl PartReason {
    /// What is told of a record in which no fault is found, as where no table is declared.
    pub(crate) fn unknown(number: u64) -> PartReason
        ensures { result.record ≡ number }
    {
        PartReason {
            line: 1,
            record: number,
            fault: RecordOrHeader::Unknown,
        }
    }
}

impl fmt::Display for PartReason {
    fn fmt<W: fmt::Write>(&self, f: &mut fmt::Formatter<W>) -> fmt::Result {
        let record = self.record;
        match &self.fault {
            RecordOrHeader::Header(fault) => write!(f, "record {record}: {fault}"),
            RecordOrHeader::Record(fault) => write!(f, "record {record}, {fault}"),
            RecordOrHeader::Unknown => write!(f, "record {record} spells no row"),
        }
    }
}

/// The faulty records of a part that are left, seen as their numbers. Made by [`faults_of_part`].
#[derive(Drop)]
pub struct PartFaults<'a> {
    alloc: Global,
    bytes: &'a [u8],
    schema: &'a Schema,
    records: Records<'a>,
    number: u64,
    header: Option<PartReason>,
    ended: bool,
}

impl<'a> Model for PartFaults<'a> {
    ghost use Rattle.std.specs.Prelude.{◌+◌, ◌<◌, ◌^◌, ℕ, List, length, option_map};
    ghost use Rattle.reasons.specs.Records.{faults_left};

    ghost Value = { List ℕ };

    ghost view = { λ p. faults_left (option_map (λ r. r.record) p.header) p.ended p.schema.now p.number p.records };

    ghost invariant = { λ p. p.number + length p.records < 2 ^ 64 };
}

/// The faulty records of a part, under this schema. Where the header is faulty, it is the only one that is told: the
/// records after it are not looked at. The only error is that a growth was refused.
pub fn faults_of_part<'a>(
    alloc: Global,
    part: &'a [u8],
    schema: &'a Schema,
) -> Result<PartFaults<'a>, AllocError>
    ensures { IfOk result (λ faults. faults ≡ faulty_records schema.now part.now) }
{
    let mut records = Records::new(alloc, part, b',');
    let header = header_fault(alloc, part, &mut records, schema)?;
    let ended = header.is_some();
    Ok(PartFaults {
        alloc,
        bytes: part,
        schema,
        records,
        number: 1,
        header,
        ended,
    })
}

/// Takes the first record of a part of these bytes, and tells why it is no header.
fn header_fault(
    alloc: Global,
    bytes: &[u8],
    records: &mut Records<'_>,
    schema: &Schema,
) -> Result<Option<PartReason>, AllocError>
    ensures found { IfOk result (λ fault. MatchOption fault (faulty_in schema.now records.old ≡ faulty_from schema.now 1 records.new)
        (λ reason. (reason.record ≡ 0) × (faulty_in schema.now records.old ≡ 0 ∷ []))) }
    ensures fewer { IfOk result (λ _. length records.new ≤ length records.old) }
{
    let mut record = ByteRecord::new(alloc);
    if !records.next(&mut record)? {
        return Ok(Some(of_header(1, HeaderFault::Missing)));
    }
    let fields = fields(alloc, &record)?;
    if is_header(schema.columns(), fields.as_slice()) {
        return Ok(None);
    }
    let fault = other_names(alloc, schema.columns(), fields.as_slice())?;
    Ok(Some(of_header(line_of(bytes, &record), fault)))
}

impl<'a> PartFaults<'a> {
    /// The next faulty record: its number, where 0 is the header, and the reason. None where none is left. The only
    /// error is that a growth was refused; then what is left is not known.
    pub fn next(&mut self) -> Result<Option<(u64, PartReason)>, AllocError>
        ensures one { IfOk result (λ found. MatchOption found ((self.old ≡ []) × (self.new ≡ [])) (λ x. self.old ≡ x.0 ∷ self.new)) }
        ensures number { IfOk result (λ found. IfSome found (λ x. x.1.record ≡ x.0)) }
    {
        if let Some(reason) = self.header.take() {
            return Ok(Some((reason.record, reason)));
        }
        if self.ended {
            return Ok(None);
        }
        let Some(faulty) = next_faulty(self.alloc, &mut self.records, self.schema, self.number)?
        else {
            return Ok(None);
        };
        let number = faulty.number;
        self.number = number + 1;
        Ok(Some((number, faulty.reason(self.bytes))))
    }
}

/// The reason of a faulty header that begins on a line.
fn of_header(line: u64, fault: HeaderFault) -> PartReason
    ensures { result.record ≡ 0 }
{
    PartReason {
        line,
        record: 0,
        fault: RecordOrHeader::Header(fault),
    }
}

/// A faulty record, and its number.
#[derive(Drop)]
struct Faulty {
    number: u64,
    record: ByteRecord,
    fault: RecordFault,
}

impl Faulty {
    /// The reason, in a part of these bytes.
    fn reason(self, bytes: &[u8]) -> PartReason
        ensures { result.record ≡ self.number }
    {
        let Faulty {
            number,
            record,
            fault,
        } = self;
        PartReason {
            line: line_of(bytes, &record),
            record: number,
            fault: RecordOrHeader::Record(fault),
        }
    }
}

/// The first faulty one of the records that are left, of which the first has this number.
fn next_faulty(
    alloc: Global,
    records: &mut Records<'_>,
    schema: &Schema,
    number: u64,
) -> Result<Option<Faulty>, AllocError>
    requires { number + length records.old < 2 ^ 64 }
    ensures found { IfOk result (λ found. MatchOption found ((faulty_from schema.now number records.old ≡ []) × (records.new ≡ []))
        (λ f. faulty_from schema.now number records.old ≡ f.number ∷ faulty_from schema.now (f.number + 1) records.new)) }
    ensures fewer { IfOk result (λ found. IfSome found (λ f. f.number + 1 + length records.new ≤ number + length records.old)) }
    ensures shorter { length records.new ≤ length records.old }
{
    let mut record = ByteRecord::new(alloc);
    let mut number = number;
    while records.next(&mut record)? {
        if let Some(fault) = record_fault(alloc, &record, schema)? {
            return Ok(Some(Faulty {
                number,
                record,
                fault,
            }));
        }
        number += 1;
    }
    Ok(None)
}
