//! A part made of a file.
ghost use Rattle.std.specs.Prelude.{◌≡◌, ◌++◌, ◌+◌, ◌<◌, ◌^◌, IfErr, IfOk, length, map};
ghost use Rattle.csv.specs.Records.{fields_of};
ghost use Rattle.csv.specs.Writing.{default_writer, row_text};
ghost use Rattle.records.specs.Records.{records_of};
ghost use Rattle.prepare.specs.Parts.{IsFault, IsFaultOfFile, IsPart, IsPartOfFile, IsTextAfter, headed, part_of, records_from, words_of};

use crate::choice::Choice;
use crate::fault::PrepareFault;
use crate::header::{places_of, words_of};
use crate::lines::Lines;
use crate::quotes::misquoted;
use crate::record::{Layout, trim};
use csv::ByteRecord;
use records::{Records, fields};
use std::alloc::{AllocError, Global};

/// A part that was made of a file.
#[derive(Debug, Drop)]
pub struct MadePart {
    /// The part.
    pub text: Vec<u8>,
    /// How many records stand after its header.
    pub records: u64,
}

/// The part that is made of a file: the CSV text of the chosen fields of its records, each of which has as many fields as the
/// header. Records end by 0A, and fields stand in quotes where they need them.
///
/// The error is the first fault of the file's quotes, where they are not read as they stand, then the first of its records, as
/// [`PrepareFault`] says, or that a growth was refused.
pub fn prepared(alloc: Global, bytes: &[u8], choice: &Choice) -> Result<MadePart, PrepareFault>
    ensures part { IfOk result (IsPartOfFile choice.now bytes.now) }
    ensures fault { IfErr result (IsFaultOfFile choice.now bytes.now) }
{
    if choice.lenient {
        return of_records(alloc, bytes, choice);
    }
    match misquoted(bytes, choice.delimiter) {
        Some((fault, line)) => Err(PrepareFault::Quotes { fault, line }),
        None => of_records(alloc, bytes, choice),
    }
}

/// The part that is made of the file's records.
fn of_records(alloc: Global, bytes: &[u8], choice: &Choice) -> Result<MadePart, PrepareFault>
    ensures part { IfOk result (IsPart (part_of choice.now (records_of choice.now.delimiter bytes.now))) }
    ensures fault { IfErr result (IsFault (part_of choice.now (records_of choice.now.delimiter bytes.now))) }
{
    let mut records = Records::new(alloc, bytes, choice.delimiter);
    let mut header = ByteRecord::new(alloc);
    if !records.next(&mut header)? {
        return Err(PrepareFault::NoHeader);
    }
    trim(choice, &mut header)?;
    let names = fields(alloc, &header)?;
    let places = places_of(alloc, &choice.columns, names.as_slice())?;
    let lines = first_line(alloc, choice, names.as_slice())?;
    let layout = Layout {
        choice,
        places,
        width: names.len(),
    };
    with_records(alloc, records, &layout, lines)
}

/// The header of the part.
fn first_line(alloc: Global, choice: &Choice, header: &[&[u8]]) -> Result<Lines, AllocError>
    ensures { IfOk result (λ lines. lines ≡ row_text default_writer (headed choice.now.number (words_of choice.now.columns (map (λ f. f.now) header.now)))) }
{
    let words = words_of(alloc, choice, header)?;
    let fields = lent(alloc, words.as_slice())?;
    let mut lines = Lines::new(alloc);
    lines.push(fields.as_slice())?;
    Ok(lines)
}

/// The bytes that the lists lend.
pub(crate) fn lent(alloc: Global, words: &[Vec<u8>]) -> Result<Vec<&[u8]>, AllocError>
    ensures { IfOk result (λ fields. map (λ f. f.now) fields.items ≡ map (λ w. w.items) words.entry.now) }
{
    let mut fields = Vec::new(alloc);
    for word in words {
        fields.push(word.as_slice())?;
    }
    Ok(fields)
}

/// The lines, and then those of the records that are left, which are numbered from 1 on.
fn with_records(
    alloc: Global,
    mut records: Records<'_>,
    layout: &Layout<'_>,
    mut lines: Lines,
) -> Result<MadePart, PrepareFault>
    requires { length records + 1 < 2 ^ 64 }
    ensures text { IfOk result (IsTextAfter lines (records_from layout.now.choice.now layout.now.places.items layout.now.width 1 records.entry)) }
    ensures fault { IfErr result (IsFault (records_from layout.now.choice.now layout.now.places.items layout.now.width 1 records.entry)) }
{
    let mut row = ByteRecord::new(alloc);
    let mut number = 1;
    while records.next(&mut row)? {
        if row.len() != layout.width {
            return Err(PrepareFault::Uneven {
                record: number,
                fields: row.len(),
                header: layout.width,
            });
        }
        layout.write(alloc, &mut lines, number, &mut row)?;
        number += 1;
    }
    Ok(MadePart {
        text: lines.into_text()?,
        records: number - 1,
    })
}
