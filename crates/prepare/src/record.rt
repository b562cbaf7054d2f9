//! The records of a part.
ghost use Rattle.std.specs.Prelude.{◌≡◌, ◌+◌, ◌++◌, IfOk, OnOk, Some, map, option_map, string_bytes, unwrap_or};
ghost use Rattle.std.specs.Fmt.{decimal};
ghost use Rattle.csv.specs.Records.{field_at, fields_of};
ghost use Rattle.csv.specs.Writing.{default_writer, row_text};
ghost use Rattle.prepare.specs.Parts.{as_read, field_of, first_field, record_of, unless_null};

use crate::choice::Choice;
use crate::lines::Lines;
use cells::Text;
use csv::ByteRecord;
use std::alloc::{AllocError, Global};

/// What a part has of each record: the fields at these places, as they are chosen.
#[derive(Drop)]
pub(crate) struct Layout<'c> {
    pub choice: &'c Choice,
    pub places: Vec<usize>,
    /// How many fields a record has.
    pub width: usize,
}

impl<'c> Layout<'c> {
    /// Writes what the part has of the record of this number.
    pub(crate) fn write(
        &self,
        alloc: Global,
        lines: &mut Lines,
        number: u64,
        row: &mut ByteRecord,
    ) -> Result<(), AllocError>
        ensures { OnOk result (lines.new ≡ lines.old ++ row_text default_writer
            (record_of self.now.choice.now self.now.places.items number (fields_of row.old))) }
    {
        trim(self.choice, row)?;
        let digits = digits(alloc, self.choice, number)?;
        let first = first_field(alloc, self.choice, digits.as_str())?;
        let fields = with_fields(first, self.choice, self.places.as_slice(), &*row)?;
        lines.push(fields.as_slice())
    }
}

/// Leaves out white space at the ends of the fields, where that is chosen.
pub(crate) fn trim(choice: &Choice, row: &mut ByteRecord) -> Result<(), AllocError>
    ensures { OnOk result (fields_of row.new ≡ as_read choice.now (fields_of row.old)) }
{
    if choice.trims {
        return row.trim();
    }
    Ok(())
}

/// The digits of a record's number, where records are counted.
fn digits(alloc: Global, choice: &Choice, number: u64) -> Result<String, AllocError>
    ensures { IfOk result (λ digits. first_field choice.now.number (string_bytes digits) ≡ first_field choice.now.number
        (decimal (choice.now.counted + number))) }
{
    if choice.number.is_none() {
        return Ok(String::new(alloc));
    }
    let count = u128::from(choice.counted) + u128::from(number);
    format!(in alloc; "{count}")
}

/// These digits as a field, where records are counted.
fn first_field<'f>(
    alloc: Global,
    choice: &Choice,
    digits: &'f str,
) -> Result<Vec<&'f [u8]>, AllocError>
    ensures { IfOk result (λ fields. map (λ f. f.now) fields.items ≡ first_field choice.now.number digits.entry.now) }
{
    let mut fields = Vec::new(alloc);
    if choice.number.is_some() {
        fields.push(digits.as_bytes())?;
    }
    Ok(fields)
}

/// The fields, and then those of the record at these places.
fn with_fields<'f>(
    mut fields: Vec<&'f [u8]>,
    choice: &Choice,
    places: &[usize],
    row: &'f ByteRecord,
) -> Result<Vec<&'f [u8]>, AllocError>
    ensures { IfOk result (λ all. map (λ f. f.now) all.items ≡ map (λ f. f.now) fields.entry.items ++ map
        (field_of choice.now (fields_of row.entry.now)) places.now) }
{
    for place in places {
        fields.push(field_of(choice, row, *place))?;
    }
    Ok(fields)
}

/// The field at a place, or no byte where it is the word for NULL.
fn field_of<'f>(choice: &Choice, row: &'f ByteRecord, place: usize) -> &'f [u8]
    ensures { result.now ≡ field_of choice.now (fields_of row.entry.now) place }
{
    match row.get(place) {
        Some(field) => unless_null(&choice.null, field),
        None => &[],
    }
}

/// The field, or no byte where it is this word.
fn unless_null<'f>(word: &Option<Text>, field: &'f [u8]) -> &'f [u8]
    ensures { result.now ≡ unless_null word.now field.entry.now }
{
    match word {
        Some(word) if word.as_bytes() == field => &[],
        _ => field,
    }
}
