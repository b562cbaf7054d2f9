//! The records of several parts, one after another.
ghost use Rattle.std.specs.Prelude.{◌≡◌, ◌∷◌, [], IfOk, drop, map};
ghost use Rattle.std.specs.Bool.{MatchBool};
ghost use Rattle.csv.specs.Records.{fields_of};
ghost use Rattle.csv.specs.Writing.{comma};
ghost use Rattle.records.specs.Records.{records_of};
ghost use Rattle.prepare.specs.Proposals.{field_in, rows_of};

use csv::ByteRecord;
use records::Records;
use std::alloc::{AllocError, Global};
use std::marker::Model;

/// A reader of the records of several parts without their headers, seen as the list of those that are left.
#[derive(Drop)]
pub(crate) struct Rows<'a> {
    alloc: Global,
    /// What is left of the part that is read.
    records: Records<'a>,
    /// The parts after it.
    parts: &'a [Vec<u8>],
}

impl<'a> Model for Rows<'a> {
    ghost use Rattle.std.specs.Prelude.{◌++◌, List, ℕ, map};
    ghost use Rattle.prepare.specs.Proposals.{rows_of};

    ghost Value = { List (List (List ℕ)) };

    ghost view = { λ r. r.records ++ rows_of (map (λ p. p.items) r.parts.now) };
}

impl<'a> Rows<'a> {
    /// The records of these parts.
    pub(crate) fn new(alloc: Global, parts: &'a [Vec<u8>]) -> Rows<'a>
        ensures { result ≡ rows_of (map (λ p. p.items) parts.entry.now) }
    {
        Rows {
            alloc,
            records: Records::new(alloc, &[], b','),
            parts,
        }
    }

    /// Reads the next record into `row`, or answers that none is left. The only error is that a growth was refused.
    pub(crate) fn next(&mut self, row: &mut ByteRecord) -> Result<bool, AllocError>
        ensures { IfOk result (λ found. MatchBool found
            (self.old ≡ fields_of row.new ∷ self.new)
            (self.old ≡ [])) }
    {
        if self.records.next(row)? {
            return Ok(true);
        }
        self.next_part(row)
    }

    /// Reads on in the parts that are left. It stands apart, since a function clears the room of all that it may hold when it is
    /// entered, and a reader is large.
    #[cold]
    #[inline(never)]
    fn next_part(&mut self, row: &mut ByteRecord) -> Result<bool, AllocError>
        ensures { IfOk result (λ found. MatchBool found
            (self.old ≡ fields_of row.new ∷ self.new)
            (self.old ≡ [])) }
    {
        while !self.records.next(row)? {
            let Some((part, later)) = self.parts.split_first() else {
                return Ok(false);
            };
            self.parts = later;
            self.records = after_header(self.alloc, part.as_slice(), row)?;
        }
        Ok(true)
    }
}

/// The records of a part without its header, which is read into `row`.
#[tactic(auto, using(crate::proofs::RowsLemmas::took_header))]
fn after_header<'a>(
    alloc: Global,
    part: &'a [u8],
    row: &mut ByteRecord,
) -> Result<Records<'a>, AllocError>
    ensures { IfOk result (λ records. records ≡ drop 1 (records_of comma part.entry.now)) }
{
    let mut records = Records::new(alloc, part, b',');
    records.next(row)?;
    Ok(records)
}

/// The field at a place; one that is not there is as an empty one.
pub(crate) fn field_in(row: &ByteRecord, place: usize) -> &[u8]
    ensures { result.now ≡ field_in place (fields_of row.now) }
{
    match row.get(place) {
        Some(field) => field,
        None => &[],
    }
}
