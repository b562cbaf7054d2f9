//! The field that makes a column one of texts.
ghost use Rattle.std.specs.Prelude.{◌≡◌, IfOk, IfSome, false};
ghost use Rattle.prepare.specs.Proposals.{fits_int};

use crate::kinds::fits_int;
use crate::rows::field_in;
use csv::ByteRecord;
use records::Records;
use std::alloc::{AllocError, Global};

/// A field of a part that is no integer as it is printed.
#[derive(Debug, Drop)]
pub struct TextField {
    /// The number of its record, counted from 1.
    pub record: u64,
    pub field: Vec<u8>,
}

/// The first field at a place of a part, which has a header, that is neither NULL nor an integer of 64 bits as it is printed. That it
/// is the first is tested and not proved. The only error is that a growth was refused.
pub fn first_text(alloc: Global, part: &[u8], place: usize) -> Result<Option<TextField>, AllocError>
    ensures { IfOk result (λ found. IfSome found (λ text. fits_int text.field.items ≡ false)) }
{
    let mut records = Records::new(alloc, part, b',');
    let mut row = ByteRecord::new(alloc);
    records.next(&mut row)?;
    let mut record = 0u64;
    while records.next(&mut row)? {
        record = record.saturating_add(1);
        let field = field_in(&row, place);
        if !fits_int(field) {
            let field = field.to_vec(alloc)?;
            return Ok(Some(TextField { record, field }));
        }
    }
    Ok(None)
}
