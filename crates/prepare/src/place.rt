//! Where a record begins in a file.

use csv::ByteRecord;
use records::Records;
use std::alloc::{AllocError, Global};

/// The line of a file on which the record of this number begins, counted from 1 by line feeds, where 0 is the header; 1 where there is no such
/// record. What is said of lines is tested and not proved. The only error is that a growth was refused.
pub fn line_of(alloc: Global, file: &[u8], delimiter: u8, number: u64) -> Result<u64, AllocError> {
    let mut records = Records::new(alloc, file, delimiter);
    let mut row = ByteRecord::new(alloc);
    for _ in 0..number {
        if !records.next(&mut row)? {
            return Ok(1);
        }
    }
    if !records.next(&mut row)? {
        return Ok(1);
    }
    Ok(records::line_of(file, &row))
}
