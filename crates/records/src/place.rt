//! Where a record begins in its text.

use csv::ByteRecord;

/// The line of the text on which a record of it begins, counted from 1 by line feeds. A reader notes where it began to look for the
/// record, so the ends of empty lines may stand there. What is said of lines is tested and not proved.
pub fn line_of(text: &[u8], record: &ByteRecord) -> u64 {
    let Some(position) = record.position() else {
        return 1;
    };
    let Some(rest) = text.get(position.byte() as usize..) else {
        return position.line();
    };
    let mut line = position.line();
    for byte in rest {
        match *byte {
            b'\n' => line = line.saturating_add(1),
            b'\r' => {}
            _ => return line,
        }
    }
    line
}
