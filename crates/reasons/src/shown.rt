//! How a piece of a script or of a part stands in a reason.

use std::alloc::{AllocError, Global};

/// The most characters of a piece that a reason shows.
const SHOWN: usize = 40;

/// The text as a reason shows it: at most 40 characters, two dots for what follows them, and a `?` for each character
/// that would control a terminal. The only error is that a growth was refused.
pub fn shown(alloc: Global, text: &str) -> Result<String, AllocError> {
    let mut found = String::new(alloc);
    let mut left = SHOWN;
    for letter in text.chars() {
        if left == 0 {
            found.push_str("..")?;
            return Ok(found);
        }
        left -= 1;
        found.push(visible(letter))?;
    }
    Ok(found)
}

/// The same of bytes. Where they are no UTF-8, it is said what stands before the first byte that is none.
pub fn shown_bytes(alloc: Global, bytes: &[u8]) -> Result<String, AllocError> {
    match str::from_utf8(bytes) {
        Ok(text) => shown(alloc, text),
        Err(_) => String::from_str(alloc, "bytes that are no UTF-8"),
    }
}

/// The character, or a `?` in place of one that would control a terminal.
fn visible(letter: char) -> char {
    match letter {
        '\0'..='\u{1f}' | '\u{7f}'..='\u{9f}' => '?',
        _ => letter,
    }
}
