//! What is wrong with the numbers of a `load` line.

use crate::field_fault::are_digits;
use crate::line_fault::{Found, LineFault};
use crate::shown::shown;
use cells::whole_number_of;
use std::alloc::{AllocError, Global};

/// The first of the numbers that is none.
pub fn form_fault(alloc: Global, rest: &str) -> Result<Found, AllocError> {
    let mut place = 0usize;
    for number in rest.split(' ') {
        if !are_digits(number) {
            return wrong_number(alloc, place, number);
        }
        place = place.saturating_add(number.len()).saturating_add(1);
    }
    Ok(Found::whole(LineFault::Plain("these are no part numbers")))
}

/// That this stands where a part number should.
fn wrong_number(alloc: Global, place: usize, number: &str) -> Result<Found, AllocError> {
    if number.is_empty() {
        let why = "part numbers stand here, with one space between neighbours";
        return Ok(Found::at(place, LineFault::Plain(why)));
    }
    let found = shown(alloc, number)?;
    let why = "no part number";
    Ok(Found::at(place, LineFault::Piece { found, why }))
}

/// The first of the numbers that is that of no part.
pub fn missing_part(alloc: Global, rest: &str, parts: &[Vec<u8>]) -> Result<Found, AllocError> {
    let mut place = 0usize;
    for number in rest.split(' ') {
        if part_numbered(parts, number).is_none() {
            let found = shown(alloc, number)?;
            let what = parts.len().to_string(alloc)?;
            let why = "no part of this number, of those handed in:";
            return Ok(Found::at(place, LineFault::About { found, why, what }));
        }
        place = place.saturating_add(number.len()).saturating_add(1);
    }
    Ok(Found::whole(LineFault::Plain("a number is that of no part")))
}

/// The bytes of the listed parts, counted at each listing.
pub fn listed_bytes(rest: &str, parts: &[Vec<u8>]) -> u64 {
    let mut bytes = 0u64;
    for number in rest.split(' ') {
        if let Some(part) = part_numbered(parts, number) {
            bytes = bytes.saturating_add(part.len() as u64);
        }
    }
    bytes
}

/// The part of the number that a text spells.
fn part_numbered<'a>(parts: &'a [Vec<u8>], number: &str) -> Option<&'a [u8]> {
    let place = whole_number_of(number)?.checked_sub(1)?;
    let part = parts.get(place as usize)?;
    Some(part.as_slice())
}
