//! What is wrong with a line of a script.

use crate::record_fault::RecordFault;
use crate::shown::{shown, shown_bytes};
use crate::tokens::{Slip, first_slip, span_of};
use std::alloc::{AllocError, Global};
use std::fmt;

/// What is wrong with a line, or with a script as a whole.
#[derive(Drop)]
pub enum LineFault {
    /// What is wrong, where nothing is named.
    Plain(&'static str),
    /// A piece of the line, and what is wrong with it.
    Piece {
        found: String,
        why: &'static str,
    },
    /// The same, and what that is about: a clause, the table or a number.
    About {
        found: String,
        why: &'static str,
        what: String,
    },
    /// A piece of the line, and what should stand in its place.
    Other {
        found: String,
        wanted: String,
    },
    /// More of these than there may be.
    TooMany {
        found: u64,
        what: &'static str,
        most: u64,
    },
    /// The line on which a table was declared before.
    TableAgain(u64),
    /// The one record of the line spells no row.
    Record(RecordFault),
}

impl fmt::Display for LineFault {
    fn fmt<W: fmt::Write>(&self, f: &mut fmt::Formatter<W>) -> fmt::Result {
        match self {
            LineFault::Plain(why) => write!(f, "{why}"),
            LineFault::Piece { found, why } => write!(f, "{found}: {why}"),
            LineFault::About { found, why, what } => write!(f, "{found}: {why} {what}"),
            LineFault::Other { found, wanted } => write!(f, "{found}: {wanted} should stand here"),
            LineFault::TooMany { found, what, most } => write!(f, "{found} {what}, {most} at most"),
            LineFault::TableAgain(line) => write!(f, "a table is declared already, on line {line}"),
            LineFault::Record(fault) => write!(f, "{fault}"),
        }
    }
}

/// A fault, and its place in a text, in bytes counted from 0; none where it is the text as a whole.
#[derive(Drop)]
pub struct Found {
    pub place: Option<usize>,
    pub fault: LineFault,
}

impl Found {
    /// A fault of the text as a whole.
    pub fn whole(fault: LineFault) -> Found {
        Found { place: None, fault }
    }

    /// A fault at a place.
    pub fn at(place: usize, fault: LineFault) -> Found {
        Found {
            place: Some(place),
            fault,
        }
    }
}

/// What stands where the token of this number is, and its place: behind all tokens the end of the line.
pub fn token_at(alloc: Global, text: &[u8], number: usize) -> Result<(usize, String), AllocError> {
    let span = span_of(text, number);
    if span.start == span.end {
        return Ok((span.start, String::from_str(alloc, "the end of the line")?));
    }
    let found = shown_bytes(alloc, &text[span.start..span.end])?;
    Ok((span.start, found))
}

/// That the token of this number, or the end, may not stand where it does.
pub fn refused_token(
    alloc: Global,
    text: &[u8],
    number: usize,
    why: &'static str,
) -> Result<Found, AllocError> {
    let (place, found) = token_at(alloc, text, number)?;
    Ok(Found::at(place, LineFault::Piece { found, why }))
}

/// The first place at which no token begins, of a text that is no list of tokens.
pub fn slip_in(alloc: Global, text: &str) -> Result<Found, AllocError> {
    match first_slip(text.as_bytes()) {
        Some((place, slip)) => {
            let found = first_piece(alloc, text, place, slip)?;
            let why = slip.words();
            Ok(Found::at(place, LineFault::Piece { found, why }))
        }
        None => Ok(Found::whole(LineFault::Plain("the text is no list of tokens"))),
    }
}

/// What stands at a slip: a number with what touches it, a quoted text as it begins, or one character.
fn first_piece(alloc: Global, text: &str, place: usize, slip: Slip) -> Result<String, AllocError> {
    let rest = text.get(place..).unwrap_or("");
    let len = match slip {
        Slip::Touched | Slip::OutOfRange => word_len(rest.as_bytes()),
        Slip::NotClosed | Slip::TooLong => rest.len(),
        Slip::NotEquals => 2,
        _ => rest.chars().next().map_or(0, |letter| letter.len_utf8()),
    };
    shown(alloc, rest.get(..len).unwrap_or(rest))
}

/// How many bytes at the front are of a number and of a word that touches it.
fn word_len(text: &[u8]) -> usize {
    text.iter()
        .position(|byte| !(byte.is_ascii_alphanumeric() || *byte == b'_' || *byte == b'-'))
        .unwrap_or(text.len())
}
