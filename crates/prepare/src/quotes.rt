//! Quotes round the fields of a file, as RFC 4180, section 2, has them.
ghost use Rattle.std.specs.Prelude.{◌≡◌, ◌==◌, ◌≤◌, IfNone, IfSome, count_by, length, take};
ghost use Rattle.csv.specs.Machine.{line_feed};
ghost use Rattle.csv.specs.Reading.{strip_bom};
ghost use Rattle.prepare.specs.Quotes.{IsMisquoted, IsMisquotedFile, IsWellQuoted, kind_of, line_after, step};

use thiserror::Error;

/// What is wrong with a quote of a file.
#[derive(Clone, Copy, Debug, PartialEq, Eq, Drop, Error)]
pub enum QuoteFault {
    /// A field begins with it, and none closes the field.
    #[error("a quote is opened and never closed")]
    Open,
    /// After the one that closes a field the field goes on.
    #[error("a text stands after a closing quote")]
    Followed,
    /// It stands in a field that does not begin with one.
    #[error("a quote stands in a field that does not begin with one")]
    Stray,
}

/// What a byte is to a field.
#[derive(Clone, Copy, Debug, PartialEq, Eq)]
enum Kind {
    Quote,
    /// The delimiter, or the end of a line.
    End,
    Other,
}

/// Where a reader stands after some bytes.
#[derive(Clone, Copy, Debug, PartialEq, Eq)]
enum Standing {
    /// At the start of a field.
    Start,
    /// In a field without quotes.
    Bare,
    /// Between the quotes of a field, of which the first stands at this place.
    Quoted(usize),
    /// After a quote between them: the field ends here, or the quote is the first of two.
    Closed(usize),
}

/// The first fault of the quotes of a file, and the line on which it stands, counted from 1 by line feeds. None exactly where each
/// field has no quote, or stands between two and has each of its own twice. A byte order mark at the start is passed over.
pub fn misquoted(bytes: &[u8], delimiter: u8) -> Option<(QuoteFault, u64)>
    ensures none { IfNone result (IsWellQuoted delimiter (strip_bom bytes.now)) }
    ensures some { IfSome result (λ found. IsMisquotedFile delimiter bytes.now found.0 found.1) }
{
    let text = after_mark(bytes);
    let (fault, place) = first_misquoted(text, delimiter)?;
    Some((fault, line_at(text, place)))
}

/// The bytes after a byte order mark.
#[tactic(auto, unfolding(csv::specs::Reading::strip_bom))]
fn after_mark(bytes: &[u8]) -> &[u8]
    ensures { result.now ≡ strip_bom bytes.now }
{
    match bytes {
        [0xEF, 0xBB, 0xBF, rest @ ..] => rest,
        _ => bytes,
    }
}

/// The line of the byte at a place.
fn line_at(text: &[u8], place: usize) -> u64
    requires { place ≤ length text.now }
    ensures { result ≡ line_after (take place text.now) }
{
    lines(&text[..place]) + 1
}

/// How many line feeds there are.
fn lines(text: &[u8]) -> u64
    ensures count { result ≡ count_by (λ byte. byte == line_feed) text.now }
    ensures few { result ≤ length text.now }
{
    text.iter().filter(|byte| **byte == b'\n').count() as u64
}

/// The first fault of the quotes of a text, and how many bytes stand before it. None exactly where each field has no quote, or stands
/// between two and has each of its own twice.
pub(crate) fn first_misquoted(text: &[u8], delimiter: u8) -> Option<(QuoteFault, usize)>
    ensures none { IfNone result (IsWellQuoted delimiter text.now) }
    ensures some { IfSome result (λ found. IsMisquoted delimiter text.now found.0 found.1) }
{
    let mut standing = Standing::Start;
    for (place, byte) in text.iter().enumerate() {
        match step(standing, kind_of(delimiter, *byte), place) {
            Ok(next) => standing = next,
            Err(fault) => return Some((fault, place)),
        }
    }
    match standing {
        Standing::Quoted(opened) => Some((QuoteFault::Open, opened)),
        Standing::Start => None,
        Standing::Bare => None,
        Standing::Closed(_) => None,
    }
}

fn kind_of(delimiter: u8, byte: u8) -> Kind
    ensures { result ≡ kind_of delimiter byte }
{
    match byte {
        b'"' => Kind::Quote,
        b'\n' => Kind::End,
        b'\r' => Kind::End,
        byte if byte == delimiter => Kind::End,
        _ => Kind::Other,
    }
}

/// Where it stands after a byte of this kind at a place, or what is wrong with this byte.
fn step(standing: Standing, kind: Kind, place: usize) -> Result<Standing, QuoteFault>
    ensures { result ≡ step standing kind place }
{
    match standing {
        Standing::Start => match kind {
            Kind::Quote => Ok(Standing::Quoted(place)),
            Kind::End => Ok(Standing::Start),
            Kind::Other => Ok(Standing::Bare),
        },
        Standing::Bare => match kind {
            Kind::Quote => Err(QuoteFault::Stray),
            Kind::End => Ok(Standing::Start),
            Kind::Other => Ok(Standing::Bare),
        },
        Standing::Quoted(opened) => match kind {
            Kind::Quote => Ok(Standing::Closed(opened)),
            _ => Ok(Standing::Quoted(opened)),
        },
        Standing::Closed(opened) => match kind {
            Kind::Quote => Ok(Standing::Quoted(opened)),
            Kind::End => Ok(Standing::Start),
            Kind::Other => Err(QuoteFault::Followed),
        },
    }
}
