//! Where the tokens of a text stand, and where none begins. These are the tokens of `cells`: each is the longest that fits.
ghost use Rattle.std.specs.Prelude.{◌≤◌, ◌<◌, IfOk, IfSome, length};

use cells::MAX_TEXT_BYTES;

/// Why no token begins at a place.
#[derive(Clone, Copy)]
pub enum Slip {
    DoubleQuote,
    Semicolon,
    NotEquals,
    DecimalPoint,
    Dot,
    Plus,
    Minus,
    Arithmetic,
    Touched,
    OutOfRange,
    NotClosed,
    TooLong,
    NoToken,
}

impl Slip {
    /// What is wrong, in words.
    pub fn words(self) -> &'static str {
        match self {
            Slip::DoubleQuote => "names stand without quotes, and texts in single quotes",
            Slip::Semicolon => "no semicolon stands at the end",
            Slip::NotEquals => "not equal is written <>",
            Slip::DecimalPoint => "numbers are whole",
            Slip::Dot => "a column is named without its table",
            Slip::Plus => "a number has no plus, and there is no arithmetic",
            Slip::Minus => "a minus stands directly before a digit, and there is no arithmetic",
            Slip::Arithmetic => "there is no arithmetic",
            Slip::Touched => "a letter, a digit or _ may not touch a number",
            Slip::OutOfRange => "a number has 64 bits at most",
            Slip::NotClosed => "the text is not closed",
            Slip::TooLong => "a text has 1024 bytes at most",
            Slip::NoToken => "no token begins so",
        }
    }
}

/// From where to where a token stands in a text, in bytes counted from 0. Both are the end of the last token where it is
/// the place behind all tokens.
#[derive(Clone, Copy)]
pub struct Span {
    pub start: usize,
    pub end: usize,
}

/// The first place of the text at which no token begins, and why. None where the text is a list of tokens.
pub fn first_slip(text: &[u8]) -> Option<(usize, Slip)>
    ensures { IfSome result (λ x. x.0 < length text.now) }
{
    let mut at = past_blanks(text, 0);
    while at < text.len() {
        match token_len(&text[at..]) {
            Ok(len) => at = past_blanks(text, at + len),
            Err(slip) => return Some((at, better(text, at, slip))),
        }
    }
    None
}

/// The point between two digits is one of a number.
fn better(text: &[u8], at: usize, slip: Slip) -> Slip {
    match at.checked_sub(1) {
        Some(before) if matches!(slip, Slip::Dot) && byte_at(text, before).is_ascii_digit() => {
            Slip::DecimalPoint
        }
        _ => slip,
    }
}

/// Where the token of this number stands, counted from 0, in a text that begins with as many tokens; behind the last
/// token where there are no more.
pub fn span_of(text: &[u8], number: usize) -> Span
    ensures order { result.start ≤ result.end }
    ensures within { result.end ≤ length text.now }
{
    let mut end = 0;
    for _ in 0..number {
        end = span_from(text, end).end;
    }
    span_from(text, end)
}

/// Where the next token stands from this place on.
fn span_from(text: &[u8], from: usize) -> Span
    requires { from ≤ length text.now }
    ensures order { result.start ≤ result.end }
    ensures within { result.end ≤ length text.now }
{
    let start = past_blanks(text, from);
    if start >= text.len() {
        return Span {
            start: from,
            end: from,
        };
    }
    let end = match token_len(&text[start..]) {
        Ok(len) => start + len,
        Err(_) => start,
    };
    Span { start, end }
}

/// The place behind the blanks that stand at a place.
fn past_blanks(text: &[u8], from: usize) -> usize
    requires { from ≤ length text.now }
    ensures front { from ≤ result }
    ensures within { result ≤ length text.now }
{
    match text[from..].iter().position(|byte| !is_blank(*byte)) {
        Some(count) => from + count,
        None => text.len(),
    }
}

/// How many bytes the token at the front has, or why there is none.
fn token_len(text: &[u8]) -> Result<usize, Slip>
    ensures { IfOk result (λ len. (0 < len) × (len ≤ length text.now)) }
{
    let Some((first, rest)) = text.split_first() else {
        return Err(Slip::NoToken);
    };
    match *first {
        b'a'..=b'z' | b'A'..=b'Z' | b'_' => Ok(1 + run_len(rest)),
        b'0'..=b'9' => number_len(text, digits_len(text)),
        b'-' if byte_at(rest, 0).is_ascii_digit() => number_len(text, 1 + digits_len(rest)),
        b'\'' => quoted_len(text),
        first => within(text, mark_len(first, byte_at(rest, 0))?),
    }
}

/// So many bytes, where the text has them.
fn within(text: &[u8], len: usize) -> Result<usize, Slip>
    ensures { IfOk result (λ n. (0 < n) × (n ≤ length text.now)) }
{
    if len == 0 || len > text.len() {
        return Err(Slip::NoToken);
    }
    Ok(len)
}

/// How many bytes of a word are at the front.
fn run_len(text: &[u8]) -> usize
    ensures { result ≤ length text.now }
{
    text.iter()
        .position(|byte| !is_in_word(*byte))
        .unwrap_or(text.len())
}

/// How many digits are at the front.
fn digits_len(text: &[u8]) -> usize
    ensures { result ≤ length text.now }
{
    text.iter()
        .position(|byte| !byte.is_ascii_digit())
        .unwrap_or(text.len())
}

/// How many bytes the number has that is at the front in so many bytes.
fn number_len(text: &[u8], len: usize) -> Result<usize, Slip>
    ensures { IfOk result (λ n. (0 < n) × (n ≤ length text.now)) }
{
    let Some(form) = text.get(..len) else {
        return Err(Slip::NoToken);
    };
    if len == 0 {
        return Err(Slip::NoToken);
    }
    if is_in_word(byte_at(text, len)) {
        return Err(Slip::Touched);
    }
    if is_in_range(form) {
        return Ok(len);
    }
    Err(Slip::OutOfRange)
}

/// Whether 64 bits hold the number of this form.
fn is_in_range(form: &[u8]) -> bool {
    match str::from_utf8(form) {
        Ok(form) => form.parse::<i64>().is_ok(),
        Err(_) => false,
    }
}

/// How many bytes the quoted text at the front has, with its quotes.
fn quoted_len(text: &[u8]) -> Result<usize, Slip>
    ensures { IfOk result (λ len. (0 < len) × (len ≤ length text.now)) }
{
    let mut at = 1usize;
    let mut bytes = 0usize;
    while at < text.len() {
        if text[at] != b'\'' {
            at += 1;
        } else if byte_at(text, at + 1) == b'\'' {
            at += 2;
        } else if bytes > MAX_TEXT_BYTES {
            return Err(Slip::TooLong);
        } else {
            return Ok(at + 1);
        }
        bytes = bytes.saturating_add(1);
    }
    Err(Slip::NotClosed)
}

/// How many bytes the sign has that begins with these two, or why there is none.
fn mark_len(first: u8, second: u8) -> Result<usize, Slip> {
    match (first, second) {
        (b'<', b'>' | b'=') | (b'>', b'=') => Ok(2),
        (b'(' | b')' | b',' | b'*' | b'=' | b'<' | b'>', _) => Ok(1),
        (b'"', _) => Err(Slip::DoubleQuote),
        (b';', _) => Err(Slip::Semicolon),
        (b'!', b'=') => Err(Slip::NotEquals),
        (b'.', _) => Err(Slip::Dot),
        (b'+', _) => Err(Slip::Plus),
        (b'-', _) => Err(Slip::Minus),
        (b'/' | b'%', _) => Err(Slip::Arithmetic),
        _ => Err(Slip::NoToken),
    }
}

fn is_blank(byte: u8) -> bool {
    byte == b' ' || byte == b'\t' || byte == b'\n' || byte == b'\r'
}

fn is_in_word(byte: u8) -> bool {
    byte.is_ascii_alphanumeric() || byte == b'_'
}

/// The byte at a place. Past the end stands a 0.
fn byte_at(text: &[u8], place: usize) -> u8 {
    text.get(place).copied().unwrap_or(0)
}
