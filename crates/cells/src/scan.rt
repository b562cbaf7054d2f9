//! Reads a text into its tokens.
ghost use Rattle.std.specs.Prelude.{◌≡◌, ◌⊎◌, List, IfOk, IfErr, Some, slice_index, string_bytes};
ghost use Rattle.std.specs.List.{prefix_len};
ghost use Rattle.cells.specs.Spelling.{Spells, past, run, without_blanks};
ghost use Rattle.cells.specs.Reading.{tokens_of};
ghost use Rattle.cells.specs.Refusals.{AnswersBy, Gives};
ghost use Rattle.cells.specs.Scanning.{class_test, mark_at, mark_of, number_at, number_form, number_len, number_rest, quoted_at, token_at, unquoted, word_at};

use crate::integers::integer_of;
use crate::limits::MAX_TEXT_BYTES;
use crate::refused::Refused;
use crate::text::Text;
use crate::token::{Mark, Token, TokenFault};
use std::alloc::Global;

/// The tokens that the text spells, each the longest one that fits (ISO/IEC 9075-2:1999, 5.2).
/// Blanks, that is spaces, tabs and line ends, may stand before, between and after them.
///
/// [`TokenFault::Bad`] where the text spells no tokens: at a byte that begins none, a `-` that is not
/// directly before a digit, a number that a letter, a digit or `_` touches or that is out of range,
/// and a quoted text that is not closed or has more than [`MAX_TEXT_BYTES`] bytes.
/// [`TokenFault::Memory`] where a growth was refused. Its time is linear in the text's length.
pub fn tokens(alloc: Global, text: &str) -> Result<Vec<Token>, TokenFault>
    // What is read is spelt so.
    ensures found { IfOk result (λ v. Spells text.now v.items) }
    // What is spelt so is read, unless memory is wanting: the text spells no other list, and none where it is bad.
    ensures only { (ts : List Token) → Spells text.now ts → Gives (λ v. v.items) (Some ts) result }
{
    let mut found = Vec::new(alloc);
    let mut rest = without_blanks(text);
    while !rest.is_empty() {
        let (token, behind) = token_at(alloc, rest)?;
        found.push(token)?;
        rest = without_blanks(behind);
    }
    Ok(found)
}

/// The same tokens, with `bad` in place of [`TokenFault::Bad`] and [`Refused::OutOfMemory`] in
/// place of [`TokenFault::Memory`].
pub fn tokens_or(alloc: Global, text: &str, bad: Refused) -> Result<Vec<Token>, Refused>
    ensures found { IfOk result (λ v. Spells text.now v.items) }
    ensures only { (ts : List Token) → Spells text.now ts → AnswersBy (λ v. v.items) bad (Some ts) result }
    ensures refused { IfErr result (λ e. (e ≡ bad) ⊎ (e ≡ Refused.OutOfMemory)) }
    // The answer as a function of the text.
    ensures exact { AnswersBy (λ v. v.items) bad (tokens_of text.now) result }
{
    match tokens(alloc, text) {
        Ok(found) => Ok(found),
        Err(TokenFault::Bad) => Err(bad),
        Err(TokenFault::Memory) => Err(Refused::OutOfMemory),
    }
}

/// The text behind the blanks at its front.
fn without_blanks(text: &str) -> &str
    ensures { result.now ≡ without_blanks text.now }
{
    split_run(text, Class::Blank).1
}

/// The token at the front, and what follows it.
#[tactic(auto, unfolding(crate::specs::Scanning::token_at))]
fn token_at(alloc: Global, text: &str) -> Result<(Token, &str), TokenFault>
    ensures { Gives (λ x. (x.0, x.1.now)) (token_at text.now) result }
{
    if begins(text, Class::Letter) {
        word_at(alloc, text)
    } else if begins(text, Class::Digit) || byte_at(text, 0) == b'-' {
        number_at(text)
    } else if let Some(rest) = text.strip_prefix('\'') {
        quoted_at(alloc, rest)
    } else {
        mark_at(text)
    }
}

/// The word at the front, in upper case.
#[tactic(auto, unfolding(crate::specs::Scanning::word_at))]
fn word_at(alloc: Global, text: &str) -> Result<(Token, &str), TokenFault>
    ensures { Gives (λ x. (x.0, x.1.now)) (word_at text.now) result }
{
    let (word, rest) = split_run(text, Class::InWord);
    let name = word.to_ascii_uppercase(alloc)?;
    let word = Text::new(alloc, name)?;
    Ok((Token::Word(word), rest))
}

/// The number at the front, which nothing may touch.
#[tactic(auto, unfolding(crate::specs::Scanning::number_at))]
fn number_at(text: &str) -> Result<(Token, &str), TokenFault>
    ensures { Gives (λ x. (x.0, x.1.now)) (number_at text.now) result }
{
    let (form, rest) = split_number(text);
    if begins(rest, Class::InWord) {
        return Err(TokenFault::Bad);
    }
    match integer_of(form) {
        Some(n) => Ok((Token::Number(n), rest)),
        None => Err(TokenFault::Bad),
    }
}

/// An optional `-` and the digits behind it, of which there may be none, and what follows them.
fn split_number(text: &str) -> (&str, &str)
    ensures front { result.0.now ≡ number_form text.now }
    ensures back { result.1.now ≡ number_rest text.now }
{
    text.split_at(number_len(text.as_bytes()))
}

/// How many bytes at the front are an optional `-` and the digits behind it.
fn number_len(bytes: &[u8]) -> usize
    ensures { result ≡ number_len bytes.now }
{
    match bytes {
        [b'-', digits @ ..] => 1 + run_len(digits, Class::Digit),
        _ => run_len(bytes, Class::Digit),
    }
}

/// The quoted text behind its first quote, and what follows it.
#[tactic(auto, unfolding(crate::specs::Scanning::quoted_at))]
fn quoted_at(alloc: Global, text: &str) -> Result<(Token, &str), TokenFault>
    ensures { Gives (λ x. (x.0, x.1.now)) (quoted_at text.now) result }
{
    let (string, rest) = unquoted(alloc, text)?;
    if string.len() > MAX_TEXT_BYTES {
        return Err(TokenFault::Bad);
    }
    let quoted = Text::new(alloc, string)?;
    Ok((Token::Quoted(quoted), rest))
}

/// What stands before the quote that ends the text, with doubled quotes undone, and what follows it.
fn unquoted(alloc: Global, text: &str) -> Result<(String, &str), TokenFault>
    ensures { Gives (λ x. (string_bytes x.0, x.1.now)) (unquoted text.now) result }
{
    let mut front = String::new(alloc);
    let mut rest = text;
    while let Some((part, behind)) = rest.split_once('\'') {
        front.push_str(part)?;
        let Some(more) = behind.strip_prefix('\'') else {
            return Ok((front, behind));
        };
        front.push_str("'")?;
        rest = more;
    }
    Err(TokenFault::Bad)
}

/// The sign at the front.
#[tactic(auto, unfolding(crate::specs::Scanning::mark_at))]
fn mark_at(text: &str) -> Result<(Token, &str), TokenFault>
    ensures { Gives (λ x. (x.0, x.1.now)) (mark_at text.now) result }
{
    let Some((mark, len)) = mark_of(byte_at(text, 0), byte_at(text, 1)) else {
        return Err(TokenFault::Bad);
    };
    let (_, rest) = text.split_at(len);
    Ok((Token::Mark(mark), rest))
}

/// The sign that begins with these two bytes, and its length.
fn mark_of(first: u8, second: u8) -> Option<(Mark, usize)>
    ensures { result ≡ mark_of first second }
{
    match (first, second) {
        (b'(', _) => Some((Mark::LeftParen, 1)),
        (b')', _) => Some((Mark::RightParen, 1)),
        (b',', _) => Some((Mark::Comma, 1)),
        (b'*', _) => Some((Mark::Asterisk, 1)),
        (b'=', _) => Some((Mark::Equals, 1)),
        (b'<', b'>') => Some((Mark::NotEquals, 2)),
        (b'<', b'=') => Some((Mark::LessThanOrEquals, 2)),
        (b'<', _) => Some((Mark::LessThan, 1)),
        (b'>', b'=') => Some((Mark::GreaterThanOrEquals, 2)),
        (b'>', _) => Some((Mark::GreaterThan, 1)),
        _ => None,
    }
}

/// A class of bytes. Each is of ASCII, so a run of a class ends between two characters.
#[derive(Clone, Copy)]
enum Class {
    Blank,
    Letter,
    InWord,
    Digit,
}

/// Whether the byte is of the class.
fn is_in(class: Class, byte: u8) -> bool
    ensures { result ≡ class_test class byte }
{
    match class {
        Class::Blank => byte == b' ' || byte == b'\t' || byte == b'\n' || byte == b'\r',
        Class::Letter => byte.is_ascii_alphabetic() || byte == b'_',
        Class::InWord => byte.is_ascii_alphabetic() || byte == b'_' || byte.is_ascii_digit(),
        Class::Digit => byte.is_ascii_digit(),
    }
}

/// How many bytes at the front are of the class.
fn run_len(bytes: &[u8], class: Class) -> usize
    ensures { result ≡ prefix_len (class_test class) bytes.now }
{
    for (i, byte) in bytes.iter().enumerate() {
        if !is_in(class, *byte) {
            return i;
        }
    }
    bytes.len()
}

/// The bytes of the class at the front, and what follows them.
fn split_run(text: &str, class: Class) -> (&str, &str)
    ensures front { result.0.now ≡ run (class_test class) text.now }
    ensures back { result.1.now ≡ past (class_test class) text.now }
{
    text.split_at(run_len(text.as_bytes(), class))
}

/// Whether the text begins with a byte of the class.
fn begins(text: &str, class: Class) -> bool
    ensures { result ≡ class_test class (slice_index text.now 0) }
{
    is_in(class, byte_at(text, 0))
}

/// The byte at a place. Past the end stands a 0, which is in no class.
fn byte_at(text: &str, place: usize) -> u8
    ensures { result ≡ slice_index text.now place }
{
    text.as_bytes().get(place).copied().unwrap_or(0)
}
