//! Names of a header, and the words that they make.
ghost use Rattle.std.specs.Prelude.{◌≡◌, IfOk, map};
ghost use Rattle.cells.specs.Spelling.{is_in_word, is_letter};
ghost use Rattle.prepare.specs.Words.{apart, begins_word, begun, is_same_name, is_taken, name_of, word_byte, word_of};

use cells::{Text, is_reserved};
use std::alloc::{AllocError, Global};
use std::str;

/// The word that a name makes: its letters in upper case, its digits, and `_` for any other byte; with one more `_` before a digit,
/// and after a word of the language's own.
pub(crate) fn word_of(alloc: Global, name: &[u8]) -> Result<Vec<u8>, AllocError>
    ensures { IfOk result (λ word. word.items ≡ word_of name.now) }
{
    let word = begun(alloc, name)?;
    apart(word)
}

/// The name's bytes as those of a word, of which the first is no digit.
fn begun(alloc: Global, name: &[u8]) -> Result<Vec<u8>, AllocError>
    ensures { IfOk result (λ word. word.items ≡ begun (map word_byte name.now)) }
{
    let mut word = Vec::new(alloc);
    if !begins_word(name) {
        word.push(b'_')?;
    }
    for byte in name {
        word.push(word_byte(*byte))?;
    }
    Ok(word)
}

/// Whether the name's first byte makes one that may begin a word.
fn begins_word(name: &[u8]) -> bool
    ensures { result ≡ begins_word (map word_byte name.now) }
{
    match name.first() {
        Some(first) => is_letter(word_byte(*first)),
        None => false,
    }
}

/// The word as one that may be a name.
fn apart(mut word: Vec<u8>) -> Result<Vec<u8>, AllocError>
    ensures { IfOk result (λ name. name.items ≡ apart word.items) }
{
    if is_taken(word.as_slice()) {
        word.push(b'_')?;
    }
    Ok(word)
}

/// Whether a word is one of the language's own.
#[tactic(auto, using(crate::proofs::WordsLemmas::taken_text, crate::proofs::WordsLemmas::taken_other))]
fn is_taken(word: &[u8]) -> bool
    ensures { result ≡ is_taken word.now }
{
    match str::from_utf8(word) {
        Ok(text) => is_reserved(text),
        Err(_) => false,
    }
}

/// A letter in upper case, a digit, and `_` for any other byte.
fn word_byte(byte: u8) -> u8
    ensures { result ≡ word_byte byte }
{
    if is_in_word(byte) {
        byte.to_ascii_uppercase()
    } else {
        b'_'
    }
}

fn is_letter(byte: u8) -> bool
    ensures { result ≡ is_letter byte }
{
    byte.is_ascii_alphabetic() || byte == b'_'
}

fn is_in_word(byte: u8) -> bool
    ensures { result ≡ is_in_word byte }
{
    byte.is_ascii_alphabetic() || byte == b'_' || byte.is_ascii_digit()
}

/// Whether two names are one, in whatever case.
pub(crate) fn is_same_name(first: &[u8], second: &[u8]) -> bool
    ensures { result ≡ is_same_name first.now second.now }
{
    if first.len() != second.len() {
        return false;
    }
    for (place, byte) in first.iter().enumerate() {
        if byte.to_ascii_uppercase() != second[place].to_ascii_uppercase() {
            return false;
        }
    }
    true
}

/// The word that a name makes, as a text: its letters in upper case, its digits, and `_` for any other byte; with one more `_` before
/// a digit, and after a word of the language's own. The only error is that a growth was refused.
pub fn word(alloc: Global, name: &str) -> Result<Text, AllocError>
    ensures { IfOk result (λ text. text ≡ word_of name.now) }
{
    word_text(alloc, name.as_bytes())
}

/// The word that the bytes of a name make, as a text.
pub(crate) fn word_text(alloc: Global, name: &[u8]) -> Result<Text, AllocError>
    ensures { IfOk result (λ text. text ≡ word_of name.now) }
{
    let word = word_of(alloc, name)?;
    match str::from_utf8(word.as_slice()) {
        Ok(text) => Text::copied(alloc, text),
        // A word is ASCII, so this is never reached.
        Err(_) => Text::copied(alloc, "_"),
    }
}

/// The text in upper case, where it is a name: a letter or `_`, and then letters, digits and `_`, and no word of the language's own.
/// Else None. The only error is that a growth was refused.
pub fn name_of(alloc: Global, text: &str) -> Result<Option<Text>, AllocError>
    ensures { IfOk result (λ name. name ≡ name_of text.now) }
{
    let word = word(alloc, text)?;
    if is_same_name(word.as_bytes(), text.as_bytes()) {
        return Ok(Some(word));
    }
    Ok(None)
}
