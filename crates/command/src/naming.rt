//! Parts that have names: a word `NAME=FILE` names one, and a `load` line lists it by its name.
ghost use Rattle.std.specs.Prelude.{◌≡◌, ◌==◌, ◌∷◌, ◌++◌, ◌<◌, [], IfErr, IfOk, IfSome, OnOk, MatchOption, is_none, length, option_map, true};
ghost use Rattle.std.specs.List.{list_all, list_any, position, slice_split};
ghost use Rattle.std.specs.Str.Lines.{strip_carriage_return};
ghost use Rattle.cells.specs.Spelling.{is_in_word, is_letter};
ghost use Rattle.command.specs.declared.naming.NamingFault.TheVariants.{OutOfMemory};
ghost use Rattle.command.specs.Naming.{AreNamed, ExplainsNaming, TakesPart, has_name, is_name, listing_in, number_named, part_named, resolved, resolved_line, resolved_listing, resolved_word, resolved_words};

use cells::Text;
use std::alloc::{AllocError, AllocFailed, Global};
use thiserror::Error;

/// The name and the file of a part that a word names, as `NAME=FILE`: a name is a letter or `_`, and then letters, digits and
/// `_`. None where the word names none.
#[tactic(auto, using(crate::proofs::NamingLemmas::no_part, crate::proofs::NamingLemmas::a_part, crate::proofs::NamingLemmas::no_name))]
pub fn part_named(word: &str) -> Option<(&str, &str)>
    ensures { option_map (λ p. (p.0.now, p.1.now)) result ≡ part_named word.now }
{
    let Some((name, file)) = word.split_once('=') else {
        return None;
    };
    if is_name(name) {
        Some((name, file))
    } else {
        None
    }
}

/// Why words name no parts. Its text is what the program writes after `error: `.
#[derive(Debug, Drop, Error)]
pub enum NamingFault {
    /// The word is not NAME=FILE.
    #[error("'--part' takes NAME=FILE, where NAME is a letter or _ and then letters, digits and _: {0}")]
    NoName(String),
    /// Two words have this name.
    #[error("two parts have the name {0}")]
    NameAgain(String),
    #[error("out of memory")]
    OutOfMemory,
}

impl From<AllocError> for NamingFault {
    ghost from_gives = { λ _ e. e ≡ OutOfMemory };

    fn from(_error: AllocError) -> NamingFault {
        NamingFault::OutOfMemory
    }
}

impl<T: Drop> From<AllocFailed<T>> for NamingFault {
    ghost from_gives = { λ _ e. e ≡ OutOfMemory };

    fn from(_error: AllocFailed<T>) -> NamingFault {
        NamingFault::OutOfMemory
    }
}

/// Parts, in the order of their numbers.
#[derive(Drop)]
pub struct Parts {
    /// The names of their files.
    pub files: Vec<Text>,
    /// For each part its own name, where it has one.
    pub names: Vec<Option<Text>>,
}

impl Parts {
    /// Parts of these files, without names of their own.
    pub fn unnamed(alloc: Global, files: Vec<Text>) -> Result<Parts, AllocError>
        ensures { IfOk result (λ parts. AreNamed files.items [] parts.files.items parts.names.items) }
    {
        let mut names = Vec::new(alloc);
        for _file in files.as_slice() {
            names.push(None)?;
        }
        Ok(Parts { files, names })
    }

    /// Parts of these files, and after them those that words name as `NAME=FILE`.
    pub fn named(alloc: Global, files: Vec<Text>, words: &[Text]) -> Result<Parts, NamingFault>
        ensures named { IfOk result (λ parts. AreNamed files.items words.now parts.files.items parts.names.items) }
        ensures fault { IfErr result ExplainsNaming }
    {
        let mut parts = Parts::unnamed(alloc, files)?;
        for word in words {
            parts.take(alloc, word.as_str())?;
        }
        Ok(parts)
    }

    /// Takes one more part, which a word names.
    fn take(&mut self, alloc: Global, word: &str) -> Result<(), NamingFault>
        ensures ok { OnOk result (TakesPart self.old self.new word.now) }
        ensures fault { IfErr result ExplainsNaming }
    {
        let Some((name, file)) = part_named(word) else {
            return Err(NamingFault::NoName(word.to_string(alloc)?));
        };
        if is_named(self.names.as_slice(), name.as_bytes()) {
            return Err(NamingFault::NameAgain(name.to_string(alloc)?));
        }
        let name = Text::copied(alloc, name)?;
        self.files.push(Text::copied(alloc, file)?)?;
        self.names.push(Some(name))?;
        Ok(())
    }
}

/// Whether a text is a letter or `_`, and then letters, digits and `_`.
fn is_name(text: &str) -> bool
    ensures { result ≡ is_name text.now }
{
    match text.as_bytes() {
        [first, more @ ..] => is_letter(*first) && are_in_word(more),
        [] => false,
    }
}

fn is_letter(byte: u8) -> bool
    ensures { result ≡ is_letter byte }
{
    byte.is_ascii_alphabetic() || byte == b'_'
}

fn is_in_word(byte: u8) -> bool
    ensures { result ≡ is_in_word byte }
{
    byte.is_ascii_alphabetic() || byte == b'_' || byte.is_ascii_digit()
}

/// Whether each byte is a letter, a digit or `_`.
fn are_in_word(bytes: &[u8]) -> bool
    ensures { result ≡ list_all is_in_word bytes.now }
{
    bytes.iter().all(|byte| is_in_word(*byte))
}

/// The script in which the names of parts are put into numbers. `names` has for each part its name, where it has one. A line that
/// begins with `load ` has the numbers of the parts for their names in its listing; any other line, and any other word, stays byte
/// for byte, and so do the ends of lines. Where no part has a name, this is the script. It may be longer than a script may be.
pub fn resolved(
    alloc: Global,
    names: &[Option<Text>],
    script: Vec<u8>,
) -> Result<Vec<u8>, AllocError>
    ensures exact { IfOk result (λ text. text.items ≡ resolved names.now script.items) }
    ensures unnamed { IfOk result (λ text. list_all is_none names.now ≡ true → text.items ≡ script.items) }
{
    if have_none(names) {
        return Ok(script);
    }
    resolved_lines(alloc, names, script.as_slice())
}

/// Whether no part has a name.
fn have_none(names: &[Option<Text>]) -> bool
    ensures { result ≡ list_all is_none names.now }
{
    names.iter().all(|name| name.is_none())
}

/// The same, line by line.
fn resolved_lines(
    alloc: Global,
    names: &[Option<Text>],
    script: &[u8],
) -> Result<Vec<u8>, AllocError>
    ensures { IfOk result (λ text. text.items ≡ resolved names.now script.now) }
{
    let mut text = Vec::new(alloc);
    let mut left = script;
    while let Some((line, later)) = split_once(left, b'\n') {
        push_line(alloc, names, line, &mut text)?;
        text.push(b'\n')?;
        left = later;
    }
    push_line(alloc, names, left, &mut text)?;
    Ok(text)
}

/// What stands before the first such byte, and what follows it, where there is one.
#[tactic(auto, using(crate::proofs::NamingLemmas::cut_first, crate::proofs::NamingLemmas::cut_none))]
fn split_once(text: &[u8], byte: u8) -> Option<(&[u8], &[u8])>
    ensures split { MatchOption result (slice_split (λ b. b == byte) text.now ≡ text.now ∷ [])
        (λ p. slice_split (λ b. b == byte) text.now ≡ p.0.now ∷ slice_split (λ b. b == byte) p.1.now) }
    ensures shorter { IfSome result (λ p. length p.1.now < length text.now) }
{
    match place_of(text, byte) {
        Some(at) => Some((&text[..at], &text[at + 1..])),
        None => None,
    }
}

/// The place of the first such byte.
fn place_of(text: &[u8], byte: u8) -> Option<usize>
    ensures place { result ≡ position (λ b. b == byte) text.now }
    ensures within { IfSome result (λ at. at < length text.now) }
{
    text.iter().position(|b| *b == byte)
}

/// Writes a line, in which numbers stand for names where it is a load.
fn push_line(
    alloc: Global,
    names: &[Option<Text>],
    line: &[u8],
    text: &mut Vec<u8>,
) -> Result<(), AllocError>
    ensures { OnOk result (text.new.items ≡ text.old.items ++ resolved_line names.now line.now) }
{
    let Some(listing) = listing_in(line) else {
        text.extend_from_slice(line)?;
        return Ok(());
    };
    text.extend_from_slice(b"load ")?;
    push_listing(alloc, names, listing, text)
}

/// What follows `load ` in a line that begins so.
fn listing_in(line: &[u8]) -> Option<&[u8]>
    ensures { option_map (λ l. l.now) result ≡ listing_in line.now }
{
    line.strip_prefix(b"load ")
}

/// Writes a listing, in which numbers stand for names. A carriage return at its end is of the line's end.
fn push_listing(
    alloc: Global,
    names: &[Option<Text>],
    listing: &[u8],
    text: &mut Vec<u8>,
) -> Result<(), AllocError>
    ensures { OnOk result (text.new.items ≡ text.old.items ++ resolved_listing names.now listing.now) }
{
    let (words, end) = without_return(listing);
    push_words(alloc, names, words, text)?;
    text.extend_from_slice(end)?;
    Ok(())
}

/// The text without one carriage return at its end, and that.
fn without_return(text: &[u8]) -> (&[u8], &[u8])
    ensures words { result.0.now ≡ strip_carriage_return text.now }
    ensures whole { result.0.now ++ result.1.now ≡ text.now }
{
    match text {
        [front @ .., b'\r'] => (front, b"\r"),
        _ => (text, b""),
    }
}

/// Writes words with one space between neighbours, in which numbers stand for names.
fn push_words(
    alloc: Global,
    names: &[Option<Text>],
    words: &[u8],
    text: &mut Vec<u8>,
) -> Result<(), AllocError>
    ensures { OnOk result (text.new.items ≡ text.old.items ++ resolved_words names.now words.now) }
{
    let mut left = words;
    while let Some((word, later)) = split_once(left, b' ') {
        push_word(alloc, names, word, text)?;
        text.push(b' ')?;
        left = later;
    }
    push_word(alloc, names, left, text)
}

/// Writes a word, or the number of the part whose name it is.
fn push_word(
    alloc: Global,
    names: &[Option<Text>],
    word: &[u8],
    text: &mut Vec<u8>,
) -> Result<(), AllocError>
    ensures { OnOk result (text.new.items ≡ text.old.items ++ resolved_word names.now word.now) }
{
    match number_named(names, word) {
        Some(number) => {
            let digits = number.to_string(alloc)?;
            text.extend_from_slice(digits.as_bytes())?;
            Ok(())
        }
        None => {
            text.extend_from_slice(word)?;
            Ok(())
        }
    }
}

/// The number of the part of this name; parts are numbered from 1.
fn number_named(names: &[Option<Text>], word: &[u8]) -> Option<usize>
    ensures { result ≡ number_named names.now word.now }
{
    match place_named(names, word) {
        Some(place) => Some(place + 1),
        None => None,
    }
}

/// Whether a part has this name.
fn is_named(names: &[Option<Text>], word: &[u8]) -> bool
    ensures { result ≡ list_any (has_name word.now) names.now }
{
    names.iter().any(|name| has_name(name, word))
}

/// The place of the first part of this name.
fn place_named(names: &[Option<Text>], word: &[u8]) -> Option<usize>
    ensures place { result ≡ position (has_name word.now) names.now }
    ensures within { IfSome result (λ place. place < length names.now) }
{
    names.iter().position(|name| has_name(name, word))
}

/// Whether this is the name.
fn has_name(name: &Option<Text>, word: &[u8]) -> bool
    ensures { result ≡ has_name word.now name.now }
{
    match name {
        Some(name) => name.as_str().as_bytes() == word,
        None => false,
    }
}
