//! How the rows of an answer are arranged, by the words of `--order` and `--limit`.
ghost use Rattle.std.specs.Prelude.{◌≡◌, IfOk, Some, option_map};
ghost use Rattle.cells.specs.Integers.{whole_number_of};

use crate::options::OptionFault;
use cells::{Mark, Text, Token, TokenFault, tokens, whole_number_of};
use report::{Arrangement, SortKey};
use std::alloc::{AllocError, Global};

/// The arrangement that the words ask for. An order names columns of the query's answer as its header does, with commas between
/// them, and after each that wants it `asc` or `desc`; letters are taken as capitals, and blanks count for nothing.
pub(crate) fn arrangement_of<'w>(
    alloc: Global,
    query: &str,
    order: Option<&'w str>,
    limit: Option<&'w str>,
) -> Result<Arrangement, OptionFault<'w>>
    ensures { IfOk result (λ arrangement. option_map (λ w. whole_number_of w.now) limit.entry ≡ option_map Some arrangement.limit) }
{
    let limit = limit_of(limit)?;
    let Some(word) = order else {
        return Ok(Arrangement {
            order: Vec::new(alloc),
            limit,
        });
    };
    let Some(order) = keys_of(alloc, word)? else {
        return Err(OptionFault::Order(word));
    };
    if lacks_one(alloc, query, order.as_slice())? {
        return Err(OptionFault::NoColumn(word));
    }
    Ok(Arrangement { order, limit })
}

/// The most rows that are shown, where a word says how many.
fn limit_of<'w>(word: Option<&'w str>) -> Result<Option<u64>, OptionFault<'w>>
    ensures { IfOk result (λ limit. option_map (λ w. whole_number_of w.now) word.entry ≡ option_map Some limit) }
{
    let Some(word) = word else {
        return Ok(None);
    };
    match whole_number_of(word) {
        Some(number) => Ok(Some(number)),
        None => Err(OptionFault::Limit(word)),
    }
}

/// The sort keys that a text lists. None: it lists none.
fn keys_of(alloc: Global, text: &str) -> Result<Option<Vec<SortKey>>, AllocError> {
    match tokens(alloc, text) {
        Ok(tokens) => keys_in(alloc, tokens.as_slice()),
        Err(TokenFault::Bad) => Ok(None),
        Err(TokenFault::Memory) => Err(AllocError),
    }
}

/// Whether a key is no column of the query's answer. A query that can't be read lacks none: its run tells why.
fn lacks_one(alloc: Global, query: &str, keys: &[SortKey]) -> Result<bool, AllocError> {
    match columns_of(alloc, query)? {
        Some(columns) => Ok(keys.iter().any(|key| !has(columns.as_slice(), key))),
        None => Ok(false),
    }
}

/// Whether one of the columns is that of the key.
fn has(columns: &[SortKey], key: &SortKey) -> bool {
    columns.iter().any(|column| column.heading == key.heading)
}

/// The columns of a query's answer, read as keys: what stands between its first word and FROM.
fn columns_of(alloc: Global, query: &str) -> Result<Option<Vec<SortKey>>, AllocError> {
    match tokens(alloc, query) {
        Ok(tokens) => match tokens.as_slice().split_first() {
            Some((_, rest)) => keys_in(alloc, before_from(rest)),
            None => Ok(None),
        },
        Err(TokenFault::Bad) => Ok(None),
        Err(TokenFault::Memory) => Err(AllocError),
    }
}

/// The tokens before the word FROM.
fn before_from(tokens: &[Token]) -> &[Token] {
    match tokens.iter().position(is_from) {
        Some(at) => &tokens[..at],
        None => tokens,
    }
}

/// Whether a token is the word FROM.
fn is_from(token: &Token) -> bool {
    match token {
        Token::Word(word) => word.as_str() == "FROM",
        _ => false,
    }
}

/// The keys that the tokens list.
fn keys_in(alloc: Global, tokens: &[Token]) -> Result<Option<Vec<SortKey>>, AllocError> {
    let mut reading = Reading::new(alloc);
    for token in tokens {
        if !reading.take(token)? {
            return Ok(None);
        }
    }
    if !reading.end_key()? {
        return Ok(None);
    }
    Ok(Some(reading.keys))
}

/// The keys that were read, and what was read of the next one.
#[derive(Drop)]
struct Reading {
    alloc: Global,
    keys: Vec<SortKey>,
    heading: String,
    /// How many parentheses are open.
    open: u64,
    /// Whether the key descends, where it says so or says that it does not.
    descends: Option<bool>,
}

impl Reading {
    /// Nothing was read.
    fn new(alloc: Global) -> Reading {
        Reading {
            alloc,
            keys: Vec::new(alloc),
            heading: String::new(alloc),
            open: 0,
            descends: None,
        }
    }

    /// Takes a token, and tells whether a key may have it there.
    fn take(&mut self, token: &Token) -> Result<bool, AllocError> {
        match token {
            Token::Word(word) => self.take_word(word.as_str()),
            Token::Mark(mark) => self.take_mark(*mark),
            Token::Number(_) => Ok(false),
            Token::Quoted(_) => Ok(false),
        }
    }

    /// Takes a word: one of an item, or after an item its direction.
    fn take_word(&mut self, word: &str) -> Result<bool, AllocError> {
        if self.open == 0 && !self.heading.is_empty() {
            return Ok(self.turn(word));
        }
        self.heading.push_str(word)?;
        if word == "DISTINCT" {
            self.heading.push_str(" ")?;
        }
        Ok(true)
    }

    /// Takes a direction, of which a key has one at most.
    fn turn(&mut self, word: &str) -> bool {
        if self.descends.is_some() {
            return false;
        }
        match word {
            "ASC" => self.descends = Some(false),
            "DESC" => self.descends = Some(true),
            _ => return false,
        }
        true
    }

    /// Takes a sign: one of an item, or the comma after a key.
    fn take_mark(&mut self, mark: Mark) -> Result<bool, AllocError> {
        if self.open == 0 && mark == Mark::Comma {
            return self.end_key();
        }
        if self.descends.is_some() {
            return Ok(false);
        }
        let text = match mark {
            Mark::LeftParen => "(",
            Mark::RightParen => ")",
            Mark::Comma => ", ",
            Mark::Asterisk => "*",
            _ => return Ok(false),
        };
        self.count(mark);
        self.heading.push_str(text)?;
        Ok(true)
    }

    /// Counts the open parentheses.
    fn count(&mut self, mark: Mark) {
        match mark {
            Mark::LeftParen => self.open = self.open.saturating_add(1),
            Mark::RightParen => self.open = self.open.saturating_sub(1),
            _ => {}
        }
    }

    /// Ends a key, and tells whether there was one.
    fn end_key(&mut self) -> Result<bool, AllocError> {
        if self.heading.is_empty() {
            return Ok(false);
        }
        let key = SortKey {
            heading: Text::copied(self.alloc, self.heading.as_str())?,
            descends: self.descends == Some(true),
        };
        self.keys.push(key)?;
        self.heading.clear();
        self.descends = None;
        Ok(true)
    }
}
