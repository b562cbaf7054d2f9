//! Columns of a file, under the names that they get in a table.
ghost use Rattle.std.specs.Prelude.{◌≡◌, ◌==◌, ◌<◌, IfErr, IfNone, IfOk, IfSome, bytes_eq, filter, length, map, option_map, position};
ghost use Rattle.std.specs.List.{IsDistinct, list_any};
ghost use Rattle.records.specs.Records.{records_of};
ghost use Rattle.prepare.specs.Listed.{IsAgain, IsColumn, IsListFault, by_name, header_in, is_named, is_word, listed_in, naming_by, naming_of, words_in};
ghost use Rattle.prepare.specs.Words.{word_of};
ghost use Rattle.prepare.specs.declared.listed.ListFault.TheVariants.{OutOfMemory};

use crate::choice::Chosen;
use crate::part::lent;
use crate::words::word_text;
use cells::{Text, Token};
use csv::ByteRecord;
use records::{Records, fields};
use std::alloc::{AllocError, AllocFailed, Global};
use thiserror::Error;

/// Why no columns are chosen.
#[derive(Clone, Copy, Debug, PartialEq, Eq, Drop, Error)]
pub enum ListFault {
    /// The name at this place, where the first is 0, is no text of UTF-8.
    #[error("the name at place {place} is not UTF-8")]
    NotText { place: usize },
    /// Memory was refused.
    #[error("no memory")]
    OutOfMemory,
}

impl From<AllocError> for ListFault {
    ghost from_gives = { λ _ e. e ≡ OutOfMemory };

    fn from(_error: AllocError) -> ListFault {
        ListFault::OutOfMemory
    }
}

impl<T: Drop> From<AllocFailed<T>> for ListFault {
    ghost from_gives = { λ _ e. e ≡ OutOfMemory };

    fn from(_error: AllocFailed<T>) -> ListFault {
        ListFault::OutOfMemory
    }
}

/// The names of a file's columns: the fields of its first record, without white space at their ends where that is left out. None
/// where the file has no record. The only error is that a growth was refused.
pub fn header_of(
    alloc: Global,
    file: &[u8],
    delimiter: u8,
    trims: bool,
) -> Result<Option<Vec<Vec<u8>>>, AllocError>
    ensures { IfOk result (λ header. option_map (λ names. map (λ name. name.items) names.items) header ≡ header_in trims (records_of delimiter file.now)) }
{
    let mut records = Records::new(alloc, file, delimiter);
    let mut row = ByteRecord::new(alloc);
    if !records.next(&mut row)? {
        return Ok(None);
    }
    if trims {
        row.trim()?;
    }
    let fields = fields(alloc, &row)?;
    Ok(Some(owned(alloc, fields.as_slice())?))
}

/// Copies of the fields.
fn owned(alloc: Global, fields: &[&[u8]]) -> Result<Vec<Vec<u8>>, AllocError>
    ensures { IfOk result (λ copies. map (λ copy. copy.items) copies.items ≡ map (λ f. f.now) fields.now) }
{
    let mut copies = Vec::new(alloc);
    for field in fields {
        copies.push(field.to_vec(alloc)?)?;
    }
    Ok(copies)
}

/// The columns of these names, each under the word that its name makes. [`ListFault::NotText`] is of the first name that is no text.
pub fn columns_of(alloc: Global, names: &[Vec<u8>]) -> Result<Vec<Chosen>, ListFault>
    ensures columns { IfOk result (λ columns. map naming_of columns.items ≡ map by_name (map (λ name. name.items) names.now)) }
    ensures fault { IfErr result (IsListFault (map by_name (map (λ name. name.items) names.now))) }
{
    let fields = lent(alloc, names)?;
    columns_by(alloc, Form::Name, fields.as_slice())
}

/// The columns that a text lists, as a record of CSV: by their names in a file, each under the word that its name makes, or under the
/// word that is made of what stands before a first `=`, as in `UNITS,SUM=Total,"DAY=Order, Day"`. [`ListFault::NotText`] is of
/// the first name that is no text.
pub fn listed_columns(alloc: Global, text: &str) -> Result<Vec<Chosen>, ListFault>
    ensures columns { IfOk result (λ columns. map naming_of columns.items ≡ listed_in text.now) }
    ensures fault { IfErr result (IsListFault (listed_in text.now)) }
{
    let mut records = Records::new(alloc, text.as_bytes(), b',');
    let mut row = ByteRecord::new(alloc);
    if !records.next(&mut row)? {
        return Ok(Vec::new(alloc));
    }
    let fields = fields(alloc, &row)?;
    columns_by(alloc, Form::List, fields.as_slice())
}

/// How a field names a column.
#[derive(Clone, Copy, Debug, PartialEq, Eq, Drop)]
enum Form {
    /// It is the name.
    Name,
    /// It is one of a list, where a word and `=` may stand before the name.
    List,
}

/// The columns that these fields name.
fn columns_by(alloc: Global, form: Form, fields: &[&[u8]]) -> Result<Vec<Chosen>, ListFault>
    ensures columns { IfOk result (λ columns. map naming_of columns.items ≡ map (naming_by form) (map (λ f. f.now) fields.now)) }
    ensures fault { IfErr result (IsListFault (map (naming_by form) (map (λ f. f.now) fields.now))) }
{
    let mut columns = Vec::new(alloc);
    for (place, field) in fields.iter().enumerate() {
        let Some(column) = column_by(alloc, form, field)? else {
            return Err(ListFault::NotText { place });
        };
        columns.push(column)?;
    }
    Ok(columns)
}

/// The column that a field names. None where the name is no text.
fn column_by(alloc: Global, form: Form, field: &[u8]) -> Result<Option<Chosen>, AllocError>
    ensures { IfOk result (IsColumn (naming_by form field.now)) }
{
    match form {
        Form::Name => chosen(alloc, field, field),
        Form::List => match equals_sign(field) {
            Some(at) => chosen(alloc, &field[at + 1..], &field[..at]),
            None => chosen(alloc, field, field),
        },
    }
}

/// The place of the first `=`.
fn equals_sign(field: &[u8]) -> Option<usize>
    ensures place { result ≡ position (λ byte. byte == 61) field.now }
    ensures within { IfSome result (λ at. at < length field.now) }
{
    field.iter().position(|byte| *byte == b'=')
}

/// A column of this name, under the word that another name makes. None where the name is no text.
#[tactic(auto, using(crate::proofs::ListedLemmas::is_text, crate::proofs::ListedLemmas::no_text))]
fn chosen(alloc: Global, name: &[u8], other: &[u8]) -> Result<Option<Chosen>, AllocError>
    ensures { IfOk result (IsColumn (record { name = name.now; word = word_of other.now })) }
{
    let Ok(text) = str::from_utf8(name) else {
        return Ok(None);
    };
    let name = Text::copied(alloc, text)?;
    let word = word_text(alloc, other)?;
    Ok(Some(Chosen { name, word }))
}

/// Those of the columns whose words are tokens of a query. The only error is that a growth was refused.
pub fn named_columns(
    alloc: Global,
    columns: Vec<Chosen>,
    query: &[Token],
) -> Result<Vec<Chosen>, AllocError>
    ensures { IfOk result (λ named. named.items ≡ filter (is_named query.now) columns.items) }
{
    columns
        .into_iter()
        .filter(|column| is_named(query, column))
        .collect(alloc)
}

/// Whether the word of a column is a token of a query.
fn is_named(query: &[Token], column: &Chosen) -> bool
    ensures { result ≡ is_named query.now column.now }
{
    query.iter().any(|token| is_word(&column.word, token))
}

fn is_word(word: &Text, token: &Token) -> bool
    ensures { result ≡ is_word word.now token.now }
{
    match token {
        Token::Word(text) => word == text,
        _ => false,
    }
}

/// The place of the first column that has the word of an earlier one, where the first is 0. None exactly where the words differ.
pub fn first_again(columns: &[Chosen]) -> Option<usize>
    ensures none { IfNone result (IsDistinct bytes_eq (words_in columns.now)) }
    ensures some { IfSome result (IsAgain columns.now) }
{
    for (place, column) in columns.iter().enumerate() {
        if has_word(&columns[..place], &column.word) {
            return Some(place);
        }
    }
    None
}

/// Whether a column has the word.
fn has_word(columns: &[Chosen], word: &Text) -> bool
    ensures { result ≡ list_any (λ c. bytes_eq word.now c.word) columns.now }
{
    columns.iter().any(|column| *word == column.word)
}
