//! The schema of a table, and how it is read.
ghost use Rattle.std.specs.Prelude.{◌≡◌, ◌<◌, ◌≤◌, ◌⊎◌, ◌↔◌, List, [], ◌∷◌, IfOk, IfErr, IsTrue, MatchOption, Some, bytes_eq, count_by, length, map, position};
ghost use Rattle.std.specs.Bool.{Decides};
ghost use Rattle.std.specs.List.{IsDistinct, list_any};
ghost use Rattle.cells.specs.Limits.{column_limit};
ghost use Rattle.cells.specs.Reading.{schema_of};
ghost use Rattle.cells.specs.Refusals.{Answers, AnswersBy};
ghost use Rattle.cells.specs.SchemaReading.{BeginsNot, SpellsColumns, definition_at, key_mark, key_place, mark_token, type_of};
ghost use Rattle.cells.specs.Schemas.{SpellsSchema, TextSpellsSchema, is_reserved};
ghost use Rattle.cells.specs.Values.{Table};

use crate::limits::MAX_COLUMNS;
use crate::refused::Refused;
use crate::scan::tokens_or;
use crate::text::Text;
use crate::token::{Mark, Token};
use std::alloc::{AllocError, Global};
use std::marker::Model;

/// What the cells of a column are, beside NULL.
#[derive(Clone, Copy, Debug, PartialEq, Eq, Drop)]
pub enum ColumnType {
    Int,
    Text,
}

/// A column: its name in upper case, and its type.
#[derive(Debug, Drop)]
pub struct Column {
    pub name: Text,
    pub kind: ColumnType,
}

/// A table's name, its columns of different names, of which there are 1 to [`MAX_COLUMNS`], and the
/// place of the key column.
#[derive(Debug, Drop)]
pub struct Schema {
    name: Text,
    columns: Vec<Column>,
    key: usize,
}

impl Model for Schema {
    ghost use Rattle.std.specs.Prelude.{◌<◌, ◌≤◌, length};
    ghost use Rattle.cells.specs.Limits.{column_limit};
    ghost use Rattle.cells.specs.Values.{Table};

    ghost Value = { Table };

    ghost view = { λ s. record { name = s.name; columns = s.columns.items; key = s.key } };

    ghost invariant = { λ s. (s.key < length s.columns.items) × (length s.columns.items ≤ column_limit) };
}

/// A column definition: a column, and whether KEY stands behind it.
#[derive(Debug, Drop)]
struct ColumnDefinition {
    column: Column,
    is_key: bool,
}

impl Schema {
    /// Reads the text of a `table` line behind its command word: `NAME (COLUMN TYPE [KEY], ..)`
    /// with 1 to [`MAX_COLUMNS`] columns of different names, types INT and TEXT, and KEY at exactly one
    /// column. The table's name may equal a column's name. A reserved word is no name.
    ///
    /// [`Refused::BadSchema`] exactly where the text spells no schema, [`Refused::OutOfMemory`]
    /// where a growth was refused.
    pub fn read(alloc: Global, text: &str) -> Result<Schema, Refused>
        // What is read is spelt so.
        ensures found { IfOk result (λ schema. TextSpellsSchema text.now schema) }
        // What is spelt so is read, unless memory is wanting: the text spells no other schema.
        ensures only { (t : Table) → TextSpellsSchema text.now t → Answers Refused.BadSchema (Some t) result }
        ensures refused { IfErr result (λ e. (e ≡ Refused.BadSchema) ⊎ (e ≡ Refused.OutOfMemory)) }
        // The answer as a function of the text.
        ensures exact { Answers Refused.BadSchema (schema_of text.now) result }
    {
        let found = tokens_or(alloc, text, Refused::BadSchema)?;
        schema_of(alloc, found.as_slice())
    }

    /// The table's name, in upper case.
    pub fn name(&self) -> &str
        ensures { result.now ≡ self.now.name }
    {
        self.name.as_str()
    }

    /// The columns, in the order of their definitions.
    pub fn columns(&self) -> &[Column]
        ensures { result.now ≡ self.now.columns }
    {
        self.columns.as_slice()
    }

    /// How many columns it has: at most [`MAX_COLUMNS`].
    pub(crate) fn width(&self) -> usize
        ensures value { result ≡ length self.now.columns }
        ensures few { result ≤ column_limit }
    {
        self.columns.len()
    }

    /// The place of the key column among [`columns`](Schema::columns), counted from 0.
    pub fn key(&self) -> usize
        ensures place { result ≡ self.now.key }
        ensures within { result < length self.now.columns }
    {
        self.key
    }
}

/// The schema that the tokens spell.
fn schema_of(alloc: Global, tokens: &[Token]) -> Result<Schema, Refused>
    ensures found { IfOk result (λ schema. SpellsSchema tokens.now schema) }
    ensures only { (t : Table) → SpellsSchema tokens.now t → Answers Refused.BadSchema (Some t) result }
    ensures refused { IfErr result (λ e. (e ≡ Refused.BadSchema) ⊎ (e ≡ Refused.OutOfMemory)) }
{
    let [Token::Word(name), Token::Mark(Mark::LeftParen), rest @ ..] = tokens else {
        return Err(Refused::BadSchema);
    };
    if is_reserved(name.as_str()) {
        return Err(Refused::BadSchema);
    }
    let definitions = column_definitions(alloc, rest)?;
    if definitions.len() > MAX_COLUMNS {
        return Err(Refused::BadSchema);
    }
    let Some(key) = key_place(definitions.as_slice()) else {
        return Err(Refused::BadSchema);
    };
    let columns = columns_of(alloc, definitions)?;
    if !are_different(columns.as_slice()) {
        return Err(Refused::BadSchema);
    }
    let name = name.clone()?;
    Ok(Schema { name, columns, key })
}

/// The column definitions up to the `)` that ends the tokens.
fn column_definitions(alloc: Global, tokens: &[Token]) -> Result<Vec<ColumnDefinition>, Refused>
    ensures found { IfOk result (λ ds. SpellsColumns tokens.now ds.items) }
    ensures only { (ds : List ColumnDefinition) → SpellsColumns tokens.now ds → AnswersBy (λ v. v.items) Refused.BadSchema (Some ds) result }
    ensures refused { IfErr result (λ e. (e ≡ Refused.BadSchema) ⊎ (e ≡ Refused.OutOfMemory)) }
{
    let mut found = Vec::new(alloc);
    let mut rest = tokens;
    loop {
        let (definition, behind) = column_definition(rest)?;
        found.push(definition)?;
        let Some(more) = after_mark(behind, Mark::Comma) else {
            if is_end(behind) {
                return Ok(found);
            }
            return Err(Refused::BadSchema);
        };
        rest = more;
    }
}

/// What follows the sign, where the tokens begin with it.
fn after_mark(tokens: &[Token], mark: Mark) -> Option<&[Token]>
    ensures { MatchOption result (BeginsNot mark tokens.now) (λ rest. tokens.now ≡ mark_token mark ∷ rest.now) }
{
    let (first, rest) = tokens.split_first()?;
    match first {
        Token::Mark(found) if *found == mark => Some(rest),
        _ => None,
    }
}

/// Whether the tokens are the `)` that ends a schema.
fn is_end(tokens: &[Token]) -> bool
    ensures { Decides result (tokens.now ≡ mark_token Mark.RightParen ∷ []) }
{
    match after_mark(tokens, Mark::RightParen) {
        Some(rest) => rest.is_empty(),
        None => false,
    }
}

/// The column definition at the front, and what follows it.
#[tactic(auto, unfolding(crate::specs::SchemaReading::definition_at))]
fn column_definition(tokens: &[Token]) -> Result<(ColumnDefinition, &[Token]), Refused>
    ensures { AnswersBy (λ x. (x.0, x.1.now)) Refused.BadSchema (definition_at tokens.now) result }
{
    let [Token::Word(name), Token::Word(word), rest @ ..] = tokens else {
        return Err(Refused::BadSchema);
    };
    if is_reserved(name.as_str()) {
        return Err(Refused::BadSchema);
    }
    let Some(kind) = column_type(word.as_str()) else {
        return Err(Refused::BadSchema);
    };
    let (is_key, behind) = key_mark(rest);
    let column = Column {
        name: name.clone()?,
        kind,
    };
    Ok((ColumnDefinition { column, is_key }, behind))
}

/// Whether the tokens begin with KEY, and what follows the word or else the tokens themselves.
fn key_mark(tokens: &[Token]) -> (bool, &[Token])
    ensures { (result.0, result.1.now) ≡ key_mark tokens.now }
{
    match tokens {
        [Token::Word(word), rest @ ..] if word.as_str() == "KEY" => (true, rest),
        _ => (false, tokens),
    }
}

/// The type that a word names.
fn column_type(word: &str) -> Option<ColumnType>
    ensures { result ≡ type_of word.now }
{
    if word == "INT" {
        Some(ColumnType::Int)
    } else if word == "TEXT" {
        Some(ColumnType::Text)
    } else {
        None
    }
}

/// Whether the word, in upper case, is never a name: it is one of the language's own.
pub fn is_reserved(word: &str) -> bool
    ensures { result ≡ is_reserved word.now }
{
    is_among(word, &RESERVED_WORDS)
}

/// Whether the word is one of the words.
fn is_among(word: &str, words: &[&str]) -> bool
    ensures { result ≡ list_any (λ w. bytes_eq word.now w.now) words.now }
{
    words.iter().any(|other| word == *other)
}

const RESERVED_WORDS: [&str; 25] = [
    "SELECT", "FROM", "WHERE", "GROUP", "BY", "HAVING", "ROLLUP", "CUBE", "GROUPING", "SETS",
    "COUNT", "SUM", "MIN", "MAX", "DISTINCT", "AND", "OR", "NOT", "IS", "NULL", "BETWEEN", "IN",
    "INT", "TEXT", "KEY",
];

/// The place of the key, where there is exactly one.
fn key_place(definitions: &[ColumnDefinition]) -> Option<usize>
    ensures { result ≡ key_place definitions.now }
{
    if key_count(definitions) == 1 {
        first_key(definitions)
    } else {
        None
    }
}

fn key_count(definitions: &[ColumnDefinition]) -> usize
    ensures { result ≡ count_by (λ d. d.is_key) definitions.now }
{
    definitions.iter().filter(|d| d.is_key).count()
}

fn first_key(definitions: &[ColumnDefinition]) -> Option<usize>
    ensures { result ≡ position (λ d. d.is_key) definitions.now }
{
    definitions.iter().position(|d| d.is_key)
}

/// The columns without their marks.
fn columns_of(alloc: Global, definitions: Vec<ColumnDefinition>) -> Result<Vec<Column>, AllocError>
    ensures { IfOk result (λ columns. columns.items ≡ map (λ d. d.column) definitions.items) }
{
    definitions
        .into_iter()
        .map(|definition| {
            let ColumnDefinition { column, is_key: _ } = definition;
            column
        })
        .collect(alloc)
}

/// Whether no two columns have one name.
fn are_different(columns: &[Column]) -> bool
    ensures { IsTrue result ↔ IsDistinct bytes_eq (map (λ c. c.name) columns.now) }
{
    for (i, column) in columns.iter().enumerate() {
        if has_name(&columns[..i], &column.name) {
            return false;
        }
    }
    true
}

/// Whether a column has the name.
fn has_name(columns: &[Column], name: &Text) -> bool
    ensures { result ≡ list_any (λ c. bytes_eq name.now c.name) columns.now }
{
    columns.iter().any(|column| *name == column.name)
}
