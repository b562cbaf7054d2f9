//! The names of a query that a table does not have, and the columns that are in no grouping set. The tokens are a query.
ghost use Rattle.std.specs.Prelude.{◌≡◌, IfSome};
ghost use Rattle.query.specs.Checks.{is_column};
ghost use Rattle.reasons.specs.Names.{IsOtherName, is_unknown};

use cells::{Column, Mark, Schema, Token, is_reserved};
use std::alloc::{AllocError, Global};

/// A clause of a query.
#[derive(Clone, Copy, PartialEq, Eq)]
pub enum Clause {
    Select,
    From,
    Where,
    GroupBy,
    Having,
}

impl Clause {
    /// The clause behind a word, where this one was before it.
    pub fn behind(self, word: &str) -> Clause {
        match word {
            "FROM" => Clause::From,
            "WHERE" => Clause::Where,
            "GROUP" => Clause::GroupBy,
            "HAVING" => Clause::Having,
            _ => self,
        }
    }

    /// Its name in a reason.
    pub fn name(self) -> &'static str {
        match self {
            Clause::Select => "the select list",
            Clause::From => "FROM",
            Clause::Where => "WHERE",
            Clause::GroupBy => "GROUP BY",
            Clause::Having => "HAVING",
        }
    }

    /// Whether it has items.
    pub fn has_items(self) -> bool {
        self == Clause::Select || self == Clause::Having
    }
}

/// The index of the first name of the tokens that the table does not have, and its clause: FROM where it is the name of
/// the table.
pub fn first_unknown(tokens: &[Token], schema: &Schema) -> Option<(usize, Clause)>
    ensures { IfSome result (λ x. IsOtherName schema.now tokens.now x.0) }
{
    let mut clause = Clause::Select;
    for (at, token) in tokens.iter().enumerate() {
        if let Token::Word(word) = token {
            clause = clause.behind(word.as_str());
            if is_unknown(schema, clause == Clause::From, word.as_str()) {
                return Some((at, clause));
            }
        }
    }
    None
}

/// Whether the word is a name that the table does not have: not its own in FROM, and of no column elsewhere.
fn is_unknown(schema: &Schema, of_table: bool, word: &str) -> bool
    ensures { result ≡ is_unknown schema.now of_table word.now }
{
    if is_reserved(word) {
        return false;
    }
    if of_table {
        return word != schema.name();
    }
    !is_column(schema.columns(), word)
}

/// Whether one of the columns has the name.
fn is_column(columns: &[Column], name: &str) -> bool
    ensures { result ≡ is_column columns.now name.now }
{
    columns.iter().any(|column| column.name.as_str() == name)
}

/// The place of the column of this name among those of the table.
pub fn column_of(schema: &Schema, name: &str) -> Option<usize> {
    schema
        .columns()
        .iter()
        .position(|column| column.name.as_str() == name)
}

/// The index of the first column of the tokens that must be in a grouping set and is in none: a column alone in the
/// select list or in HAVING, or one of a GROUPING.
pub fn first_ungrouped(
    alloc: Global,
    tokens: &[Token],
    schema: &Schema,
) -> Result<Option<(usize, Clause)>, AllocError> {
    let grouped = grouped_columns(alloc, tokens, schema)?;
    let mut clause = Clause::Select;
    let mut is_counted = false;
    for (at, token) in tokens.iter().enumerate() {
        match token {
            Token::Word(word) => {
                let word = word.as_str();
                clause = clause.behind(word);
                is_counted = is_counted || is_aggregate(word);
                if clause.has_items() && !is_counted && is_missing(schema, &grouped, word) {
                    return Ok(Some((at, clause)));
                }
            }
            Token::Mark(Mark::RightParen) => is_counted = false,
            _ => {}
        }
    }
    Ok(None)
}

/// Whether the word names an aggregate, whose parenthesis follows it.
pub fn is_aggregate(word: &str) -> bool {
    match word {
        "COUNT" | "SUM" | "MIN" | "MAX" => true,
        _ => false,
    }
}

/// Whether the word is a column that is not among these.
fn is_missing(schema: &Schema, grouped: &[usize], word: &str) -> bool {
    match column_of(schema, word) {
        Some(column) => !grouped.contains(&column),
        None => false,
    }
}

/// The columns that GROUP BY names, each once.
fn grouped_columns(
    alloc: Global,
    tokens: &[Token],
    schema: &Schema,
) -> Result<Vec<usize>, AllocError> {
    let mut found: Vec<usize> = Vec::new(alloc);
    let mut clause = Clause::Select;
    for token in tokens {
        if let Token::Word(word) = token {
            clause = clause.behind(word.as_str());
            if clause == Clause::GroupBy {
                add_column(&mut found, column_of(schema, word.as_str()))?;
            }
        }
    }
    Ok(found)
}

/// Adds the column where there is one that is not there yet.
fn add_column(found: &mut Vec<usize>, column: Option<usize>) -> Result<(), AllocError> {
    if let Some(column) = column {
        if !found.as_slice().contains(&column) {
            found.push(column)?;
        }
    }
    Ok(())
}
