//! Why the text of a table spells no schema.
ghost use Rattle.std.specs.Prelude.{◌≤◌, IfSome, length};

use crate::line_fault::{Found, LineFault, refused_token, slip_in};
use cells::{MAX_COLUMNS, Mark, Text, Token, TokenFault, is_reserved, tokens};
use std::alloc::{AllocError, Global};

/// Why a text spells no schema.
pub fn schema_fault(alloc: Global, text: &str) -> Result<Found, AllocError> {
    match tokens(alloc, text) {
        Ok(tokens) => tokens_fault(alloc, text, tokens.as_slice()),
        Err(TokenFault::Bad) => slip_in(alloc, text),
        Err(TokenFault::Memory) => Err(AllocError),
    }
}

/// A place between the tokens of a schema, by what comes next.
#[derive(Clone, Copy, PartialEq, Eq)]
enum Step {
    TableName,
    Open,
    ColumnName,
    Type,
    AfterType,
    AfterKey,
    End,
}

/// The same of tokens.
fn tokens_fault(alloc: Global, text: &str, tokens: &[Token]) -> Result<Found, AllocError> {
    if let Some((number, why)) = refused_at(tokens) {
        return refused_token(alloc, text.as_bytes(), number, why);
    }
    if let Some(number) = second_name_at(alloc, tokens)? {
        return refused_token(alloc, text.as_bytes(), number, "two columns have this name");
    }
    if let Some(number) = second_key_at(tokens) {
        return refused_token(
            alloc,
            text.as_bytes(),
            number,
            "one column alone is the KEY",
        );
    }
    let columns = column_count(tokens);
    if columns > MAX_COLUMNS {
        return Ok(Found::whole(LineFault::TooMany {
            found: columns as u64,
            what: "columns",
            most: MAX_COLUMNS as u64,
        }));
    }
    Ok(Found::whole(LineFault::Plain("no column is the KEY")))
}

/// The index of the first token that goes on with no schema, whatever follows, and what may stand there; their number
/// where a schema goes on behind them. None where they have the form of one.
fn refused_at(tokens: &[Token]) -> Option<(usize, &'static str)>
    ensures { IfSome result (λ x. x.0 ≤ length tokens.now) }
{
    let mut step = Step::TableName;
    for (at, token) in tokens.iter().enumerate() {
        match after(step, token) {
            Some(next) => step = next,
            None => return Some((at, wanted(step, token))),
        }
    }
    if step == Step::End {
        return None;
    }
    Some((tokens.len(), expected(step)))
}

/// The step behind a token.
fn after(step: Step, token: &Token) -> Option<Step> {
    match token {
        Token::Word(word) => after_word(step, word.as_str()),
        Token::Mark(mark) => after_mark(step, *mark),
        _ => None,
    }
}

fn after_word(step: Step, word: &str) -> Option<Step> {
    match step {
        Step::TableName if !is_reserved(word) => Some(Step::Open),
        Step::ColumnName if !is_reserved(word) => Some(Step::Type),
        Step::Type if word == "INT" || word == "TEXT" => Some(Step::AfterType),
        Step::AfterType if word == "KEY" => Some(Step::AfterKey),
        _ => None,
    }
}

fn after_mark(step: Step, mark: Mark) -> Option<Step> {
    match step {
        Step::Open if mark == Mark::LeftParen => Some(Step::ColumnName),
        Step::AfterType | Step::AfterKey => after_column(mark),
        _ => None,
    }
}

fn after_column(mark: Mark) -> Option<Step> {
    match mark {
        Mark::Comma => Some(Step::ColumnName),
        Mark::RightParen => Some(Step::End),
        _ => None,
    }
}

/// What to say of a token that may not stand at a step.
fn wanted(step: Step, token: &Token) -> &'static str {
    match token {
        Token::Word(word)
            if is_reserved(word.as_str())
                && (step == Step::TableName || step == Step::ColumnName) => {
            "a reserved word is no name"
        }
        _ => expected(step),
    }
}

/// What may stand at a step.
fn expected(step: Step) -> &'static str {
    match step {
        Step::TableName => "the name of the table should stand here",
        Step::Open => "( should stand here",
        Step::ColumnName => "the name of a column should stand here",
        Step::Type => "the type of the column, INT or TEXT, should stand here",
        Step::AfterType => "KEY, a comma or ) should stand here",
        Step::AfterKey => "a comma or ) should stand here",
        Step::End => "the table should end here",
    }
}

/// The index of the first token that is the name of a column and of one before it.
fn second_name_at(alloc: Global, tokens: &[Token]) -> Result<Option<usize>, AllocError> {
    let mut names: Vec<&Text> = Vec::new(alloc);
    let mut is_name = false;
    for (at, token) in tokens.iter().enumerate() {
        if let Token::Word(word) = token {
            if is_name {
                if names.len() < MAX_COLUMNS {
                    if is_among(names.as_slice(), word) {
                        return Ok(Some(at));
                    }
                    names.push(word)?;
                }
            }
        }
        is_name = matches!(token, Token::Mark(Mark::LeftParen | Mark::Comma));
    }
    Ok(None)
}

/// Whether the name is one of these.
fn is_among(names: &[&Text], name: &Text) -> bool {
    names.iter().any(|other| **other == *name)
}

/// The index of the second KEY.
fn second_key_at(tokens: &[Token]) -> Option<usize> {
    let mut is_keyed = false;
    for (at, token) in tokens.iter().enumerate() {
        if is_key(token) {
            if is_keyed {
                return Some(at);
            }
            is_keyed = true;
        }
    }
    None
}

fn is_key(token: &Token) -> bool {
    match token {
        Token::Word(word) => word.as_str() == "KEY",
        _ => false,
    }
}

/// How many columns the tokens define: one more than they have commas.
fn column_count(tokens: &[Token]) -> usize {
    tokens
        .iter()
        .filter(|token| matches!(token, Token::Mark(Mark::Comma)))
        .count()
        .saturating_add(1)
}
