//! Why a query is refused, by the rule that it breaks.

use crate::line_fault::{Found, LineFault, refused_token, slip_in, token_at};
use crate::names::{Clause, first_ungrouped, first_unknown};
use crate::query_limits::limit_fault;
use crate::shown::shown;
use crate::syntax::refused_at;
use crate::types::first_mistyped;
use cells::{Refused, Schema, Token, TokenFault, tokens};
use query::MAX_QUERY_BYTES;
use std::alloc::{AllocError, Global};

/// Why the query of this text is refused by a rule, over a table.
pub fn query_fault(
    alloc: Global,
    text: &str,
    schema: &Schema,
    rule: Refused,
) -> Result<Found, AllocError> {
    if text.len() > MAX_QUERY_BYTES {
        return Ok(Found::whole(LineFault::TooMany {
            found: text.len() as u64,
            what: "bytes of a query",
            most: MAX_QUERY_BYTES as u64,
        }));
    }
    match tokens(alloc, text) {
        Ok(tokens) => tokens_fault(alloc, text, tokens.as_slice(), schema, rule),
        Err(TokenFault::Bad) => slip_in(alloc, text),
        Err(TokenFault::Memory) => Err(AllocError),
    }
}

/// The same of tokens.
fn tokens_fault(
    alloc: Global,
    text: &str,
    tokens: &[Token],
    schema: &Schema,
    rule: Refused,
) -> Result<Found, AllocError> {
    match rule {
        Refused::QuerySyntax => syntax_fault(alloc, text, tokens),
        Refused::Unknown => unknown_fault(alloc, text, tokens, schema),
        Refused::NotGrouped => grouping_fault(alloc, text, tokens, schema),
        Refused::WrongType => type_fault(alloc, text, tokens, schema),
        Refused::TooManySets => Ok(Found::whole(LineFault::Plain(
            "GROUP BY has more than 256 grouping sets",
        ))),
        _ => Ok(limit_fault(text.as_bytes(), tokens)),
    }
}

/// Where the tokens stop being the beginning of a query, and what may stand there.
fn syntax_fault(alloc: Global, text: &str, tokens: &[Token]) -> Result<Found, AllocError> {
    let Some((number, place)) = refused_at(tokens) else {
        return Ok(Found::whole(LineFault::Plain("the text is no query")));
    };
    if let Some(why) = tokens.get(number).and_then(|token| place.habit(token)) {
        return refused_token(alloc, text.as_bytes(), number, why);
    }
    let wanted = place.expected(alloc)?;
    let (place, found) = token_at(alloc, text.as_bytes(), number)?;
    Ok(Found::at(place, LineFault::Other { found, wanted }))
}

/// The first name that the table does not have.
fn unknown_fault(
    alloc: Global,
    text: &str,
    tokens: &[Token],
    schema: &Schema,
) -> Result<Found, AllocError> {
    let Some((number, clause)) = first_unknown(tokens, schema) else {
        return Ok(Found::whole(LineFault::Plain("a name is not of the table")));
    };
    let (place, found) = token_at(alloc, text.as_bytes(), number)?;
    if clause == Clause::From {
        let table = shown(alloc, schema.name())?;
        return Ok(about(place, found, "the table is", table));
    }
    let clause = String::from_str(alloc, clause.name())?;
    Ok(about(place, found, "no column of the table, in", clause))
}

/// The first column that is in no grouping set and has to be in one.
fn grouping_fault(
    alloc: Global,
    text: &str,
    tokens: &[Token],
    schema: &Schema,
) -> Result<Found, AllocError> {
    let Some((number, clause)) = first_ungrouped(alloc, tokens, schema)? else {
        return Ok(Found::whole(LineFault::Plain("a column is in no grouping set")));
    };
    let (place, found) = token_at(alloc, text.as_bytes(), number)?;
    let clause = String::from_str(alloc, clause.name())?;
    Ok(about(
        place,
        found,
        "in no grouping set, though it stands in",
        clause,
    ))
}

/// The first token of another type than it needs.
fn type_fault(
    alloc: Global,
    text: &str,
    tokens: &[Token],
    schema: &Schema,
) -> Result<Found, AllocError> {
    match first_mistyped(tokens, schema) {
        Some((number, fault)) => refused_token(alloc, text.as_bytes(), number, fault.words()),
        None => Ok(Found::whole(LineFault::Plain("an integer stands beside a text"))),
    }
}

/// What is wrong with a piece at a place, and what that is about.
fn about(place: usize, found: String, why: &'static str, what: String) -> Found {
    Found::at(place, LineFault::About { found, why, what })
}
