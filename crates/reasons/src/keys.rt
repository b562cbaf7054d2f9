//! Why the rest of a `delete` line is no key.

use crate::line_fault::{Found, refused_token, slip_in};
use cells::{ColumnType, Schema, Token, TokenFault, tokens};
use std::alloc::{AllocError, Global};

/// Why a text is not exactly one literal of the key's type.
pub fn key_fault(alloc: Global, text: &str, schema: &Schema) -> Result<Found, AllocError> {
    let kind = schema.columns()[schema.key()].kind;
    match tokens(alloc, text) {
        Ok(tokens) => {
            let number = usize::from(begins_with_key(kind, tokens.as_slice()));
            refused_token(alloc, text.as_bytes(), number, wanted(kind, number))
        }
        Err(TokenFault::Bad) => slip_in(alloc, text),
        Err(TokenFault::Memory) => Err(AllocError),
    }
}

/// Whether the first token is a literal of the type.
fn begins_with_key(kind: ColumnType, tokens: &[Token]) -> bool {
    match tokens {
        [Token::Number(_), ..] => kind == ColumnType::Int,
        [Token::Quoted(_), ..] => kind == ColumnType::Text,
        _ => false,
    }
}

/// What should stand at the token of this number.
fn wanted(kind: ColumnType, number: usize) -> &'static str {
    if number > 0 {
        return "the line should end here";
    }
    match kind {
        ColumnType::Int => "the key, a number, should stand here",
        ColumnType::Text => "the key, a text in single quotes, should stand here",
    }
}
