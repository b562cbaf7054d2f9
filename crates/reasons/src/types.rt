//! Integers beside texts in a query, and sums of texts. The tokens are a query, and its names are columns.

use crate::names::{Clause, column_of, is_aggregate};
use cells::{ColumnType, Mark, Schema, Token, is_reserved};

/// What of a query has another type than it needs.
#[derive(Clone, Copy)]
pub enum TypeFault {
    /// SUM of a text column.
    SumOfTexts,
    /// An operand that is a text, in a test that has an integer before it.
    TextBesideInteger,
    /// An operand that is an integer, in a test that has a text before it.
    IntegerBesideText,
}

impl TypeFault {
    /// What is wrong, in words.
    pub fn words(self) -> &'static str {
        match self {
            TypeFault::SumOfTexts => "a column of texts has no sum",
            TypeFault::TextBesideInteger => "a text is compared with an integer",
            TypeFault::IntegerBesideText => "an integer is compared with a text",
        }
    }
}

/// How far the tests of a query were read.
#[derive(Clone, Copy)]
struct Reading {
    clause: Clause,
    /// The type of the operands of the test that is read, once one came.
    kind: Option<ColumnType>,
    /// Whether the next AND is that of a BETWEEN.
    is_between: bool,
}

/// The index of the first token of the query that has another type than it needs.
pub fn first_mistyped(tokens: &[Token], schema: &Schema) -> Option<(usize, TypeFault)> {
    let mut reading = Reading {
        clause: Clause::Select,
        kind: None,
        is_between: false,
    };
    let mut passed = 0usize;
    for at in 0..tokens.len() {
        if passed > 0 {
            passed -= 1;
            continue;
        }
        let rest = &tokens[at..];
        if let Some(fault) = sum_fault(rest, schema) {
            return Some((at.saturating_add(2), fault));
        }
        let (kind, len) = operand(rest, schema);
        match kind {
            Some(kind) if reading.has_tests() => {
                if let Some(fault) = mismatch(reading.kind, kind) {
                    return Some((at, fault));
                }
                reading.kind = Some(kind);
            }
            _ => reading = reading.behind(rest),
        }
        passed = len.saturating_sub(1);
    }
    None
}

impl Reading {
    /// Whether tests are read.
    fn has_tests(self) -> bool {
        self.clause == Clause::Where || self.clause == Clause::Having
    }

    /// What is known behind the first of these tokens, which begins no operand.
    fn behind(self, tokens: &[Token]) -> Reading {
        match tokens {
            [Token::Word(word), ..] => self.behind_word(word.as_str()),
            [Token::Mark(Mark::RightParen), ..] => self.behind_test(),
            _ => self,
        }
    }

    fn behind_word(self, word: &str) -> Reading {
        match word {
            "BETWEEN" => Reading {
                is_between: true,
                ..self
            },
            "AND" if self.is_between => Reading {
                is_between: false,
                ..self
            },
            "AND" | "OR" => self.behind_test(),
            _ => {
                let clause = self.clause.behind(word);
                if clause == self.clause {
                    return self;
                }
                Reading {
                    clause,
                    ..self.behind_test()
                }
            }
        }
    }

    fn behind_test(self) -> Reading {
        Reading { kind: None, ..self }
    }
}

/// The fault of a sum with which the tokens begin.
fn sum_fault(tokens: &[Token], schema: &Schema) -> Option<TypeFault> {
    match tokens {
        [
            Token::Word(word),
            Token::Mark(Mark::LeftParen),
            Token::Word(name),
            ..
        ] if word.as_str() == "SUM" && type_of(schema, name.as_str()) == ColumnType::Text => {
            Some(TypeFault::SumOfTexts)
        }
        _ => None,
    }
}

/// The fault of an operand of this type, where one of another type stands before it in its test.
fn mismatch(before: Option<ColumnType>, kind: ColumnType) -> Option<TypeFault> {
    match before {
        Some(ColumnType::Int) if kind == ColumnType::Text => Some(TypeFault::TextBesideInteger),
        Some(ColumnType::Text) if kind == ColumnType::Int => Some(TypeFault::IntegerBesideText),
        _ => None,
    }
}

/// The type of the operand with which the tokens begin, and how many tokens it has. None where they begin with none.
fn operand(tokens: &[Token], schema: &Schema) -> (Option<ColumnType>, usize) {
    match tokens {
        [Token::Number(_), ..] => (Some(ColumnType::Int), 1),
        [Token::Quoted(_), ..] => (Some(ColumnType::Text), 1),
        [Token::Word(word), Token::Mark(Mark::LeftParen), first, ..] if is_call(word.as_str()) => {
            let len = tokens.iter().position(is_close).unwrap_or(0);
            (
                Some(call_type(word.as_str(), first, schema)),
                len.saturating_add(1),
            )
        }
        [Token::Word(word), ..] if !is_reserved(word.as_str()) => {
            (Some(type_of(schema, word.as_str())), 1)
        }
        _ => (None, 1),
    }
}

fn is_close(token: &Token) -> bool {
    matches!(token, Token::Mark(Mark::RightParen))
}

/// Whether a parenthesis behind the word makes an item.
fn is_call(word: &str) -> bool {
    is_aggregate(word) || word == "GROUPING"
}

/// The type of an item of this word, by what stands first in its parentheses.
fn call_type(word: &str, first: &Token, schema: &Schema) -> ColumnType {
    match first {
        Token::Word(name) if word == "MIN" || word == "MAX" => type_of(schema, name.as_str()),
        _ => ColumnType::Int,
    }
}

/// The type of the column of this name; INT where there is none.
fn type_of(schema: &Schema, name: &str) -> ColumnType {
    match schema
        .columns()
        .iter()
        .find(|column| column.name.as_str() == name)
    {
        Some(column) => column.kind,
        None => ColumnType::Int,
    }
}
