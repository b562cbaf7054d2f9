//! Which limit of a query its tokens pass.

use crate::line_fault::{Found, LineFault};
use crate::names::{Clause, is_aggregate};
use crate::tokens::span_of;
use cells::{Mark, Token};
use query::{MAX_GROUPING_COLUMNS, MAX_ITEMS, MAX_OPEN_PARENTHESES};

/// What was counted up to a token.
#[derive(Clone, Copy)]
struct Counts {
    clause: Clause,
    /// Parentheses that are open.
    open: usize,
    items: usize,
    aggregates: usize,
    /// Names of the GROUPING that is read, 0 outside one.
    names: usize,
}

/// The index of the first token at which more parentheses are open than may be.
fn first_too_deep(tokens: &[Token]) -> Option<usize> {
    let mut opened = 0usize;
    let mut closed = 0usize;
    for (at, token) in tokens.iter().enumerate() {
        match token {
            Token::Mark(Mark::LeftParen) => opened = opened.saturating_add(1),
            Token::Mark(Mark::RightParen) => closed = closed.saturating_add(1),
            _ => {}
        }
        if opened > closed.saturating_add(MAX_OPEN_PARENTHESES) {
            return Some(at);
        }
    }
    None
}

/// The limit that a query of these tokens passes, in this text.
pub fn limit_fault(text: &[u8], tokens: &[Token]) -> Found {
    if let Some(at) = first_too_deep(tokens) {
        let fault = too_many(
            MAX_OPEN_PARENTHESES.saturating_add(1),
            "parentheses open here",
            MAX_OPEN_PARENTHESES,
        );
        return Found::at(span_of(text, at).start, fault);
    }
    let mut counts = Counts {
        clause: Clause::Select,
        open: 0,
        items: 1,
        aggregates: 0,
        names: 0,
    };
    for (at, token) in tokens.iter().enumerate() {
        counts = counts.behind(token);
        if counts.names > MAX_GROUPING_COLUMNS {
            let fault = too_many(
                counts.names,
                "columns up to here in a GROUPING",
                MAX_GROUPING_COLUMNS,
            );
            return Found::at(span_of(text, at).start, fault);
        }
    }
    if counts.items > MAX_ITEMS {
        return Found::whole(too_many(counts.items, "items", MAX_ITEMS));
    }
    Found::whole(too_many(counts.aggregates, "aggregates in HAVING", MAX_ITEMS))
}

/// More of these than there may be.
fn too_many(found: usize, what: &'static str, most: usize) -> LineFault {
    LineFault::TooMany {
        found: found as u64,
        what,
        most: most as u64,
    }
}

impl Counts {
    fn behind(self, token: &Token) -> Counts {
        match token {
            Token::Word(word) => self.behind_word(word.as_str()),
            Token::Mark(mark) => self.behind_mark(*mark),
            _ => self,
        }
    }

    fn behind_word(self, word: &str) -> Counts {
        let clause = self.clause.behind(word);
        if clause == Clause::Having && is_aggregate(word) {
            return Counts {
                aggregates: self.aggregates.saturating_add(1),
                clause,
                ..self
            };
        }
        if clause.has_items() && word == "GROUPING" {
            return Counts {
                names: 1,
                clause,
                ..self
            };
        }
        Counts { clause, ..self }
    }

    fn behind_mark(self, mark: Mark) -> Counts {
        match mark {
            Mark::LeftParen => Counts {
                open: self.open.saturating_add(1),
                ..self
            },
            Mark::RightParen => Counts {
                open: self.open.saturating_sub(1),
                names: 0,
                ..self
            },
            Mark::Comma if self.names > 0 => Counts {
                names: self.names.saturating_add(1),
                ..self
            },
            Mark::Comma if self.clause == Clause::Select && self.open == 0 => Counts {
                items: self.items.saturating_add(1),
                ..self
            },
            _ => self,
        }
    }
}
