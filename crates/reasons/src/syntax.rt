//! Where tokens stop being the beginning of a query, and what may stand there.
ghost use Rattle.std.specs.Prelude.{◌≤◌, IfSome, length};

use crate::grammar::{KINDS, Kind, Step, kind_of, step_behind, word_of};
use cells::{Mark, Token};
use std::alloc::{AllocError, Global};

/// A place between the tokens of a query.
#[derive(Clone, Copy)]
pub struct Place {
    step: Step,
    /// The step behind the operand that is read.
    behind: Step,
    /// Whether HAVING came.
    having: bool,
    /// How many parentheses of predicates or of GROUPING SETS are open.
    open: usize,
}

/// The index of the first token that goes on with no query, whatever follows, and the place before it; their number
/// where all of them begin a query and are none. None where they are a query.
///
/// That this is the longest beginning of the tokens that begins a query is tested against the reader of queries, and not
/// proved. Its time is linear in the number of tokens, and it takes no memory.
pub fn refused_at(tokens: &[Token]) -> Option<(usize, Place)>
    ensures { IfSome result (λ x. x.0 ≤ length tokens.now) }
{
    let mut place = Place {
        step: Step::Select,
        behind: Step::AfterItem,
        having: false,
        open: 0,
    };
    for (at, token) in tokens.iter().enumerate() {
        match place.after(kind_of(token)) {
            Some(next) => place = next,
            None => return Some((at, place)),
        }
    }
    if place.may_end() {
        return None;
    }
    Some((tokens.len(), place))
}

impl Place {
    /// The place behind a token of this kind. None where no query goes on so.
    fn after(self, kind: Kind) -> Option<Place> {
        if let Some(place) = self.after_operand(kind) {
            return Some(place);
        }
        let step = step_behind(self.step, kind)?;
        let place = match step {
            Step::AfterOperand => Place {
                step: self.behind,
                ..self
            },
            _ => Place { step, ..self },
        };
        place.counted(self.step, kind)
    }

    /// The place behind the first token of an operand, where one may stand here.
    fn after_operand(self, kind: Kind) -> Option<Place> {
        let behind = behind_operand(self.step)?;
        let step = match kind {
            Kind::Name => behind,
            Kind::Literal if !self.is_item() => behind,
            Kind::Count if self.has_calls() => Step::CountOpen,
            Kind::Fold if self.has_calls() => Step::CallOpen,
            Kind::Grouping if self.has_calls() => Step::GroupingOpen,
            _ => return None,
        };
        Some(Place {
            step,
            behind,
            ..self
        })
    }

    /// This place behind a token of the kind that stood behind the step, with parentheses counted. None where the token
    /// closes none or a clause begins within one, or after HAVING.
    fn counted(self, from: Step, kind: Kind) -> Option<Place> {
        match kind {
            Kind::Open if is_nested(from) => Some(Place {
                open: self.open.checked_add(1)?,
                ..self
            }),
            Kind::Close if is_nesting(from) => Some(Place {
                open: self.open.checked_sub(1)?,
                ..self
            }),
            Kind::Group if self.open > 0 || self.having => None,
            Kind::Having if self.open > 0 || self.having => None,
            Kind::Having => Some(Place {
                having: true,
                ..self
            }),
            _ => Some(self),
        }
    }

    fn is_item(self) -> bool {
        matches!(self.step, Step::Item)
    }

    /// Whether an operand here may be an aggregate or a GROUPING.
    fn has_calls(self) -> bool {
        self.having || self.is_item()
    }

    /// Whether an operand may stand here.
    fn has_operand(self) -> bool {
        behind_operand(self.step).is_some()
    }

    /// Whether a query may end here.
    fn may_end(self) -> bool {
        match self.step {
            Step::AfterTable => true,
            Step::AfterTest | Step::AfterElement => self.open == 0,
            _ => false,
        }
    }

    /// What may stand here, as a list of words.
    pub fn expected(self, alloc: Global) -> Result<String, AllocError> {
        let mut words = Vec::new(alloc);
        for kind in &KINDS {
            if self.after(*kind).is_some() {
                words.push(word_of(*kind))?;
            }
        }
        if self.may_end() {
            words.push("the end")?;
        }
        listed(alloc, words.as_slice())
    }

    /// What to say of a token here that is a habit from elsewhere, in place of what may stand here.
    pub fn habit(self, token: &Token) -> Option<&'static str> {
        match token {
            Token::Word(word) => self.habit_of_word(word.as_str()),
            Token::Mark(mark) => self.habit_of_mark(*mark),
            _ => None,
        }
    }

    fn habit_of_word(self, word: &str) -> Option<&'static str> {
        match word {
            "ORDER" | "LIMIT" | "UNION" if self.may_end() => { Some("the query should end here") }
            "AS" => Some("items and tables have no other names"),
            "JOIN" | "INNER" | "LEFT" => { Some("a query reads one table, and there are no joins") }
            "LIKE" => Some("texts are compared whole, and there is no LIKE"),
            "INT" | "TEXT" | "KEY" => Some("a reserved word is no name"),
            _ if self.has_operand() => self.habit_at_operand(word),
            _ => None,
        }
    }

    fn habit_at_operand(self, word: &str) -> Option<&'static str> {
        match word {
            "NULL" => Some("NULL is tested by IS NULL"),
            "DISTINCT" if self.is_item() => Some(
                "each group has one row, and SELECT has no DISTINCT",
            ),
            "COUNT" | "SUM" | "MIN" | "MAX" | "GROUPING" => {
                Some("aggregates and GROUPING stand in the select list and in HAVING")
            }
            _ => None,
        }
    }

    fn habit_of_mark(self, mark: Mark) -> Option<&'static str> {
        match mark {
            Mark::Asterisk if self.is_item() => {
                Some("columns are named one by one, and rows are counted by COUNT(*)")
            }
            Mark::LeftParen if matches!(self.step, Step::AfterItem | Step::AfterLeft) => {
                Some("the functions are COUNT, SUM, MIN, MAX and GROUPING")
            }
            Mark::Equals if matches!(self.step, Step::Right) => Some("equal is written ="),
            _ => None,
        }
    }
}

/// The step behind an operand at this one. None where no operand stands.
fn behind_operand(step: Step) -> Option<Step> {
    match step {
        Step::Item => Some(Step::AfterItem),
        Step::Condition | Step::AfterNot => Some(Step::AfterLeft),
        Step::Low => Some(Step::AfterLow),
        Step::Right | Step::High => Some(Step::AfterTest),
        _ => None,
    }
}

/// Whether a `(` here opens a predicate or a GROUPING SETS.
fn is_nested(step: Step) -> bool {
    matches!(step, Step::Condition | Step::AfterNot | Step::SetsOpen)
}

/// Whether a `)` here closes one.
fn is_nesting(step: Step) -> bool {
    matches!(step, Step::AfterTest | Step::AfterElement)
}

/// The words with commas between, and `or` before the last one.
fn listed(alloc: Global, words: &[&str]) -> Result<String, AllocError> {
    let mut list = String::new(alloc);
    for (place, word) in words.iter().enumerate() {
        if place > 0 {
            list.push_str(if place.saturating_add(1) == words.len() {
                " or "
            } else {
                ", "
            })?;
        }
        list.push_str(word)?;
    }
    Ok(list)
}
