//! Values that are handed on, or let go where something fails. These functions stand over any value, so that where a
//! query or a predicate is owned, letting go of it is one call.
ghost use Rattle.std.specs.Prelude.{◌≡◌, ◌∷◌, Err, MatchResult, None, Ok, Some};
ghost use Rattle.query.specs.Grammar.{rparen};
ghost use Rattle.query.specs.Reading.{BeginsNot};

use crate::phrases::after_mark;
use cells::{Mark, Refused, Token};

/// The value, unless there is a fault.
pub fn unless<T: Drop>(value: T, fault: Option<Refused>) -> Result<T, Refused>
    ensures { MatchResult result (λ x. (x ≡ value) × (fault ≡ None)) (λ e. fault ≡ Some e) }
{
    match fault {
        Some(fault) => Err(fault),
        None => Ok(value),
    }
}

/// The value and what was made, if it was.
pub fn beside<T: Drop, S: Drop, E: Drop>(made: Result<S, E>, value: T) -> Result<(T, S), E>
    ensures { MatchResult result (λ x. (made ≡ Ok x.1) × (x.0 ≡ value)) (λ e. made ≡ Err e) }
{
    match made {
        Ok(other) => Ok((value, other)),
        Err(fault) => Err(fault),
    }
}

/// The value, and what follows the `)` behind it.
pub fn closed<T: Drop>(value: T, tokens: &[Token]) -> Result<(T, &[Token]), Refused>
    ensures { MatchResult result (λ x. (x.0 ≡ value) × (tokens.now ≡ rparen ∷ x.1.now))
        (λ e. (e ≡ Refused.QuerySyntax) × BeginsNot rparen tokens.now) }
{
    let Some(behind) = after_mark(tokens, Mark::RightParen) else {
        return Err(Refused::QuerySyntax);
    };
    Ok((value, behind))
}
