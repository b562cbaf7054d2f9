//! How deep the parentheses of a query stand in one another.
ghost use Rattle.std.specs.Prelude.{◌≡◌};
ghost use Rattle.query.specs.Depth.{is_close, is_open, is_too_deep};

use crate::limits::MAX_OPEN_PARENTHESES;
use cells::{Mark, Token};

/// Whether, at some token, more than 64 parentheses are open.
pub fn is_too_deep(tokens: &[Token]) -> bool
    ensures { result ≡ is_too_deep tokens.now }
{
    let mut opened = 0usize;
    let mut closed = 0usize;
    for token in tokens {
        opened += usize::from(is_open(token));
        closed += usize::from(is_close(token));
        if closed + MAX_OPEN_PARENTHESES < opened {
            return true;
        }
    }
    false
}

fn is_open(token: &Token) -> bool
    ensures { result ≡ is_open token.now }
{
    matches!(token, Token::Mark(Mark::LeftParen))
}

fn is_close(token: &Token) -> bool
    ensures { result ≡ is_close token.now }
{
    matches!(token, Token::Mark(Mark::RightParen))
}
