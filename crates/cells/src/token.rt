//! The tokens of a text.
ghost use Rattle.std.specs.Prelude.{◌≡◌};
ghost use Rattle.cells.specs.declared.token.TokenFault.TheVariants.{Memory};

use crate::text::Text;
use std::alloc::{AllocError, AllocFailed};

/// A sign of one or two characters, by its name in ISO/IEC 9075-2:1999, 5.1 and 5.2.
#[derive(Clone, Copy, Debug, PartialEq, Eq)]
pub enum Mark {
    /// `(`
    LeftParen,
    /// `)`
    RightParen,
    /// `,`
    Comma,
    /// `*`
    Asterisk,
    /// `=`
    Equals,
    /// `<>`
    NotEquals,
    /// `<=`
    LessThanOrEquals,
    /// `>=`
    GreaterThanOrEquals,
    /// `<`
    LessThan,
    /// `>`
    GreaterThan,
}

/// A token, which owns its text.
#[derive(Debug, Drop)]
pub enum Token {
    /// A word: a letter or `_`, and then letters, digits and `_`, all folded to upper case
    /// (ISO/IEC 9075-2:1999, 5.2).
    Word(Text),
    /// An integer, by its value.
    Number(i64),
    /// A text without its quotes, its doubled quotes undone: 0 to
    /// [`MAX_TEXT_BYTES`](crate::MAX_TEXT_BYTES) bytes.
    Quoted(Text),
    /// A sign.
    Mark(Mark),
}

/// Why a text was not read into tokens.
#[derive(Clone, Copy, Debug, PartialEq, Eq, Drop)]
pub enum TokenFault {
    /// The text spells no list of tokens.
    Bad,
    /// A growth was really refused.
    Memory,
}

impl From<AllocError> for TokenFault {
    ghost from_gives = { λ _ e. e ≡ Memory };

    fn from(_error: AllocError) -> TokenFault {
        TokenFault::Memory
    }
}

impl<T: Drop> From<AllocFailed<T>> for TokenFault {
    ghost from_gives = { λ _ e. e ≡ Memory };

    fn from(_error: AllocFailed<T>) -> TokenFault {
        TokenFault::Memory
    }
}
