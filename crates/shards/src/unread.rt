//! Why a text is no partial answer.

use std::alloc::AllocError;

/// Why a text is no partial answer.
#[derive(Clone, Copy, Debug, PartialEq, Eq, Drop)]
pub enum Unread {
    /// A growth was refused.
    OutOfMemory,
    /// It does not begin as partial answers of this version do.
    OfAnotherKind,
    /// It is not as it was written: its check sum differs, or it ends too soon.
    Spoilt,
    /// Its check sum is right, and yet it has not the form of a partial answer.
    Malformed,
}

impl From<AllocError> for Unread {
    ghost use Rattle.std.specs.Prelude.{◌≡◌};
    ghost use Rattle.shards.specs.declared.unread.Unread.TheVariants.{OutOfMemory};

    ghost from_gives = { λ _ e. e ≡ OutOfMemory };

    fn from(_refused: AllocError) -> Unread {
        Unread::OutOfMemory
    }
}
