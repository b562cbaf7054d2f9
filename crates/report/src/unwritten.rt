//! Why text that waits was not written.
ghost use Rattle.std.specs.Prelude.{◌≡◌};
ghost use Rattle.report.specs.declared.unwritten.Unwritten.TheVariants as unwritten;
ghost use Rattle.report.specs.declared.want.Want.TheVariants as want;

use crate::want::Want;
use std::alloc::{AllocError, AllocFailed};

/// Why text that waits was not written.
#[derive(Clone, Copy, Debug, PartialEq, Eq, Drop)]
pub enum Unwritten {
    /// A report that is waited for, or the text that waits, wanted this.
    Want(Want),
    /// The writer failed.
    WriteFailed,
}

impl From<Want> for Unwritten {
    ghost from_gives = { λ wanted why. why ≡ unwritten.Want wanted };

    fn from(want: Want) -> Unwritten {
        Unwritten::Want(want)
    }
}

impl From<AllocError> for Unwritten {
    ghost from_gives = { λ _ why. why ≡ unwritten.Want want.Memory };

    fn from(_error: AllocError) -> Unwritten {
        Unwritten::Want(Want::Memory)
    }
}

impl<T: Drop> From<AllocFailed<T>> for Unwritten {
    ghost from_gives = { λ _ why. why ≡ unwritten.Want want.Memory };

    fn from(_error: AllocFailed<T>) -> Unwritten {
        Unwritten::Want(Want::Memory)
    }
}
