//! Why there is no output.
ghost use Rattle.std.specs.Prelude.{◌≡◌};
ghost use Rattle.olap_core.specs.Outputs.{number_of};
ghost use Rattle.olap_core.specs.declared.fault.Fault.TheVariants.{OutOfMemory};

use std::alloc::{AllocError, AllocFailed};

/// Why there is no output.
#[derive(Clone, Copy, Debug, PartialEq, Eq, Drop)]
pub enum Fault {
    BadForm,
    BadRows,
    BadLengths,
    OutOfMemory,
}

impl Fault {
    /// The number by which a caller is told.
    pub fn number(self) -> u32
        ensures { result ≡ number_of self }
    {
        match self {
            Fault::BadForm => 2,
            Fault::BadRows => 3,
            Fault::BadLengths => 4,
            Fault::OutOfMemory => 5,
        }
    }
}

impl From<AllocError> for Fault {
    ghost from_gives = { λ _ e. e ≡ OutOfMemory };

    fn from(_error: AllocError) -> Fault {
        Fault::OutOfMemory
    }
}

impl<T: Drop> From<AllocFailed<T>> for Fault {
    ghost from_gives = { λ _ e. e ≡ OutOfMemory };

    fn from(_error: AllocFailed<T>) -> Fault {
        Fault::OutOfMemory
    }
}
