//! Why parts were not loaded.
ghost use Rattle.std.specs.Prelude.{◌≡◌};
ghost use Rattle.loader.specs.Loads.{KeepsFromLoading};
ghost use Rattle.loader.specs.declared.fault.PartFault.TheVariants.{OutOfMemory};

use cells::Refused;
use std::alloc::{AllocError, AllocFailed};

/// Why the parts of a list were not loaded.
#[derive(Clone, Copy, Debug, PartialEq, Eq, Drop)]
pub enum PartFault {
    /// The first listed part that has a faulty record, by its number, and the number of its first one: 0 is the
    /// header, and 1 the record behind it.
    Bad { part: u64, entry: u64 },
    /// There was no memory, here or for a worker.
    OutOfMemory,
    /// A thread could not be started.
    NoWorker,
}

impl From<Refused> for PartFault {
    ghost from_gives = { KeepsFromLoading };

    /// What keeps parts from being loaded where workers met this refusal: want of a thread, or of memory.
    fn from(refused: Refused) -> PartFault {
        match refused {
            Refused::NoWorker => PartFault::NoWorker,
            _ => PartFault::OutOfMemory,
        }
    }
}

impl From<AllocError> for PartFault {
    ghost from_gives = { λ _ e. e ≡ OutOfMemory };

    fn from(_error: AllocError) -> PartFault {
        PartFault::OutOfMemory
    }
}

impl<T: Drop> From<AllocFailed<T>> for PartFault {
    ghost from_gives = { λ _ e. e ≡ OutOfMemory };

    fn from(_error: AllocFailed<T>) -> PartFault {
        PartFault::OutOfMemory
    }
}
