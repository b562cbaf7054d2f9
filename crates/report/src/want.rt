//! What a report may want and not get.
ghost use Rattle.std.specs.Prelude.{◌≡◌};
ghost use Rattle.report.specs.Wants.{MeansWant, refusal_of};
ghost use Rattle.report.specs.declared.want.Want.TheVariants.{Memory};

use cells::Refused;
use std::alloc::{AllocError, AllocFailed};

/// What was wanted and could not be had, where a call can fail for nothing else.
#[derive(Clone, Copy, Debug, PartialEq, Eq, Drop)]
pub enum Want {
    /// A growth was really refused.
    Memory,
    /// A thread could not be started.
    Worker,
}

impl From<Refused> for Want {
    ghost from_gives = { MeansWant };

    /// What workers wanted that were refused memory or a thread, and nothing else.
    fn from(refused: Refused) -> Want {
        match refused {
            Refused::NoWorker => Want::Worker,
            _ => Want::Memory,
        }
    }
}

impl From<Want> for Refused {
    ghost from_gives = { λ want refused. refused ≡ refusal_of want };

    /// The refusal that tells of it.
    fn from(want: Want) -> Refused {
        match want {
            Want::Memory => Refused::OutOfMemory,
            Want::Worker => Refused::NoWorker,
        }
    }
}

impl From<AllocError> for Want {
    ghost from_gives = { λ _ want. want ≡ Memory };

    fn from(_error: AllocError) -> Want {
        Want::Memory
    }
}

impl<T: Drop> From<AllocFailed<T>> for Want {
    ghost from_gives = { λ _ want. want ≡ Memory };

    fn from(_error: AllocFailed<T>) -> Want {
        Want::Memory
    }
}
