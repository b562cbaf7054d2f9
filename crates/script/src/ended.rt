//! Why a run ended early.
ghost use Rattle.std.specs.Prelude.{◌≡◌};
ghost use Rattle.script.specs.Endings.{ended_for, ended_unstarted, ended_unwritten, ending_number, refusal_named};
ghost use Rattle.report.specs.declared.want.Want.TheVariants.{Memory};

use crate::unstarted::Unstarted;
use cells::Refused;
use report::{Unwritten, Want};
use std::alloc::AllocError;

/// Why a run ended before its last line. What was written is a beginning of the output.
#[derive(Clone, Copy, Debug, PartialEq, Eq, Drop)]
pub enum Ended {
    /// A growth was really refused, to the run or to a worker of a report.
    OutOfMemory,
    /// The thread of a report, or of a worker of a report or a load, could not be started.
    NoWorker,
    /// The writer failed during the run.
    WriteFailed,
    /// The place of a viewer was refused, which a run without viewers does not meet.
    NotShown,
}

impl Ended {
    /// The number of the refusal: 90, 91, 92 or 93.
    pub fn number(&self) -> u32
        ensures { result ≡ ending_number self.now }
    {
        match self {
            Ended::OutOfMemory => 90,
            Ended::NoWorker => 91,
            Ended::WriteFailed => 92,
            Ended::NotShown => 93,
        }
    }
}

impl From<Ended> for Refused {
    ghost from_gives = { λ why refused. refused ≡ refusal_named why };

    /// The refusal of the same name and number.
    fn from(why: Ended) -> Refused {
        match why {
            Ended::OutOfMemory => Refused::OutOfMemory,
            Ended::NoWorker => Refused::NoWorker,
            Ended::WriteFailed => Refused::WriteFailed,
            Ended::NotShown => Refused::NotShown,
        }
    }
}

impl From<Want> for Ended {
    ghost from_gives = { λ want e. e ≡ ended_for want };

    /// The end of a run that wanted this.
    fn from(want: Want) -> Ended {
        match want {
            Want::Memory => Ended::OutOfMemory,
            Want::Worker => Ended::NoWorker,
        }
    }
}

impl From<Unwritten> for Ended {
    ghost from_gives = { λ why e. e ≡ ended_unwritten why };

    /// The end of a run whose text was not written.
    fn from(why: Unwritten) -> Ended {
        match why {
            Unwritten::Want(want) => Ended::from(want),
            Unwritten::WriteFailed => Ended::WriteFailed,
        }
    }
}

impl From<Unstarted> for Ended {
    ghost from_gives = { λ why e. e ≡ ended_unstarted why };

    /// The end of a run whose viewers were not started.
    fn from(why: Unstarted) -> Ended {
        match why {
            Unstarted::Want(want) => Ended::from(want),
            Unstarted::NotShown => Ended::NotShown,
        }
    }
}

impl From<AllocError> for Ended {
    ghost from_gives = { λ _ e. e ≡ ended_for Memory };

    fn from(_error: AllocError) -> Ended {
        Ended::OutOfMemory
    }
}
