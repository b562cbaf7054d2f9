//! What a run does after a refused line.
ghost use Rattle.std.specs.Prelude.{◌≡◌};
ghost use Rattle.script.specs.Stops.{finish_of_refused, stops};

use crate::finish::Finish;

/// What a run does after a refused line.
#[derive(Clone, Copy, Debug, PartialEq, Eq, Drop)]
pub enum OnRefusal {
    /// It goes on with the next line.
    GoesOn,
    /// It stops: the refused line is the last. Such a run is strict.
    Stops,
}

impl OnRefusal {
    /// Whether a run stops after a line, by whether that line is refused.
    pub(crate) fn stops(self, refused: bool) -> bool
        ensures { result ≡ stops self refused }
    {
        match self {
            OnRefusal::GoesOn => false,
            OnRefusal::Stops => refused,
        }
    }

    /// How a run is finished whose last line is refused.
    pub(crate) fn finish_of_refused(self) -> Finish
        ensures { result ≡ finish_of_refused self }
    {
        match self {
            OnRefusal::GoesOn => Finish::Through,
            OnRefusal::Stops => Finish::Stopped,
        }
    }
}
