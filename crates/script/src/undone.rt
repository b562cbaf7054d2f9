//! Why values were not taken in.
ghost use Rattle.std.specs.Prelude.{◌≡◌};
ghost use Rattle.script.specs.Changes.{refusal_of};

use crate::ended::Ended;
use cells::Refused;

/// Why a put, a delete or a publish of values was not done.
#[derive(Clone, Copy, Debug, PartialEq, Eq, Drop)]
pub enum Undone {
    /// The line that the values spell is refused by this rule. It counts, it did nothing, and the session goes on.
    Refused(Refused),
    /// The session is over.
    Ended(Ended),
}

impl From<Undone> for Refused {
    ghost from_gives = { λ why refused. refused ≡ refusal_of why };

    /// The rule, or the refusal of the name of the end.
    fn from(why: Undone) -> Refused {
        match why {
            Undone::Refused(rule) => rule,
            Undone::Ended(end) => Refused::from(end),
        }
    }
}
