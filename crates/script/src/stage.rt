//! How far the viewers of a run are.

use cells::Refused;

/// How far the viewers of a run are.
#[derive(Clone, Copy, Debug, PartialEq, Eq, Drop)]
pub enum Stage {
    /// There is no table yet.
    Expected,
    /// Their query is refused.
    Turned(Refused),
    /// All of them were started.
    Begun,
}
