//! How a run is finished that did not end early.

/// How a run is finished that did not end early.
#[derive(Clone, Copy, Debug, PartialEq, Eq, Drop)]
pub enum Finish {
    /// It went through all lines. No line of a strict run was refused then.
    Through,
    /// It was strict, and stopped after its first refused line.
    Stopped,
}
