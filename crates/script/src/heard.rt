//! What became of a line of a session.

/// What became of a line of a session.
#[derive(Clone, Copy, Debug, PartialEq, Eq, Drop)]
pub enum Heard {
    /// The line was accepted. An empty line and a comment are, too.
    Accepted,
    /// Its reply is a refusal, and it did nothing.
    Refused,
}
