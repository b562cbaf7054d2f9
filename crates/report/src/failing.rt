//! The call at which a tape fails.

/// A call of a [`Tape`](crate::Tape) that fails: its number, counted from 1, and how many bytes of its piece it takes
/// all the same, where it would take as many.
#[derive(Clone, Copy, Debug, PartialEq, Eq, Drop)]
pub struct Failing {
    pub call: u64,
    pub taking: usize,
}
