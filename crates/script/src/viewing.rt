//! What viewers beside a run are asked.

/// What viewers beside a run are asked: a query, as an owner or a reader has it, and two numbers.
#[derive(Clone, Copy, Debug, Drop)]
pub struct Viewing<Q> {
    /// The query that each of them answers.
    pub query: Q,
    /// How many there are.
    pub viewers: u64,
    /// How many reports each of them makes before its last one.
    pub shots: u64,
    /// When their blocks are written.
    pub showing: Showing,
}

/// When the blocks of viewers are written.
#[derive(Clone, Copy, Debug, PartialEq, Eq, Drop)]
pub enum Showing {
    /// After those of all lines, one viewer after another.
    Last,
    /// As they come: those that are made while the script runs between the blocks of its lines.
    AsTheyCome,
}
