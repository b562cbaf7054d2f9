//! The numbers that bound a run, each named here and in `specs/Limits.antt`: the ranges of what it may be
//! told, with what stands where nothing is said, and the limits of a script and its parts. Cases of
//! `tools/program` hold the texts of help to them.

use board::MAX_ROWS;
use report::MAX_WORKERS;
use trie::MAX_DEPTH;

/// The numbers that a setting takes.
#[derive(Clone, Copy, Debug, PartialEq, Eq)]
pub struct Limits {
    /// The least number.
    pub least: u64,
    /// The greatest number.
    pub most: u64,
    /// The number where none is given.
    pub default: u64,
}

/// How many workers load parts and answer a report, each in a thread of its own.
pub const WORKERS: Limits = Limits {
    least: 1,
    most: MAX_WORKERS,
    default: 1,
};

/// The depth above which a table is cut into pieces, in digits of a hash.
pub const DEPTH: Limits = Limits {
    least: 0,
    most: MAX_DEPTH as u64,
    default: 1,
};

/// The entries up to which a branch is not cut.
pub const SMALL: Limits = Limits {
    least: 0,
    most: u64::MAX,
    default: 0,
};

/// The most rows of the draft.
pub const ROWS: Limits = Limits {
    least: 1,
    most: MAX_ROWS,
    default: MAX_ROWS,
};

/// How many viewers there are beside a run.
pub const VIEWERS: Limits = Limits {
    least: 1,
    most: 16,
    default: 2,
};

/// How many reports each viewer makes before its last one.
pub const SHOTS: Limits = Limits {
    least: 1,
    most: 1_000,
    default: 1,
};

/// The most bytes of a script.
pub const MAX_SCRIPT_BYTES: usize = 1_048_576;

/// The most parts that may be handed in.
pub const MAX_PARTS: usize = 64;
