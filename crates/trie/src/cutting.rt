//! How a map is cut into pieces.
use crate::digits::DIGITS;

/// The greatest depth of a cutting: as many digits as a hash has.
pub const MAX_DEPTH: u8 = DIGITS as u8;

/// How a map is cut into pieces.
#[derive(Clone, Copy, Debug, PartialEq, Eq)]
pub struct Cutting {
    /// Branches above this depth are cut: 0 to `MAX_DEPTH`.
    pub depth: u8,
    /// Only branches with more entries than this are cut.
    pub small: u64,
}
