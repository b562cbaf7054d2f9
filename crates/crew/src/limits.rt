//! The limits that this crate decides.

/// The most pieces of a deal. The fewest is none.
pub const MAX_PIECES: u64 = 4_294_967_296;

/// The most seats of a deal. The fewest is one.
pub const MAX_SEATS: u64 = 64;
