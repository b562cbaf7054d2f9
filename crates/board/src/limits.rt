//! The limits that this crate decides.

/// The most rows of a draft that a keeper can be made for. The fewest is one.
pub const MAX_ROWS: u64 = 4_294_967_296;

/// The most places for viewers that a keeper can be made with. The fewest is one.
pub const MAX_PLACES: u64 = 64;
