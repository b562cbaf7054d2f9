//! The limit that this crate decides.

/// The most bytes of the parts of a list together, where a part that is listed twice counts twice.
pub const MAX_LISTED_BYTES: u64 = 1_099_511_627_776;
