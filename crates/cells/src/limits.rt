//! The limits of what this crate reads. The ranges of integers are those of `i64` and `u64`.

/// The most bytes of a text cell and of a text literal, after its doubled quotes are undone.
pub const MAX_TEXT_BYTES: usize = 1024;

/// The most columns of a table. The fewest is one.
pub const MAX_COLUMNS: usize = 16;
