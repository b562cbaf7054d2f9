//! The limits of what this crate reads, each named here and in `specs/Limits.antt`.

/// The most bytes of a query.
pub const MAX_QUERY_BYTES: usize = 65_536;

/// The most parentheses of a query that may be open at once.
pub const MAX_OPEN_PARENTHESES: usize = 64;

/// The most items of a select list, and the most aggregates of HAVING.
pub const MAX_ITEMS: usize = 32;

/// The most columns of a GROUPING.
pub const MAX_GROUPING_COLUMNS: usize = 16;

/// The most grouping sets of a query, repeated ones counted.
pub const MAX_SETS: u64 = 256;
