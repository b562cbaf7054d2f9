//! The limits of a script that this crate names. They are those of `script`, which this crate does not stand on.

/// The most bytes of a script.
pub const MAX_SCRIPT_BYTES: usize = 1_048_576;

/// The most parts that may be handed in.
pub const MAX_PARTS: usize = 64;
