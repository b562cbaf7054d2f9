//! What partial results tell of rows, as values of JSON (RFC 8259), and back: so that it can be taken from one machine to
//! another.
#![tactic(auto)]

mod cell;
mod count;
mod group;
mod kept;
mod lists;
mod spelt;
mod sum;

pub use lists::{both_of, list_of, pair, values_of};
pub use spelt::Spelt;
