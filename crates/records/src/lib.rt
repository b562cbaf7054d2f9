//! Texts of CSV, as their records one after another.
#![tactic(auto)]

mod place;
mod reader;

pub use place::line_of;
pub use reader::{Records, fields};
