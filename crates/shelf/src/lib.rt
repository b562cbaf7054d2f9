//! A place for one value that is made at most once and then shared by all threads, each of which knows that the value
//! keeps a promise, whoever made it. A `OnceLock` of std is such a place too, but no clause tells of its value to a
//! thread that did not make it; here the value lies in a slot under a rule.
#![tactic(auto)]

mod made;
mod place;
mod told;

pub use place::Shelf;
pub use told::{Shows, Told};
