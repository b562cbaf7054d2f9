//! Partial answers of the shards of a table: told by a run over one shard, written as a text, read, joined, and written as the
//! output of their script.
#![tactic(auto)]

mod complete;
mod division;
mod document;
mod fault;
mod frame;
mod joining;
mod line;
mod numbers;
mod telling;
mod unread;

pub use complete::{Incomplete, output};
pub use division::Division;
pub use document::{Document, read, write};
pub use joining::{Unjoined, join};
pub use line::Line;
pub use telling::{tell, tell_own};
pub use unread::Unread;
