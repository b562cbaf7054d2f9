//! CSV texts as rows of a table: the record of a `put` line, and whole parts, which workers read side by side, or the thread
//! that calls.
#![tactic(auto)]

mod cutting;
mod fault;
mod header;
mod limits;
mod loading;
mod part;
mod pieces;
mod plain;
mod record;
mod shard;
mod shares;
mod states;
mod tries;

pub use fault::PartFault;
pub use header::is_header;
pub use limits::MAX_LISTED_BYTES;
pub use loading::{load, load_here, load_shard_here};
pub use record::read_record;
pub use shard::Shard;
