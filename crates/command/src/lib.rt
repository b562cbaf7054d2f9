//! The words of the command line, and what they ask for.
#![tactic(auto)]

mod command_line;
pub mod job;
pub mod naming;
pub mod session_words;
pub mod shard_words;
pub mod words;
