//! Questions of files: the options of `query` and `schema`, the table that is proposed for a file, and the script that asks.
#![tactic(auto)]

pub mod options;
mod ordering;
pub mod proposal;
pub mod question;
pub mod table_text;
