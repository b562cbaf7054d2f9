//! How a report's body is spelled: the lines that people know, CSV, JSON, or a table in columns.
#![tactic(auto)]

pub mod classic;
pub mod commas;
mod escapes;
mod form;
mod integers;
pub mod json;
mod laws;
pub mod table;

pub use escapes::is_unseen;
pub use form::Form;
pub use laws::a_width_counts_characters;
