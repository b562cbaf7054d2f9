//! CSV files as people have them, made the parts that a run loads: the columns that are chosen of them, by their names.
#![tactic(auto)]

mod choice;
mod fault;
mod header;
mod integers;
mod keys;
mod kinds;
mod laws;
mod lines;
mod listed;
mod part;
mod place;
mod quotes;
mod record;
mod rows;
mod texts;
mod words;

pub use choice::{Choice, Chosen};
pub use fault::PrepareFault;
pub use header::meant_by;
pub use keys::key_of;
pub use kinds::types_of;
pub use laws::{a_misquoted_text_is_not_well_quoted, a_part_is_read_back};
pub use listed::{ListFault, columns_of, first_again, header_of, listed_columns, named_columns};
pub use part::{MadePart, prepared};
pub use place::line_of;
pub use quotes::{QuoteFault, misquoted};
pub use texts::{TextField, first_text};
pub use words::{name_of, word};
