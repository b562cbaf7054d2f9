//! What every crate of `olap` speaks of: cells and their order, the tokens of a text, schemas,
//! rows, the updates that leave rows, and refusals.
#![tactic(auto)]

mod cell;
mod hash;
mod integers;
mod lent;
mod lent_text;
mod limits;
mod near_bytes;
mod packing;
mod reading;
mod refused;
mod row;
mod row_bytes;
mod row_walk;
mod scan;
mod schema;
mod short;
mod text;
mod token;
mod total;
mod tuple;
mod updates;

pub use cell::Cell;
pub use hash::{Fnv, KeyHash, Plain, worked_hashes};
pub use integers::{integer_of, whole_number_of};
pub use lent::LentCell;
pub use lent_text::LentText;
pub use limits::{MAX_COLUMNS, MAX_TEXT_BYTES};
pub use reading::{schema_is_the_one_spelt, tokens_are_those_spelt};
pub use refused::Refused;
pub use row::{Row, RowReader};
pub use row_walk::RowWalk;
pub use scan::{tokens, tokens_or};
pub use schema::{Column, ColumnType, Schema, is_reserved};
pub use text::Text;
pub use token::{Mark, Token, TokenFault};
pub use total::{Total, literal};
pub use tuple::Tuple;
pub use updates::{later_puts_lie_over, updates_leave_the_last_puts, updates_make_a_map};
