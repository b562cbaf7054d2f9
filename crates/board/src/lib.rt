//! The keeper of one table: a draft that updates change, editions that are published, snapshots that stay as they are,
//! and viewers in other threads, who see what is published without waiting; and the ledger of one for programs of one thread.
#![tactic(auto)]

mod boxes;
mod crossing;
mod drafting;
mod keeper;
mod law;
mod laws;
mod ledger;
mod limits;
mod reader;
mod root;
mod snapshot;
mod told;
mod viewer;
mod writer;

pub use crossing::viewers_cross_threads;
pub use drafting::Drafts;
pub use keeper::Keeper;
pub use laws::{an_edition_has_a_list_of_rows, rows_have_the_shape_of_their_keys};
pub use ledger::Ledger;
pub use limits::{MAX_PLACES, MAX_ROWS};
pub use root::Root;
pub use snapshot::Snapshot;
pub use told::Told;
pub use viewer::Viewer;
