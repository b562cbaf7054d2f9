//! Work that threads share: a deal of numbered pieces, which workers draw one by one without waiting for one another;
//! workers, who run a task over the pieces that they draw, and gather the groups of the rows of a table's pieces; and the gates by
//! which tests hold and watch a run.
#![tactic(auto)]

mod deal;
mod gate;
mod gathered;
mod gathering;
mod law;
mod limits;
mod listing;
mod running;
mod sharing;
mod task;
mod worker;

pub use deal::{Deal, Dealt, Seat, draws_rise};
pub use gate::{Gate, Open};
pub use gathering::{gather, gather_pieces};
pub use limits::{MAX_PIECES, MAX_SEATS};
pub use sharing::share_out;
pub use task::Task;
