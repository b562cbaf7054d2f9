//! Reports: the answer of a plan on a snapshot as a text, writers that may fail and are told of it, and the one loop
//! that writes.
#![tactic(auto)]

mod answering;
mod arranging;
mod at_once;
mod audience;
mod backlog;
mod failing;
mod here;
mod limits;
mod onlookers;
mod onlooking;
mod out;
mod owned;
mod partial;
mod pieces;
mod pour;
mod printing;
mod question;
mod starting;
mod subtotals;
mod tape;
mod unwritten;
mod want;
mod watching;

pub use answering::{Answering, answer};
pub use arranging::{Arrangement, SortKey};
pub use audience::Audience;
pub use backlog::Backlog;
pub use failing::Failing;
pub use here::answer_here;
pub use limits::{MAX_REPORTS, MAX_WORKERS};
pub use onlookers::Onlookers;
pub use onlooking::{Glance, Onlooker};
pub use out::{Out, OutFault, write_whole};
pub use partial::{answer_of_partial, told_here};
pub use pour::Pour;
pub use printing::text;
pub use question::Question;
pub use starting::Starter;
pub use tape::Tape;
pub use unwritten::Unwritten;
pub use want::Want;
pub use watching::{Shot, Watcher};
