//! Why a line of a script or a record of a part is refused, and where the fault is, in words for people. The rules are those of
//! the crates below; this one looks for the place where a rule is broken, once a run has told which rule it is.
#![tactic(auto)]

mod field_fault;
mod grammar;
mod header;
mod keys;
mod limits;
mod line_fault;
mod listing;
mod lookup;
mod names;
mod part;
mod put;
mod queries;
mod query_limits;
mod record_fault;
mod schemas;
mod shown;
mod split;
mod syntax;
mod tokens;
mod types;

pub use lookup::{Reason, Reasons};
pub use part::{PartFaults, PartReason, faults_of_part};
