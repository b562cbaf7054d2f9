//! Groups of rows: what a grouped query means, partial results of it over parts of a table, which can be joined, and
//! the rows of its report.
#![tactic(auto)]

mod accumulators;
mod aggregation;
mod asking;
mod bag;
mod coarsening;
mod columnar;
mod dealing;
mod different_cells;
mod differing;
mod finishing;
mod folding;
mod held;
mod joining;
mod keeping;
mod laws;
mod laying;
mod meeting;
mod needed;
mod numbered;
mod of_kind;
mod partial;
mod parting;
mod pool;
mod pool_rows;
mod pool_tries;
mod ranked;
mod renumbering;
mod report_row;
mod rising;
mod set_columns;
mod sources;
mod tallying;
mod told;
mod tuples;

pub use dealing::{Dealt, deal_out, has_few_groups};
pub use folding::Folding;
pub use laws::{any_order, having_by_names, worked_reports, worked_text};
pub use needed::needed_columns;
pub use partial::Partial;
pub use report_row::ReportRow;
pub use told::{Group, SetGroups};
