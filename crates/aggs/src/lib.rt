//! Aggregates of lists of cells: accumulators that are stepped with cells, joined and finished, with
//! the laws by which the work may be cut into parts and joined in any order.
#![tactic(auto)]

mod acc;
mod aggregate;
mod count;
mod distinct;
mod extreme;
mod greatest;
mod kept;
mod laws;
mod least;
mod sum;

pub use acc::{Acc, Kind};
pub use aggregate::Aggregate;
pub use count::{Count, CountRows};
pub use distinct::CountDistinct;
pub use greatest::Max;
pub use kept::Kept;
pub use laws::{accumulators_keep_the_laws, worked_aggregates};
pub use least::Min;
pub use sum::Sum;
