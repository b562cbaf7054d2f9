//! What a run over a shard tells of a line.

use crate::fault::Fault;
use groups::SetGroups;

/// What a run over a shard of the table tells of a line of its script, for those who join what all shards tell. All else that a
/// line gives, the script says by itself.
#[derive(Debug, Drop)]
pub enum Told {
    /// Nothing: the script says what the line gives.
    Nothing,
    /// Of a load that is refused: its first fault, which is that of every shard.
    Refused(Fault),
    /// Of a report: what its plan's aggregates keep of the shard's rows, for each grouping set of the plan in its order.
    Kept(Vec<SetGroups>),
}
