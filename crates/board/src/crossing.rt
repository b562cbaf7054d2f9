//! The law of what may be moved to other threads.
ghost use Rattle.std.specs.Thread.{IsSend};
ghost use Rattle.board.specs.contracts.snapshot.Snapshot.{the_field as snapshot_type};
ghost use Rattle.board.specs.contracts.told.Told.{the_field as told_type};
ghost use Rattle.board.specs.contracts.viewer.Viewer.{the_field as viewer_type};

use cells::{Cell, KeyHash};

/// A viewer, what it sees and what it is told may be moved to other threads, under any lawful hash that may be. A search
/// for this does not get through all that a viewer holds. It does nothing.
pub fn viewers_cross_threads<H: KeyHash<Cell> + Send + Sync>()
    ensures viewer { IsSend (viewer_type H.row H.KeyHash).row }
    ensures snapshot { IsSend (snapshot_type H.row H.KeyHash).row }
    ensures told { IsSend told_type.row }
{}
