//! The end of a run's table.

use board::Keeper;
use cells::{Cell, KeyHash};
use std::mem;

/// What becomes of a run's table at the end of the run.
#[derive(Clone, Copy, Drop)]
pub enum Closing {
    /// Its memory is given back.
    GivesBack,
    /// Its memory goes back to the system as a whole when the process ends, which is soon: to give back each of its
    /// nodes and rows by itself would take more than half as long as its load.
    LeavesToSystem,
}

impl Closing {
    /// Ends the keeper, where a table was declared.
    pub fn close<H: KeyHash<Cell>>(self, desk: Option<Keeper<H>>) {
        match self {
            Closing::GivesBack => {
                if let Some(keeper) = desk {
                    keeper.close();
                }
            }
            Closing::LeavesToSystem => mem::forget(desk),
        }
    }
}
