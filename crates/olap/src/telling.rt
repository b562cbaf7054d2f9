//! The gate of a run that tells why lines are refused, and may tell how far it is.

use crate::explaining::Explaining;
use crate::progress::Progress;
use crate::tell::{Renew, Tell};
use cells::Refused;
use crew::{Gate, Open};
use std::time::Clock;

/// A gate that is told, too, when its run is over.
pub trait Ending: Gate {
    /// The run is over, however it ended, and no step follows.
    fn ended(&self) {}
}

impl Ending for Open {}

impl<'a, T: Tell + Sync> Ending for Explaining<'a, T> {}

/// A gate that tells what two gates tell, of which one may not be there.
#[derive(Drop)]
pub struct Telling<'a, T, C, G> {
    pub explaining: G,
    pub progress: Option<Progress<'a, T, C>>,
}

impl<'a, T: Renew + Sync, C: Clock + Sync, G: Gate> Gate for Telling<'a, T, C, G> {
    fn left(&self, piece: u64) {
        if let Some(progress) = &self.progress {
            progress.left(piece);
        }
    }

    fn published(&self, edition: u64, rows: u64) {
        if let Some(progress) = &self.progress {
            progress.published(edition, rows);
        }
    }

    fn loading(&self, parts: u64) {
        if let Some(progress) = &self.progress {
            progress.loading(parts);
        }
    }

    fn reading(&self, place: u64) {
        if let Some(progress) = &self.progress {
            progress.reading(place);
        }
    }

    fn read(&self, place: u64, records: u64) {
        if let Some(progress) = &self.progress {
            progress.read(place, records);
        }
    }

    fn reported(&self, line: u64, edition: u64, rows: u64, groups: u64) {
        if let Some(progress) = &self.progress {
            progress.reported(line, edition, rows, groups);
        }
    }

    fn refused(&self, line: u64, fault: Refused) {
        self.explaining.refused(line, fault);
    }

    fn refused_record(&self, line: u64, part: u64, record: u64) {
        self.explaining.refused_record(line, part, record);
    }

    fn refused_viewers(&self, fault: Refused) {
        self.explaining.refused_viewers(fault);
    }
}

impl<'a, T: Renew + Sync, C: Clock + Sync, G: Gate> Ending for Telling<'a, T, C, G> {
    fn ended(&self) {
        if let Some(progress) = &self.progress {
            progress.clear();
        }
    }
}
