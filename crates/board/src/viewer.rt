//! The viewers.
ghost use Rattle.std.specs.Prelude.{◌≡◌, [], ◌∷◌, ◌++◌, IfErr, IfOk};
ghost use Rattle.board.specs.Editions.{IsLastOf, Learns, Looks};

use crate::reader::Reader;
use crate::snapshot::Snapshot;
use crate::told::Told;
use cells::{Cell, KeyHash, Refused};
use std::marker::Model;

/// Sees what a keeper publishes, from any thread. What it knows is a beginning of the keeper's history: what it has seen,
/// and what it was told of.
#[derive(Drop)]
pub struct Viewer<H: KeyHash<Cell>> {
    pub(crate) reader: Reader<H>,
}

impl<H: KeyHash<Cell>> Model for Viewer<H> {
    ghost use Rattle.board.specs.Editions.{Known, coded_known};
    ghost use Rattle.board.specs.Ends.{known};

    ghost Value = { Known };

    ghost coded = { coded_known };

    ghost view = { λ v. record {
      history = (known v.reader.badge).seen;
      told = (known v.reader.badge).told;
      board = v.reader.badge.table_id;
      schema = (known v.reader.badge).schema;
    } };
}

impl<H: KeyHash<Cell>> Viewer<H> {
    /// Takes in what the keeper of the same board told. It never waits.
    pub fn learn(&mut self, told: Told)
        requires { told.board ≡ self.old.board }
        ensures { Learns self.old told self.new }
    {
        let Told { badge } = told;
        self.reader.learn(badge);
    }

    /// The edition that is shown now, no earlier one than the viewer has seen or was told of. It keeps its rows whatever
    /// the keeper does. It never waits.
    ///
    /// [`Refused::OutOfMemory`] where one owner more was refused; then the viewer may have seen more all the same.
    pub fn snapshot(&mut self) -> Result<Snapshot<H>, Refused>
        ensures looks { Looks self.old self.new }
        ensures last { IfOk result (λ s. IsLastOf self.new.history s.number s.rows) }
        ensures schema { IfOk result (λ s. s.schema ≡ self.old.schema) }
        ensures refused { IfErr result (λ e. e ≡ Refused.OutOfMemory) }
    {
        Ok(self.reader.look()?)
    }
}
