//! The rule of the board, and what each step on it tells. There is one history of editions, and what each end of the
//! board knows is a beginning of it. The rule exists in proofs alone: no value of a view is ever made.
//!
//! Word 0 is the number of the last edition. Word w, from 1 on, is that of viewer w: the side of its box that is shown, 0
//! or 1, and 2 more while the viewer is inside. Slots 2 w and 2 w + 1 are the sides of its box.

use crate::snapshot::Snapshot;
use atomic_table::{Join, Play, Seat, Split, Table, TableRule};
use cells::{Cell, KeyHash, Schema};
use std::alloc::Global;
use std::collections::LinkedList;
use std::marker::Model;
use std::sync::Arc;

/// The rows of one edition.
pub struct EditionRows;

impl Model for EditionRows {
    ghost use Rattle.std.specs.FinMap.{empty};
    ghost use Rattle.cells.specs.Tables.{Rows};
    ghost use Rattle.board.specs.Editions.{coded_rows};

    ghost Value = { Rows };

    ghost coded = { coded_rows };

    ghost view = { λ _. empty };
}

/// How far the keeper is.
pub struct Progress {
    /// The boxes up to this one show the last edition.
    pub done: u64,
    /// The box whose hidden side the keeper has, or 0.
    pub hand: u64,
    /// The side that this box shows.
    pub side: u64,
    /// So many viewers were made.
    pub made: u64,
}

/// Whose end of the board it is: that of what was told, the keeper's, or a viewer's, outside of its box or inside, at a
/// side.
pub enum Role {
    Noted,
    Keeping(Progress),
    Outside(u64),
    Inside(u64, u64),
}

/// What an end of the board knows: the history that it has seen, and those that it was told of since.
pub struct View {
    pub role: Role,
    pub seen: LinkedList<EditionRows>,
    pub told: LinkedList<LinkedList<EditionRows>>,
    pub schema: Schema,
}

/// How many boxes a board has, and the schema of its table. The board is told it when it is made.
#[derive(Drop)]
pub struct About {
    pub places: u64,
    pub schema: Arc<Schema>,
}

/// The rule: there is one history, and each box shows an edition of it.
pub struct Law;

impl<H: KeyHash<Cell>> TableRule<Option<Snapshot<H>>, View, About> for Law {
    ghost use Rattle.board.specs.Law.{Kept, opening};

    ghost holds = { λ about. Kept about.places about.schema.value };

    ghost first = { λ about. opening about.schema.value };
}

pub type Board<H> = Table<Option<Snapshot<H>>, View, About, Law, Global>;

pub type Place<H> = Seat<Option<Snapshot<H>>, View>;

/// A publish: the edition that is said is added to the history.
pub struct Publish;

impl<H: KeyHash<Cell>> Play<Option<Snapshot<H>>, View> for Publish {
    ghost use Rattle.board.specs.Law.{Appended};

    ghost then = { Appended };
}

/// The keeper takes the hidden side of a box, where its viewer is outside.
pub struct Grab;

impl<H: KeyHash<Cell>> Play<Option<Snapshot<H>>, View> for Grab {
    ghost use Rattle.board.specs.Law.{Grabbed};

    ghost then = { Grabbed };
}

/// The keeper puts the side back, and shows it.
pub struct Flip;

impl<H: KeyHash<Cell>> Play<Option<Snapshot<H>>, View> for Flip {
    ghost use Rattle.board.specs.Law.{Flipped};

    ghost then = { Flipped };
}

/// An entry of a viewer: it takes the side of its box that is shown.
pub struct Enter;

impl<H: KeyHash<Cell>> Play<Option<Snapshot<H>>, View> for Enter {
    ghost use Rattle.board.specs.Law.{Entered};

    ghost then = { Entered };
}

/// The viewer puts the side back.
pub struct Leave;

impl<H: KeyHash<Cell>> Play<Option<Snapshot<H>>, View> for Leave {
    ghost use Rattle.board.specs.Law.{Left};

    ghost then = { Left };
}

/// What the keeper has seen is told, and a viewer is told of it.
pub struct Tell;

impl Split<View> for Tell {
    ghost use Rattle.board.specs.Law.{note};

    ghost left = { λ v. v };

    ghost right = { note };
}

impl Join<View> for Tell {
    ghost use Rattle.board.specs.Law.{informed, nobody};

    ghost both = { informed };

    ghost spent = { nobody };
}

/// The keeper makes a viewer, which has seen as much.
pub struct Invite;

impl Split<View> for Invite {
    ghost use Rattle.board.specs.Law.{guest, host};

    ghost left = { host };

    ghost right = { guest };
}
