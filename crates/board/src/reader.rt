//! A viewer's end of the board.
ghost use Rattle.std.specs.Prelude.{◌≡◌, ◌≢◌, ◌+◌, ◌<◌, ◌≤◌, [], ◌∷◌, ◌++◌, IfOk, None, Some};
ghost use Rattle.std.specs.Arc.{arc_value};
ghost use Rattle.board.specs.Ends.{HasLooked, known};
ghost use Rattle.board.specs.Law.{IsEnd};
ghost use Rattle.board.specs.declared.law.Role.TheVariants.{Noted, Outside};

use crate::law::{Board, Enter, Leave, Place, Tell, View};
use crate::snapshot::Snapshot;
use atomic_table::Badge;
use cells::{Cell, KeyHash};
use std::alloc::AllocError;
use std::mem::replace;
use std::sync::Arc;

/// The board, what its viewer knows, and the number of the viewer's box.
#[derive(Drop)]
pub(crate) struct Reader<H: KeyHash<Cell>> {
    pub(crate) table: Arc<Board<H>>,
    pub(crate) badge: Badge<View>,
    pub(crate) index: usize,
    ghost seated: { badge.table_id ≡ (arc_value table).shared.table_id },
    ghost sized: { (0 < index) × (index ≤ (arc_value table).shared.key.places)
        × (badge.table_id.words ≡ (arc_value table).shared.key.places + 1) × (index < 1024) },
    ghost out: { (badge.views ≡ known badge ∷ []) × ((known badge).role ≡ Outside index) },
}

/// One owner more of the edition that a side of a box holds.
fn copy_of<H: KeyHash<Cell>>(held: &Option<Snapshot<H>>) -> Result<Snapshot<H>, AllocError>
    requires { held.now ≢ None }
    ensures { IfOk result (λ s. held.now ≡ Some s) }
{
    match held {
        Some(snapshot) => snapshot.share(),
        None => unreachable!(),
    }
}

impl<H: KeyHash<Cell>> Reader<H> {
    /// The edition that the box shows. The viewer enters its box, and leaves it whatever the answer.
    pub(crate) fn look(&mut self) -> Result<Snapshot<H>, AllocError>
        ensures board { self.new.badge.table_id ≡ self.old.badge.table_id }
        ensures looked { HasLooked (known self.old.badge) (known self.new.badge) }
        ensures shown { IfOk result (IsEnd (known self.new.badge).seen (known self.old.badge).schema) }
    {
        let mut seat: Place<H> = replace(&mut self.badge, Badge::blank()).into_seat();
        let table = &self.table;
        let top = &table.shared;
        let side = top.fetch_add::<Enter>(&mut seat, self.index, 2) as usize;
        let slot = 2 * self.index + side;
        let held = top.exchange(&mut seat, slot, None);
        let copy = copy_of(&held);
        top.exchange(&mut seat, slot, held);
        top.fetch_sub::<Leave>(&mut seat, self.index, 2);
        self.badge = seat.into_badge();
        copy
    }

    /// Takes in what was told.
    pub(crate) fn learn(&mut self, told: Badge<View>)
        requires own { told.table_id ≡ self.old.badge.table_id }
        requires note { (told.views ≡ known told ∷ []) × ((known told).role ≡ Noted) }
        ensures board { self.new.badge.table_id ≡ self.old.badge.table_id }
        ensures told { ((known self.new.badge).seen ≡ (known self.old.badge).seen)
            × ((known self.new.badge).told ≡ (known self.old.badge).told ++ (known told).seen ∷ []) }
        ensures schema { (known self.new.badge).schema ≡ (known self.old.badge).schema }
    {
        let mut seat: Place<H> = replace(&mut self.badge, Badge::blank()).into_seat();
        let table = &self.table;
        let top = &table.shared;
        top.join_seat::<Tell>(&mut seat, told.into_seat());
        self.badge = seat.into_badge();
    }
}
