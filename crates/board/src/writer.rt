//! The keeper's end of the board.
ghost use Rattle.std.specs.Prelude.{◌≡◌, ◌+◌, ◌<◌, ◌≤◌, [], ◌∷◌, ◌++◌, length, All, IfOk, IfSome};
ghost use Rattle.std.specs.FinMap as map;
ghost use Rattle.std.specs.Arc.{arc_value};
ghost use Rattle.board.specs.Ends.{IsAt, known, progress_at};
ghost use Rattle.board.specs.Law.{IsEnd};
ghost use Rattle.board.specs.Limits.{place_limit};
ghost use Rattle.board.specs.declared.law.Role.TheVariants.{Noted};

use crate::boxes::{Boxes, fill_all, fill_new};
use crate::law::{About, Board, Invite, Place, Publish, Tell, View};
use crate::reader::Reader;
use crate::snapshot::Snapshot;
use atomic_table::{Badge, Table};
use cells::{Cell, KeyHash, Schema};
use std::alloc::{AllocError, Global};
use std::sync::{Arc, Wait};

/// The board, what its keeper knows, how many viewers there can be, and how many were made.
#[derive(Drop)]
pub(crate) struct Writer<H: KeyHash<Cell>> {
    table: Arc<Board<H>>,
    pub(crate) seat: Place<H>,
    places: usize,
    pub(crate) made: usize,
    ghost seated: { seat.table_id ≡ (arc_value table).shared.table_id },
    ghost sized: { ((arc_value table).shared.key.places ≡ places) × (seat.table_id.words ≡ places + 1) × (0 < places) × (places ≤ place_limit) },
    ghost resting: { IsAt made seat },
    ghost counted: { ((progress_at seat).made ≡ made) × (made ≤ places) },
}

/// Adds an edition to the history, in one step, and gives it back.
fn append<H: KeyHash<Cell>>(
    boxes: &Boxes<H>,
    seat: &mut Place<H>,
    edition: Snapshot<H>,
) -> Snapshot<H>
    requires table { (seat.old.table_id ≡ boxes.now.table_id) × (0 < boxes.now.table_id.words) }
    requires ready { IsAt (progress_at seat.old).done seat.old }
    requires next { (length seat.old.me.0.seen ≡ edition.number) × (0 < edition.number) }
    ensures result { result ≡ edition }
    ensures same { (seat.new.table_id ≡ seat.old.table_id) × IsAt 0 seat.new
        × ((progress_at seat.new).made ≡ (progress_at seat.old).made) × (seat.new.me.0.schema ≡ seat.old.me.0.schema) }
    ensures seen { seat.new.me.0.seen ≡ seat.old.me.0.seen ++ edition.rows ∷ [] }
{
    let number = edition.edition();
    let said = Some(edition);
    boxes.compare_exchange_with::<Publish>(seat, 0, number - 1, number, &said);
    match said {
        Some(edition) => edition,
        None => unreachable!(),
    }
}

impl<H: KeyHash<Cell>> Writer<H> {
    /// A board whose one edition is edition 0, with boxes for so many viewers.
    pub(crate) fn new(
        alloc: Global,
        places: usize,
        schema: Arc<Schema>,
    ) -> Result<Writer<H>, AllocError>
        requires { (0 < places) × (places ≤ place_limit) }
        ensures seen { IfOk result (λ w. w.seat.me.0.seen ≡ map.empty ∷ []) }
        ensures schema { IfOk result (λ w. w.seat.me.0.schema ≡ schema.value) }
    {
        let words = Vec::from_elem(alloc, 0u64, places + 1)?;
        let about = About {
            places: places as u64,
            schema,
        };
        let (table, seat): (Board<H>, Place<H>) = Table::vacant(
            alloc,
            words.as_slice(),
            2 * places + 2,
            &about,
        )?;
        let table = Arc::new(alloc, table)?;
        Ok(Writer {
            table,
            seat,
            places,
            made: 0,
        })
    }

    /// A copy of the edition for each viewer that was made.
    pub(crate) fn copies(
        &self,
        alloc: Global,
        edition: &Snapshot<H>,
    ) -> Result<Vec<Snapshot<H>>, AllocError>
        ensures { IfOk result (λ v. (length v.items ≡ self.now.made) × All (λ e. e ≡ edition.now) v.items) }
    {
        let mut all = Vec::with_capacity(alloc, self.made)?;
        for _viewer in 0..self.made {
            all.push_reserved(edition.share()?);
        }
        Ok(all)
    }

    /// Adds the next edition to the history, in one step, and then shows a copy of it in each viewer's box. It gives the
    /// edition back.
    pub(crate) fn publish<R: Wait>(
        &mut self,
        rt: &R,
        next: Snapshot<H>,
        copies: Vec<Snapshot<H>>,
    ) -> Snapshot<H>
        requires next { (length self.old.seat.me.0.seen ≡ next.number) × (0 < next.number) × (next.schema ≡ self.old.seat.me.0.schema) }
        requires copies { (length copies.items ≡ self.old.made) × All (λ e. e ≡ next) copies.items }
        ensures result { result ≡ next }
        ensures board { self.new.seat.table_id ≡ self.old.seat.table_id }
        ensures seen { self.new.seat.me.0.seen ≡ self.old.seat.me.0.seen ++ next.rows ∷ [] }
        ensures schema { self.new.seat.me.0.schema ≡ self.old.seat.me.0.schema }
    {
        let table = &self.table;
        let boxes = &table.shared;
        let next = append(boxes, &mut self.seat, next);
        fill_all(rt, boxes, &mut self.seat, copies);
        next
    }

    /// What the keeper has seen, told.
    pub(crate) fn tell(&mut self) -> Badge<View>
        ensures kept { (self.new.seat.me ≡ self.old.seat.me) × (self.new.seat.table_id ≡ self.old.seat.table_id) }
        ensures told { (result.table_id ≡ self.old.seat.table_id) × (result.views ≡ known result ∷ []) × ((known result).role ≡ Noted)
            × ((known result).seen ≡ self.old.seat.me.0.seen) }
    {
        let table = &self.table;
        let boxes = &table.shared;
        let note = boxes.split_seat::<Tell>(&mut self.seat);
        note.into_badge()
    }

    /// The end of one viewer more, which has seen as much. None where all places are taken, or one owner more of the
    /// board was refused. `last` is the last edition.
    pub(crate) fn reader(&mut self, last: Snapshot<H>) -> Option<Reader<H>>
        requires { IsEnd self.old.seat.me.0.seen self.old.seat.me.0.schema last }
        ensures kept { (self.new.seat.me.0.seen ≡ self.old.seat.me.0.seen) × (self.new.seat.table_id ≡ self.old.seat.table_id)
            × (self.new.seat.me.0.schema ≡ self.old.seat.me.0.schema) }
        ensures reader { IfSome result (λ r. (r.badge.table_id ≡ self.old.seat.table_id)
            × ((known r.badge).seen ≡ self.old.seat.me.0.seen) × ((known r.badge).told ≡ []) × ((known r.badge).schema ≡ self.old.seat.me.0.schema)) }
    {
        if self.made >= self.places {
            return None;
        }
        let Ok(board) = Arc::try_clone(&self.table) else {
            return None;
        };
        let table = &self.table;
        let boxes = &table.shared;
        let number = self.made + 1;
        fill_new(boxes, &mut self.seat, number, last);
        let seat = boxes.split_seat::<Invite>(&mut self.seat);
        self.made = number;
        Some(Reader {
            table: board,
            badge: seat.into_badge(),
            index: number,
        })
    }
}
