//! The boxes of the viewers, as their keeper fills them. A box has two sides: the keeper writes the hidden one and then
//! turns the box, so that no viewer ever waits for the keeper.
ghost use Rattle.std.specs.Prelude.{◌≡◌, ◌≢◌, ◌+◌, ◌-◌, ◌<◌, ◌≤◌, length, All, IfSome, None};
ghost use Rattle.board.specs.Ends.{GoesOn, HasSide, IsAt, TakesSide, progress_at};
ghost use Rattle.board.specs.Law.{IsEnd};

use crate::law::{About, Flip, Grab, Law, Place, View};
use crate::snapshot::Snapshot;
use atomic_table::Shared;
use cells::{Cell, KeyHash};
use crossbeam_utils::Backoff;
use std::sync::Wait;

pub(crate) type Boxes<H> = Shared<Option<Snapshot<H>>, View, About, Law>;

/// Takes the hidden side of a box; None where its viewer is inside. Nobody is inside before the viewer is made.
fn take_side<H: KeyHash<Cell>>(boxes: &Boxes<H>, seat: &mut Place<H>, word: usize) -> Option<usize>
    requires table { (seat.old.table_id ≡ boxes.now.table_id) × (word < boxes.now.table_id.words) × (0 < word) × (word ≤ boxes.now.key.places) }
    requires ready { IsAt (word - 1) seat.old }
    ensures taken { IfSome result (λ side. TakesSide word side seat.old seat.new) }
    ensures busy { result ≡ None → (seat.new.me ≡ seat.old.me) × (seat.new.table_id ≡ seat.old.table_id) }
    ensures free { (progress_at seat.old).made < word → result ≢ None }
{
    let found = boxes.load::<Grab>(seat, word);
    if found < 2 {
        return Some(found as usize);
    }
    None
}

/// Takes the hidden side of a box. It waits while the box's viewer is inside.
fn wait_for_side<H: KeyHash<Cell>, R: Wait>(
    rt: &R,
    boxes: &Boxes<H>,
    seat: &mut Place<H>,
    word: usize,
) -> usize
    requires table { (seat.old.table_id ≡ boxes.now.table_id) × (word < boxes.now.table_id.words) × (0 < word) × (word ≤ boxes.now.key.places) }
    requires ready { IsAt (word - 1) seat.old }
    ensures { TakesSide word result seat.old seat.new }
{
    let backoff = Backoff::new();
    for _ in rt.forever() {
        if let Some(side) = take_side(boxes, seat, word) {
            return side;
        }
        backoff.snooze();
    }
    unreachable!()
}

/// Puts the last edition on the hidden side of a box, and turns the box.
fn turn<H: KeyHash<Cell>>(
    boxes: &Boxes<H>,
    seat: &mut Place<H>,
    word: usize,
    side: usize,
    edition: Snapshot<H>,
)
    requires table { (seat.old.table_id ≡ boxes.now.table_id) × (word < boxes.now.table_id.words) × (0 < word)
        × (word ≤ boxes.now.key.places) × (word < 1024) }
    requires taken { HasSide word side seat.old }
    requires last { IsEnd seat.old.me.0.seen seat.old.me.0.schema edition }
    ensures { GoesOn word seat.old seat.new }
{
    boxes.exchange(seat, 2 * word + (1 - side), Some(edition));
    boxes.fetch_xor::<Flip>(seat, word, 1);
}

/// Shows the last edition in a box that no viewer has as yet. It never waits.
pub(crate) fn fill_new<H: KeyHash<Cell>>(
    boxes: &Boxes<H>,
    seat: &mut Place<H>,
    word: usize,
    edition: Snapshot<H>,
)
    requires table { (seat.old.table_id ≡ boxes.now.table_id) × (word < boxes.now.table_id.words) × (0 < word)
        × (word ≤ boxes.now.key.places) × (word < 1024) }
    requires ready { IsAt (word - 1) seat.old }
    requires new { (progress_at seat.old).made < word }
    requires last { IsEnd seat.old.me.0.seen seat.old.me.0.schema edition }
    ensures { GoesOn word seat.old seat.new }
{
    match take_side(boxes, seat, word) {
        Some(side) => turn(boxes, seat, word, side, edition),
        None => unreachable!(),
    }
}

/// Shows the last edition in the boxes from the first on, one copy in each. It waits for each viewer that is inside.
pub(crate) fn fill_all<H: KeyHash<Cell>, R: Wait>(
    rt: &R,
    boxes: &Boxes<H>,
    seat: &mut Place<H>,
    mut copies: Vec<Snapshot<H>>,
)
    requires table { (seat.old.table_id ≡ boxes.now.table_id) × (boxes.now.table_id.words ≡ boxes.now.key.places + 1) × (boxes.now.key.places < 1024) }
    requires ready { IsAt 0 seat.old }
    requires few { length copies.items ≤ boxes.now.key.places }
    requires last { All (IsEnd seat.old.me.0.seen seat.old.me.0.schema) copies.items }
    ensures { GoesOn (length copies.items) seat.old seat.new }
{
    let mut word = 1;
    while let Some(copy) = copies.pop() {
        let side = wait_for_side(rt, boxes, seat, word);
        turn(boxes, seat, word, side, copy);
        word += 1;
    }
}
