//! One worker at its seat.
ghost use Rattle.std.specs.Prelude.{◌≡◌, [], true, IfOk, OnOk};
ghost use Rattle.crew.specs.Seats.{IsSeatOf, drawn_by, is_finished};
ghost use Rattle.crew.specs.Works.{IsWorked};

use crate::deal::{Deal, Seat, draws_rise};
use crate::task::Task;
use cells::Refused;
use std::alloc::Global;
use std::sync::atomic::AtomicBool;
use std::sync::atomic::Ordering::SeqCst;

/// What comes back of a seat: the seat itself, and what was made of the places that it drew. Nothing was given where
/// there was no memory, or where the work was called off since a thread could not be started.
#[derive(Drop)]
pub(crate) struct Worked<T> {
    pub(crate) seat: Seat,
    pub(crate) given: Result<T, Refused>,
}

/// Works at all places that the seat draws, until none are left. Where there is no memory or the work is called off, the
/// worker goes on drawing and works no more, so that its seat comes back soon, and finished.
pub(crate) fn work<K: Task>(
    alloc: Global,
    deal: &Deal,
    mut seat: Seat,
    task: &K,
    called_off: &AtomicBool,
) -> Worked<K::Made>
    requires seat { IsSeatOf deal.now seat × (seat.seen ≡ []) }
    requires task { K.count task.now ≡ deal.now.pieces }
    ensures { IsWorked deal.now (K.makes task.now) seat.number result }
{
    let given = make(alloc, deal, &mut seat, task, called_off);
    draw_on(deal, &mut seat);
    Worked { seat, given }
}

// What is made of all places that the seat draws.
fn make<K: Task>(
    alloc: Global,
    deal: &Deal,
    seat: &mut Seat,
    task: &K,
    called_off: &AtomicBool,
) -> Result<K::Made, Refused>
    requires seat { IsSeatOf deal.now seat.old × (seat.old.seen ≡ []) }
    requires task { K.count task.now ≡ deal.now.pieces }
    ensures seat { IsSeatOf deal.now seat.new × (seat.new.number ≡ seat.old.number) }
    ensures finished { OnOk result (is_finished seat.new ≡ true) }
    ensures given { IfOk result (K.makes task.now (drawn_by seat.new)) }
{
    draws_rise();
    let mut made = task.begin(alloc)?;
    while let Some(place) = deal.next(seat) {
        if called_off.load(SeqCst) {
            return Err(Refused::NoWorker);
        }
        task.take(alloc, &mut made, place)?;
    }
    Ok(made)
}

// Draws until no places are left, and does nothing with them.
fn draw_on(deal: &Deal, seat: &mut Seat)
    requires { IsSeatOf deal.now seat.old }
    ensures seat { IsSeatOf deal.now seat.new × (seat.new.number ≡ seat.old.number) }
    ensures finished { is_finished seat.new ≡ true }
    ensures stays { is_finished seat.old ≡ true → seat.new ≡ seat.old }
{
    while deal.next(seat).is_some() {}
}
