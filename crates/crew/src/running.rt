//! Workers in threads of their own.
ghost use Rattle.std.specs.Prelude.{◌≡◌, ◌≤◌, [], length, vec_capacity, vec_len, IfErr, IfOk};
ghost use Rattle.crew.specs.Seats.{IsSeatOf, new_seats};
ghost use Rattle.crew.specs.Works.{AllNumbered, AreBack, IsBack, IsWorked};

use crate::deal::{Deal, Seat};
use crate::task::Task;
use crate::worker::{Worked, work};
use cells::Refused;
use std::alloc::{AllocError, Global};
use std::sync::Wait;
use std::sync::atomic::AtomicBool;
use std::sync::atomic::Ordering::SeqCst;
use std::thread;
use std::thread::{Promise, PromisedHandle, Scope, Threads};

/// What came back of all seats of a deal, in the order of the seats.
#[derive(Drop)]
pub(crate) struct Returned<T> {
    pub(crate) seats: Vec<Seat>,
    pub(crate) given: Vec<Result<T, Refused>>,
}

/// Runs a worker at each seat of the deal, each in a thread of its own, and gives back all seats with what was given at
/// each. All threads that were started are joined before this returns, however it ends. Where a thread can't be started,
/// no more are, and the work is called off: workers take no place more.
///
/// The one error is that there was no memory for a list, and then no thread was started.
pub(crate) fn run_all<K: Task, R: Threads + Wait>(
    rt: &R,
    alloc: Global,
    deal: &Deal,
    seats: Vec<Seat>,
    task: &K,
) -> Result<Returned<K::Made>, AllocError>
    requires seats { seats.items ≡ new_seats deal.now }
    requires task { K.count task.now ≡ deal.now.pieces }
    ensures back { IfOk result (λ r. AreBack deal.now (K.makes task.now) r.seats.items r.given.items) }
{
    let called_off = AtomicBool::new(false);
    let called_off = &called_off;
    thread::scope(
        thread::scope_env(),
        rt,
        move |scope| -> Result<Returned<K::Made>, AllocError>
            requires { (seats.items ≡ new_seats deal.now) × (K.count task.now ≡ deal.now.pieces) }
            ensures back { IfOk result (λ r. AreBack deal.entry.now (K.makes task.entry.now) r.seats.items r.given.items) }
        {
            let start = Start {
                scope,
                alloc,
                deal,
                task,
                called_off,
            };
            let room = Returned {
                seats: Vec::with_capacity(alloc, seats.len())?,
                given: Vec::with_capacity(alloc, seats.len())?,
            };
            let mut begun = Vec::with_capacity(alloc, seats.len())?;
            for seat in seats {
                begun.push_reserved(start.worker(seat));
            }
            Ok(start.joined(rt, begun, room))
        },
    )
}

// What each worker is started with.
#[derive(Drop)]
struct Start<'a, 's, 'e, K> {
    scope: &'a Scope<'s, &'e ()>,
    alloc: Global,
    deal: &'s Deal,
    task: &'s K,
    // whether a thread could not be started
    called_off: &'s AtomicBool,
}

impl<'a, 's, 'e: 's, K: Task> Start<'a, 's, 'e, K> {
    // Starts a worker at the seat. Where a thread can't be started, the work is called off and the seat comes back.
    fn worker(&self, seat: Seat) -> Result<PromisedHandle<Worked<K::Made>, Promised<'s, K>>, Seat>
        requires seat { IsSeatOf self.now.deal.now seat × (seat.seen ≡ []) }
        requires task { K.count self.now.task.now ≡ self.now.deal.now.pieces }
        ensures started { IfOk result (λ handle. (handle.promise.deal.now ≡ self.now.deal.now)
            × (handle.promise.task.now ≡ self.now.task.now) × (handle.promise.number ≡ seat.number)) }
        ensures refused { IfErr result (λ back. IsSeatOf self.now.deal.now back × (back.number ≡ seat.number)) }
    {
        let called_off = self.called_off;
        if called_off.load(SeqCst) {
            return Err(seat);
        }
        let promise = Promised {
            deal: self.deal,
            task: self.task,
            number: seat.number(),
        };
        let alloc = self.alloc;
        let deal = self.deal;
        let task = self.task;
        let job = move || -> Worked<K::Made>
            requires { IsSeatOf deal.now seat × (seat.seen ≡ []) × (K.count task.now ≡ deal.now.pieces) }
            ensures { IsWorked deal.entry.now (K.makes task.entry.now) seat.number result }
        { work(alloc, deal, seat, task, called_off) };
        match self.scope.spawn_with(promise, job) {
            Ok(handle) => Ok(handle),
            Err(refused) => {
                called_off.store(true, SeqCst);
                // The job has the seat. It is called off, so that it takes no place, and hands the seat back.
                let job = refused.value;
                Err(job().seat)
            }
        }
    }

    // Joins the threads, and puts what comes back of each seat into lists that have room for it.
    fn joined<R: Threads>(
        &self,
        rt: &R,
        begun: Vec<Result<PromisedHandle<Worked<K::Made>, Promised<'s, K>>, Seat>>,
        room: Returned<K::Made>,
    ) -> Returned<K::Made>
        requires empty { (room.seats.items ≡ []) × (room.given.items ≡ []) }
        requires room { (vec_len begun ≤ vec_capacity room.seats) × (vec_len begun ≤ vec_capacity room.given) }
        requires many { length begun.items ≡ self.now.deal.now.seats }
        requires started { AllNumbered (λ number one. IfOk one (λ handle. (handle.promise.deal.now ≡ self.now.deal.now)
            × (handle.promise.task.now ≡ self.now.task.now) × (handle.promise.number ≡ number))) 0 begun.items }
        requires refused { AllNumbered (λ number one. IfErr one (λ seat. IsSeatOf self.now.deal.now seat × (seat.number ≡ number))) 0 begun.items }
        ensures back { AreBack self.now.deal.now (K.makes self.now.task.now) result.seats.items result.given.items }
    {
        let Returned {
            mut seats,
            mut given,
        } = room;
        for one in begun {
            let back = self.back(rt, one);
            seats.push_reserved(back.seat);
            given.push_reserved(back.given);
        }
        Returned { seats, given }
    }

    // What comes back of a seat: what its worker hands back, or the seat alone where it got no thread.
    fn back<R: Threads>(
        &self,
        rt: &R,
        begun: Result<PromisedHandle<Worked<K::Made>, Promised<'s, K>>, Seat>,
    ) -> Worked<K::Made>
        requires started { IfOk begun (λ handle. (handle.promise.deal.now ≡ self.now.deal.now) × (handle.promise.task.now ≡ self.now.task.now)) }
        requires refused { IfErr begun (λ seat. IsSeatOf self.now.deal.now seat) }
        ensures started { IfOk begun.entry (λ handle. IsBack self.now.deal.now (K.makes self.now.task.now) handle.promise.number result) }
        ensures refused { IfErr begun.entry (λ seat. IsBack self.now.deal.now (K.makes self.now.task.now) seat.number result) }
    {
        match begun {
            Ok(handle) => handle.join(rt),
            Err(seat) => Worked {
                seat,
                given: Err(Refused::NoWorker),
            },
        }
    }
}

// What a worker hands back, by what it was started with.
#[derive(Drop)]
struct Promised<'a, K> {
    deal: &'a Deal,
    task: &'a K,
    number: u64,
}

impl<'a, K: Task> Promise<Worked<K::Made>> for Promised<'a, K> {
    ghost use Rattle.crew.specs.Works.{IsWorked};

    ghost kept_by = { λ promise worked. IsWorked promise.deal.now (K.makes promise.task.now) promise.number worked };
}
