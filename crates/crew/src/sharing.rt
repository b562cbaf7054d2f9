//! Places shared out among workers.
ghost use Rattle.std.specs.Prelude.{◌≡◌, ◌≤◌, ◌⊎◌, ◌↔◌, [], Any, map, min, Ok, true, vec_capacity, vec_len, IfErr, IfOk, IsErrOf};
ghost use Rattle.std.specs.Result.{is_err};
ghost use Rattle.cells.specs.declared.refused.Refused.TheVariants as Refused;
ghost use Rattle.crew.specs.Limits.{piece_limit, workers_of};
ghost use Rattle.crew.specs.Shares.{AreShared};

use crate::deal::{Deal, draws_rise};
use crate::limits::MAX_SEATS;
use crate::running::{Returned, run_all};
use crate::task::Task;
use cells::Refused;
use std::alloc::Global;
use std::sync::Wait;
use std::thread::Threads;

/// Shares the places below `count` out among workers, each in a thread of its own, and gives what they made in the order
/// of the workers. There are as many workers as the smaller of `workers`, which counts as 1 where it is 0, and as
/// [`MAX_SEATS`] where it is more, and `count`, which is at most [`MAX_PIECES`](crate::MAX_PIECES). No worker has a fixed
/// share: each draws one place after another until none are left, so it is not said who draws which, but each place is
/// drawn once. A single worker needs no thread: it is the caller's.
///
/// [`Refused::NoWorker`] comes where a thread could not be started; otherwise [`Refused::OutOfMemory`] where there was
/// no memory, here or for a worker. All threads that were started are joined before this returns, however it ends. It
/// may wait: that a task's methods return is not promised.
pub fn share_out<K: Task, R: Threads + Wait>(
    rt: &R,
    alloc: Global,
    count: u64,
    workers: u64,
    task: &K,
) -> Result<Vec<K::Made>, Refused>
    requires count { (K.count task.now ≡ count) × (count ≤ piece_limit) }
    ensures shared { IfOk result (λ v. AreShared (K.makes task.now) count v.items) }
    ensures workers { IfOk result (λ v. vec_len v ≡ min (workers_of workers) count) }
    ensures refused { IfErr result (λ e. (e ≡ Refused.NoWorker) ⊎ (e ≡ Refused.OutOfMemory)) }

    // Where there are no places, nothing is refused.
    ensures some { IfErr result (λ _. 1 ≤ count) }
{
    if count == 0 {
        return Ok(Vec::new(alloc));
    }
    let workers = workers_of(workers).min(count);
    if workers == 1 {
        return alone(alloc, count, task);
    }
    draws_rise();
    let (deal, seats) = Deal::new(alloc, count, workers)?;
    // The lists are made before a thread is started, so that none is wanted between the work and the end of the deal.
    let all = Vec::with_capacity(alloc, seats.len())?;
    let Returned { seats, given } = run_all(rt, alloc, &deal, seats, task)?;
    deal.close(seats);
    all_given(all, given)
}

// What one worker makes of all places, in the thread of the caller.
fn alone<K: Task>(alloc: Global, count: u64, task: &K) -> Result<Vec<K::Made>, Refused>
    requires count { (K.count task.now ≡ count) × (1 ≤ count) }
    ensures shared { IfOk result (λ v. AreShared (K.makes task.now) count v.items) }
    ensures workers { IfOk result (λ v. vec_len v ≡ 1) }
    ensures refused { IfErr result (λ e. e ≡ Refused.OutOfMemory) }
{
    let mut made = task.begin(alloc)?;
    for place in 0..count {
        task.take(alloc, &mut made, place)?;
    }
    let mut all = Vec::with_capacity(alloc, 1)?;
    all.push(made)?;
    Ok(all)
}

// As many workers as are asked for, but one at least, and no more than there are seats.
pub(crate) fn workers_of(workers: u64) -> u64
    ensures { result ≡ workers_of workers }
{
    workers.max(1).min(MAX_SEATS)
}

// What was given at all seats, put into a list that has room for it. Want of a worker goes before want of memory.
fn all_given<T: Drop>(mut all: Vec<T>, given: Vec<Result<T, Refused>>) -> Result<Vec<T>, Refused>
    requires { (all.items ≡ []) × (vec_len given ≤ vec_capacity all) }
    ensures given { IfOk result (λ v. given.items ≡ map Ok v.items) }
    ensures refused { IfErr result (λ e. (e ≡ Refused.NoWorker) ⊎ (e ≡ Refused.OutOfMemory)) }
    ensures worker { IsErrOf result Refused.NoWorker ↔ Any (λ one. IsErrOf one Refused.NoWorker) given.items }
    ensures memory { IsErrOf result Refused.OutOfMemory → Any (λ one. is_err one ≡ true) given.items }
{
    if given
        .iter()
        .any(|one| matches!(one, Err(Refused::NoWorker)))
    {
        return Err(Refused::NoWorker);
    }
    for one in given {
        let Ok(one) = one else {
            return Err(Refused::OutOfMemory);
        };
        all.push_reserved(one);
    }
    Ok(all)
}
