//! Rows as a trie: that of each share, and all of them together.
ghost use Rattle.std.specs.Prelude.{◌≡◌, ◌≤◌, ◌⊎◌, IfErr, IfOk, length};
ghost use Rattle.std.specs.List.{AllByRecursion, flat_map};
ghost use Rattle.loader.specs.Shares.{all_in, in_shares, pairs_in};
ghost use Rattle.loader.specs.Tries.{HoldsAll, HoldsShares, IsLaidOver, run_length};
ghost use Rattle.loader.specs.declared.fault.PartFault.TheVariants.{NoWorker, OutOfMemory};

use crate::fault::PartFault;
use crate::shares::{KeyedRows, SHARES, Share, Shares};
use cells::{Cell, KeyHash, Row, later_puts_lie_over, updates_make_a_map};
use columns::RowTrie;
use crew::{Gate, Open};
use std::alloc::{AllocError, Global};
use std::snapshot::Snapshot;
use std::sync::Wait;
use std::thread::{self, Promise, PromisedHandle, Scope, Threads};
use trie::{Later, Ticks, entries_are_a_map};

/// Shares of which one thread makes a trie.
#[derive(Drop)]
struct Run {
    shares: Vec<Share>,
    /// The place of which the gate is told before, if it is.
    place: Option<u64>,
}

/// Where rows come from: so many parts, which were read in so many pieces.
#[derive(Clone, Copy)]
pub(crate) struct Sources {
    pub parts: usize,
    pub pieces: usize,
}

/// The trie of the rows of parts, in which of the rows of a key the last one stands.
///
/// The shares are cut into runs. Where there are two pieces or more, there are as many runs as workers, and two at least:
/// of the first the gate is told as of the place at which the list of parts begins, and of the one in the middle as of the
/// list's middle. One worker makes one run after another, and more of them make a run each, at the same time.
///
/// [`PartFault::NoWorker`] where the thread of a run could not be started, otherwise [`PartFault::OutOfMemory`] where
/// there was no memory.
pub(crate) fn trie_of_shares<H: KeyHash<Cell> + Send + Sync, G: Gate, R: Threads + Wait>(
    rt: &R,
    alloc: Global,
    shares: Shares,
    sources: Sources,
    workers: u64,
    gate: &G,
) -> Result<RowTrie<H>, PartFault>
    ensures held { IfOk result (HoldsShares H.hash_of (in_shares shares.shares.items)) }
    ensures refused { IfErr result (λ e. (e ≡ NoWorker) ⊎ (e ≡ OutOfMemory)) }
{
    updates_make_a_map();
    let workers = workers.min(sources.pieces as u64).min(SHARES as u64) as usize;
    let runs = runs_of(alloc, shares.shares, sources, workers)?;
    if workers > 1 {
        side_by_side(rt, alloc, runs, gate)
    } else {
        Ok(one_by_one(alloc, runs, gate)?)
    }
}

/// The same in the thread that calls: one run of all shares.
pub(crate) fn trie_here<H: KeyHash<Cell>>(
    alloc: Global,
    shares: Shares,
) -> Result<RowTrie<H>, AllocError>
    ensures { IfOk result (HoldsShares H.hash_of (in_shares shares.shares.items)) }
{
    updates_make_a_map();
    let sources = Sources {
        parts: 1,
        pieces: 1,
    };
    let runs = runs_of(alloc, shares.shares, sources, 1)?;
    one_by_one(alloc, runs, &Open)
}

/// The shares of rows from these sources, in their order, in runs for so many workers. Each run has as many shares as the
/// first one, but for the last, which has what is left.
fn runs_of(
    alloc: Global,
    shares: Vec<Share>,
    sources: Sources,
    workers: usize,
) -> Result<Vec<Run>, AllocError>
    ensures all { IfOk result (λ runs. flat_map (λ run. run.shares.items) runs.items ≡ shares.items) }
    ensures even { IfOk result (λ runs. AllByRecursion (λ run. length run.shares.items ≤ run_length sources.pieces workers
        (length shares.items)) runs.items) }
{
    let count = if sources.pieces < 2 {
        1
    } else {
        workers.max(2)
    };
    let most = shares.len().div_ceil(count).max(1);
    let mut runs = Vec::with_capacity(alloc, count)?;
    let mut left = shares;
    while left.len() > most {
        let rest = left.split_off(most)?;
        let place = told_place(runs.len(), count, sources.parts);
        runs.push(Run {
            shares: left,
            place,
        })?;
        left = rest;
    }
    let place = told_place(runs.len(), count, sources.parts);
    runs.push(Run {
        shares: left,
        place,
    })?;
    Ok(runs)
}

/// The place of a list of so many parts of which the gate is told before this run of so many, if it is told.
fn told_place(run: usize, count: usize, parts: usize) -> Option<u64> {
    if count < 2 {
        None
    } else if run == 0 {
        Some(0)
    } else if run == count / 2 {
        Some((parts / 2) as u64)
    } else {
        None
    }
}

/// The trie of the rows of all runs, made one after another.
fn one_by_one<H: KeyHash<Cell>, G: Gate>(
    alloc: Global,
    runs: Vec<Run>,
    gate: &G,
) -> Result<RowTrie<H>, AllocError>
    ensures { IfOk result (HoldsAll (flat_map (λ run. all_in run.shares.items) runs.items)) }
{
    entries_are_a_map::<Cell, Row, H>();
    later_puts_lie_over();
    let mut all = RowTrie::empty();
    for run in runs {
        let more = trie_of_run(alloc, run, gate)?;
        all = merged(alloc, all, more)?;
    }
    Ok(all)
}

/// The trie of the rows of all runs, each made in a thread of its own. Where a thread can't be started, no more are.
fn side_by_side<H: KeyHash<Cell> + Send + Sync, G: Gate, R: Threads + Wait>(
    rt: &R,
    alloc: Global,
    runs: Vec<Run>,
    gate: &G,
) -> Result<RowTrie<H>, PartFault>
    ensures held { IfOk result (HoldsAll (flat_map (λ run. all_in run.shares.items) runs.items)) }
    ensures refused { IfErr result (λ e. (e ≡ NoWorker) ⊎ (e ≡ OutOfMemory)) }
{
    thread::scope(
        thread::scope_env(),
        rt,
        move |scope| -> Result<RowTrie<H>, PartFault>
            ensures held { IfOk result (HoldsAll (flat_map (λ run. all_in run.shares.items) runs.items)) }
            ensures refused { IfErr result (λ e. (e ≡ NoWorker) ⊎ (e ≡ OutOfMemory)) }
        {
            let mut begun = Vec::with_capacity(alloc, runs.len())?;
            for run in runs {
                begun.push(start_run(scope, alloc, run, gate)?)?;
            }
            Ok(joined(rt, alloc, begun)?)
        },
    )
}

/// Starts a thread in which the trie of a run is made.
fn start_run<'s, 'e: 's, H: KeyHash<Cell> + Send + Sync + 's, G: Gate>(
    scope: &Scope<'s, &'e ()>,
    alloc: Global,
    run: Run,
    gate: &'s G,
) -> Result<RunThread<H>, PartFault>
    ensures started { IfOk result (λ thread. thread.promise.shares.value ≡ run.shares) }
    ensures refused { IfErr result (λ e. e ≡ NoWorker) }
{
    let promise = RunTrie {
        shares: Snapshot::of(&run.shares),
    };
    let job = move || -> Result<RowTrie<H>, AllocError>
        ensures { IfOk result (HoldsAll (all_in run.shares.items)) }
    { trie_of_run(alloc, run, gate) };
    in_thread(scope, promise, job)
}

/// Starts a thread for a job that keeps the promise. It stands over any job, so that letting go of what a job owns is one
/// call.
fn in_thread<
    's,
    'e: 's,
    T: Send + Drop + 's,
    P: Promise<T> + Drop,
    F: FnOnce() -> T + Send + Drop + 's,
>(scope: &Scope<'s, &'e ()>, promise: P, job: F) -> Result<PromisedHandle<T, P>, PartFault>
    requires runs { F.pre job }
    requires keeps { (made : T) → F.post job made → P.kept_by promise made }
    ensures started { IfOk result (λ handle. handle.promise ≡ promise) }
    ensures refused { IfErr result (λ e. e ≡ NoWorker) }
{
    match scope.spawn_with(promise, job) {
        Ok(handle) => Ok(handle),
        Err(_) => Err(PartFault::NoWorker),
    }
}

/// What the thread of a run hands back: the trie of its rows.
#[derive(Drop)]
struct RunTrie {
    shares: Snapshot<Vec<Share>>,
}

impl<H: KeyHash<Cell>> Promise<Result<RowTrie<H>, AllocError>> for RunTrie {
    ghost use Rattle.std.specs.Prelude.{IfOk};
    ghost use Rattle.loader.specs.Shares.{all_in};
    ghost use Rattle.loader.specs.Tries.{HoldsAll};

    ghost kept_by = { λ promise trie. IfOk trie (HoldsAll (all_in promise.shares.value.items)) };
}

/// The thread in which the trie of a run is made.
type RunThread<H> = PromisedHandle<Result<RowTrie<H>, AllocError>, RunTrie>;

/// The trie of the rows of all runs, once their threads have made theirs.
fn joined<H: KeyHash<Cell>, R: Threads>(
    rt: &R,
    alloc: Global,
    begun: Vec<RunThread<H>>,
) -> Result<RowTrie<H>, AllocError>
    ensures { IfOk result (HoldsAll (flat_map (λ thread. all_in thread.promise.shares.value.items) begun.items)) }
{
    entries_are_a_map::<Cell, Row, H>();
    later_puts_lie_over();
    let mut all = RowTrie::empty();
    for thread in begun {
        let more = thread.join(rt)?;
        all = merged(alloc, all, more)?;
    }
    Ok(all)
}

/// The trie of the rows of a run, of which the gate is told before, if it is.
fn trie_of_run<H: KeyHash<Cell>, G: Gate>(
    alloc: Global,
    run: Run,
    gate: &G,
) -> Result<RowTrie<H>, AllocError>
    ensures { IfOk result (HoldsAll (all_in run.shares.items)) }
{
    if let Some(place) = run.place {
        gate.merging(place);
    }
    entries_are_a_map::<Cell, Row, H>();
    later_puts_lie_over();
    let mut all = RowTrie::empty();
    for share in run.shares {
        let more = trie_of(alloc, rows_of(alloc, share)?)?;
        all = merged(alloc, all, more)?;
    }
    Ok(all)
}

/// The rows of a share in one list, those of one piece behind those of another.
fn rows_of(alloc: Global, share: Share) -> Result<KeyedRows, AllocError>
    ensures { IfOk result (λ rows. rows.items ≡ pairs_in share.items) }
{
    let mut rows = Vec::new(alloc);
    for mut more in share {
        rows.append(&mut more)?;
    }
    Ok(rows)
}

/// The trie of rows, each beside its key, as if they were put one after another.
fn trie_of<H: KeyHash<Cell>>(alloc: Global, rows: KeyedRows) -> Result<RowTrie<H>, AllocError>
    ensures { IfOk result (HoldsAll rows.items) }
{
    entries_are_a_map::<Cell, Row, H>();
    RowTrie::from_pairs(alloc, rows)
}

/// The rows of two tries, where those of the second lie over those of the first.
fn merged<H: KeyHash<Cell>>(
    alloc: Global,
    first: RowTrie<H>,
    second: RowTrie<H>,
) -> Result<RowTrie<H>, AllocError>
    ensures { IfOk result (IsLaidOver first second) }
{
    entries_are_a_map::<Cell, Row, H>();
    later_puts_lie_over();
    // No memory holds rows whose number is too large for the sum.
    if first.len().checked_add(second.len()).is_none() {
        return Err(AllocError);
    }
    first.merge(alloc, &second, &Later, &mut Ticks::new())
}
