//! The groups of rows whose columns are at hand, which workers gather list by list.
ghost use Rattle.std.specs.Prelude.{◌≡◌, ◌<◌, ◌⊎◌, ◌++◌, ◌∷◌, ℕ, List, [], length, min, vec_len, IfErr, IfOk};
ghost use Rattle.cells.specs.Values.{RowValue};
ghost use Rattle.cells.specs.declared.refused.Refused.TheVariants as Refused;
ghost use Rattle.columns.specs.Columns.{Hold};
ghost use Rattle.crew.specs.Gathering.{AreMadeOf, MayBeJoined};
ghost use Rattle.crew.specs.Limits.{workers_of};
ghost use Rattle.crew.specs.Listing.{AreDealt, FoldsLists, list_count, rows_listed};
ghost use Rattle.crew.specs.Shares.{AreShared};
ghost use Rattle.crew.specs.Tasks.{MayTake};
ghost use Rattle.groups.specs.Dealing.{indexes_of};
ghost use Rattle.groups.specs.Folds.{Folds, MayEnd};
ghost use Rattle.groups.specs.Groups.{kept};
ghost use Rattle.groups.specs.Needed.{Serve};
ghost use Rattle.groups.specs.Numbered.{HoldCount};

use crate::sharing::{share_out, workers_of};
use crate::task::Task;
use cells::{Cell, KeyHash, Refused, Tuple};
use columns::Columns;
use groups::{Dealt, Folding, any_order, deal_out};
use query::Plan;
use std::alloc::{AllocError, Global};
use std::marker::{Model, PhantomData};
use std::mem;
use std::sync::Wait;
use std::thread::Threads;

// So many at least that what is made of the groups of each list costs little beside its rows.
const FEWEST_ROWS: u64 = 262_144;

// So many at most that what is noted of each row of a list takes little memory.
const MOST_ROWS: u64 = 4_194_304;

/// The folding of those rows for which the plan's WHERE is true, of `count` rows whose columns are at hand, which are
/// at most 4,294,967,296. The rows are dealt out to as many lists as there are workers, but to fewer where a list would have fewer
/// than 262,144 rows, and to more where it would have more than 4,194,304; [`deal_out`](groups::deal_out) says how. As many workers as the smaller of
/// `workers`, taken as 1 at least and [`MAX_SEATS`](crate::MAX_SEATS) at most, and the number of lists draw these until none are
/// left, each in a thread of its own; which worker takes which list has no effect. It owns what it keeps.
///
/// [`Refused::NoWorker`] where a thread could not be started; otherwise [`Refused::OutOfMemory`] where there was no
/// memory, here or for a worker. All threads that were started are joined before this returns, however it ends.
pub fn gather_rows<'a, H: KeyHash<Cell> + KeyHash<Tuple> + Send + Sync, R: Threads + Wait>(
    rt: &R,
    alloc: Global,
    plan: &'a Plan,
    columns: &Columns,
    count: u64,
    workers: u64,
) -> Result<Folding<'a, H>, Refused>
    requires rows { HoldCount columns.now count }
    requires serve { Serve plan.now columns.now }
    ensures folds { (rows : List RowValue) → Hold rows columns.now → length rows ≡ count →
        IfOk result (Folds plan.now (kept plan.now.condition rows)) }
    ensures end { IfOk result MayEnd }
    ensures refused { IfErr result (λ e. (e ≡ Refused.NoWorker) ⊎ (e ≡ Refused.OutOfMemory)) }
{
    let lists = list_count(count, workers);
    let dealt = deal_out(alloc, plan, columns, count as usize, lists as usize)?;
    let folding = gather_lists(rt, alloc, plan, columns, count, &dealt, workers);
    drop(dealt);
    folding
}

/// The same of rows that were dealt out.
fn gather_lists<'a, H: KeyHash<Cell> + KeyHash<Tuple> + Send + Sync, R: Threads + Wait>(
    rt: &R,
    alloc: Global,
    plan: &'a Plan,
    columns: &Columns,
    count: u64,
    dealt: &Dealt,
    workers: u64,
) -> Result<Folding<'a, H>, Refused>
    requires rows { HoldCount columns.now count }
    requires serve { Serve plan.now columns.now }
    requires dealt { AreDealt count (indexes_of dealt.now.lists.items) }
    ensures folds { (rows : List RowValue) → Hold rows columns.now → length rows ≡ count →
        IfOk result (Folds plan.now (kept plan.now.condition rows)) }
    ensures end { IfOk result MayEnd }
    ensures refused { IfErr result (λ e. (e ≡ Refused.NoWorker) ⊎ (e ≡ Refused.OutOfMemory)) }
{
    let listing = Listing {
        plan,
        columns,
        count,
        lists: dealt.lists.as_slice(),
        apart: dealt.apart,
        hash: PhantomData,
    };
    let foldings = list_foldings(rt, alloc, &listing, workers)?;
    Ok(joined(alloc, plan, foldings)?)
}

/// A folding of each worker, of the lists that it drew. There are as many workers as the smaller of `workers` and the number of
/// lists.
fn list_foldings<'a, H: KeyHash<Cell> + KeyHash<Tuple> + Send + Sync, R: Threads + Wait>(
    rt: &R,
    alloc: Global,
    listing: &Listing<'a, '_, H>,
    workers: u64,
) -> Result<Vec<Folding<'a, H>>, Refused>
    ensures shared { IfOk result (λ v. AreShared (FoldsLists listing.now) (length listing.now.lists) v.items) }
    ensures workers { IfOk result (λ v. vec_len v ≡ min (workers_of workers) (length listing.now.lists)) }
    ensures refused { IfErr result (λ e. (e ≡ Refused.NoWorker) ⊎ (e ≡ Refused.OutOfMemory)) }
{
    listing.rows_are_few();
    share_out(rt, alloc, listing.lists.len() as u64, workers, listing)
}

/// The folding of rows for which the plan's WHERE is true, from the foldings of the workers who shared them, which are joined in
/// their order.
fn joined<'a, H: KeyHash<Cell> + KeyHash<Tuple>>(
    alloc: Global,
    plan: &'a Plan,
    foldings: Vec<Folding<'a, H>>,
) -> Result<Folding<'a, H>, AllocError>
    requires { MayBeJoined plan.now foldings.items }
    ensures folds { (rows : List RowValue) → AreMadeOf (Folds plan.now) rows foldings.entry.items →
        IfOk result (Folds plan.now rows) }
    ensures end { IfOk result MayEnd }
{
    // This does nothing: it is the law that the order of rows does not count.
    any_order::<H>();
    let mut all = Folding::new(alloc, plan)?;
    for folding in foldings {
        all = all.join(alloc, folding)?;
    }
    Ok(all)
}

/// To how many lists rows are dealt out, where so many are shared by so many workers.
fn list_count(count: u64, workers: u64) -> u64
    ensures { result ≡ list_count count workers }
{
    let size = count
        .div_ceil(workers_of(workers))
        .min(MOST_ROWS)
        .max(FEWEST_ROWS);
    count.div_ceil(size).max(1)
}

/// The work on all lists: each worker folds those that it draws into groups of its own.
#[derive(Drop)]
struct Listing<'a, 'l, H: KeyHash<Cell>> {
    plan: &'a Plan,
    columns: &'l Columns,
    // how many rows the columns hold
    count: u64,
    lists: &'l [Vec<u32>],
    // whether rows of one tuple stand in one list, as far as is known
    apart: bool,
    // by which foldings hash
    hash: PhantomData<H>,
}

impl<'a, 'l, H: KeyHash<Cell>> Model for Listing<'a, 'l, H> {
    ghost use Rattle.std.specs.Coded.{codes};
    ghost use Rattle.cells.specs.Codes.{coded_cell};
    ghost use Rattle.crew.specs.Listing.{AreDealt, Listed};
    ghost use Rattle.groups.specs.Dealing.{indexes_of};
    ghost use Rattle.groups.specs.Needed.{Serve};
    ghost use Rattle.groups.specs.Numbered.{HoldCount};
    ghost use Rattle.query.specs.Codes.{coded_predicate};

    ghost Value = { Listed };

    ghost coded = { Prim.hlevel (codes, coded_cell, coded_predicate) };

    ghost view = { λ l. record { plan = l.plan.now; columns = l.columns.now; count = l.count; lists = indexes_of l.lists.now } };

    ghost invariant = { λ l. HoldCount l.columns.now l.count × AreDealt l.count (indexes_of l.lists.now) × Serve l.plan.now l.columns.now };
}

impl<'a, 'l, H: KeyHash<Cell> + KeyHash<Tuple>> Listing<'a, 'l, H> {
    /// It does nothing: that the columns hold so many rows, which are few enough, that each is in one of the lists, and that the
    /// columns are those that the plan needs, is known of each value.
    fn rows_are_few(&self)
        ensures held { HoldCount self.now.columns self.now.count }
        ensures dealt { AreDealt self.now.count self.now.lists }
        ensures serve { Serve self.now.plan self.now.columns }
    {
        let _ = &self.plan;
    }

    /// The folding of the list at the place.
    fn list(&self, alloc: Global, place: u64) -> Result<Folding<'a, H>, AllocError>
        requires { place < length self.now.lists }
        ensures { (rows : List RowValue) → Hold rows self.now.columns →
            IfOk result (Folds self.now.plan (kept self.now.plan.condition (rows_listed self.now.lists rows place))) }
    {
        self.rows_are_few();
        let rows = self.lists[place as usize].as_slice();
        Folding::of_rows(alloc, self.plan, self.columns, rows, self.apart)
    }

    /// What was folded of some lists, with the list at the place after them.
    fn with_list(
        &self,
        alloc: Global,
        before: Folding<'a, H>,
        place: u64,
    ) -> Result<Folding<'a, H>, AllocError>
        requires { MayTake (FoldsLists self.now) (length self.now.lists) before place }
        ensures { (places : List ℕ) → FoldsLists self.now places before.entry → IfOk result (FoldsLists self.now (places ++ place ∷ [])) }
    {
        self.rows_are_few();
        let list = self.list(alloc, place)?;
        Ok(before.join(alloc, list)?)
    }
}

impl<'a, 'l, H: KeyHash<Cell> + KeyHash<Tuple> + Send + Sync> Task for Listing<'a, 'l, H> {
    ghost use Rattle.std.specs.Prelude.{length};
    ghost use Rattle.crew.specs.Listing.{FoldsLists};

    type Made = Folding<'a, H>;

    ghost count = { λ l. length l.lists };

    ghost makes = { λ l places made. FoldsLists l places made };

    fn begin(&self, alloc: Global) -> Result<Folding<'a, H>, AllocError> {
        Folding::new(alloc, self.plan)
    }

    fn take(&self, alloc: Global, made: &mut Folding<'a, H>, place: u64) -> Result<(), AllocError> {
        let none = Folding::new(alloc, self.plan)?;
        let before = mem::replace(made, none);
        *made = self.with_list(alloc, before, place)?;
        Ok(())
    }
}
