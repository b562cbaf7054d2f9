//! The groups of the rows of a table's pieces, which workers gather, and the partial result of them.
ghost use Rattle.std.specs.Prelude.{◌≡◌, ◌<◌, ◌≤◌, ◌⊎◌, [], List, length, min, slice_index_or, vec_len, IfErr, IfOk};
ghost use Rattle.aggs.specs.Room.{cell_limit};
ghost use Rattle.cells.specs.declared.refused.Refused.TheVariants as Refused;
ghost use Rattle.cells.specs.Values.{RowValue};
ghost use Rattle.crew.specs.Gathered.{Gathers, MayAllMeet, MayFold};
ghost use Rattle.crew.specs.Gathering.{AreMadeOf, rows_at, rows_in};
ghost use Rattle.crew.specs.Limits.{piece_limit, workers_of};
ghost use Rattle.crew.specs.Shares.{AreShared};
ghost use Rattle.groups.specs.Folds.{Folds, MayEnd};
ghost use Rattle.groups.specs.Groups.{kept};
ghost use Rattle.groups.specs.Partials.{Stands};

use crate::gate::Gate;
use crate::gathered::Gathered;
use crate::listing::gather_rows;
use crate::sharing::share_out;
use crate::task::Task;
use cells::{Cell, KeyHash, Refused, Tuple};
use columns::{Columns, RowPiece};
use groups::{Folding, Partial, any_order};
use query::Plan;
use std::alloc::{AllocError, Global};
use std::marker::Model;
use std::sync::Wait;
use std::thread::Threads;

// How often at most a worker goes over the pieces at which columns are wanting, to lay them out, before it draws the first.
const ROUNDS: u64 = 2;

/// The partial result of the rows of all pieces, of which there are at most [`MAX_PIECES`](crate::MAX_PIECES), for
/// which the plan's WHERE is true. The pieces have at most 4,294,967,296 rows. As many workers as the smaller of `workers`,
/// taken as 1 at least and [`MAX_SEATS`](crate::MAX_SEATS) at most, and the number of pieces draw pieces until none are
/// left, each in a thread of its own. They put the columns that the plan needs together from those that lie beside the pieces; what is
/// not there yet is laid out, and stays where a piece has a place for it. Rows that have few groups they fold as they come; those of
/// many groups are folded when all columns are there. Which worker takes which piece has no effect. The gate is told of each piece
/// that a worker takes, before and after, also where memory was refused.
///
/// [`Refused::NoWorker`] where a thread could not be started; otherwise [`Refused::OutOfMemory`] where there was no
/// memory, here or for a worker. All threads that were started are joined before this returns, however it ends.
pub fn gather<H: KeyHash<Cell> + KeyHash<Tuple> + Send + Sync, G: Gate, R: Threads + Wait + Sync>(
    rt: &R,
    alloc: Global,
    plan: &Plan,
    pieces: &[RowPiece<H>],
    workers: u64,
    gate: &G,
) -> Result<Partial<H>, Refused>
    requires rows { length (rows_in pieces.now) ≤ cell_limit }
    requires pieces { length pieces.now ≤ piece_limit }
    ensures stands { IfOk result (λ partial. Stands H.KeyHash-2.hash_of plan.now (kept plan.now.condition (rows_in pieces.now)) partial) }
    ensures refused { IfErr result (λ e. (e ≡ Refused.NoWorker) ⊎ (e ≡ Refused.OutOfMemory)) }
{
    let folding = gather_pieces(rt, alloc, plan, pieces, workers, gate)?;
    Ok(folding.into_partial(alloc)?)
}

/// The folding of the rows of all pieces for which the plan's WHERE is true: what [`gather`] makes the partial result of, by as
/// many workers, and refused as that is.
pub fn gather_pieces<
    'a,
    H: KeyHash<Cell> + KeyHash<Tuple> + Send + Sync,
    G: Gate,
    R: Threads + Wait + Sync,
>(
    rt: &R,
    alloc: Global,
    plan: &'a Plan,
    pieces: &[RowPiece<H>],
    workers: u64,
    gate: &G,
) -> Result<Folding<'a, H>, Refused>
    requires rows { length (rows_in pieces.now) ≤ cell_limit }
    requires pieces { length pieces.now ≤ piece_limit }
    ensures folds { IfOk result (Folds plan.now (kept plan.now.condition (rows_in pieces.now))) }
    ensures end { IfOk result MayEnd }
    ensures refused { IfErr result (λ e. (e ≡ Refused.NoWorker) ⊎ (e ≡ Refused.OutOfMemory)) }
{
    let gathering = Gathering {
        rt,
        plan,
        pieces,
        workers,
        gate,
    };
    let gathered = gathered_by_all(alloc, &gathering)?;
    let all = all_together(alloc, plan, gathered)?;
    finished(rt, alloc, plan, all, workers)
}

/// What each worker has of the pieces that it drew. There are as many workers as the smaller of those that are asked for and the
/// number of pieces.
fn gathered_by_all<
    'a,
    H: KeyHash<Cell> + KeyHash<Tuple> + Send + Sync,
    G: Gate,
    R: Threads + Wait + Sync,
>(alloc: Global, gathering: &Gathering<'a, '_, H, G, R>) -> Result<Vec<Gathered<'a, H>>, Refused>
    requires pieces { length gathering.now.pieces ≤ piece_limit }
    ensures shared { IfOk result (λ v. AreShared (λ places. Gathers gathering.now.plan (rows_at gathering.now.pieces places))
        (length gathering.now.pieces) v.items) }
    ensures workers { IfOk result (λ v. vec_len v ≡ min (workers_of gathering.now.workers) (length gathering.now.pieces)) }
    ensures refused { IfErr result (λ e. (e ≡ Refused.NoWorker) ⊎ (e ≡ Refused.OutOfMemory)) }
{
    let rt = gathering.rt;
    share_out(
        rt,
        alloc,
        gathering.pieces.len() as u64,
        gathering.workers,
        gathering,
    )
}

/// What all workers have, put together in their order.
fn all_together<'a, H: KeyHash<Cell> + KeyHash<Tuple>>(
    alloc: Global,
    plan: &'a Plan,
    gathered: Vec<Gathered<'a, H>>,
) -> Result<Gathered<'a, H>, AllocError>
    requires { MayAllMeet plan.now gathered.items }
    ensures { (rows : List RowValue) → AreMadeOf (Gathers plan.now) rows gathered.entry.items → IfOk result (Gathers plan.now rows) }
{
    let mut gathered = gathered.into_iter();
    let Some(mut all) = gathered.next() else {
        return Ok(Gathered::new(alloc, plan)?);
    };
    for one in gathered {
        all = all.with(alloc, one)?;
    }
    Ok(all)
}

/// The folding of the rows that were gathered: those that are not folded yet are shared out among workers.
fn finished<'a, H: KeyHash<Cell> + KeyHash<Tuple> + Send + Sync, R: Threads + Wait>(
    rt: &R,
    alloc: Global,
    plan: &'a Plan,
    gathered: Gathered<'a, H>,
    workers: u64,
) -> Result<Folding<'a, H>, Refused>
    requires may { MayFold plan.now gathered }
    ensures folds { (rows : List RowValue) → Gathers plan.now rows gathered.entry →
        IfOk result (Folds plan.now (kept plan.now.condition rows)) }
    ensures end { IfOk result MayEnd }
    ensures refused { IfErr result (λ e. (e ≡ Refused.NoWorker) ⊎ (e ≡ Refused.OutOfMemory)) }
{
    // This does nothing: it is the law that the order of rows does not count.
    any_order::<H>();
    let Gathered {
        folding,
        columns,
        count,
    } = gathered;
    if count == 0 {
        return Ok(folding);
    }
    let more = gather_rows(rt, alloc, plan, &columns, count, workers)?;
    drop(columns);
    Ok(folding.join(alloc, more)?)
}

/// The work on all pieces: each worker takes the rows of those that it draws.
#[derive(Drop)]
struct Gathering<'a, 'p, H: KeyHash<Cell>, G, R> {
    rt: &'p R,
    plan: &'a Plan,
    pieces: &'p [RowPiece<H>],
    // how many workers are asked for
    workers: u64,
    gate: &'p G,
}

impl<'a, 'p, H: KeyHash<Cell>, G, R> Model for Gathering<'a, 'p, H, G, R> {
    ghost use Rattle.std.specs.Prelude.{◌≤◌, length};
    ghost use Rattle.std.specs.Coded.{codes};
    ghost use Rattle.aggs.specs.Room.{cell_limit};
    ghost use Rattle.cells.specs.Codes.{coded_cell, coded_row};
    ghost use Rattle.crew.specs.Gathered.{Asked};
    ghost use Rattle.crew.specs.Gathering.{rows_in};
    ghost use Rattle.query.specs.Codes.{coded_predicate};

    ghost Value = { Asked };

    ghost coded = { Prim.hlevel (codes, coded_cell, coded_row, coded_predicate) };

    ghost view = { λ g. record { plan = g.plan.now; pieces = g.pieces.now; workers = g.workers } };

    ghost invariant = { λ g. length (rows_in g.pieces.now) ≤ cell_limit };
}

impl<'a, 'p, H: KeyHash<Cell>, G, R> Gathering<'a, 'p, H, G, R> {
    /// It does nothing: that the pieces have few enough rows is known of each value.
    fn rows_are_few(&self)
        ensures { length (rows_in self.now.pieces) ≤ cell_limit }
    {
        let _ = &self.plan;
    }

    /// The piece at the place.
    fn piece(&self, place: u64) -> &RowPiece<H>
        requires { place < length self.now.pieces }
        ensures { result.now ≡ slice_index_or self.now.pieces place [] }
    {
        let pieces = self.pieces;
        &pieces[place as usize]
    }

    /// Whether the worker that drew the place may draw no other one. Nothing rests on it.
    fn may_be_last(&self, place: u64) -> bool {
        (self.pieces.len() as u64).saturating_sub(place) <= self.workers
    }
}

impl<'a, 'p, H: KeyHash<Cell>, G, R: Wait> Gathering<'a, 'p, H, G, R> {
    /// Asks for the columns at all pieces. The places of those at which one of them is not laid out yet. Nothing rests on them.
    fn wanting(&self, alloc: Global, columns: &Columns) -> Result<Vec<usize>, AllocError> {
        let mut wanting = Vec::new(alloc);
        for (place, piece) in self.pieces.iter().enumerate() {
            if columns.ask_for(self.rt, alloc, piece) {
                wanting.push(place)?;
            }
        }
        Ok(wanting)
    }
}

impl<'a, 'p, H: KeyHash<Cell> + KeyHash<Tuple> + Send + Sync, G: Gate, R: Wait + Sync> Task
    for Gathering<'a, 'p, H, G, R> {
    ghost use Rattle.std.specs.Prelude.{length};
    ghost use Rattle.crew.specs.Gathered.{Gathers};
    ghost use Rattle.crew.specs.Gathering.{rows_at};

    type Made = Gathered<'a, H>;

    ghost count = { λ g. length g.pieces };

    ghost makes = { λ g places made. Gathers g.plan (rows_at g.pieces places) made };

    // Reports that run beside each other come to the same pieces at the same time. So each asks for its columns at all pieces before
    // it lays out any, passes by pieces at which another one is, and comes to them once more. Nothing rests on it: who takes a piece
    // lays out what is wanting, or is refused.
    fn begin(&self, alloc: Global) -> Result<Gathered<'a, H>, AllocError> {
        let made = Gathered::new(alloc, self.plan)?;
        let wanting = self.wanting(alloc, &made.columns)?;
        for _round in 0..ROUNDS {
            let mut was_passed_by = false;
            for place in &wanting {
                let Some(piece) = self.pieces.get(*place) else {
                    continue;
                };
                match made.columns.lay_out_ahead(self.rt, alloc, piece) {
                    Ok(Some(laid)) => self.gate.laid_out(*place as u64, laid),
                    Ok(None) => was_passed_by = true,
                    Err(_) => {}
                }
            }
            if !was_passed_by {
                break;
            }
        }
        Ok(made)
    }

    fn take(
        &self,
        alloc: Global,
        made: &mut Gathered<'a, H>,
        place: u64,
    ) -> Result<(), AllocError> {
        self.rows_are_few();
        self.gate.entered(place);
        let taken = made.take(self.rt, alloc, self.piece(place));
        self.gate.left(place);
        let laid = taken?;
        self.gate.laid_out(place, laid);
        if made.is_batch(self.plan, self.may_be_last(place)) {
            made.fold(alloc, self.plan)?;
        }
        Ok(())
    }
}
