//! What a worker has of the pieces that it drew.
ghost use Rattle.std.specs.Prelude.{◌≡◌, ◌+◌, ◌≤◌, ◌++◌, [], List, length, IfOk, OnOk};
ghost use Rattle.aggs.specs.Room.{cell_limit};
ghost use Rattle.cells.specs.Values.{RowValue};
ghost use Rattle.columns.specs.Columns.{Hold};
ghost use Rattle.crew.specs.Gathered.{Gathers, MayFold, MayMeet};
ghost use Rattle.groups.specs.Needed.{Serve};
ghost use Rattle.groups.specs.Partials.{rows_of};
ghost use Rattle.query.specs.Plans.{PlanTree};

use cells::{Cell, KeyHash, Tuple};
use columns::{Columns, RowPiece};
use groups::{Folding, has_few_groups, needed_columns};
use query::Plan;
use std::alloc::{AllocError, Global};
use std::mem;
use std::sync::Wait;

// So many rows make a batch: what is made of their groups costs little beside them. A piece of so many rows is one by itself, so that
// none of its columns is copied.
const BATCH_ROWS: u64 = 2_048;

// To join the groups of two batches costs as much as to fold some dozens of rows for each. So a batch has so many times the rows for
// which its groups are few, unless no more may come.
const BATCH_SHARE: u64 = 8;

/// The rows of some pieces: some of them are folded, and the columns that the plan needs hold the others. Where groups are few,
/// a worker folds the rows that it drew batch by batch, so that they stay near; where they may be many, the columns of all rows are
/// put together first, and rows are dealt out by their groups.
#[derive(Drop)]
pub(crate) struct Gathered<'a, H: KeyHash<Cell>> {
    pub folding: Folding<'a, H>,
    pub columns: Columns,
    // how many rows the columns hold
    pub count: u64,
}

impl<'a, H: KeyHash<Cell> + KeyHash<Tuple>> Gathered<'a, H> {
    /// No rows.
    pub fn new(alloc: Global, plan: &'a Plan) -> Result<Gathered<'a, H>, AllocError>
        ensures { IfOk result (Gathers plan.now []) }
    {
        let folding = Folding::new(alloc, plan)?;
        let columns = no_rows(alloc, plan)?;
        Ok(Gathered {
            folding,
            columns,
            count: 0,
        })
    }

    /// Takes the rows of a piece, by the columns that lie beside it. It tells how many columns were laid out for that.
    pub fn take<R: Wait>(
        &mut self,
        rt: &R,
        alloc: Global,
        piece: &RowPiece<H>,
    ) -> Result<u64, AllocError>
        requires { self.old.count + length piece.now ≤ cell_limit }
        ensures { (plan : PlanTree) (rows : List RowValue) → Gathers plan rows self.old →
            OnOk result (Gathers plan (rows ++ rows_of piece.now) self.new) }
    {
        let laid = self.columns.take_kept(rt, alloc, piece)?;
        self.count += piece.len();
        Ok(laid)
    }

    /// Whether it pays to fold the rows of the columns now: they have few groups, and are a batch, or no more may come. Nothing
    /// rests on it.
    pub fn is_batch(&self, plan: &Plan, may_be_last: bool) -> bool {
        if may_be_last {
            return has_few_groups(plan, &self.columns, self.count);
        }
        self.count >= BATCH_ROWS && has_few_groups(plan, &self.columns, self.count / BATCH_SHARE)
    }

    /// Folds the rows of the columns.
    pub fn fold(&mut self, alloc: Global, plan: &'a Plan) -> Result<(), AllocError>
        requires { MayFold plan.now self.old }
        ensures { (rows : List RowValue) → Gathers plan.now rows self.old → OnOk result (Gathers plan.now rows self.new) }
    {
        let none = Gathered::new(alloc, plan)?;
        let before = mem::replace(self, none);
        *self = before.folded(alloc, plan)?;
        Ok(())
    }

    /// The same rows, all of them folded.
    fn folded(self, alloc: Global, plan: &'a Plan) -> Result<Gathered<'a, H>, AllocError>
        requires { MayFold plan.now self }
        ensures { (rows : List RowValue) → Gathers plan.now rows self.entry → IfOk result (Gathers plan.now rows) }
    {
        let Gathered {
            folding,
            columns,
            count,
        } = self;
        let more = Folding::of_columns(alloc, plan, &columns, count)?;
        drop(columns);
        let folding = folding.join(alloc, more)?;
        let columns = no_rows(alloc, plan)?;
        Ok(Gathered {
            folding,
            columns,
            count: 0,
        })
    }

    /// These rows and those of another one of the same plan.
    pub fn with(self, alloc: Global, other: Gathered<'a, H>) -> Result<Gathered<'a, H>, AllocError>
        requires { MayMeet self other }
        ensures { (plan : PlanTree) (rows more : List RowValue) → Gathers plan rows self.entry → Gathers plan more other.entry →
            IfOk result (Gathers plan (rows ++ more)) }
    {
        let Gathered {
            folding,
            columns,
            count,
        } = self;
        let Gathered {
            folding: others,
            columns: more,
            count: more_count,
        } = other;
        let columns = columns.with(alloc, &more)?;
        drop(more);
        let folding = folding.join(alloc, others)?;
        Ok(Gathered {
            folding,
            columns,
            count: count + more_count,
        })
    }
}

/// The columns that the plan needs, of no rows.
fn no_rows(alloc: Global, plan: &Plan) -> Result<Columns, AllocError>
    ensures none { IfOk result (Hold []) }
    ensures serve { IfOk result (Serve plan.now) }
{
    let needed = needed_columns(alloc, plan)?;
    Ok(Columns::of_named(alloc, needed.as_slice())?)
}
