//! Rows folded into groups.
ghost use Rattle.std.specs.Prelude.{◌≡◌, ◌≤◌, ◌^◌, [], List, ◌++◌, IfOk, length};
ghost use Rattle.std.specs.List.{range_with_len};
ghost use Rattle.aggs.specs.Room.{cell_limit};
ghost use Rattle.cells.specs.Values.{RowValue};
ghost use Rattle.columns.specs.Columns.{Hold};
ghost use Rattle.groups.specs.Folds.{group_count, Folds, MayEnd, MayJoin};
ghost use Rattle.groups.specs.Groups.{kept, rows_over};
ghost use Rattle.groups.specs.Needed.{Serve};
ghost use Rattle.groups.specs.Numbered.{HaveRows, HoldCount, picked_rows};
ghost use Rattle.groups.specs.Partials.{Stands, rows_of};
ghost use Rattle.query.specs.Plans.{PlanTree};

use crate::aggregation::{Aggregation, aggregations};
use crate::columnar::sources_from;
use crate::keeping::kept_by;
use crate::meeting::all_with_others;
use crate::needed::needed_columns;
use crate::partial::Partial;
use crate::pool::SetBag;
use crate::pool_rows::rows_of_sources;
use crate::pool_tries::tries_of;
use crate::report_row::ReportRow;
use crate::sources::sources_of;
use cells::{Cell, KeyHash, Row, Tuple};
use columns::Columns;
use query::Plan;
use std::alloc::{AllocError, Global};
use trie::{Beside, Piece};

/// Groups of some rows, from which a partial result or the rows of a report are made. Rows are folded into the groups of a few
/// grouping sets alone, the sources, from which those of the others are made in the end. It owns copies of the cells that it
/// keeps, and borrows the plan.
#[derive(Drop)]
pub struct Folding<'a, H: KeyHash<Cell>> {
    plan: &'a Plan,
    aggregations: Vec<Aggregation>,
    sources: Vec<SetBag<H>>,
    // whether other foldings have no groups of its tuples, as far as is known; nothing rests on it
    apart: bool,
}

impl<'a, H: KeyHash<Cell> + KeyHash<Tuple>> Folding<'a, H> {
    /// No rows yet.
    pub fn new(alloc: Global, plan: &'a Plan) -> Result<Folding<'a, H>, AllocError>
        ensures { IfOk result (λ f. Folds plan.now [] f) }
    {
        let aggregations = aggregations(alloc, plan.items())?;
        let sources = sources_of(alloc, plan.sets())?;
        Ok(Folding {
            plan,
            aggregations,
            sources,
            apart: false,
        })
    }

    /// The folding of the rows of the piece for which the plan's WHERE is true. The piece has at most 4,294,967,296 rows.
    pub fn of_piece<S: Beside<Cell, Row>>(
        alloc: Global,
        plan: &'a Plan,
        piece: &Piece<Cell, Row, H, S>,
    ) -> Result<Folding<'a, H>, AllocError>
        requires { length piece.now ≤ cell_limit }
        ensures { IfOk result (Folds plan.now (kept plan.now.condition (rows_of piece.now))) }
    {
        let columns = columns_of_piece(alloc, plan, piece)?;
        Ok(Folding::of_columns(alloc, plan, &columns, piece.len())?)
    }

    /// The folding of those of all rows of the columns, of which there are so many, for which the plan's WHERE is true. The only
    /// error is that a growth was refused.
    pub fn of_columns(
        alloc: Global,
        plan: &'a Plan,
        columns: &Columns,
        count: u64,
    ) -> Result<Folding<'a, H>, AllocError>
        requires rows { HoldCount columns.now count }
        requires serve { Serve plan.now columns.now }
        ensures { (rows : List RowValue) → Hold rows columns.now → length rows ≡ count →
            IfOk result (Folds plan.now (kept plan.now.condition rows)) }
    {
        let rows = all_rows(alloc, count)?;
        Ok(Folding::of_rows(alloc, plan, columns, rows.as_slice(), false)?)
    }

    /// The folding of those rows for which the plan's WHERE is true, of the rows of these indexes, whose columns are at hand. The
    /// only error is that a growth was refused.
    ///
    /// `apart` says that no other rows have tuples of these, as [`deal_out`](crate::deal_out) deals them. It spares the
    /// search for such tuples when foldings are joined, and changes no row of a report.
    pub fn of_rows(
        alloc: Global,
        plan: &'a Plan,
        columns: &Columns,
        rows: &[u32],
        apart: bool,
    ) -> Result<Folding<'a, H>, AllocError>
        requires rows { HaveRows columns.now rows.now }
        requires serve { Serve plan.now columns.now }
        ensures { (all : List RowValue) → Hold all columns.now →
            IfOk result (Folds plan.now (kept plan.now.condition (picked_rows all rows.now))) }
    {
        let Some(predicate) = plan.condition() else {
            return Folding::of_all(alloc, plan, columns, rows, apart);
        };
        let kept = kept_by(alloc, predicate, columns, rows)?;
        Folding::of_all(alloc, plan, columns, kept.as_slice(), apart)
    }

    /// The folding of the rows of these indexes, whatever the plan's WHERE is for them.
    fn of_all(
        alloc: Global,
        plan: &'a Plan,
        columns: &Columns,
        rows: &[u32],
        apart: bool,
    ) -> Result<Folding<'a, H>, AllocError>
        requires rows { HaveRows columns.now rows.now }
        requires serve { Serve plan.now columns.now }
        ensures { (all : List RowValue) → Hold all columns.now →
            IfOk result (Folds plan.now (picked_rows all rows.now)) }
    {
        let none = Folding::new(alloc, plan)?;
        let Folding {
            plan,
            aggregations,
            sources,
            ..
        } = none;
        let sources = sources_from(
            alloc,
            columns,
            aggregations.as_slice(),
            rows,
            sources.as_slice(),
            plan.sets().len() == 1,
        )?;
        Ok(Folding {
            plan,
            aggregations,
            sources,
            apart,
        })
    }

    /// How many groups it holds so far, those of all sources together. A tuple may have more than one.
    pub fn groups(&self) -> u128
        ensures { result ≡ group_count self.now }
    {
        let mut count = 0;
        for source in &self.sources {
            count += source.bag.groups().len() as u128;
        }
        count
    }

    /// The rows that went into another folding of the same plan, behind those that are there: at most 4,294,967,296
    /// together. Where none went in here, it is the other one; else the other's groups are moved here, and those of one
    /// tuple put together, unless both are apart. The only error is that a growth was refused.
    pub fn join(self, alloc: Global, other: Folding<'a, H>) -> Result<Folding<'a, H>, AllocError>
        requires { MayJoin self other }
        ensures { (plan : PlanTree) (xs ys : List RowValue) → Folds plan xs self.entry → Folds plan ys other.entry →
            IfOk result (Folds plan (xs ++ ys)) }
    {
        if self.groups() == 0 {
            return Ok(other);
        }
        let apart = self.apart && other.apart;
        let Folding {
            plan,
            aggregations,
            sources,
            ..
        } = self;
        let Folding {
            sources: others,
            ..
        } = other;
        let sources = all_with_others(alloc, sources, others, apart)?;
        Ok(Folding {
            plan,
            aggregations,
            sources,
            apart,
        })
    }

    /// The partial result of all rows that were taken.
    pub fn into_partial(self, alloc: Global) -> Result<Partial<H>, AllocError>
        requires { MayEnd self }
        ensures { (plan : PlanTree) (rows : List RowValue) → Folds plan rows self.entry →
            IfOk result (λ p. Stands H.KeyHash-2.hash_of plan rows p) }
    {
        let Folding {
            plan,
            aggregations,
            sources,
            ..
        } = self;
        let tries = tries_of(alloc, plan.sets(), aggregations.as_slice(), sources)?;
        Ok(Partial { tries })
    }

    /// The rows of the report over all rows that were taken, as [`Partial::finish`] gives them: set by set in the plan's
    /// order, and within a set by the tuples' cells. They are made straight from the groups, with no partial result between.
    pub fn into_rows(self, alloc: Global) -> Result<Vec<ReportRow>, AllocError>
        requires { MayEnd self }
        ensures { (plan : PlanTree) (rows : List RowValue) → Folds plan rows self.entry →
            IfOk result (λ v. v.items ≡ rows_over plan rows) }
    {
        let Folding {
            plan,
            aggregations,
            sources,
            ..
        } = self;
        rows_of_sources(alloc, plan, aggregations.as_slice(), sources)
    }
}

/// The columns of the rows of the piece that the plan needs.
fn columns_of_piece<H: KeyHash<Cell>, S: Beside<Cell, Row>>(
    alloc: Global,
    plan: &Plan,
    piece: &Piece<Cell, Row, H, S>,
) -> Result<Columns, AllocError>
    ensures held { IfOk result (Hold (rows_of piece.now)) }
    ensures serve { IfOk result (Serve plan.now) }
{
    let needed = needed_columns(alloc, plan)?;
    let mut columns = Columns::of_named(alloc, needed.as_slice())?;
    columns.take(piece)?;
    Ok(columns)
}

/// The indexes of so many rows.
fn all_rows(alloc: Global, count: u64) -> Result<Vec<u32>, AllocError>
    requires { count ≤ 2 ^ 32 }
    ensures { IfOk result (λ v. v.items ≡ range_with_len 0 count) }
{
    let mut rows = Vec::with_capacity(alloc, count as usize)?;
    for row in 0..count {
        rows.push(row as u32)?;
    }
    Ok(rows)
}
