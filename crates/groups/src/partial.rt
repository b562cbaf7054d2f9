//! Partial results.
ghost use Rattle.std.specs.Prelude.{◌≡◌, ◌≤◌, List, [], ◌++◌, IfOk, length};
ghost use Rattle.aggs.specs.Room.{cell_limit};
ghost use Rattle.cells.specs.Values.{RowValue};
ghost use Rattle.groups.specs.Groups.{kept, rows_over};
ghost use Rattle.groups.specs.Partials.{MayMeet, Stands, rows_of};
ghost use Rattle.query.specs.Plans.{PlanTree};

use crate::accumulators::Accumulators;
use crate::finishing::add_rows_of_set;
use crate::folding::Folding;
use crate::joining::join_groups;
use crate::report_row::ReportRow;
use cells::{Cell, KeyHash, Row, Tuple};
use query::Plan;
use std::alloc::{AllocError, Global};
use std::marker::Model;
use trie::{Beside, Piece, Trie};

/// A partial result of a plan: for each of its grouping sets the groups of some rows, as a trie from their tuples to
/// their accumulators. It stands for these rows in whatever order they came. It owns copies of the cells that it
/// keeps, and neither the rows nor the plan.
#[derive(Drop)]
pub struct Partial<H: KeyHash<Cell> + KeyHash<Tuple>> {
    pub(crate) tries: Vec<Trie<Tuple, Accumulators<H>, H>>,
}

impl<H: KeyHash<Cell> + KeyHash<Tuple>> Model for Partial<H> {
    ghost use Rattle.std.specs.Prelude.{List};
    ghost use Rattle.aggs.specs.declared.acc.Acc.{Acc};
    ghost use Rattle.cells.specs.declared.cell.Cell.{Cell};

    ghost Value = { List (List (List Cell × List (Acc H))) };

    ghost use Rattle.groups.specs.Codes.{coded_cells};
    ghost use Rattle.std.specs.Coded.{codes};

    ghost coded = { Prim.hlevel (codes, coded_cells) };

    ghost view = { λ p. p.tries.items };
}

impl<H: KeyHash<Cell> + KeyHash<Tuple>> Partial<H> {
    /// The partial result of no rows: the empty set has its one group, and no other set has any.
    pub fn empty(alloc: Global, plan: &Plan) -> Result<Partial<H>, AllocError>
        ensures { IfOk result (λ p. Stands H.KeyHash-2.hash_of plan.now [] p) }
    {
        let folding = Folding::new(alloc, plan)?;
        folding.into_partial(alloc)
    }

    /// The partial result of the rows of the piece for which the plan's WHERE is true. The piece has at most 4,294,967,296
    /// rows.
    pub fn of_piece<S: Beside<Cell, Row>>(
        alloc: Global,
        plan: &Plan,
        piece: &Piece<Cell, Row, H, S>,
    ) -> Result<Partial<H>, AllocError>
        requires { length piece.now ≤ cell_limit }
        ensures { IfOk result (λ p. Stands H.KeyHash-2.hash_of plan.now (kept plan.now.condition (rows_of piece.now)) p) }
    {
        let folding = Folding::of_piece(alloc, plan, piece)?;
        folding.into_partial(alloc)
    }

    /// The partial result of both lists of rows together, which are at most 4,294,967,296. Both are of one plan.
    pub fn join(&self, alloc: Global, other: &Partial<H>) -> Result<Partial<H>, AllocError>
        requires { MayMeet H.KeyHash-2.hash_of self.now other.now }
        ensures { (plan : PlanTree) (xs ys : List RowValue) → Stands H.KeyHash-2.hash_of plan xs self.now → Stands H.KeyHash-2.hash_of plan ys other.now →
            IfOk result (λ p. Stands H.KeyHash-2.hash_of plan (xs ++ ys) p) }
    {
        let mut tries = Vec::new(alloc);
        for (first, second) in self.tries.iter().zip(&other.tries) {
            let both = join_groups(alloc, first, second)?;
            tries.push(both)?;
        }
        Ok(Partial { tries })
    }

    /// The rows of the report, for each list of rows that the partial result stands for: set by set in the plan's
    /// order, and within a set by the tuples' cells. A group for which HAVING is not true has none.
    pub fn finish(
        alloc: Global,
        plan: &Plan,
        partial: Partial<H>,
    ) -> Result<Vec<ReportRow>, AllocError>
        ensures { (rows : List RowValue) → Stands H.KeyHash-2.hash_of plan.now rows partial → IfOk result (λ v. v.items ≡ rows_over plan.now rows) }
    {
        let mut rows = Vec::new(alloc);
        for (set, groups) in plan.sets().iter().zip(&partial.tries) {
            add_rows_of_set(alloc, &mut rows, plan, set, groups)?;
        }
        Ok(rows)
    }
}
