//! Partial results as they leave a program and as they come to one: what a plan keeps of a snapshot's rows, and the answer of
//! what was joined of such.
ghost use Rattle.std.specs.Prelude.{◌≡◌, List, IfOk};
ghost use Rattle.cells.specs.Tables.{table};
ghost use Rattle.cells.specs.Updates.{AreLeft};
ghost use Rattle.cells.specs.Values.{RowValue};
ghost use Rattle.groups.specs.Groups.{kept};
ghost use Rattle.groups.specs.Partials.{Stands};
ghost use Rattle.groups.specs.Told.{Tells};
ghost use Rattle.report.specs.Reports.{answer_to};

use crate::arranging::arrange;
use crate::here::folding_here;
use crate::printing::text_in;
use crate::question::Question;
use board::Snapshot;
use cells::{Cell, KeyHash, Row, Tuple};
use groups::{Partial, SetGroups, any_order};
use query::Plan;
use std::alloc::{AllocError, Global};
use trie::a_map_has_its_entries;

/// What the plan's aggregates keep of the snapshot's rows, as plain values: for each grouping set the groups of those rows for
/// which the plan's WHERE is true. A program takes them elsewhere, where
/// [`Partial::of_told`](groups::Partial::of_told) makes a partial result of them, to be joined with those of other rows.
///
/// It is made in the thread that calls, which lays out the columns that the plan needs anew and keeps none, since who keeps them
/// may have to wait for another thread. The snapshot and the plan are only read; the values are the caller's and own their cells.
/// The only error is that a growth was refused.
pub fn told_here<H: KeyHash<Cell> + KeyHash<Tuple>>(
    alloc: Global,
    snapshot: &Snapshot<H>,
    plan: &Plan,
) -> Result<Vec<SetGroups>, AllocError>
    ensures { (rs : List RowValue) → AreLeft rs → snapshot.now.rows ≡ table rs →
        IfOk result (λ sets. Tells plan.now (kept plan.now.condition rs) sets.items) }
{
    // These do nothing: the order of rows does not count, and a list of a snapshot's rows has those of its map.
    any_order::<H>();
    a_map_has_its_entries::<Cell, Row>();
    let folding = folding_here(alloc, snapshot.root(), plan)?;
    let partial = folding.into_partial(alloc)?;
    partial.told(alloc)
}

/// The text of what is asked of rows of which only a partial result is at hand: the same text as that of a table with just these
/// rows, however many machines they came from. The partial result is one of the question's own plan, and stands for those of the
/// rows for which its WHERE is true; this is not tried here.
///
/// The question is only read, the partial result is let go of, and the text is the caller's. The only error is that a growth was
/// refused.
pub fn answer_of_partial<H: KeyHash<Cell> + KeyHash<Tuple>>(
    alloc: Global,
    question: &Question,
    partial: Partial<H>,
) -> Result<Vec<u8>, AllocError>
    ensures { (rs : List RowValue) → Stands H.KeyHash-2.hash_of question.now.plan (kept question.now.plan.condition rs) partial →
        IfOk result (λ text. text.items ≡ answer_to question.now rs) }
{
    let plan = &question.plan;
    let mut rows = Partial::finish(alloc, plan, partial)?;
    arrange(alloc, &question.arrangement, plan.headings(), &mut rows)?;
    text_in(alloc, question.form, plan.headings(), rows)
}
