//! The answer of a plan on a snapshot, in the thread that calls.
ghost use Rattle.std.specs.Prelude.{◌≡◌, ◌≤◌, IfOk, length};
ghost use Rattle.std.specs.FinMap.{len};
ghost use Rattle.aggs.specs.Room.{cell_limit};
ghost use Rattle.board.specs.Limits.{row_limit};
ghost use Rattle.columns.specs.Columns.{Hold};
ghost use Rattle.crew.specs.Gathering.{rows_in};
ghost use Rattle.groups.specs.Folds.{Folds};
ghost use Rattle.groups.specs.Groups.{kept};
ghost use Rattle.groups.specs.Needed.{Serve};
ghost use Rattle.report.specs.Standing.{AreFolded, AreRowsFor, AreShown};
ghost use Rattle.report.specs.Waiting.{IsReportText};

use crate::arranging::{Arrangement, arrange};
use crate::pieces::pieces_of;
use crate::printing::text_in;
use crate::question::Question;
use board::{Root, Snapshot};
use cells::{Cell, KeyHash, Row, Tuple};
use columns::{Columns, RowPiece};
use groups::{Folding, ReportRow, any_order, needed_columns};
use query::Plan;
use std::alloc::{AllocError, Global};
use trie::{Cutting, a_map_has_its_entries};

/// The text of what is asked of the rows of the snapshot, made in the thread that calls. It lays out the columns that the plan
/// needs anew and keeps none, since who keeps them may have to wait for another thread. The only error is that a growth was
/// refused.
pub fn answer_here<H: KeyHash<Cell> + KeyHash<Tuple>>(
    alloc: Global,
    snapshot: &Snapshot<H>,
    question: &Question,
) -> Result<Vec<u8>, AllocError>
    ensures { IfOk result (λ text. IsReportText snapshot.now.rows question.now text.items) }
{
    let plan = &question.plan;
    let root = snapshot.root();
    let found = rows_here(alloc, root, plan)?;
    let rows = arranged(alloc, root, plan, &question.arrangement, found)?;
    text_in(alloc, question.form, plan.headings(), rows)
}

/// The rows of the plan's report over those of an edition, so arranged.
pub(crate) fn arranged<H: KeyHash<Cell> + KeyHash<Tuple>>(
    alloc: Global,
    root: &Root<H>,
    plan: &Plan,
    arrangement: &Arrangement,
    found: Vec<ReportRow>,
) -> Result<Vec<ReportRow>, AllocError>
    requires { AreRowsFor root.now plan.now found.items }
    ensures { IfOk result (λ v. AreShown root.now plan.now arrangement.now v.items) }
{
    // These do nothing: the order of rows does not count, and a list of an edition's rows has those of its map.
    any_order::<H>();
    a_map_has_its_entries::<Cell, Row>();
    let _ = root;
    let mut rows = found;
    arrange(alloc, arrangement, plan.headings(), &mut rows)?;
    Ok(rows)
}

/// The rows of the plan's report over those of an edition, as they are found.
fn rows_here<H: KeyHash<Cell> + KeyHash<Tuple>>(
    alloc: Global,
    root: &Root<H>,
    plan: &Plan,
) -> Result<Vec<ReportRow>, AllocError>
    requires { len root.now ≤ row_limit }
    ensures { IfOk result (λ v. AreRowsFor root.now plan.now v.items) }
{
    let folding = folding_here(alloc, root, plan)?;
    folding.into_rows(alloc)
}

/// The rows of an edition that the plan keeps, folded in the thread that calls.
pub(crate) fn folding_here<'a, H: KeyHash<Cell> + KeyHash<Tuple>>(
    alloc: Global,
    root: &Root<H>,
    plan: &'a Plan,
) -> Result<Folding<'a, H>, AllocError>
    requires { len root.now ≤ row_limit }
    ensures { IfOk result (AreFolded root.now plan.now) }
{
    let whole = Cutting { depth: 0, small: 1 };
    let pieces = pieces_of(alloc, root, &whole)?;
    folding_of_pieces(alloc, plan, pieces.as_slice(), root.len())
}

/// The rows of the pieces that the plan keeps, folded. There are so many in the pieces.
fn folding_of_pieces<'a, H: KeyHash<Cell> + KeyHash<Tuple>>(
    alloc: Global,
    plan: &'a Plan,
    pieces: &[RowPiece<H>],
    count: u64,
) -> Result<Folding<'a, H>, AllocError>
    requires count { count ≡ length (rows_in pieces.now) }
    requires few { count ≤ cell_limit }
    ensures { IfOk result (Folds plan.now (kept plan.now.condition (rows_in pieces.now))) }
{
    let columns = columns_of_pieces(alloc, plan, pieces)?;
    Folding::of_columns(alloc, plan, &columns, count)
}

/// The columns of the rows of the pieces that the plan needs.
fn columns_of_pieces<H: KeyHash<Cell>>(
    alloc: Global,
    plan: &Plan,
    pieces: &[RowPiece<H>],
) -> Result<Columns, AllocError>
    ensures held { IfOk result (Hold (rows_in pieces.now)) }
    ensures serve { IfOk result (Serve plan.now) }
{
    let needed = needed_columns(alloc, plan)?;
    let mut columns = Columns::of_named(alloc, needed.as_slice())?;
    for piece in pieces {
        columns.take(piece)?;
    }
    Ok(columns)
}
