//! What workers gather from pieces, with no report round it.

ghost use Rattle.std.specs.Prelude.{◌≤◌, IfOk, IsTrue, length};
ghost use Rattle.aggs.specs.Room.{cell_limit};
ghost use Rattle.crew.specs.Gathering.{rows_in};
ghost use Rattle.crew.specs.Limits.{piece_limit};

use crate::of_report::answers::{edition_of, planned};
use board::Snapshot;
use cells::{Plain, Refused, Total};
use columns::RowPiece;
use crew::{Open, gather};
use groups::Partial;
use query::Plan;
use std::alloc::{AllocError, Global};
use std::sync::Wait;
use std::test::Fail;
use std::thread::Threads;
use trie::Cutting;

/// The partial result of the pieces by two workers; where it is refused, by the same call made again.
fn gathered<R: Threads + Wait + Sync>(
    rt: &R,
    alloc: Global,
    plan: &Plan,
    pieces: &[RowPiece<Plain>],
) -> Result<Partial<Plain>, Refused>
    requires rows { length (rows_in pieces.now) ≤ cell_limit }
    requires pieces { length pieces.now ≤ piece_limit }
{
    if let Ok(partial) = gather(rt, alloc, plan, pieces, 2, &Open) {
        return Ok(partial);
    }
    gather(rt, alloc, plan, pieces, 2, &Open)
}

/// Whether the piece has one row at most.
fn is_short(alloc: Global, piece: &RowPiece<Plain>) -> Result<bool, AllocError>
    ensures { IfOk result (λ short. IsTrue short → length piece.now ≤ 1) }
{
    Ok(piece.entries(alloc)?.len() <= 1)
}

/// Whether the pieces are two of one row each at most, and so few enough, and the rows in them are counted and summed up.
#[tactic(auto, using(crate::proofs::GatheredLemmas::are_few))]
fn are_two_and_three<R: Threads + Wait + Sync>(
    rt: &R,
    alloc: Global,
    plan: &Plan,
    pieces: &[RowPiece<Plain>],
) -> Result<bool, Refused> {
    if pieces.len() != 2 {
        return Ok(false);
    }
    if !is_short(alloc, &pieces[0])? {
        return Ok(false);
    }
    if !is_short(alloc, &pieces[1])? {
        return Ok(false);
    }
    let partial = gathered(rt, alloc, plan, pieces)?;
    is_two_and_three(alloc, plan, partial)
}

/// Whether the partial result has one group, whose values are 2 and 3.
fn is_two_and_three(alloc: Global, plan: &Plan, partial: Partial<Plain>) -> Result<bool, Refused> {
    let rows = Partial::finish(alloc, plan, partial)?;
    Ok(match rows.as_slice() {
        [row] => matches!(row.totals.as_slice(), [Total::Int(2), Total::Int(3)]),
        _ => false,
    })
}

/// The same of the rows of an edition, each of which is a piece.
fn are_counted_by<R: Threads + Wait + Sync>(
    rt: &R,
    alloc: Global,
    plan: &Plan,
    snapshot: &Snapshot<Plain>,
) -> Result<bool, Refused> {
    let cutting = Cutting { depth: 1, small: 0 };
    let pieces = snapshot.root().rows().split(alloc, &cutting)?;
    let are_counted = are_two_and_three(rt, alloc, plan, pieces.as_slice());
    drop(pieces);
    are_counted
}

/// The same of the query.
fn are_counted<R: Threads + Wait + Sync>(
    rt: &R,
    alloc: Global,
    snapshot: &Snapshot<Plain>,
) -> Result<bool, Refused> {
    let plan = planned(
        alloc,
        snapshot.schema(),
        "SELECT COUNT(*), SUM(ID) FROM SALES",
    )?;
    let are_counted = are_counted_by(rt, alloc, &plan, snapshot);
    drop(plan);
    are_counted
}

/// Run with each allocation, or each thread, refused in turn, too: what is gathered again gives what it would have given.
#[test]
fn pieces_are_gathered_behind_a_refusal(rt: HostRuntime) -> Result<(), Fail> {
    let edition = edition_of(&rt, rt.alloc(), &[b"1", b"2"])?;
    let are_counted = are_counted(&rt, rt.alloc(), &edition);
    drop(edition);
    assert!(rt; are_counted?);
    Ok(())
}
