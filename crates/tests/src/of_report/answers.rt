//! The rows of a small table, grouped by workers.

use crate::gates::{Hold, Watch};
use board::{Keeper, Snapshot};
use cells::{Plain, Refused, Row, Schema};
use crew::{Gate, Open};
use query::{Plan, check, read};
use report::answer;
use std::alloc::Global;
use std::process::Abort;
use std::sync::Wait;
use std::test::Fail;
use std::thread::Threads;
use trie::Cutting;

/// Puts rows of these keys.
fn put_all(alloc: Global, keeper: &mut Keeper<Plain>, keys: &[&[u8]]) -> Result<(), Refused> {
    for key in keys {
        let row = Row::read(alloc, &[*key], keeper.schema())?;
        keeper.put(row)?;
    }
    Ok(())
}

/// The first edition, which has these keys.
fn published(
    rt: &(impl Abort + Wait),
    alloc: Global,
    keeper: &mut Keeper<Plain>,
    keys: &[&[u8]],
) -> Result<Snapshot<Plain>, Refused> {
    put_all(alloc, keeper, keys)?;
    assert!(*rt; keeper.edition() == 0);
    keeper.publish(rt)?;
    keeper.snapshot()
}

/// The same of a new keeper. By the plain hash 1 and 33 have their first digit in common.
pub(super) fn edition_of(
    rt: &(impl Abort + Wait),
    alloc: Global,
    keys: &[&[u8]],
) -> Result<Snapshot<Plain>, Refused> {
    let schema = Schema::read(alloc, "SALES (ID INT KEY)")?;
    let mut keeper = Keeper::new(alloc, schema, 64, 1)?;
    let snapshot = published(rt, alloc, &mut keeper, keys);
    keeper.close();
    snapshot
}

/// The plan of a query.
pub(super) fn planned(alloc: Global, schema: &Schema, query: &str) -> Result<Plan, Refused> {
    let query = read(alloc, query)?;
    check(alloc, query, schema)
}

/// Whether the report of the four keys is right.
fn is_counted<G: Gate, R: Threads + Wait + Sync>(
    rt: &R,
    alloc: Global,
    snapshot: &Snapshot<Plain>,
    (depth, workers): (u8, u64),
    gate: &G,
) -> Result<bool, Refused> {
    let plan = planned(alloc, snapshot.schema(), QUERY)?;
    let cutting = Cutting { depth, small: 0 };
    let text = answer(rt, alloc, snapshot, &plan, workers, &cutting, gate);
    drop(plan);
    Ok(text?.as_slice() == FOUR.as_bytes())
}

/// Keys of three first digits.
const KEYS: [&[u8]; 4] = [b"1", b"17", b"33", b"2"];

const QUERY: &str = "SELECT ID, GROUPING(ID), COUNT(*), SUM(ID) FROM SALES GROUP BY ROLLUP(ID)";

const FOUR: &str =
    "ID | GROUPING(ID) | COUNT(*) | SUM(ID)\n1 | 0 | 1 | 1\n2 | 0 | 1 | 2\n17 | 0 | 1 | 17\n33 | 0 | 1 | 33\nNULL | 1 | 4 | 53\n";

/// Depth, workers, and the sum of the pieces, each counted from 1.
const PIECES: [(u8, u64, u64); 5] = [(0, 2, 1), (1, 1, 6), (1, 64, 6), (13, 2, 10), (13, 7, 10)];

/// Whether the report of the keys is right, by each number of workers, and the gate was told of each piece, once, as it was
/// entered and left.
fn are_told<R: Threads + Wait + Sync>(
    rt: &R,
    alloc: Global,
    snapshot: &Snapshot<Plain>,
) -> Result<bool, Refused> {
    for (depth, workers, sum) in &PIECES {
        let watch = Watch::new(Hold::Nobody);
        let is_right = is_counted(rt, alloc, snapshot, (*depth, *workers), &watch)?;
        if !is_right || watch.entered.sum() != *sum || watch.left.sum() != *sum {
            return Ok(false);
        }
    }
    Ok(true)
}

/// Whatever the number of workers.
#[test]
fn more_and_fewer_workers_than_pieces(rt: HostRuntime) -> Result<(), Fail> {
    let edition = edition_of(&rt, rt.alloc(), &KEYS)?;
    let told = are_told(&rt, rt.alloc(), &edition);
    drop(edition);
    assert!(rt; told?);
    Ok(())
}

/// Each piece that a worker entered it left, whatever the answer is: also where memory was refused to its work there, and
/// where a thread could not be started.
#[test]
fn each_piece_is_left(rt: HostRuntime) -> Result<(), Fail> {
    let edition = edition_of(&rt, rt.alloc(), &KEYS)?;
    let watch = Watch::new(Hold::Each);
    let counted = is_counted(&rt, rt.alloc(), &edition, (1, 2), &watch);
    drop(edition);
    assert!(rt; watch.is_empty());
    assert!(rt; counted?);
    assert_eq!(rt; watch.left.sum(), 6);
    Ok(())
}

#[test]
fn two_workers_gather_at_the_same_time(rt: HostRuntime) -> Result<(), Fail> {
    let edition = edition_of(&rt, rt.alloc(), &KEYS)?;
    let watch = Watch::new(Hold::First { middle: 0 });
    let counted = is_counted(&rt, rt.alloc(), &edition, (1, 2), &watch);
    drop(edition);
    assert!(rt; counted?);
    assert!(rt; watch.entering_met.is_over());
    Ok(())
}

/// Whether the report of the keys is right; where it is refused, by the same call made again.
fn is_counted_at_last<R: Threads + Wait + Sync>(
    rt: &R,
    alloc: Global,
    snapshot: &Snapshot<Plain>,
) -> Result<bool, Refused> {
    if let Ok(counted) = is_counted(rt, alloc, snapshot, (1, 2), &Open) {
        return Ok(counted);
    }
    is_counted(rt, alloc, snapshot, (1, 2), &Open)
}

/// Run with each allocation refused in turn, too: the snapshot keeps its report.
#[test]
fn a_report_that_is_asked_for_again(rt: HostRuntime) -> Result<(), Fail> {
    let edition = edition_of(&rt, rt.alloc(), &KEYS)?;
    let counted = is_counted_at_last(&rt, rt.alloc(), &edition);
    drop(edition);
    assert!(rt; counted?);
    Ok(())
}
