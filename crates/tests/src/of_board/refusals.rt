//! Keepers: what a refusal of memory leaves.
ghost use Rattle.std.specs.Prelude.{◌≤◌};
ghost use Rattle.board.specs.Limits.{row_limit};

use board::Keeper;
use cells::{Cell, LentCell, Plain, Refused, Row, Schema};
use std::alloc::Global;
use std::process::Abort;
use std::sync::Wait;
use std::test::Fail;

/// A call that changes a keeper: the key and the value of a row, a key, or nothing.
#[derive(Clone, Copy)]
enum Step {
    Put(&'static str, &'static str),
    Delete(i64),
    Publish,
}

use Step::*;

/// Puts a row.
fn put(alloc: Global, keeper: &mut Keeper<Plain>, key: &str, value: &str) -> Result<(), Refused> {
    let row = Row::read(alloc, &[key.as_bytes(), value.as_bytes()], keeper.schema())?;
    keeper.put(row)
}

fn apply(
    rt: &(impl Abort + Wait),
    alloc: Global,
    keeper: &mut Keeper<Plain>,
    step: Step,
) -> Result<(), Refused> {
    match step {
        Put(key, value) => put(alloc, keeper, key, value),
        Delete(key) => keeper.delete(&Cell::Int(key)),
        Publish => {
            assert!(rt; keeper.edition() < 100);
            keeper.publish(rt)?;
            Ok(())
        }
    }
}

/// What an edition holds: its number, how many rows, and the value of key 1, if there is one.
fn held_by(keeper: &Keeper<Plain>) -> Result<(u64, u64, Option<i64>), Refused> {
    let snapshot = keeper.snapshot()?;
    let root = snapshot.root();
    let value = match root.get(&Cell::Int(1)).map(|row| row.cell(1)) {
        Some(LentCell::Int(value)) => Some(value),
        _ => None,
    };
    Ok((snapshot.edition(), root.len(), value))
}

/// Calls, each with what the last edition holds behind it.
const CALLS: [(Step, (u64, u64, Option<i64>)); 7] = [
    (Put("1", "10"), (0, 0, None)),
    (Put("2", "20"), (0, 0, None)),
    (Publish, (1, 2, Some(10))),
    (Put("1", "11"), (1, 2, Some(10))),
    (Delete(2), (1, 2, Some(10))),
    (Publish, (2, 1, Some(11))),
    (Publish, (3, 1, Some(11))),
];

/// Makes the call; one that is refused again.
fn make(
    rt: &(impl Abort + Wait),
    alloc: Global,
    keeper: &mut Keeper<Plain>,
    step: Step,
) -> Result<(), Refused> {
    if apply(rt, alloc, keeper, step).is_ok() {
        return Ok(());
    }
    apply(rt, alloc, keeper, step)
}

/// Makes all calls.
fn make_all(
    rt: &(impl Abort + Wait),
    alloc: Global,
    keeper: &mut Keeper<Plain>,
) -> Result<(), Refused> {
    for (step, held) in &CALLS {
        make(rt, alloc, keeper, *step)?;
        assert!(rt; held_by(keeper)? == *held);
    }
    Ok(())
}

/// A keeper of so many rows.
fn keeper_of(alloc: Global, limit: u64) -> Result<Keeper<Plain>, Refused>
    requires limit { 1 ≤ limit × (limit ≤ row_limit) }
{
    let table = Schema::read(alloc, "T (K INT KEY, V INT)")?;
    Keeper::new(alloc, table, limit, 1)
}

/// Run with each allocation failing in turn, too: after a refusal of memory the same call made again gives what it would have
/// given.
#[test]
fn calls_change_a_keeper(rt: HostRuntime) -> Result<(), Fail> {
    let mut keeper = keeper_of(rt.alloc(), 3)?;
    let made = make_all(&rt, rt.alloc(), &mut keeper);
    keeper.close();
    made?;
    Ok(())
}

/// Puts a row of the key.
fn put_key(alloc: Global, keeper: &mut Keeper<Plain>, key: u64) -> Result<(), Refused> {
    let key = format!(in alloc; "{key}")?;
    put(alloc, keeper, key.as_str(), "0")
}

/// Publishes so many rows.
fn publish_rows(
    rt: &(impl Abort + Wait),
    alloc: Global,
    keeper: &mut Keeper<Plain>,
    rows: u64,
) -> Result<(), Refused> {
    for key in 0..rows {
        put_key(alloc, keeper, key)?;
    }
    apply(rt, alloc, keeper, Publish)
}

/// Whether an edition of so many rows has a snapshot. Want of memory at the rows is an error.
fn has_snapshot(rt: &(impl Abort + Wait), alloc: Global, rows: u64) -> Result<bool, Refused> {
    let mut keeper = keeper_of(alloc, 1_000)?;
    let published = publish_rows(rt, alloc, &mut keeper, rows);
    let is_there = keeper.snapshot().is_ok();
    keeper.close();
    published?;
    Ok(is_there)
}

/// Run with each allocation refused in turn, too: no snapshot meets a refusal, however many rows it has.
#[test]
fn a_snapshot_takes_no_memory(rt: HostRuntime) -> Result<(), Fail> {
    assert!(rt; has_snapshot(&rt, rt.alloc(), 1)?);
    assert!(rt; has_snapshot(&rt, rt.alloc(), 1_000)?);
    Ok(())
}
