//! Lists of parts, read by one worker and by several.

use crate::gates::{Hold, Watch};
use board::Keeper;
use cells::{Plain, Refused, Schema};
use columns::RowTrie;
use crew::{Gate, Open};
use loader::{PartFault, load};
use std::alloc::Global;
use std::process::Abort;
use std::sync::Wait;
use std::test::Fail;
use std::thread::Threads;

const LOW: &[u8] = b"K,V\n1,10\n2,20\n1,11\n";

const MIDDLE: &[u8] = b"k,v\r\n2,21\r\n3,30\r\n";

const HIGH: &[u8] = b"K,v\n3,31\n4,40\n3,32\n";

const BAD: &[u8] = b"K,V\n1,12\nx,1\ny,1\n";

/// How many rows there are, or the first faulty part and its record.
type Found = Result<u64, (u64, u64)>;

/// What a load found. Want of memory, or of a thread, is an error.
fn told(rows: Result<RowTrie<Plain>, PartFault>) -> Result<Found, Refused> {
    match rows {
        Ok(rows) => Ok(Ok(rows.len())),
        Err(PartFault::Bad { part, entry }) => Ok(Err((part, entry))),
        Err(PartFault::OutOfMemory) => Err(Refused::OutOfMemory),
        Err(PartFault::NoWorker) => Err(Refused::NoWorker),
    }
}

/// What four parts, numbered 5 to 8, are loaded as, of which the second is this one.
fn load_four<G: Gate, R: Abort + Threads + Wait>(
    rt: &R,
    alloc: Global,
    second: &[u8],
    workers: u64,
    gate: &G,
) -> Result<Found, Refused> {
    assert!(*rt; second.len() <= 100);
    let schema = Schema::read(alloc, "T (K INT KEY, V INT)")?;
    let parts = [(5, LOW), (6, second), (7, HIGH), (8, LOW)];
    told(load(rt, alloc, &parts, &schema, workers, gate))
}

#[test]
fn four_parts_are_read_and_merged_at_the_same_time(rt: HostRuntime) -> Result<(), Fail> {
    let watch = Watch::new(Hold::First { middle: 2 });
    assert_eq!(rt; load_four(&rt, rt.alloc(), MIDDLE, 2, &watch)?, Ok(4));
    assert!(rt; watch.reading_met.is_over() && watch.merging_met.is_over());
    Ok(())
}

/// How many workers read the parts, the second of them, what is found, and the sum of the places of the runs that the gate is
/// told of.
const LOADS: [(u64, &[u8], Found, u64); 3] = [
    (1, MIDDLE, Ok(4), 4),
    (4, MIDDLE, Ok(4), 4),
    (2, BAD, Err((6, 2)), 0),
];

/// The gate is told of the reading of each part and of the runs of rows, by the sum of their places.
#[test]
fn the_gate_is_told_of_each_place_and_run(rt: HostRuntime) -> Result<(), Fail> {
    for (workers, second, found, runs) in &LOADS {
        let watch = Watch::new(Hold::Nobody);
        assert_eq!(rt;
            load_four(&rt, rt.alloc(), second, *workers, &watch)?,
            *found
        );
        assert_eq!(rt; (watch.reading.sum(), watch.merging.sum()), (10, *runs));
    }
    Ok(())
}

#[test]
fn parts_with_or_without_memory(rt: HostRuntime) -> Result<(), Fail> {
    assert_eq!(rt; load_four(&rt, rt.alloc(), MIDDLE, 2, &Open)?, Ok(4));
    Ok(())
}

/// One worker reads the parts in their order. The second has no bytes, so that no memory is wanted between the reading of
/// the first and that of the third, of which the gate is told before: it is never told of just the first two, also where
/// memory is refused.
#[test]
fn a_part_is_told_of_before_it_is_read(rt: HostRuntime) -> Result<(), Fail> {
    let watch = Watch::new(Hold::Nobody);
    let found = load_four(&rt, rt.alloc(), b"", 1, &watch);
    assert!(rt; watch.reading.sum() != 3);
    assert_eq!(rt; found?, Err((6, 0)));
    assert_eq!(rt; watch.reading.sum(), 10);
    Ok(())
}

/// Lays the rows of two parts over the draft.
fn absorb_two<R: Threads + Wait>(
    rt: &R,
    alloc: Global,
    keeper: &mut Keeper<Plain>,
) -> Result<(), Refused> {
    let parts = [(1, LOW), (2, MIDDLE)];
    match load(rt, alloc, &parts, keeper.schema(), 2, &Open) {
        Ok(rows) => keeper.absorb(rows),
        Err(PartFault::OutOfMemory) => Err(Refused::OutOfMemory),
        Err(PartFault::NoWorker) => Err(Refused::NoWorker),
        Err(PartFault::Bad { .. }) => Err(Refused::BadPart),
    }
}

/// The rows of the edition that is published of two parts; where the load or the absorb is refused, by the same calls made again.
fn publish_two<R: Abort + Threads + Wait>(
    rt: &R,
    alloc: Global,
    keeper: &mut Keeper<Plain>,
) -> Result<u64, Refused> {
    if absorb_two(rt, alloc, keeper).is_err() {
        absorb_two(rt, alloc, keeper)?;
    }
    assert!(*rt; keeper.edition() == 0);
    keeper.publish(rt)?;
    let snapshot = keeper.snapshot()?;
    Ok(snapshot.root().len())
}

/// The same of a new keeper, whose draft may have three rows.
fn published<R: Abort + Threads + Wait>(rt: &R, alloc: Global) -> Result<u64, Refused> {
    let schema = Schema::read(alloc, "T (K INT KEY, V INT)")?;
    let mut keeper = Keeper::new(alloc, schema, 3, 1)?;
    let rows = publish_two(rt, alloc, &mut keeper);
    keeper.close();
    rows
}

/// Run with each allocation refused in turn, too: a load and an absorb that are refused are made again, and give what they
/// would have given.
#[test]
fn parts_are_laid_over_a_draft(rt: HostRuntime) -> Result<(), Fail> {
    assert_eq!(rt; published(&rt, rt.alloc())?, 3);
    Ok(())
}
