//! Reports and loads by workers who run at the same time, over the pieces and the parts that they are to share.

use crate::gates::{Hold, Watch};
use crate::of_script::written::{CUTTING, written};
use script::{Ended, How};
use std::alloc::Global;
use std::sync::Wait;
use std::test::Fail;
use std::thread::Threads;
use trie::Cutting;

/// A table of keys with three first digits, and so of three pieces at depth 1.
const THREE_PIECES: &[u8] =
    b"table T (K INT KEY)\nput 1\nput 17\nput 33\nput 2\npublish\nreport SELECT COUNT(*) FROM T";

const COUNTED: &str = "line 7 edition 1\nCOUNT(*)\n4\n";

const LISTED_TWICE: &[u8] = b"table T (K INT KEY)\nload 1 1\n";

const PART: &[u8] = b"K\n1\n2\n";

/// A table is cut as deep as can be.
const DEEP: Cutting = Cutting {
    depth: 13,
    small: 0,
};

/// Whether a run writes this for the script. The gate tells where workers met.
fn writes<R: Threads + Wait + Sync>(
    rt: &R,
    alloc: Global,
    gate: &Watch,
    how: &How,
    script: &[u8],
    wanted: &str,
) -> Result<bool, Ended> {
    let parts = [Vec::from_slice(alloc, PART)?];
    let text = written(rt, alloc, script, &parts, how, None, gate)?;
    Ok(text.as_slice() == wanted.as_bytes())
}

#[test]
fn two_workers_answer_a_report_at_the_same_time(rt: HostRuntime) -> Result<(), Fail> {
    let how = How::of(2, CUTTING, 100);
    let gate = Watch::new(Hold::First { middle: 0 });
    assert!(rt; writes(&rt, rt.alloc(), &gate, &how, THREE_PIECES, COUNTED)?);
    assert!(rt; gate.entering_met.is_over());
    Ok(())
}

/// Two places of a list name one part, which two workers read.
#[test]
fn two_workers_read_parts_at_the_same_time(rt: HostRuntime) -> Result<(), Fail> {
    let how = How::of(2, CUTTING, 100);
    let gate = Watch::new(Hold::First { middle: 0 });
    assert!(rt; writes(&rt, rt.alloc(), &gate, &how, LISTED_TWICE, "")?);
    assert!(rt; gate.reading_met.is_over());
    Ok(())
}

/// The table is cut as the run is told: each of its four keys is a piece of its own at depth 13.
#[test]
fn a_report_is_of_the_pieces_of_the_cutting(rt: HostRuntime) -> Result<(), Fail> {
    let how = How::of(2, DEEP, 100);
    let gate = Watch::new(Hold::First { middle: 0 });
    assert!(rt; writes(&rt, rt.alloc(), &gate, &how, THREE_PIECES, COUNTED)?);
    assert_eq!(rt; gate.entered.count(), 4);
    Ok(())
}
