//! A gate that is told of each publish.

use crate::gates::{Hold, Watch};
use crate::of_script::written::{CUTTING, written};
use script::{Ended, How};
use std::alloc::Global;
use std::sync::Wait;
use std::test::Fail;
use std::thread::Threads;

/// What the gate is told by a run of these lines, and how that ends.
fn told_by<R: Threads + Wait + Sync>(
    rt: &R,
    alloc: Global,
    lines: &[u8],
) -> (u64, Result<(), Ended>) {
    let gate = Watch::new(Hold::Nobody);
    let how = How::of(1, CUTTING, 1);
    let ended = match written(rt, alloc, lines, &[], &how, None, &gate) {
        Ok(_) => Ok(()),
        Err(why) => Err(why),
    };
    (gate.editions(), ended)
}

/// Each number is that of the last edition, so the edition stands when the gate is told.
#[test]
fn the_gate_is_told_of_each_publish(rt: HostRuntime) -> Result<(), Fail> {
    let lines = b"publish\ntable T (K INT KEY)\npublish\npublish x\npublish\npublish";
    assert_eq!(rt; told_by(&rt, rt.alloc(), lines), (123, Ok(())));
    Ok(())
}

/// With each allocation failing in turn, too. The last line is the publish: where its edition stands the run is whole,
/// and the gate is told of it; where it was refused the run ends there, and the gate is told of none.
#[test]
fn the_gate_is_told_of_no_edition_that_does_not_stand(rt: HostRuntime) -> Result<(), Fail> {
    let (editions, ended) = told_by(&rt, rt.alloc(), b"table T (K INT KEY)\npublish");
    assert_eq!(rt; editions, u64::from(ended.is_ok()));
    Ok(())
}
