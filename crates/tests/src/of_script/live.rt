//! Viewers beside a run.

use crate::gates::{Hold, Watch};
use crate::of_script::written::{CUTTING, Viewed, run_into, written};
use cells::Refused;
use report::{Failing, Tape};
use script::{Ended, How};
use std::alloc::Global;
use std::sync::Wait;
use std::test::Fail;
use std::thread::Threads;

const QUERY: &str = "SELECT COUNT(*) FROM T";

const REFUSED: &[u8] = b"table T (K INT KEY)\nput x\nput y";

/// How a run ends with the viewers 1 and 2, who report three times each, where the writer fails at the line behind the table's;
/// and whether the writer took just `l`, in one call.
fn stop_early<R: Threads + Wait + Sync>(
    rt: &R,
    alloc: Global,
    gate: &Watch,
) -> Result<(Result<(), Ended>, bool), Refused> {
    let how = How::of(1, CUTTING, 100);
    let failing = Failing { call: 1, taking: 1 };
    let viewed = Viewed {
        query: QUERY,
        viewers: 2,
        shots: 3,
    };
    let mut tape = Tape::new(alloc, 100, 7, Some(failing))?;
    let ended = run_into(rt, alloc, REFUSED, &[], &how, Some(viewed), gate, &mut tape);
    let is_one = tape.bytes() == b"l".as_slice() && tape.calls() == 1;
    drop(tape);
    Ok((ended, is_one))
}

/// The lines behind the fault are not read, and the viewers are waited for.
#[test]
fn viewers_are_joined_where_a_run_ends_early(rt: HostRuntime) -> Result<(), Fail> {
    let gate = Watch::new(Hold::Each);
    let stopped = stop_early(&rt, rt.alloc(), &gate);
    let counts = gate.viewers();
    drop(gate);
    assert_eq!(rt; stopped, Ok((Err(Ended::WriteFailed), true)));
    assert_eq!(rt; counts, (3 * (1 + 2), 3 * (1 + 2)));
    Ok(())
}

const CORRECTED: &[u8] = b"table T (K INT KEY)\nput 1\npublish\nput 2\npublish\n";

const FROM_THE_FIRST: &str =
    "viewer 1 edition 0\nCOUNT(*)\n0\nviewer 1 edition 1\nCOUNT(*)\n1\nviewer 1 edition 2\nCOUNT(*)\n2\nviewer 1 edition 2\nCOUNT(*)\n2\n";

const FROM_THE_SECOND: &str =
    "viewer 1 edition 1\nCOUNT(*)\n1\nviewer 1 edition 2\nCOUNT(*)\n2\nviewer 1 edition 2\nCOUNT(*)\n2\nviewer 1 edition 2\nCOUNT(*)\n2\n";

/// The viewer runs beside the keeper, who tells it nothing before the end: its report on edition 1 is of that edition though
/// edition 2 is published meanwhile, and it meets edition 2 by itself. It may begin before edition 1 is published. The keeper
/// goes on behind a publish when the viewer has its edition.
#[test]
fn a_viewer_sees_each_edition_beside_its_keeper(rt: HostRuntime) -> Result<(), Fail> {
    let gate = Watch::new(Hold::Turns);
    let how = How::of(1, CUTTING, 100);
    let viewed = Viewed {
        query: QUERY,
        viewers: 1,
        shots: 3,
    };
    let written = written(&rt, rt.alloc(), CORRECTED, &[], &how, Some(viewed), &gate);
    let late = gate.late();
    drop(gate);
    assert_eq!(rt; late, 0);
    let text = written?;
    let text = text.as_slice();
    assert!(rt; text == FROM_THE_FIRST.as_bytes() || text == FROM_THE_SECOND.as_bytes());
    Ok(())
}
