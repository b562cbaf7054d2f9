//! A writer that fails at each of its calls in turn: what was taken until then is all that a run, and a run with viewers,
//! leaves in it.
ghost use Rattle.std.specs.Prelude.{◌<◌};

use crate::of_script::written::{CUTTING, Viewed, run_into};
use crew::Open;
use report::{Failing, Tape};
use script::{Ended, How};
use std::alloc::Global;
use std::sync::Wait;
use std::test::Fail;
use std::thread::Threads;

/// A run: its script, its viewers where it has some, and all that it writes.
#[derive(Clone, Copy)]
struct Sample {
    script: &'static str,
    viewed: Option<Viewed>,
    output: &'static str,
}

const PART: &[u8] = b"K,V\n1,north\n2,\n";

/// A load and a report, refused lines and a report, and viewers. A draft has two rows at most.
const SAMPLES: [Sample; 3] = [
    Sample {
        script: "table T (K INT KEY, V TEXT)
load 1
publish
report SELECT V, COUNT(*) FROM T GROUP BY ROLLUP(V)",
        viewed: None,
        output: "line 4 edition 1
V | COUNT(*)
NULL | 1
'north' | 1
NULL | 2
",
    },
    Sample {
        script: "table T (K INT KEY, V INT)
put 1,1
put 2,2
put 3,3
put 2,7
put 4
publish
report SELECT COUNT(*), SUM(V) FROM T",
        viewed: None,
        output: "line 4 refused 9
line 6 refused 7
line 8 edition 1
COUNT(*) | SUM(V)
2 | 8
",
    },
    Sample {
        script: "table T (K INT KEY)",
        viewed: Some(Viewed {
            query: "SELECT COUNT(*) FROM T",
            viewers: 2,
            shots: 1,
        }),
        output: "viewer 1 edition 0
COUNT(*)
0
viewer 1 edition 0
COUNT(*)
0
viewer 2 edition 0
COUNT(*)
0
viewer 2 edition 0
COUNT(*)
0
",
    },
];

/// More bytes than any of the runs writes.
const ROOM: usize = 1_000;

/// How many bytes a run leaves in a tape of which a call is to fail: all, where it ends well and before that call; or fewer,
/// and then those that the call takes, where it ends there and makes no call more. None where it is otherwise.
fn written<R: Threads + Wait + Sync>(
    rt: &R,
    alloc: Global,
    sample: &Sample,
    parts: &[Vec<u8>],
    most: usize,
    failing: Failing,
) -> Result<Option<usize>, Ended>
    requires { 0 < most }
{
    let how = How::of(1, CUTTING, 2);
    let Ok(mut tape) = Tape::new(alloc, ROOM, most, Some(failing)) else {
        return Err(Ended::OutOfMemory);
    };
    let script = sample.script.as_bytes();
    let ended = run_into(
        rt,
        alloc,
        script,
        parts,
        &how,
        sample.viewed,
        &Open,
        &mut tape,
    );
    let output = sample.output.as_bytes();
    let taken = tape.bytes();
    let is_right = match ended {
        Ok(()) => tape.calls() < failing.call && taken == output,
        Err(ended) => {
            ended == Ended::WriteFailed
                && tape.calls() == failing.call
                && output.starts_with(taken)
                && taken.len() < output.len().saturating_add(failing.taking)
        }
    };
    if is_right {
        return Ok(Some(taken.len()));
    }
    Ok(None)
}

/// Whether the call before this one may have taken so many bytes: one at least, and no more than it may. Before the first
/// there is none.
fn is_step(call: u64, taken: usize, most: usize) -> bool {
    if call == 1 {
        return taken == 0;
    }
    1 <= taken && taken <= most
}

/// Whether a run ends at each call of its writer that fails: behind what the calls before it took, and what it takes
/// itself.
fn ends_at_each_call<R: Threads + Wait + Sync>(
    rt: &R,
    alloc: Global,
    sample: &Sample,
    parts: &[Vec<u8>],
    most: usize,
) -> Result<bool, Ended>
    requires { 0 < most }
{
    let mut before = 0;
    for call in 1..ROOM as u64 {
        let none = Failing { call, taking: 0 };
        let Some(taken) = written(rt, alloc, sample, parts, most, none)? else {
            return Ok(false);
        };
        if !is_step(call, taken.wrapping_sub(before), most) {
            return Ok(false);
        }
        if taken == sample.output.len() {
            return Ok(true);
        }
        let one = Failing { call, taking: 1 };
        if written(rt, alloc, sample, parts, most, one)? != Some(taken.saturating_add(1)) {
            return Ok(false);
        }
        before = taken;
    }
    Ok(false)
}

/// Whether each of the runs does, where its writer takes so many bytes a call.
fn all_end_at_each_call<R: Threads + Wait + Sync>(
    rt: &R,
    alloc: Global,
    most: usize,
) -> Result<bool, Ended>
    requires { 0 < most }
{
    let parts = [Vec::from_slice(alloc, PART)?];
    for sample in &SAMPLES {
        if !ends_at_each_call(rt, alloc, sample, &parts, most)? {
            return Ok(false);
        }
    }
    Ok(true)
}

#[test]
fn runs_end_at_each_call(rt: HostRuntime) -> Result<(), Fail> {
    for most in [1, 2, 7] {
        assert!(rt; all_end_at_each_call(&rt, rt.alloc(), most)?);
    }
    Ok(())
}
