//! Runs that the tests make, each of the two kinds in one place.
ghost use Rattle.std.specs.Prelude.{◌+◌, ◌<◌, ◌^◌};

use cells::Plain;
use crew::Gate;
use report::{Out, Pour};
use script::{Ended, How, live, run};
use std::alloc::Global;
use std::sync::Wait;
use std::thread::Threads;
use trie::Cutting;

pub(crate) const CUTTING: Cutting = Cutting { depth: 1, small: 0 };

/// What viewers are asked, how many there are, and how often each reports before its last report.
#[derive(Clone, Copy)]
pub(crate) struct Viewed {
    pub(crate) query: &'static str,
    pub(crate) viewers: u64,
    pub(crate) shots: u64,
}

/// Runs the script into the writer, with viewers where these are.
pub(crate) fn run_into<O: Out, G: Gate, R: Threads + Wait + Sync>(
    rt: &R,
    alloc: Global,
    script: &[u8],
    parts: &[Vec<u8>],
    how: &How,
    viewed: Option<Viewed>,
    gate: &G,
    out: &mut O,
) -> Result<(), Ended>
    requires { O.faults out.old + 1 < 2 ^ 64 }
{
    match viewed {
        None => run::<Plain, _, _, _>(rt, alloc, script, parts, how, gate, out),
        Some(
            Viewed {
                query,
                viewers,
                shots,
            },
        ) => live::<Plain, _, _, _>(
            rt, alloc, script, parts, how, viewers, shots, query, gate, out,
        ),
    }
}

/// What such a run writes.
pub(crate) fn written<G: Gate, R: Threads + Wait + Sync>(
    rt: &R,
    alloc: Global,
    script: &[u8],
    parts: &[Vec<u8>],
    how: &How,
    viewed: Option<Viewed>,
    gate: &G,
) -> Result<Vec<u8>, Ended> {
    let mut out = Pour::new(Vec::new(alloc));
    run_into(rt, alloc, script, parts, how, viewed, gate, &mut out)?;
    Ok(out.into_inner())
}
