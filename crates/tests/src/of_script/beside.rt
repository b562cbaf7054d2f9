//! Reports that run beside later lines: each answers the edition that stood at its line, at most eight are under way, and
//! blocks are written in line order.

use crate::gates::{Hold, Watch};
use crate::of_script::written::{CUTTING, run_into};
use cells::Refused;
use report::{Failing, Tape};
use script::{Ended, How};
use std::alloc::{AllocError, Global};
use std::sync::Wait;
use std::test::Fail;
use std::thread::Threads;
use trie::Cutting;

/// A script that puts ten rows, and publishes and reports after each, and the reports.
fn ten(alloc: Global) -> Result<(String, String), AllocError> {
    let mut script = String::from_str(alloc, "table T (K INT KEY)\n")?;
    let mut reports = String::new(alloc);
    for key in 1..=10u64 {
        let line = 3 * key + 1;
        write!(
            script,
            "put {key}\npublish\nreport SELECT COUNT(*) FROM T\n"
        )?;
        write!(reports, "line {line} edition {key}\nCOUNT(*)\n{key}\n")?;
    }
    Ok((script, reports))
}

/// How a run of the ten ends.
struct Outcome {
    ended: Result<(), Ended>,
    /// How many bytes it wrote, and how many of the reports it did not; None where it wrote others.
    bytes: Option<(usize, usize)>,
}

/// How many bytes of the reports were taken, and how many were not.
fn taken_of(reports: &[u8], taken: &[u8]) -> Option<(usize, usize)> {
    match reports.strip_prefix(taken) {
        Some(rest) => Some((taken.len(), rest.len())),
        None => None,
    }
}

/// Runs the ten into a tape that takes seven bytes a call.
fn run_taped<R: Threads + Wait + Sync>(
    rt: &R,
    alloc: Global,
    (script, reports): (&[u8], &[u8]),
    how: &How,
    failing: Option<Failing>,
    gate: &Watch,
) -> Result<Outcome, Refused> {
    let mut tape = Tape::new(alloc, 1000, 7, failing)?;
    let ended = run_into(rt, alloc, script, &[], how, None, gate, &mut tape);
    let bytes = taken_of(reports, tape.bytes());
    drop(tape);
    Ok(Outcome { ended, bytes })
}

/// The same, with the ten made.
fn run_ten<R: Threads + Wait + Sync>(
    rt: &R,
    alloc: Global,
    how: &How,
    failing: Option<Failing>,
    gate: &Watch,
) -> Result<Outcome, Refused> {
    let (script, reports) = ten(alloc)?;
    let given = (script.as_bytes(), reports.as_bytes());
    run_taped(rt, alloc, given, how, failing, gate)
}

/// One piece for a report.
const WHOLE: Cutting = Cutting { depth: 0, small: 0 };

/// The first report goes on when seven later ones have come, each on an edition of its own.
#[test]
fn eight_reports_are_under_way(rt: HostRuntime) -> Result<(), Fail> {
    let gate = Watch::new(Hold::Reports {
        many: 8,
        edition: 0,
    });
    let outcome = run_ten(&rt, rt.alloc(), &How::of(1, WHOLE, 20), None, &gate);
    let seen = (gate.late(), gate.most(), gate.left.count());
    drop(gate);
    let Outcome { ended, bytes } = outcome?;
    assert_eq!(rt; ended, Ok(()));
    assert!(rt; matches!(bytes, Some((_, 0))));
    assert_eq!(rt; seen, (0, 8, 10));
    Ok(())
}

/// The writer fails behind `line 4 edition` while eight are under way: no ninth begins, the eight are joined, and no line behind
/// that of the ninth is read. A report that ends is written with the next line, so none may end before the line of the ninth.
#[test]
fn a_fault_of_the_writer_leaves_no_report_under_way(rt: HostRuntime) -> Result<(), Fail> {
    let gate = Watch::new(Hold::Reports {
        many: 8,
        edition: 9,
    });
    let failing = Some(Failing { call: 3, taking: 0 });
    let outcome = run_ten(&rt, rt.alloc(), &How::of(1, WHOLE, 20), failing, &gate);
    let seen = (gate.entered.count(), gate.left.count(), gate.published());
    drop(gate);
    let Outcome { ended, bytes } = outcome?;
    assert_eq!(rt; ended, Err(Ended::WriteFailed));
    assert!(rt; matches!(bytes, Some((14, _))));
    assert_eq!(rt; seen, (8, 8, 9));
    Ok(())
}

/// With each allocation failing in turn, too: a report that is refused memory, or a thread, while others run ends the run behind
/// a beginning of the reports, and the others are joined first.
#[test]
fn a_report_that_is_refused_memory_ends_the_run(rt: HostRuntime) -> Result<(), Fail> {
    let gate = Watch::new(Hold::Nobody);
    let outcome = run_ten(&rt, rt.alloc(), &How::of(2, CUTTING, 20), None, &gate);
    let is_empty = gate.is_empty();
    drop(gate);
    let Outcome { ended, bytes } = outcome?;
    assert!(rt;
        match ended {
            Ok(()) => matches!(bytes, Some((_, 0))),
            Err(why) => why != Ended::WriteFailed && bytes.is_some(),
        }
    );
    assert!(rt; is_empty);
    Ok(())
}
