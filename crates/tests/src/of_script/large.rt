//! Runs over 24,000 rows, which are cut into pieces that keep their columns: how many columns are laid out, for the reports of a
//! run and for viewers.

use crate::gates::{Hold, Watch};
use crate::of_script::written::{Viewed, written};
use script::{Ended, How};
use std::alloc::{AllocError, Global};
use std::sync::Wait;
use std::test::Fail;
use std::thread::Threads;

/// A part of 24,000 rows.
fn part(alloc: Global) -> Result<Vec<u8>, AllocError> {
    let mut text = String::from_str(alloc, "K,V,W\n")?;
    for key in 0..24_000u64 {
        let value = key % 7;
        write!(text, "{key},{value},{key}\n")?;
    }
    Ok(text.into_bytes())
}

/// A part of one row, of the piece of the last digit 5.
const ONE: &[u8] = b"K,V,W\n5,8,9\n";

/// How many pieces those rows have, where a key is its own hash: one for each last digit.
const PIECES: u64 = 32;

/// How many pieces were read, how many columns of pieces were laid out, and how many viewers waited in vain.
type Counts = (u64, u64, u64);

/// Runs these lines over both parts.
fn run_over_parts<R: Threads + Wait + Sync>(
    rt: &R,
    alloc: Global,
    lines: &[u8],
    viewed: Option<Viewed>,
    gate: &Watch,
) -> Result<(), Ended> {
    let parts = [part(alloc)?, Vec::from_slice(alloc, ONE)?];
    written(rt, alloc, lines, &parts, &How::default(), viewed, gate)?;
    Ok(())
}

/// What such a run reads and lays out, and how often a viewer waited in vain. A viewer of the edition without rows stays until
/// the first is published.
fn read_by<R: Threads + Wait + Sync>(
    rt: &R,
    alloc: Global,
    lines: &[u8],
    viewed: Option<Viewed>,
) -> Result<Counts, Ended> {
    let gate = Watch::new(Hold::Viewer);
    let ended = run_over_parts(rt, alloc, lines, viewed, &gate);
    let counts = (gate.entered.count(), gate.columns(), gate.late());
    drop(gate);
    ended?;
    Ok(counts)
}

/// Three reports over two columns.
const THREE_REPORTS: &[u8] = b"table T (K INT KEY, V INT, W INT)
load 1
publish
report SELECT V, COUNT(*) FROM T GROUP BY V
report SELECT V, COUNT(*) FROM T GROUP BY V
report SELECT MIN(V), MAX(W) FROM T
";

/// Each report reads each piece, and a column of a piece is laid out once.
#[test]
fn columns_are_laid_out_once(rt: HostRuntime) -> Result<(), Fail> {
    let counts = read_by(&rt, rt.alloc(), THREE_REPORTS, None)?;
    assert_eq!(rt; counts, (3 * PIECES, 2 * PIECES, 0));
    Ok(())
}

/// Editions after a put, a removal and a load, each with a report over two columns.
const FOUR_EDITIONS: &[u8] = b"table T (K INT KEY, V INT, W INT)
load 1
publish
report SELECT V, SUM(W) FROM T GROUP BY V
put 3,1,1
publish
report SELECT V, SUM(W) FROM T GROUP BY V
delete 4
publish
report SELECT V, SUM(W) FROM T GROUP BY V
load 2
publish
report SELECT V, SUM(W) FROM T GROUP BY V
";

/// After each change the columns of one piece alone are laid out.
#[test]
fn a_change_lays_out_one_piece_anew(rt: HostRuntime) -> Result<(), Fail> {
    let counts = read_by(&rt, rt.alloc(), FOUR_EDITIONS, None)?;
    assert_eq!(rt; counts, (4 * PIECES, 2 * PIECES + 2 * 3, 0));
    Ok(())
}

const PUBLISHED: &[u8] = b"table T (K INT KEY, V INT, W INT)
load 1
publish
report SELECT V, COUNT(*) FROM T GROUP BY V
report SELECT MAX(V) FROM T
";

/// Two viewers who are asked five times and once more.
const TWO_VIEWERS: Viewed = Viewed {
    query: "SELECT V, COUNT(*) FROM T GROUP BY V",
    viewers: 2,
    shots: 5,
};

/// All go over the same columns, of each piece that was laid out once, whoever came first.
#[test]
fn viewers_and_reports_share_the_columns_of_pieces(rt: HostRuntime) -> Result<(), Fail> {
    let (_, columns, late) = read_by(&rt, rt.alloc(), PUBLISHED, Some(TWO_VIEWERS))?;
    assert_eq!(rt; (columns, late), (PIECES, 0));
    Ok(())
}
