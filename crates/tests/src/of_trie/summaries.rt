//! Which pieces have a place for a summary beside them.

use cells::{Cell, Plain};
use std::alloc::{AllocError, Global};
use std::sync::Wait;
use std::sync::atomic::AtomicU64;
use std::sync::atomic::Ordering::SeqCst;
use std::test::Fail;
use trie::{Cutting, LEAST_SUMMED, MOST_SUMMED, Piece, Summary, Summed, Trie};

/// A summary that says nothing.
#[derive(Drop)]
struct Mark;

impl Summary<Cell, Cell> for Mark {
    ghost use Rattle.std.specs.Prelude.{⊤};

    ghost describes = { λ _ _. ⊤ };
}

/// What lies beside entries here.
type Marks = Summed<Cell, Cell, Mark>;

/// Whether a mark is found beside the piece, and how often one was made.
fn found<R: Wait>(
    rt: &R,
    piece: &Piece<Cell, Cell, Plain, Marks>,
) -> (Result<(), AllocError>, u64) {
    let calls = AtomicU64::new(0);
    let made = &calls;
    let mark = piece.summary_or_make(rt, move || -> Option<Mark> {
        made.fetch_add(1, SeqCst);
        Some(Mark)
    });
    let found = if mark.is_some() {
        Ok(())
    } else {
        Err(AllocError)
    };
    drop(mark);
    (found, calls.load(SeqCst))
}

/// The same beside all entries of a map of so many integers.
fn found_beside_all<R: Wait>(
    rt: &R,
    alloc: Global,
    len: u64,
) -> Result<(Result<(), AllocError>, u64), AllocError> {
    let mut pairs = Vec::new(alloc);
    for key in 0..len {
        pairs.push((Cell::Int(key.cast_signed()), Cell::Null))?;
    }
    let map: Trie<Cell, Cell, Plain, Marks> = Trie::from_pairs(alloc, pairs)?;
    let whole = Cutting { depth: 0, small: 0 };
    let pieces = map.split(alloc, &whole)?;
    match pieces.first() {
        Some(piece) => Ok(found(rt, piece)),
        None => Err(AllocError),
    }
}

/// Enough entries have a place, and too few and too many have none.
#[test]
fn some_numbers_of_entries_have_a_place(rt: HostRuntime) -> Result<(), Fail> {
    for len in [LEAST_SUMMED, MOST_SUMMED] {
        let (mark, made) = found_beside_all(&rt, rt.alloc(), len)?;
        mark?;
        assert_eq!(rt; made, 1);
    }
    for len in [LEAST_SUMMED - 1, MOST_SUMMED + 1] {
        let found = found_beside_all(&rt, rt.alloc(), len)?;
        assert_eq!(rt; found, (Err(AllocError), 0));
    }
    Ok(())
}
