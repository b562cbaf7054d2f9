//! Columns of codes: for whom they are laid out beside a piece.

use cells::{Cell, Plain, Refused, Row, Schema};
use columns::{Columns, RowPiece, RowTrie};
use std::alloc::{AllocError, Global};
use std::sync::Wait;
use std::test::Fail;
use trie::{Cutting, LEAST_SUMMED, Trie};

/// A row with two columns beside its key, often enough for a piece that has a place for its columns.
fn many_rows(alloc: Global) -> Result<Vec<(Cell, Row)>, Refused> {
    let schema = Schema::read(alloc, "T (K INT KEY, V INT, W TEXT)")?;
    let row = Row::read(alloc, &[b"1", b"2", b"a"], &schema)?;
    drop(schema);
    let mut pairs = Vec::new(alloc);
    for key in 0..LEAST_SUMMED {
        pairs.push((Cell::Int(key.cast_signed()), row.clone()?))?;
    }
    Ok(pairs)
}

/// Whether a report that asks for the column at the piece finds that it is not laid out yet.
fn is_wanting<R: Wait>(
    rt: &R,
    alloc: Global,
    piece: &RowPiece<Plain>,
    index: usize,
) -> Result<bool, AllocError> {
    let columns = Columns::of_named(alloc, &[index])?;
    let is_wanting = columns.ask_for(rt, alloc, piece);
    drop(columns);
    Ok(is_wanting)
}

/// How many columns such a report then lays out beside the piece.
fn laid_ahead<R: Wait>(
    rt: &R,
    alloc: Global,
    piece: &RowPiece<Plain>,
    index: usize,
) -> Result<Option<u64>, AllocError> {
    let columns = Columns::of_named(alloc, &[index])?;
    let laid = columns.lay_out_ahead(rt, alloc, piece);
    drop(columns);
    laid
}

/// What two reports tell that both ask before one lays out columns.
type ByTwo = ([bool; 2], [Option<u64>; 2]);

fn laid_by_two<R: Wait>(
    rt: &R,
    alloc: Global,
    piece: &RowPiece<Plain>,
) -> Result<ByTwo, AllocError> {
    let wanting = [
        is_wanting(rt, alloc, piece, 1)?,
        is_wanting(rt, alloc, piece, 2)?,
    ];
    let laid = [
        laid_ahead(rt, alloc, piece, 1)?,
        laid_ahead(rt, alloc, piece, 2)?,
    ];
    Ok((wanting, laid))
}

/// The same beside a piece of many rows.
fn laid_beside_rows<R: Wait>(rt: &R, alloc: Global) -> Result<ByTwo, Refused> {
    let rows: RowTrie<Plain> = Trie::from_pairs(alloc, many_rows(alloc)?)?;
    let pieces = rows.split(alloc, &Cutting { depth: 0, small: 0 })?;
    match pieces.first() {
        Some(piece) => Ok(laid_by_two(rt, alloc, piece)?),
        None => Err(Refused::OutOfMemory),
    }
}

/// Who lays out columns first does so for all who have asked.
#[test]
fn columns_are_laid_out_for_all_who_asked(rt: HostRuntime) -> Result<(), Fail> {
    let laid = laid_beside_rows(&rt, rt.alloc())?;
    assert_eq!(rt; laid, ([true, true], [Some(2), Some(0)]));
    Ok(())
}
