//! The pieces that the rows of an edition are cut into.
ghost use Rattle.std.specs.Prelude.{◌≡◌, ◌<◌, ◌≤◌, IfOk};
ghost use Rattle.report.specs.Pieces.{AreCut, ArePiecesOf};

use board::Root;
use cells::{Cell, KeyHash, Row};
use columns::RowPiece;
use std::alloc::{AllocError, Global};
use trie::{
    Cutting, LEAST_SUMMED, MAX_DEPTH, MOST_SUMMED, a_map_has_its_entries, entries_are_a_map,
    pieces_are_parts,
};

/// Only a piece of more rows than these is cut. Its 32 parts then have a place for columns each, with hardly an exception, since
/// hashes spread evenly.
const LEAST_CUT: u64 = 40 * LEAST_SUMMED;

/// A put makes the columns of one piece anew, so that pieces should not have much more than this part of the rows.
const SHARE: u64 = 16;

/// The cutting of so many rows, where this one is asked for: where they are few it is the same, and else one whose pieces have
/// places for their columns and are few.
pub(crate) fn cutting_of(rows: u64, asked: Cutting) -> Cutting
    ensures few { rows ≤ LEAST_CUT → result ≡ asked }
    ensures many { LEAST_CUT < rows → (LEAST_CUT ≤ result.small) × (result.small ≤ MOST_SUMMED) × (result.depth ≡ MAX_DEPTH) }
{
    if rows <= LEAST_CUT {
        return asked;
    }
    Cutting {
        depth: MAX_DEPTH,
        small: (rows / SHARE).max(LEAST_CUT).min(MOST_SUMMED),
    }
}

/// The pieces that the cutting makes of the rows.
pub(crate) fn pieces_of<H: KeyHash<Cell>>(
    alloc: Global,
    root: &Root<H>,
    cutting: &Cutting,
) -> Result<Vec<RowPiece<H>>, AllocError>
    ensures rows { IfOk result (λ pieces. ArePiecesOf root.now pieces.items) }
    ensures cut { IfOk result (λ pieces. AreCut H.hash_of cutting.now root.now pieces.items) }
{
    // These do nothing: they are the trie's laws, by which its pieces have the entries of the map.
    entries_are_a_map::<Cell, Row, H>();
    a_map_has_its_entries::<Cell, Row>();
    pieces_are_parts::<Cell, Row, H>();
    root.rows().split(alloc, cutting)
}
