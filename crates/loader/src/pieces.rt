//! The pieces of a list of parts, which workers draw.
ghost use Rattle.std.specs.Prelude.{◌≡◌, ◌≤◌, ◌++◌, ◌-◌, ◌^◌, true, IfOk, OnOk, length, map, min, sum_by};
ghost use Rattle.crew.specs.Limits.{piece_limit};
ghost use Rattle.loader.specs.Parts.{part_of};
ghost use Rattle.loader.specs.Pieces.{ArePieces, labelled, piece_size};

use crate::cutting::cut;
use crew::{MAX_PIECES, MAX_SEATS};
use std::alloc::{AllocError, Global};

/// The fewest bytes of a piece that is cut off. It takes longer to read so many than to draw a place.
const LEAST_PIECE: u64 = 1_048_576;

/// Into how many pieces for each worker a list is cut, if it is one large part. Workers that draw several small pieces
/// are done at about the same time.
const PIECES_PER_WORKER: u64 = 4;

/// A part, or a piece of one that is cut at record ends.
#[derive(Drop)]
pub(crate) struct Piece<'a> {
    /// The place of the part in the list.
    pub place: u64,
    /// The number of the part.
    pub part: u64,
    /// Whether it is the part's first piece, which has the header.
    pub first: bool,
    pub bytes: &'a [u8],
}

/// The pieces of the parts of a list, in their order, no more than workers may share out. A part is cut where it is
/// larger than two pieces of this size.
///
/// The only error is that a growth was refused.
pub(crate) fn pieces_of<'a>(
    alloc: Global,
    parts: &[(u64, &'a [u8])],
    size: usize,
) -> Result<Vec<Piece<'a>>, AllocError>
    requires many { length parts.now ≤ piece_limit }
    requires size { 3 ≤ size }
    ensures cut { IfOk result (λ pieces. ArePieces (map part_of parts.now) pieces.items) }
    ensures many { IfOk result (λ pieces. length pieces.items ≤ piece_limit) }
{
    let mut pieces = Vec::with_capacity(alloc, parts.len())?;
    for (place, part) in parts.iter().enumerate() {
        // Each part behind this one is a piece at least.
        let behind = parts.len() - place - 1;
        let most = MAX_PIECES as usize - pieces.len() - behind;
        let texts = cut(alloc, part.1, size, most)?;
        push_all(&mut pieces, place as u64, part.0, texts)?;
    }
    Ok(pieces)
}

/// Puts the pieces of a part behind those that are there. The only error is that a growth was refused.
fn push_all<'a>(
    pieces: &mut Vec<Piece<'a>>,
    place: u64,
    part: u64,
    texts: Vec<&'a [u8]>,
) -> Result<(), AllocError>
    ensures { OnOk result (pieces.new.items ≡ pieces.old.items ++ labelled place part true texts.entry.items) }
{
    let mut first = true;
    for bytes in texts {
        pieces.push(Piece {
            place,
            part,
            first,
            bytes,
        })?;
        first = false;
    }
    Ok(())
}

/// How many bytes the pieces of a list are to have for so many workers. One worker alone reads parts as they are.
pub(crate) fn piece_size(parts: &[(u64, &[u8])], workers: u64) -> usize
    ensures size { result ≡ piece_size (min (sum_by (λ part. length part.1.now) parts.now) (2 ^ 64 - 1)) workers }
    ensures least { 3 ≤ result }
{
    if workers < 2 {
        return usize::MAX;
    }
    let pieces = workers.min(MAX_SEATS) * PIECES_PER_WORKER;
    (listed_bytes(parts) / pieces).max(LEAST_PIECE) as usize
}

/// How many bytes the parts have together, up to the greatest number.
fn listed_bytes(parts: &[(u64, &[u8])]) -> u64
    ensures { result ≡ min (sum_by (λ part. length part.1.now) parts.now) (2 ^ 64 - 1) }
{
    let mut bytes = 0u64;
    for part in parts {
        bytes = bytes.saturating_add(part.1.len() as u64);
    }
    bytes
}
