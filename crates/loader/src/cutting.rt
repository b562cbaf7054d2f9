//! Texts cut at record ends.
ghost use Rattle.std.specs.Prelude.{◌≡◌, ◌≢◌, ◌==◌, ◌≤◌, ◌&&◌, ◌/◌, ◌∷◌, [], ℕ, IfNone, IfOk, IfSome, get_or, length, map, not, take};
ghost use Rattle.std.specs.Bool.{MatchBool};
ghost use Rattle.std.specs.List.{flat_map, list_any};
ghost use Rattle.csv.specs.Reading.{is_bom, strip_bom};
ghost use Rattle.csv.specs.declared.parser.State.TheVariants as st;
ghost use Rattle.loader.specs.Cuts.{AreCut, IsCut, IsFirst, IsLineEnd, is_quote, is_start, state_after};
ghost use Rattle.loader.specs.Records.{begins_plainly, records_of};
ghost use Rattle.loader.specs.States.{machine_state};

use crate::plain::MARK;
use crate::states::{FEED, QUOTE, State};
use csv::ByteRecord;
use records::Records;
use std::alloc::{AllocError, Global};

/// How many bytes a byte order mark has.
const MARK_LEN: usize = 3;

/// Cuts the bytes of a part into pieces of `size` bytes or somewhat more, and into `most` pieces at most. The records
/// of the pieces, those of one behind those of another, are those of the part. Where there are several pieces, the
/// first one has a record.
///
/// The only error is that a growth was refused.
pub(crate) fn cut<'a>(
    alloc: Global,
    bytes: &'a [u8],
    size: usize,
    most: usize,
) -> Result<Vec<&'a [u8]>, AllocError>
    requires size { 3 ≤ size }
    requires most { 1 ≤ most }
    ensures records { IfOk result (λ pieces. AreCut bytes.entry.now (map (λ piece. piece.now) pieces.items)) }
    ensures many { IfOk result (λ pieces. length pieces.items ≤ most) }
{
    let pieces = parted(alloc, bytes, size, most)?;
    if pieces.len() < 2 {
        return Ok(pieces);
    }
    // A header is not sought behind a piece of empty lines.
    if has_record(alloc, pieces[0])? {
        return Ok(pieces);
    }
    whole(alloc, bytes)
}

/// All bytes in one piece.
fn whole<'a>(alloc: Global, bytes: &'a [u8]) -> Result<Vec<&'a [u8]>, AllocError>
    ensures { IfOk result (λ pieces. map (λ piece. piece.now) pieces.items ≡ bytes.entry.now ∷ []) }
{
    let mut pieces = Vec::with_capacity(alloc, 1)?;
    pieces.push(bytes)?;
    Ok(pieces)
}

/// Whether the bytes have a record. The only error is that a growth was refused.
fn has_record(alloc: Global, bytes: &[u8]) -> Result<bool, AllocError>
    ensures { IfOk result (λ has. MatchBool has (records_of bytes.now ≢ []) (records_of bytes.now ≡ [])) }
{
    let mut records = Records::new(alloc, bytes, b',');
    let mut record = ByteRecord::new(alloc);
    let has = records.next(&mut record)?;
    Ok(has)
}

/// Cuts bytes wherever a piece is large enough, so that the records of the pieces are theirs.
fn parted<'a>(
    alloc: Global,
    bytes: &'a [u8],
    size: usize,
    most: usize,
) -> Result<Vec<&'a [u8]>, AllocError>
    requires size { 3 ≤ size }
    requires most { 1 ≤ most }
    ensures records { IfOk result (λ pieces. flat_map records_of (map (λ piece. piece.now) pieces.items) ≡ records_of bytes.entry.now) }
    ensures many { IfOk result (λ pieces. length pieces.items ≤ most) }
    ensures some { IfOk result (λ pieces. 1 ≤ length pieces.items) }
{
    let mut pieces = Vec::new(alloc);
    let mut left = bytes;
    while pieces.len() + 1 < most {
        let Some(at) = cut_place(left, size) else {
            break;
        };
        let (piece, rest) = left.split_at(at);
        pieces.push(piece)?;
        left = rest;
    }
    pieces.push(left)?;
    Ok(pieces)
}

/// A place at or behind `size` bytes at which the bytes may be cut. None where there is none, or the bytes are no more
/// than two such pieces.
fn cut_place(bytes: &[u8], size: usize) -> Option<usize>
    requires { 3 ≤ size }
    ensures cut { IfSome result (λ at. (size ≤ at) × IsCut bytes.now at) }
    ensures none { IfNone result ((place : ℕ) → size ≤ place → IsCut bytes.now place → length bytes.now / 2 ≤ size) }
{
    if bytes.len() / 2 <= size {
        return None;
    }
    let Some(at) = line_end(bytes, size) else {
        return record_end(bytes, size);
    };
    if is_simple(&bytes[..at]) {
        return Some(at);
    }
    record_end(bytes, size)
}

/// The first place at or behind `size` bytes at which a line begins, but not as a byte order mark does.
fn line_end(bytes: &[u8], size: usize) -> Option<usize>
    requires { 3 ≤ size }
    ensures { IsFirst (IsLineEnd bytes.now) size result }
{
    for at in size..bytes.len() {
        if bytes[at - 1] == FEED {
            if bytes[at] != MARK {
                return Some(at);
            }
        }
    }
    None
}

/// Whether each line feed behind these bytes ends a record: they begin as no byte order mark does, and have no quote.
fn is_simple(bytes: &[u8]) -> bool
    ensures { result ≡ (begins_plainly bytes.now && not (list_any is_quote bytes.now)) }
{
    match bytes.first() {
        Some(first) if *first != MARK => !has_quote(bytes),
        _ => false,
    }
}

/// Whether a quote is among these bytes.
fn has_quote(bytes: &[u8]) -> bool
    ensures { result ≡ list_any is_quote bytes.now }
{
    bytes.iter().any(|byte| *byte == QUOTE)
}

/// The first place at or behind `size` bytes that is between two records, but does not begin as a byte order mark does.
/// Each byte before it is looked at, since a quote may stand anywhere.
fn record_end(bytes: &[u8], size: usize) -> Option<usize>
    requires size { 3 ≤ size }
    requires long { 3 ≤ length bytes.now }
    ensures { IsFirst (IsCut bytes.now) size result }
{
    let mut state = state_behind_mark(bytes);
    for at in MARK_LEN..bytes.len() {
        if at >= size {
            if may_cut(state, bytes[at]) {
                return Some(at);
            }
        }
        state = state.after(bytes[at]);
    }
    None
}

/// Whether a text may be cut that stands so, before this byte.
fn may_cut(state: State, next: u8) -> bool
    ensures { result ≡ (is_start (machine_state state) && not (next == 0xEF)) }
{
    match state {
        State::Between => next != MARK,
        _ => false,
    }
}

/// Where a text stands behind its first three bytes, which may be a byte order mark.
fn state_behind_mark(bytes: &[u8]) -> State
    requires { 3 ≤ length bytes.now }
    ensures { machine_state result ≡ state_after st.StartRecord (strip_bom (take 3 bytes.now)) }
{
    if is_mark(bytes[0], bytes[1], bytes[2]) {
        return State::Between;
    }
    State::Between
        .after(bytes[0])
        .after(bytes[1])
        .after(bytes[2])
}

/// Whether these bytes are a byte order mark.
fn is_mark(first: u8, second: u8, third: u8) -> bool
    ensures { result ≡ is_bom first second third }
{
    first == MARK && second == 0xBB && third == 0xBF
}
