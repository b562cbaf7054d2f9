//! Cells in bytes, one behind another: what a row holds of them.
//!
//! The first byte of a cell tells its form. Most cells of a table are short texts and small integers, and a row of a few
//! of them is no longer than the pointers that would lead to them.
ghost use Rattle.std.specs.Prelude.{◌≡◌, ◌+◌, ◌^◌, ◌<◌, ◌≤◌, drop, length, slice_index_or, OnErr, OnOk, take};
ghost use Rattle.std.specs.Int.{cast_signed, from_le_bytes, w32, w64};
ghost use Rattle.cells.specs.Lent.{lent_cell};
ghost use Rattle.cells.specs.Packing.{Fills, IsFirst, IsLeft, IsMoreBy, IsShort, cell_behind, cells_in, first_cell, first_size, form_of, long_len, size_behind};
ghost use Rattle.cells.specs.RowBytes.{row_bytes};
ghost use Rattle.cells.specs.declared.cell.Cell.TheVariants.{Null};
ghost use Rattle.cells.specs.declared.cell.Cell.TheVariants as cell;

use crate::lent::LentCell;
use crate::lent_text::LentText;
use crate::row_bytes::RowBytes;
use std::alloc::{AllocError, Global};

/// The first byte of NULL, behind which nothing follows.
const NULL_BYTE: u8 = 0;

/// The first byte of an integer of 32 bits, whose 4 bytes follow, the lowest first.
const INT_32_BYTE: u8 = 1;

/// The first byte of an integer of 64 bits, whose 8 bytes follow, the lowest first.
const INT_64_BYTE: u8 = 2;

/// The first byte of a text of no bytes. The first byte of a short text is so much more as the text has bytes.
const EMPTY_TEXT_BYTE: u8 = 3;

/// The first byte of a text whose length follows in 2 bytes, the lowest first, and then its bytes.
const LONG_TEXT_BYTE: u8 = 255;

/// A text of so many bytes is a long one, and so is each text with more.
const LONG_BYTES: usize = 252;

/// How a cell lies in bytes, as its first byte tells.
#[derive(Clone, Copy, Debug, Drop)]
enum CellForm {
    Null,
    Int32,
    Int64,
    /// A text of so many bytes.
    ShortText(u8),
    LongText,
}

/// The form that a first byte tells.
#[tactic(auto, unfolding(crate::specs::Packing::form_of))]
fn form_of(first: u8) -> CellForm
    ensures { result ≡ form_of first }
{
    match first {
        NULL_BYTE => CellForm::Null,
        INT_32_BYTE => CellForm::Int32,
        INT_64_BYTE => CellForm::Int64,
        LONG_TEXT_BYTE => CellForm::LongText,
        _ => CellForm::ShortText(first - EMPTY_TEXT_BYTE),
    }
}

/// How many bytes of a cell follow its first.
fn size_behind(form: CellForm, behind: &[u8]) -> usize
    ensures { result ≡ size_behind form behind.now }
{
    match form {
        CellForm::Null => 0,
        CellForm::Int32 => 4,
        CellForm::Int64 => 8,
        CellForm::ShortText(len) => len as usize,
        CellForm::LongText => 2 + long_len(behind) as usize,
    }
}

/// How many bytes a long text has, whose length stands first.
fn long_len(behind: &[u8]) -> u16
    ensures { result ≡ long_len behind.now }
{
    match behind {
        [low, high, ..] => u16::from_le_bytes([*low, *high]),
        _ => 0,
    }
}

/// The bytes behind those of the first cell.
pub(crate) fn behind_first(bytes: &[u8]) -> &[u8]
    requires { IsFirst bytes.now }
    ensures { result.now ≡ drop (first_size bytes.now) bytes.now }
{
    let Some((first, behind)) = bytes.split_first() else {
        return bytes;
    };
    let (_, rest) = behind.split_at(size_behind(form_of(*first), behind));
    rest
}

/// The cell whose bytes stand first.
pub(crate) fn first_cell(bytes: &[u8]) -> LentCell<'_>
    requires { IsFirst bytes.now }
    ensures { lent_cell result ≡ first_cell bytes.now }
{
    let Some((first, behind)) = bytes.split_first() else {
        return LentCell::Null;
    };
    match form_of(*first) {
        CellForm::Null => LentCell::Null,
        CellForm::Int32 => LentCell::Int(int_32(behind)),
        CellForm::Int64 => LentCell::Int(int_64(behind)),
        CellForm::ShortText(len) => LentCell::Text(LentText::of(&behind[..len as usize])),
        CellForm::LongText => LentCell::Text(LentText::of(long_text(behind))),
    }
}

/// The integer whose 4 bytes stand first.
fn int_32(bytes: &[u8]) -> i64
    requires { 4 ≤ length bytes.now }
    ensures { result ≡ cast_signed w32 (from_le_bytes w32 (take 4 bytes.now)) }
{
    let Some((own, _)) = bytes.split_first_chunk::<4>() else {
        unreachable!()
    };
    i64::from(i32::from_le_bytes(*own))
}

/// The integer whose 8 bytes stand first.
fn int_64(bytes: &[u8]) -> i64
    requires { 8 ≤ length bytes.now }
    ensures { result ≡ cast_signed w64 (from_le_bytes w64 (take 8 bytes.now)) }
{
    let Some((own, _)) = bytes.split_first_chunk::<8>() else {
        unreachable!()
    };
    i64::from_le_bytes(*own)
}

/// The bytes of a long text, whose length stands first.
fn long_text(behind: &[u8]) -> &[u8]
    requires { 2 + long_len behind.now ≤ length behind.now }
    ensures { result.now ≡ take (long_len behind.now) (drop 2 behind.now) }
{
    &behind[2..2 + long_len(behind) as usize]
}

/// The cell at an index of so many cells; NULL where there is none.
pub(crate) fn cell_at(bytes: &[u8], count: usize, index: usize) -> LentCell<'_>
    requires { Fills count bytes.now }
    ensures { lent_cell result ≡ slice_index_or (cells_in count bytes.now) index Null }
{
    if index >= count {
        return LentCell::Null;
    }
    first_cell(behind(bytes, count, index))
}

/// What is left of so many cells behind the first ones.
pub(crate) fn behind(bytes: &[u8], count: usize, first: usize) -> &[u8]
    requires fills { Fills count bytes.now }
    requires few { first ≤ count }
    ensures { IsLeft count first (cells_in count bytes.now) result.now }
{
    let mut rest = bytes;
    for _i in 0..first {
        rest = behind_first(rest);
    }
    rest
}

/// Appends the bytes of a cell. Where memory is wanting the bytes stay as they are.
pub(crate) fn pack(
    bytes: &mut RowBytes,
    alloc: Global,
    cell: LentCell<'_>,
) -> Result<(), AllocError>
    requires { IsShort (lent_cell cell) }
    ensures more { OnOk result (IsMoreBy (lent_cell cell.entry) (row_bytes bytes.old) (row_bytes bytes.new)) }
    ensures same { OnErr result (row_bytes bytes.new ≡ row_bytes bytes.old) }
{
    match cell {
        LentCell::Null => bytes.push(alloc, &[NULL_BYTE], &[]),
        LentCell::Int(n) => pack_int(bytes, alloc, n),
        LentCell::Text(text) => pack_text(bytes, alloc, text),
    }
}

/// Appends an integer, in 4 bytes where they hold it.
fn pack_int(bytes: &mut RowBytes, alloc: Global, n: i64) -> Result<(), AllocError>
    ensures more { OnOk result (IsMoreBy (cell.Int n) (row_bytes bytes.old) (row_bytes bytes.new)) }
    ensures same { OnErr result (row_bytes bytes.new ≡ row_bytes bytes.old) }
{
    match i32::try_from(n) {
        Ok(small) => bytes.push(alloc, &[INT_32_BYTE], &small.to_le_bytes()),
        Err(_) => bytes.push(alloc, &[INT_64_BYTE], &n.to_le_bytes()),
    }
}

/// Appends a text, whose length has 16 bits.
fn pack_text(bytes: &mut RowBytes, alloc: Global, text: LentText<'_>) -> Result<(), AllocError>
    requires { length text.bytes.now < 2 ^ 16 }
    ensures more { OnOk result (IsMoreBy (cell.Text text.entry.bytes.now) (row_bytes bytes.old) (row_bytes bytes.new)) }
    ensures same { OnErr result (row_bytes bytes.new ≡ row_bytes bytes.old) }
{
    let len = text.bytes.len();
    if len < LONG_BYTES {
        return bytes.push(alloc, &[len as u8 + EMPTY_TEXT_BYTE], text.bytes);
    }
    let [low, high] = (len as u16).to_le_bytes();
    bytes.push(alloc, &[LONG_TEXT_BYTE, low, high], text.bytes)
}
