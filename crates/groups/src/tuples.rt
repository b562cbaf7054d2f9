//! Tuples made of some of the cells of a row, or of a finer tuple.
ghost use Rattle.std.specs.Prelude.{◌≡◌, ◌↔◌, IfOk, IsTrue};
ghost use Rattle.groups.specs.Bags.{picked};

use cells::{Cell, Tuple};
use std::alloc::{AllocError, Global};

/// An odd number of 64 bits whose ones and zeros follow no pattern: 2^64 divided by the golden ratio.
const SPREAD: u64 = 11_400_714_819_323_198_485;

/// The word of NULL in a hash.
const NULL: u64 = 1;

/// The word before that of an integer.
const INTEGER: u64 = 2;

/// The word before those of an empty text; before others it is greater by the number of their bytes.
const TEXT: u64 = 3;

/// The tuple of the cells of these indexes, with NULL where there is no such cell.
pub fn tuple_of(alloc: Global, cells: &[Cell], indexes: &[usize]) -> Result<Tuple, AllocError>
    ensures { IfOk result (λ t. t ≡ picked indexes.now cells.now) }
{
    let mut tuple = Vec::new(alloc);
    for index in indexes {
        let cell = cells.get(*index).unwrap_or(&Cell::Null);
        tuple.push(cell.clone()?)?;
    }
    Ok(Tuple::new(tuple))
}

/// Whether the tuple is that of the cells of these indexes.
pub fn is_tuple_of(tuple: &[Cell], cells: &[Cell], indexes: &[usize]) -> bool
    ensures { IsTrue result ↔ (tuple.now ≡ picked indexes.now cells.now) }
{
    if tuple.len() != indexes.len() {
        return false;
    }
    for (i, index) in indexes.iter().enumerate() {
        let cell = cells.get(*index).unwrap_or(&Cell::Null);
        if tuple[i] != *cell {
            return false;
        }
    }
    true
}

/// A hash of the cells of these indexes, of which nothing is asked but speed: a cell costs a step for its kind, and as many
/// more as it has words of eight bytes.
pub fn hash_of(cells: &[Cell], indexes: &[usize]) -> u64 {
    let mut hash = 0u64;
    for index in indexes {
        hash = with_cell(hash, cells.get(*index).unwrap_or(&Cell::Null));
    }
    // A product has its best bits at the top.
    hash ^ (hash >> 32)
}

/// The hash that these cells have as those of all indexes.
pub fn hash_of_all(cells: &[Cell]) -> u64 {
    let mut hash = 0u64;
    for cell in cells {
        hash = with_cell(hash, cell);
    }
    hash ^ (hash >> 32)
}

/// The hash with a cell after what it has. A word for the cell's kind comes first, or NULL would have the hash of some
/// integer that is easily met; that of a text tells its length, too, or the bytes of two texts beside each other might be
/// shared out in two ways.
fn with_cell(hash: u64, cell: &Cell) -> u64 {
    match cell {
        Cell::Null => with_word(hash, NULL),
        Cell::Int(n) => with_word(with_word(hash, INTEGER), n.cast_unsigned()),
        Cell::Text(text) => {
            let bytes = text.as_bytes();
            with_bytes(
                with_word(hash, TEXT.wrapping_add(bytes.len() as u64)),
                bytes,
            )
        }
    }
}

/// The hash with the bytes after what it has, eight of them at a time.
fn with_bytes(hash: u64, bytes: &[u8]) -> u64 {
    bytes
        .chunks(8)
        .fold(hash, |hash, chunk| with_word(hash, word_of(chunk)))
}

/// Up to eight bytes as one word.
fn word_of(bytes: &[u8]) -> u64 {
    bytes
        .iter()
        .fold(0, |word, byte| (word << 8) | u64::from(*byte))
}

/// The hash with a word after what it has. Words of small integers differ in a few bits alone, so that a sum of
/// multiples of them is often the same: they are turned and spread.
fn with_word(hash: u64, word: u64) -> u64 {
    (hash.rotate_left(23) ^ word).wrapping_mul(SPREAD)
}
