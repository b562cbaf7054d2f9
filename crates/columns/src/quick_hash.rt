//! A quick hash of a cell, by which its hint is looked for. Nothing rests on it.

use cells::LentCell;

/// An odd number whose digits have no pattern: 2^64 over the golden ratio.
const MIXER: u64 = 0x9E37_79B9_7F4A_7C15;

/// The number of NULL.
const NULL: u64 = 0x5555_5555_5555_5555;

/// A hash of the cell, whose best bits are at the top. A text costs a step for each eight bytes.
pub(crate) fn quick_hash(cell: &LentCell<'_>) -> u64 {
    let number = match cell {
        LentCell::Null => NULL,
        LentCell::Int(value) => value.cast_unsigned(),
        LentCell::Text(text) => bytes_hash(text.bytes),
    };
    number.wrapping_mul(MIXER)
}

/// A hash of bytes, and of how many they are. The last eight come first, so that none stand alone.
fn bytes_hash(bytes: &[u8]) -> u64 {
    let length = bytes.len() as u64;
    let Some(last) = bytes.last_chunk::<8>() else {
        return with_word(length, few_bytes(bytes));
    };
    let hash = with_word(length, u64::from_le_bytes(*last));
    let (words, _) = bytes.as_chunks::<8>();
    words.iter().fold(hash, |hash, word| {
        with_word(hash, u64::from_le_bytes(*word))
    })
}

/// Fewer than eight bytes as a word.
fn few_bytes(bytes: &[u8]) -> u64 {
    if let (Some(first), Some(last)) = (bytes.first_chunk::<4>(), bytes.last_chunk::<4>()) {
        return (u64::from(u32::from_le_bytes(*first)) << 32) | u64::from(u32::from_le_bytes(*last));
    }
    bytes
        .iter()
        .fold(0, |word, byte| (word << 8) | u64::from(*byte))
}

/// The hash with a word after what it has. A product has its best bits at the top: they are turned to the bottom.
fn with_word(hash: u64, word: u64) -> u64 {
    (hash.rotate_left(23) ^ word).wrapping_mul(MIXER)
}
