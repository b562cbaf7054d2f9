//! A few bytes that lie in the value itself.
ghost use Rattle.std.specs.Prelude.{◌≡◌, ◌+◌, ◌++◌, ◌≤◌, [], length};
ghost use Rattle.std.specs.Bool.{Decides};

use std::alloc::AllocError;
use std::marker::Model;

/// So many bytes of cells lie in the row itself: with their number, the key and the count of the cells a row then takes
/// 32 bytes, and so does one whose bytes lie elsewhere.
pub(crate) const NEAR_BYTES: usize = 28;

/// At most 28 bytes, seen as the list of them.
#[derive(Debug, Drop)]
pub(crate) struct NearBytes {
    len: u8,
    bytes: [u8; NEAR_BYTES],
}

impl Model for NearBytes {
    ghost use Rattle.std.specs.Prelude.{◌≤◌, List, ℕ, take};

    ghost Value = { List ℕ };

    ghost view = { λ s. take s.len s.bytes };

    ghost invariant = { λ s. s.len ≤ 28 };
}

impl NearBytes {
    /// No bytes.
    pub(crate) fn new() -> NearBytes
        ensures { result ≡ [] }
    {
        NearBytes {
            len: 0,
            bytes: [0; NEAR_BYTES],
        }
    }

    /// The bytes.
    pub(crate) fn as_slice(&self) -> &[u8]
        ensures value { result.now ≡ self.now }
        ensures few { length result.now ≤ 28 }
    {
        &self.bytes[..self.len as usize]
    }

    /// Whether so many bytes more have a place here.
    pub(crate) fn has_room(&self, size: usize) -> bool
        ensures { Decides result (length self.now + size ≤ 28) }
    {
        size <= NEAR_BYTES - self.len as usize
    }

    /// Appends the bytes, which have a place here.
    pub(crate) fn push(&mut self, piece: &[u8])
        requires { length self.old + length piece.now ≤ 28 }
        ensures { self.new ≡ self.old ++ piece.now }
    {
        let len = self.len as usize;
        let end = len + piece.len();
        self.bytes[len..end].copy_from_slice(piece);
        self.len = end as u8;
    }
}

impl Clone for NearBytes {
    ghost is_clone = { λ s t. t ≡ s };

    ghost is_infallible = { λ _. Unit };

    fn clone(&self) -> Result<NearBytes, AllocError> {
        Ok(NearBytes {
            len: self.len,
            bytes: self.bytes,
        })
    }
}
