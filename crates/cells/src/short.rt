//! Short texts, whose bytes lie in the value itself.
ghost use Rattle.std.specs.Prelude.{◌≡◌, ◌≤◌, IsUtf8, length};

use std::alloc::AllocError;
use std::marker::Model;

/// Texts of at most so many bytes are short. Beside their number they leave room in two words for what tells a short
/// text from a long one, so that a text takes two words, and a cell three.
pub const SHORT_BYTES: usize = 14;

/// A text in UTF-8 of at most 14 bytes, seen as the list of them.
#[derive(Debug, Drop)]
pub struct ShortText {
    len: u8,
    bytes: [u8; SHORT_BYTES],
}

impl Model for ShortText {
    ghost use Rattle.std.specs.Prelude.{◌≤◌, List, ℕ, IsUtf8, take};

    ghost Value = { List ℕ };

    ghost view = { λ s. take s.len s.bytes };

    ghost invariant = { λ s. (s.len ≤ 14) × ∥ IsUtf8 (take s.len s.bytes) ∥₁ };
}

impl ShortText {
    /// The text of the characters, which are at most 14 bytes.
    pub fn of(characters: &str) -> ShortText
        requires { length characters.now ≤ 14 }
        ensures { result ≡ characters.now }
    {
        let len = characters.len();
        let mut bytes = [0; SHORT_BYTES];
        bytes[..len].copy_from_slice(characters.as_bytes());
        ShortText {
            len: len as u8,
            bytes,
        }
    }

    /// Its characters.
    pub fn as_str(&self) -> &str
        ensures { result.now ≡ self.now }
    {
        let Ok(characters) = str::from_utf8(self.as_bytes()) else {
            unreachable!()
        };
        characters
    }

    /// Its bytes, which are at hand without a look at what they spell.
    pub fn as_bytes(&self) -> &[u8]
        ensures bytes { result.now ≡ self.now }
        ensures text { IsUtf8 result.now }
    {
        &self.bytes[..self.len as usize]
    }
}

impl Clone for ShortText {
    ghost is_clone = { λ s t. t ≡ s };

    ghost is_infallible = { λ _. Unit };

    fn clone(&self) -> Result<ShortText, AllocError> {
        Ok(ShortText {
            len: self.len,
            bytes: self.bytes,
        })
    }
}
