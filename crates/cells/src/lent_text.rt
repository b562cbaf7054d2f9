//! Texts that are lent.
ghost use Rattle.std.specs.Prelude.{◌≡◌, IfOk, IsUtf8};

use crate::text::Text;
use std::alloc::{AllocError, Global};

/// A text in UTF-8 that is lent: its bytes.
#[derive(Clone, Copy, Debug, Drop)]
pub struct LentText<'a> {
    pub bytes: &'a [u8],

    pub ghost spelt: { ∥ IsUtf8 bytes.now ∥₁ },
}

impl<'a> LentText<'a> {
    /// The text of these bytes, which are UTF-8.
    pub(crate) fn of(bytes: &'a [u8]) -> LentText<'a>
        requires { IsUtf8 bytes.now }
        ensures { result.bytes.now ≡ bytes.entry.now }
    {
        LentText { bytes }
    }

    /// A copy of it. Up to 14 bytes take no memory.
    pub fn owned(self, alloc: Global) -> Result<Text, AllocError>
        ensures { IfOk result (λ text. text ≡ self.entry.bytes.now) }
    {
        let Ok(characters) = str::from_utf8(self.bytes) else {
            unreachable!()
        };
        Text::copied(alloc, characters)
    }
}
