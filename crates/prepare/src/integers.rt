//! The integers that fields spell.
ghost use Rattle.std.specs.Prelude.{◌≡◌};
ghost use Rattle.cells.specs.Integers.{integer_of};

use cells::integer_of;

/// The integer that a field spells. A field that is no text spells none.
pub(crate) fn integer_in(field: &[u8]) -> Option<i64>
    ensures { result ≡ integer_of field.now }
{
    match str::from_utf8(field) {
        Ok(text) => integer_of(text),
        Err(_) => None,
    }
}
