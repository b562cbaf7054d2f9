//! The numbers that a text spells, in a record, in a literal and among the words of a command.
ghost use Rattle.std.specs.Prelude.{◌≡◌, ◌≢◌, false, slice_index, true};
ghost use Rattle.cells.specs.Integers.{integer_of, whole_number_of};

/// The integer that the text spells: an optional `-` and one or more digits, whose value has 64 bits.
pub fn integer_of(text: &str) -> Option<i64>
    ensures { result ≡ integer_of text.now }
{
    if has_plus(text) {
        return None;
    }
    text.parse::<i64>().ok()
}

/// The number that the text spells by one or more digits and no sign, where it has 64 bits: 0 to
/// 18,446,744,073,709,551,615. Leading zeros count for nothing. None exactly where there is no such
/// number.
pub fn whole_number_of(text: &str) -> Option<u64>
    ensures { result ≡ whole_number_of text.now }
{
    if has_plus(text) {
        return None;
    }
    text.parse::<u64>().ok()
}

/// Whether the text begins with a `+`, which no number here has, though `parse` reads it.
fn has_plus(text: &str) -> bool
    ensures none { result ≡ false → slice_index text.now 0 ≢ 43 }
    ensures some { result ≡ true → slice_index text.now 0 ≡ 43 }
{
    text.as_bytes().first() == Some(&b'+')
}
