//! Laws of the forms.
ghost use Rattle.std.specs.Prelude.{◌≡◌, List, ℕ, length};
ghost use Rattle.std.specs.Fmt.{char_count};
ghost use Rattle.std.specs.Str.{encode_utf8_all};

/// A column is as wide as what stands in it has characters: the width of a text in UTF-8 is the number of its characters. It
/// does nothing.
pub fn a_width_counts_characters()
    ensures { (characters : List ℕ) → char_count (encode_utf8_all characters) ≡ length characters }
{}
