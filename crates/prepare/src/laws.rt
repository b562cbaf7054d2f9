//! Laws of the parts that are made.
ghost use Rattle.std.specs.Prelude.{◌≡◌, ℕ, List, map};
ghost use Rattle.csv.specs.Reading.{strip_bom};
ghost use Rattle.csv.specs.Writing.{comma, read_back};
ghost use Rattle.records.specs.Records.{Fields, records_of};
ghost use Rattle.prepare.specs.Parts.{text_of};
ghost use Rattle.prepare.specs.Quotes.{IsMisquoted, IsWellQuoted};
ghost use Rattle.prepare.specs.declared.quotes.QuoteFault.{QuoteFault};

/// The records that are read back of a part are those that it was made of, unless its text begins as a byte order mark does; a record
/// without a field is read back with one, which is empty. It does nothing.
pub fn a_part_is_read_back()
    ensures { (rows : List Fields) → strip_bom (text_of rows) ≡ text_of rows → records_of comma (text_of rows) ≡ map read_back rows }
{}

/// A text with a fault of its quotes is not well quoted: so the fault is told of no other file. It does nothing.
pub fn a_misquoted_text_is_not_well_quoted()
    ensures { (delimiter : ℕ) (text : List ℕ) (fault : QuoteFault) (place : ℕ) → IsMisquoted delimiter text fault place → IsWellQuoted delimiter text → ⊥ }
{}
