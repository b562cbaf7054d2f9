//! What is chosen of a file.

use cells::Text;

/// A column of a file that is chosen.
#[derive(Debug, Drop)]
pub struct Chosen {
    /// Its name in the file's header: that of the one column that has exactly this name, or where none has, of the one that has it in
    /// another case.
    pub name: Text,
    /// The name that it gets in the table.
    pub word: Text,
}

/// How a file's records are read, and what of them a part has.
#[derive(Debug, Drop)]
pub struct Choice {
    /// The columns that the part has, in this order. None: each column of the file, under the word that its name makes.
    pub columns: Option<Vec<Chosen>>,
    /// The byte that stands between two fields of the file.
    pub delimiter: u8,
    /// The name of a first column that counts the records, where the part has one.
    pub number: Option<Text>,
    /// How many records were counted before the first one of this file.
    pub counted: u64,
    /// The word that stands for NULL: a field that is this, in quotes or not, is empty in the part.
    pub null: Option<Text>,
    /// Whether quotes are read as they stand. Else a file is refused whose quotes are not as RFC 4180 has them: a field has none, or
    /// stands between two and has each of its own twice.
    pub lenient: bool,
    /// Whether white space at both ends of a field is left out. It is, before the field is compared with the word for NULL.
    pub trims: bool,
}
