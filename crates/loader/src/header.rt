//! The header of a part.
ghost use Rattle.std.specs.Prelude.{◌≡◌, bytes_eq, map};
ghost use Rattle.std.specs.Char.{to_ascii_uppercase};
ghost use Rattle.loader.specs.Parts.{is_header, names_column};

use cells::Column;

/// Whether the fields of a part's first record are its header: the names of the columns, each in its place and in whatever case.
pub fn is_header(columns: &[Column], fields: &[&[u8]]) -> bool
    ensures { result ≡ is_header columns.now (map (λ f. f.now) fields.now) }
{
    if columns.len() != fields.len() {
        return false;
    }
    for (place, column) in columns.iter().enumerate() {
        if !names_column(column, fields[place]) {
            return false;
        }
    }
    true
}

/// Whether the field, with its letters in upper case, is the name of the column.
fn names_column(column: &Column, field: &[u8]) -> bool
    ensures { result ≡ names_column column.now field.now }
{
    is_upper_case_of(column.name.as_str().as_bytes(), field)
}

/// Whether the name is the field with its letters in upper case.
fn is_upper_case_of(name: &[u8], field: &[u8]) -> bool
    ensures { result ≡ bytes_eq (map to_ascii_uppercase field.now) name.now }
{
    if name.len() != field.len() {
        return false;
    }
    for (place, letter) in name.iter().enumerate() {
        if field[place].to_ascii_uppercase() != *letter {
            return false;
        }
    }
    true
}
