//! The forms of a report.
ghost use Rattle.std.specs.Prelude.{◌≡◌, Some};
ghost use Rattle.forms.specs.Forms.{form_of, form_word};

use std::fmt;

/// How the body of a report is spelled.
#[derive(Clone, Copy, Debug, PartialEq, Eq, Drop)]
pub enum Form {
    /// The headings in a line, and a line of literals for each row: [`classic`](crate::classic).
    Classic,
    /// RFC 4180: [`commas`](crate::commas).
    Csv,
    /// RFC 8259: [`json`](crate::json).
    Json,
    /// Columns that are aligned for people: [`table`](crate::table).
    Table,
}

impl Form {
    /// The form that a word chooses: `classic`, `csv`, `json` or `table`, in lower case. None: the word is no other.
    pub fn of_word(word: &str) -> Option<Form>
        ensures { result ≡ form_of word.now }
    {
        match word {
            "classic" => Some(Form::Classic),
            "csv" => Some(Form::Csv),
            "json" => Some(Form::Json),
            "table" => Some(Form::Table),
            _ => None,
        }
    }

    /// The word that chooses the form.
    pub fn word(self) -> &'static str
        ensures { result.now ≡ form_word self }
    {
        match self {
            Form::Classic => "classic",
            Form::Csv => "csv",
            Form::Json => "json",
            Form::Table => "table",
        }
    }
}

/// The word that chooses the form.
impl fmt::Display for Form {
    ghost output = { λ form. Some (form_word form) };

    fn fmt<W: fmt::Write>(&self, f: &mut fmt::Formatter<W>) -> fmt::Result {
        let word = self.word();
        write!(f, "{word}")
    }
}
