//! What is read back of what is written: of reports in CSV and in JSON, and of the lines that values spell. They are laws alone,
//! which no run calls.
#![tactic(auto)]

ghost use Rattle.std.specs.Prelude.{◌≡◌, ◌≢◌, ◌∷◌, ◌++◌, [], List, Ok, Some, ℕ, map, slice_get};
ghost use Rattle.std.specs.List.{All, AllByRecursion};
ghost use Rattle.json.specs.Lex.{tokens};
ghost use Rattle.cells.specs.Fitting.{IsOfType, IsRowOf};
ghost use Rattle.cells.specs.Updates.{Delete, Put};
ghost use Rattle.cells.specs.Values.{RowValue, Table};
ghost use Rattle.cells.specs.declared.cell.Cell.{Cell};
ghost use Rattle.cells.specs.declared.cell.Cell.TheVariants.{Null};
ghost use Rattle.cells.specs.declared.schema.Column.{Column};
ghost use Rattle.cells.specs.declared.token.Token.{Token};
ghost use Rattle.cells.specs.declared.total.Total.{Total};
ghost use Rattle.forms.specs.Forms.{report_in};
ghost use Rattle.forms.specs.declared.form.Form.TheVariants.{Csv, Json};
ghost use Rattle.read_back.specs.CsvReading.{Reads, field_of};
ghost use Rattle.read_back.specs.Filling.{HasTokens, IsFilled};
ghost use Rattle.read_back.specs.JsonReading.{HasBits, object_of};
ghost use Rattle.read_back.specs.ValueReading.{IsSayable};
ghost use Rattle.script.specs.Deeds.{Updates, deed};
ghost use Rattle.script.specs.Parameters.{filled};
ghost use Rattle.script.specs.ValueLines.{delete_line, put_line};

use cells::tokens_are_those_spelt;

/// The records that a reader has of a report in CSV are its headings, and then its rows: a text and an integer's digits as
/// they are, and NULL as an empty field. It does nothing.
pub fn a_csv_report_is_read_back()
    ensures { (headings : List (List ℕ)) (rows : List (List Total)) → headings ≢ [] → All (λ row. row ≢ []) rows →
        Reads (report_in Csv headings rows) (headings ∷ map (map field_of) rows) }
{}

/// The tokens that a reader has of a report in JSON, in braces, are those of an object with the headings and the rows: an
/// integer of 128 bits as a number of its digits, and a text as a string of its bytes. It does nothing.
pub fn a_json_report_is_read_back()
    ensures { (headings : List (List ℕ)) (rows : List (List Total)) → All (All HasBits) rows →
        tokens (123 ∷ (report_in Json headings rows ++ 125 ∷ [])) ≡ object_of headings rows }
{}

/// The line that the cells of a row spell puts that row: what they say is what is read. Each text is of 1 to 1,024 bytes, since
/// an empty one is read as NULL and a longer one refuses the line. It does nothing.
pub fn a_put_line_puts_its_row()
    ensures { (t : Table) (row : RowValue) → IsRowOf t row → AllByRecursion IsSayable row.cells →
        deed (Some t) (put_line row.cells) ≡ Ok (Updates (Put row ∷ [])) }
{}

/// The line that a key spells deletes the row of that key, where the key is of the type of the key column. It does nothing.
pub fn a_delete_line_deletes_its_key()
    ensures { (t : Table) (column : Column) (key : Cell) → slice_get t.columns t.key ≡ Some column → IsOfType key column.kind →
        key ≢ Null → IsSayable key → deed (Some t) (delete_line key) ≡ Ok (Updates (Delete key ∷ [])) }
{
    tokens_are_those_spelt();
}

/// A query that is filled has the tokens of the texts between its parameters and, in the place of each parameter, the one token of
/// its value: whatever is in a text, it is a literal and no other part of the query. It does nothing.
pub fn a_filled_query_has_the_tokens_of_its_values()
    ensures { (query : List ℕ) (values : List Cell) (ts : List Token) → HasTokens query values ts → IsFilled (filled values query) ts }
{}
