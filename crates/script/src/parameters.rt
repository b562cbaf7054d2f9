//! The parameters of a query: `?` in the places of literals.
ghost use Rattle.std.specs.Prelude.{◌≡◌, ◌∷◌, ◌++◌, [], IfErr, IfOk, MatchOption, None, option_map, string_bytes};
ghost use Rattle.cells.specs.Literals.{literal_of};
ghost use Rattle.script.specs.Parameters.{PutsMark, at_mark, filled, is_quoted, literal_text, turned};

use cells::{Cell, Refused, Total, literal};
use std::alloc::Global;

/// The query with the literals of the cells in the places of its parameters, each between blanks. There is none where a cell is
/// NULL, or the cells are not as many as the parameters.
pub fn filled(alloc: Global, query: &str, cells: &[Cell]) -> Result<Option<String>, Refused>
    ensures filled { IfOk result (λ text. option_map string_bytes text ≡ filled cells.now query.now) }
    ensures refused { IfErr result (λ e. e ≡ Refused.OutOfMemory) }
{
    let mut full = String::new(alloc);
    let mut rest = query;
    let mut left = cells;
    let mut quoted = false;
    while let Some((part, behind)) = rest.split_once('?') {
        full.push_str(part)?;
        quoted = is_quoted(quoted, part.as_bytes());
        let Some(more) = push_mark(alloc, &mut full, quoted, left)? else {
            return Ok(None);
        };
        left = more;
        rest = behind;
    }
    full.push_str(rest)?;
    if left.is_empty() {
        return Ok(Some(full));
    }
    Ok(None)
}

/// Whether what follows the part is in quotes, where the part itself begins in them or not.
fn is_quoted(quoted: bool, part: &[u8]) -> bool
    ensures { result ≡ is_quoted quoted part.now }
{
    let mut inside = quoted;
    for byte in part {
        inside = turned(inside, *byte);
    }
    inside
}

/// Whether what follows the byte is in quotes.
fn turned(quoted: bool, byte: u8) -> bool
    ensures { result ≡ turned quoted byte }
{
    if byte == b'\'' { !quoted } else { quoted }
}

/// Writes what stands for a `?`, and gives the cells that are left: none where there is no literal for it.
fn push_mark<'c>(
    alloc: Global,
    full: &mut String,
    quoted: bool,
    cells: &'c [Cell],
) -> Result<Option<&'c [Cell]>, Refused>
    ensures left { IfOk result (λ left. MatchOption left (at_mark quoted cells.now ≡ None) (λ more.
        PutsMark quoted cells.now (string_bytes full.old) (string_bytes full.new) more.now)) }
    ensures refused { IfErr result (λ e. e ≡ Refused.OutOfMemory) }
{
    if quoted {
        full.push_str("?")?;
        return Ok(Some(cells));
    }
    let Some((cell, more)) = cells.split_first() else {
        return Ok(None);
    };
    let Some(text) = literal_text(alloc, cell)? else {
        return Ok(None);
    };
    full.push_str(text.as_str())?;
    Ok(Some(more))
}

/// The literal of a cell between blanks, where it has one: NULL has none.
fn literal_text(alloc: Global, cell: &Cell) -> Result<Option<String>, Refused>
    ensures text { IfOk result (λ text. option_map string_bytes text ≡ literal_text cell.now) }
    ensures refused { IfErr result (λ e. e ≡ Refused.OutOfMemory) }
{
    match cell {
        Cell::Null => Ok(None),
        Cell::Int(number) => between_blanks(alloc, &Total::Int(i128::from(*number))).map(Some),
        Cell::Text(text) => between_blanks(alloc, &Total::Text(text.clone()?)).map(Some),
    }
}

/// The literal of a value between blanks.
fn between_blanks(alloc: Global, value: &Total) -> Result<String, Refused>
    ensures text { IfOk result (λ text. string_bytes text ≡ 32 ∷ (literal_of value.now ++ 32 ∷ [])) }
    ensures refused { IfErr result (λ e. e ≡ Refused.OutOfMemory) }
{
    let mut text = String::from_str(alloc, " ")?;
    text.push_str(literal(alloc, value)?.as_str())?;
    text.push_str(" ")?;
    Ok(text)
}
