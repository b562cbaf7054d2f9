//! The values of a report, and how they are printed.
ghost use Rattle.std.specs.Prelude.{◌≡◌, [], ◌∷◌, ◌++◌, IfErr, IfOk, string_bytes};
ghost use Rattle.cells.specs.Literals.{literal_of};
ghost use Rattle.cells.specs.Spelling.{doubled};

use crate::refused::Refused;
use crate::text::Text;
use std::alloc::{AllocError, Global};

/// A value of a report: NULL, an integer of 128 bits or a text. A sum of columns' integers needs
/// more than their 64 bits.
#[derive(Debug, Drop)]
pub enum Total {
    Null,
    Int(i128),
    Text(Text),
}

/// The value as a report prints it: `NULL`, an integer in decimal, or a text in single quotes with
/// each single quote in it doubled. Only want of memory is refused.
pub fn literal(alloc: Global, total: &Total) -> Result<String, Refused>
    ensures text { IfOk result (λ text. string_bytes text ≡ literal_of total.now) }
    ensures refused { IfErr result (λ e. e ≡ Refused.OutOfMemory) }
{
    match total {
        Total::Null => Ok(String::from_str(alloc, "NULL")?),
        Total::Int(n) => Ok(format!(in alloc; "{n}")?),
        Total::Text(text) => Ok(quoted(alloc, text.as_str())?),
    }
}

/// The characters in single quotes, with each single quote among them doubled.
fn quoted(alloc: Global, characters: &str) -> Result<String, AllocError>
    ensures { IfOk result (λ text. string_bytes text ≡ 39 ∷ (doubled characters.now ++ 39 ∷ [])) }
{
    let mut literal = String::from_str(alloc, "'")?;
    let mut rest = characters;
    while let Some((part, behind)) = rest.split_once('\'') {
        literal.push_str(part)?;
        literal.push_str("''")?;
        rest = behind;
    }
    literal.push_str(rest)?;
    literal.push_str("'")?;
    Ok(literal)
}
