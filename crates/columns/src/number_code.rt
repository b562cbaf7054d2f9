//! Codes of integers, by which a column holds them as they stand.
ghost use Rattle.std.specs.Prelude.{◌≡◌, IfSome};
ghost use Rattle.cells.specs.Lent.{lent_cell};
ghost use Rattle.cells.specs.declared.cell.Cell.TheVariants.{Int};
ghost use Rattle.columns.specs.Columns.{number_cell};

use cells::{Cell, LentCell};

/// How much more the code of an integer is than the integer: 2^31.
const ABOVE: i64 = 0x8000_0000;

/// The code of NULL. No integer has it.
const NULL: u32 = 0;

/// The cell of a code: NULL of 0, and of any other the integer that is less by 2^31.
pub fn number_cell(code: u32) -> Cell
    ensures { result ≡ number_cell code }
{
    if code == NULL {
        return Cell::Null;
    }
    Cell::Int(i64::from(code) - ABOVE)
}

/// The code of a cell that is NULL or an integer from -2,147,483,647 to 2,147,483,647; None of any other.
pub(crate) fn number_code(cell: &LentCell<'_>) -> Option<u32>
    ensures { IfSome result (λ code. number_cell code ≡ lent_cell cell.now) }
{
    match cell {
        LentCell::Null => Some(NULL),
        LentCell::Int(number) => code_of(*number),
        LentCell::Text(_) => None,
    }
}

/// The code of an integer that has one.
fn code_of(number: i64) -> Option<u32>
    ensures { IfSome result (λ code. number_cell code ≡ Int number) }
{
    let code = u32::try_from(number.wrapping_add(ABOVE)).ok()?;
    if code != NULL && i64::from(code) - ABOVE == number {
        Some(code)
    } else {
        None
    }
}
