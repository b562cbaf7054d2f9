//! What a caller chooses by numbers.
ghost use Rattle.std.specs.Prelude.{◌≡◌, ⊤, Some, None, IfErr, IfOk};
ghost use Rattle.script.specs.Limits.{IsWithin};
ghost use Rattle.script.specs.Limits as limits;
ghost use Rattle.olap_core.specs.Outputs.{form_numbered};

use crate::fault::Fault;
use forms::Form;
use script::{DEPTH, How, SMALL};
use trie::Cutting;

/// The form of a number.
pub(crate) fn form_numbered(number: u32) -> Result<Form, Fault>
    ensures form { IfOk result (λ form. form_numbered number ≡ Some form) }
    ensures none { IfErr result (λ fault. (fault ≡ Fault.BadForm) × (form_numbered number ≡ None)) }
{
    match number {
        0 => Ok(Form::Classic),
        1 => Ok(Form::Csv),
        2 => Ok(Form::Json),
        3 => Ok(Form::Table),
        _ => Err(Fault::BadForm),
    }
}

/// A run whose draft may have so many rows.
pub(crate) fn how_for(rows: u64) -> Result<How, Fault>
    ensures rows { IfOk result (λ how. (how.rows ≡ rows) × IsWithin limits.rows rows) }
    ensures none { IfErr result (λ fault. (fault ≡ Fault.BadRows) × (IsWithin limits.rows rows → ⊥)) }
{
    let cutting = Cutting {
        depth: DEPTH.default as u8,
        small: SMALL.default,
    };
    match How::new(1, cutting, rows) {
        Some(how) => Ok(how),
        None => Err(Fault::BadRows),
    }
}
