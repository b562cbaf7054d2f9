//! What is kept of a group's cells.
ghost use Rattle.std.specs.Prelude.{◌≡◌, List, Option, ℕ, ℤ, IfOk, Some};
ghost use Rattle.serde_json.specs.View.{view};
ghost use Rattle.cells.specs.declared.cell.Cell.{Cell};
ghost use Rattle.partials.specs.Spelling.{SpellsCount, SpellsKeptBehind, word_of};

use crate::lists::{both_of, list_of, pair, values_of};
use crate::spelt::Spelt;
use crate::sum::{sum_of, sum_value};
use aggs::Kept;
use cells::{Cell, Tuple};
use serde_json::Value;
use std::alloc::{AllocError, Global};

impl Spelt for Kept {
    ghost use Rattle.partials.specs.Spelling.{SpellsKept};

    ghost spells = { SpellsKept };

    fn value(&self, alloc: Global) -> Result<Value, AllocError> {
        let word = Value::try_from_str(alloc, word_of(self))?;
        let behind = behind_word(alloc, self)?;
        pair(alloc, word, behind)
    }

    fn of_value(alloc: Global, value: &Value) -> Result<Option<Kept>, AllocError> {
        let Some((word, behind)) = both_of(value) else {
            return Ok(None);
        };
        match word.as_str() {
            Some("count") => Ok(count_of(behind).map(Kept::Count)),
            Some("different") => different_of(alloc, behind),
            Some("sum") => Ok(summed_of(behind)),
            Some("extreme") => extreme_of(alloc, behind),
            _ => Ok(None),
        }
    }
}

/// The word that tells what is kept.
fn word_of(kept: &Kept) -> &'static str
    ensures { result.now ≡ word_of kept.now }
{
    match kept {
        Kept::Count(_) => "count",
        Kept::Different(_) => "different",
        Kept::Sum { .. } => "sum",
        Kept::Extreme(_) => "extreme",
    }
}

/// What stands behind that word.
fn behind_word(alloc: Global, kept: &Kept) -> Result<Value, AllocError>
    ensures { IfOk result (λ v. SpellsKeptBehind kept.now (view v)) }
{
    match kept {
        Kept::Count(count) => Ok(Value::from(*count)),
        Kept::Different(cells) => values_of(alloc, cells.cells()),
        Kept::Sum { sum, integers } => {
            let sum = sum_value(alloc, *sum)?;
            pair(alloc, sum, Value::from(*integers))
        }
        Kept::Extreme(cell) => values_of(alloc, cell.as_slice()),
    }
}

/// A count.
fn count_of(value: &Value) -> Option<u64>
    ensures { (n : ℕ) → SpellsCount n (view value.now) → result ≡ Some n }
{
    value.as_u64()
}

/// Different cells.
fn different_of(alloc: Global, value: &Value) -> Result<Option<Kept>, AllocError>
    ensures { (cells : List Cell) → SpellsKeptBehind (Kept.Different cells) (view value.now) → IfOk result (λ o. o ≡ Some (Kept.Different cells)) }
{
    let Some(cells) = list_of(alloc, value)? else {
        return Ok(None);
    };
    Ok(Some(Kept::Different(Tuple::new(cells))))
}

/// A sum and the number of its integers.
fn summed_of(value: &Value) -> Option<Kept>
    ensures { (sum : ℤ) (integers : ℕ) → SpellsKeptBehind (Kept.Sum sum integers) (view value.now) → result ≡ Some (Kept.Sum sum integers) }
{
    let Some((sum, integers)) = both_of(value) else {
        return None;
    };
    let Some(sum) = sum_of(sum) else {
        return None;
    };
    let Some(integers) = count_of(integers) else {
        return None;
    };
    Some(Kept::Sum { sum, integers })
}

/// A cell, or none.
fn extreme_of(alloc: Global, value: &Value) -> Result<Option<Kept>, AllocError>
    ensures { (cell : Option Cell) → SpellsKeptBehind (Kept.Extreme cell) (view value.now) → IfOk result (λ o. o ≡ Some (Kept.Extreme cell)) }
{
    let Some(cells) = list_of::<Cell>(alloc, value)? else {
        return Ok(None);
    };
    let mut cells = cells;
    if cells.len() > 1 {
        return Ok(None);
    }
    Ok(Some(Kept::Extreme(cells.pop())))
}
