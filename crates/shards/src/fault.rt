//! Faults of loads.
ghost use Rattle.std.specs.Prelude.{◌≡◌, ℕ, IfOk, Some};
ghost use Rattle.serde_json.specs.View.{view};
ghost use Rattle.cells.specs.Refusals.{number_of};
ghost use Rattle.cells.specs.declared.refused.Refused.{Refused};
ghost use Rattle.partials.specs.Spelling.{SpellsCount, SpellsPair};
ghost use Rattle.script.specs.declared.fault.Fault.{Fault};
ghost use Rattle.script.specs.declared.fault.Fault.TheVariants.{Line, Part};
ghost use Rattle.shards.specs.Documents.{SpellsFault};

use cells::Refused;
use partials::{both_of, pair};
use script::Fault;
use serde_json::Value;
use std::alloc::{AllocError, Global};

/// The value that spells why a load is refused.
pub(crate) fn fault_value(alloc: Global, fault: Fault) -> Result<Value, AllocError>
    ensures { IfOk result (λ v. SpellsFault fault (view v)) }
{
    match fault {
        Fault::Line(rule) => {
            let word = Value::try_from_str(alloc, "line")?;
            pair(alloc, word, Value::from(u64::from(rule.number())))
        }
        Fault::Part { part, record } => {
            let word = Value::try_from_str(alloc, "part")?;
            let numbers = pair(alloc, Value::from(part), Value::from(record))?;
            pair(alloc, word, numbers)
        }
    }
}

/// Why a load is refused, as the value spells it.
pub(crate) fn fault_of(value: &Value) -> Option<Fault>
    ensures { (fault : Fault) → SpellsFault fault (view value.now) → result ≡ Some fault }
{
    let Some((word, behind)) = both_of(value) else {
        return None;
    };
    match word.as_str() {
        Some("line") => line_of(behind),
        Some("part") => part_of(behind),
        _ => None,
    }
}

/// The rule of this number, that a line breaks.
fn line_of(value: &Value) -> Option<Fault>
    ensures { (rule : Refused) → SpellsCount (number_of rule) (view value.now) → result ≡ Some (Line rule) }
{
    let Some(number) = value.as_u64() else {
        return None;
    };
    let Some(rule) = Refused::of_number(number) else {
        return None;
    };
    Some(Fault::Line(rule))
}

/// The record of the part, by their numbers.
fn part_of(value: &Value) -> Option<Fault>
    ensures { (part entry : ℕ) → SpellsPair (SpellsCount part) (SpellsCount entry) (view value.now) → result ≡ Some (Part part entry) }
{
    let Some((part, record)) = both_of(value) else {
        return None;
    };
    let Some(part) = part.as_u64() else {
        return None;
    };
    let Some(record) = record.as_u64() else {
        return None;
    };
    Some(Fault::Part { part, record })
}
