//! What is told of a line.
ghost use Rattle.std.specs.Prelude.{◌≡◌, List, Option, Result, Ok, Err, IfOk, Some, map};
ghost use Rattle.serde_json.specs.View.{view};
ghost use Rattle.groups.specs.Told.{GroupValue};
ghost use Rattle.partials.specs.Spelling.{SpellsSets};
ghost use Rattle.script.specs.declared.fault.Fault.{Fault};
ghost use Rattle.shards.specs.Documents.{SpellsFault, line_value};

use crate::fault::{fault_of, fault_value};
use partials::{Spelt, both_of, list_of, pair, values_of};
use script::{Fault, Told};
use serde_json::Value;
use std::alloc::{AllocError, Global};
use std::marker::Model;

/// What is told of a line, as a value without memory: nothing, why a load is refused, or what is kept of a report's rows.
#[derive(Debug, Drop)]
pub struct Line {
    pub told: Told,
}

impl Model for Line {
    ghost use Rattle.shards.specs.Documents.{LineValue, line_value};

    ghost Value = { LineValue };

    ghost view = { λ l. line_value l.told };
}

impl Spelt for Line {
    ghost use Rattle.shards.specs.Documents.{SpellsLine};

    ghost spells = { SpellsLine };

    fn value(&self, alloc: Global) -> Result<Value, AllocError> {
        match &self.told {
            Told::Nothing => Ok(Value::Null),
            Told::Refused(fault) => {
                let word = Value::try_from_str(alloc, "refused")?;
                let fault = fault_value(alloc, *fault)?;
                pair(alloc, word, fault)
            }
            Told::Kept(sets) => {
                let word = Value::try_from_str(alloc, "kept")?;
                let sets = values_of(alloc, sets.as_slice())?;
                pair(alloc, word, sets)
            }
        }
    }

    fn of_value(alloc: Global, value: &Value) -> Result<Option<Line>, AllocError> {
        if value.is_null() {
            return Ok(Some(Line {
                told: Told::Nothing,
            }));
        }
        let Some((word, behind)) = both_of(value) else {
            return Ok(None);
        };
        match word.as_str() {
            Some("refused") => Ok(refused_of(behind)),
            Some("kept") => kept_of(alloc, behind),
            _ => Ok(None),
        }
    }
}

/// A load that is refused.
fn refused_of(value: &Value) -> Option<Line>
    ensures { (fault : Fault) → SpellsFault fault (view value.now) → result ≡ Some (Some (Err fault)) }
{
    let Some(fault) = fault_of(value) else {
        return None;
    };
    Some(Line {
        told: Told::Refused(fault),
    })
}

/// What is kept of a report's rows.
fn kept_of(alloc: Global, value: &Value) -> Result<Option<Line>, AllocError>
    ensures { (sets : List (List GroupValue)) → SpellsSets sets (view value.now) → IfOk result (λ o. o ≡ Some (Some (Ok sets))) }
{
    let Some(sets) = list_of(alloc, value)? else {
        return Ok(None);
    };
    Ok(Some(Line {
        told: Told::Kept(sets),
    }))
}

/// What is told of lines, each as a value.
pub(crate) fn lines_of(alloc: Global, tolds: Vec<Told>) -> Result<Vec<Line>, AllocError>
    ensures { IfOk result (λ all. all.items ≡ map line_value tolds.items) }
{
    let mut all = Vec::with_capacity(alloc, tolds.len())?;
    for told in tolds {
        all.push(Line { told })?;
    }
    Ok(all)
}

/// What is told of the lines.
pub(crate) fn tolds_of(alloc: Global, lines: Vec<Line>) -> Result<Vec<Told>, AllocError>
    ensures { IfOk result (λ all. map line_value all.items ≡ lines.items) }
{
    let mut all = Vec::with_capacity(alloc, lines.len())?;
    for line in lines {
        let Line { told } = line;
        all.push(told)?;
    }
    Ok(all)
}
