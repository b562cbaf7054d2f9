//! Partial answers, and their texts.
ghost use Rattle.std.specs.Prelude.{◌≡◌, IfOk, IsUtf8, MatchResult, Some, codes};
ghost use Rattle.serde_json.specs.Data.{Data, no_members, object, put};
ghost use Rattle.serde_json.specs.Errors.{IsMemory};
ghost use Rattle.serde_json.specs.Read.{read};
ghost use Rattle.serde_json.specs.View.{view};
ghost use Rattle.shards.specs.Documents.{DocumentValue, IsTextOf, SpellsDocument};

use crate::division::{Division, division_in, division_value};
use crate::frame::{body_of, framed};
use crate::line::Line;
use crate::unread::Unread;
use partials::{list_of, values_of};
use serde_json::{Map, Value};
use std::alloc::{AllocError, Global};
use std::marker::Model;

/// A partial answer: what some shards of a table tell of a script. It owns all that it has.
#[derive(Debug, Drop)]
pub struct Document {
    /// The script.
    pub script: String,
    /// How the table is divided into shards.
    pub division: Division,
    /// How many shards the table has.
    pub count: u64,
    /// The numbers of those that tell, from 1 on.
    pub numbers: Vec<u64>,
    /// What they tell together of each line of the script, in the order of the lines.
    pub lines: Vec<Line>,
}

impl Model for Document {
    ghost use Rattle.std.specs.Prelude.{string_bytes};
    ghost use Rattle.shards.specs.Documents.{DocumentValue};

    ghost Value = { DocumentValue };

    ghost view = { λ d. record { script = string_bytes d.script; division = d.division; count = d.count; numbers = d.numbers.items; lines = d.lines.items } };
}

/// The text of a partial answer: a line with what it is, the version of the form and a check sum, and then one value of JSON. The
/// only error is that a growth was refused.
pub fn write(alloc: Global, document: &Document) -> Result<Vec<u8>, AllocError>
    ensures { IfOk result (λ text. IsTextOf document.now text.items) }
{
    let value = value_of(alloc, document)?;
    let body = value.to_vec(alloc)?;
    framed(alloc, body.as_slice())
}

/// The partial answer of a text that was written so.
///
/// [`Unread::OfAnotherKind`] where the text does not begin as one, [`Unread::Spoilt`] where it is not as it was written, and
/// [`Unread::Malformed`] where it is, and yet has another form. None of these comes for a text that [`write`] made.
pub fn read(alloc: Global, text: &[u8]) -> Result<Document, Unread>
    ensures { (it : DocumentValue) → IsTextOf it text.now → MatchResult result (λ document. document ≡ it) (λ e. e ≡ Unread.OutOfMemory) }
{
    match body_of(alloc, text) {
        Ok(body) => read_body(alloc, body),
        Err(why) => Err(why),
    }
}

/// The partial answer of a body.
fn read_body(alloc: Global, body: &[u8]) -> Result<Document, Unread>
    ensures { (it : DocumentValue) (d : Data) → IsUtf8 body.now → read body.now ≡ Some d → SpellsDocument it d →
        MatchResult result (λ document. document ≡ it) (λ e. e ≡ Unread.OutOfMemory) }
{
    match Value::from_slice(alloc, body) {
        Ok(value) => of_value(alloc, &value),
        Err(error) => Err(unread_by(&error)),
    }
}

/// Why a body is no JSON.
fn unread_by(error: &serde_json::Error) -> Unread
    ensures { IsMemory error.now → result ≡ Unread.OutOfMemory }
{
    if error.is_memory() {
        return Unread::OutOfMemory;
    }
    Unread::Malformed
}

/// The partial answer that a value spells, or that it has another form.
fn of_value(alloc: Global, value: &Value) -> Result<Document, Unread>
    ensures { (it : DocumentValue) → SpellsDocument it (view value.now) →
        MatchResult result (λ document. document ≡ it) (λ e. e ≡ Unread.OutOfMemory) }
{
    match document_of(alloc, value) {
        Ok(Some(document)) => Ok(document),
        Ok(None) => Err(Unread::Malformed),
        Err(_) => Err(Unread::OutOfMemory),
    }
}

/// The value that spells a partial answer.
fn value_of(alloc: Global, document: &Document) -> Result<Value, AllocError>
    ensures { IfOk result (λ v. SpellsDocument document.now (view v)) }
{
    let dividing = division_value(alloc, document.division, document.count)?;
    let script = Value::try_from_str(alloc, document.script.as_str())?;
    let shards = values_of(alloc, document.numbers.as_slice())?;
    let told = values_of(alloc, document.lines.as_slice())?;
    object_of(alloc, dividing, script, shards, told)
}

/// The object of a partial answer's members.
fn object_of(
    alloc: Global,
    dividing: Value,
    script: Value,
    shards: Value,
    told: Value,
) -> Result<Value, AllocError>
    ensures { IfOk result (λ v. view v ≡ object (put (codes "told") (view told)
        (put (codes "shards") (view shards) (put (codes "script") (view script) (put (codes "of") (view dividing) no_members))))) }
{
    let mut members = Map::new(alloc);
    serde_json::put(&mut members, alloc, "of", dividing)?;
    serde_json::put(&mut members, alloc, "script", script)?;
    serde_json::put(&mut members, alloc, "shards", shards)?;
    serde_json::put(&mut members, alloc, "told", told)?;
    Ok(Value::from(members))
}

/// The partial answer that a value spells.
fn document_of(alloc: Global, value: &Value) -> Result<Option<Document>, AllocError>
    ensures { (it : DocumentValue) → SpellsDocument it (view value.now) → IfOk result (λ o. o ≡ Some it) }
{
    let (Some(dividing), Some(script), Some(shards), Some(told)) = (
        value.get("of"),
        value.get("script"),
        value.get("shards"),
        value.get("told"),
    ) else {
        return Ok(None);
    };
    let Some((division, count)) = division_in(dividing) else {
        return Ok(None);
    };
    let Some(script) = script.as_str() else {
        return Ok(None);
    };
    let Some(numbers) = list_of(alloc, shards)? else {
        return Ok(None);
    };
    let Some(lines) = list_of(alloc, told)? else {
        return Ok(None);
    };
    let script = String::from_str(alloc, script)?;
    Ok(Some(Document {
        script,
        division,
        count,
        numbers,
        lines,
    }))
}
