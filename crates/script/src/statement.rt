//! Reads a line of a script.
ghost use Rattle.std.specs.Prelude.{◌≡◌, IfOk, None, Some};
ghost use Rattle.cells.specs.Refusals.{ReadsBy};
ghost use Rattle.script.specs.Deeds.{Publishes, Shapes, deed, deletes, publishes, shapes};
ghost use Rattle.script.specs.Keys.{key_of_text, sole_literal, sole_number, sole_text};
ghost use Rattle.script.specs.Statements.{Asks, IsStatementOf, first_deed};
ghost use Rattle.script.specs.declared.fault.Fault.TheVariants.{Line};

use crate::command::{Command, command_of, is_comment};
use crate::fault::Fault;
use cells::{Cell, ColumnType, Refused, Row, Schema, Token, tokens_or};
use loader::read_record;
use std::alloc::{AllocError, Global};

/// What a line asks for once a table is declared.
#[derive(Debug, Drop)]
pub enum Statement<'a> {
    Nothing,
    /// A load of the parts that the text lists, whatever it says.
    Load(&'a str),
    Put(Row),
    Delete(Cell),
    Publish,
    /// A report of the query that the text asks, whatever it says.
    Report(&'a str),
    Shape,
}

/// Reads a line before there is a table: the schema that it declares, or nothing. The refusal is the
/// first fault of its command, or [`Refused::OutOfMemory`].
pub fn read_first(alloc: Global, line: &[u8]) -> Result<Option<Schema>, Fault>
    ensures { ReadsBy (Line Refused.OutOfMemory) first_deed (deed None line.now) result }
{
    if is_comment(line) {
        return Ok(None);
    }
    match command_of(line) {
        Some((Command::Table, rest)) => Ok(Some(Schema::read(alloc, rest)?)),
        Some(_) => Err(Fault::Line(Refused::NoTable)),
        None => Err(Fault::Line(Refused::BadCommand)),
    }
}

/// Reads a line under the declared schema. The refusal is the first fault of its command, but for those that are
/// found where it is done: the faults of a load's listing and of its parts, [`Refused::TooManyRows`] and the faults
/// of a report's query; or it is [`Refused::OutOfMemory`].
#[tactic(auto, using(crate::proofs::StatementsLemmas::deletes_fit))]
pub fn read_statement<'a>(
    alloc: Global,
    schema: &Schema,
    line: &'a [u8],
) -> Result<Statement<'a>, Fault>
    ensures exact { Asks schema.now (deed (Some schema.now) line.now) result }
    ensures fits { IfOk result (IsStatementOf schema.now) }
{
    if is_comment(line) {
        return Ok(Statement::Nothing);
    }
    match command_of(line) {
        Some((Command::Table, _)) => Err(Fault::Line(Refused::TableAgain)),
        Some((Command::Load, rest)) => Ok(Statement::Load(rest)),
        Some((Command::Put, rest)) => {
            let row = read_record(alloc, rest.as_bytes(), schema)?;
            Ok(Statement::Put(row))
        }
        Some((Command::Delete, rest)) => read_delete(alloc, schema, rest),
        Some((Command::Publish, rest)) => {
            read_publish(rest)?;
            Ok(Statement::Publish)
        }
        Some((Command::Report, rest)) => Ok(Statement::Report(rest)),
        Some((Command::Shape, rest)) => {
            read_shape(rest)?;
            Ok(Statement::Shape)
        }
        None => Err(Fault::Line(Refused::BadCommand)),
    }
}

/// A `delete`, whose rest is one literal of the key's type.
fn read_delete(alloc: Global, schema: &Schema, rest: &str) -> Result<Statement<'static>, Fault>
    ensures { Asks schema.now (deletes (key_of_text schema.now rest.now)) result }
{
    let tokens = tokens_or(alloc, rest, Refused::BadKey)?;
    let column = &schema.columns()[schema.key()];
    match sole_literal(tokens.as_slice(), column.kind)? {
        Some(key) => Ok(Statement::Delete(key)),
        None => Err(Fault::Line(Refused::BadKey)),
    }
}

/// The cell of the one literal that the tokens are: a number for an INT key, a text for a TEXT key.
fn sole_literal(tokens: &[Token], kind: ColumnType) -> Result<Option<Cell>, AllocError>
    ensures { IfOk result (λ cell. cell ≡ sole_literal kind tokens.now) }
{
    match kind {
        ColumnType::Int => Ok(sole_number(tokens)),
        ColumnType::Text => sole_text(tokens),
    }
}

fn sole_number(tokens: &[Token]) -> Option<Cell>
    ensures { result ≡ sole_number tokens.now }
{
    match tokens {
        [Token::Number(number)] => Some(Cell::Int(*number)),
        _ => None,
    }
}

fn sole_text(tokens: &[Token]) -> Result<Option<Cell>, AllocError>
    ensures { IfOk result (λ cell. cell ≡ sole_text tokens.now) }
{
    match tokens {
        [Token::Quoted(text)] => Ok(Some(Cell::Text(text.clone()?))),
        _ => Ok(None),
    }
}

/// A `publish`, which has no rest.
fn read_publish(rest: &str) -> Result<(), Fault>
    ensures { ReadsBy (Line Refused.OutOfMemory) (λ u. Publishes) (publishes rest.now) result }
{
    if !rest.is_empty() {
        return Err(Fault::Line(Refused::BadCommand));
    }
    Ok(())
}

/// A `shape`, which has no rest.
fn read_shape(rest: &str) -> Result<(), Fault>
    ensures { ReadsBy (Line Refused.OutOfMemory) (λ u. Shapes) (shapes rest.now) result }
{
    if !rest.is_empty() {
        return Err(Fault::Line(Refused::BadCommand));
    }
    Ok(())
}
