//! What the lines of a script do by themselves: its text alone tells the schema that is declared and how many editions are published.
ghost use Rattle.std.specs.Prelude.{◌≡◌, ◌+◌, ◌<◌, ◌^◌, ℕ, [], IfOk, IsErr, None};
ghost use Rattle.script.specs.Walks.{GoesOver, StandsBehind, Takes};
ghost use Rattle.script.specs.declared.walk.Doing.TheVariants as doing;
ghost use Rattle.script.specs.declared.fault.Fault.TheVariants.{Line};

use crate::fault::Fault;
use crate::statement::{Statement, read_first, read_statement};
use cells::{Refused, Schema};
use std::alloc::{AllocError, Global};

/// What a line does, as far as it counts for those who have what shards tell of it.
#[derive(Debug, Drop)]
pub enum Doing<'a> {
    /// It says nothing: a comment, a table, a delete or a publish.
    Quiet,
    /// It puts a row, and says nothing where there is room for it.
    Puts,
    /// It loads parts, which only a shard has read.
    Loads,
    /// It reports on the query that the text asks, whatever it says.
    Reports(&'a str),
    Shape,
    /// Its own text is refused.
    Refused(Fault),
}

/// How far the lines of a script are gone over, with no rows beside.
#[derive(Drop)]
pub struct Walk {
    /// The schema that a line has declared.
    pub schema: Option<Schema>,
    /// How many editions are published.
    pub edition: u64,
    /// How many lines there were.
    pub number: u64,
}

impl Walk {
    /// Before the first line.
    pub fn new() -> Walk
        ensures { StandsBehind [] result }
    {
        Walk {
            schema: None,
            edition: 0,
            number: 0,
        }
    }

    /// Goes over the next line, and gives what it does. The only error is that a growth was refused.
    pub fn go_over<'a>(&mut self, alloc: Global, line: &'a [u8]) -> Result<Doing<'a>, AllocError>
        requires editions { self.old.edition + 1 < 2 ^ 64 }
        requires lines { self.old.number + 1 < 2 ^ 64 }
        ensures { IfOk result (GoesOver line.now self.old self.new) }
    {
        self.number += 1;
        let Some(schema) = &self.schema else {
            return declare(alloc, &mut self.schema, line);
        };
        match read_statement(alloc, schema, line) {
            Ok(Statement::Nothing) => Ok(Doing::Quiet),
            Ok(Statement::Load(_)) => Ok(Doing::Loads),
            Ok(Statement::Put(_)) => Ok(Doing::Puts),
            Ok(Statement::Delete(_)) => Ok(Doing::Quiet),
            Ok(Statement::Publish) => {
                self.edition += 1;
                Ok(Doing::Quiet)
            }
            Ok(Statement::Report(query)) => Ok(Doing::Reports(query)),
            Ok(Statement::Shape) => Ok(Doing::Shape),
            Err(fault) => refused(fault),
        }
    }
}

/// The same before there is a table.
fn declare<'a>(
    alloc: Global,
    schema: &mut Option<Schema>,
    line: &'a [u8],
) -> Result<Doing<'a>, AllocError>
    requires { schema.old ≡ None }
    ensures { (edition : ℕ) → IfOk result (Takes line.now None schema.new edition edition) }
{
    match read_first(alloc, line) {
        Ok(None) => Ok(Doing::Quiet),
        Ok(Some(declared)) => {
            *schema = Some(declared);
            Ok(Doing::Quiet)
        }
        Err(fault) => refused(fault),
    }
}

/// A line that its own text refuses. Want of memory is no refusal of a line.
fn refused(fault: Fault) -> Result<Doing<'static>, AllocError>
    ensures found { IfOk result (λ d. d ≡ doing.Refused fault) }
    ensures memory { fault ≡ Line Refused.OutOfMemory → IsErr result }
{
    if fault == Fault::Line(Refused::OutOfMemory) {
        return Err(AllocError);
    }
    Ok(Doing::Refused(fault))
}
