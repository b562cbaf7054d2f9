//! The reasons of a script.
ghost use Rattle.std.specs.Prelude.{◌≡◌, ◌≤◌, ◌+◌, IfOk, IfSome, None, length, map, option_map};
ghost use Rattle.cells.specs.Reading.{schema_of};
ghost use Rattle.reasons.specs.Books.{declared_in, line_numbered, lines_in, schema_in_text, schema_said};

use crate::keys::key_fault;
use crate::limits::{MAX_PARTS, MAX_SCRIPT_BYTES};
use crate::line_fault::{Found, LineFault};
use crate::listing::{form_fault, listed_bytes, missing_part};
use crate::part::{PartReason, faults_of_part};
use crate::put::put_fault;
use crate::queries::query_fault;
use crate::schemas::schema_fault;
use crate::shown::shown;
use crate::split::{command_of, line_at, lines_of};
use cells::{Refused, Schema};
use loader::MAX_LISTED_BYTES;
use std::alloc::{AllocError, Global};
use std::fmt;
use std::marker::Model;

const NO_TABLE: &str = "no table is declared before this line";

const TOO_MANY_ROWS: &str = "the draft would have more rows than --rows allows";

const COMMANDS: &str =
    "the commands are table, load, put, delete, publish, report and shape, in small letters";

/// Why a line is refused. Its text says what is wrong, and names what is at fault.
#[derive(Drop)]
pub struct Reason {
    /// The column of the line at which the fault is, in bytes counted from 1. None where it is the line as a whole.
    pub column: Option<u64>,
    fault: LineFault,
}

impl fmt::Display for Reason {
    fn fmt<W: fmt::Write>(&self, f: &mut fmt::Formatter<W>) -> fmt::Result {
        let fault = &self.fault;
        write!(f, "{fault}")
    }
}

/// The lines of a script, the table that it declares and the parts: what reasons are found in. Made once, so that a
/// reason costs no walk of the whole script.
#[derive(Drop)]
pub struct Reasons<'a> {
    script: &'a [u8],
    parts: &'a [Vec<u8>],
    lines: Vec<&'a [u8]>,
    table: Option<Declared>,
}

impl<'a> Model for Reasons<'a> {
    ghost use Rattle.std.specs.Prelude.{map, option_map};
    ghost use Rattle.cells.specs.Reading.{schema_of};
    ghost use Rattle.reasons.specs.Books.{Book};

    ghost Value = { Book };

    ghost view = { λ r. record {
      lines = map (λ l. l.now) r.lines.items;
      table = option_map (λ d. d.schema) r.table;
      parts = map (λ p. p.items) r.parts.now;
    } };
}

/// The table of a script, and the line that declares it.
#[derive(Drop)]
struct Declared {
    schema: Schema,
    line: u64,
}

impl<'a> Reasons<'a> {
    /// What reasons are found in, of a script and of its parts. A script beyond the limit has no lines. The only error is
    /// that a growth was refused.
    pub fn of(
        alloc: Global,
        script: &'a [u8],
        parts: &'a [Vec<u8>],
    ) -> Result<Reasons<'a>, AllocError>
        ensures lines { IfOk result (λ r. r.lines ≡ lines_in script.now) }
        ensures table { IfOk result (λ r. r.table ≡ declared_in (lines_in script.now)) }
        ensures parts { IfOk result (λ r. r.parts ≡ map (λ p. p.items) parts.now) }
    {
        let lines = lines_within(alloc, script)?;
        let table = first_table(alloc, lines.as_slice())?;
        Ok(Reasons {
            script,
            parts,
            lines,
            table,
        })
    }

    /// The schema of the table that the script declares, where it declares one.
    pub fn schema(&self) -> Option<&Schema>
        ensures { option_map (λ s. s.now) result ≡ self.now.table }
    {
        match &self.table {
            Some(table) => Some(&table.schema),
            None => None,
        }
    }

    /// Why the line of this number, counted from 1, is refused by this rule; of 0 the script as a whole. Where the line
    /// breaks no such rule, the reason is the rule. The only error is that a growth was refused.
    pub fn of_line(&self, alloc: Global, line: u64, rule: Refused) -> Result<Reason, AllocError>
        ensures whole { line ≡ 0 → IfOk result (λ reason. reason.column ≡ None) }
        ensures within { IfOk result (λ reason. IfSome reason.column (λ column. column ≤ length (line_numbered self.now.lines line) + 1)) }
    {
        if line == 0 {
            return Ok(Reason {
                column: None,
                fault: self.script_fault(),
            });
        }
        let bytes = line_at(self.lines.as_slice(), line);
        match str::from_utf8(bytes) {
            Ok(text) => self.of_text(alloc, text, rule),
            Err(error) => Ok(Reason {
                column: Some(column_in(bytes, error.valid_up_to())),
                fault: LineFault::Plain("the line is no UTF-8 from here on"),
            }),
        }
    }

    /// Why the first faulty record of a part is faulty, as a run tells both numbers: that of the part, counted from 1, and
    /// that of the record, where the header is 0. Of another record it is not told why. The only error is that a growth
    /// was refused.
    pub fn of_record(&self, alloc: Global, part: u64, number: u64) -> Result<PartReason, AllocError>
        ensures { IfOk result (λ reason. reason.record ≡ number) }
    {
        let Some(schema) = self.schema() else {
            return Ok(PartReason::unknown(number));
        };
        let Some(bytes) = self.part(part) else {
            return Ok(PartReason::unknown(number));
        };
        reason_of_record(alloc, bytes, schema, number)
    }

    /// The bytes of the part of this number.
    fn part(&self, number: u64) -> Option<&'a [u8]> {
        let place = number.checked_sub(1)?;
        let part = self.parts.get(place as usize)?;
        Some(part.as_slice())
    }

    /// Why the script is refused as a whole.
    fn script_fault(&self) -> LineFault {
        if self.script.len() > MAX_SCRIPT_BYTES {
            return LineFault::TooMany {
                found: self.script.len() as u64,
                what: "bytes of a script",
                most: MAX_SCRIPT_BYTES as u64,
            };
        }
        LineFault::TooMany {
            found: self.parts.len() as u64,
            what: "parts",
            most: MAX_PARTS as u64,
        }
    }

    /// Why a line of this text is refused by the rule.
    fn of_text(&self, alloc: Global, line: &str, rule: Refused) -> Result<Reason, AllocError>
        ensures { IfOk result (λ reason. IfSome reason.column (λ column. column ≤ length line.now + 1)) }
    {
        let (word, rest) = command_of(line);
        let start = line.len().saturating_sub(rest.len());
        if matches!(rule, Refused::BadCommand) {
            return of_command(alloc, line, word, rest);
        }
        if matches!(rule, Refused::Limit) && word == "load" {
            let fault = LineFault::TooMany {
                found: listed_bytes(rest, self.parts),
                what: "bytes of listed parts",
                most: MAX_LISTED_BYTES,
            };
            return Ok(reason_behind(line, start, Found::whole(fault)));
        }
        let found = self.fault_of(alloc, rest, rule)?;
        Ok(reason_behind(line, start, found))
    }

    /// Why the rest of a line is refused by the rule.
    fn fault_of(&self, alloc: Global, rest: &str, rule: Refused) -> Result<Found, AllocError> {
        match rule {
            Refused::NoTable => Ok(Found::whole(LineFault::Plain(NO_TABLE))),
            Refused::TableAgain => Ok(Found::whole(self.table_again())),
            Refused::BadSchema => schema_fault(alloc, rest),
            Refused::NoPart => missing_part(alloc, rest, self.parts),
            Refused::BadPart => Ok(Found::whole(LineFault::Plain(
                "a listed part has a faulty record",
            ))),
            Refused::TooManyRows => Ok(Found::whole(LineFault::Plain(TOO_MANY_ROWS))),
            rule => self.under_table(alloc, rest, rule),
        }
    }

    /// That a table is there already.
    fn table_again(&self) -> LineFault {
        match &self.table {
            Some(table) => LineFault::TableAgain(table.line),
            None => LineFault::Plain("a table is declared already"),
        }
    }

    /// The faults of a line's rest that are found by the schema.
    fn under_table(&self, alloc: Global, rest: &str, rule: Refused) -> Result<Found, AllocError> {
        let Some(schema) = self.schema() else {
            return Ok(Found::whole(LineFault::Plain(NO_TABLE)));
        };
        match rule {
            Refused::BadRecord => put_fault(alloc, rest.as_bytes(), schema),
            Refused::BadKey => key_fault(alloc, rest, schema),
            _ => query_fault(alloc, rest, schema, rule),
        }
    }
}

/// The lines of a script that is not beyond the limit; none of another.
fn lines_within(alloc: Global, script: &[u8]) -> Result<Vec<&[u8]>, AllocError>
    ensures { IfOk result (λ lines. map (λ l. l.now) lines.items ≡ lines_in script.now) }
{
    if script.len() > MAX_SCRIPT_BYTES {
        return Ok(Vec::new(alloc));
    }
    lines_of(alloc, script)
}

/// The first line that declares a table, with its schema.
fn first_table(alloc: Global, lines: &[&[u8]]) -> Result<Option<Declared>, AllocError>
    ensures { IfOk result (λ table. option_map (λ d. d.schema) table ≡ declared_in (map (λ l. l.now) lines.now)) }
{
    let mut number = 0u64;
    for line in lines {
        number = number.saturating_add(1);
        if let Some(schema) = schema_in(alloc, line)? {
            return Ok(Some(Declared {
                schema,
                line: number,
            }));
        }
    }
    Ok(None)
}

/// The schema of a line that declares one.
#[tactic(auto, using(crate::proofs::BooksLemmas::said_in_text, crate::proofs::BooksLemmas::said_in_no_text))]
fn schema_in(alloc: Global, line: &[u8]) -> Result<Option<Schema>, AllocError>
    ensures { IfOk result (λ schema. schema ≡ schema_said line.now) }
{
    match str::from_utf8(line) {
        Ok(text) => schema_in_text(alloc, text),
        Err(_) => Ok(None),
    }
}

/// The same of a line in UTF-8.
fn schema_in_text(alloc: Global, text: &str) -> Result<Option<Schema>, AllocError>
    ensures { IfOk result (λ schema. schema ≡ schema_in_text text.now) }
{
    let (word, rest) = command_of(text);
    if word == "table" {
        return schema_of(alloc, rest);
    }
    Ok(None)
}

/// The schema that a text spells, where it spells one.
fn schema_of(alloc: Global, text: &str) -> Result<Option<Schema>, AllocError>
    ensures { IfOk result (λ schema. schema ≡ schema_of text.now) }
{
    match Schema::read(alloc, text) {
        Ok(schema) => Ok(Some(schema)),
        Err(Refused::OutOfMemory) => Err(AllocError),
        Err(_) => Ok(None),
    }
}

/// The reason of a fault that was found in what stands behind so many bytes of a line.
fn reason_behind(line: &str, start: usize, found: Found) -> Reason
    ensures { IfSome result.column (λ column. column ≤ length line.now + 1) }
{
    let Found { place, fault } = found;
    match place {
        Some(place) => Reason {
            column: Some(column_in(line.as_bytes(), start.saturating_add(place))),
            fault,
        },
        None => Reason {
            column: None,
            fault,
        },
    }
}

/// The column of a place in a line, counted from 1.
fn column_in(line: &[u8], place: usize) -> u64
    ensures { result ≤ length line.now + 1 }
{
    place.min(line.len()) as u64 + 1
}

/// Why a line is no command, or a command's rest is not in its form.
fn of_command(alloc: Global, line: &str, word: &str, rest: &str) -> Result<Reason, AllocError>
    ensures { IfOk result (λ reason. IfSome reason.column (λ column. column ≤ length line.now + 1)) }
{
    let start = line.len().saturating_sub(rest.len());
    match word {
        "load" => Ok(reason_behind(line, start, form_fault(alloc, rest)?)),
        "publish" | "shape" => {
            let found = shown(alloc, rest)?;
            let why = "the line should end before this";
            Ok(reason_behind(line, start, Found::at(0, LineFault::Piece { found, why })))
        }
        _ => Ok(reason_behind(line, 0, no_command(alloc, word)?)),
    }
}

/// That a word is no command.
fn no_command(alloc: Global, word: &str) -> Result<Found, AllocError> {
    if word.is_empty() {
        let why = "no space stands before a command";
        return Ok(Found::at(0, LineFault::Plain(why)));
    }
    if word.starts_with('\u{feff}') {
        let why = "a byte order mark stands before the command";
        return Ok(Found::at(0, LineFault::Plain(why)));
    }
    let found = shown(alloc, word)?;
    let why = COMMANDS;
    Ok(Found::at(0, LineFault::Piece { found, why }))
}

/// Why the record of this number is faulty, where it is the first faulty one.
fn reason_of_record(
    alloc: Global,
    bytes: &[u8],
    schema: &Schema,
    number: u64,
) -> Result<PartReason, AllocError>
    ensures { IfOk result (λ reason. reason.record ≡ number) }
{
    let mut faults = faults_of_part(alloc, bytes, schema)?;
    let first = faults.next();
    // What is left of the part is let go before the reason is looked at, on one way for all.
    drop(faults);
    match first? {
        Some((_, reason)) if reason.record == number => Ok(reason),
        _ => Ok(PartReason::unknown(number)),
    }
}
