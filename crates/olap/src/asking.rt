//! The gate of a run that asks a question: it tells why the question is refused, in the words of who asked it.

use crate::input::Input;
use crate::tell::Tell;
use cells::{ColumnType, Refused, Schema, Text, Token, tokens_or};
use crew::Gate;
use prepare::{TextField, first_text, line_of};
use reasons::{PartReason, Reason, Reasons};
use std::alloc::Global;
use std::str;

/// The line of the report, in the script that asks.
const REPORT_LINE: u64 = 4;

/// How many bytes stand before the query, on that line.
const BEFORE_QUERY: u64 = 7;

/// The most bytes of a field that are shown.
const MOST_SHOWN: usize = 60;

/// A gate that tells of the query, by its columns, and of the files, by their lines. Where memory is refused to a reason, the refusal
/// is told without it.
#[derive(Drop)]
pub struct Asking<'a, T> {
    teller: &'a T,
    alloc: Global,
    query: &'a str,
    names: &'a [Text],
    files: &'a [Vec<u8>],
    /// The byte between two fields of the files.
    delimiter: u8,
    parts: &'a [Vec<u8>],
    reasons: Option<Reasons<'a>>,
}

impl<'a, T> Asking<'a, T> {
    /// A gate for a run that asks a query of parts, which were made of files of these names.
    pub fn new(
        teller: &'a T,
        alloc: Global,
        query: &'a str,
        names: &'a [Text],
        files: &'a [Vec<u8>],
        delimiter: u8,
        input: &'a Input,
    ) -> Asking<'a, T> {
        Asking {
            teller,
            alloc,
            query,
            names,
            files,
            delimiter,
            parts: input.parts.as_slice(),
            reasons: Reasons::of(alloc, input.script.as_slice(), input.parts.as_slice()).ok(),
        }
    }

    /// Why a line is refused, where there is memory for it.
    fn reason(&self, line: u64, fault: Refused) -> Option<Reason> {
        let reasons = self.reasons.as_ref()?;
        reasons.of_line(self.alloc, line, fault).ok()
    }

    /// What is wrong with a record of a part, where there is memory for it.
    fn part_reason(&self, part: u64, record: u64) -> Option<PartReason> {
        let reasons = self.reasons.as_ref()?;
        reasons.of_record(self.alloc, part, record).ok()
    }

    /// The column of texts for whose type the query is refused, where the fault is at a byte of it, and there is memory for it.
    fn column_of_texts(&self, place: u64) -> Option<usize> {
        let schema = self.reasons.as_ref()?.schema()?;
        column_of_texts(self.alloc, self.query, place as usize, schema)
    }

    /// The first field that made a column one of texts, and the number of its part, where there is memory for it.
    fn first_text(&self, column: usize) -> Option<(u64, TextField)> {
        let mut number = 0u64;
        for part in self.parts {
            number = number.saturating_add(1);
            if let Some(text) = first_text(self.alloc, part.as_slice(), column).ok()? {
                return Some((number, text));
            }
        }
        None
    }

    /// The name of the file of this number, counted from 1, and the line on which a record of it begins.
    fn place(&self, part: u64, record: u64) -> (&'a str, u64) {
        let at = part.saturating_sub(1) as usize;
        let name = match self.names.get(at) {
            Some(name) => name.as_str(),
            None => "",
        };
        let line = match self.files.get(at) {
            Some(file) => line_of(self.alloc, file.as_slice(), self.delimiter, record).unwrap_or(1),
            None => 1,
        };
        (name, line)
    }
}

impl<'a, T: Tell> Asking<'a, T> {
    /// Tells why the query is refused.
    fn tell_query(&self, reason: &Reason, number: u32, fault: Refused) {
        match reason.column {
            Some(column) => {
                let column = column.saturating_sub(BEFORE_QUERY);
                self.teller.tell(format_args!("query:{column}: {reason} ({number} {fault})"));
            }
            None => self
                .teller
                .tell(format_args!("query: {reason} ({number} {fault})")),
        }
    }
}

impl<'a, T: Tell> Asking<'a, T> {
    /// Tells which field made a column one of texts, where the query is refused at a byte of it for the type of a column.
    fn tell_text(&self, place: u64) {
        let Some(column) = self.column_of_texts(place) else {
            return;
        };
        let Some((part, text)) = self.first_text(column) else {
            return;
        };
        let (name, line) = self.place(part, text.record);
        let word = self.column_name(column);
        match shown(text.field.as_slice()) {
            Some(field) => self.teller.tell(format_args!(
                "{name}:{line}: {word} is text here: '{field}'"
            )),
            None => self
                .teller
                .tell(format_args!("{name}:{line}: {word} is text here")),
        }
    }

    /// The name of a column of the table.
    fn column_name(&self, column: usize) -> &str {
        let Some(reasons) = &self.reasons else {
            return "";
        };
        let Some(schema) = reasons.schema() else {
            return "";
        };
        match schema.columns().get(column) {
            Some(column) => column.name.as_str(),
            None => "",
        }
    }
}

/// The last column of texts that a query names up to this byte, and in the word that begins there.
fn column_of_texts(alloc: Global, query: &str, place: usize, schema: &Schema) -> Option<usize> {
    let tokens = tokens_or(alloc, read_up_to(query, place)?, Refused::QuerySyntax).ok()?;
    let mut found = None;
    for token in tokens.as_slice() {
        if let Token::Word(word) = token {
            found = text_column(schema, word.as_str()).or(found);
        }
    }
    found
}

/// The text up to a byte, with the word that begins there.
fn read_up_to(query: &str, place: usize) -> Option<&str> {
    let bytes = query.as_bytes();
    let rest = bytes.get(place..)?;
    let len = rest
        .iter()
        .position(|byte| !byte.is_ascii_alphanumeric() && *byte != b'_')
        .unwrap_or(rest.len());
    str::from_utf8(bytes.get(..place.saturating_add(len))?).ok()
}

/// The place of the column of texts of this name.
fn text_column(schema: &Schema, name: &str) -> Option<usize> {
    schema.columns().iter().position(|column| column.kind == ColumnType::Text
        && column.name.as_str() == name)
}

/// A field as a message shows it: a short text on one line.
pub fn shown(field: &[u8]) -> Option<&str> {
    if field.len() > MOST_SHOWN || field.iter().any(|byte| *byte < b' ') {
        return None;
    }
    str::from_utf8(field).ok()
}

impl<'a, T: Tell + Sync> Gate for Asking<'a, T> {
    fn refused(&self, line: u64, fault: Refused) {
        let number = fault.number();
        let Some(reason) = self.reason(line, fault) else {
            self.teller.tell(format_args!("olap: no memory for the reason ({number} {fault})"));
            return;
        };
        if line == REPORT_LINE {
            self.tell_query(&reason, number, fault);
            if fault == Refused::WrongType {
                let column = reason.column.unwrap_or(0);
                self.tell_text(column.saturating_sub(BEFORE_QUERY + 1));
            }
            return;
        }
        self.teller
            .tell(format_args!("olap: {reason} ({number} {fault})"));
    }

    fn refused_record(&self, _line: u64, part: u64, record: u64) {
        let (name, line) = self.place(part, record);
        let Some(reason) = self.part_reason(part, record) else {
            self.teller.tell(format_args!(
                "{name}:{line}: no memory for the reason (6 BadPart, 7 BadRecord)"
            ));
            return;
        };
        self.teller.tell(format_args!("{name}:{line}: {reason} (6 BadPart, 7 BadRecord)"));
    }
}
