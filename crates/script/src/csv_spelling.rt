//! What lines and viewers say in records of CSV.
ghost use Rattle.std.specs.Prelude.{◌≡◌, ◌++◌, IfOk, OnOk, Some, codes, string_bytes};
ghost use Rattle.std.specs.List.{flat_map};
ghost use Rattle.script.specs.CsvSpelling.{fault_fields, heading, refusal, rule_fields, shape_body, shape_line, view_heading, viewers_refused};

use crate::fault::Fault;
use cells::Refused;
use std::alloc::{AllocError, Global};
use std::fmt;
use trie::Prefix;

/// A refusal as fields: its number, and its name.
#[derive(Clone, Copy, Drop)]
struct RuleFields {
    rule: Refused,
}

impl fmt::Display for RuleFields {
    ghost output = { λ of. Some (rule_fields of.rule) };

    fn fmt<W: fmt::Write>(&self, f: &mut fmt::Formatter<W>) -> fmt::Result {
        let number = self.rule.number();
        let name = self.rule.name();
        write!(f, "{number},{name}")
    }
}

/// A fault as fields: those of its refusal, and for a faulty part which part and which record.
#[derive(Clone, Copy, Drop)]
struct FaultFields {
    fault: Fault,
}

impl fmt::Display for FaultFields {
    ghost output = { λ of. Some (fault_fields of.fault) };

    fn fmt<W: fmt::Write>(&self, f: &mut fmt::Formatter<W>) -> fmt::Result {
        match self.fault {
            Fault::Line(rule) => {
                let rule = RuleFields { rule };
                write!(f, "{rule}")
            }
            Fault::Part { part, record } => {
                let rule = RuleFields {
                    rule: Refused::BadPart,
                };
                write!(f, "{rule},part,{part},record,{record}")
            }
        }
    }
}

/// The block of a refused line.
pub fn refusal(alloc: Global, number: u64, fault: Fault) -> Result<String, AllocError>
    ensures { IfOk result (λ text. string_bytes text ≡ refusal number fault) }
{
    let fault = FaultFields { fault };
    format!(in alloc; "line,{number},refused,{fault}\n")
}

/// The first record of the block of a report or a shape.
pub fn heading(alloc: Global, number: u64, edition: u64) -> Result<String, AllocError>
    ensures { IfOk result (λ text. string_bytes text ≡ heading number edition) }
{
    format!(in alloc; "line,{number},edition,{edition}\n")
}

/// The text with a header and a record for each prefix behind it.
pub fn push_shape(text: &mut String, shape: &[(Prefix, u64)]) -> Result<(), AllocError>
    ensures { OnOk result (string_bytes text.new ≡ string_bytes text.old ++ shape_body shape.now) }
{
    push_titles(text)?;
    push_records(text, shape)?;
    Ok(())
}

/// The text with the header of a shape behind it.
fn push_titles(text: &mut String) -> Result<(), AllocError>
    ensures { OnOk result (string_bytes text.new ≡ string_bytes text.old ++ codes "prefix,keys\n") }
{
    write!(text, "prefix,keys\n")
}

/// The text with a record for each prefix behind it.
fn push_records(text: &mut String, shape: &[(Prefix, u64)]) -> Result<(), AllocError>
    ensures { OnOk result (string_bytes text.new ≡ string_bytes text.old ++ flat_map shape_line shape.now) }
{
    for line in shape {
        push_record(text, line)?;
    }
    Ok(())
}

/// The text with a prefix and its number of keys behind it.
fn push_record(text: &mut String, line: &(Prefix, u64)) -> Result<(), AllocError>
    ensures { OnOk result (string_bytes text.new ≡ string_bytes text.old ++ shape_line line.now) }
{
    let (prefix, keys) = line;
    write!(text, "{prefix},{keys}\n")
}

/// The record that stands in place of all blocks of viewers.
pub fn viewers_refused(alloc: Global, fault: Refused) -> Result<String, AllocError>
    ensures { IfOk result (λ text. string_bytes text ≡ viewers_refused fault) }
{
    let rule = RuleFields { rule: fault };
    format!(in alloc; "viewers,refused,{rule}\n")
}

/// The first record of a viewer's block.
pub fn view_heading(alloc: Global, viewer: u64, edition: u64) -> Result<String, AllocError>
    ensures { IfOk result (λ text. string_bytes text ≡ view_heading viewer edition) }
{
    format!(in alloc; "viewer,{viewer},edition,{edition}\n")
}
