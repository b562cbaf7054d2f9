//! What lines and viewers say in JSON: an object for each, in a line.
ghost use Rattle.std.specs.Prelude.{◌≡◌, ◌++◌, ◌∷◌, [], IfOk, OnOk, Some, string_bytes};
ghost use Rattle.std.specs.List.{flat_map, join_by};
ghost use Rattle.script.specs.JsonSpelling.{fault_members, heading, refusal, rule_members, shape_body, shape_pair, view_heading, viewers_refused};

use crate::fault::Fault;
use cells::Refused;
use std::alloc::{AllocError, Global};
use std::fmt;
use trie::Prefix;

/// A refusal as members: its number, and its name.
#[derive(Clone, Copy, Drop)]
struct RuleMembers {
    rule: Refused,
}

impl fmt::Display for RuleMembers {
    ghost output = { λ of. Some (rule_members of.rule) };

    fn fmt<W: fmt::Write>(&self, f: &mut fmt::Formatter<W>) -> fmt::Result {
        let number = self.rule.number();
        let name = self.rule.name();
        write!(f, "\"refused\":{number},\"name\":\"{name}\"")
    }
}

/// A fault as members: those of its refusal, and for a faulty part which part and which record.
#[derive(Clone, Copy, Drop)]
struct FaultMembers {
    fault: Fault,
}

impl fmt::Display for FaultMembers {
    ghost output = { λ of. Some (fault_members of.fault) };

    fn fmt<W: fmt::Write>(&self, f: &mut fmt::Formatter<W>) -> fmt::Result {
        match self.fault {
            Fault::Line(rule) => {
                let rule = RuleMembers { rule };
                write!(f, "{rule}")
            }
            Fault::Part { part, record } => {
                let rule = RuleMembers {
                    rule: Refused::BadPart,
                };
                write!(f, "{rule},\"part\":{part},\"record\":{record}")
            }
        }
    }
}

/// The object of a refused line.
pub fn refusal(alloc: Global, number: u64, fault: Fault) -> Result<String, AllocError>
    ensures { IfOk result (λ text. string_bytes text ≡ refusal number fault) }
{
    let fault = FaultMembers { fault };
    format!(in alloc; "{{\"line\":{number},{fault}}}\n")
}

/// How the object of a report or a shape begins.
pub fn heading(alloc: Global, number: u64, edition: u64) -> Result<String, AllocError>
    ensures { IfOk result (λ text. string_bytes text ≡ heading number edition) }
{
    format!(in alloc; "{{\"line\":{number},\"edition\":{edition},")
}

/// The text with a pair for each prefix behind it, and the end of the object.
pub fn push_shape(text: &mut String, shape: &[(Prefix, u64)]) -> Result<(), AllocError>
    ensures { OnOk result (string_bytes text.new ≡ string_bytes text.old ++ shape_body shape.now) }
{
    write!(text, "\"shape\":[")?;
    push_pairs(text, shape)?;
    write!(text, "]}}\n")?;
    Ok(())
}

/// The text with the pairs behind it, and a comma between two.
fn push_pairs(text: &mut String, shape: &[(Prefix, u64)]) -> Result<(), AllocError>
    ensures { OnOk result (string_bytes text.new ≡ string_bytes text.old ++ join_by shape_pair (44 ∷ []) shape.now) }
{
    if let Some((first, rest)) = shape.split_first() {
        push_pair(text, first)?;
        push_later_pairs(text, rest)?;
    }
    Ok(())
}

/// The text with the pairs behind it, each after a comma.
fn push_later_pairs(text: &mut String, shape: &[(Prefix, u64)]) -> Result<(), AllocError>
    ensures { OnOk result (string_bytes text.new ≡ string_bytes text.old ++ flat_map (λ pair. 44 ∷ shape_pair pair) shape.now) }
{
    for pair in shape {
        write!(text, ",")?;
        push_pair(text, pair)?;
    }
    Ok(())
}

/// The text with a prefix and its number of keys behind it.
fn push_pair(text: &mut String, pair: &(Prefix, u64)) -> Result<(), AllocError>
    ensures { OnOk result (string_bytes text.new ≡ string_bytes text.old ++ shape_pair pair.now) }
{
    let (prefix, keys) = pair;
    write!(text, "[\"{prefix}\",{keys}]")
}

/// The object that stands in place of all those of viewers.
pub fn viewers_refused(alloc: Global, fault: Refused) -> Result<String, AllocError>
    ensures { IfOk result (λ text. string_bytes text ≡ viewers_refused fault) }
{
    let rule = RuleMembers { rule: fault };
    format!(in alloc; "{{\"viewers\":\"refused\",{rule}}}\n")
}

/// How an object of a viewer begins.
pub fn view_heading(alloc: Global, viewer: u64, edition: u64) -> Result<String, AllocError>
    ensures { IfOk result (λ text. string_bytes text ≡ view_heading viewer edition) }
{
    format!(in alloc; "{{\"viewer\":{viewer},\"edition\":{edition},")
}
