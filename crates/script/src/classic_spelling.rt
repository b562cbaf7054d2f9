//! What lines and viewers say in the classic form.
ghost use Rattle.std.specs.Prelude.{◌≡◌, ◌++◌, IfOk, OnOk, string_bytes};
ghost use Rattle.script.specs.ClassicSpelling.{heading, refusal, shape_body, shape_line, view_heading, viewers_refused};

use crate::fault::Fault;
use cells::Refused;
use std::alloc::{AllocError, Global};
use trie::Prefix;

/// The block of a refused line.
pub fn refusal(alloc: Global, number: u64, fault: Fault) -> Result<String, AllocError>
    ensures { IfOk result (λ text. string_bytes text ≡ refusal number fault) }
{
    format!(in alloc; "line {number} refused {fault}\n")
}

/// The first line of the block of a report or a shape.
pub fn heading(alloc: Global, number: u64, edition: u64) -> Result<String, AllocError>
    ensures { IfOk result (λ text. string_bytes text ≡ heading number edition) }
{
    format!(in alloc; "line {number} edition {edition}\n")
}

/// The text with a line for each prefix behind it.
pub fn push_shape(text: &mut String, shape: &[(Prefix, u64)]) -> Result<(), AllocError>
    ensures { OnOk result (string_bytes text.new ≡ string_bytes text.old ++ shape_body shape.now) }
{
    for line in shape {
        push_line(text, line)?;
    }
    Ok(())
}

/// The text with a prefix and its number of keys behind it.
fn push_line(text: &mut String, line: &(Prefix, u64)) -> Result<(), AllocError>
    ensures { OnOk result (string_bytes text.new ≡ string_bytes text.old ++ shape_line line.now) }
{
    let (prefix, keys) = line;
    write!(text, "{prefix} {keys}\n")
}

/// The line that stands in place of all blocks of viewers.
pub fn viewers_refused(alloc: Global, fault: Refused) -> Result<String, AllocError>
    ensures { IfOk result (λ text. string_bytes text ≡ viewers_refused fault) }
{
    let number = fault.number();
    format!(in alloc; "viewers refused {number}\n")
}

/// The first line of a viewer's block.
pub fn view_heading(alloc: Global, viewer: u64, edition: u64) -> Result<String, AllocError>
    ensures { IfOk result (λ text. string_bytes text ≡ view_heading viewer edition) }
{
    format!(in alloc; "viewer {viewer} edition {edition}\n")
}
