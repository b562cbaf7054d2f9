//! The output of a script, for programs in C and in what speaks to C: one function that runs in the thread that calls. Its header
//! is `examples/embed/olap_core.h`.
#![tactic(auto)]

ghost use Rattle.std.specs.Prelude.{◌≡◌, MatchResult};
ghost use Rattle.olap_core.specs.Outputs.{Answers, IsFault, IsOutputOf};

mod choosing;
mod fault;
mod handing;
mod parts;

use crate::choosing::{form_numbered, how_for};
use crate::fault::Fault;
use crate::handing::hand_out;
use crate::parts::parts_of;
use cells::Fnv;
use script::{Manner, output_here};
use std::alloc::Global;

/// Writes the output of a script to the front of `out`, and its length to `length`. The answer is 0, or says why nothing was
/// written:
///
/// - 1: the output is longer than `out`. `length` is how long it is, so that the caller may come again.
/// - 2: no form has the number `form`; 0 is classic, 1 CSV, 2 JSON, and 3 a table.
/// - 3: `rows`, the most rows of the draft, is not 1 to 4,294,967,296.
/// - 4: `lengths` are not those of parts that lie one after another in `parts` and are all of it.
/// - 5: a growth was refused.
///
/// Where it is no 0, `out` stays as it is, and so does `length` but for 1. The script, its lines and parts, and what they write are
/// those of `olap run`. Nothing outlives the call.
#[unsafe(no_mangle)]
pub extern "C" fn olap_output(
    alloc: Global,
    form: u32,
    rows: u64,
    script: &[u8],
    parts: &[u8],
    lengths: &[usize],
    out: &mut [u8],
    length: &mut usize,
) -> u32
    ensures { Answers form rows script.now parts.now lengths.now out.old out.new length.old length.new result }
{
    match output(alloc, form, rows, script, parts, lengths) {
        Ok(text) => hand_out(text.as_slice(), out, length),
        Err(fault) => fault.number(),
    }
}

/// The output of the script, or why there is none.
fn output(
    alloc: Global,
    form: u32,
    rows: u64,
    script: &[u8],
    parts: &[u8],
    lengths: &[usize],
) -> Result<Vec<u8>, Fault>
    ensures { MatchResult result (λ text. IsOutputOf form rows script.now parts.now lengths.now text.items) (IsFault form rows parts.now lengths.now) }
{
    let form = form_numbered(form)?;
    let how = how_for(rows)?;
    let parts = parts_of(alloc, parts, lengths)?;
    let manner = Manner::of(alloc, form);
    let text = output_here::<Fnv>(alloc, script, parts.as_slice(), &how, &manner)?;
    Ok(text)
}
