//! The output of a script, of which all shards have told.
ghost use Rattle.std.specs.Prelude.{◌≡◌, ◌≤◌, [], ℕ, IfErr, IfOk, length};
ghost use Rattle.std.specs.Str.Lines.{lines};
ghost use Rattle.cells.specs.declared.cell.Cell.{Cell};
ghost use Rattle.script.specs.Givens.{Givens};
ghost use Rattle.script.specs.Limits.{part_limit};
ghost use Rattle.script.specs.Output.{IsOutput};
ghost use Rattle.script.specs.Told.{FitAll};
ghost use Rattle.shards.specs.Answers.{IsComplete, IsIncomplete, IsPartialAnswer, Sharding};

use crate::document::Document;
use crate::line::tolds_of;
use crate::numbers::missing;
use cells::{Cell, KeyHash, Tuple};
use script::{MAX_SCRIPT_BYTES, Manner, output_of_told};
use std::alloc::Global;

/// Why a partial answer is no output.
#[derive(Clone, Copy, Debug, PartialEq, Eq, Drop)]
pub enum Incomplete {
    /// A growth was refused.
    OutOfMemory,
    /// The script has more than 1,048,576 bytes.
    TooLong,
    /// This shard has not told.
    Missing { shard: u64 },
    /// What is told of a line does not fit the script, or it is of no shards.
    Unfit,
}

/// The output of the script of a partial answer that all shards have given, told in this manner: what one run over all rows would
/// write, where no line of it is refused for want of room for its rows. No line asks for a shape.
///
/// The first that holds: [`Incomplete::TooLong`], [`Incomplete::Missing`] with the least number that is missing; else
/// [`Incomplete::Unfit`] or [`Incomplete::OutOfMemory`].
pub fn output<H: KeyHash<Cell> + KeyHash<Tuple>>(
    alloc: Global,
    answer: Document,
    manner: &Manner,
) -> Result<Vec<u8>, Incomplete>
    ensures output { (hash : Cell → ℕ) (shard_of : Sharding) (givens : Givens) → givens.manner ≡ manner.now →
        length givens.parts ≤ part_limit → FitAll givens [] (lines answer.script) →
        IsPartialAnswer shard_of givens answer → IfOk result (λ text. IsOutput hash givens answer.script text.items) }
    ensures all { IfOk result (λ text. IsComplete answer) }
    ensures why { IfErr result (IsIncomplete answer) }
{
    if answer.script.len() > MAX_SCRIPT_BYTES {
        return Err(Incomplete::TooLong);
    }
    if answer.count == 0 {
        return Err(Incomplete::Unfit);
    }
    if let Some(shard) = missing(answer.numbers.as_slice(), answer.count) {
        return Err(Incomplete::Missing { shard });
    }
    let Document { script, lines, .. } = answer;
    let Ok(tolds) = tolds_of(alloc, lines) else {
        return Err(Incomplete::OutOfMemory);
    };
    match output_of_told::<H>(alloc, script.as_bytes(), tolds, manner) {
        Ok(Some(text)) => Ok(text),
        Ok(None) => Err(Incomplete::Unfit),
        Err(_) => Err(Incomplete::OutOfMemory),
    }
}
