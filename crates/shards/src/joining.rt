//! Partial answers of different shards, put together.
ghost use Rattle.std.specs.Prelude.{◌≡◌, ◌++◌, IfErr, IfOk};
ghost use Rattle.script.specs.Givens.{Givens};
ghost use Rattle.shards.specs.Answers.{AreApart, AreOfOne, IsPartialAnswer, IsUnjoined, Sharding};

use crate::document::Document;
use crate::line::{lines_of, tolds_of};
use crate::numbers::in_both;
use cells::{Cell, KeyHash, Tuple};
use script::join_told;
use std::alloc::{AllocError, AllocFailed, Global};

/// Why partial answers are not joined.
#[derive(Clone, Copy, Debug, PartialEq, Eq, Drop)]
pub enum Unjoined {
    /// A growth was refused.
    OutOfMemory,
    /// They are of two scripts.
    OtherScript,
    /// The table of one is divided by keys, that of the other by parts.
    OtherDivision,
    /// They are of tables that do not have as many shards.
    OtherCount,
    /// Both have this shard.
    Twice { shard: u64 },
    /// What they tell of a line does not fit together, or there is no room for both.
    Unfit,
}

impl From<AllocError> for Unjoined {
    ghost use Rattle.std.specs.Prelude.{◌≡◌};
    ghost use Rattle.shards.specs.declared.joining.Unjoined.TheVariants.{OutOfMemory};

    ghost from_gives = { λ _ e. e ≡ OutOfMemory };

    fn from(_refused: AllocError) -> Unjoined {
        Unjoined::OutOfMemory
    }
}

impl<T: Drop> From<AllocFailed<T>> for Unjoined {
    ghost use Rattle.std.specs.Prelude.{◌≡◌};
    ghost use Rattle.shards.specs.declared.joining.Unjoined.TheVariants.{OutOfMemory};

    ghost from_gives = { λ _ e. e ≡ OutOfMemory };

    fn from(_refused: AllocFailed<T>) -> Unjoined {
        Unjoined::OutOfMemory
    }
}

/// The partial answer of the shards of both. The order in which more than two are joined does not count for what is written in
/// the end.
///
/// The first that holds: [`Unjoined::OtherScript`], [`Unjoined::OtherDivision`], [`Unjoined::OtherCount`],
/// [`Unjoined::Twice`] with the first shard of the first one that the second has, too; else [`Unjoined::Unfit`] or
/// [`Unjoined::OutOfMemory`].
pub fn join<H: KeyHash<Cell> + KeyHash<Tuple>>(
    alloc: Global,
    first: Document,
    second: Document,
) -> Result<Document, Unjoined>
    ensures told { (shard_of : Sharding) (givens : Givens) → IsPartialAnswer shard_of givens first → IsPartialAnswer shard_of givens second →
        IfOk result (IsPartialAnswer shard_of givens) }
    ensures script { IfOk result (λ it. it.script ≡ first.script) }
    ensures division { IfOk result (λ it. it.division ≡ first.division) }
    ensures count { IfOk result (λ it. it.count ≡ first.count) }
    ensures numbers { IfOk result (λ it. it.numbers ≡ first.numbers ++ second.numbers) }
    ensures one { IfOk result (λ it. AreOfOne first second) }
    ensures why { IfErr result (IsUnjoined first second) }
{
    if first.script.as_str() != second.script.as_str() {
        return Err(Unjoined::OtherScript);
    }
    if first.division != second.division {
        return Err(Unjoined::OtherDivision);
    }
    if first.count != second.count {
        return Err(Unjoined::OtherCount);
    }
    if let Some(shard) = in_both(first.numbers.as_slice(), second.numbers.as_slice()) {
        return Err(Unjoined::Twice { shard });
    }
    both::<H>(alloc, first, second)
}

/// The same, of the same script and of different shards of as many.
fn both<H: KeyHash<Cell> + KeyHash<Tuple>>(
    alloc: Global,
    first: Document,
    second: Document,
) -> Result<Document, Unjoined>
    requires script { first.script ≡ second.script }
    requires division { first.division ≡ second.division }
    requires count { first.count ≡ second.count }
    requires apart { AreApart first.numbers second.numbers }
    ensures told { (shard_of : Sharding) (givens : Givens) → IsPartialAnswer shard_of givens first → IsPartialAnswer shard_of givens second →
        IfOk result (IsPartialAnswer shard_of givens) }
    ensures script { IfOk result (λ it. it.script ≡ first.script) }
    ensures division { IfOk result (λ it. it.division ≡ first.division) }
    ensures count { IfOk result (λ it. it.count ≡ first.count) }
    ensures numbers { IfOk result (λ it. it.numbers ≡ first.numbers ++ second.numbers) }
    ensures one { IfOk result (λ it. AreOfOne first second) }
    ensures why { IfErr result (IsUnjoined first second) }
{
    let Document {
        script,
        division,
        count,
        mut numbers,
        lines,
    } = first;
    let Document {
        numbers: mut more,
        lines: others,
        ..
    } = second;
    let tolds = tolds_of(alloc, lines)?;
    let others = tolds_of(alloc, others)?;
    let Some(both) = join_told::<H>(alloc, script.as_bytes(), tolds, others)? else {
        return Err(Unjoined::Unfit);
    };
    numbers.append(&mut more)?;
    let lines = lines_of(alloc, both)?;
    Ok(Document {
        script,
        division,
        count,
        numbers,
        lines,
    })
}
