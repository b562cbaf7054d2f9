//! The partial answer of one shard.
ghost use Rattle.std.specs.Prelude.{◌≡◌, ◌<◌, ◌≤◌, ◌⊎◌, ◌↔◌, ◌∷◌, [], IfErr, IfOk, IsErrOf, length, map};
ghost use Rattle.std.specs.Str.Lines.{lines};
ghost use Rattle.loader.specs.Shards.{shard_of, takes, whole};
ghost use Rattle.script.specs.Givens.{Givens};
ghost use Rattle.script.specs.Limits.{part_limit, script_limit};
ghost use Rattle.script.specs.Own.{EndsOwn};
ghost use Rattle.script.specs.Telling.{EndsScript};
ghost use Rattle.script.specs.Told.{FitAll};
ghost use Rattle.shards.specs.Answers.{HasOwnParts, IsPartialAnswer, Sharding};
ghost use Rattle.shards.specs.Documents.{line_value};

use crate::division::Division;
use crate::document::Document;
use crate::line::lines_of;
use cells::{Cell, KeyHash, Tuple};
use loader::Shard;
use script::{How, OwnUntold, Told, Untold, tell_here, tell_own_here};
use std::alloc::{AllocError, Global};

/// The partial answer of a shard of a table that is divided by keys: what the script says over the rows of the shard alone. It is
/// made in the thread that calls, with as much memory as these rows take.
///
/// The errors are those of [`tell_here`]. No partial answer tells where a line of the script would leave more rows of the shard than
/// `how` says; how many a run over all rows may have is said where answers are joined.
pub fn tell<H: KeyHash<Cell> + KeyHash<Tuple>>(
    alloc: Global,
    script: &str,
    parts: &[Vec<u8>],
    how: &How,
    shard: &Shard,
) -> Result<Document, Untold>
    ensures told { (givens : Givens) → givens.parts ≡ map (λ p. p.items) parts.now → IfOk result (λ it. FitAll givens [] (lines script.now) →
        IsPartialAnswer (shard_of H.KeyHash-1.hash_of) givens it) }
    ensures script { IfOk result (λ it. it.script ≡ script.now) }
    ensures division { IfOk result (λ it. it.division ≡ Division.Keys) }
    ensures count { IfOk result (λ it. it.count ≡ shard.now.count) }
    ensures numbers { IfOk result (λ it. it.numbers ≡ shard.now.number ∷ []) }
    ensures much { IsErrOf result Untold.TooMuch ↔ ((script_limit < length script.now) ⊎ (part_limit < length parts.now)) }
    ensures ends { IfErr result (EndsScript (takes H.KeyHash-1.hash_of shard.now) (map (λ p. p.items) parts.now) how.now.rows script.now) }
{
    match tell_here::<H>(alloc, script.as_bytes(), parts, how, shard) {
        Ok(tolds) => match document_of(alloc, script, Division::Keys, shard, tolds) {
            Ok(document) => Ok(document),
            Err(_) => Err(Untold::OutOfMemory),
        },
        Err(why) => Err(why),
    }
}

/// The partial answer of a shard of a table that is divided by parts: the shard has all rows of these parts, and no other shard has
/// a row of their keys. Each part has those rows of the part of its number in the run over all rows that belong to the shard.
///
/// The errors are those of [`tell_own_here`], and all else is as with [`tell`].
pub fn tell_own<H: KeyHash<Cell> + KeyHash<Tuple>>(
    alloc: Global,
    script: &str,
    parts: &[Vec<u8>],
    how: &How,
    shard: &Shard,
) -> Result<Document, OwnUntold>
    ensures told { (shard_of : Sharding) (givens : Givens) → HasOwnParts shard_of givens shard.now script.now
        (map (λ p. p.items) parts.now) → IfOk result (λ it. FitAll givens [] (lines script.now) →
        IsPartialAnswer shard_of givens it) }
    ensures script { IfOk result (λ it. it.script ≡ script.now) }
    ensures division { IfOk result (λ it. it.division ≡ Division.Parts) }
    ensures count { IfOk result (λ it. it.count ≡ shard.now.count) }
    ensures numbers { IfOk result (λ it. it.numbers ≡ shard.now.number ∷ []) }
    ensures much { IsErrOf result (OwnUntold.Untold Untold.TooMuch) ↔ ((script_limit < length script.now) ⊎ (part_limit < length parts.now)) }
    ensures ends { IfErr result (EndsOwn (takes H.KeyHash-1.hash_of whole) (map (λ p. p.items) parts.now) how.now.rows script.now) }
{
    match tell_own_here::<H>(alloc, script.as_bytes(), parts, how) {
        Ok(tolds) => match document_of(alloc, script, Division::Parts, shard, tolds) {
            Ok(document) => Ok(document),
            Err(_) => Err(OwnUntold::Untold(Untold::OutOfMemory)),
        },
        Err(why) => Err(why),
    }
}

/// What one shard tells, as a partial answer.
fn document_of(
    alloc: Global,
    script: &str,
    division: Division,
    shard: &Shard,
    tolds: Vec<Told>,
) -> Result<Document, AllocError>
    ensures is { IfOk result (λ it. it ≡ record {
      script = script.now;
      division = division;
      count = shard.now.count;
      numbers = shard.now.number ∷ [];
      lines = map line_value tolds.items;
    }) }
    ensures some { IfOk result (λ it. 1 ≤ shard.now.count) }
{
    let script = String::from_str(alloc, script)?;
    let mut numbers = Vec::with_capacity(alloc, 1)?;
    numbers.push(shard.number())?;
    let lines = lines_of(alloc, tolds)?;
    Ok(Document {
        script,
        division,
        count: shard.count(),
        numbers,
        lines,
    })
}
