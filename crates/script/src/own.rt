//! A run over a shard of the table that has parts of its own: all of the shard's rows are in them, and no other shard's are.
ghost use Rattle.std.specs.Prelude.{◌≡◌, ◌<◌, ◌≤◌, ◌⊎◌, ◌↔◌, Bool, [], IfErr, IfNone, IfOk, IfSome, IsErrOf, length, map};
ghost use Rattle.std.specs.Str.Lines.{lines};
ghost use Rattle.cells.specs.declared.cell.Cell.{Cell};
ghost use Rattle.loader.specs.Shards.{takes, whole};
ghost use Rattle.script.specs.Givens.{Givens};
ghost use Rattle.script.specs.Limits.{part_limit, script_limit};
ghost use Rattle.script.specs.Own.{EndsOwn, HaveOwn, IsRefusedAt, NoneRefused, PutNoRows, Puts};
ghost use Rattle.script.specs.Telling.{IsLineOf};
ghost use Rattle.script.specs.Told.{AreTold, FitAll};

use crate::fault::Fault;
use crate::how::How;
use crate::limits::{MAX_PARTS, MAX_SCRIPT_BYTES};
use crate::lines::lines_of;
use crate::telling::{Untold, tell_here};
use crate::told::Told;
use crate::walk::{Doing, Walk};
use cells::{Cell, KeyHash, Tuple};
use loader::Shard;
use std::alloc::{AllocError, Global};

/// Why a run over parts of its own tells nothing.
#[derive(Clone, Copy, Debug, PartialEq, Eq, Drop)]
pub enum OwnUntold {
    /// What keeps a run over a shard of common parts from telling, too.
    Untold(Untold),
    /// The line, counted from 1, puts a row, which each shard would then have.
    Put { line: u64 },
    /// The line, counted from 1, loads parts that are refused for this, of which no other shard knows.
    Load { line: u64, fault: Fault },
}

impl From<Untold> for OwnUntold {
    ghost use Rattle.std.specs.Prelude.{◌≡◌};
    ghost use Rattle.script.specs.declared.own.OwnUntold.TheVariants as own;

    ghost from_gives = { λ why e. e ≡ own.Untold why };

    fn from(why: Untold) -> OwnUntold {
        OwnUntold::Untold(why)
    }
}

impl From<AllocError> for OwnUntold {
    ghost use Rattle.std.specs.Prelude.{◌≡◌};
    ghost use Rattle.script.specs.declared.own.OwnUntold.TheVariants as own;
    ghost use Rattle.script.specs.declared.telling.Untold.TheVariants.{OutOfMemory};

    ghost from_gives = { λ _ e. e ≡ own.Untold OutOfMemory };

    fn from(_refused: AllocError) -> OwnUntold {
        OwnUntold::Untold(Untold::OutOfMemory)
    }
}

/// What a run over a shard that has parts of its own tells of a script, as [`tell_here`] does of a shard of common parts. Each part
/// has those rows of the part of its number in the run over all rows that belong to the shard; so no key is in the parts of two
/// shards. What a run over all shards' rows would refuse for all of them together, as too many bytes of a load, none can see.
///
/// In this order: [`Untold::TooMuch`] exactly where the script has more than 1,048,576 bytes, or there are more than 64 parts;
/// [`OwnUntold::Put`] with the first line that puts a row; the other errors of [`tell_here`]; [`OwnUntold::Load`] with the first load
/// that is refused, for its listing or for a record. [`Untold::OutOfMemory`] may come at any time.
pub fn tell_own_here<H: KeyHash<Cell> + KeyHash<Tuple>>(
    alloc: Global,
    script: &[u8],
    parts: &[Vec<u8>],
    how: &How,
) -> Result<Vec<Told>, OwnUntold>
    ensures told { (givens : Givens) (takes : Cell → Bool) →
        HaveOwn givens takes (map (λ p. p.items) parts.now) [] (lines script.now) → FitAll givens [] (lines script.now) →
        IfOk result (λ tolds. AreTold givens takes [] (lines script.now) tolds.items) }
    ensures loaded { IfOk result (λ tolds. NoneRefused tolds.items) }
    ensures much { IsErrOf result (OwnUntold.Untold Untold.TooMuch) ↔ ((script_limit < length script.now) ⊎ (part_limit < length parts.now)) }
    ensures ends { IfErr result (EndsOwn (takes H.KeyHash-1.hash_of whole) (map (λ p. p.items) parts.now) how.now.rows script.now) }
{
    if script.len() > MAX_SCRIPT_BYTES {
        return Err(OwnUntold::Untold(Untold::TooMuch));
    }
    if parts.len() > MAX_PARTS {
        return Err(OwnUntold::Untold(Untold::TooMuch));
    }
    match first_put(alloc, script)? {
        Some(line) => Err(OwnUntold::Put { line }),
        None => tell_parts::<H>(alloc, script, parts, how),
    }
}

/// The same of a script that puts no row.
fn tell_parts<H: KeyHash<Cell> + KeyHash<Tuple>>(
    alloc: Global,
    script: &[u8],
    parts: &[Vec<u8>],
    how: &How,
) -> Result<Vec<Told>, OwnUntold>
    requires script { length script.now ≤ script_limit }
    requires parts { length parts.now ≤ part_limit }
    requires rows { (givens : Givens) → PutNoRows givens [] (lines script.now) }
    ensures told { (givens : Givens) (takes : Cell → Bool) →
        HaveOwn givens takes (map (λ p. p.items) parts.now) [] (lines script.now) → FitAll givens [] (lines script.now) →
        IfOk result (λ tolds. AreTold givens takes [] (lines script.now) tolds.items) }
    ensures loaded { IfOk result (λ tolds. NoneRefused tolds.items) }
    ensures little { result ≡ Err (OwnUntold.Untold Untold.TooMuch) → ⊥ }
    ensures ends { IfErr result (EndsOwn (takes H.KeyHash-1.hash_of whole) (map (λ p. p.items) parts.now) how.now.rows script.now) }
{
    let tolds = tell_here::<H>(alloc, script, parts, how, &Shard::whole())?;
    match first_refused(tolds.as_slice()) {
        Some((line, fault)) => Err(OwnUntold::Load { line, fault }),
        None => Ok(tolds),
    }
}

/// The first line that puts a row, counted from 1.
fn first_put(alloc: Global, script: &[u8]) -> Result<Option<u64>, AllocError>
    requires { length script.now ≤ script_limit }
    ensures none { IfOk result (λ found. IfNone found ((givens : Givens) → PutNoRows givens [] (lines script.now))) }
    ensures some { IfOk result (λ found. IfSome found (IsLineOf Puts (lines script.now))) }
{
    let mut walk = Walk::new();
    for line in lines_of(script) {
        let doing = walk.go_over(alloc, line)?;
        if let Doing::Puts = doing {
            return Ok(Some(walk.number));
        }
    }
    Ok(None)
}

/// The first line of which is told that it is refused, counted from 1, and why.
fn first_refused(tolds: &[Told]) -> Option<(u64, Fault)>
    ensures none { IfNone result (NoneRefused tolds.now) }
    ensures some { IfSome result (λ found. IsRefusedAt tolds.now found.0 found.1) }
{
    let mut line = 0;
    for told in tolds {
        line += 1;
        if let Told::Refused(fault) = told {
            return Some((line, *fault));
        }
    }
    None
}
