//! Rows spread over shares by the hashes of their keys.
ghost use Rattle.std.specs.Prelude.{◌≡◌, ◌<◌, ◌-◌, ◌^◌, ◌++◌, ◌∷◌, [], ℕ, IfOk, length, map, min, replicate, sum_by};
ghost use Rattle.cells.specs.Tables.{keyed_rows};
ghost use Rattle.cells.specs.declared.cell.Cell.{Cell};
ghost use Rattle.loader.specs.Shards.{taken, takes};
ghost use Rattle.loader.specs.Shares.{AreSpread, Pairs, in_shares, lists, share_count, share_of};

use crate::shard::Shard;
use cells::{Cell, KeyHash, Row};
use std::alloc::{AllocError, Global};

/// How many shares there are: as many as a hash has first digits, so that tries of two shares have no branch in common but
/// their roots.
pub(crate) const SHARES: usize = 32;

/// Rows, each beside its key.
pub(crate) type KeyedRows = Vec<(Cell, Row)>;

/// The rows of a share, in a list for each piece of a part that has been read.
pub(crate) type Share = Vec<KeyedRows>;

/// The rows of a piece, spread over the shares. The hash of its key alone says in which share a row is, so all rows of a key
/// are in one of them, in the order in which they were put.
#[derive(Drop)]
pub(crate) struct Spread {
    pub shares: Vec<KeyedRows>,
}

impl Spread {
    /// No rows.
    pub fn new(alloc: Global) -> Result<Spread, AllocError>
        ensures { IfOk result (λ none. (hash_of : Cell → ℕ) → AreSpread hash_of [] (lists none.shares.items)) }
    {
        Ok(Spread {
            shares: empty_lists(alloc)?,
        })
    }

    /// Puts a row behind those that are there.
    pub fn push<H: KeyHash<Cell>>(&mut self, key: Cell, row: Row) -> Result<(), AllocError>
        requires { length self.old.shares.items ≡ share_count }
        ensures { (pairs : Pairs) → AreSpread H.hash_of pairs (lists self.old.shares.items) →
            IfOk result (λ _. AreSpread H.hash_of (pairs ++ (key, row) ∷ []) (lists self.new.shares.items)) }
    {
        let share = share_of(H::hash(&key));
        self.shares[share].push((key, row))?;
        Ok(())
    }

    /// Puts a row behind those that are there, if the shard takes it. Any other is let go at once, so that memory never
    /// holds more than the rows of the shard.
    pub fn put_taken<H: KeyHash<Cell>>(
        &mut self,
        alloc: Global,
        shard: &Shard,
        row: Row,
    ) -> Result<(), AllocError>
        requires { length self.old.shares.items ≡ share_count }
        ensures { (pairs : Pairs) → AreSpread H.hash_of pairs (lists self.old.shares.items) →
            IfOk result (λ _. AreSpread H.hash_of (pairs ++ keyed_rows (taken (takes H.hash_of shard.now) (row ∷ []))) (lists self.new.shares.items)) }
    {
        let key = row.key().owned(alloc)?;
        if !shard.takes::<H>(&key) {
            return Ok(());
        }
        self.push::<H>(key, row)
    }
}

/// The rows of pieces, spread over the shares. Those of each piece stay in the lists into which they were read.
#[derive(Drop)]
pub(crate) struct Shares {
    pub shares: Vec<Share>,
}

impl Shares {
    /// No rows.
    pub fn new(alloc: Global) -> Result<Shares, AllocError>
        ensures { IfOk result (λ none. (hash_of : Cell → ℕ) → AreSpread hash_of [] (in_shares none.shares.items)) }
    {
        Ok(Shares {
            shares: empty_lists(alloc)?,
        })
    }

    /// Puts the rows of a piece behind those that are there.
    pub fn append(&mut self, part: Spread) -> Result<(), AllocError>
        requires old { length self.old.shares.items ≡ share_count }
        requires part { length part.shares.items ≡ share_count }
        ensures { (hash_of : Cell → ℕ) (pairs behind : Pairs) →
            AreSpread hash_of pairs (in_shares self.old.shares.items) → AreSpread hash_of behind (lists part.shares.items) →
            IfOk result (λ _. AreSpread hash_of (pairs ++ behind) (in_shares self.new.shares.items)) }
    {
        let mut share = 0;
        for rows in part.shares {
            self.shares[share].push(rows)?;
            share += 1;
        }
        Ok(())
    }
}

/// An empty list for each share.
fn empty_lists<T: Drop>(alloc: Global) -> Result<Vec<Vec<T>>, AllocError>
    ensures { IfOk result (λ all. map (λ list. list.items) all.items ≡ replicate share_count []) }
{
    let mut all = Vec::with_capacity(alloc, SHARES)?;
    for _ in 0..SHARES {
        all.push(Vec::new(alloc))?;
    }
    Ok(all)
}

/// The share of a hash.
fn share_of(hash: u64) -> usize
    ensures share { result ≡ share_of hash }
    ensures below { result < share_count }
{
    (hash % SHARES as u64) as usize
}
