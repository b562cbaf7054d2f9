//! Shards of a table.
ghost use Rattle.std.specs.Prelude.{◌≡◌, ◌↔◌, ◌≤◌, IfSome, IsSome};
ghost use Rattle.loader.specs.Shards.{IsNumberOf, takes, whole};

use cells::{Cell, KeyHash};
use std::marker::Model;

/// A hash divided by this is its upper half. By that half a shard takes keys, since the lower digits decide the shape of the trie.
const UPPER: u64 = 4_294_967_296;

/// One of the shards of a table: the rows whose keys belong to it by their hashes. Shards are numbered from 1.
#[derive(Clone, Copy, Debug, PartialEq, Eq, Drop)]
pub struct Shard {
    number: u64,
    count: u64,
}

impl Model for Shard {
    ghost use Rattle.loader.specs.Shards.{IsNumberOf, ShardValue};

    ghost Value = { ShardValue };

    ghost view = { λ s. record { number = s.number; count = s.count } };

    ghost invariant = { λ s. IsNumberOf s.number s.count };

    ghost inverse = { λ s. record { number = s.number; count = s.count } };
}

impl Shard {
    /// The one shard of one, which takes every row.
    pub fn whole() -> Shard
        ensures { result ≡ whole }
    {
        Shard {
            number: 1,
            count: 1,
        }
    }

    /// The shard of this number, of so many. None exactly where the number is 0 or above their count.
    pub fn new(number: u64, count: u64) -> Option<Shard>
        ensures range { IsSome result ↔ IsNumberOf number count }
        ensures kept { IfSome result (λ shard. shard ≡ record { number = number; count = count }) }
    {
        if number < 1 || number > count {
            return None;
        }
        Some(Shard { number, count })
    }

    /// The number of the shard, from 1 on.
    pub fn number(&self) -> u64
        ensures number { result ≡ self.now.number }
        ensures least { 1 ≤ result }
        ensures most { result ≤ self.now.count }
    {
        self.number
    }

    /// How many shards there are.
    pub fn count(&self) -> u64
        ensures count { result ≡ self.now.count }
        ensures least { 1 ≤ result }
    {
        self.count
    }

    /// Whether rows of this key belong to it. The one shard of one asks for no hash.
    pub fn takes<H: KeyHash<Cell>>(&self, key: &Cell) -> bool
        ensures { result ≡ takes H.hash_of self.now key.now }
    {
        if self.count == 1 {
            return true;
        }
        H::hash(key) / UPPER % self.count + 1 == self.number
    }
}
