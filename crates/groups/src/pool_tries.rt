//! The tries of the sets of a plan, made from groups of the sources.
ghost use Rattle.std.specs.Prelude.{◌≡◌, List, true, IfOk};
ghost use Rattle.cells.specs.Values.{RowValue};
ghost use Rattle.groups.specs.Partials.{StandsAt, StandsEach};
ghost use Rattle.groups.specs.Pools.{AreCounted, HaveFiner, IsPool, has_finer};

use crate::accumulators::Accumulators;
use crate::aggregation::Aggregation;
use crate::laying::trie_of;
use crate::pool::{SetBag, bag_from, bag_in, pool_of};
use cells::{Cell, KeyHash, Tuple};
use query::GroupSet;
use std::alloc::{AllocError, Global};
use trie::Trie;

/// The tries of the sets, in their order, for each list of rows that went into the sources.
pub fn tries_of<H: KeyHash<Cell> + KeyHash<Tuple>>(
    alloc: Global,
    sets: &[GroupSet],
    aggregations: &[Aggregation],
    sources: Vec<SetBag<H>>,
) -> Result<Vec<Trie<Tuple, Accumulators<H>, H>>, AllocError>
    requires can { AreCounted aggregations.now sources.items }
    requires finer { HaveFiner sources.items sets.now }
    ensures { (rows : List RowValue) → IsPool aggregations.now rows sources.items →
        IfOk result (λ v. StandsEach H.KeyHash-2.hash_of aggregations.now sets.now rows v.items) }
{
    let pool = pool_of(alloc, sets, sources)?;
    let mut tries = Vec::new(alloc);
    for set in sets {
        let trie = trie_by(alloc, set.columns.as_slice(), aggregations, pool.as_slice())?;
        tries.push(trie)?;
    }
    Ok(tries)
}

/// The trie of a set, from its groups in the pool. Where the pool has none, as of the empty set, they are made from
/// those of another set.
fn trie_by<H: KeyHash<Cell> + KeyHash<Tuple>>(
    alloc: Global,
    set: &[usize],
    aggregations: &[Aggregation],
    pool: &[SetBag<H>],
) -> Result<Trie<Tuple, Accumulators<H>, H>, AllocError>
    requires can { AreCounted aggregations.now pool.now }
    requires finer { has_finer pool.now set.now ≡ true }
    ensures { (rows : List RowValue) → IsPool aggregations.now rows pool.now →
        IfOk result (λ t. StandsAt H.KeyHash-2.hash_of aggregations.now set.now rows t) }
{
    if let Some(groups) = bag_in(pool, set) {
        return trie_of(alloc, groups, set, aggregations);
    }
    let groups = bag_from(alloc, set, pool)?;
    trie_of(alloc, &groups, set, aggregations)
}
