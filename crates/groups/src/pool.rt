//! Pools: the bags of several grouping sets over the same rows, the coarser ones made from the finer.
ghost use Rattle.std.specs.Prelude.{◌≡◌, ◌<◌, ◌≤◌, ℕ, List, true, IfOk, IfSome, length, position, slice_index_or};
ghost use Rattle.std.specs.Option.{is_some, option_copied};
ghost use Rattle.cells.specs.Values.{RowValue};
ghost use Rattle.groups.specs.Bags.{Covers};
ghost use Rattle.groups.specs.Pools.{Grows, HaveFiner, HaveSetsAbove, HaveSetsOf, IsPool, MayCoarsen, MayCoarsenAll, has_all, has_finer, has_set};
ghost use Rattle.groups.specs.declared.aggregation.Aggregation.{Aggregation};
ghost use Rattle.groups.specs.declared.pool.SetBag.{SetBag};

use crate::bag::Bag;
use crate::coarsening::coarsened;
use crate::set_columns::{has_all, indexes_in, most_columns};
use cells::{Cell, KeyHash};
use query::GroupSet;
use std::alloc::{AllocError, Global};

/// A grouping set and the bag of its groups: a source while rows are folded into it, and one of a pool behind the last row.
#[derive(Drop)]
pub struct SetBag<H: KeyHash<Cell>> {
    pub set: Vec<usize>,
    pub bag: Bag<H>,
}

/// The pool of all sets that have columns, each set once, made from the sources. Sets of more columns come first, so
/// that others can be made from their bags. From the bag of the empty set no other is made, so it is left out, unless it
/// is a source.
pub fn pool_of<H: KeyHash<Cell>>(
    alloc: Global,
    sets: &[GroupSet],
    sources: Vec<SetBag<H>>,
) -> Result<Vec<SetBag<H>>, AllocError>
    requires can { MayCoarsenAll sources.items }
    requires finer { HaveFiner sources.items sets.now }
    ensures grows { IfOk result (λ v. Grows sources.items v.items) }
    ensures there { IfOk result (λ v. HaveSetsAbove 0 v.items sets.now) }
{
    let mut pool = sources;
    let mut columns = most_columns(sets);
    while columns > 0 {
        add_bags(alloc, sets, columns, &mut pool)?;
        columns -= 1;
    }
    Ok(pool)
}

/// The bag of the set, if it is in the pool.
pub fn bag_in<'a, H: KeyHash<Cell>>(pool: &'a [SetBag<H>], set: &[usize]) -> Option<&'a Bag<H>>
    ensures covers { (aggregations : List Aggregation) (rows : List RowValue) → IsPool aggregations rows pool.now →
        IfSome (option_copied result) (λ b. Covers aggregations set.now rows b) }
    ensures there { is_some result ≡ has_set pool.now set.now }
{
    for set_bag in pool {
        if set_bag.set.as_slice() == set {
            return Some(&set_bag.bag);
        }
    }
    None
}

/// The bag of the set, made from the bag of fewest groups in the pool that will do.
pub fn bag_from<H: KeyHash<Cell>>(
    alloc: Global,
    set: &[usize],
    pool: &[SetBag<H>],
) -> Result<Bag<H>, AllocError>
    requires can { MayCoarsenAll pool.now }
    requires finer { has_finer pool.now set.now ≡ true }
    ensures { (aggregations : List Aggregation) (rows : List RowValue) → IsPool aggregations rows pool.now →
        IfOk result (λ b. Covers aggregations set.now rows b) }
{
    let index = fewest(pool, set);
    coarser_bag(alloc, &pool[index], set)
}

/// Adds the bags of the sets of so many columns to the pool.
fn add_bags<H: KeyHash<Cell>>(
    alloc: Global,
    sets: &[GroupSet],
    columns: usize,
    pool: &mut Vec<SetBag<H>>,
) -> Result<(), AllocError>
    requires can { MayCoarsenAll pool.old.items }
    requires finer { HaveFiner pool.old.items sets.now }
    ensures grows { IfOk result (λ _. Grows pool.old.items pool.new.items) }
    ensures there { IfOk result (λ _. HaveSetsOf columns pool.new.items sets.now) }
{
    for set in sets {
        if set.columns.len() == columns {
            add_bag(alloc, set.columns.as_slice(), pool)?;
        }
    }
    Ok(())
}

/// Adds the bag of a set to the pool, unless it is there.
fn add_bag<H: KeyHash<Cell>>(
    alloc: Global,
    set: &[usize],
    pool: &mut Vec<SetBag<H>>,
) -> Result<(), AllocError>
    requires can { MayCoarsenAll pool.old.items }
    requires finer { has_finer pool.old.items set.now ≡ true }
    ensures grows { IfOk result (λ _. Grows pool.old.items pool.new.items) }
    ensures there { IfOk result (λ _. has_set pool.new.items set.now ≡ true) }
{
    if bag_in(pool.as_slice(), set).is_some() {
        return Ok(());
    }
    let bag = bag_from(alloc, set, pool.as_slice())?;
    let set = Vec::from_slice(alloc, set)?;
    pool.push(SetBag { set, bag })?;
    Ok(())
}

/// The index in the pool of the bag of fewest groups from which that of the set can be made.
fn fewest<H: KeyHash<Cell>>(pool: &[SetBag<H>], set: &[usize]) -> usize
    requires { has_finer pool.now set.now ≡ true }
    ensures within { result < length pool.now }
    ensures finer { (d : SetBag H) → has_all (slice_index_or pool.now result d).set.items set.now ≡ true }
    ensures least { (d : SetBag H) (at : ℕ) → at < length pool.now → has_all (slice_index_or pool.now at d).set.items set.now ≡ true
        → length (slice_index_or pool.now result d).bag ≤ length (slice_index_or pool.now at d).bag }
{
    let mut index = first_finer(pool, set);
    let mut least = pool[index].bag.groups().len();
    for (i, finer) in pool.iter().enumerate() {
        let count = finer.bag.groups().len();
        if count < least {
            if has_all(finer.set.as_slice(), set) {
                index = i;
                least = count;
            }
        }
    }
    index
}

/// The first index in the pool of a bag from which that of the set can be made.
fn first_finer<H: KeyHash<Cell>>(pool: &[SetBag<H>], set: &[usize]) -> usize
    requires { has_finer pool.now set.now ≡ true }
    ensures within { result < length pool.now }
    ensures finer { (d : SetBag H) → has_all (slice_index_or pool.now result d).set.items set.now ≡ true }
{
    let Some(index) = index_of_finer(pool, set) else {
        unreachable!()
    };
    index
}

/// The first index in the pool of a bag from which that of the set can be made, if there is one.
fn index_of_finer<H: KeyHash<Cell>>(pool: &[SetBag<H>], set: &[usize]) -> Option<usize>
    ensures { result ≡ position (λ (f : SetBag H). has_all f.set.items set.now) pool.now }
{
    pool.iter()
        .position(|finer| has_all(finer.set.as_slice(), set))
}

/// The bag of the set from a finer one.
pub fn coarser_bag<H: KeyHash<Cell>>(
    alloc: Global,
    finer: &SetBag<H>,
    set: &[usize],
) -> Result<Bag<H>, AllocError>
    requires can { MayCoarsen finer.now }
    requires finer { has_all finer.now.set.items set.now ≡ true }
    ensures { (aggregations : List Aggregation) (rows : List RowValue) → Covers aggregations finer.now.set.items rows finer.now.bag →
        IfOk result (λ b. Covers aggregations set.now rows b) }
{
    let indexes = indexes_in(alloc, finer.set.as_slice(), set)?;
    coarsened(alloc, &finer.bag, indexes.as_slice())
}
