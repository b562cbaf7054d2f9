//! Tries of groups, made of the groups that rows were folded into.
ghost use Rattle.std.specs.Prelude.{◌≡◌, ◌+◌, ◌<◌, ◌^◌, List, [], Some, IfOk, IfSome, length};
ghost use Rattle.std.specs.Option.{option_copied};
ghost use Rattle.cells.specs.Values.{RowValue};
ghost use Rattle.groups.specs.Accumulators.{AllFit, both};
ghost use Rattle.groups.specs.Bags.{Covers, IsCounted};
ghost use Rattle.groups.specs.Laying.{AreLaidOnce, CanMeet, IsLaid, Lays, found};
ghost use Rattle.groups.specs.Partials.{StandsAt};

use crate::accumulators::Accumulators;
use crate::aggregation::Aggregation;
use crate::bag::Bag;
use cells::{Cell, KeyHash, Tuple};
use std::alloc::{AllocError, Global};
use trie::{Ticks, Trie, entries_are_a_map};

/// The trie of no rows: for the empty set its one tuple is there from the start.
fn start<H: KeyHash<Cell> + KeyHash<Tuple>>(
    alloc: Global,
    set: &[usize],
    aggregations: &[Aggregation],
) -> Result<Trie<Tuple, Accumulators<H>, H>, AllocError>
    ensures { IfOk result (λ t. IsLaid H.KeyHash-2.hash_of aggregations.now set.now [] t) }
{
    let nothing = Trie::empty();
    if !set.is_empty() {
        return Ok(nothing);
    }
    let accumulators = Accumulators::empty(alloc, aggregations)?;
    with_group(alloc, &nothing, Tuple::new(Vec::new(alloc)), accumulators)
}

/// The trie of the groups of a bag, where several may have one tuple: for each list of rows that went into the bag it
/// stands for them.
pub fn trie_of<H: KeyHash<Cell> + KeyHash<Tuple>>(
    alloc: Global,
    bag: &Bag<H>,
    set: &[usize],
    aggregations: &[Aggregation],
) -> Result<Trie<Tuple, Accumulators<H>, H>, AllocError>
    requires { IsCounted aggregations.now set.now bag.now }
    ensures { (rows : List RowValue) → Covers aggregations.now set.now rows bag.now →
        IfOk result (λ t. StandsAt H.KeyHash-2.hash_of aggregations.now set.now rows t) }
{
    laid(alloc, bag.groups(), set, aggregations)
}

/// The trie of the groups, laid over the start one after another.
fn laid<H: KeyHash<Cell> + KeyHash<Tuple>>(
    alloc: Global,
    groups: &[(Tuple, Accumulators<H>)],
    set: &[usize],
    aggregations: &[Aggregation],
) -> Result<Trie<Tuple, Accumulators<H>, H>, AllocError>
    requires meet { CanMeet aggregations.now set.now groups.now }
    requires few { length groups.now < 2 ^ 63 }
    ensures { IfOk result (λ t. IsLaid H.KeyHash-2.hash_of aggregations.now set.now groups.now t) }
{
    if !set.is_empty() {
        if let Some(trie) = made_at_once(alloc, groups)? {
            return Ok(trie);
        }
    }
    laid_in_turn(alloc, groups, set, aggregations)
}

/// The same, group by group, where several may have one tuple.
fn laid_in_turn<H: KeyHash<Cell> + KeyHash<Tuple>>(
    alloc: Global,
    groups: &[(Tuple, Accumulators<H>)],
    set: &[usize],
    aggregations: &[Aggregation],
) -> Result<Trie<Tuple, Accumulators<H>, H>, AllocError>
    requires meet { CanMeet aggregations.now set.now groups.now }
    requires few { length groups.now < 2 ^ 63 }
    ensures { IfOk result (λ t. IsLaid H.KeyHash-2.hash_of aggregations.now set.now groups.now t) }
{
    let mut trie = start(alloc, set, aggregations)?;
    for group in groups {
        trie = with_group(alloc, &trie, group.0.clone()?, group.1.clone()?)?;
    }
    Ok(trie)
}

/// The trie of groups of which no two have one tuple; None where two have.
fn made_at_once<H: KeyHash<Cell> + KeyHash<Tuple>>(
    alloc: Global,
    groups: &[(Tuple, Accumulators<H>)],
) -> Result<Option<Trie<Tuple, Accumulators<H>, H>>, AllocError>
    requires few { length groups.now < 2 ^ 63 }
    ensures { IfOk result (λ made. IfSome made (AreLaidOnce H.KeyHash-2.hash_of groups.now)) }
{
    // These do nothing: they are the trie's laws, by which as many entries as groups are those of as many tuples.
    entries_are_a_map::<Tuple, Accumulators<H>, H>();
    let pairs = copies(alloc, groups)?;
    let trie: Trie<Tuple, Accumulators<H>, H> = Trie::from_pairs(alloc, pairs)?;
    trie.keys_rise();
    if trie.len() < groups.len() as u64 {
        return Ok(None);
    }
    Ok(Some(trie))
}

/// Copies of the groups.
fn copies<H: KeyHash<Cell>>(
    alloc: Global,
    groups: &[(Tuple, Accumulators<H>)],
) -> Result<Vec<(Tuple, Accumulators<H>)>, AllocError>
    ensures { IfOk result (λ v. v.items ≡ groups.now) }
{
    let mut all = Vec::with_capacity(alloc, groups.len())?;
    for group in groups {
        let tuple = group.0.clone()?;
        all.push((tuple, group.1.clone()?))?;
    }
    Ok(all)
}

/// The trie with a group more. The call of `entries_are_a_map` does nothing: it is the trie's law.
fn with_group<H: KeyHash<Cell> + KeyHash<Tuple>>(
    alloc: Global,
    trie: &Trie<Tuple, Accumulators<H>, H>,
    tuple: Tuple,
    accumulators: Accumulators<H>,
) -> Result<Trie<Tuple, Accumulators<H>, H>, AllocError>
    requires room { length trie.now + 1 < 2 ^ 64 }
    requires fit { IfSome (found H.KeyHash-2.hash_of trie.now tuple) (λ old. AllFit old accumulators) }
    ensures { IfOk result (λ t. Lays H.KeyHash-2.hash_of tuple accumulators trie.now t) }
{
    entries_are_a_map::<Tuple, Accumulators<H>, H>();
    let sum = together(alloc, trie.get(&tuple), accumulators)?;
    trie.put(alloc, tuple, sum, &mut Ticks::new())
}

/// The accumulators of a tuple, with new ones.
fn together<H: KeyHash<Cell>>(
    alloc: Global,
    old: Option<&Accumulators<H>>,
    new: Accumulators<H>,
) -> Result<Accumulators<H>, AllocError>
    requires { IfSome (option_copied old) (λ o. AllFit o new) }
    ensures { IfOk result (λ a. Some a ≡ both (option_copied old.entry) (Some new)) }
{
    match old {
        Some(old) => old.join(alloc, &new),
        None => Ok(new),
    }
}
