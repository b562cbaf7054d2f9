//! Putting two maps together.
ghost use Rattle.std.specs.Prelude.{◌+◌, ◌<◌, ◌≤◌, IfOk, None, get_or, length};
ghost use Rattle.std.specs.Map.{keys_of};
ghost use Rattle.trie.specs.Entries.{IsRising};
ghost use Rattle.trie.specs.Holding.{held_at, pairs_of, seen_in};
ghost use Rattle.trie.specs.Merging.{AreBoth, CanBlend, ClonesEqual, CountsBoth, HasBucketOfBoth, IsBucketOfBoth, IsNextOfOne, IsNextOrEnd, LeafMeets, Meet, Merges};
ghost use Rattle.trie.specs.Dense.{IsDense, slots_in};
ghost use Rattle.trie.specs.Digits.{slot_count};
ghost use Rattle.trie.specs.Nodes.{node_of};

use crate::beside::Beside;
use crate::blend::Blend;
use crate::both::{blended_pair, pair_of_both};
use crate::digits::{Bitmap, HashPrefix, SLOTS};
use crate::get::get_at;
use crate::meeting::{Meeting, how_they_meet};
use crate::node::{
    Inner, Node, Seen, Slot, Unmade, branch_of, child_at, either_has, grown, make, room_for, shared,
};
use crate::put::put_at;
use crate::ticks::Ticks;
use cells::KeyHash;
use std::alloc::{AllocError, Global};
use std::cmp::Ordering;
use std::sync::Arc;

/// The first entry of two rising lists together, and what is left of the first and of the second.
type Next<'a, K, V> = (Arc<(K, V)>, &'a [Arc<(K, V)>], &'a [Arc<(K, V)>]);

/// The entry, with one owner more, and what is left of both lists.
fn next_of_one<'a, K: Drop, V: Drop>(
    pair: &Arc<(K, V)>,
    first: &'a [Arc<(K, V)>],
    second: &'a [Arc<(K, V)>],
) -> Result<Option<Next<'a, K, V>>, AllocError>
    ensures { IfOk result (IsNextOfOne pair.now.value first.now second.now) }
{
    let pair = pair.clone()?;
    Ok(Some((pair, first, second)))
}

/// The first entry of two rising lists together, or none where both have ended.
fn next_of_both<'a, K: Ord + Clone + Drop, V: Drop, H: KeyHash<K>, B: Blend<V>>(
    alloc: Global,
    first: &'a [Arc<(K, V)>],
    second: &'a [Arc<(K, V)>],
    blend: &B,
) -> Result<Option<Next<'a, K, V>>, AllocError>
    requires clones { ClonesEqual K.is_clone }
    requires first_rises { IsRising K.cmp (keys_of (pairs_of first.now)) }
    requires second_rises { IsRising K.cmp (keys_of (pairs_of second.now)) }
    requires can { CanBlend K.cmp (B.asks blend.now) (pairs_of first.now) (pairs_of second.now) }
    ensures { IfOk result (IsNextOrEnd H.hash_of K.cmp (B.asks blend.now) (B.blend_of blend.now) (pairs_of first.now) (pairs_of second.now)) }
{
    let Some((old, older)) = first.split_first() else {
        let Some((new, newer)) = second.split_first() else {
            return Ok(None);
        };
        return next_of_one(new, first, newer);
    };
    let Some((new, newer)) = second.split_first() else {
        return next_of_one(old, older, second);
    };
    match old.0.cmp(&new.0) {
        Ordering::Less => next_of_one(old, older, second),
        Ordering::Equal => {
            let pair = blended_pair(alloc, blend, old, new)?;
            Ok(Some((pair, older, newer)))
        }
        Ordering::Greater => next_of_one(new, first, newer),
    }
}

/// The entries of two buckets together, in one pass over both.
fn merged_pairs<K: Ord + Clone + Drop, V: Drop, H: KeyHash<K>, B: Blend<V>>(
    alloc: Global,
    first: &Vec<Arc<(K, V)>>,
    second: &Vec<Arc<(K, V)>>,
    blend: &B,
) -> Result<Vec<Arc<(K, V)>>, AllocError>
    requires clones { ClonesEqual K.is_clone }
    requires first_rises { IsRising K.cmp (keys_of (pairs_of first.now.items)) }
    requires second_rises { IsRising K.cmp (keys_of (pairs_of second.now.items)) }
    requires can { CanBlend K.cmp (B.asks blend.now) (pairs_of first.now.items) (pairs_of second.now.items) }
    ensures { IfOk result (λ v. IsBucketOfBoth H.hash_of K.cmp (B.blend_of blend.now)
        (pairs_of first.now.items) (pairs_of second.now.items) (pairs_of v.items)) }
{
    let mut pairs = Vec::new(alloc);
    let mut left = first.as_slice();
    let mut more = second.as_slice();
    while let Some((pair, older, newer)) = next_of_both::<K, V, H, B>(alloc, left, more, blend)? {
        pairs.push(pair)?;
        left = older;
        more = newer;
    }
    Ok(pairs)
}

/// The bucket of two buckets.
fn bucket_of_both<K: Ord + Clone + Drop, V: Drop, H: KeyHash<K>, S: Beside<K, V>, B: Blend<V>>(
    alloc: Global,
    first: &Vec<Arc<(K, V)>>,
    second: &Vec<Arc<(K, V)>>,
    blend: &B,
    ticks: &mut Ticks,
) -> Result<Slot<K, V, S>, AllocError>
    requires clones { ClonesEqual K.is_clone }
    requires first_rises { IsRising K.cmp (keys_of (pairs_of first.now.items)) }
    requires second_rises { IsRising K.cmp (keys_of (pairs_of second.now.items)) }
    requires can { CanBlend K.cmp (B.asks blend.now) (pairs_of first.now.items) (pairs_of second.now.items) }
    ensures made { IfOk result (λ p. HasBucketOfBoth H.hash_of K.cmp (B.blend_of blend.now)
        (pairs_of first.now.items) (pairs_of second.now.items) (node_of p)) }
    ensures counted { ticks.new ≤ ticks.old + 1 }
    ensures grows { ticks.old ≤ ticks.new }
{
    let pairs = merged_pairs::<K, V, H, B>(alloc, first, second, blend)?;
    make(alloc, Unmade::Inner(Inner::Bucket(pairs)), ticks).map(Some)
}

/// Two slots of one prefix of this depth, of which one is a leaf: the other with the entry of the leaf's key in both.
fn leaf_over<K: Ord + Clone + Drop, V: Drop, H: KeyHash<K>, S: Beside<K, V>, B: Blend<V>>(
    alloc: Global,
    first: Seen<'_, K, V, S>,
    second: Seen<'_, K, V, S>,
    leaf: &Arc<(K, V)>,
    other: Seen<'_, K, V, S>,
    blend: &B,
    depth: u32,
    ticks: &mut Ticks,
) -> Result<Slot<K, V, S>, AllocError>
    requires clones { ClonesEqual K.is_clone }
    requires meets { LeafMeets H.hash_of K.cmp (B.asks blend.now) (B.blend_of blend.now) depth (seen_in first) (seen_in second) leaf.now.value (seen_in other) }
    ensures map { IfOk result (λ p. Merges H.hash_of K.cmp (B.blend_of blend.now) depth (seen_in first.entry) (seen_in second.entry) (node_of p)) }
    ensures counted { CountsBoth depth (length (held_at first.entry)) (length (held_at second.entry)) ticks.old ticks.new }
{
    let key = &leaf.0;
    let at = HashPrefix::at(H::hash(key), depth);
    let old = get_at::<K, V, H, S>(first, key, at);
    let new = get_at::<K, V, H, S>(second, key, at);
    let pair = pair_of_both(alloc, blend, old, new)?;
    put_at::<K, V, H, S>(alloc, other, &pair, at, ticks).map(Some)
}

/// The children of a digit in two branches; None where neither has one.
fn children_of_both<'a, K, V, S: Beside<K, V>>(
    first: Bitmap,
    old: &'a Vec<Node<K, V, S>>,
    second: Bitmap,
    more: &'a Vec<Node<K, V, S>>,
    digit: usize,
) -> Option<(Seen<'a, K, V, S>, Seen<'a, K, V, S>)>
    requires digit { digit < slot_count }
    requires first_dense { IsDense first (length old.now.items) }
    requires second_dense { IsDense second (length more.now.items) }
    ensures { AreBoth (get_or (slots_in first old.now.items) digit None) (get_or (slots_in second more.now.items) digit None) result }
{
    if !either_has(first, second, digit) {
        return None;
    }
    Some((child_at(first, old, digit), child_at(second, more, digit)))
}

/// Two slots of one prefix together. What only one of them has is shared, not made anew.
pub fn merge_at<K: Ord + Clone + Drop, V: Drop, H: KeyHash<K>, S: Beside<K, V>, B: Blend<V>>(
    alloc: Global,
    first: Seen<'_, K, V, S>,
    second: Seen<'_, K, V, S>,
    blend: &B,
    depth: u32,
    ticks: &mut Ticks,
) -> Result<Slot<K, V, S>, AllocError>
    requires clones { ClonesEqual K.is_clone }
    requires meet { Meet H.hash_of K.cmp (B.asks blend.now) depth (seen_in first) (seen_in second) }
    ensures map { IfOk result (λ p. Merges H.hash_of K.cmp (B.blend_of blend.now) depth (seen_in first.entry) (seen_in second.entry) (node_of p)) }

    // For each entry of either, a node for each digit that is left, and one more.
    ensures counted { CountsBoth depth (length (held_at first.entry)) (length (held_at second.entry)) ticks.old ticks.new }
{
    match how_they_meet::<K, V, H, S, B>(first, second, blend, depth) {
        Meeting::Alone(slot) => shared(slot),
        Meeting::Leaf(leaf, other) => {
            leaf_over::<K, V, H, S, B>(alloc, first, second, leaf, other, blend, depth, ticks)
        }
        Meeting::Buckets(pairs, more) => {
            bucket_of_both::<K, V, H, S, B>(alloc, pairs, more, blend, ticks)
        }
        Meeting::Branches {
            first,
            old,
            second,
            more,
        } => {
            let mut made = room_for(alloc, first | second)?;
            for digit in 0..SLOTS {
                let Some((one, other)) = children_of_both(first, old, second, more, digit) else {
                    continue;
                };
                let child = merge_at::<K, V, H, S, B>(alloc, one, other, blend, depth + 1, ticks);
                made = grown(made, digit, child)?;
            }
            branch_of(alloc, made, ticks)
        }
    }
}
