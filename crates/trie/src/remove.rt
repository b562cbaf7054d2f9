//! Taking a key out of a map.
ghost use Rattle.std.specs.Prelude.{◌≡◌, ◌+◌, ◌<◌, ◌≤◌, ◌^◌, IfOk, None, Some, length};
ghost use Rattle.trie.specs.Dense.{slots_in};
ghost use Rattle.trie.specs.Digits.{digit_count, digit_order};
ghost use Rattle.trie.specs.Entries.{value_at};
ghost use Rattle.trie.specs.Holding.{CanHold, held_at, held_with, IsLeft, IsSlotAt, IsRemoved, Misses, pairs_of, prefix_of, seen_in};
ghost use Rattle.trie.specs.Nodes.{Bucket};
ghost use Rattle.trie.specs.Tree.{IsSlot};

use crate::beside::{Beside, Side};
use crate::bucket::without;
use crate::digits::{Bitmap, HashPrefix};
use crate::node::{
    Inner, Node, NodeOf, Seen, Slot, Unmade, View, copied_with, make, step, view_of,
};
use crate::ticks::Ticks;
use cells::KeyHash;
use std::alloc::{AllocError, Global};
use std::sync::Arc;

/// What a removal finds: no such key, or what is left without it.
#[derive(Drop)]
pub enum Removed<K, V, B> {
    Missing,
    Left(Option<NodeOf<K, V, B>>),
}

/// The slot below the prefix without the key.
pub fn remove_at<K: Ord + Drop, V: Drop, H: KeyHash<K>, S: Beside<K, V>>(
    alloc: Global,
    slot: Seen<'_, K, V, S>,
    key: &K,
    at: HashPrefix,
    ticks: &mut Ticks,
) -> Result<Removed<K, V, Side<K, V, S>>, AllocError>
    requires hashed { at.hash ≡ H.hash_of key.now }
    requires placed { IsSlotAt H.hash_of K.cmp at (seen_in slot) }
    requires fits { length (held_at slot) < 2 ^ 64 }
    ensures map { IfOk result (IsRemoved H.hash_of K.cmp at key.now (held_at slot.entry)) }
    ensures missed { value_at (digit_order H.hash_of K.cmp) (held_at slot.entry) key.now ≡ None
        → Misses ticks.old ticks.new result }

    // A node for each digit that is left, and one more.
    ensures counted { ticks.new + at.depth ≤ ticks.old + (digit_count + 1) }
    ensures grows { ticks.old ≤ ticks.new }
{
    match view_of(slot) {
        View::Empty => Ok(Removed::Missing),
        View::Leaf(pair) => {
            if key.cmp(&pair.0).is_eq() {
                Ok(Removed::Left(None))
            } else {
                Ok(Removed::Missing)
            }
        }
        View::Bucket(pairs) => remove_from_bucket::<K, V, H, S>(alloc, pairs, key, at, ticks),
        View::Branch {
            bitmap,
            children,
            ..
        } => {
            let (child, below) = step::<K, V, H, S>(bitmap, children, at);
            let Removed::Left(rest) = remove_at::<K, V, H, S>(alloc, child, key, below, ticks)?
            else {
                return Ok(Removed::Missing);
            };
            left_with::<K, V, H, S>(alloc, bitmap, children, rest, at, ticks)
        }
    }
}

/// What is left of a branch: these children, with this one in the slot after the prefix.
fn left_with<K: Ord + Drop, V: Drop, H: KeyHash<K>, S: Beside<K, V>>(
    alloc: Global,
    bitmap: Bitmap,
    children: &Vec<Node<K, V, S>>,
    rest: Slot<K, V, S>,
    at: HashPrefix,
    ticks: &mut Ticks,
) -> Result<Removed<K, V, Side<K, V, S>>, AllocError>
    requires { CanHold H.hash_of K.cmp at bitmap children.now.items rest }
    ensures left { IfOk result (IsLeft H.hash_of K.cmp at (held_with at (slots_in bitmap children.now.items) rest)) }
    ensures counted { ticks.new ≤ ticks.old + 1 }
    ensures grows { ticks.old ≤ ticks.new }
{
    let node = copied_with::<K, V, H, S>(alloc, bitmap, children, rest, at, ticks)?;
    Ok(Removed::Left(Some(node)))
}

/// The bucket without the key: a leaf, where one key is left.
fn remove_from_bucket<K: Ord + Drop, V: Drop, H: KeyHash<K>, S: Beside<K, V>>(
    alloc: Global,
    pairs: &Vec<Arc<(K, V)>>,
    key: &K,
    at: HashPrefix,
    ticks: &mut Ticks,
) -> Result<Removed<K, V, Side<K, V, S>>, AllocError>
    requires hashed { at.hash ≡ H.hash_of key.now }
    requires placed { IsSlot H.hash_of K.cmp (Some (Bucket pairs.now)) (prefix_of at) }
    ensures map { IfOk result (IsRemoved H.hash_of K.cmp at key.now (pairs_of pairs.now.items)) }
    ensures missed { value_at (digit_order H.hash_of K.cmp) (pairs_of pairs.now.items) key.now ≡ None
        → Misses ticks.old ticks.new result }
    ensures counted { ticks.new ≤ ticks.old + 1 }
    ensures grows { ticks.old ≤ ticks.new }
{
    let Some(mut left) = without(pairs, key)? else {
        return Ok(Removed::Missing);
    };
    if left.len() > 1 {
        let node = make(alloc, Unmade::Inner(Inner::Bucket(left)), ticks)?;
        return Ok(Removed::Left(Some(node)));
    }
    let node = make(alloc, Unmade::Leaf(left.remove(0)), ticks)?;
    Ok(Removed::Left(Some(node)))
}
