//! Laying a pair over a map.
ghost use Rattle.std.specs.Prelude.{◌≡◌, ◌+◌, ◌<◌, ◌≤◌, ◌^◌, IfOk, OnOk, Some, length};
ghost use Rattle.trie.specs.Counts.{next_count};
ghost use Rattle.trie.specs.Digits.{digit_count};
ghost use Rattle.trie.specs.Holding.{HasPair, held_at, IsSlotAt, IsReached, seen_in};
ghost use Rattle.trie.specs.Nodes.{Leaf, owned};

use crate::beside::{Beside, Side};
use crate::bucket::{with_entry, with_one};
use crate::digits::{Bitmap, HashPrefix};
use crate::node::{
    Inner, Node, NodeOf, Seen, Unmade, View, make, shared_children, step, view_of, with_slot,
    written,
};
use crate::ticks::Ticks;
use cells::KeyHash;
use std::alloc::{AllocError, Global};
use std::sync::Arc;

/// How far a put goes down: it ends here, with a node of this in place of the old one, or it goes on
/// below these slots.
#[derive(Drop)]
pub enum Reach<K, V, B> {
    Here(Unmade<K, V, B>),
    Below {
        bitmap: Bitmap,
        children: Vec<NodeOf<K, V, B>>,
    },
}

/// The node below the prefix with the pair.
pub fn put_at<K: Ord + Drop, V: Drop, H: KeyHash<K>, S: Beside<K, V>>(
    alloc: Global,
    slot: Seen<'_, K, V, S>,
    pair: &Arc<(K, V)>,
    at: HashPrefix,
    ticks: &mut Ticks,
) -> Result<Node<K, V, S>, AllocError>
    requires hashed { at.hash ≡ H.hash_of pair.now.value.0 }
    requires placed { IsSlotAt H.hash_of K.cmp at (seen_in slot) }
    requires room { length (held_at slot) + 1 < 2 ^ 64 }
    ensures map { IfOk result (λ n. HasPair H.hash_of K.cmp at pair.now.value (seen_in slot.entry) (owned n)) }

    // A node for each digit that is left, and one more; one at least.
    ensures counted { ticks.new + at.depth ≤ ticks.old + (digit_count + 1) }
    ensures some { OnOk result (next_count ticks.old ≤ ticks.new) }
    ensures grows { ticks.old ≤ ticks.new }
{
    match how_far::<K, V, H, S>(alloc, slot, pair, at)? {
        Reach::Here(node) => make(alloc, node, ticks),
        Reach::Below { bitmap, children } => {
            let (child, below) = step::<K, V, H, S>(bitmap, &children, at);
            let child = put_at::<K, V, H, S>(alloc, child, pair, below, ticks)?;
            with_slot::<K, V, H, S>(alloc, bitmap, children, Some(child), at, ticks)
        }
    }
}

/// How far a put goes down from a slot.
fn how_far<K: Ord + Drop, V: Drop, H: KeyHash<K>, S: Beside<K, V>>(
    alloc: Global,
    slot: Seen<'_, K, V, S>,
    pair: &Arc<(K, V)>,
    at: HashPrefix,
) -> Result<Reach<K, V, Side<K, V, S>>, AllocError>
    requires hashed { at.hash ≡ H.hash_of pair.now.value.0 }
    requires placed { IsSlotAt H.hash_of K.cmp at (seen_in slot) }
    ensures { IfOk result (IsReached H.hash_of K.cmp at pair.now.value (seen_in slot.entry)) }
{
    match view_of(slot) {
        View::Empty => Ok(Reach::Here(Unmade::Leaf(Arc::try_clone(pair)?))),
        View::Leaf(old) => from_leaf::<K, V, H, S>(alloc, old, pair, at),
        View::Bucket(pairs) => {
            let pairs = with_entry(pairs, pair)?;
            Ok(Reach::Here(Unmade::Inner(Inner::Bucket(pairs))))
        }
        View::Branch {
            bitmap,
            children,
            ..
        } => {
            let children = shared_children(alloc, children)?;
            Ok(Reach::Below { bitmap, children })
        }
    }
}

/// How far a put goes down from a leaf.
fn from_leaf<K: Ord + Drop, V: Drop, H: KeyHash<K>, S: Beside<K, V>>(
    alloc: Global,
    old: &Arc<(K, V)>,
    pair: &Arc<(K, V)>,
    at: HashPrefix,
) -> Result<Reach<K, V, Side<K, V, S>>, AllocError>
    requires hashed { at.hash ≡ H.hash_of pair.now.value.0 }
    requires placed { IsSlotAt H.hash_of K.cmp at (Some (Leaf old.now.value)) }
    ensures { IfOk result (IsReached H.hash_of K.cmp at pair.now.value (Some (Leaf old.now.value))) }
{
    if pair.0.cmp(&old.0).is_eq() {
        return Ok(Reach::Here(Unmade::Leaf(Arc::try_clone(pair)?)));
    }
    if at.is_whole() {
        let pairs = with_one(alloc, old, pair)?;
        return Ok(Reach::Here(Unmade::Inner(Inner::Bucket(pairs))));
    }
    let digit = at.next_of(H::hash(&old.0));
    let leaf = Node::Leaf(Arc::try_clone(old)?);
    let made = written(0, Vec::new(alloc), digit, Some(leaf))?;
    Ok(Reach::Below {
        bitmap: made.bitmap,
        children: made.children,
    })
}
