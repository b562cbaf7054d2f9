//! The trie.
ghost use Rattle.std.specs.Prelude.{◌≡◌, ◌+◌, ◌*◌, ◌<◌, ◌≤◌, ◌^◌, [], IfOk, None, OnOk, length, min};
ghost use Rattle.std.specs.Map.{keys_of};
ghost use Rattle.std.specs.Option.{option_copied};
ghost use Rattle.trie.specs.Counts.{next_count};
ghost use Rattle.trie.specs.Cuts.{cut};
ghost use Rattle.trie.specs.Digits.{digit_count, digit_order};
ghost use Rattle.trie.specs.Entries.{value_at, with_pair, with_pairs, without_key};
ghost use Rattle.trie.specs.Holding.{lent};
ghost use Rattle.trie.specs.Maps.{RiseByHash};
ghost use Rattle.trie.specs.Merging.{CanBlend, ClonesEqual, IsMerged};
ghost use Rattle.trie.specs.Shapes.{shape_of};

use crate::beside::{Beside, Nothing};
use crate::blend::Blend;
use crate::build::{in_digit_order, slot_of, with_hashes, with_owners};
use crate::cutting::Cutting;
use crate::digits::HashPrefix;
use crate::entries::with_entries;
use crate::get::get_at;
use crate::merge::merge_at;
use crate::node::{Slot, len, seen, shared};
use crate::put::put_at;
use crate::remove::{Removed, remove_at};
use crate::shape::{Shape, shape_in};
use crate::split::{Piece, with_pieces};
use crate::ticks::Ticks;
use cells::KeyHash;
use std::alloc::{AllocError, Global};
use std::marker::{Model, PhantomData};
use std::sync::Arc;

/// A finite map that never changes, seen as the list of its entries in digit order. A change gives
/// another map, which shares what stays.
#[derive(Drop)]
pub struct Trie<K: Ord, V, H: KeyHash<K>, S: Beside<K, V> = Nothing> {
    root: Slot<K, V, S>,
    hash: PhantomData<H>,
}

impl<K: Ord, V, H: KeyHash<K>, S: Beside<K, V>> Model for Trie<K, V, H, S> {
    ghost use Rattle.std.specs.Prelude.{List};

    ghost Value = { List (K × V) };

    ghost use Rattle.trie.specs.Holding.{held_in, IsTrie};
    ghost use Rattle.trie.specs.Nodes.{node_of};

    ghost view = { λ t. held_in t.root };

    ghost invariant = { λ t. IsTrie H.hash_of K.cmp (node_of t.root) };
}

impl<K: Ord, V, H: KeyHash<K>, S: Beside<K, V>> Trie<K, V, H, S> {
    /// The map with no entry.
    pub fn empty() -> Self
        ensures { result ≡ [] }
    {
        Trie {
            root: None,
            hash: PhantomData,
        }
    }

    /// The value of the key.
    pub fn get(&self, key: &K) -> Option<&V>
        ensures { option_copied result ≡ value_at (digit_order H.hash_of K.cmp) self.now key.now }
    {
        let at = HashPrefix::empty(H::hash(key));
        let Some(entry) = get_at::<K, V, H, S>(seen(&self.root), key, at) else {
            return None;
        };
        Some(&entry.1)
    }

    /// How many entries there are.
    pub fn len(&self) -> u64
        ensures { result ≡ length self.now }
    {
        len(&self.root)
    }

    /// All entries, in digit order.
    pub fn entries(&self, alloc: Global) -> Result<Vec<(&K, &V)>, AllocError>
        ensures { IfOk result (λ v. lent v.items ≡ self.now) }
    {
        with_entries(Vec::new(alloc), seen(&self.root))
    }

    /// What is known of each map: its keys rise in digit order. It does nothing.
    #[tactic(auto, using(crate::proofs::MapRisingLemmas::slot_rises))]
    pub fn keys_rise(&self)
        ensures { RiseByHash H.hash_of K.cmp (keys_of self.now) }
    {
        let _ = &self.root;
    }

    /// The shape, which depends on the keys alone. It goes over the nodes once, and asks for memory for the prefixes that
    /// keys share alone.
    pub fn shape(&self, alloc: Global) -> Result<Shape, AllocError>
        ensures { IfOk result (λ v. v.items ≡ shape_of H.hash_of (keys_of self.now)) }
    {
        shape_in::<K, V, H, S>(alloc, seen(&self.root))
    }
}

impl<K: Ord + Drop, V: Drop, H: KeyHash<K>, S: Beside<K, V>> Trie<K, V, H, S> {
    /// The same map, with one owner more.
    pub fn share(&self) -> Result<Self, AllocError>
        ensures { IfOk result (λ t. t ≡ self.now) }
    {
        Ok(Trie {
            root: shared(seen(&self.root))?,
            hash: PhantomData,
        })
    }

    /// The map of these pairs as if they were put one after another into an empty map: of pairs of one
    /// key the last stands. Each node is made once, and none is counted; a put for each pair makes those above it anew
    /// each time.
    pub fn from_pairs(alloc: Global, pairs: Vec<(K, V)>) -> Result<Self, AllocError>
        ensures map { IfOk result (λ t. t ≡ with_pairs (digit_order H.hash_of K.cmp) pairs.items []) }
    {
        let sorted = in_digit_order(with_hashes::<K, V, H>(alloc, pairs)?)?;
        let owned = with_owners(alloc, sorted)?;
        let root = slot_of::<K, V, H, S>(alloc, owned.as_slice(), 0)?;
        Ok(Trie {
            root,
            hash: PhantomData,
        })
    }

    /// The pieces of the map, in digit order: starting from the root, a branch of fewer than `depth`
    /// digits that has more than `small` entries is replaced by its children, and each node that is
    /// not replaced is a piece, which shares it. A map with no entry has no piece.
    pub fn split(
        &self,
        alloc: Global,
        cutting: &Cutting,
    ) -> Result<Vec<Piece<K, V, H, S>>, AllocError>
        ensures { IfOk result (λ v. v.items ≡ cut H.hash_of cutting.now.depth cutting.now.small self.now) }
    {
        with_pieces::<K, V, H, S>(Vec::new(alloc), seen(&self.root), cutting, 0)
    }

    /// The map with the pair: for an equal key, the new key and value stand. It makes a node for
    /// each digit that it passes, and counts them. This map stays as it is, whatever the answer.
    pub fn put(
        &self,
        alloc: Global,
        key: K,
        value: V,
        ticks: &mut Ticks,
    ) -> Result<Self, AllocError>
        requires { length self.now + 1 < 2 ^ 64 }
        ensures map { IfOk result (λ t. t ≡ with_pair (digit_order H.hash_of K.cmp) key value self.now) }
        ensures some { OnOk result (next_count ticks.old ≤ ticks.new) }
        ensures counted { ticks.new ≤ ticks.old + (digit_count + 1) }
        ensures grows { ticks.old ≤ ticks.new }
    {
        let pair = Arc::new(alloc, (key, value))?;
        let at = HashPrefix::empty(H::hash(&pair.0));
        let root = put_at::<K, V, H, S>(alloc, seen(&self.root), &pair, at, ticks)?;
        Ok(Trie {
            root: Some(root),
            hash: PhantomData,
        })
    }

    /// The map without the key; the same map, with no node made, where the key is not there. This
    /// map stays as it is, whatever the answer.
    pub fn remove(&self, alloc: Global, key: &K, ticks: &mut Ticks) -> Result<Self, AllocError>
        ensures map { IfOk result (λ t. t ≡ without_key (digit_order H.hash_of K.cmp) key.now self.now) }
        ensures missed { value_at (digit_order H.hash_of K.cmp) self.now key.now ≡ None → ticks.new ≡ ticks.old }
        ensures counted { ticks.new ≤ ticks.old + (digit_count + 1) }
        ensures grows { ticks.old ≤ ticks.new }
    {
        let at = HashPrefix::empty(H::hash(key));
        match remove_at::<K, V, H, S>(alloc, seen(&self.root), key, at, ticks)? {
            Removed::Missing => self.share(),
            Removed::Left(root) => Ok(Trie {
                root,
                hash: PhantomData,
            }),
        }
    }
}

impl<K: Ord + Clone + Drop, V: Drop, H: KeyHash<K>, S: Beside<K, V>> Trie<K, V, H, S> {
    /// The map with the entries of both: keys of one keep their value, keys of both have the blend of
    /// this map's value and the other's, under the other's key. What only one of them
    /// has below a prefix is shared, so the nodes that are made are at most a whole path for each
    /// entry of the smaller one. Both maps stay as they are, whatever the answer.
    pub fn merge<B: Blend<V>>(
        &self,
        alloc: Global,
        other: &Trie<K, V, H, S>,
        blend: &B,
        ticks: &mut Ticks,
    ) -> Result<Self, AllocError>
        requires room { length self.now + length other.now < 2 ^ 64 }
        requires clones { ClonesEqual K.is_clone }
        requires can { CanBlend (digit_order H.hash_of K.cmp) (B.asks blend.now) self.now other.now }
        ensures map { IfOk result (λ t. IsMerged (digit_order H.hash_of K.cmp) (B.blend_of blend.now) self.now other.now t) }
        ensures counted { ticks.new ≤ ticks.old + (digit_count + 1) * min (length self.now) (length other.now) }
        ensures grows { ticks.old ≤ ticks.new }
    {
        let first = seen(&self.root);
        let second = seen(&other.root);
        let root = merge_at::<K, V, H, S, B>(alloc, first, second, blend, 0, ticks)?;
        Ok(Trie {
            root,
            hash: PhantomData,
        })
    }
}
