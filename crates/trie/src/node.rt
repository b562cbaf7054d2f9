//! Nodes: what stands below a prefix of digits.
ghost use Rattle.std.specs.Prelude.{◌≡◌, ◌+◌, ◌-◌, ◌<◌, ◌≤◌, ◌^◌, [], false, None, Some, IfOk, IsTrue, OnErr, OnOk, length, set};
ghost use Rattle.std.specs.Prelude.{◌⊎◌, IsOkAnd, count_ones, get_or, slice_index_or, sum_by, vec_capacity};
ghost use Rattle.std.specs.List.{flat_map};
ghost use Rattle.trie.specs.Counts.{next_count};
ghost use Rattle.trie.specs.Dense.{below_bit, bit_at, IsDense, slots_in};
ghost use Rattle.trie.specs.Digits.{digit, slot_count};
ghost use Rattle.trie.specs.Holding.{AreSlots, CanHold, held_at, held_with, Holds, IsSlotAt, IsWritten, len_in, node_len};
ghost use Rattle.trie.specs.Holding.{made_of, prefix_of, seen_in, shown, sole_node};
ghost use Rattle.trie.specs.Nodes.{node_of, owned, values};
ghost use Rattle.trie.specs.Tree.{branch_of, entries, entries_in};

use crate::beside::{Beside, Side};
use crate::digits::{Bitmap, HashPrefix};
use crate::ticks::Ticks;
use cells::KeyHash;
use shelf::Shows;
use std::alloc::{AllocError, Global};
use std::sync::Arc;

/// A slot of a branch, or the root's: empty, or with the node of its prefix.
pub type Slot<K, V, S> = Option<Node<K, V, S>>;

/// A slot that is looked at.
pub type Seen<'a, K, V, S> = Option<&'a Node<K, V, S>>;

/// A node, which never changes once it is made, with one owner of what it has. The hashes of its keys share a prefix.
/// `S` lies beside the entries below each branch.
pub type Node<K, V, S> = NodeOf<K, V, Side<K, V, S>>;

/// The same with `B` in each branch, so that no type that contains itself names what lies there.
pub type NodeOf<K, V, B> = Owner<(K, V), Inner<K, V, B>>;

/// An owner of a leaf's pair or of an inner node. A leaf has nothing beside its pair, so whoever comes to its slot has
/// come to its pair's owner. (An inner node is a parameter, so that of the two types one alone contains itself.)
#[derive(Drop)]
pub enum Owner<P, I> {
    /// The only pair of its prefix.
    Leaf(Arc<P>),
    /// Several keys of a prefix.
    Inner(Arc<I>),
}

/// An inner node: two keys or more.
#[derive(Drop)]
pub enum Inner<K, V, B> {
    /// The keys of one hash, rising.
    Bucket(Vec<Arc<(K, V)>>),
    /// How many entries there are below the children, which digits have a child, and the children in
    /// the order of their digits: a child's position is the number of set bits below its bit. And what lies beside the
    /// entries.
    Branch {
        len: u64,
        bitmap: Bitmap,
        children: Vec<NodeOf<K, V, B>>,
        beside: B,
    },
}

/// What a node is made of.
#[derive(Drop)]
pub enum Unmade<K, V, B> {
    Leaf(Arc<(K, V)>),
    Inner(Inner<K, V, B>),
}

/// The children of a branch in the making.
#[derive(Drop)]
pub struct Children<K, V, B> {
    pub bitmap: Bitmap,
    pub children: Vec<NodeOf<K, V, B>>,
}

/// The same node, with one owner more of what it has.
impl<P: Drop, I: Drop> Clone for Owner<P, I> {
    ghost is_clone = { λ one copy. owned copy ≡ owned one };

    fn clone(&self) -> Result<Self, AllocError> {
        match self {
            Owner::Leaf(pair) => Ok(Owner::Leaf(pair.clone()?)),
            Owner::Inner(inner) => Ok(Owner::Inner(inner.clone()?)),
        }
    }
}

/// What stands in a slot.
pub enum View<'a, K, V, B> {
    Empty,
    /// The only pair of its prefix.
    Leaf(&'a Arc<(K, V)>),
    Bucket(&'a Vec<Arc<(K, V)>>),
    Branch {
        len: u64,
        bitmap: Bitmap,
        children: &'a Vec<NodeOf<K, V, B>>,
        beside: &'a B,
    },
}

impl<K, V, B> Clone for View<'_, K, V, B> {
    ghost is_clone = { λ one copy. copy ≡ one };

    ghost is_infallible = { λ _. Unit };

    fn clone(&self) -> Result<Self, AllocError> {
        Ok(*self)
    }
}

impl<K, V, B> Copy for View<'_, K, V, B> {}

/// What stands in a slot, through its owners.
pub fn view_of<K, V, S: Beside<K, V>>(slot: Seen<'_, K, V, S>) -> View<'_, K, V, Side<K, V, S>>
    ensures { seen_in slot.entry ≡ shown result }
{
    let Some(node) = slot else {
        return View::Empty;
    };
    match node {
        Node::Leaf(pair) => View::Leaf(pair),
        Node::Inner(inner) => match &**inner {
            Inner::Bucket(pairs) => View::Bucket(pairs),
            Inner::Branch {
                len,
                bitmap,
                children,
                beside,
            } => View::Branch {
                len: *len,
                bitmap: *bitmap,
                children,
                beside,
            },
        },
    }
}

/// How many entries there are below a node.
pub fn node_len<K, V, S: Beside<K, V>>(node: &Node<K, V, S>) -> u64
    ensures { result ≡ node_len (owned node.now) }
{
    match node {
        Node::Leaf(_) => 1,
        Node::Inner(inner) => match &**inner {
            Inner::Bucket(pairs) => pairs.len() as u64,
            Inner::Branch { len, .. } => *len,
        },
    }
}

/// How many entries there are in a slot.
pub fn len<K, V, S: Beside<K, V>>(slot: &Slot<K, V, S>) -> u64
    ensures { result ≡ len_in (node_of slot.now) }
{
    match slot {
        None => 0,
        Some(node) => node_len(node),
    }
}

/// The same slot, to be looked at.
pub fn seen<K, V, S: Beside<K, V>>(slot: &Slot<K, V, S>) -> Seen<'_, K, V, S>
    ensures { seen_in result ≡ node_of slot.now }
{
    match slot {
        None => None,
        Some(node) => Some(node),
    }
}

/// The only place where a node is made, and so where it is counted.
pub fn make<K: Drop, V: Drop, S: Beside<K, V>>(
    alloc: Global,
    node: Unmade<K, V, Side<K, V, S>>,
    ticks: &mut Ticks,
) -> Result<Node<K, V, S>, AllocError>
    ensures made { IfOk result (λ made. owned made ≡ made_of node) }
    ensures one { OnOk result (ticks.new ≡ next_count ticks.old) }
    ensures none { OnErr result (ticks.new ≡ ticks.old) }
    ensures counted { ticks.new ≤ ticks.old + 1 }
    ensures grows { ticks.old ≤ ticks.new }
{
    let made = match node {
        Unmade::Leaf(pair) => Node::Leaf(pair),
        Unmade::Inner(inner) => Node::Inner(Arc::new(alloc, inner)?),
    };
    ticks.tick();
    Ok(made)
}

/// The same slot, its node with one owner more.
pub fn shared<K: Drop, V: Drop, S: Beside<K, V>>(
    slot: Seen<'_, K, V, S>,
) -> Result<Slot<K, V, S>, AllocError>
    ensures { IfOk result (λ copy. node_of copy ≡ seen_in slot.entry) }
{
    match slot {
        None => Ok(None),
        Some(node) => node.clone().map(Some),
    }
}

/// The same children, each with one owner more, with room for one more of them.
pub fn shared_children<K: Drop, V: Drop, S: Beside<K, V>>(
    alloc: Global,
    children: &Vec<Node<K, V, S>>,
) -> Result<Vec<Node<K, V, S>>, AllocError>
    ensures { IfOk result (λ copy. values copy.items ≡ values children.now.items) }
{
    let mut copy = Vec::with_capacity(alloc, children.len() + 1)?;
    copy.extend_with_clones(children)?;
    Ok(copy)
}

/// The bit of a digit.
fn bit(digit: usize) -> Bitmap
    requires { digit < slot_count }
    ensures { result ≡ 2 ^ digit }
{
    1 << digit
}

/// Whether the slot of a digit has a child.
pub fn has(bitmap: Bitmap, digit: usize) -> bool
    requires { digit < slot_count }
    ensures yes { IsTrue result → bit_at bitmap digit ≡ 1 }
    ensures no { result ≡ false → bit_at bitmap digit ≡ 0 }
{
    (bitmap >> digit) % 2 == 1
}

/// The position of the child of a digit: how many bits are set below its bit.
fn position(bitmap: Bitmap, digit: usize) -> usize
    requires { digit < slot_count }
    ensures { result ≡ below_bit bitmap digit }
{
    (bitmap % (1 << digit)).count_ones() as usize
}

/// The slot of a digit.
pub fn child_at<'a, K, V, S: Beside<K, V>>(
    bitmap: Bitmap,
    children: &'a Vec<Node<K, V, S>>,
    digit: usize,
) -> Seen<'a, K, V, S>
    requires digit { digit < slot_count }
    requires dense { IsDense bitmap (length children.now.items) }
    ensures { seen_in result ≡ get_or (slots_in bitmap children.now.items) digit None }
{
    if !has(bitmap, digit) {
        return None;
    }
    Some(&children[position(bitmap, digit)])
}

/// One step down: the slot of the digit after the prefix, and the prefix with that digit.
pub fn step<'a, K: Ord, V, H: KeyHash<K>, S: Beside<K, V>>(
    bitmap: Bitmap,
    children: &'a Vec<Node<K, V, S>>,
    at: HashPrefix,
) -> (Seen<'a, K, V, S>, HashPrefix)
    requires slots { AreSlots H.hash_of K.cmp (prefix_of at) (slots_in bitmap children.now.items) }
    requires dense { IsDense bitmap (length children.now.items) }
    ensures hash { result.1.hash ≡ at.hash }
    ensures depth { result.1.depth ≡ at.depth + 1 }
    ensures slot { seen_in result.0 ≡ slice_index_or (slots_in bitmap children.now.items) (digit at.hash at.depth) None }
    ensures placed { IsSlotAt H.hash_of K.cmp result.1 (seen_in result.0) }
    ensures fewer { length (held_at result.0) ≤ length (flat_map entries_in (slots_in bitmap children.now.items)) }
{
    (child_at(bitmap, children, at.next()), at.longer())
}

/// These children with this one in the slot of a digit.
pub fn written<K: Drop, V: Drop, S: Beside<K, V>>(
    bitmap: Bitmap,
    mut children: Vec<Node<K, V, S>>,
    digit: usize,
    slot: Slot<K, V, S>,
) -> Result<Children<K, V, Side<K, V, S>>, AllocError>
    requires digit { digit < slot_count }
    requires dense { IsDense bitmap (length children.items) }
    ensures { IfOk result (IsWritten (set (slots_in bitmap children.items) digit (node_of slot))) }
{
    let position = position(bitmap, digit);
    let Some(child) = slot else {
        if !has(bitmap, digit) {
            return Ok(Children { bitmap, children });
        }
        children.remove(position);
        let bitmap = bitmap - bit(digit);
        return Ok(Children { bitmap, children });
    };
    if has(bitmap, digit) {
        children[position] = child;
        return Ok(Children { bitmap, children });
    }
    children.insert(position, child)?;
    let bitmap = bitmap + bit(digit);
    Ok(Children { bitmap, children })
}

/// No children yet, with room for one of each digit of a bitmap.
pub fn room_for<K: Drop, V: Drop, S: Beside<K, V>>(
    alloc: Global,
    bitmap: Bitmap,
) -> Result<Children<K, V, Side<K, V, S>>, AllocError>
    ensures none { IfOk result (λ made. (made.bitmap ≡ 0) × (made.children.items ≡ [])) }
    ensures room { IfOk result (λ made. vec_capacity made.children ≡ count_ones bitmap) }
{
    let children = Vec::with_capacity(alloc, bitmap.count_ones() as usize)?;
    Ok(Children {
        bitmap: 0,
        children,
    })
}

/// Whether the slot of a digit has a child in one of two branches.
pub fn either_has(first: Bitmap, second: Bitmap, digit: usize) -> bool
    requires { digit < slot_count }
    ensures yes { IsTrue result → (bit_at first digit ≡ 1) ⊎ (bit_at second digit ≡ 1) }
    ensures no { result ≡ false → (bit_at first digit ≡ 0) × (bit_at second digit ≡ 0) }
{
    has(first, digit) || has(second, digit)
}

/// These children, all of them in slots before that of the digit, with this one in its slot, if it was made.
pub fn grown<K: Drop, V: Drop, S: Beside<K, V>>(
    made: Children<K, V, Side<K, V, S>>,
    digit: usize,
    slot: Result<Slot<K, V, S>, AllocError>,
) -> Result<Children<K, V, Side<K, V, S>>, AllocError>
    requires digit { digit < slot_count }
    requires dense { IsDense made.bitmap (length made.children.items) }
    requires before { made.bitmap < 2 ^ digit }
    ensures written { IfOk result (λ more. IsOkAnd slot (λ child. IsWritten (set (slots_in made.bitmap made.children.items) digit (node_of child)) more)) }
    ensures before { IfOk result (λ more. more.bitmap < 2 ^ (digit + 1)) }
{
    let Some(child) = slot? else {
        return Ok(made);
    };
    let mut children = made.children;
    children.push(child)?;
    Ok(Children {
        bitmap: made.bitmap + bit(digit),
        children,
    })
}

/// The node of these children with this one in the slot after the prefix. Where one entry is
/// left, it is its leaf, shared and not made anew.
pub fn with_slot<K: Ord + Drop, V: Drop, H: KeyHash<K>, S: Beside<K, V>>(
    alloc: Global,
    bitmap: Bitmap,
    children: Vec<Node<K, V, S>>,
    slot: Slot<K, V, S>,
    at: HashPrefix,
    ticks: &mut Ticks,
) -> Result<Node<K, V, S>, AllocError>
    requires { CanHold H.hash_of K.cmp at bitmap children.items slot }
    ensures held { IfOk result (λ n.
        Holds H.hash_of K.cmp (prefix_of at) (held_with at (slots_in bitmap children.items) slot) (Some (owned n))) }
    ensures counted { ticks.new ≤ ticks.old + 1 }
    ensures grows { ticks.old ≤ ticks.new }
{
    let new = written(bitmap, children, at.next(), slot)?;
    let len = total(&new.children);
    if let Some(only) = sole(&new.children, len)? {
        return Ok(only);
    }
    let beside = beside_of(alloc, &new.children, len)?;
    let branch = Inner::Branch {
        len,
        bitmap: new.bitmap,
        children: new.children,
        beside,
    };
    make(alloc, Unmade::Inner(branch), ticks)
}

/// The same of children that stay as they are: each gets one owner more.
pub fn copied_with<K: Ord + Drop, V: Drop, H: KeyHash<K>, S: Beside<K, V>>(
    alloc: Global,
    bitmap: Bitmap,
    children: &Vec<Node<K, V, S>>,
    slot: Slot<K, V, S>,
    at: HashPrefix,
    ticks: &mut Ticks,
) -> Result<Node<K, V, S>, AllocError>
    requires { CanHold H.hash_of K.cmp at bitmap children.now.items slot }
    ensures held { IfOk result (λ n.
        Holds H.hash_of K.cmp (prefix_of at) (held_with at (slots_in bitmap children.now.items) slot) (Some (owned n))) }
    ensures counted { ticks.new ≤ ticks.old + 1 }
    ensures grows { ticks.old ≤ ticks.new }
{
    let children = shared_children(alloc, children)?;
    with_slot::<K, V, H, S>(alloc, bitmap, children, slot, at, ticks)
}

/// How many entries there are below the children.
pub fn total<K, V, S: Beside<K, V>>(children: &[Node<K, V, S>]) -> u64
    requires { sum_by node_len (values children.now) < 2 ^ 64 }
    ensures { result ≡ sum_by node_len (values children.now) }
{
    children.iter().map(node_len).sum()
}

/// A branch of these children, of which there are two entries or more.
pub fn branch_of<K: Drop, V: Drop, S: Beside<K, V>>(
    alloc: Global,
    made: Children<K, V, Side<K, V, S>>,
    ticks: &mut Ticks,
) -> Result<Slot<K, V, S>, AllocError>
    requires fits { sum_by node_len (values made.children.items) < 2 ^ 64 }
    ensures made { IfOk result (λ p. node_of p ≡ Some (branch_of (sum_by node_len (values made.children.items)) made.bitmap made.children)) }
    ensures one { OnOk result (ticks.new ≡ next_count ticks.old) }
    ensures counted { ticks.new ≤ ticks.old + 1 }
    ensures grows { ticks.old ≤ ticks.new }
{
    let len = total(&made.children);
    let beside = beside_of(alloc, &made.children, len)?;
    let branch = Inner::Branch {
        len,
        bitmap: made.bitmap,
        children: made.children,
        beside,
    };
    make(alloc, Unmade::Inner(branch), ticks).map(Some)
}

/// The entries below children.
struct Below;

impl<K, V, S: Beside<K, V>> Shows<Vec<Node<K, V, S>>, (K, V)> for Below {
    ghost use Rattle.std.specs.List.{flat_map};
    ghost use Rattle.trie.specs.Nodes.{values};
    ghost use Rattle.trie.specs.Tree.{entries};

    ghost shown = { λ children. flat_map entries (values children.items) };
}

/// What lies at first beside the entries below these children; `len` says how many they are. Each branch that is made
/// has one of its own, so a summary is of the branch's own entries and no others.
fn beside_of<K, V, S: Beside<K, V>>(
    alloc: Global,
    children: &Vec<Node<K, V, S>>,
    len: u64,
) -> Result<Side<K, V, S>, AllocError>
    ensures { IfOk result (λ beside. beside ≡ flat_map entries (values children.now.items)) }
{
    Side::of::<Vec<Node<K, V, S>>, Below>(alloc, children, len)
}

/// The only node, where there is one entry.
fn sole<K: Drop, V: Drop, S: Beside<K, V>>(
    children: &Vec<Node<K, V, S>>,
    len: u64,
) -> Result<Slot<K, V, S>, AllocError>
    ensures { IfOk result (λ only. node_of only ≡ sole_node len (values children.now.items)) }
{
    if len != 1 {
        return Ok(None);
    }
    if children.is_empty() {
        return Ok(None);
    }
    children[0].clone().map(Some)
}
