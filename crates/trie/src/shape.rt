//! The shape of a map: the prefixes of digits that its keys share.
ghost use Rattle.std.specs.Prelude.{◌≡◌, ◌-◌, ◌<◌, ◌++◌, ◌∷◌, [], IfOk, None, Some, false, get_or, length, nat_eq};
ghost use Rattle.std.specs.Cmp;
ghost use Rattle.std.specs.Cmp.Lexicographic.{nat_list_eq_equiv, pointwise};
ghost use Rattle.std.specs.List.{flat_map};
ghost use Rattle.std.specs.Map.{keys_of};
ghost use Rattle.trie.specs.Digits.{digit_count, slot_count};
ghost use Rattle.trie.specs.Dense.{IsDense, slots_in};
ghost use Rattle.trie.specs.Holding.{AreSlots, held_at, seen_in};
ghost use Rattle.trie.specs.Shapes.{prefix_text, shape_below, shape_of};
ghost use Rattle.trie.specs.Tree.{entries_in, IsSlot};

use crate::beside::Beside;
use crate::digits::{Bitmap, SLOTS, digit_text};
use crate::node::{Node, Seen, View, child_at, view_of};
use cells::KeyHash;
use std::alloc::{AllocError, Global};
use std::fmt;
use std::marker::Model;

/// The shape of a map: each prefix of digits that two keys or more share, with their number, in order,
/// a prefix before those that extend it.
pub type Shape = Vec<(Prefix, u64)>;

/// A prefix of digits that keys share, the low digit of their hashes first.
#[derive(Debug, Drop)]
pub struct Prefix {
    digits: Vec<u8>,
}

impl Model for Prefix {
    ghost use Rattle.std.specs.Prelude.{List, ℕ};

    ghost Value = { List ℕ };

    ghost view = { λ p. p.digits.items };

    ghost use Rattle.trie.specs.Shapes.{AreDigits};

    ghost invariant = { λ p. AreDigits p.digits.items };
}

impl Prefix {
    /// Its digits.
    pub fn digits(&self) -> &[u8]
        ensures { result.now ≡ self.now }
    {
        self.digits.as_slice()
    }

    /// The prefix of no digits.
    fn empty(alloc: Global) -> Prefix
        ensures { result ≡ [] }
    {
        Prefix {
            digits: Vec::new(alloc),
        }
    }

    /// A copy of the prefix.
    fn copied(&self, alloc: Global) -> Result<Prefix, AllocError>
        ensures { IfOk result (λ p. p ≡ self.now) }
    {
        let mut digits = Vec::new(alloc);
        digits.extend_from_slice(self.digits.as_slice())?;
        Ok(Prefix { digits })
    }

    /// The prefix with one more digit.
    fn longer(&self, alloc: Global, digit: u8) -> Result<Prefix, AllocError>
        requires { digit < slot_count }
        ensures { IfOk result (λ p. p ≡ self.now ++ digit ∷ []) }
    {
        let mut longer = self.copied(alloc)?;
        longer.digits.push(digit)?;
        Ok(longer)
    }
}

impl PartialEq for Prefix {
    ghost eq = { pointwise nat_eq };

    ghost laws = { Cmp.partial_equiv_from_equiv nat_list_eq_equiv };

    fn eq(&self, other: &Prefix) -> bool {
        self.digits() == other.digits()
    }
}

impl Eq for Prefix {
    ghost laws = { nat_list_eq_equiv };
}

/// Each digit as one character, `0` to `9` and then `a` to `v`, or `-` where there is none.
impl fmt::Display for Prefix {
    ghost output = { λ p. Some (prefix_text p) };

    fn fmt<W: fmt::Write>(&self, f: &mut fmt::Formatter<W>) -> fmt::Result {
        if self.digits.is_empty() {
            return f.write_str("-");
        }
        for digit in &self.digits {
            f.write_char(digit_text(*digit))?;
        }
        Ok(())
    }
}

/// The shape of the keys in a root.
pub fn shape_in<K: Ord, V, H: KeyHash<K>, S: Beside<K, V>>(
    alloc: Global,
    root: Seen<'_, K, V, S>,
) -> Result<Shape, AllocError>
    requires placed { IsSlot H.hash_of K.cmp (seen_in root) [] }
    ensures { IfOk result (λ v. v.items ≡ shape_of H.hash_of (keys_of (held_at root.entry))) }
{
    let list = Vec::new(alloc);
    let prefix = Prefix::empty(alloc);
    with_shape::<K, V, H, S>(alloc, list, &prefix, root)
}

/// The list with the shape below a prefix behind it.
fn with_shape<K: Ord, V, H: KeyHash<K>, S: Beside<K, V>>(
    alloc: Global,
    list: Shape,
    prefix: &Prefix,
    slot: Seen<'_, K, V, S>,
) -> Result<Shape, AllocError>
    requires placed { IsSlot H.hash_of K.cmp (seen_in slot) prefix.now }
    ensures { IfOk result (λ v. v.items
        ≡ list.items ++ shape_below H.hash_of (keys_of (held_at slot.entry)) prefix.now) }
{
    match view_of(slot) {
        View::Empty => Ok(list),
        View::Leaf(_) => Ok(list),
        View::Bucket(pairs) => with_number(alloc, list, prefix, pairs.len() as u64),
        View::Branch {
            len,
            bitmap,
            children,
            ..
        } => {
            let mut shape = with_number(alloc, list, prefix, len)?;
            for digit in 0..SLOTS {
                if !is_shared(bitmap, children, digit) {
                    continue;
                }
                let (slot, longer) = step::<K, V, H, S>(alloc, bitmap, children, prefix, digit)?;
                shape = with_shape::<K, V, H, S>(alloc, shape, &longer, slot)?;
            }
            Ok(shape)
        }
    }
}

/// Whether two keys or more share the prefix that ends in this digit. Below an empty slot there is none and below a leaf
/// one, so no prefix is made for them.
fn is_shared<K, V, S: Beside<K, V>>(
    bitmap: Bitmap,
    children: &Vec<Node<K, V, S>>,
    digit: usize,
) -> bool
    requires digit { digit < slot_count }
    requires dense { IsDense bitmap (length children.now.items) }
    ensures { result ≡ false → length (entries_in (get_or (slots_in bitmap children.now.items) digit None)) < 2 }
{
    let Some(node) = child_at(bitmap, children, digit) else {
        return false;
    };
    !matches!(node, Node::Leaf(_))
}

/// The list with a prefix and its number behind it.
fn with_number(
    alloc: Global,
    list: Shape,
    prefix: &Prefix,
    number: u64,
) -> Result<Shape, AllocError>
    ensures { IfOk result (λ v. v.items ≡ list.items ++ (prefix.now, number) ∷ []) }
{
    let mut list = list;
    list.push((prefix.copied(alloc)?, number))?;
    Ok(list)
}

/// One step down: the slot of a digit behind the prefix, and the prefix with that digit.
fn step<'a, K: Ord, V, H: KeyHash<K>, S: Beside<K, V>>(
    alloc: Global,
    bitmap: Bitmap,
    children: &'a Vec<Node<K, V, S>>,
    prefix: &Prefix,
    digit: usize,
) -> Result<(Seen<'a, K, V, S>, Prefix), AllocError>
    requires slots { AreSlots H.hash_of K.cmp prefix.now (slots_in bitmap children.now.items) }
    requires dense { IsDense bitmap (length children.now.items) }
    requires digit { digit < slot_count }
    ensures prefix { IfOk result (λ r. r.1 ≡ prefix.now ++ digit ∷ []) }
    ensures placed { IfOk result (λ r. IsSlot H.hash_of K.cmp (seen_in r.0) r.1) }
    ensures fewer_left { IfOk result (λ r. digit_count - length r.1 < digit_count - length prefix.now) }
    ensures shape { IfOk result (λ r. shape_below H.hash_of (keys_of (flat_map entries_in (slots_in bitmap children.now.items))) r.1
        ≡ shape_below H.hash_of (keys_of (held_at r.0)) r.1) }
{
    let longer = prefix.longer(alloc, digit as u8)?;
    Ok((child_at(bitmap, children, digit), longer))
}
