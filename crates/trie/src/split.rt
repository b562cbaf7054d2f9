//! Cutting a map into pieces.
ghost use Rattle.std.specs.Prelude.{◌≡◌, ◌++◌, ◌∷◌, ◌&&◌, [], IfOk, IfSome, OnOk, Option, length, nat_lt};
ghost use Rattle.std.specs.Map.{keys_of};
ghost use Rattle.trie.specs.Cuts.{IsPiece};
ghost use Rattle.trie.specs.Maps.{RiseByHash};
ghost use Rattle.trie.specs.Walks.{MayTakeAll, TakesAll};
ghost use Rattle.trie.specs.Holding.{lent, seen_in};
ghost use Rattle.trie.specs.Nodes.{owned};
ghost use Rattle.trie.specs.Tree.{entries};
ghost use Rattle.trie.specs.Splitting.{IsCut, IsCuttable};

use crate::beside::{Beside, Nothing, Side, Summary, Summed};
use crate::cutting::Cutting;
use crate::digits::SLOTS;
use crate::entries::with_entries;
use crate::node::{Inner, Node, Seen, child_at, node_len};
use crate::walk::{Visitor, walk_node};
use cells::KeyHash;
use std::alloc::{AllocError, Global};
use std::marker::{Model, PhantomData};
use std::sync::{Arc, Wait};

/// A part of a map: the entries below one prefix, seen as their list.
#[derive(Drop)]
pub struct Piece<K: Ord, V, H: KeyHash<K>, S: Beside<K, V> = Nothing> {
    node: Node<K, V, S>,
    hash: PhantomData<H>,
}

impl<K: Ord, V, H: KeyHash<K>, S: Beside<K, V>> Model for Piece<K, V, H, S> {
    ghost use Rattle.std.specs.Prelude.{List};

    ghost Value = { List (K × V) };

    ghost use Rattle.trie.specs.Cuts.{IsPiece};
    ghost use Rattle.trie.specs.Nodes.{owned};
    ghost use Rattle.trie.specs.Tree.{entries};

    ghost view = { λ p. entries (owned p.node) };

    ghost invariant = { λ p. IsPiece H.hash_of K.cmp (owned p.node) };
}

impl<K: Ord, V, H: KeyHash<K>, S: Beside<K, V>> Piece<K, V, H, S> {
    /// Lends all entries, in digit order, each as the visitor asks for it. It takes no memory of its own.
    pub fn walk<W: Visitor<K, V>>(&self, visitor: &mut W) -> Result<(), AllocError>
        requires { MayTakeAll W.asks W.takes visitor.old self.now }
        ensures { OnOk result (TakesAll W.takes visitor.old self.now visitor.new) }
    {
        walk_node(&self.node, visitor)
    }

    /// How many entries there are.
    pub fn len(&self) -> u64
        ensures { result ≡ length self.now }
    {
        node_len(&self.node)
    }

    /// What is known of each piece: its keys rise in digit order. It does nothing.
    pub fn keys_rise(&self)
        ensures { RiseByHash H.hash_of K.cmp (keys_of self.now) }
    {
        let _ = &self.node;
    }

    /// All entries, in digit order.
    pub fn entries(&self, alloc: Global) -> Result<Vec<(&K, &V)>, AllocError>
        ensures { IfOk result (λ v. lent v.items ≡ self.now) }
    {
        with_entries(Vec::new(alloc), Some(&self.node))
    }
}

impl<K: Ord, V, H: KeyHash<K>, S: Summary<K, V>> Piece<K, V, H, Summed<K, V, S>> {
    /// One owner more of the summary that lies beside the piece's entries, for all maps that share the piece. The
    /// first caller calls `make` and leaves there what it gives; whoever comes meanwhile sleeps until that is done,
    /// and whoever comes later finds it. A put, a remove or a merge makes some branches anew: beside these no summary
    /// lies yet, and the pieces of the old map keep theirs. `make` must not ask for the summary of this piece: it
    /// would wait for itself.
    ///
    /// None where the piece has no place for one, since it has fewer than [`LEAST_SUMMED`](crate::LEAST_SUMMED)
    /// entries or more than [`MOST_SUMMED`](crate::MOST_SUMMED), or all of them have one hash; where `make` gave none
    /// or memory for it was refused, which is then so for all callers; and where one owner more was refused, which is
    /// so for this caller alone.
    pub fn summary_or_make<R: Wait, F: FnOnce() -> Option<S> + Drop>(
        &self,
        rt: &R,
        make: F,
    ) -> Option<Arc<S>>
        requires callable { F.pre make }
        requires describes { (made : Option S) → F.post make made → IfSome made (S.describes self.now) }
        ensures { IfSome result (λ summary. S.describes self.now summary.value) }
    {
        let side = side_of::<K, V, H, Summed<K, V, S>>(&self.node)?;
        side.summary_or_make(rt, make)
    }

    /// The same where [`summary_or_make`](Piece::summary_or_make) gave none: calls `make`, which now may get its memory, and
    /// leaves there what it gives, unless another caller has left a summary by then. Nobody waits for it.
    ///
    /// None where the piece has no place for one; where `make` gave none or memory for it was refused; and where one owner
    /// more was refused. Each is so for this caller alone.
    pub fn summary_or_make_again<F: FnOnce() -> Option<S> + Drop>(&self, make: F) -> Option<Arc<S>>
        requires callable { F.pre make }
        requires describes { (made : Option S) → F.post make made → IfSome made (S.describes self.now) }
        ensures { IfSome result (λ summary. S.describes self.now summary.value) }
    {
        let side = side_of::<K, V, H, Summed<K, V, S>>(&self.node)?;
        side.summary_or_make_again(make)
    }
}

/// What lies beside a piece's entries: something where its node is a branch.
fn side_of<K: Ord, V, H: KeyHash<K>, S: Beside<K, V>>(
    node: &Node<K, V, S>,
) -> Option<&Side<K, V, S>>
    requires { IsPiece H.hash_of K.cmp (owned node.now) }
    ensures { IfSome result (λ side. side.now ≡ entries (owned node.now)) }
{
    match node {
        Node::Leaf(_) => None,
        Node::Inner(inner) => match &**inner {
            Inner::Bucket(_) => None,
            Inner::Branch { beside, .. } => Some(beside),
        },
    }
}

/// The list with the pieces of the slot behind it.
pub fn with_pieces<K: Ord + Drop, V: Drop, H: KeyHash<K>, S: Beside<K, V>>(
    mut list: Vec<Piece<K, V, H, S>>,
    slot: Seen<'_, K, V, S>,
    cutting: &Cutting,
    depth: u32,
) -> Result<Vec<Piece<K, V, H, S>>, AllocError>
    requires { IsCuttable H.hash_of K.cmp depth (seen_in slot) }
    ensures { IfOk result (λ v. IsCut H.hash_of K.cmp cutting.now.depth cutting.now.small depth (seen_in slot.entry) list.items v.items) }
{
    let Some(node) = slot else {
        return Ok(list);
    };
    match node {
        Node::Leaf(_) => with_piece(list, node),
        Node::Inner(inner) => match &**inner {
            Inner::Bucket(_) => with_piece(list, node),
            Inner::Branch {
                len,
                bitmap,
                children,
                ..
            } => {
                if !is_opened(*len, cutting, depth) {
                    return with_piece(list, node);
                }
                for digit in 0..SLOTS {
                    let child = child_at(*bitmap, children, digit);
                    list = with_pieces::<K, V, H, S>(list, child, cutting, depth + 1)?;
                }
                Ok(list)
            }
        },
    }
}

/// Whether a branch of so many digits and entries is opened.
fn is_opened(len: u64, cutting: &Cutting, depth: u32) -> bool
    ensures { result ≡ (nat_lt cutting.now.small len && nat_lt depth cutting.now.depth) }
{
    len > cutting.small && depth < u32::from(cutting.depth)
}

/// The list with the node as a piece behind it.
fn with_piece<K: Ord + Drop, V: Drop, H: KeyHash<K>, S: Beside<K, V>>(
    mut list: Vec<Piece<K, V, H, S>>,
    node: &Node<K, V, S>,
) -> Result<Vec<Piece<K, V, H, S>>, AllocError>
    requires { IsPiece H.hash_of K.cmp (owned node.now) }
    ensures { IfOk result (λ v. v.items ≡ list.items ++ entries (owned node.now) ∷ []) }
{
    list.push(Piece {
        node: node.clone()?,
        hash: PhantomData,
    })?;
    Ok(list)
}
