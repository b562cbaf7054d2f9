//! Lending the entries of a map one after another, with no list of them.
ghost use Rattle.std.specs.Prelude.{◌≡◌, OnOk};
ghost use Rattle.trie.specs.Holding.{pairs_of};
ghost use Rattle.trie.specs.Nodes.{owned};
ghost use Rattle.trie.specs.Tree.{entries};
ghost use Rattle.trie.specs.Walks.{MayTakeAll, TakesAll};

use crate::beside::Beside;
use crate::node::{Inner, Node};
use std::alloc::AllocError;
use std::sync::Arc;

/// What is lent the entries of a map, one after another.
pub trait Visitor<K, V> {
    /// What it asks of an entry that it is lent.
    ghost asks: { Self → K → V → Type 0 };

    /// What it is to take an entry: what the visitor was, the key, the value, and what it is then.
    ghost takes: { Self → K → V → Self → Type 0 };

    /// Takes an entry. An error, for want of memory, ends the walk.
    fn visit(&mut self, key: &K, value: &V) -> Result<(), AllocError>
        requires { asks self.old key.now value.now }
        ensures { OnOk result (takes self.old key.now value.now self.new) };

    /// Whether it pays to look at values before they are lent. It is asked at each branch anew. Nothing rests on it.
    fn looks(&self) -> bool {
        false
    }

    /// Looks at a value that it may be lent soon: reads what a visit would wait for, so that the processor fetches it for several
    /// values side by side. Contracts see no change of the visitor.
    fn look(&mut self, _value: &V)
        ensures { self.new ≡ self.old }
    {}
}

/// Lends the entries of the node, in digit order.
pub fn walk_node<K, V, S: Beside<K, V>, W: Visitor<K, V>>(
    node: &Node<K, V, S>,
    visitor: &mut W,
) -> Result<(), AllocError>
    requires { MayTakeAll W.asks W.takes visitor.old (entries (owned node.now)) }
    ensures { OnOk result (TakesAll W.takes visitor.old (entries (owned node.now)) visitor.new) }
{
    match node {
        Node::Leaf(pair) => visitor.visit(&pair.0, &pair.1),
        Node::Inner(inner) => match &**inner {
            Inner::Bucket(pairs) => walk_pairs(pairs, visitor),
            Inner::Branch { children, .. } => {
                look_below(children, visitor);
                for child in children {
                    walk_node(child, visitor)?;
                }
                Ok(())
            }
        },
    }
}

/// Lends these entries.
fn walk_pairs<K, V, W: Visitor<K, V>>(
    pairs: &Vec<Arc<(K, V)>>,
    visitor: &mut W,
) -> Result<(), AllocError>
    requires { MayTakeAll W.asks W.takes visitor.old (pairs_of pairs.now.items) }
    ensures { OnOk result (TakesAll W.takes visitor.old (pairs_of pairs.now.items) visitor.new) }
{
    for pair in pairs {
        visitor.visit(&pair.0, &pair.1)?;
    }
    Ok(())
}

/// Lets the visitor look at the leaves of those of these nodes that are branches, if it looks: some dozens where hashes spread
/// evenly.
fn look_below<K, V, S: Beside<K, V>, W: Visitor<K, V>>(nodes: &Vec<Node<K, V, S>>, visitor: &mut W)
    ensures { visitor.new ≡ visitor.old }
{
    // Counting reads all of them side by side. The loop below can't: how it goes on depends on what it has read of each.
    if !visitor.looks() || nodes.iter().filter(|node| begins_with_leaf(node)).count() == 0 {
        return;
    }
    for node in nodes {
        if let Node::Inner(inner) = node {
            if let Inner::Branch { children, .. } = &**inner {
                look_at_leaves(children, visitor);
            }
        }
    }
}

/// Lets the visitor look at those of these nodes that are leaves.
fn look_at_leaves<K, V, S: Beside<K, V>, W: Visitor<K, V>>(
    nodes: &Vec<Node<K, V, S>>,
    visitor: &mut W,
)
    ensures { visitor.new ≡ visitor.old }
{
    for node in nodes {
        if let Node::Leaf(pair) = node {
            visitor.look(&pair.1);
        }
    }
}

/// Whether the node is a branch whose first child is a leaf.
fn begins_with_leaf<K, V, S: Beside<K, V>>(node: &Node<K, V, S>) -> bool {
    let Node::Inner(inner) = node else {
        return false;
    };
    match &**inner {
        Inner::Bucket(_) => false,
        Inner::Branch { children, .. } => matches!(children.first(), Some(Node::Leaf(_))),
    }
}
