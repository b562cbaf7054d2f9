//! How two slots of one prefix meet, apart from what they become.
ghost use Rattle.std.specs.Prelude.{Some};
ghost use Rattle.trie.specs.Holding.{seen_in};
ghost use Rattle.trie.specs.Merging.{Meet, MeetsAs};
ghost use Rattle.trie.specs.Nodes.{Several};

use crate::beside::{Beside, Side};
use crate::blend::Blend;
use crate::digits::Bitmap;
use crate::node::{Inner, Node, NodeOf, Seen};
use cells::KeyHash;
use std::sync::Arc;

/// How two slots of one prefix meet: one is empty, or one is a leaf, or both are buckets, or both are branches.
pub enum Meeting<'a, K, V, B> {
    Alone(Option<&'a NodeOf<K, V, B>>),
    /// A leaf's pair, and the other slot.
    Leaf(&'a Arc<(K, V)>, Option<&'a NodeOf<K, V, B>>),
    Buckets(&'a Vec<Arc<(K, V)>>, &'a Vec<Arc<(K, V)>>),
    Branches {
        first: Bitmap,
        old: &'a Vec<NodeOf<K, V, B>>,
        second: Bitmap,
        more: &'a Vec<NodeOf<K, V, B>>,
    },
}

/// How the two slots meet, for a blend.
pub fn how_they_meet<'a, K: Ord, V, H: KeyHash<K>, S: Beside<K, V>, B: Blend<V>>(
    first: Seen<'a, K, V, S>,
    second: Seen<'a, K, V, S>,
    blend: &B,
    depth: u32,
) -> Meeting<'a, K, V, Side<K, V, S>>
    requires { Meet H.hash_of K.cmp (B.asks blend.now) depth (seen_in first) (seen_in second) }
    ensures { MeetsAs H.hash_of K.cmp (B.asks blend.now) (B.blend_of blend.now) depth (seen_in first.entry) (seen_in second.entry) result }
{
    let Some(one) = first else {
        return Meeting::Alone(second);
    };
    let Some(other) = second else {
        return Meeting::Alone(first);
    };
    match one {
        Node::Leaf(pair) => Meeting::Leaf(pair, second),
        Node::Inner(one) => match other {
            Node::Leaf(pair) => Meeting::Leaf(pair, first),
            Node::Inner(other) => inner_nodes_meet::<K, V, H, S, B>(one, other, blend, depth),
        },
    }
}

/// How two inner nodes meet: no bucket meets a branch, since a bucket's prefix is a whole hash.
fn inner_nodes_meet<'a, K: Ord, V, H: KeyHash<K>, S: Beside<K, V>, B: Blend<V>>(
    one: &'a Inner<K, V, Side<K, V, S>>,
    other: &'a Inner<K, V, Side<K, V, S>>,
    _blend: &B,
    depth: u32,
) -> Meeting<'a, K, V, Side<K, V, S>>
    requires { Meet H.hash_of K.cmp (B.asks _blend.now) depth (Some (Several one.now)) (Some (Several other.now)) }
    ensures { MeetsAs H.hash_of K.cmp (B.asks _blend.now) (B.blend_of _blend.now) depth (Some (Several one.now)) (Some (Several other.now)) result }
{
    match one {
        Inner::Bucket(pairs) => match other {
            Inner::Bucket(more) => Meeting::Buckets(pairs, more),
            Inner::Branch { .. } => unreachable!(),
        },
        Inner::Branch {
            bitmap,
            children,
            ..
        } => match other {
            Inner::Bucket(_) => unreachable!(),
            Inner::Branch {
                bitmap: second,
                children: more,
                ..
            } => Meeting::Branches {
                first: *bitmap,
                old: children,
                second: *second,
                more,
            },
        },
    }
}
