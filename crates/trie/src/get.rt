//! Looking a key up.
ghost use Rattle.std.specs.Prelude.{◌≡◌};
ghost use Rattle.trie.specs.Digits.{digit_order};
ghost use Rattle.trie.specs.Entries.{entry_at};
ghost use Rattle.trie.specs.Holding.{found_in, held_at, IsSlotAt, seen_in};

use crate::beside::Beside;
use crate::bucket::find;
use crate::digits::HashPrefix;
use crate::node::{Seen, View, step, view_of};
use cells::KeyHash;
use std::sync::Arc;

/// The entry of the key below the prefix, lent with its owner, so that it can be shared.
pub fn get_at<'a, K: Ord, V, H: KeyHash<K>, S: Beside<K, V>>(
    slot: Seen<'a, K, V, S>,
    key: &K,
    at: HashPrefix,
) -> Option<&'a Arc<(K, V)>>
    requires hashed { at.hash ≡ H.hash_of key.now }
    requires placed { IsSlotAt H.hash_of K.cmp at (seen_in slot) }
    ensures { found_in result ≡ entry_at (digit_order H.hash_of K.cmp) (held_at slot.entry) key.now }
{
    match view_of(slot) {
        View::Empty => None,
        View::Leaf(pair) => {
            if key.cmp(&pair.0).is_eq() {
                Some(pair)
            } else {
                None
            }
        }
        View::Bucket(pairs) => find(pairs, key),
        View::Branch {
            bitmap,
            children,
            ..
        } => {
            let (child, below) = step::<K, V, H, S>(bitmap, children, at);
            get_at::<K, V, H, S>(child, key, below)
        }
    }
}
