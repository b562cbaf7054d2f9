//! The entry of a key in two maps together.
ghost use Rattle.std.specs.Prelude.{◌≡◌, IfOk, Some};
ghost use Rattle.trie.specs.Holding.{found_in};
ghost use Rattle.trie.specs.Merging.{AreFound, AsksOf, blend_entries, blended, ClonesEqual};

use crate::blend::Blend;
use std::alloc::{AllocError, Global};
use std::sync::Arc;

/// The entry of a key that two maps have: the second's key, and the blend of both values. Where the
/// second's value stands, it is the second's entry, with one owner more.
pub fn blended_pair<K: Clone + Drop, V: Drop, B: Blend<V>>(
    alloc: Global,
    blend: &B,
    first: &Arc<(K, V)>,
    second: &Arc<(K, V)>,
) -> Result<Arc<(K, V)>, AllocError>
    requires clones { ClonesEqual K.is_clone }
    requires can { AsksOf (B.asks blend.now) first.now.value second.now.value }
    ensures { IfOk result (λ p. p.value ≡ blend_entries (B.blend_of blend.now) first.now.value second.now.value) }
{
    if blend.second_stands(&first.1, &second.1) {
        return Arc::try_clone(second);
    }
    let key = second.0.clone()?;
    let value = blend.blend(alloc, &first.1, &second.1)?;
    Ok(Arc::new(alloc, (key, value))?)
}

/// The entry of a key that one of two maps has at least: that of the one which has it, with one owner more, or the blend
/// of both.
pub fn pair_of_both<K: Clone + Drop, V: Drop, B: Blend<V>>(
    alloc: Global,
    blend: &B,
    first: Option<&Arc<(K, V)>>,
    second: Option<&Arc<(K, V)>>,
) -> Result<Arc<(K, V)>, AllocError>
    requires clones { ClonesEqual K.is_clone }
    requires found { AreFound (B.asks blend.now) (found_in first) (found_in second) }
    ensures { IfOk result (λ p. Some p.value ≡ blended (blend_entries (B.blend_of blend.now)) (found_in first.entry) (found_in second.entry)) }
{
    let Some(one) = first else {
        let Some(other) = second else { unreachable!() };
        return other.clone();
    };
    let Some(other) = second else {
        return one.clone();
    };
    blended_pair(alloc, blend, one, other)
}
