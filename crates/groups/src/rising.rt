//! Groups in the order of their tuples.
ghost use Rattle.std.specs.Prelude.{◌≡◌, IfOk, IsTrue};
ghost use Rattle.std.specs.List.Sorted.{IsPermutation, IsSorted};
ghost use Rattle.std.specs.Map.{keys_of};
ghost use Rattle.cells.specs.TupleOrder.{tuple_cmp};
ghost use Rattle.trie.specs.Entries.{IsRising};
ghost use Rattle.trie.specs.Holding.{lent};

use crate::accumulators::Accumulators;
use crate::ranked::Ranked;
use cells::{Cell, KeyHash, Tuple};
use std::alloc::{AllocError, Global};
use std::cmp::Ordering;

/// The groups, one by one.
fn lent_groups<'a, H: KeyHash<Cell>>(
    alloc: Global,
    groups: &'a [(Tuple, Accumulators<H>)],
) -> Result<Vec<(&'a Tuple, &'a Accumulators<H>)>, AllocError>
    ensures { IfOk result (λ v. lent v.items ≡ groups.now) }
{
    let mut all = Vec::with_capacity(alloc, groups.len())?;
    for group in groups {
        all.push((&group.0, &group.1))?;
    }
    Ok(all)
}

/// The groups by their tuples, so that those of one tuple stand beside each other. None is copied.
pub fn in_order<'a, H: KeyHash<Cell>>(
    alloc: Global,
    groups: &'a [(Tuple, Accumulators<H>)],
) -> Result<Vec<(&'a Tuple, &'a Accumulators<H>)>, AllocError>
    ensures all { IfOk result (λ v. IsPermutation groups.now (lent v.items)) }
    ensures sorted { IfOk result (λ v. IsSorted tuple_cmp (keys_of (lent v.items))) }
{
    let mut all = lent_groups(alloc, groups)?;
    all.sort_by_cached_key(|group| Ranked::of(group.0))?;
    Ok(all)
}

/// Whether each tuple is less than the one after it, so that no two groups have one tuple.
pub fn rise<H: KeyHash<Cell>>(groups: &[(&Tuple, &Accumulators<H>)]) -> bool
    ensures { IsTrue result → IsRising tuple_cmp (keys_of (lent groups.now)) }
{
    for at in 1..groups.len() {
        let Ordering::Less = groups[at - 1].0.cmp(groups[at].0) else {
            return false;
        };
    }
    true
}
