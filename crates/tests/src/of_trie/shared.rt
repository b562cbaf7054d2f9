//! What a merge shares.

use crate::of_trie::One;
use cells::{Cell, KeyHash, Plain};
use std::alloc::{AllocError, Global};
use std::process::Abort;
use std::test::Fail;
use trie::{Later, Ticks, Trie};

/// A value of which each clone is refused, as for want of memory.
#[derive(Drop)]
struct Lone(i64);

impl Clone for Lone {
    ghost use Rattle.std.specs.Prelude.{◌≡◌};

    ghost is_clone = { λ value copy. copy ≡ value };

    fn clone(&self) -> Result<Lone, AllocError> {
        Err(AllocError)
    }
}

/// The map of these keys, each with a value that has no clone.
fn lone_values<H: KeyHash<Cell>>(
    rt: &impl Abort,
    alloc: Global,
    keys: &[i64],
) -> Result<Trie<Cell, Lone, H>, AllocError> {
    let mut map = Trie::empty();
    let mut ticks = Ticks::new();
    for key in keys {
        assert!(rt; map.len() < 1_000_000);
        map = map.put(alloc, Cell::Int(*key), Lone(*key), &mut ticks)?;
    }
    Ok(map)
}

/// How many keys the maps of these keys have together, where no value is cloned.
fn shared<H: KeyHash<Cell>>(
    rt: &impl Abort,
    alloc: Global,
    one: &[i64],
    other: &[i64],
) -> Result<u64, AllocError> {
    let one = lone_values::<H>(rt, alloc, one)?;
    let other = lone_values::<H>(rt, alloc, other)?;
    assert!(rt; one.len() < 1_000_000);
    assert!(rt; other.len() < 1_000_000);
    let both = one.merge(alloc, &other, &Later, &mut Ticks::new())?;
    Ok(both.len())
}

/// The second map's entries are shared: laid over a branch, under one, beside another branch, and in a bucket.
#[test]
fn later_entries_are_shared(rt: HostRuntime) -> Result<(), Fail> {
    assert!(rt; shared::<Plain>(&rt, rt.alloc(), &[1, 33, 2], &[33])? == 3);
    assert!(rt; shared::<Plain>(&rt, rt.alloc(), &[33], &[1, 33, 2])? == 3);
    assert!(rt; shared::<Plain>(&rt, rt.alloc(), &[1, 33, 2], &[33, 2, 3])? == 4);
    assert!(rt; shared::<One>(&rt, rt.alloc(), &[1, 2], &[2, 3])? == 3);
    Ok(())
}
