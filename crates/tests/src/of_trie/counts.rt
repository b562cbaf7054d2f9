//! How many nodes a call makes.

use crate::of_trie::One;
use cells::{Cell, KeyHash, Plain};
use std::alloc::{AllocError, Global};
use std::process::Abort;
use std::test::Fail;
use trie::{Ticks, Trie};

/// A key that is put or taken out.
#[derive(Clone, Copy)]
enum Step {
    Put(i64),
    Remove(i64),
}

use Step::*;

/// Puts the key, or takes it out.
fn change<H: KeyHash<Cell>>(
    rt: &impl Abort,
    alloc: Global,
    map: &mut Trie<Cell, Cell, H>,
    step: Step,
    ticks: &mut Ticks,
) -> Result<(), AllocError> {
    assert!(*rt; map.len() < 1_000);
    *map = match step {
        Put(key) => map.put(alloc, Cell::Int(key), Cell::Null, ticks)?,
        Remove(key) => map.remove(alloc, &Cell::Int(key), ticks)?,
    };
    Ok(())
}

/// Makes the steps, for each of which so many nodes are made.
fn make_all<H: KeyHash<Cell>>(
    rt: &impl Abort,
    alloc: Global,
    map: &mut Trie<Cell, Cell, H>,
    steps: &[(Step, u64)],
) -> Result<(), AllocError> {
    for (step, made) in steps {
        let mut ticks = Ticks::new();
        change(rt, alloc, map, *step, &mut ticks)?;
        assert_eq!(*rt; ticks.made(), *made);
    }
    Ok(())
}

/// The same from the map without an entry on.
fn check<H: KeyHash<Cell>>(
    rt: &impl Abort,
    alloc: Global,
    steps: &[(Step, u64)],
) -> Result<(), AllocError> {
    let mut map: Trie<Cell, Cell, H> = Trie::empty();
    let made = make_all(rt, alloc, &mut map, steps);
    drop(map);
    made
}

/// 1 is a leaf. 33 shares its first digit: the root, a branch below it and a leaf. A put of a key
/// that is there makes the nodes on its path anew.
const NEAR: [(Step, u64); 9] = [
    (Put(1), 1),
    (Put(33), 3),
    (Put(2), 2),
    (Put(33), 3),
    (Remove(3), 0),
    (Remove(65), 0),
    (Remove(33), 1),
    (Remove(2), 0),
    (Remove(1), 0),
];

/// 0 and this differ in the last digit alone.
const FAR_KEY: i64 = 1_152_921_504_606_846_976;

/// Far keys need a branch for each digit, and a leaf. With one of them gone no branch is left, and the other's leaf is
/// the root, shared and not made anew.
const FAR: [(Step, u64); 4] = [
    (Put(0), 1),
    (Put(FAR_KEY), 14),
    (Remove(FAR_KEY), 0),
    (Remove(0), 0),
];

/// Keys of one hash: a branch for each digit and a bucket, and a leaf once one key is left.
const ONE_HASH: [(Step, u64); 7] = [
    (Put(5), 1),
    (Put(3), 14),
    (Put(4), 14),
    (Remove(9), 0),
    (Remove(3), 14),
    (Remove(5), 1),
    (Remove(4), 0),
];

#[test]
fn steps_make_so_many_nodes(rt: HostRuntime) -> Result<(), Fail> {
    check::<Plain>(&rt, rt.alloc(), &NEAR)?;
    check::<Plain>(&rt, rt.alloc(), &FAR)?;
    check::<One>(&rt, rt.alloc(), &ONE_HASH)?;
    Ok(())
}
