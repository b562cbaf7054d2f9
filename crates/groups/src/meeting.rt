//! The sources of two foldings of one plan put together.
ghost use Rattle.std.specs.Prelude.{◌≡◌, IfOk, IsTrue};
ghost use Rattle.std.specs.List.{AllByRecursion, AllZip};
ghost use Rattle.groups.specs.Bags.{CanJoin, HasBoth};
ghost use Rattle.groups.specs.Folds.{MayTakeOthers, TakesOthers};
ghost use Rattle.groups.specs.Pools.{sets_of};

use crate::bag::Bag;
use crate::pool::{SetBag, bag_from, coarser_bag};
use cells::{Cell, KeyHash};
use std::alloc::{AllocError, Global};

/// The sources, each with the rows that went into the others behind its own. Where both are apart, as far as is known, no groups of
/// one tuple are looked for.
pub fn all_with_others<H: KeyHash<Cell>>(
    alloc: Global,
    sources: Vec<SetBag<H>>,
    others: Vec<SetBag<H>>,
    apart: bool,
) -> Result<Vec<SetBag<H>>, AllocError>
    requires { AllByRecursion (MayTakeOthers others.items) sources.items }
    ensures { IfOk result (λ v. AllZip (TakesOthers others.items) sources.items v.items) }
{
    if have_same_sets(sources.as_slice(), others.as_slice()) {
        return each_with_its_other(alloc, sources, others, apart);
    }
    each_with_others(alloc, sources, others.as_slice())
}

/// Whether both have the same sets, in the same order, as the sources of two foldings of one plan have.
fn have_same_sets<H: KeyHash<Cell>>(sources: &[SetBag<H>], others: &[SetBag<H>]) -> bool
    ensures { IsTrue result → sets_of others.now ≡ sets_of sources.now }
{
    if sources.len() != others.len() {
        return false;
    }
    for at in 0..sources.len() {
        if sources[at].set.as_slice() != others[at].set.as_slice() {
            return false;
        }
    }
    true
}

/// The sources, each with the groups of the other of its set, which are moved there.
fn each_with_its_other<H: KeyHash<Cell>>(
    alloc: Global,
    sources: Vec<SetBag<H>>,
    others: Vec<SetBag<H>>,
    apart: bool,
) -> Result<Vec<SetBag<H>>, AllocError>
    requires may { AllByRecursion (MayTakeOthers others.items) sources.items }
    requires same { sets_of others.items ≡ sets_of sources.items }
    ensures { IfOk result (λ v. AllZip (TakesOthers others.items) sources.items v.items) }
{
    let mut joined = Vec::with_capacity(alloc, sources.len())?;
    let mut others = others.into_iter();
    for source in sources {
        let Some(other) = others.next() else {
            unreachable!()
        };
        joined.push(with_other(alloc, source, other, apart)?)?;
    }
    Ok(joined)
}

/// A source with the groups of the other of its set.
fn with_other<H: KeyHash<Cell>>(
    alloc: Global,
    source: SetBag<H>,
    other: SetBag<H>,
    apart: bool,
) -> Result<SetBag<H>, AllocError>
    requires { CanJoin source.bag other.bag }
    ensures set { IfOk result (λ made. made.set.items ≡ source.set.items) }
    ensures both { IfOk result (λ made. HasBoth source.bag other.bag made.bag) }
{
    let SetBag { set, bag } = source;
    let SetBag { bag: more, .. } = other;
    let bag = both(alloc, bag, more, apart)?;
    Ok(SetBag { set, bag })
}

/// The groups of both, which are put together where they have one tuple, unless they are apart.
fn both<H: KeyHash<Cell>>(
    alloc: Global,
    bag: Bag<H>,
    more: Bag<H>,
    apart: bool,
) -> Result<Bag<H>, AllocError>
    requires { CanJoin bag more }
    ensures { IfOk result (HasBoth bag more) }
{
    if apart {
        return bag.with(more);
    }
    bag.join(alloc, more)
}

/// The sources, where the others may have other sets: each with groups that are made of the others'.
fn each_with_others<H: KeyHash<Cell>>(
    alloc: Global,
    sources: Vec<SetBag<H>>,
    others: &[SetBag<H>],
) -> Result<Vec<SetBag<H>>, AllocError>
    requires { AllByRecursion (MayTakeOthers others.now) sources.items }
    ensures { IfOk result (λ v. AllZip (TakesOthers others.now) sources.items v.items) }
{
    let mut joined = Vec::with_capacity(alloc, sources.len())?;
    for source in sources {
        joined.push(with_others(alloc, source, others)?)?;
    }
    Ok(joined)
}

/// A source with the rows that went into the others behind its own. The groups of its set are made of the others' ones, as
/// those of a pool are, and groups of one tuple are then put together.
fn with_others<H: KeyHash<Cell>>(
    alloc: Global,
    source: SetBag<H>,
    others: &[SetBag<H>],
) -> Result<SetBag<H>, AllocError>
    requires { MayTakeOthers others.now source }
    ensures { IfOk result (TakesOthers others.now source) }
{
    let SetBag { set, bag } = source;
    let more = bag_from(alloc, set.as_slice(), others)?;
    let bag = bag.with(more)?;
    let both = SetBag { set, bag };
    let bag = coarser_bag(alloc, &both, both.set.as_slice())?;
    let SetBag { set, .. } = both;
    Ok(SetBag { set, bag })
}
