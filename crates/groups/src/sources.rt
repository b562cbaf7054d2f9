//! The grouping sets that rows are folded into, from whose groups those of all others can be made.
ghost use Rattle.std.specs.Prelude.{◌≡◌, ◌≤◌, ℕ, List, true, IfOk, length};
ghost use Rattle.std.specs.List.{AllByRecursion};
ghost use Rattle.groups.specs.Pools.{AddsSource, ArePlanned, AreSources, has_finer};

use crate::bag::Bag;
use crate::pool::SetBag;
use crate::set_columns::{has_all, most_columns};
use cells::{Cell, KeyHash};
use query::GroupSet;
use std::alloc::{AllocError, Global};

/// Sources for the sets, with no groups yet. Those of more columns come first, so that a set is a source only where
/// none has all its columns.
pub fn sources_of<H: KeyHash<Cell>>(
    alloc: Global,
    sets: &[GroupSet],
) -> Result<Vec<SetBag<H>>, AllocError>
    ensures { IfOk result (λ v. AreSources sets.now v.items) }
{
    let mut sources = Vec::new(alloc);
    let mut columns = most_columns(sets);
    while columns > 0 {
        add_sources(alloc, sets, columns, &mut sources)?;
        columns -= 1;
    }
    add_sources(alloc, sets, 0, &mut sources)?;
    Ok(sources)
}

/// Adds sources for the sets of so many columns or more.
fn add_sources<H: KeyHash<Cell>>(
    alloc: Global,
    sets: &[GroupSet],
    columns: usize,
    sources: &mut Vec<SetBag<H>>,
) -> Result<(), AllocError>
    requires { ArePlanned sets.now sources.old.items }
    ensures planned { IfOk result (λ _. ArePlanned sets.now sources.new.items) }
    ensures finer { IfOk result (λ _. AllByRecursion (λ (set : List ℕ). columns ≤ length set → has_finer sources.new.items set ≡ true) sets.now) }
{
    for group_set in sets {
        let set = group_set.columns.as_slice();
        if set.len() >= columns {
            add_source(alloc, set, sources)?;
        }
    }
    Ok(())
}

/// Adds the set as a source, unless one has all its columns.
fn add_source<H: KeyHash<Cell>>(
    alloc: Global,
    set: &[usize],
    sources: &mut Vec<SetBag<H>>,
) -> Result<(), AllocError>
    ensures { IfOk result (λ _. AddsSource set.now sources.old.items sources.new.items) }
{
    if has_finer(sources.as_slice(), set) {
        return Ok(());
    }
    let set = Vec::from_slice(alloc, set)?;
    let bag = Bag::new(alloc);
    sources.push(SetBag { set, bag })?;
    Ok(())
}

/// Whether one of the sources has all columns of the set.
fn has_finer<H: KeyHash<Cell>>(sources: &[SetBag<H>], set: &[usize]) -> bool
    ensures { result ≡ has_finer sources.now set.now }
{
    sources
        .iter()
        .any(|source| has_all(source.set.as_slice(), set))
}
