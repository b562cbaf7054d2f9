//! The columns of grouping sets, and their indexes there.
ghost use Rattle.std.specs.Prelude.{◌≡◌, ◌≤◌, ℕ, List, true, IfOk, length};
ghost use Rattle.std.specs.List.{AllByRecursion};
ghost use Rattle.groups.specs.Coarsening.{AreIndexes};
ghost use Rattle.groups.specs.Groups.{index_in};
ghost use Rattle.groups.specs.Pools.{has_all};

use query::GroupSet;
use std::alloc::{AllocError, Global};

/// The index of the column in the grouping set, if it is there.
pub fn index_in(set: &[usize], column: usize) -> Option<usize>
    ensures { result ≡ index_in set.now column }
{
    set.iter().position(|c| *c == column)
}

/// Whether all columns of the set are among the finer ones.
pub fn has_all(finer: &[usize], set: &[usize]) -> bool
    ensures { result ≡ has_all finer.now set.now }
{
    set.iter().all(|column| index_in(finer, *column).is_some())
}

/// The indexes of the set's columns among the finer ones.
pub fn indexes_in(alloc: Global, finer: &[usize], set: &[usize]) -> Result<Vec<usize>, AllocError>
    requires { has_all finer.now set.now ≡ true }
    ensures { IfOk result (λ v. AreIndexes finer.now set.now v.items) }
{
    let mut indexes = Vec::new(alloc);
    for column in set {
        let Some(index) = index_in(finer, *column) else {
            unreachable!()
        };
        indexes.push(index)?;
    }
    Ok(indexes)
}

/// The most columns that one of the sets has.
pub fn most_columns(sets: &[GroupSet]) -> usize
    ensures { AllByRecursion (λ (set : List ℕ). length set ≤ result) sets.now }
{
    let mut most = 0;
    for set in sets {
        if set.columns.len() > most {
            most = set.columns.len();
        }
    }
    most
}
