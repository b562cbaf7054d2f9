//! Rows dealt out to lists, which workers fold side by side.
ghost use Rattle.std.specs.Prelude.{◌≡◌, ◌<◌, ◌≤◌, ◌^◌, [], IfOk, IsPermutation, length, replicate};
ghost use Rattle.std.specs.List.{concat, range_with_len};
ghost use Rattle.groups.specs.Dealing.{indexes_of};

use crate::numbered::most_tuples;
use crate::set_columns::has_all;
use columns::Columns;
use query::{GroupSet, Item, Plan};
use std::alloc::{AllocError, Global};

/// An odd number whose digits have no pattern: 2^64 over the golden ratio.
const MIXER: usize = 0x9E37_79B9_7F4A_7C15;

/// A set that may have more than one group for so many rows has many groups.
const ROWS_PER_GROUP: usize = 16;

/// How many rows a list may have for each that it would have if all had as many.
const MOST_TO_EVEN: usize = 2;

/// Indexes of rows, dealt out to lists.
#[derive(Drop)]
pub struct Dealt {
    /// The indexes of each list, rising.
    pub lists: Vec<Vec<u32>>,
    /// Whether rows of one tuple stand in one list, as far as codes tell. Nothing rests on it.
    pub apart: bool,
}

/// The indexes of `count` rows, dealt out to so many lists, each to one of them. Where the plan has one grouping set, which may
/// have many groups or counts different cells, rows are dealt by their tuples, so that what is folded of two lists has no group in
/// common; else, or if a list would have far more than its share, in ranges. The only error is that a growth was refused.
pub fn deal_out(
    alloc: Global,
    plan: &Plan,
    columns: &Columns,
    count: usize,
    lists: usize,
) -> Result<Dealt, AllocError>
    requires few { count ≤ 2 ^ 32 }
    requires some { 0 < lists }
    ensures all { IfOk result (λ d. IsPermutation (concat (indexes_of d.lists.items)) (range_with_len 0 count)) }
    ensures long { IfOk result (λ d. length d.lists.items ≡ lists) }
{
    let size = count.div_ceil(lists);
    let set = set_to_deal_by(plan, columns, count, lists);
    if !set.is_empty() {
        let by_tuple = Dealer { columns, set, size };
        let made = by_tuple.lists(alloc, count, lists)?;
        if are_even(made.as_slice(), size) {
            return Ok(Dealt {
                lists: made,
                apart: true,
            });
        }
    }
    let by_range = Dealer {
        columns,
        set: &[],
        size,
    };
    let made = by_range.lists(alloc, count, lists)?;
    Ok(Dealt {
        lists: made,
        apart: false,
    })
}

/// The set by whose tuples rows are dealt out; the empty one if they are not. Nothing rests on it.
fn set_to_deal_by<'p>(
    plan: &'p Plan,
    columns: &Columns,
    count: usize,
    lists: usize,
) -> &'p [usize] {
    if lists < 2 {
        return &[];
    }
    let Some(finest) = finest_set(plan.sets()) else {
        return &[];
    };
    let set = finest.columns.as_slice();
    let fewest = if counts_different(plan) {
        lists
    } else {
        count / ROWS_PER_GROUP
    };
    if most_tuples(columns, set) > fewest {
        set
    } else {
        &[]
    }
}

/// Whether rows of these columns, of which there are so many, have few groups in each grouping set of the plan, as far as codes tell,
/// and the plan counts no different cells: then it costs little to fold them apart from others. Nothing rests on it.
pub fn has_few_groups(plan: &Plan, columns: &Columns, count: u64) -> bool {
    let most = count as usize / ROWS_PER_GROUP;
    !counts_different(plan)
        && plan
            .sets()
            .iter()
            .all(|set| most_tuples(columns, set.columns.as_slice()) <= most)
}

/// Whether the plan has a COUNT(DISTINCT). Nothing rests on it.
fn counts_different(plan: &Plan) -> bool {
    plan.items()
        .iter()
        .any(|item| matches!(item, Item::CountDistinct(_)))
}

/// The set that has all columns of each of the sets, if one has. Nothing rests on it.
fn finest_set(sets: &[GroupSet]) -> Option<&GroupSet> {
    sets.iter().find(|set| is_finest(set, sets))
}

/// Whether the set has all columns of each of the sets. Nothing rests on it.
fn is_finest(set: &GroupSet, sets: &[GroupSet]) -> bool {
    sets.iter().all(|other| has_all(set.columns.as_slice(), other.columns.as_slice()))
}

/// Whether no list has far more rows than another. Nothing rests on it.
fn are_even(lists: &[Vec<u32>], size: usize) -> bool {
    lists.iter().all(|list| list.len() / MOST_TO_EVEN <= size)
}

/// How rows are dealt out.
#[derive(Drop)]
struct Dealer<'a> {
    columns: &'a Columns,
    // by the tuples of which set; the empty one: in ranges
    set: &'a [usize],
    // how many rows a range has
    size: usize,
}

impl Dealer<'_> {
    /// The indexes of `count` rows, each in one of the lists.
    fn lists(&self, alloc: Global, count: usize, lists: usize) -> Result<Vec<Vec<u32>>, AllocError>
        requires few { count ≤ 2 ^ 32 }
        requires some { 0 < lists }
        ensures all { IfOk result (λ v. IsPermutation (concat (indexes_of v.items)) (range_with_len 0 count)) }
        ensures long { IfOk result (λ v. length v.items ≡ lists) }
    {
        let mut made = empty_lists(alloc, lists, self.size)?;
        for row in 0..count {
            let list = self.list_of(row, lists);
            made[list].push(row as u32)?;
        }
        Ok(made)
    }

    /// The index of the list of a row.
    fn list_of(&self, row: usize, lists: usize) -> usize
        requires { 0 < lists }
        ensures { result < lists }
    {
        if lists == 1 {
            return 0;
        }
        let list = if self.set.is_empty() {
            row / self.size.max(1)
        } else {
            ((self.hash_of(row) >> 32).wrapping_mul(lists)) >> 32
        };
        list.min(lists - 1)
    }

    /// A hash of the row's codes in the columns of the set. Nothing rests on it.
    fn hash_of(&self, row: usize) -> usize {
        let mut hash = 0usize;
        for index in self.set {
            let code = self.code_at(*index, row);
            hash = (hash ^ code as usize).wrapping_mul(MIXER);
        }
        hash
    }

    /// The row's code in a column. Nothing rests on it.
    fn code_at(&self, index: usize, row: usize) -> u32 {
        let Some(column) = self.columns.at(index) else {
            return 0;
        };
        match column.codes().get(row) {
            Some(code) => *code,
            None => 0,
        }
    }
}

/// So many lists of no indexes, each with room for so many.
fn empty_lists(alloc: Global, lists: usize, room: usize) -> Result<Vec<Vec<u32>>, AllocError>
    ensures { IfOk result (λ v. indexes_of v.items ≡ replicate lists []) }
{
    let mut made = Vec::with_capacity(alloc, lists)?;
    for _list in 0..lists {
        made.push(Vec::with_capacity(alloc, room)?)?;
    }
    Ok(made)
}
