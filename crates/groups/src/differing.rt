//! COUNT DISTINCT of all groups at once, from a column: what is held of a group is made of the cells of the codes that it has, each
//! once, however many rows have it.
ghost use Rattle.std.specs.Prelude.{◌≡◌, ◌<◌, [], IfOk, length, map, replicate};
ghost use Rattle.std.specs.List.{AllByRecursion};
ghost use Rattle.aggs.specs.Accs.{acc_of};
ghost use Rattle.aggs.specs.Differing.{different};
ghost use Rattle.aggs.specs.declared.acc.Kind.TheVariants as kind;
ghost use Rattle.columns.specs.Columns.{decoded};
ghost use Rattle.groups.specs.Differing.{AreListed, cells_of_parts, groups_of_parts, lists_of};
ghost use Rattle.groups.specs.Numbered.{HasRows};
ghost use Rattle.groups.specs.Parting.{AreOfGroups, codes_at};
ghost use Rattle.groups.specs.Tallying.{AreTallied};

use crate::held::Held;
use crate::parting::{Part, Parts, parted};
use cells::{Cell, KeyHash};
use columns::CodeColumn;
use std::alloc::{AllocError, Global};

/// With at most so many groups and codes together their parts are found by a table that stays near.
const FEW_SLOTS: usize = 131_072;

/// What is held for COUNT DISTINCT of `count` groups, as of [`tallied`](crate::tallying::tallied).
pub fn tallied_different<H: KeyHash<Cell>>(
    alloc: Global,
    count: usize,
    numbers: &[u32],
    rows: &[u32],
    column: &CodeColumn,
    alone: bool,
) -> Result<Vec<Held<H>>, AllocError>
    requires rows { HasRows column.now rows.now }
    requires numbers { (length numbers.now ≡ length rows.now) × AllByRecursion (λ n. n < count) numbers.now }
    ensures { IfOk result (λ v. AreTallied kind.CountDistinct count numbers.now (decoded column.now.cells (codes_at column.now.by_row rows.now)) v.items) }
{
    if count.saturating_mul(column.span().width()) > FEW_SLOTS {
        return tallied_lists(alloc, count, numbers, rows, column, alone);
    }
    let made = parted(alloc, numbers, count, rows, column.codes(), column.span())?;
    let Parts { parts, .. } = made;
    Ok(tallied_parts(alloc, count, parts.as_slice(), column, alone)?)
}

/// The same of groups and codes that may be many together: the codes of each group are listed and sorted, since a table of all groups
/// and codes would be far too large to be near.
fn tallied_lists<H: KeyHash<Cell>>(
    alloc: Global,
    count: usize,
    numbers: &[u32],
    rows: &[u32],
    column: &CodeColumn,
    alone: bool,
) -> Result<Vec<Held<H>>, AllocError>
    requires rows { HasRows column.now rows.now }
    requires numbers { (length numbers.now ≡ length rows.now) × AllByRecursion (λ n. n < count) numbers.now }
    ensures { IfOk result (λ v. AreTallied kind.CountDistinct count numbers.now (decoded column.now.cells (codes_at column.now.by_row rows.now)) v.items) }
{
    let lists = codes_by_group(alloc, count, numbers, rows, column.codes())?;
    Ok(held_of_lists(alloc, lists, column, alone)?)
}

/// The codes of the rows of each of `count` groups.
fn codes_by_group(
    alloc: Global,
    count: usize,
    numbers: &[u32],
    rows: &[u32],
    codes: &[u32],
) -> Result<Vec<Vec<u32>>, AllocError>
    requires rows { AllByRecursion (λ row. row < length codes.now) rows.now }
    requires numbers { (length numbers.now ≡ length rows.now) × AllByRecursion (λ n. n < count) numbers.now }
    ensures { IfOk result (λ v. AreListed count numbers.now (codes_at codes.now rows.now) (lists_of v.items)) }
{
    let mut lists = empty_lists(alloc, count)?;
    for at in 0..rows.len() {
        let code = codes[rows[at] as usize];
        lists[numbers[at] as usize].push(code)?;
    }
    Ok(lists)
}

/// What is held for COUNT DISTINCT of the cells of each list of codes.
fn held_of_lists<H: KeyHash<Cell>>(
    alloc: Global,
    lists: Vec<Vec<u32>>,
    column: &CodeColumn,
    alone: bool,
) -> Result<Vec<Held<H>>, AllocError>
    ensures { IfOk result (λ v. v.items ≡ map (λ codes. acc_of kind.CountDistinct (decoded column.now.cells codes)) (lists_of lists.items)) }
{
    let mut all = Vec::with_capacity(alloc, lists.len())?;
    for codes in lists {
        all.push(held_of_codes(alloc, codes, column, alone)?)?;
    }
    Ok(all)
}

/// What is held for COUNT DISTINCT of the cells of some codes.
fn held_of_codes<H: KeyHash<Cell>>(
    alloc: Global,
    codes: Vec<u32>,
    column: &CodeColumn,
    alone: bool,
) -> Result<Held<H>, AllocError>
    ensures { IfOk result (λ h. h ≡ acc_of kind.CountDistinct (decoded column.now.cells codes.items)) }
{
    let cells = cells_once(alloc, codes, column)?;
    Held::of_different(alloc, cells, alone)
}

/// The cells of some codes, that of each code once.
fn cells_once(alloc: Global, codes: Vec<u32>, column: &CodeColumn) -> Result<Vec<Cell>, AllocError>
    ensures { IfOk result (λ v. different v.items ≡ different (decoded column.now.cells codes.items)) }
{
    let mut codes = codes;
    codes.sort_unstable();
    codes.dedup();
    Ok(cells_of_codes(alloc, codes.as_slice(), column)?)
}

/// The cells of some codes.
fn cells_of_codes(
    alloc: Global,
    codes: &[u32],
    column: &CodeColumn,
) -> Result<Vec<Cell>, AllocError>
    ensures { IfOk result (λ v. v.items ≡ decoded column.now.cells codes.now) }
{
    let mut cells = Vec::with_capacity(alloc, codes.len())?;
    for code in codes {
        cells.push(column.cell(*code)?)?;
    }
    Ok(cells)
}

/// What is held for COUNT DISTINCT of `count` groups, each made at once of the cells of the parts of its group.
fn tallied_parts<H: KeyHash<Cell>>(
    alloc: Global,
    count: usize,
    parts: &[Part],
    column: &CodeColumn,
    alone: bool,
) -> Result<Vec<Held<H>>, AllocError>
    requires { AreOfGroups count parts.now }
    ensures { IfOk result (λ v. AreTallied kind.CountDistinct count (groups_of_parts parts.now) (cells_of_parts column.now.cells parts.now) v.items) }
{
    let lists = cells_by_group(alloc, count, parts, column)?;
    Ok(all_held(alloc, lists, alone)?)
}

/// The cells of the parts of each of `count` groups.
fn cells_by_group(
    alloc: Global,
    count: usize,
    parts: &[Part],
    column: &CodeColumn,
) -> Result<Vec<Vec<Cell>>, AllocError>
    requires { AreOfGroups count parts.now }
    ensures { IfOk result (λ v. AreListed count (groups_of_parts parts.now) (cells_of_parts column.now.cells parts.now) (lists_of v.items)) }
{
    let mut lists = empty_lists(alloc, count)?;
    for part in parts {
        let cell = column.cell(part.code)?;
        lists[part.group as usize].push(cell)?;
    }
    Ok(lists)
}

/// So many lists of nothing.
fn empty_lists<T: Drop>(alloc: Global, count: usize) -> Result<Vec<Vec<T>>, AllocError>
    ensures { IfOk result (λ v. lists_of v.items ≡ replicate count []) }
{
    let mut lists = Vec::with_capacity(alloc, count)?;
    for _list in 0..count {
        lists.push(Vec::new(alloc))?;
    }
    Ok(lists)
}

/// What is held for COUNT DISTINCT of each list.
fn all_held<H: KeyHash<Cell>>(
    alloc: Global,
    lists: Vec<Vec<Cell>>,
    alone: bool,
) -> Result<Vec<Held<H>>, AllocError>
    ensures { IfOk result (λ v. v.items ≡ map (acc_of kind.CountDistinct) (lists_of lists.items)) }
{
    let mut all = Vec::with_capacity(alloc, lists.len())?;
    for list in lists {
        all.push(Held::of_different(alloc, list, alone)?)?;
    }
    Ok(all)
}
