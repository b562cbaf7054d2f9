//! Accumulators of all groups at once, from a column.
ghost use Rattle.std.specs.Prelude.{◌≡◌, ◌<◌, ◌≤◌, List, [], None, Some, IfOk, length, map, replicate};
ghost use Rattle.std.specs.List.{AllByRecursion};
ghost use Rattle.aggs.specs.Room.{cell_limit};
ghost use Rattle.aggs.specs.declared.acc.Kind.TheVariants as kind;
ghost use Rattle.cells.specs.declared.cell.Cell.{Cell};
ghost use Rattle.columns.specs.Columns.{AreCodes, decoded};
ghost use Rattle.groups.specs.Numbered.{AreRowsOf, HasRows};
ghost use Rattle.groups.specs.Parting.{codes_at};
ghost use Rattle.groups.specs.Tallying.{AreStepped, AreTallied};

use crate::differing::tallied_different;
use crate::held::Held;
use crate::of_kind::OfKind;
use aggs::{Aggregate, Count, CountRows, Kind, Max, Min, Sum};
use cells::{Cell, KeyHash};
use columns::{CodeColumn, number_cell};
use std::alloc::{AllocError, Global};

/// Accumulators of `count` groups, each of the cells of its rows. `rows` has the indexes of the rows, and `numbers` the
/// numbers of their groups. Each is stepped with each row of its group, unless different cells are to be counted. `alone` says that no
/// other groups are likely to be put together with these; nothing rests on it.
pub fn tallied<H: KeyHash<Cell>>(
    alloc: Global,
    kind: Kind,
    count: usize,
    numbers: &[u32],
    rows: &[u32],
    column: &CodeColumn,
    alone: bool,
) -> Result<Vec<Held<H>>, AllocError>
    requires rows { HasRows column.now rows.now }
    requires numbers { (length numbers.now ≡ length rows.now) × AllByRecursion (λ n. n < count) numbers.now }
    ensures { IfOk result (λ v. AreTallied kind count numbers.now (decoded column.now.cells (codes_at column.now.by_row rows.now)) v.items) }
{
    match kind {
        Kind::CountRows => tallied_by::<H, CountRows>(alloc, count, numbers, rows, column),
        Kind::Count => tallied_by::<H, Count>(alloc, count, numbers, rows, column),
        Kind::CountDistinct => {
            let made = tallied_different(alloc, count, numbers, rows, column, alone)?;
            Ok(made)
        }
        Kind::Sum => tallied_by::<H, Sum>(alloc, count, numbers, rows, column),
        Kind::Min => tallied_by::<H, Min>(alloc, count, numbers, rows, column),
        Kind::Max => tallied_by::<H, Max>(alloc, count, numbers, rows, column),
    }
}

/// Accumulators of `count` groups that count their rows, of whatever cells.
pub fn counted<H: KeyHash<Cell>>(
    alloc: Global,
    count: usize,
    numbers: &[u32],
) -> Result<Vec<Held<H>>, AllocError>
    requires numbers { AllByRecursion (λ n. n < count) numbers.now }
    requires few { length numbers.now ≤ cell_limit }
    ensures { (cells : List Cell) → length cells ≡ length numbers.now → IfOk result (λ v. AreTallied kind.CountRows count numbers.now cells v.items) }
{
    let mut accs = empties::<CountRows>(alloc, count)?;
    for number in numbers {
        accs[*number as usize].step(alloc, &Cell::Null)?;
    }
    each_held(alloc, accs)
}

/// The same as [`tallied`], by accumulators of one type.
fn tallied_by<H: KeyHash<Cell>, A: OfKind<H>>(
    alloc: Global,
    count: usize,
    numbers: &[u32],
    rows: &[u32],
    column: &CodeColumn,
) -> Result<Vec<Held<H>>, AllocError>
    requires rows { HasRows column.now rows.now }
    requires numbers { (length numbers.now ≡ length rows.now) × AllByRecursion (λ n. n < count) numbers.now }
    ensures { IfOk result (λ v. AreTallied A.kind count numbers.now (decoded column.now.cells (codes_at column.now.by_row rows.now)) v.items) }
{
    let accs = stepped::<A>(alloc, count, numbers, rows, column)?;
    each_held(alloc, accs)
}

/// Each of the accumulators, held.
fn each_held<H: KeyHash<Cell>, A: OfKind<H>>(
    alloc: Global,
    accs: Vec<A>,
) -> Result<Vec<Held<H>>, AllocError>
    ensures { IfOk result (λ v. v.items ≡ map A.acc accs.items) }
{
    let mut all = Vec::with_capacity(alloc, accs.len())?;
    for acc in accs {
        all.push(acc.held())?;
    }
    Ok(all)
}

/// Accumulators of `count` groups, each stepped with the cell of each row of its group.
fn stepped<A: Aggregate + Drop>(
    alloc: Global,
    count: usize,
    numbers: &[u32],
    rows: &[u32],
    column: &CodeColumn,
) -> Result<Vec<A>, AllocError>
    requires rows { HasRows column.now rows.now }
    requires numbers { (length numbers.now ≡ length rows.now) × AllByRecursion (λ n. n < count) numbers.now }
    ensures { IfOk result (λ v. AreStepped A.of count numbers.now (decoded column.now.cells (codes_at column.now.by_row rows.now)) v.items) }
{
    match column.cells() {
        Some(cells) => stepped_listed(alloc, count, numbers, rows, column.codes(), cells),
        None => stepped_numbers(alloc, count, numbers, rows, column.codes()),
    }
}

/// The same of the cells that codes have in a list.
fn stepped_listed<A: Aggregate + Drop>(
    alloc: Global,
    count: usize,
    numbers: &[u32],
    rows: &[u32],
    codes: &[u32],
    cells: &[Cell],
) -> Result<Vec<A>, AllocError>
    requires codes { AreCodes (Some cells.now) codes.now }
    requires rows { AreRowsOf codes.now rows.now }
    requires numbers { (length numbers.now ≡ length rows.now) × AllByRecursion (λ n. n < count) numbers.now }
    ensures { IfOk result (λ v. AreStepped A.of count numbers.now (decoded (Some cells.now) (codes_at codes.now rows.now)) v.items) }
{
    let mut accs = empties::<A>(alloc, count)?;
    for at in 0..rows.len() {
        let cell = &cells[codes[rows[at] as usize] as usize];
        accs[numbers[at] as usize].step(alloc, cell)?;
    }
    Ok(accs)
}

/// The same of the cells of numbers' codes.
fn stepped_numbers<A: Aggregate + Drop>(
    alloc: Global,
    count: usize,
    numbers: &[u32],
    rows: &[u32],
    codes: &[u32],
) -> Result<Vec<A>, AllocError>
    requires rows { AreRowsOf codes.now rows.now }
    requires numbers { (length numbers.now ≡ length rows.now) × AllByRecursion (λ n. n < count) numbers.now }
    ensures { IfOk result (λ v. AreStepped A.of count numbers.now (decoded None (codes_at codes.now rows.now)) v.items) }
{
    let mut accs = empties::<A>(alloc, count)?;
    for at in 0..rows.len() {
        let cell = number_cell(codes[rows[at] as usize]);
        accs[numbers[at] as usize].step(alloc, &cell)?;
    }
    Ok(accs)
}

/// So many accumulators of no cells.
fn empties<A: Aggregate + Drop>(alloc: Global, count: usize) -> Result<Vec<A>, AllocError>
    ensures { IfOk result (λ v. v.items ≡ replicate count (A.of [])) }
{
    let mut accs = Vec::with_capacity(alloc, count)?;
    for _acc in 0..count {
        accs.push(A::empty())?;
    }
    Ok(accs)
}
