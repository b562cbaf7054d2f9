//! The rows that WHERE keeps, of rows whose columns are at hand.
ghost use Rattle.std.specs.Prelude.{◌≡◌, ◌<◌, List, IfOk, OnOk, length, map};
ghost use Rattle.std.specs.List.{AllByRecursion};
ghost use Rattle.cells.specs.Values.{RowValue};
ghost use Rattle.columns.specs.Columns.{HaveAll, Hold};
ghost use Rattle.groups.specs.Groups.{cell_at_index};
ghost use Rattle.groups.specs.Keeping.{KeptBy, cells_for, chosen, truth_for};
ghost use Rattle.groups.specs.Numbered.{HaveRows};
ghost use Rattle.query.specs.Names.{leaves_of};
ghost use Rattle.query.specs.Trees.{And, predicates_of};

use crate::asking::{are_many, asked_of_each};
use crate::numbered::groups_of;
use crate::set_columns::index_in;
use cells::{Cell, Tuple};
use columns::Columns;
use query::{Predicate, PredicateForm, Truth, truth_by_columns};
use std::alloc::{AllocError, Global};

/// Those of the places whose rows the predicate is true for. Where AND stands between predicates, each is asked of those alone
/// that those before it leave.
pub fn kept_by(
    alloc: Global,
    predicate: &Predicate<usize>,
    columns: &Columns,
    places: &[u32],
) -> Result<Vec<u32>, AllocError>
    requires rows { HaveRows columns.now places.now }
    requires there { HaveAll (leaves_of predicate.now) columns.now }
    ensures { (all : List RowValue) → Hold all columns.now →
        IfOk result (λ v. KeptBy predicate.now all places.now v.items) }
{
    if let PredicateForm::And(predicates) = predicate.form() {
        return kept_by_all(alloc, predicates.as_slice(), columns, places);
    }
    chosen_by(alloc, predicate, columns, places)
}

/// Those of the places whose rows all predicates are true for.
fn kept_by_all(
    alloc: Global,
    predicates: &[Predicate<usize>],
    columns: &Columns,
    places: &[u32],
) -> Result<Vec<u32>, AllocError>
    requires rows { HaveRows columns.now places.now }
    requires there { HaveAll (leaves_of (And (predicates_of predicates.now))) columns.now }
    ensures { (all : List RowValue) → Hold all columns.now →
        IfOk result (λ v. KeptBy (And (predicates_of predicates.now)) all places.now v.items) }
{
    let mut kept = Vec::from_slice(alloc, places)?;
    for predicate in predicates {
        kept = chosen_by(alloc, predicate, columns, kept.as_slice())?;
    }
    Ok(kept)
}

/// Those of the places whose rows the predicate is true for. It is asked once for those that have the same cells in the columns
/// that it names, unless these have about as many different ones as there are rows.
fn chosen_by(
    alloc: Global,
    predicate: &Predicate<usize>,
    columns: &Columns,
    places: &[u32],
) -> Result<Vec<u32>, AllocError>
    requires rows { HaveRows columns.now places.now }
    requires there { HaveAll (leaves_of predicate.now) columns.now }
    ensures { (all : List RowValue) → Hold all columns.now →
        IfOk result (λ v. KeptBy predicate.now all places.now v.items) }
{
    truth_by_columns();
    let named = predicate.columns(alloc)?;
    let width = width_of(named.as_slice())?;
    if are_many(columns, named.as_slice(), places.len()) {
        return asked_of_each(alloc, predicate, columns, named.as_slice(), width, places);
    }
    let groups = groups_of(alloc, columns, named.as_slice(), places)?;
    let truths = truths(
        alloc,
        predicate,
        named.as_slice(),
        width,
        groups.tuples.as_slice(),
    )?;
    let kept = chosen(alloc, places, groups.numbers.as_slice(), truths.as_slice())?;
    Ok(kept)
}

/// How many cells a list has that has one for each of these columns. The only error is that such a list would be too long for
/// any memory.
fn width_of(named: &[usize]) -> Result<usize, AllocError>
    ensures { IfOk result (λ width. AllByRecursion (λ k. k < width) named.now) }
{
    let mut width = 0usize;
    for index in named {
        let Some(enough) = index.checked_add(1) else {
            return Err(AllocError);
        };
        width = width.max(enough);
    }
    Ok(width)
}

/// Whether the predicate is true for rows of each of these tuples, whose cells stand in the columns that it names.
fn truths(
    alloc: Global,
    predicate: &Predicate<usize>,
    named: &[usize],
    width: usize,
    tuples: &[Tuple],
) -> Result<Vec<bool>, AllocError>
    ensures { IfOk result (λ v. v.items ≡ map (truth_for predicate.now named.now width) tuples.now) }
{
    let mut truths = Vec::with_capacity(alloc, tuples.len())?;
    let mut cells = Vec::with_capacity(alloc, width)?;
    for tuple in tuples {
        put_cells_for(&mut cells, named, width, tuple.cells())?;
        let truth = predicate.truth_of_cells(cells.as_slice());
        truths.push(matches!(truth, Truth::True))?;
    }
    Ok(truths)
}

/// Puts the cells of a row with this tuple in the named columns, and NULL in all others, in the place of all that are there.
pub fn put_cells_for(
    cells: &mut Vec<Cell>,
    named: &[usize],
    width: usize,
    tuple: &[Cell],
) -> Result<(), AllocError>
    ensures { OnOk result (cells.new.items ≡ cells_for named.now width tuple.now) }
{
    cells.clear();
    for index in 0..width {
        let cell = cell_in(tuple, index_in(named, index))?;
        cells.push(cell)?;
    }
    Ok(())
}

/// A copy of the tuple's cell of an index, and NULL for none.
fn cell_in(tuple: &[Cell], index: Option<usize>) -> Result<Cell, AllocError>
    ensures { IfOk result (λ cell. cell ≡ cell_at_index tuple.now index) }
{
    match index {
        None => Ok(Cell::Null),
        Some(at) => match tuple.get(at) {
            None => Ok(Cell::Null),
            Some(cell) => cell.clone(),
        },
    }
}

/// Those of the indexes whose numbers are marked.
fn chosen(
    alloc: Global,
    indexes: &[u32],
    numbers: &[u32],
    marks: &[bool],
) -> Result<Vec<u32>, AllocError>
    requires one { length numbers.now ≡ length indexes.now }
    requires within { AllByRecursion (λ n. n < length marks.now) numbers.now }
    ensures { IfOk result (λ v. v.items ≡ chosen marks.now numbers.now indexes.now) }
{
    let mut kept = Vec::with_capacity(alloc, indexes.len())?;
    for at in 0..indexes.len() {
        if marks[numbers[at] as usize] {
            kept.push(indexes[at])?;
        }
    }
    Ok(kept)
}
