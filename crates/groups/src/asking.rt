//! WHERE asked of row after row of columns, where asking once for rows that are alike would gain nothing.
ghost use Rattle.std.specs.Prelude.{◌≡◌, ◌<◌, ◌∷◌, [], List, true, IfOk, OnOk, slice_index_or};
ghost use Rattle.std.specs.List.{AllByRecursion};
ghost use Rattle.cells.specs.Values.{RowValue};
ghost use Rattle.columns.specs.Columns.{HaveAll, Hold, has};
ghost use Rattle.groups.specs.Groups.{cell_at, tuple_of};
ghost use Rattle.groups.specs.Keeping.{KeptBy, truth_for};
ghost use Rattle.groups.specs.Numbered.{HaveRows, no_row};
ghost use Rattle.query.specs.Naming.{columns_named};

use crate::keeping::put_cells_for;
use crate::needed::column_of;
use crate::numbered::most_tuples;
use cells::Cell;
use columns::Columns;
use query::{Predicate, Truth, truth_by_columns};
use std::alloc::{AllocError, Global};

/// How many rows there are to be for each of the different tuples that the named columns may have, if these are to be numbered.
const ROWS_PER_TUPLE: usize = 4;

/// Whether the named columns may have more different tuples than are worth numbering for so many rows. Nothing rests on it.
pub fn are_many(columns: &Columns, named: &[usize], rows: usize) -> bool {
    most_tuples(columns, named) > rows / ROWS_PER_TUPLE
}

/// Those of the places whose rows the predicate is true for, which is asked of each. `named` are the columns that it names, and
/// `width` is more than each of their indexes.
pub fn asked_of_each(
    alloc: Global,
    predicate: &Predicate<usize>,
    columns: &Columns,
    named: &[usize],
    width: usize,
    places: &[u32],
) -> Result<Vec<u32>, AllocError>
    requires rows { HaveRows columns.now places.now }
    requires there { HaveAll named.now columns.now }
    requires named { named.now ≡ columns_named predicate.now }
    requires width { AllByRecursion (λ k. k < width) named.now }
    ensures { (all : List RowValue) → Hold all columns.now →
        IfOk result (λ v. KeptBy predicate.now all places.now v.items) }
{
    truth_by_columns();
    let mut tuple = Vec::with_capacity(alloc, named.len())?;
    let mut cells = Vec::with_capacity(alloc, width)?;
    let mut kept = Vec::new(alloc);
    for place in places {
        put_tuple(&mut tuple, columns, named, *place)?;
        if is_true_for(predicate, &mut cells, named, width, tuple.as_slice())? {
            kept.push(*place)?;
        }
    }
    Ok(kept)
}

/// Whether the predicate is true for a row with this tuple in the named columns. `cells` serves to ask it.
fn is_true_for(
    predicate: &Predicate<usize>,
    cells: &mut Vec<Cell>,
    named: &[usize],
    width: usize,
    tuple: &[Cell],
) -> Result<bool, AllocError>
    ensures { IfOk result (λ is. is ≡ truth_for predicate.now named.now width tuple.now) }
{
    put_cells_for(cells, named, width, tuple)?;
    let truth = predicate.truth_of_cells(cells.as_slice());
    Ok(matches!(truth, Truth::True))
}

/// Puts the tuple of a row in the named columns in the place of all that is there.
fn put_tuple(
    tuple: &mut Vec<Cell>,
    columns: &Columns,
    named: &[usize],
    place: u32,
) -> Result<(), AllocError>
    requires row { HaveRows columns.now (place ∷ []) }
    requires there { HaveAll named.now columns.now }
    ensures { (all : List RowValue) → Hold all columns.now →
        OnOk result (tuple.new.items ≡ tuple_of named.now (slice_index_or all place no_row)) }
{
    tuple.clear();
    for index in named {
        let cell = cell_of_row(columns, *index, place)?;
        tuple.push(cell)?;
    }
    Ok(())
}

/// The cell of a row in the column of the index.
fn cell_of_row(columns: &Columns, index: usize, place: u32) -> Result<Cell, AllocError>
    requires row { HaveRows columns.now (place ∷ []) }
    requires there { has columns.now index ≡ true }
    ensures { (all : List RowValue) → Hold all columns.now →
        IfOk result (λ cell. cell ≡ cell_at index (slice_index_or all place no_row)) }
{
    let column = column_of(columns, index);
    Ok(column.cell(column.codes()[place as usize])?)
}
