//! Rows numbered by their groups, column by column.
ghost use Rattle.std.specs.Prelude.{◌≡◌, ◌++◌, ◌∷◌, [], ℕ, List, IfOk, length};
ghost use Rattle.cells.specs.Values.{RowValue};
ghost use Rattle.columns.specs.Columns.{HaveAll, Hold, cell_of, cells_at, cells_of};
ghost use Rattle.groups.specs.Numbered.{AreNumbered, HasRows, HaveRows, NumberAll, picked_rows};
ghost use Rattle.groups.specs.Parting.{AreOfGroups, parted_tuples};

use crate::needed::column_of;
use crate::parting::{Part, Parts, parted};
use cells::Tuple;
use columns::{CodeColumn, Columns};
use std::alloc::{AllocError, Global};

/// The groups of some rows: a number for each row, and for each number the tuple of its rows. Two numbers may have one tuple,
/// since a column may have two codes for one cell.
#[derive(Drop)]
pub struct NumberedRows {
    pub numbers: Vec<u32>,
    pub tuples: Vec<Tuple>,
}

/// The groups of a set over the rows of these indexes.
pub fn groups_of(
    alloc: Global,
    columns: &Columns,
    set: &[usize],
    rows: &[u32],
) -> Result<NumberedRows, AllocError>
    requires rows { HaveRows columns.now rows.now }
    requires there { HaveAll set.now columns.now }
    ensures { (all : List RowValue) → Hold all columns.now →
        IfOk result (λ g. AreNumbered set.now (picked_rows all rows.now) g.numbers.items g.tuples.items) }
{
    let mut groups = NumberedRows::together(alloc, rows.len())?;
    for index in set {
        let finer = groups.cut(alloc, column_of(columns, *index), rows)?;
        groups = finer;
    }
    Ok(groups)
}

/// How many different tuples the columns of a set may have, by the codes that they have. Nothing rests on it.
pub fn most_tuples(columns: &Columns, set: &[usize]) -> usize {
    let mut tuples = 1usize;
    for index in set {
        if let Some(column) = columns.at(*index) {
            tuples = tuples.saturating_mul(column.span().width());
        }
    }
    tuples
}

impl NumberedRows {
    /// One group of all rows, if there is any.
    fn together(alloc: Global, count: usize) -> Result<NumberedRows, AllocError>
        ensures all { IfOk result (λ g. NumberAll count g.numbers.items g.tuples.items) }
        ensures one { (rows : List RowValue) → length rows ≡ count → IfOk result (λ g. AreNumbered [] rows g.numbers.items g.tuples.items) }
    {
        if count == 0 {
            return Ok(NumberedRows {
                numbers: Vec::new(alloc),
                tuples: Vec::new(alloc),
            });
        }
        let mut tuples = Vec::new(alloc);
        tuples.push(Tuple::new(Vec::new(alloc)))?;
        Ok(NumberedRows {
            numbers: Vec::from_elem(alloc, 0u32, count)?,
            tuples,
        })
    }

    /// The groups cut by the cells of a column, which comes after those of their set.
    fn cut(
        &self,
        alloc: Global,
        column: &CodeColumn,
        rows: &[u32],
    ) -> Result<NumberedRows, AllocError>
        requires rows { HasRows column.now rows.now }
        requires all { NumberAll (length rows.now) self.now.numbers.items self.now.tuples.items }
        ensures all { IfOk result (λ g. NumberAll (length rows.now) g.numbers.items g.tuples.items) }
        ensures cut { (all : List RowValue) (set : List ℕ) (index : ℕ) → cells_of column.now ≡ cells_at index all →
            AreNumbered set (picked_rows all rows.now) self.now.numbers.items self.now.tuples.items →
            IfOk result (λ g. AreNumbered (set ++ index ∷ []) (picked_rows all rows.now) g.numbers.items g.tuples.items) }
    {
        let finer = parted(
            alloc,
            self.numbers.as_slice(),
            self.tuples.len(),
            rows,
            column.codes(),
            column.span(),
        )?;
        let Parts { numbers, parts } = finer;
        let tuples = self.tuples_of(alloc, parts.as_slice(), column)?;
        Ok(NumberedRows { numbers, tuples })
    }

    /// The tuples of parts of the groups: each is its group's with the cell of its code behind it.
    fn tuples_of(
        &self,
        alloc: Global,
        parts: &[Part],
        column: &CodeColumn,
    ) -> Result<Vec<Tuple>, AllocError>
        requires { AreOfGroups (length self.now.tuples.items) parts.now }
        ensures { IfOk result (λ v. v.items ≡ parted_tuples self.now.tuples.items column.now.cells parts.now) }
    {
        let mut tuples = Vec::with_capacity(alloc, parts.len())?;
        for part in parts {
            let coarser = &self.tuples[part.group as usize];
            tuples.push(longer(alloc, coarser, column, part.code)?)?;
        }
        Ok(tuples)
    }
}

/// The tuple with the cell of a code behind its own.
fn longer(alloc: Global, tuple: &Tuple, column: &CodeColumn, code: u32) -> Result<Tuple, AllocError>
    ensures { IfOk result (λ t. t ≡ tuple.now ++ cell_of column.now.cells code ∷ []) }
{
    let cells = tuple.cells();
    let mut all = Vec::with_capacity(alloc, cells.len() + 1)?;
    for cell in cells {
        all.push(cell.clone()?)?;
    }
    all.push(column.cell(code)?)?;
    Ok(Tuple::new(all))
}
