//! The marks by which a row tells which columns its grouping set lacks.
ghost use Rattle.std.specs.Prelude.{◌≡◌, ◌++◌, IfOk, map};
ghost use Rattle.query.specs.Marking.{mark_of, with_marks};

use crate::item::{GroupingColumns, Item};
use cells::Text;
use std::alloc::{AllocError, Global};

/// The items with the marks of the first ones behind these.
pub fn with_marks(
    alloc: Global,
    mut items: Vec<Item<usize>>,
    many: usize,
) -> Result<Vec<Item<usize>>, AllocError>
    ensures { IfOk result (λ all. all.items ≡ with_marks many items.items) }
{
    let many = many.min(items.len());
    let mut behind = items.split_off(many)?;
    let mut marks = marks_of(alloc, items.as_slice())?;
    items.append(&mut marks)?;
    items.append(&mut behind)?;
    Ok(items)
}

/// The marks of items.
fn marks_of(alloc: Global, items: &[Item<usize>]) -> Result<Vec<Item<usize>>, AllocError>
    ensures { IfOk result (λ marks. marks.items ≡ map mark_of items.now) }
{
    let mut marks = Vec::with_capacity(alloc, items.len())?;
    for item in items {
        marks.push(mark_of(alloc, item)?)?;
    }
    Ok(marks)
}

/// The mark of an item: GROUPING of the column that it is, and of no column for any other item.
fn mark_of(alloc: Global, item: &Item<usize>) -> Result<Item<usize>, AllocError>
    ensures { IfOk result (λ mark. mark ≡ mark_of item.now) }
{
    let mut columns = Vec::new(alloc);
    if let Item::Column(column) = item {
        columns.push(*column)?;
    }
    Ok(Item::Grouping(GroupingColumns::new(columns)))
}

/// The headings, and each of them once more behind all.
pub fn twice(mut headings: Vec<Text>) -> Result<Vec<Text>, AllocError>
    ensures { IfOk result (λ all. all.items ≡ headings.items ++ headings.items) }
{
    let mut more = headings.clone()?;
    headings.append(&mut more)?;
    Ok(headings)
}
