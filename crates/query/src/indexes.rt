//! The columns of a query, by their indexes instead of their names.
ghost use Rattle.std.specs.Prelude.{◌≡◌, ◌++◌, IfOk, map, option_map};
ghost use Rattle.query.specs.Plans.{index_of, resolved_condition, resolved_item};
ghost use Rattle.query.specs.declared.item.Item.TheVariants.{Grouping};

use crate::item::{GroupingColumns, Item};
use crate::predicate::Predicate;
use crate::resolving::{Resolver, resolved};
use cells::{Column, Text};
use std::alloc::{AllocError, Global};
use std::marker::Model;

/// The index of the column of the name, and the number of columns where there is none.
fn index_of(columns: &[Column], name: &Text) -> usize
    ensures { result ≡ index_of columns.now name.now }
{
    for (index, column) in columns.iter().enumerate() {
        if column.name == *name {
            return index;
        }
    }
    columns.len()
}

/// The items, and more of them behind, with indexes for names.
pub fn resolved_items(
    alloc: Global,
    columns: &[Column],
    items: &[Item<Text>],
    more: &[Item<Text>],
) -> Result<Vec<Item<usize>>, AllocError>
    ensures { IfOk result (λ made. made.items ≡ map (resolved_item columns.now) (items.now ++ more.now)) }
{
    let mut made = Vec::new(alloc);
    add_resolved(alloc, &mut made, columns, items)?;
    add_resolved(alloc, &mut made, columns, more)?;
    Ok(made)
}

/// Adds the items with indexes for names behind those that are there.
fn add_resolved(
    alloc: Global,
    made: &mut Vec<Item<usize>>,
    columns: &[Column],
    items: &[Item<Text>],
) -> Result<(), AllocError>
    ensures { IfOk result (λ _. made.new.items ≡ made.old.items ++ map (resolved_item columns.now) items.now) }
{
    for item in items {
        made.push(resolved_item(alloc, columns, item)?)?;
    }
    Ok(())
}

/// The item with indexes for its names.
fn resolved_item(
    alloc: Global,
    columns: &[Column],
    item: &Item<Text>,
) -> Result<Item<usize>, AllocError>
    ensures { IfOk result (λ made. made ≡ resolved_item columns.now item.now) }
{
    match item {
        Item::Column(name) => Ok(Item::Column(index_of(columns, name))),
        Item::Grouping(names) => resolved_grouping(alloc, columns, names.as_slice()),
        Item::CountRows => Ok(Item::CountRows),
        Item::Count(name) => Ok(Item::Count(index_of(columns, name))),
        Item::CountDistinct(name) => Ok(Item::CountDistinct(index_of(columns, name))),
        Item::Sum(name) => Ok(Item::Sum(index_of(columns, name))),
        Item::Min(name) => Ok(Item::Min(index_of(columns, name))),
        Item::Max(name) => Ok(Item::Max(index_of(columns, name))),
    }
}

/// GROUPING of the columns of the names, by their indexes.
fn resolved_grouping(
    alloc: Global,
    columns: &[Column],
    names: &[Text],
) -> Result<Item<usize>, AllocError>
    ensures { IfOk result (λ made. made ≡ Grouping (map (index_of columns.now) names.now)) }
{
    let indexes = names
        .iter()
        .map(|name| index_of(columns, name))
        .collect(alloc)?;
    Ok(Item::Grouping(GroupingColumns::new(indexes)))
}

/// The predicate of WHERE with indexes for names, where there is one.
pub fn resolved_condition(
    alloc: Global,
    columns: &[Column],
    condition: Option<Predicate<Text>>,
) -> Result<Option<Predicate<usize>>, AllocError>
    ensures { IfOk result (λ made. made ≡ option_map (resolved_condition columns.now) condition) }
{
    match condition {
        Some(predicate) => {
            let mut names = ColumnNames { columns };
            resolved(alloc, &mut names, predicate).map(Some)
        }
        None => Ok(None),
    }
}

/// What has the index of a column for its name.
#[derive(Drop)]
struct ColumnNames<'a> {
    columns: &'a [Column],
}

impl<'a> Model for ColumnNames<'a> {
    ghost use Rattle.std.specs.Prelude.{List};
    ghost use Rattle.cells.specs.declared.schema.Column.{Column};

    ghost Value = { List Column };

    ghost view = { λ n. n.columns.now };
}

impl<'a> Resolver<Text> for ColumnNames<'a> {
    ghost index = { index_of };

    ghost after = { λ columns name. columns };

    fn resolve(&mut self, leaf: Text) -> Result<usize, AllocError> {
        Ok(index_of(self.columns, &leaf))
    }
}
