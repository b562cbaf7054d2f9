//! The texts that a report's header has of the items of a select list.
ghost use Rattle.std.specs.Prelude.{◌≡◌, ◌++◌, IfOk, codes, map};
ghost use Rattle.query.specs.Headings.{call, heading, listed};

use crate::item::Item;
use cells::Text;
use std::alloc::{AllocError, Global};

/// The headings of the items, in order.
pub fn headings(alloc: Global, items: &[Item<Text>]) -> Result<Vec<Text>, AllocError>
    ensures { IfOk result (λ texts. texts.items ≡ map heading items.now) }
{
    let mut texts = Vec::new(alloc);
    for item in items {
        texts.push(heading(alloc, item)?)?;
    }
    Ok(texts)
}

/// The heading of an item, as `COUNT(DISTINCT ITEM)`.
fn heading(alloc: Global, item: &Item<Text>) -> Result<Text, AllocError>
    ensures { IfOk result (λ text. text ≡ heading item.now) }
{
    match item {
        Item::Column(name) => name.clone(),
        Item::Grouping(names) => grouping_call(alloc, names.as_slice()),
        Item::CountRows => Text::copied(alloc, "COUNT(*)"),
        Item::Count(name) => call(alloc, "COUNT", "", name),
        Item::CountDistinct(name) => call(alloc, "COUNT", "DISTINCT ", name),
        Item::Sum(name) => call(alloc, "SUM", "", name),
        Item::Min(name) => call(alloc, "MIN", "", name),
        Item::Max(name) => call(alloc, "MAX", "", name),
    }
}

/// A function's name with its argument in parentheses: a word that stands before it, and the column.
fn call(alloc: Global, function: &str, word: &str, column: &Text) -> Result<Text, AllocError>
    ensures { IfOk result (λ text. text ≡ call function.now (word.now ++ column.now)) }
{
    let mut text = String::from_str(alloc, function)?;
    text.push_str("(")?;
    text.push_str(word)?;
    text.push_str(column.as_str())?;
    text.push_str(")")?;
    Text::new(alloc, text)
}

/// GROUPING with its columns in parentheses, a comma and a blank between them.
fn grouping_call(alloc: Global, names: &[Text]) -> Result<Text, AllocError>
    ensures { IfOk result (λ text. text ≡ call (codes "GROUPING") (listed names.now)) }
{
    let mut text = String::from_str(alloc, "GROUPING(")?;
    let mut between = "";
    for name in names {
        text.push_str(between)?;
        text.push_str(name.as_str())?;
        between = ", ";
    }
    text.push_str(")")?;
    Text::new(alloc, text)
}
