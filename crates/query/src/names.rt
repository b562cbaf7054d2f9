//! Whether the names in a query are those of columns.
ghost use Rattle.std.specs.Prelude.{◌≡◌, bytes_eq, not};
ghost use Rattle.std.specs.List.{flat_map, list_any};
ghost use Rattle.query.specs.Checks.{has_unknown, is_column, is_unknown};
ghost use Rattle.query.specs.Names.{item_names, operand_leaves, test_leaves, tests_of};

use crate::finding::{Finder, is_in_elements};
use crate::item::Item;
use crate::predicate::{Predicate, PredicateForm};
use crate::query::Query;
use crate::test::{Operand, Test};
use cells::{Column, Schema, Text};

/// Whether the query is of another table than the schema's, or some name in it is no column.
pub fn is_unknown(query: &Query, schema: &Schema) -> bool
    ensures { result ≡ is_unknown schema.now query.now }
{
    if query.table().as_str() != schema.name() {
        return true;
    }
    let columns = schema.columns();
    if has_unknown_item(columns, query.items()) {
        return true;
    }
    if has_unknown_item(columns, query.having_items()) {
        return true;
    }
    if let Some(predicate) = query.condition() {
        if is_unknown_predicate(columns, predicate) {
            return true;
        }
    }
    is_in_elements(&NoColumn { columns }, query.elements())
}

/// Looks for names that are no column's.
#[derive(Clone, Copy, Drop)]
struct NoColumn<'a> {
    columns: &'a [Column],
}

impl Finder<Text> for NoColumn<'_> {
    ghost finds = { λ f name. not (is_column f.columns.now name) };

    fn finds(&self, name: &Text) -> bool {
        !is_column(self.columns, name)
    }
}

/// Whether there is a column of the name.
fn is_column(columns: &[Column], name: &Text) -> bool
    ensures { result ≡ is_column columns.now name.now }
{
    columns.iter().any(|column| column.name == *name)
}

/// Whether some item names no column.
fn has_unknown_item(columns: &[Column], items: &[Item<Text>]) -> bool
    ensures { result ≡ has_unknown columns.now (flat_map item_names items.now) }
{
    for item in items {
        if is_unknown_item(columns, item) {
            return true;
        }
    }
    false
}

/// Whether the item names no column.
fn is_unknown_item(columns: &[Column], item: &Item<Text>) -> bool
    ensures { result ≡ has_unknown columns.now (item_names item.now) }
{
    match item {
        Item::CountRows => false,
        Item::Grouping(names) => has_unknown_name(columns, names.as_slice()),
        Item::Column(name)
        | Item::Count(name)
        | Item::CountDistinct(name)
        | Item::Sum(name)
        | Item::Min(name)
        | Item::Max(name) => !is_column(columns, name),
    }
}

/// Whether some test of the predicate names no column.
fn is_unknown_predicate(columns: &[Column], predicate: &Predicate<Text>) -> bool
    ensures { result ≡ has_unknown columns.now (flat_map test_leaves (tests_of predicate.now)) }
{
    match &predicate.form {
        PredicateForm::Or(inners) | PredicateForm::And(inners) => {
            for inner in inners {
                if is_unknown_predicate(columns, inner) {
                    return true;
                }
            }
            false
        }
        PredicateForm::Not(inner) => is_unknown_predicate(columns, &**inner),
        PredicateForm::Test(test) => is_unknown_test(columns, test),
    }
}

/// Whether the test names no column.
fn is_unknown_test(columns: &[Column], test: &Test<Text>) -> bool
    ensures { result ≡ has_unknown columns.now (test_leaves test.now) }
{
    match test {
        Test::Compare(a, _, b) => {
            if is_unknown_operand(columns, a) {
                return true;
            }
            is_unknown_operand(columns, b)
        }
        Test::IsNull { operand, .. } => is_unknown_operand(columns, operand),
        Test::Between {
            operand,
            low,
            high,
            ..
        } => {
            if is_unknown_operand(columns, operand) {
                return true;
            }
            if is_unknown_operand(columns, low) {
                return true;
            }
            is_unknown_operand(columns, high)
        }
        Test::In { operand, .. } => is_unknown_operand(columns, operand),
    }
}

/// Whether the operand names no column.
fn is_unknown_operand(columns: &[Column], operand: &Operand<Text>) -> bool
    ensures { result ≡ has_unknown columns.now (operand_leaves operand.now) }
{
    match operand {
        Operand::Column(name) => !is_column(columns, name),
        Operand::Literal(_) => false,
    }
}

/// Whether some name is that of no column.
fn has_unknown_name(columns: &[Column], names: &[Text]) -> bool
    ensures { result ≡ has_unknown columns.now names.now }
{
    names.iter().any(|name| !is_column(columns, name))
}
