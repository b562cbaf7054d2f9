//! Whether a query puts integers beside texts.
ghost use Rattle.std.specs.Prelude.{◌≡◌};
ghost use Rattle.std.specs.List.{list_any};
ghost use Rattle.query.specs.Checks.{differ, is_mixed, is_text_column, is_text_item, is_text_literal, is_text_operand, is_text_at, is_text_sum, is_text_type, is_wrong_type};
ghost use Rattle.query.specs.Names.{tests_of, tests_where};
ghost use Rattle.query.specs.Values.{items_of};

use crate::finding::Finder;
use crate::item::Item;
use crate::predicate::{Predicate, PredicateForm};
use crate::query::Query;
use crate::test::{Literal, Operand, Test};
use cells::{Column, ColumnType, Schema, Text};

/// Whether the query has a SUM of a TEXT column, or an integer beside a text in a comparison, BETWEEN or IN.
/// Columns are texts by their type, literals by their form.
pub fn is_wrong_type(query: &Query, schema: &Schema) -> bool
    ensures { result ≡ is_wrong_type schema.now query.now }
{
    let columns = schema.columns();
    if sums_text(query, columns) {
        return true;
    }
    if is_mixed_condition(query, columns) {
        return true;
    }
    is_mixed_having(query, columns)
}

/// Whether some item, of the select list or of HAVING, is SUM of a TEXT column.
fn sums_text(query: &Query, columns: &[Column]) -> bool
    ensures { result ≡ list_any (is_text_sum columns.now) (items_of query.now) }
{
    if has_text_sum(columns, query.items()) {
        return true;
    }
    has_text_sum(columns, query.having_items())
}

/// Whether some test of WHERE puts an integer beside a text.
fn is_mixed_condition(query: &Query, columns: &[Column]) -> bool
    ensures { result ≡ list_any (is_mixed (is_text_column columns.now)) (tests_where query.now.condition) }
{
    match query.condition() {
        Some(predicate) => is_mixed_predicate(&TextColumns { columns }, predicate),
        None => false,
    }
}

/// Whether some test of HAVING puts an integer beside a text.
fn is_mixed_having(query: &Query, columns: &[Column]) -> bool
    ensures { result ≡ list_any (is_mixed (is_text_at columns.now query.now.having.items)) (tests_where query.now.having.predicate) }
{
    let items = query.having_items();
    match query.having() {
        Some(predicate) => is_mixed_predicate(&TextItems { columns, items }, predicate),
        None => false,
    }
}

/// Looks for the names of TEXT columns.
#[derive(Clone, Copy, Drop)]
struct TextColumns<'a> {
    columns: &'a [Column],
}

impl Finder<Text> for TextColumns<'_> {
    ghost finds = { λ t name. is_text_column t.columns.now name };

    fn finds(&self, name: &Text) -> bool {
        is_text_column(self.columns, name)
    }
}

/// Looks for texts among the items that HAVING names, by their indexes.
#[derive(Clone, Copy, Drop)]
struct TextItems<'a> {
    columns: &'a [Column],
    items: &'a [Item<Text>],
}

impl Finder<usize> for TextItems<'_> {
    ghost finds = { λ t index. is_text_at t.columns.now t.items.now index };

    fn finds(&self, index: &usize) -> bool {
        match self.items.get(*index) {
            Some(item) => is_text_item(self.columns, item),
            None => false,
        }
    }
}

/// Whether the values of the item are texts: those of a column, of MIN and of MAX are where the column is of type TEXT.
fn is_text_item(columns: &[Column], item: &Item<Text>) -> bool
    ensures { result ≡ is_text_item columns.now item.now }
{
    match item {
        Item::Column(name) | Item::Min(name) | Item::Max(name) => is_text_column(columns, name),
        Item::Grouping(_)
        | Item::CountRows
        | Item::Count(_)
        | Item::CountDistinct(_)
        | Item::Sum(_) => false,
    }
}

/// Whether some item is SUM of a TEXT column.
fn has_text_sum(columns: &[Column], items: &[Item<Text>]) -> bool
    ensures { result ≡ list_any (is_text_sum columns.now) items.now }
{
    items.iter().any(|item| is_text_sum(columns, item))
}

/// Whether the item is SUM of a TEXT column.
fn is_text_sum(columns: &[Column], item: &Item<Text>) -> bool
    ensures { result ≡ is_text_sum columns.now item.now }
{
    match item {
        Item::Sum(name) => is_text_column(columns, name),
        _ => false,
    }
}

/// Whether the column of the name is of type TEXT.
fn is_text_column(columns: &[Column], name: &Text) -> bool
    ensures { result ≡ is_text_column columns.now name.now }
{
    for column in columns {
        if column.name == *name {
            return is_text_type(column.kind);
        }
    }
    false
}

fn is_text_type(kind: ColumnType) -> bool
    ensures { result ≡ is_text_type kind }
{
    match kind {
        ColumnType::Int => false,
        ColumnType::Text => true,
    }
}

/// Whether some test of the predicate puts an integer beside a text.
fn is_mixed_predicate<C, F: Finder<C>>(texts: &F, predicate: &Predicate<C>) -> bool
    ensures { result ≡ list_any (is_mixed (F.finds texts.now)) (tests_of predicate.now) }
{
    match &predicate.form {
        PredicateForm::Or(inners) | PredicateForm::And(inners) => {
            for inner in inners {
                if is_mixed_predicate(texts, inner) {
                    return true;
                }
            }
            false
        }
        PredicateForm::Not(inner) => is_mixed_predicate(texts, &**inner),
        PredicateForm::Test(test) => is_mixed(texts, test),
    }
}

/// Whether the test puts an integer beside a text.
fn is_mixed<C, F: Finder<C>>(texts: &F, test: &Test<C>) -> bool
    ensures { result ≡ is_mixed (F.finds texts.now) test.now }
{
    match test {
        Test::Compare(a, _, b) => differ(is_text_operand(texts, a), is_text_operand(texts, b)),
        Test::IsNull { .. } => false,
        Test::Between {
            operand,
            low,
            high,
            ..
        } => {
            let is_text = is_text_operand(texts, operand);
            if differ(is_text, is_text_operand(texts, low)) {
                return true;
            }
            differ(is_text, is_text_operand(texts, high))
        }
        Test::In { operand, list, .. } => {
            has_other(is_text_operand(texts, operand), list.as_slice())
        }
    }
}

/// Whether the operand is a text.
fn is_text_operand<C, F: Finder<C>>(texts: &F, operand: &Operand<C>) -> bool
    ensures { result ≡ is_text_operand (F.finds texts.now) operand.now }
{
    match operand {
        Operand::Column(leaf) => texts.finds(leaf),
        Operand::Literal(literal) => is_text_literal(literal),
    }
}

fn is_text_literal(literal: &Literal) -> bool
    ensures { result ≡ is_text_literal literal.now }
{
    match literal {
        Literal::Int(_) => false,
        Literal::Text(_) => true,
    }
}

/// Whether some literal is of another type than the value before it.
fn has_other(is_text: bool, literals: &[Literal]) -> bool
    ensures { result ≡ list_any (λ l. differ is_text (is_text_literal l)) literals.now }
{
    literals
        .iter()
        .any(|literal| differ(is_text, is_text_literal(literal)))
}

fn differ(a: bool, b: bool) -> bool
    ensures { result ≡ differ a b }
{
    if a { !b } else { b }
}
