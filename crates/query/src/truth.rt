//! The truth of a predicate over a row, or over the values of a group, in three values.
ghost use Rattle.std.specs.Prelude.{◌≡◌, List, map};
ghost use Rattle.cells.specs.TotalOrder.{cell_total};
ghost use Rattle.cells.specs.declared.total.Total.{Total};
ghost use Rattle.query.specs.Lent.{total_of};
ghost use Rattle.query.specs.Truth.{among, and_truth, between, compared, is_null, literal_total, meets, negated, not_truth, or_truth, test_truth, truth, value_at, value_of};

use crate::predicate::{Predicate, PredicateForm};
use crate::test::{Comparison, Literal, Operand, Test};
use cells::{Cell, LentCell, Row, Total};
use std::cmp::Ordering;

/// One of the three truth values of the standard (ISO/IEC 9075-2:1999, `<boolean value expression>`).
#[derive(Clone, Copy, Debug, PartialEq, Eq, Drop)]
pub enum Truth {
    True,
    False,
    Unknown,
}

/// A value that a row, a group or a query lends. Integers have 128 bits, as sums do; of a text these are the bytes.
#[derive(Clone, Copy, Drop)]
enum Value<'a> {
    Null,
    Int(i128),
    Text(&'a [u8]),
}

/// What a predicate may be asked of a list of.
trait Valued {
    /// Its value.
    ghost total: { Self → Total };

    fn value(&self) -> Value<'_>
        ensures { total_of result ≡ total self.now };
}

impl Valued for Cell {
    ghost total = { cell_total };

    fn value(&self) -> Value<'_> {
        match self {
            Cell::Null => Value::Null,
            Cell::Int(n) => Value::Int(i128::from(*n)),
            Cell::Text(text) => Value::Text(text.as_bytes()),
        }
    }
}

impl Valued for Total {
    ghost total = { λ t. t };

    fn value(&self) -> Value<'_> {
        match self {
            Total::Null => Value::Null,
            Total::Int(n) => Value::Int(*n),
            Total::Text(text) => Value::Text(text.as_bytes()),
        }
    }
}

/// What a predicate may be asked of: a value for each index.
trait Values {
    /// The values, in the order of their indexes.
    ghost totals: { Self → List Total };

    /// The value at an index, and NULL where there is none.
    fn value(&self, index: usize) -> Value<'_>
        ensures { total_of result ≡ value_at (totals self.now) index };
}

impl Values for Row {
    ghost use Rattle.std.specs.Prelude.{map};
    ghost use Rattle.cells.specs.TotalOrder.{cell_total};

    ghost totals = { λ row. map cell_total row.cells };

    fn value(&self, index: usize) -> Value<'_> {
        match self.cell(index) {
            LentCell::Null => Value::Null,
            LentCell::Int(n) => Value::Int(i128::from(n)),
            LentCell::Text(text) => Value::Text(text.bytes),
        }
    }
}

/// A list of values.
#[derive(Drop)]
struct Listed<'a, V> {
    values: &'a [V],
}

impl<'a, V: Valued> Values for Listed<'a, V> {
    ghost use Rattle.std.specs.Prelude.{map};

    ghost totals = { λ l. map V.total l.values.now };

    fn value(&self, index: usize) -> Value<'_> {
        match self.values.get(index) {
            Some(value) => value.value(),
            None => Value::Null,
        }
    }
}

impl Truth {
    fn and(self, other: Truth) -> Truth
        ensures { result ≡ and_truth self other }
    {
        match (self, other) {
            (Truth::False, _) | (_, Truth::False) => Truth::False,
            (Truth::True, Truth::True) => Truth::True,
            _ => Truth::Unknown,
        }
    }

    fn or(self, other: Truth) -> Truth
        ensures { result ≡ or_truth self other }
    {
        match (self, other) {
            (Truth::True, _) | (_, Truth::True) => Truth::True,
            (Truth::False, Truth::False) => Truth::False,
            _ => Truth::Unknown,
        }
    }

    fn negated(self) -> Truth
        ensures { result ≡ not_truth self }
    {
        match self {
            Truth::True => Truth::False,
            Truth::False => Truth::True,
            Truth::Unknown => Truth::Unknown,
        }
    }

    /// NOT of it, where `is_negated` is true.
    fn negated_if(self, is_negated: bool) -> Truth
        ensures { result ≡ negated is_negated self }
    {
        if is_negated { self.negated() } else { self }
    }
}

/// The value of a literal.
fn literal_value(literal: &Literal) -> Value
    ensures { total_of result ≡ literal_total literal.now }
{
    match literal {
        Literal::Int(n) => Value::Int(i128::from(*n)),
        Literal::Text(text) => Value::Text(text.as_bytes()),
    }
}

/// The value of an operand among the values, and NULL where there is none at its index.
fn value_at<'a, S: Values>(operand: &'a Operand<usize>, values: &'a S) -> Value<'a>
    ensures { total_of result ≡ value_of (value_at (S.totals values.now)) operand.now }
{
    match operand {
        Operand::Column(index) => values.value(*index),
        Operand::Literal(literal) => literal_value(literal),
    }
}

/// Whether the order of two values is as the comparison wants it.
fn meets(order: Ordering, comparison: Comparison) -> bool
    ensures { result ≡ meets comparison order }
{
    match comparison {
        Comparison::Equal => order.is_eq(),
        Comparison::NotEqual => order.is_ne(),
        Comparison::Less => order.is_lt(),
        Comparison::LessOrEqual => order.is_le(),
        Comparison::Greater => order.is_gt(),
        Comparison::GreaterOrEqual => order.is_ge(),
    }
}

/// Whether the comparison holds. It is unknown where a value is NULL.
fn compared(a: Value, comparison: Comparison, b: Value) -> Truth
    ensures { result ≡ compared (total_of a.entry) comparison (total_of b.entry) }
{
    let order = match (a, b) {
        (Value::Null, _) | (_, Value::Null) => return Truth::Unknown,
        (Value::Int(a), Value::Int(b)) => a.cmp(&b),
        (Value::Int(_), Value::Text(_)) => Ordering::Less,
        (Value::Text(_), Value::Int(_)) => Ordering::Greater,
        (Value::Text(a), Value::Text(b)) => a.cmp(b),
    };
    if meets(order, comparison) {
        Truth::True
    } else {
        Truth::False
    }
}

/// Whether the value is NULL.
fn is_null(value: Value) -> Truth
    ensures { result ≡ is_null (total_of value.entry) }
{
    match value {
        Value::Null => Truth::True,
        Value::Int(_) | Value::Text(_) => Truth::False,
    }
}

/// Whether the value lies between the other two, or is one of them.
fn between(value: Value, low: Value, high: Value) -> Truth
    ensures { result ≡ between (total_of value.entry) (total_of low.entry) (total_of high.entry) }
{
    let above = compared(value, Comparison::GreaterOrEqual, low);
    let below = compared(value, Comparison::LessOrEqual, high);
    above.and(below)
}

/// Whether the value equals one of the literals.
fn among(value: Value, literals: &[Literal]) -> Truth
    ensures { result ≡ among (total_of value.entry) literals.now }
{
    let mut found = Truth::False;
    for literal in literals {
        found = found.or(compared(value, Comparison::Equal, literal_value(literal)));
    }
    found
}

impl Test<usize> {
    /// The truth of the test over the values.
    fn truth<S: Values>(&self, row: &S) -> Truth
        ensures { result ≡ test_truth (value_at (S.totals row.now)) self.now }
    {
        match self {
            Test::Compare(a, comparison, b) => {
                compared(value_at(a, row), *comparison, value_at(b, row))
            }
            Test::IsNull { operand, negated } => is_null(value_at(operand, row)).negated_if(
                *negated,
            ),
            Test::Between {
                operand,
                low,
                high,
                negated,
            } => between(
                value_at(operand, row),
                value_at(low, row),
                value_at(high, row),
            )
            .negated_if(*negated),
            Test::In {
                operand,
                list,
                negated,
            } => among(value_at(operand, row), list.as_slice()).negated_if(*negated),
        }
    }
}

impl Predicate<usize> {
    /// The truth of the predicate over a row. An index that the row does not have is as NULL. Only
    /// `Truth::True` keeps a row.
    pub fn truth(&self, row: &Row) -> Truth
        ensures { result ≡ truth self.now (map cell_total row.now.cells) }
    {
        self.truth_over(row)
    }

    /// The truth of the predicate over cells, one at each index that it names. An index that is not there is
    /// as NULL.
    pub fn truth_of_cells(&self, cells: &[Cell]) -> Truth
        ensures { result ≡ truth self.now (map cell_total cells.now) }
    {
        self.truth_over(&Listed { values: cells })
    }

    /// The truth of the predicate over values, one at each index that it names.
    pub fn truth_of(&self, values: &[Total]) -> Truth
        ensures { result ≡ truth self.now values.now }
    {
        self.truth_over(&Listed { values })
    }

    fn truth_over<S: Values>(&self, values: &S) -> Truth
        ensures { result ≡ truth self.now (S.totals values.now) }
    {
        match &self.form {
            PredicateForm::Or(predicates) => {
                let mut any = Truth::False;
                for predicate in predicates {
                    any = any.or(predicate.truth_over(values));
                }
                any
            }
            PredicateForm::And(predicates) => {
                let mut all = Truth::True;
                for predicate in predicates {
                    all = all.and(predicate.truth_over(values));
                }
                all
            }
            PredicateForm::Not(inner) => inner.truth_over(values).negated(),
            PredicateForm::Test(test) => test.truth(values),
        }
    }
}
