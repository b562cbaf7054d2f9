//! The tests of which predicates are made.
ghost use Rattle.std.specs.Prelude.{◌≡◌};

use cells::Text;
use std::marker::Model;

/// A value that stands in a query.
#[derive(Drop)]
pub enum Literal {
    /// An integer, by its value.
    Int(i64),
    /// A text without its quotes.
    Text(Text),
}

/// What a test compares. `C` stands for a column: it is its name in a query, and its index in a plan.
#[derive(Drop)]
pub enum Operand<C> {
    Column(C),
    Literal(Literal),
}

/// A comparison operator (ISO/IEC 9075-2:1999, 8.2).
#[derive(Clone, Copy, Debug, PartialEq, Eq)]
pub enum Comparison {
    /// `=`
    Equal,
    /// `<>`
    NotEqual,
    /// `<`
    Less,
    /// `<=`
    LessOrEqual,
    /// `>`
    Greater,
    /// `>=`
    GreaterOrEqual,
}

/// The literals of IN, in the order of the text.
#[derive(Drop)]
pub struct Literals {
    literals: Vec<Literal>,
}

impl Model for Literals {
    ghost use Rattle.std.specs.Prelude.{List};
    ghost use Rattle.query.specs.declared.test.Literal.{Literal};

    ghost Value = { List Literal };

    ghost view = { λ l. l.literals.items };
}

impl Literals {
    /// These literals.
    pub fn new(literals: Vec<Literal>) -> Literals
        ensures { result ≡ literals.items }
    {
        Literals { literals }
    }

    /// The literals, in the order of the text.
    pub fn as_slice(&self) -> &[Literal]
        ensures { result.now ≡ self.now }
    {
        self.literals.as_slice()
    }
}

/// A test of one or several operands (ISO/IEC 9075-2:1999, 8.1). Where `negated` is true, NOT stands in it,
/// and the test is the NOT of the one without.
#[derive(Drop)]
pub enum Test<C> {
    /// `a < b` and the other comparisons.
    Compare(Operand<C>, Comparison, Operand<C>),
    /// `a IS NULL`.
    IsNull {
        operand: Operand<C>,
        negated: bool,
    },
    /// `a BETWEEN low AND high`.
    Between {
        operand: Operand<C>,
        low: Operand<C>,
        high: Operand<C>,
        negated: bool,
    },
    /// `a IN (1, 2)`.
    In {
        operand: Operand<C>,
        list: Literals,
        negated: bool,
    },
}
