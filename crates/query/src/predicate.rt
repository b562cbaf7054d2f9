//! Predicates.
ghost use Rattle.std.specs.Prelude.{◌≡◌, ◌≢◌, ◌∷◌, [], IfOk, MatchResult, length};
ghost use Rattle.query.specs.Trees.{Not, Holds, all_of, any_of};
ghost use Rattle.query.specs.PredicateViews.{predicate_tree};

use crate::test::Test;
use std::alloc::{AllocError, Global};
use std::marker::Model;

/// A predicate over a row. `C` stands for a column: it is its name in a query, and its index in a plan. Clauses
/// see its tree.
#[derive(Drop)]
#[cycle(predicate)]
pub struct Predicate<C> {
    pub(crate) form: PredicateForm<C>,
}

/// The forms of a predicate. Chains of OR and of AND are lists, so that a long one needs no deep tree.
#[derive(Drop)]
#[cycle(predicate)]
pub enum PredicateForm<C> {
    /// The predicates with OR between them.
    Or(Vec<Predicate<C>>),
    /// The predicates with AND between them.
    And(Vec<Predicate<C>>),
    /// NOT of a predicate.
    Not(Box<Predicate<C>>),
    /// A test alone.
    Test(Test<C>),
}

impl<C> Model for Predicate<C> {
    ghost use Rattle.query.specs.Trees.{PredicateTree, predicate_size};
    ghost use Rattle.query.specs.declared.test.Test.{Test};

    ghost Value = { PredicateTree (Test C) };

    ghost use Rattle.query.specs.Codes.{coded_predicate};
    ghost use Rattle.std.specs.Coded.{codes};

    ghost coded = { coded_predicate (Prim.hlevel codes) };

    ghost use Rattle.query.specs.PredicateViews.{predicate_tree};

    ghost view = { λ p. predicate_tree p.form };

    ghost size = { predicate_size };

    ghost use Rattle.query.specs.PredicateFalls.{predicate_falls};

    ghost size_decreases = { λ p h. predicate_falls p.form };
}

impl<C: Drop> Predicate<C> {
    /// Which form of predicate it is.
    pub fn form(&self) -> &PredicateForm<C>
        ensures { predicate_tree result.now ≡ self.now }
    {
        &self.form
    }

    /// The predicates with OR between them; one alone is itself.
    pub fn any_of(predicates: Vec<Predicate<C>>) -> Predicate<C>
        ensures { result ≡ any_of predicates.items }
    {
        match sole(predicates) {
            Ok(predicate) => predicate,
            Err(several) => Predicate {
                form: PredicateForm::Or(several),
            },
        }
    }

    /// The predicates with AND between them; one alone is itself.
    pub fn all_of(predicates: Vec<Predicate<C>>) -> Predicate<C>
        ensures { result ≡ all_of predicates.items }
    {
        match sole(predicates) {
            Ok(predicate) => predicate,
            Err(several) => Predicate {
                form: PredicateForm::And(several),
            },
        }
    }

    /// NOT of the predicate, or want of memory.
    pub fn not(alloc: Global, predicate: Predicate<C>) -> Result<Predicate<C>, AllocError>
        ensures { IfOk result (λ p. p ≡ Not predicate) }
    {
        let inner = Box::new(alloc, predicate)?;
        Ok(Predicate {
            form: PredicateForm::Not(inner),
        })
    }

    /// A test alone.
    pub fn test(test: Test<C>) -> Predicate<C>
        ensures { result ≡ Holds test }
    {
        Predicate {
            form: PredicateForm::Test(test),
        }
    }
}

/// The one value, or the values back where there are none or several.
fn sole<T: Drop>(mut values: Vec<T>) -> Result<T, Vec<T>>
    ensures { MatchResult result (λ value. values.items ≡ value ∷ []) (λ back. (back.items ≡ values.items) × (length values.items ≢ 1)) }
{
    if values.len() != 1 {
        return Err(values);
    }
    match values.pop() {
        Some(value) => Ok(value),
        None => Err(values),
    }
}
