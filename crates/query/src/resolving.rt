//! Predicates by indexes: each leaf, which is the name of a column in WHERE and an item in HAVING, gives way to an index.
ghost use Rattle.std.specs.Prelude.{◌≡◌, ℕ, IfOk, OnOk};
ghost use Rattle.std.specs.List.{flat_map, fold};
ghost use Rattle.query.specs.Names.{leaves_of, operand_leaves, test_leaves, tests_of_each};
ghost use Rattle.query.specs.Resolving.{resolved, resolved_each, resolved_operand, resolved_test};
ghost use Rattle.query.specs.Trees.{predicates_of};
ghost use Rattle.query.specs.declared.test.Test.TheVariants.{Between, Compare};

use crate::owned::beside;
use crate::predicate::{Predicate, PredicateForm};
use crate::test::{Comparison, Operand, Test};
use std::alloc::{AllocError, Global};

/// What has an index for each leaf of a predicate. The leaves come in the order of the text, and `C` is what a leaf is.
pub trait Resolver<C> {
    /// The index of a leaf.
    ghost index: { Self → C → ℕ };

    /// What the resolver is behind a leaf.
    ghost after: { Self → C → Self };

    /// The index of the next leaf. The one error is want of memory.
    fn resolve(&mut self, leaf: C) -> Result<usize, AllocError>
        ensures index { IfOk result (λ n. n ≡ index self.old leaf) }
        ensures after { OnOk result (self.new ≡ after self.old leaf) };
}

/// The predicate with an index for each leaf.
#[cycle(resolving)]
pub fn resolved<C: Drop, R: Resolver<C>>(
    alloc: Global,
    resolver: &mut R,
    predicate: Predicate<C>,
) -> Result<Predicate<usize>, AllocError>
    ensures resolved { IfOk result (λ p. p ≡ resolved R.index R.after resolver.old predicate) }
    ensures after { OnOk result (resolver.new ≡ fold R.after resolver.old (leaves_of predicate)) }
{
    match predicate.form {
        PredicateForm::Or(inners) => {
            let made = resolved_each(alloc, resolver, inners)?;
            Ok(Predicate {
                form: PredicateForm::Or(made),
            })
        }
        PredicateForm::And(inners) => {
            let made = resolved_each(alloc, resolver, inners)?;
            Ok(Predicate {
                form: PredicateForm::And(made),
            })
        }
        PredicateForm::Not(inner) => {
            let made = resolved(alloc, resolver, Box::into_inner(inner))?;
            Predicate::not(alloc, made)
        }
        PredicateForm::Test(test) => resolved_test(resolver, test).map(Predicate::test),
    }
}

/// The predicates with an index for each leaf.
#[cycle(resolving)]
fn resolved_each<C: Drop, R: Resolver<C>>(
    alloc: Global,
    resolver: &mut R,
    predicates: Vec<Predicate<C>>,
) -> Result<Vec<Predicate<usize>>, AllocError>
    ensures resolved { IfOk result (λ made. predicates_of made.items ≡ resolved_each R.index R.after resolver.old (predicates_of predicates.items)) }
    ensures after { OnOk result (resolver.new ≡ fold R.after resolver.old (flat_map test_leaves (tests_of_each (predicates_of predicates.items)))) }
{
    let mut made = Vec::new(alloc);
    for predicate in predicates {
        made.push(resolved(alloc, resolver, predicate)?)?;
    }
    Ok(made)
}

/// The test with an index for each leaf.
fn resolved_test<C: Drop, R: Resolver<C>>(
    resolver: &mut R,
    test: Test<C>,
) -> Result<Test<usize>, AllocError>
    ensures resolved { IfOk result (λ t. t ≡ resolved_test R.index R.after resolver.old test) }
    ensures after { OnOk result (resolver.new ≡ fold R.after resolver.old (test_leaves test)) }
{
    match test {
        Test::Compare(a, comparison, b) => resolved_comparison(resolver, a, comparison, b),
        Test::IsNull { operand, negated } => Ok(Test::IsNull {
            operand: resolved_operand(resolver, operand)?,
            negated,
        }),
        Test::Between {
            operand,
            low,
            high,
            negated,
        } => resolved_between(resolver, operand, (low, high), negated),
        Test::In {
            operand,
            list,
            negated,
        } => Ok(Test::In {
            operand: resolved_operand(resolver, operand)?,
            list,
            negated,
        }),
    }
}

/// The test by a comparison with an index for each leaf.
fn resolved_comparison<C: Drop, R: Resolver<C>>(
    resolver: &mut R,
    left: Operand<C>,
    comparison: Comparison,
    right: Operand<C>,
) -> Result<Test<usize>, AllocError>
    ensures resolved { IfOk result (λ t. t ≡ resolved_test R.index R.after resolver.old (Compare left comparison right)) }
    ensures after { OnOk result (resolver.new ≡ fold R.after resolver.old (test_leaves (Compare left comparison right))) }
{
    let (right, left) = beside(resolved_operand(resolver, left), right)?;
    let (left, right) = beside(resolved_operand(resolver, right), left)?;
    Ok(Test::Compare(left, comparison, right))
}

/// The test by BETWEEN with an index for each leaf. The bounds are the low and the high one.
fn resolved_between<C: Drop, R: Resolver<C>>(
    resolver: &mut R,
    operand: Operand<C>,
    bounds: (Operand<C>, Operand<C>),
    negated: bool,
) -> Result<Test<usize>, AllocError>
    ensures resolved { IfOk result (λ t. t ≡ resolved_test R.index R.after resolver.old (Between operand bounds.0 bounds.1 negated)) }
    ensures after { OnOk result (resolver.new ≡ fold R.after resolver.old (test_leaves (Between operand bounds.0 bounds.1 negated))) }
{
    let ((low, high), operand) = beside(resolved_operand(resolver, operand), bounds)?;
    let ((operand, high), low) = beside(resolved_operand(resolver, low), (operand, high))?;
    let ((operand, low), high) = beside(resolved_operand(resolver, high), (operand, low))?;
    Ok(Test::Between {
        operand,
        low,
        high,
        negated,
    })
}

/// The operand with an index for its leaf.
fn resolved_operand<C: Drop, R: Resolver<C>>(
    resolver: &mut R,
    operand: Operand<C>,
) -> Result<Operand<usize>, AllocError>
    ensures resolved { IfOk result (λ o. o ≡ resolved_operand R.index R.after resolver.old operand) }
    ensures after { OnOk result (resolver.new ≡ fold R.after resolver.old (operand_leaves operand)) }
{
    match operand {
        Operand::Column(leaf) => resolver.resolve(leaf).map(Operand::Column),
        Operand::Literal(literal) => Ok(Operand::Literal(literal)),
    }
}
