//! Reads the predicates of WHERE and of HAVING. Chains of OR and of AND are read by loops, so that only parentheses go deep.
ghost use Rattle.std.specs.Prelude.{◌<◌, ◌∷◌, IfOk, length};
ghost use Rattle.query.specs.Grammar.{BETWEEN, SpellsFactor, SpellsPredicate, SpellsPrimary, SpellsTerm, SpellsTest, rparen};
ghost use Rattle.query.specs.Phrases.{NullAfter, RangeAfter, TestAfter};
ghost use Rattle.query.specs.Reading.{AfterAnd, AfterOr, Any, ReadsPhrase, Starts};

use crate::leaf::Leaf;
use crate::owned::closed;
use crate::phrases::{
    after_call, after_mark, after_word, comparison_at, list_in, operand, word_mark,
};
use crate::predicate::Predicate;
use crate::test::{Literals, Operand, Test};
use cells::{Mark, Refused, Token};
use std::alloc::Global;

/// The test of NULL behind the operand and IS, and what follows it.
fn null_test<C: Leaf + Drop>(
    left: Operand<C>,
    tokens: &[Token],
) -> Result<(Test<C>, &[Token]), Refused>
    ensures reads { ReadsPhrase (λ x. (x.0, x.1.now)) (NullAfter left tokens.now) result }
    ensures shorter { IfOk result (λ x. length x.1.now < length tokens.now) }
{
    let (negated, more) = word_mark(tokens, "NOT");
    let Some(rest) = after_word(more, "NULL") else {
        return Err(Refused::QuerySyntax);
    };
    let test = Test::IsNull {
        operand: left,
        negated,
    };
    Ok((test, rest))
}

/// The test by BETWEEN behind the operand, an optional NOT and BETWEEN, and what follows it.
fn between_test<C: Leaf + Drop>(
    alloc: Global,
    left: Operand<C>,
    negated: bool,
    tokens: &[Token],
) -> Result<(Test<C>, &[Token]), Refused>
    ensures reads { ReadsPhrase (λ x. (x.0, x.1.now)) (RangeAfter C.spells left negated (BETWEEN ∷ tokens.now)) result }
    ensures shorter { IfOk result (λ x. length x.1.now < length tokens.now) }
{
    let (low, behind) = operand(alloc, tokens)?;
    let Some(more) = after_word(behind, "AND") else {
        return Err(Refused::QuerySyntax);
    };
    let (high, rest) = operand(alloc, more)?;
    let test = Test::Between {
        operand: left,
        low,
        high,
        negated,
    };
    Ok((test, rest))
}

/// The test by BETWEEN or IN behind the operand and an optional NOT, and what follows it.
fn range_test<C: Leaf + Drop>(
    alloc: Global,
    left: Operand<C>,
    negated: bool,
    tokens: &[Token],
) -> Result<(Test<C>, &[Token]), Refused>
    ensures reads { ReadsPhrase (λ x. (x.0, x.1.now)) (RangeAfter C.spells left negated tokens.now) result }
    ensures shorter { IfOk result (λ x. length x.1.now < length tokens.now) }
{
    if let Some(more) = after_word(tokens, "BETWEEN") {
        return between_test(alloc, left, negated, more);
    }
    let Some(more) = after_call(tokens, "IN") else {
        return Err(Refused::QuerySyntax);
    };
    let (literals, rest) = list_in(alloc, more)?;
    let test = Test::In {
        operand: left,
        list: Literals::new(literals),
        negated,
    };
    Ok((test, rest))
}

/// The test behind its first operand, and what follows it.
fn test_after<C: Leaf + Drop>(
    alloc: Global,
    left: Operand<C>,
    tokens: &[Token],
) -> Result<(Test<C>, &[Token]), Refused>
    ensures reads { ReadsPhrase (λ x. (x.0, x.1.now)) (TestAfter C.spells left tokens.now) result }
    ensures shorter { IfOk result (λ x. length x.1.now < length tokens.now) }
{
    if let Some((comparison, more)) = comparison_at(tokens) {
        let (right, rest) = operand(alloc, more)?;
        return Ok((Test::Compare(left, comparison, right), rest));
    }
    if let Some(more) = after_word(tokens, "IS") {
        return null_test(left, more);
    }
    let (negated, more) = word_mark(tokens, "NOT");
    range_test(alloc, left, negated, more)
}

/// The test at the front, and what follows it.
fn test<C: Leaf + Drop>(alloc: Global, tokens: &[Token]) -> Result<(Test<C>, &[Token]), Refused>
    ensures reads { ReadsPhrase (λ x. (x.0, x.1.now)) (Starts (SpellsTest C.spells) Any tokens.now) result }
    ensures shorter { IfOk result (λ x. length x.1.now < length tokens.now) }
{
    let (left, more) = operand(alloc, tokens)?;
    test_after(alloc, left, more)
}

/// The primary at the front, a predicate in parentheses or a test, and what follows it.
#[cycle(reader)]
fn primary<C: Leaf + Drop>(
    alloc: Global,
    tokens: &[Token],
) -> Result<(Predicate<C>, &[Token]), Refused>
    ensures reads { ReadsPhrase (λ x. (x.0, x.1.now)) (Starts (SpellsPrimary C.spells) Any tokens.now) result }
    ensures shorter { IfOk result (λ x. length x.1.now < length tokens.now) }
{
    if let Some(more) = after_mark(tokens, Mark::LeftParen) {
        return predicate_in(alloc, more);
    }
    let (test, rest) = test(alloc, tokens)?;
    Ok((Predicate::test(test), rest))
}

/// A primary with an optional NOT before it, and what follows it.
#[cycle(reader)]
fn factor<C: Leaf + Drop>(
    alloc: Global,
    tokens: &[Token],
) -> Result<(Predicate<C>, &[Token]), Refused>
    ensures reads { ReadsPhrase (λ x. (x.0, x.1.now)) (Starts (SpellsFactor C.spells) Any tokens.now) result }
    ensures shorter { IfOk result (λ x. length x.1.now < length tokens.now) }
{
    if let Some(more) = after_word(tokens, "NOT") {
        let (inner, rest) = primary(alloc, more)?;
        return Ok((Predicate::not(alloc, inner)?, rest));
    }
    primary(alloc, tokens)
}

/// The term at the front, which is its factors with AND between, and what follows it.
#[cycle(reader)]
fn term<C: Leaf + Drop>(
    alloc: Global,
    tokens: &[Token],
) -> Result<(Predicate<C>, &[Token]), Refused>
    ensures reads { ReadsPhrase (λ x. (x.0, x.1.now)) (Starts (SpellsTerm C.spells) AfterAnd tokens.now) result }
    ensures shorter { IfOk result (λ x. length x.1.now < length tokens.now) }
{
    let mut factors = Vec::new(alloc);
    let mut rest = tokens;
    loop {
        let (factor, behind) = factor(alloc, rest)?;
        factors.push(factor)?;
        let Some(more) = after_word(behind, "AND") else {
            return Ok((Predicate::all_of(factors), behind));
        };
        rest = more;
    }
}

/// The predicate at the front, which is its terms with OR between, and what follows it.
#[cycle(reader)]
pub fn predicate<C: Leaf + Drop>(
    alloc: Global,
    tokens: &[Token],
) -> Result<(Predicate<C>, &[Token]), Refused>
    ensures reads { ReadsPhrase (λ x. (x.0, x.1.now)) (Starts (SpellsPredicate C.spells) AfterOr tokens.now) result }
    ensures shorter { IfOk result (λ x. length x.1.now < length tokens.now) }
{
    let mut terms = Vec::new(alloc);
    let mut rest = tokens;
    loop {
        let (term, behind) = term(alloc, rest)?;
        terms.push(term)?;
        let Some(more) = after_word(behind, "OR") else {
            return Ok((Predicate::any_of(terms), behind));
        };
        rest = more;
    }
}

/// The predicate up to the `)` behind it, and what follows it.
#[cycle(reader)]
fn predicate_in<C: Leaf + Drop>(
    alloc: Global,
    tokens: &[Token],
) -> Result<(Predicate<C>, &[Token]), Refused>
    ensures reads { ReadsPhrase (λ x. (x.0, x.1.now)) (λ p r. SpellsPredicate C.spells tokens.now p (rparen ∷ r)) result }
    ensures shorter { IfOk result (λ x. length x.1.now < length tokens.now) }
{
    let (predicate, rest) = predicate(alloc, tokens)?;
    closed(predicate, rest)
}
