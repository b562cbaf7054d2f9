//! Reads the elements of GROUP BY. Lists are read by loops, so that only a nested GROUPING SETS goes deep.
ghost use Rattle.std.specs.Prelude.{◌≡◌, ◌≢◌, ◌<◌, ◌∷◌, List, IfOk, MatchOption, length};
ghost use Rattle.cells.specs.declared.token.Token.{Token};
ghost use Rattle.query.specs.Grammar.{GROUPING, SETS, Separated, SpellsElement, SpellsUnit, comma, lparen, rparen};
ghost use Rattle.query.specs.Phrases.{IsPlain};
ghost use Rattle.query.specs.Reading.{Any, Ends, ReadsPhrase, Starts};

use crate::element::{Element, Unit};
use crate::phrases::{Phrase, after_call, after_mark, after_word, list_in};
use cells::{Mark, Refused, Text, Token};
use std::alloc::Global;

/// A unit by the rule of the grammar.
impl Phrase for Unit {
    ghost spells = { SpellsUnit };

    fn read(alloc: Global, tokens: &[Token]) -> Result<(Unit, &[Token]), Refused> {
        if let Some(more) = after_mark(tokens, Mark::LeftParen) {
            let (names, rest) = list_in(alloc, more)?;
            return Ok((Unit::new(names), rest));
        }
        let (name, rest) = Text::read(alloc, tokens)?;
        Ok((Unit::one(alloc, name)?, rest))
    }
}

/// What follows `GROUPING SETS (`, where the tokens begin with it.
fn after_sets(tokens: &[Token]) -> Option<&[Token]>
    ensures { MatchOption result ((more : List Token) → tokens.now ≢ GROUPING ∷ SETS ∷ lparen ∷ more)
        (λ rest. tokens.now ≡ GROUPING ∷ SETS ∷ lparen ∷ rest.now) }
{
    let rest = after_word(tokens, "GROUPING")?;
    after_call(rest, "SETS")
}

/// What follows `()`, where the tokens begin with it.
fn after_empty(tokens: &[Token]) -> Option<&[Token]>
    ensures { MatchOption result ((more : List Token) → tokens.now ≢ lparen ∷ rparen ∷ more) (λ rest. tokens.now ≡ lparen ∷ rparen ∷ rest.now) }
{
    let rest = after_mark(tokens, Mark::LeftParen)?;
    after_mark(rest, Mark::RightParen)
}

/// The unit at the front as an element, where no other form of element begins, and what follows it.
fn unit_element(alloc: Global, tokens: &[Token]) -> Result<(Element, &[Token]), Refused>
    ensures reads { IsPlain tokens.now → ReadsPhrase (λ x. (x.0, x.1.now)) (Starts SpellsElement Any tokens.now) result }
    ensures shorter { IfOk result (λ x. length x.1.now < length tokens.now) }
{
    let (unit, rest) = Unit::read(alloc, tokens)?;
    Ok((Element::unit(unit), rest))
}

/// The grouping element at the front, and what follows it.
#[cycle(reader)]
fn element(alloc: Global, tokens: &[Token]) -> Result<(Element, &[Token]), Refused>
    ensures reads { ReadsPhrase (λ x. (x.0, x.1.now)) (Starts SpellsElement Any tokens.now) result }
    ensures shorter { IfOk result (λ x. length x.1.now < length tokens.now) }
{
    if let Some(rest) = after_empty(tokens) {
        return Ok((Element::empty(), rest));
    }
    if let Some(more) = after_call(tokens, "ROLLUP") {
        let (units, rest) = list_in(alloc, more)?;
        return Ok((Element::rollup(units), rest));
    }
    if let Some(more) = after_call(tokens, "CUBE") {
        let (units, rest) = list_in(alloc, more)?;
        return Ok((Element::cube(units), rest));
    }
    if let Some(more) = after_sets(tokens) {
        return sets_element(alloc, more);
    }
    unit_element(alloc, tokens)
}

/// The element behind `GROUPING SETS (`, and what follows it.
#[cycle(reader)]
fn sets_element(alloc: Global, tokens: &[Token]) -> Result<(Element, &[Token]), Refused>
    ensures reads { ReadsPhrase (λ x. (x.0, x.1.now)) (Starts SpellsElement Any (GROUPING ∷ SETS ∷ lparen ∷ tokens.now)) result }
    ensures shorter { IfOk result (λ x. length x.1.now < length tokens.now) }
{
    let (elements, rest) = elements(alloc, tokens)?;
    let Some(behind) = after_mark(rest, Mark::RightParen) else {
        return Err(Refused::QuerySyntax);
    };
    Ok((Element::sets(elements), behind))
}

/// The grouping elements at the front, with commas between, and what follows them.
#[cycle(reader)]
pub fn elements(alloc: Global, tokens: &[Token]) -> Result<(Vec<Element>, &[Token]), Refused>
    ensures reads { ReadsPhrase (λ x. (x.0.items, x.1.now)) (Starts (Separated comma SpellsElement) (Ends comma Any) tokens.now) result }
    ensures shorter { IfOk result (λ x. length x.1.now < length tokens.now) }
{
    let mut found = Vec::new(alloc);
    let mut rest = tokens;
    loop {
        let (element, behind) = element(alloc, rest)?;
        found.push(element)?;
        let Some(more) = after_mark(behind, Mark::Comma) else {
            return Ok((found, behind));
        };
        rest = more;
    }
}
