//! The short phrases at the front of tokens: words, signs, names, literals, operands, and lists. A reader answers
//! [`Refused::QuerySyntax`] exactly where the tokens begin with no such phrase, and [`Refused::OutOfMemory`] only
//! where a growth was refused. Each `.._at` is joined to its rule of the grammar by the reader that calls it.
ghost use Rattle.std.specs.Bool.{Decides};
ghost use Rattle.std.specs.Prelude.{◌≡◌, ◌<◌, ◌≤◌, ◌∷◌, IfOk, IfSome, List, None, Some, MatchOption, length};
ghost use Rattle.cells.specs.Refusals.{AnswersBy};
ghost use Rattle.cells.specs.declared.token.Token.{Token};
ghost use Rattle.query.specs.Grammar.{Separated, SpellsLiteral, SpellsName, SpellsOperand, comma, lparen, rparen, word};
ghost use Rattle.query.specs.Phrases.{begins_literal, comparison_at, literal_at, name_at};
ghost use Rattle.query.specs.Reading.{Any, BeginsNot, BeginsNotCall, Ends, Marked, ReadsPhrase, Starts, sign};

use crate::leaf::Leaf;
use crate::test::{Comparison, Literal, Operand};
use cells::{Mark, Refused, Text, Token, is_reserved};
use std::alloc::Global;

/// What is read at the front of tokens, alone or in lists.
pub trait Phrase {
    /// How tokens spell it.
    ghost spells: { List Token → Self → List Token → Type 0 };

    /// The phrase at the front, and what follows it.
    fn read(alloc: Global, tokens: &[Token]) -> Result<(Self, &[Token]), Refused>
        ensures reads { ReadsPhrase (λ x. (x.0, x.1.now)) (Starts spells Any tokens.now) result }
        ensures shorter { IfOk result (λ x. length x.1.now < length tokens.now) };
}

/// The phrases at the front, with commas between, and what follows them.
pub fn list<P: Phrase + Drop>(
    alloc: Global,
    tokens: &[Token],
) -> Result<(Vec<P>, &[Token]), Refused>
    ensures reads { ReadsPhrase (λ x. (x.0.items, x.1.now)) (Starts (Separated comma P.spells) (Ends comma Any) tokens.now) result }
    ensures shorter { IfOk result (λ x. length x.1.now < length tokens.now) }
{
    let mut found = Vec::new(alloc);
    let mut rest = tokens;
    loop {
        let (phrase, behind) = P::read(alloc, rest)?;
        found.push(phrase)?;
        let Some(more) = after_mark(behind, Mark::Comma) else {
            return Ok((found, behind));
        };
        rest = more;
    }
}

/// The phrases up to the `)` behind them, and what follows it.
pub fn list_in<P: Phrase + Drop>(
    alloc: Global,
    tokens: &[Token],
) -> Result<(Vec<P>, &[Token]), Refused>
    ensures reads { ReadsPhrase (λ x. (x.0.items, x.1.now)) (λ ps r. Separated comma P.spells tokens.now ps (rparen ∷ r)) result }
    ensures shorter { IfOk result (λ x. length x.1.now < length tokens.now) }
{
    let (phrases, rest) = list(alloc, tokens)?;
    let Some(behind) = after_mark(rest, Mark::RightParen) else {
        return Err(Refused::QuerySyntax);
    };
    Ok((phrases, behind))
}

/// What follows the word, where the tokens begin with it.
pub fn after_word<'a>(tokens: &'a [Token], expected: &str) -> Option<&'a [Token]>
    ensures { MatchOption result (BeginsNot (word expected.now) tokens.now) (λ rest. tokens.now ≡ word expected.now ∷ rest.now) }
{
    let (first, rest) = tokens.split_first()?;
    if is_word(first, expected) {
        Some(rest)
    } else {
        None
    }
}

/// Whether the token is the word.
fn is_word(token: &Token, expected: &str) -> bool
    ensures { Decides result (token.now ≡ word expected.now) }
{
    match token {
        Token::Word(found) => found.as_str() == expected,
        _ => false,
    }
}

/// What follows the sign, where the tokens begin with it.
pub fn after_mark(tokens: &[Token], mark: Mark) -> Option<&[Token]>
    ensures { MatchOption result (BeginsNot (sign mark) tokens.now) (λ rest. tokens.now ≡ sign mark ∷ rest.now) }
{
    let (first, rest) = tokens.split_first()?;
    match first {
        Token::Mark(found) if *found == mark => Some(rest),
        _ => None,
    }
}

/// What follows the word and `(`, where the tokens begin with both.
pub fn after_call<'a>(tokens: &'a [Token], expected: &str) -> Option<&'a [Token]>
    ensures { MatchOption result (BeginsNotCall (word expected.now) tokens.now) (λ rest. tokens.now ≡ word expected.now ∷ lparen ∷ rest.now) }
{
    let rest = after_word(tokens, expected)?;
    after_mark(rest, Mark::LeftParen)
}

/// The name at the front, and what follows it.
fn name_at(tokens: &[Token]) -> Result<(Text, &[Token]), Refused>
    ensures exact { AnswersBy (λ x. (x.0, x.1.now)) Refused.QuerySyntax (name_at tokens.now) result }
    ensures shorter { IfOk result (λ x. length x.1.now < length tokens.now) }
{
    let [Token::Word(name), rest @ ..] = tokens else {
        return Err(Refused::QuerySyntax);
    };
    if is_reserved(name.as_str()) {
        return Err(Refused::QuerySyntax);
    }
    Ok((name.clone()?, rest))
}

/// A name by the rule of the grammar.
impl Phrase for Text {
    ghost spells = { SpellsName };

    fn read(_alloc: Global, tokens: &[Token]) -> Result<(Text, &[Token]), Refused> {
        name_at(tokens)
    }
}

/// The literal at the front, and what follows it.
fn literal_at(tokens: &[Token]) -> Result<(Literal, &[Token]), Refused>
    ensures exact { AnswersBy (λ x. (x.0, x.1.now)) Refused.QuerySyntax (literal_at tokens.now) result }
    ensures shorter { IfOk result (λ x. length x.1.now < length tokens.now) }
{
    let [first, rest @ ..] = tokens else {
        return Err(Refused::QuerySyntax);
    };
    match first {
        Token::Number(n) => Ok((Literal::Int(*n), rest)),
        Token::Quoted(text) => Ok((Literal::Text(text.clone()?), rest)),
        _ => Err(Refused::QuerySyntax),
    }
}

/// A literal by the rule of the grammar.
impl Phrase for Literal {
    ghost spells = { SpellsLiteral };

    fn read(_alloc: Global, tokens: &[Token]) -> Result<(Literal, &[Token]), Refused> {
        literal_at(tokens)
    }
}

/// Whether the tokens begin with a literal.
fn begins_literal(tokens: &[Token]) -> bool
    ensures { result ≡ begins_literal tokens.now }
{
    matches!(tokens, [Token::Number(_) | Token::Quoted(_), ..])
}

/// The operand at the front by the rule of the grammar, and what follows it.
pub fn operand<C: Leaf + Drop>(
    alloc: Global,
    tokens: &[Token],
) -> Result<(Operand<C>, &[Token]), Refused>
    ensures reads { ReadsPhrase (λ x. (x.0, x.1.now)) (Starts (SpellsOperand C.spells) Any tokens.now) result }
    ensures shorter { IfOk result (λ x. length x.1.now < length tokens.now) }
{
    if begins_literal(tokens) {
        let (literal, rest) = Literal::read(alloc, tokens)?;
        return Ok((Operand::Literal(literal), rest));
    }
    let (leaf, rest) = C::read(alloc, tokens)?;
    Ok((Operand::Column(leaf), rest))
}

/// The sign of a comparison at the front, and what follows it.
pub fn comparison_at(tokens: &[Token]) -> Option<(Comparison, &[Token])>
    ensures exact { MatchOption result (comparison_at tokens.now ≡ None) (λ x. comparison_at tokens.now ≡ Some (x.0, x.1.now)) }
    ensures shorter { IfSome result (λ x. length x.1.now < length tokens.now) }
{
    let [Token::Mark(mark), rest @ ..] = tokens else {
        return None;
    };
    match mark {
        Mark::Equals => Some((Comparison::Equal, rest)),
        Mark::NotEquals => Some((Comparison::NotEqual, rest)),
        Mark::LessThan => Some((Comparison::Less, rest)),
        Mark::LessThanOrEquals => Some((Comparison::LessOrEqual, rest)),
        Mark::GreaterThan => Some((Comparison::Greater, rest)),
        Mark::GreaterThanOrEquals => Some((Comparison::GreaterOrEqual, rest)),
        _ => None,
    }
}

/// Whether the tokens begin with the word, and what follows it or else the tokens themselves.
pub fn word_mark<'a>(tokens: &'a [Token], expected: &str) -> (bool, &'a [Token])
    ensures marked { Marked (word expected.now) tokens.now result.0 result.1.now }
    ensures no_longer { length result.1.now ≤ length tokens.now }
{
    if let Some(rest) = after_word(tokens, expected) {
        return (true, rest);
    }
    (false, tokens)
}
