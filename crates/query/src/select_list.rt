//! Reads the items of a select list and of HAVING.
ghost use Rattle.std.specs.Prelude.{◌≡◌, ◌<◌, IfOk, length};
ghost use Rattle.cells.specs.Refusals.{AnswersBy};
ghost use Rattle.query.specs.Grammar.{SpellsItem};
ghost use Rattle.query.specs.Phrases.{call_at, call_of, distinct_at, item_at, named_at, rows_at};

use crate::item::{GroupingColumns, Item};
use crate::phrases::{Phrase, after_call, list_in};
use cells::{Mark, Refused, Text, Token, is_reserved};
use std::alloc::Global;

/// An item by the rule of the grammar.
impl Phrase for Item<Text> {
    ghost spells = { SpellsItem };

    fn read(alloc: Global, tokens: &[Token]) -> Result<(Item<Text>, &[Token]), Refused> {
        if let Some(more) = after_call(tokens, "GROUPING") {
            let (names, rest) = list_in(alloc, more)?;
            return Ok((Item::Grouping(GroupingColumns::new(names)), rest));
        }
        item_at(tokens)
    }
}

/// The item at the front that is no GROUPING, and what follows it.
#[tactic(auto, unfolding(crate::specs::Phrases::item_at))]
fn item_at(tokens: &[Token]) -> Result<(Item<Text>, &[Token]), Refused>
    ensures exact { AnswersBy (λ x. (x.0, x.1.now)) Refused.QuerySyntax (item_at tokens.now) result }
    ensures shorter { IfOk result (λ x. length x.1.now < length tokens.now) }
{
    let [Token::Word(word), rest @ ..] = tokens else {
        return Err(Refused::QuerySyntax);
    };
    if is_reserved(word.as_str()) {
        return call_at(word.as_str(), rest);
    }
    Ok((Item::Column(word.clone()?), rest))
}

/// The item that a reserved word and what follows it begin with.
fn call_at<'a>(word: &str, tokens: &'a [Token]) -> Result<(Item<Text>, &'a [Token]), Refused>
    ensures exact { AnswersBy (λ x. (x.0, x.1.now)) Refused.QuerySyntax (call_at word.now tokens.now) result }
    ensures shorter { IfOk result (λ x. length x.1.now < length tokens.now) }
{
    let [Token::Mark(Mark::LeftParen), first, rest @ ..] = tokens else {
        return Err(Refused::QuerySyntax);
    };
    match first {
        Token::Mark(Mark::Asterisk) => rows_at(word, rest),
        Token::Word(name) => {
            if name.as_str() == "DISTINCT" {
                return distinct_at(word, rest);
            }
            named_at(word, name, rest)
        }
        _ => Err(Refused::QuerySyntax),
    }
}

/// `COUNT(*)` behind its sign `*`.
fn rows_at<'a>(word: &str, tokens: &'a [Token]) -> Result<(Item<Text>, &'a [Token]), Refused>
    ensures exact { AnswersBy (λ x. (x.0, x.1.now)) Refused.QuerySyntax (rows_at word.now tokens.now) result }
    ensures shorter { IfOk result (λ x. length x.1.now < length tokens.now) }
{
    let [Token::Mark(Mark::RightParen), rest @ ..] = tokens else {
        return Err(Refused::QuerySyntax);
    };
    if word == "COUNT" {
        return Ok((Item::CountRows, rest));
    }
    Err(Refused::QuerySyntax)
}

/// `COUNT(DISTINCT name)` behind DISTINCT.
fn distinct_at<'a>(word: &str, tokens: &'a [Token]) -> Result<(Item<Text>, &'a [Token]), Refused>
    ensures exact { AnswersBy (λ x. (x.0, x.1.now)) Refused.QuerySyntax (distinct_at word.now tokens.now) result }
    ensures shorter { IfOk result (λ x. length x.1.now < length tokens.now) }
{
    let [Token::Word(name), Token::Mark(Mark::RightParen), rest @ ..] = tokens else {
        return Err(Refused::QuerySyntax);
    };
    if is_reserved(name.as_str()) {
        return Err(Refused::QuerySyntax);
    }
    if word == "COUNT" {
        return Ok((Item::CountDistinct(name.clone()?), rest));
    }
    Err(Refused::QuerySyntax)
}

/// An item of a word with a name in parentheses, behind the name.
fn named_at<'a>(
    word: &str,
    name: &Text,
    tokens: &'a [Token],
) -> Result<(Item<Text>, &'a [Token]), Refused>
    ensures exact { AnswersBy (λ x. (x.0, x.1.now)) Refused.QuerySyntax (named_at word.now name.now tokens.now) result }
    ensures shorter { IfOk result (λ x. length x.1.now < length tokens.now) }
{
    let [Token::Mark(Mark::RightParen), rest @ ..] = tokens else {
        return Err(Refused::QuerySyntax);
    };
    if is_reserved(name.as_str()) {
        return Err(Refused::QuerySyntax);
    }
    let Some(item) = call_of(word, name.clone()?) else {
        return Err(Refused::QuerySyntax);
    };
    Ok((item, rest))
}

/// The aggregate that a word with a name in parentheses is.
fn call_of(word: &str, name: Text) -> Option<Item<Text>>
    ensures { result ≡ call_of word.now name }
{
    match word {
        "COUNT" => Some(Item::Count(name)),
        "SUM" => Some(Item::Sum(name)),
        "MIN" => Some(Item::Min(name)),
        "MAX" => Some(Item::Max(name)),
        _ => None,
    }
}
