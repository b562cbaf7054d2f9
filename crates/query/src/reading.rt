//! Reads a text into a query: its tokens, and then clause by clause.
ghost use Rattle.std.specs.Bool.{Decides};
ghost use Rattle.std.specs.Prelude.{◌≡◌, ◌≢◌, ◌≤◌, ◌⊎◌, ◌∷◌, [], ℕ, List, MatchOption, MatchResult, Some, false, filter, length, true};
ghost use Rattle.std.specs.List.{list_any};
ghost use Rattle.cells.specs.Reading.{tokens_of};
ghost use Rattle.cells.specs.Refusals.{Answers};
ghost use Rattle.cells.specs.declared.token.Token.{Token};
ghost use Rattle.query.specs.Grammar.{BY, GROUP, FROM, Separated, SpellsItem, SpellsQuery, WHERE, comma};
ghost use Rattle.query.specs.Ends.{SpellsBy, SpellsEnd, SpellsFrom, SpellsGrouped, SpellsLast, SpellsTail, Whole};
ghost use Rattle.query.specs.Limits.{query_limit};
ghost use Rattle.query.specs.Queries.{FirstFault, IsQuery};
ghost use Rattle.query.specs.Reading.{Any, Ends, ReadsPhrase, Starts};
ghost use Rattle.query.specs.Values.{QueryTree, from_tree, has_too_many, is_aggregate, is_long};

use crate::conditions::predicate;
use crate::depth::is_too_deep;
use crate::grouping::elements;
use crate::having::Having;
use crate::item::Item;
use crate::limits::{MAX_GROUPING_COLUMNS, MAX_ITEMS, MAX_QUERY_BYTES};
use crate::owned::{beside, unless};
use crate::phrases::{Phrase, after_word, list, word_mark};
use crate::predicate::Predicate;
use crate::query::{Clauses, Grouped, Groups, Query};
use cells::{Refused, Text, Token, tokens_or};
use std::alloc::Global;

/// The query that the text spells. The refusal is the first fault of the text: [`Refused::Limit`]
/// where it has more than [`MAX_QUERY_BYTES`], [`Refused::QuerySyntax`] where it is no list of tokens,
/// [`Refused::Limit`] where more than [`MAX_OPEN_PARENTHESES`](crate::MAX_OPEN_PARENTHESES) are open at some
/// token (those closed so far are taken from those opened so far), [`Refused::QuerySyntax`] where the tokens
/// are no query, [`Refused::Limit`] where the select list has more than [`MAX_ITEMS`], HAVING names more than as many aggregates
/// (one that it names twice counts twice), or a GROUPING has more than [`MAX_GROUPING_COLUMNS`]; or
/// [`Refused::OutOfMemory`] where a growth was refused. Its time is linear in the text's length.
pub fn read(alloc: Global, text: &str) -> Result<Query, Refused>
    // What is answered is the text's query, or its first fault.
    ensures found { MatchResult result (λ q. IsQuery text.now q) (λ e. (e ≡ Refused.OutOfMemory) ⊎ FirstFault text.now e) }
    // What is a query is read, unless memory is wanting, and the text spells no other query.
    ensures only { (q : QueryTree) → IsQuery text.now q → Answers Refused.QuerySyntax (Some q) result }
{
    if text.len() > MAX_QUERY_BYTES {
        return Err(Refused::Limit);
    }
    let tokens = tokens_or(alloc, text, Refused::QuerySyntax)?;
    query_within(alloc, tokens.as_slice())
}

/// The query that the tokens are, where not too many parentheses are open and there are not too many items or columns.
fn query_within(alloc: Global, tokens: &[Token]) -> Result<Query, Refused>
    // It is the answer for each text of these tokens that is not too long.
    ensures { (text : List ℕ) → length text ≤ query_limit → tokens_of text ≡ Some tokens.now →
        MatchResult result (λ q. IsQuery text q) (λ e. (e ≡ Refused.OutOfMemory) ⊎ FirstFault text e) }
{
    if is_too_deep(tokens) {
        return Err(Refused::Limit);
    }
    let clauses = clauses(alloc, tokens)?;
    let clauses = within_limits(clauses)?;
    Ok(Query::of(clauses))
}

/// The clauses, where they have not too many items or columns.
fn within_limits(clauses: Clauses) -> Result<Clauses, Refused>
    ensures { MatchResult result (λ q. (q ≡ clauses) × (has_too_many q ≡ false)) (λ e. (e ≡ Refused.Limit) × (has_too_many clauses ≡ true)) }
{
    let fault = limit_fault(&clauses);
    unless(clauses, fault)
}

/// The fault of the clauses, if their items are too many or if one of them is too long.
fn limit_fault(clauses: &Clauses) -> Option<Refused>
    ensures { MatchOption result (has_too_many clauses.now ≡ false) (λ e. (e ≡ Refused.Limit) × (has_too_many clauses.now ≡ true)) }
{
    if has_too_many(clauses) {
        return Some(Refused::Limit);
    }
    None
}

/// Whether the select list has too many items, HAVING too many aggregates, or a GROUPING too many columns.
fn has_too_many(clauses: &Clauses) -> bool
    ensures { result ≡ has_too_many clauses.now }
{
    if clauses.items.len() > MAX_ITEMS {
        return true;
    }
    let asked = clauses.having.items.as_slice();
    if aggregate_count(asked) > MAX_ITEMS {
        return true;
    }
    if has_long(clauses.items.as_slice()) {
        return true;
    }
    has_long(asked)
}

/// How many of the items are aggregates.
fn aggregate_count(items: &[Item<Text>]) -> usize
    ensures { result ≡ length (filter is_aggregate items.now) }
{
    items.iter().filter(|item| is_aggregate(*item)).count()
}

/// Whether the item is an aggregate.
fn is_aggregate(item: &Item<Text>) -> bool
    ensures { result ≡ is_aggregate item.now }
{
    match item {
        Item::Column(_) | Item::Grouping(_) => false,
        Item::CountRows
        | Item::Count(_)
        | Item::CountDistinct(_)
        | Item::Sum(_)
        | Item::Min(_)
        | Item::Max(_) => true,
    }
}

/// Whether one of the items is a GROUPING of too many columns.
fn has_long(items: &[Item<Text>]) -> bool
    ensures { result ≡ list_any is_long items.now }
{
    items.iter().any(|item| is_long(item))
}

/// Whether the item is a GROUPING of too many columns.
fn is_long(item: &Item<Text>) -> bool
    ensures { result ≡ is_long item.now }
{
    match item {
        Item::Grouping(names) => names.as_slice().len() > MAX_GROUPING_COLUMNS,
        _ => false,
    }
}

/// The clauses that the tokens are.
fn clauses(alloc: Global, tokens: &[Token]) -> Result<Clauses, Refused>
    ensures { ReadsPhrase (λ q. (q, [])) (Whole SpellsQuery tokens.now) result }
{
    let Some(more) = after_word(tokens, "SELECT") else {
        return Err(Refused::QuerySyntax);
    };
    let (items, behind) = items_from(alloc, more)?;
    let (table, (condition, grouped)) = table_and_tail(alloc, behind)?;
    Ok(Clauses {
        items,
        table,
        condition,
        groups: grouped.groups,
        having: grouped.having,
    })
}

/// The items up to the FROM behind them, and what follows it.
fn items_from(alloc: Global, tokens: &[Token]) -> Result<(Vec<Item<Text>>, &[Token]), Refused>
    ensures { ReadsPhrase (λ x. (x.0.items, x.1.now)) (λ is r. Separated comma SpellsItem tokens.now is (FROM ∷ r)) result }
{
    let (items, rest) = list(alloc, tokens)?;
    let Some(behind) = after_word(rest, "FROM") else {
        return Err(Refused::QuerySyntax);
    };
    Ok((items, behind))
}

/// The predicate of WHERE, where there is one, GROUP BY and HAVING.
type Tail = (Option<Predicate<Text>>, Grouped);

/// The table's name, and what stands after it.
fn table_and_tail(alloc: Global, tokens: &[Token]) -> Result<(Text, Tail), Refused>
    ensures { ReadsPhrase (λ x. (from_tree x.0 x.1, [])) (Whole SpellsFrom tokens.now) result }
{
    let (table, behind) = Text::read(alloc, tokens)?;
    beside(tail(alloc, behind), table)
}

/// What stands after the table's name.
fn tail(alloc: Global, tokens: &[Token]) -> Result<Tail, Refused>
    ensures { ReadsPhrase (λ x. ((x.0, x.1), [])) (Whole SpellsTail tokens.now) result }
{
    if let Some(more) = after_word(tokens, "WHERE") {
        return where_tail(alloc, more);
    }
    beside(grouped(alloc, tokens), None)
}

/// The predicate behind WHERE, GROUP BY and HAVING.
fn where_tail(alloc: Global, tokens: &[Token]) -> Result<Tail, Refused>
    ensures { ReadsPhrase (λ x. ((x.0, x.1), [])) (Whole SpellsTail (WHERE ∷ tokens.now)) result }
{
    let (condition, behind) = predicate(alloc, tokens)?;
    beside(grouped(alloc, behind), Some(condition))
}

/// GROUP BY and HAVING, with which the tokens end. Without GROUP BY, it is as with `GROUP BY ()`.
fn grouped(alloc: Global, tokens: &[Token]) -> Result<Grouped, Refused>
    ensures { ReadsPhrase (λ g. (g, [])) (Whole SpellsGrouped tokens.now) result }
{
    if let Some(more) = after_group_by(tokens) {
        return grouped_by(alloc, more);
    }
    let having = having(alloc, tokens)?;
    let (having, groups) = beside(Groups::all_rows(alloc), having)?;
    Ok(Grouped { groups, having })
}

/// What stands behind GROUP BY, and HAVING, with which the tokens end.
fn grouped_by(alloc: Global, tokens: &[Token]) -> Result<Grouped, Refused>
    ensures { ReadsPhrase (λ g. (g, [])) (Whole SpellsGrouped (GROUP ∷ BY ∷ tokens.now)) result }
{
    let (groups, rest) = groups(alloc, tokens)?;
    let (groups, having) = beside(having(alloc, rest), groups)?;
    Ok(Grouped { groups, having })
}

/// DISTINCT, where it stands there, and the elements behind it, and what follows them.
fn groups(alloc: Global, tokens: &[Token]) -> Result<(Groups, &[Token]), Refused>
    ensures { ReadsPhrase (λ x. (x.0, x.1.now)) (Starts SpellsBy (Ends comma Any) tokens.now) result }
{
    let (distinct, more) = word_mark(tokens, "DISTINCT");
    let (elements, rest) = elements(alloc, more)?;
    Ok((Groups { distinct, elements }, rest))
}

/// HAVING, with which the tokens end, where they do not end already.
fn having(alloc: Global, tokens: &[Token]) -> Result<Having, Refused>
    ensures { ReadsPhrase (λ h. (h, [])) (Whole SpellsEnd tokens.now) result }
{
    if is_end(tokens) {
        return Ok(Having::none(alloc));
    }
    let Some(more) = after_word(tokens, "HAVING") else {
        return Err(Refused::QuerySyntax);
    };
    let predicate = last_predicate(alloc, more)?;
    Ok(Having::of(alloc, predicate)?)
}

/// The predicate over items with which the tokens end.
fn last_predicate(alloc: Global, tokens: &[Token]) -> Result<Predicate<Item<Text>>, Refused>
    ensures { ReadsPhrase (λ p. (p, [])) (Whole SpellsLast tokens.now) result }
{
    let (predicate, rest) = predicate(alloc, tokens)?;
    ended(predicate, rest)
}

/// The value, where no token follows it.
fn ended<T: Drop>(value: T, rest: &[Token]) -> Result<T, Refused>
    ensures { MatchResult result (λ x. (x ≡ value) × (rest.now ≡ [])) (λ e. (e ≡ Refused.QuerySyntax) × (rest.now ≢ [])) }
{
    if is_end(rest) {
        return Ok(value);
    }
    Err(Refused::QuerySyntax)
}

/// What follows GROUP BY, where the tokens begin with it.
fn after_group_by(tokens: &[Token]) -> Option<&[Token]>
    ensures { MatchOption result ((more : List Token) → tokens.now ≢ GROUP ∷ BY ∷ more) (λ rest. tokens.now ≡ GROUP ∷ BY ∷ rest.now) }
{
    let rest = after_word(tokens, "GROUP")?;
    after_word(rest, "BY")
}

/// Whether no token is left.
fn is_end(tokens: &[Token]) -> bool
    ensures { Decides result (tokens.now ≡ []) }
{
    tokens.is_empty()
}
