//! Plans: what a query means for a table.
ghost use Rattle.std.specs.Prelude.{◌≡◌, ◌++◌, IfOk, false, length, map};
ghost use Rattle.std.specs.List.{list_any};
ghost use Rattle.std.specs.Option.{option_copied};
ghost use Rattle.query.specs.Headings.{heading};
ghost use Rattle.query.specs.Marking.{marked, with_marks};
ghost use Rattle.query.specs.Plans.{plan_of, resolved_item};
ghost use Rattle.query.specs.Sets.{resolved_sets};
ghost use Rattle.query.specs.Values.{is_long, items_of};

use crate::headings::headings;
use crate::indexes::{resolved_condition, resolved_items};
use crate::item::Item;
use crate::marking::{twice, with_marks};
use crate::owned::beside;
use crate::predicate::Predicate;
use crate::query::Query;
use crate::sets::{GroupSet, resolved_sets};
use cells::{Column, Schema, Text};
use std::alloc::{AllocError, Global};
use std::marker::Model;

/// A query by the indexes of its columns, and with its grouping sets. It is made by
/// [`check`](crate::check), for the table that the query was checked for. No GROUPING in it has more than
/// [`MAX_GROUPING_COLUMNS`](crate::MAX_GROUPING_COLUMNS).
#[derive(Drop)]
pub struct Plan {
    items: Vec<Item<usize>>,
    headings: Vec<Text>,
    condition: Option<Predicate<usize>>,
    sets: Vec<GroupSet>,
    having: Option<Predicate<usize>>,
}

impl Model for Plan {
    ghost use Rattle.query.specs.Plans.{PlanTree};

    ghost Value = { PlanTree };

    ghost use Rattle.query.specs.Codes.{coded_predicate};
    ghost use Rattle.std.specs.Coded.{codes};

    ghost coded = { Prim.hlevel (codes, coded_predicate) };

    ghost view = { λ p. record { items = p.items.items; headings = p.headings.items; condition = p.condition; sets = p.sets.items; having = p.having } };

    ghost use Rattle.std.specs.Prelude.{◌≡◌, false};
    ghost use Rattle.std.specs.List.{list_any};
    ghost use Rattle.query.specs.Values.{is_long};

    ghost invariant = { λ p. list_any is_long p.items.items ≡ false };
}

/// What a plan has of a query beside its predicate.
#[derive(Drop)]
struct Outline {
    items: Vec<Item<usize>>,
    headings: Vec<Text>,
    sets: Vec<GroupSet>,
}

impl Outline {
    /// The outline of the query, whose names are all of these columns.
    fn of(alloc: Global, columns: &[Column], query: &Query) -> Result<Outline, AllocError>
        ensures items { IfOk result (λ outline. outline.items.items ≡ map (resolved_item columns.now) (items_of query.now)) }
        ensures short { IfOk result (λ outline. list_any is_long outline.items.items ≡ false) }
        ensures headings { IfOk result (λ outline. outline.headings.items ≡ map heading query.now.items) }
        ensures sets { IfOk result (λ outline. outline.sets.items ≡ resolved_sets columns.now query.now.groups) }
    {
        let items = resolved_items(alloc, columns, query.items(), query.having_items())?;
        let headings = headings(alloc, query.items())?;
        let sets = resolved_sets(alloc, columns, query.is_distinct(), query.elements())?;
        Ok(Outline {
            items,
            headings,
            sets,
        })
    }

    /// The outline with the marks of its select list behind that; each has the heading of its item.
    fn marked(self, alloc: Global) -> Result<Outline, AllocError>
        requires { list_any is_long self.items.items ≡ false }
        ensures items { IfOk result (λ outline. outline.items.items ≡ with_marks (length self.headings.items) self.items.items) }
        ensures short { IfOk result (λ outline. list_any is_long outline.items.items ≡ false) }
        ensures headings { IfOk result (λ outline. outline.headings.items ≡ self.headings.items ++ self.headings.items) }
        ensures sets { IfOk result (λ outline. outline.sets ≡ self.sets) }
    {
        let Outline {
            items,
            headings,
            sets,
        } = self;
        let many = headings.len();
        let ((headings, sets), items) = beside(with_marks(alloc, items, many), (headings, sets))?;
        let ((items, sets), headings) = beside(twice(headings), (items, sets))?;
        Ok(Outline {
            items,
            headings,
            sets,
        })
    }
}

impl Plan {
    /// The plan of the query, whose names are all of columns of the schema.
    pub(crate) fn of(alloc: Global, query: Query, schema: &Schema) -> Result<Plan, AllocError>
        ensures { IfOk result (λ plan. plan ≡ plan_of schema.now query) }
    {
        let columns = schema.columns();
        let (query, outline) = beside(Outline::of(alloc, columns, &query), query)?;
        let (condition, having) = query.into_predicates();
        let condition = resolved_condition(alloc, columns, condition);
        let ((outline, having), condition) = beside(condition, (outline, having))?;
        Ok(Plan {
            items: outline.items,
            headings: outline.headings,
            condition,
            sets: outline.sets,
            having,
        })
    }

    /// The plan that tells, too, which columns the grouping set of a row lacks: behind the select list stands a mark for each of
    /// its items, with the item's heading. That of a column is GROUPING of the column, that of another item is 0. The only error
    /// is that a growth was refused.
    pub fn marked(self, alloc: Global) -> Result<Plan, AllocError>
        ensures { IfOk result (λ plan. plan ≡ marked self) }
    {
        let Plan {
            items,
            headings,
            condition,
            sets,
            having,
        } = self;
        let outline = Outline {
            items,
            headings,
            sets,
        };
        let ((condition, having), outline) = beside(outline.marked(alloc), (condition, having))?;
        Ok(Plan {
            items: outline.items,
            headings: outline.headings,
            condition,
            sets: outline.sets,
            having,
        })
    }

    /// The items of the select list, as many as there are headings, and behind them those that HAVING names; each in the order
    /// of the query.
    pub fn items(&self) -> &[Item<usize>]
        ensures items { result.now ≡ self.now.items }
        ensures short { list_any is_long self.now.items ≡ false }
    {
        self.items.as_slice()
    }

    /// The text that a report's header has of each item of the select list, as `COUNT(DISTINCT ITEM)`.
    pub fn headings(&self) -> &[Text]
        ensures { result.now ≡ self.now.headings }
    {
        self.headings.as_slice()
    }

    /// The predicate of WHERE, where there is one.
    pub fn condition(&self) -> Option<&Predicate<usize>>
        ensures { option_copied result ≡ self.now.condition }
    {
        self.condition.as_ref()
    }

    /// The grouping sets, in order, repeated ones too unless DISTINCT was asked for.
    pub fn sets(&self) -> &[GroupSet]
        ensures { result.now ≡ self.now.sets }
    {
        self.sets.as_slice()
    }

    /// The predicate of HAVING, where there is one, over the indexes of its items, which count from the first behind the select
    /// list's.
    pub fn having(&self) -> Option<&Predicate<usize>>
        ensures { option_copied result ≡ self.now.having }
    {
        self.having.as_ref()
    }
}
