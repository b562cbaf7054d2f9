//! The syntax tree of a query.
ghost use Rattle.std.specs.Prelude.{◌≡◌, IfOk, false};
ghost use Rattle.std.specs.List.{list_any};
ghost use Rattle.std.specs.Option.{option_copied};
ghost use Rattle.query.specs.Values.{AreFilled, IsKept, all_rows, is_long};

use crate::element::Element;
use crate::having::Having;
use crate::item::Item;
use crate::predicate::Predicate;
use cells::Text;
use std::alloc::{AllocError, Global};
use std::marker::Model;

/// GROUP BY of a query.
#[derive(Drop)]
pub(crate) struct Groups {
    /// Whether DISTINCT stands behind GROUP BY.
    pub distinct: bool,
    /// The elements, in the order of the text.
    pub elements: Vec<Element>,
}

impl Model for Groups {
    ghost use Rattle.query.specs.Values.{GroupsTree};

    ghost Value = { GroupsTree };

    ghost use Rattle.query.specs.Codes.{coded_element};
    ghost use Rattle.std.specs.Coded.{codes};

    ghost coded = { Prim.hlevel (codes, coded_element) };

    ghost view = { λ g. record { distinct = g.distinct; elements = g.elements.items } };
}

impl Groups {
    /// What a query without GROUP BY has: the element `()` alone.
    pub fn all_rows(alloc: Global) -> Result<Groups, AllocError>
        ensures { IfOk result (λ groups. groups ≡ all_rows) }
    {
        let mut elements = Vec::new(alloc);
        elements.push(Element::empty())?;
        Ok(Groups {
            distinct: false,
            elements,
        })
    }
}

/// What follows the predicate of WHERE.
#[derive(Drop)]
pub(crate) struct Grouped {
    /// GROUP BY.
    pub groups: Groups,
    /// HAVING.
    pub having: Having,
}

impl Model for Grouped {
    ghost use Rattle.query.specs.Values.{GroupedTree};

    ghost Value = { GroupedTree };

    ghost use Rattle.query.specs.Codes.{coded_element, coded_predicate};
    ghost use Rattle.std.specs.Coded.{codes};

    ghost coded = { Prim.hlevel (codes, coded_element, coded_predicate) };

    ghost view = { λ g. record { groups = g.groups; having = g.having } };
}

/// The clauses of a query as they were read, before its limits are looked at.
#[derive(Drop)]
pub(crate) struct Clauses {
    /// The items of the select list.
    pub items: Vec<Item<Text>>,
    /// The table of FROM.
    pub table: Text,
    /// The predicate of WHERE, where there is one.
    pub condition: Option<Predicate<Text>>,
    /// GROUP BY.
    pub groups: Groups,
    /// HAVING.
    pub having: Having,
}

impl Model for Clauses {
    ghost use Rattle.query.specs.Values.{QueryTree};

    ghost Value = { QueryTree };

    ghost use Rattle.query.specs.Codes.{coded_element, coded_predicate};
    ghost use Rattle.std.specs.Coded.{codes};

    ghost coded = { Prim.hlevel (codes, coded_element, coded_predicate) };

    ghost view = { λ q. record { items = q.items.items; table = q.table; condition = q.condition; groups = q.groups; having = q.having } };
}

/// A query (ISO/IEC 9075-2:1999, 7.11), its names in upper case. No GROUPING SETS in it is without elements, and no
/// GROUPING has more than [`MAX_GROUPING_COLUMNS`](crate::MAX_GROUPING_COLUMNS).
#[derive(Drop)]
pub struct Query {
    clauses: Clauses,
}

impl Model for Query {
    ghost use Rattle.query.specs.Values.{IsKept, QueryTree};

    ghost Value = { QueryTree };

    ghost use Rattle.query.specs.Codes.{coded_element, coded_predicate};
    ghost use Rattle.std.specs.Coded.{codes};

    ghost coded = { Prim.hlevel (codes, coded_element, coded_predicate) };

    ghost view = { λ q. q.clauses };

    ghost invariant = { λ q. IsKept q.clauses };
}

impl Query {
    /// The query of these clauses. No GROUPING SETS in them may be without elements, and no GROUPING may be too long.
    pub(crate) fn of(clauses: Clauses) -> Query
        requires { IsKept clauses }
        ensures { result ≡ clauses }
    {
        Query { clauses }
    }

    /// The items of the select list, in the order of the text. No GROUPING in them is long.
    pub fn items(&self) -> &[Item<Text>]
        ensures items { result.now ≡ self.now.items }
        ensures short { list_any is_long self.now.items ≡ false }
    {
        self.clauses.items.as_slice()
    }

    /// The items that HAVING names, in the order of the text; one that it names twice stands here twice. No GROUPING in them
    /// is long.
    pub fn having_items(&self) -> &[Item<Text>]
        ensures items { result.now ≡ self.now.having.items }
        ensures short { list_any is_long self.now.having.items ≡ false }
    {
        self.clauses.having.items.as_slice()
    }

    /// The predicate of HAVING over the indexes of the items that it names, where there is one.
    pub fn having(&self) -> Option<&Predicate<usize>>
        ensures { option_copied result ≡ self.now.having.predicate }
    {
        self.clauses.having.predicate.as_ref()
    }

    /// The table of FROM.
    pub fn table(&self) -> &Text
        ensures { result.now ≡ self.now.table }
    {
        &self.clauses.table
    }

    /// The predicate of WHERE, where there is one.
    pub fn condition(&self) -> Option<&Predicate<Text>>
        ensures { option_copied result ≡ self.now.condition }
    {
        self.clauses.condition.as_ref()
    }

    /// The predicates of WHERE and of HAVING out of the query, whose other parts are let go.
    pub(crate) fn into_predicates(self) -> (Option<Predicate<Text>>, Option<Predicate<usize>>)
        ensures condition { result.0 ≡ self.condition }
        ensures having { result.1 ≡ self.having.predicate }
    {
        let clauses = self.clauses;
        let having = clauses.having;
        (clauses.condition, having.predicate)
    }

    /// Whether DISTINCT stands behind GROUP BY, so that of equal grouping sets the first alone stays.
    pub fn is_distinct(&self) -> bool
        ensures { result ≡ self.now.groups.distinct }
    {
        self.clauses.groups.distinct
    }

    /// The elements of GROUP BY, in the order of the text; `()` alone where there is no GROUP BY.
    pub fn elements(&self) -> &[Element]
        ensures elements { result.now ≡ self.now.groups.elements }
        ensures filled { AreFilled self.now.groups.elements }
    {
        self.clauses.groups.elements.as_slice()
    }
}
