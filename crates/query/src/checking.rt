//! Checks a query against the schema of a table.
ghost use Rattle.std.specs.Prelude.{◌≡◌, MatchResult, None, Some};
ghost use Rattle.cells.specs.Refusals.{Reads};
ghost use Rattle.query.specs.Checks.{fault_of, faults_of, first_of, has_too_many_sets};
ghost use Rattle.query.specs.Plans.{checked};

use crate::counting::set_count;
use crate::grouped::is_not_grouped;
use crate::limits::MAX_SETS;
use crate::names::is_unknown;
use crate::owned::unless;
use crate::plan::Plan;
use crate::query::Query;
use crate::types::is_wrong_type;
use cells::{Refused, Schema};
use std::alloc::Global;

/// The plan of the query for the table of the schema. The refusal is the first of these:
/// [`Refused::Unknown`] where the query is of another table, or some name in its items, in WHERE, in GROUP BY or in HAVING is
/// no column; [`Refused::WrongType`] where SUM is over a TEXT column, or a comparison, BETWEEN or IN puts an integer beside a
/// text; [`Refused::NotGrouped`] where an item, of the select list or of HAVING, is a column alone that is in no grouping set,
/// or GROUPING of such a column; [`Refused::TooManySets`] where there are more than 256 grouping sets, repeated ones counted, also those
/// that DISTINCT drops. It makes no set before all of them are looked at. [`Refused::OutOfMemory`] where a growth was refused.
pub fn check(alloc: Global, query: Query, schema: &Schema) -> Result<Plan, Refused>
    // The plan of the query exactly where it has no fault, and its first fault where it has one.
    ensures exact { Reads (checked schema.now query) result }
{
    let query = without_fault(query, schema)?;
    let plan = Plan::of(alloc, query, schema)?;
    Ok(plan)
}

/// The query, where it has no fault for the table; else its first fault.
fn without_fault(query: Query, schema: &Schema) -> Result<Query, Refused>
    ensures { MatchResult result (λ q. (q ≡ query) × (fault_of schema.now query ≡ None)) (λ e. fault_of schema.now query ≡ Some e) }
{
    let fault = Faults::of(&query, schema).first();
    unless(query, fault)
}

/// Which faults a query has for a table.
#[derive(Clone, Copy, Drop)]
struct Faults {
    unknown: bool,
    wrong_type: bool,
    not_grouped: bool,
    too_many_sets: bool,
}

impl Faults {
    /// The faults of the query. It makes no set and takes no memory.
    fn of(query: &Query, schema: &Schema) -> Faults
        ensures { result ≡ faults_of schema.now query.now }
    {
        Faults {
            unknown: is_unknown(query, schema),
            wrong_type: is_wrong_type(query, schema),
            not_grouped: is_not_grouped(query),
            too_many_sets: has_too_many_sets(query),
        }
    }

    /// The first of them in the order in which they are answered, if there is one.
    fn first(self) -> Option<Refused>
        ensures { result ≡ first_of self }
    {
        if self.unknown {
            return Some(Refused::Unknown);
        }
        if self.wrong_type {
            return Some(Refused::WrongType);
        }
        if self.not_grouped {
            return Some(Refused::NotGrouped);
        }
        if self.too_many_sets {
            return Some(Refused::TooManySets);
        }
        None
    }
}

/// Whether the query has more grouping sets than the limit. It makes no set.
fn has_too_many_sets(query: &Query) -> bool
    ensures { result ≡ has_too_many_sets query.now }
{
    set_count(query.elements()) > MAX_SETS
}
