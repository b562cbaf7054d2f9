//! The aggregates that a plan asks for.
ghost use Rattle.std.specs.Prelude.{◌≡◌, IfOk};
ghost use Rattle.groups.specs.Accumulators.{aggregation_of, aggregations_of};

use aggs::Kind;
use query::Item;
use std::alloc::{AllocError, Global};

/// An aggregate of a column, by the column's index.
#[derive(Clone, Copy, Debug, Drop)]
pub struct Aggregation {
    pub kind: Kind,
    pub column: usize,
}

/// The aggregates that the items of a plan ask for, those of HAVING behind those of the select list.
pub fn aggregations(alloc: Global, items: &[Item<usize>]) -> Result<Vec<Aggregation>, AllocError>
    ensures { IfOk result (λ v. v.items ≡ aggregations_of items.now) }
{
    let mut aggregations = Vec::new(alloc);
    for item in items {
        if let Some(aggregation) = aggregation_of(item) {
            aggregations.push(aggregation)?;
        }
    }
    Ok(aggregations)
}

/// The aggregate that an item asks for, where it asks for one. COUNT(*) may be stepped with any cell of a row, and
/// is with the first.
fn aggregation_of(item: &Item<usize>) -> Option<Aggregation>
    ensures { result ≡ aggregation_of item.now }
{
    let (kind, column) = match item {
        Item::Column(_) | Item::Grouping(_) => return None,
        Item::CountRows => (Kind::CountRows, 0),
        Item::Count(column) => (Kind::Count, *column),
        Item::CountDistinct(column) => (Kind::CountDistinct, *column),
        Item::Sum(column) => (Kind::Sum, *column),
        Item::Min(column) => (Kind::Min, *column),
        Item::Max(column) => (Kind::Max, *column),
    };
    Some(Aggregation { kind, column })
}
