//! Queries: how a text is read, what a query means for a table, and what its predicates say of a row and of a group.
#![tactic(auto)]

mod checking;
mod conditions;
mod counting;
mod depth;
mod element;
mod finding;
mod grouped;
mod grouping;
mod having;
mod headings;
mod indexes;
mod item;
mod laws;
mod leaf;
mod limits;
mod marking;
mod names;
mod naming;
mod owned;
mod phrases;
mod plan;
mod plan_laws;
mod predicate;
mod query;
mod reading;
mod resolving;
mod select_list;
mod sets;
mod test;
mod truth;
mod types;

pub use checking::check;
pub use element::{Element, ElementForm, Unit};
pub use item::{GroupingColumns, Item};
pub use laws::{a_text_has_one_answer, each_text_has_an_answer, worked_query};
pub use limits::{
    MAX_GROUPING_COLUMNS, MAX_ITEMS, MAX_OPEN_PARENTHESES, MAX_QUERY_BYTES, MAX_SETS,
};
pub use plan::Plan;
pub use plan_laws::{truth_by_columns, truth_by_names, worked_sets, worked_truths};
pub use predicate::{Predicate, PredicateForm};
pub use query::Query;
pub use reading::read;
pub use sets::GroupSet;
pub use test::{Comparison, Literal, Literals, Operand, Test};
pub use truth::Truth;
