//! Whether the columns of a select list and of HAVING are in the grouping sets. No set is made for it.
ghost use Rattle.std.specs.Prelude.{◌≡◌, bytes_eq, not};
ghost use Rattle.std.specs.List.{list_any};
ghost use Rattle.query.specs.Checks.{is_in_some, is_not_grouped, is_ungrouped};
ghost use Rattle.query.specs.Sets.{grouping_sets};
ghost use Rattle.query.specs.Values.{AreFilled};

use crate::element::Element;
use crate::finding::{Finder, is_in_elements};
use crate::item::Item;
use crate::query::Query;
use cells::Text;

/// Whether some item, of the select list or of HAVING, is a column alone that is in no grouping set, or GROUPING of such a
/// column.
pub fn is_not_grouped(query: &Query) -> bool
    ensures { result ≡ is_not_grouped query.now }
{
    let elements = query.elements();
    if has_ungrouped(elements, query.items()) {
        return true;
    }
    has_ungrouped(elements, query.having_items())
}

/// Whether some item is ungrouped.
fn has_ungrouped(elements: &[Element], items: &[Item<Text>]) -> bool
    requires { AreFilled elements.now }
    ensures { result ≡ list_any (is_ungrouped (grouping_sets elements.now)) items.now }
{
    for item in items {
        if is_ungrouped(elements, item) {
            return true;
        }
    }
    false
}

/// Whether the item is a column alone that is in no grouping set of the elements, or GROUPING of such a column.
fn is_ungrouped(elements: &[Element], item: &Item<Text>) -> bool
    requires { AreFilled elements.now }
    ensures { result ≡ is_ungrouped (grouping_sets elements.now) item.now }
{
    match item {
        Item::Column(name) => !is_grouped(elements, name),
        Item::Grouping(names) => has_ungrouped_name(elements, names.as_slice()),
        _ => false,
    }
}

/// Whether some name is in no grouping set of the elements.
fn has_ungrouped_name(elements: &[Element], names: &[Text]) -> bool
    requires { AreFilled elements.now }
    ensures { result ≡ list_any (λ n. not (is_in_some (grouping_sets elements.now) n)) names.now }
{
    for name in names {
        if !is_grouped(elements, name) {
            return true;
        }
    }
    false
}

/// Looks for names that are this one.
#[derive(Clone, Copy, Drop)]
struct SameName<'a> {
    name: &'a Text,
}

impl Finder<Text> for SameName<'_> {
    ghost finds = { λ f other. bytes_eq f.name.now other };

    fn finds(&self, other: &Text) -> bool {
        *self.name == *other
    }
}

/// Whether some grouping set of the elements has the name: it has exactly where some element names it.
fn is_grouped(elements: &[Element], name: &Text) -> bool
    requires { AreFilled elements.now }
    ensures { result ≡ is_in_some (grouping_sets elements.now) name.now }
{
    is_in_elements(&SameName { name }, elements)
}
