//! Looking for a name among the elements of GROUP BY, without a set of them.
ghost use Rattle.std.specs.Prelude.{◌≡◌, Bool};
ghost use Rattle.std.specs.List.{flat_map, list_any};
ghost use Rattle.query.specs.Names.{element_names};

use crate::element::{Element, ElementForm, Unit};
use cells::Text;

/// What is looked for among names, or among the leaves of a predicate.
pub trait Finder<T> {
    ghost finds: { Self → T → Bool };

    /// Whether this is one.
    fn finds(&self, it: &T) -> bool
        ensures { result ≡ finds self.now it.now };
}

/// Whether some name in the elements is one.
pub fn is_in_elements<F: Finder<Text>>(finder: &F, elements: &[Element]) -> bool
    ensures { result ≡ list_any (F.finds finder.now) (flat_map element_names elements.now) }
{
    for element in elements {
        if is_in_element(finder, element) {
            return true;
        }
    }
    false
}

/// Whether some name in the element is one.
fn is_in_element<F: Finder<Text>>(finder: &F, element: &Element) -> bool
    ensures { result ≡ list_any (F.finds finder.now) (element_names element.now) }
{
    match &element.form {
        ElementForm::Empty => false,
        ElementForm::Unit(unit) => is_in_unit(finder, unit),
        ElementForm::Rollup(units) | ElementForm::Cube(units) => {
            is_in_units(finder, units.as_slice())
        }
        ElementForm::Sets(elements) => {
            for inner in elements {
                if is_in_element(finder, inner) {
                    return true;
                }
            }
            false
        }
    }
}

/// Whether some name in the units is one.
fn is_in_units<F: Finder<Text>>(finder: &F, units: &[Unit]) -> bool
    ensures { result ≡ list_any (F.finds finder.now) (flat_map (λ u. u) units.now) }
{
    for unit in units {
        if is_in_unit(finder, unit) {
            return true;
        }
    }
    false
}

/// Whether some name in the unit is one.
fn is_in_unit<F: Finder<Text>>(finder: &F, unit: &Unit) -> bool
    ensures { result ≡ list_any (F.finds finder.now) unit.now }
{
    unit.names().iter().any(|name| finder.finds(name))
}
