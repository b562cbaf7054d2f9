//! How many grouping sets there are, without making one.
ghost use Rattle.std.specs.Prelude.{◌≡◌, ◌^◌, length};
ghost use Rattle.query.specs.Sets.{counted, grouping_sets, sets_of};

use crate::element::{Element, ElementForm};
use crate::limits::MAX_SETS;

/// What a count answers where there are more than [`MAX_SETS`]: it goes no further.
const TOO_MANY: u64 = MAX_SETS + 1;

/// How many grouping sets the elements of GROUP BY give, repeated ones counted, and 257 where there are more than
/// [`MAX_SETS`]. It makes no set and takes no memory.
pub fn set_count(elements: &[Element]) -> u64
    ensures { result ≡ counted (length (grouping_sets elements.now)) }
{
    let mut total = 1;
    let mut left = elements.len();
    while left > 0 {
        left -= 1;
        total = TOO_MANY.min(total * element_count(&elements[left]));
    }
    total
}

/// How many sets the element stands for.
fn element_count(element: &Element) -> u64
    ensures { result ≡ counted (length (sets_of element.now)) }
{
    match &element.form {
        ElementForm::Empty => 1,
        ElementForm::Unit(_) => 1,
        ElementForm::Rollup(units) => (units.len() as u64).min(MAX_SETS) + 1,
        ElementForm::Cube(units) => cube_count(units.len()),
        ElementForm::Sets(elements) => {
            let mut total = 0;
            for inner in elements {
                total = TOO_MANY.min(total + element_count(inner));
            }
            total
        }
    }
}

/// How many sets CUBE of so many units stands for.
fn cube_count(units: usize) -> u64
    ensures { result ≡ counted (2 ^ units) }
{
    if units > 8 { TOO_MANY } else { 1 << units }
}
