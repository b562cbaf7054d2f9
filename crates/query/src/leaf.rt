//! Leaves: what an operand may be beside a literal. In WHERE it is the name of a column, in HAVING an item.
ghost use Rattle.std.specs.Prelude.{◌≡◌, List, true};
ghost use Rattle.cells.specs.declared.token.Token.{Token};
ghost use Rattle.query.specs.Leaves as laws;
ghost use Rattle.query.specs.Leaves.{begins_leaf};

use crate::item::Item;
use crate::phrases::Phrase;
use cells::Text;

/// What an operand may be beside a literal.
pub trait Leaf: Phrase {
    ghost begins: { (ts : List Token) (leaf : Self) (rest : List Token) → Self.spells ts leaf rest → begins_leaf ts ≡ true };
}

impl Leaf for Text {
    ghost begins = { laws.name_begins };
}

impl Leaf for Item<Text> {
    ghost begins = { laws.item_begins };
}
