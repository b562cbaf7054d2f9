//! Laws of the rows of an edition: of their shape, and of a list of them.
ghost use Rattle.std.specs.Prelude.{◌≡◌, List, map};
ghost use Rattle.std.specs.FinMap.{keys};
ghost use Rattle.cells.specs.Tables.{table};
ghost use Rattle.cells.specs.Updates.{AreLeft};
ghost use Rattle.cells.specs.Values.{RowValue};
ghost use Rattle.trie.specs.Shapes.{shape_of};
ghost use Rattle.board.specs.Editions.{AreListed};

use crate::snapshot::Snapshot;
use cells::{Cell, KeyHash, Row};
use trie::a_map_has_the_shape_of_its_keys;

/// A table has the shape of the keys of its rows, in whatever order updates leave them.
pub fn rows_have_the_shape_of_their_keys<H: KeyHash<Cell>>()
    ensures { (rs : List RowValue) → AreLeft rs → shape_of H.hash_of (keys (table rs)) ≡ shape_of H.hash_of (map (λ r. r.key) rs) }
{
    a_map_has_the_shape_of_its_keys::<Cell, Row, H>();
}

/// The rows of each edition are those of a list that updates leave, so a report of them has an answer. It does nothing.
#[tactic(auto, using(crate::proofs::RowsLemmas::listed))]
pub fn an_edition_has_a_list_of_rows<H: KeyHash<Cell>>(snapshot: &Snapshot<H>)
    ensures { AreListed snapshot.now.rows }
{
    snapshot.root();
}
