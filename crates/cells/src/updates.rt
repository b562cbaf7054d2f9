//! The laws of updates: the rows that they leave are a map from keys.
ghost use Rattle.std.specs.Prelude.{◌≡◌, ◌≤◌, ◌↔◌, Contains, List, [], ◌∷◌, ◌++◌, length};
ghost use Rattle.std.specs.FinMap as map;
ghost use Rattle.std.specs.Option.{option_or};
ghost use Rattle.cells.specs.Tables.{Rows, laid_over, table};
ghost use Rattle.cells.specs.Updates.{Delete, IsLastPut, Put, Update, puts, rows};
ghost use Rattle.cells.specs.Values.{RowValue};

use crate::cell::Cell;

/// The rows that updates leave are a map from keys: a put lays its row over the map, a delete takes
/// a key out, and no key comes twice.
pub fn updates_make_a_map()
    ensures put { (us : List Update) (row : RowValue) → table (rows (us ++ Put row ∷ [])) ≡ map.insert (table (rows us)) row.key row }
    ensures delete { (us : List Update) (key : Cell) → table (rows (us ++ Delete key ∷ [])) ≡ map.remove (table (rows us)) key }
    ensures once { (us : List Update) → map.len (table (rows us)) ≡ length (rows us) }
{}

/// The rows that updates leave are those of the puts that no later update of the same key follows.
pub fn updates_leave_the_last_puts()
    ensures { (us : List Update) (row : RowValue) → Contains (rows us) row ↔ IsLastPut us row }
{}

/// Rows that are put after any updates lie over the rows that those leave: at each key the later row stands, and
/// where there is none, the earlier one; and there are no fewer rows than the later ones.
pub fn later_puts_lie_over()
    ensures over { (us : List Update) (rs : List RowValue) → table (rows (us ++ puts rs)) ≡ laid_over (table (rows (puts rs))) (table (rows us)) }
    ensures stands { (later earlier : Rows) (key : Cell) → map.get (laid_over later earlier) key ≡ option_or (map.get later key) (map.get earlier key) }
    ensures more { (later earlier : Rows) → map.len later ≤ map.len (laid_over later earlier) }
{}
