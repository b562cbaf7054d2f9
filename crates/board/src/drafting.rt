//! What updates make of a draft that may have so many rows.
ghost use Rattle.std.specs.Prelude.{◌≡◌, ◌<◌, ◌≤◌, ◌⊎◌, ◌↔◌, IfErr, IfOk, IsErrOf, IsTrue, OnErr, OnOk};
ghost use Rattle.std.specs.FinMap as map;
ghost use Rattle.cells.specs.CellOrder.{cell_cmp};
ghost use Rattle.cells.specs.Fitting.{IsRowOf};
ghost use Rattle.cells.specs.Tables.{laid_over};
ghost use Rattle.cells.specs.Values.{RowValue};
ghost use Rattle.trie.specs.Maps.{map_of};
ghost use Rattle.board.specs.Editions.{ChangesDraft, Editions, draft, limit, schema};
ghost use Rattle.board.specs.Limits.{row_limit};

use crate::root::Root;
use cells::{Cell, KeyHash, Refused, Row, later_puts_lie_over};
use columns::RowTrie;
use std::alloc::Global;
use trie::entries_are_a_map;

/// A table with a draft that updates change: a [`Keeper`](crate::Keeper)'s, or a [`Ledger`](crate::Ledger)'s.
pub trait Drafts {
    /// The draft and the editions, as clauses see them.
    ghost editions: { Self → Editions };

    /// Lays the row over the draft, as [`Keeper::put`](crate::Keeper::put).
    fn put(&mut self, row: Row) -> Result<(), Refused>
        requires row { IsRowOf (schema (editions self.old)) row }
        ensures draft { OnOk result (ChangesDraft (editions self.old) (editions self.new) (map.insert (draft (editions self.old)) row.key row)) }
        ensures within { OnOk result (map.len (draft (editions self.new)) ≤ limit (editions self.old)) }
        ensures full { IsErrOf result Refused.TooManyRows → limit (editions self.old) < map.len (map.insert (draft (editions self.old)) row.key row) }
        ensures refused { IfErr result (λ e. (e ≡ Refused.TooManyRows) ⊎ (e ≡ Refused.OutOfMemory)) }
        ensures unchanged { OnErr result (editions self.new ≡ editions self.old) };

    /// Takes the row of the key out of the draft, as [`Keeper::delete`](crate::Keeper::delete).
    fn delete(&mut self, key: &Cell) -> Result<(), Refused>
        ensures draft { OnOk result (ChangesDraft (editions self.old) (editions self.new) (map.remove (draft (editions self.old)) key.now)) }
        ensures refused { IfErr result (λ e. e ≡ Refused.OutOfMemory) }
        ensures unchanged { OnErr result (editions self.new ≡ editions self.old) };
}

/// The draft with the row laid over that of its key.
///
/// [`Refused::TooManyRows`] exactly where it would have more rows than the limit.
pub(crate) fn with_put<H: KeyHash<Cell>>(
    alloc: Global,
    draft: &Root<H>,
    limit: u64,
    row: Row,
) -> Result<Root<H>, Refused>
    requires within { map.len draft.now ≤ limit }
    requires limit { limit ≤ row_limit }
    ensures laid { IfOk result (λ root. root ≡ map.insert draft.now row.key row) }
    ensures within { IfOk result (λ root. map.len root ≤ limit) }
    ensures full { IsErrOf result Refused.TooManyRows → limit < map.len (map.insert draft.now row.key row) }
    ensures refused { IfErr result (λ e. (e ≡ Refused.TooManyRows) ⊎ (e ≡ Refused.OutOfMemory)) }
{
    let key = row.key().owned(alloc)?;
    if has_room(draft, &key, limit) {
        return Ok(draft.put(key, row)?);
    }
    Err(Refused::TooManyRows)
}

/// The draft with the rows of a trie laid over those of their keys.
///
/// [`Refused::TooManyRows`] exactly where it would have more rows than the limit.
pub(crate) fn with_all<H: KeyHash<Cell>>(
    draft: &Root<H>,
    limit: u64,
    rows: RowTrie<H>,
) -> Result<Root<H>, Refused>
    requires within { map.len draft.now ≤ limit }
    requires limit { limit ≤ row_limit }
    ensures laid { IfOk result (λ root. root ≡ laid_over (map_of cell_cmp rows) draft.now) }
    ensures within { IfOk result (λ root. map.len root ≤ limit) }
    ensures full { IsErrOf result Refused.TooManyRows → limit < map.len (laid_over (map_of cell_cmp rows) draft.now) }
    ensures refused { IfErr result (λ e. (e ≡ Refused.TooManyRows) ⊎ (e ≡ Refused.OutOfMemory)) }
{
    // The law by which rows laid over others are no fewer; it does nothing.
    later_puts_lie_over();
    if !is_within(&rows, limit) {
        drop(rows);
        return Err(Refused::TooManyRows);
    }
    let laid = draft.with_rows(&rows);
    drop(rows);
    let all = laid?;
    if all.len() > limit {
        drop(all);
        return Err(Refused::TooManyRows);
    }
    Ok(all)
}

/// Whether a draft that keeps the limit still keeps it with a row laid over the key. The key is looked up only where the
/// draft is full.
#[tactic(auto, using(crate::proofs::EditionsLemmas::len_most, crate::proofs::EditionsLemmas::len_over, crate::proofs::EditionsLemmas::len_beside))]
fn has_room<H: KeyHash<Cell>>(draft: &Root<H>, key: &Cell, limit: u64) -> bool
    requires { map.len draft.now ≤ limit }
    ensures { (row : RowValue) → IsTrue result ↔ (map.len (map.insert draft.now key.now row) ≤ limit) }
{
    if draft.len() < limit {
        return true;
    }
    draft.get(key).is_some()
}

/// Whether the rows of a trie are no more than the limit.
fn is_within<H: KeyHash<Cell>>(rows: &RowTrie<H>, limit: u64) -> bool
    ensures { IsTrue result ↔ (map.len (map_of cell_cmp rows.now) ≤ limit) }
{
    entries_are_a_map::<Cell, Row, H>();
    rows.keys_rise();
    rows.len() <= limit
}
