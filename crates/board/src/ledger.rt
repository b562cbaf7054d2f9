//! The ledger of one table: its draft and its editions, for one thread.
ghost use Rattle.std.specs.Prelude.{◌≡◌, ◌+◌, ◌<◌, ◌≤◌, ◌^◌, ◌⊎◌, ◌++◌, ◌∷◌, [], IfOk, IfErr, IsErrOf, OnErr, OnOk};
ghost use Rattle.std.specs.FinMap as map;
ghost use Rattle.cells.specs.CellOrder.{cell_cmp};
ghost use Rattle.cells.specs.Fitting.{IsRowOf};
ghost use Rattle.cells.specs.Tables.{AreRowsOf, laid_over};
ghost use Rattle.trie.specs.Maps.{map_of};
ghost use Rattle.board.specs.Editions.{Begins, ChangesDraft, Publishes, draft, edition, limit, schema};
ghost use Rattle.board.specs.Limits.{row_limit};

use crate::drafting::{Drafts, with_all, with_put};
use crate::root::Root;
use crate::snapshot::Snapshot;
use cells::{Cell, KeyHash, Refused, Row, Schema, later_puts_lie_over};
use columns::RowTrie;
use shelf::{Shows, Told};
use std::alloc::Global;
use std::marker::Model;
use std::sync::Arc;

/// Holds a draft, which updates change, and the last published edition, as a [`Keeper`](crate::Keeper) does, for programs of one
/// thread: it has no viewers, so a publish waits for nobody and needs no handle.
///
/// Contracts see it as they see a keeper. After a refusal the ledger is what it was. The only refusals are
/// [`Refused::TooManyRows`] of [`put`](Ledger::put) and [`absorb`](Ledger::absorb), and [`Refused::OutOfMemory`] where a growth,
/// or one owner more, was really refused.
#[derive(Drop)]
pub struct Ledger<H: KeyHash<Cell>> {
    alloc: Global,
    draft: Root<H>,
    limit: u64,
    last: Snapshot<H>,
    // the rows of all editions, for clauses alone
    editions: Told<Root<H>>,
}

impl<H: KeyHash<Cell>> Model for Ledger<H> {
    ghost use Rattle.board.specs.Editions.{Editions, IsKept, coded_editions, editions_of, no_board};

    ghost Value = { Editions };

    ghost coded = { coded_editions };

    ghost view = { λ l. editions_of l.draft l.limit l.last l.editions.items no_board };

    ghost invariant = { λ l. IsKept (editions_of l.draft l.limit l.last l.editions.items no_board) };
}

/// Edition 0 alone.
struct Alone;

impl<H: KeyHash<Cell>> Shows<Root<H>, Root<H>> for Alone {
    ghost use Rattle.std.specs.Prelude.{◌∷◌, []};

    ghost shown = { λ rows. rows ∷ [] };
}

/// Editions, and the next one.
#[derive(Drop)]
struct Next<'a, H: KeyHash<Cell>> {
    earlier: &'a Told<Root<H>>,
    rows: &'a Root<H>,
}

/// The next one stands last.
struct NextLast;

impl<'a, H: KeyHash<Cell>> Shows<Next<'a, H>, Root<H>> for NextLast {
    ghost use Rattle.std.specs.Prelude.{◌++◌, ◌∷◌, []};

    ghost shown = { λ next. next.earlier.now.items ++ next.rows.now ∷ [] };
}

/// The rows of edition 0, told. It does nothing.
fn first_of<H: KeyHash<Cell>>(rows: &Root<H>) -> Told<Root<H>>
    ensures { result.items ≡ rows.now ∷ [] }
{
    Told::<Root<H>>::of::<Root<H>, Alone>(rows)
}

/// The rows of the editions and those of the next one, told. It does nothing.
fn and_next<'a, H: KeyHash<Cell>>(earlier: &'a Told<Root<H>>, rows: &'a Root<H>) -> Told<Root<H>>
    ensures { result.items ≡ earlier.now.items ++ rows.now ∷ [] }
{
    let next = Next { earlier, rows };
    Told::<Root<H>>::of::<Next<'a, H>, NextLast>(&next)
}

impl<H: KeyHash<Cell>> Ledger<H> {
    /// A ledger of the table, whose draft and edition 0 have no rows. The draft may have at most `limit` rows, of which there are
    /// 1 to [`MAX_ROWS`](crate::MAX_ROWS).
    pub fn new(alloc: Global, schema: Schema, limit: u64) -> Result<Ledger<H>, Refused>
        requires limit { 1 ≤ limit × (limit ≤ row_limit) }
        ensures begun { IfOk result (Begins limit schema) }
        ensures refused { IfErr result (λ e. e ≡ Refused.OutOfMemory) }
    {
        let draft = Root::empty(alloc);
        let editions = first_of(&draft);
        let last = Snapshot::first(alloc, Arc::new(alloc, schema)?);
        Ok(Ledger {
            alloc,
            draft,
            limit,
            last,
            editions,
        })
    }

    /// Lays the row over the draft. It takes the place of the row of its key, where there is one, and so takes no new room. It has
    /// to be a row of the table, as `Row::read` gives them.
    ///
    /// [`Refused::TooManyRows`] exactly where the draft would have more rows than the limit.
    pub fn put(&mut self, row: Row) -> Result<(), Refused>
        requires row { IsRowOf (schema self.old) row }
        ensures draft { OnOk result (ChangesDraft self.old self.new (map.insert (draft self.old) row.key row)) }
        ensures within { OnOk result (map.len (draft self.new) ≤ limit self.old) }
        ensures full { IsErrOf result Refused.TooManyRows → limit self.old < map.len (map.insert (draft self.old) row.key row) }
        ensures refused { IfErr result (λ e. (e ≡ Refused.TooManyRows) ⊎ (e ≡ Refused.OutOfMemory)) }
        ensures unchanged { OnErr result (self.new ≡ self.old) }
    {
        self.draft = with_put(self.alloc, &self.draft, self.limit, row)?;
        Ok(())
    }

    /// Lays all rows of a trie over the draft, as many puts of them would. They have to be rows of the table, each under its key,
    /// as a part's are when it is loaded.
    ///
    /// [`Refused::TooManyRows`] exactly where the draft would have more rows than the limit.
    pub fn absorb(&mut self, rows: RowTrie<H>) -> Result<(), Refused>
        requires rows { AreRowsOf (schema self.old) (map_of cell_cmp rows) }
        ensures draft { OnOk result (ChangesDraft self.old self.new (laid_over (map_of cell_cmp rows) (draft self.old))) }
        ensures within { OnOk result (map.len (draft self.new) ≤ limit self.old) }
        ensures full { IsErrOf result Refused.TooManyRows → limit self.old < map.len (laid_over (map_of cell_cmp rows) (draft self.old)) }
        ensures refused { IfErr result (λ e. (e ≡ Refused.TooManyRows) ⊎ (e ≡ Refused.OutOfMemory)) }
        ensures unchanged { OnErr result (self.new ≡ self.old) }
    {
        // The law by which rows laid over rows of the table are such rows; it does nothing.
        later_puts_lie_over();
        self.draft = with_all(&self.draft, self.limit, rows)?;
        Ok(())
    }

    /// Takes the row of the key out of the draft. A key that is not there changes nothing, and is accepted.
    pub fn delete(&mut self, key: &Cell) -> Result<(), Refused>
        ensures draft { OnOk result (ChangesDraft self.old self.new (map.remove (draft self.old) key.now)) }
        ensures refused { IfErr result (λ e. e ≡ Refused.OutOfMemory) }
        ensures unchanged { OnErr result (self.new ≡ self.old) }
    {
        self.draft = self.draft.remove(key)?;
        Ok(())
    }

    /// Makes the whole draft the next edition. It stays the draft. Each publish that is accepted makes an edition, also where
    /// nothing changed.
    pub fn publish(&mut self) -> Result<(), Refused>
        requires { edition self.old + 1 < 2 ^ 64 }
        ensures published { OnOk result (Publishes self.old self.new) }
        ensures refused { IfErr result (λ e. e ≡ Refused.OutOfMemory) }
        ensures unchanged { OnErr result (self.new ≡ self.old) }
    {
        let next = self.last.next(self.draft.share()?)?;
        self.editions = and_next(&self.editions, next.root());
        self.last = next;
        Ok(())
    }

    /// The schema of the table.
    pub fn schema(&self) -> &Schema
        ensures { result.now ≡ schema self.now }
    {
        self.last.schema()
    }

    /// The last published edition, lent.
    pub fn last(&self) -> &Snapshot<H>
        ensures { result.now ≡ self.now.last }
    {
        &self.last
    }
}

impl<H: KeyHash<Cell>> Drafts for Ledger<H> {
    ghost editions = { λ l. l };

    fn put(&mut self, row: Row) -> Result<(), Refused> {
        Ledger::put(self, row)
    }

    fn delete(&mut self, key: &Cell) -> Result<(), Refused> {
        Ledger::delete(self, key)
    }
}
