//! The keeper, who alone changes the table.
ghost use Rattle.std.specs.Prelude.{◌≡◌, ◌+◌, ◌<◌, ◌≤◌, ◌^◌, ◌⊎◌, IfOk, IfErr, IsErrOf, OnErr, OnOk};
ghost use Rattle.std.specs.FinMap as map;
ghost use Rattle.cells.specs.CellOrder.{cell_cmp};
ghost use Rattle.cells.specs.Fitting.{IsRowOf};
ghost use Rattle.cells.specs.Tables.{AreRowsOf, laid_over};
ghost use Rattle.trie.specs.Maps.{map_of};
ghost use Rattle.board.specs.Editions.{Begins, ChangesDraft, IsHistory, IsLastOf, IsNewViewer, KnowsAllOf, Publishes, draft, edition, history, limit, published, schema};
ghost use Rattle.board.specs.Limits.{place_limit, row_limit};

use crate::drafting::{Drafts, with_all, with_put};
use crate::root::Root;
use crate::snapshot::Snapshot;
use crate::told::Told;
use crate::viewer::Viewer;
use crate::writer::Writer;
use cells::{Cell, KeyHash, Refused, Row, Schema, later_puts_lie_over};
use columns::RowTrie;
use std::alloc::Global;
use std::marker::Model;
use std::sync::{Arc, Wait};

/// Holds a draft, which updates change, and the last published edition. A report never reads the
/// draft: it takes a [`Snapshot`] of what was published.
///
/// After a refusal the keeper is what it was. The only refusals are [`Refused::TooManyRows`] of
/// [`put`](Keeper::put) and [`absorb`](Keeper::absorb), and [`Refused::OutOfMemory`] where a growth, or
/// one owner more, was really refused.
#[derive(Drop)]
pub struct Keeper<H: KeyHash<Cell>> {
    alloc: Global,
    draft: Root<H>,
    limit: u64,
    last: Snapshot<H>,
    writer: Writer<H>,
}

impl<H: KeyHash<Cell>> Model for Keeper<H> {
    ghost use Rattle.std.specs.Prelude.{◌≡◌};
    ghost use Rattle.board.specs.Editions.{Editions, IsKept, coded_editions, editions_of};

    ghost Value = { Editions };

    ghost coded = { coded_editions };

    ghost view = { λ k. editions_of k.draft k.limit k.last k.writer.seat.me.0.seen k.writer.seat.table_id };

    ghost invariant = { λ k. IsKept (editions_of k.draft k.limit k.last k.writer.seat.me.0.seen k.writer.seat.table_id)
        × (k.writer.seat.me.0.schema ≡ k.last.schema) };
}

impl<H: KeyHash<Cell>> Keeper<H> {
    /// A keeper of the table, whose draft and edition 0 have no rows. The draft may have at most
    /// `limit` rows, of which there are 1 to [`MAX_ROWS`](crate::MAX_ROWS). `places` is how many
    /// viewers can be made, 1 to [`MAX_PLACES`](crate::MAX_PLACES).
    pub fn new(alloc: Global, schema: Schema, limit: u64, places: u64) -> Result<Keeper<H>, Refused>
        requires limit { 1 ≤ limit × (limit ≤ row_limit) }
        requires places { 1 ≤ places × (places ≤ place_limit) }
        ensures begun { IfOk result (Begins limit schema) }
        ensures refused { IfErr result (λ e. e ≡ Refused.OutOfMemory) }
    {
        let draft = Root::empty(alloc);
        let last = Snapshot::first(alloc, Arc::new(alloc, schema)?);
        let writer = Writer::new(alloc, places as usize, last.share_schema()?)?;
        Ok(Keeper {
            alloc,
            draft,
            limit,
            last,
            writer,
        })
    }

    /// Lays the row over the draft. It takes the place of the row of its key, where there is one, and
    /// so takes no new room. It has to be a row of the table, as `Row::read` gives them.
    ///
    /// [`Refused::TooManyRows`] exactly where the draft would have more rows than the limit.
    pub fn put(&mut self, row: Row) -> Result<(), Refused>
        requires row { IsRowOf (schema self.old) row }
        ensures draft { OnOk result (ChangesDraft self.old self.new (map.insert (draft self.old) row.key row)) }
        ensures within { OnOk result (map.len (draft self.new) ≤ limit self.old) }
        ensures full { IsErrOf result Refused.TooManyRows → limit self.old < map.len (map.insert (draft self.old) row.key row) }
        ensures refused { IfErr result (λ e. (e ≡ Refused.TooManyRows) ⊎ (e ≡ Refused.OutOfMemory)) }
        ensures unchanged { OnErr result (self.new ≡ self.old) }
    {
        self.draft = with_put(self.alloc, &self.draft, self.limit, row)?;
        Ok(())
    }

    /// Lays all rows of a trie over the draft, as many puts of them would: each takes the place of the row of
    /// its key, where there is one. They have to be rows of the table, each under its key, as a part's are
    /// when it is loaded.
    ///
    /// [`Refused::TooManyRows`] exactly where the draft would have more rows than the limit.
    pub fn absorb(&mut self, rows: RowTrie<H>) -> Result<(), Refused>
        requires rows { AreRowsOf (schema self.old) (map_of cell_cmp rows) }
        ensures draft { OnOk result (ChangesDraft self.old self.new (laid_over (map_of cell_cmp rows) (draft self.old))) }
        ensures within { OnOk result (map.len (draft self.new) ≤ limit self.old) }
        ensures full { IsErrOf result Refused.TooManyRows → limit self.old < map.len (laid_over (map_of cell_cmp rows) (draft self.old)) }
        ensures refused { IfErr result (λ e. (e ≡ Refused.TooManyRows) ⊎ (e ≡ Refused.OutOfMemory)) }
        ensures unchanged { OnErr result (self.new ≡ self.old) }
    {
        // The law by which rows laid over rows of the table are such rows; it does nothing.
        later_puts_lie_over();
        self.draft = with_all(&self.draft, self.limit, rows)?;
        Ok(())
    }

    /// Takes the row of the key out of the draft. A key that is not there changes nothing, and is
    /// accepted.
    pub fn delete(&mut self, key: &Cell) -> Result<(), Refused>
        ensures draft { OnOk result (ChangesDraft self.old self.new (map.remove (draft self.old) key.now)) }
        ensures refused { IfErr result (λ e. e ≡ Refused.OutOfMemory) }
        ensures unchanged { OnErr result (self.new ≡ self.old) }
    {
        self.draft = self.draft.remove(key)?;
        Ok(())
    }

    /// Makes the whole draft the next edition, in one step. It stays the draft. Each publish that is
    /// accepted makes an edition, also where nothing changed.
    ///
    /// Each viewer sees it from then on, or once it has learnt what is told here. The keeper waits for a viewer that is
    /// taking a snapshot; a viewer never waits for the keeper.
    pub fn publish<R: Wait>(&mut self, rt: &R) -> Result<Told, Refused>
        requires { edition self.old + 1 < 2 ^ 64 }
        ensures published { OnOk result (Publishes self.old self.new) }
        ensures told { IfOk result (KnowsAllOf self.new) }
        ensures refused { IfErr result (λ e. e ≡ Refused.OutOfMemory) }
        ensures unchanged { OnErr result (self.new ≡ self.old) }
    {
        let next = self.last.next(self.draft.share()?)?;
        let copies = self.writer.copies(self.alloc, &next)?;
        self.last = self.writer.publish(rt, next, copies);
        Ok(self.tell())
    }

    /// Tells what the keeper knows.
    pub fn tell(&mut self) -> Told
        ensures same { self.new ≡ self.old }
        ensures told { KnowsAllOf self.old result }
    {
        Told {
            badge: self.writer.tell(),
        }
    }

    /// A viewer that knows all that was published. It takes one of the places, which does not come back when the viewer
    /// is dropped.
    ///
    /// [`Refused::NotShown`] where as many were made as there are places, or one owner more was refused.
    pub fn viewer(&mut self) -> Result<Viewer<H>, Refused>
        ensures same { self.new ≡ self.old }
        ensures viewer { IfOk result (IsNewViewer self.old) }
        ensures refused { IfErr result (λ e. e ≡ Refused.NotShown) }
    {
        let Ok(last) = self.last.share() else {
            return Err(Refused::NotShown);
        };
        let Some(reader) = self.writer.reader(last) else {
            return Err(Refused::NotShown);
        };
        Ok(Viewer { reader })
    }

    /// Ends the keeper. Snapshots stay as they are, and viewers go on seeing the last edition.
    pub fn close(self) {
        drop(self);
    }

    /// The last published edition, with its number and schema. It keeps its rows whatever the keeper
    /// does.
    pub fn snapshot(&self) -> Result<Snapshot<H>, Refused>
        ensures edition { IfOk result (λ s. s.number ≡ edition self.now) }
        ensures rows { IfOk result (λ s. s.rows ≡ published self.now) }
        ensures schema { IfOk result (λ s. s.schema ≡ schema self.now) }
        ensures refused { IfErr result (λ e. e ≡ Refused.OutOfMemory) }
    {
        Ok(self.last.share()?)
    }

    /// The last published edition, lent.
    pub fn last(&self) -> &Snapshot<H>
        ensures { result.now ≡ self.now.last }
    {
        &self.last
    }

    /// The schema of the table.
    pub fn schema(&self) -> &Schema
        ensures { result.now ≡ schema self.now }
    {
        self.last.schema()
    }

    /// What is known of each keeper: the rows of the draft and of the last edition are rows of the
    /// table; its history begins with edition 0 and ends with the last edition. It does nothing.
    pub fn rows_fit(&self)
        ensures draft { AreRowsOf (schema self.now) (draft self.now) }
        ensures published { AreRowsOf (schema self.now) (published self.now) }
        ensures begun { IsHistory (history self.now) }
        ensures last { IsLastOf (history self.now) (edition self.now) (published self.now) }
    {
        let _ = &self.draft;
    }

    /// The number of the last published edition.
    pub fn edition(&self) -> u64
        ensures { result ≡ edition self.now }
    {
        self.last.edition()
    }

    /// How many rows the last published edition has.
    pub fn rows(&self) -> u64
        ensures { result ≡ map.len (published self.now) }
    {
        self.last.root().len()
    }
}

impl<H: KeyHash<Cell>> Drafts for Keeper<H> {
    ghost editions = { λ k. k };

    fn put(&mut self, row: Row) -> Result<(), Refused> {
        Keeper::put(self, row)
    }

    fn delete(&mut self, key: &Cell) -> Result<(), Refused> {
        Keeper::delete(self, key)
    }
}
