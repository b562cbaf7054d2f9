//! The rows of one moment, owned together by all who look at them.
ghost use Rattle.std.specs.Prelude.{◌≡◌, ◌+◌, ◌<◌, ◌^◌, IfOk};
ghost use Rattle.std.specs.Option.{option_copied};
ghost use Rattle.std.specs.FinMap as map;
ghost use Rattle.std.specs.Map.{keys_of};
ghost use Rattle.cells.specs.CellOrder.{cell_cmp};
ghost use Rattle.cells.specs.Tables.{laid_over};
ghost use Rattle.trie.specs.Maps.{RiseByHash, map_of};
ghost use Rattle.trie.specs.Shapes.{shape_of};

use cells::{Cell, KeyHash, Row, later_puts_lie_over};
use columns::RowTrie;
use std::alloc::{AllocError, Global};
use std::marker::Model;
use trie::{Later, Shape, Ticks, Trie, entries_are_a_map, entries_still_rise};

/// Rows by their keys, which never change once they are made: a trie of the rows, with places for the columns of its pieces. A
/// change makes a new root, which shares the rows that stay and most of the nodes, and with these the columns beside them.
#[derive(Drop)]
pub struct Root<H: KeyHash<Cell>> {
    alloc: Global,
    rows: RowTrie<H>,
}

impl<H: KeyHash<Cell>> Model for Root<H> {
    ghost use Rattle.std.specs.Map.{keys_of};
    ghost use Rattle.cells.specs.CellOrder.{cell_cmp};
    ghost use Rattle.trie.specs.Maps.{RiseByHash, map_of};
    ghost use Rattle.cells.specs.Tables.{Rows};
    ghost use Rattle.board.specs.Editions.{coded_rows};

    ghost Value = { Rows };

    ghost coded = { coded_rows };

    ghost view = { λ r. map_of cell_cmp r.rows };

    // No key comes twice.
    ghost invariant = { λ r. RiseByHash H.hash_of cell_cmp (keys_of r.rows) };
}

// The calls of `entries_are_a_map`, `entries_still_rise` and `keys_rise` do nothing: they are the trie's laws,
// by which its entries are a finite map. So does that of `later_puts_lie_over`, the law of rows laid over others.
impl<H: KeyHash<Cell>> Root<H> {
    /// The rows that a trie holds.
    fn of(alloc: Global, rows: RowTrie<H>) -> Root<H>
        requires { RiseByHash H.hash_of cell_cmp (keys_of rows) }
        ensures { result ≡ map_of cell_cmp rows }
    {
        Root { alloc, rows }
    }

    /// No rows.
    pub(crate) fn empty(alloc: Global) -> Root<H>
        ensures { result ≡ map.empty }
    {
        Root::of(alloc, Trie::empty())
    }

    /// How many rows there are.
    pub fn len(&self) -> u64
        ensures { result ≡ map.len self.now }
    {
        entries_are_a_map::<Cell, Row, H>();
        self.rows.len()
    }

    /// The row of the key.
    pub fn get(&self, key: &Cell) -> Option<&Row>
        ensures { option_copied result ≡ map.get self.now key.now }
    {
        entries_are_a_map::<Cell, Row, H>();
        self.rows.get(key)
    }

    /// The rows with this one laid over the row of its key.
    pub(crate) fn put(&self, key: Cell, row: Row) -> Result<Root<H>, AllocError>
        requires key { key ≡ row.key }
        requires room { map.len self.now + 1 < 2 ^ 64 }
        ensures { IfOk result (λ root. root ≡ map.insert self.now row.key row) }
    {
        entries_are_a_map::<Cell, Row, H>();
        entries_still_rise::<Cell, Row, H>();
        let rows = self.rows.put(self.alloc, key, row, &mut Ticks::new())?;
        Ok(Root::of(self.alloc, rows))
    }

    /// The rows with those of a trie laid over them, which are shared.
    pub(crate) fn with_rows(&self, later: &RowTrie<H>) -> Result<Root<H>, AllocError>
        requires { map.len self.now + map.len (map_of cell_cmp later.now) < 2 ^ 64 }
        ensures { IfOk result (λ root. root ≡ laid_over (map_of cell_cmp later.now) self.now) }
    {
        entries_are_a_map::<Cell, Row, H>();
        later_puts_lie_over();
        later.keys_rise();
        let rows = self
            .rows
            .merge(self.alloc, later, &Later, &mut Ticks::new())?;
        rows.keys_rise();
        Ok(Root::of(self.alloc, rows))
    }

    /// The rows without the row of the key; the same rows where there is none.
    pub(crate) fn remove(&self, key: &Cell) -> Result<Root<H>, AllocError>
        ensures { IfOk result (λ root. root ≡ map.remove self.now key.now) }
    {
        entries_are_a_map::<Cell, Row, H>();
        entries_still_rise::<Cell, Row, H>();
        let rows = self.rows.remove(self.alloc, key, &mut Ticks::new())?;
        Ok(Root::of(self.alloc, rows))
    }

    /// One owner more of the same rows.
    pub fn share(&self) -> Result<Root<H>, AllocError>
        ensures { IfOk result (λ root. root ≡ self.now) }
    {
        let rows = self.rows.share()?;
        Ok(Root::of(self.alloc, rows))
    }

    /// The trie that holds the rows, for those who go through all of them.
    pub fn rows(&self) -> &RowTrie<H>
        ensures map { map_of cell_cmp result.now ≡ self.now }
        ensures rise { RiseByHash H.hash_of cell_cmp (keys_of result.now) }
    {
        &self.rows
    }

    /// The shape of the keys: each prefix of digits of their hashes that two keys or more share, with
    /// their number, in order, a prefix before those that extend it.
    pub fn shape(&self) -> Result<Shape, AllocError>
        ensures { IfOk result (λ v. v.items ≡ shape_of H.hash_of (map.keys self.now)) }
    {
        entries_are_a_map::<Cell, Row, H>();
        self.rows.shape(self.alloc)
    }
}
