//! COUNT of a column's different cells.
ghost use Rattle.std.specs.Prelude.{◌≡◌, ◌+◌, ◌<◌, ◌^◌, ◌++◌, ◌∷◌, [], List, IfOk, OnOk, pos};
ghost use Rattle.std.specs.FinSet.{contains, from_list, insert, len, union};
ghost use Rattle.std.specs.Map.{keys_of};
ghost use Rattle.aggs.specs.Differing as differing;
ghost use Rattle.aggs.specs.Differing.{different};
ghost use Rattle.aggs.specs.Values.{different_count, is_null, present};
ghost use Rattle.cells.specs.CellOrder.{cell_cmp};
ghost use Rattle.cells.specs.declared.cell.Cell.{Cell};
ghost use Rattle.cells.specs.declared.total.Total.TheVariants as total;
ghost use Rattle.trie.specs.Maps.{HaveSameKeys, RiseByHash};

use crate::aggregate::Aggregate;
use cells::{Cell, KeyHash, Total, Tuple};
use std::alloc::{AllocError, Global};
use std::marker::Model;
use trie::{Later, Ticks, Trie, entries_are_a_map};

/// The different cells that are not NULL, in a trie, which owns a copy of each: COUNT DISTINCT of a
/// column. Contracts see it as the set of these cells, whatever the hash and the shape of the trie.
#[derive(Drop)]
pub struct CountDistinct<H: KeyHash<Cell>> {
    cells: Trie<Cell, (), H>,
}

impl<H: KeyHash<Cell>> Model for CountDistinct<H> {
    ghost use Rattle.std.specs.FinSet.{code, from_list};
    ghost use Rattle.std.specs.Map.{keys_of};
    ghost use Rattle.aggs.specs.Differing.{Cells};
    ghost use Rattle.cells.specs.CellOrder.{cell_cmp};
    ghost use Rattle.cells.specs.Codes.{coded_cell};
    ghost use Rattle.trie.specs.Maps.{RiseByHash};

    ghost Value = { Cells };

    ghost coded = { code coded_cell };

    ghost view = { λ c. from_list (keys_of c.cells) };

    // No cell comes twice.
    ghost invariant = { λ c. RiseByHash H.hash_of cell_cmp (keys_of c.cells) };
}

// The calls of `entries_are_a_map` do nothing: it is the trie's law, by which its entries are a map.
impl<H: KeyHash<Cell>> CountDistinct<H> {
    /// The accumulator of the cells that a trie holds.
    fn holding(cells: Trie<Cell, (), H>) -> CountDistinct<H>
        ensures { result ≡ from_list (keys_of cells) }
    {
        cells.keys_rise();
        CountDistinct { cells }
    }

    /// Those of a list of cells, in a trie that is made at once.
    pub(crate) fn of_cells(alloc: Global, cells: Vec<Cell>) -> Result<CountDistinct<H>, AllocError>
        ensures { IfOk result (λ c. c ≡ different cells.items) }
    {
        entries_are_a_map::<Cell, (), H>();
        let pairs = present_pairs(alloc, cells)?;
        let cells = Trie::from_pairs(alloc, pairs)?;
        Ok(CountDistinct::holding(cells))
    }

    /// Those of all cells of a list, in a trie that is made at once.
    pub(crate) fn of_all(alloc: Global, cells: &Tuple) -> Result<CountDistinct<H>, AllocError>
        ensures { IfOk result (λ c. c ≡ from_list cells.now) }
    {
        entries_are_a_map::<Cell, (), H>();
        let pairs = all_pairs(alloc, cells.cells())?;
        let cells = Trie::from_pairs(alloc, pairs)?;
        Ok(CountDistinct::holding(cells))
    }

    /// The cells in a list.
    pub(crate) fn list(&self, alloc: Global) -> Result<Tuple, AllocError>
        ensures { IfOk result (λ list. from_list list ≡ self.now) }
    {
        let entries = self.cells.entries(alloc)?;
        let mut cells = Vec::with_capacity(alloc, entries.len())?;
        for entry in entries {
            cells.push(entry.0.clone()?)?;
        }
        Ok(Tuple::new(cells))
    }

    /// The trie that holds the cells: its keys are the different cells of the list without NULL, each
    /// once.
    pub fn cells(&self) -> &Trie<Cell, (), H>
        ensures set { from_list (keys_of result.now) ≡ self.now }
        ensures keys { (xs : List Cell) → self.now ≡ different xs → HaveSameKeys cell_cmp (keys_of result.now) (present xs) }
        ensures rise { RiseByHash H.hash_of cell_cmp (keys_of result.now) }
    {
        &self.cells
    }

    /// Whether the cell is there.
    fn contains(&self, cell: &Cell) -> bool
        ensures { result ≡ contains self.now cell.now }
    {
        entries_are_a_map::<Cell, (), H>();
        self.cells.get(cell).is_some()
    }

    /// The cells with this one.
    fn with_cell(&self, alloc: Global, cell: &Cell) -> Result<CountDistinct<H>, AllocError>
        requires { len self.now + 1 < 2 ^ 64 }
        ensures { IfOk result (λ c. c ≡ insert self.now cell.now) }
    {
        entries_are_a_map::<Cell, (), H>();
        let key = cell.clone()?;
        let cells = self.cells.put(alloc, key, (), &mut Ticks::new())?;
        Ok(CountDistinct::holding(cells))
    }

    /// The cells of both.
    fn with_cells(
        &self,
        alloc: Global,
        other: &CountDistinct<H>,
    ) -> Result<CountDistinct<H>, AllocError>
        requires { len self.now + len other.now < 2 ^ 64 }
        ensures { IfOk result (λ c. c ≡ union self.now other.now) }
    {
        entries_are_a_map::<Cell, (), H>();
        let cells = self
            .cells
            .merge(alloc, &other.cells, &Later, &mut Ticks::new())?;
        Ok(CountDistinct::holding(cells))
    }

    /// How many cells there are.
    pub fn len(&self) -> u64
        ensures { result ≡ len self.now }
    {
        entries_are_a_map::<Cell, (), H>();
        self.cells.len()
    }
}

/// Copies of the cells as keys.
fn all_pairs(alloc: Global, cells: &[Cell]) -> Result<Vec<(Cell, ())>, AllocError>
    ensures { IfOk result (λ v. keys_of v.items ≡ cells.now) }
{
    let mut pairs = Vec::with_capacity(alloc, cells.len())?;
    for cell in cells {
        pairs.push((cell.clone()?, ()))?;
    }
    Ok(pairs)
}

/// The cells that are not NULL, in their order, as keys.
fn present_pairs(alloc: Global, cells: Vec<Cell>) -> Result<Vec<(Cell, ())>, AllocError>
    ensures { IfOk result (λ v. keys_of v.items ≡ present cells.items) }
{
    let mut pairs = Vec::with_capacity(alloc, cells.len())?;
    for cell in cells {
        push_present(&mut pairs, cell)?;
    }
    Ok(pairs)
}

/// Puts the cell after the others as a key, unless it is NULL.
fn push_present(pairs: &mut Vec<(Cell, ())>, cell: Cell) -> Result<(), AllocError>
    ensures { OnOk result (keys_of pairs.new.items ≡ keys_of pairs.old.items ++ present (cell ∷ [])) }
{
    if is_null(&cell) {
        return Ok(());
    }
    pairs.push((cell, ()))?;
    Ok(())
}

/// Whether the cell is NULL.
fn is_null(cell: &Cell) -> bool
    ensures { result ≡ is_null cell.now }
{
    matches!(cell, Cell::Null)
}

impl<H: KeyHash<Cell>> Clone for CountDistinct<H> {
    ghost is_clone = { λ s t. t ≡ s };

    fn clone(&self) -> Result<CountDistinct<H>, AllocError> {
        Ok(CountDistinct::holding(self.cells.share()?))
    }
}

impl<H: KeyHash<Cell>> Aggregate for CountDistinct<H> {
    ghost of = { different };

    ghost together = { union };

    ghost total = { λ a. total.Int (pos (len a)) };

    ghost fits = { λ a b. len a + len b < 2 ^ 64 };

    ghost value = { different_count };

    fn empty() -> CountDistinct<H> {
        CountDistinct::holding(Trie::empty())
    }

    fn step(&mut self, alloc: Global, cell: &Cell) -> Result<(), AllocError> {
        if is_null(cell) {
            return Ok(());
        }
        if self.contains(cell) {
            return Ok(());
        }
        *self = self.with_cell(alloc, cell)?;
        Ok(())
    }

    fn join(
        &self,
        alloc: Global,
        other: &CountDistinct<H>,
    ) -> Result<CountDistinct<H>, AllocError> {
        self.with_cells(alloc, other)
    }

    fn finish(&self) -> Result<Total, AllocError> {
        Ok(Total::Int(i128::from(self.len())))
    }

    ghost joins = { differing.different_joins };

    ghost unit_first = { differing.nothing_first };

    ghost unit_second = { differing.nothing_second };

    ghost any_order = { differing.different_any_order };

    ghost finishes = { differing.different_finishes };

    ghost room = { differing.different_room };
}
