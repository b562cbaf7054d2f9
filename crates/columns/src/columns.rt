//! The columns of rows.
ghost use Rattle.std.specs.Prelude.{◌≡◌, ◌<◌, ◌∷◌, ◌++◌, ℕ, List, [], true, IfOk, IfSome, OnOk, length, slice_index_or};
ghost use Rattle.std.specs.Option.{is_some, option_copied};
ghost use Rattle.cells.specs.Values.{RowValue};
ghost use Rattle.cells.specs.declared.cell.Cell.TheVariants.{Null};
ghost use Rattle.columns.specs.Beside.{ArePlacesFor};
ghost use Rattle.columns.specs.Coding.{AddsColumn, PutsAt};
ghost use Rattle.columns.specs.Columns.{HaveAll, Hold, cells_at, cells_of, has, rows_of};

use crate::code_column::CodeColumn;
use crate::named_column::NamedColumn;
use crate::piece_columns::{PieceColumns, RowPiece};
use cells::{Cell, KeyHash, Row, RowWalk};
use std::alloc::{AllocError, Global};
use std::marker::Model;
use std::sync::Wait;
use std::sync::atomic::AtomicU64;
use std::sync::atomic::Ordering::SeqCst;
use trie::{Beside, Piece, Visitor};

/// Columns of rows: those of some indexes, the others are left out. Rows come one after another. It owns copies of the cells.
#[derive(Drop)]
pub struct Columns {
    columns: Vec<NamedColumn>,
}

impl Model for Columns {
    ghost use Rattle.std.specs.Coded.{codes};
    ghost use Rattle.cells.specs.Codes.{coded_cell};
    ghost use Rattle.columns.specs.Columns.{ColumnsValue};

    ghost Value = { ColumnsValue };

    ghost coded = { Prim.hlevel (codes, coded_cell) };

    ghost view = { λ c. c.columns.items };
}

impl Columns {
    /// Columns of no rows, one for each of the indexes, which may be named more than once.
    pub fn of_named(alloc: Global, named: &[usize]) -> Result<Columns, AllocError>
        ensures none { IfOk result (Hold []) }
        ensures named { IfOk result (HaveAll named.now) }
    {
        let mut columns = Columns {
            columns: Vec::new(alloc),
        };
        for index in named {
            columns.add(alloc, *index)?;
        }
        Ok(columns)
    }

    /// The column of the index; None where it was left out.
    pub fn at(&self, index: usize) -> Option<&CodeColumn>
        ensures there { is_some result ≡ has self.now index }
        ensures cells { (rows : List RowValue) → Hold rows self.now → IfSome (option_copied result) (λ column. cells_of column ≡ cells_at index rows) }
    {
        for named in &self.columns {
            if named.index == index {
                return Some(named.form.column());
            }
        }
        None
    }

    /// Puts the rows of a piece of a table behind those that are there, in the order in which they are walked. After an error,
    /// which is that a growth was refused, nothing is known of the columns.
    pub fn take<H: KeyHash<Cell>, S: Beside<Cell, Row>>(
        &mut self,
        piece: &Piece<Cell, Row, H, S>,
    ) -> Result<(), AllocError>
        ensures same { (index : ℕ) → OnOk result (has self.new index ≡ has self.old index) }
        ensures held { (rows : List RowValue) → Hold rows self.old → OnOk result (Hold (rows ++ rows_of piece.now) self.new) }
    {
        self.reserve(piece.len() as usize)?;
        piece.walk(self)?;
        Ok(())
    }

    /// The same by the columns that lie beside the piece, where it has a place for them. Those that are not there yet are laid
    /// out, and stay beside it. It tells how many columns were laid out; where the piece has no place these are all.
    pub fn take_kept<H: KeyHash<Cell>, R: Wait>(
        &mut self,
        rt: &R,
        alloc: Global,
        piece: &RowPiece<H>,
    ) -> Result<u64, AllocError>
        ensures same { (index : ℕ) → OnOk result (has self.new index ≡ has self.old index) }
        ensures held { (rows : List RowValue) → Hold rows self.old → OnOk result (Hold (rows ++ rows_of piece.now) self.new) }
    {
        let Some(kept) = PieceColumns::beside(rt, alloc, piece) else {
            self.take(piece)?;
            return Ok(self.column_count() as u64);
        };
        let laid = AtomicU64::new(0);
        self.lay_out_missing(rt, alloc, piece, &kept, &laid)?;
        for place in 0..self.column_count() {
            self.take_kept_at(rt, alloc, place, piece, &kept, &laid)?;
        }
        Ok(laid.load(SeqCst))
    }

    /// Asks at a piece for these columns, before any is laid out: who then lays out columns there does so in one walk for all
    /// reports that have asked by then. Whether one of them does not lie beside the piece yet. Nothing rests on it.
    pub fn ask_for<H: KeyHash<Cell>, R: Wait>(
        &self,
        rt: &R,
        alloc: Global,
        piece: &RowPiece<H>,
    ) -> bool {
        let Some(kept) = PieceColumns::beside(rt, alloc, piece) else {
            return false;
        };
        self.columns
            .iter()
            .filter(|named| kept.ask_for(named.index))
            .count()
            > 0
    }

    /// Lays out the columns that do not lie beside the piece yet, of those that were asked for there, for who takes them later,
    /// where one of these columns is among them. It tells how many columns were laid out; None where another thread is at the
    /// piece now. So threads that go over the same pieces share that work, and none waits. Nothing rests on which are there then.
    pub fn lay_out_ahead<H: KeyHash<Cell>, R: Wait>(
        &self,
        rt: &R,
        alloc: Global,
        piece: &RowPiece<H>,
    ) -> Result<Option<u64>, AllocError> {
        let Some(kept) = PieceColumns::beside(rt, alloc, piece) else {
            return Ok(Some(0));
        };
        if !self.lacks_any(&kept) {
            return Ok(Some(0));
        }
        if !kept.claim() {
            return Ok(None);
        }
        let laid = AtomicU64::new(0);
        let done = lay_out_asked(rt, alloc, piece, &kept, &laid);
        kept.release();
        done?;
        Ok(Some(laid.load(SeqCst)))
    }

    /// Whether one of the columns does not lie beside the piece yet. Nothing rests on it.
    fn lacks_any(&self, kept: &PieceColumns) -> bool {
        self.columns.iter().any(|named| kept.lacks(named.index))
    }

    /// Lays out those of the columns that do not lie beside the piece yet, where they are several. A single one is left to who
    /// takes it, and who waits where another thread is at it. Nothing rests on which are there then.
    fn lay_out_missing<H: KeyHash<Cell>, R: Wait>(
        &self,
        rt: &R,
        alloc: Global,
        piece: &RowPiece<H>,
        kept: &PieceColumns,
        laid: &AtomicU64,
    ) -> Result<(), AllocError>
        requires { ArePlacesFor piece.now kept.now.places.items }
    {
        let missing = self.missing(alloc, kept)?;
        if missing.len() < 2 {
            return Ok(());
        }
        lay_out(rt, alloc, piece, kept, missing.as_slice(), laid)
    }

    /// The indexes of the columns that do not lie beside the piece yet. Nothing rests on them.
    fn missing(&self, alloc: Global, kept: &PieceColumns) -> Result<Vec<usize>, AllocError> {
        let mut missing = Vec::new(alloc);
        for named in &self.columns {
            if kept.lacks(named.index) {
                missing.push(named.index)?;
            }
        }
        Ok(missing)
    }

    /// Puts these columns, which hold the piece's rows, beside the piece, where none are by then.
    fn put_beside<H: KeyHash<Cell>, R: Wait>(
        self,
        rt: &R,
        piece: &RowPiece<H>,
        kept: &PieceColumns,
        laid: &AtomicU64,
    )
        requires places { ArePlacesFor piece.now kept.now.places.items }
        requires held { Hold (rows_of piece.now) self }
    {
        for named in self.columns {
            let NamedColumn { index, form, .. } = named;
            if let Ok(column) = form.kept() {
                kept.put(rt, piece, index, column, laid);
            }
        }
    }

    /// These columns with the rows of other ones of the same table behind their own. A column that the other ones have not is
    /// left out. The only error is that a growth was refused.
    pub fn with(self, alloc: Global, other: &Columns) -> Result<Columns, AllocError>
        ensures held { (rows more : List RowValue) → Hold rows self → Hold more other.now → IfOk result (Hold (rows ++ more)) }
        ensures has { (index : ℕ) → has self index ≡ true → has other.now index ≡ true → IfOk result (λ both. has both index ≡ true) }
    {
        let mut columns = Vec::with_capacity(alloc, self.columns.len())?;
        for named in self.columns {
            let Some(more) = other.at(named.index) else {
                continue;
            };
            columns.push(named.with(more)?)?;
        }
        Ok(Columns { columns })
    }

    /// Gives back the memory of what only serves to find codes. It is made again where rows come.
    pub fn forget_hints(&mut self)
        ensures { self.new ≡ self.old }
    {
        for place in 0..self.columns.len() {
            self.columns[place].form.forget_hints();
        }
    }

    /// Makes room for so many rows more.
    fn reserve(&mut self, rows: usize) -> Result<(), AllocError>
        ensures { self.new ≡ self.old }
    {
        for place in 0..self.columns.len() {
            self.columns[place].reserve(rows)?;
        }
        Ok(())
    }

    /// Adds a column of no rows, unless there is one of the index.
    fn add(&mut self, alloc: Global, index: usize) -> Result<(), AllocError>
        ensures { OnOk result (AddsColumn index self.old self.new) }
    {
        if self.at(index).is_some() {
            return Ok(());
        }
        self.columns.push(NamedColumn::new(alloc, index))?;
        Ok(())
    }

    /// How many columns there are.
    fn column_count(&self) -> usize
        ensures { result ≡ length self.now }
    {
        self.columns.len()
    }

    /// Puts the cells of a piece's rows behind those of the column at the place, by what lies beside the piece.
    fn take_kept_at<H: KeyHash<Cell>, R: Wait>(
        &mut self,
        rt: &R,
        alloc: Global,
        place: usize,
        piece: &RowPiece<H>,
        kept: &PieceColumns,
        laid: &AtomicU64,
    ) -> Result<(), AllocError>
        requires place { place < length self.old }
        requires kept { ArePlacesFor piece.now kept.now.places.items }
        ensures { OnOk result (PutsAt place (λ index. cells_at index (rows_of piece.now)) self.old self.new) }
    {
        self.columns[place].take_kept(rt, alloc, piece, kept, laid)
    }

    /// Looks at a row for the column at the place.
    fn look_at(&mut self, place: usize, row: &Row)
        requires { place < length self.old }
        ensures { self.new ≡ self.old }
    {
        self.columns[place].look_at(row);
    }

    /// Puts a row's cell at the end of the column at the place.
    fn take_at(&mut self, place: usize, cells: &mut RowWalk<'_>) -> Result<(), AllocError>
        requires { place < length self.old }
        ensures puts { OnOk result (PutsAt place (λ index. slice_index_or cells.old index Null ∷ []) self.old self.new) }
        ensures same { cells.new ≡ cells.old }
    {
        self.columns[place].take(cells)
    }
}

/// Lays out the columns that were asked for at the piece and do not lie beside it yet. Nothing rests on which are there then.
fn lay_out_asked<H: KeyHash<Cell>, R: Wait>(
    rt: &R,
    alloc: Global,
    piece: &RowPiece<H>,
    kept: &PieceColumns,
    laid: &AtomicU64,
) -> Result<(), AllocError>
    requires { ArePlacesFor piece.now kept.now.places.items }
{
    let asked = kept.asked_for(alloc)?;
    lay_out(rt, alloc, piece, kept, asked.as_slice(), laid)
}

/// Lays out the columns of these indexes beside the piece, in one walk, in which each row is fetched once for all of them.
fn lay_out<H: KeyHash<Cell>, R: Wait>(
    rt: &R,
    alloc: Global,
    piece: &RowPiece<H>,
    kept: &PieceColumns,
    indexes: &[usize],
    laid: &AtomicU64,
) -> Result<(), AllocError>
    requires { ArePlacesFor piece.now kept.now.places.items }
{
    let mut all = Columns::of_named(alloc, indexes)?;
    all.take(piece)?;
    all.put_beside(rt, piece, kept, laid);
    Ok(())
}

impl Visitor<Cell, Row> for Columns {
    ghost use Rattle.std.specs.Prelude.{⊤};
    ghost use Rattle.columns.specs.Coding.{TakesRow};

    ghost asks = { λ columns key row. ⊤ };

    ghost takes = { λ old key row new. TakesRow row old new };

    fn visit(&mut self, _key: &Cell, row: &Row) -> Result<(), AllocError> {
        let mut cells = row.walk();
        for place in 0..self.column_count() {
            self.take_at(place, &mut cells)?;
        }
        Ok(())
    }

    fn looks(&self) -> bool {
        true
    }

    fn look(&mut self, row: &Row) {
        if self.column_count() > 0 {
            self.look_at(0, row);
        }
    }
}
