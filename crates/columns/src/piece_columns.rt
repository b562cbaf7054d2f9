//! The columns that lie beside a piece of a table.
ghost use Rattle.std.specs.Prelude.{◌≡◌, IfOk, IfSome, None, Some};
ghost use Rattle.columns.specs.Beside.{ArePlacesFor, IsPlaceFor};
ghost use Rattle.columns.specs.Columns.{cells_at, cells_of, rows_of};

use crate::code_column::CodeColumn;
use crate::named_column::NamedColumn;
use cells::{Cell, KeyHash, Row};
use shelf::{Shelf, Shows, Told};
use std::alloc::{AllocError, Global};
use std::sync::atomic::Ordering::SeqCst;
use std::sync::atomic::{AtomicBool, AtomicU64};
use std::sync::{Arc, Wait};
use std::thread::Promise;
use trie::{Piece, Summary, Summed, Trie, Visitor};

/// The rows of a table by their keys, with places for the columns of its pieces.
pub type RowTrie<H> = Trie<Cell, Row, H, Summed<Cell, Row, PieceColumns>>;

/// A piece of a table.
pub type RowPiece<H> = Piece<Cell, Row, H, Summed<Cell, Row, PieceColumns>>;

/// What is promised of a column beside a piece: that it has the cells of the piece's rows at an index.
#[derive(Drop)]
pub(crate) struct CellsAt {
    entries: Told<(Cell, Row)>,
    index: usize,
}

impl Promise<CodeColumn> for CellsAt {
    ghost use Rattle.std.specs.Prelude.{◌≡◌};
    ghost use Rattle.columns.specs.Columns.{cells_at, cells_of, rows_of};

    ghost kept_by = { λ promise column. cells_of column ≡ cells_at promise.index (rows_of promise.entries.items) };
}

/// A piece shows its entries.
struct ItsEntries;

impl<H: KeyHash<Cell>> Shows<RowPiece<H>, (Cell, Row)> for ItsEntries {
    ghost shown = { λ piece. piece };
}

/// A place for the column of an index, which is empty until a report needs that column.
#[derive(Drop)]
pub(crate) struct Place {
    index: usize,
    shelf: Shelf<CodeColumn, CellsAt>,
    // whether a report has asked for the column; nothing rests on it
    is_asked_for: AtomicBool,
}

impl Place {
    /// An empty place.
    fn new<H: KeyHash<Cell>>(
        alloc: Global,
        piece: &RowPiece<H>,
        index: usize,
    ) -> Result<Place, AllocError>
        ensures { IfOk result (IsPlaceFor piece.now) }
    {
        let entries = Told::<(Cell, Row)>::of::<RowPiece<H>, ItsEntries>(piece);
        let promise = CellsAt { entries, index };
        Ok(Place {
            index,
            shelf: Shelf::new(alloc, &promise)?,
            is_asked_for: AtomicBool::new(false),
        })
    }

    /// Whether it is empty. Nothing rests on it.
    fn is_empty(&self) -> bool {
        let nothing = move || -> Option<CodeColumn>
            ensures { result ≡ None }
        { None };
        self.shelf.value_or_make_again(nothing).is_none()
    }

    /// Puts the column there, unless there is one by then, or it is of another index. `laid` is one more where it is put there.
    fn put<H: KeyHash<Cell>, R: Wait>(
        &self,
        rt: &R,
        piece: &RowPiece<H>,
        index: usize,
        column: CodeColumn,
        laid: &AtomicU64,
    )
        requires place { IsPlaceFor piece.now self.now }
        requires cells { cells_of column ≡ cells_at index (rows_of piece.now) }
    {
        if self.index != index {
            return;
        }
        drop(
            self.shelf.value_or_make(
                rt,
                move || -> Option<CodeColumn>
                    ensures { result ≡ Some column }
                {
                    laid.fetch_add(1, SeqCst);
                    Some(column)
                },
            ),
        );
    }

    /// As of [`PieceColumns::column_or_make`].
    fn column_or_make<H: KeyHash<Cell>, R: Wait>(
        &self,
        rt: &R,
        alloc: Global,
        piece: &RowPiece<H>,
        index: usize,
        laid: &AtomicU64,
    ) -> Option<Arc<CodeColumn>>
        requires { IsPlaceFor piece.now self.now }
        ensures { IfSome result (λ column. cells_of column.value ≡ cells_at index (rows_of piece.now)) }
    {
        if self.index != index {
            return None;
        }
        let found = self.shelf.value_or_make(
            rt,
            move || -> Option<CodeColumn>
                ensures { IfSome result (λ column. cells_of column ≡ cells_at index (rows_of piece.entry.now)) }
            { laid_out(alloc, piece, index, laid).ok() },
        );
        if let Some(column) = found {
            return Some(column);
        }
        self.shelf.value_or_make_again(
            move || -> Option<CodeColumn>
                ensures { IfSome result (λ column. cells_of column ≡ cells_at index (rows_of piece.entry.now)) }
            { laid_out(alloc, piece, index, laid).ok() },
        )
    }
}

/// The columns of a piece of a table: a place for each, which is filled when a report first needs that column. All editions
/// that share the piece share them.
#[derive(Drop)]
pub struct PieceColumns {
    pub(crate) places: Vec<Place>,
    // how many threads wanted to lay out columns since nobody did; nothing rests on it
    claims: AtomicU64,
}

impl Summary<Cell, Row> for PieceColumns {
    ghost use Rattle.columns.specs.Beside.{ArePlacesFor};

    ghost describes = { λ entries columns. ArePlacesFor entries columns.places.items };
}

impl PieceColumns {
    /// Those that lie beside the piece; at first an empty place for each column of its rows. None where the piece has no place
    /// for them, as [`Summed`] says, or memory was refused; then another call may get it.
    pub fn beside<H: KeyHash<Cell>, R: Wait>(
        rt: &R,
        alloc: Global,
        piece: &RowPiece<H>,
    ) -> Option<Arc<PieceColumns>>
        ensures { IfSome result (λ columns. ArePlacesFor piece.now columns.value.places.items) }
    {
        let found = piece.summary_or_make(
            rt,
            move || -> Option<PieceColumns>
                ensures { IfSome result (λ columns. ArePlacesFor piece.entry.now columns.places.items) }
            { PieceColumns::of(alloc, piece).ok() },
        );
        if let Some(columns) = found {
            return Some(columns);
        }
        piece.summary_or_make_again(
            move || -> Option<PieceColumns>
                ensures { IfSome result (λ columns. ArePlacesFor piece.entry.now columns.places.items) }
            { PieceColumns::of(alloc, piece).ok() },
        )
    }

    /// An empty place for each column of the piece's rows.
    fn of<H: KeyHash<Cell>>(alloc: Global, piece: &RowPiece<H>) -> Result<PieceColumns, AllocError>
        ensures { IfOk result (λ columns. ArePlacesFor piece.now columns.places.items) }
    {
        let width = width_of(piece);
        let mut places = Vec::with_capacity(alloc, width)?;
        for index in 0..width {
            let place = Place::new(alloc, piece, index)?;
            places.push(place)?;
        }
        Ok(PieceColumns {
            places,
            claims: AtomicU64::new(0),
        })
    }

    /// Whether the caller is to lay out columns now: no other thread that asked so is at it. Who is told so calls
    /// [`release`](PieceColumns::release) when it is done. Nothing rests on it.
    pub(crate) fn claim(&self) -> bool {
        self.claims.fetch_add(1, SeqCst) == 0
    }

    /// Lets others lay out columns again.
    pub(crate) fn release(&self) {
        self.claims.store(0, SeqCst);
    }

    /// Whether the rows have a column of the index that is not laid out yet. Nothing rests on it.
    pub(crate) fn lacks(&self, index: usize) -> bool {
        match self.places.get(index) {
            Some(place) => place.is_empty(),
            None => false,
        }
    }

    /// Asks for the column of the index. Whether the rows have one that is not laid out yet. Nothing rests on it.
    pub(crate) fn ask_for(&self, index: usize) -> bool {
        let Some(place) = self.places.get(index) else {
            return false;
        };
        if !place.is_empty() {
            return false;
        }
        place.is_asked_for.store(true, SeqCst);
        true
    }

    /// The indexes of the columns that were asked for and are not laid out yet. Nothing rests on them.
    pub(crate) fn asked_for(&self, alloc: Global) -> Result<Vec<usize>, AllocError> {
        let mut asked = Vec::new(alloc);
        for place in &self.places {
            if place.is_asked_for.load(SeqCst) && place.is_empty() {
                asked.push(place.index)?;
            }
        }
        Ok(asked)
    }

    /// Puts a column of the index, which has the cells of the piece's rows, beside the piece, unless there is one by then. `laid`
    /// is one more where it is put there.
    pub(crate) fn put<H: KeyHash<Cell>, R: Wait>(
        &self,
        rt: &R,
        piece: &RowPiece<H>,
        index: usize,
        column: CodeColumn,
        laid: &AtomicU64,
    )
        requires places { ArePlacesFor piece.now self.now.places.items }
        requires cells { cells_of column ≡ cells_at index (rows_of piece.now) }
    {
        if let Some(place) = self.places.get(index) {
            place.put(rt, piece, index, column, laid);
        }
    }

    /// One owner more of the column of the index, which is laid out at the first call. Whoever comes meanwhile waits for it.
    /// `laid` counts how often a column is laid out.
    ///
    /// None where the rows have no such column, or memory was refused; then another call may get it.
    pub fn column_or_make<H: KeyHash<Cell>, R: Wait>(
        &self,
        rt: &R,
        alloc: Global,
        piece: &RowPiece<H>,
        index: usize,
        laid: &AtomicU64,
    ) -> Option<Arc<CodeColumn>>
        requires { ArePlacesFor piece.now self.now.places.items }
        ensures { IfSome result (λ column. cells_of column.value ≡ cells_at index (rows_of piece.now)) }
    {
        let place = self.places.get(index)?;
        place.column_or_make(rt, alloc, piece, index, laid)
    }
}

/// The column of the index, of the rows of a piece; `laid` is one more. The only error is that a growth was refused.
pub(crate) fn laid_out<H: KeyHash<Cell>>(
    alloc: Global,
    piece: &RowPiece<H>,
    index: usize,
    laid: &AtomicU64,
) -> Result<CodeColumn, AllocError>
    ensures { IfOk result (λ column. cells_of column ≡ cells_at index (rows_of piece.now)) }
{
    laid.fetch_add(1, SeqCst);
    let mut column = NamedColumn::new(alloc, index);
    column.take_all(piece)?;
    Ok(column.form.kept()?)
}

/// How many columns the first row that comes has. Nothing rests on it.
#[derive(Drop)]
struct Width {
    cells: usize,
}

impl Visitor<Cell, Row> for Width {
    ghost use Rattle.std.specs.Prelude.{⊤};

    ghost asks = { λ _ _ _. ⊤ };

    ghost takes = { λ _ _ _ _. ⊤ };

    fn visit(&mut self, _key: &Cell, row: &Row) -> Result<(), AllocError> {
        self.cells = row.width();
        // This ends the walk.
        Err(AllocError)
    }
}

/// How many columns the rows of a piece have. Nothing rests on it.
fn width_of<H: KeyHash<Cell>>(piece: &RowPiece<H>) -> usize {
    let mut width = Width { cells: 0 };
    drop(piece.walk(&mut width));
    width.cells
}
