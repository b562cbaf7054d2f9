//! A column with the index that it has in the rows.
ghost use Rattle.std.specs.Prelude.{◌≡◌, ◌∷◌, [], List, IfOk, None, OnOk, slice_index_or};
ghost use Rattle.cells.specs.Values.{RowValue};
ghost use Rattle.cells.specs.declared.cell.Cell.TheVariants.{Null};
ghost use Rattle.columns.specs.Beside.{ArePlacesFor};
ghost use Rattle.columns.specs.Coding.{PutsFor};
ghost use Rattle.columns.specs.Columns.{cells_at, cells_of, rows_of};

use crate::code_column::CodeColumn;
use crate::form::Form;
use crate::piece_columns::{PieceColumns, RowPiece, laid_out};
use cells::{Cell, KeyHash, LentCell, Row, RowWalk};
use std::alloc::{AllocError, Global};
use std::marker::Model;
use std::sync::Wait;
use std::sync::atomic::AtomicU64;
use trie::{Beside, Piece, Visitor};

/// A column, and the index that it has in the rows.
#[derive(Drop)]
pub(crate) struct NamedColumn {
    pub index: usize,
    pub form: Form,
    // what was seen of rows that were looked at; nothing rests on it
    seen: u64,
}

impl Model for NamedColumn {
    ghost use Rattle.std.specs.Prelude.{ℕ};
    ghost use Rattle.std.specs.Coded.{codes};
    ghost use Rattle.cells.specs.Codes.{coded_cell};
    ghost use Rattle.columns.specs.Columns.{ColumnValue};
    ghost use Rattle.columns.specs.Sharing.{column_of};

    ghost Value = { ℕ × ColumnValue };

    ghost coded = { Prim.hlevel (codes, coded_cell) };

    ghost view = { λ c. (c.index, column_of c.form) };
}

impl NamedColumn {
    /// No cells.
    pub fn new(alloc: Global, index: usize) -> NamedColumn
        ensures { result ≡ (index, record { cells = None; by_row = [] }) }
    {
        NamedColumn {
            index,
            form: Form::Own(CodeColumn::new(alloc)),
            seen: 0,
        }
    }

    /// Puts a row's cell behind those that are there.
    pub fn take(&mut self, cells: &mut RowWalk<'_>) -> Result<(), AllocError>
        ensures puts { OnOk result (PutsFor (λ index. slice_index_or cells.old index Null ∷ []) self.old self.new) }
        ensures same { cells.new ≡ cells.old }
    {
        let cell = cells.cell(self.index);
        self.form.push(&cell)
    }

    /// Looks at a row: at its first cell, beside which the others lie. What is seen is kept, since a load of which nothing is
    /// kept would be left out.
    pub fn look_at(&mut self, row: &Row)
        ensures { self.new ≡ self.old }
    {
        self.seen = self.seen.wrapping_add(seen_of(row.cell(0)));
    }

    /// Makes room for the cells of so many rows more.
    pub fn reserve(&mut self, rows: usize) -> Result<(), AllocError>
        ensures { self.new ≡ self.old }
    {
        self.form.reserve(rows)
    }

    /// Puts the cells of a piece's rows behind those that are there.
    pub fn take_all<H: KeyHash<Cell>, S: Beside<Cell, Row>>(
        &mut self,
        piece: &Piece<Cell, Row, H, S>,
    ) -> Result<(), AllocError>
        ensures { OnOk result (PutsFor (λ index. cells_at index (rows_of piece.now)) self.old self.new) }
    {
        self.reserve(piece.len() as usize)?;
        piece.walk(self)?;
        Ok(())
    }

    /// The same by the column that lies beside the piece, or, where memory for that was refused, by one of its own.
    pub fn take_kept<H: KeyHash<Cell>, R: Wait>(
        &mut self,
        rt: &R,
        alloc: Global,
        piece: &RowPiece<H>,
        kept: &PieceColumns,
        laid: &AtomicU64,
    ) -> Result<(), AllocError>
        requires { ArePlacesFor piece.now kept.now.places.items }
        ensures { OnOk result (PutsFor (λ index. cells_at index (rows_of piece.now)) self.old self.new) }
    {
        if let Some(column) = kept.column_or_make(rt, alloc, piece, self.index, laid) {
            self.form.append_shared(column)?;
            return Ok(());
        }
        let column = laid_out(alloc, piece, self.index, laid)?;
        self.form.append(&column)?;
        Ok(())
    }

    /// The column with the cells of another one of the same index behind its own.
    pub fn with(self, other: &CodeColumn) -> Result<NamedColumn, AllocError>
        ensures index { IfOk result (λ n. n.0 ≡ self.0) }
        ensures puts { (more : List RowValue) → cells_of other.now ≡ cells_at self.0 more → IfOk result (PutsFor (λ index. cells_at index more) self) }
    {
        let NamedColumn {
            index,
            mut form,
            ..
        } = self;
        form.append(other)?;
        Ok(NamedColumn {
            index,
            form,
            seen: 0,
        })
    }
}

impl Visitor<Cell, Row> for NamedColumn {
    ghost use Rattle.std.specs.Prelude.{⊤, ◌∷◌, []};
    ghost use Rattle.columns.specs.Coding.{PutsFor};
    ghost use Rattle.columns.specs.Columns.{cells_at};

    ghost asks = { λ column key row. ⊤ };

    ghost takes = { λ old key row new. PutsFor (λ index. cells_at index (row ∷ [])) old new };

    fn visit(&mut self, _key: &Cell, row: &Row) -> Result<(), AllocError> {
        self.take(&mut row.walk())
    }

    fn looks(&self) -> bool {
        true
    }

    fn look(&mut self, row: &Row) {
        self.look_at(row);
    }
}

/// Some number that can't be told before the cell was read, and the bytes of a text.
fn seen_of(cell: LentCell<'_>) -> u64 {
    match cell {
        LentCell::Null => 1,
        LentCell::Int(_) => 0,
        LentCell::Text(text) => u64::from(text.bytes.last().copied().unwrap_or(0)),
    }
}
