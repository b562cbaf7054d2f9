//! A column that is made here, or one that lies beside a piece.
ghost use Rattle.std.specs.Prelude.{◌≡◌, ◌∷◌, [], IfOk, OnOk};
ghost use Rattle.cells.specs.Lent.{lent_cell};
ghost use Rattle.columns.specs.Coding.{Puts};
ghost use Rattle.columns.specs.Columns.{cells_of};
ghost use Rattle.columns.specs.Sharing.{column_of};

use crate::code_column::CodeColumn;
use cells::LentCell;
use std::alloc::AllocError;
use std::sync::Arc;

/// A column of its own, or one owner more of a column that lies beside a piece. To that no cells come: where some do, they go to a
/// copy.
#[derive(Drop)]
pub(crate) enum Form {
    Own(CodeColumn),
    Shared(Arc<CodeColumn>),
}

impl Form {
    /// The column.
    pub fn column(&self) -> &CodeColumn
        ensures { result.now ≡ column_of self.now }
    {
        match self {
            Form::Own(column) => column,
            Form::Shared(column) => &**column,
        }
    }

    /// Puts a cell after those that are there.
    pub fn push(&mut self, cell: &LentCell<'_>) -> Result<(), AllocError>
        ensures { OnOk result (Puts (lent_cell cell.now ∷ []) (column_of self.old) (column_of self.new)) }
    {
        match self {
            Form::Own(column) => column.push(cell),
            Form::Shared(column) => {
                *self = Form::Own(copy_with(column, cell)?);
                Ok(())
            }
        }
    }

    /// Makes room for the cells of so many rows more. A column that lies beside a piece is left as it is.
    pub fn reserve(&mut self, rows: usize) -> Result<(), AllocError>
        ensures { column_of self.new ≡ column_of self.old }
    {
        match self {
            Form::Own(column) => column.reserve(rows),
            Form::Shared(_) => Ok(()),
        }
    }

    /// Puts the cells of another column after those that are there.
    pub fn append(&mut self, other: &CodeColumn) -> Result<(), AllocError>
        ensures { OnOk result (Puts (cells_of other.now) (column_of self.old) (column_of self.new)) }
    {
        match self {
            Form::Own(column) => column.append(other),
            Form::Shared(column) => {
                let mut own = column.copied()?;
                own.append(other)?;
                *self = Form::Own(own);
                Ok(())
            }
        }
    }

    /// The same of a column that lies beside a piece. Where there are no cells yet nothing is copied: it has one owner more.
    pub fn append_shared(&mut self, other: Arc<CodeColumn>) -> Result<(), AllocError>
        ensures { OnOk result (Puts (cells_of other.value) (column_of self.old) (column_of self.new)) }
    {
        if self.column().codes().is_empty() {
            *self = Form::Shared(other);
            return Ok(());
        }
        self.append(&other)
    }

    /// The column, to which no more cells come: what only serves to find codes goes.
    pub fn kept(self) -> Result<CodeColumn, AllocError>
        ensures { IfOk result (λ column. cells_of column ≡ cells_of (column_of self)) }
    {
        match self {
            Form::Own(column) => Ok(column.kept()),
            Form::Shared(column) => column.copied(),
        }
    }

    /// Gives back the memory of what only serves to find codes. It is made again where cells come.
    pub fn forget_hints(&mut self)
        ensures { column_of self.new ≡ column_of self.old }
    {
        if let Form::Own(column) = self {
            column.forget_hints();
        }
    }
}

/// A copy of the column with a cell after its own. It is apart from [`push`](Form::push), which is called for each cell and
/// hardly ever needs it.
fn copy_with(column: &CodeColumn, cell: &LentCell<'_>) -> Result<CodeColumn, AllocError>
    ensures { IfOk result (Puts (lent_cell cell.now ∷ []) column.now) }
{
    let mut copy = column.copied()?;
    copy.push(cell)?;
    Ok(copy)
}
