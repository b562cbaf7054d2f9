//! One column.
ghost use Rattle.std.specs.Prelude.{◌≡◌, ◌∷◌, ◌++◌, [], None, Some, IfOk, OnOk};
ghost use Rattle.std.specs.Option.{option_copied};
ghost use Rattle.cells.specs.Lent.{lent_cell};
ghost use Rattle.columns.specs.Coding.{GivesList, Puts};
ghost use Rattle.columns.specs.Columns.{AreCodes, cell_of, cells_of, decoded};

use crate::cell_list::CellList;
use crate::number_code::{number_cell, number_code};
use crate::span::Span;
use cells::{Cell, LentCell};
use std::alloc::{AllocError, Global};
use std::marker::Model;

/// The cells of rows in one column, one for each row. Each is held as a code of 32 bits. As long as all cells are NULL or
/// integers of 32 bits, the codes are those of [`number_cell`](crate::number_cell); from the first other cell on, a code is the index of its
/// cell in a list of the column's different cells, of which it owns copies.
#[derive(Drop)]
pub struct CodeColumn {
    alloc: Global,
    by_row: Vec<u32>,
    list: Option<CellList>,
    // between which codes those of numbers lie
    numbers: Span,
}

impl Model for CodeColumn {
    ghost use Rattle.std.specs.Coded.{codes};
    ghost use Rattle.cells.specs.Codes.{coded_cell};
    ghost use Rattle.columns.specs.Columns.{AreCodes, ColumnValue};

    ghost Value = { ColumnValue };

    ghost coded = { Prim.hlevel (codes, coded_cell) };

    ghost view = { λ c. record { cells = c.list; by_row = c.by_row.items } };

    ghost invariant = { λ c. AreCodes c.list c.by_row.items };
}

impl CodeColumn {
    /// No cells.
    pub fn new(alloc: Global) -> CodeColumn
        ensures { result ≡ record { cells = None; by_row = [] } }
    {
        CodeColumn {
            alloc,
            by_row: Vec::new(alloc),
            list: None,
            numbers: Span::none(),
        }
    }

    /// The different cells: that of a code has the code as its index. None where the codes are those of
    /// [`number_cell`](crate::number_cell).
    pub fn cells(&self) -> Option<&[Cell]>
        ensures { option_copied result ≡ self.now.cells }
    {
        match &self.list {
            Some(list) => Some(list.cells()),
            None => None,
        }
    }

    /// The codes, one for each row.
    pub fn codes(&self) -> &[u32]
        ensures codes { result.now ≡ self.now.by_row }
        ensures within { AreCodes self.now.cells result.now }
    {
        self.by_row.as_slice()
    }

    /// A copy of the cell of a code. The only error is that a growth was refused.
    pub fn cell(&self, code: u32) -> Result<Cell, AllocError>
        ensures { IfOk result (λ cell. cell ≡ cell_of self.now.cells code) }
    {
        let Some(list) = &self.list else {
            return Ok(number_cell(code));
        };
        match list.cells().get(code as usize) {
            Some(cell) => cell.clone(),
            None => Ok(Cell::Null),
        }
    }

    /// Between which codes those of the rows lie. Nothing rests on it.
    pub fn span(&self) -> Span {
        match &self.list {
            Some(list) => Span::of_list(list.cells().len()),
            None => self.numbers,
        }
    }

    /// Puts a cell after those that are there. The only error is that a growth was refused, as that of a list of
    /// 4,294,967,296 different cells is.
    pub fn push(&mut self, cell: &LentCell<'_>) -> Result<(), AllocError>
        ensures { OnOk result (Puts (lent_cell cell.now ∷ []) self.old self.new) }
    {
        if let Some(list) = &mut self.list {
            return push_code_of(self.alloc, list, &mut self.by_row, cell);
        }
        if let Some(code) = number_code(cell) {
            return self.push_code(code);
        }
        self.push_listed(cell)
    }

    /// Makes room for the cells of so many rows more, so that the list of codes does not grow again and again.
    pub(crate) fn reserve(&mut self, rows: usize) -> Result<(), AllocError>
        ensures { self.new ≡ self.old }
    {
        self.by_row.reserve(rows)
    }

    /// Puts the cells of another column after those that are there. Each different cell is looked up once. Errors are those
    /// of [`push`](CodeColumn::push).
    pub fn append(&mut self, other: &CodeColumn) -> Result<(), AllocError>
        ensures { OnOk result (Puts (cells_of other.now) self.old self.new) }
    {
        self.by_row.reserve(other.by_row.len())?;
        match other.cells() {
            Some(cells) => self.append_listed(cells, other.codes()),
            None => self.append_numbers(other.codes(), other.numbers),
        }
    }

    /// A copy of it.
    pub(crate) fn copied(&self) -> Result<CodeColumn, AllocError>
        ensures { IfOk result (λ copy. cells_of copy ≡ cells_of self.now) }
    {
        let mut copy = CodeColumn::new(self.alloc);
        copy.append(self)?;
        Ok(copy)
    }

    /// The column, for good: no more cells come. What only serves to find codes goes.
    pub(crate) fn kept(self) -> CodeColumn
        ensures { result ≡ self }
    {
        let CodeColumn {
            alloc,
            mut by_row,
            list,
            numbers,
        } = self;
        by_row.shrink_to_fit();
        match list {
            Some(list) => CodeColumn {
                alloc,
                by_row,
                list: Some(list.kept()),
                numbers,
            },
            None => CodeColumn {
                alloc,
                by_row,
                list: None,
                numbers,
            },
        }
    }

    /// Gives back the memory of what only serves to find codes. It is made again where cells come.
    pub fn forget_hints(&mut self)
        ensures { self.new ≡ self.old }
    {
        if let Some(list) = &mut self.list {
            list.forget_hints();
        }
    }

    /// Puts a code after those of a column that has no list.
    fn push_code(&mut self, code: u32) -> Result<(), AllocError>
        requires { self.old.cells ≡ None }
        ensures { OnOk result (self.new ≡ record { cells = None; by_row = self.old.by_row ++ code ∷ [] }) }
    {
        self.numbers = self.numbers.with(code);
        self.by_row.push(code)?;
        Ok(())
    }

    /// Puts a cell after those that are there, by the list of the different ones.
    fn push_listed(&mut self, cell: &LentCell<'_>) -> Result<(), AllocError>
        ensures { OnOk result (Puts (lent_cell cell.now ∷ []) self.old self.new) }
    {
        let alloc = self.alloc;
        let mut list = self.take_list()?;
        let code = list.code_of(alloc, cell)?;
        self.push_code(code)?;
        self.list = Some(list);
        Ok(())
    }

    /// Puts the cells that codes stand for in a list after those that are there.
    fn append_listed(&mut self, cells: &[Cell], codes: &[u32]) -> Result<(), AllocError>
        requires { AreCodes (Some cells.now) codes.now }
        ensures { OnOk result (Puts (decoded (Some cells.now) codes.now) self.old self.new) }
    {
        let mut list = self.take_list()?;
        let recoded = list.codes_of(self.alloc, cells)?;
        for code in codes {
            self.push_code(recoded[*code as usize])?;
        }
        self.list = Some(list);
        Ok(())
    }

    /// Puts the cells of numbers' codes, which lie in the span, after those that are there.
    fn append_numbers(&mut self, codes: &[u32], span: Span) -> Result<(), AllocError>
        ensures { OnOk result (Puts (decoded None codes.now) self.old self.new) }
    {
        if self.list.is_none() {
            self.numbers = self.numbers.and(span);
            self.by_row.extend_from_slice(codes)?;
            return Ok(());
        }
        for code in codes {
            self.push(&LentCell::of(&number_cell(*code)))?;
        }
        Ok(())
    }

    /// The list of the different cells, which is taken out of the column, and made where there is none. Until the column has it
    /// again, its codes are not those of numbers.
    fn take_list(&mut self) -> Result<CellList, AllocError>
        ensures { IfOk result (λ list. GivesList self.old self.new list) }
    {
        self.codes_stand();
        match self.list.take() {
            Some(list) => Ok(list),
            None => self.make_list(),
        }
    }

    /// A list of the different cells of a column that has none, whose codes become those of the list.
    fn make_list(&mut self) -> Result<CellList, AllocError>
        requires { self.old.cells ≡ None }
        ensures { IfOk result (λ list. GivesList self.old self.new list) }
    {
        let mut list = CellList::new(self.alloc);
        let mut codes = Vec::with_capacity(self.alloc, self.by_row.len())?;
        for code in &self.by_row {
            let code = list.code_of(self.alloc, &LentCell::of(&number_cell(*code)))?;
            codes.push(code)?;
        }
        self.by_row = codes;
        Ok(list)
    }

    /// What is known of each column: its codes stand for cells. It does nothing.
    fn codes_stand(&self)
        ensures { AreCodes self.now.cells self.now.by_row }
    {
        let _ = &self.by_row;
    }
}

/// Puts the code of a cell behind codes of a list, which is grown where the cell is not found.
fn push_code_of(
    alloc: Global,
    list: &mut CellList,
    codes: &mut Vec<u32>,
    cell: &LentCell<'_>,
) -> Result<(), AllocError>
    requires { AreCodes (Some list.old) codes.old.items }
    ensures within { AreCodes (Some list.new) codes.new.items }
    ensures puts { OnOk result (decoded (Some list.new) codes.new.items ≡ decoded (Some list.old) codes.old.items ++ lent_cell cell.now ∷ []) }
{
    let code = list.code_of(alloc, cell)?;
    codes.push(code)?;
    Ok(())
}
