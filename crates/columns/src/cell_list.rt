//! A list of different cells, in which each cell finds its code.
ghost use Rattle.std.specs.Prelude.{◌≡◌, ◌∷◌, ◌<◌, [], length, slice_index_or, IfOk, IfSome, OnErr};
ghost use Rattle.cells.specs.Lent.{lent_cell};
ghost use Rattle.cells.specs.declared.cell.Cell.TheVariants.{Null};
ghost use Rattle.columns.specs.Coding.{Recode};

use crate::quick_hash::quick_hash;
use cells::{Cell, LentCell};
use std::alloc::{AllocError, Global};
use std::marker::Model;

/// No cell has this code.
const NONE: u32 = u32::MAX;

/// The fewest slots for hints, if there are any.
const FEWEST_SLOTS: usize = 256;

/// In how many slots a hint of a cell is looked for.
const PROBES: usize = 32;

/// Different cells, of which each has its index as its code.
///
/// Cells that come find their codes by hints, which rest on hashes. Nothing rests on the hints: a cell that they do not show
/// may stand in the list twice.
#[derive(Drop)]
pub(crate) struct CellList {
    cells: Vec<Cell>,
    // codes of cells, each in one of a few slots from the one on to which its cell's hash points
    hints: Vec<u32>,
}

impl Model for CellList {
    ghost use Rattle.std.specs.Prelude.{List};
    ghost use Rattle.std.specs.Coded.{codes};
    ghost use Rattle.cells.specs.Codes.{coded_cell};
    ghost use Rattle.cells.specs.declared.cell.Cell.{Cell};

    ghost Value = { List Cell };

    ghost coded = { Prim.hlevel (codes, coded_cell) };

    ghost view = { λ l. l.cells.items };
}

impl CellList {
    /// No cells.
    pub fn new(alloc: Global) -> CellList
        ensures { result ≡ [] }
    {
        CellList {
            cells: Vec::new(alloc),
            hints: Vec::new(alloc),
        }
    }

    /// The cells: that of a code has the code as its index.
    pub fn cells(&self) -> &[Cell]
        ensures { result.now ≡ self.now }
    {
        self.cells.as_slice()
    }

    /// Gives back the memory of the hints. They are made again where cells come.
    pub fn forget_hints(&mut self)
        ensures { self.new ≡ self.old }
    {
        self.hints.clear();
        self.hints.shrink_to_fit();
    }

    /// The cells, for good: no more come.
    pub fn kept(self) -> CellList
        ensures { result ≡ self }
    {
        let mut list = self;
        list.cells.shrink_to_fit();
        list.forget_hints();
        list
    }

    /// The codes of some cells, which are added where they are not found.
    pub fn codes_of(&mut self, alloc: Global, cells: &[Cell]) -> Result<Vec<u32>, AllocError>
        ensures { IfOk result (λ codes. Recode cells.now self.old self.new codes.items) }
    {
        let mut codes = Vec::with_capacity(alloc, cells.len())?;
        for cell in cells {
            let code = self.code_of(alloc, &LentCell::of(cell))?;
            codes.push(code)?;
        }
        Ok(codes)
    }

    /// The code of the cell, which is added where it is not found. The only error is that a growth was refused, as that of a
    /// list of 4,294,967,296 different cells is.
    pub fn code_of(&mut self, alloc: Global, cell: &LentCell<'_>) -> Result<u32, AllocError>
        ensures code { IfOk result (λ code. Recode (lent_cell cell.now ∷ []) self.old self.new (code ∷ [])) }
        ensures refused { OnErr result (self.new ≡ self.old) }
    {
        self.make_room()?;
        let slot = match self.code_or_slot(cell) {
            Ok(code) => return Ok(code),
            Err(slot) => slot,
        };
        let code = self.add(alloc, cell)?;
        self.hint(slot, code);
        Ok(code)
    }

    /// The code of the cell, if a hint shows it; else the slot for its hint.
    fn code_or_slot(&self, cell: &LentCell<'_>) -> Result<u32, usize>
        ensures within { IfOk result (λ code. code < length self.now) }
        ensures found { IfOk result (λ code. slice_index_or self.now code Null ≡ lent_cell cell.now) }
    {
        let mut slot = self.first_slot(cell);
        for _probe in 0..PROBES {
            if let Some(code) = self.shown(slot, cell) {
                return Ok(code);
            }
            if self.is_free(slot) {
                return Err(slot);
            }
            slot = slot.wrapping_add(1);
        }
        Err(slot)
    }

    /// The code in the slot, if it is the cell's.
    fn shown(&self, slot: usize, cell: &LentCell<'_>) -> Option<u32>
        ensures within { IfSome result (λ code. code < length self.now) }
        ensures found { IfSome result (λ code. slice_index_or self.now code Null ≡ lent_cell cell.now) }
    {
        let code = *self.hints.get(slot)?;
        let found = self.cells.get(code as usize)?;
        if cell.is(found) { Some(code) } else { None }
    }

    /// Whether the slot has no hint. Nothing rests on it.
    fn is_free(&self, slot: usize) -> bool {
        match self.hints.get(slot) {
            Some(code) => *code == NONE,
            None => true,
        }
    }

    /// The slot from which on a hint of the cell is looked for. Nothing rests on it.
    fn first_slot(&self, cell: &LentCell<'_>) -> usize {
        let hash = quick_hash(cell) as usize >> 32;
        hash.wrapping_mul(self.hints.len().saturating_sub(PROBES)) >> 32
    }

    /// Puts a hint into the slot. Nothing rests on it.
    fn hint(&mut self, slot: usize, code: u32)
        ensures { self.new ≡ self.old }
    {
        if let Some(hint) = self.hints.get_mut(slot) {
            *hint = code;
        }
    }

    /// Makes more slots, with the hints of all cells, where there may be fewer than two for each cell. Nothing rests on it.
    fn make_room(&mut self) -> Result<(), AllocError>
        ensures { self.new ≡ self.old }
    {
        if self.cells.len() < self.hints.len() / 2 {
            return Ok(());
        }
        let slots = self.cells.len().saturating_mul(4).max(FEWEST_SLOTS);
        self.hints.clear();
        self.hints.resize(slots, NONE)?;
        for index in 0..self.cells.len() {
            self.hint_again(index);
        }
        Ok(())
    }

    /// Puts a hint of the cell of the index. Nothing rests on it.
    fn hint_again(&mut self, index: usize)
        ensures { self.new ≡ self.old }
    {
        let Some(cell) = self.cells.get(index) else {
            return;
        };
        let slot = self.free_slot(&LentCell::of(cell));
        if let Ok(code) = u32::try_from(index) {
            self.hint(slot, code);
        }
    }

    /// The slot for the hint of a cell that has none. Nothing rests on it.
    fn free_slot(&self, cell: &LentCell<'_>) -> usize {
        let mut slot = self.first_slot(cell);
        for _probe in 0..PROBES {
            if self.is_free(slot) {
                return slot;
            }
            slot = slot.wrapping_add(1);
        }
        slot
    }

    /// Adds a cell.
    fn add(&mut self, alloc: Global, cell: &LentCell<'_>) -> Result<u32, AllocError>
        ensures code { IfOk result (λ code. Recode (lent_cell cell.now ∷ []) self.old self.new (code ∷ [])) }
        ensures refused { OnErr result (self.new ≡ self.old) }
    {
        if self.cells.len() > u32::MAX as usize {
            return Err(AllocError);
        }
        let code = self.cells.len() as u32;
        self.cells.push(cell.owned(alloc)?)?;
        Ok(code)
    }
}
