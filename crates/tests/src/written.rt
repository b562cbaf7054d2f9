//! Cells as tables write them.

use cells::{Cell, Text};
use std::alloc::{AllocError, Global};

/// A cell as the tables write it.
#[derive(Clone, Copy)]
pub enum Written {
    Null,
    Int(i64),
    Text(&'static str),
}

pub fn cell_of(alloc: Global, written: &Written) -> Result<Cell, AllocError> {
    match written {
        Written::Null => Ok(Cell::Null),
        Written::Int(n) => Ok(Cell::Int(*n)),
        Written::Text(characters) => Ok(Cell::Text(Text::copied(alloc, characters)?)),
    }
}

pub fn cells_of(alloc: Global, written: &[Written]) -> Result<Vec<Cell>, AllocError> {
    let mut cells = Vec::new(alloc);
    for each in written {
        cells.push(cell_of(alloc, each)?)?;
    }
    Ok(cells)
}
