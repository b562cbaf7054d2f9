//! Why the first record of a part is no header.

use crate::shown::{shown, shown_bytes};
use cells::Column;
use std::alloc::{AllocError, Global};
use std::fmt;

/// Why a part has no header.
#[derive(Drop)]
pub enum HeaderFault {
    /// It has no record at all.
    Missing,
    /// Its first record has other names than the columns of the table.
    Names { found: String, wanted: String },
}

impl fmt::Display for HeaderFault {
    fn fmt<W: fmt::Write>(&self, f: &mut fmt::Formatter<W>) -> fmt::Result {
        match self {
            HeaderFault::Missing => write!(f, "the part has no record, and so no header"),
            HeaderFault::Names { found, wanted } => {
                write!(f, "the header is {found} where {wanted} is wanted")
            }
        }
    }
}

/// The fault of a first record of other names, with both lists of them.
pub fn other_names(
    alloc: Global,
    columns: &[Column],
    fields: &[&[u8]],
) -> Result<HeaderFault, AllocError> {
    let wanted = wanted_names(alloc, columns)?;
    let found = found_names(alloc, fields, columns.len())?;
    Ok(HeaderFault::Names { found, wanted })
}

/// The names of the columns.
fn wanted_names(alloc: Global, columns: &[Column]) -> Result<String, AllocError> {
    let mut names = String::new(alloc);
    for (place, column) in columns.iter().enumerate() {
        let name = shown(alloc, column.name.as_str())?;
        add_name(&mut names, place, name.as_str())?;
    }
    Ok(names)
}

/// The fields: one more than so many at most, and two dots for what follows.
fn found_names(alloc: Global, fields: &[&[u8]], most: usize) -> Result<String, AllocError> {
    let mut names = String::new(alloc);
    for (place, field) in fields.iter().enumerate() {
        if place > most {
            names.push_str(",..")?;
            return Ok(names);
        }
        let name = shown_bytes(alloc, field)?;
        add_name(&mut names, place, name.as_str())?;
    }
    Ok(names)
}

/// Adds the name at a place of a list, with a comma before it where it is not the first.
fn add_name(list: &mut String, place: usize, name: &str) -> Result<(), AllocError> {
    if place > 0 {
        list.push_str(",")?;
    }
    list.push_str(name)
}
