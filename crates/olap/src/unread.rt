//! Tells which columns of the files of a question are not read.

use crate::asking::shown;
use crate::tell::Tell;
use cells::Text;
use prepare::{Chosen, header_of, meant_by};
use questions::proposal::{FileFault, columns_of_file};
use questions::question::{Question, Wanted};
use std::alloc::{AllocError, Global};

/// Tells of each file which of its columns are not read, where there are some and the question asks for it. The fault is that no
/// columns can be chosen, or want of memory.
pub fn tell_unread<T: Tell>(
    alloc: Global,
    teller: &T,
    question: &Question<'_>,
    files: &[Vec<u8>],
    wanted: &Wanted,
) -> Result<(), FileFault> {
    if !question.tells_progress {
        return Ok(());
    }
    let names = question.names.as_slice();
    if let Some(columns) = &wanted.columns {
        return Ok(tell_others(alloc, teller, names, files, wanted, columns.as_slice())?);
    }
    let query = Some(question.query);
    let columns = columns_of_file(alloc, files, wanted.delimiter, wanted.trims, query)?;
    Ok(tell_others(alloc, teller, names, files, wanted, columns.as_slice())?)
}

/// Tells of each file of these names which of its columns are none of those that are chosen.
fn tell_others<T: Tell>(
    alloc: Global,
    teller: &T,
    names: &[Text],
    files: &[Vec<u8>],
    wanted: &Wanted,
    columns: &[Chosen],
) -> Result<(), AllocError> {
    for (name, file) in names.iter().zip(files) {
        let header = header_of(alloc, file.as_slice(), wanted.delimiter, wanted.trims)?;
        let Some(header) = header else {
            continue;
        };
        let others = others(alloc, header.as_slice(), columns)?;
        if !others.is_empty() {
            let name = name.as_str();
            teller.tell(format_args!("olap: {name}: columns that are not read: {others}"));
        }
    }
    Ok(())
}

/// The names of a header that are none of those that are chosen, with commas between them.
fn others(alloc: Global, header: &[Vec<u8>], columns: &[Chosen]) -> Result<String, AllocError> {
    let read = places_read(alloc, header, columns)?;
    let mut list = String::new(alloc);
    for (place, name) in header.iter().enumerate() {
        if read.as_slice().contains(&place) {
            continue;
        }
        if !list.is_empty() {
            list.push_str(", ")?;
        }
        push_name(alloc, &mut list, place, name.as_slice())?;
    }
    Ok(list)
}

/// The places of the columns of a header that are chosen.
fn places_read(
    alloc: Global,
    header: &[Vec<u8>],
    columns: &[Chosen],
) -> Result<Vec<usize>, AllocError> {
    let mut names = Vec::new(alloc);
    for name in header {
        names.push(name.as_slice())?;
    }
    let mut places = Vec::new(alloc);
    for column in columns {
        let meant = meant_by(alloc, column.name.as_bytes(), names.as_slice())?;
        places.extend_from_slice(meant.as_slice())?;
    }
    Ok(places)
}

/// The list with the name of the column at this place behind it, or with its number where the name can't be shown.
fn push_name(
    alloc: Global,
    list: &mut String,
    place: usize,
    name: &[u8],
) -> Result<(), AllocError> {
    match shown(name) {
        Some(name) if !name.is_empty() => list.push_str(name),
        _ => {
            let number = place.saturating_add(1);
            list.push_str(format!(in alloc; "column {number}")?.as_str())
        }
    }
}
