//! The header of a file: where the columns of the part stand in it, and their names.
ghost use Rattle.std.specs.Prelude.{◌≡◌, ◌++◌, IfErr, IfOk, Ok, map};
ghost use Rattle.std.specs.List.{range_with_len};
ghost use Rattle.prepare.specs.Parts.{IsFault, headed, is_name, meant_by, places_from, places_of, places_where, the_one, words_of};
ghost use Rattle.prepare.specs.Words.{word_of};

use crate::choice::{Choice, Chosen};
use crate::fault::PrepareFault;
use crate::words::{is_same_name, word_of};
use cells::Text;
use std::alloc::{AllocError, Global};

/// Where the columns that are chosen stand in the header. [`PrepareFault::NoColumn`] and [`PrepareFault::TwoColumns`] are of the
/// first whose name means none or several.
pub(crate) fn places_of(
    alloc: Global,
    columns: &Option<Vec<Chosen>>,
    header: &[&[u8]],
) -> Result<Vec<usize>, PrepareFault>
    ensures places { IfOk result (λ places. places_of columns.now (map (λ f. f.now) header.now) ≡ Ok places.items) }
    ensures fault { IfErr result (IsFault (places_of columns.now (map (λ f. f.now) header.now))) }
{
    match columns {
        Some(columns) => places_from(alloc, columns.as_slice(), header),
        None => Ok(all_places(alloc, header.len())?),
    }
}

/// The places 0 to `count`, without `count`.
fn all_places(alloc: Global, count: usize) -> Result<Vec<usize>, AllocError>
    ensures { IfOk result (λ places. places.items ≡ range_with_len 0 count) }
{
    let mut places = Vec::new(alloc);
    for place in 0..count {
        places.push(place)?;
    }
    Ok(places)
}

/// Where these columns stand in the header.
fn places_from(
    alloc: Global,
    columns: &[Chosen],
    header: &[&[u8]],
) -> Result<Vec<usize>, PrepareFault>
    ensures places { IfOk result (λ places. places_from 0 columns.now (map (λ f. f.now) header.now) ≡ Ok places.items) }
    ensures fault { IfErr result (IsFault (places_from 0 columns.now (map (λ f. f.now) header.now))) }
{
    let mut places = Vec::new(alloc);
    for (at, column) in columns.iter().enumerate() {
        let meant = meant_by(alloc, column.name.as_bytes(), header)?;
        let place = the_one(at, meant.as_slice())?;
        places.push(place)?;
    }
    Ok(places)
}

/// The places of the columns of a header that a name means, where the first is 0: those that have exactly this name, or where none has,
/// those that have it in another case. The only error is that a growth was refused.
pub fn meant_by(alloc: Global, name: &[u8], header: &[&[u8]]) -> Result<Vec<usize>, AllocError>
    ensures { IfOk result (λ places. places.items ≡ meant_by name.now (map (λ f. f.now) header.now)) }
{
    let exact = places_where(alloc, Case::Same, name, header)?;
    if exact.is_empty() {
        return places_where(alloc, Case::Any, name, header);
    }
    Ok(exact)
}

/// What counts of letters when names are compared.
#[derive(Clone, Copy, Debug, PartialEq, Eq)]
enum Case {
    /// Their case, too.
    Same,
    /// Not their case.
    Any,
}

/// The places of the columns that have this name.
fn places_where(
    alloc: Global,
    case: Case,
    name: &[u8],
    header: &[&[u8]],
) -> Result<Vec<usize>, AllocError>
    ensures { IfOk result (λ places. places.items ≡ places_where (is_name case name.now) 0 (map (λ f. f.now) header.now)) }
{
    let mut places = Vec::new(alloc);
    for (place, field) in header.iter().enumerate() {
        if is_name(case, name, field) {
            places.push(place)?;
        }
    }
    Ok(places)
}

/// Whether a column of this name is meant.
fn is_name(case: Case, name: &[u8], field: &[u8]) -> bool
    ensures { result ≡ is_name case name.now field.now }
{
    match case {
        Case::Same => name == field,
        Case::Any => is_same_name(name, field),
    }
}

/// The one place that is meant. `at` is that of the name among those that are chosen.
fn the_one(at: usize, meant: &[usize]) -> Result<usize, PrepareFault>
    ensures { result ≡ the_one at meant.now }
{
    match meant {
        [] => Err(PrepareFault::NoColumn { place: at }),
        [place] => Ok(*place),
        [first, second, ..] => Err(PrepareFault::TwoColumns {
            place: at,
            first: *first,
            second: *second,
        }),
    }
}

/// The names of the part's columns, where those of the file have these names.
pub(crate) fn words_of(
    alloc: Global,
    choice: &Choice,
    header: &[&[u8]],
) -> Result<Vec<Vec<u8>>, AllocError>
    ensures { IfOk result (λ words. map (λ w. w.items) words.items ≡ headed choice.now.number (words_of choice.now.columns (map (λ f. f.now) header.now))) }
{
    let mut words = Vec::new(alloc);
    if let Some(number) = &choice.number {
        words.push(copied(alloc, number)?)?;
    }
    match &choice.columns {
        Some(columns) => with_chosen(alloc, words, columns.as_slice()),
        None => with_words(alloc, words, header),
    }
}

/// The names, and then those of the columns that are chosen.
fn with_chosen(
    alloc: Global,
    mut words: Vec<Vec<u8>>,
    columns: &[Chosen],
) -> Result<Vec<Vec<u8>>, AllocError>
    ensures { IfOk result (λ all. map (λ w. w.items) all.items ≡ map (λ w. w.items) words.items ++ map (λ c. c.word) columns.now) }
{
    for column in columns {
        words.push(copied(alloc, &column.word)?)?;
    }
    Ok(words)
}

/// The names, and then the words that the names of the header make.
fn with_words(
    alloc: Global,
    mut words: Vec<Vec<u8>>,
    header: &[&[u8]],
) -> Result<Vec<Vec<u8>>, AllocError>
    ensures { IfOk result (λ all. map (λ w. w.items) all.items ≡ map (λ w. w.items) words.items ++ map word_of (map (λ f. f.now) header.now)) }
{
    for name in header {
        words.push(word_of(alloc, name)?)?;
    }
    Ok(words)
}

/// A copy of the text's bytes.
fn copied(alloc: Global, text: &Text) -> Result<Vec<u8>, AllocError>
    ensures { IfOk result (λ bytes. bytes.items ≡ text.now) }
{
    text.as_bytes().to_vec(alloc)
}
