//! The script that asks a question of parts.
ghost use Rattle.std.specs.Prelude.{◌≡◌, ◌==◌, ◌+◌, ◌<◌, ◌^◌, ◌++◌, ◌||◌, IfOk, OnOk, [], codes, length, map, string_bytes, if◌then◌else◌};
ghost use Rattle.questions.specs.Questions.{column_text, columns_text, load_line, one_line, script_of, table_line, table_name, type_text};

use cells::{Column, ColumnType, Text};
use prepare::name_of;
use std::alloc::{AllocError, Global};
use std::path::Path;

/// The line that declares a table of this name, with these columns, of which the one at a place is the key.
pub fn table_line(
    alloc: Global,
    name: &str,
    columns: &[Column],
    key: usize,
) -> Result<String, AllocError>
    ensures { IfOk result (λ line. string_bytes line ≡ table_line name.now columns.now key) }
{
    let mut line = String::from_str(alloc, "table ")?;
    line.push_str(name)?;
    line.push_str(" (")?;
    for (place, column) in columns.iter().enumerate() {
        push_column(&mut line, key, place, column)?;
    }
    line.push_str(")")?;
    Ok(line)
}

/// Adds the column at a place.
fn push_column(
    line: &mut String,
    key: usize,
    place: usize,
    column: &Column,
) -> Result<(), AllocError>
    ensures { OnOk result (string_bytes line.new ≡ string_bytes line.old ++ column_text key place column.now) }
{
    line.push_str(before(place))?;
    line.push_str(column.name.as_str())?;
    line.push_str(type_text(column.kind))?;
    line.push_str(behind(place, key))
}

/// What stands before the column at a place.
fn before(place: usize) -> &'static str
    ensures { result.now ≡ (if place == 0 then [] else codes ", ") }
{
    if place == 0 { "" } else { ", " }
}

/// What stands behind the column at a place, where another place is the key's.
fn behind(place: usize, key: usize) -> &'static str
    ensures { result.now ≡ (if place == key then codes " KEY" else []) }
{
    if place == key { " KEY" } else { "" }
}

fn type_text(kind: ColumnType) -> &'static str
    ensures { result.now ≡ type_text kind }
{
    match kind {
        ColumnType::Int => " INT",
        ColumnType::Text => " TEXT",
    }
}

/// The name of the table of a file: that of the file without its folder and its ending, where that is a name, else T.
pub fn table_name(alloc: Global, file: &str) -> Result<Text, AllocError>
    ensures { IfOk result (λ name. name ≡ table_name file.now) }
{
    let Some(stem) = Path::new(file).file_stem() else {
        return Text::copied(alloc, "T");
    };
    match name_of(alloc, stem)? {
        Some(name) => Ok(name),
        None => Text::copied(alloc, "T"),
    }
}

/// The script that declares the table of this line, loads so many parts, and reports the query.
pub fn script_of(
    alloc: Global,
    line: &str,
    count: usize,
    query: &str,
) -> Result<Vec<u8>, AllocError>
    ensures { IfOk result (λ script. script.items ≡ script_of line.now count query.now) }
{
    let mut script = line.as_bytes().to_vec(alloc)?;
    script.push(b'\n')?;
    push_load(alloc, &mut script, count)?;
    script.extend_from_slice(b"\npublish\nreport ")?;
    push_one_line(&mut script, query.as_bytes())?;
    script.push(b'\n')?;
    Ok(script)
}

/// Adds the line that loads so many parts.
fn push_load(alloc: Global, script: &mut Vec<u8>, count: usize) -> Result<(), AllocError>
    ensures { OnOk result (script.new.items ≡ script.old.items ++ load_line count) }
{
    script.extend_from_slice(b"load")?;
    for place in 0..count {
        let number = u128::from(place as u64) + 1;
        let text = format!(in alloc; " {number}")?;
        script.extend_from_slice(text.as_bytes())?;
    }
    Ok(())
}

/// Adds a text as one line.
fn push_one_line(script: &mut Vec<u8>, text: &[u8]) -> Result<(), AllocError>
    ensures { OnOk result (script.new.items ≡ script.old.items ++ one_line text.now) }
{
    for byte in text {
        script.push(on_one_line(*byte))?;
    }
    Ok(())
}

/// A blank for the end of a line.
fn on_one_line(byte: u8) -> u8
    ensures { result ≡ (if byte == 10 || byte == 13 then 32 else byte) }
{
    match byte {
        b'\n' => b' ',
        b'\r' => b' ',
        byte => byte,
    }
}
