//! The lines of a script and the words of a line.
ghost use Rattle.std.specs.Prelude.{◌==◌, ◌≡◌, ◌∷◌, ◌<◌, [], IfOk, IfSome, length, map};
ghost use Rattle.std.specs.List.{after_first, before_first, position};
ghost use Rattle.std.specs.Option.{option_map_or};
ghost use Rattle.std.specs.Str.Lines.{strip_carriage_return};
ghost use Rattle.reasons.specs.Books.{between_ends, line_numbered};

use std::alloc::{AllocError, Global};

/// What stands between the line feeds of a script: its lines, each with the carriage return before its line feed, and
/// behind the last line feed what is left, which may be nothing.
pub fn lines_of(alloc: Global, script: &[u8]) -> Result<Vec<&[u8]>, AllocError>
    ensures { IfOk result (λ lines. map (λ l. l.now) lines.items ≡ between_ends script.now) }
{
    let mut lines = Vec::new(alloc);
    let mut left = Some(script);
    while let Some(text) = left {
        let (line, rest) = first_line(text);
        lines.push(line)?;
        left = rest;
    }
    Ok(lines)
}

/// What stands before the first line feed, and what follows it, where there is one.
#[tactic(auto, using(crate::proofs::LinesLemmas::first_end, crate::proofs::LinesLemmas::no_end))]
fn first_line(text: &[u8]) -> (&[u8], Option<&[u8]>)
    ensures lines { between_ends text.now ≡ result.0.now ∷ option_map_or (λ rest. between_ends rest.now) result.1 [] }
    ensures shorter { IfSome result.1 (λ rest. length rest.now < length text.now) }
{
    match end_at(text) {
        Some(at) => (&text[..at], Some(&text[at + 1..])),
        None => (text, None),
    }
}

/// The place of the first line feed.
fn end_at(text: &[u8]) -> Option<usize>
    ensures place { result ≡ position (λ b. b == 10) text.now }
    ensures within { IfSome result (λ at. at < length text.now) }
{
    text.iter().position(|byte| *byte == b'\n')
}

/// The line of this number, counted from 1, without the carriage return before its line feed. A last line keeps its
/// own, and a line that is not there is empty.
pub fn line_at<'a>(lines: &[&'a [u8]], number: u64) -> &'a [u8]
    ensures { result.now ≡ line_numbered (map (λ l. l.now) lines.now) number }
{
    if number == 0 {
        return &[];
    }
    if number > lines.len() as u64 {
        return &[];
    }
    let line = lines[number as usize - 1];
    if number == lines.len() as u64 {
        return line;
    }
    without_return(line)
}

/// The line without one carriage return at its end.
fn without_return(line: &[u8]) -> &[u8]
    ensures { result.now ≡ strip_carriage_return line.now }
{
    match line {
        [front @ .., b'\r'] => front,
        _ => line,
    }
}

/// The command word of a line and what follows its first space, which may be nothing.
pub fn command_of(text: &str) -> (&str, &str)
    ensures word { result.0.now ≡ before_first (λ b. b == 32) text.now }
    ensures rest { result.1.now ≡ after_first (λ b. b == 32) text.now }
{
    match text.split_once(' ') {
        Some(parts) => parts,
        None => (text, ""),
    }
}
