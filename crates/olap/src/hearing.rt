//! Lines of standard input, heard one after another.
ghost use Rattle.std.specs.Prelude.{◌≡◌, ◌==◌, ◌≤◌, ◌+◌, ◌++◌, ◌<◌, [], IfOk, IfSome, OnOk, length};
ghost use Rattle.std.specs.Io.Buffered.{writer_buffer};
ghost use Rattle.std.specs.List.{position};
ghost use Rattle.olap.specs.Hearing.{HearsNext, IsCut, TakesPiece, closed, kept};
ghost use Rattle.script.specs.Limits.{script_limit};

use crate::replies::Replies;
use script::MAX_SCRIPT_BYTES;
use std::alloc::{AllocError, Global};
use std::io::{self, BufRead, ErrorKind, Write};

/// The most bytes that are heard of a line: one more than it may have, so that a longer one is known.
const MOST_HEARD: usize = MAX_SCRIPT_BYTES + 1;

/// The most bytes that are kept of a line until its end is met.
const MOST_KEPT: usize = MOST_HEARD + 1;

/// Hears the lines of a reader.
#[derive(Drop)]
pub struct Hearing<B> {
    reader: B,
    line: Vec<u8>,
}

/// What is met after a piece of a line.
#[derive(Clone, Copy, Drop)]
enum Met {
    /// More of the line.
    More,
    /// Its line feed.
    LineEnd,
    /// The end of the input.
    InputEnd,
}

/// The first piece of the bytes that are at hand.
#[derive(Clone, Copy, Drop)]
struct Cut {
    /// How many bytes the piece has.
    piece: usize,
    /// How many are used up, with its line feed.
    used: usize,
    /// What is met after it.
    met: Met,
}

impl<B: BufRead> Hearing<B> {
    /// Nothing was heard of the reader yet.
    pub fn new(alloc: Global, reader: B) -> Hearing<B>
        ensures { result.reader ≡ reader }
    {
        Hearing {
            reader,
            line: Vec::new(alloc),
        }
    }

    /// The line that was heard last.
    pub fn line(&self) -> &[u8]
        ensures { result.now ≡ self.now.line.items }
    {
        self.line.as_slice()
    }

    /// Hears the next line, and answers whether there is one.
    pub fn next_line<W: Write + Drop>(&mut self, _replies: &Replies<W>) -> io::Result<bool>
        requires { writer_buffer _replies.now.writer ≡ [] }
        ensures { IfOk result (λ some. HearsNext (B.remaining self.old.reader) some self.new.line.items (B.remaining self.new.reader)) }
    {
        self.line.clear();
        for _ in 0..u64::MAX {
            match take_piece(&mut self.reader, &mut self.line)? {
                Met::More => {}
                Met::LineEnd => {
                    close_line(&mut self.line);
                    return Ok(true);
                }
                Met::InputEnd => {
                    self.line.truncate(MOST_HEARD);
                    return Ok(!self.line().is_empty());
                }
            }
        }
        // (No line comes in so many pieces.)
        Err(ErrorKind::Other.into())
    }
}

/// Takes what the reader has at hand of a line, and keeps it.
fn take_piece<B: BufRead>(reader: &mut B, line: &mut Vec<u8>) -> io::Result<Met>
    requires { length line.old.items ≤ script_limit + 2 }
    ensures { IfOk result (TakesPiece (B.remaining reader.old) (B.remaining reader.new) line.old.items line.new.items) }
{
    let available = match reader.fill_buf() {
        Ok(available) => available,
        Err(error) => {
            return if error.kind() == ErrorKind::Interrupted {
                Ok(Met::More)
            } else {
                Err(error)
            };
        }
    };
    let cut = first_piece(available);
    keep(line, &available[..cut.piece])?;
    reader.consume(cut.used);
    Ok(cut.met)
}

/// The first piece of a line that these bytes have.
fn first_piece(bytes: &[u8]) -> Cut
    ensures piece { result.piece ≤ length bytes.now }
    ensures cut { IsCut bytes.now result.piece result.used result.met }
{
    if bytes.is_empty() {
        return Cut {
            piece: 0,
            used: 0,
            met: Met::InputEnd,
        };
    }
    match line_end(bytes) {
        Some(at) => Cut {
            piece: at,
            used: at + 1,
            met: Met::LineEnd,
        },
        None => Cut {
            piece: bytes.len(),
            used: bytes.len(),
            met: Met::More,
        },
    }
}

/// The place of the first line feed.
fn line_end(bytes: &[u8]) -> Option<usize>
    ensures place { result ≡ position (λ b. b == 10) bytes.now }
    ensures within { IfSome result (λ at. at < length bytes.now) }
{
    bytes.iter().position(|byte| *byte == b'\n')
}

/// Keeps a piece of a line, as far as there is room for it.
fn keep(line: &mut Vec<u8>, piece: &[u8]) -> Result<(), AllocError>
    requires { length line.old.items ≤ script_limit + 2 }
    ensures { OnOk result (line.new.items ≡ kept (line.old.items ++ piece.now)) }
{
    let room = MOST_KEPT - line.len();
    line.extend_from_slice(&piece[..room.min(piece.len())])?;
    Ok(())
}

/// Leaves what is heard of a line that has a line feed.
fn close_line(line: &mut Vec<u8>)
    ensures { line.new.items ≡ closed line.old.items }
{
    if line.len() > MOST_HEARD {
        line.truncate(MOST_HEARD);
    } else if line.last() == Some(&b'\r') {
        line.pop();
    }
}
