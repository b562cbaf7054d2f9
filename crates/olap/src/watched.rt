//! Standard output, of which it is noted that nobody reads it any more, and what is not told then.

use std::io::{self, ErrorKind, Write};
use std::sync::atomic::AtomicBool;
use std::sync::atomic::Ordering::SeqCst;

/// A writer that notes where its reader has gone.
#[derive(Drop)]
pub struct Watched<'c, W> {
    writer: W,
    is_closed: &'c AtomicBool,
}

impl<'c, W> Watched<'c, W> {
    /// The writer, and where it is noted.
    pub fn new(writer: W, is_closed: &'c AtomicBool) -> Watched<'c, W> {
        Watched { writer, is_closed }
    }

    /// Where it is noted.
    pub fn is_closed(&self) -> &'c AtomicBool {
        self.is_closed
    }
}

impl<'c, W: Write> Write for Watched<'c, W> {
    ghost contents = { λ w. W.contents w.writer };

    fn write(&mut self, bytes: &[u8]) -> io::Result<usize> {
        let written = self.writer.write(bytes);
        if let Err(error) = &written {
            if error.kind() == ErrorKind::BrokenPipe {
                self.is_closed.store(true, SeqCst);
            }
        }
        written
    }

    fn flush(&mut self) -> io::Result<()> {
        self.writer.flush()
    }
}

/// A writer that hands on what it is given, unless that is noted: then it lets it go.
#[derive(Drop)]
pub struct Unless<'a, 'c, E> {
    err: &'a mut E,
    is_closed: &'c AtomicBool,
}

impl<'a, 'c, E> Unless<'a, 'c, E> {
    /// The writer, and where it is noted.
    pub fn new(err: &'a mut E, is_closed: &'c AtomicBool) -> Unless<'a, 'c, E> {
        Unless { err, is_closed }
    }
}

impl<'a, 'c, E: Write> Write for Unless<'a, 'c, E> {
    fn write(&mut self, bytes: &[u8]) -> io::Result<usize> {
        if self.is_closed.load(SeqCst) {
            return Ok(bytes.len());
        }
        self.err.write(bytes)
    }

    fn flush(&mut self) -> io::Result<()> {
        self.err.flush()
    }
}
