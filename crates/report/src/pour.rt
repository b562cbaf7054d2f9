//! A writer of any kind, with its faults counted.
ghost use Rattle.std.specs.Prelude.{◌≡◌};

use crate::out::{Out, OutFault};
use std::io::Write;

/// An [`Out`] of any writer, which is flushed after each piece, so that what was taken is seen at once. An answer of 0 for a
/// piece that has bytes, and every error, is a fault. No call is made again. It tells its bytes where its writer does.
#[derive(Drop)]
pub struct Pour<W: Write> {
    writer: W,
    faults: u64,
}

impl<W: Write> Pour<W> {
    /// Nothing has failed so far.
    pub fn new(writer: W) -> Pour<W>
        ensures taken { ⟦<Pour<W> as Out>⟧.taken result ≡ W.contents writer }
        ensures faults { ⟦<Pour<W> as Out>⟧.faults result ≡ 0 }
    {
        Pour { writer, faults: 0 }
    }

    /// The writer, with what it has taken.
    pub fn into_inner(self) -> W
        ensures { W.contents result ≡ ⟦<Pour<W> as Out>⟧.taken self }
    {
        let Pour { writer, faults: _ } = self;
        writer
    }
}

#[tactic(auto, using(crate::specs::Laws::takes_none, crate::specs::Laws::takes_front))]
impl<W: Write> Out for Pour<W> {
    ghost taken = { λ p. W.contents p.writer };

    ghost faults = { λ p. p.faults };

    fn write(&mut self, bytes: &[u8]) -> Result<usize, OutFault> {
        let Ok(n) = self.writer.write(bytes) else {
            self.faults += 1;
            return Err(OutFault);
        };
        if n == 0 && !bytes.is_empty() {
            self.faults += 1;
            return Err(OutFault);
        }
        if self.writer.flush().is_err() {
            self.faults += 1;
            return Err(OutFault);
        }
        Ok(n)
    }
}
