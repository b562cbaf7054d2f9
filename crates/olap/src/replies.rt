//! A writer of replies, which keeps them until it is told that they are wanted.
ghost use Rattle.std.specs.Prelude.{◌≡◌, [], OnOk};
ghost use Rattle.std.specs.Io.Buffered.{writer_buffer, writer_contents};
ghost use Rattle.std.specs.Io.KnownBytes.{Keeps};

use report::{Out, OutFault};
use std::io::{BufWriter, Write};

/// An [`Out`] that gathers what it takes, and hands it on where it is flushed. No call is made again. It tells its bytes where
/// its writer does.
#[derive(Drop)]
pub struct Replies<W: Write + Drop> {
    writer: BufWriter<W>,
    faults: u64,
}

impl<W: Write + Drop> Replies<W> {
    /// Nothing has failed so far.
    pub fn new(writer: BufWriter<W>) -> Replies<W>
        ensures writer { result.writer ≡ writer }
        ensures faults { result.faults ≡ 0 }
    {
        Replies { writer, faults: 0 }
    }

    /// Hands on all that was taken.
    pub fn flush(&mut self) -> Result<(), OutFault>
        ensures handed_on { OnOk result (writer_buffer self.new.writer ≡ []) }
        ensures kept { Keeps (writer_contents W.contents self.old.writer) (writer_contents W.contents self.new.writer) }
        ensures faults { self.new.faults ≡ self.old.faults }
    {
        self.writer.flush().map_err(|_| OutFault)
    }

    /// The writer, with what it has taken.
    pub fn into_inner(self) -> BufWriter<W>
        ensures { result ≡ self.writer }
    {
        let Replies { writer, faults: _ } = self;
        writer
    }
}

#[tactic(auto, using(report::specs::Laws::takes_none, report::specs::Laws::takes_front))]
impl<W: Write + Drop> Out for Replies<W> {
    ghost taken = { λ r. writer_contents W.contents r.writer };

    ghost faults = { λ r. r.faults };

    fn write(&mut self, bytes: &[u8]) -> Result<usize, OutFault> {
        let Ok(n) = self.writer.write(bytes) else {
            self.faults += 1;
            return Err(OutFault);
        };
        if n == 0 && !bytes.is_empty() {
            self.faults += 1;
            return Err(OutFault);
        }
        Ok(n)
    }
}
