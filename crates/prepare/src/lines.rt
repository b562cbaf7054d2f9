//! Records written as lines of CSV.
ghost use Rattle.std.specs.Prelude.{◌≡◌, ◌++◌, [], OnOk, IfOk, map};
ghost use Rattle.csv.specs.Writing.{default_writer, row_text};

use csv::{Writer, WriterBuilder};
use std::alloc::{AllocError, Global};
use std::marker::Model;

/// A writer of records into memory, seen as the text that it wrote.
#[derive(Drop)]
pub(crate) struct Lines {
    writer: Writer<Vec<u8>>,
    failed: bool,
}

impl Model for Lines {
    ghost use Rattle.std.specs.Prelude.{◌≡◌, List, ℕ, false};
    ghost use Rattle.prepare.specs.Lines.{IsBetween, written};

    ghost Value = { List ℕ };

    ghost view = { λ l. written l.writer };

    ghost invariant = { λ l. l.failed ≡ false → IsBetween l.writer };
}

impl Lines {
    /// One that wrote nothing.
    pub(crate) fn new(alloc: Global) -> Lines
        ensures { result ≡ [] }
    {
        let writer = WriterBuilder::new().from_writer(Vec::new(alloc));
        Lines {
            writer,
            failed: false,
        }
    }

    /// Writes a record of these fields. The only error is that a growth was refused, and each later call then has it, too.
    pub(crate) fn push(&mut self, fields: &[&[u8]]) -> Result<(), AllocError>
        ensures { OnOk result (self.new ≡ self.old ++ row_text default_writer (map (λ f. f.now) fields.now)) }
    {
        if self.failed {
            return Err(AllocError);
        }
        // Records of one length, written into memory, fail for want of memory alone.
        if self.writer.write_fields(fields).is_ok() {
            return Ok(());
        }
        self.failed = true;
        Err(AllocError)
    }

    /// What was written. The only error is that a growth was refused.
    pub(crate) fn into_text(self) -> Result<Vec<u8>, AllocError>
        ensures { IfOk result (λ text. text.items ≡ self) }
    {
        match self.writer.into_inner() {
            Ok(text) => Ok(text),
            Err(_) => Err(AllocError),
        }
    }
}
