//! Writers that may take a part of what they are given, and the one loop that writes.
ghost use Rattle.std.specs.Prelude.{◌≡◌, ℕ, ◌+◌, ◌<◌, ◌≤◌, ◌^◌, [], List, Option, IfErr, IfOk, OnErr, OnOk, length, take};
ghost use Rattle.std.specs.Io.KnownBytes.{Appends};
ghost use Rattle.report.specs.Taken.{TakesBeginning};

use cells::Refused;

/// A write that failed.
#[derive(Clone, Copy, Debug, PartialEq, Eq, Drop)]
pub struct OutFault;

/// A writer that may take a part of what it is given, and may fail.
pub trait Out {
    /// The bytes taken so far, where the writer tells them.
    ghost taken: { Self → Option (List ℕ) };

    /// How many writes have failed so far.
    ghost faults: { Self → ℕ };

    /// Takes a beginning of the bytes: at `Ok(n)` exactly the first n, and one or more where there are
    /// any. At [`OutFault`], which is one fault more, a part from the beginning, perhaps none of it or
    /// all. Fewer than `u64::MAX` writes may have failed before.
    fn write(&mut self, bytes: &[u8]) -> Result<usize, OutFault>
        requires { faults self.old + 1 < 2 ^ 64 }
        ensures within { IfOk result (λ n. n ≤ length bytes.now) }
        ensures some { IfOk result (λ n. 0 < length bytes.now → 0 < n) }
        ensures taken { IfOk result (λ n. Appends (taken self.old) (taken self.new) (take n bytes.now)) }
        ensures sound { OnOk result (faults self.new ≡ faults self.old) }
        ensures beginning { OnErr result (TakesBeginning (taken self.old) (taken self.new) bytes.now) }
        ensures fault { OnErr result (faults self.new ≡ faults self.old + 1) };
}

/// Has the writer take all the bytes, in order and each once, in as many calls as it wants. No bytes
/// make no call.
///
/// [`Refused::WriteFailed`] exactly where a write fails: then a beginning of the bytes was taken, and
/// no call follows the one that failed.
#[tactic(auto, using(crate::specs::Laws::takes_whole))]
pub fn write_whole<O: Out>(out: &mut O, bytes: &[u8]) -> Result<(), Refused>
    requires { O.faults out.old + 1 < 2 ^ 64 }
    ensures whole { OnOk result (Appends (O.taken out.old) (O.taken out.new) bytes.now) }
    ensures sound { OnOk result (O.faults out.new ≡ O.faults out.old) }
    ensures only { IfErr result (λ e. e ≡ Refused.WriteFailed) }
    ensures fault { OnErr result (O.faults out.new ≡ O.faults out.old + 1) }
    ensures beginning { OnErr result (TakesBeginning (O.taken out.old) (O.taken out.new) bytes.now) }
    ensures nothing { bytes.now ≡ [] → out.new ≡ out.old }
{
    let mut rest = bytes;
    while !rest.is_empty() {
        let Ok(n) = out.write(rest) else {
            return Err(Refused::WriteFailed);
        };
        rest = &rest[n..];
    }
    Ok(())
}
