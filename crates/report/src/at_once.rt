//! Reports that are answered in the caller's thread, and written at once.
ghost use Rattle.std.specs.Prelude.{◌≡◌, ◌+◌, ◌<◌, ◌^◌, IsErrOf};
ghost use Rattle.report.specs.Waiting.{Heads, WritesAll};
ghost use Rattle.report.specs.declared.unwritten.Unwritten.TheVariants as unwritten;
ghost use Rattle.report.specs.declared.want.Want.{Want as Wanted};

use crate::answering::Answering;
use crate::out::{Out, write_whole};
use crate::question::Question;
use crate::unwritten::Unwritten;
use board::Snapshot;
use cells::{Cell, KeyHash, Tuple};
use crew::Gate;
use std::sync::Wait;
use std::thread::Threads;

impl<'a, R: Threads + Wait + Sync, G: Gate> Answering<'a, R, G> {
    /// Answers the report of the line of this number in the thread that calls, and writes the heading and then the answer.
    /// The workers of the report have ended when this returns.
    ///
    /// It wants a worker where the thread of one can't be started, and memory where a growth was refused: then nothing was
    /// written.
    pub fn write<H: KeyHash<Cell> + KeyHash<Tuple> + Send + Sync, O: Out>(
        &self,
        out: &mut O,
        line: u64,
        heading: &[u8],
        snapshot: &Snapshot<H>,
        question: &Question,
    ) -> Result<(), Unwritten>
        requires { O.faults out.old + 1 < 2 ^ 64 }
        ensures whole { WritesAll O.taken O.faults out.old out.new (Heads heading.now snapshot.now question.now) result }
        ensures wanting { (wanted : Wanted) → IsErrOf result (unwritten.Want wanted) → O.taken out.new ≡ O.taken out.old }
    {
        let answer = self.text(line, snapshot, question)?;
        let Ok(()) = write_whole(out, heading) else {
            return Err(Unwritten::WriteFailed);
        };
        let Ok(()) = write_whole(out, answer.as_slice()) else {
            return Err(Unwritten::WriteFailed);
        };
        Ok(())
    }
}
