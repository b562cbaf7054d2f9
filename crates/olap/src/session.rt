//! The command `session`: its words, its parts, and what it tells on a terminal.
ghost use Rattle.std.specs.Prelude.{◌≡◌, ◌⊎◌, [], map, string_bytes};
ghost use Rattle.std.specs.Io.Buffered.{writer_buffer, writer_contents};
ghost use Rattle.std.specs.Io.KnownBytes.{Keeps};
ghost use Rattle.script.specs.Givens.{givens_in};
ghost use Rattle.script.specs.Hows.{hash_of_choice};
ghost use Rattle.olap.specs.Endings.{Ends, NoViewers};
ghost use Rattle.olap.specs.Talks.{EndsAsTalk, IsOfJob, IsTalk, IsTalkSoFar};

use crate::ask::read_files;
use crate::close::NOTHING_RUN;
use crate::input::Folder;
use crate::program::{cannot_read, refuse};
use crate::talk::{Holding, Prompt, hold};
use crate::tell::Screen;
use command::session_words::{SessionJob, session_job};
use crew::Gate;
use script::{MAX_PARTS, Manner};
use std::alloc::Global;
use std::io::{BufWriter, Read, Write};
use std::sync::Wait;
use std::thread::Threads;

/// Holds the session that the words after `session` ask for, over the parts that they name and the lines of the input, and
/// gives the program's status and the writer back. What the session writes goes to `out`, and so does help; why there is none,
/// or why it ended early, goes to `err`.
///
/// At 0 all lines of the input were answered, or help was written; at 1 a strict session has ended after a refused line; at 2
/// no line was read, since the words are refused, there are too many parts, or one can't be read; at 3 the session ended early, or the help could not
/// be written. Where standard input is a terminal, the standard error of `rt` has a prompt before each line, and tells of each publish.
pub fn converse<
    F: Folder,
    I: Read + Drop,
    W: Write + Drop,
    E: Write,
    R: Threads + Wait + Sync + Eprint + Screen,
>(
    rt: &R,
    alloc: Global,
    words: &[String],
    folder: &F,
    input: I,
    out: BufWriter<W>,
    err: &mut E,
) -> (u8, BufWriter<W>)
    ensures status { (result.0 ≡ 0) ⊎ ((result.0 ≡ 1) ⊎ ((result.0 ≡ 2) ⊎ (result.0 ≡ 3))) }
    ensures ends { EndsAsTalk (F.file folder.now) (I.remaining input) (map string_bytes words.now) result.0
        (writer_contents W.contents out) (writer_contents W.contents result.1) (writer_buffer result.1) }
    ensures flushed { (result.0 ≡ 0) ⊎ (result.0 ≡ 1) → writer_buffer result.1 ≡ [] }
    ensures nothing { result.0 ≡ 2 → Keeps (writer_contents W.contents out) (writer_contents W.contents result.1) }
{
    match session_job(alloc, words) {
        Ok(job) => with_parts(rt, alloc, &job, folder, input, out, err),
        Err(fault) => refuse(&fault, out, err),
    }
}

/// Reads the parts of a session, and holds it.
fn with_parts<
    F: Folder,
    I: Read + Drop,
    W: Write + Drop,
    E: Write,
    R: Threads + Wait + Sync + Eprint + Screen,
>(
    rt: &R,
    alloc: Global,
    job: &SessionJob,
    folder: &F,
    input: I,
    out: BufWriter<W>,
    err: &mut E,
) -> (u8, BufWriter<W>)
    ensures status { (result.0 ≡ 0) ⊎ ((result.0 ≡ 1) ⊎ ((result.0 ≡ 2) ⊎ (result.0 ≡ 3))) }
    ensures ends { Ends (λ finish. IsOfJob (F.file folder.now) job.now (IsTalk (I.remaining input) finish))
        (IsOfJob (F.file folder.now) job.now (IsTalkSoFar (I.remaining input))) NoViewers
        result.0 (writer_contents W.contents out) (writer_contents W.contents result.1) (writer_buffer result.1) }
{
    if job.parts.len() > MAX_PARTS {
        return (refuse_parts(job.parts.len(), err), out);
    }
    let parts = match read_files(alloc, folder, job.parts.as_slice()) {
        Ok(parts) => parts,
        Err(unread) => return (cannot_read(unread, err), out),
    };
    let gate = Prompting {
        rt,
        prompts: rt.hears_terminal(),
    };
    let manner = Manner::of(alloc, job.form);
    hold_job(
        rt,
        alloc,
        job,
        &manner,
        parts.as_slice(),
        &gate,
        input,
        out,
        err,
    )
}

/// Holds the session of a job over its parts.
fn hold_job<'a, I: Read + Drop, W: Write + Drop, E: Write, G: Prompt, R: Threads + Wait + Sync>(
    rt: &'a R,
    alloc: Global,
    job: &'a SessionJob,
    manner: &'a Manner,
    parts: &'a [Vec<u8>],
    gate: &'a G,
    input: I,
    out: BufWriter<W>,
    err: &mut E,
) -> (u8, BufWriter<W>)
    ensures status { (result.0 ≡ 0) ⊎ ((result.0 ≡ 1) ⊎ (result.0 ≡ 3)) }
    ensures ends { Ends (λ finish. IsTalk (I.remaining input) finish (hash_of_choice job.now.hash)
        (givens_in manner.now job.now.how.rows parts.now) job.now.on_refusal)
        (IsTalkSoFar (I.remaining input) (hash_of_choice job.now.hash) (givens_in manner.now job.now.how.rows parts.now) job.now.on_refusal) NoViewers
        result.0 (writer_contents W.contents out) (writer_contents W.contents result.1) (writer_buffer result.1) }
{
    let holding = Holding {
        rt,
        alloc,
        how: &job.how,
        parts,
        manner,
        on_refusal: job.on_refusal,
        gate,
    };
    hold(&holding, job.hash, input, out, err)
}

/// Says that there are too many parts.
fn refuse_parts<E: Write>(count: usize, err: &mut E) -> u8
    ensures { result ≡ 2 }
{
    let _ = write!(
        err,
        "error: at most {most} parts are read, and {count} were given\n\nFor more information, try '--help'.\n",
        most = MAX_PARTS
    );
    NOTHING_RUN
}

/// What a session tells of itself on standard error: nothing, unless it talks with somebody at a terminal.
#[derive(Drop)]
struct Prompting<'r, R> {
    rt: &'r R,
    prompts: bool,
}

impl<'r, R: Eprint + Sync> Gate for Prompting<'r, R> {
    fn published(&self, edition: u64, rows: u64) {
        if self.prompts {
            let _ = self
                .rt
                .eprintln(format_args!("olap: edition {edition}, rows {rows}"));
        }
    }
}

impl<'r, R: Eprint + Sync> Prompt for Prompting<'r, R> {
    fn ask(&self) {
        if self.prompts {
            let _ = self.rt.eprint("olap> ");
        }
    }
}
