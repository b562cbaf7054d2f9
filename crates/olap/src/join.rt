//! The command `join`: partial answers of shards, joined to the output of their script, or to one partial answer.
ghost use Rattle.std.specs.Prelude.{◌≡◌, ◌⊎◌, ◌∷◌, [], IfOk, IfSome, OnOk, map, string_bytes};
ghost use Rattle.std.specs.Io.Buffered.{writer_buffer, writer_contents};
ghost use Rattle.std.specs.Io.KnownBytes.{Appends, Keeps};
ghost use Rattle.script.specs.Endings.{Writes};
ghost use Rattle.olap.specs.Partials.{AskAndLeave, AskForJoinHelp, AskToReplace, IsJointOf, IsOutputOfTold, IsWrittenAs, Leaves, OfText, OfTexts, IsAnswerIn};

use crate::close::{NOTHING_RUN, WRITTEN, close_run, end_early};
use crate::input::{Folder, Unreadable};
use crate::plain::say;
use crate::program::{cannot_read, refuse};
use crate::written::{Untaken, Writable, cannot_write, may_not_write};
use cells::{Fnv, Text};
use command::shard_words::{JoinJob, join_job};
use forms::Form;
use report::{Out, Pour, write_whole};
use script::{Ended, MAX_SCRIPT_BYTES, Manner};
use shards::{Document, Incomplete, Unjoined, Unread};
use std::alloc::Global;
use std::io::{BufWriter, Write};

/// Joins the partial answers that the words after `join` name, and gives the program's status and the writer back. The output of
/// their script goes to `out`, and so does help; where the words name a file for it, the joint partial answer goes to that file.
/// Why there is neither goes to `err`.
///
/// At 0 all was written, or help was. At 2 nothing was: the words are refused, the file would take the place of what is no regular
/// file, a file can't be read or does not fit, or a shard is missing. At 3 memory was refused, or the writing failed. The file that is
/// written may be one of those that are read.
pub fn join_files<F: Folder, S: Writable, W: Write + Drop, E: Write>(
    alloc: Global,
    words: &[String],
    folder: &F,
    files: &mut S,
    out: BufWriter<W>,
    err: &mut E,
) -> (u8, BufWriter<W>)
    ensures status { (result.0 ≡ 0) ⊎ ((result.0 ≡ 2) ⊎ (result.0 ≡ 3)) }
    ensures left { result.0 ≡ 0 → AskForJoinHelp (map string_bytes words.now)
        ⊎ AskAndLeave (F.file folder.now) (S.writes files.old files.new)
        (λ IsWhole. Writes IsWhole (writer_contents W.contents out) (writer_contents W.contents result.1)) (map string_bytes words.now) }
    ensures flushed { result.0 ≡ 0 → (writer_buffer out ≡ []) → writer_buffer result.1 ≡ [] }
    ensures unwritten { result.0 ≡ 2 → files.new ≡ files.old }
    ensures spared { (files.new ≡ files.old) ⊎ AskToReplace (S.may_take files.old) (map string_bytes words.now) }
    ensures nothing { result.0 ≡ 2 → Keeps (writer_contents W.contents out) (writer_contents W.contents result.1) }
{
    match join_job(alloc, words) {
        Ok(job) => run_join(alloc, &job, folder, files, out, err),
        Err(fault) => refuse(&fault, out, err),
    }
}

/// Joins the files of a job, as [`join_files`] does.
fn run_join<F: Folder, S: Writable, W: Write + Drop, E: Write>(
    alloc: Global,
    job: &JoinJob,
    folder: &F,
    files: &mut S,
    out: BufWriter<W>,
    err: &mut E,
) -> (u8, BufWriter<W>)
    ensures status { (result.0 ≡ 0) ⊎ ((result.0 ≡ 2) ⊎ (result.0 ≡ 3)) }
    ensures left { result.0 ≡ 0 → Leaves (F.file folder.now) (S.writes files.old files.new)
        (λ IsWhole. Writes IsWhole (writer_contents W.contents out) (writer_contents W.contents result.1)) job.now job.now.partials }
    ensures flushed { result.0 ≡ 0 → (writer_buffer out ≡ []) → writer_buffer result.1 ≡ [] }
    ensures unwritten { result.0 ≡ 2 → files.new ≡ files.old }
    ensures spared { (files.new ≡ files.old) ⊎ IfSome job.now.partials (λ name. S.may_take files.old name []) }
    ensures nothing { result.0 ≡ 2 → Keeps (writer_contents W.contents out) (writer_contents W.contents result.1) }
{
    if let Err(fault) = look(job, &*files) {
        return (refuse_file(fault, err), out);
    }
    join_looked_at(alloc, job, folder, files, out, err)
}

/// Looks whether the file may be written that a job names, where it names one.
fn look<'j, S: Writable>(job: &'j JoinJob, files: &S) -> Result<(), FileFault<'j>>
    ensures { OnOk result (IfSome job.now.partials (λ name. S.may_take files.now name [])) }
{
    let Some(name) = &job.partials else {
        return Ok(());
    };
    match files.look(name.as_str(), &[]) {
        Ok(()) => Ok(()),
        Err(why) => Err(FileFault::Untaken(name.as_str(), why)),
    }
}

/// Joins the files of a job, once it is known that the one that it names may be written.
fn join_looked_at<F: Folder, S: Writable, W: Write + Drop, E: Write>(
    alloc: Global,
    job: &JoinJob,
    folder: &F,
    files: &mut S,
    out: BufWriter<W>,
    err: &mut E,
) -> (u8, BufWriter<W>)
    ensures status { (result.0 ≡ 0) ⊎ ((result.0 ≡ 2) ⊎ (result.0 ≡ 3)) }
    ensures left { result.0 ≡ 0 → Leaves (F.file folder.now) (S.writes files.old files.new)
        (λ IsWhole. Writes IsWhole (writer_contents W.contents out) (writer_contents W.contents result.1)) job.now job.now.partials }
    ensures flushed { result.0 ≡ 0 → (writer_buffer out ≡ []) → writer_buffer result.1 ≡ [] }
    ensures unwritten { result.0 ≡ 2 → files.new ≡ files.old }
    ensures nothing { result.0 ≡ 2 → Keeps (writer_contents W.contents out) (writer_contents W.contents result.1) }
{
    let joint = match joint_answer(alloc, folder, &job.first, job.others.as_slice()) {
        Ok(joint) => joint,
        Err(fault) => return (refuse_file(fault, err), out),
    };
    match &job.partials {
        Some(name) => (write_joint(alloc, &joint, name.as_str(), files, err), out),
        None => write_output(alloc, joint, job.form, out, err),
    }
}

/// A file that can't be joined to those before it, or may not be written.
#[derive(Clone, Copy, Drop)]
enum FileFault<'n> {
    /// It can't be read.
    Unreadable(Unreadable<'n>),
    /// It is no partial answer.
    Unread(&'n str, Unread),
    /// It does not fit those before it.
    Unjoined(&'n str, Unjoined),
    /// It is to be written, and would take another thing's place.
    Untaken(&'n str, Untaken),
}

/// The joint partial answer of the files of these names.
fn joint_answer<'n, F: Folder>(
    alloc: Global,
    folder: &F,
    first: &'n Text,
    others: &'n [Text],
) -> Result<Document, FileFault<'n>>
    ensures { IfOk result (λ it. OfTexts (F.file folder.now) (first.now ∷ others.now) (λ texts. IsJointOf texts it)) }
{
    let mut joint = answer_of(alloc, folder, first)?;
    for name in others {
        let next = answer_of(alloc, folder, name)?;
        joint = match shards::join::<Fnv>(alloc, joint, next) {
            Ok(both) => both,
            Err(why) => return Err(FileFault::Unjoined(name.as_str(), why)),
        };
    }
    Ok(joint)
}

/// The partial answer that a file holds.
fn answer_of<'n, F: Folder>(
    alloc: Global,
    folder: &F,
    name: &'n Text,
) -> Result<Document, FileFault<'n>>
    ensures { IfOk result (λ it. OfText (F.file folder.now name.now) (λ text. IsAnswerIn text it)) }
{
    let name = name.as_str();
    let text = match folder.read(name) {
        Ok(text) => text,
        Err(why) => return Err(FileFault::Unreadable(Unreadable { name, why })),
    };
    match shards::read(alloc, text.as_slice()) {
        Ok(answer) => Ok(answer),
        Err(why) => Err(FileFault::Unread(name, why)),
    }
}

/// Writes the joint partial answer to the file of this name, and gives the program's status.
fn write_joint<S: Writable, E: Write>(
    alloc: Global,
    joint: &Document,
    name: &str,
    files: &mut S,
    err: &mut E,
) -> u8
    ensures status { (result ≡ 0) ⊎ (result ≡ 3) }
    ensures written { result ≡ 0 → IsWrittenAs (S.writes files.old files.new name.now) joint.now }
{
    let Ok(text) = shards::write(alloc, joint) else {
        return end_early(Ended::OutOfMemory, err);
    };
    match files.write(name, text.as_slice()) {
        Ok(()) => WRITTEN,
        Err(why) => cannot_write(name, why, err),
    }
}

/// Writes the output of a script of which all shards have told, and gives the program's status and the writer back.
fn write_output<W: Write + Drop, E: Write>(
    alloc: Global,
    joint: Document,
    form: Form,
    out: BufWriter<W>,
    err: &mut E,
) -> (u8, BufWriter<W>)
    ensures status { (result.0 ≡ 0) ⊎ ((result.0 ≡ 2) ⊎ (result.0 ≡ 3)) }
    ensures written { result.0 ≡ 0 → Writes (IsOutputOfTold form joint) (writer_contents W.contents out) (writer_contents W.contents result.1) }
    ensures flushed { result.0 ≡ 0 → writer_buffer result.1 ≡ [] }
    ensures nothing { result.0 ≡ 2 → Keeps (writer_contents W.contents out) (writer_contents W.contents result.1) }
{
    let manner = Manner::of(alloc, form);
    let text = match shards::output::<Fnv>(alloc, joint, &manner) {
        Ok(text) => text,
        Err(why) => return (refuse_answer(why, err), out),
    };
    let mut pour = Pour::new(out);
    let ended = pour_text(&mut pour, text.as_slice());
    let mut out = pour.into_inner();
    let status = close_run(ended, &mut out, err);
    (status, out)
}

/// Has the writer take a text, whole.
fn pour_text<W: Write + Drop>(pour: &mut Pour<BufWriter<W>>, text: &[u8]) -> Result<(), Ended>
    requires { ⟦<Pour<BufWriter<W>> as Out>⟧.faults pour.old ≡ 0 }
    ensures { OnOk result (Appends (⟦<Pour<BufWriter<W>> as Out>⟧.taken pour.old) (⟦<Pour<BufWriter<W>> as Out>⟧.taken pour.new) text.now) }
{
    match write_whole(pour, text) {
        Ok(()) => Ok(()),
        Err(_) => Err(Ended::WriteFailed),
    }
}

/// Says which file does not fit, and why.
fn refuse_file<E: Write>(fault: FileFault<'_>, err: &mut E) -> u8
    ensures { (result ≡ 2) ⊎ (result ≡ 3) }
{
    match fault {
        FileFault::Unreadable(unread) => cannot_read(unread, err),
        FileFault::Unread(name, why) => refuse_text(name, why, err),
        FileFault::Unjoined(name, why) => refuse_next(name, why, err),
        FileFault::Untaken(name, why) => may_not_write(name, why, err),
    }
}

/// Says why a file is no partial answer.
fn refuse_text<E: Write>(name: &str, why: Unread, err: &mut E) -> u8
    ensures { (result ≡ 2) ⊎ (result ≡ 3) }
{
    let why = match why {
        Unread::OutOfMemory => return end_early(Ended::OutOfMemory, err),
        Unread::OfAnotherKind => "it is no partial answer of this version",
        Unread::Spoilt => "it is spoilt: its check sum differs, or it ends too soon",
        Unread::Malformed => "its check sum is right, but not its form",
    };
    say(err, format_args!("olap: {name}: {why}"));
    NOTHING_RUN
}

/// Says why a partial answer does not fit those before it.
fn refuse_next<E: Write>(name: &str, why: Unjoined, err: &mut E) -> u8
    ensures { (result ≡ 2) ⊎ (result ≡ 3) }
{
    let why = match why {
        Unjoined::OutOfMemory => return end_early(Ended::OutOfMemory, err),
        Unjoined::OtherScript => "it is of another script than the files before it",
        Unjoined::OtherDivision => {
            "--own-parts was given for it and not for the files before it, or the other way round"
        }
        Unjoined::OtherCount => {
            "its table has another number of shards than that of the files before it"
        }
        Unjoined::Unfit => "what it tells does not fit what the files before it tell",
        Unjoined::Twice { shard } => {
            say(
                err,
                format_args!("olap: {name}: shard {shard} is in a file before it, too"),
            );
            return NOTHING_RUN;
        }
    };
    say(err, format_args!("olap: {name}: {why}"));
    NOTHING_RUN
}

/// Says why there is no output.
fn refuse_answer<E: Write>(why: Incomplete, err: &mut E) -> u8
    ensures { (result ≡ 2) ⊎ (result ≡ 3) }
{
    let _ = match why {
        Incomplete::OutOfMemory => return end_early(Ended::OutOfMemory, err),
        Incomplete::Missing { shard } => writeln!(err, "olap: shard {shard} is missing"),
        Incomplete::Unfit => writeln!(err, "olap: what is told does not fit the script"),
        Incomplete::TooLong => {
            writeln!(
                err,
                "olap: the script has more than {MAX_SCRIPT_BYTES} bytes"
            )
        }
    };
    NOTHING_RUN
}
