//! The command `run --shard`: what one shard of the table tells of a script.
ghost use Rattle.std.specs.Prelude.{◌≡◌, ◌⊎◌, [], IfOk, OnOk, map, string_bytes};
ghost use Rattle.std.specs.Io.Buffered.{writer_buffer, writer_contents};
ghost use Rattle.std.specs.Io.KnownBytes.{Keeps};
ghost use Rattle.olap.specs.Partials.{AskForShardHelp, AskToSpare, AskToTell, IsShardAnswer, IsShardText, IsShardTold, IsSpared, IsTextWritten};

use crate::close::{NOTHING_RUN, WRITTEN, end_early};
use crate::input::{Folder, Input, Unread, Unreadable, read_named};
use crate::plain::say;
use crate::program::{cannot_read, refuse};
use crate::written::{Untaken, Writable, cannot_write, may_not_write};
use cells::Fnv;
use command::shard_words::{ShardJob, shard_job};
use script::{Ended, MAX_PARTS, MAX_SCRIPT_BYTES, OwnUntold, Untold};
use shards::{Division, Document};
use std::alloc::{AllocError, Global};
use std::io::{BufWriter, Write};
use std::{slice, str};

/// Tells of the shard that the words after `run` ask for, over the files that they name, writes that to the file that they name for
/// it, and gives the program's status and the writer back. Help goes to `out`, and else nothing; why nothing is told goes to `err`.
///
/// At 0 the file was written, or help was. At 2 nothing was: the words are refused, the file would take the place of one that is
/// read or of what is no regular file, a file can't be read, or the shard can't tell of the script. At 3 memory was refused, or the
/// file or the help can't be written.
pub fn run_shard<F: Folder, S: Writable, W: Write + Drop, E: Write>(
    alloc: Global,
    words: &[String],
    folder: &F,
    files: &mut S,
    out: BufWriter<W>,
    err: &mut E,
) -> (u8, BufWriter<W>)
    ensures status { (result.0 ≡ 0) ⊎ ((result.0 ≡ 2) ⊎ (result.0 ≡ 3)) }
    ensures told { result.0 ≡ 0 → AskForShardHelp (map string_bytes words.now)
        ⊎ AskToTell (F.file folder.now) (S.writes files.old files.new) (map string_bytes words.now) }
    ensures nothing { result.0 ≡ 2 → files.new ≡ files.old }
    ensures spared { (files.new ≡ files.old) ⊎ AskToSpare (S.may_take files.old) (map string_bytes words.now) }
    ensures silent { result.0 ≡ 2 → Keeps (writer_contents W.contents out) (writer_contents W.contents result.1) }
    ensures untouched { AskForShardHelp (map string_bytes words.now) ⊎ (result.1 ≡ out) }
    ensures flushed { result.0 ≡ 0 → (result.1 ≡ out) ⊎ (writer_buffer result.1 ≡ []) }
{
    match shard_job(alloc, words) {
        Ok(job) => (tell_job(alloc, &job, folder, files, err), out),
        Err(fault) => refuse(&fault, out, err),
    }
}

/// Tells of a shard over the files that the job names, as [`run_shard`] does.
fn tell_job<F: Folder, S: Writable, E: Write>(
    alloc: Global,
    job: &ShardJob,
    folder: &F,
    files: &mut S,
    err: &mut E,
) -> u8
    ensures status { (result ≡ 0) ⊎ ((result ≡ 2) ⊎ (result ≡ 3)) }
    ensures told { result ≡ 0 → IsShardTold (F.file folder.now) (S.writes files.old files.new) job.now }
    ensures nothing { result ≡ 2 → files.new ≡ files.old }
    ensures spared { (files.new ≡ files.old) ⊎ IsSpared (S.may_take files.old) job.now }
{
    if let Err(why) = look(job, &*files) {
        return may_not_write(job.partials.as_str(), why, err);
    }
    // Where there is no room for the parts, no file is read, and the first is named.
    let Ok(room) = Vec::with_capacity(alloc, job.run.parts.len()) else {
        let name = job.run.script.as_str();
        let why = Unread::Memory;
        return cannot_read(Unreadable { name, why }, err);
    };
    match read_named(alloc, folder, &job.run, room) {
        Ok(input) => tell_input(alloc, job, &input, files, err),
        Err(unread) => cannot_read(unread, err),
    }
}

/// Looks whether the file that a job names may be written, beside those that it reads.
fn look<S: Writable>(job: &ShardJob, files: &S) -> Result<(), Untaken>
    ensures { OnOk result (IsSpared (S.may_take files.now) job.now) }
{
    let name = job.partials.as_str();
    files.look(name, slice::from_ref(&job.run.script))?;
    files.look(name, job.run.parts.as_slice())
}

/// Tells of a shard over what was read for it.
fn tell_input<S: Writable, E: Write>(
    alloc: Global,
    job: &ShardJob,
    input: &Input,
    files: &mut S,
    err: &mut E,
) -> u8
    ensures status { (result ≡ 0) ⊎ ((result ≡ 2) ⊎ (result ≡ 3)) }
    ensures told { result ≡ 0 → IsTextWritten (S.writes files.old files.new) job.now input.now }
    ensures nothing { result ≡ 2 → files.new ≡ files.old }
{
    let text = match shard_text(alloc, job, input) {
        Ok(text) => text,
        Err(why) => return refuse_script(job, input, why, err),
    };
    match files.write(job.partials.as_str(), text.as_slice()) {
        Ok(()) => WRITTEN,
        Err(why) => cannot_write(job.partials.as_str(), why, err),
    }
}

/// Why there is no text of what a shard tells.
#[derive(Clone, Copy, Drop)]
enum Textless {
    /// The script is not UTF-8, and no partial answer can have it.
    NotUtf8,
    /// The shard can't tell of the script.
    Untold(OwnUntold),
}

impl From<OwnUntold> for Textless {
    fn from(why: OwnUntold) -> Textless {
        Textless::Untold(why)
    }
}

impl From<Untold> for Textless {
    fn from(why: Untold) -> Textless {
        Textless::Untold(OwnUntold::Untold(why))
    }
}

impl From<AllocError> for Textless {
    fn from(_refused: AllocError) -> Textless {
        Textless::Untold(OwnUntold::Untold(Untold::OutOfMemory))
    }
}

/// The text of what the shard tells of a script and its parts.
fn shard_text(alloc: Global, job: &ShardJob, input: &Input) -> Result<Vec<u8>, Textless>
    ensures { IfOk result (λ text. IsShardText job.now.division job.now.shard input.now text.items) }
{
    let Ok(script) = str::from_utf8(input.script.as_slice()) else {
        return Err(Textless::NotUtf8);
    };
    let answer = shard_answer(alloc, script, job, input)?;
    Ok(shards::write(alloc, &answer)?)
}

/// What the shard tells of a script.
fn shard_answer(
    alloc: Global,
    script: &str,
    job: &ShardJob,
    input: &Input,
) -> Result<Document, Textless>
    requires { script.now ≡ input.now.script.items }
    ensures { IfOk result (IsShardAnswer job.now.division job.now.shard input.now) }
{
    match job.division {
        Division::Keys => answer_by_keys(alloc, script, job, input),
        Division::Parts => answer_by_parts(alloc, script, job, input),
    }
}

/// What a shard of a table that is divided by keys tells of a script.
fn answer_by_keys(
    alloc: Global,
    script: &str,
    job: &ShardJob,
    input: &Input,
) -> Result<Document, Textless>
    requires { script.now ≡ input.now.script.items }
    ensures { IfOk result (IsShardAnswer Division.Keys job.now.shard input.now) }
{
    let parts = input.parts.as_slice();
    let answer = shards::tell::<Fnv>(alloc, script, parts, &job.run.how, &job.shard)?;
    Ok(answer)
}

/// What a shard that has these parts of its own tells of a script.
fn answer_by_parts(
    alloc: Global,
    script: &str,
    job: &ShardJob,
    input: &Input,
) -> Result<Document, Textless>
    requires { script.now ≡ input.now.script.items }
    ensures { IfOk result (IsShardAnswer Division.Parts job.now.shard input.now) }
{
    let parts = input.parts.as_slice();
    let answer = shards::tell_own::<Fnv>(alloc, script, parts, &job.run.how, &job.shard)?;
    Ok(answer)
}

/// Says why the shard can't tell of the script.
fn refuse_script<E: Write>(job: &ShardJob, input: &Input, why: Textless, err: &mut E) -> u8
    ensures { (result ≡ 2) ⊎ (result ≡ 3) }
{
    let name = job.run.script.as_str();
    match why {
        Textless::Untold(OwnUntold::Untold(why)) => return refuse_lines(name, input, why, err),
        Textless::Untold(OwnUntold::Put { line }) => say(
            err,
            format_args!(
                "olap: {name}:{line}: a row is put, and with --own-parts each row is in the parts of one shard"
            ),
        ),
        Textless::Untold(OwnUntold::Load { line, fault }) => say(
            err,
            format_args!(
                "olap: {name}:{line}: the load is refused ({fault}), and with --own-parts no other shard knows of it"
            ),
        ),
        Textless::NotUtf8 => say(err, format_args!("olap: {name}: it is not UTF-8")),
    }
    NOTHING_RUN
}

/// Says why no shard can tell of the script, or why there is no room for the rows of this one.
fn refuse_lines<E: Write>(name: &str, input: &Input, why: Untold, err: &mut E) -> u8
    ensures { (result ≡ 2) ⊎ (result ≡ 3) }
{
    match why {
        Untold::OutOfMemory => return end_early(Ended::OutOfMemory, err),
        Untold::TooMuch => return refuse_size(name, input, err),
        Untold::Shape { line } => say(
            err,
            format_args!("olap: {name}:{line}: a shape is asked for, which no shard can tell"),
        ),
        Untold::TooManyRows { line } => say(
            err,
            format_args!("olap: {name}:{line}: the shard would have more rows than --rows lets in"),
        ),
    }
    NOTHING_RUN
}

/// Says that the script is too long, or that there are too many parts.
fn refuse_size<E: Write>(name: &str, input: &Input, err: &mut E) -> u8
    ensures { result ≡ 2 }
{
    let count = input.parts.len();
    if count > MAX_PARTS {
        say(
            err,
            format_args!("olap: at most {MAX_PARTS} parts are read, and {count} were given"),
        );
    } else {
        say(
            err,
            format_args!("olap: {name}: it has more than {MAX_SCRIPT_BYTES} bytes"),
        );
    }
    NOTHING_RUN
}
