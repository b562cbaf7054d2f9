//! The program's whole deed over any files, reader and writers: `main` calls it with those of the system.
ghost use Rattle.std.specs.Prelude.{◌≡◌, ◌⊎◌, [], IfOk, false, map, string_bytes, true};
ghost use Rattle.std.specs.Io.Buffered.{writer_buffer, writer_contents};
ghost use Rattle.std.specs.Io.KnownBytes.{Keeps};
ghost use Rattle.script.specs.Endings.{BeginsToWrite, Writes};
ghost use Rattle.script.specs.Givens.{givens_in};
ghost use Rattle.script.specs.Hows.{hash_of_choice};
ghost use Rattle.script.specs.Stops.{HoweverFinished};
ghost use Rattle.script.specs.Viewers.{IsRunBy, asked_of};
ghost use Rattle.command.specs.Jobs.{IsHelp};
ghost use Rattle.olap.specs.Endings.{Ends};
ghost use Rattle.olap.specs.Programs.{EndsAsRun, EndsAsScript, IsOutputOfJob, IsRunOf, JobServes, Serves, ServesBy};
ghost use Rattle.olap.specs.Answering.{Answers};
ghost use Rattle.reasons.specs.Books.{declared_in, lines_in};

use crate::answering::answers;
use crate::close::{NOTHING_RUN, STOPPED, WRITTEN, close_finished, close_text, end_early};
use crate::explaining::{Explaining, Told};
use crate::input::{Folder, Input, Unread, Unreadable, read_named};
use crate::part_faults::tell_quotes;
use crate::plain::say;
use crate::progress::Progress;
use crate::tell::{Errors, Renew, Screen, Tell};
use crate::telling::{Ending, Telling};
use command::job::{Job, WordsFault};
use command::words::job_of;
use crew::Open;
use forms::Form;
use reasons::Reasons;
use report::Pour;
use script::{Ended, Finish, HashChoice, How, Manner, OnRefusal, Setup, Viewing, run_in};
use std::alloc::{AllocError, Global};
use std::io::{BufWriter, Read, Write};
use std::sync::Wait;
use std::thread::Threads;
use std::time::Clock;

/// Runs what the words after the program's name ask for, over the files that they name, and gives the program's status and the writer
/// back. What a run writes goes to `out`, and so does help; why there is no run, or why it ended early, goes to `err`.
///
/// At 0 the output of that run was written whole, or the help that was asked for; where the run is strict, no line was refused, and
/// neither was the query of its viewers. At 1 a strict run stopped after the first refused line, and its output up to that line was
/// written; or all was written, and the viewers of the run are refused. At 2 nothing was run, since the words are refused or a file
/// can't be read; at 3 the run ended early, or the help could not be written. `rt` starts the threads of a report's workers, and has
/// the standard error to which reasons go, where the words ask for them by `--explain`, and how far the run is, where they ask for that
/// by `--progress`, and the clock for it.
pub fn run_words<
    F: Folder,
    W: Write + Drop,
    E: Write,
    R: Threads + Wait + Sync + Eprint + Clock + Screen,
>(
    rt: &R,
    alloc: Global,
    given: &[String],
    folder: &F,
    out: BufWriter<W>,
    err: &mut E,
) -> (u8, BufWriter<W>)
    ensures status { (result.0 ≡ 0) ⊎ ((result.0 ≡ 1) ⊎ ((result.0 ≡ 2) ⊎ (result.0 ≡ 3))) }
    ensures ends { EndsAsRun (F.file folder.now) (map string_bytes given.now) result.0
        (writer_contents W.contents out) (writer_contents W.contents result.1) (writer_buffer result.1) }
    ensures flushed { (result.0 ≡ 0) ⊎ (result.0 ≡ 1) → writer_buffer result.1 ≡ [] }
    ensures nothing { result.0 ≡ 2 → Keeps (writer_contents W.contents out) (writer_contents W.contents result.1) }
{
    match job_of(alloc, given) {
        Ok(job) => run_job(rt, alloc, &job, folder, out, err),
        Err(fault) => refuse(&fault, out, err),
    }
}

/// Runs a job over the files that it names, and gives the program's status and the writer back, as
/// [`run_words`] does.
fn run_job<
    F: Folder,
    W: Write + Drop,
    E: Write,
    R: Threads + Wait + Sync + Eprint + Clock + Screen,
>(
    rt: &R,
    alloc: Global,
    job: &Job,
    folder: &F,
    out: BufWriter<W>,
    err: &mut E,
) -> (u8, BufWriter<W>)
    ensures status { (result.0 ≡ 0) ⊎ ((result.0 ≡ 1) ⊎ ((result.0 ≡ 2) ⊎ (result.0 ≡ 3))) }
    ensures ends { Ends (IsOutputOfJob (F.file folder.now) job.now) (HoweverFinished (IsOutputOfJob (F.file folder.now) job.now))
        (JobServes (F.file folder.now) job.now)
        result.0 (writer_contents W.contents out) (writer_contents W.contents result.1) (writer_buffer result.1) }
{
    // Where there is no room for the parts, no file is read, and the first is named.
    let Ok(room) = Vec::with_capacity(alloc, job.parts.len()) else {
        let name = job.script.as_str();
        let why = Unread::Memory;
        let unread = Unreadable { name, why };
        return (cannot_read_for_run(unread, job.explains, err), out);
    };
    match read_named(alloc, folder, job, room) {
        Ok(input) => {
            let teller = errors_of(rt, job.tells_progress);
            run_served(rt, alloc, &teller, job, &input, out, err)
        }
        Err(unread) => (cannot_read_for_run(unread, job.explains, err), out),
    }
}

/// Where a run tells reasons, and may tell how far it is: a line is written anew on a screen, where it tells that.
pub fn errors_of<'r, R: Screen>(rt: &'r R, tells: bool) -> Errors<'r, R> {
    Errors::new(rt, tells && rt.is_screen())
}

/// Runs a job over what was read for it, and gives the program's status and the writer back, as [`run_told`] does; and where all was
/// written of a strict run whose viewers are refused, 1.
fn run_served<'a, T: Renew + Sync, W: Write + Drop, E: Write, R: Threads + Wait + Sync + Clock>(
    rt: &'a R,
    alloc: Global,
    teller: &'a T,
    job: &'a Job,
    input: &'a Input,
    out: BufWriter<W>,
    err: &mut E,
) -> (u8, BufWriter<W>)
    ensures status { (result.0 ≡ 0) ⊎ ((result.0 ≡ 1) ⊎ (result.0 ≡ 3)) }
    ensures ends { Ends (IsRunOf job.now input.now) (HoweverFinished (IsRunOf job.now input.now))
        (ServesBy job.now.on_refusal job.now.live input.now.script.items)
        result.0 (writer_contents W.contents out) (writer_contents W.contents result.1) (writer_buffer result.1) }
{
    let (status, out) = run_told(rt, alloc, teller, job, input, out, err);
    if status != WRITTEN {
        return (status, out);
    }
    (close_served(alloc, job, input, err), out)
}

/// The status of a run of which all was written: 1 where it is strict, and its viewers are refused, which `err` tells; and 3 where
/// memory was refused to the look whether they are.
fn close_served<E: Write>(alloc: Global, job: &Job, input: &Input, err: &mut E) -> u8
    ensures status { (result ≡ 0) ⊎ ((result ≡ 1) ⊎ (result ≡ 3)) }
    ensures served { result ≡ 0 → ServesBy job.now.on_refusal job.now.live input.now.script.items true }
    ensures refused { result ≡ 1 → ServesBy job.now.on_refusal job.now.live input.now.script.items false }
{
    match serves(alloc, job, input) {
        Ok(true) => WRITTEN,
        Ok(false) => {
            let _ = writeln!(err, "olap: the query of the viewers is refused");
            STOPPED
        }
        Err(_) => end_early(Ended::OutOfMemory, err),
    }
}

/// Whether the table that the script declares answers the query of its viewers. Nobody asks that of a run that is not strict.
fn serves(alloc: Global, job: &Job, input: &Input) -> Result<bool, AllocError>
    ensures { IfOk result (ServesBy job.now.on_refusal job.now.live input.now.script.items) }
{
    match job.on_refusal {
        OnRefusal::GoesOn => Ok(true),
        OnRefusal::Stops => serves_viewers(alloc, job, input),
    }
}

/// Whether the table that the script declares answers the query of its viewers, where it has some.
fn serves_viewers(alloc: Global, job: &Job, input: &Input) -> Result<bool, AllocError>
    ensures { IfOk result (Serves job.now.live input.now.script.items) }
{
    match &job.live {
        None => Ok(true),
        Some(live) => script_answers(alloc, input, live.query.as_str()),
    }
}

/// Whether the table that the script declares answers a query.
fn script_answers(alloc: Global, input: &Input, query: &str) -> Result<bool, AllocError>
    ensures { IfOk result (Answers (declared_in (lines_in input.now.script.items)) query.now) }
{
    let reasons = Reasons::of(alloc, input.script.as_slice(), input.parts.as_slice())?;
    answers(alloc, query, reasons.schema())
}

/// Runs a job over what was read for it, and gives the program's status and the writer back, as [`run_input`] does. `teller`
/// is told why lines are refused, and how far the run is, where the job asks for it.
fn run_told<'a, T: Renew + Sync, W: Write + Drop, E: Write, R: Threads + Wait + Sync + Clock>(
    rt: &'a R,
    alloc: Global,
    teller: &'a T,
    job: &'a Job,
    input: &'a Input,
    out: BufWriter<W>,
    err: &mut E,
) -> (u8, BufWriter<W>)
    ensures status { (result.0 ≡ 0) ⊎ ((result.0 ≡ 1) ⊎ (result.0 ≡ 3)) }
    ensures written { result.0 ≡ 0 → Writes (IsRunOf job.now input.now Finish.Through)
        (writer_contents W.contents out) (writer_contents W.contents result.1) }
    ensures stopped { result.0 ≡ 1 → Writes (IsRunOf job.now input.now Finish.Stopped)
        (writer_contents W.contents out) (writer_contents W.contents result.1) }
    ensures flushed { (result.0 ≡ 0) ⊎ (result.0 ≡ 1) → writer_buffer result.1 ≡ [] }
    ensures beginning { BeginsToWrite (HoweverFinished (IsRunOf job.now input.now)) (writer_contents W.contents out) (writer_contents W.contents result.1) }
{
    if job.explains || job.tells_progress {
        tell_input_quotes(alloc, teller, job, input);
    }
    let gate = Telling {
        explaining: Explaining::new(teller, alloc, Told::of_run(job.explains), job, input),
        progress: progress_of(teller, rt, job.tells_progress),
    };
    let manner = Manner::of(alloc, job.form);
    run_input(
        rt,
        alloc,
        &job.how,
        job.hash,
        &manner,
        job.viewing(),
        job.on_refusal,
        input,
        &gate,
        out,
        err,
    )
}

/// Tells the first bad quote of each part that is loaded, where there is memory for that.
fn tell_input_quotes<T: Tell>(alloc: Global, teller: &T, job: &Job, input: &Input) {
    let names = job.parts.as_slice();
    let _ = tell_quotes(
        alloc,
        teller,
        names,
        input.script.as_slice(),
        input.parts.as_slice(),
    );
}

/// What tells how far a run is that begins now, where that is asked for.
pub fn progress_of<'a, T, C: Clock>(
    teller: &'a T,
    clock: &'a C,
    tells: bool,
) -> Option<Progress<'a, T, C>> {
    if tells {
        Some(Progress::new(teller, clock))
    } else {
        None
    }
}

/// Runs the script that standard input holds, with the defaults and no parts, and gives the program's
/// status and the writer back, as [`run_words`] does.
pub fn run_standard_input<I: Read + Drop, W: Write + Drop, E: Write, R: Threads + Wait + Sync>(
    rt: &R,
    alloc: Global,
    mut input: I,
    out: BufWriter<W>,
    err: &mut E,
) -> (u8, BufWriter<W>)
    ensures { EndsAsScript (I.remaining input) result.0 (writer_contents W.contents out) (writer_contents W.contents result.1) (writer_buffer result.1) }
{
    let mut script = Vec::new(alloc);
    if let Err(error) = input.read_to_end(&mut script) {
        let name = "-";
        let why = Unread::from(error);
        let unread = Unreadable { name, why };
        return (cannot_read_for_run(unread, false, err), out);
    }
    let parts = Vec::new(alloc);
    let input = Input { script, parts };
    let manner = Manner::of(alloc, Form::Classic);
    run_input(
        rt,
        alloc,
        &How::default(),
        HashChoice::default(),
        &manner,
        None,
        OnRefusal::GoesOn,
        &input,
        &Open,
        out,
        err,
    )
}

/// Runs the script over the parts, tells its answers in this manner, with viewers beside it where there are some, flushes what it
/// wrote, and gives the program's status and the writer back: 0 where the output was written whole, 1 where the run stopped after a
/// refused line, and none of what it wrote waits in the buffer; and 3 where a beginning of it was written, and why it ended is on
/// `err`. The gate is told of the run's steps, and of its end before that is told on `err`. The memory of the run's table is left to
/// the system.
pub fn run_input<'a, G: Ending, W: Write + Drop, E: Write, R: Threads + Wait + Sync>(
    rt: &'a R,
    alloc: Global,
    how: &'a How,
    hash: HashChoice,
    manner: &'a Manner,
    viewing: Option<Viewing<&'a str>>,
    on_refusal: OnRefusal,
    input: &'a Input,
    gate: &'a G,
    out: BufWriter<W>,
    err: &mut E,
) -> (u8, BufWriter<W>)
    ensures status { (result.0 ≡ 0) ⊎ ((result.0 ≡ 1) ⊎ (result.0 ≡ 3)) }
    ensures written { result.0 ≡ 0 → Writes (IsRunBy on_refusal (hash_of_choice hash) (givens_in manner.now how.now.rows input.now.parts.items)
        (asked_of viewing.entry) input.now.script.items Finish.Through)
        (writer_contents W.contents out) (writer_contents W.contents result.1) }
    ensures stopped { result.0 ≡ 1 → Writes (IsRunBy on_refusal (hash_of_choice hash) (givens_in manner.now how.now.rows input.now.parts.items)
        (asked_of viewing.entry) input.now.script.items Finish.Stopped)
        (writer_contents W.contents out) (writer_contents W.contents result.1) }
    ensures flushed { (result.0 ≡ 0) ⊎ (result.0 ≡ 1) → writer_buffer result.1 ≡ [] }
    ensures beginning { BeginsToWrite (HoweverFinished (IsRunBy on_refusal (hash_of_choice hash)
        (givens_in manner.now how.now.rows input.now.parts.items) (asked_of viewing.entry) input.now.script.items))
        (writer_contents W.contents out) (writer_contents W.contents result.1) }
    ensures quiet { result.0 ≡ 0 → err.new ≡ err.old }
{
    let mut pour = Pour::new(out);
    let setup = Setup {
        rt,
        alloc,
        how,
        parts: input.parts.as_slice(),
        viewing,
        on_refusal,
        gate,
    };
    let ended = run_in(&setup, manner, hash, input.script.as_slice(), &mut pour);
    let mut out = pour.into_inner();
    gate.ended();
    let status = close_finished(ended, &mut out, err);
    (status, out)
}

/// Says which file can't be read, and why.
pub fn cannot_read<E: Write>(unread: Unreadable<'_>, err: &mut E) -> u8
    ensures { result ≡ 2 }
{
    let Unreadable { name, why } = unread;
    say(err, format_args!("olap: cannot read {name}: {why}"));
    NOTHING_RUN
}

/// Says which file of a run can't be read, and on a line of its own why, where the run explains: what reads the first line finds the
/// name at its end.
fn cannot_read_for_run<E: Write>(unread: Unreadable<'_>, explains: bool, err: &mut E) -> u8
    ensures { result ≡ 2 }
{
    let Unreadable { name, why } = unread;
    let _ = writeln!(err, "olap: cannot read {name}");
    if explains {
        say(err, format_args!("olap: {name}: {why}"));
    }
    NOTHING_RUN
}

/// Says why the words are refused. Help, which is no refusal, goes to `out`: the status is 0 where it was written, and 3 where it
/// could not be.
pub(crate) fn refuse<W: Write + Drop, E: Write>(
    fault: &WordsFault,
    mut out: BufWriter<W>,
    err: &mut E,
) -> (u8, BufWriter<W>)
    ensures status { (result.0 ≡ 0) ⊎ ((result.0 ≡ 2) ⊎ (result.0 ≡ 3)) }
    ensures help { IsHelp fault.now → (result.0 ≡ 0) ⊎ (result.0 ≡ 3) }
    ensures refused { (IsHelp fault.now → ⊥) → result.0 ≡ 2 }
    ensures only { result.0 ≡ 0 → IsHelp fault.now }
    ensures only_early { result.0 ≡ 3 → IsHelp fault.now }
    ensures flushed { result.0 ≡ 0 → writer_buffer result.1 ≡ [] }
    ensures kept { (result.1 ≡ out) ⊎ IsHelp fault.now }
    ensures nothing { result.0 ≡ 2 → Keeps (writer_contents W.contents out) (writer_contents W.contents result.1) }
{
    if let WordsFault::Clap(error) = fault {
        if !error.use_stderr() {
            let written = write!(out, "{error}");
            let status = close_text(written, &mut out, err);
            return (status, out);
        }
    }
    let _ = write!(err, "{fault}");
    (NOTHING_RUN, out)
}

/// Shows the help that was asked for instead of a job, and gives the program's status.
pub fn show_help<J: Drop, W: Write + Drop, E: Write>(
    asked: Result<J, WordsFault>,
    out: BufWriter<W>,
    err: &mut E,
) -> (u8, BufWriter<W>)
    ensures { (result.0 ≡ 0) ⊎ ((result.0 ≡ 2) ⊎ (result.0 ≡ 3)) }
{
    match asked {
        Ok(_) => (WRITTEN, out),
        Err(fault) => refuse(&fault, out, err),
    }
}
