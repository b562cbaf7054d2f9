//! Looks for faults in a script and in its parts, and loads nothing.
ghost use Rattle.std.specs.Prelude.{◌≡◌, ◌≤◌, ◌⊎◌, IfOk, length};

use crate::close::{ENDED_EARLY, NOTHING_RUN, WRITTEN, end_early};
use crate::explaining::{Explaining, Told};
use crate::input::{Folder, Input, Unread, Unreadable, read_named};
use crate::part_faults::tell_parts;
use crate::plain::Plain;
use crate::program::{cannot_read, run_input};
use crate::tell::{Output, Tell};
use cells::Text;
use command::job::Job;
use command::naming::{NamingFault, Parts};
use forms::Form;
use script::{Ended, HashChoice, How, Manner, OnRefusal};
use std::alloc::{AllocError, AllocFailed, Global};
use std::io::{self, BufWriter, Write};
use std::sync::Wait;
use std::thread::Threads;
use thiserror::Error;

/// The status of a check that found a fault.
pub const FAULTY: u8 = 1;

/// Looks for faults in the script and the parts that the words name, and gives the program's status: 0 where there is none, 1
/// where some were told, 2 where nothing was looked at, since no script is named or a file can't be read, and 3 where memory or a
/// thread was wanting, or the faults could not be written.
///
/// A fault is one that depends on no row: that of a line as a run would tell it if its parts had no record, and each faulty record
/// of each part that a `load` line lists.
pub fn check_files<F: Folder, E: Write, R: Threads + Wait + Sync + Print>(
    rt: &R,
    alloc: Global,
    words: &[String],
    folder: &F,
    err: &mut E,
) -> u8
    ensures { (result ≡ 0) ⊎ ((result ≡ 1) ⊎ ((result ≡ 2) ⊎ (result ≡ 3))) }
{
    let job = match job_of_check(alloc, words) {
        Ok(job) => job,
        Err(fault) => return refuse_words(fault, err),
    };
    let Ok(room) = Vec::with_capacity(alloc, job.parts.len()) else {
        return no_memory(job.script.as_str(), err);
    };
    match read_named(alloc, folder, &job, room) {
        Ok(input) => look(rt, alloc, &Output::new(rt), &job, input, err),
        Err(unread) => cannot_read(unread, err),
    }
}

/// Why the words of a check are refused. Its text is what the program writes after `error: `.
#[derive(Debug, Drop, Error)]
enum CheckFault {
    #[error("no SCRIPT")]
    NoScript,
    #[error("'--part' takes a value")]
    NoValue,
    #[error("{0}")]
    Naming(NamingFault),
}

impl From<AllocError> for CheckFault {
    fn from(error: AllocError) -> CheckFault {
        CheckFault::Naming(NamingFault::from(error))
    }
}

impl<T: Drop> From<AllocFailed<T>> for CheckFault {
    fn from(_error: AllocFailed<T>) -> CheckFault {
        CheckFault::Naming(NamingFault::OutOfMemory)
    }
}

impl From<NamingFault> for CheckFault {
    fn from(fault: NamingFault) -> CheckFault {
        CheckFault::Naming(fault)
    }
}

/// Says why the words are refused.
fn refuse_words<E: Write>(fault: CheckFault, err: &mut E) -> u8
    ensures { result ≡ 2 }
{
    let fault = Plain(fault);
    let _ = writeln!(
        err,
        "error: {fault}\n\nFor more information, try 'olap help check'."
    );
    NOTHING_RUN
}

/// Memory was refused before the first file was read.
fn no_memory<E: Write>(name: &str, err: &mut E) -> u8
    ensures { result ≡ 2 }
{
    let why = Unread::Memory;
    cannot_read(Unreadable { name, why }, err)
}

/// What the words of a check name: a script and files of parts, and the parts that have names.
#[derive(Drop)]
struct CheckWords {
    files: Vec<Text>,
    named: Vec<Text>,
}

impl CheckWords {
    /// Takes a word, with the next one where that is its value, and gives what follows.
    fn take<'w>(
        &mut self,
        alloc: Global,
        word: &str,
        later: &'w [String],
    ) -> Result<&'w [String], CheckFault>
        ensures { IfOk result (λ rest. length rest.now ≤ length later.entry.now) }
    {
        if word == "--part" {
            let Some((value, rest)) = later.split_first() else {
                return Err(CheckFault::NoValue);
            };
            self.named.push(Text::copied(alloc, value.as_str())?)?;
            return Ok(rest);
        }
        match word.strip_prefix("--part=") {
            Some(value) => self.named.push(Text::copied(alloc, value)?)?,
            None => self.files.push(Text::copied(alloc, word)?)?,
        }
        Ok(later)
    }
}

/// What the words name. After the word `--` all are files.
fn words_of(alloc: Global, words: &[String]) -> Result<CheckWords, CheckFault> {
    let mut taken = CheckWords {
        files: Vec::new(alloc),
        named: Vec::new(alloc),
    };
    let mut rest = words;
    while let Some((word, later)) = rest.split_first() {
        if word.as_str() == "--" {
            for file in later {
                taken.files.push(Text::copied(alloc, file.as_str())?)?;
            }
            return Ok(taken);
        }
        rest = taken.take(alloc, word.as_str(), later)?;
    }
    Ok(taken)
}

/// A run, with the defaults, of the files that the words name.
fn job_of_check(alloc: Global, words: &[String]) -> Result<Job, CheckFault> {
    let CheckWords { mut files, named } = words_of(alloc, words)?;
    if files.is_empty() {
        return Err(CheckFault::NoScript);
    }
    let script = files.remove(0);
    let Parts {
        files: parts,
        names,
    } = Parts::named(alloc, files, named.as_slice())?;
    Ok(Job {
        how: How::default(),
        hash: HashChoice::default(),
        form: Form::Classic,
        on_refusal: OnRefusal::GoesOn,
        explains: true,
        tells_progress: false,
        script,
        parts,
        names,
        live: None,
    })
}

/// Looks for faults in what was read, and tells them.
fn look<E: Write, R: Threads + Wait + Sync + Print>(
    rt: &R,
    alloc: Global,
    output: &Output<'_, R>,
    job: &Job,
    input: Input,
    err: &mut E,
) -> u8
    ensures { (result ≡ 0) ⊎ ((result ≡ 1) ⊎ (result ≡ 3)) }
{
    let Input { script, parts } = input;
    let Ok(empty) = empty_parts(alloc, parts.len()) else {
        return end_early(Ended::OutOfMemory, err);
    };
    let stand_in = Input {
        script,
        parts: empty,
    };
    let status = look_at_lines(&*rt, alloc, &*output, &*job, &stand_in, err);
    if status != WRITTEN {
        return status;
    }
    let told = tell_parts(
        alloc,
        output,
        job,
        stand_in.script.as_slice(),
        parts.as_slice(),
    );
    if told.is_err() {
        return end_early(Ended::OutOfMemory, err);
    }
    if output.is_closed() {
        return ENDED_EARLY;
    }
    if output.has_failed() {
        return end_early(Ended::WriteFailed, err);
    }
    if output.count() > 0 { FAULTY } else { WRITTEN }
}

/// As many parts as there are, without a byte: what a run is handed that loads nothing.
fn empty_parts(alloc: Global, count: usize) -> Result<Vec<Vec<u8>>, AllocError> {
    let mut parts = Vec::new(alloc);
    for _ in 0..count {
        parts.push(Vec::new(alloc))?;
    }
    Ok(parts)
}

/// Tells the faults of lines, by a run that writes nothing.
fn look_at_lines<'a, T: Tell + Sync, E: Write, R: Threads + Wait + Sync>(
    rt: &'a R,
    alloc: Global,
    teller: &'a T,
    job: &'a Job,
    input: &'a Input,
    err: &mut E,
) -> u8
    ensures { (result ≡ 0) ⊎ ((result ≡ 1) ⊎ (result ≡ 3)) }
{
    let Ok(out) = BufWriter::new(alloc, io::sink()) else {
        return end_early(Ended::OutOfMemory, err);
    };
    let gate = Explaining::new(teller, alloc, Told::Lines, job, input);
    let manner = Manner::of(alloc, job.form);
    let (status, _) = run_input(
        rt,
        alloc,
        &job.how,
        job.hash,
        &manner,
        None,
        OnRefusal::GoesOn,
        input,
        &gate,
        out,
        err,
    );
    status
}
