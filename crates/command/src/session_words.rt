//! The words of `session`, as `clap` reads them.
ghost use Rattle.std.specs.Prelude.{◌≡◌, IfErr, IfOk, map, string_bytes};
ghost use Rattle.clap.specs.Words.{FailsBy, app_of, fault_of, found_of, matches_of, rows_of};
ghost use Rattle.command.specs.SessionWords.{AskForSession, ExplainsSessionFault, IsFoundIn, IsSessionFault, bare_session, session};

use crate::command_line::{parts, strict, with, with_settings};
use crate::job::WordsFault;
use crate::words::{lent, on_refusal, settings, unnamed, value};
use cells::Text;
use clap::{ArgMatches, Command, Error};
use forms::Form;
use script::{HashChoice, How, OnRefusal};
use std::alloc::{AllocError, Global};

const ABOUT: &str =
    "Runs the lines of standard input as they come, and answers each before it asks for the next";

const MORE: &str = "Example:
  olap session --workers 4 examples/loads.1.csv examples/loads.2.csv

What is written is what `olap run` writes for a script of the same lines, with the same numbers. The reply to a
line is written whole before the next line is read, so a program can write a line and wait for its reply; a line
without one, as an accepted put, can be followed by a report. A line of more than 1048576 bytes is refused, and
the number of lines is not limited.
The parts are read before the first line; at most 64 of them, as for a script. Where standard input is a
terminal, standard error has a prompt before each line, and tells of each publish.

The status is 0 where the input ended and all was answered, 1 where a strict session ended after a refused line,
2 where the words are refused or a part cannot be read, and 3 where the session ended early.";

/// What the words after `session` ask for. It owns its file names.
#[derive(Drop)]
pub struct SessionJob {
    /// How reports are answered and parts are loaded.
    pub how: How,
    /// How keys are hashed.
    pub hash: HashChoice,
    /// The form of what is written.
    pub form: Form,
    /// What the session does after a refused line.
    pub on_refusal: OnRefusal,
    /// The names of the parts' files, in the order of the line.
    pub parts: Vec<Text>,
}

/// The session that the words after `session` ask for: the value that `clap` finds for each option and file name, else the
/// default, as for `run`. [`WordsFault::OutOfRange`] comes only where `clap` reads the words; any other fault is `clap`'s, help
/// and want of memory among them.
pub fn session_job(alloc: Global, given: &[String]) -> Result<SessionJob, WordsFault>
    ensures job { IfOk result (AskForSession (map string_bytes given.now)) }
    ensures fault { IfErr result (ExplainsSessionFault (map string_bytes given.now)) }
{
    let texts = lent(alloc, given)?;
    job_of_words(alloc, texts.as_slice())
}

/// The same, of words that are lent.
pub fn job_of_words(alloc: Global, words: &[&str]) -> Result<SessionJob, WordsFault>
    ensures job { IfOk result (AskForSession (map (λ w. w.now) words.now)) }
    ensures fault { IfErr result (ExplainsSessionFault (map (λ w. w.now) words.now)) }
{
    let found = matches(alloc, words).map_err(WordsFault::Clap)?;
    job_found(alloc, &found)
}

/// The session, from what was found for its options and file names.
fn job_found(alloc: Global, found: &ArgMatches<'_>) -> Result<SessionJob, WordsFault>
    ensures job { IfOk result (IsFoundIn (rows_of (found_of found.now))) }
    ensures fault { IfErr result (IsSessionFault (rows_of (found_of found.now))) }
{
    let (how, hash, form) = settings(found).map_err(WordsFault::OutOfRange)?;
    let parts = unnamed(alloc, found)?;
    let on_refusal = on_refusal(value(found, "strict"));
    Ok(SessionJob {
        how,
        hash,
        form,
        on_refusal,
        parts,
    })
}

/// What `clap` finds in the words.
fn matches<'a>(alloc: Global, words: &'a [&'a str]) -> Result<ArgMatches<'a>, Error>
    ensures fails { FailsBy (fault_of session (map (λ w. w.now) words.entry.now)) result }
    ensures found { IfOk result (λ m. rows_of (found_of m) ≡ matches_of session (map (λ w. w.now) words.entry.now)) }
{
    command(alloc)?.try_get_matches_from(words)
}

/// `session`, with its options and its file names.
fn command<'a>(alloc: Global) -> Result<Command<'a>, AllocError>
    ensures { IfOk result (λ c. app_of c ≡ session) }
{
    let command = with_settings(alloc, bare_command(alloc)?)?;
    let command = with(command, strict(alloc))?;
    with(command, parts(alloc))
}

/// `session`, before its options.
fn bare_command<'a>(alloc: Global) -> Result<Command<'a>, AllocError>
    ensures { IfOk result (λ c. app_of c ≡ bare_session) }
{
    Command::new(alloc, "session")
        .no_binary_name(true)
        .about(ABOUT)
        .after_help(MORE)
        .bin_name("olap session")
}
