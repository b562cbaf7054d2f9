//! What the first words of the command line ask for: a page of the manual, a check, a query of files, a session, a shard of a run, a
//! join of what shards told, or what `clap` reads of runs.
ghost use Rattle.std.specs.Prelude.{◌≡◌, ◌∷◌, ◌⊎◌, map, string_bytes};
ghost use Rattle.std.specs.Io.Buffered.{writer_buffer, writer_contents};
ghost use Rattle.olap.specs.Commands.{AskFor, EndsAs, IsOfCheck, IsOfHelp, command_of, have_shard, is_of_shard, is_option};

use crate::ask::{ask, show_schema};
use crate::check::check_files;
use crate::input::Folder;
use crate::join::join_files;
use crate::manual::{Topic, refuse_page, show, topic_of};
use crate::program::{run_standard_input, run_words, show_help};
use crate::session::converse;
use crate::shard_run::run_shard;
use crate::tell::Screen;
use crate::watched::{Unless, Watched};
use crate::written::Writable;
use command::session_words::job_of_words;
use command::shard_words::{join_of_words, shard_of_words};
use std::alloc::Global;
use std::io::{BufWriter, Read, Write};
use std::sync::Wait;
use std::thread::Threads;
use std::time::Clock;

/// What the words after the program's name ask for.
#[derive(Clone, Copy, Drop)]
pub enum Asked<'w> {
    /// A page of the manual.
    Page(Topic),
    /// A page of the manual that there is not.
    NoPage(&'w str),
    /// A look for faults, of these words.
    Check(&'w [String]),
    /// A query of files, of these words.
    Query(&'w [String]),
    /// The table that is proposed for a file, of these words.
    Schema(&'w [String]),
    /// A session, of these words.
    Session(&'w [String]),
    /// What one shard tells of a run, of these words.
    Shard(&'w [String]),
    /// A join of what shards told, of these words.
    Join(&'w [String]),
    /// Help of one of these.
    Help(Helped),
}

/// A command that `clap` reads for itself, and of which it has help.
#[derive(Clone, Copy, Drop)]
pub enum Helped {
    /// `session`.
    Session,
    /// `run --shard`.
    Shard,
    /// `join`.
    Join,
}

/// What the program hears and where it writes: standard input, standard output, and standard error.
#[derive(Drop)]
pub struct Streams<'c, 'e, I, W: Write + Drop, E> {
    pub input: I,
    pub out: BufWriter<Watched<'c, W>>,
    pub err: &'e mut E,
}

/// Does what the words after the program's name ask for, and gives the program's status and the writer back: that of
/// [`run_words`] for a command, of [`check_files`] for a check, of [`ask`] for a query, of [`converse`] for a session, of
/// [`run_shard`] for a shard and of [`join_files`] for a join, and for the manual 0 where its page was written, 2 where it
/// has no such page, and 3 where the page could not be written. Without a word the script is standard input
/// ([`run_standard_input`]). Where nobody reads standard output any more, a run tells that, and everything else ends without a word.
pub fn answer<
    'c,
    F: Folder,
    S: Writable,
    I: Read + Drop,
    W: Write + Drop,
    E: Write,
    R: Threads + Wait + Sync + Eprint + Print + Clock + Screen,
>(
    rt: &R,
    alloc: Global,
    words: &[String],
    folder: &F,
    files: &mut S,
    streams: Streams<'c, '_, I, W, E>,
) -> (u8, BufWriter<Watched<'c, W>>)
    ensures status { (result.0 ≡ 0) ⊎ ((result.0 ≡ 1) ⊎ ((result.0 ≡ 2) ⊎ (result.0 ≡ 3))) }
    ensures does { EndsAs (command_of (map string_bytes words.now)) (F.file folder.now) (I.remaining streams.entry.input)
        (S.writes files.old files.new) (S.may_take files.old) (files.new ≡ files.old) (map string_bytes words.now) result.0
        (writer_contents ⟦<Watched<'c, W> as Write>⟧.contents streams.entry.out) (writer_contents ⟦<Watched<'c, W> as Write>⟧.contents result.1)
        (writer_buffer streams.entry.out) (writer_buffer result.1) }
{
    let Streams {
        input,
        mut out,
        err,
    } = streams;
    let Some((first, rest)) = words.split_first() else {
        return run_standard_input(rt, alloc, input, out, err);
    };
    let Some(asked) = asked_by(first.as_str(), rest) else {
        return run_words(rt, alloc, words, folder, out, err);
    };
    let mut told = Unless::new(err, out.get_ref().is_closed());
    let err = &mut told;
    match asked {
        Asked::Page(topic) => (show(topic.page(), &mut out, err), out),
        Asked::NoPage(word) => (refuse_page(word, err), out),
        Asked::Check(names) => (check_files(rt, alloc, names, folder, err), out),
        Asked::Query(words) => ask(rt, alloc, words, folder, out, err),
        Asked::Schema(words) => (show_schema(alloc, words, folder, &mut out, err), out),
        Asked::Session(words) => converse(rt, alloc, words, folder, input, out, err),
        Asked::Shard(words) => run_shard(alloc, words, folder, files, out, err),
        Asked::Join(words) => join_files(alloc, words, folder, files, out, err),
        Asked::Help(of) => show_help_of(alloc, of, out, err),
    }
}

/// Shows the help of a command, and gives the program's status and the writer back.
fn show_help_of<W: Write + Drop, E: Write>(
    alloc: Global,
    of: Helped,
    out: BufWriter<W>,
    err: &mut E,
) -> (u8, BufWriter<W>)
    ensures { (result.0 ≡ 0) ⊎ ((result.0 ≡ 2) ⊎ (result.0 ≡ 3)) }
{
    match of {
        Helped::Session => show_help(job_of_words(alloc, &["--help"]), out, err),
        Helped::Shard => show_help(shard_of_words(alloc, &["--help"]), out, err),
        Helped::Join => show_help(join_of_words(alloc, &["--help"]), out, err),
    }
}

/// What the words ask for, the first of them and the others. None where that is a run, or help of the commands.
fn asked_by<'w>(first: &str, rest: &'w [String]) -> Option<Asked<'w>>
    ensures { AskFor (first.now ∷ map string_bytes rest.now) result }
{
    match first {
        "help" => asked_of_help(rest),
        "check" => Some(asked_of_check(rest)),
        "query" => Some(Asked::Query(rest)),
        "schema" => Some(Asked::Schema(rest)),
        "session" => Some(Asked::Session(rest)),
        "join" => Some(Asked::Join(rest)),
        "run" => {
            if have_shard(rest) {
                Some(Asked::Shard(rest))
            } else {
                None
            }
        }
        _ => None,
    }
}

/// Whether one of the words, before a word `--`, is an option of a shard.
fn have_shard(words: &[String]) -> bool
    ensures { result ≡ have_shard (map string_bytes words.now) }
{
    for word in words {
        if word.as_str() == "--" {
            return false;
        }
        if is_of_shard(word.as_str()) {
            return true;
        }
    }
    false
}

/// Whether the word is `--shard` or `--partials`, or one of these with its value, or `--own-parts`.
fn is_of_shard(word: &str) -> bool
    ensures { result ≡ is_of_shard word.now }
{
    is_option("--shard", "--shard=", word)
        || is_option("--partials", "--partials=", word)
        || is_option("--own-parts", "--own-parts=", word)
}

/// Whether the word is the option of this name, or the option with its value.
fn is_option(name: &str, valued: &str, word: &str) -> bool
    ensures { result ≡ is_option name.now valued.now word.now }
{
    word == name || word.as_bytes().starts_with(valued.as_bytes())
}

/// What the words after `help` ask for. None where `clap` tells of its own commands.
fn asked_of_help(words: &[String]) -> Option<Asked<'_>>
    ensures { IsOfHelp (map string_bytes words.now) result }
{
    let [word] = words else {
        return None;
    };
    match word.as_str() {
        "run" => None,
        "live" => None,
        "help" => None,
        "session" => Some(Asked::Help(Helped::Session)),
        "shard" => Some(Asked::Help(Helped::Shard)),
        "join" => Some(Asked::Help(Helped::Join)),
        word => match topic_of(word) {
            Some(topic) => Some(Asked::Page(topic)),
            None => Some(Asked::NoPage(word)),
        },
    }
}

/// What the words after `check` ask for.
fn asked_of_check(words: &[String]) -> Asked<'_>
    ensures { IsOfCheck (map string_bytes words.now) words.now result }
{
    let Some((first, _)) = words.split_first() else {
        return Asked::Check(words);
    };
    match first.as_str() {
        "--help" => Asked::Page(Topic::Check),
        "-h" => Asked::Page(Topic::Check),
        _ => Asked::Check(words),
    }
}
