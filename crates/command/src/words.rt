//! From the words of the command line to a job.
ghost use Rattle.std.specs.Prelude.{◌≡◌, ◌≢◌, [], List, None, Some, IfErr, IfOk, IfSome, IsNone, codes, map, option_map, string_bytes, unwrap_or};
ghost use Rattle.clap.specs.Words.{Row, all_of, first_of, found_of, rows_of, subcommand_rows_of};
ghost use Rattle.forms.specs.declared.form.Form.TheVariants.{Classic};
ghost use Rattle.script.specs.Hows.{default_hash, default_settings};
ghost use Rattle.script.specs.Limits.{IsWithin};
ghost use Rattle.command.specs.Jobs.{AreChosen, AreRead, Ask, AsksFor, AsksViewers, ExplainsFault, HasViewers, HasNoOption, IsFaultOf, IsFaultOfLive, IsFaultOfViewers, form_named, hash_named, is_given, named, number_in, on_refusal_by, out_of_range, parts as parts_in, showing_by};
ghost use Rattle.command.specs.Naming.{AreNamed, ExplainsNaming};

use crate::command_line::matches;
use crate::job::{Job, Setting, WordsFault};
use crate::naming::{NamingFault, Parts};
use cells::{Text, whole_number_of};
use clap::ArgMatches;
use forms::Form;
use script::{
    DEPTH, HashChoice, How, Limits, OnRefusal, ROWS, SHOTS, SMALL, Showing, VIEWERS, Viewing,
    WORKERS,
};
use std::alloc::{AllocError, AllocFailed, Global};
use trie::Cutting;

/// The job that the words after the program's name ask for: the value that `clap` finds for each
/// option and file name, else the default (1 worker, depth 1, small 0, hash `fnv`, 4,294,967,296
/// rows, the classic form).
///
/// The words are `run [--workers N] [--depth D] [--small S] [--hash fnv|plain] [--rows M]
/// [--format classic|csv|json|table] [--strict] [--explain] [--progress] [--part NAME=FILE]... SCRIPT [PART]...`, or `live`
/// with the same options, file names and `--query Q [--viewers V] [--shots K] [--as-they-come]` (2 viewers and 1 shot where
/// nothing is said). [`WordsFault::OutOfRange`] comes only where `clap` reads the words, and names the first option, in the
/// order of [`Setting`], whose value is no number in its range. [`WordsFault::Naming`] comes only after that, for a value
/// of `--part`. Any other fault is `clap`'s, help and want of memory among them.
pub fn words(alloc: Global, words: &[&str]) -> Result<Job, WordsFault>
    ensures read { IfOk result (λ job. AreRead (map (λ w. w.now) words.now)) }
    ensures job { IfOk result (Ask (map (λ w. w.now) words.now)) }
    ensures fault { IfErr result (ExplainsFault (map (λ w. w.now) words.now)) }
{
    let matches = matches(alloc, words).map_err(WordsFault::Clap)?;
    if let Some(found) = run_of(&matches) {
        return job_found(alloc, found);
    }
    match live_of(&matches) {
        Some(found) => live_found(alloc, found),
        None => Err(WordsFault::NoScript),
    }
}

/// The same, of words that the caller owns.
pub fn job_of(alloc: Global, given: &[String]) -> Result<Job, WordsFault>
    ensures read { IfOk result (λ job. AreRead (map string_bytes given.now)) }
    ensures job { IfOk result (Ask (map string_bytes given.now)) }
    ensures fault { IfErr result (ExplainsFault (map string_bytes given.now)) }
{
    let texts = lent(alloc, given)?;
    words(alloc, texts.as_slice())
}

/// What was found for the options and file names of `run`, where that is the subcommand.
fn run_of<'m, 'a>(matches: &'m ArgMatches<'a>) -> Option<&'m ArgMatches<'a>>
    ensures run { IfSome result (λ found. subcommand_rows_of matches.now ≡ Some (codes "run", rows_of (found_of found.now))) }
    ensures other { IsNone result → (found : List Row) → subcommand_rows_of matches.now ≢ Some (codes "run", found) }
{
    match matches.subcommand() {
        Some(("run", found)) => Some(found),
        _ => None,
    }
}

/// What was found for the options and file names of `live`, where that is the subcommand.
fn live_of<'m, 'a>(matches: &'m ArgMatches<'a>) -> Option<&'m ArgMatches<'a>>
    ensures live { IfSome result (λ found. subcommand_rows_of matches.now ≡ Some (codes "live", rows_of (found_of found.now))) }
    ensures other { IsNone result → (found : List Row) → subcommand_rows_of matches.now ≢ Some (codes "live", found) }
{
    match matches.subcommand() {
        Some(("live", found)) => Some(found),
        _ => None,
    }
}

/// The job of a run with viewers.
fn live_found(alloc: Global, found: &ArgMatches<'_>) -> Result<Job, WordsFault>
    ensures job { IfOk result (AsksFor (rows_of (found_of found.now))) }
    ensures live { IfOk result (λ job. HasViewers (rows_of (found_of found.now)) job.live) }
    ensures fault { IfErr result (IsFaultOfLive (rows_of (found_of found.now))) }
{
    let mut job = job_found(alloc, found)?;
    job.live = Some(viewers_found(alloc, found)?);
    Ok(job)
}

/// What the viewers of a run are asked.
fn viewers_found(alloc: Global, found: &ArgMatches<'_>) -> Result<Viewing<Text>, WordsFault>
    ensures live { IfOk result (AsksViewers (rows_of (found_of found.now))) }
    ensures fault { IfErr result (IsFaultOfViewers (rows_of (found_of found.now))) }
{
    let Some(viewers) = number(value(found, "viewers"), VIEWERS) else {
        return Err(WordsFault::OutOfRange(Setting::Viewers));
    };
    let Some(shots) = number(value(found, "shots"), SHOTS) else {
        return Err(WordsFault::OutOfRange(Setting::Shots));
    };
    let Some(query) = value(found, "query") else {
        return Err(WordsFault::NoScript);
    };
    let query = Text::copied(alloc, query)?;
    Ok(Viewing {
        query,
        viewers,
        shots,
        showing: showing(value(found, "as-they-come")),
    })
}

/// The job of a run, from what was found for its options and file names.
pub(crate) fn job_found(alloc: Global, found: &ArgMatches<'_>) -> Result<Job, WordsFault>
    ensures job { IfOk result (AsksFor (rows_of (found_of found.now))) }
    ensures live { IfOk result (λ job. job.live ≡ None) }
    ensures fault { IfErr result (IsFaultOf (rows_of (found_of found.now))) }
{
    let (how, hash, form) = settings(found).map_err(WordsFault::OutOfRange)?;
    let Some(script) = value(found, "SCRIPT") else {
        return Err(WordsFault::NoScript);
    };
    let (script, parts) = files(alloc, script, found)?;
    let Parts {
        files: parts,
        names,
    } = parts;
    let on_refusal = on_refusal(value(found, "strict"));
    let explains = is_given(value(found, "explain"));
    let tells_progress = is_given(value(found, "progress"));
    Ok(Job {
        how,
        hash,
        form,
        on_refusal,
        explains,
        tells_progress,
        script,
        parts,
        names,
        live: None,
    })
}

/// A copy of the script's file name, and the parts.
fn files(alloc: Global, script: &str, found: &ArgMatches<'_>) -> Result<(Text, Parts), NamingFault>
    ensures script { IfOk result (λ files. files.0 ≡ script.now) }
    ensures parts { IfOk result (λ files. AreNamed (parts_in (rows_of (found_of found.now)))
        (named (rows_of (found_of found.now))) files.1.files.items files.1.names.items) }
    ensures fault { IfErr result ExplainsNaming }
{
    let parts = parts(alloc, found)?;
    Ok((Text::copied(alloc, script)?, parts))
}

/// The texts that the strings lend.
pub(crate) fn lent(alloc: Global, strings: &[String]) -> Result<Vec<&str>, AllocFailed<&str>>
    ensures { IfOk result (λ texts. map (λ w. w.now) texts.items ≡ map string_bytes strings.now) }
{
    let mut texts = Vec::new(alloc);
    for string in strings {
        texts.push(string.as_str())?;
    }
    Ok(texts)
}

/// The settings that were found, or the first option whose value lies outside its range.
pub(crate) fn settings(found: &ArgMatches<'_>) -> Result<(How, HashChoice, Form), Setting>
    ensures chosen { IfOk result (λ p. AreChosen (rows_of (found_of found.now)) p.0 p.1 p.2) }
    ensures within { IfOk result (λ p. out_of_range (rows_of (found_of found.now)) ≡ None) }
    ensures beyond { IfErr result (λ s. out_of_range (rows_of (found_of found.now)) ≡ Some s) }
{
    let Some(workers) = number(value(found, "workers"), WORKERS) else {
        return Err(Setting::Workers);
    };
    let Some(depth) = number(value(found, "depth"), DEPTH) else {
        return Err(Setting::Depth);
    };
    let Some(small) = number(value(found, "small"), SMALL) else {
        return Err(Setting::Small);
    };
    let Some(rows) = number(value(found, "rows"), ROWS) else {
        return Err(Setting::Rows);
    };
    let Some(hash) = hash(value(found, "hash")) else {
        return Err(Setting::Hash);
    };
    let Some(form) = form(value(found, "format")) else {
        return Err(Setting::Form);
    };
    let depth = depth as u8;
    let how = How::of(workers, Cutting { depth, small }, rows);
    Ok((how, hash, form))
}

/// The first value that was found for an argument.
pub(crate) fn value<'a>(found: &ArgMatches<'a>, id: &str) -> Option<&'a str>
    ensures { option_map (λ s. s.now) result ≡ first_of id.now (rows_of (found_of found.now)) }
{
    found.get_str(id)
}

/// The number that was found, where it lies in the range, or else the default, which does.
fn number(found: Option<&str>, range: Limits) -> Option<u64>
    requires { IsWithin range range.default }
    ensures number { result ≡ number_in range (option_map (λ s. s.now) found.entry) }
    ensures range { IfSome result (IsWithin range) }
{
    let Some(text) = found else {
        return Some(range.default);
    };
    let number = whole_number_of(text)?;
    if range.least <= number && number <= range.most {
        Some(number)
    } else {
        None
    }
}

/// The hash that was found, or else the default.
fn hash(found: Option<&str>) -> Option<HashChoice>
    ensures { result ≡ hash_named (option_map (λ s. s.now) found.entry) }
{
    match found {
        None => Some(HashChoice::default()),
        Some("fnv") => Some(HashChoice::Fnv),
        Some("plain") => Some(HashChoice::Plain),
        Some(_) => None,
    }
}

/// The form that was found, or else the classic one.
pub(crate) fn form(found: Option<&str>) -> Option<Form>
    ensures { result ≡ form_named (option_map (λ s. s.now) found.entry) }
{
    match found {
        None => Some(Form::Classic),
        Some(word) => Form::of_word(word),
    }
}

/// What a run does after a refused line: it stops where the flag `--strict` was found.
pub(crate) fn on_refusal(found: Option<&str>) -> OnRefusal
    ensures { result ≡ on_refusal_by (option_map (λ s. s.now) found.entry) }
{
    match found {
        None => OnRefusal::GoesOn,
        Some("true") => OnRefusal::Stops,
        Some(_) => OnRefusal::GoesOn,
    }
}

/// Whether a flag was given.
pub(crate) fn is_given(found: Option<&str>) -> bool
    ensures { result ≡ is_given (option_map (λ s. s.now) found.entry) }
{
    match found {
        None => false,
        Some(value) => value == "true",
    }
}

/// When viewers' blocks are written: as they come, where the flag `--as-they-come` was found.
fn showing(found: Option<&str>) -> Showing
    ensures { result ≡ showing_by (is_given (option_map (λ s. s.now) found.entry)) }
{
    if is_given(found) {
        Showing::AsTheyCome
    } else {
        Showing::Last
    }
}

/// Where no option was found, the settings are those of a run of which nothing is said:
/// [`How::default`], [`HashChoice::default`] and the classic form. It does nothing.
pub fn no_option_chooses_the_defaults()
    ensures { (found : List Row) → HasNoOption found → AreChosen found default_settings default_hash Classic }
{}

/// The parts that were found, first those without names of their own.
fn parts(alloc: Global, found: &ArgMatches<'_>) -> Result<Parts, NamingFault>
    ensures parts { IfOk result (λ parts. AreNamed (parts_in (rows_of (found_of found.now)))
        (named (rows_of (found_of found.now))) parts.files.items parts.names.items) }
    ensures fault { IfErr result ExplainsNaming }
{
    let unnamed = unnamed(alloc, found)?;
    let named = values(alloc, found, "part")?;
    Parts::named(alloc, unnamed, named.as_slice())
}

/// The file names of the parts that have no names of their own, in their order.
pub(crate) fn unnamed(alloc: Global, found: &ArgMatches<'_>) -> Result<Vec<Text>, AllocError>
    ensures { IfOk result (λ names. names.items ≡ parts_in (rows_of (found_of found.now))) }
{
    values(alloc, found, "PART")
}

/// All values that were found for an argument, in their order.
pub(crate) fn values(
    alloc: Global,
    found: &ArgMatches<'_>,
    id: &str,
) -> Result<Vec<Text>, AllocError>
    ensures { IfOk result (λ values. values.items ≡ unwrap_or (all_of id.now (rows_of (found_of found.now))) []) }
{
    match found.get_strs(id) {
        Some(values) => all_owned(alloc, values),
        None => Ok(Vec::new(alloc)),
    }
}

/// A copy of each text.
fn all_owned(alloc: Global, texts: &[&str]) -> Result<Vec<Text>, AllocError>
    ensures { IfOk result (λ copies. copies.items ≡ map (λ t. t.now) texts.now) }
{
    let mut copies = Vec::new(alloc);
    for text in texts {
        copies.push(Text::copied(alloc, text)?)?;
    }
    Ok(copies)
}
