//! The words of `run --shard` and of `join`, as `clap` reads them.
ghost use Rattle.std.specs.Prelude.{◌≡◌, IfErr, IfOk, codes, false, map, option_and_then, option_map, string_bytes};
ghost use Rattle.clap.specs.Words.{FailsBy, app_of, fault_of, found_of, matches_of, rows_of, rule_of, with_rule};
ghost use Rattle.clap.specs.declared.builder.command.Command.TheViews.{out-Command as fields_of};
ghost use Rattle.command.specs.Jobs.{is_given};
ghost use Rattle.command.specs.ShardWords.{AskForShard, AskToJoin, AsksForShard, AsksToJoin, ExplainsJoinFault, ExplainsShardFault, IsJoinFault, IsShardFault, bare, division_by, files as files_in, join_app, own_rule, partials_rule, required_rule, shard_app, shard_named};

use crate::command_line::{named_part, with, with_names, with_option};
use crate::job::{Job, Setting, WordsFault};
use crate::words::{form, is_given, job_found, lent, value, values};
use cells::{Text, whole_number_of};
use clap::{Arg, ArgAction, ArgMatches, Command, Error};
use forms::Form;
use loader::Shard;
use shards::Division;
use std::alloc::{AllocError, Global};

const SHARD: &str =
    "Runs a script over one shard of its table, and writes to a file what it tells: its partial answer";

const SHARD_MORE: &str = "Example:
  olap run --shard 1/2 --partials 1.partials examples/loads.olap examples/loads.1.csv examples/loads.2.csv
  olap run --shard 2/2 --partials 2.partials examples/loads.olap examples/loads.1.csv examples/loads.2.csv
  olap join 1.partials 2.partials

Each shard has the rows whose keys belong to it by their hashes. All parts are read for each, so that each refuses
what is to be refused; hand in the same script and the same parts in the same order, on whatever machines. A shard
is told of in one thread, and wants memory for its own rows: as many shards as processors can run side by side.
A `shape` line is refused: no shard can tell of it.

With --own-parts each shard has parts of its own, as many as every other one and in the same order, and all rows
that are in them. What is joined is about all rows of all parts: part 1 then stands for the parts 1 of all shards.
No key may be in the parts of two shards, and nothing looks whether one is: such totals are wrong. A script that
puts a row is refused, and so is one with a load that is refused, for no shard knows the parts of the others.

The status is 0 where FILE was written, 2 where the words or the script are refused or a file cannot be read, and 3
where memory was refused or FILE cannot be written. FILE is there whole or not at all.";

const JOIN: &str = "Joins partial answers of `olap run --shard` to the output of their script";

const JOIN_MORE: &str = "Example:
  olap join 1.partials 2.partials

What is written is what `olap run` of the script over all rows writes. All shards must be there, once each, in any
order, of one script. With --partials, those that are given are joined to one partial answer, which can be joined
with others: so an engine may join in a tree.

The status is 0 where all was written, 2 where the words are refused, a file cannot be read or does not fit, or a
shard is missing, and nothing was written, and 3 where memory was refused or the writing failed.";

/// What the words of `run --shard` ask for. It owns its file names.
#[derive(Drop)]
pub struct ShardJob {
    /// The run of which the shard tells.
    pub run: Job,
    /// The shard.
    pub shard: Shard,
    /// How the table is divided: by parts, where these are the shard's own.
    pub division: Division,
    /// The name of the file that is to have the partial answer.
    pub partials: Text,
}

/// What the words of `join` ask for. It owns its file names.
#[derive(Drop)]
pub struct JoinJob {
    /// The form of the output.
    pub form: Form,
    /// The name of the file that is to have the joint partial answer. Where there is none, the output is written.
    pub partials: Option<Text>,
    /// The name of the first file that is joined.
    pub first: Text,
    /// The names of the others, in the order of the line.
    pub others: Vec<Text>,
}

/// The shard that the words after `run` ask for: the value that `clap` finds for each option and file name, else the default of a
/// run. [`WordsFault::OutOfRange`] and [`WordsFault::Naming`] come only where `clap` reads the words; any other fault is `clap`'s,
/// help and want of memory among them.
pub fn shard_job(alloc: Global, given: &[String]) -> Result<ShardJob, WordsFault>
    ensures job { IfOk result (AskForShard (map string_bytes given.now)) }
    ensures fault { IfErr result (ExplainsShardFault (map string_bytes given.now)) }
{
    let texts = lent(alloc, given)?;
    shard_of_words(alloc, texts.as_slice())
}

/// The same, of words that are lent.
pub fn shard_of_words(alloc: Global, words: &[&str]) -> Result<ShardJob, WordsFault>
    ensures job { IfOk result (AskForShard (map (λ w. w.now) words.now)) }
    ensures fault { IfErr result (ExplainsShardFault (map (λ w. w.now) words.now)) }
{
    let found = shard_matches(alloc, words).map_err(WordsFault::Clap)?;
    shard_found(alloc, &found)
}

/// The join that the words after `join` ask for, as [`shard_job`] has its shard.
pub fn join_job(alloc: Global, given: &[String]) -> Result<JoinJob, WordsFault>
    ensures job { IfOk result (AskToJoin (map string_bytes given.now)) }
    ensures fault { IfErr result (ExplainsJoinFault (map string_bytes given.now)) }
{
    let texts = lent(alloc, given)?;
    join_of_words(alloc, texts.as_slice())
}

/// The same, of words that are lent.
pub fn join_of_words(alloc: Global, words: &[&str]) -> Result<JoinJob, WordsFault>
    ensures job { IfOk result (AskToJoin (map (λ w. w.now) words.now)) }
    ensures fault { IfErr result (ExplainsJoinFault (map (λ w. w.now) words.now)) }
{
    let found = join_matches(alloc, words).map_err(WordsFault::Clap)?;
    join_found(alloc, &found)
}

/// The shard, from what was found for its options and file names.
fn shard_found(alloc: Global, found: &ArgMatches<'_>) -> Result<ShardJob, WordsFault>
    ensures job { IfOk result (AsksForShard (rows_of (found_of found.now))) }
    ensures fault { IfErr result (IsShardFault (rows_of (found_of found.now))) }
{
    let run = job_found(alloc, found)?;
    let Some(shard) = shard(value(found, "shard")) else {
        return Err(WordsFault::OutOfRange(Setting::Shard));
    };
    let Some(partials) = value(found, "partials") else {
        return Err(WordsFault::NoScript);
    };
    let partials = Text::copied(alloc, partials)?;
    Ok(ShardJob {
        run,
        shard,
        division: division(value(found, "own-parts")),
        partials,
    })
}

/// The join, from what was found for its options and file names.
fn join_found(alloc: Global, found: &ArgMatches<'_>) -> Result<JoinJob, WordsFault>
    ensures job { IfOk result (AsksToJoin (rows_of (found_of found.now))) }
    ensures fault { IfErr result (IsJoinFault (rows_of (found_of found.now))) }
{
    let Some(form) = form(value(found, "format")) else {
        return Err(WordsFault::OutOfRange(Setting::Form));
    };
    let partials = owned(alloc, value(found, "partials"))?;
    let mut files = values(alloc, found, "PARTIALS")?;
    if files.is_empty() {
        return Err(WordsFault::NoScript);
    }
    let first = files.remove(0);
    Ok(JoinJob {
        form,
        partials,
        first,
        others: files,
    })
}

/// The shard that was found, as `K/N`.
fn shard(found: Option<&str>) -> Option<Shard>
    ensures { result ≡ option_and_then shard_named (option_map (λ s. s.now) found.entry) }
{
    match found {
        Some(word) => shard_named(word),
        None => None,
    }
}

/// The shard K of N that the word `K/N` names, where 1 ≤ K ≤ N.
#[tactic(auto, using(crate::proofs::ShardWordsLemmas::no_slash, crate::proofs::ShardWordsLemmas::no_number, crate::proofs::ShardWordsLemmas::no_count, crate::proofs::ShardWordsLemmas::both_numbers))]
fn shard_named(word: &str) -> Option<Shard>
    ensures { result ≡ shard_named word.now }
{
    let Some((number, count)) = word.split_once('/') else {
        return None;
    };
    let number = whole_number_of(number)?;
    let count = whole_number_of(count)?;
    Shard::new(number, count)
}

/// How the table is divided: by parts, where the flag `--own-parts` was found.
fn division(found: Option<&str>) -> Division
    ensures { result ≡ division_by (is_given (option_map (λ s. s.now) found.entry)) }
{
    if is_given(found) {
        Division::Parts
    } else {
        Division::Keys
    }
}

/// A copy of a text that was found.
fn owned(alloc: Global, found: Option<&str>) -> Result<Option<Text>, AllocError>
    ensures { IfOk result (λ text. text ≡ option_map (λ s. s.now) found.entry) }
{
    match found {
        Some(text) => Ok(Some(Text::copied(alloc, text)?)),
        None => Ok(None),
    }
}

/// What `clap` finds in the words of a shard.
fn shard_matches<'a>(alloc: Global, words: &'a [&'a str]) -> Result<ArgMatches<'a>, Error>
    ensures fails { FailsBy (fault_of shard_app (map (λ w. w.now) words.entry.now)) result }
    ensures found { IfOk result (λ m. rows_of (found_of m) ≡ matches_of shard_app (map (λ w. w.now) words.entry.now)) }
{
    shard_command(alloc)?.try_get_matches_from(words)
}

/// What `clap` finds in the words of a join.
fn join_matches<'a>(alloc: Global, words: &'a [&'a str]) -> Result<ArgMatches<'a>, Error>
    ensures fails { FailsBy (fault_of join_app (map (λ w. w.now) words.entry.now)) result }
    ensures found { IfOk result (λ m. rows_of (found_of m) ≡ matches_of join_app (map (λ w. w.now) words.entry.now)) }
{
    join_command(alloc)?.try_get_matches_from(words)
}

/// `run --shard`, with its options and its file names.
fn shard_command<'a>(alloc: Global) -> Result<Command<'a>, AllocError>
    ensures { IfOk result (λ c. app_of c ≡ shard_app) }
{
    let command = with_shard(alloc, bare_shard(alloc)?)?;
    let command = with(command, own_parts(alloc))?;
    let command = with_option(
        alloc,
        command,
        "rows",
        "M",
        "Most rows of the shard, 1 to 4294967296 [default: 4294967296]",
    )?;
    let command = with(command, named_part(alloc))?;
    with_names(alloc, command)
}

/// The command with the two options that a shard has to have.
fn with_shard<'a>(alloc: Global, command: Command<'a>) -> Result<Command<'a>, AllocError>
    ensures app { IfOk result (λ c. app_of c ≡ with_rule (with_rule (app_of command.entry) (required_rule (codes "shard")))
        (required_rule (codes "partials"))) }
    ensures local { IfOk result (λ c. (fields_of c).has_globals ≡ (fields_of command.entry).has_globals) }
{
    let shard = required(
        alloc,
        "shard",
        "K/N",
        "The shard K of N, of which the partial answer is to tell",
    );
    let command = with(command, shard)?;
    let file = required(
        alloc,
        "partials",
        "FILE",
        "File that is to have the partial answer",
    );
    with(command, file)
}

/// The flag of a shard that has parts of its own.
fn own_parts<'a>(alloc: Global) -> Arg<'a>
    ensures rule { rule_of result ≡ own_rule }
    ensures local { result.global ≡ false }
{
    Arg::new(alloc, "own-parts")
        .long("own-parts")
        .action(ArgAction::SetTrue)
        .help(
            "The parts are this shard's own: it has all rows in them, and no other shard has a row of their keys",
        )
}

/// `run --shard`, before its options.
fn bare_shard<'a>(alloc: Global) -> Result<Command<'a>, AllocError>
    ensures { IfOk result (λ c. app_of c ≡ bare (codes "run")) }
{
    Command::new(alloc, "run")
        .no_binary_name(true)
        .about(SHARD)
        .after_help(SHARD_MORE)
        .bin_name("olap run")
}

/// `join`, with its options and its file names.
fn join_command<'a>(alloc: Global) -> Result<Command<'a>, AllocError>
    ensures { IfOk result (λ c. app_of c ≡ join_app) }
{
    let command = bare_join(alloc)?;
    let command = with_option(
        alloc,
        command,
        "format",
        "FORM",
        "Form of the output, classic, csv, json or table [default: classic]",
    )?;
    let command = with_option(
        alloc,
        command,
        "partials",
        "FILE",
        "File that is to have the joint partial answer, in place of the output",
    )?;
    with(command, partials(alloc))
}

/// `join`, before its options.
fn bare_join<'a>(alloc: Global) -> Result<Command<'a>, AllocError>
    ensures { IfOk result (λ c. app_of c ≡ bare (codes "join")) }
{
    Command::new(alloc, "join")
        .no_binary_name(true)
        .about(JOIN)
        .after_help(JOIN_MORE)
        .bin_name("olap join")
}

/// An option that takes one value, and has to be given.
fn required<'a>(alloc: Global, id: &'a str, value: &'a str, help: &'a str) -> Arg<'a>
    ensures rule { rule_of result ≡ required_rule id.entry.now }
    ensures local { result.global ≡ false }
{
    Arg::new(alloc, id)
        .long(id)
        .value_name(value)
        .required(true)
        .help(help)
}

/// The files of partial answers.
fn partials<'a>(alloc: Global) -> Arg<'a>
    ensures rule { rule_of result ≡ partials_rule }
    ensures local { result.global ≡ false }
{
    Arg::new(alloc, "PARTIALS")
        .required(true)
        .num_args(1..)
        .help("Files of partial answers, each of other shards of one table")
}
