//! The command line, as `clap` knows it. What contracts see of it is `olap` in
//! `specs/CommandLine.antt`; the texts of help are shown by the cases of `tools/program`.
ghost use Rattle.std.specs.Prelude.{◌≡◌, IfOk, codes, false, map};
ghost use Rattle.clap.specs.Words.{FailsBy, app_of, fault_of, rule_of, subcommand_of, subcommand_rows_of, with_rule};
ghost use Rattle.clap.specs.declared.builder.command.Command.TheViews.{out-Command as fields_of};
ghost use Rattle.command.specs.CommandLine.{IsLocal, coming_rule, explain_rule, live_app, named_rule, olap, option_rule, part_rule, progress_rule, query_rule, run_app, script_rule, strict_rule, top_app, with_counts as and_counts, with_files, with_flags as and_flags, with_options as and_options, with_settings as and_settings, with_viewing as and_viewing};

use clap::{Arg, ArgAction, ArgMatches, Command, Error};
use std::alloc::{AllocError, Global};

const ABOUT: &str =
    "Reports over published editions of one table, which a script loads and corrects";

const RUN: &str = "Runs a script and writes its reports to standard output";

const START: &str = "With no words at all, olap runs the script that comes on standard input.

  olap session [PART]...          answers lines as they come on standard input
  olap query 'SELECT ..' FILE...  answers one query over CSV files
  olap schema FILE                shows the table that is proposed for a CSV file
  olap check SCRIPT [PART]...     looks for faults in a script and its parts, and loads nothing
  olap join PARTIALS...           joins what runs over the shards of a table told (olap help shard)
  olap help language              tells of the language of scripts
  olap help 12                    tells of a refusal by its number";

const EXAMPLE: &str = "Example:
  olap run --workers 4 examples/loads.olap examples/loads.1.csv examples/loads.2.csv

A refused line is reported in the output, and the script goes on; with --strict it is the last line, and
with --explain standard error has its reason, as `loads.olap:9:72: .. (10 QuerySyntax)`. With --progress
standard error tells of each part that was read and of each report that was answered.
Parts are CSV files, which the lines `load 1 2 ..` of the script name by their numbers, or by a name that
`--part NAME=FILE` gives: a letter or _ and then letters, digits and _. Each worker is a thread; depth and small say how a table is cut for the workers of a report. None of the three changes
a byte of the output. With --shard the run is one over a shard of the table: `olap help shard`.

The status is 0 where the whole output was written, 1 where a strict run stopped after a refused line,
2 where the words are refused or a file cannot be read, and 3 where the run ended early.";

const LIVE: &str =
    "Runs a script with viewers beside it, whose reports it writes after the script's, or as they come";

const LIVE_EXAMPLE: &str = "Example:
  olap live --query 'SELECT COUNT(*) FROM SALES' --viewers 1 examples/live.olap examples/loads.1.csv

Each viewer is a thread that reports on the edition that stands published when it looks, while the script
runs, and once more after the last line. Its reports come after all that `olap run` writes, viewer after
viewer, each under a line with its edition. With --as-they-come they come as they are made, those of each
viewer in their order, between the reports of the script. Which editions are seen depends on the threads; no
viewer sees an earlier one again, and the last report is always on the last edition. A strict run that stops
after a refused line writes no more reports of viewers.

The status is 0 where the whole output was written, 1 where a strict run stopped after a refused line,
2 where the words are refused or a file cannot be read, and 3 where the run ended early.";

/// The version of the program, and the toolchain that proved and built it: what `olap --version` prints.
pub const VERSION: &str = "1.14.1 (rattle-kit-13f logic dac8208d650f15bf)";

/// What `clap` finds in the words after the program's name.
pub fn matches<'a>(alloc: Global, words: &'a [&'a str]) -> Result<ArgMatches<'a>, Error>
    ensures fails { FailsBy (fault_of olap (map (λ w. w.now) words.entry.now)) result }
    ensures found { IfOk result (λ m. subcommand_rows_of m ≡ subcommand_of olap (map (λ w. w.now) words.entry.now)) }
{
    let command = top(alloc)?
        .subcommand(run(alloc)?)?
        .subcommand(live(alloc)?)?;
    command.try_get_matches_from(words)
}

/// `olap`, which needs a subcommand.
fn top<'a>(alloc: Global) -> Result<Command<'a>, AllocError>
    ensures { IfOk result (λ c. app_of c ≡ top_app) }
{
    Command::new(alloc, "olap")
        .no_binary_name(true)
        .subcommand_required(true)
        .version(VERSION)
        .about(ABOUT)
        .after_help(START)
        .bin_name("olap")
}

/// `olap run`
fn run<'a>(alloc: Global) -> Result<Command<'a>, AllocError>
    ensures app { IfOk result (λ c. app_of c ≡ run_app) }
    ensures local { IfOk result IsLocal }
{
    let command = Command::new(alloc, "run").about(RUN).after_help(EXAMPLE);
    let command = with_options(alloc, command)?;
    with_names(alloc, command)
}

/// `olap live`
fn live<'a>(alloc: Global) -> Result<Command<'a>, AllocError>
    ensures app { IfOk result (λ c. app_of c ≡ live_app) }
    ensures local { IfOk result IsLocal }
{
    let command = Command::new(alloc, "live")
        .about(LIVE)
        .after_help(LIVE_EXAMPLE);
    let command = with_options(alloc, command)?;
    let command = with_viewing(alloc, command)?;
    with_names(alloc, command)
}

/// The command with what viewers are asked.
fn with_viewing<'a>(alloc: Global, command: Command<'a>) -> Result<Command<'a>, AllocError>
    ensures app { IfOk result (λ c. app_of c ≡ and_viewing (app_of command.entry)) }
    ensures local { IfOk result (λ c. (fields_of c).has_globals ≡ (fields_of command.entry).has_globals) }
{
    let command = with(command, query(alloc))?;
    let command = with_counts(alloc, command)?;
    with(command, as_they_come(alloc))
}

/// The command with how many viewers there are, and how often they look.
fn with_counts<'a>(alloc: Global, command: Command<'a>) -> Result<Command<'a>, AllocError>
    ensures app { IfOk result (λ c. app_of c ≡ and_counts (app_of command.entry)) }
    ensures local { IfOk result (λ c. (fields_of c).has_globals ≡ (fields_of command.entry).has_globals) }
{
    let command = with_option(
        alloc,
        command,
        "viewers",
        "V",
        "Viewers, each in a thread of its own, 1 to 16 [default: 2]",
    )?;
    with_option(
        alloc,
        command,
        "shots",
        "K",
        "Reports of each viewer before its last one, 1 to 1000 [default: 1]",
    )
}

/// The query of the viewers, which has to be given.
fn query<'a>(alloc: Global) -> Arg<'a>
    ensures rule { rule_of result ≡ query_rule }
    ensures local { result.global ≡ false }
{
    Arg::new(alloc, "query")
        .long("query")
        .value_name("QUERY")
        .required(true)
        .help("Query that each viewer answers")
}

/// The flag of viewers who show each report as it is made.
fn as_they_come<'a>(alloc: Global) -> Arg<'a>
    ensures rule { rule_of result ≡ coming_rule }
    ensures local { result.global ≡ false }
{
    Arg::new(alloc, "as-they-come")
        .long("as-they-come")
        .action(ArgAction::SetTrue)
        .help("Write the reports of viewers as they are made, between those of the script")
}

/// The command with the options of a run.
fn with_options<'a>(alloc: Global, command: Command<'a>) -> Result<Command<'a>, AllocError>
    ensures app { IfOk result (λ c. app_of c ≡ and_options (app_of command.entry)) }
    ensures local { IfOk result (λ c. (fields_of c).has_globals ≡ (fields_of command.entry).has_globals) }
{
    let command = with_settings(alloc, command)?;
    let command = with_flags(alloc, command)?;
    with(command, named_part(alloc))
}

/// The command with the flags of a run.
fn with_flags<'a>(alloc: Global, command: Command<'a>) -> Result<Command<'a>, AllocError>
    ensures app { IfOk result (λ c. app_of c ≡ and_flags (app_of command.entry)) }
    ensures local { IfOk result (λ c. (fields_of c).has_globals ≡ (fields_of command.entry).has_globals) }
{
    let command = with(command, strict(alloc))?;
    let command = with(command, explain(alloc))?;
    with(command, progress(alloc))
}

/// The command with the options of a run that take a value.
pub(crate) fn with_settings<'a>(
    alloc: Global,
    command: Command<'a>,
) -> Result<Command<'a>, AllocError>
    ensures app { IfOk result (λ c. app_of c ≡ and_settings (app_of command.entry)) }
    ensures local { IfOk result (λ c. (fields_of c).has_globals ≡ (fields_of command.entry).has_globals) }
{
    let command = with_option(
        alloc,
        command,
        "workers",
        "N",
        "Workers that load parts and answer reports, 1 to 64 [default: 1]",
    )?;
    let command = with_option(
        alloc,
        command,
        "depth",
        "D",
        "Depth above which a table is cut into pieces, 0 to 13 [default: 1]",
    )?;
    let command = with_option(
        alloc,
        command,
        "small",
        "S",
        "Only branches with more entries than this are cut [default: 0]",
    )?;
    let command = with_option(
        alloc,
        command,
        "hash",
        "HASH",
        "Hash of the keys, fnv or plain [default: fnv]",
    )?;
    let command = with_option(
        alloc,
        command,
        "rows",
        "M",
        "Most rows of the table, 1 to 4294967296 [default: 4294967296]",
    )?;
    with_option(
        alloc,
        command,
        "format",
        "FORM",
        "Form of what is written, classic, csv, json or table [default: classic]",
    )
}

/// The option that names a part, which may come again and again.
pub(crate) fn named_part<'a>(alloc: Global) -> Arg<'a>
    ensures rule { rule_of result ≡ named_rule }
    ensures local { result.global ≡ false }
{
    Arg::new(alloc, "part")
        .long("part")
        .value_name("NAME=FILE")
        .action(ArgAction::Append)
        .help(
            "Part that `load NAME` lists; it may be given again, and comes after the others in number",
        )
}

/// The flag of a strict run.
pub(crate) fn strict<'a>(alloc: Global) -> Arg<'a>
    ensures rule { rule_of result ≡ strict_rule }
    ensures local { result.global ≡ false }
{
    Arg::new(alloc, "strict")
        .long("strict")
        .action(ArgAction::SetTrue)
        .help("Stop after the first refused line, with the status 1")
}

/// The flag of a run that tells why lines are refused.
fn explain<'a>(alloc: Global) -> Arg<'a>
    ensures rule { rule_of result ≡ explain_rule }
    ensures local { result.global ≡ false }
{
    Arg::new(alloc, "explain")
        .long("explain")
        .action(ArgAction::SetTrue)
        .help("Tell on standard error why each refused line is refused, and where its fault is")
}

/// The flag of a run that tells how far it is.
fn progress<'a>(alloc: Global) -> Arg<'a>
    ensures rule { rule_of result ≡ progress_rule }
    ensures local { result.global ≡ false }
{
    Arg::new(alloc, "progress")
        .long("progress")
        .action(ArgAction::SetTrue)
        .help("Tell on standard error how far the run is, and of each report how long it took")
}

/// The command with one more option, which takes one value.
pub(crate) fn with_option<'a>(
    alloc: Global,
    command: Command<'a>,
    id: &'a str,
    value: &'a str,
    help: &'a str,
) -> Result<Command<'a>, AllocError>
    ensures app { IfOk result (λ c. app_of c ≡ with_rule (app_of command.entry) (option_rule id.entry.now)) }
    ensures local { IfOk result (λ c. (fields_of c).has_globals ≡ (fields_of command.entry).has_globals) }
{
    with(command, option(alloc, id, value, help))
}

/// The command with its file names.
pub(crate) fn with_names<'a>(alloc: Global, command: Command<'a>) -> Result<Command<'a>, AllocError>
    ensures app { IfOk result (λ c. app_of c ≡ with_files (app_of command.entry)) }
    ensures local { IfOk result (λ c. (fields_of c).has_globals ≡ (fields_of command.entry).has_globals) }
{
    let command = with(command, script(alloc))?;
    with(command, parts(alloc))
}

/// The command with one more argument.
pub(crate) fn with<'a>(command: Command<'a>, arg: Arg<'a>) -> Result<Command<'a>, AllocError>
    requires { arg.global ≡ false }
    ensures app { IfOk result (λ c. app_of c ≡ with_rule (app_of command.entry) (rule_of arg.entry)) }
    ensures local { IfOk result (λ c. (fields_of c).has_globals ≡ (fields_of command.entry).has_globals) }
{
    command.arg(arg)
}

/// An option that takes one value.
fn option<'a>(alloc: Global, id: &'a str, value: &'a str, help: &'a str) -> Arg<'a>
    ensures rule { rule_of result ≡ option_rule id.entry.now }
    ensures local { result.global ≡ false }
{
    Arg::new(alloc, id).long(id).value_name(value).help(help)
}

/// The script's file name.
fn script<'a>(alloc: Global) -> Arg<'a>
    ensures rule { rule_of result ≡ script_rule }
    ensures local { result.global ≡ false }
{
    Arg::new(alloc, "SCRIPT")
        .required(true)
        .help("File of the script, of at most 1048576 bytes")
}

/// The parts' file names.
pub(crate) fn parts<'a>(alloc: Global) -> Arg<'a>
    ensures rule { rule_of result ≡ part_rule }
    ensures local { result.global ≡ false }
{
    Arg::new(alloc, "PART")
        .num_args(0..)
        .help("Files of the parts, at most 64, numbered from 1")
}
