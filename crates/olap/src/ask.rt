//! One question of CSV files: `query`, and the table that it proposes: `schema`.
ghost use Rattle.std.specs.Prelude.{◌≡◌, ◌⊎◌, ◌++◌, [], IfErr, IfOk, length, map, string_bytes, true};
ghost use Rattle.std.specs.Io.Buffered.{writer_buffer, writer_contents};
ghost use Rattle.std.specs.List.{slice_index_or};
ghost use Rattle.script.specs.Endings.{Writes};
ghost use Rattle.olap.specs.Folders.{AreTold, IsFirstUnread};
ghost use Rattle.questions.specs.Options.{asks_for_help};
ghost use Rattle.questions.specs.Proposals.{line_of_proposal};
ghost use Rattle.olap.specs.Queries.{AskToAnswer, AskToPropose, IsAnswer, IsAsked, IsAnswerOfNamed, IsProposedLine, IsStrictOutput, Leaves};
ghost use Rattle.questions.specs.Questions.{line_end, script_of};

use crate::asking::Asking;
use crate::close::{NOTHING_RUN, end_early};
use crate::input::{Folder, Input, Unread, Unreadable, read_parts};
use crate::manual::{Topic, show};
use crate::plain::{Plain, say};
use crate::program::{cannot_read, errors_of, progress_of, run_input};
use crate::tell::{Renew, Screen};
use crate::telling::Telling;
use crate::unread::tell_unread;
use cells::Text;
use questions::options::{OptionFault, part_words};
use questions::proposal::{FileFault, Proposal, Unproposed, proposed};
use questions::question::{Question, SchemaQuestion, Wanted, question_of, schema_question_of};
use questions::table_text::{script_of, table_line, table_name};
use script::{Ended, HashChoice, OnRefusal};
use std::alloc::{AllocError, Global};
use std::io::{BufWriter, Write};
use std::sync::Wait;
use std::thread::Threads;
use std::time::Clock;

/// The status where a file makes no part.
pub const FAULTY: u8 = 1;

/// Answers the query that the words name, over the files that they name, and gives the program's status and the writer back.
///
/// At 0 the answer was written whole: what a strict run writes of the script that asks the query of the table that is proposed for
/// the files; or help was asked for. At 1 a file makes no part, and nothing was written, or the query is refused, and its refusal
/// was; `err` says why. At 2 the words are refused or a file can't be read, and at 3 the run ended early.
pub fn ask<
    F: Folder,
    W: Write + Drop,
    E: Write,
    R: Threads + Wait + Sync + Eprint + Clock + Screen,
>(
    rt: &R,
    alloc: Global,
    words: &[String],
    folder: &F,
    mut out: BufWriter<W>,
    err: &mut E,
) -> (u8, BufWriter<W>)
    ensures status { (result.0 ≡ 0) ⊎ ((result.0 ≡ 1) ⊎ ((result.0 ≡ 2) ⊎ (result.0 ≡ 3))) }
    ensures leaves { (asks_for_help (map string_bytes words.now) ≡ true)
        ⊎ Leaves (AskToAnswer (F.file folder.now) (map string_bytes words.now)) result.0 (writer_contents W.contents out)
        (writer_contents W.contents result.1) (writer_buffer result.1) }
{
    let parted = match part_words(alloc, words) {
        Ok(parted) => parted,
        Err(fault) => return (refuse_words("query", fault, err), out),
    };
    if parted.asks_for_help() {
        let status = show(Topic::Query.page(), &mut out, err);
        return (status, out);
    }
    match question_of(rt, alloc, &parted, rt.shows_output()) {
        Ok((question, wanted)) => ask_question(rt, alloc, &question, wanted, folder, out, err),
        Err(fault) => (refuse_words("query", fault, err), out),
    }
}

/// Shows the line of the table that [`ask`] proposes for a file, and gives the program's status, as it does.
pub fn show_schema<F: Folder, W: Write + Drop, E: Write>(
    alloc: Global,
    words: &[String],
    folder: &F,
    out: &mut BufWriter<W>,
    err: &mut E,
) -> u8
    ensures status { (result ≡ 0) ⊎ ((result ≡ 1) ⊎ ((result ≡ 2) ⊎ (result ≡ 3))) }
    ensures written { result ≡ 0 → (asks_for_help (map string_bytes words.now) ≡ true)
        ⊎ Writes (AskToPropose (F.file folder.now) (map string_bytes words.now)) (writer_contents W.contents out.old) (writer_contents W.contents out.new) }
{
    let parted = match part_words(alloc, words) {
        Ok(parted) => parted,
        Err(fault) => return refuse_words("schema", fault, err),
    };
    if parted.asks_for_help() {
        return show(Topic::Schema.page(), out, err);
    }
    match schema_question_of(alloc, &parted) {
        Ok(question) => show_table(alloc, question, folder, out, err),
        Err(fault) => refuse_words("schema", fault, err),
    }
}

/// Says why the words of a command are refused.
fn refuse_words<E: Write>(command: &str, fault: OptionFault<'_>, err: &mut E) -> u8
    ensures { result ≡ 2 }
{
    let fault = Plain(fault);
    let _ = writeln!(
        err,
        "error: {fault}\n\nFor more information, try 'olap {command} --help'."
    );
    NOTHING_RUN
}

/// Says why a file makes no part, or that memory was refused.
fn refuse_file<E: Write>(names: &[Text], fault: FileFault, err: &mut E) -> u8
    ensures { (result ≡ 1) ⊎ (result ≡ 3) }
{
    let FileFault { file, line, why } = fault;
    if let Unproposed::OutOfMemory = why {
        return end_early(Ended::OutOfMemory, err);
    }
    let name = match names.get(file) {
        Some(name) => name.as_str(),
        None => "",
    };
    say(err, format_args!("{name}:{line}: {why}"));
    FAULTY
}

/// Reads the files of a question, and answers it.
fn ask_question<
    F: Folder,
    W: Write + Drop,
    E: Write,
    R: Threads + Wait + Sync + Eprint + Clock + Screen,
>(
    rt: &R,
    alloc: Global,
    question: &Question<'_>,
    wanted: Wanted,
    folder: &F,
    out: BufWriter<W>,
    err: &mut E,
) -> (u8, BufWriter<W>)
    ensures status { (result.0 ≡ 0) ⊎ ((result.0 ≡ 1) ⊎ ((result.0 ≡ 2) ⊎ (result.0 ≡ 3))) }
    ensures leaves { Leaves (IsAnswerOfNamed (F.file folder.now) question.now wanted) result.0 (writer_contents W.contents out)
        (writer_contents W.contents result.1) (writer_buffer result.1) }
{
    match read_files(alloc, folder, question.names.as_slice()) {
        Ok(files) => ask_files(rt, alloc, question, files.as_slice(), wanted, out, err),
        Err(unread) => (cannot_read(unread, err), out),
    }
}

/// Answers a question of files that hold these bytes. Standard error tells first which of their columns are not read, where the
/// question asks for it.
fn ask_files<W: Write + Drop, E: Write, R: Threads + Wait + Sync + Eprint + Clock + Screen>(
    rt: &R,
    alloc: Global,
    question: &Question<'_>,
    files: &[Vec<u8>],
    wanted: Wanted,
    out: BufWriter<W>,
    err: &mut E,
) -> (u8, BufWriter<W>)
    ensures status { (result.0 ≡ 0) ⊎ ((result.0 ≡ 1) ⊎ (result.0 ≡ 3)) }
    ensures leaves { Leaves (IsAnswer (map (λ f. f.items) files.now) question.now wanted) result.0 (writer_contents W.contents out)
        (writer_contents W.contents result.1) (writer_buffer result.1) }
{
    let teller = errors_of(rt, question.tells_progress);
    match tell_unread(alloc, &teller, question, files, &wanted) {
        Ok(()) => ask_told(rt, alloc, &teller, question, files, wanted, out, err),
        Err(fault) => (refuse_file(question.names.as_slice(), fault, err), out),
    }
}

/// Answers a question of files that hold these bytes. `teller` is told why it is refused, and how far the run is.
fn ask_told<T: Renew + Sync, W: Write + Drop, E: Write, R: Threads + Wait + Sync + Clock>(
    rt: &R,
    alloc: Global,
    teller: &T,
    question: &Question<'_>,
    files: &[Vec<u8>],
    wanted: Wanted,
    out: BufWriter<W>,
    err: &mut E,
) -> (u8, BufWriter<W>)
    ensures status { (result.0 ≡ 0) ⊎ ((result.0 ≡ 1) ⊎ (result.0 ≡ 3)) }
    ensures leaves { Leaves (IsAnswer (map (λ f. f.items) files.now) question.now wanted) result.0 (writer_contents W.contents out)
        (writer_contents W.contents result.1) (writer_buffer result.1) }
{
    let delimiter = wanted.delimiter;
    match input_of_files(alloc, question, files, wanted) {
        Ok(input) => {
            let asked = Asked {
                question,
                files,
                delimiter,
                input: &input,
            };
            run_asked(rt, alloc, teller, &asked, out, err)
        }
        Err(fault) => (refuse_file(question.names.as_slice(), fault, err), out),
    }
}

/// The script that asks a question, and its parts, which are made of these files.
fn input_of_files(
    alloc: Global,
    question: &Question<'_>,
    files: &[Vec<u8>],
    wanted: Wanted,
) -> Result<Input, FileFault>
    ensures { IfOk result (λ input. IsAsked (map (λ f. f.items) files.now) wanted question.now.query.now question.now.names.items input) }
{
    let proposal = proposed(alloc, files, wanted, Some(question.query))?;
    Ok(input_of(alloc, question.names.as_slice(), question.query, proposal)?)
}

/// What a run that asks a question is made with.
#[derive(Drop)]
struct Asked<'a> {
    question: &'a Question<'a>,
    /// What the files hold, and the byte between two fields.
    files: &'a [Vec<u8>],
    delimiter: u8,
    input: &'a Input,
}

/// Runs the script that asks, up to its first refused line.
fn run_asked<'a, T: Renew + Sync, W: Write + Drop, E: Write, R: Threads + Wait + Sync + Clock>(
    rt: &'a R,
    alloc: Global,
    teller: &'a T,
    asked: &'a Asked<'a>,
    out: BufWriter<W>,
    err: &mut E,
) -> (u8, BufWriter<W>)
    ensures status { (result.0 ≡ 0) ⊎ ((result.0 ≡ 1) ⊎ (result.0 ≡ 3)) }
    ensures leaves { Leaves (IsStrictOutput asked.now.question.now asked.now.input.now) result.0 (writer_contents W.contents out)
        (writer_contents W.contents result.1) (writer_buffer result.1) }
{
    let asking = Asking::new(
        teller,
        alloc,
        asked.question.query,
        asked.question.names.as_slice(),
        asked.files,
        asked.delimiter,
        asked.input,
    );
    let gate = Telling {
        explaining: asking,
        progress: progress_of(teller, rt, asked.question.tells_progress),
    };
    run_input(
        rt,
        alloc,
        &asked.question.how,
        HashChoice::default(),
        &asked.question.manner,
        None,
        OnRefusal::Stops,
        asked.input,
        &gate,
        out,
        err,
    )
}

/// The bytes of the files of these names, or the first that can't be read, also for want of memory.
pub(crate) fn read_files<'n, F: Folder>(
    alloc: Global,
    folder: &F,
    names: &'n [Text],
) -> Result<Vec<Vec<u8>>, Unreadable<'n>>
    ensures told { IfOk result (λ files. AreTold (F.file folder.now) names.now (map (λ f. f.items) files.items)) }
    ensures named { IfErr result (λ unread. IsFirstUnread (F.was_read folder.now) (F.was_refused folder.now) names.now unread.name.now
        ⊎ (unread.why ≡ Unread.Memory)) }
{
    let Ok(room) = Vec::with_capacity(alloc, names.len()) else {
        let name = first_name(names);
        let why = Unread::Memory;
        return Err(Unreadable { name, why });
    };
    match read_parts(folder, names, room) {
        Ok(files) => Ok(files),
        Err(unread) => Err(unread),
    }
}

/// The script that asks a query of a table that is proposed, and its parts.
fn input_of(
    alloc: Global,
    names: &[Text],
    query: &str,
    proposal: Proposal,
) -> Result<Input, AllocError>
    ensures script { IfOk result (λ input. input.script.items ≡ script_of (line_of_proposal names.now proposal) (length proposal.parts.items) query.now) }
    ensures parts { IfOk result (λ input. input.parts ≡ proposal.parts) }
{
    let line = line_of_proposal(alloc, names, &proposal)?;
    let Proposal {
        parts,
        columns: _,
        key: _,
    } = proposal;
    let script = script_of(alloc, line.as_str(), parts.len(), query)?;
    Ok(Input { script, parts })
}

/// The line of a table that is proposed for files of these names.
fn line_of_proposal(
    alloc: Global,
    names: &[Text],
    proposal: &Proposal,
) -> Result<String, AllocError>
    ensures { IfOk result (λ line. string_bytes line ≡ line_of_proposal names.now proposal.now) }
{
    let name = table_name(alloc, first_name(names))?;
    table_line(
        alloc,
        name.as_str(),
        proposal.columns.as_slice(),
        proposal.key,
    )
}

/// The first of the names, of which there is one at least.
fn first_name(names: &[Text]) -> &str
    ensures { result.now ≡ slice_index_or names.now 0 [] }
{
    match names.first() {
        Some(name) => name.as_str(),
        None => "",
    }
}

/// Reads the file, and shows the line of the table that is proposed for it.
fn show_table<F: Folder, W: Write + Drop, E: Write>(
    alloc: Global,
    question: SchemaQuestion,
    folder: &F,
    out: &mut BufWriter<W>,
    err: &mut E,
) -> u8
    ensures status { (result ≡ 0) ⊎ ((result ≡ 1) ⊎ ((result ≡ 2) ⊎ (result ≡ 3))) }
    ensures written { result ≡ 0 → Writes (IsProposedLine (F.file folder.now) question.names.items question.wanted)
        (writer_contents W.contents out.old) (writer_contents W.contents out.new) }
{
    let SchemaQuestion { names, wanted } = question;
    let files = match read_files(alloc, folder, names.as_slice()) {
        Ok(files) => files,
        Err(unread) => return cannot_read(unread, err),
    };
    let proposal = match proposed(alloc, files.as_slice(), wanted, None) {
        Ok(proposal) => proposal,
        Err(fault) => return refuse_file(names.as_slice(), fault, err),
    };
    match shown_line(alloc, names.as_slice(), &proposal) {
        Ok(line) => show(line.as_str(), out, err),
        Err(_) => end_early(Ended::OutOfMemory, err),
    }
}

/// The line, with its end.
fn shown_line(alloc: Global, names: &[Text], proposal: &Proposal) -> Result<String, AllocError>
    ensures { IfOk result (λ line. string_bytes line ≡ line_of_proposal names.now proposal.now ++ line_end) }
{
    let mut line = line_of_proposal(alloc, names, proposal)?;
    line.push_str("\n")?;
    Ok(line)
}
