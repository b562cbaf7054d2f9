//! What `query` and `schema` are asked, from their words.
ghost use Rattle.std.specs.Prelude.{◌≡◌, IfOk, IfSome, Some, codes, false, if◌then◌else◌, map, option_map};
ghost use Rattle.std.specs.Option.{option_map_or};
ghost use Rattle.cells.specs.Integers.{whole_number_of};
ghost use Rattle.forms.specs.Forms.{form_of};
ghost use Rattle.prepare.specs.Listed.{listed_in, naming_of};
ghost use Rattle.prepare.specs.Words.{name_of};
ghost use Rattle.questions.specs.Asking.{IsQuestion, IsWanted, comma, delimiter_of};
ghost use Rattle.questions.specs.Options.{items_of, names_in, value_in};
ghost use Rattle.forms.specs.declared.form.Form.TheVariants.{Csv, Table};
ghost use Rattle.script.specs.Hows.{default_settings};
ghost use Rattle.script.specs.Limits.{IsWithin};

use crate::options::{OptionFault, Parted, Setting};
use crate::ordering::arrangement_of;
use cells::{Text, whole_number_of};
use forms::Form;
use prepare::{Chosen, ListFault, listed_columns, name_of};
use report::Arrangement;
use script::{DEPTH, How, Limits, MAX_PARTS, Manner, ROWS, SMALL, WORKERS};
use std::alloc::Global;
use std::thread::{Threads, available_parallelism};
use trie::Cutting;

/// How many workers answer where nobody says how many, and the system does not tell how many processors there are.
const WORKERS_UNTOLD: u64 = 4;

/// One query of files.
#[derive(Drop)]
pub struct Question<'w> {
    /// The query's text.
    pub query: &'w str,
    /// The files, of which there is one at least.
    pub names: Vec<Text>,
    /// How the run is made.
    pub how: How,
    /// How the answer is told: in a form, and without a heading of its block.
    pub manner: Manner,
    /// Whether standard error tells how far the run is, and which columns of the files are not read.
    pub tells_progress: bool,
}

/// A file whose table is wanted.
#[derive(Drop)]
pub struct SchemaQuestion {
    /// The one file.
    pub names: Vec<Text>,
    /// What is chosen of it.
    pub wanted: Wanted,
}

/// What is chosen of files.
#[derive(Drop)]
pub struct Wanted {
    /// The columns that were listed. None: those of the file.
    pub columns: Option<Vec<Chosen>>,
    /// The byte between two fields.
    pub delimiter: u8,
    /// The name of the column that counts, where one is wanted.
    pub number: Option<Text>,
    /// The word for NULL.
    pub null: Option<Text>,
    /// Whether blanks round a field count for nothing.
    pub trims: bool,
    /// Whether quotes are read as they stand.
    pub lenient: bool,
}

/// What was chosen of files, from the words. The faults are those of `--columns`, `--delimiter` and `--number`.
fn wanted_of<'w>(alloc: Global, parted: &Parted<'w>) -> Result<Wanted, OptionFault<'w>>
    ensures { IfOk result (IsWanted (items_of parted.now)) }
{
    Ok(Wanted {
        delimiter: delimiter(parted.value("--delimiter"))?,
        number: number(alloc, parted.value("--number"))?,
        null: copied(alloc, parted.value("--null"))?,
        trims: parted.has("--trim"),
        lenient: parted.has("--lenient-quotes"),
        columns: columns(alloc, parted.value("--columns"))?,
    })
}

/// The byte that a word names: `tab`, or its one character. No word: a comma.
fn delimiter(word: Option<&str>) -> Result<u8, OptionFault<'_>>
    ensures { IfOk result (λ byte. option_map_or (λ w. delimiter_of w.now) word.entry (Some comma) ≡ Some byte) }
{
    let Some(word) = word else {
        return Ok(b',');
    };
    match word.as_bytes() {
        b"tab" => Ok(b'\t'),
        [b'"'] => Err(OptionFault::Delimiter(word)),
        [b'\n'] => Err(OptionFault::Delimiter(word)),
        [b'\r'] => Err(OptionFault::Delimiter(word)),
        [byte] => Ok(*byte),
        _ => Err(OptionFault::Delimiter(word)),
    }
}

/// The name of the column that counts, where one is given.
fn number<'w>(alloc: Global, word: Option<&'w str>) -> Result<Option<Text>, OptionFault<'w>>
    ensures { IfOk result (λ name. option_map (λ w. name_of w.now) word.entry ≡ option_map Some name) }
{
    let Some(word) = word else {
        return Ok(None);
    };
    match name_of(alloc, word)? {
        Some(name) => Ok(Some(name)),
        None => Err(OptionFault::Number(word)),
    }
}

/// A copy of a word, where one is given.
fn copied<'w>(alloc: Global, word: Option<&'w str>) -> Result<Option<Text>, OptionFault<'w>>
    ensures { IfOk result (λ copy. copy ≡ option_map (λ w. w.now) word.entry) }
{
    match word {
        Some(word) => Ok(Some(Text::copied(alloc, word)?)),
        None => Ok(None),
    }
}

/// The columns that a word lists, where one is given.
fn columns<'w>(alloc: Global, word: Option<&'w str>) -> Result<Option<Vec<Chosen>>, OptionFault<'w>>
    ensures { IfOk result (λ columns. option_map (λ c. map naming_of c.items) columns ≡ option_map (λ w. listed_in w.now) word.entry) }
{
    let Some(word) = word else {
        return Ok(None);
    };
    match listed_columns(alloc, word) {
        Ok(columns) => Ok(Some(columns)),
        // (the words are UTF-8, and so are their fields)
        Err(ListFault::NotText { .. }) => Err(OptionFault::NoValue("--columns")),
        Err(ListFault::OutOfMemory) => Err(OptionFault::OutOfMemory),
    }
}

/// The number that a word spells, where one is given.
fn number_in<'w>(
    word: Option<&str>,
    range: Limits,
    setting: Setting,
) -> Result<Option<u64>, OptionFault<'w>>
    ensures within { IfOk result (λ number. IfSome number (IsWithin range)) }
    ensures spelt { IfOk result (λ number. option_map (λ w. whole_number_of w.now) word.entry ≡ option_map Some number) }
{
    let Some(word) = word else {
        return Ok(None);
    };
    let Some(number) = whole_number_of(word) else {
        return Err(OptionFault::OutOfRange(setting));
    };
    if range.least <= number && number <= range.most {
        return Ok(Some(number));
    }
    Err(OptionFault::OutOfRange(setting))
}

/// The question of `query`, from its words, which are the query, and then the files; and what is chosen of these. `is_shown` says
/// whether somebody looks at the answer.
pub fn question_of<'w, R: Threads>(
    rt: &R,
    alloc: Global,
    parted: &Parted<'w>,
    is_shown: bool,
) -> Result<(Question<'w>, Wanted), OptionFault<'w>>
    ensures asked { IfOk result (λ asked. IsQuestion (items_of parted.now) asked.0) }
    ensures wanted { IfOk result (λ asked. IsWanted (items_of parted.now) asked.1) }
{
    let names = parted.names(alloc)?;
    let Some((query, files)) = names.as_slice().split_first() else {
        return Err(OptionFault::NoQuery);
    };
    if files.is_empty() {
        return Err(OptionFault::NoFile);
    }
    if files.len() > MAX_PARTS {
        return Err(OptionFault::TooManyFiles(files.len()));
    }
    if breaks_a_text(query) {
        return Err(OptionFault::LineBreak);
    }
    let wanted = wanted_of(alloc, parted)?;
    let question = question_asked(rt, alloc, query, files, parted, is_shown)?;
    Ok((question, wanted))
}

/// The question that a query asks of files.
fn question_asked<'w, R: Threads>(
    rt: &R,
    alloc: Global,
    query: &'w str,
    files: &[&'w str],
    parted: &Parted<'w>,
    is_shown: bool,
) -> Result<Question<'w>, OptionFault<'w>>
    ensures query { IfOk result (λ asked. asked.query.now ≡ query.entry.now) }
    ensures names { IfOk result (λ asked. asked.names.items ≡ map (λ n. n.now) files.now) }
    ensures bare { IfOk result (λ asked. asked.manner.heads ≡ false) }
    ensures form { IfOk result (λ asked. IfSome (value_in (codes "--format") (items_of parted.now)) (λ word. form_of word ≡ Some asked.manner.form)) }
    ensures limit { IfOk result (λ asked. option_map whole_number_of
        (value_in (codes "--limit") (items_of parted.now)) ≡ option_map Some asked.manner.arrangement.limit) }
    ensures rows { IfOk result (λ asked. option_map_or whole_number_of (value_in (codes "--rows") (items_of parted.now))
        (Some default_settings.rows) ≡ Some asked.how.rows) }
{
    let how = how(rt, parted)?;
    let arrangement = arrangement_of(
        alloc,
        query,
        parted.value("--order"),
        parted.value("--limit"),
    )?;
    let manner = manner_of(parted.value("--format"), is_shown, arrangement)?;
    let names = owned(alloc, files)?;
    Ok(Question {
        query,
        names,
        how,
        manner,
        tells_progress: parted.has("--progress"),
    })
}

/// How an answer is told whose form a word names, without a heading: without a word, as a table where somebody looks at it, else as
/// CSV.
fn manner_of<'w>(
    word: Option<&'w str>,
    is_shown: bool,
    arrangement: Arrangement,
) -> Result<Manner, OptionFault<'w>>
    ensures bare { IfOk result (λ manner. manner.heads ≡ false) }
    ensures form { IfOk result (λ manner. IfSome word.entry (λ w. form_of w.now ≡ Some manner.form)) }
    ensures arranged { IfOk result (λ manner. manner.arrangement ≡ arrangement) }
{
    let form = match word {
        Some(word) => match Form::of_word(word) {
            Some(form) => form,
            None => return Err(OptionFault::OutOfRange(Setting::Form)),
        },
        None => form_for(is_shown),
    };
    Ok(Manner {
        form,
        heads: false,
        arrangement,
    })
}

/// The form of an answer of which nothing is said, by whether somebody looks at it.
fn form_for(is_shown: bool) -> Form
    ensures { result ≡ (if is_shown then Table else Csv) }
{
    if is_shown { Form::Table } else { Form::Csv }
}

/// The question of `schema`, from its words: one file.
pub fn schema_question_of<'w>(
    alloc: Global,
    parted: &Parted<'w>,
) -> Result<SchemaQuestion, OptionFault<'w>>
    ensures names { IfOk result (λ asked. asked.names.items ≡ names_in (items_of parted.now)) }
    ensures wanted { IfOk result (λ asked. IsWanted (items_of parted.now) asked.wanted) }
{
    for option in ["--workers", "--rows", "--format", "--order", "--limit"] {
        if parted.value(option).is_some() {
            return Err(OptionFault::Unknown(option));
        }
    }
    if parted.has("--progress") {
        return Err(OptionFault::Unknown("--progress"));
    }
    let names = parted.names(alloc)?;
    match names.as_slice() {
        [] => Err(OptionFault::NoFile),
        [_] => Ok(SchemaQuestion {
            wanted: wanted_of(alloc, parted)?,
            names: owned(alloc, names.as_slice())?,
        }),
        [_, more, ..] => Err(OptionFault::OneFile(*more)),
    }
}

/// How the run is made: by as many workers as there are processors, where nobody says how many.
fn how<'w, R: Threads>(rt: &R, parted: &Parted<'w>) -> Result<How, OptionFault<'w>>
    ensures { IfOk result (λ how. option_map_or whole_number_of (value_in (codes "--rows") (items_of parted.now))
        (Some default_settings.rows) ≡ Some how.rows) }
{
    let workers = number_in(parted.value("--workers"), WORKERS, Setting::Workers)?;
    let rows = number_in(parted.value("--rows"), ROWS, Setting::Rows)?;
    let cutting = Cutting {
        depth: DEPTH.default as u8,
        small: SMALL.default,
    };
    Ok(How::of(
        workers.unwrap_or(processors(rt)),
        cutting,
        rows.unwrap_or(ROWS.default),
    ))
}

/// How many processors there are, as far as that is a number of workers.
fn processors<R: Threads>(rt: &R) -> u64
    ensures { IsWithin WORKERS result }
{
    match available_parallelism(rt) {
        Ok(count) => (count.get() as u64).clamp(WORKERS.least, WORKERS.most),
        Err(_) => WORKERS_UNTOLD,
    }
}

/// Copies of the names.
fn owned<'w>(alloc: Global, names: &[&str]) -> Result<Vec<Text>, OptionFault<'w>>
    ensures { IfOk result (λ copies. copies.items ≡ map (λ n. n.now) names.now) }
{
    let mut copies = Vec::new(alloc);
    for name in names {
        copies.push(Text::copied(alloc, name)?)?;
    }
    Ok(copies)
}

/// Whether a text in single quotes has the end of a line.
fn breaks_a_text(query: &str) -> bool {
    let mut is_text = false;
    for byte in query.as_bytes() {
        match *byte {
            b'\'' => is_text = !is_text,
            b'\n' if is_text => return true,
            b'\r' if is_text => return true,
            _ => {}
        }
    }
    false
}
