//! The table that is proposed for files, and the parts that are made of them.
ghost use Rattle.std.specs.Prelude.{◌≡◌, ◌++◌, IfOk, [], length, map, option_map, unwrap_or};
ghost use Rattle.cells.specs.Reading.{tokens_of};
ghost use Rattle.prepare.specs.Listed.{words_in};
ghost use Rattle.prepare.specs.Parts.{IsPartOfFile};
ghost use Rattle.questions.specs.Proposals.{AreAll, AreOfFile, IsCounted, IsFreeName, IsOf, IsProposal, IsProposed, IsTyped, MadeOf, chosen_in, counting_from, names_of};
ghost use Rattle.questions.specs.Options.{is_one_of};
ghost use Rattle.questions.specs.declared.proposal.Unproposed.TheVariants.{OutOfMemory};

use crate::question::Wanted;
use cells::{Column, ColumnType, MAX_COLUMNS, Refused, Text, Token, tokens_or};
use prepare::{
    Choice, Chosen, ListFault, MadePart, PrepareFault, QuoteFault, columns_of, first_again,
    header_of, key_of, line_of, named_columns, prepared, types_of,
};
use std::alloc::{AllocError, AllocFailed, Global};
use thiserror::Error;

/// A table that is proposed for files.
#[derive(Drop)]
pub struct Proposal {
    /// The columns of the table.
    pub columns: Vec<Column>,
    /// The place of the key among them.
    pub key: usize,
    /// The parts that were made of the files, in their order.
    pub parts: Vec<Vec<u8>>,
}

/// Why no table is proposed for files. Its text is what the program writes behind the place.
#[derive(Debug, Drop, Error)]
pub enum Unproposed {
    #[error("there is no header")]
    NoHeader,
    #[error("the name of column {column} is not UTF-8")]
    NotText {
        column: usize,
    },
    #[error("the header has no column '{0}'")]
    NoColumn(String),
    #[error("columns {first} and {second} both have the name '{name}'; rename one, or write its name exactly where they differ in case")]
    TwoColumns {
        first: usize,
        second: usize,
        name: String,
    },
    #[error("two columns make the name {0}; --columns chooses columns and names them, as in --columns 'A,B=Other Name'")]
    Again(String),
    #[error("the header has {0} columns, and a table 16 at most; --columns chooses some")]
    TooManyInFile(usize),
    #[error("{0} columns are wanted, and a table has 16 at most; --columns chooses some")]
    TooMany(usize),
    #[error("no column is a key, and 16 columns leave no room for one that counts records; --columns chooses some")]
    NoRoom,
    #[error("a column makes the name {0}, and --number needs another one")]
    Taken(String),
    #[error("record {record} has {fields} fields, and the header {header}")]
    Uneven {
        record: u64,
        fields: usize,
        header: usize,
    },
    #[error("{0}; mend it (a field with a quote in it stands in quotes, that quote twice), or read the file as it is with --lenient-quotes")]
    Quotes(QuoteFault),
    #[error("no memory")]
    OutOfMemory,
}

impl From<AllocError> for Unproposed {
    ghost from_gives = { λ _ e. e ≡ OutOfMemory };

    fn from(_error: AllocError) -> Unproposed {
        Unproposed::OutOfMemory
    }
}

impl<T: Drop> From<AllocFailed<T>> for Unproposed {
    ghost from_gives = { λ _ e. e ≡ OutOfMemory };

    fn from(_error: AllocFailed<T>) -> Unproposed {
        Unproposed::OutOfMemory
    }
}

/// A place where no table can be proposed, and why. Its text is a line that the program writes.
#[derive(Drop)]
pub struct FileFault {
    /// The file, by its place among the names.
    pub file: usize,
    /// The line, counted from 1.
    pub line: u64,
    /// Why.
    pub why: Unproposed,
}

impl FileFault {
    /// A fault of a file's header.
    fn of_header(file: usize, why: Unproposed) -> FileFault {
        FileFault { file, line: 1, why }
    }

    /// Want of memory.
    fn of_memory() -> FileFault {
        FileFault::of_header(0, Unproposed::OutOfMemory)
    }
}

impl From<AllocError> for FileFault {
    fn from(_error: AllocError) -> FileFault {
        FileFault::of_memory()
    }
}

impl<T: Drop> From<AllocFailed<T>> for FileFault {
    fn from(_error: AllocFailed<T>) -> FileFault {
        FileFault::of_memory()
    }
}

/// The table that is proposed for files, of which there is one at least, and the parts that are made of them. A query that is known
/// names the columns of files that have too many.
pub fn proposed(
    alloc: Global,
    files: &[Vec<u8>],
    wanted: Wanted,
    query: Option<&str>,
) -> Result<Proposal, FileFault>
    ensures { IfOk result (IsProposal (map (λ f. f.items) files.now) wanted (option_map (λ q. q.now) query.entry)) }
{
    let Wanted {
        columns,
        delimiter,
        number,
        null,
        trims,
        lenient,
    } = wanted;
    let columns = match columns {
        Some(columns) => columns,
        None => columns_of_file(alloc, files, delimiter, trims, query)?,
    };
    if let Err(why) = fitting(alloc, columns.as_slice(), &number) {
        return Err(FileFault::of_header(0, why));
    }
    let choice = Choice {
        columns: Some(columns),
        delimiter,
        number,
        counted: 0,
        null,
        trims,
        lenient,
    };
    with_key(alloc, files, choice)
}

/// The columns of the first file, or those that the query names where there are too many.
pub fn columns_of_file(
    alloc: Global,
    files: &[Vec<u8>],
    delimiter: u8,
    trims: bool,
    query: Option<&str>,
) -> Result<Vec<Chosen>, FileFault>
    ensures { IfOk result (λ columns. AreOfFile (map (λ f. f.items) files.now) delimiter trims (option_map (λ q. q.now) query.entry) columns.items) }
{
    let Some(file) = files.first() else {
        return Err(FileFault::of_header(0, Unproposed::NoHeader));
    };
    let columns = all_columns(alloc, file.as_slice(), delimiter, trims)?;
    if columns.len() <= MAX_COLUMNS {
        return Ok(columns);
    }
    let Some(query) = query else {
        let why = Unproposed::TooManyInFile(columns.len());
        return Err(FileFault::of_header(0, why));
    };
    let tokens = tokens_of(alloc, query)?;
    Ok(named_columns(alloc, columns, tokens.as_slice())?)
}

/// The columns of a file, under the words that their names make.
fn all_columns(
    alloc: Global,
    file: &[u8],
    delimiter: u8,
    trims: bool,
) -> Result<Vec<Chosen>, FileFault>
    ensures { IfOk result (λ columns. AreAll file.now delimiter trims columns.items) }
{
    let Some(names) = header_of(alloc, file, delimiter, trims)? else {
        return Err(FileFault::of_header(0, Unproposed::NoHeader));
    };
    match columns_of(alloc, names.as_slice()) {
        Ok(columns) => Ok(columns),
        Err(ListFault::NotText { place }) => {
            let column = place.saturating_add(1);
            Err(FileFault::of_header(0, Unproposed::NotText { column }))
        }
        Err(ListFault::OutOfMemory) => Err(FileFault::of_memory()),
    }
}

/// The tokens of a query. One that spells none has none here; the run says why it is refused.
fn tokens_of(alloc: Global, query: &str) -> Result<Vec<Token>, AllocError>
    ensures { IfOk result (λ tokens. tokens.items ≡ unwrap_or (tokens_of query.now) []) }
{
    match tokens_or(alloc, query, Refused::QuerySyntax) {
        Ok(tokens) => Ok(tokens),
        Err(Refused::QuerySyntax) => Ok(Vec::new(alloc)),
        Err(_) => Err(AllocError),
    }
}

/// Whether a table may have these columns, behind one of this name that counts.
fn fitting(alloc: Global, columns: &[Chosen], number: &Option<Text>) -> Result<(), Unproposed> {
    if let Some(place) = first_again(columns) {
        let word = &columns[place].word;
        return Err(Unproposed::Again(String::from_str(alloc, word.as_str())?));
    }
    let Some(number) = number else {
        if columns.len() > MAX_COLUMNS {
            return Err(Unproposed::TooMany(columns.len()));
        }
        return Ok(());
    };
    if has_word(columns, number.as_str()) {
        return Err(Unproposed::Taken(String::from_str(alloc, number.as_str())?));
    }
    if columns.len() >= MAX_COLUMNS {
        return Err(Unproposed::TooMany(columns.len().saturating_add(1)));
    }
    Ok(())
}

/// Whether a column has this word.
fn has_word(columns: &[Chosen], word: &str) -> bool
    ensures { result ≡ is_one_of word.now (words_in columns.now) }
{
    for column in columns {
        if word == column.word.as_str() {
            return true;
        }
    }
    false
}

/// The parts that are made of the files, where records are counted through all of them.
fn parts_of(
    alloc: Global,
    files: &[Vec<u8>],
    choice: &mut Choice,
) -> Result<Vec<Vec<u8>>, FileFault>
    ensures { IfOk result (λ parts. MadeOf choice.old files.now (length files.now) parts.items choice.new) }
{
    count(choice, 0);
    let mut parts = Vec::new(alloc);
    for (file, bytes) in files.iter().enumerate() {
        let MadePart { text, records } = part_of(alloc, file, bytes.as_slice(), &*choice)?;
        let Some(counted) = choice.counted.checked_add(records) else {
            return Err(FileFault::of_memory());
        };
        count(choice, counted);
        parts.push(text)?;
    }
    Ok(parts)
}

/// So many records are counted so far.
fn count(choice: &mut Choice, counted: u64)
    ensures { choice.new ≡ counting_from choice.old counted }
{
    choice.counted = counted;
}

/// The part that is made of the file at a place.
fn part_of(alloc: Global, file: usize, bytes: &[u8], choice: &Choice) -> Result<MadePart, FileFault>
    ensures { IfOk result (IsPartOfFile choice.now bytes.now) }
{
    match prepared(alloc, bytes, choice) {
        Ok(made) => Ok(made),
        Err(fault) => Err(fault_of(alloc, file, bytes, choice, fault)),
    }
}

/// Where a file makes no part, and why.
fn fault_of(
    alloc: Global,
    file: usize,
    bytes: &[u8],
    choice: &Choice,
    fault: PrepareFault,
) -> FileFault {
    match fault {
        PrepareFault::NoHeader => FileFault::of_header(file, Unproposed::NoHeader),
        PrepareFault::NoColumn { place } => match name_at(alloc, choice, place) {
            Ok(name) => FileFault::of_header(file, Unproposed::NoColumn(name)),
            Err(_) => FileFault::of_memory(),
        },
        PrepareFault::TwoColumns {
            place,
            first,
            second,
        } => match name_at(alloc, choice, place) {
            Ok(name) => FileFault::of_header(file, two_columns(first, second, name)),
            Err(_) => FileFault::of_memory(),
        },
        PrepareFault::Uneven {
            record,
            fields,
            header,
        } => match line_of(alloc, bytes, choice.delimiter, record) {
            Ok(line) => FileFault {
                file,
                line,
                why: Unproposed::Uneven {
                    record,
                    fields,
                    header,
                },
            },
            Err(_) => FileFault::of_memory(),
        },
        PrepareFault::Quotes { fault, line } => FileFault {
            file,
            line,
            why: Unproposed::Quotes(fault),
        },
        PrepareFault::OutOfMemory => FileFault::of_memory(),
    }
}

/// Why a name means none of the two columns that have it, of which the first one of the header is 0.
fn two_columns(first: usize, second: usize, name: String) -> Unproposed {
    Unproposed::TwoColumns {
        first: first.saturating_add(1),
        second: second.saturating_add(1),
        name,
    }
}

/// The name of the column that is chosen at a place.
fn name_at(alloc: Global, choice: &Choice, place: usize) -> Result<String, AllocError> {
    let name = match &choice.columns {
        Some(columns) => match columns.as_slice().get(place) {
            Some(column) => column.name.as_str(),
            None => "",
        },
        None => "",
    };
    String::from_str(alloc, name)
}

/// The table of files. Where no column is a key, and records are not counted, the parts are made anew with a first column that counts.
#[tactic(auto, using(crate::proofs::ProposalsLemmas::typed_fits))]
fn with_key(alloc: Global, files: &[Vec<u8>], choice: Choice) -> Result<Proposal, FileFault>
    ensures { IfOk result (IsProposed choice (map (λ f. f.items) files.now)) }
{
    let mut choice = choice;
    let typed = parts_with_types(alloc, files, &mut choice)?;
    if choice.number.is_some() {
        return Ok(proposal_of(alloc, typed, 0)?);
    }
    match key_of(alloc, typed.parts.as_slice(), typed.types.as_slice())? {
        Some(key) => Ok(proposal_of(alloc, typed, key)?),
        None => with_number(alloc, files, choice),
    }
}

/// Parts, with the names and the types of their columns.
#[derive(Drop)]
struct Typed {
    names: Vec<Text>,
    parts: Vec<Vec<u8>>,
    types: Vec<ColumnType>,
}

/// The parts of the files.
fn parts_with_types(
    alloc: Global,
    files: &[Vec<u8>],
    choice: &mut Choice,
) -> Result<Typed, FileFault>
    ensures { IfOk result (λ typed. IsTyped choice.old (map (λ f. f.items) files.now) typed × (choice.new ≡ counting_from choice.old choice.new.counted)) }
{
    let names = names_of(alloc, &*choice)?;
    let parts = parts_of(alloc, files, choice)?;
    let types = types_of(alloc, parts.as_slice(), names.len())?;
    Ok(Typed {
        names,
        parts,
        types,
    })
}

/// The table of these parts, whose key is the column at a place.
fn proposal_of(alloc: Global, typed: Typed, key: usize) -> Result<Proposal, AllocError>
    requires { length typed.types.items ≡ length typed.names.items }
    ensures { IfOk result (IsOf typed key) }
{
    let Typed {
        names,
        parts,
        types,
    } = typed;
    let columns = columns_with(alloc, names.as_slice(), types.as_slice())?;
    Ok(Proposal {
        columns,
        key,
        parts,
    })
}

/// The columns that are chosen.
fn chosen_in(choice: &Choice) -> &[Chosen]
    ensures { result.now ≡ chosen_in choice.now.columns }
{
    match &choice.columns {
        Some(columns) => columns.as_slice(),
        None => &[],
    }
}

/// The names of the columns.
fn names_of(alloc: Global, choice: &Choice) -> Result<Vec<Text>, AllocError>
    ensures { IfOk result (λ names. names.items ≡ names_of choice.now) }
{
    let mut names = Vec::new(alloc);
    if let Some(number) = &choice.number {
        names.push(number.clone()?)?;
    }
    with_words(names, chosen_in(choice))
}

/// The names, and then the words of the columns.
fn with_words(mut names: Vec<Text>, columns: &[Chosen]) -> Result<Vec<Text>, AllocError>
    ensures { IfOk result (λ all. all.items ≡ names.items ++ words_in columns.now) }
{
    for column in columns {
        names.push(column.word.clone()?)?;
    }
    Ok(names)
}

/// Columns of these names and types.
fn columns_with(
    alloc: Global,
    names: &[Text],
    types: &[ColumnType],
) -> Result<Vec<Column>, AllocError>
    requires { length types.now ≡ length names.now }
    ensures names { IfOk result (λ columns. map (λ c. c.name) columns.items ≡ names.now) }
    ensures types { IfOk result (λ columns. map (λ c. c.kind) columns.items ≡ types.now) }
{
    let mut columns = Vec::new(alloc);
    for (place, name) in names.iter().enumerate() {
        let name = name.clone()?;
        let kind = types[place];
        columns.push(Column { name, kind })?;
    }
    Ok(columns)
}

/// The table of the files with a first column that counts, as the key.
#[tactic(auto, using(crate::proofs::ProposalsLemmas::typed_fits))]
fn with_number(alloc: Global, files: &[Vec<u8>], choice: Choice) -> Result<Proposal, FileFault>
    ensures { IfOk result (IsCounted choice (map (λ f. f.items) files.now)) }
{
    if chosen_in(&choice).len() >= MAX_COLUMNS {
        return Err(FileFault::of_header(0, Unproposed::NoRoom));
    }
    let number = free_name(alloc, chosen_in(&choice))?;
    let mut choice = numbered(choice, number);
    let typed = parts_with_types(alloc, files, &mut choice)?;
    Ok(proposal_of(alloc, typed, 0)?)
}

/// The choice, with a column of this name that counts.
fn numbered(mut choice: Choice, number: Text) -> Choice
    ensures { result ≡ record choice { counted = 0; number = Some number } }
{
    choice.number = Some(number);
    choice.counted = 0;
    choice
}

/// N, with as many `_` after it as it takes for no column to have it.
fn free_name(alloc: Global, columns: &[Chosen]) -> Result<Text, AllocError>
    ensures { IfOk result (IsFreeName (words_in columns.now)) }
{
    let mut name = String::from_str(alloc, "N")?;
    while has_word(columns, name.as_str()) {
        name.push_str("_")?;
    }
    Text::new(alloc, name)
}
