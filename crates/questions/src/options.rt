//! The words of `query` and `schema`: options, which may stand anywhere, and names.
ghost use Rattle.std.specs.Prelude.{◌≡◌, ◌++◌, ◌∷◌, ◌||◌, ◌≤◌, [], IfOk, OnOk, codes, false, length, map, option_map, string_bytes};
ghost use Rattle.questions.specs.Options.{TakesWord, has_flag, is_flag, item, items, items_of, named, names_in, takes_value, valued, value_in};
ghost use Rattle.questions.specs.declared.options.OptionFault.TheVariants.{OutOfMemory};

use script::{ROWS, WORKERS};
use std::alloc::{AllocError, AllocFailed, Global};
use thiserror::Error;

/// An option that has a range.
#[derive(Clone, Copy, Debug, Drop, Error)]
pub enum Setting {
    /// `--workers`, 1 to 64.
    #[error("'--workers' takes a number from {least} to {most}", least = WORKERS.least, most = WORKERS.most)]
    Workers,
    /// `--rows`, 1 to 4,294,967,296.
    #[error("'--rows' takes a number from {least} to {most}", least = ROWS.least, most = ROWS.most)]
    Rows,
    /// `--format`, `classic`, `csv`, `json` or `table`.
    #[error("'--format' takes classic, csv, json or table")]
    Form,
}

/// Why words are no question. Its text is what the program writes behind `error: `.
#[derive(Clone, Copy, Debug, Drop, Error)]
pub enum OptionFault<'w> {
    /// No option has this name.
    #[error("there is no option '{0}'")]
    Unknown(&'w str),
    /// An option that takes a value has none.
    #[error("'{0}' takes a value")]
    NoValue(&'w str),
    /// A flag has a value.
    #[error("'{0}' takes no value")]
    Value(&'w str),
    /// An option is given a second time.
    #[error("'{0}' is given twice")]
    Twice(&'w str),
    /// The value of `--delimiter` is no delimiter.
    #[error("'--delimiter' takes one character of ASCII, but no quote and no line end, or the word tab: {0}")]
    Delimiter(&'w str),
    /// The value of `--number` is no name.
    #[error("'--number' takes a name for the column that counts, a letter or _ and then letters, digits and _, but no word of the language: {0}")]
    Number(&'w str),
    /// The value of an option lies outside its range.
    #[error("{0}")]
    OutOfRange(Setting),
    /// The value of `--order` is no list of columns.
    #[error("'--order' takes columns of the answer, as its header names them, with commas between them, and asc or desc after each that wants it: {0}")]
    Order(&'w str),
    /// The value of `--order` names what the answer does not have.
    #[error("'--order' names what is no column of the answer: {0}")]
    NoColumn(&'w str),
    /// The value of `--limit` is no number of rows.
    #[error("'--limit' takes a number of rows: {0}")]
    Limit(&'w str),
    /// There is no query.
    #[error("no QUERY")]
    NoQuery,
    /// There is no file.
    #[error("no FILE")]
    NoFile,
    /// `schema` has a file too many.
    #[error("one FILE is wanted, and {0} comes after it")]
    OneFile(&'w str),
    /// `query` has more files than are read.
    #[error("at most 64 files are read, and {0} were given")]
    TooManyFiles(usize),
    /// The query can stand in no line of a script.
    #[error("a text of the query has a line break, which a script can't have")]
    LineBreak,
    /// Memory was refused.
    #[error("out of memory")]
    OutOfMemory,
}

impl<'w> From<AllocError> for OptionFault<'w> {
    ghost from_gives = { λ _ e. e ≡ OutOfMemory };

    fn from(_error: AllocError) -> OptionFault<'w> {
        OptionFault::OutOfMemory
    }
}

impl<'w, T: Drop> From<AllocFailed<T>> for OptionFault<'w> {
    ghost from_gives = { λ _ e. e ≡ OutOfMemory };

    fn from(_error: AllocFailed<T>) -> OptionFault<'w> {
        OptionFault::OutOfMemory
    }
}

/// What a word says, or two of them.
#[derive(Clone, Copy, Drop)]
enum Said<'w> {
    /// A name: a query or a file.
    Name(&'w str),
    /// An option that takes no value.
    Flag(&'w str),
    /// An option, and its value.
    Value(&'w str, &'w str),
}

/// The words, parted: options, which may stand anywhere, and names.
#[derive(Drop)]
pub struct Parted<'w> {
    said: Vec<Said<'w>>,
}

impl<'w> Parted<'w> {
    /// The value that an option is given.
    pub fn value(&self, option: &str) -> Option<&'w str>
        ensures { option_map (λ w. w.now) result ≡ value_in option.now (items_of self.now) }
    {
        for said in &self.said {
            if let Said::Value(given, value) = said {
                if *given == option {
                    return Some(value);
                }
            }
        }
        None
    }

    /// Whether an option is given that takes no value.
    pub fn has(&self, flag: &str) -> bool
        ensures { result ≡ has_flag flag.now (items_of self.now) }
    {
        for said in &self.said {
            if let Said::Flag(given) = said {
                if *given == flag {
                    return true;
                }
            }
        }
        false
    }

    /// Whether help is asked for.
    pub fn asks_for_help(&self) -> bool
        ensures { result ≡ (has_flag (codes "--help") (items_of self.now) || has_flag (codes "-h") (items_of self.now)) }
    {
        self.has("--help") || self.has("-h")
    }

    /// The names, in their order: the query and the files.
    pub fn names(&self, alloc: Global) -> Result<Vec<&'w str>, AllocError>
        ensures { IfOk result (λ names. map (λ w. w.now) names.items ≡ names_in (items_of self.now)) }
    {
        let mut names = Vec::new(alloc);
        for said in &self.said {
            if let Said::Name(name) = said {
                names.push(*name)?;
            }
        }
        Ok(names)
    }

    /// Takes words that are names.
    fn take_names(&mut self, words: &'w [String]) -> Result<(), OptionFault<'w>>
        ensures { OnOk result (items_of self.new ≡ items_of self.old ++ map named (map string_bytes words.entry.now)) }
    {
        for word in words {
            self.said.push(Said::Name(word.as_str()))?;
        }
        Ok(())
    }

    /// Takes the value of an option, which stands in this word.
    fn take_value(
        &mut self,
        option: &'w str,
        value: &'w str,
        word: &'w str,
    ) -> Result<(), OptionFault<'w>>
        ensures { OnOk result (items_of self.new ≡ items_of self.old ++ valued option.entry.now value.entry.now ∷ []) }
    {
        if self.value(option).is_some() {
            return Err(OptionFault::Twice(word));
        }
        self.said.push(Said::Value(option, value))?;
        Ok(())
    }

    /// Takes a word, with the next one where that is its value, and gives what follows.
    fn take_word(
        &mut self,
        word: &'w str,
        later: &'w [String],
    ) -> Result<&'w [String], OptionFault<'w>>
        ensures takes { IfOk result (λ rest. TakesWord (items_of self.old) (items_of self.new) word.entry.now (map string_bytes later.entry.now)
            (map string_bytes rest.now)) }
        ensures fewer { IfOk result (λ rest. length rest.now ≤ length later.entry.now) }
    {
        if takes_value(word) {
            let Some((value, rest)) = later.split_first() else {
                return Err(OptionFault::NoValue(word));
            };
            self.take_value(word, value.as_str(), word)?;
            return Ok(rest);
        }
        self.take_one(word)?;
        Ok(later)
    }

    /// Takes a word that takes no other.
    fn take_one(&mut self, word: &'w str) -> Result<(), OptionFault<'w>>
        ensures { takes_value word.entry.now ≡ false → OnOk result (items_of self.new ≡ items_of self.old ++ item word.entry.now ∷ []) }
    {
        if is_flag(word) {
            self.said.push(Said::Flag(word))?;
            return Ok(());
        }
        if let Some((option, value)) = word.split_once('=') {
            if takes_value(option) {
                return self.take_value(option, value, word);
            }
        }
        if is_dashed(word) {
            return Err(unknown(word));
        }
        self.said.push(Said::Name(word))?;
        Ok(())
    }
}

/// Parts the words. After the word `--` all are names.
pub fn part_words<'w>(alloc: Global, words: &'w [String]) -> Result<Parted<'w>, OptionFault<'w>>
    ensures { IfOk result (λ parted. items_of parted ≡ items (map string_bytes words.now)) }
{
    let mut parted = Parted {
        said: Vec::new(alloc),
    };
    let mut rest = words;
    while let Some((word, later)) = rest.split_first() {
        if word.as_str() == "--" {
            parted.take_names(later)?;
            return Ok(parted);
        }
        rest = parted.take_word(word.as_str(), later)?;
    }
    Ok(parted)
}

/// Whether the word is an option that takes a value.
fn takes_value(word: &str) -> bool
    ensures { result ≡ takes_value word.now }
{
    word == "--columns"
        || word == "--delimiter"
        || word == "--number"
        || word == "--null"
        || word == "--workers"
        || word == "--rows"
        || word == "--format"
        || word == "--order"
        || word == "--limit"
}

/// Whether the word is an option that takes none.
fn is_flag(word: &str) -> bool
    ensures { result ≡ is_flag word.now }
{
    word == "--help"
        || word == "-h"
        || word == "--trim"
        || word == "--lenient-quotes"
        || word == "--progress"
}

/// Whether the word begins as an option does. A dash alone is a name.
fn is_dashed(word: &str) -> bool {
    word.len() > 1 && word.starts_with('-')
}

/// Why a word is no option.
fn unknown(word: &str) -> OptionFault<'_> {
    match word.split_once('=') {
        Some((name, _)) if is_flag(name) && name != "-h" => OptionFault::Value(word),
        _ => OptionFault::Unknown(word),
    }
}
