//! The manual: pages that `olap help` prints beside the help of the commands, one of the language and one for each refusal.
ghost use Rattle.std.specs.Prelude.{◌≡◌, ◌⊎◌, IfSome};
ghost use Rattle.std.specs.Io.Buffered.{writer_contents};
ghost use Rattle.cells.specs.Refusals.{number_of};
ghost use Rattle.script.specs.Endings.{Writes};
ghost use Rattle.olap.specs.Topics.{IsNamed};

use crate::close::{NOTHING_RUN, close_text};
use crate::pages;
use crate::plain::Plain;
use cells::{Refused, whole_number_of};
use std::io::{BufWriter, Write};

/// What the manual has a page of.
#[derive(Clone, Copy, Drop)]
pub enum Topic {
    /// The language of scripts.
    Language,
    /// The command `check`.
    Check,
    /// The command `query`.
    Query,
    /// The command `schema`.
    Schema,
    /// A refusal.
    Refusal(Refused),
}

/// What the word after `help` names: `language`, `check`, `query`, `schema`, or a refusal by its number. None where there is no such page.
pub fn topic_of(word: &str) -> Option<Topic>
    ensures { IfSome result (IsNamed word.now) }
{
    match word {
        "language" => Some(Topic::Language),
        "check" => Some(Topic::Check),
        "query" => Some(Topic::Query),
        "schema" => Some(Topic::Schema),
        _ => {
            let refusal = Refused::of_number(whole_number_of(word)?)?;
            Some(Topic::Refusal(refusal))
        }
    }
}

impl Topic {
    /// Its page.
    pub fn page(self) -> &'static str {
        match self {
            Topic::Language => pages::LANGUAGE,
            Topic::Check => pages::CHECK,
            Topic::Query => pages::QUERY,
            Topic::Schema => pages::SCHEMA,
            Topic::Refusal(refusal) => page_of(refusal),
        }
    }
}

/// The page of a refusal.
fn page_of(refusal: Refused) -> &'static str {
    match refusal {
        Refused::NoTable => pages::NO_TABLE,
        Refused::TableAgain => pages::TABLE_AGAIN,
        Refused::BadCommand => pages::BAD_COMMAND,
        Refused::BadSchema => pages::BAD_SCHEMA,
        Refused::NoPart => pages::NO_PART,
        Refused::BadPart => pages::BAD_PART,
        Refused::BadRecord => pages::BAD_RECORD,
        Refused::BadKey => pages::BAD_KEY,
        Refused::TooManyRows => pages::TOO_MANY_ROWS,
        Refused::QuerySyntax => pages::QUERY_SYNTAX,
        Refused::Unknown => pages::UNKNOWN,
        Refused::NotGrouped => pages::NOT_GROUPED,
        Refused::WrongType => pages::WRONG_TYPE,
        Refused::TooManySets => pages::TOO_MANY_SETS,
        Refused::Limit => pages::LIMIT,
        Refused::OutOfMemory => pages::OUT_OF_MEMORY,
        Refused::NoWorker => pages::NO_WORKER,
        Refused::WriteFailed => pages::WRITE_FAILED,
        Refused::NotShown => pages::NOT_SHOWN,
    }
}

/// Shows a page on standard output, and gives the program's status: 0 where the whole page was written, else 3, and `err` says so.
pub fn show<W: Write + Drop, E: Write>(page: &str, out: &mut BufWriter<W>, err: &mut E) -> u8
    ensures status { (result ≡ 0) ⊎ (result ≡ 3) }
    ensures written { result ≡ 0 → Writes (λ whole. whole ≡ page.now) (writer_contents W.contents out.old) (writer_contents W.contents out.new) }
{
    let written = out.write_all(page.as_bytes());
    close_text(written, out, err)
}

/// Says which pages there are, where there is none of this name.
pub fn refuse_page<E: Write>(word: &str, err: &mut E) -> u8
    ensures { result ≡ 2 }
{
    let _ = writeln!(
        err,
        "error: no help of '{}'\n\nThere is help of run, live, session, check, query, schema, shard, join and language, and of the numbers 1 to 15 and 90 to 93.",
        Plain(word)
    );
    NOTHING_RUN
}
