//! Why a line or a call is refused.
ghost use Rattle.std.specs.Prelude.{◌≡◌, IfSome, Some};
ghost use Rattle.cells.specs.Refusals.{name_of, number_of};
ghost use Rattle.cells.specs.declared.refused.Refused.{Refused};
ghost use Rattle.cells.specs.declared.refused.Refused.TheVariants.{OutOfMemory};

use std::alloc::{AllocError, AllocFailed};
use std::fmt;
use thiserror::Error;

/// A refusal. Its text is its name; its number is what a report prints.
///
/// Those up to 15 are refusals of a line, after which the script goes on. The others end a run.
#[derive(Clone, Copy, Debug, PartialEq, Eq, Drop, Error)]
pub enum Refused {
    /// A line needs a table, and none was declared.
    NoTable,
    /// A second `table` line after an accepted one.
    TableAgain,
    /// A line that is not UTF-8, has an unknown command word, or a rest that is not in the command's form.
    BadCommand,
    /// The text of a `table` line spells no schema.
    BadSchema,
    /// `load` names part 0, or a part that was not handed in.
    NoPart,
    /// A listed part has a faulty record.
    BadPart,
    /// The fields of a record spell no row.
    BadRecord,
    /// The rest of `delete` is not exactly one literal of the key's type.
    BadKey,
    /// The draft would hold more rows than the limit.
    TooManyRows,
    /// The query is not in the grammar.
    QuerySyntax,
    /// The query names another table, or a column that the schema does not have.
    Unknown,
    /// A column stands in the select list and in no grouping set.
    NotGrouped,
    /// SUM over a text column, or a comparison of an integer with a text.
    WrongType,
    /// More than 256 grouping sets.
    TooManySets,
    /// A limit on the query, the script or the parts.
    Limit,
    /// A growth was really refused.
    OutOfMemory,
    /// A worker thread could not be started.
    NoWorker,
    /// The writer failed during the call.
    WriteFailed,
    /// A reader's place was refused.
    NotShown,
}

impl Refused {
    /// The number that a report prints: 1 to 15, or 90 to 93.
    pub fn number(&self) -> u32
        ensures { result ≡ number_of self.now }
    {
        match self {
            Refused::NoTable => 1,
            Refused::TableAgain => 2,
            Refused::BadCommand => 3,
            Refused::BadSchema => 4,
            Refused::NoPart => 5,
            Refused::BadPart => 6,
            Refused::BadRecord => 7,
            Refused::BadKey => 8,
            Refused::TooManyRows => 9,
            Refused::QuerySyntax => 10,
            Refused::Unknown => 11,
            Refused::NotGrouped => 12,
            Refused::WrongType => 13,
            Refused::TooManySets => 14,
            Refused::Limit => 15,
            Refused::OutOfMemory => 90,
            Refused::NoWorker => 91,
            Refused::WriteFailed => 92,
            Refused::NotShown => 93,
        }
    }

    /// The refusal of a number. None where none has it.
    pub fn of_number(number: u64) -> Option<Refused>
        ensures given { IfSome result (λ refused. number_of refused ≡ number) }
        ensures only { (refused : Refused) → number ≡ number_of refused → result ≡ Some refused }
    {
        match number {
            1 => Some(Refused::NoTable),
            2 => Some(Refused::TableAgain),
            3 => Some(Refused::BadCommand),
            4 => Some(Refused::BadSchema),
            5 => Some(Refused::NoPart),
            6 => Some(Refused::BadPart),
            7 => Some(Refused::BadRecord),
            8 => Some(Refused::BadKey),
            9 => Some(Refused::TooManyRows),
            10 => Some(Refused::QuerySyntax),
            11 => Some(Refused::Unknown),
            12 => Some(Refused::NotGrouped),
            13 => Some(Refused::WrongType),
            14 => Some(Refused::TooManySets),
            15 => Some(Refused::Limit),
            90 => Some(Refused::OutOfMemory),
            91 => Some(Refused::NoWorker),
            92 => Some(Refused::WriteFailed),
            93 => Some(Refused::NotShown),
            _ => None,
        }
    }

    /// The name, which programs read beside the number.
    pub fn name(&self) -> &'static str
        ensures { result.now ≡ name_of self.now }
    {
        match self {
            Refused::NoTable => "NoTable",
            Refused::TableAgain => "TableAgain",
            Refused::BadCommand => "BadCommand",
            Refused::BadSchema => "BadSchema",
            Refused::NoPart => "NoPart",
            Refused::BadPart => "BadPart",
            Refused::BadRecord => "BadRecord",
            Refused::BadKey => "BadKey",
            Refused::TooManyRows => "TooManyRows",
            Refused::QuerySyntax => "QuerySyntax",
            Refused::Unknown => "Unknown",
            Refused::NotGrouped => "NotGrouped",
            Refused::WrongType => "WrongType",
            Refused::TooManySets => "TooManySets",
            Refused::Limit => "Limit",
            Refused::OutOfMemory => "OutOfMemory",
            Refused::NoWorker => "NoWorker",
            Refused::WriteFailed => "WriteFailed",
            Refused::NotShown => "NotShown",
        }
    }
}

impl fmt::Display for Refused {
    ghost use Rattle.std.specs.Prelude.{Some};
    ghost use Rattle.cells.specs.Refusals.{name_of};

    ghost output = { λ refused. Some (name_of refused) };

    fn fmt<W: fmt::Write>(&self, f: &mut fmt::Formatter<W>) -> fmt::Result {
        f.write_str(self.name())
    }
}

impl From<AllocError> for Refused {
    ghost from_gives = { λ _ e. e ≡ OutOfMemory };

    fn from(_error: AllocError) -> Refused {
        Refused::OutOfMemory
    }
}

impl<T: Drop> From<AllocFailed<T>> for Refused {
    ghost from_gives = { λ _ e. e ≡ OutOfMemory };

    fn from(_error: AllocFailed<T>) -> Refused {
        Refused::OutOfMemory
    }
}
