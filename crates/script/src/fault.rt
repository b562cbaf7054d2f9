//! Why a line of a script is refused.
ghost use Rattle.std.specs.Prelude.{◌≡◌, Some};
ghost use Rattle.cells.specs.declared.refused.Refused.TheVariants.{OutOfMemory};
ghost use Rattle.script.specs.Faults.{fault_text};
ghost use Rattle.script.specs.declared.fault.Fault.TheVariants.{Line};

use cells::Refused;
use crew::Gate;
use std::alloc::{AllocError, AllocFailed};
use std::fmt;

/// Why a line is refused. Its text is what stands behind `refused` in the line's block.
#[derive(Clone, Copy, Debug, PartialEq, Eq, Drop)]
pub enum Fault {
    /// The line breaks a rule of its command, or memory was refused.
    Line(Refused),
    /// A listed part has a faulty record, which is [`Refused::BadPart`]: the part's number, counted from
    /// 1, and the record's, counted from 1 behind the header, which is record 0.
    Part { part: u64, record: u64 },
}

impl Fault {
    /// Tells the gate that a line is refused for this.
    pub(crate) fn tell<G: Gate>(self, line: u64, gate: &G) {
        match self {
            Fault::Line(rule) => gate.refused(line, rule),
            Fault::Part { part, record } => gate.refused_record(line, part, record),
        }
    }
}

impl From<Refused> for Fault {
    ghost from_gives = { λ rule fault. fault ≡ Line rule };

    fn from(rule: Refused) -> Fault {
        Fault::Line(rule)
    }
}

impl From<AllocError> for Fault {
    ghost from_gives = { λ _ fault. fault ≡ Line OutOfMemory };

    fn from(_error: AllocError) -> Fault {
        Fault::Line(Refused::OutOfMemory)
    }
}

impl<T: Drop> From<AllocFailed<T>> for Fault {
    ghost from_gives = { λ _ fault. fault ≡ Line OutOfMemory };

    fn from(_error: AllocFailed<T>) -> Fault {
        Fault::Line(Refused::OutOfMemory)
    }
}

/// The number of the rule; for a faulty part also which part and which record.
impl fmt::Display for Fault {
    ghost output = { λ fault. Some (fault_text fault) };

    fn fmt<W: fmt::Write>(&self, f: &mut fmt::Formatter<W>) -> fmt::Result {
        match self {
            Fault::Line(rule) => {
                let number = rule.number();
                write!(f, "{number}")
            }
            Fault::Part { part, record } => {
                let number = Refused::BadPart.number();
                write!(f, "{number} part {part} record {record}")
            }
        }
    }
}
