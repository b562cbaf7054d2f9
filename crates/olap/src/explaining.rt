//! Tells why lines are refused, and where their faults are.

use crate::input::Input;
use crate::tell::Tell;
use cells::{Refused, Text};
use command::job::Job;
use crew::Gate;
use reasons::{PartReason, Reason, Reasons};
use std::alloc::Global;

/// Which refusals are told.
#[derive(Clone, Copy, PartialEq, Eq, Drop)]
pub enum Told {
    /// None.
    Nothing,
    /// Those of lines, but for loads of parts with a faulty record.
    Lines,
    /// All.
    All,
}

impl Told {
    /// Those of a run, by whether it explains.
    pub fn of_run(explains: bool) -> Told {
        if explains { Told::All } else { Told::Nothing }
    }
}

/// A gate that tells of refused lines: for each a line with the script's name, the number of the line, the column where the
/// fault is known to begin, and why the line is refused; for a load of a faulty part the same of the part. Where memory is
/// refused to a reason, the refusal is told without it.
#[derive(Drop)]
pub struct Explaining<'a, T> {
    teller: &'a T,
    alloc: Global,
    told: Told,
    script: &'a str,
    parts: &'a [Text],
    reasons: Option<Reasons<'a>>,
}

impl<'a, T> Explaining<'a, T> {
    /// A gate for a run of this job over what was read for it.
    pub fn new(
        teller: &'a T,
        alloc: Global,
        told: Told,
        job: &'a Job,
        input: &'a Input,
    ) -> Explaining<'a, T> {
        Explaining {
            teller,
            alloc,
            told,
            script: job.script.as_str(),
            parts: job.parts.as_slice(),
            reasons: reasons_of(alloc, told, input),
        }
    }

    /// Why a line is refused, where there is memory for it.
    fn reason(&self, line: u64, fault: Refused) -> Option<Reason> {
        let reasons = self.reasons.as_ref()?;
        reasons.of_line(self.alloc, line, fault).ok()
    }

    /// What is wrong with a record of a part, where there is memory for it.
    fn part_reason(&self, part: u64, record: u64) -> Option<PartReason> {
        let reasons = self.reasons.as_ref()?;
        reasons.of_record(self.alloc, part, record).ok()
    }

    /// The file of the part of this number, counted from 1. Where there is none, it has no name.
    fn part_name(&self, part: u64) -> &'a str {
        let Some(place) = part.checked_sub(1) else {
            return "";
        };
        let Ok(place) = usize::try_from(place) else {
            return "";
        };
        match self.parts.get(place) {
            Some(name) => name.as_str(),
            None => "",
        }
    }
}

/// What is needed to find reasons, where some will be told and there is memory for it.
fn reasons_of<'a>(alloc: Global, told: Told, input: &'a Input) -> Option<Reasons<'a>> {
    if told == Told::Nothing {
        return None;
    }
    Reasons::of(alloc, input.script.as_slice(), input.parts.as_slice()).ok()
}

impl<'a, T: Tell> Explaining<'a, T> {
    /// Tells why a line is refused; the line 0 is the script as a whole.
    fn tell_line(&self, line: u64, fault: Refused) {
        match self.reason(line, fault) {
            Some(reason) => self.tell_reason(line, &reason, fault),
            None => self.tell_none(line, fault),
        }
    }

    /// Tells the reason of a line, or of the script.
    fn tell_reason(&self, line: u64, reason: &Reason, fault: Refused) {
        let name = self.script;
        let number = fault.number();
        if line == 0 {
            self.teller
                .tell(format_args!("{name}: {reason} ({number} {fault})"));
            return;
        }
        match reason.column {
            Some(column) => self.teller.tell(format_args!(
                "{name}:{line}:{column}: {reason} ({number} {fault})"
            )),
            None => self
                .teller
                .tell(format_args!("{name}:{line}: {reason} ({number} {fault})")),
        }
    }

    /// Tells that there is no memory for a line's reason.
    fn tell_none(&self, line: u64, fault: Refused) {
        let name = self.script;
        let number = fault.number();
        self.teller.tell(format_args!(
            "{name}:{line}: no memory for the reason ({number} {fault})"
        ));
    }

    /// Tells what is wrong with a record of a part.
    fn tell_record(&self, part: u64, record: u64) {
        let name = self.part_name(part);
        let Some(reason) = self.part_reason(part, record) else {
            self.teller.tell(format_args!(
                "{name}: record {record}: no memory for the reason (6 BadPart, 7 BadRecord)"
            ));
            return;
        };
        let line = reason.line;
        self.teller.tell(format_args!("{name}:{line}: {reason} (6 BadPart, 7 BadRecord)"));
    }
}

impl<'a, T: Tell + Sync> Gate for Explaining<'a, T> {
    fn refused(&self, line: u64, fault: Refused) {
        if self.told != Told::Nothing {
            self.tell_line(line, fault);
        }
    }

    fn refused_record(&self, _line: u64, part: u64, record: u64) {
        if self.told == Told::All {
            self.tell_record(part, record);
        }
    }

    fn refused_viewers(&self, fault: Refused) {
        if self.told == Told::Nothing {
            return;
        }
        let number = fault.number();
        if fault == Refused::NoTable {
            self.teller.tell("--query: no table is declared, so nobody looks at it (1 NoTable)");
            return;
        }
        self.teller.tell(format_args!("--query: the query is refused ({number} {fault})"));
    }
}
