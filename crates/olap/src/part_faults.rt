//! The faulty records of the parts that a script lists.

use crate::tell::Tell;
use cells::{Schema, Text, whole_number_of};
use command::job::Job;
use prepare::misquoted;
use reasons::{PartFaults, PartReason, Reasons, faults_of_part};
use script::{MAX_PARTS, MAX_SCRIPT_BYTES};
use std::alloc::{AllocError, Global};

/// The most faulty records of a part that are told one by one.
pub const MAX_TOLD: u64 = 100;

/// Tells the faulty records of the parts that `load` lines of the script list, part by part, at most [`MAX_TOLD`] of each and then
/// how many more there are. A script that is too long, or of too many parts, loads none, and so does one that declares no table.
pub fn tell_parts<T: Tell>(
    alloc: Global,
    teller: &T,
    job: &Job,
    script: &[u8],
    parts: &[Vec<u8>],
) -> Result<(), AllocError> {
    if script.len() > MAX_SCRIPT_BYTES || parts.len() > MAX_PARTS {
        return Ok(());
    }
    let reasons = Reasons::of(alloc, script, parts)?;
    let Some(schema) = reasons.schema() else {
        return Ok(());
    };
    tell_quotes(alloc, teller, job.parts.as_slice(), script, parts)?;
    let listed = listed_parts(alloc, script, parts.len())?;
    tell_listed(
        alloc,
        teller,
        job.parts.as_slice(),
        parts,
        listed.as_slice(),
        schema,
    )
}

/// Tells of each of the parts of these names that `load` lines of the script list the first quote that is not as RFC 4180 has it, which
/// no run refuses: after one that is never closed all lines of the part are one field.
pub fn tell_quotes<T: Tell>(
    alloc: Global,
    teller: &T,
    names: &[Text],
    script: &[u8],
    parts: &[Vec<u8>],
) -> Result<(), AllocError> {
    let listed = listed_parts(alloc, script, parts.len())?;
    for ((name, part), is_listed) in names.iter().zip(parts).zip(&listed) {
        if *is_listed {
            tell_quote(teller, name.as_str(), part.as_slice());
        }
    }
    Ok(())
}

/// Tells the first quote of a part that is not as it should be, where there is one.
fn tell_quote<T: Tell>(teller: &T, name: &str, part: &[u8]) {
    if let Some((fault, line)) = misquoted(part, b',') {
        teller.tell(format_args!("{name}:{line}: {fault}"));
    }
}

/// The same of the parts of these names that are listed.
fn tell_listed<T: Tell>(
    alloc: Global,
    teller: &T,
    names: &[Text],
    parts: &[Vec<u8>],
    listed: &[bool],
    schema: &Schema,
) -> Result<(), AllocError> {
    for ((name, part), is_listed) in names.iter().zip(parts).zip(listed) {
        if *is_listed {
            tell_part(alloc, teller, name.as_str(), part.as_slice(), schema)?;
        }
    }
    Ok(())
}

/// Tells the faulty records of a part of this name.
fn tell_part<T: Tell>(
    alloc: Global,
    teller: &T,
    name: &str,
    part: &[u8],
    schema: &Schema,
) -> Result<(), AllocError> {
    let mut faults = faults_of_part(alloc, part, schema)?;
    tell_faults(teller, name, &mut faults)
}

/// Tells the first of the faulty records, and how many more there are.
fn tell_faults<T: Tell>(
    teller: &T,
    name: &str,
    faults: &mut PartFaults<'_>,
) -> Result<(), AllocError> {
    tell_first(teller, name, faults)?;
    tell_count(teller, name, count_left(faults)?);
    Ok(())
}

/// Tells the first faulty records, at most [`MAX_TOLD`].
fn tell_first<T: Tell>(
    teller: &T,
    name: &str,
    faults: &mut PartFaults<'_>,
) -> Result<(), AllocError> {
    for _ in 0..MAX_TOLD {
        let Some((_, reason)) = faults.next()? else {
            break;
        };
        tell_fault(teller, name, reason);
    }
    Ok(())
}

/// Tells a faulty record.
fn tell_fault<T: Tell>(teller: &T, name: &str, reason: PartReason) {
    let line = reason.line;
    teller.tell(format_args!("{name}:{line}: {reason} (6 BadPart, 7 BadRecord)"));
}

/// Tells how many faulty records more there are, where there are some.
fn tell_count<T: Tell>(teller: &T, name: &str, more: u64) {
    if more > 0 {
        teller.tell(format_args!("{name}: {more} faulty records more (6 BadPart, 7 BadRecord)"));
    }
}

/// How many faulty records are left.
fn count_left(faults: &mut PartFaults<'_>) -> Result<u64, AllocError> {
    let mut count = 0u64;
    while let Some(_) = faults.next()? {
        count = count.saturating_add(1);
    }
    Ok(count)
}

/// For each of so many parts whether a `load` line of the script lists it.
fn listed_parts(alloc: Global, script: &[u8], parts: usize) -> Result<Vec<bool>, AllocError> {
    let mut listed = vec![in alloc; false; parts]?;
    for line in script.split(|byte| *byte == b'\n') {
        list_line(line, listed.as_mut_slice());
    }
    Ok(listed)
}

/// Takes note of the parts that a line lists.
fn list_line(line: &[u8], listed: &mut [bool]) {
    let Ok(text) = str::from_utf8(line) else {
        return;
    };
    let text = text.strip_suffix('\r').unwrap_or(text);
    let Some(("load", numbers)) = text.split_once(' ') else {
        return;
    };
    for number in numbers.split(' ') {
        list_number(number, listed);
    }
}

/// Takes note of the part of this number.
fn list_number(number: &str, listed: &mut [bool]) {
    let Some(number) = whole_number_of(number) else {
        return;
    };
    let Some(place) = number.checked_sub(1) else {
        return;
    };
    if let Some(part) = listed.get_mut(place as usize) {
        *part = true;
    }
}
