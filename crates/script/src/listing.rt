//! The parts that a `load` line lists.
ghost use Rattle.std.specs.Prelude.{◌≡◌, ◌+◌, ◌∷◌, ◌<◌, ◌≤◌, ◌↔◌, [], IfOk, IfSome, IsTrue, length, map, option_map, sum_by};
ghost use Rattle.std.specs.Char.{is_ascii_digit};
ghost use Rattle.std.specs.List.{list_all};
ghost use Rattle.std.specs.Option.{option_map_or};
ghost use Rattle.cells.specs.Refusals.{ReadsBy};
ghost use Rattle.loader.specs.Limits.{listed_limit};
ghost use Rattle.loader.specs.Parts.{part_len, part_of};
ghost use Rattle.script.specs.Listings.{all_there, are_numbers, between_spaces, handed_in, is_number, listed_in, part_spelt};
ghost use Rattle.script.specs.declared.fault.Fault.TheVariants.{Line};

use crate::fault::Fault;
use cells::{Refused, whole_number_of};
use loader::MAX_LISTED_BYTES;
use std::alloc::Global;

/// A listed part: its number, counted from 1, and its bytes.
pub type Listed<'a> = (u64, &'a [u8]);

/// Reads the rest of a `load` line: the numbers of parts, each of one or more digits, with one space between
/// neighbours and nothing else. A number may have leading zeros, and a part may be listed more than once. The
/// refusal is the first of these, or [`Refused::OutOfMemory`]: [`Refused::BadCommand`] where the rest is not
/// so, [`Refused::NoPart`] where a number is 0 or above that of the last part, [`Refused::Limit`] where the
/// listed parts have more than [`MAX_LISTED_BYTES`] bytes, counted at each listing.
pub fn read_listing<'a>(
    alloc: Global,
    parts: &'a [Vec<u8>],
    rest: &str,
) -> Result<Vec<Listed<'a>>, Fault>
    ensures exact { ReadsBy (Line Refused.OutOfMemory) (λ v. map part_of v.items) (listed_in (map (λ p. p.items) parts.now) rest.now) result }
    ensures many { IfOk result (λ v. length v.items ≤ length rest.now + 1) }
    ensures within { IfOk result (λ v. sum_by part_len (map part_of v.items) ≤ listed_limit) }
{
    if !are_numbers(rest) {
        return Err(Fault::Line(Refused::BadCommand));
    }
    let listed = parts_spelt(alloc, parts, rest)?;
    if !is_within_limit(&listed) {
        return Err(Fault::Line(Refused::Limit));
    }
    Ok(listed)
}

/// Whether the text is numbers with one space between neighbours.
fn are_numbers(text: &str) -> bool
    ensures { result ≡ are_numbers text.now }
{
    let mut left = Some(text);
    while let Some(text) = left {
        let (number, behind) = first_of(text);
        if !is_number(number) {
            return false;
        }
        left = behind;
    }
    true
}

/// What stands before the first space, and what follows that, where there is one.
fn first_of(text: &str) -> (&str, Option<&str>)
    ensures split { between_spaces text.now ≡ result.0.now ∷ option_map_or (λ rest. between_spaces rest.now) result.1 [] }
    ensures shorter { IfSome result.1 (λ rest. length rest.now < length text.now) }
{
    match text.split_once(' ') {
        Some((number, behind)) => (number, Some(behind)),
        None => (text, None),
    }
}

/// Whether the text is one or more digits.
#[tactic(auto, using(crate::proofs::ListingsLemmas::number_of_digits, crate::proofs::ListingsLemmas::empty_is_none))]
fn is_number(text: &str) -> bool
    ensures { result ≡ is_number text.now }
{
    !text.is_empty() && are_digits(text.as_bytes())
}

/// Whether each byte is a digit.
fn are_digits(bytes: &[u8]) -> bool
    ensures { result ≡ list_all is_ascii_digit bytes.now }
{
    bytes.iter().all(|byte| byte.is_ascii_digit())
}

/// The parts whose numbers the text spells, or [`Refused::NoPart`].
fn parts_spelt<'a>(
    alloc: Global,
    parts: &'a [Vec<u8>],
    text: &str,
) -> Result<Vec<Listed<'a>>, Fault>
    ensures exact { ReadsBy (Line Refused.OutOfMemory) (λ v. map part_of v.items)
        (handed_in (all_there (map (part_spelt (map (λ p. p.items) parts.now)) (between_spaces text.now)))) result }
    ensures many { IfOk result (λ v. length v.items ≤ length text.now + 1) }
{
    let mut listed = Vec::new(alloc);
    let mut left = Some(text);
    while let Some(text) = left {
        let (number, behind) = first_of(text);
        let Some(part) = part_spelt(parts, number) else {
            return Err(Fault::Line(Refused::NoPart));
        };
        listed.push(part)?;
        left = behind;
    }
    Ok(listed)
}

/// The part whose number the text spells.
fn part_spelt<'a>(parts: &'a [Vec<u8>], text: &str) -> Option<Listed<'a>>
    ensures { option_map part_of result ≡ part_spelt (map (λ p. p.items) parts.now) text.now }
{
    let number = whole_number_of(text)?;
    let place = number.checked_sub(1)?;
    let part = parts.get(place as usize)?;
    Some((number, part.as_slice()))
}

/// Whether the parts have no more bytes than may be listed.
fn is_within_limit(listed: &[Listed<'_>]) -> bool
    ensures { IsTrue result ↔ (sum_by part_len (map part_of listed.now) ≤ listed_limit) }
{
    let mut left = MAX_LISTED_BYTES;
    for (_, bytes) in listed {
        let Some(less) = left.checked_sub(bytes.len() as u64) else {
            return false;
        };
        left = less;
    }
    true
}
