//! Groups of rows cut into parts by a column.
ghost use Rattle.std.specs.Prelude.{◌≡◌, ◌<◌, ◌≤◌, ◌^◌, IfOk, IfSome, length};
ghost use Rattle.std.specs.List.{AllByRecursion};
ghost use Rattle.groups.specs.Parting.{AreParted, IsNumbered, codes_at, entry_limit};

use crate::renumbering::in_slot_order;
use columns::Span;
use std::alloc::{AllocError, Global};

/// Rows of a group that have one code in a column.
#[derive(Clone, Copy, Debug, Drop)]
pub struct Part {
    pub group: u32,
    pub code: u32,
}

/// The parts of all groups that have a row, and row by row the number of its part.
#[derive(Drop)]
pub struct Parts {
    pub numbers: Vec<u32>,
    pub parts: Vec<Part>,
}

/// No part has this number.
pub(crate) const NONE: u32 = u32::MAX;

/// How many entries a table may have for each row.
const ENTRIES_PER_ROW: usize = 4;

/// How many entries it may have beside these: with few rows, memory for it is no matter.
const SPARE_ENTRIES: usize = 65_536;

/// With fewer parts all that is made of them is near, in whatever order.
const MANY_PARTS: usize = 4_096;

/// In how many slots a part is looked for.
const PROBES: usize = 64;

/// An odd number whose digits have no pattern: 2^64 over the golden ratio.
const MIXER: usize = 0x9E37_79B9_7F4A_7C15;

/// The parts of the groups. `groups` has the number of each row's group, `rows` the index of its code among the codes, which
/// lie in the span; `count` is the number of groups. Many parts are numbered by their groups and codes where they can be.
pub fn parted(
    alloc: Global,
    groups: &[u32],
    count: usize,
    rows: &[u32],
    codes: &[u32],
    span: Span,
) -> Result<Parts, AllocError>
    requires one { length groups.now ≡ length rows.now }
    requires few { length rows.now ≤ 2 ^ 32 }
    requires rows { AllByRecursion (λ row. row < length codes.now) rows.now }
    ensures { IfOk result (λ p. AreParted groups.now (codes_at codes.now rows.now) p.numbers.items p.parts.items) }
{
    let slots = Slots::of(count, span, rows.len());
    let met = parted_as_met(alloc, groups, slots, rows, codes)?;
    let Met { made, table } = met;
    if slots.span.is_none() {
        return Ok(made);
    }
    if made.parts.len() < MANY_PARTS {
        return Ok(made);
    }
    let turned = in_slot_order(alloc, made, table.as_slice())?;
    Ok(turned)
}

/// Parts in the order in which their rows came, and the table of their numbers.
#[derive(Drop)]
struct Met {
    made: Parts,
    table: Vec<u32>,
}

/// The parts, numbered as their rows come.
fn parted_as_met(
    alloc: Global,
    groups: &[u32],
    slots: Slots,
    rows: &[u32],
    codes: &[u32],
) -> Result<Met, AllocError>
    requires one { length groups.now ≡ length rows.now }
    requires few { length rows.now ≤ 2 ^ 32 }
    requires rows { AllByRecursion (λ row. row < length codes.now) rows.now }
    ensures { IfOk result (λ m. AreParted groups.now (codes_at codes.now rows.now) m.made.numbers.items m.made.parts.items) }
{
    let mut numbering = Numbering {
        table: Vec::from_elem(alloc, NONE, slots.count)?,
        slots,
        parts: Vec::new(alloc),
    };
    let mut numbers = Vec::with_capacity(alloc, rows.len())?;
    for at in 0..rows.len() {
        let part = Part {
            group: groups[at],
            code: codes[rows[at] as usize],
        };
        numbers.push(numbering.number(part)?)?;
    }
    let Numbering { table, parts, .. } = numbering;
    Ok(Met {
        made: Parts { numbers, parts },
        table,
    })
}

/// How many slots a table of parts has, and by what a part's first one is found.
#[derive(Clone, Copy, Debug, Drop)]
struct Slots {
    count: usize,
    // where the codes lie, where each group has a slot for each of them; else a part's slot is found by a hash
    span: Option<Span>,
    // how many slots each group has there
    width: usize,
}

impl Slots {
    /// Those for so many groups, codes and rows: a slot for each group and code where these are not too many for the rows,
    /// and else two slots for each row.
    fn of(count: usize, span: Span, rows: usize) -> Slots
        requires { rows ≤ 2 ^ 32 }
        ensures { result.count ≤ entry_limit rows }
    {
        let width = span.width();
        if let Some(size) = count.checked_mul(width) {
            if size <= ENTRIES_PER_ROW * rows + SPARE_ENTRIES {
                return Slots {
                    count: size,
                    span: Some(span),
                    width,
                };
            }
        }
        Slots {
            count: 2 * rows + PROBES,
            span: None,
            width: 0,
        }
    }

    /// The slot from which on the part is looked for. Nothing rests on it.
    fn first(&self, part: Part) -> usize {
        let group = part.group as usize;
        if let Some(span) = self.span {
            return group
                .wrapping_mul(self.width)
                .wrapping_add(span.place(part.code));
        }
        let both = group.wrapping_mul(MIXER) ^ part.code as usize;
        let hash = (both ^ (both >> 32)).wrapping_mul(MIXER) >> 32;
        hash.wrapping_mul(self.count.saturating_sub(PROBES)) >> 32
    }
}

/// Parts, each with a number, and a table of where a part was met. Nothing rests on the table: a part that is not found by it
/// gets another number.
#[derive(Drop)]
struct Numbering {
    table: Vec<u32>,
    slots: Slots,
    parts: Vec<Part>,
}

impl Numbering {
    /// The number of the part, which is added where it is not found.
    fn number(&mut self, part: Part) -> Result<u32, AllocError>
        requires { length self.old.parts.items < 2 ^ 32 }
        ensures { IfOk result (IsNumbered part self.old.parts.items self.new.parts.items) }
    {
        let slot = match self.number_or_slot(part) {
            Ok(number) => return Ok(number),
            Err(slot) => slot,
        };
        let number = self.parts.len() as u32;
        self.parts.push(part)?;
        if let Some(met) = self.table.get_mut(slot) {
            *met = number;
        }
        Ok(number)
    }

    /// The number of the part, if it is found; else the slot in which it may stand.
    fn number_or_slot(&self, part: Part) -> Result<u32, usize>
        ensures { IfOk result (λ n. IsNumbered part self.now.parts.items self.now.parts.items n) }
    {
        // Nearly all parts are found in their first slot, so the loop is kept out of their way.
        let first = self.slots.first(part);
        if let Some(number) = self.found(first, part) {
            return Ok(number);
        }
        let mut slot = first;
        for _probe in 0..PROBES {
            if let Some(number) = self.found(slot, part) {
                return Ok(number);
            }
            if self.is_free(slot) {
                return Err(slot);
            }
            slot = slot.wrapping_add(1);
        }
        Err(slot)
    }

    /// The number that the table has there, if it is that of the part.
    fn found(&self, slot: usize, part: Part) -> Option<u32>
        ensures { IfSome result (λ n. IsNumbered part self.now.parts.items self.now.parts.items n) }
    {
        let number = *self.table.get(slot)?;
        let found = self.parts.get(number as usize)?;
        if found.group == part.group && found.code == part.code {
            Some(number)
        } else {
            None
        }
    }

    /// Whether the table has no number there. Nothing rests on it.
    fn is_free(&self, slot: usize) -> bool {
        match self.table.get(slot) {
            Some(number) => *number == NONE,
            None => true,
        }
    }
}
