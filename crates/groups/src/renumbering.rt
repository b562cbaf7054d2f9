//! Parts numbered anew, in the order of the slots of their table: this is the order of groups and codes, by which what is made
//! of the parts lies in memory as a report goes over it.
ghost use Rattle.std.specs.Prelude.{◌≡◌, ◌<◌, ℕ, List, IfOk, IsTrue, length, map, slice_index_or};
ghost use Rattle.std.specs.List.{AllByRecursion};
ghost use Rattle.groups.specs.Parting.{AreParted, AreTurned, IsTurned, codes_at, no_part};

use crate::parting::{NONE, Part, Parts};
use std::alloc::{AllocError, Global};

/// The parts, numbered in the order in which the table has their numbers, if it has each once; else as they were.
pub fn in_slot_order(alloc: Global, made: Parts, table: &[u32]) -> Result<Parts, AllocError>
    requires { AllByRecursion (λ n. n < length made.parts.items) made.numbers.items }
    ensures { (groups codes : List ℕ) → AreParted groups codes made.numbers.items made.parts.items →
        IfOk result (λ p. AreParted groups codes p.numbers.items p.parts.items) }
{
    let order = met(alloc, table, made.parts.len())?;
    let ranks = ranks_of(alloc, order.as_slice())?;
    if !are_turned(order.as_slice(), ranks.as_slice(), made.parts.len()) {
        return Ok(made);
    }
    let numbers = ranked(alloc, made.numbers.as_slice(), ranks.as_slice())?;
    let parts = parts_at(alloc, made.parts.as_slice(), order.as_slice())?;
    Ok(Parts { numbers, parts })
}

/// The numbers that the table has, in the order of its slots. Nothing rests on them.
fn met(alloc: Global, table: &[u32], count: usize) -> Result<Vec<u32>, AllocError> {
    let mut order = Vec::with_capacity(alloc, count)?;
    for number in table {
        if *number != NONE {
            order.push(*number)?;
        }
    }
    Ok(order)
}

/// For each number its place in the order. Nothing rests on it.
fn ranks_of(alloc: Global, order: &[u32]) -> Result<Vec<u32>, AllocError> {
    let mut ranks = Vec::from_elem(alloc, NONE, order.len())?;
    let mut rank = 0u32;
    for number in order {
        if let Some(place) = ranks.get_mut(*number as usize) {
            *place = rank;
        }
        rank = rank.wrapping_add(1);
    }
    Ok(ranks)
}

/// Whether each of so many numbers is at its rank in the order, and each place of the order is the rank of its number.
fn are_turned(order: &[u32], ranks: &[u32], count: usize) -> bool
    ensures { IsTrue result → AreTurned count order.now ranks.now }
{
    if order.len() != count {
        return false;
    }
    if ranks.len() != count {
        return false;
    }
    for at in 0..count {
        if !is_turned(order, ranks, at) {
            return false;
        }
        if !is_turned(ranks, order, at) {
            return false;
        }
    }
    true
}

/// Whether what the first list has at a place is a place at which the second has the first's.
fn is_turned(first: &[u32], second: &[u32], at: usize) -> bool
    requires { at < length first.now }
    ensures { IsTrue result → IsTurned first.now second.now at }
{
    let there = first[at] as usize;
    if there >= second.len() {
        return false;
    }
    second[there] as usize == at
}

/// The ranks of the numbers.
fn ranked(alloc: Global, numbers: &[u32], ranks: &[u32]) -> Result<Vec<u32>, AllocError>
    requires { AllByRecursion (λ n. n < length ranks.now) numbers.now }
    ensures { IfOk result (λ v. v.items ≡ codes_at ranks.now numbers.now) }
{
    let mut all = Vec::with_capacity(alloc, numbers.len())?;
    for number in numbers {
        all.push(ranks[*number as usize])?;
    }
    Ok(all)
}

/// The parts of these numbers.
fn parts_at(alloc: Global, parts: &[Part], numbers: &[u32]) -> Result<Vec<Part>, AllocError>
    requires { AllByRecursion (λ n. n < length parts.now) numbers.now }
    ensures { IfOk result (λ v. v.items ≡ map (λ n. slice_index_or parts.now n no_part) numbers.now) }
{
    let mut all = Vec::with_capacity(alloc, numbers.len())?;
    for number in numbers {
        all.push(parts[*number as usize])?;
    }
    Ok(all)
}
