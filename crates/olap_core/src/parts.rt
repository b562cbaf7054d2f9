//! Parts that lie one after another.
ghost use Rattle.std.specs.Prelude.{◌≡◌, ◌⊎◌, Some, None, IfErr, IfOk, map};
ghost use Rattle.olap_core.specs.Outputs.{cut_by};

use crate::fault::Fault;
use std::alloc::{AllocError, Global};

/// Copies of the parts of these lengths, which lie one after another in the bytes and are all of them.
pub(crate) fn parts_of(
    alloc: Global,
    bytes: &[u8],
    lengths: &[usize],
) -> Result<Vec<Vec<u8>>, Fault>
    ensures parts { IfOk result (λ parts. cut_by lengths.now bytes.now ≡ Some (map (λ p. p.items) parts.items)) }
    ensures none { IfErr result (λ fault. fault ≡ Fault.BadLengths → cut_by lengths.now bytes.now ≡ None) }
    ensures others { IfErr result (λ fault. (fault ≡ Fault.BadLengths) ⊎ (fault ≡ Fault.OutOfMemory)) }
{
    let mut parts = Vec::with_capacity(alloc, lengths.len())?;
    let mut left = bytes;
    for length in lengths {
        if *length > left.len() {
            return Err(Fault::BadLengths);
        }
        let (part, rest) = left.split_at(*length);
        let copy = copy_of(alloc, part)?;
        parts.push(copy)?;
        left = rest;
    }
    if !left.is_empty() {
        return Err(Fault::BadLengths);
    }
    Ok(parts)
}

/// A copy of the bytes.
fn copy_of(alloc: Global, bytes: &[u8]) -> Result<Vec<u8>, AllocError>
    ensures { IfOk result (λ copy. copy.items ≡ bytes.now) }
{
    let mut copy = Vec::with_capacity(alloc, bytes.len())?;
    copy.extend_from_slice(bytes)?;
    Ok(copy)
}
