//! The line before a body, with its check sum.
ghost use Rattle.std.specs.Prelude.{◌≡◌, List, ℕ, IfErr, IfOk, MatchResult};
ghost use Rattle.shards.specs.Frames.{framed, head_of};

use crate::unread::Unread;
use sha2::{Digest, Sha256};
use std::alloc::{AllocError, Global};

/// How a partial answer begins: what it is, and the version of its form.
const MARK: &[u8] = b"olap partial answers 2 ";

/// How many bytes the first line has, with its end.
const HEAD_BYTES: usize = 88;

/// The first line of a text with this body: the mark, the body's SHA-256 in hexadecimal digits, and a line feed.
fn head_of(alloc: Global, body: &[u8]) -> Result<Vec<u8>, AllocError>
    ensures { IfOk result (λ head. head.items ≡ head_of body.now) }
{
    let digest = Sha256::digest(body);
    let sum = hex::encode(alloc, digest)?;
    let mut head = Vec::from_slice(alloc, MARK)?;
    head.extend_from_slice(sum.as_bytes())?;
    head.push(b'\n')?;
    Ok(head)
}

/// The text with this body.
pub(crate) fn framed(alloc: Global, body: &[u8]) -> Result<Vec<u8>, AllocError>
    ensures { IfOk result (λ text. text.items ≡ framed body.now) }
{
    let mut text = head_of(alloc, body)?;
    text.extend_from_slice(body)?;
    Ok(text)
}

/// The body of a text, which is as it was written.
pub(crate) fn body_of(alloc: Global, text: &[u8]) -> Result<&[u8], Unread>
    ensures sound { IfOk result (λ body. text.now ≡ framed body.now) }
    ensures only { (body : List ℕ) → text.now ≡ framed body → MatchResult result (λ found. found.now ≡ body) (λ e. e ≡ Unread.OutOfMemory) }
{
    if !text.starts_with(MARK) {
        return Err(Unread::OfAnotherKind);
    }
    if text.len() < HEAD_BYTES {
        return Err(Unread::Spoilt);
    }
    let (head, body) = text.split_at(HEAD_BYTES);
    let right = head_of(alloc, body)?;
    if right.as_slice() != head {
        return Err(Unread::Spoilt);
    }
    Ok(body)
}
