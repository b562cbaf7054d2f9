//! The bytes of a row that is read: near while they are few.
ghost use Rattle.std.specs.Prelude.{◌≡◌, ◌++◌, [], IfOk, if◌then◌else◌, is_ok, length};
ghost use Rattle.cells.specs.RowBytes.{row_bytes};

use crate::near_bytes::NearBytes;
use std::alloc::{AllocError, Global};

/// A row whose bytes lie elsewhere asks for a block of so many first, so that its next cells find room.
const FAR_BYTES: usize = 64;

/// Bytes in the value itself while they have a place there, and else in a block of their own.
#[derive(Debug, Drop)]
pub(crate) enum RowBytes {
    Near(NearBytes),
    Far(Vec<u8>),
}

impl RowBytes {
    /// No bytes.
    pub(crate) fn new() -> RowBytes
        ensures { row_bytes result ≡ [] }
    {
        RowBytes::Near(NearBytes::new())
    }

    /// The bytes.
    pub(crate) fn as_slice(&self) -> &[u8]
        ensures { result.now ≡ row_bytes self.now }
    {
        match self {
            RowBytes::Near(bytes) => bytes.as_slice(),
            RowBytes::Far(bytes) => bytes.as_slice(),
        }
    }

    /// Appends the two pieces. Where memory is wanting the bytes stay as they are.
    pub(crate) fn push(&mut self, alloc: Global, head: &[u8], body: &[u8]) -> Result<(), AllocError>
        ensures { row_bytes self.new ≡ (if is_ok result then row_bytes self.old ++ (head.now ++ body.now) else row_bytes self.old) }
    {
        match self {
            RowBytes::Near(bytes) => {
                if push_near(bytes, head, body) {
                    return Ok(());
                }
                let bytes = far_from(alloc, bytes.as_slice(), head, body)?;
                *self = RowBytes::Far(bytes);
                Ok(())
            }
            RowBytes::Far(bytes) => push_far(bytes, head, body),
        }
    }
}

/// Appends the two pieces where they have a place near.
fn push_near(bytes: &mut NearBytes, head: &[u8], body: &[u8]) -> bool
    ensures { bytes.new ≡ (if result then bytes.old ++ (head.now ++ body.now) else bytes.old) }
{
    if !bytes.has_room(head.len().saturating_add(body.len())) {
        return false;
    }
    bytes.push(head);
    bytes.push(body);
    true
}

/// Appends the two pieces. Where memory is wanting for the second the first is taken back.
fn push_far(bytes: &mut Vec<u8>, head: &[u8], body: &[u8]) -> Result<(), AllocError>
    ensures { bytes.new.items ≡ (if is_ok result then bytes.old.items ++ (head.now ++ body.now) else bytes.old.items) }
{
    let len = bytes.len();
    bytes.extend_from_slice(head)?;
    let Err(error) = bytes.extend_from_slice(body) else {
        return Ok(());
    };
    bytes.truncate(len);
    Err(error)
}

/// The bytes that were near, and the two pieces behind them, in a block of their own.
fn far_from(alloc: Global, near: &[u8], head: &[u8], body: &[u8]) -> Result<Vec<u8>, AllocError>
    ensures { IfOk result (λ bytes. bytes.items ≡ near.now ++ (head.now ++ body.now)) }
{
    let mut bytes = Vec::with_capacity(alloc, FAR_BYTES)?;
    bytes.extend_from_slice(near)?;
    bytes.extend_from_slice(head)?;
    bytes.extend_from_slice(body)?;
    Ok(bytes)
}
