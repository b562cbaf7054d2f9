//! How an output is handed to who asked for it.
ghost use Rattle.olap_core.specs.Outputs.{HandsOut};

/// Writes the text to the front of `out`, where it has room for it, and its length to `length`.
pub(crate) fn hand_out(text: &[u8], out: &mut [u8], length: &mut usize) -> u32
    ensures { HandsOut text.now out.old out.new length.new result }
{
    *length = text.len();
    if text.len() > out.len() {
        return 1;
    }
    out[..text.len()].copy_from_slice(text);
    0
}
