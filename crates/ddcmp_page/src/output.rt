//! The output of a call, which goes to the page.
ghost use Rattle.ddcmp_page.specs.Handed.{Hands};

use crate::codes::ROOM;

/// Copies an output to the front of `out`, if it fits; stores its length in both cases. Returns the
/// code of the call, or that it doesn't fit.
pub(crate) fn hand(kept: &[u8], code: u32, out: &mut [u8], written: &mut usize) -> u32
    ensures { Hands kept.now code out.old out.new written.new result }
{
    let end = kept.len();
    *written = end;
    if out.len() < end {
        return ROOM;
    }
    out[..end].copy_from_slice(kept);
    code
}
