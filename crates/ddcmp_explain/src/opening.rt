//! The first bytes of an input.
ghost use Rattle.std.specs.Prelude.{◌≡◌, ◌↔◌, ◌≢◌, IfSome};
ghost use Rattle.ddcmp_explain.specs.Inside.Openings.{Opens};

use ddcmp_io::{Got, Source, Worst};

/// How many bytes the detection looks at: more than a frame's header, and about a line of a dump.
pub(crate) const OPENING: usize = 64;

/// What was read of an input to detect its form.
#[derive(Clone, Copy)]
pub(crate) enum Opening {
    /// All bytes that the detection looks at.
    Whole,
    /// The input ended after this many.
    Ended(usize),
    /// A read failed first.
    Failed,
}

/// Reads the first bytes of an input, as many as the detection looks at.
pub(crate) fn read_opening<R: Source>(reader: &mut R, first: &mut [u8; OPENING]) -> Opening
    requires fine { R.state reader.old ≡ Worst.Fine }
    ensures bytes { Opens (R.left reader.old) (R.left reader.new) result first.new }
    ensures failed { (R.state reader.new ≢ Worst.Fine) ↔ (result ≡ Opening.Failed) }
{
    let mut count = 0;
    while count < OPENING {
        match reader.read(&mut first[count..]) {
            Got::Bytes(0) => return Opening::Ended(count),
            Got::Bytes(n) => count += n,
            Got::Idle | Got::Failed => return Opening::Failed,
        }
    }
    Opening::Whole
}
