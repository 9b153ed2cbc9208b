//! Reads of a source, limited so that its bytes can be counted.
ghost use Rattle.std.specs.Prelude.{◌≡◌, ◌≢◌, ◌<◌, length};
ghost use Rattle.ddcmp_io.specs.Device.{ReadGives, worse};
ghost use Rattle.ddcmp_io.specs.Input.{GivesWithin};

use crate::device::{Got, Source, Worst};

/// Reads once, at most `room` bytes.
pub fn read_within<R: Source>(reader: &mut R, buf: &mut [u8], room: u64) -> Got
    requires fine { R.state reader.old ≢ Worst.Failed }
    requires some { 0 < room }
    requires buffer { 0 < length buf.old }
    ensures bytes { ReadGives (R.left reader.old) (R.left reader.new) result buf.new }
    ensures within { GivesWithin result room }
    ensures worst { R.state reader.new ≡ worse (R.state reader.old) result }
{
    if room < buf.len() as u64 {
        reader.read(&mut buf[..room as usize])
    } else {
        reader.read(buf)
    }
}
