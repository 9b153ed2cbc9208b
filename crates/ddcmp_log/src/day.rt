//! The time of day in UTC.
ghost use Rattle.std.specs.Prelude.{◌≡◌, ◌*◌, ◌≤◌, pos};
ghost use Rattle.ddcmp_io.specs.Written.{HandsOver, output_of};
ghost use Rattle.ddcmp_log.specs.Day.{time_text};

use ddcmp_io::{Page, Sink};
use jiff_core::civil::DateTime;
use jiff_fmt::temporal::DateTimePrinter;

/// The end of the year 9999, in milliseconds after 1970.
const LAST: u64 = 253_402_300_799_999;

/// Writes the time of day at this many milliseconds after 1970, at most the end of the year 9999.
pub fn write_time<W: Sink>(page: &mut Page, writer: &mut W, ms: u64)
    ensures { HandsOver (output_of W.broken W.contents writer.old page.old)
        (output_of W.broken W.contents writer.new page.new) (time_text ms) }
{
    let at = DateTime::from_nanosecond_in_range(nanoseconds(ms.min(LAST)));
    let text = DateTimePrinter::new().precision(Some(3)).datetime_text(at);
    page.write(writer, text.as_str().as_bytes());
    page.write(writer, b"Z");
}

/// Returns how many nanoseconds some milliseconds are.
fn nanoseconds(ms: u64) -> i128
    ensures { result ≡ pos (ms * 1_000_000) }
{
    ms as i128 * 1_000_000
}
