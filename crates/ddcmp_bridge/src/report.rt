//! The last lines of a bridge.
ghost use Rattle.std.specs.Prelude.{◌≡◌, is_err, false};
ghost use Rattle.ddcmp_io.specs.Written.{HandsOver, Writes, output_of};
ghost use Rattle.ddcmp_bridge.specs.Report.{bridge_report, direction_line};

use crate::counts::Counts;
use ddcmp_io::text::write_number;
use ddcmp_io::{Page, Sink, WriteFailed};

/// Writes the line of one direction.
pub(crate) fn write_direction<W: Sink>(
    page: &mut Page,
    writer: &mut W,
    mark: &[u8],
    counts: &Counts,
)
    ensures { HandsOver (output_of W.broken W.contents writer.old page.old)
        (output_of W.broken W.contents writer.new page.new) (direction_line mark.now counts.now) }
{
    page.write(writer, mark);
    page.write(writer, b" frames=");
    write_number(page, writer, counts.frames);
    page.write(writer, b" skipped=");
    write_number(page, writer, counts.skipped);
    page.write(writer, b" damaged=");
    write_number(page, writer, counts.damaged);
    page.write(writer, b" lost=");
    write_number(page, writer, counts.lost);
    page.write(writer, b" altered=");
    write_number(page, writer, counts.altered);
    page.write(writer, b"\n");
}

/// Writes the counters of the direction from the first line to the second, and back.
pub fn write_report<W: Sink>(
    writer: &mut W,
    there: &Counts,
    back: &Counts,
) -> Result<(), WriteFailed>
    requires whole { W.broken writer.old ≡ false }
    ensures writes { Writes (W.contents writer.old) (W.contents writer.new) result
        (bridge_report there.now back.now) }
    ensures broken { W.broken writer.new ≡ is_err result }
{
    let mut page = Page::new();
    write_direction(&mut page, writer, b">", there);
    write_direction(&mut page, writer, b"<", back);
    page.flush(writer)
}
