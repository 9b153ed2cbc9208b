//! The last lines of a run between two ends: the counters of both stations, if requested, and a
//! summary since the line was cleared. These functions change nothing: what plays a script writes
//! these lines at its end, as text or below a picture.
//! ```text
//! honest yes clean yes up A=0 B=1 acked A=1 B=0
//! ```

ghost use Rattle.std.specs.Prelude.{◌≡◌, ◌++◌};
ghost use Rattle.ddcmp_io.specs.Written.{HandsOver, output_of};
ghost use Rattle.ddcmp_line.specs.ScriptText.{yes_or_no as yes_or_no_text, totals_line};
ghost use Rattle.ddcmp_line.specs.ScriptText.{closing_text, counters_lines};

use crate::reply_text::end_name;
use ddcmp_io::text::write_number;
use ddcmp_io::{Page, Sink};
use ddcmp_pair::{End, Pair};
use ddcmp_station::write_counters;

fn yes_or_no(is: bool) -> &'static [u8]
    ensures { result.now ≡ yes_or_no_text is }
{
    if is { b"yes" } else { b"no" }
}

/// Writes the last line: a summary since the line was cleared.
fn write_last_line<W: Sink>(page: &mut Page, writer: &mut W, pair: &Pair)
    ensures { HandsOver (output_of W.broken W.contents writer.old page.old)
        (output_of W.broken W.contents writer.new page.new) (totals_line pair.now) }
{
    page.write(writer, b"honest ");
    page.write(writer, yes_or_no(pair.honest()));
    page.write(writer, b" clean ");
    page.write(writer, yes_or_no(pair.clean()));
    page.write(writer, b" up A=");
    write_number(page, writer, pair.handed_up(End::A));
    page.write(writer, b" B=");
    write_number(page, writer, pair.handed_up(End::B));
    page.write(writer, b" acked A=");
    write_number(page, writer, pair.acknowledged(End::A));
    page.write(writer, b" B=");
    write_number(page, writer, pair.acknowledged(End::B));
    page.write(writer, b"\n");
}

/// Writes the counters of both stations, a line each.
pub fn write_both_counters<W: Sink>(page: &mut Page, writer: &mut W, pair: &Pair)
    ensures { HandsOver (output_of W.broken W.contents writer.old page.old)
        (output_of W.broken W.contents writer.new page.new) (counters_lines pair.now) }
{
    let first = pair.station(End::A).counters();
    write_counters(page, writer, end_name(End::A), first);
    let second = pair.station(End::B).counters();
    write_counters(page, writer, end_name(End::B), second);
}

/// Writes the counters, and the last line.
fn write_counted_closing<W: Sink>(page: &mut Page, writer: &mut W, pair: &Pair)
    ensures { HandsOver (output_of W.broken W.contents writer.old page.old)
        (output_of W.broken W.contents writer.new page.new)
        (counters_lines pair.now ++ totals_line pair.now) }
{
    write_both_counters(page, writer, pair);
    write_last_line(page, writer, pair);
}

/// Writes the end of the text: the counters, if requested, and the last line.
pub fn write_closing<W: Sink>(page: &mut Page, writer: &mut W, pair: &Pair, counted: bool)
    ensures { HandsOver (output_of W.broken W.contents writer.old page.old)
        (output_of W.broken W.contents writer.new page.new) (closing_text counted pair.now) }
{
    if counted {
        write_counted_closing(page, writer, pair);
    } else {
        write_last_line(page, writer, pair);
    }
}
