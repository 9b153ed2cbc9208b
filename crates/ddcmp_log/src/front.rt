//! The beginning of a line.
ghost use Rattle.std.specs.Prelude.{◌≡◌, ◌≤◌};
ghost use Rattle.ddcmp_io.specs.Written.{HandsOver, output_of};
ghost use Rattle.ddcmp_log.specs.Logged.{front_in, json_front, json_members, plain_front, replaced};
ghost use Rattle.ddcmp_log.specs.Stamps.{stamp_member, stamp_text};

use crate::day::write_time;
use crate::side::{Origin, Stamp};
use ddcmp_explain::{LinePart, Notation};
use ddcmp_io::text::write_number;
use ddcmp_io::{Page, Sink};

/// Writes when bytes were received.
pub(crate) fn write_stamp<W: Sink>(page: &mut Page, writer: &mut W, stamp: Stamp)
    ensures { HandsOver (output_of W.broken W.contents writer.old page.old)
        (output_of W.broken W.contents writer.new page.new) (stamp_text stamp) }
{
    match stamp {
        Stamp::Elapsed(ms) => write_number(page, writer, ms),
        Stamp::OfDay(ms) => write_time(page, writer, ms),
    }
}

/// Writes when bytes were received, if requested, and the mark of the side.
pub(crate) fn write_plain_front<W: Sink>(page: &mut Page, writer: &mut W, origin: Origin)
    ensures { HandsOver (output_of W.broken W.contents writer.old page.old)
        (output_of W.broken W.contents writer.new page.new)
        (plain_front origin.stamp origin.side) }
{
    match origin.stamp {
        Some(stamp) => {
            write_stamp(page, writer, stamp);
            page.write(writer, b" ");
            page.write(writer, origin.side.mark());
            page.write(writer, b" ");
        }
        None => {
            page.write(writer, origin.side.mark());
            page.write(writer, b" ");
        }
    }
}

/// Writes when bytes were received, as a member of an object after another.
fn write_member<W: Sink>(page: &mut Page, writer: &mut W, stamp: Stamp)
    ensures { HandsOver (output_of W.broken W.contents writer.old page.old)
        (output_of W.broken W.contents writer.new page.new) (stamp_member stamp) }
{
    match stamp {
        Stamp::Elapsed(ms) => {
            page.write(writer, b",\"ms\":");
            write_number(page, writer, ms);
            page.write(writer, b",");
        }
        Stamp::OfDay(ms) => {
            page.write(writer, b",\"time\":\"");
            write_time(page, writer, ms);
            page.write(writer, b"\",");
        }
    }
}

/// Writes the first members of an object.
pub(crate) fn write_json_members<W: Sink>(page: &mut Page, writer: &mut W, origin: Origin)
    ensures { HandsOver (output_of W.broken W.contents writer.old page.old)
        (output_of W.broken W.contents writer.new page.new)
        (json_members origin.stamp origin.side) }
{
    page.write(writer, b"\"from\":\"");
    page.write(writer, origin.side.mark());
    match origin.stamp {
        Some(stamp) => {
            page.write(writer, b"\"");
            write_member(page, writer, stamp);
        }
        None => page.write(writer, b"\","),
    }
}

/// Begins an object, and writes its first members.
pub(crate) fn write_json_front<W: Sink>(page: &mut Page, writer: &mut W, origin: Origin)
    ensures { HandsOver (output_of W.broken W.contents writer.old page.old)
        (output_of W.broken W.contents writer.new page.new)
        (json_front origin.stamp origin.side) }
{
    page.write(writer, b"{");
    write_json_members(page, writer, origin);
}

/// Writes what precedes a line; returns the part of the line that follows: all but what was
/// replaced, the brace of an object.
pub(crate) fn write_front<W: Sink>(
    page: &mut Page,
    writer: &mut W,
    wording: Notation,
    origin: Origin,
) -> LinePart
    ensures notation { result.notation ≡ wording }
    ensures replaced { result.from ≡ replaced wording }
    ensures most { result.from ≤ 1 }
    ensures written { HandsOver (output_of W.broken W.contents writer.old page.old)
        (output_of W.broken W.contents writer.new page.new)
        (front_in wording origin.stamp origin.side) }
{
    match wording {
        Notation::Plain => {
            write_plain_front(page, writer, origin);
            wording.whole()
        }
        Notation::Json => {
            write_json_front(page, writer, origin);
            LinePart {
                notation: wording,
                from: 1,
            }
        }
    }
}
