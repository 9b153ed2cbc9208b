//! The ladder: a line for each item, 78 columns wide.
ghost use Rattle.std.specs.Prelude.{◌≡◌, ◌-◌, ◌<◌, ◌≤◌, length, replicate};
ghost use Rattle.ddcmp_io.specs.Written.{HandsOver, output_of};
ghost use Rattle.ddcmp_log.specs.Ladder.{ladder_front, rung, rung_of, stroke_of as stroke_of_item};

use crate::front::write_stamp;
use crate::side::{Origin, Side, Stamp};
use ddcmp_explain::{LABEL_ROOM, label_item};
use ddcmp_frame::Item;
use ddcmp_io::{Page, Sink};

/// The columns of a line that its label and strokes share, without the fixed characters.
const REACH: usize = 71;

/// Returns the character of an arrow: a hyphen for a good frame, a tilde for anything else.
fn stroke_of(item: &Item) -> u8
    ensures { result ≡ stroke_of_item item.now }
{
    match item {
        Item::Good(_, _) => b'-',
        Item::HeaderCheck(_) | Item::DataCheck(_, _) | Item::TooLong(_, _) | Item::Format(_, _) =>
            b'~',
    }
}

/// Writes this many strokes.
fn write_strokes<W: Sink>(page: &mut Page, writer: &mut W, stroke: u8, count: usize)
    requires { count ≤ REACH }
    ensures { HandsOver (output_of W.broken W.contents writer.old page.old)
        (output_of W.broken W.contents writer.new page.new) (replicate count stroke) }
{
    let strokes = [stroke; REACH];
    page.write(writer, &strokes[..count]);
}

/// Writes a line of the ladder, with this label.
fn write_arrow<W: Sink>(page: &mut Page, writer: &mut W, side: Side, stroke: u8, label: &[u8])
    requires { length label.now ≤ REACH }
    ensures { HandsOver (output_of W.broken W.contents writer.old page.old)
        (output_of W.broken W.contents writer.new page.new) (rung side stroke label.now) }
{
    let reach = REACH - label.len();
    match side {
        Side::Caller => {
            page.write(writer, b"|-- ");
            page.write(writer, label);
            page.write(writer, b" ");
            write_strokes(page, writer, stroke, reach);
            page.write(writer, b">|\n");
        }
        Side::Called => {
            page.write(writer, b"|<");
            write_strokes(page, writer, stroke, reach);
            page.write(writer, b" ");
            page.write(writer, label);
            page.write(writer, b" --|\n");
        }
    }
}

/// Writes the line of an item.
pub(crate) fn write_rung<W: Sink>(page: &mut Page, writer: &mut W, origin: Origin, item: &Item)
    ensures { HandsOver (output_of W.broken W.contents writer.old page.old)
        (output_of W.broken W.contents writer.new page.new)
        (rung_of origin.stamp origin.side item.now) }
{
    let mut label = [0; LABEL_ROOM];
    let end = label_item(&mut label, item);
    write_rung_front(page, writer, origin.stamp);
    write_arrow(page, writer, origin.side, stroke_of(item), &label[..end]);
}

/// Writes when bytes were received, if requested.
fn write_rung_front<W: Sink>(page: &mut Page, writer: &mut W, stamp: Option<Stamp>)
    ensures { HandsOver (output_of W.broken W.contents writer.old page.old)
        (output_of W.broken W.contents writer.new page.new) (ladder_front stamp) }
{
    match stamp {
        Some(stamp) => {
            write_stamp(page, writer, stamp);
            page.write(writer, b" ");
        }
        None => page.write(writer, b""),
    }
}
