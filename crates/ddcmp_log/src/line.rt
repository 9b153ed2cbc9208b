//! The lines of a log.
ghost use Rattle.ddcmp_explain.specs.Discarded.{passed_text};
ghost use Rattle.ddcmp_explain.specs.Output.{line_in, totals_in};
ghost use Rattle.ddcmp_io.specs.Written.{HandsOver, output_of};
ghost use Rattle.ddcmp_log.specs.Logged.{fronted, json_front, logged_line, wording_of};
ghost use Rattle.std.specs.Prelude.{◌++◌, ◌-◌, codes, decimal, drop};
ghost use Rattle.ddcmp_explain.specs.declared.notation.Notation.TheVariants.{Json};

use crate::front::{write_front, write_json_front, write_json_members};
use crate::notation::LogNotation;
use crate::rung::write_rung;
use crate::side::{Added, Origin};
use ddcmp_explain::{LinePart, Notation, Skipped, Totals, write_discarded, write_item, write_last};
use ddcmp_frame::Item;
use ddcmp_io::text::write_number;
use ddcmp_io::{Page, Sink};

/// Writes the line of an item with its data; in a ladder its arrow.
pub fn write_line<W: Sink>(
    page: &mut Page,
    writer: &mut W,
    notation: LogNotation,
    origin: Origin,
    item: &Item,
    data: &[u8],
)
    ensures { HandsOver (output_of W.broken W.contents writer.old page.old)
        (output_of W.broken W.contents writer.new page.new)
        (logged_line notation origin.stamp origin.side (item.now, «data».now)) }
{
    match notation {
        LogNotation::Plain => {
            write_worded(page, writer, Notation::Plain, origin, item, data);
        }
        LogNotation::Json => {
            write_worded(page, writer, Notation::Json, origin, item, data);
        }
        LogNotation::Ladder => write_rung(page, writer, origin, item),
    }
}

/// Writes the line of an item with its data, not as an arrow.
fn write_worded<W: Sink>(
    page: &mut Page,
    writer: &mut W,
    wording: Notation,
    origin: Origin,
    item: &Item,
    data: &[u8],
)
    ensures { HandsOver (output_of W.broken W.contents writer.old page.old)
        (output_of W.broken W.contents writer.new page.new)
        (fronted wording origin.stamp origin.side (line_in wording (item.now, «data».now))) }
{
    let part = write_front(page, writer, wording, origin);
    write_item(page, writer, part, item, data);
}

/// Writes the line of skipped bytes.
pub fn write_skipped<W: Sink>(
    page: &mut Page,
    writer: &mut W,
    notation: LogNotation,
    origin: Origin,
    it: Skipped,
)
    ensures { HandsOver (output_of W.broken W.contents writer.old page.old)
        (output_of W.broken W.contents writer.new page.new)
        (fronted (wording_of notation) origin.stamp origin.side
        (passed_text (wording_of notation) it.from it.count)) }
{
    let part = write_front(page, writer, notation.wording(), origin);
    write_discarded(page, writer, part, it);
}

/// What is left of the line of an object after its brace.
const MEMBERS: LinePart = LinePart {
    notation: Notation::Json,
    from: 1,
};

/// Writes the line of an item with its data as an object, but for its brace.
pub fn write_item_members<W: Sink>(
    page: &mut Page,
    writer: &mut W,
    origin: Origin,
    item: &Item,
    data: &[u8],
)
    ensures { HandsOver (output_of W.broken W.contents writer.old page.old)
        (output_of W.broken W.contents writer.new page.new)
        (drop 1 (fronted Json origin.stamp origin.side (line_in Json (item.now, «data».now)))) }
{
    write_json_members(page, writer, origin);
    write_item(page, writer, MEMBERS, item, data);
}

/// Writes the line of skipped bytes as an object, but for its brace.
pub fn write_skipped_members<W: Sink>(page: &mut Page, writer: &mut W, origin: Origin, it: Skipped)
    ensures { HandsOver (output_of W.broken W.contents writer.old page.old)
        (output_of W.broken W.contents writer.new page.new)
        (drop 1 (fronted Json origin.stamp origin.side (passed_text Json it.from it.count))) }
{
    write_json_members(page, writer, origin);
    write_discarded(page, writer, MEMBERS, it);
}

/// Writes the last line.
pub fn write_totals<W: Sink>(
    page: &mut Page,
    writer: &mut W,
    notation: LogNotation,
    origin: Origin,
    totals: Totals,
)
    ensures { HandsOver (output_of W.broken W.contents writer.old page.old)
        (output_of W.broken W.contents writer.new page.new)
        (fronted (wording_of notation) origin.stamp origin.side
        (totals_in (wording_of notation) totals.items totals.bytes totals.left_open)) }
{
    let part = write_front(page, writer, notation.wording(), origin);
    write_last(page, writer, part, totals);
}

/// Writes a report as an object: what was added since the last one, and the totals.
pub(crate) fn write_reported<W: Sink>(
    page: &mut Page,
    writer: &mut W,
    origin: Origin,
    totals: Totals,
    added: Added,
)
    ensures { HandsOver (output_of W.broken W.contents writer.old page.old)
        (output_of W.broken W.contents writer.new page.new)
        (json_front origin.stamp origin.side
        ++ codes "\"event\":\"report\",\"interval\":{\"items\":" ++ decimal added.items
        ++ codes ",\"bytes\":" ++ decimal added.bytes ++ codes "},"
        ++ drop 1 (totals_in Notation.Json totals.items totals.bytes totals.left_open)) }
{
    write_json_front(page, writer, origin);
    page.write(writer, b"\"event\":\"report\",\"interval\":{\"items\":");
    write_number(page, writer, added.items);
    page.write(writer, b",\"bytes\":");
    write_number(page, writer, added.bytes);
    page.write(writer, b"},");
    write_last(page, writer, MEMBERS, totals);
}
