//! The notation of lines.
ghost use Rattle.std.specs.Prelude.{◌≡◌, ◌≤◌, drop};
ghost use Rattle.ddcmp_io.specs.Written.{HandsOver, output_of};
ghost use Rattle.ddcmp_explain.specs.Output.{after_in, front_in, line_in, totals_in};
ghost use Rattle.ddcmp_explain.specs.Inside.Putting.{Puts};
ghost use Rattle.ddcmp_explain.specs.Text.{item_text};

use crate::json::{put_json_front, put_json_totals};
use crate::put::LINE;
use crate::text::{lends, put_front, put_item, put_totals};
use ddcmp_frame::Item;
use ddcmp_io::text::write_hex;
use ddcmp_io::{Page, Sink};

/// The notation of lines.
#[derive(Clone, Copy, Debug)]
pub enum Notation {
    /// Plain text for people.
    Plain,
    /// A JSON object a line, for programs.
    Json,
}

impl Notation {
    /// Returns a whole line in this notation.
    #[inline(always)]
    pub fn whole(self) -> LinePart
        ensures { result ≡ record { notation = self; from = 0 } }
    {
        LinePart {
            notation: self,
            from: 0,
        }
    }

    /// Puts the line of an item, up to its data; returns where it ends.
    #[inline(always)]
    fn put_front(self, line: &mut [u8; LINE], item: &Item) -> usize
        ensures puts { Puts line.old 0 line.new result (front_in self item.now) }
        ensures some { 1 ≤ result }
        ensures within { result ≤ 170 }
    {
        match self {
            Notation::Plain => put_front(line, item),
            Notation::Json => put_json_front(line, item),
        }
    }

    /// Writes what follows data.
    #[inline(always)]
    fn write_after<W: Sink>(self, page: &mut Page, writer: &mut W)
        ensures { HandsOver (output_of W.broken W.contents writer.old page.old)
            (output_of W.broken W.contents writer.new page.new) (after_in self) }
    {
        match self {
            Notation::Plain => page.write(writer, b"\n"),
            Notation::Json => page.write(writer, b"\"}\n"),
        }
    }

    /// Puts the last line; returns where it ends.
    fn put_totals(self, line: &mut [u8; LINE], totals: Totals) -> usize
        ensures puts { Puts line.old 0 line.new result
            (totals_in self totals.items totals.bytes totals.left_open) }
        ensures some { 1 ≤ result }
        ensures within { result ≤ 90 }
    {
        match self {
            Notation::Plain => put_totals(line, totals),
            Notation::Json => put_json_totals(line, totals),
        }
    }
}

/// The part of a line that is written: in this notation, without the first `from` bytes.
#[derive(Clone, Copy)]
pub struct LinePart {
    pub notation: Notation,
    pub from: usize,
}

/// The counts of a last line: of items, of bytes, and of those in the incomplete frame.
#[derive(Clone, Copy)]
pub struct Totals {
    pub items: u64,
    pub bytes: u64,
    pub left_open: u64,
}

/// Writes the line of an item, with its data.
pub fn write_item<W: Sink>(
    page: &mut Page,
    writer: &mut W,
    part: LinePart,
    item: &Item,
    data: &[u8],
)
    requires { part.from ≤ 1 }
    ensures { HandsOver (output_of W.broken W.contents writer.old page.old)
        (output_of W.broken W.contents writer.new page.new)
        (drop part.from (line_in part.notation (item.now, «data».now))) }
{
    let mut line = [0; LINE];
    write_item_by(&mut line, page, writer, part, item, data);
}

/// Does the same by way of `line`, which it overwrites and which needn't be cleared for each item.
#[inline(always)]
pub(crate) fn write_item_by<W: Sink>(
    line: &mut [u8; LINE],
    page: &mut Page,
    writer: &mut W,
    part: LinePart,
    item: &Item,
    data: &[u8],
)
    requires { part.from ≤ 1 }
    ensures { HandsOver (output_of W.broken W.contents writer.old page.old)
        (output_of W.broken W.contents writer.new page.new)
        (drop part.from (line_in part.notation (item.now, «data».now))) }
{
    let end = part.notation.put_front(line, item);
    page.write(writer, &line[..end][part.from..]);
    if lends(item) {
        write_hex(page, writer, data);
        part.notation.write_after(page, writer);
    }
}

/// Writes an item in words, without its data and the end of its line.
pub fn write_words<W: Sink>(page: &mut Page, writer: &mut W, item: &Item)
    ensures { HandsOver (output_of W.broken W.contents writer.old page.old)
        (output_of W.broken W.contents writer.new page.new) (item_text item.now) }
{
    let mut line = [0; LINE];
    let end = put_item(&mut line, item);
    page.write(writer, &line[..end]);
}

/// Writes the last line.
pub fn write_last<W: Sink>(page: &mut Page, writer: &mut W, part: LinePart, totals: Totals)
    requires { part.from ≤ 1 }
    ensures { HandsOver (output_of W.broken W.contents writer.old page.old)
        (output_of W.broken W.contents writer.new page.new)
        (drop part.from (totals_in part.notation totals.items totals.bytes totals.left_open)) }
{
    let mut line = [0; LINE];
    let end = part.notation.put_totals(&mut line, totals);
    page.write(writer, &line[..end][part.from..]);
}
