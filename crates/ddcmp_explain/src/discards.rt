//! The lines of bytes that belong to no item.
ghost use Rattle.std.specs.Prelude.{◌≡◌, ◌+◌, ◌≤◌, Option, drop};
ghost use Rattle.ddcmp_io.specs.Written.{HandsOver, output_of};
ghost use Rattle.ddcmp_explain.specs.Discarded.{open_end, open_front};
ghost use Rattle.ddcmp_explain.specs.Discarded.{open_length as length_of_open, open_text};
ghost use Rattle.ddcmp_explain.specs.Discarded.{passed_text};
ghost use Rattle.ddcmp_explain.specs.Inside.Putting.{Puts};

use crate::json::{put_header as put_json_header, put_start};
use crate::notation::{LinePart, Notation};
use crate::put::{LINE, put, put_number};
use crate::skipped::Skipped;
use crate::text::put_header;
use ddcmp_frame::Header;
use ddcmp_io::{Page, Sink};

fn put_skipped(line: &mut [u8; LINE], notation: Notation, it: Skipped) -> usize
    ensures puts { Puts line.old 0 line.new result (passed_text notation it.from it.count) }
    ensures some { 1 ≤ result }
    ensures within { result ≤ 80 }
{
    match notation {
        Notation::Plain => {
            let after_offset = put_number(line, 0, it.from);
            let at_count = put(line, after_offset, b" discarded ");
            let after_count = put_number(line, at_count, it.count);
            put(line, after_count, b"\n")
        }
        Notation::Json => {
            let at_count = put_start(line, it.from, b",\"discarded\":");
            let after_count = put_number(line, at_count, it.count);
            put(line, after_count, b"}\n")
        }
    }
}

/// Writes the line of skipped bytes, the offset of the first and how many.
pub fn write_discarded<W: Sink>(page: &mut Page, writer: &mut W, part: LinePart, it: Skipped)
    requires { part.from ≤ 1 }
    ensures { HandsOver (output_of W.broken W.contents writer.old page.old)
        (output_of W.broken W.contents writer.new page.new)
        (drop part.from (passed_text part.notation it.from it.count)) }
{
    let mut line = [0; LINE];
    let end = put_skipped(&mut line, part.notation, it);
    page.write(writer, &line[..end][part.from..]);
}

/// Puts the line of an incomplete frame, up to its numbers, as plain text; returns where it ends.
fn put_open_words(line: &mut [u8; LINE], offset: u64, header: &Option<Header>) -> usize
    ensures puts { Puts line.old 0 line.new result (open_front Notation.Plain offset header.now) }
    ensures within { result ≤ 110 }
{
    let after_offset = put_number(line, 0, offset);
    match header {
        None => put(line, after_offset, b" unfinished header"),
        Some(header) => {
            let at_header = put(line, after_offset, b" unfinished ");
            put_header(line, at_header, header)
        }
    }
}

/// Does the same as members of a JSON object.
fn put_open_members(line: &mut [u8; LINE], offset: u64, header: &Option<Header>) -> usize
    ensures puts { Puts line.old 0 line.new result (open_front Notation.Json offset header.now) }
    ensures within { result ≤ 160 }
{
    match header {
        None => put_start(line, offset, b",\"unfinished\":\"header\""),
        Some(header) => {
            let at_header = put_start(line, offset, b",\"unfinished\":");
            put_json_header(line, at_header, header)
        }
    }
}

fn put_open_front(
    line: &mut [u8; LINE],
    notation: Notation,
    offset: u64,
    header: &Option<Header>,
) -> usize
    ensures puts { Puts line.old 0 line.new result (open_front notation offset header.now) }
    ensures within { result ≤ 160 }
{
    match notation {
        Notation::Plain => put_open_words(line, offset, header),
        Notation::Json => put_open_members(line, offset, header),
    }
}

/// Puts how many bytes of a frame were read, and how many it has; returns where that ends.
fn put_open_end(line: &mut [u8; LINE], notation: Notation, have: u64, whole: u64) -> usize
    ensures puts { Puts line.old 0 line.new result (open_end notation have whole) }
    ensures within { result ≤ 80 }
{
    match notation {
        Notation::Plain => {
            let at_have = put(line, 0, b" ");
            let after_have = put_number(line, at_have, have);
            let at_whole = put(line, after_have, b" of ");
            let after_whole = put_number(line, at_whole, whole);
            put(line, after_whole, b"\n")
        }
        Notation::Json => {
            let at_have = put(line, 0, b",\"have\":");
            let after_have = put_number(line, at_have, have);
            let at_whole = put(line, after_have, b",\"of\":");
            let after_whole = put_number(line, at_whole, whole);
            put(line, after_whole, b"}\n")
        }
    }
}

fn open_length(header: &Option<Header>) -> u64
    ensures { result ≡ length_of_open header.now }
{
    match header {
        None => 8,
        Some(header) => header.frame_length() as u64,
    }
}

/// Writes the line of the incomplete frame: its offset, its header if that is complete, and how
/// many of its bytes were read.
pub(crate) fn write_open<W: Sink>(
    page: &mut Page,
    writer: &mut W,
    notation: Notation,
    offset: u64,
    header: &Option<Header>,
    have: u64,
)
    ensures { HandsOver (output_of W.broken W.contents writer.old page.old)
        (output_of W.broken W.contents writer.new page.new)
        (open_text notation offset header.now have) }
{
    let mut line = [0; LINE];
    let end = put_open_front(&mut line, notation, offset, header);
    page.write(writer, &line[..end]);
    let end = put_open_end(&mut line, notation, have, open_length(header));
    page.write(writer, &line[..end]);
}
