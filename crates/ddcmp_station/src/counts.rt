//! The text of a station's counters.
ghost use Rattle.std.specs.Prelude.{◌≡◌, ◌++◌};
ghost use Rattle.ddcmp_io.specs.Written.{HandsOver, output_of};
ghost use Rattle.ddcmp_station.specs.CountersText.{counter_text, named, nak_counts_text};
ghost use Rattle.ddcmp_station.specs.CountersText.{traffic_text, fault_counts_text};
ghost use Rattle.ddcmp_station.specs.CountersText.{counts_text, counters_line};

use ddcmp_core::{Counters, NakCounts};
use ddcmp_io::text::write_number;
use ddcmp_io::{Page, Sink};
use itoa::Integer;

/// How counters are written.
#[derive(Clone, Copy, Debug, PartialEq, Eq)]
pub enum Layout {
    /// In a line of text, each as ` NAME=VALUE`.
    Text,
    /// In a JSON object after other members, each as `,"NAME":VALUE`.
    Json,
}

impl Layout {
    ghost use Rattle.ddcmp_station.specs.CountersText.{before_name, before_value};

    /// Returns the text before a name.
    fn before_name(self) -> &'static [u8]
        ensures { result.now ≡ before_name self }
    {
        match self {
            Layout::Text => b" ",
            Layout::Json => b",\"",
        }
    }

    /// Returns the text between a name and its value.
    fn before_value(self) -> &'static [u8]
        ensures { result.now ≡ before_value self }
    {
        match self {
            Layout::Text => b"=",
            Layout::Json => b"\":",
        }
    }
}

/// Writes a counter.
pub fn write_counter<W: Sink, I: Integer>(
    page: &mut Page,
    out: &mut W,
    layout: Layout,
    name: &[u8],
    count: I,
)
    ensures { HandsOver (output_of W.broken W.contents out.old page.old)
        (output_of W.broken W.contents out.new page.new)
        (named layout name.now (I.text count)) }
{
    page.write(out, layout.before_name());
    page.write(out, name);
    page.write(out, layout.before_value());
    write_number(page, out, count);
}

/// The NAKs of one reason in one direction.
fn write_reason<W: Sink>(
    page: &mut Page,
    out: &mut W,
    layout: Layout,
    way: &[u8],
    reason: &[u8],
    count: u32,
)
    ensures { HandsOver (output_of W.broken W.contents out.old page.old)
        (output_of W.broken W.contents out.new page.new)
        (counter_text layout (way.now ++ reason.now) count) }
{
    page.write(out, layout.before_name());
    page.write(out, way);
    page.write(out, reason);
    page.write(out, layout.before_value());
    write_number(page, out, count);
}

fn write_nak_counts<W: Sink>(
    page: &mut Page,
    out: &mut W,
    layout: Layout,
    way: &[u8],
    counts: &NakCounts,
)
    ensures { HandsOver (output_of W.broken W.contents out.old page.old)
        (output_of W.broken W.contents out.new page.new)
        (nak_counts_text layout way.now counts.now) }
{
    write_reason(page, out, layout, way, b"header_check", counts.header_check);
    write_reason(page, out, layout, way, b"data_check", counts.data_check);
    write_reason(page, out, layout, way, b"reply_to_rep", counts.reply_to_rep);
    write_reason(page, out, layout, way, b"no_buffer", counts.no_buffer);
    write_reason(page, out, layout, way, b"overrun", counts.overrun);
    write_reason(page, out, layout, way, b"too_long", counts.too_long);
    write_reason(page, out, layout, way, b"format", counts.format);
    write_reason(page, out, layout, way, b"other", counts.other);
}

/// Writes the counters of what was received and sent.
fn write_traffic<W: Sink>(page: &mut Page, out: &mut W, layout: Layout, counts: &Counters)
    ensures { HandsOver (output_of W.broken W.contents out.old page.old)
        (output_of W.broken W.contents out.new page.new) (traffic_text layout counts.now) }
{
    write_counter(page, out, layout, b"rep_sent", counts.rep_sent);
    write_counter(page, out, layout, b"rep_received", counts.rep_received);
    write_counter(page, out, layout, b"messages_sent", counts.messages_sent);
    write_counter(page, out, layout, b"bytes_sent", counts.bytes_sent);
    write_counter(page, out, layout, b"messages_again", counts.messages_again);
    write_counter(page, out, layout, b"bytes_again", counts.bytes_again);
    write_counter(page, out, layout, b"messages_up", counts.messages_up);
    write_counter(page, out, layout, b"bytes_up", counts.bytes_up);
}

/// Writes the counters of faults.
fn write_fault_counts<W: Sink>(page: &mut Page, out: &mut W, layout: Layout, counts: &Counters)
    ensures { HandsOver (output_of W.broken W.contents out.old page.old)
        (output_of W.broken W.contents out.new page.new) (fault_counts_text layout counts.now) }
{
    write_counter(page, out, layout, b"expiries", counts.expiries);
    write_counter(page, out, layout, b"header_checks", counts.header_checks);
    write_counter(page, out, layout, b"data_checks", counts.data_checks);
    write_counter(page, out, layout, b"too_longs", counts.too_longs);
    write_counter(page, out, layout, b"formats", counts.formats);
}

/// Writes all counters of a station.
pub fn write_counts<W: Sink>(page: &mut Page, out: &mut W, layout: Layout, counts: &Counters)
    ensures { HandsOver (output_of W.broken W.contents out.old page.old)
        (output_of W.broken W.contents out.new page.new) (counts_text layout counts.now) }
{
    write_nak_counts(page, out, layout, b"nak_sent_", &counts.nak_sent);
    write_nak_counts(page, out, layout, b"nak_received_", &counts.nak_received);
    write_traffic(page, out, layout, counts);
    write_fault_counts(page, out, layout, counts);
}

/// Writes the line of all counters of a station, after the words that name the station.
pub fn write_counters<W: Sink>(page: &mut Page, writer: &mut W, who: &[u8], counts: &Counters)
    ensures { HandsOver (output_of W.broken W.contents writer.old page.old)
        (output_of W.broken W.contents writer.new page.new) (counters_line who.now counts.now) }
{
    page.write(writer, who);
    page.write(writer, b"counters");
    write_counts(page, writer, Layout::Text, counts);
    page.write(writer, b"\n");
}
