//! The user of a served station: sends one message, and reports events.
ghost use Rattle.std.specs.Prelude.{◌≡◌, ◌++◌, [], is_err};
ghost use Rattle.ddcmp_io.specs.Written.{HandsOver, output_of};
ghost use Rattle.ddcmp_net.specs.Serving.{closing_text, end_text};
ghost use Rattle.ddcmp_station.specs.CountersText.{counters_line};

use ddcmp_io::text::{write_hex, write_number};
use ddcmp_io::{Page, Sink, WriteFailed};
use ddcmp_station::{
    Driven, Notice, State, Station, User, state_name, write_counters, write_notice,
};

/// Sends one message as soon as it is asked for one, and writes a line for each notice and each
/// received message. A line is written completely before anything else happens.
#[derive(Drop)]
pub(crate) struct Reporter<'a, P> {
    report: &'a mut P,
    /// What is left to send; empty if nothing is.
    send: &'a [u8],
}

impl<'a, P: Sink> Reporter<'a, P> {
    pub(crate) fn new(report: &'a mut P, send: &'a [u8]) -> Self
        ensures same_reference { result.report.ghost_name ≡ report.entry.ghost_name }
        ensures report { result.report.now ≡ report.old }
        ensures send { result.send.now ≡ send.now }
    {
        Reporter { report, send }
    }
}

impl<P: Sink> User for Reporter<'_, P> {
    ghost use Rattle.ddcmp_net.specs.Inside.Reporting.{Reports};

    ghost becomes = { Reports P.broken P.contents };

    fn message(&mut self, out: &mut [u8]) -> usize {
        let length = self.send.len().min(out.len());
        out[..length].copy_from_slice(&self.send[..length]);
        self.send = &[];
        length
    }

    fn notice(&mut self, notice: Notice) {
        let mut page = Page::new();
        write_notice(&mut page, self.report, b"", notice);
        let _told_at_the_end = page.flush(self.report);
    }

    fn mail(&mut self, message: &[u8]) {
        let mut page = Page::new();
        page.write(self.report, b"mail ");
        write_hex(&mut page, self.report, message);
        page.write(self.report, b"\n");
        let _told_at_the_end = page.flush(self.report);
    }
}

/// Writes the parts of the last line of a report.
fn write_totals<P: Sink>(page: &mut Page, report: &mut P, driven: &Driven, state: State)
    ensures { HandsOver (output_of P.broken P.contents report.old page.old)
        (output_of P.broken P.contents report.new page.new) (end_text driven.now state) }
{
    page.write(report, b"turns=");
    write_number(page, report, driven.turns);
    page.write(report, b" state=");
    page.write(report, state_name(state));
    page.write(report, b" read=");
    write_number(page, report, driven.read);
    page.write(report, b" written=");
    write_number(page, report, driven.written);
    page.write(report, b"\n");
}

/// Writes the counters, and the last line.
fn write_counted_totals<P: Sink>(
    page: &mut Page,
    report: &mut P,
    driven: &Driven,
    station: &Station,
)
    ensures { HandsOver (output_of P.broken P.contents report.old page.old)
        (output_of P.broken P.contents report.new page.new)
        (counters_line [] station.now.core.counters
        ++ end_text driven.now station.now.core.station.state) }
{
    write_counters(page, report, b"", station.counters());
    write_totals(page, report, driven, station.state());
}

/// Writes the end of a report: the counters, if requested, and the last line.
fn write_closing<P: Sink>(
    page: &mut Page,
    report: &mut P,
    driven: &Driven,
    station: &Station,
    counted: bool,
)
    ensures { HandsOver (output_of P.broken P.contents report.old page.old)
        (output_of P.broken P.contents report.new page.new)
        (closing_text counted driven.now station.now.core) }
{
    if counted {
        write_counted_totals(page, report, driven, station);
    } else {
        write_totals(page, report, driven, station.state());
    }
}

/// Writes the end of a report; returns whether all of the report was written.
pub(crate) fn write_end<P: Sink>(
    report: &mut P,
    driven: &Driven,
    station: &Station,
    counted: bool,
) -> Result<(), WriteFailed>
    ensures broken { P.broken report.new ≡ is_err result }
    ensures sends { HandsOver (output_of P.broken P.contents report.old [])
        (output_of P.broken P.contents report.new [])
        (closing_text counted driven.now station.now.core) }
{
    let mut page = Page::new();
    write_closing(&mut page, report, driven, station, counted);
    page.flush(report)
}
