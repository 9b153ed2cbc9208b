//! The reports of a bridge's counters while it runs.
ghost use Rattle.std.specs.Prelude.{◌≡◌, true};
ghost use Rattle.ddcmp_io.specs.Written.{HandsOver, output_of};
ghost use Rattle.ddcmp_streams.specs.Errors.{HasLine, HasObject};
ghost use Rattle.ddcmp_streams.specs.Queued.{queued};
ghost use Rattle.ddcmp_streams.specs.declared.errors.TheConstants.{SHORT_LINE};
ghost use Rattle.ddcmp_bridge.specs.Report.{counts_members, direction_line};
ghost use Rattle.ddcmp_bridge.specs.Report.{report_object as object_of};
ghost use Rattle.ddcmp_log.specs.Scheduling.{is_due, next_due_after};
ghost use Rattle.ddcmp_bridge.specs.Reporting.{ReportsBoth, reports_begun};

use crate::counts::Counts;
use crate::errors::BridgeErrors;
use crate::report::write_direction;
use ddcmp_io::text::write_number;
use ddcmp_io::{ByteQueue, Page, Sink};
use ddcmp_log::Schedule;
use ddcmp_streams::Errors;
use ddcmp_streams::errors::SHORT_LINE;

/// When a bridge reports its counters, and those of its last report.
pub(crate) struct Reports {
    pub(crate) schedule: Schedule,
    /// Whether reports are JSON objects.
    is_json: bool,
    there: Counts,
    back: Counts,
}

// Manual, since a derived `Drop` would be expanded wherever a value is dropped.
impl Drop for Reports {
    fn drop(self) {
        let Reports {
            schedule: _,
            is_json: _,
            there: _,
            back: _,
        } = self;
    }
}

impl Reports {
    /// Plans a report every this many seconds; none for 0.
    pub(crate) fn new(seconds: u32, is_json: bool) -> Reports
        ensures { result ≡ reports_begun seconds is_json }
    {
        Reports {
            schedule: Schedule::new(seconds),
            is_json,
            there: Counts::NONE,
            back: Counts::NONE,
        }
    }

    /// Queues a report of these counters.
    pub(crate) fn report(
        &mut self,
        now: u64,
        there: Counts,
        back: Counts,
        errors: &mut BridgeErrors,
    )
        requires due { is_due self.old.schedule now ≡ true }
        ensures both { ReportsBoth self.old there back errors.old errors.new }
        ensures next { self.new ≡ record self.old {
          schedule = record self.old.schedule { due_at = next_due_after self.old.schedule now };
          there = there;
          back = back;
        } }
    {
        errors.report_counts(b">", there, there.since(self.there), self.is_json);
        errors.report_counts(b"<", back, back.since(self.back), self.is_json);
        self.schedule.pass(now);
        self.there = there;
        self.back = back;
    }
}

/// Writes the counters as members of a JSON object.
fn write_members<W: Sink>(page: &mut Page, writer: &mut W, counts: &Counts)
    ensures { HandsOver (output_of W.broken W.contents writer.old page.old)
        (output_of W.broken W.contents writer.new page.new) (counts_members counts.now) }
{
    page.write(writer, b"\"frames\":");
    write_number(page, writer, counts.frames);
    page.write(writer, b",\"skipped\":");
    write_number(page, writer, counts.skipped);
    page.write(writer, b",\"damaged\":");
    write_number(page, writer, counts.damaged);
    page.write(writer, b",\"lost\":");
    write_number(page, writer, counts.lost);
    page.write(writer, b",\"altered\":");
    write_number(page, writer, counts.altered);
}

/// Writes the report of one direction as a JSON object, of which the brace is there already: its
/// counters, and those of the interval.
fn write_object<W: Sink>(
    page: &mut Page,
    writer: &mut W,
    mark: &[u8],
    counts: &Counts,
    more: &Counts,
)
    ensures { HandsOver (output_of W.broken W.contents writer.old page.old)
        (output_of W.broken W.contents writer.new page.new)
        (object_of mark.now counts.now more.now) }
{
    page.write(writer, b"\"event\":\"report\",\"from\":\"");
    page.write(writer, mark);
    page.write(writer, b"\",");
    write_members(page, writer, counts);
    page.write(writer, b",\"interval\":{");
    write_members(page, writer, more);
    page.write(writer, b"}}\n");
}

/// Queues the line of one direction.
fn queue_line(queue: &mut ByteQueue, mark: &[u8], counts: &Counts)
    ensures { HandsOver (queued queue.old) (queued queue.new)
        (direction_line mark.now counts.now) }
{
    let mut page = Page::new();
    write_direction(&mut page, queue, mark, counts);
    let _is_whole = page.flush(queue);
}

/// Queues the report of one direction as a JSON object, of which the brace is there already.
fn queue_object(queue: &mut ByteQueue, mark: &[u8], counts: &Counts, more: &Counts)
    ensures { HandsOver (queued queue.old) (queued queue.new)
        (object_of mark.now counts.now more.now) }
{
    let mut page = Page::new();
    write_object(&mut page, queue, mark, counts, more);
    let _is_whole = page.flush(queue);
}

/// Queues the counters of one direction as a line, if it has room.
pub(crate) fn report_line(errors: &mut Errors, mark: &[u8], counts: &Counts)
    ensures { HasLine SHORT_LINE (direction_line mark.now counts.now) errors.old errors.new }
{
    if errors.begin_line(SHORT_LINE) {
        queue_line(&mut errors.queue, mark, counts);
    }
}

/// Queues the counters of one direction, and those of an interval, as a JSON object, if it has
/// room.
pub(crate) fn report_object(errors: &mut Errors, mark: &[u8], counts: &Counts, more: &Counts)
    ensures { HasObject SHORT_LINE (object_of mark.now counts.now more.now)
        errors.old errors.new }
{
    if errors.begin_object(SHORT_LINE) {
        queue_object(&mut errors.queue, mark, counts, more);
    }
}
