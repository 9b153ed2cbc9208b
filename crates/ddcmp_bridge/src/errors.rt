//! The lines of a bridge for standard error.
ghost use Rattle.std.specs.Prelude.{◌≡◌, ◌+◌, ◌≤◌, [], false, length};
ghost use Rattle.ddcmp_bridge.specs.Crossing.{unwritten};
ghost use Rattle.ddcmp_streams.specs.Errors.{LeftOut, has_room};
ghost use Rattle.std.specs.Prelude.{◌≡◌, Some};
ghost use Rattle.ddcmp_bridge.specs.Reporting.{ReportsCounts};

use crate::counts::Counts;
use crate::reports::{report_line, report_object};
use ddcmp_io::Page;
use ddcmp_streams::{EVENT_ROOM, Errors};
use std::alloc::Global;
use std::fmt::{Display, InlineText};

/// The room for queued lines, in bytes: some of the longest frames, whose line has 32 KB.
const ROOM: usize = 1 << 18;

/// The lines that are queued for standard error. One without room is left out, and counted, so that
/// nothing is blocked if standard error isn't read.
pub(crate) struct BridgeErrors {
    lines: Errors,
    /// Whether nothing more can be written.
    is_broken: bool,
}

// Manual, since a derived `Drop` would be expanded wherever a value is dropped.
impl Drop for BridgeErrors {
    fn drop(self) {
        let BridgeErrors {
            lines: _lines,
            is_broken: _,
        } = self;
    }
}

impl BridgeErrors {
    /// Allocates all memory that it will need; returns none if that failed.
    pub(crate) fn new(alloc: Global) -> Option<BridgeErrors> {
        Some(BridgeErrors {
            lines: Errors::new(alloc, ROOM).ok()?,
            is_broken: false,
        })
    }

    /// Begins each line with the time of day; the moment 0 is this many milliseconds after 1970.
    pub(crate) fn show_time(&mut self, began: u64)
        ensures { self.new ≡ record self.old {
          lines = record self.old.lines { began = Some began };
        } }
    {
        self.lines.show_time(began);
    }

    /// Notes the moment of the next lines.
    pub(crate) fn pass_time(&mut self, now: u64)
        ensures { self.new ≡ record self.old { lines = record self.old.lines { now = now } } }
    {
        self.lines.pass_time(now);
    }

    /// Queues a line of a log, or counts it as left out.
    fn write_line(&mut self, line: &[u8])
        ensures left { has_room (length line.now + 1) self.old.lines ≡ false
            → LeftOut self.old.lines self.new.lines }
    {
        let (has_room, rest) = match line {
            [b'{', rest @ ..] => (self.lines.begin_object(line.len() + 1), rest),
            _ => (self.lines.begin_line(line.len() + 1), line),
        };
        if has_room {
            let mut page = Page::new();
            page.write(&mut self.lines.queue, rest);
            page.write(&mut self.lines.queue, b"\n");
            let _is_whole = page.flush(&mut self.lines.queue);
        }
    }

    /// Queues each line of the text of a log. A line that is a JSON object has the time of day as a
    /// member.
    pub(crate) fn write_lines(&mut self, text: &str) {
        for line in text.lines() {
            self.write_line(line.as_bytes());
        }
    }

    /// Queues the counters of a direction: as a line, or as a JSON object with those of an
    /// interval.
    pub(crate) fn report_counts(&mut self, mark: &[u8], counts: Counts, more: Counts, is_json: bool)
        ensures { ReportsCounts is_json mark.now counts more self.old self.new }
    {
        if is_json {
            report_object(&mut self.lines, mark, &counts, &more);
        } else {
            report_line(&mut self.lines, mark, &counts);
        }
    }

    /// Queues an event, as a line of its own.
    pub(crate) fn report<D: Display + Drop>(&mut self, event: D) {
        let text = InlineText::<EVENT_ROOM>::of(event);
        self.lines.write_line(b"", text.as_str().as_bytes(), b"\n");
    }

    /// Returns the queued bytes; none once nothing more can be written.
    pub(crate) fn waiting(&self) -> &[u8]
        ensures { result.now ≡ unwritten self.now }
    {
        if self.is_broken {
            return &[];
        }
        self.lines.waiting()
    }

    /// Notes that the first `n` of them were written.
    pub(crate) fn took(&mut self, n: usize) {
        self.lines.took(n);
    }

    /// Notes that nothing more can be written.
    pub(crate) fn broke(&mut self)
        ensures { unwritten self.new ≡ [] }
    {
        self.is_broken = true;
    }
}
