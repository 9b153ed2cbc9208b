//! Lines for standard error.
ghost use Rattle.std.specs.Prelude.{◌≡◌};
ghost use Rattle.ddcmp_streams.specs.Errors.{left_out_words};

use ddcmp_io::text::write_number;
use ddcmp_io::{ByteQueue, Page};
use ddcmp_log::write_time;
use std::alloc::{AllocError, Global};
use std::marker::Model;

/// The room that is reserved for the line that reports how many others were left out, and for two
/// times of day.
const NOTE: usize = 160;

/// The room that is reserved for the last lines.
pub const LAST_ROOM: usize = 8192;

/// The room for a line that is neither of a trace nor of counters nor one of the last.
pub const SHORT_LINE: usize = 512 + LAST_ROOM;

/// The longest event, in bytes: a name in it may be a path, of at most 4096 bytes. `SHORT_LINE` has
/// room for it, and for a time of day and a line feed.
pub const EVENT_ROOM: usize = 8192;

/// Lines that are queued for standard error. A line without room is left out, so that nothing is
/// blocked if standard error isn't read. How many were left out is reported before the next line
/// that has room. Each line begins with the time of day, if that is asked for.
///
/// To write a line call `begin_line`, and if that returns true write the line into `queue`.
#[derive(Drop)]
pub struct Errors {
    /// The queued lines, into which a line that was begun is written.
    pub queue: ByteQueue,
    left_out: u64,
    /// The moment 0 in milliseconds after 1970, if lines begin with the time of day.
    began: Option<u64>,
    /// The moment of the next lines, in milliseconds.
    moment: u64,
}

impl Model for Errors {
    ghost use Rattle.ddcmp_streams.specs.Errors.{ErrorsView};

    ghost Value = { ErrorsView };

    ghost view = { λ e. record {
      queue = e.queue;
      left_out = e.left_out;
      began = e.began;
      now = e.moment;
    } };
}

impl Errors {
    ghost use Rattle.std.specs.Prelude.{◌≡◌, ◌+◌, [], ◌++◌, IfOk, Some, true, false};
    ghost use Rattle.std.specs.Prelude.{nat_le};
    ghost use Rattle.ddcmp_streams.specs.Errors.{no_lines, has_room, LeftOut, HasLine, HasObject};
    ghost use Rattle.ddcmp_streams.specs.Errors.{HasNoted, ReportsLeftOut, Took, Queues};
    ghost use Rattle.ddcmp_streams.specs.Errors.{left_out_text, refused_text, reports_left_out};
    ghost use Rattle.ddcmp_streams.specs.Errors.{settled, stamp_text, one_more};

    /// Makes a queue with room for `size` bytes of lines.
    pub fn new(alloc: Global, size: usize) -> Result<Errors, AllocError>
        ensures { IfOk result (λ made. made ≡ no_lines size) }
    {
        Ok(Errors {
            queue: ByteQueue::new(alloc, size)?,
            left_out: 0,
            began: None,
            moment: 0,
        })
    }

    /// Begins each line with the time of day; the moment 0 is this many milliseconds after 1970.
    pub fn show_time(&mut self, began: u64)
        ensures { self.new ≡ record self.old { began = Some began } }
    {
        self.began = Some(began);
    }

    /// Notes the moment of the next lines.
    pub fn pass_time(&mut self, now: u64)
        ensures { self.new ≡ record self.old { now = now } }
    {
        self.moment = now;
    }

    /// Begins a line of at most `needed` bytes, which is to be written into `queue` next, and
    /// returns whether there is room for it; if not, it is counted as left out.
    pub fn begin_line(&mut self, needed: usize) -> bool
        ensures room { result ≡ has_room needed self.old }
        ensures begun { HasLine needed [] self.old self.new }
    {
        let has_room = self.make_room(needed);
        if has_room {
            self.write_stamp(b"", b" ");
        }
        has_room
    }

    /// Begins a JSON object in the same way: its first members are written.
    pub fn begin_object(&mut self, needed: usize) -> bool
        ensures room { result ≡ has_room needed self.old }
        ensures begun { HasObject needed [] self.old self.new }
    {
        let has_room = self.make_room(needed);
        if has_room {
            self.write_text(b"{");
            self.write_stamp(b"\"time\":\"", b"\",");
        }
        has_room
    }

    /// Makes room for a line of at most `needed` bytes, reports those that were left out before it,
    /// and returns whether there is room; if not, it is counted as left out.
    fn make_room(&mut self, needed: usize) -> bool
        ensures room { result ≡ has_room needed self.old }
        ensures noted { result ≡ true → HasNoted self.old self.new }
        ensures left { result ≡ false → LeftOut self.old self.new }
    {
        self.settle();
        if !self.has_room(needed) {
            self.leave_out();
            return false;
        }
        self.report_left_out();
        true
    }

    /// Makes room, by dropping what was written.
    fn settle(&mut self)
        ensures { self.new ≡ record self.old { queue = settled self.old.queue } }
    {
        self.queue.settle();
    }

    /// Returns whether there is room for a line of at most `needed` bytes, and a note before it.
    fn has_room(&self, needed: usize) -> bool
        ensures { result ≡ nat_le (needed + NOTE) self.now.queue.room }
    {
        let room = self.queue.room();
        NOTE <= room && needed <= room - NOTE
    }

    /// Counts a line as left out.
    fn leave_out(&mut self)
        ensures { self.new ≡ record self.old { left_out = one_more self.old.left_out } }
    {
        self.left_out = self.left_out.saturating_add(1);
    }

    /// Writes a text.
    fn write_text(&mut self, text: &[u8])
        ensures { Queues text.now self.old self.new }
    {
        let mut page = Page::new();
        page.write(&mut self.queue, text);
        let _is_whole = page.flush(&mut self.queue);
    }

    /// Writes the time of day between two texts, if lines begin with that.
    fn write_stamp(&mut self, before: &[u8], after: &[u8])
        ensures { Queues (stamp_text before.now after.now self.old.began self.old.now)
            self.old self.new }
    {
        let Some(began) = self.began else {
            return;
        };
        let mut page = Page::new();
        page.write(&mut self.queue, before);
        write_time(
            &mut page,
            &mut self.queue,
            began.saturating_add(self.moment),
        );
        page.write(&mut self.queue, after);
        let _is_whole = page.flush(&mut self.queue);
    }

    /// Writes a text between two others.
    fn write_between(&mut self, before: &[u8], text: &[u8], after: &[u8])
        ensures { Queues (before.now ++ text.now ++ after.now) self.old self.new }
    {
        let mut page = Page::new();
        page.write(&mut self.queue, before);
        page.write(&mut self.queue, text);
        page.write(&mut self.queue, after);
        let _is_whole = page.flush(&mut self.queue);
    }

    /// Reports how many lines were left out, if any were and there is room for that.
    fn report_left_out(&mut self)
        ensures { ReportsLeftOut self.old self.new }
    {
        if !self.reports_left_out() {
            return;
        }
        self.write_stamp(b"", b" ");
        self.write_left_out();
        self.left_out = 0;
    }

    /// Returns whether lines were left out and there is room for a note of that.
    fn reports_left_out(&self) -> bool
        ensures { result ≡ reports_left_out self.now }
    {
        self.left_out != 0 && NOTE <= self.queue.room()
    }

    /// Writes how many lines were left out.
    fn write_left_out(&mut self)
        ensures { Queues (left_out_text self.old.left_out) self.old self.new }
    {
        let mut page = Page::new();
        page.write(&mut self.queue, b"ddcmp: ");
        write_number(&mut page, &mut self.queue, self.left_out);
        page.write(&mut self.queue, left_out_words(self.left_out));
        let _is_whole = page.flush(&mut self.queue);
    }

    /// Queues a line: a text between two others.
    pub fn write_line(&mut self, before: &[u8], text: &[u8], after: &[u8])
        ensures { HasLine SHORT_LINE (before.now ++ text.now ++ after.now) self.old self.new }
    {
        if self.begin_line(SHORT_LINE) {
            self.write_between(before, text, after);
        }
    }

    /// Reports that a part of the input, named by `part`, is no message.
    pub fn write_refused(&mut self, part: &[u8], number: u64, why: &[u8])
        ensures { HasLine SHORT_LINE (refused_text part.now number why.now) self.old self.new }
    {
        if self.begin_line(SHORT_LINE) {
            self.write_reason(part, number, why);
        }
    }

    /// Writes why a part of the input is no message.
    fn write_reason(&mut self, part: &[u8], number: u64, why: &[u8])
        ensures { Queues (refused_text part.now number why.now) self.old self.new }
    {
        let mut page = Page::new();
        page.write(&mut self.queue, b"ddcmp: ");
        page.write(&mut self.queue, part);
        write_number(&mut page, &mut self.queue, number);
        page.write(&mut self.queue, b": ");
        page.write(&mut self.queue, why);
        page.write(&mut self.queue, b"\n");
        let _is_whole = page.flush(&mut self.queue);
    }

    /// Returns the queued lines.
    pub fn waiting(&self) -> &[u8]
        ensures { result.now ≡ self.now.queue.waiting }
    {
        self.queue.waiting()
    }

    /// Notes that the first `n` bytes were written. Once all are, reports how many lines were left
    /// out.
    pub fn took(&mut self, n: usize)
        ensures { Took n self.old self.new }
    {
        let n = n.min(self.queue.waiting().len());
        self.queue.took(n);
        if self.queue.waiting().is_empty() {
            self.report_left_out();
        }
    }
}

/// Returns the words after the number of lines that were left out.
fn left_out_words(n: u64) -> &'static [u8]
    ensures { result.now ≡ left_out_words n }
{
    if n == 1 {
        b" line left out\n"
    } else {
        b" lines left out\n"
    }
}
