//! A trace: the frames that were written to the line and those received from it, discarded bytes,
//! and expiries of the reply timer.
ghost use Rattle.std.specs.Prelude.{◌≡◌, ◌+◌, ◌*◌, [], IfErr, IfOk, Some, length, max, min};
ghost use Rattle.ddcmp_io.specs.Written.{HandsOver};
ghost use Rattle.ddcmp_streams.specs.Queued.{queued};
ghost use Rattle.ddcmp_streams.specs.Errors.{has_room};
ghost use Rattle.ddcmp_streams.specs.Trace.{BeginsAnew, Discards, HasLines, HasTraced, IsNew};
ghost use Rattle.ddcmp_streams.specs.Trace.{Logs, LogsByte, LogsDiscarded, LogsEnd, TakesByte};
ghost use Rattle.ddcmp_streams.specs.Trace.{after_begun, capped, heard_of, item_line};
ghost use Rattle.ddcmp_streams.specs.Trace.{room_beside, side_of};
ghost use Rattle.ddcmp_streams.specs.Trace.{skipped_line, skipped_lines};
ghost use Rattle.ddcmp_streams.specs.Trace.{timer_line, timer_lines, with_heard};

use crate::errors::{Errors, LAST_ROOM};
use crate::skipped::{Completed, MOST_DISCARDED, WayReader};
use ddcmp_explain::Skipped;
use ddcmp_frame::{Item, MAX_COUNT, ReaderRefusal};
use ddcmp_io::text::write_number;
use ddcmp_io::{ByteQueue, Page};
use ddcmp_log::{
    LogNotation, Origin, Side, Stamp, write_item_members, write_line, write_reasoned,
    write_skipped, write_skipped_members,
};
use std::alloc::Global;
use std::marker::Model;

/// The most bytes of text in a line beside the digits of the frame's data.
const NOTE: usize = 256;

/// The direction of bytes.
#[derive(Clone, Copy)]
pub enum Way {
    ToLine,
    FromLine,
}

impl Way {
    /// Returns the origin of lines about bytes that are sent in this direction now.
    fn origin(self, now: u64) -> Origin
        ensures { result ≡ record { stamp = Some (Stamp.Elapsed now); side = side_of self } }
    {
        let side = match self {
            Way::ToLine => Side::Caller,
            Way::FromLine => Side::Called,
        };
        Origin {
            stamp: Some(Stamp::Elapsed(now)),
            side,
        }
    }
}

/// How the lines of a trace are written.
#[derive(Clone, Copy)]
struct TraceForm {
    notation: LogNotation,
    /// How much room is left for other reports.
    spared: usize,
    /// The moment, in milliseconds.
    now: u64,
}

/// A trace of a line. Lines without room are left out, so that a trace never blocks a link.
pub struct Trace {
    form: TraceForm,
    sent: WayReader,
    came: WayReader,
}

impl Model for Trace {
    ghost use Rattle.ddcmp_streams.specs.Trace.{TraceView};

    ghost Value = { TraceView };

    ghost view = { λ t. record {
      notation = t.form.notation;
      spared = t.form.spared;
      sent = t.sent;
      came = t.came;
      now = t.form.now;
    } };
}

// Manual, since a derived `Drop` is expanded wherever a trace is dropped.
impl Drop for Trace {
    fn drop(self) {
        let Trace {
            form: _,
            sent: _sent,
            came: _came,
        } = self;
    }
}

impl Trace {
    /// Makes a trace in this notation of a line whose messages have at most `most` bytes, which
    /// leaves `spared` bytes of room to other lines.
    pub fn new(
        alloc: Global,
        notation: LogNotation,
        most: u16,
        spared: usize,
    ) -> Result<Trace, ReaderRefusal>
        ensures sent { IfOk result (λ t. IsNew (min (max most 1) 16383) t.sent) }
        ensures came { IfOk result (λ t. IsNew (min (max most 1) 16383) t.came) }
        ensures notation { IfOk result (λ t. t.notation ≡ notation) }
        ensures spared { IfOk result (λ t. t.spared ≡ spared) }
        ensures now { IfOk result (λ t. t.now ≡ 0) }
        ensures refused { IfErr result (λ refusal. refusal ≡ ReaderRefusal.Memory) }
    {
        let most = most.max(1).min(MAX_COUNT);
        match WayReader::new(alloc, most) {
            Ok(sent) => match WayReader::new(alloc, most) {
                Ok(came) => {
                    let form = TraceForm {
                        notation,
                        spared,
                        now: 0,
                    };
                    Ok(Trace { form, sent, came })
                }
                Err(refusal) => Err(refusal),
            },
            Err(refusal) => Err(refusal),
        }
    }

    /// Reports what was discarded by the end of the line, and restarts on another.
    pub fn restart(&mut self, errors: &mut Errors)
        ensures { BeginsAnew self.old self.new errors.old errors.new }
    {
        self.end(errors);
        self.sent.restart();
        self.came.restart();
    }

    /// Reports what was discarded after the last frames, when the line has ended.
    pub fn end(&mut self, errors: &mut Errors)
        ensures { LogsEnd self.old self.new errors.old errors.new }
    {
        self.log_discarded(Way::ToLine, 1, errors);
        self.log_discarded(Way::FromLine, 1, errors);
    }

    /// Writes the lines of the frames that bytes in this direction complete, and of the bytes
    /// discarded before them.
    pub fn log(&mut self, way: Way, bytes: &[u8], errors: &mut Errors)
        ensures { Logs way bytes.now self.old self.new errors.old errors.new }
    {
        let mut at = 0;
        while at < bytes.len() {
            self.log_byte(way, bytes[at], errors);
            at += 1;
        }
        self.log_discarded(way, MOST_DISCARDED, errors);
    }

    /// Writes the lines of what a byte completes.
    fn log_byte(&mut self, way: Way, byte: u8, errors: &mut Errors)
        ensures { LogsByte way byte self.old self.new errors.old errors.new }
    {
        match self.push(way, byte) {
            None => {}
            Some(completed) => {
                self.form.put_skipped(way, completed.discarded, errors);
                let data = self.data(way);
                self.form.put_item(way, &completed.item, data, errors);
            }
        }
    }

    /// Handles a byte in this direction.
    fn push(&mut self, way: Way, byte: u8) -> Option<Completed>
        ensures takes { TakesByte (heard_of way self.old) byte result (heard_of way self.new) }
        ensures stays { self.new ≡ with_heard way (heard_of way self.new) self.old }
    {
        match way {
            Way::ToLine => self.sent.push(byte),
            Way::FromLine => self.came.push(byte),
        }
    }

    /// Returns the data of the item that the last byte in this direction completed.
    fn data(&self, way: Way) -> &[u8]
        ensures { result.now ≡ (heard_of way self.entry.now).frames.lent }
    {
        match way {
            Way::ToLine => self.sent.data(),
            Way::FromLine => self.came.data(),
        }
    }

    /// Reports the bytes discarded after the last frame, if there are at least this many.
    fn log_discarded(&mut self, way: Way, least: u64, errors: &mut Errors)
        ensures { LogsDiscarded way least self.old self.new errors.old errors.new }
    {
        let discarded = self.discard(way, least);
        self.form.put_skipped(way, discarded, errors);
    }

    /// Returns the bytes discarded after the last frame in this direction, if there are at least
    /// this many.
    fn discard(&mut self, way: Way, least: u64) -> Option<Skipped>
        ensures discards { Discards (heard_of way self.old) least result (heard_of way self.new) }
        ensures stays { self.new ≡ with_heard way (heard_of way self.new) self.old }
    {
        match way {
            Way::ToLine => self.sent.discard(least),
            Way::FromLine => self.came.discard(least),
        }
    }

    /// Notes the moment, and writes a line if the station's timer has expired.
    pub fn wake(&mut self, now: u64, has_expired: bool, errors: &mut Errors)
        ensures now { self.new ≡ record self.old { now = now } }
        ensures lines { HasLines self.old.notation self.old.spared
            (timer_lines self.old.notation now has_expired) errors.old errors.new }
    {
        self.form.now = now;
        if has_expired {
            self.form.put_timer(errors);
        }
    }
}

impl TraceForm {
    /// Begins a line of at most `needed` bytes, if there is room for it and the room left to other
    /// lines.
    fn begin(self, needed: usize, errors: &mut Errors) -> bool
        ensures room { result ≡ has_room (room_beside self.spared needed) errors.old }
        ensures begun { HasTraced self.notation (room_beside self.spared needed) []
            errors.old errors.new }
    {
        let room = self.room_beside(needed);
        match self.notation {
            LogNotation::Json => errors.begin_object(room),
            LogNotation::Plain | LogNotation::Ladder => errors.begin_line(room),
        }
    }

    /// Returns the room that a line of at most `needed` bytes needs, with the room left to others.
    fn room_beside(self, needed: usize) -> usize
        ensures { result ≡ room_beside self.spared needed }
    {
        self.spared.saturating_add(needed).saturating_add(LAST_ROOM)
    }

    /// Writes the line of an expiry of the timer.
    fn put_timer(self, errors: &mut Errors)
        ensures { HasTraced self.notation (room_beside self.spared NOTE)
            (after_begun self.notation (timer_line self.notation self.now)) errors.old errors.new }
    {
        if self.begin(NOTE, errors) {
            self.write_timer(&mut errors.queue);
        }
    }

    fn write_timer(self, text: &mut ByteQueue)
        ensures { HandsOver (queued text.old) (queued text.new)
            (after_begun self.notation (timer_line self.notation self.now)) }
    {
        let mut page = Page::new();
        match self.notation {
            LogNotation::Json => {
                page.write(text, b"\"ms\":");
                write_number(&mut page, text, self.now);
                page.write(text, b",\"item\":\"timer\"}\n");
            }
            LogNotation::Plain | LogNotation::Ladder => {
                write_number(&mut page, text, self.now);
                page.write(text, b" timer\n");
            }
        }
        let _is_whole = page.flush(text);
    }

    /// Writes the line of discarded bytes, if there are any.
    fn put_skipped(self, way: Way, skipped: Option<Skipped>, errors: &mut Errors)
        ensures { HasLines self.notation self.spared
            (skipped_lines self.notation self.now way skipped) errors.old errors.new }
    {
        match skipped {
            None => {}
            Some(skipped) => self.put_discarded(way, skipped, errors),
        }
    }

    fn put_discarded(self, way: Way, skipped: Skipped, errors: &mut Errors)
        ensures { HasTraced self.notation (room_beside self.spared NOTE)
            (after_begun self.notation (skipped_line self.notation self.now way skipped))
            errors.old errors.new }
    {
        if self.begin(NOTE, errors) {
            self.write_discarded(way, skipped, &mut errors.queue);
        }
    }

    fn write_discarded(self, way: Way, skipped: Skipped, text: &mut ByteQueue)
        ensures { HandsOver (queued text.old) (queued text.new)
            (after_begun self.notation (skipped_line self.notation self.now way skipped)) }
    {
        let mut page = Page::new();
        let origin = way.origin(self.now);
        match self.notation {
            LogNotation::Json => write_skipped_members(&mut page, text, origin, skipped),
            LogNotation::Plain | LogNotation::Ladder => {
                write_skipped(&mut page, text, self.notation, origin, skipped);
            }
        }
        let _is_whole = page.flush(text);
    }

    /// Writes the line of an item with its data.
    fn put_item(self, way: Way, item: &Item, data: &[u8], errors: &mut Errors)
        ensures { HasTraced self.notation
            (room_beside self.spared (capped (2 * length «data».now + NOTE)))
            (after_begun self.notation
            (item_line self.notation self.now way (item.now, «data».now)))
            errors.old errors.new }
    {
        if self.begin((2 * data.len()).saturating_add(NOTE), errors) {
            self.write_item(way, item, data, &mut errors.queue);
        }
    }

    /// Writes the line of an item; in words that of a NAK has its reason.
    fn write_item(self, way: Way, item: &Item, data: &[u8], text: &mut ByteQueue)
        ensures { HandsOver (queued text.old) (queued text.new)
            (after_begun self.notation
            (item_line self.notation self.now way (item.now, «data».now))) }
    {
        let mut page = Page::new();
        let origin = way.origin(self.now);
        match self.notation {
            LogNotation::Plain => write_reasoned(&mut page, text, origin, item, data),
            LogNotation::Json => write_item_members(&mut page, text, origin, item, data),
            LogNotation::Ladder => {
                write_line(&mut page, text, LogNotation::Ladder, origin, item, data);
            }
        }
        let _is_whole = page.flush(text);
    }
}
