//! The two outputs of a session.
use crate::devices::Down;
use crate::line_end::LineEnd;
use crate::session::Session;
use crate::{report, text};
use ddcmp_streams::{EVENT_ROOM, MessageForm};
use itoa::Buffer;
use std::fmt::InlineText;

impl Session {
    ghost use Rattle.std.specs.Prelude.{◌≡◌, ◌≤◌, ℕ, List, Some, true, false, min, length, is_some};
    ghost use Rattle.std.specs.Prelude.{◌⊎◌, ◌<◌, if◌then◌else◌, [], None};
    ghost use Rattle.std.specs.Fmt.InlineText.{inline_text};
    ghost use Rattle.ddcmp_station.specs.Linking.{after_taking};
    ghost use Rattle.ddcmp_io.specs.Queue.{after_pushed};
    ghost use Rattle.ddcmp_session.specs.Course.{lost_more};
    ghost use Rattle.ddcmp_session.specs.EndText.{line_down_text, pause_text, unread_text};
    ghost use Rattle.ddcmp_streams.specs.Errors.{HasEvent, HasLine, Took};
    ghost use Rattle.ddcmp_session.specs.Finishing.{HasRoomIfEmpty};
    ghost use Rattle.ddcmp_session.specs.Logged.{HasLost, HasReport, ReportsDown};
    ghost use Rattle.ddcmp_session.specs.Session.{after_output, after_queued, form_of, is_awaited};
    ghost use Rattle.ddcmp_session.specs.Session.{is_written, next_mail, one_queued, reports_end};
    ghost use Rattle.ddcmp_session.specs.Session.{reports_loss, room_for_mail, with_taken};
    ghost use Rattle.ddcmp_streams.specs.declared.errors.TheConstants.{SHORT_LINE};
    ghost use Rattle.ddcmp_session.specs.Text.{Wrote, mail_text, reported_end, reported_lost};
    ghost use Rattle.ddcmp_streams.specs.Messages.{is_in_lines};

    /// Queues the text of the next received message, if there is one and the output has room for
    /// it; returns whether it did. If messages are acknowledged early, or in maintenance mode, that
    /// message is taken from the link; otherwise it is once `output_took` reports it as written.
    pub fn deliver(&mut self) -> bool
        ensures wrote { result ≡ true → (message : List ℕ)
            × (next_mail self.old.state ≡ Some message)
            × Wrote (mail_text (form_of self.old.state.messages) message) self.old.state.output
            self.new.state.output }
        ensures waits { result ≡ false → Wrote [] self.old.state.output self.new.state.output }
        ensures when { room_for_mail self.old.state ≤ self.old.state.output.room → result
            ≡ is_some (next_mail self.old.state) }
        ensures left { result ≡ false
            → (next_mail self.new.state ≡ None)
            ⊎ (self.new.state.output.room < room_for_mail self.new.state) }
        ensures emptied { result ≡ false → HasRoomIfEmpty self.new.state }
        ensures stays { self.new.state
            ≡ record (if result then after_queued self.old.state else self.old.state) {
              output = self.new.state.output;
            } }
        ensures log { self.new.log ≡ self.old.log }
    {
        self.output.settle();
        let has_room = self.output.room() >= text::mail_room(self.link.config().max);
        if !has_room || self.unwritten >= self.link.waiting() {
            return false;
        }
        self.queue_mail();
        if self.options.takes_at_once() {
            self.take_mail(self.unwritten);
        }
        true
    }

    /// Queues the text of the next received message.
    fn queue_mail(&mut self)
        requires there { self.old.state.unwritten
            < length self.old.state.link.station.core.station.inbox }
        requires few { self.old.state.unwritten < 255 }
        requires room { room_for_mail self.old.state ≤ self.old.state.output.room }
        ensures wrote { (message : List ℕ) × (next_mail self.old.state ≡ Some message)
            × Wrote (mail_text (form_of self.old.state.messages) message) self.old.state.output
            self.new.state.output }
        ensures stays { self.new.state
            ≡ record (one_queued self.old.state) { output = self.new.state.output } }
        ensures log { self.new.log ≡ self.old.log }
    {
        let n = self.link.waiting_at(self.unwritten, &mut self.mail);
        text::write_mail(&mut self.output, self.options.form, &self.mail[..n]);
        self.unwritten += 1;
    }

    /// Takes the first `n` received messages from the link.
    fn take_mail(&mut self, n: u8)
        requires { n ≤ self.old.state.unwritten }
        ensures state { self.new.state ≡ with_taken n self.old.state }
        ensures log { self.new.log ≡ self.old.log }
    {
        for _message in 0..n {
            self.take_one();
        }
        self.unwritten -= n;
    }

    /// Takes the first received message from the link.
    fn take_one(&mut self)
        ensures state { self.new.state
            ≡ record self.old.state { link = after_taking self.old.state.link } }
        ensures log { self.new.log ≡ self.old.log }
    {
        let _length = self.link.take(&mut self.mail);
    }

    /// Returns the bytes queued for standard output.
    pub fn to_output(&self) -> &[u8]
        ensures { result.now ≡ self.now.state.output.waiting }
    {
        self.output.waiting()
    }

    /// Notes that standard output took the first `n` bytes of `to_output`. If these are all, the
    /// messages whose text is among them are taken from the link, which acknowledges them.
    pub fn output_took(&mut self, n: usize)
        ensures state { self.new.state
            ≡ after_output (min n (length self.old.state.output.waiting)) self.old.state }
        ensures log { self.new.log ≡ self.old.log }
    {
        let queued = self.output.waiting().len();
        if queued <= n {
            self.take_mail(self.unwritten);
        }
        self.output.took(n.min(queued));
    }

    /// Returns whether all queued output was written, and the messages in it are taken.
    pub(crate) fn is_written(&self) -> bool
        ensures { result ≡ is_written self.now.state }
    {
        self.output.waiting().is_empty() && self.unwritten == 0
    }

    /// Returns whether received messages aren't taken yet, and the peer waits until they are
    /// acknowledged.
    pub(super) fn is_awaited(&self) -> bool
        ensures { result ≡ is_awaited self.now.state }
    {
        !self.options.takes_at_once() && self.link.waiting() > 0
    }

    /// Returns the bytes queued for standard error.
    pub fn to_errors(&self) -> &[u8]
        ensures { result.now ≡ self.now.log.errors.queue.waiting }
    {
        self.errors.waiting()
    }

    /// Notes that standard error took the first `n` bytes of `to_errors`.
    pub fn errors_took(&mut self, n: usize)
        ensures state { self.new.state ≡ self.old.state }
        ensures took { Took n self.old.log.errors self.new.log.errors }
        ensures log { self.new.log ≡ record self.old.log { errors = self.new.log.errors } }
    {
        self.errors.took(n);
    }

    /// Reports an event on standard error, as a line of its own.
    pub fn report(&mut self, event: &InlineText<EVENT_ROOM>)
        ensures state { self.new.state ≡ self.old.state }
        ensures errors { HasEvent (inline_text event.now)
            self.old.log.errors self.new.log.errors }
        ensures log { self.new.log ≡ record self.old.log { errors = self.new.log.errors } }
    {
        self.errors
            .write_line(b"", event.as_str().as_bytes(), b"\n");
    }

    /// Reports why the line is down, unless all is delivered and the session ends with that.
    pub fn report_down(&mut self, why: Down)
        ensures state { self.new.state ≡ self.old.state }
        ensures errors { ReportsDown why self.old.state self.old.log.errors self.new.log.errors }
        ensures log { self.new.log ≡ record self.old.log { errors = self.new.log.errors } }
    {
        if self.is_delivered() && !self.stays() {
            return;
        }
        self.write_down(why);
    }

    /// Reports why the line is down.
    fn write_down(&mut self, why: Down)
        ensures state { self.new.state ≡ self.old.state }
        ensures errors { HasLine SHORT_LINE (line_down_text why)
            self.old.log.errors self.new.log.errors }
        ensures log { self.new.log ≡ record self.old.log { errors = self.new.log.errors } }
    {
        self.errors
            .write_line(b"line down: ", why.words().as_bytes(), b"\n");
    }

    /// Reports that a line is opened again after this many seconds.
    pub(crate) fn report_pause(&mut self, seconds: u64)
        ensures state { self.new.state ≡ self.old.state }
        ensures errors { HasLine SHORT_LINE (pause_text seconds)
            self.old.log.errors self.new.log.errors }
        ensures log { self.new.log ≡ record self.old.log { errors = self.new.log.errors } }
    {
        let mut digits = Buffer::new();
        let text = digits.format(seconds).as_bytes();
        self.errors.write_line(b"retry in ", text, b" s\n");
    }

    /// Reports that standard output was blocked after the time of the run was over.
    pub(crate) fn report_unread(&mut self)
        ensures state { self.new.state ≡ self.old.state }
        ensures errors { HasLine SHORT_LINE unread_text
            self.old.log.errors self.new.log.errors }
        ensures log { self.new.log ≡ record self.old.log { errors = self.new.log.errors } }
    {
        let why = b"standard output isn't read: received messages weren't written";
        self.errors.write_line(b"ddcmp: ", why, b"\n");
    }

    /// Reports all counters of the link on standard error.
    pub(super) fn report_counters(&mut self)
        ensures state { self.new.state ≡ self.old.state }
        ensures errors { HasReport self.old.state.options.json self.old.state.course.lost
            self.old.state.link self.old.log.errors self.new.log.errors }
        ensures log { self.new.log ≡ record self.old.log { errors = self.new.log.errors } }
    {
        if self.options.json {
            report::write_object(&mut self.errors, &self.link, self.course.lost);
        } else {
            report::write_line(&mut self.errors, &self.link, self.course.lost);
        }
    }

    /// Reports how the line ended, if events are among the messages, and how many accepted messages
    /// were dropped by that, if any; returns whether standard output had room for both.
    pub(super) fn report_line_end(&mut self, how: LineEnd, lost: u8) -> bool
        ensures wrote { self.new.state ≡ record self.old.state {
          course = lost_more lost self.old.state.course;
          output = after_pushed
              (reported_end result (form_of self.old.state.messages) how lost)
              self.old.state.output;
        } }
        ensures when { result ≡ reports_end self.old.state }
        ensures errors { HasLost (form_of self.old.state.messages) lost
            self.old.log.errors self.new.log.errors }
        ensures log { self.new.log ≡ record self.old.log { errors = self.new.log.errors } }
    {
        if !self.options.form.has_events() {
            return self.report_lost(lost);
        }
        if self.output.room() < text::LINE_ROOM {
            self.course.lose(u64::from(lost));
            return false;
        }
        text::write_line_end(&mut self.output, self.options.form, how);
        self.report_lost(lost)
    }

    /// Reports how many accepted messages were dropped, if any, and returns whether standard output
    /// had room for that.
    pub(super) fn report_lost(&mut self, lost: u8) -> bool
        ensures wrote { self.new.state ≡ record self.old.state {
          course = lost_more lost self.old.state.course;
          output = after_pushed
              (reported_lost result (form_of self.old.state.messages) lost) self.old.state.output;
        } }
        ensures when { result ≡ reports_loss self.old.state }
        ensures digits { is_in_lines (form_of self.old.state.messages) ≡ true
            → self.new.log ≡ self.old.log }
        ensures errors { HasLost (form_of self.old.state.messages) lost
            self.old.log.errors self.new.log.errors }
        ensures log { self.new.log ≡ record self.old.log { errors = self.new.log.errors } }
    {
        self.course.lose(lost as u64);
        let has_room = self.output.room() >= text::LOST_ROOM;
        if lost == 0 {
            return has_room;
        }
        match self.options.form {
            MessageForm::Digits | MessageForm::EventLines if has_room => {
                text::write_lost(&mut self.output, lost)
            }
            MessageForm::Events if has_room => text::write_lost_event(&mut self.output, lost),
            MessageForm::Digits | MessageForm::Events | MessageForm::EventLines => {}
            MessageForm::Binary => {
                let mut digits = Buffer::new();
                let text = digits.format(lost).as_bytes();
                self.errors.write_line(b"lost ", text, b"\n");
            }
        }
        has_room
    }
}
