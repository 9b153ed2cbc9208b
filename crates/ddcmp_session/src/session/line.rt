//! The line of a session: bytes that are received, and frames that are sent.
ghost use Rattle.std.specs.Prelude.{[]};
ghost use Rattle.ddcmp_streams.specs.Errors.{HasLine};
ghost use Rattle.ddcmp_station.specs.StationText.{notice_line};

use crate::line_end::LineEnd;
use crate::session::Session;
use crate::text;
use ddcmp_station::Notice;
use ddcmp_streams::errors::{Errors, SHORT_LINE};
use ddcmp_streams::{MessageForm, Way};

/// Reports a notice on standard error.
fn put_notice(errors: &mut Errors, notice: Notice)
    ensures { HasLine SHORT_LINE (notice_line [] notice) errors.old errors.new }
{
    if errors.begin_line(SHORT_LINE) {
        text::report_notice(&mut errors.queue, notice);
    }
}

impl Session {
    ghost use Rattle.std.specs.Prelude.{◌≡◌, ◌+◌, ◌<◌, ◌≤◌, ℕ, List, [], ◌++◌, true, false, min};
    ghost use Rattle.std.specs.Prelude.{◌⊎◌, length, take, is_ok};
    ghost use Rattle.ddcmp_frame.specs.Reader.{StandsFor};
    ghost use Rattle.ddcmp_core.specs.Table.{after_halt, answer_to_start};
    ghost use Rattle.ddcmp_proto.specs.Bytes.{after_piece, notices_of_piece};
    ghost use Rattle.ddcmp_station.specs.Linking.{after_frames, after_sent};
    ghost use Rattle.ddcmp_station.specs.Linking.{countable, puts_frame, with_state};
    ghost use Rattle.ddcmp_io.specs.declared.line_kind.LineKind.TheVariants.{Datagrams};
    ghost use Rattle.ddcmp_session.specs.Filling.{after_filling, most_datagrams};
    ghost use Rattle.ddcmp_session.specs.Session.{form_of, has_gone, lost_by_end};
    ghost use Rattle.ddcmp_session.specs.Session.{reports_end, wants_line};
    ghost use Rattle.ddcmp_streams.specs.Errors.{ErrorsView};
    ghost use Rattle.ddcmp_session.specs.Logged.{HasLost, HasNotice, HasNotices, ReportsTelnet};
    ghost use Rattle.ddcmp_session.specs.Logged.{Traces};
    ghost use Rattle.ddcmp_session.specs.Logged.{echo_came, echo_sent};
    ghost use Rattle.ddcmp_streams.specs.Trace.{BeginsAnew, Logs};
    ghost use Rattle.ddcmp_session.specs.Course.{after_notice, lost_more};
    ghost use Rattle.ddcmp_session.specs.Session.{IsFilled, after_connected, course_received};
    ghost use Rattle.ddcmp_session.specs.Session.{is_paused, totals_received};
    ghost use Rattle.ddcmp_session.specs.Text.{Wrote, notice_text, notices_text, reported_end};
    ghost use Rattle.ddcmp_session.specs.declared.text.TheConstants.{LINE_ROOM};

    /// Starts the station on a line that was opened, or has it enter maintenance mode. Messages
    /// that aren't acknowledged on a line that hasn't ended are lost then, and counted. Returns
    /// false if received messages weren't delivered before: `deliver` them, then call it again.
    pub fn connected(&mut self) -> bool
        ensures state { self.new.state
            ≡ after_connected self.new.state.link.station.line self.old.state }
        ensures log { self.new.log ≡ self.old.log }
        ensures cleared { StandsFor self.new.state.link.station.line [] }
        ensures answer { result
            ≡ is_ok (answer_to_start (after_halt self.old.state.link.station.core.station)) }
    {
        let lost = self.lost_by_end();
        let starts = if self.options.maintenance {
            let enters = self.link.begin_maintenance().is_ok();
            self.course.enter(enters);
            enters
        } else {
            self.course.connect();
            self.link.restart().is_ok()
        };
        self.course.lose(if starts { lost as u64 } else { 0 });
        self.has_line |= starts;
        starts
    }

    /// Handles this end of the line and halts the station: messages that were sent and not
    /// acknowledged are lost. Returns whether standard output had room to report that: there is
    /// room once all queued output was taken.
    pub fn line_ended(&mut self, how: LineEnd) -> bool
        ensures link { self.new.state.link
            ≡ with_state (after_halt self.old.state.link.station.core.station) self.old.state.link }
        ensures wrote { Wrote (reported_end result (form_of self.old.state.messages) how
            (lost_by_end self.old.state)) self.old.state.output self.new.state.output }
        ensures when { result ≡ reports_end self.old.state }
        ensures stays { self.new.state ≡ record self.old.state {
          link = self.new.state.link;
          has_line = false;
          course = lost_more (lost_by_end self.old.state) self.old.state.course;
          output = self.new.state.output;
        } }
        ensures traced { (mid : ErrorsView)
            × HasLost (form_of self.old.state.messages) (lost_by_end self.old.state)
            self.old.log.errors mid
            × Traces BeginsAnew self.old.log.trace (record self.old.log { errors = mid })
            self.new.log }
        ensures log { self.new.log
            ≡ record self.old.log { errors = self.new.log.errors; trace = self.new.log.trace } }
    {
        let lost = self.lose_line();
        let has_room = self.report_line_end(how, lost);
        if let Some(trace) = &mut self.trace {
            trace.restart(&mut self.errors);
        }
        has_room
    }

    /// Halts the station, and returns how many messages are lost with the line, if there is one.
    pub(super) fn lose_line(&mut self) -> u8
        ensures lost { result ≡ lost_by_end self.old.state }
        ensures state { self.new.state ≡ record self.old.state {
          link = with_state (after_halt self.old.state.link.station.core.station)
              self.old.state.link;
          has_line = false;
        } }
        ensures log { self.new.log ≡ self.old.log }
    {
        let lost = self.lost_by_end();
        self.has_line = false;
        self.link.halt();
        lost
    }

    /// Returns whether all accepted messages were written to the line.
    pub(super) fn has_gone(&self) -> bool
        ensures { result ≡ has_gone self.now.state.link }
    {
        self.link.lost() == 0 && self.link.unsent().is_empty()
    }

    /// Returns how many messages are lost if the line ends, if there is one.
    fn lost_by_end(&self) -> u8
        ensures { result ≡ lost_by_end self.now.state }
    {
        if !self.has_line {
            0
        } else if self.options.maintenance {
            !self.has_gone() as u8
        } else {
            self.link.lost()
        }
    }

    /// Returns whether bytes of the line are wanted: there is a line that is to be read, and room
    /// for a notice.
    pub fn wants_line(&self) -> bool
        ensures { result ≡ wants_line self.now.state }
    {
        self.has_line && self.link.wants_line() && self.output.room() >= text::LINE_ROOM
    }

    /// Logs bytes received from the line: each once, before `received`.
    pub fn log_received(&mut self, bytes: &[u8])
        ensures traced { (told : ErrorsView)
            × ReportsTelnet bytes.now self.old.state self.old.log.errors told
            × Traces (Logs Way.FromLine bytes.now) self.old.log.trace
            (record (echo_came bytes.now self.old.log) { errors = told }) self.new.log }
        ensures state { self.new.state ≡ self.old.state }
        ensures log { self.new.log ≡ record (echo_came bytes.now self.old.log) {
          errors = self.new.log.errors;
          trace = self.new.log.trace;
        } }
    {
        self.tell_telnet(bytes);
        self.echo.came(bytes);
        self.trace_received(bytes);
    }

    /// Logs bytes received from the line, if there is a trace.
    fn trace_received(&mut self, bytes: &[u8])
        ensures traced { Traces (Logs Way.FromLine bytes.now) self.old.log.trace
            self.old.log self.new.log }
        ensures state { self.new.state ≡ self.old.state }
        ensures log { self.new.log
            ≡ record self.old.log { errors = self.new.log.errors; trace = self.new.log.trace } }
    {
        if let Some(trace) = &mut self.trace {
            trace.log(Way::FromLine, bytes, &mut self.errors);
        }
    }

    /// Handles bytes of the line, up to the first that yields a notice, and writes that notice.
    /// Returns how many were used; 0 while `wants_line` is false.
    pub fn received(&mut self, bytes: &[u8]) -> usize
        ensures used { result ≤ length bytes.now }
        ensures some { 0 < length bytes.now → 0 < countable self.old.state.link.station
            → wants_line self.old.state ≡ true → 0 < result }
        // No byte before the last one used yielded a notice, and if that one didn't, all were used.
        ensures first { wants_line self.old.state ≡ true → (text : List ℕ) (n : ℕ)
            → StandsFor self.old.state.link.station.line text → n < result
            → notices_of_piece text (take n bytes.now) self.old.state.link.station.core ≡ [] }
        ensures whole { wants_line self.old.state ≡ true → (text : List ℕ)
            → StandsFor self.old.state.link.station.line text
            → notices_of_piece text (take result bytes.now) self.old.state.link.station.core ≡ []
            → result ≡ min (length bytes.now) (countable self.old.state.link.station) }
        ensures none { wants_line self.old.state ≡ false → (result ≡ 0) × (self.new ≡ self.old) }
        ensures stands { (text : List ℕ) → StandsFor self.old.state.link.station.line text
            → StandsFor self.new.state.link.station.line (text ++ take result bytes.now) }
        ensures state { (text : List ℕ) → StandsFor self.old.state.link.station.line text
            → self.new.state.link.station.core
            ≡ after_piece text (take result bytes.now) self.old.state.link.station.core }
        ensures wrote { (text : List ℕ) → StandsFor self.old.state.link.station.line text
            → Wrote (notices_text (form_of self.old.state.messages)
            (notices_of_piece text (take result bytes.now) self.old.state.link.station.core))
            self.old.state.output self.new.state.output }
        ensures course { (text : List ℕ) → StandsFor self.old.state.link.station.line text
            → self.new.state.course ≡ course_received self.old.state self.new.state.link
            (notices_of_piece text (take result bytes.now) self.old.state.link.station.core) }
        ensures totals { wants_line self.old.state ≡ true → (text : List ℕ)
            → StandsFor self.old.state.link.station.line text → self.new.state.link.totals
            ≡ totals_received result
            (notices_of_piece text (take result bytes.now) self.old.state.link.station.core)
            self.old.state.link.totals }
        ensures syn { self.new.state.link.station.syn ≡ self.old.state.link.station.syn }
        ensures link { self.new.state.link ≡ record self.old.state.link {
          station = self.new.state.link.station;
          totals = self.new.state.link.totals;
        } }
        ensures stays { self.new.state ≡ record self.old.state {
          link = self.new.state.link;
          course = self.new.state.course;
          output = self.new.state.output;
        } }
        ensures errors { wants_line self.old.state ≡ true → (text : List ℕ)
            → StandsFor self.old.state.link.station.line text
            → HasNotices (form_of self.old.state.messages)
            (notices_of_piece text (take result bytes.now) self.old.state.link.station.core)
            self.old.log.errors self.new.log.errors }
        ensures log { self.new.log ≡ record self.old.log { errors = self.new.log.errors } }
    {
        if !self.wants_line() {
            return 0;
        }
        let before = self.link.counters().nak_received;
        let fed = self.link.feed(bytes);
        self.course.look(&before, &self.link, self.options.timer_ms);
        if let Some(notice) = fed.notice {
            self.report_notice(notice);
        }
        fed.used
    }

    /// Writes a notice; to standard error with messages in binary, unless events are among them.
    fn report_notice(&mut self, notice: Notice)
        requires { LINE_ROOM ≤ self.old.state.output.room }
        ensures wrote { Wrote (notice_text (form_of self.old.state.messages) notice)
            self.old.state.output self.new.state.output }
        ensures course { self.new.state.course ≡ after_notice notice self.old.state.course }
        ensures stays { self.new.state ≡ record self.old.state {
          course = self.new.state.course;
          output = self.new.state.output;
        } }
        ensures errors { HasNotice (form_of self.old.state.messages) notice
            self.old.log.errors self.new.log.errors }
        ensures log { self.new.log ≡ record self.old.log { errors = self.new.log.errors } }
    {
        self.course.note_incarnation(notice);
        match self.options.form {
            MessageForm::Digits | MessageForm::EventLines => {
                text::write_notice_line(&mut self.output, notice)
            }
            MessageForm::Binary => put_notice(&mut self.errors, notice),
            MessageForm::Events => text::write_notice_event(&mut self.output, notice),
        }
        match notice {
            Notice::Restarted(lost) => {
                let _has_room = self.report_lost(lost);
            }
            Notice::PeerRestarted => self.course.leaves = true,
            _ => {}
        }
    }

    /// Queues frames after the bytes pending for the line, as far as there is room: one at a time
    /// for datagrams, and none that is held back.
    pub fn fill(&mut self)
        ensures frames { (n : ℕ) × (self.new.state
            ≡ record self.old.state { link = after_frames n self.old.state.link }) }
        ensures datagrams { self.old.state.kind ≡ Datagrams → (n : ℕ)
            × (n ≤ most_datagrams self.old.state.link) × (self.new.state
            ≡ record self.old.state { link = after_frames n self.old.state.link }) }
        ensures filled { IsFilled self.new.state }
        ensures log { self.new.log ≡ self.old.log }
    {
        if self.kind.is_of_datagrams() && !self.link.unsent().is_empty() {
            return;
        }
        while self.fill_one() {
            if self.kind.is_of_datagrams() {
                break;
            }
        }
    }

    /// Queues the next frame after the bytes pending for the line, unless it carries a message that
    /// is held back; returns whether it did.
    fn fill_one(&mut self) -> bool
        ensures state { self.new.state
            ≡ record self.old.state { link = after_filling self.old.state } }
        ensures log { self.new.log ≡ self.old.log }
        ensures less { result ≡ true → self.new.state.link.outbox.room
            < self.old.state.link.outbox.room }
        ensures some { result ≡ true → 0 < length self.new.state.link.outbox.waiting }
        ensures none { result ≡ false → (puts_frame self.new.state.link ≡ false)
            ⊎ (is_paused self.new.state ≡ true) }
    {
        if self.is_paused() {
            return false;
        }
        self.link.fill_one()
    }

    /// Returns whether the next frame carries a message that is held back, or is such a NAK.
    fn is_paused(&self) -> bool
        ensures { result ≡ is_paused self.now.state }
    {
        self.course.pause.is_some() && self.link.sends_message() && !self.link.owes_ack()
            || self.course.nak_pause.is_some() && self.link.sends_refusal()
    }

    /// Returns the bytes pending for the line.
    pub fn to_line(&self) -> &[u8]
        ensures { result.now ≡ self.now.state.link.outbox.waiting }
    {
        self.link.unsent()
    }

    /// Notes that the line took the first `n` bytes of `to_line`.
    pub fn line_took(&mut self, n: usize)
        ensures state { self.new.state ≡ record self.old.state {
          link = after_sent
              (min n (length self.old.state.link.outbox.waiting)) self.old.state.link;
        } }
        ensures traced { Traces (Logs Way.ToLine (take n self.old.state.link.outbox.waiting))
            self.old.log.trace
            (echo_sent (take n self.old.state.link.outbox.waiting) self.old.log) self.new.log }
        ensures log { self.new.log
            ≡ record (echo_sent (take n self.old.state.link.outbox.waiting) self.old.log) {
              errors = self.new.log.errors;
              trace = self.new.log.trace;
            } }
    {
        let n = n.min(self.link.unsent().len());
        self.echo.sent(&self.link.unsent()[..n]);
        self.trace_taken(n);
    }

    /// Notes and logs, if there is a trace, that the line took the first `n` bytes of `to_line`.
    fn trace_taken(&mut self, n: usize)
        ensures state { self.new.state ≡ record self.old.state {
          link = after_sent
              (min n (length self.old.state.link.outbox.waiting)) self.old.state.link;
        } }
        ensures traced { Traces (Logs Way.ToLine (take n self.old.state.link.outbox.waiting))
            self.old.log.trace self.old.log self.new.log }
        ensures log { self.new.log
            ≡ record self.old.log { errors = self.new.log.errors; trace = self.new.log.trace } }
    {
        let unsent = self.link.unsent();
        let n = n.min(unsent.len());
        if let Some(trace) = &mut self.trace {
            trace.log(Way::ToLine, &unsent[..n], &mut self.errors);
        }
        self.link.sent(n);
    }
}
