//! The timers of a session.

use crate::session::{EndReason, Session};
use ddcmp_io::LineKind;
use ddcmp_station::State;

impl Session {
    ghost use Rattle.std.specs.Prelude.{◌≡◌, Some, if◌then◌else◌};
    ghost use Rattle.ddcmp_session.specs.Course.{after_opening_failed};
    ghost use Rattle.ddcmp_session.specs.Logged.{HandlesTimeout, PassesMoment, TellsPeer};
    ghost use Rattle.ddcmp_session.specs.Session.{after_time, after_timeout, after_told};
    ghost use Rattle.ddcmp_session.specs.Session.{after_tried};
    ghost use Rattle.ddcmp_session.specs.Session.{awaits_peer, is_deaf, is_delivered, is_sending};
    ghost use Rattle.ddcmp_session.specs.Session.{unless_read};
    ghost use Rattle.ddcmp_session.specs.Timing.{after_line, end, is_done, is_spent};
    ghost use Rattle.ddcmp_session.specs.Timing.{lingers_until, next_timeout, reopens, restarts};
    ghost use Rattle.ddcmp_session.specs.Timing.{run_ends_at};
    ghost use Rattle.ddcmp_session.specs.Timing.{seconds_after_line, stays, unless_done, wait_ms};
    ghost use Rattle.ddcmp_session.specs.Timing.{wakes_at, wakes_without_line_at};

    /// Returns the moment in milliseconds when the run ends.
    pub fn run_ends_at(&self) -> u64
        ensures { result ≡ run_ends_at self.now.state }
    {
        1000 * self.options.seconds as u64
    }

    /// Returns whether lines for standard error begin with the time of day.
    pub fn shows_time(&self) -> bool
        ensures { result ≡ self.now.state.options.clock }
    {
        self.options.clock
    }

    /// Begins each line for standard error with the time of day, if that is asked for. By the
    /// clock of the day the moment 0 was this many milliseconds after 1970.
    pub fn began_at(&mut self, milliseconds: u64)
        ensures state { self.new.state ≡ self.old.state }
        ensures log { self.new.log ≡ record self.old.log {
          errors =
              if self.old.state.options.clock
              then record self.old.log.errors { began = Some milliseconds }
              else self.old.log.errors;
        } }
    {
        if self.options.clock {
            self.errors.show_time(milliseconds);
        }
    }

    /// Notes the moment, and writes a report if one is due. Call it while there is no line.
    pub fn pass_time(&mut self, now: u64)
        ensures state { self.new.state ≡ after_time now self.old.state }
        ensures errors { PassesMoment now self.old.state self.old.log self.new.log.errors }
        ensures log { self.new.log ≡ record self.old.log { errors = self.new.log.errors } }
    {
        self.errors.pass_time(now);
        if self.course.pass(now, self.options.report_ms()) {
            self.report_counters();
        }
    }

    /// Returns the moment in milliseconds when a wait without a line, from `now` on, is to end at
    /// the latest: when the line is to be opened, a report is due, or the run ends.
    pub fn wakes_without_line_at(&self, now: u64) -> u64
        ensures { result ≡ wakes_without_line_at now self.now.state }
    {
        let first = self.unless_done(self.run_ends_at().min(self.course.report_at));
        let opens_at = self.course.opens_at;
        if now < opens_at {
            first.min(opens_at)
        } else {
            first
        }
    }

    /// Handles all timers that have expired at this moment.
    pub fn handle_timeout(&mut self, now: u64)
        ensures state { self.new.state ≡ after_timeout now self.old.state }
        ensures handles { HandlesTimeout now self.old.state self.old.log self.new.log }
        ensures log { self.new.log
            ≡ record self.old.log { errors = self.new.log.errors; trace = self.new.log.trace } }
    {
        self.pass_time(now);
        self.course.end_pauses();
        let written = self.link.totals().written;
        self.course.note_written(written, self.options.speed());
        let has_expired = self.link.wake(now);
        self.count_expiry(has_expired);
        self.tell_peer(has_expired);
        self.note_unheard();
        if let Some(trace) = &mut self.trace {
            trace.wake(now, has_expired, &mut self.errors);
        }
    }

    /// Reports what is to be reported of the peer.
    fn tell_peer(&mut self, has_expired: bool)
        ensures state { self.new.state ≡ after_told has_expired self.old.state }
        ensures errors { TellsPeer has_expired self.old.state self.old.log.errors
            self.new.log.errors }
        ensures log { self.new.log ≡ record self.old.log { errors = self.new.log.errors } }
    {
        self.report_given_up();
        self.report_silence(has_expired);
        self.tell_start(has_expired);
        self.tell_wrong();
        self.tell_refusals();
    }

    /// Counts an expiry of the reply timer as a try, if a peer is there, has all that was sent, and
    /// is heard.
    #[tactic(auto, unfolding(crate::specs::Session::course_tried))]
    fn count_expiry(&mut self, has_expired: bool)
        ensures { self.new
            ≡ record self.old { state = after_tried has_expired self.old.state } }
    {
        if !has_expired || self.awaits_peer() {
            return;
        }
        if !self.is_sending() && !self.is_deaf() {
            let runs = self.runs();
            self.course.count_expiry(runs, self.input_is_read);
        }
        self.course.written_then = self.course.written;
    }

    /// Returns whether the station runs and its line isn't read.
    fn is_deaf(&self) -> bool
        ensures { result ≡ is_deaf self.now.state }
    {
        self.runs() && !self.wants_line()
    }

    /// Returns whether a serial device has bytes underway, or took some since the last expiry and
    /// is to take more.
    fn is_sending(&self) -> bool
        ensures { result ≡ is_sending self.now.state }
    {
        let is_slow = self.kind == LineKind::Device;
        let is_taking = !self.link.unsent().is_empty()
            && self.course.written != self.course.written_then;
        is_slow && (self.course.moment < self.course.sends_until || is_taking)
    }

    /// Notes that the peer isn't heard, if the line isn't read, or that it waits for an
    /// acknowledgement.
    fn note_unheard(&mut self)
        ensures { self.new ≡ record self.old { state = unless_read self.old.state } }
    {
        if !self.wants_line() {
            self.course.stop_hearing();
        } else if self.is_awaited() {
            self.course.keep_awaited();
        }
    }

    /// Returns the moment in milliseconds when `handle_timeout` is to be called at the latest.
    pub fn wakes_at(&self) -> u64
        ensures { result ≡ wakes_at self.now.state }
    {
        self.unless_done(self.next_timeout())
    }

    /// Returns this moment, or if all else is done the moment when the peer was quiet for long
    /// enough, if that is earlier.
    fn unless_done(&self, moment: u64) -> u64
        ensures { result ≡ unless_done moment self.now.state }
    {
        if self.is_done() {
            moment.min(self.lingers_until())
        } else {
            moment
        }
    }

    /// Returns the milliseconds from the last moment that was passed until `wakes_at`: the longest
    /// that the next wait may take.
    pub fn wait_ms(&self) -> u64
        ensures { result ≡ wait_ms self.now.state }
    {
        self.wakes_at().saturating_sub(self.course.moment)
    }

    /// Returns the moment of the first timer that is set.
    fn next_timeout(&self) -> u64
        ensures { result ≡ next_timeout self.now.state }
    {
        let timer = self.link.deadline().unwrap_or(u64::MAX);
        let pause = self.course.pause.unwrap_or(u64::MAX);
        let nak_pause = self.course.nak_pause.unwrap_or(u64::MAX);
        self.run_ends_at()
            .min(timer)
            .min(pause)
            .min(nak_pause)
            .min(self.course.report_at)
    }

    /// Returns why the line is to be left, if it is.
    pub fn end(&self) -> Option<EndReason>
        ensures { result ≡ end self.now.state }
    {
        let now = self.course.moment;
        if self.run_ends_at() <= now {
            return Some(EndReason::Time);
        }
        if self.has_line && self.course.leaves {
            return Some(EndReason::Restarted);
        }
        if self.has_line && self.is_given_up() {
            return Some(EndReason::GivenUp);
        }
        if self.is_done() && self.lingers_until() <= now {
            return Some(EndReason::Done);
        }
        None
    }

    /// Returns the moment until which the session waits for a peer that may have more to send.
    fn lingers_until(&self) -> u64
        ensures { result ≡ lingers_until self.now.state }
    {
        let linger = self.options.linger_ms as u64;
        self.course.quiet_since.saturating_add(linger)
    }

    /// Returns whether no peer has started yet, on a line that is no connection: it may start at
    /// any time, unless a number of tries is set.
    fn awaits_peer(&self) -> bool
        ensures { result ≡ awaits_peer self.now.state }
    {
        self.options.attempts == u32::MAX
            && !self.kind.is_connection()
            && !self.course.peer_has_started
    }

    /// Returns whether all is done, but for a peer that may have more to send.
    fn is_done(&self) -> bool
        ensures { result ≡ is_done self.now.state }
    {
        self.is_spent() && !self.is_awaited() && !self.stays()
    }

    /// Returns whether all of the input was read and nothing of it is left: it was delivered, or
    /// what wasn't is lost with a line that has ended.
    fn is_spent(&self) -> bool
        ensures { result ≡ is_spent self.now.state }
    {
        self.is_delivered() || self.input_is_read && self.course.has_run && !self.has_line
    }

    pub(super) fn is_delivered(&self) -> bool
        ensures { result ≡ is_delivered self.now.state }
    {
        self.input_is_read && self.link.is_delivered()
    }

    /// Returns whether the session continues after all of the input was delivered, as it does if it
    /// listens and had no input.
    pub(super) fn stays(&self) -> bool
        ensures { result ≡ stays self.now.state }
    {
        let had_input = self.link.totals().sent > 0 || self.was_refused || self.course.quits;
        self.options.stay || self.kind == LineKind::Listen && !had_input
    }

    /// Returns whether the peer restarted while received messages weren't written, and this end is
    /// to restart with it: it does once they are, over the same line.
    pub fn restarts(&self) -> bool
        ensures { result ≡ restarts self.now.state }
    {
        self.link.config().restart && self.course.leaves && self.link.state() == State::Halted
    }

    /// Returns whether a line that was left is opened again, or kept.
    pub fn reopens(&self) -> bool
        ensures { result ≡ reopens self.now.state }
    {
        let is_awaited = self.kind == LineKind::Listen && !self.course.peer_has_started;
        self.options.again || is_awaited || self.restarts() || self.course.halted
    }

    /// Returns whether a command halted the link until another one starts it.
    pub fn is_halted(&self) -> bool
        ensures { result ≡ self.now.state.course.halted }
    {
        self.course.halted
    }

    /// Returns whether a line that can't be opened is tried again.
    pub fn retries(&self) -> bool
        ensures { result ≡ self.now.state.options.again }
    {
        self.options.again
    }

    /// Returns the moment in milliseconds before which the line isn't opened.
    pub fn opens_at(&self) -> u64
        ensures { result ≡ self.now.state.course.opens_at }
    {
        self.course.opens_at
    }

    /// Notes that the line couldn't be opened, and returns after how many seconds it is tried
    /// again.
    pub fn open_failed(&mut self, now: u64) -> u64
        ensures state { self.new.state ≡ record (after_time now self.old.state) {
          course = after_opening_failed (after_time now self.old.state).course;
        } }
        ensures seconds { result ≡ self.new.state.course.retry_seconds }
        ensures errors { PassesMoment now self.old.state self.old.log self.new.log.errors }
        ensures log { self.new.log ≡ record self.old.log { errors = self.new.log.errors } }
    {
        self.pass_time(now);
        self.course.retry_later()
    }

    /// Returns after how many seconds a line that has ended is opened again; none if at once, as
    /// after a station that ran, or if the session listens.
    pub fn pause_after_line(&mut self, now: u64) -> Option<u64>
        ensures state { self.new.state ≡ after_line (after_time now self.old.state) }
        ensures seconds { result ≡ seconds_after_line (after_time now self.old.state) }
        ensures errors { PassesMoment now self.old.state self.old.log self.new.log.errors }
        ensures log { self.new.log ≡ record self.old.log { errors = self.new.log.errors } }
    {
        self.pass_time(now);
        if self.course.has_run_here {
            self.course.retry_at_once();
            return None;
        }
        if self.kind == LineKind::Listen {
            return None;
        }
        Some(self.course.retry_later())
    }
}
