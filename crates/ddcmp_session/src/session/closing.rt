//! The end of a session's run.
use crate::session::Session;
use crate::text;
use ddcmp_streams::MessageForm;

impl Session {
    ghost use Rattle.std.specs.Prelude.{◌≡◌, ◌&&◌, not, true, false, []};
    ghost use Rattle.ddcmp_io.specs.Written.{HandsOver};
    ghost use Rattle.ddcmp_core.specs.Table.{after_halt};
    ghost use Rattle.ddcmp_station.specs.CountersText.{counters_line};
    ghost use Rattle.ddcmp_station.specs.Linking.{with_state};
    ghost use Rattle.ddcmp_session.specs.Course.{lost_more};
    ghost use Rattle.ddcmp_session.specs.Session.{form_of, lost_among, lost_at_end, lost_by_end};
    ghost use Rattle.ddcmp_session.specs.Session.{reports_loss};
    ghost use Rattle.ddcmp_session.specs.declared.text.TheConstants.{END_ROOM};
    ghost use Rattle.ddcmp_session.specs.EndText.{end_line, end_text};
    ghost use Rattle.ddcmp_streams.specs.Messages.{is_in_lines};
    ghost use Rattle.ddcmp_streams.specs.Queued.{queued};
    ghost use Rattle.ddcmp_streams.specs.Errors.{HasLine};
    ghost use Rattle.ddcmp_session.specs.LastReports.{WritesLastReports};
    ghost use Rattle.ddcmp_session.specs.Logged.{HasEnd, ReportsEcho, confirmed};
    ghost use Rattle.ddcmp_session.specs.Reported.{ClosesLog};
    ghost use Rattle.ddcmp_session.specs.Text.{Wrote, reported_lost};

    /// Ends the run and halts the station. The messages left in the input, and those that were sent
    /// and aren't acknowledged, are lost. Returns whether standard output had room to report the
    /// latter.
    pub fn close(&mut self, input: &[u8], input_is_at_end: bool) -> bool
        ensures link { self.new.state.link
            ≡ with_state (after_halt self.old.state.link.station.core.station) self.old.state.link }
        ensures wrote { Wrote (reported_lost result (form_of self.old.state.messages)
            (lost_by_end self.old.state)) self.old.state.output self.new.state.output }
        ensures when { result ≡ reports_loss self.old.state }
        ensures form { form_of self.new.state.messages ≡ form_of self.old.state.messages }
        ensures course { self.new.state.course ≡ lost_more (lost_by_end self.old.state)
            (lost_more (lost_at_end input.now input_is_at_end self.old.state)
            (lost_more (lost_among input.now self.old.state) self.old.state.course)) }
        ensures stays { self.new.state ≡ record self.old.state {
          link = self.new.state.link;
          has_line = false;
          course = self.new.state.course;
          messages = self.new.state.messages;
          is_read = true;
          was_refused = self.new.state.was_refused;
          output = self.new.state.output;
        } }
        ensures dropped { ClosesLog input.now input_is_at_end self.old self.new }
        ensures log { self.new.log
            ≡ record self.old.log { errors = self.new.log.errors; read = self.new.log.read } }
    {
        self.drop_input(input, input_is_at_end);
        let lost = self.lose_line();
        self.report_lost(lost)
    }

    /// Writes the last lines, once all received messages are delivered.
    pub fn finish(&mut self)
        ensures state { self.new.state ≡ self.old.state }
        ensures traced { WritesLastReports self.old.state self.old.log self.new.log }
        ensures log { self.new.log
            ≡ record self.old.log { errors = self.new.log.errors; trace = self.new.log.trace } }
    {
        self.report_echo();
        if let Some(trace) = &mut self.trace {
            trace.end(&mut self.errors);
        }
    }

    /// Returns how many messages of this end the peer confirmed; in maintenance mode, in which
    /// nothing is acknowledged, how many were sent.
    fn confirmed(&self) -> u64
        ensures { result ≡ confirmed self.now.state }
    {
        let totals = self.link.totals();
        if self.options.maintenance {
            return totals.sent;
        }
        totals.acknowledged
    }

    /// Reports it if all that came over the line is what was sent, messages among it.
    fn report_echo(&mut self)
        ensures state { self.new.state ≡ self.old.state }
        ensures errors { ReportsEcho self.old.state self.old.log.echo self.old.log.errors
            self.new.log.errors }
        ensures log { self.new.log ≡ record self.old.log { errors = self.new.log.errors } }
    {
        if self.confirmed() != 0 && self.echo.is_echo() {
            let text = b"all that came is what was sent: does the line echo?";
            self.errors.write_line(b"ddcmp: ", text, b"\n");
        }
    }

    /// Writes the state and the totals, after the counters if these are asked for; to standard
    /// error with messages in binary.
    pub fn write_end(&mut self)
        ensures stays { self.new.state
            ≡ record self.old.state { output = self.new.state.output } }
        ensures lines { is_in_lines (form_of self.old.state.messages) ≡ true
            → HandsOver (queued self.old.state.output) (queued self.new.state.output)
            (end_text self.old.state.options.counters self.old.state.link) }
        ensures binary { is_in_lines (form_of self.old.state.messages) ≡ false
            → self.new.state ≡ self.old.state }
        ensures digits { is_in_lines (form_of self.old.state.messages) ≡ true
            → self.new.log ≡ self.old.log }
        ensures errors { is_in_lines (form_of self.old.state.messages) ≡ false
            → HasEnd self.old.state.options.counters self.old.state.link
            self.old.log.errors self.new.log.errors }
        ensures log { self.new.log ≡ record self.old.log { errors = self.new.log.errors } }
    {
        let counters = self.options.counters;
        match self.options.form {
            MessageForm::Digits | MessageForm::EventLines => {
                text::write_end(&mut self.output, &self.link, counters)
            }
            MessageForm::Binary | MessageForm::Events => self.report_end(counters),
        }
    }

    /// Writes the last lines to standard error.
    fn report_end(&mut self, counters: bool)
        ensures state { self.new.state ≡ self.old.state }
        ensures errors { HasEnd counters self.old.state.link
            self.old.log.errors self.new.log.errors }
        ensures log { self.new.log ≡ record self.old.log { errors = self.new.log.errors } }
    {
        if counters {
            self.report_last_counters();
        }
        self.report_last_line();
    }

    /// Writes the counters to standard error.
    fn report_last_counters(&mut self)
        ensures state { self.new.state ≡ self.old.state }
        ensures errors { HasLine END_ROOM
            (counters_line [] self.old.state.link.station.core.counters)
            self.old.log.errors self.new.log.errors }
        ensures log { self.new.log ≡ record self.old.log { errors = self.new.log.errors } }
    {
        if self.errors.begin_line(text::END_ROOM) {
            text::write_counters_line(&mut self.errors.queue, &self.link);
        }
    }

    /// Writes the state and the totals to standard error.
    fn report_last_line(&mut self)
        ensures state { self.new.state ≡ self.old.state }
        ensures errors { HasLine END_ROOM (end_line self.old.state.link)
            self.old.log.errors self.new.log.errors }
        ensures log { self.new.log ≡ record self.old.log { errors = self.new.log.errors } }
    {
        if self.errors.begin_line(text::END_ROOM) {
            text::write_end(&mut self.errors.queue, &self.link, false);
        }
    }

    /// Returns whether the station has run over some line.
    pub fn has_run(&self) -> bool
        ensures { result ≡ self.now.state.course.has_run }
    {
        self.course.has_run
    }

    /// Returns whether the peer has started over the line that is open: sent a STRT or STACK, or
    /// anything in maintenance mode.
    pub fn peer_has_started(&self) -> bool
        ensures { result ≡ self.now.state.course.peer_has_started }
    {
        self.course.peer_has_started
    }

    /// Returns whether the run ends well only if the rest of its input is read to its end.
    pub(crate) fn awaits_end(&self) -> bool
        ensures { result ≡ (not self.now.state.is_read && self.now.state.options.awaits_end) }
    {
        !self.input_is_read && self.options.awaits_end
    }

    /// Returns whether no more of the input is read.
    pub(crate) fn has_read_input(&self) -> bool
        ensures { result ≡ self.now.state.is_read }
    {
        self.input_is_read
    }

    /// Returns whether a part of the input was refused.
    pub fn was_refused(&self) -> bool
        ensures { result ≡ self.now.state.was_refused }
    {
        self.was_refused
    }

    /// Returns how many messages were read and will never be acknowledged.
    pub fn lost(&self) -> u64
        ensures { result ≡ self.now.state.course.lost }
    {
        self.course.lost
    }
}
