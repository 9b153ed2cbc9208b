//! The patience of a session with a peer that is silent, refuses messages or sends wrong ones.
ghost use Rattle.std.specs.Prelude.{◌≡◌, ◌++◌, codes};
ghost use Rattle.ddcmp_session.specs.Reports.{given_up_text};
ghost use Rattle.ddcmp_session.specs.Timing.{most_tries};

use crate::course::Wrong;
use crate::session::Session;
use ddcmp_explain::reason_name;
use ddcmp_frame::Nak;
use ddcmp_station::State;
use itoa::Buffer;

/// The number of tries after which a line is left if the station doesn't come to run, by default.
const START_ATTEMPTS: u32 = 7;

/// The number of tries without a received byte after which a peer counts as silent.
const SILENT_TRIES: u32 = 7;

/// How long a silent peer is tried by default, in milliseconds from the first try on.
const SILENT_MS: u64 = 300_000;

impl Session {
    ghost use Rattle.std.specs.Prelude.{◌≡◌, MatchBool, Some};
    ghost use Rattle.ddcmp_core.specs.Table.{is_running};
    ghost use Rattle.ddcmp_session.specs.Logged.{ReportsGivenUp, ReportsRefusals, ReportsSilence};
    ghost use Rattle.ddcmp_session.specs.Logged.{ReportsWrong};
    ghost use Rattle.ddcmp_session.specs.Session.{after_refusals, refusals_of};
    ghost use Rattle.ddcmp_session.specs.Reports.{no_buffer_text, wrong_text};
    ghost use Rattle.ddcmp_session.specs.Session.{after_telling, has_damaged, has_too_long, untold};
    ghost use Rattle.ddcmp_session.specs.Timing.{is_given_up, is_gone, is_silent};
    ghost use Rattle.ddcmp_streams.specs.Errors.{HasLine};
    ghost use Rattle.ddcmp_streams.specs.declared.errors.TheConstants.{SHORT_LINE};

    /// Returns whether the line is left since the peer doesn't reply or refuses messages.
    pub(super) fn is_given_up(&self) -> bool
        ensures { result ≡ is_given_up self.now.state }
    {
        let most = most_tries(self.options.attempts, self.runs());
        let tries = self.course.tries.max(self.course.unheard);
        (most > 0 && most <= tries) || self.is_gone()
    }

    /// Returns whether the station runs.
    pub(super) fn runs(&self) -> bool
        ensures { result ≡ is_running self.now.state.link.station.core.station.state }
    {
        self.link.state() == State::Running
    }

    /// Returns whether only the peer can go on and nothing was received of it for seven tries, on a
    /// line that doesn't report its end.
    pub(super) fn is_silent(&self) -> bool
        ensures { result ≡ is_silent self.now.state }
    {
        !self.kind.is_connection() && SILENT_TRIES <= self.course.unanswered
    }

    /// Returns whether such a peer is given up, which is the default after five minutes.
    fn is_gone(&self) -> bool
        ensures { result ≡ is_gone self.now.state }
    {
        let until = self.course.unanswered_since.saturating_add(SILENT_MS);
        self.options.attempts == u32::MAX && self.is_silent() && until <= self.course.moment
    }

    /// Reports once that the peer is silent, and that the tries go on.
    pub(super) fn report_silence(&mut self, has_expired: bool)
        ensures state { self.new.state ≡ self.old.state }
        ensures errors { ReportsSilence has_expired self.old.state self.old.log.errors
            self.new.log.errors }
        ensures log { self.new.log ≡ record self.old.log { errors = self.new.log.errors } }
    {
        let is_first = has_expired
            && self.is_silent()
            && self.course.unanswered == SILENT_TRIES
            && !self.is_given_up();
        if is_first {
            let text = b"doesn't answer, still trying";
            self.errors.write_line(b"ddcmp: peer ", text, b"\n");
        }
    }

    /// Returns whether a message of the peer was too long.
    pub(crate) fn has_too_long(&self) -> bool
        ensures { result ≡ has_too_long self.now.state }
    {
        self.link.counters().too_longs > 0
    }

    /// Returns whether all frames that come are damaged, and have been for a while.
    fn has_damaged(&self) -> bool
        ensures { result ≡ has_damaged self.now.state }
    {
        !self.has_too_long()
            && self.course.nak_pause.is_some()
            && self.options.timer_ms as u64 <= self.course.nak_pause_ms
    }

    /// Returns what the peer sends wrong, if that wasn't reported before.
    fn untold(&self) -> Option<Wrong>
        ensures { result ≡ untold self.now.state }
    {
        if self.has_too_long() && !self.course.told_too_long {
            return Some(Wrong::TooLong);
        }
        if self.has_damaged() && !self.course.told_damaged {
            return Some(Wrong::Damaged);
        }
        None
    }

    /// Reports what the peer sends wrong, once for each kind.
    pub(super) fn tell_wrong(&mut self)
        ensures state { self.new.state ≡ after_telling self.old.state }
        ensures errors { ReportsWrong self.old.state self.old.log.errors self.new.log.errors }
        ensures log { self.new.log ≡ record self.old.log { errors = self.new.log.errors } }
    {
        if let Some(wrong) = self.untold() {
            self.report_wrong(wrong);
        }
        self.course.told_damaged |= self.has_damaged();
        self.course.told_too_long |= self.has_too_long();
    }

    /// Reports what the peer sends wrong.
    fn report_wrong(&mut self, wrong: Wrong)
        ensures state { self.new.state ≡ self.old.state }
        ensures errors { HasLine SHORT_LINE
            (wrong_text self.old.state.link.station.core.limits.longest wrong)
            self.old.log.errors self.new.log.errors }
        ensures log { self.new.log ≡ record self.old.log { errors = self.new.log.errors } }
    {
        match wrong {
            Wrong::TooLong => self.report_too_long(self.longest()),
            Wrong::Damaged => {
                let text = b"damaged frames alone: other speed or parity, telnet?";
                self.errors.write_line(b"ddcmp: ", text, b"\n");
            }
        }
    }

    /// Returns the length of the longest message.
    fn longest(&self) -> u16
        ensures { result ≡ self.now.state.link.station.core.limits.longest }
    {
        self.link.config().max
    }

    /// Reports that the peer's messages are longer than `max` bytes.
    fn report_too_long(&mut self, max: u16)
        ensures state { self.new.state ≡ self.old.state }
        ensures errors { HasLine SHORT_LINE (wrong_text max Wrong.TooLong)
            self.old.log.errors self.new.log.errors }
        ensures log { self.new.log ≡ record self.old.log { errors = self.new.log.errors } }
    {
        let mut digits = Buffer::new();
        let text = digits.format(max).as_bytes();
        self.errors.write_line(
            b"ddcmp: peer's messages are too long: --max is ",
            text,
            b"\n",
        );
    }

    /// Reports that the peer refuses messages as too long, or has no buffer: each once, and then
    /// each minute.
    pub(super) fn tell_refusals(&mut self)
        ensures state { self.new.state ≡ after_refusals self.old.state }
        ensures errors { ReportsRefusals (refusals_of self.old.state) self.old.state.course
            self.old.log.errors self.new.log.errors }
        ensures log { self.new.log ≡ record self.old.log { errors = self.new.log.errors } }
    {
        let naks = self.link.counters().nak_received;
        let is_too_long = self.course.tells_refused_long(&naks);
        let has_no_buffer = self.course.tells_no_buffer();
        self.report_refused_long(is_too_long);
        self.report_no_buffer(has_no_buffer);
        self.course.tell_refusals(&naks);
    }

    /// Reports that the peer refuses messages as too long, if that is due.
    fn report_refused_long(&mut self, is_due: bool)
        ensures state { self.new.state ≡ self.old.state }
        ensures errors { MatchBool is_due (HasLine SHORT_LINE (given_up_text (Some Nak.TooLong))
            self.old.log.errors self.new.log.errors) (self.new.log.errors ≡ self.old.log.errors) }
        ensures log { self.new.log ≡ record self.old.log { errors = self.new.log.errors } }
    {
        if is_due {
            let (before, why) = given_up_words(Some(Nak::TooLong));
            self.errors.write_line(before, why, b"\n");
        }
    }

    /// Reports that the peer has no buffer, if that is due.
    fn report_no_buffer(&mut self, is_due: bool)
        ensures state { self.new.state ≡ self.old.state }
        ensures errors { MatchBool is_due (HasLine SHORT_LINE no_buffer_text self.old.log.errors
            self.new.log.errors) (self.new.log.errors ≡ self.old.log.errors) }
        ensures log { self.new.log ≡ record self.old.log { errors = self.new.log.errors } }
    {
        if is_due {
            self.errors
                .write_line(b"ddcmp: ", b"peer has no buffer", b"\n");
        }
    }

    /// Reports why the line is left, if the peer doesn't reply or refuses messages.
    pub(super) fn report_given_up(&mut self)
        ensures state { self.new.state ≡ self.old.state }
        ensures errors { ReportsGivenUp self.old.state self.old.log.errors self.new.log.errors }
        ensures log { self.new.log ≡ record self.old.log { errors = self.new.log.errors } }
    {
        if !self.is_given_up() {
            return;
        }
        let (before, why) = given_up_words(self.course.refusal);
        self.errors.write_line(before, why, b"\n");
    }
}

/// Returns the number of tries after which a line is left; 0 is never.
fn most_tries(attempts: u32, runs: bool) -> u32
    ensures { result ≡ most_tries attempts runs }
{
    match attempts {
        u32::MAX if runs => 0,
        u32::MAX => START_ATTEMPTS,
        attempts => attempts,
    }
}

/// Returns in two parts why a line without progress is left: the peer refuses messages for this
/// reason, or doesn't reply.
fn given_up_words(refusal: Option<Nak>) -> (&'static [u8], &'static [u8])
    ensures { given_up_text refusal ≡ result.0.now ++ result.1.now ++ codes "\n" }
{
    match refusal {
        None => (b"ddcmp: peer ", b"doesn't answer"),
        Some(reason) => (b"ddcmp: peer refuses: ", reason_name(reason)),
    }
}
