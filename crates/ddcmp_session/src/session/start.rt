//! What a session reports of a peer that doesn't start.
ghost use Rattle.ddcmp_streams.specs.Errors.{HasLine};
ghost use Rattle.ddcmp_session.specs.Reports.{silence_at_start};
ghost use Rattle.ddcmp_session.specs.Session.{begins_telnet};
ghost use Rattle.std.specs.Prelude.{◌≡◌};

use crate::course::Unstarted;
use crate::session::Session;
use crate::text;
use ddcmp_station::State;
use ddcmp_streams::errors::{Errors, SHORT_LINE};
use itoa::Buffer;

/// The codes of telnet with which it asks for options.
const IAC: u8 = 255;

const WILL: u8 = 251;

const DO: u8 = 253;

/// Reports that nothing, or next to nothing, was received after this many STRTs.
fn put_silence(errors: &mut Errors, starts: u32, bytes: u64)
    ensures { HasLine SHORT_LINE (silence_at_start starts bytes) errors.old errors.new }
{
    if errors.begin_line(SHORT_LINE) {
        text::write_silence(&mut errors.queue, starts, bytes);
    }
}

/// Returns whether these are the first bytes of a telnet line: IAC WILL or IAC DO.
fn begins_telnet(bytes: &[u8]) -> bool
    ensures { result ≡ begins_telnet bytes.now }
{
    match bytes {
        [first, second, ..] => *first == IAC && (*second == WILL || *second == DO),
        _ => false,
    }
}

impl Session {
    ghost use Rattle.std.specs.Prelude.{◌≡◌};
    ghost use Rattle.ddcmp_session.specs.Logged.{ReportsTelnet, ReportsUnstarted};
    ghost use Rattle.ddcmp_session.specs.Reports.{noise_text, unstarted_text};
    ghost use Rattle.ddcmp_session.specs.Session.{after_start, counts_start};
    ghost use Rattle.ddcmp_streams.specs.Errors.{HasLine};
    ghost use Rattle.ddcmp_streams.specs.declared.errors.TheConstants.{SHORT_LINE};

    /// Counts a STRT, if the reply timer has expired after one, and reports what is received of a
    /// peer that doesn't start.
    pub(super) fn tell_start(&mut self, has_expired: bool)
        ensures state { self.new.state ≡ after_start has_expired self.old.state }
        ensures errors { ReportsUnstarted has_expired self.old.state self.old.log.errors
            self.new.log.errors }
        ensures log { self.new.log ≡ record self.old.log { errors = self.new.log.errors } }
    {
        let counts = self.counts_start(has_expired);
        self.course.count_start(counts);
        let unstarted = if counts {
            self.course.unstarted()
        } else {
            None
        };
        if let Some(it) = unstarted {
            self.report_unstarted(it);
        }
        self.course.tell_unstarted(unstarted);
    }

    /// Reports that the peer speaks telnet, if the first bytes of the line do.
    pub(super) fn tell_telnet(&mut self, bytes: &[u8])
        ensures state { self.new.state ≡ self.old.state }
        ensures errors { ReportsTelnet bytes.now self.old.state self.old.log.errors
            self.new.log.errors }
        ensures log { self.new.log ≡ record self.old.log { errors = self.new.log.errors } }
    {
        if self.course.heard_here() == 0 && begins_telnet(bytes) {
            let text = b"the peer speaks telnet: turn it off there";
            self.errors.write_line(b"ddcmp: ", text, b"\n");
        }
    }

    /// Returns whether a STRT was sent that has no reply when the timer expires.
    fn counts_start(&self, has_expired: bool) -> bool
        ensures { result ≡ counts_start has_expired self.now.state }
    {
        has_expired && self.link.state() == State::IStart
    }

    /// Reports what is received of a peer that doesn't start.
    fn report_unstarted(&mut self, it: Unstarted)
        ensures state { self.new.state ≡ self.old.state }
        ensures errors { HasLine SHORT_LINE (unstarted_text self.old.state.course it)
            self.old.log.errors self.new.log.errors }
        ensures log { self.new.log ≡ record self.old.log { errors = self.new.log.errors } }
    {
        let bytes = self.course.heard_here();
        match it {
            Unstarted::Silence => put_silence(&mut self.errors, self.course.starts, bytes),
            Unstarted::Noise => self.report_noise(bytes),
        }
    }

    /// Reports that bytes were received, and neither STRT nor STACK.
    fn report_noise(&mut self, bytes: u64)
        ensures state { self.new.state ≡ self.old.state }
        ensures errors { HasLine SHORT_LINE (noise_text bytes)
            self.old.log.errors self.new.log.errors }
        ensures log { self.new.log ≡ record self.old.log { errors = self.new.log.errors } }
    {
        let mut digits = Buffer::new();
        let text = digits.format(bytes).as_bytes();
        self.errors.write_line(
            b"ddcmp: ",
            text,
            b" bytes received, no STRT or STACK: other speed or parity, or not DDCMP?\n",
        );
    }
}
