//! What is reported of the messages that a peer refuses.
use crate::course::Course;
use crate::course::start::TELLING_MS;
use ddcmp_frame::Nak;
use ddcmp_station::NakCounts;

impl Course {
    ghost use Rattle.std.specs.Prelude.{◌≡◌};
    ghost use Rattle.ddcmp_session.specs.Course.{after_refusals_told, tells_no_buffer};
    ghost use Rattle.ddcmp_session.specs.Course.{tells_refused_long};

    /// Returns whether it is to be reported that the peer refuses messages as too long.
    pub(crate) fn tells_refused_long(&self, naks: &NakCounts) -> bool
        ensures { result ≡ tells_refused_long naks.now self.now }
    {
        naks.too_long != self.told_refused_long && self.refused_long_at <= self.moment
    }

    /// Returns whether it is to be reported that the peer has no buffer: what was sent again after
    /// a pause was refused for it. A healthy peer that reads slowly may refuse a message once.
    pub(crate) fn tells_no_buffer(&self) -> bool
        ensures { result ≡ tells_no_buffer self.now }
    {
        match self.refusal {
            Some(Nak::NoBuffer) => self.no_buffer_at <= self.moment,
            _ => false,
        }
    }

    /// Notes that this was reported, if it was to be.
    pub(crate) fn tell_refusals(&mut self, naks: &NakCounts)
        ensures { self.new ≡ after_refusals_told naks.now self.old }
    {
        let again_at = self.moment.saturating_add(TELLING_MS);
        if self.tells_refused_long(naks) {
            self.told_refused_long = naks.too_long;
            self.refused_long_at = again_at;
        }
        if self.tells_no_buffer() {
            self.no_buffer_at = again_at;
        }
    }
}
