//! The pauses of a run: of messages that the peer refuses, and of NAKs of what it sends wrong.
ghost use Rattle.std.specs.Prelude.{◌≡◌};
ghost use Rattle.ddcmp_session.specs.Course.{naks_of, next_pause, pause_at, refusal_between};

use crate::course::Course;
use crate::course::progress::{Progress, is_at};
use ddcmp_frame::Nak;
use ddcmp_station::NakCounts;

/// The first pause before messages that the peer refuses are retransmitted, in milliseconds.
const FIRST_PAUSE_MS: u64 = 10;

impl Course {
    ghost use Rattle.ddcmp_session.specs.Course.{after_acknowledged, after_naks, after_pauses};
    ghost use Rattle.ddcmp_session.specs.Course.{after_refusal, pause_begun};

    /// Ends a pause of messages, and one of NAKs, once it is due.
    pub(crate) fn end_pauses(&mut self)
        ensures { self.new ≡ after_pauses self.old }
    {
        self.pause = pause_at(self.moment, self.pause);
        self.nak_pause = pause_at(self.moment, self.nak_pause);
    }

    /// Ends a pause if a message was acknowledged.
    pub(super) fn note_acknowledged(&mut self, acknowledged: u64)
        ensures { self.new ≡ after_acknowledged acknowledged self.old }
    {
        if acknowledged != self.acknowledged {
            self.acknowledged = acknowledged;
            self.is_refused = false;
            self.pause = None;
            self.pause_ms = 0;
        }
    }

    /// Begins a pause if the peer refuses messages again, and there is none.
    pub(super) fn note_refusal(&mut self, refusal: Option<Nak>, timer_ms: u32)
        ensures { self.new ≡ after_refusal timer_ms refusal self.old }
    {
        if refusal.is_none() {
            return;
        }
        if !self.is_refused {
            self.is_refused = true;
            return;
        }
        if self.pause.is_none() {
            self.begin_pause(refusal, timer_ms);
        }
    }

    /// Holds messages back: for 10 ms at first, then twice as long as the last time, and for
    /// `timer_ms` at most, which counts as a try.
    fn begin_pause(&mut self, refusal: Option<Nak>, timer_ms: u32)
        ensures { self.new ≡ pause_begun timer_ms refusal self.old }
    {
        self.pause_ms = next_pause(timer_ms, self.pause_ms);
        self.pause = Some(self.moment.saturating_add(self.pause_ms));
        if self.pause_ms == timer_ms as u64 {
            self.count_try(refusal);
        }
    }

    /// Holds the next NAK of a frame that came damaged or too long back, if one more was sent: for
    /// 10 ms at first, then twice as long as the last time, until there is progress.
    pub(super) fn note_naks(&mut self, naks: u64, progress: Progress, timer_ms: u32)
        ensures { self.new ≡ after_naks timer_ms naks progress self.old }
    {
        if !is_at(progress, self.progress) {
            self.naks = naks;
            self.nak_pause = None;
            self.nak_pause_ms = 0;
            return;
        }
        if naks == self.naks || self.nak_pause.is_some() {
            return;
        }
        self.naks = naks;
        self.nak_pause_ms = next_pause(timer_ms, self.nak_pause_ms);
        self.nak_pause = Some(self.moment.saturating_add(self.nak_pause_ms));
    }
}

/// Returns the reason of a NAK, other than a reply to REP, that was received between these two
/// counts, if there is one.
pub(super) fn refusal_between(before: &NakCounts, now: &NakCounts) -> Option<Nak>
    ensures { result ≡ refusal_between before.now now.now }
{
    if before.too_long != now.too_long {
        return Some(Nak::TooLong);
    }
    if before.no_buffer != now.no_buffer {
        return Some(Nak::NoBuffer);
    }
    if before.overrun != now.overrun {
        return Some(Nak::Overrun);
    }
    if before.format != now.format {
        return Some(Nak::Format);
    }
    if before.header_check != now.header_check {
        return Some(Nak::HeaderCheck);
    }
    if before.data_check != now.data_check {
        return Some(Nak::DataCheck);
    }
    if before.other != now.other {
        return Some(Nak::Other(0));
    }
    None
}

/// Returns a pause, unless it is due at this moment.
fn pause_at(now: u64, pause: Option<u64>) -> Option<u64>
    ensures { result ≡ pause_at now pause }
{
    match pause {
        Some(until) if until <= now => None,
        pause => pause,
    }
}

/// Returns how long a pause lasts after one of `last` milliseconds: `timer_ms` at most.
fn next_pause(timer_ms: u32, last: u64) -> u64
    ensures { result ≡ next_pause timer_ms last }
{
    let most = timer_ms as u64;
    let doubled = 2 * last.min(most);
    doubled.max(FIRST_PAUSE_MS).min(most)
}

/// Returns how many of these NAKs are of frames that came damaged or too long.
pub(super) fn naks_of(sent: &NakCounts) -> u64
    ensures { result ≡ naks_of sent.now }
{
    sent.header_check as u64 + sent.data_check as u64 + sent.too_long as u64 + sent.format as u64
}
