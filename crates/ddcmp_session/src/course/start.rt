//! What is received of a peer that doesn't start.
use crate::course::Course;

/// After how many STRTs it is reported what is received of a peer that doesn't start.
const TOLD_STARTS: u32 = 4;

/// How many bytes without STRT or STACK count as noise.
const NOISE_BYTES: u64 = 16;

/// For how long the same isn't reported again, in milliseconds.
pub(super) const TELLING_MS: u64 = 60_000;

/// What is received of a peer that hasn't started.
#[derive(Clone, Copy, PartialEq, Eq)]
pub(crate) enum Unstarted {
    /// Nothing, or a few bytes.
    Silence,
    /// Bytes that are neither STRT nor STACK.
    Noise,
}

impl Course {
    ghost use Rattle.std.specs.Prelude.{◌≡◌};
    ghost use Rattle.ddcmp_session.specs.Course.{after_unstarted, heard_here, start_counted};
    ghost use Rattle.ddcmp_session.specs.Course.{unstarted};

    /// Counts a STRT after which the reply timer expired, if `counts`.
    pub(crate) fn count_start(&mut self, counts: bool)
        ensures { self.new ≡ start_counted counts self.old }
    {
        if counts {
            self.starts = self.starts.saturating_add(1);
        }
    }

    /// Returns how many bytes were received over this line.
    pub(crate) fn heard_here(&self) -> u64
        ensures { result ≡ heard_here self.now }
    {
        self.read.saturating_sub(self.read_before)
    }

    /// Returns what is to be reported of a peer that doesn't start.
    pub(crate) fn unstarted(&self) -> Option<Unstarted>
        ensures { result ≡ unstarted self.now }
    {
        if self.starts < TOLD_STARTS {
            return None;
        }
        if self.heard_here() < NOISE_BYTES {
            return (self.silence_at <= self.moment).then_some(Unstarted::Silence);
        }
        (self.noise_at <= self.moment).then_some(Unstarted::Noise)
    }

    /// Notes that this was reported, if anything was.
    pub(crate) fn tell_unstarted(&mut self, unstarted: Option<Unstarted>)
        ensures { self.new ≡ after_unstarted unstarted self.old }
    {
        let again_at = self.moment.saturating_add(TELLING_MS);
        match unstarted {
            Some(Unstarted::Silence) => self.silence_at = again_at,
            Some(Unstarted::Noise) => self.noise_at = again_at,
            None => {}
        }
    }
}
