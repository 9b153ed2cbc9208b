//! The pause before a line is opened again.
ghost use Rattle.std.specs.Prelude.{◌≡◌, ◌*◌, ◌+◌, ◌-◌, ◌^◌, max, min};

/// The longest pause, in seconds.
const MOST_SECONDS: u64 = 30;

/// A pause before a line is opened again.
#[derive(Clone, Copy)]
pub(crate) struct Pause {
    /// How long it is, in seconds.
    seconds: u64,
    /// The moment at which it is over, in milliseconds.
    pub(crate) ends_at: u64,
}

impl Pause {
    /// No pause.
    pub(crate) const NONE: Pause = Pause {
        seconds: 0,
        ends_at: 0,
    };

    /// Begins a pause, and returns its length in seconds: twice that of the last one, at least 1
    /// and at most 30.
    pub(crate) fn begin(&mut self, now: u64) -> u64
        ensures seconds { result ≡ self.new.seconds }
        ensures doubles { result ≡ min (max (2 * min self.old.seconds 30) 1) 30 }
        ensures ends { self.new.ends_at ≡ min (now + 1000 * result) (2 ^ 64 - 1) }
    {
        let doubled = 2 * self.seconds.min(MOST_SECONDS);
        self.seconds = doubled.clamp(1, MOST_SECONDS);
        self.ends_at = now.saturating_add(1000 * self.seconds);
        self.seconds
    }
}
