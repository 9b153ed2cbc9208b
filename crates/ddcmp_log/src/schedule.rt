//! When reports are due.
ghost use Rattle.std.specs.Prelude.{◌≡◌, true};
ghost use Rattle.ddcmp_log.specs.Scheduling.{is_due, next_due_after, schedule_of};

/// When reports are due: one every so many milliseconds, or none.
#[derive(Clone, Copy)]
pub struct Schedule {
    /// 0 if there are none.
    pub every_ms: u64,
    /// The moment of the next report; `u64::MAX` if there is none.
    pub due_at: u64,
}

impl Schedule {
    /// Plans a report every this many seconds; none for 0.
    pub fn new(seconds: u32) -> Schedule
        ensures { result ≡ schedule_of seconds }
    {
        let every_ms = 1000 * u64::from(seconds);
        Schedule {
            every_ms,
            due_at: if every_ms == 0 { u64::MAX } else { every_ms },
        }
    }

    /// Returns whether a report is due.
    pub fn is_due(&self, now: u64) -> bool
        ensures { result ≡ is_due self.now now }
    {
        self.every_ms != 0 && self.due_at <= now
    }

    /// Notes that a report was made. The next one is due a whole number of intervals after this one
    /// was.
    pub fn pass(&mut self, now: u64)
        requires due { is_due self.old now ≡ true }
        ensures next { self.new ≡ record self.old { due_at = next_due_after self.old now } }
    {
        let late = (now - self.due_at) % self.every_ms;
        self.due_at = (now - late).saturating_add(self.every_ms);
    }
}
