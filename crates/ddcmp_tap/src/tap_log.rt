//! How a tap logs.
ghost use Rattle.std.specs.Prelude.{◌≡◌};
ghost use Rattle.ddcmp_tap.specs.Stamping.{stamp_at};

use ddcmp_log::{LogNotation, Stamp};

/// What each line of a log begins with.
#[derive(Clone, Copy, PartialEq, Eq)]
pub enum LogTimes {
    /// The mark of its side.
    Absent,
    /// The milliseconds since both sides were connected.
    Elapsed,
    /// The time of day.
    OfDay,
}

/// How a tap logs what it forwards.
#[derive(Clone, Copy)]
pub struct TapLog {
    pub notation: LogNotation,
    pub times: LogTimes,
    /// When both sides were connected, in milliseconds after 1970, for the time of day.
    pub began: u64,
    /// After how many seconds each report of the totals is printed on standard error; 0 is never.
    pub report: u32,
    /// The maximum number of bytes of a message.
    pub max: u16,
}

impl TapLog {
    /// Returns what lines of this moment begin with; none for the mark.
    pub fn stamp_at(&self, now: u64) -> Option<Stamp>
        ensures { result ≡ stamp_at self.now now }
    {
        match self.times {
            LogTimes::Absent => None,
            LogTimes::Elapsed => Some(Stamp::Elapsed(now)),
            LogTimes::OfDay => Some(Stamp::OfDay(self.began.saturating_add(now))),
        }
    }
}
