//! The counters of a bridge.
ghost use Rattle.std.specs.Prelude.{◌≡◌, ◌+◌, ◌-◌, ◌^◌, min};
ghost use Rattle.ddcmp_bridge.specs.Reporting.{counts_since};

/// The counters of one direction.
#[derive(Clone, Copy, PartialEq, Eq)]
pub struct Counts {
    /// Good frames; they are passed on, apart from faults that the bridge makes.
    pub frames: u64,
    /// Bytes in no good frame: junk, fill, and damaged or incomplete frames.
    pub skipped: u64,
    /// Frames with a wrong CRC, losses of synchronism, and invalid headers.
    pub damaged: u64,
    /// Good frames that the bridge lost.
    pub lost: u64,
    /// Good frames in which the bridge changed a byte.
    pub altered: u64,
}

impl Counts {
    /// Nothing was received.
    pub const NONE: Counts = Counts {
        frames: 0,
        skipped: 0,
        damaged: 0,
        lost: 0,
        altered: 0,
    };

    /// Returns the sum of these counters and those of other lines. None of them overflows.
    pub fn plus(self, more: Counts) -> Counts
        ensures { result ≡ record {
          frames = min (self.frames + more.frames) (2 ^ 64 - 1);
          skipped = min (self.skipped + more.skipped) (2 ^ 64 - 1);
          damaged = min (self.damaged + more.damaged) (2 ^ 64 - 1);
          lost = min (self.lost + more.lost) (2 ^ 64 - 1);
          altered = min (self.altered + more.altered) (2 ^ 64 - 1);
        } }
    {
        Counts {
            frames: self.frames.saturating_add(more.frames),
            skipped: self.skipped.saturating_add(more.skipped),
            damaged: self.damaged.saturating_add(more.damaged),
            lost: self.lost.saturating_add(more.lost),
            altered: self.altered.saturating_add(more.altered),
        }
    }

    /// Returns what was counted after these were.
    pub fn since(self, before: Counts) -> Counts
        ensures { result ≡ counts_since self before }
    {
        Counts {
            frames: self.frames.saturating_sub(before.frames),
            skipped: self.skipped.saturating_sub(before.skipped),
            damaged: self.damaged.saturating_sub(before.damaged),
            lost: self.lost.saturating_sub(before.lost),
            altered: self.altered.saturating_sub(before.altered),
        }
    }
}
