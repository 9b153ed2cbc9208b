//! The pace at which a serial device is written to.
ghost use Rattle.std.specs.Prelude.{◌≡◌, ◌≢◌, ◌≤◌, ◌<◌, ◌+◌, ◌-◌, ◌*◌, ◌^◌, ◌==◌, ℕ, not};
ghost use Rattle.ddcmp_device.specs.Pace.{Gifts, IsPaced, after_given, ahead_at, most_ahead};
ghost use Rattle.ddcmp_device.specs.Pace.{room_at, wait_at};
ghost use Rattle.ddcmp_device.specs.declared.pace.Pace.{Pace as PaceValue};

/// The pace at which a serial device is written to, so that the system holds what a quarter of a
/// second needs at most, and the rest waits where it can be seen. Moments are in milliseconds.
#[derive(Clone, Copy)]
pub struct Pace {
    /// The speed of the line in bits a second, of which a byte needs ten; 0 for no pace.
    baud: u32,
    /// The moment, in microseconds, at which the last byte is due.
    due: u64,
}

impl Pace {
    /// Makes that of a line of this speed; 0 is no pace.
    pub fn new(baud: u32) -> Pace
        ensures made { result ≡ record { baud = baud; due = 0 } }
        ensures paced { (now : ℕ) → IsPaced now result }
    {
        Pace { baud, due: 0 }
    }

    /// Returns whether there is one.
    pub fn is_on(&self) -> bool
        ensures { result ≡ not (self.now.baud == 0) }
    {
        self.baud != 0
    }

    /// Returns for how many microseconds the device has bytes.
    fn ahead(&self, now: u64) -> u64
        ensures ahead { result ≡ ahead_at now self.now }
        ensures fits { self.now.due ≤ 18446744073709551615 }
    {
        self.due.saturating_sub(now.saturating_mul(1000))
    }

    /// Returns how many bytes may be written now.
    pub fn room(&self, now: u64) -> usize
        ensures { result ≡ room_at now self.now }
    {
        if self.baud == 0 {
            return usize::MAX;
        }
        let ahead = self.ahead(now);
        if EIGHTH_US < ahead {
            return 0;
        }
        let bytes = (2 * EIGHTH_US - ahead) * self.baud as u64 / BYTE_BITS_US;
        bytes.max(1) as usize
    }

    /// Returns after how many milliseconds bytes may be written again; 0 if they may now.
    pub fn wait_ms(&self, now: u64) -> u64
        ensures wait { result ≡ wait_at now self.now }
        ensures ends { room_at (now + result) self.now ≢ 0 }
        ensures no_longer { (ms : ℕ) → self.now.baud ≢ 0 → ms < result
            → room_at (now + ms) self.now ≡ 0 }
    {
        self.ahead(now).saturating_sub(EIGHTH_US).div_ceil(1000)
    }

    /// Notes that the device took `n` bytes.
    pub fn given(&mut self, now: u64, n: usize)
        ensures state { self.new ≡ after_given now n self.old }
        ensures paced { IsPaced now self.old → n ≤ room_at now self.old → IsPaced now self.new }
    {
        if self.baud == 0 {
            return;
        }
        let needed = BYTE_BITS_US.saturating_mul(n as u64) / self.baud as u64;
        let begun = self.due.max(now.saturating_mul(1000));
        self.due = begun.saturating_add(needed);
    }
}

/// A device that is given no more than there is room for never has bytes for more than a quarter of
/// a second; or, at less than 80 bits a second, for more than an eighth and one byte. From any
/// moment on it is given no more bytes than it can send in the time that has passed and in that
/// one, but for a microsecond a call; the moments are of the first half million years.
pub fn paces_hold()
    ensures ahead { (now : ℕ) (p : PaceValue) → IsPaced now p
        → ahead_at now p ≤ most_ahead p.baud }
    ensures sent { (since now bytes calls : ℕ) (first p : PaceValue) → IsPaced since first
        → Gifts since first now p bytes calls → 0 < first.baud → first.baud < 2 ^ 32
        → now ≤ 18446744073000000
        → 10000000 * bytes
        ≤ first.baud * (1000 * (now - since) + most_ahead first.baud + calls) }
{}

/// An eighth of a second, in microseconds.
const EIGHTH_US: u64 = 125_000;

/// The ten bits of a byte, times the microseconds of a second.
const BYTE_BITS_US: u64 = 10_000_000;
