//! One direction of a bridge, with a delay.
ghost use Rattle.std.specs.Prelude.{◌≡◌, ◌↔◌, ◌+◌, ◌<◌, ◌≤◌, ◌^◌, ◌++◌, [], List, ℕ};
ghost use Rattle.std.specs.Prelude.{IfSome, IsTrue, length, take};
ghost use Rattle.rand_pcg.specs.Lcg.{Lcg};
ghost use Rattle.ddcmp_bridge.specs.Delaying.{Directs, HoldsOneMore, after_taking};
ghost use Rattle.ddcmp_bridge.specs.Delaying.{bytes_of, due_at, first_length, limit_of, next_due};
ghost use Rattle.ddcmp_bridge.specs.Faults.{start_of};
ghost use Rattle.ddcmp_bridge.specs.Relaying.{counts_of, fate_given, fates_in, relayed};

use crate::counts::Counts;
use crate::delay_line::DelayLine;
use crate::faults::Faults;
use crate::relay::{Relay, RelayStep};
use std::alloc::Global;
use std::marker::Model;

/// The maximum number of delayed frames.
const MOST_HELD: usize = 256;

/// Passes the good frames of one line to the other, each delayed. It doesn't allocate after it is
/// made.
///
/// Pass received bytes to `push` while it has room, and pass again those that it didn't take. Write
/// what is `waiting` to the other line, and report by `took` how much was written. Call again at
/// `wakes_at`. Moments are in milliseconds, and never decrease.
pub struct Direction {
    relay: Relay,
    delay_ms: u32,
    line: DelayLine,
}

// Manual, since a derived `Drop` would be expanded wherever a value is dropped.
impl Drop for Direction {
    fn drop(self) {
        let Direction {
            relay: _relay,
            delay_ms: _,
            line: _line,
        } = self;
    }
}

impl Model for Direction {
    ghost use Rattle.std.specs.Prelude.{◌≡◌, []};
    ghost use Rattle.ddcmp_bridge.specs.Delaying.{DirectionView};

    ghost Value = { DirectionView };

    ghost view = { λ d. record {
      relay = d.relay;
      delay = d.delay_ms;
      held = d.line.held;
      limit = d.line.limit;
    } };

    ghost invariant = { λ d. d.relay.waiting ≡ [] };
}

impl Direction {
    /// Makes a direction without bytes; returns none if an allocation failed. `number` (0 or 1)
    /// selects the random generator of its faults.
    pub fn new(alloc: Global, faults: Faults, delay_ms: u32, number: u64) -> Option<Direction>
        ensures directs { IfSome result (λ made.
            Directs (start_of faults.seed number) made [] []) }
        ensures faults { IfSome result (λ made. made.relay.faults ≡ faults) }
        ensures delay { IfSome result (λ made. made.delay ≡ delay_ms) }
        ensures held { IfSome result (λ made. made.held ≡ []) }
        ensures limit { IfSome result (λ made. made.limit ≡ limit_of delay_ms) }
    {
        let limit = match delay_ms == 0 {
            true => 1,
            false => MOST_HELD,
        };
        let Some(relay) = Relay::new(alloc, faults, number) else {
            return None;
        };
        let Some(line) = DelayLine::new(alloc, limit) else {
            return None;
        };
        Some(Direction {
            relay,
            delay_ms,
            line,
        })
    }

    /// Drops all bytes and frames, and counts from 0 again. The faults go on as if nothing was
    /// dropped.
    pub fn restart(&mut self)
        ensures directs { Directs self.old.relay.draws self.new [] [] }
        ensures faults { self.new.relay.faults ≡ self.old.relay.faults }
        ensures delay { self.new.delay ≡ self.old.delay }
        ensures held { self.new.held ≡ [] }
        ensures limit { self.new.limit ≡ self.old.limit }
    {
        self.relay.restart();
        self.line.clear();
    }

    /// Returns how many more bytes may be received.
    pub fn countable(&self) -> u64
        ensures { result + self.now.relay.frames.offset + 1 ≡ 2 ^ 64 }
    {
        self.relay.countable()
    }

    /// Returns whether one more frame fits.
    pub fn has_room(&self) -> bool
        ensures { IsTrue result ↔ (length self.now.held < self.now.limit) }
    {
        self.line.has_room()
    }

    /// Takes bytes received now, up to the first that completes a frame or shows that one is
    /// damaged. What its fate leaves of a good frame is then held until it is due.
    pub fn push(&mut self, now: u64, bytes: &[u8]) -> RelayStep
        requires room { length self.old.held < self.old.limit }
        requires bytes { 0 < length bytes.now }
        requires countable { self.old.relay.frames.offset + length bytes.now < 2 ^ 64 }
        ensures used { result.used ≤ length bytes.now }
        ensures some { 0 < result.used }
        ensures offset { self.new.relay.frames.offset
            ≡ self.old.relay.frames.offset + result.used }
        ensures directs { (start : Lcg) (came taken : List ℕ) → Directs start self.old came taken
            → Directs start self.new (came ++ take result.used bytes.now) taken }
        ensures fate { (start : Lcg) (came taken : List ℕ) → Directs start self.old came taken
            → fates_in self.old.relay.faults start (came ++ take result.used bytes.now)
            ≡ fates_in self.old.relay.faults start came ++ fate_given result.fate }
        ensures one { HoldsOneMore now self.old self.new }
        ensures faults { self.new.relay.faults ≡ self.old.relay.faults }
        ensures delay { self.new.delay ≡ self.old.delay }
        ensures limit { self.new.limit ≡ self.old.limit }
    {
        let taken = self.relay.push(bytes);
        let frame = self.relay.waiting();
        let length = frame.len();
        if length == 0 {
            return taken;
        }
        let due = now.saturating_add(u64::from(self.delay_ms));
        self.line.push(due, frame);
        self.relay.took(length);
        taken
    }

    /// Returns the bytes that may be taken now: those left of the first frame, if it is due.
    pub fn waiting(&self, now: u64) -> &[u8]
        ensures value { result.now ≡ due_at now self.now.held }
        ensures most { length result.now ≤ first_length self.now.held }
        // Without faults, it passes on the good frames that were received.
        ensures faultless { (start : Lcg) (came taken : List ℕ) → Directs start self.now came taken
            → self.now.relay.faults.lose ≡ 0 → self.now.relay.faults.damage ≡ 0
            → relayed came ≡ taken ++ bytes_of self.now.held }
    {
        self.line.waiting(now)
    }

    /// Returns the moment at which the first frame is due; none if nothing is held.
    pub fn wakes_at(&self) -> Option<u64>
        ensures due { result ≡ next_due self.now.held }
        // Nothing is left in the relay.
        ensures idle { self.now.relay.waiting ≡ [] }
    {
        self.line.wakes_at()
    }

    /// Removes the first `n` waiting bytes, which the other line took.
    pub fn took(&mut self, n: usize)
        requires { n ≤ first_length self.old.held }
        ensures directs { (start : Lcg) (came taken : List ℕ) → Directs start self.old came taken
            → Directs start self.new came (taken ++ take n (bytes_of self.old.held)) }
        ensures relay { self.new.relay ≡ self.old.relay }
        ensures delay { self.new.delay ≡ self.old.delay }
        ensures held { self.new.held ≡ after_taking n self.old.held }
        ensures limit { self.new.limit ≡ self.old.limit }
    {
        self.line.took(n);
    }

    /// Returns the counters.
    pub fn counts(&self) -> Counts
        ensures counts { (start : Lcg) (came taken : List ℕ) → Directs start self.now came taken
            → result ≡ counts_of self.now.relay.faults start came }
        // Every byte that was received is in a good frame or was skipped.
        ensures all { (start : Lcg) (came taken : List ℕ) → Directs start self.now came taken
            → length (relayed came) + result.skipped ≡ length came }
    {
        self.relay.counts()
    }
}
