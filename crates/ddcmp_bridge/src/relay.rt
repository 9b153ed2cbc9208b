//! One direction of a bridge.
ghost use Rattle.std.specs.Prelude.{◌≡◌, ◌⊎◌, ◌+◌, ◌<◌, ◌≤◌, ◌^◌, ◌++◌, [], List, ℕ, IfSome};
ghost use Rattle.std.specs.Prelude.{Some, drop, length, take};
ghost use Rattle.ddcmp_frame.specs.Reader.{LentBeside};
ghost use Rattle.ddcmp_frame.specs.Reading.{good_frame_of};
ghost use Rattle.ddcmp_frame.specs.Wire.{IsFrame};
ghost use Rattle.rand_pcg.specs.Lcg.{Lcg};
ghost use Rattle.ddcmp_bridge.specs.Faults.{alters, loses, start_of};
ghost use Rattle.ddcmp_bridge.specs.Relaying.{IsOfOneFrame, Relays, counts_of, frame_given};
ghost use Rattle.ddcmp_bridge.specs.Relaying.{fate_given, fates_in, relayed};

use crate::counts::Counts;
use crate::faults::{Fate, Faults, apply_fault, draw_fate, start_draws};
use ddcmp_frame::{Header, Item, MAX_COUNT, Pushed, Reader, write_frame};
use rand_pcg::Pcg32;
use std::alloc::Global;
use std::marker::Model;

/// The maximum size of a frame in bytes.
pub(crate) const FRAME: usize = MAX_COUNT as usize + 10;

/// Returns the header of a good frame.
fn good_header(item: &Item) -> Option<Header>
    ensures frame { (lent : List ℕ) → good_frame_of (item.now, lent) ≡ frame_given result lent }
    ensures beside { (lent : List ℕ) → LentBeside (Some item.now) lent
        → IfSome result (λ header. IsFrame header lent) }
{
    match item {
        Item::Good(_, header) => Some(*header),
        Item::HeaderCheck(_) | Item::DataCheck(_, _) | Item::TooLong(_, _) | Item::Format(_, _) =>
            None,
    }
}

/// Returns how many frames of this fate are lost: 1 or 0.
fn is_lost(fate: &Fate) -> u64
    ensures value { result ≡ loses fate.now }
    ensures most { result ≤ 1 }
{
    match fate {
        Fate::Lost => 1,
        Fate::Passed | Fate::Altered { .. } => 0,
    }
}

/// Returns how many frames of this fate are altered: 1 or 0.
fn is_altered(fate: &Fate) -> u64
    ensures value { result ≡ alters fate.now }
    ensures most { result ≤ 1 }
{
    match fate {
        Fate::Altered { .. } => 1,
        Fate::Passed | Fate::Lost => 0,
    }
}

/// What a relay did with received bytes.
#[derive(Clone, Copy)]
pub struct RelayStep {
    /// How many it took.
    pub used: usize,
    /// The fate of the good frame that they complete; none if they complete none.
    pub fate: Option<Fate>,
}

/// Passes the good frames of one line to the other. It takes frames of any length, and doesn't
/// allocate after it is made.
///
/// Pass received bytes to `push` while nothing is waiting, and pass again those that it didn't
/// take. Write what is `waiting` to the other line, and report by `took` how much was written.
pub struct Relay {
    frames: Reader,
    /// The last good frame, and the range of it that is waiting.
    frame: Vec<u8>,
    from: usize,
    end: usize,
    good: u64,
    /// How many bytes the good frames have. It can't overflow.
    bytes: u128,
    items: u64,
    faults: Faults,
    draws: Pcg32,
    lost: u64,
    altered: u64,
}

// Manual, since a derived `Drop` would be expanded wherever a value is dropped.
impl Drop for Relay {
    fn drop(self) {
        let Relay {
            frames: _frames,
            frame: _frame,
            from: _,
            end: _,
            good: _,
            bytes: _,
            items: _,
            faults: _,
            draws: _draws,
            lost: _,
            altered: _,
        } = self;
    }
}

impl Model for Relay {
    ghost use Rattle.std.specs.Prelude.{◌≡◌, ◌≤◌, ◌*◌, drop, take, vec_len};
    ghost use Rattle.ddcmp_frame.specs.Limits.{MAX_COUNT};
    ghost use Rattle.ddcmp_bridge.specs.Relaying.{RelayView};
    ghost use Rattle.ddcmp_bridge.specs.declared.relay.TheConstants.{FRAME};

    ghost Value = { RelayView };

    ghost view = { λ r. record {
      frames = r.frames;
      waiting = drop r.from (take r.end r.frame.items);
      good = r.good;
      bytes = r.bytes;
      items = r.items;
      faults = r.faults;
      draws = r.draws;
      lost = r.lost;
      altered = r.altered;
    } };

    ghost invariant = { λ r. (r.frames.max ≡ MAX_COUNT) × (vec_len r.frame ≡ FRAME)
        × (r.from ≤ r.end) × (r.end ≤ FRAME) × (r.good ≤ r.items)
        × (r.items ≤ r.frames.offset) × (r.bytes ≤ FRAME * r.items)
        × (r.lost ≤ r.good) × (r.altered ≤ r.good) };
}

impl Relay {
    /// Makes a relay without bytes; returns none if an allocation failed. `direction` (0 or 1)
    /// selects the random generator of its faults.
    pub fn new(alloc: Global, faults: Faults, direction: u64) -> Option<Relay>
        ensures relays { IfSome result (λ made.
            Relays (start_of faults.seed direction) made [] []) }
        ensures faults { IfSome result (λ made. made.faults ≡ faults) }
        ensures idle { IfSome result (λ made. made.waiting ≡ []) }
    {
        let Ok(frames) = Reader::new(alloc, MAX_COUNT) else {
            return None;
        };
        let Ok(frame) = vec![in alloc; 0; FRAME] else {
            return None;
        };
        Some(Relay {
            frames,
            frame,
            from: 0,
            end: 0,
            good: 0,
            bytes: 0,
            items: 0,
            faults,
            draws: start_draws(faults.seed, direction),
            lost: 0,
            altered: 0,
        })
    }

    /// Drops all bytes, and counts from 0 again. The faults go on as if no bytes were dropped.
    pub fn restart(&mut self)
        ensures relays { Relays self.old.draws self.new [] [] }
        ensures faults { self.new.faults ≡ self.old.faults }
        ensures idle { self.new.waiting ≡ [] }
    {
        self.frames.reset();
        self.from = 0;
        self.end = 0;
        self.good = 0;
        self.bytes = 0;
        self.items = 0;
        self.lost = 0;
        self.altered = 0;
    }

    /// Returns how many more bytes may be received.
    pub fn countable(&self) -> u64
        ensures { result + self.now.frames.offset + 1 ≡ 2 ^ 64 }
    {
        u64::MAX - self.frames.offset()
    }

    /// Takes received bytes, up to the first that completes a frame or shows that one is damaged.
    /// What its fate leaves of a good frame is then waiting.
    pub fn push(&mut self, bytes: &[u8]) -> RelayStep
        requires idle { self.old.waiting ≡ [] }
        requires bytes { 0 < length bytes.now }
        requires countable { self.old.frames.offset + length bytes.now < 2 ^ 64 }
        ensures used { result.used ≤ length bytes.now }
        ensures some { 0 < result.used }
        ensures offset { self.new.frames.offset ≡ self.old.frames.offset + result.used }
        ensures relays { (start : Lcg) (came taken : List ℕ) → Relays start self.old came taken
            → Relays start self.new (came ++ take result.used bytes.now) taken }
        ensures fate { (start : Lcg) (came taken : List ℕ) → Relays start self.old came taken
            → fates_in self.old.faults start (came ++ take result.used bytes.now)
            ≡ fates_in self.old.faults start came ++ fate_given result.fate }
        ensures faults { self.new.faults ≡ self.old.faults }
        ensures one { (self.new.waiting ≡ []) ⊎ IsOfOneFrame self.new.waiting }
    {
        let Pushed { used, item } = self.frames.push_all(bytes);
        let Some(item) = item else {
            return RelayStep { used, fate: None };
        };
        self.items += 1;
        let Some(header) = good_header(&item) else {
            return RelayStep { used, fate: None };
        };
        let length = write_frame(&header, self.frames.data(), self.frame.as_mut_slice());
        let fate = draw_fate(&self.faults, &mut self.draws, length);
        self.from = 0;
        self.end = apply_fault(self.frame.as_mut_slice(), length, fate);
        self.good += 1;
        self.bytes += length as u128;
        self.lost += is_lost(&fate);
        self.altered += is_altered(&fate);
        RelayStep {
            used,
            fate: Some(fate),
        }
    }

    /// Returns what is left of the frame that is passed on.
    pub fn waiting(&self) -> &[u8]
        ensures value { result.now ≡ self.now.waiting }
        ensures most { length result.now ≤ FRAME }
        // Without faults, it passes on the good frames that were received.
        ensures faultless { (start : Lcg) (came taken : List ℕ) → Relays start self.now came taken
            → self.now.faults.lose ≡ 0 → self.now.faults.damage ≡ 0
            → relayed came ≡ taken ++ self.now.waiting }
    {
        &self.frame[self.from..self.end]
    }

    /// Removes the first `n` waiting bytes, which the other line took.
    pub fn took(&mut self, n: usize)
        requires { n ≤ length self.old.waiting }
        ensures relays { (start : Lcg) (came taken : List ℕ) → Relays start self.old came taken
            → Relays start self.new came (taken ++ take n self.old.waiting) }
        ensures faults { self.new.faults ≡ self.old.faults }
        ensures waiting { self.new.waiting ≡ drop n self.old.waiting }
        ensures offset { self.new.frames.offset ≡ self.old.frames.offset }
    {
        self.from += n;
    }

    /// Returns the counters.
    pub fn counts(&self) -> Counts
        ensures counts { (start : Lcg) (came taken : List ℕ) → Relays start self.now came taken
            → result ≡ counts_of self.now.faults start came }
        // Every byte that was received is in a good frame or was skipped.
        ensures all { (start : Lcg) (came taken : List ℕ) → Relays start self.now came taken
            → length (relayed came) + result.skipped ≡ length came }
    {
        let offset = self.frames.offset();
        Counts {
            frames: self.good,
            skipped: u128::from(offset).saturating_sub(self.bytes) as u64,
            damaged: self.items - self.good,
            lost: self.lost,
            altered: self.altered,
        }
    }
}
