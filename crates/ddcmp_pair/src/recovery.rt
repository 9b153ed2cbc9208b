//! Recovery of a line that may have lost frames: it settles, and then twice both timers expire and
//! it settles again.
ghost use Rattle.std.specs.Prelude.{◌≡◌, ◌↔◌, IsTrue};

use crate::pair::Pair;
use crate::settlement::Settled;
use crate::watch::{Unwatched, Watch};
use crate::{End, Event};
use ddcmp_core::MAX_COUNT;
use ddcmp_proto::{Memory, State};

/// Returns whether two messages have the same bytes.
fn is_same(message: &[u8], other: &[u8]) -> bool
    ensures { IsTrue result ↔ (message.now ≡ other.now) }
{
    message == other
}

/// The result of a recovery.
#[derive(Clone, Copy, PartialEq, Eq)]
pub struct Recovered {
    /// How many exchanges were counted in each of its settles.
    pub exchanges: [u32; 3],
    /// Whether neither end had anything more to send after each of them.
    pub quiet: bool,
}

impl Recovered {
    ghost use Rattle.std.specs.Prelude.{◌≡◌, ◌&&◌, [], ◌∷◌};

    /// Makes that of three settles, one after another.
    fn of(first: Settled, second: Settled, third: Settled) -> Recovered
        ensures exchanges { result.exchanges
            ≡ first.exchanges ∷ second.exchanges ∷ third.exchanges ∷ [] }
        ensures quiet { result.quiet ≡ (first.quiet && (second.quiet && third.quiet)) }
    {
        Recovered {
            exchanges: [first.exchanges, second.exchanges, third.exchanges],
            quiet: first.quiet && second.quiet && third.quiet,
        }
    }
}

impl Pair {
    ghost use Rattle.std.specs.Prelude.{◌≡◌, ◌+◌, ◌*◌, ◌≤◌, true, IsOk, IfOk, OnErr};
    ghost use Rattle.std.specs.List.{All};
    ghost use Rattle.ddcmp_io.specs.declared.carrier.End.{End as EndValue};
    ghost use Rattle.ddcmp_pair.specs.Run.{at};
    ghost use Rattle.ddcmp_pair.specs.InOrder.{IsInOrder};
    ghost use Rattle.ddcmp_pair.specs.Settle.{WantsMemory, most_exchanges};
    ghost use Rattle.ddcmp_pair.specs.Recovery.{rounding, rounded, recovering, recovered, is_ready};
    ghost use Rattle.ddcmp_pair.specs.Recovery.{larger_window, IsDone, IsRepaired};
    ghost use Rattle.ddcmp_pair.specs.Steps.{Reports};

    /// Lets both timers expire, if they are on, and then settles.
    pub fn round(&mut self) -> Result<Settled, Memory>
        ensures state { IsOk result → self.new ≡ rounded self.old }
        ensures exchanges { IfOk result (λ s. s.exchanges ≡ (rounding self.old).exchanges) }
        ensures quiet { IfOk result (λ s. s.quiet ≡ (rounding self.old).quiet) }
        // On an allocation failure some of its events were done, each of them whole, and the next
        // one allocates.
        ensures memory { OnErr result (WantsMemory (rounding self.old).events self.old self.new) }
        ensures limits { (end : EndValue) → (at end self.new).core.limits
            ≡ (at end self.old).core.limits }
        ensures order { IsInOrder self.new }
    {
        self.round_watched(&mut Unwatched)
    }

    /// The same as `round`, reported to a watch.
    pub fn round_watched<W: Watch>(&mut self, watch: &mut W) -> Result<Settled, Memory>
        ensures state { IsOk result → self.new ≡ rounded self.old }
        ensures exchanges { IfOk result (λ s. s.exchanges ≡ (rounding self.old).exchanges) }
        ensures quiet { IfOk result (λ s. s.quiet ≡ (rounding self.old).quiet) }
        ensures memory { OnErr result (WantsMemory (rounding self.old).events self.old self.new) }
        ensures limits { (end : EndValue) → (at end self.new).core.limits
            ≡ (at end self.old).core.limits }
        ensures order { IsInOrder self.new }
        // Each event of the round is reported, in order, and no other.
        ensures seen { IsOk result
            → Reports (W.seen watch.old) (W.seen watch.new) (rounding self.old).events self.old }
    {
        let _first = self.step_watched(watch, Event::Expire(End::A))?;
        let _second = self.step_watched(watch, Event::Expire(End::B))?;
        self.settle_watched(watch)
    }

    /// Does a settle and two rounds. Bytes in flight before are lost.
    pub fn recover(&mut self) -> Result<Recovered, Memory>
        ensures state { IsOk result → self.new ≡ recovered self.old }
        ensures exchanges { IfOk result (λ r. r.exchanges ≡ (recovering self.old).exchanges) }
        ensures quiet { IfOk result (λ r. r.quiet ≡ (recovering self.old).quiet) }
        // On an allocation failure some of its events were done, each of them whole, and the next
        // one allocates.
        ensures memory { OnErr result
            (WantsMemory (recovering self.old).events self.old self.new) }
        ensures limits { (end : EndValue) → (at end self.new).core.limits
            ≡ (at end self.old).core.limits }
        ensures order { IsInOrder self.new }

        // If the pair was ready it is repaired: the line is quiet after each settle, which counts
        // at most this many exchanges by the larger window, and in the end nothing is left to do.
        ensures repaired { is_ready self.old ≡ true → IfOk result (λ r. r.quiet ≡ true) }
        ensures within { is_ready self.old ≡ true
            → IfOk result (λ r. All (λ n. n ≤ most_exchanges self.old) r.exchanges) }
        ensures fewer { is_ready self.old ≡ true
            → IfOk result (λ r. All (λ n. n ≤ 12 * larger_window self.old + 12) r.exchanges) }
        ensures done { is_ready self.old ≡ true → IsOk result → IsDone self.new }
    {
        self.recover_watched(&mut Unwatched)
    }

    /// The same as `recover`, reported to a watch.
    pub fn recover_watched<W: Watch>(&mut self, watch: &mut W) -> Result<Recovered, Memory>
        ensures state { IsOk result → self.new ≡ recovered self.old }
        ensures exchanges { IfOk result (λ r. r.exchanges ≡ (recovering self.old).exchanges) }
        ensures quiet { IfOk result (λ r. r.quiet ≡ (recovering self.old).quiet) }
        ensures memory { OnErr result
            (WantsMemory (recovering self.old).events self.old self.new) }
        ensures limits { (end : EndValue) → (at end self.new).core.limits
            ≡ (at end self.old).core.limits }
        ensures order { IsInOrder self.new }
        ensures repaired { is_ready self.old ≡ true → IfOk result (λ r. r.quiet ≡ true) }
        ensures within { is_ready self.old ≡ true
            → IfOk result (λ r. All (λ n. n ≤ most_exchanges self.old) r.exchanges) }
        ensures fewer { is_ready self.old ≡ true
            → IfOk result (λ r. All (λ n. n ≤ 12 * larger_window self.old + 12) r.exchanges) }
        ensures done { is_ready self.old ≡ true → IsOk result → IsDone self.new }
        // Each event of the recovery is reported, in order, and no other.
        ensures seen { IsOk result
            → Reports (W.seen watch.old) (W.seen watch.new) (recovering self.old).events self.old }
    {
        self.is_repaired();
        let first = self.settle_watched(watch)?;
        let second = self.round_watched(watch)?;
        let third = self.round_watched(watch)?;
        Ok(Recovered::of(first, second, third))
    }

    /// States that a recovery repairs every pair that is ready. Does nothing.
    pub fn is_repaired(&self)
        ensures { is_ready self.now ≡ true → IsRepaired self.now }
    {
        self.is_run();
        self.station(End::A).holds();
        self.station(End::B).holds();
    }
}

impl Pair {
    ghost use Rattle.std.specs.Prelude.{◌≡◌, ◌↔◌, ◌≤◌, ◌<◌, [], length, slice_index_or, IsTrue};
    ghost use Rattle.ddcmp_io.specs.Ends.{other};
    ghost use Rattle.ddcmp_pair.specs.Run.{at, handed_up};
    ghost use Rattle.ddcmp_pair.specs.Recovery.{is_ready, is_ready_here, is_done, IsDelivered};
    ghost use Rattle.ddcmp_pair.specs.Recovery.{IsDone};

    /// Returns whether the run was honest and clean, neither end is halted, no frame is unfinished,
    /// and both ends have one `max`: then a recovery repairs the line.
    pub fn ready(&self) -> bool
        ensures { result ≡ is_ready self.now }
    {
        self.honest()
            && self.clean()
            && self.is_ready_at(End::A)
            && self.is_ready_at(End::B)
            && self.config(End::A).max == self.config(End::B).max
    }

    fn is_ready_at(&self, end: End) -> bool
        ensures { result ≡ is_ready_here (at end self.now) }
    {
        let station = self.station(end);
        station.state() != State::Halted && station.open() == 0
    }

    /// Returns whether both ends run, and all that each accepted was delivered at the other and
    /// reported acknowledged.
    pub fn done(&self) -> bool
        ensures meaning { IsTrue result ↔ IsDone self.now }
        ensures answer { result ≡ is_done self.now }
    {
        self.is_delivered(End::A) && self.is_delivered(End::B)
    }

    fn is_delivered(&self, from: End) -> bool
        ensures { IsTrue result ↔ IsDelivered (at from self.now) (at (other from) self.now) }
    {
        self.station(from).state() == State::Running
            && self.acknowledged(from) == self.given(from) as u64
            && self.is_handed_up(from)
    }

    /// Returns whether all that an end accepted was delivered at the other.
    fn is_handed_up(&self, from: End) -> bool
        ensures { IsTrue result ↔ ((at from self.now).given
            ≡ handed_up (at (other from) self.now)) }
    {
        let to = from.other();
        if self.handed_up(to) != self.given(from) {
            return false;
        }
        self.is_run();
        if self.clean() && self.honest() {
            return true;
        }
        self.is_same_as_given(from, to)
    }

    /// Returns whether each message delivered at an end equals the one that the other accepted at
    /// its index.
    fn is_same_as_given(&self, from: End, to: End) -> bool
        requires other { to ≡ other from }
        requires length { length (handed_up (at to self.now)) ≡ length (at from self.now).given }
        ensures { IsTrue result ↔ ((at from self.now).given ≡ handed_up (at to self.now)) }
    {
        let mut out = [0; MAX_COUNT as usize];
        for i in 0..self.given(from) {
            if !self.is_handed_up_at(to, i, self.given_at(from, i), &mut out) {
                return false;
            }
        }
        true
    }

    /// Returns whether message `i` of those delivered at an end, counted from 0, equals this one.
    fn is_handed_up_at(&self, end: End, i: usize, message: &[u8], out: &mut [u8]) -> bool
        requires message { i < length (handed_up (at end self.now)) }
        requires room { MAX_COUNT ≤ length out.old }
        ensures same { IsTrue result ↔ (slice_index_or (handed_up (at end self.now)) i []
            ≡ message.now) }
        ensures room { length out.new ≡ length out.old }
    {
        self.station(end).holds();
        let length = self.handed_up_at(end, i, out);
        is_same(&out[..length], message)
    }
}
