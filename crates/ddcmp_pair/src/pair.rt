//! Two stations on a line.
use crate::ends::Ends;
use crate::side::Side;
use crate::watch::Watch;
use crate::{End, Event, Reply};
use ddcmp_proto::{Config, ConfigRefusal, Memory, Station};
use std::alloc::Global;
use std::marker::Model;

/// The reason why no pair was made.
#[derive(Clone, Copy, Debug, PartialEq, Eq)]
pub enum PairRefusal {
    /// The refusal of the station at A.
    First(ConfigRefusal),
    /// The refusal of the station at B.
    Second(ConfigRefusal),
}

/// Two stations, and the history of each end since the line was cleared.
pub struct Pair {
    ends: Ends,
}

// Manual, since a derived `Drop` is expanded wherever a pair is dropped.
impl Drop for Pair {
    fn drop(self) {
        let Pair { ends: _ends } = self;
    }
}

impl Model for Pair {
    ghost use Rattle.std.specs.Prelude.{Bool};
    ghost use Rattle.ddcmp_pair.specs.Run.{PairState};
    ghost use Rattle.ddcmp_pair.specs.Pairs.{IsRunBy};

    ghost Value = { PairState };

    ghost view = { λ p. p.ends };

    // Everything that holds for honest and clean runs follows from this alone.
    ghost invariant = { λ p. (by_user : Bool) × IsRunBy by_user p.ends };
}

impl Pair {
    ghost use Rattle.std.specs.Prelude.{◌≡◌, ◌⊎◌, ◌<◌, ◌≤◌, true, false, [], ◌∷◌, length};
    ghost use Rattle.std.specs.Prelude.{slice_index_or, max, Some, None, Err, IsOk, IfOk, OnErr};
    ghost use Rattle.ddcmp_frame.specs.Reader.{StandsFor};
    ghost use Rattle.ddcmp_core.specs.Store.{with_front};
    ghost use Rattle.ddcmp_proto.specs.Config.{first_refusal, config_of};
    ghost use Rattle.ddcmp_io.specs.declared.carrier.End.{End as EndValue};
    ghost use Rattle.ddcmp_pair.specs.Run.{new_pair, after_event, reply_to, asks_memory, at};
    ghost use Rattle.ddcmp_pair.specs.Run.{handed_up, is_clean};
    ghost use Rattle.ddcmp_pair.specs.InOrder.{IsInOrder, NoRestart};
    ghost use Rattle.ddcmp_pair.specs.Choices.{IsAcknowledgedTaken};
    ghost use Rattle.ddcmp_pair.specs.Pairs.{new_pair_by, IsRun, IsRunBy};
    ghost use Rattle.ddcmp_pair.specs.Steps.{Reports};

    /// Makes two stations on an empty line.
    pub fn new(alloc: Global, first: Config, second: Config) -> Result<Pair, PairRefusal>
        ensures made { IfOk result (λ pair. pair ≡ new_pair first second) }

        // If a size is out of range, the first such is the refusal; otherwise it can only be an
        // allocation failure.
        ensures first { (refusal : ConfigRefusal) → first_refusal first ≡ Some refusal → result
            ≡ Err (PairRefusal.First refusal) }
        ensures second { (refusal : ConfigRefusal) → first_refusal first ≡ None
            → first_refusal second ≡ Some refusal
            → (result ≡ Err (PairRefusal.Second refusal))
            ⊎ (result ≡ Err (PairRefusal.First ConfigRefusal.Memory)) }
        ensures only { first_refusal first ≡ None → first_refusal second ≡ None → IsOk result
            ⊎ ((result ≡ Err (PairRefusal.First ConfigRefusal.Memory))
            ⊎ (result ≡ Err (PairRefusal.Second ConfigRefusal.Memory))) }
    {
        Pair::new_with(alloc, first, second, false)
    }

    /// Makes two stations on an empty line, which acknowledge messages when they are taken if
    /// `by_user` is set.
    pub fn new_with(
        alloc: Global,
        first: Config,
        second: Config,
        by_user: bool,
    ) -> Result<Pair, PairRefusal>
        ensures made { IfOk result (λ pair. pair ≡ new_pair_by by_user first second) }

        // The refusals are those of `new`.
        ensures first { (refusal : ConfigRefusal) → first_refusal first ≡ Some refusal → result
            ≡ Err (PairRefusal.First refusal) }
        ensures second { (refusal : ConfigRefusal) → first_refusal first ≡ None
            → first_refusal second ≡ Some refusal
            → (result ≡ Err (PairRefusal.Second refusal))
            ⊎ (result ≡ Err (PairRefusal.First ConfigRefusal.Memory)) }
        ensures only { first_refusal first ≡ None → first_refusal second ≡ None → IsOk result
            ⊎ ((result ≡ Err (PairRefusal.First ConfigRefusal.Memory))
            ⊎ (result ≡ Err (PairRefusal.Second ConfigRefusal.Memory))) }
    {
        let a = match Side::new(alloc, first, by_user) {
            Ok(side) => side,
            Err(refusal) => return Err(PairRefusal::First(refusal)),
        };
        let b = match Side::new(alloc, second, by_user) {
            Ok(side) => side,
            Err(refusal) => return Err(PairRefusal::Second(refusal)),
        };
        Ok(Pair {
            ends: Ends { a, b },
        })
    }

    /// Applies an event and returns its reply.
    pub fn step(&mut self, event: Event) -> Result<Reply, Memory>
        ensures state { IsOk result → self.new ≡ after_event event self.old }
        ensures reply { IfOk result (λ reply. reply ≡ reply_to event self.old) }
        // An allocation failure changes nothing, and happens only for an event that allocates.
        ensures memory { OnErr result (self.new ≡ self.old) }
        ensures asks { asks_memory event self.old ≡ false → IsOk result }
        // Messages are delivered in order, once, unchanged, or not at all; and if the pair was
        // clean before an honest arrival, no end reports that its peer restarted.
        ensures order { IsInOrder self.new }
        ensures no_restart { is_clean self.old ≡ true → self.new.honest ≡ true
            → IfOk result NoRestart }
        ensures limits { (end : EndValue) → (at end self.new).core.limits
            ≡ (at end self.old).core.limits }
    {
        self.apply(&event)
    }

    /// The same as `step`, reported to a watch.
    pub fn step_watched<W: Watch>(&mut self, watch: &mut W, event: Event) -> Result<Reply, Memory>
        ensures state { IsOk result → self.new ≡ after_event event self.old }
        ensures reply { IfOk result (λ reply. reply ≡ reply_to event self.old) }
        ensures memory { OnErr result (self.new ≡ self.old) }
        ensures asks { asks_memory event self.old ≡ false → IsOk result }
        ensures order { IsInOrder self.new }
        ensures no_restart { is_clean self.old ≡ true → self.new.honest ≡ true
            → IfOk result NoRestart }
        ensures limits { (end : EndValue) → (at end self.new).core.limits
            ≡ (at end self.old).core.limits }
        // Exactly the event that was done is reported.
        ensures seen { IsOk result
            → Reports (W.seen watch.old) (W.seen watch.new) (event ∷ []) self.old }
        ensures unseen { OnErr result (watch.new ≡ watch.old) }
    {
        let reply = self.apply(&event)?;
        watch.on_step(self, &event, &reply);
        Ok(reply)
    }

    /// The same for an event that is kept.
    pub(crate) fn apply(&mut self, event: &Event) -> Result<Reply, Memory>
        ensures state { IsOk result → self.new ≡ after_event event.now self.old }
        ensures reply { IfOk result (λ reply. reply ≡ reply_to event.now self.old) }
        // An allocation failure changes nothing, and happens only for an event that allocates.
        ensures memory { OnErr result (self.new ≡ self.old) }
        ensures asks { asks_memory event.now self.old ≡ false → IsOk result }
        ensures order { IsInOrder self.new }
        ensures no_restart { is_clean self.old ≡ true → self.new.honest ≡ true
            → IfOk result NoRestart }
        ensures limits { (end : EndValue) → (at end self.new).core.limits
            ≡ (at end self.old).core.limits }
    {
        self.ends.apply(event)
    }

    /// A pair results from two new stations by a list of events, so that its messages are in order.
    /// Both stations acknowledge messages at the time that was chosen when the pair was made.
    pub fn is_run(&self)
        ensures run { IsRunBy self.now.a.core.station.by_user self.now }
        ensures mode { self.now.b.core.station.by_user ≡ self.now.a.core.station.by_user }
        ensures early { self.now.a.core.station.by_user ≡ false → IsRun self.now }
        ensures order { IsInOrder self.now }
        ensures taken { self.now.honest ≡ true → is_clean self.now ≡ true
            → IsAcknowledgedTaken self.now.a self.now.b
            × IsAcknowledgedTaken self.now.b self.now.a }
    {
        let _ends = &self.ends;
    }

    /// Returns the number of messages that an end accepted.
    pub fn given(&self, end: End) -> usize
        ensures { result ≡ length (at end self.now).given }
    {
        self.ends.side(end).given()
    }

    /// Returns message `i` of those that an end accepted, counted from 0.
    pub fn given_at(&self, end: End, i: usize) -> &[u8]
        requires { i < length (at end self.now).given }
        ensures { result.now ≡ slice_index_or (at end self.now).given i [] }
    {
        self.ends.side(end).given_at(i)
    }

    /// Returns the number of messages delivered at an end: those taken, and those in the inbox.
    pub fn handed_up(&self, end: End) -> usize
        ensures { result ≡ length (handed_up (at end self.now)) }
    {
        self.ends.side(end).handed_up()
    }

    /// Copies message `i` of those delivered at an end, counted from 0, to the front of `out` and
    /// returns its length.
    pub fn handed_up_at(&self, end: End, i: usize, out: &mut [u8]) -> usize
        requires there { i < length (handed_up (at end self.now)) }
        requires longest { (at end self.now).core.limits.longest ≤ length out.old }
        ensures length { result ≡ length (slice_index_or (handed_up (at end self.now)) i []) }
        ensures out { out.new
            ≡ with_front (Some (slice_index_or (handed_up (at end self.now)) i [])) out.old }
    {
        self.ends.side(end).handed_up_at(i, out)
    }

    /// Returns how many messages an end reported acknowledged.
    pub fn acknowledged(&self, end: End) -> u64
        ensures { result ≡ (at end self.now).acknowledged }
    {
        self.ends.side(end).acknowledged()
    }

    /// Returns the station at an end.
    pub fn station(&self, end: End) -> &Station
        ensures core { result.now.core ≡ (at end self.now).core }
        ensures syn { result.now.syn ≡ (at end self.now).syn }
        ensures line { StandsFor result.now.line (at end self.now).arrived }
    {
        self.ends.side(end).station()
    }

    /// Returns the sizes of the station at an end.
    pub fn config(&self, end: End) -> Config
        ensures { result ≡ config_of (at end self.now).core.limits (at end self.now).syn }
    {
        self.station(end).config()
    }

    /// Returns whether all good frames that arrived at an end were sent by the other before, in
    /// this order and none twice.
    pub fn honest(&self) -> bool
        ensures { result ≡ self.now.honest }
    {
        self.ends.honest()
    }

    /// Returns whether neither end started twice.
    pub fn clean(&self) -> bool
        ensures { result ≡ is_clean self.now }
    {
        self.ends.clean()
    }

    /// Returns the larger window.
    pub(crate) fn window(&self) -> u16
        ensures { result ≡ max self.now.a.core.limits.window self.now.b.core.limits.window }
    {
        let window = self.config(End::A).window;
        window.max(self.config(End::B).window)
    }
}
