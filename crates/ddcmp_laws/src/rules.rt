//! What a link and a driven station do by themselves, stated apart from how they do it.
ghost use Rattle.std.specs.Prelude.{◌≡◌, ◌≢◌, ◌+◌, ◌^◌, ◌<◌, ◌≤◌, ◌↔◌, ◌⊎◌, ℕ, List, [], ◌∷◌, ◌++◌};
ghost use Rattle.std.specs.Prelude.{length, true, false, None, Some, Ok};
ghost use Rattle.ddcmp_core.specs.declared.state.State.TheVariants.{Running};
ghost use Rattle.ddcmp_core.specs.declared.state.Timer.TheVariants.{Off, Fresh, On};
ghost use Rattle.ddcmp_core.specs.Table.{Frame, next, next_frame, after_expire};
ghost use Rattle.ddcmp_station.specs.Driving.{DriveTurn, Driving, before_offer, before_read};
ghost use Rattle.ddcmp_station.specs.Linking.{LinkView, puts_frame, after_frame, takes_message};
ghost use Rattle.ddcmp_station.specs.Linking.{answer_to_offered, after_offered, delivered};
ghost use Rattle.ddcmp_station.specs.Linking.{wakes_at};
ghost use Rattle.ddcmp_station.specs.Linking.{after_wake};
ghost use Rattle.ddcmp_laws.specs.Links.{LinkCall, HasDone};
ghost use Rattle.ddcmp_laws.specs.LinkRules.{AsksForABuffer, PutsFrame, IsNoWake};

/// A link that has a frame to send, and room for one of any length, queues it. Only a NAK 8 (no
/// buffer) is held back, while the inbox is full and no message is unacknowledged. Without a frame
/// or without room it queues none.
pub fn puts_what_it_has()
    ensures puts { (d : LinkView) (f : Frame) → next_frame (next d.station.core.station) ≡ Some f
        → d.station.syn + (d.station.core.limits.longest + 10) ≤ d.outbox.room
        → (length d.station.core.station.inbox < d.station.core.limits.room)
        ⊎ (0 < length d.station.core.station.out) ⊎ (¬ AsksForABuffer f)
        → PutsFrame f d (after_frame d) }
    ensures held { (d : LinkView) (f : Frame) → next_frame (next d.station.core.station) ≡ Some f
        → d.station.core.limits.room ≤ length d.station.core.station.inbox
        → d.station.core.station.out ≡ [] → AsksForABuffer f
        → (puts_frame d ≡ false) × (after_frame d ≡ d) }
    ensures idle { (d : LinkView) → next_frame (next d.station.core.station) ≡ None
        → (puts_frame d ≡ false) × ((after_frame d).outbox.waiting ≡ d.outbox.waiting) }
    ensures no_room { (d : LinkView)
        → d.outbox.room < d.station.syn + (d.station.core.limits.longest + 10)
        → (puts_frame d ≡ false) × (after_frame d ≡ d) }
{}

/// A link accepts messages exactly while it runs and its window has room. Then it accepts one of 1
/// to `longest` bytes and queues it after the others.
pub fn accepts_while_it_has_room()
    ensures exactly { (d : LinkView) → (takes_message d ≡ true)
        ↔ ((d.station.core.station.state ≡ Running)
        × (length d.station.core.station.out < d.station.core.limits.window)) }
    ensures accepts { (d : LinkView) (message : List ℕ) → takes_message d ≡ true
        → 1 ≤ length message → length message ≤ d.station.core.limits.longest
        → (answer_to_offered message d ≡ Ok tt)
        × ((after_offered message d).station.core.station.out
        ≡ d.station.core.station.out ++ message ∷ []) }
{}

/// All is delivered exactly if no message is unacknowledged, no byte is pending for the line, and
/// there is no frame to send.
pub fn delivered_leaves_nothing()
    ensures { (d : LinkView) → (delivered d ≡ true) ↔ ((d.station.core.station.out ≡ [])
        × (d.outbox.waiting ≡ []) × (next_frame (next d.station.core.station) ≡ None)) }
{}

/// A link has a moment to wake at exactly while its timer is on. The first `wake` after a start of
/// the timer sets it, `milliseconds` later. Until that moment `wake` changes nothing, and from it
/// on `wake` lets the timer expire. No other call moves the moment.
pub fn wakes_at_its_moment()
    ensures asleep { (d : LinkView) → (wakes_at d ≡ None)
        ↔ (d.station.core.station.timer ≡ Off) }
    ensures begins { (d : LinkView) (now : ℕ) → d.station.core.station.timer ≡ Fresh
        → 1 ≤ d.milliseconds → now + d.milliseconds < 2 ^ 64
        → ((after_wake now d).station.core.station.timer ≡ On)
        × ((after_wake now d).deadline ≡ Some (now + d.milliseconds)) }
    ensures moment { (d : LinkView) (moment : ℕ) → d.station.core.station.timer ≢ Off
        → d.deadline ≡ Some moment → wakes_at d ≡ Some moment }
    ensures waits { (d : LinkView) (now moment : ℕ) → d.station.core.station.timer ≡ On
        → d.deadline ≡ Some moment → now < moment → after_wake now d ≡ d }
    ensures expires { (d : LinkView) (now moment : ℕ) → d.station.core.station.timer ≡ On
        → d.deadline ≡ Some moment → moment ≤ now
        → (after_wake now d).station.core.station ≡ after_expire d.station.core.station }
    ensures stays { (call : LinkCall) (text : List ℕ) (old new : LinkView)
        → HasDone call text old new → IsNoWake call
        → (new.deadline ≡ old.deadline) × (new.milliseconds ≡ old.milliseconds) }
{}

/// The same for a driven station: the first turn after a start of its timer, or with a timer that
/// is on without a moment, sets the moment, `milliseconds` later. Turns before that moment leave
/// the timer as it is, and the first one from it on lets it expire.
pub fn turns_expire_at_their_moment()
    ensures begins { (milliseconds syn : ℕ) (turn : DriveTurn) (d : Driving)
        → (d.core.station.timer ≡ Fresh) ⊎ ((d.core.station.timer ≡ On) × (d.deadline ≡ None))
        → 1 ≤ milliseconds → turn.now + milliseconds < 2 ^ 64
        → ((before_offer milliseconds turn d).station.timer ≡ On)
        × ((before_read milliseconds syn turn d).deadline ≡ Some (turn.now + milliseconds)) }
    ensures waits { (milliseconds syn moment : ℕ) (turn : DriveTurn) (d : Driving)
        → d.core.station.timer ≡ On → d.deadline ≡ Some moment → turn.now < moment
        → (before_offer milliseconds turn d ≡ d.core)
        × ((before_read milliseconds syn turn d).deadline ≡ Some moment) }
    ensures expires { (milliseconds moment : ℕ) (turn : DriveTurn) (d : Driving)
        → d.core.station.timer ≡ On → d.deadline ≡ Some moment → moment ≤ turn.now
        → (before_offer milliseconds turn d).station ≡ after_expire d.core.station }
    ensures off { (milliseconds : ℕ) (turn : DriveTurn) (d : Driving)
        → d.core.station.timer ≡ Off → before_offer milliseconds turn d ≡ d.core }
{}
