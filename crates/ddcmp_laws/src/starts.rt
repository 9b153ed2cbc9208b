//! Liveness: two ends of any sizes come to run and accept messages.
ghost use Rattle.std.specs.Prelude.{◌≡◌, ◌≤◌, ℕ, List, [], ◌∷◌, length, true, None};
ghost use Rattle.ddcmp_core.specs.Core.{IsSound};
ghost use Rattle.ddcmp_proto.specs.Config.{first_refusal};
ghost use Rattle.ddcmp_proto.specs.declared.config.Config.{Config as ConfigValue};
ghost use Rattle.ddcmp_io.specs.Ends.{other};
ghost use Rattle.ddcmp_io.specs.declared.carrier.End.{End as EndValue};
ghost use Rattle.ddcmp_pair.specs.declared.event.Event.{Event as EventValue};
ghost use Rattle.ddcmp_pair.specs.declared.event.Event.TheVariants.{Send};
ghost use Rattle.ddcmp_pair.specs.declared.event.Reply.TheVariants.{Accepted};
ghost use Rattle.ddcmp_pair.specs.Run.{PairState, at, run, new_pair, reply_to, handed_up};
ghost use Rattle.ddcmp_pair.specs.Recovery.{is_ready, recovered};
ghost use Rattle.ddcmp_laws.specs.Story.{number};
ghost use Rattle.ddcmp_laws.specs.Starts.{both_start, started, IsUp};
ghost use Rattle.ddcmp_laws.specs.Recovered.{Accepts, sent_over, HandsOver};

/// Two new ends that accept messages of the same lengths are ready once both have started: so the
/// law of recovery applies to them. A handshake makes both run, whatever their sizes, and that run
/// is honest and clean: so the law of order applies to it. And then each end accepts every message
/// that isn't empty and isn't too long, as its first.
pub fn two_ends_come_up()
    ensures ready { (first second : ConfigValue) → first.max ≡ second.max
        → is_ready (run both_start (new_pair first second)) ≡ true }
    ensures up { (first second : ConfigValue) → IsUp (started first second) }
    ensures accepts { (first second : ConfigValue) (end : EndValue) (message : List ℕ)
        → first_refusal first ≡ None → first_refusal second ≡ None → 1 ≤ length message
        → length message ≤ (at end (started first second)).core.limits.longest
        → reply_to (Send end message) (started first second) ≡ Accepted (number 1) }
{}

/// Once a line that was ready has recovered, each end accepts every message that isn't empty and
/// isn't too long, under the number after those of all that it accepted before. That message and
/// nothing else is delivered when the line recovers again. The same holds for the first message, if
/// both ends started and nothing more had happened.
pub fn takes_messages_once_recovered()
    ensures accepts { (first second : ConfigValue) (events : List EventValue) (p : PairState)
        (end : EndValue) (message : List ℕ)
        → first_refusal first ≡ None → first_refusal second ≡ None
        → run events (new_pair first second) ≡ p
        → IsSound p.a.core.limits p.a.core.station → IsSound p.b.core.limits p.b.core.station
        → is_ready p ≡ true
        → 1 ≤ length message → length message ≤ (at end p).core.limits.longest
        → Accepts end message (recovered p) }
    ensures hands_over { (first second : ConfigValue) (events : List EventValue) (p : PairState)
        (end : EndValue) (message : List ℕ)
        → first_refusal first ≡ None → first_refusal second ≡ None
        → run events (new_pair first second) ≡ p
        → IsSound p.a.core.limits p.a.core.station → IsSound p.b.core.limits p.b.core.station
        → is_ready p ≡ true
        → 1 ≤ length message → length message ≤ (at end p).core.limits.longest
        → HandsOver end message (recovered p) (sent_over end message (recovered p)) }
    ensures first_accepted { (first second : ConfigValue) (end : EndValue) (message : List ℕ)
        → first_refusal first ≡ None → first_refusal second ≡ None → first.max ≡ second.max
        → 1 ≤ length message → length message ≤ first.max
        → reply_to (Send end message) (recovered (run both_start (new_pair first second)))
        ≡ Accepted (number 1) }
    ensures first_handed_up { (first second : ConfigValue) (end : EndValue) (message : List ℕ)
        → first_refusal first ≡ None → first_refusal second ≡ None → first.max ≡ second.max
        → 1 ≤ length message → length message ≤ first.max
        → let after = sent_over end message (recovered (run both_start (new_pair first second))) in
        (handed_up (at (other end) after) ≡ message ∷ []) × (handed_up (at end after) ≡ []) }
{}
