//! Stations that sleep.
ghost use Rattle.std.specs.Prelude.{◌≡◌, List, None, true};
ghost use Rattle.ddcmp_proto.specs.Config.{first_refusal};
ghost use Rattle.ddcmp_proto.specs.declared.config.Config.{Config as ConfigValue};
ghost use Rattle.ddcmp_pair.specs.Recovery.{IsDelivered};
ghost use Rattle.ddcmp_pair.specs.Run.{PairState, new_pair, run, is_clean};
ghost use Rattle.ddcmp_pair.specs.declared.event.Event.{Event as EventValue};
ghost use Rattle.ddcmp_laws.specs.Sleep.{IsAsleep, AreUp};

/// No station waits in vain: no line hangs. After any honest and clean run of two stations of any
/// sizes in range that are both up, whatever was lost or damaged and whatever is still in flight:
/// if an end has no frame to send and its reply timer is off, then it runs, and each message that
/// it accepted was delivered at the other end and is acknowledged. So as long as some message
/// isn't, the end that accepted it has a frame to send or a timer that will expire.
pub fn nobody_waits_for_nothing()
    ensures from_a { (first second : ConfigValue) (events : List EventValue) (p : PairState)
        → first_refusal first ≡ None → first_refusal second ≡ None
        → run events (new_pair first second) ≡ p → p.honest ≡ true → is_clean p ≡ true → AreUp p
        → IsAsleep p.a → IsDelivered p.a p.b }
    ensures from_b { (first second : ConfigValue) (events : List EventValue) (p : PairState)
        → first_refusal first ≡ None → first_refusal second ≡ None
        → run events (new_pair first second) ≡ p → p.honest ≡ true → is_clean p ≡ true → AreUp p
        → IsAsleep p.b → IsDelivered p.b p.a }
{}
