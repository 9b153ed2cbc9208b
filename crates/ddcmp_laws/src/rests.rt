//! How a line without loss ends up.
ghost use Rattle.std.specs.Prelude.{◌≡◌, List, [], None, true};
ghost use Rattle.ddcmp_proto.specs.Config.{first_refusal};
ghost use Rattle.ddcmp_proto.specs.declared.config.Config.{Config as ConfigValue};
ghost use Rattle.ddcmp_pair.specs.Recovery.{is_ready, IsRepaired};
ghost use Rattle.ddcmp_pair.specs.Run.{new_pair, run};
ghost use Rattle.ddcmp_pair.specs.declared.event.Event.{Event as EventValue};
ghost use Rattle.ddcmp_laws.specs.LossFree.{Line, IsLossFree, run_on_line, IsWhole};
ghost use Rattle.ddcmp_laws.specs.Rests.{GoesOn, IsUnderWay};

/// Two stations, after any events, that are under way: they stay under way by any list of events in
/// which nothing is lost and no end starts or halts; and if nothing is in flight after it, the pair
/// is ready, so that a recovery repairs it.
pub fn is_ready_in_any_order()
    ensures stays { (first second : ConfigValue) (before events : List EventValue) (l : Line)
        → first_refusal first ≡ None → first_refusal second ≡ None
        → run before (new_pair first second) ≡ l.pair → IsWhole l → IsUnderWay l
        → GoesOn events → IsLossFree events l → IsUnderWay (run_on_line events l) }
    ensures ready { (first second : ConfigValue) (before events : List EventValue) (l : Line)
        → first_refusal first ≡ None → first_refusal second ≡ None
        → run before (new_pair first second) ≡ l.pair → IsWhole l → IsUnderWay l
        → GoesOn events → IsLossFree events l
        → (run_on_line events l).to_a ≡ [] → (run_on_line events l).to_b ≡ []
        → is_ready (run_on_line events l).pair ≡ true }
    ensures repaired { (first second : ConfigValue) (before events : List EventValue) (l : Line)
        → first_refusal first ≡ None → first_refusal second ≡ None
        → run before (new_pair first second) ≡ l.pair → IsWhole l → IsUnderWay l
        → GoesOn events → IsLossFree events l
        → (run_on_line events l).to_a ≡ [] → (run_on_line events l).to_b ≡ []
        → IsRepaired (run_on_line events l).pair }
{}
