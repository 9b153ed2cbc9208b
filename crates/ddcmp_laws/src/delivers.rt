//! What a line without loss delivers.
ghost use Rattle.std.specs.Prelude.{◌≡◌, List, None, true};
ghost use Rattle.ddcmp_core.specs.Core.{IsSound};
ghost use Rattle.ddcmp_proto.specs.Config.{first_refusal};
ghost use Rattle.ddcmp_proto.specs.declared.config.Config.{Config as ConfigValue};
ghost use Rattle.ddcmp_pair.specs.Recovery.{is_ready, IsDone};
ghost use Rattle.ddcmp_pair.specs.Run.{PairState, new_pair, run};
ghost use Rattle.ddcmp_pair.specs.declared.event.Event.{Event as EventValue};
ghost use Rattle.ddcmp_laws.specs.LossFree.{Line, run_on_line, IsWhole};
ghost use Rattle.ddcmp_laws.specs.Rests.{IsUnderWay};
ghost use Rattle.ddcmp_laws.specs.Delivers.{IsAtRest, IsRoundInAnyOrder, AreTold, IsTwoRounds};

/// Two stations, after any events, that are under way and at rest: nothing is in flight, and
/// neither has a frame to send. After a round in any order, in which each timer expires, nothing is
/// lost and the line comes to rest again, both run, and all that was delivered is reported
/// acknowledged. After a second such round all that was accepted, also meanwhile, is delivered and
/// reported acknowledged.
pub fn delivers_in_any_order()
    ensures told { (first second : ConfigValue) (before once : List EventValue) (l : Line)
        → first_refusal first ≡ None → first_refusal second ≡ None
        → run before (new_pair first second) ≡ l.pair → IsWhole l → IsUnderWay l → IsAtRest l
        → IsRoundInAnyOrder once l → AreTold (run_on_line once l).pair }
    ensures delivered { (first second : ConfigValue) (before once twice : List EventValue)
        (l : Line) → first_refusal first ≡ None → first_refusal second ≡ None
        → run before (new_pair first second) ≡ l.pair → IsWhole l → IsUnderWay l → IsAtRest l
        → IsRoundInAnyOrder once l → IsRoundInAnyOrder twice (run_on_line once l)
        → IsDone (run_on_line twice (run_on_line once l)).pair }
{}

/// A recovery in lock step is one such order. If a pair is ready after any events and its stations
/// are sound, the events of a recovery settle a line on which nothing is in flight, and then are
/// two rounds in any order.
pub fn a_recovery_is_two_rounds()
    ensures { (first second : ConfigValue) (events : List EventValue) (p : PairState)
        → first_refusal first ≡ None → first_refusal second ≡ None
        → run events (new_pair first second) ≡ p
        → IsSound p.a.core.limits p.a.core.station → IsSound p.b.core.limits p.b.core.station
        → is_ready p ≡ true → IsTwoRounds p }
{}
