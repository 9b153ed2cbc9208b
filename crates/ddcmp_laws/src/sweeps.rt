//! How soon a line without loss comes to rest.
ghost use Rattle.std.specs.Prelude.{◌≡◌, List, [], ◌∷◌, None};
ghost use Rattle.ddcmp_proto.specs.Config.{first_refusal};
ghost use Rattle.ddcmp_proto.specs.declared.config.Config.{Config as ConfigValue};
ghost use Rattle.ddcmp_pair.specs.Recovery.{IsDone};
ghost use Rattle.ddcmp_pair.specs.Run.{new_pair, run};
ghost use Rattle.ddcmp_pair.specs.declared.event.Event.{Event as EventValue};
ghost use Rattle.ddcmp_laws.specs.LossFree.{Line, IsLossFree, run_on_line, IsWhole, IsEarly};
ghost use Rattle.ddcmp_laws.specs.Rests.{IsUnderWay};
ghost use Rattle.ddcmp_laws.specs.Delivers.{IsAtRest};
ghost use Rattle.ddcmp_laws.specs.Vectors.{abc};
ghost use Rattle.ddcmp_laws.specs.SweepStory.{after_loss, recovery_events};
ghost use Rattle.ddcmp_laws.specs.Sweeps.{IsSweep, sweep_of, AreSweeps, in_a_row};
ghost use Rattle.ddcmp_laws.specs.Sweeps.{AreEnough, AreAtOnce, AreInTime, IsRecoveryBySweeps};

/// A line that loses nothing comes to rest. From two sound ends in any states that acknowledge
/// messages when they are received, with anything in flight that arrives whole: after enough sweeps
/// nothing is in flight and neither end has a frame to send, and further sweeps leave it so. Enough
/// are two more than twice the number of frames that may be sent. In numbers, w being the larger
/// window, and with 4 * w + 2 more for each item in flight: if received messages are taken at once,
/// so that there is room for all that arrives, 32 * w + 26 sweeps; if a line that is under way has
/// only room for a message whenever bytes arrive, 8 * w * w more.
pub fn comes_to_rest()
    ensures rests { (sweeps : List (List EventValue)) (l : Line) → IsWhole l
        → IsLossFree (in_a_row sweeps) l → AreEnough sweeps l
        → IsAtRest (run_on_line (in_a_row sweeps) l) }
    ensures stays { (sweeps : List (List EventValue)) (l : Line) → IsEarly l.pair → IsAtRest l
        → IsLossFree (in_a_row sweeps) l → AreSweeps sweeps l
        → IsAtRest (run_on_line (in_a_row sweeps) l) }
    ensures at_once { (sweeps : List (List EventValue)) (l : Line) → IsWhole l
        → AreAtOnce sweeps l → AreEnough sweeps l }
    ensures in_time { (first second : ConfigValue) (before : List EventValue)
        (sweeps : List (List EventValue)) (l : Line)
        → first_refusal first ≡ None → first_refusal second ≡ None
        → run before (new_pair first second) ≡ l.pair → IsWhole l → IsUnderWay l
        → IsLossFree (in_a_row sweeps) l → AreInTime sweeps l → AreEnough sweeps l }
{}

/// Two stations, after any events, that are under way, over a line that loses nothing from now on,
/// whatever was lost before: after enough sweeps, and two rounds, in each of which the timer of
/// each end expires, unless it is off, and enough sweeps follow, both run, and all that was
/// accepted, also meanwhile, is delivered and reported acknowledged.
pub fn sweeps_deliver()
    ensures { (first second : ConfigValue) (before events : List EventValue) (l : Line)
        → first_refusal first ≡ None → first_refusal second ≡ None
        → run before (new_pair first second) ≡ l.pair → IsWhole l → IsUnderWay l
        → IsLossFree events l → IsRecoveryBySweeps events l → IsDone (run_on_line events l).pair }
{}

/// Each line has sweeps, so that no law above holds vacuously: what is in flight to each end
/// arrives, and then each is polled.
pub fn each_line_has_a_sweep()
    ensures sweep { (l : Line) → IsSweep (sweep_of l) l }
    ensures loss_free { (l : Line) → IsLossFree (sweep_of l) l }
{}

/// A message that was lost arrives, so that no law above holds vacuously: two stations under way, a
/// loss, and a list of events, written out, that is a recovery by sweeps.
pub fn a_lost_message_arrives()
    ensures whole { IsWhole after_loss }
    ensures under_way { IsUnderWay after_loss }
    ensures loss_free { IsLossFree recovery_events after_loss }
    ensures recovers { IsRecoveryBySweeps recovery_events after_loss }
    ensures arrives { (run_on_line recovery_events after_loss).pair.b.taken ≡ abc ∷ [] }
{}
