//! The turns of `drive`.
ghost use Rattle.std.specs.Prelude.{◌≡◌, ◌≢◌, ◌+◌, ◌++◌, ℕ, List, true, None, Result, Err};
ghost use Rattle.ddcmp_proto.specs.Config.{first_refusal};
ghost use Rattle.ddcmp_proto.specs.declared.config.Config.{Config as ConfigValue};
ghost use Rattle.ddcmp_proto.specs.Station.{StationView};
ghost use Rattle.ddcmp_station.specs.declared.driver.Driven.{Driven as DrivenValue};
ghost use Rattle.ddcmp_io.specs.declared.device.LineFault.{LineFault as LineFaultValue};
ghost use Rattle.ddcmp_io.specs.declared.device.LineFault.TheVariants.{Memory};
ghost use Rattle.ddcmp_station.specs.UserCalls.{Calls};
ghost use Rattle.ddcmp_station.specs.Driving.{DriveTurn, Devices, Drives, driving_from};
ghost use Rattle.ddcmp_station.specs.Driving.{after_turns};
ghost use Rattle.ddcmp_io.specs.declared.carrier.End.{End as EndValue};
ghost use Rattle.ddcmp_pair.specs.Run.{EndState, new_pair};
ghost use Rattle.ddcmp_laws.specs.PairCalls.{Call, after_calls_here, run_calls};
ghost use Rattle.ddcmp_laws.specs.Driven.{shown_in, accepted_from, handed_to, acknowledged_to};
ghost use Rattle.ddcmp_laws.specs.Driven.{calls_of_turns, DriveCall, driven, calls_of_drive};
ghost use Rattle.ddcmp_laws.specs.Driven.{Does, IsDriven, Reaches, AreDriven, seen_of};

use ddcmp_station::User;

/// The histories of an end hold what its user saw of the calls: the messages accepted from it,
/// those that it received, and how many were reported acknowledged to it.
pub fn users_see_histories()
    ensures given { (calls : List Call) (x : EndState)
        → (after_calls_here calls x).given ≡ x.given ++ accepted_from (shown_in calls x) }
    ensures taken { (calls : List Call) (x : EndState)
        → (after_calls_here calls x).taken ≡ x.taken ++ handed_to (shown_in calls x) }
    ensures acknowledged { (calls : List Call) (x : EndState)
        → (after_calls_here calls x).acknowledged
        ≡ x.acknowledged + acknowledged_to (shown_in calls x) }
{}

/// Turns of `drive` are calls: they lead to the same station and line, write the same bytes, and
/// the user sees the same. So is a whole call of `drive`, also if it broke off.
pub fn turns_are_calls()
    ensures turns { (milliseconds : ℕ) (turns : List DriveTurn) (x : EndState)
        → Does (calls_of_turns milliseconds x.syn turns (driving_from x.core x.arrived)) x
        (after_turns milliseconds x.syn turns (driving_from x.core x.arrived)) }
    ensures drive { (call : DriveCall) (x : EndState)
        → Does (calls_of_drive x.syn call x.core x.arrived) x
        (driven x.syn call x.core x.arrived) }
{}

/// The contract of `drive` states that the station was driven by such a call.
pub fn contract_is_a_call<U: User>()
    ensures { (milliseconds count : ℕ) (old new : StationView) (devices : Devices)
        (before after : U) (answer : Result DrivenValue LineFaultValue)
        → answer ≢ Err Memory
        → Drives milliseconds count old new devices (Calls U.becomes before after) answer
        → (call : DriveCall)
        × IsDriven milliseconds call old new devices (Calls U.becomes before after) }
{}

/// Two new stations of any sizes in range, each started once and then driven by any calls of
/// `drive`: in whatever order their calls are made, if the line is honest each user receives a
/// prefix of the messages that were accepted from the other, each once and unchanged, and no more
/// is reported acknowledged to it than the other received.
pub fn driven_in_order()
    ensures to_b { (first second : ConfigValue) (a b : List DriveCall)
        (calls : List (EndValue × Call))
        → first_refusal first ≡ None → first_refusal second ≡ None
        → AreDriven first second a b calls
        → (run_calls calls (new_pair first second)).honest ≡ true
        → Reaches (seen_of first a) (seen_of second b) }
    ensures to_a { (first second : ConfigValue) (a b : List DriveCall)
        (calls : List (EndValue × Call))
        → first_refusal first ≡ None → first_refusal second ≡ None
        → AreDriven first second a b calls
        → (run_calls calls (new_pair first second)).honest ≡ true
        → Reaches (seen_of second b) (seen_of first a) }
{}
