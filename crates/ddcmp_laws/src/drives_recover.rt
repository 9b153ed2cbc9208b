//! Two driven stations over lines that lose nothing from some moment on.
ghost use Rattle.std.specs.Prelude.{◌≡◌, ℕ, List};
ghost use Rattle.ddcmp_station.specs.Driving.{DriveTurn, after_turn};
ghost use Rattle.ddcmp_io.specs.declared.carrier.End.{End as EndValue};
ghost use Rattle.ddcmp_pair.specs.Run.{PairState, run};
ghost use Rattle.ddcmp_laws.specs.LossFree.{IsLossFree, run_on_line};
ghost use Rattle.ddcmp_laws.specs.Sweeps.{IsSweep, AreInTime, IsRecoveryBySweeps};
ghost use Rattle.ddcmp_laws.specs.DrivenSweeps.{TurnPart, Writes, Reads, DrivenEnd, after_part};
ghost use Rattle.ddcmp_laws.specs.DrivenSweeps.{DrivenLine, TurnsLoseNothing};
ghost use Rattle.ddcmp_laws.specs.DrivenSweeps.{run_on_driven, events_of_parts, line_of_driven};
ghost use Rattle.ddcmp_laws.specs.DrivenSweeps.{IsKeptWhileDriven, DrivenAreDone};
ghost use Rattle.ddcmp_laws.specs.DrivenSweeps.{IsSweepOfTurns, AreEnoughTurns, turns_in_a_row};
ghost use Rattle.ddcmp_laws.specs.DrivenSweeps.{events_of_sweeps, IsRecoveryOfTurns, IsEarly};
ghost use Rattle.ddcmp_laws.specs.DrivenSweeps.{sweep_at};

use crate::rests::is_ready_in_any_order;
use crate::settles::settles_in_any_order;
use crate::sweeps::comes_to_rest;

/// A turn of `drive` has two parts: up to its read, and the read.
pub fn turns_have_two_parts()
    ensures { (turn : DriveTurn) (x : DrivenEnd)
        → after_part (Reads turn.came) (after_part (Writes turn) x)
        ≡ record x { driving = after_turn x.milliseconds x.syn turn x.driving } }
{}

/// Turns of two driven stations over lines that lose nothing are events of their stations over a
/// line that loses nothing, on which the same bytes are in flight.
pub fn turns_lose_nothing()
    ensures loss_free { IsKeptWhileDriven (λ line l. (parts : List (EndValue × TurnPart))
        → TurnsLoseNothing parts l → IsLossFree (events_of_parts parts l) line) }
    ensures leads { IsKeptWhileDriven (λ line l. (parts : List (EndValue × TurnPart))
        → TurnsLoseNothing parts l → run_on_line (events_of_parts parts l) line
        ≡ line_of_driven (run (events_of_parts parts l) line.pair) (run_on_driven parts l)) }
{}

/// Turns in which no timer expires and no message is accepted are a sweep if each station has one
/// and all bytes that were in flight are read.
pub fn turns_are_a_sweep()
    ensures { (parts : List (EndValue × TurnPart)) (p : PairState) (l : DrivenLine)
        → IsSweepOfTurns parts l → IsSweep (events_of_parts parts l) (line_of_driven p l) }
{}

/// Each line has sweeps of turns, before the deadlines: each station reads what is in flight to it,
/// and has a turn in which its user offers nothing.
pub fn each_line_has_a_sweep_of_turns()
    ensures sweep { (now : ℕ) (l : DrivenLine) → IsEarly now l.a → IsEarly now l.b
        → IsSweepOfTurns (sweep_at now l) l }
    ensures loss_free { (now : ℕ) (l : DrivenLine) → TurnsLoseNothing (sweep_at now l) l }
{}

/// Each turn delivers all received messages, so there is room for a message whenever bytes are
/// read. So sweeps of turns, as many as `AreEnoughTurns` requires, are in time, and by
/// `comes_to_rest` the line comes to rest.
pub fn turns_are_in_time()
    ensures { IsKeptWhileDriven (λ line l. (sweeps : List (List (EndValue × TurnPart)))
        → TurnsLoseNothing (turns_in_a_row sweeps) l → AreEnoughTurns sweeps l
        → AreInTime (events_of_sweeps sweeps l) line) }
{}

/// Two driven stations recover. Under way over lines that lose nothing from now on, whatever was
/// lost before: after enough sweeps of their turns, and two rounds, in each of which the timer of
/// each expires, unless it is off, and enough sweeps follow, both run, and each message that was
/// accepted from one user, also meanwhile, is delivered to the other and reported acknowledged.
pub fn driven_recover()
    ensures { IsKeptWhileDriven (λ line l. (parts : List (EndValue × TurnPart))
        → TurnsLoseNothing parts l → IsRecoveryBySweeps (events_of_parts parts l) line
        → DrivenAreDone (run_on_driven parts l)) }
{}

/// The same in turns: enough sweeps of turns, and two rounds, each of turns in which the timer of
/// each expires by its clock, unless it is off, and of enough sweeps. Enough are 8 * w * w + 32 * w
/// + 26 sweeps, w being the larger window, and 4 * w + 2 more for each item in flight as they
/// begin. The body names the laws that this one is derived from.
pub fn driven_recover_in_turns()
    ensures { IsKeptWhileDriven (λ line l. (parts : List (EndValue × TurnPart))
        → TurnsLoseNothing parts l → IsRecoveryOfTurns parts l
        → DrivenAreDone (run_on_driven parts l)) }
{
    comes_to_rest();
    is_ready_in_any_order();
    settles_in_any_order();
}
