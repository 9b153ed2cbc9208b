//! Two links, and two sessions, over lines that lose nothing from some moment on.
ghost use Rattle.std.specs.Prelude.{◌≡◌, ◌≤◌, ℕ, List, [], ◌∷◌, None, Some};
ghost use Rattle.ddcmp_core.specs.declared.state.Timer.TheVariants.{On};
ghost use Rattle.ddcmp_station.specs.Linking.{LinkView};
ghost use Rattle.ddcmp_io.specs.declared.carrier.End.{End as EndValue};
ghost use Rattle.ddcmp_pair.specs.Run.{run};
ghost use Rattle.ddcmp_laws.specs.LossFree.{IsLossFree, run_on_line};
ghost use Rattle.ddcmp_laws.specs.Sweeps.{IsRecoveryBySweeps};
ghost use Rattle.ddcmp_laws.specs.PairCalls.{Arm, Expire};
ghost use Rattle.ddcmp_laws.specs.Links.{LinkStep, Wakes, station_calls, after_steps};
ghost use Rattle.ddcmp_laws.specs.LinkSweeps.{LinksLoseNothing, run_on_links, events_of_steps};
ghost use Rattle.ddcmp_laws.specs.LinkSweeps.{line_of, IsKeptUnderWay, LinksAreDone};
ghost use Rattle.ddcmp_proto.specs.Config.{first_refusal};
ghost use Rattle.ddcmp_session.specs.Calls.{SessionStep};
ghost use Rattle.ddcmp_laws.specs.Pipe.{AreSessionCalls, Made, after_sessions, new_sessions};
ghost use Rattle.ddcmp_laws.specs.SessionRecovery.{SessionsAreDone, SessionsAreUnderWay};
ghost use Rattle.ddcmp_laws.specs.SessionRecovery.{SessionsRecover};

/// Calls of two links over lines that lose nothing are events of their stations over a line that
/// loses nothing, on which the bytes pending in an outbox are in flight, too: so a frame counts as
/// sent when `fill_one` queues it, and nothing changes when the line takes bytes of it.
pub fn links_lose_nothing()
    ensures loss_free { IsKeptUnderWay (λ line l. (steps : List (EndValue × LinkStep))
        → LinksLoseNothing steps l → IsLossFree (events_of_steps steps l.links) line) }
    ensures leads { IsKeptUnderWay (λ line l. (steps : List (EndValue × LinkStep))
        → LinksLoseNothing steps l → run_on_line (events_of_steps steps l.links) line
        ≡ line_of (run (events_of_steps steps l.links) line.pair) (run_on_links steps l)) }
{}

/// If a link whose timer is on is woken at or after its moment, the timer expires.
pub fn a_woken_timer_expires()
    ensures { (d : LinkView) (moment now : ℕ) → d.station.core.station.timer ≡ On
        → d.deadline ≡ Some moment → moment ≤ now
        → station_calls (Wakes now) d ≡ Arm ∷ Expire ∷ [] }
{}

/// Two links recover. Under way over lines that lose nothing from now on, whatever was lost before:
/// after enough sweeps of their stations, and two rounds, in each of which the timer of each
/// expires, unless it is off, and enough sweeps follow, both run, and each message that one
/// accepted, also meanwhile, is received by the other and acknowledged.
pub fn links_recover()
    ensures { IsKeptUnderWay (λ line l. (steps : List (EndValue × LinkStep))
        → LinksLoseNothing steps l → IsRecoveryBySweeps (events_of_steps steps l.links) line
        → LinksAreDone (after_steps steps l.links)) }
{}

/// Two sessions that acknowledge messages early recover in the same way, if neither was connected
/// twice: both run, and each has received all messages that were read from the other's input, also
/// meanwhile.
pub fn sessions_recover()
    ensures { (first second : Made) (before steps : List (EndValue × SessionStep))
        (to_a to_b : List ℕ) → first_refusal first.options.config ≡ None
        → first_refusal second.options.config ≡ None
        → AreSessionCalls before (new_sessions first second)
        → AreSessionCalls steps (after_sessions before (new_sessions first second))
        → SessionsAreUnderWay first second before to_a to_b
        → SessionsRecover first second before steps to_a to_b
        → SessionsAreDone first second
        (after_sessions steps (after_sessions before (new_sessions first second))) }
{}
