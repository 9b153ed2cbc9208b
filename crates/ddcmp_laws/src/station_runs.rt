//! Two stations and every call that a station has.
ghost use Rattle.std.specs.Prelude.{◌≡◌, ℕ, List, [], true, false, None};
ghost use Rattle.std.specs.List.{All};
ghost use Rattle.ddcmp_frame.specs.Reader.{StandsFor};
ghost use Rattle.ddcmp_core.specs.Laws.{tells_restart};
ghost use Rattle.ddcmp_core.specs.Table.{may_start};
ghost use Rattle.ddcmp_proto.specs.Config.{first_refusal, core_made};
ghost use Rattle.ddcmp_proto.specs.declared.config.Config.{Config as ConfigValue};
ghost use Rattle.ddcmp_proto.specs.Station.{StationView};
ghost use Rattle.ddcmp_proto.specs.StationCalls.{StationCall, Feeds, ClearsLine, EntersMaintenance};
ghost use Rattle.ddcmp_proto.specs.StationCalls.{HasDone};
ghost use Rattle.ddcmp_io.specs.declared.carrier.End.{End as EndValue};
ghost use Rattle.ddcmp_io.specs.declared.carrier.End.TheVariants.{A, B};
ghost use Rattle.ddcmp_pair.specs.declared.event.Event.TheVariants.{Clear};
ghost use Rattle.ddcmp_pair.specs.Run.{EndState, PairState, at, notices_at, new_end, new_pair};
ghost use Rattle.ddcmp_pair.specs.Run.{is_clean, clear_refusal, after_event};
ghost use Rattle.ddcmp_pair.specs.InOrder.{IsInOrder, IsLink};
ghost use Rattle.ddcmp_laws.specs.PairCalls.{Call, run_calls};
ghost use Rattle.ddcmp_laws.specs.StationRuns.{after_station_call_here, after_station_call};
ghost use Rattle.ddcmp_laws.specs.StationRuns.{run_station_calls, station_calls, IsStationAt};
ghost use Rattle.ddcmp_laws.specs.StationRuns.{StationHistory, StationStep, Stations};
ghost use Rattle.ddcmp_laws.specs.StationRuns.{AreStationCalls, after_station_step};
ghost use Rattle.ddcmp_laws.specs.StationRuns.{after_station_steps, calls_of_stations};
ghost use Rattle.ddcmp_laws.specs.StationRuns.{IsSameStation, AreSameStations};
ghost use Rattle.ddcmp_laws.specs.StationRuns.{IsKeptByStations, StationReaches};

/// The main law for every call of a station. Two new stations of any sizes in range are in order
/// after every list of calls, if the line is honest and the run clean since the lines were cleared.
/// Calls that neither clear a line nor concern maintenance do what `every_caller` states. Two
/// halted ends without messages that clear their lines do what the event Clear of a run does. An
/// end that enters maintenance leaves the clean runs, so that nothing is promised for it until it
/// is halted and clears its line.
pub fn every_call()
    ensures order { (first second : ConfigValue) (calls : List (EndValue × StationCall))
        → first_refusal first ≡ None → first_refusal second ≡ None
        → IsInOrder (run_station_calls calls (new_pair first second)) }
    ensures links { (first second : ConfigValue) (calls : List (EndValue × StationCall))
        → first_refusal first ≡ None → first_refusal second ≡ None
        → (run_station_calls calls (new_pair first second)).honest ≡ true
        → is_clean (run_station_calls calls (new_pair first second)) ≡ true
        → IsLink (run_station_calls calls (new_pair first second)).a
        (run_station_calls calls (new_pair first second)).b
        × IsLink (run_station_calls calls (new_pair first second)).b
        (run_station_calls calls (new_pair first second)).a }
    ensures no_restart { (first second : ConfigValue) (calls : List (EndValue × StationCall))
        (end : EndValue) (bytes : List ℕ)
        → first_refusal first ≡ None → first_refusal second ≡ None
        → is_clean (run_station_calls calls (new_pair first second)) ≡ true
        → (after_station_call end (Feeds bytes)
        (run_station_calls calls (new_pair first second))).honest ≡ true
        → All (λ n. tells_restart n ≡ false)
        (notices_at bytes (at end (run_station_calls calls (new_pair first second)))) }
    ensures same { (calls : List (EndValue × Call)) (p : PairState)
        → run_station_calls (station_calls calls) p ≡ run_calls calls p }
    ensures clears { (p : PairState) → clear_refusal p ≡ None
        → after_station_call B ClearsLine (after_station_call A ClearsLine p)
        ≡ after_event Clear p }
    ensures leaves_out { (end : EndValue) (p : PairState)
        → may_start (at end p).core.station ≡ true
        → is_clean (after_station_call end EntersMaintenance p) ≡ false }
{}

/// The contract of a call of a station states that it is that call of a run: a new station is a new
/// end of a run, and each call takes a station that agrees with an end of a run to one that agrees
/// with that end after the call. The same holds for the histories of a station, and for two
/// stations, after any calls of both.
pub fn station_calls_are_calls()
    ensures begins { (config : ConfigValue) (v : StationView) → v.core ≡ core_made config
        → v.syn ≡ config.syn → StandsFor v.line [] → IsStationAt (new_end config) v }
    ensures call { (call : StationCall) (old new : StationView) (x : EndState)
        → HasDone call old new → IsStationAt x old
        → IsStationAt (after_station_call_here call x) new }
    ensures history { (step : StationStep) (h : StationHistory) (x : EndState)
        → HasDone step.call h.station step.station → IsSameStation x h
        → IsSameStation (after_station_call_here step.call x) (after_station_step step h) }
    ensures both { (steps : List (EndValue × StationStep)) (q : Stations) (p : PairState)
        → AreStationCalls steps q → AreSameStations p q
        → AreSameStations (run_station_calls (calls_of_stations steps) p)
        (after_station_steps steps q) }
{}

/// Two new stations of any sizes in range, over an honest line, in a clean run, whatever the calls:
/// the messages that each received since its line was cleared are a prefix of those that the other
/// accepted since its own was, each once and unchanged, and no more are reported acknowledged than
/// were received.
pub fn stations_in_order()
    ensures to_b { IsKeptByStations (λ q. StationReaches q.a q.b) }
    ensures to_a { IsKeptByStations (λ q. StationReaches q.b q.a) }
{}
