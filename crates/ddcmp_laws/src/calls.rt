//! Any calls of two stations.
ghost use Rattle.std.specs.Prelude.{◌≡◌, ℕ, List, true, false, None};
ghost use Rattle.std.specs.List.{All};
ghost use Rattle.ddcmp_core.specs.declared.counters.Counters.{Counters as CountersValue};
ghost use Rattle.ddcmp_core.specs.Counting.{counters_on, counters_after_next};
ghost use Rattle.ddcmp_core.specs.Counting.{counters_after_expire};
ghost use Rattle.ddcmp_core.specs.Laws.{tells_restart};
ghost use Rattle.ddcmp_core.specs.Table.{Limits, StationState, Received, on, notice_of, next};
ghost use Rattle.ddcmp_core.specs.Table.{next_frame, after_next, is_on, is_fresh, answer_to_start};
ghost use Rattle.ddcmp_core.specs.Table.{after_start, after_enter_maintenance, after_halt};
ghost use Rattle.ddcmp_core.specs.Table.{answer_to_send, answer_to_send_maintenance, after_accept};
ghost use Rattle.ddcmp_core.specs.Table.{after_take, after_expire, after_take_arm};
ghost use Rattle.ddcmp_proto.specs.Config.{first_refusal};
ghost use Rattle.ddcmp_proto.specs.declared.config.Config.{Config as ConfigValue};
ghost use Rattle.ddcmp_io.specs.declared.carrier.End.{End as EndValue};
ghost use Rattle.ddcmp_pair.specs.Run.{PairState, at, notices_at, run, new_pair, is_clean};
ghost use Rattle.ddcmp_pair.specs.InOrder.{IsInOrder, IsLink};
ghost use Rattle.ddcmp_laws.specs.PairCalls.{Call, Arrive, after_call, run_calls, events_in};
ghost use Rattle.ddcmp_laws.specs.PairCalls.{IsStartedOnce, IsSameStation, IsSamePair};

/// Whether a station has reported already that its timer was started makes a difference only to the
/// call that asks for this: every other call takes two stations that are equal except for that to
/// two such stations, and returns, writes, reports and counts the same. That call reports a start
/// once, and neither starts the timer nor stops it.
pub fn fresh_is_on()
    ensures receives { (l : Limits) (s t : StationState) (h : Received) → IsSameStation s t
        → IsSameStation (on l s h) (on l t h) × (notice_of l s h ≡ notice_of l t h) }
    ensures sends { (s t : StationState) → IsSameStation s t
        → IsSameStation (after_next (next s) s) (after_next (next t) t)
        × (next_frame (next s) ≡ next_frame (next t)) }
    ensures starts { (s t : StationState) → IsSameStation s t
        → IsSameStation (after_start s) (after_start t)
        × (answer_to_start s ≡ answer_to_start t) }
    ensures maintains { (s t : StationState) → IsSameStation s t
        → IsSameStation (after_enter_maintenance s) (after_enter_maintenance t) }
    ensures halts { (s t : StationState) → IsSameStation s t
        → IsSameStation (after_halt s) (after_halt t) }
    ensures accepts { (l : Limits) (s t : StationState) (message : List ℕ) → IsSameStation s t
        → IsSameStation (after_accept s message) (after_accept t message)
        × (answer_to_send l s message ≡ answer_to_send l t message)
        × (answer_to_send_maintenance l s message ≡ answer_to_send_maintenance l t message) }
    ensures takes { (s t : StationState) → IsSameStation s t
        → IsSameStation (after_take s) (after_take t) × (s.inbox ≡ t.inbox) }
    ensures expires { (s t : StationState) → IsSameStation s t
        → IsSameStation (after_expire s) (after_expire t)
        × (is_on s.timer ≡ is_on t.timer) }
    ensures arms { (s : StationState) → IsSameStation s (after_take_arm s) }
    ensures once { (s : StationState) → (is_fresh (after_take_arm s).timer ≡ false)
        × (is_on (after_take_arm s).timer ≡ is_on s.timer) }
    ensures counts { (l : Limits) (s t : StationState) (h : Received) (c : CountersValue)
        → IsSameStation s t → (counters_on l s h c ≡ counters_on l t h c)
        × (counters_after_next s (next s) c ≡ counters_after_next t (next t) c)
        × (counters_after_expire s c ≡ counters_after_expire t c) }
{}

/// The main law for every caller. For two new stations of any sizes in range, what is promised for
/// the events of a run holds after every list of calls. If each end is started at most once, an
/// honest line makes the calls clean. Calls do what their events do, except that events don't ask
/// for the start of a timer.
pub fn every_caller()
    ensures order { (first second : ConfigValue) (calls : List (EndValue × Call))
        → first_refusal first ≡ None → first_refusal second ≡ None
        → IsInOrder (run_calls calls (new_pair first second)) }
    ensures links { (first second : ConfigValue) (calls : List (EndValue × Call))
        → first_refusal first ≡ None → first_refusal second ≡ None
        → (run_calls calls (new_pair first second)).honest ≡ true
        → is_clean (run_calls calls (new_pair first second)) ≡ true
        → IsLink (run_calls calls (new_pair first second)).a
        (run_calls calls (new_pair first second)).b
        × IsLink (run_calls calls (new_pair first second)).b
        (run_calls calls (new_pair first second)).a }
    ensures no_restart { (first second : ConfigValue) (calls : List (EndValue × Call))
        (end : EndValue) (bytes : List ℕ)
        → first_refusal first ≡ None → first_refusal second ≡ None
        → is_clean (run_calls calls (new_pair first second)) ≡ true
        → (after_call end (Arrive bytes) (run_calls calls (new_pair first second))).honest ≡ true
        → All (λ n. tells_restart n ≡ false)
        (notices_at bytes (at end (run_calls calls (new_pair first second)))) }
    ensures clean { (first second : ConfigValue) (calls : List (EndValue × Call))
        → first_refusal first ≡ None → first_refusal second ≡ None → IsStartedOnce calls
        → (run_calls calls (new_pair first second)).honest ≡ true
        → is_clean (run_calls calls (new_pair first second)) ≡ true }
    ensures events { (calls : List (EndValue × Call)) (p : PairState)
        → IsSamePair (run_calls calls p) (run (events_in calls) p) }
{}
