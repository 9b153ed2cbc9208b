//! The station's table beside the specification's.
ghost use Rattle.std.specs.Prelude.{◌≡◌, true};
ghost use Rattle.ddcmp_core.specs.declared.state.State.TheVariants.{Halted};
ghost use Rattle.ddcmp_core.specs.Table.{Limits, Received, StationState, after_expire, after_halt};
ghost use Rattle.ddcmp_core.specs.Table.{after_start, is_on, next, on};
ghost use Rattle.ddcmp_laws.specs.StateTable.{Comes, HaltRequested, StartRequested, TimerExpires};
ghost use Rattle.ddcmp_laws.specs.StateTable.{by_table, next_by_table};

/// A station does what the state table and the order of sending of DDCMP 4.1 say, as rows that were
/// written from the specification as remembered: on a request of its user, an expiry of its reply
/// timer, and whatever it receives. Rows of this project's profile are marked there.
pub fn follows_the_state_table()
    ensures receives { (l : Limits) (s : StationState) (h : Received)
        → on l s h ≡ by_table l s (Comes h) }
    ensures starts { (l : Limits) (s : StationState) → s.state ≡ Halted
        → after_start s ≡ by_table l s StartRequested }
    ensures halts { (l : Limits) (s : StationState) → after_halt s ≡ by_table l s HaltRequested }
    ensures expires { (l : Limits) (s : StationState) → is_on s.timer ≡ true
        → after_expire s ≡ by_table l s TimerExpires }
    ensures sends { (s : StationState) → next s ≡ next_by_table s }
{}
