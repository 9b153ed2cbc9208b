//! The station of DDCMP: its states, flags, numbers, notices and counters.
#![tactic(auto)]

mod counters;
mod input;
pub mod laws;
mod notice;
mod state;
mod station_core;

pub use counters::{Counters, NakCounts};
pub use ddcmp_frame::{ControlType, Counted, Flags, Header, Nak, Short};
pub use ddcmp_window::{MAX_COUNT, MAX_WINDOW, SendRefusal, Seq, Store};
pub use input::Input;
pub use laws::{
    acknowledges_what_was_sent, begins_with_nothing, leaves_istart_for_good, reports_what_leaves,
    runs_after_startup, sends_for_a_reason, sends_in_window, sends_what_is_read, starts_in_state,
    stays_sound, stays_timed, stops_at_a_strt,
};
pub use notice::Notice;
pub use state::{Owed, State, Timer};
pub use station_core::{Core, Numbers, StartRefusal};
