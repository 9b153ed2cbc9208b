//! A bridge between two lines, without I/O. `Relay` takes the bytes of one line and passes on its
//! good frames, one at a time, with the `Faults` that are set; `Direction` delays each of these
//! frames; `Bridge` opens two lines and runs a direction each way, as a machine for
//! `ddcmp_ports::run`; `write_report` writes the counters of both directions.
#![tactic(auto)]

mod bridge;
pub mod counts;
mod delay_line;
mod direction;
mod errors;
pub mod faults;
pub mod laws;
mod line;
mod options;
mod pause;
mod relay;
mod report;
mod reports;
mod running;
mod trace;

pub use bridge::{Bridge, BridgeEnd, BridgeStop};
pub use counts::Counts;
pub use direction::Direction;
pub use faults::{Fate, Faults};
pub use options::BridgeOptions;
pub use relay::{Relay, RelayStep};
pub use report::write_report;
pub use running::{TwoLines, run_bridge};
