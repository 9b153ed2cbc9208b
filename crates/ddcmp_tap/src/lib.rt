//! A tap between the two ends of a line over TCP. `Tap` is a machine that forwards what comes over
//! each line unchanged, and explains it as `explain` does; `run_tap` runs it over a system, and
//! writes its log; `tap` listens at one address, connects to another, and runs one between the two;
//! `tap_again` does so for one caller after another.
#![tactic(auto)]

pub mod captures;
mod connections;
pub mod direction;
mod machine;
pub mod order;
mod reports;
mod running;
mod socket_options;
mod sockets;
pub mod tap_fault;
mod tap_log;

pub use captures::{Capture, DrawFault, draw_captures};
pub use connections::{tap, tap_again};
pub use direction::{Direction, ROOM, Taken};
pub use machine::{Tap, TapPause};
pub use order::{ItemSummary, Order, SideSummary};
pub use running::run_tap;
pub use socket_options::{keep_alive, set_option};
pub use tap_fault::{CarrierFault, Stage, TapFault};
pub use tap_log::{LogTimes, TapLog};
