//! A link between a line and a pipe, without devices. `Session` makes all decisions of `ddcmp
//! link`: bytes and moments in, bytes and moments out.
#![tactic(auto)]

mod buffers;
mod chunk;
mod course;
mod devices;
pub mod laws;
mod line_end;
mod link;
mod report;
mod session;
mod text;

pub use buffers::{Buffers, Stop, drain_errors, drain_output};
pub use ddcmp_io::LineKind;
pub use ddcmp_streams::{EVENT_ROOM, MessageForm, Options};
pub use devices::{DeviceFault, Devices, Down, Transfer, Wanted};
pub use line_end::LineEnd;
pub use link::{LinkFault, LinkOutcome, run_link};
pub use session::{EndReason, Session};
