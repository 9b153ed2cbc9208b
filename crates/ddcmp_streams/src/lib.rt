//! The streams of a session beside its line: messages read from an input, and lines for standard
//! error, among them the trace of the line; whether the line echoes; and a session's options.
#![tactic(auto)]

mod echo;
pub mod errors;
mod messages;
mod options;
mod skipped;
mod trace;

pub use echo::Echo;
pub use errors::{EVENT_ROOM, Errors};
pub use messages::{Command, MessageForm, Messages};
pub use options::Options;
pub use trace::{Trace, Way};
