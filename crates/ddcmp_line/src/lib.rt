//! Two stations on a line, joined by a carrier: `script` runs the commands of a text between them,
//! and writes their results. What else such a program needs is re-exported from the crates below.
//!
//! ```text
//! send A 616263     asks that the station at A is to send the message `abc`
//! A accepted 1      is written when it accepted it as its message number 1
//! ```
#![tactic(auto)]

pub mod closing;
pub mod command;
mod frame_lines;
mod nowhere;
mod performer;
mod player;
pub mod reply_text;
mod script_fault;
mod view;

pub use ddcmp_io::{input, text};
pub use ddcmp_net::Sockets;
pub use ddcmp_pair::{
    Bytes, Carrier, Config, ConfigRefusal, Direct, End, Event, LineFault, Memory, Notice, Notices,
    Pair, PairRefusal, Recovered, Reply, RunRefusal, SendRefusal, Seq, Settled, StartRefusal,
    State, Station, laws, run,
};
pub use ddcmp_station::{state_name, write_notice};
pub use player::{script, script_viewed, script_with};
pub use script_fault::ScriptFault;
pub use view::View;
