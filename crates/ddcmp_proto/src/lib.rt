//! A station of DDCMP over bytes: bytes of a line in, in chunks of any size, and frames out. It
//! needs no device and no clock.
#![tactic(auto)]

mod config;
pub mod laws;
mod station;

pub use config::{Config, ConfigRefusal, MAX_INBOX, MAX_SYN};
pub use ddcmp_core::{
    Counters, Header, MAX_COUNT, MAX_WINDOW, NakCounts, Notice, Numbers, SendRefusal, Seq,
    StartRefusal, State,
};
pub use ddcmp_window::Memory;
pub use station::{Fed, Station};
