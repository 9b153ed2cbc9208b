//! Two stations on a line: their events, what is promised for every run of these, and two ends
//! between which events happen.
#![tactic(auto)]

mod bytes;
mod ends;
mod event;
mod frames;
pub mod laws;
mod messages;
mod pair;
mod recovery;
mod runner;
mod settlement;
mod side;
mod watch;

pub use bytes::{Bytes, Notices};
pub use ddcmp_io::{Carrier, Direct, End, LineFault};
pub use ddcmp_proto::{
    Config, ConfigRefusal, Memory, Notice, SendRefusal, Seq, StartRefusal, State, Station,
};
pub use event::{Event, Reply};
pub use pair::{Pair, PairRefusal};
pub use recovery::Recovered;
pub use runner::{RunRefusal, run};
pub use settlement::Settled;
pub use watch::{Unwatched, Watch};
