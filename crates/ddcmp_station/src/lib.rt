//! A station driven over a line. `drive` runs one over any reader and writer, turn by turn; `Link`
//! is one for an event loop, the part of `ddcmp link` that makes the decisions, without a device
//! and a clock. The station itself, over bytes alone, is that of `ddcmp_proto`. Also the texts of
//! what it reports: its state, its notices and its counters.
#![tactic(auto)]

mod counts;
mod driver;
mod elapsed;
mod link;
mod notices;
mod outbox;
mod reply_timer;
mod states;
mod user;

pub use counts::{Layout, write_counter, write_counters, write_counts};
pub use ddcmp_frame::{Got, Sink, Source, Worst};
pub use ddcmp_io::LineFault;
pub use ddcmp_proto::{
    Config, ConfigRefusal, Counters, Fed, Header, MAX_COUNT, MAX_INBOX, MAX_SYN, MAX_WINDOW,
    Memory, NakCounts, Notice, Numbers, SendRefusal, Seq, StartRefusal, State, Station, laws,
};
pub use driver::{Driven, READ_ROOM, drive};
pub use elapsed::Elapsed;
pub use link::{Link, Totals};
pub use notices::{notice_name, notice_number, write_notice};
pub use outbox::ROOM;
pub use states::state_name;
pub use user::{Clock, User};
