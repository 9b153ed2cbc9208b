//! Lines, standard streams and waits of the system: what opens, reads, writes and waits for
//! devices. A bridge between two lines runs over them here; `Bridge` of `ddcmp_bridge` decides what
//! it does.
#![tactic(auto)]

mod bridging;
mod datagram;
mod line;
mod live;
mod live_line;
mod opener;
mod pace;
mod place;
mod poller;
mod save;
mod socket;
mod standard_input;
mod standard_stream;
mod system;

pub use bridging::{BridgeFault, bridge_lines};
pub use datagram::Framing;
pub use line::Line;
pub use opener::{Opened, Opener};
pub use pace::{Pace, paces_hold};
pub use place::LinePlace;
pub use poller::{Descriptor, Poller, Ready, errors_take};
pub use standard_input::StandardInput;
pub use standard_stream::{StandardStream, write_errors};
pub use system::System;
