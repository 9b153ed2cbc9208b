//! One loop between a machine, which decides, and a system, which has the devices: `run` opens,
//! reads, writes and closes ports as the machine needs it, passes it the time, and waits if nothing
//! can move. Of a machine it promises that what was read at a port is what the machine used there,
//! and what was written is what it had pending.
#![tactic(auto)]

mod buffers;
mod chunk;
mod event;
mod fault;
mod last_calls;
mod line_name;
mod machine;
mod port;
mod system;

pub use buffers::{Buffers, run};
pub use chunk::Chunk;
pub use event::{DeviceOpened, LineEvent, Retry};
pub use fault::{Attempt, Cause, OpenFault, OpenRefusal};
pub use last_calls::LastCalls;
pub use line_name::LineName;
pub use machine::Machine;
pub use port::{Down, Need, News, Opening, Port, Transfer};
pub use system::System;
