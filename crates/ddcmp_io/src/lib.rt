//! I/O for programs: sources of bytes and sinks for them, carriers between two ends, calls of
//! devices that don't wait, queued bytes, buffered text, and devices in memory for tests. It knows
//! nothing of the protocol.
#![tactic(auto)]

mod byte_queue;
mod carrier;
pub mod cause;
pub mod device;
pub mod failing;
pub mod input;
mod line_kind;
pub mod memory;
pub mod page;
pub mod text;
mod transfer;

pub use byte_queue::ByteQueue;
pub use carrier::{Carrier, Direct, End};
pub use device::{FromRead, Got, LineFault, Sink, Source, ToWrite, Worst, WriteFailed, write_all};
pub use line_kind::LineKind;
pub use memory::MemorySink;
pub use page::Page;
pub use transfer::{Down, Transfer, Wanted};
