//! Frames of DDCMP: headers and their encoding, frames on the line, and the reader of a line.
#![tactic(auto)]

pub mod codes;
pub mod header;
mod held;
pub mod item;
pub mod laws;
pub mod nak;
pub mod plain;
pub mod reader;
mod scan;
pub mod writer;

pub use ddcmp_io::{
    FromRead, Got, Page, Sink, Source, ToWrite, Worst, WriteFailed, device, failing, page,
    write_all,
};
pub use ddcmp_num::MAX_COUNT;
pub use header::{ControlType, Counted, Flags, Header, HeaderFault, Short};
pub use item::{Item, Pushed};
pub use nak::Nak;
pub use reader::{Reader, ReaderRefusal};
pub use writer::{write_around, write_frame};
