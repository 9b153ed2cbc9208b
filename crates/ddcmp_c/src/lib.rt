//! A DDCMP station for C, and a reader of frames without a station.
#![tactic(auto)]

mod frame_values;
mod handle;
mod lifecycle;
mod line;
mod loose;
mod messages;
mod queries;
mod reader;
mod reader_handle;
mod values;
mod version;

pub use handle::Handle;
pub use reader_handle::ReaderHandle;
