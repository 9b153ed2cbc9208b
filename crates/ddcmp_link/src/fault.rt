//! Why a link over a line failed.
use ddcmp_ports::OpenFault;

/// Why a link over a line ended before all was delivered.
#[derive(Clone, Copy)]
pub enum LinkFailure<'a> {
    /// The line couldn't be opened.
    Open(OpenFault<'a>),
    /// The line ended, or its time was over, before the station ran or all of the input was read.
    Ended,
    /// The number of messages that were read and never acknowledged.
    Lost(u64),
    /// Reading standard input, or waiting for it, failed.
    Read,
    /// Writing to standard output failed.
    Write,
    /// An allocation failed, before anything was done.
    Memory,
}
