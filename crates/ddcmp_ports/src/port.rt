//! Ports, and what is said of them.
ghost use Rattle.std.specs.Prelude.{◌≡◌};
ghost use Rattle.ddcmp_ports.specs.Moving.{count_moved as moved};

use crate::event::LineEvent;
use crate::fault::{Cause, OpenRefusal};
use std::io::ErrorKind;
use std::net::SocketAddr;

/// Where bytes come from and go to: standard input, output and error, and two lines. A link has one
/// line, the first.
#[derive(Clone, Copy, Debug, PartialEq, Eq)]
pub enum Port {
    Input,
    Output,
    Errors,
    First,
    Second,
}

/// What a machine needs of a port, beside room for what is pending there.
#[derive(Clone, Copy, Debug, PartialEq, Eq)]
pub enum Need {
    Nothing,
    /// Bytes, or their end.
    Bytes,
    /// To have it opened.
    Opening,
    /// To have its peer learn that no more bytes will be written.
    Shutting,
    /// To have it closed.
    Closing,
}

/// Why nothing more can be read or written.
#[derive(Clone, Copy, Debug, PartialEq, Eq)]
pub enum Down {
    /// The other end has closed it.
    Closed,
    /// A read or a write failed with this error.
    Failed(ErrorKind),
    /// What was read can't be saved in the file that was asked for.
    Unsaved(Cause),
}

/// What a machine is told of a port.
#[derive(Clone, Copy, Debug)]
pub enum News {
    /// It is open; a connection that was just made has a peer.
    Opened(Option<SocketAddr>),
    /// Its opening has come this far.
    Reported(LineEvent),
    /// It can't be opened now.
    Refused(OpenRefusal),
    /// Nothing more can be read.
    Ended(Down),
    /// Nothing more can be written.
    Broken(Down),
}

/// The result of a read or a write that doesn't wait.
#[derive(Clone, Copy, Debug)]
pub enum Transfer {
    /// It was interrupted if this is 0.
    Bytes(usize),
    /// There was nothing to read, or no room to write.
    Nothing,
    /// Nothing more can be read, or written.
    Over(Down),
}

impl Transfer {
    /// Returns how many bytes were moved.
    pub fn count(self) -> usize
        ensures { result ≡ moved self }
    {
        match self {
            Transfer::Bytes(n) => n,
            Transfer::Nothing | Transfer::Over(_) => 0,
        }
    }
}

/// The result of opening a port as far as that is possible without waiting.
#[derive(Clone, Copy, Debug)]
pub enum Opening {
    /// It is open; a connection that was just made has a peer.
    Done(Option<SocketAddr>),
    /// It has come this far.
    Reported(LineEvent),
    /// Nothing has happened.
    Later,
    Failed(OpenRefusal),
}
