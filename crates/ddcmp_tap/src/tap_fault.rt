//! Why a tap ended early.
use ddcmp_io::cause::words_of;
use std::fmt;
use std::io::ErrorKind;

/// What a tap does before it has both connections.
#[derive(Clone, Copy, PartialEq, Eq)]
pub enum Stage {
    /// It listens, and accepts the first caller.
    Listen,
    Connect,
    /// It registers both connections to be waited for.
    Wait,
}

/// A connection that can't be made or waited for.
#[derive(Clone, Copy, PartialEq, Eq)]
pub struct CarrierFault {
    pub stage: Stage,
    /// The system's error; none if no host has the name.
    pub cause: Option<ErrorKind>,
}

impl fmt::Display for CarrierFault {
    fn fmt<W: fmt::Write>(&self, f: &mut fmt::Formatter<W>) -> fmt::Result {
        f.write_str(match self.stage {
            Stage::Listen => "listen: ",
            Stage::Connect => "connect: ",
            Stage::Wait => "epoll: ",
        })?;
        f.write_str(self.reason())
    }
}

impl CarrierFault {
    /// Returns the cause in words.
    pub(crate) fn reason(&self) -> &'static str {
        match self.cause {
            Some(kind) => words_of(kind),
            None => "no such host",
        }
    }
}

/// Why a tap ended before both sides did.
#[derive(Clone, Copy, PartialEq, Eq)]
pub enum TapFault {
    /// A connection can't be made.
    Carrier(CarrierFault),
    /// Reading from a side failed.
    Read,
    /// Writing to a side failed.
    Write,
    /// The log can't be written.
    Report,
    Memory,
}

impl fmt::Display for TapFault {
    fn fmt<W: fmt::Write>(&self, f: &mut fmt::Formatter<W>) -> fmt::Result {
        match self {
            TapFault::Carrier(carrier_fault) => carrier_fault.fmt(f),
            TapFault::Read => f.write_str("read"),
            TapFault::Write | TapFault::Report => f.write_str("write"),
            TapFault::Memory => f.write_str("memory"),
        }
    }
}
