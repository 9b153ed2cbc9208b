//! Why a line can't be opened, or a file not created or written.
ghost use Rattle.std.specs.Prelude.{◌≡◌};
ghost use Rattle.ddcmp_ports.specs.Events.{attempt_text, cause_text};

use ddcmp_io::cause::words_of;
use std::fmt;
use std::io::ErrorKind;

/// What was attempted with a line or file.
#[derive(Clone, Copy)]
pub enum Attempt {
    Connect,
    Listen,
    Open,
    Create,
    Write,
}

impl Attempt {
    /// Returns the attempt in words.
    fn words(self) -> &'static str
        ensures { result.now ≡ attempt_text self }
    {
        match self {
            Attempt::Connect => "connect",
            Attempt::Listen => "listen",
            Attempt::Open => "open",
            Attempt::Create => "create",
            Attempt::Write => "write",
        }
    }
}

/// Why a line can't be opened, or a file not created or written.
#[derive(Clone, Copy, Debug, PartialEq, Eq)]
pub enum Cause {
    /// The system refused it, with this error.
    System(ErrorKind),
    /// No host has this name.
    UnknownHost,
    /// The name of an address has a port alone.
    NoHost,
    /// Its port is no number, or too large.
    NoPort,
    /// One of the two addresses of a line of datagrams is IPv4, and the other IPv6.
    OtherFamily,
    /// The file isn't a character device.
    NotDevice,
    /// The device is locked: by another program, or as the other line of a bridge.
    InUse,
    /// The file exists already.
    Exists,
    /// There is no space left for the file.
    Full,
    /// A write failed for another reason.
    Failed,
}

impl Cause {
    /// Returns the cause in words.
    pub fn words(self) -> &'static str
        ensures { result.now ≡ cause_text self }
    {
        match self {
            Cause::System(kind) => words_of(kind),
            Cause::UnknownHost => "no such host",
            Cause::NoHost => "the host is missing, as in 0.0.0.0:7000",
            Cause::NoPort => "the port isn't a number up to 65535",
            Cause::OtherFamily => "not of the other address's family",
            Cause::NotDevice => "not a character device",
            Cause::InUse => "already in use",
            Cause::Exists => "file exists",
            Cause::Full => "no space left on device",
            Cause::Failed => "failed",
        }
    }
}

/// A line or file that couldn't be opened: what was attempted, with which name, and why it failed.
#[derive(Clone, Copy)]
pub struct OpenFault<'a> {
    pub attempt: Attempt,
    pub name: &'a str,
    pub cause: Cause,
}

impl fmt::Display for OpenFault<'_> {
    ghost use Rattle.std.specs.Prelude.{Some};
    ghost use Rattle.ddcmp_ports.specs.Events.{open_fault_text};

    ghost output = { λ fault. Some (open_fault_text fault) };

    fn fmt<W: fmt::Write>(&self, f: &mut fmt::Formatter<W>) -> fmt::Result {
        let attempt = self.attempt.words();
        let name = self.name;
        let cause = self.cause.words();
        write!(f, "{attempt} {name}: {cause}")
    }
}

/// Why a line can't be opened, and whether the remote one of its two addresses is the cause.
#[derive(Clone, Copy, Debug)]
pub struct OpenRefusal {
    pub cause: Cause,
    pub is_remote: bool,
}
