//! The names of lines.
ghost use Rattle.std.specs.Prelude.{◌≡◌, ◌≢◌, MatchOption};
ghost use Rattle.ddcmp_ports.specs.LineNames.{word_of, IsPlain, line_kind, open_fault_of};

use crate::fault::{Attempt, OpenFault, OpenRefusal};
use ddcmp_io::LineKind;

/// The name of a line.
#[derive(Clone, Copy)]
pub enum LineName<'a> {
    /// `connect:HOST:PORT`: one TCP connection to this address.
    Connect(&'a str),
    /// `listen:HOST:PORT`: one TCP connection, from a caller to this address that starts (sends a
    /// STRT or STACK).
    Listen(&'a str),
    /// `udp:LOCAL,REMOTE`: each frame is a datagram between the local and the remote address.
    Udp { local: &'a str, remote: &'a str },
    /// `device:PATH`: a serial device that is configured already, for instance by stty.
    Device(&'a str),
}

impl<'a> LineName<'a> {
    /// Returns the line that a text names, if it names one.
    pub fn read(word: &'a str) -> Option<LineName<'a>>
        ensures names { MatchOption result ((name : LineName) → word_of name ≢ word.now)
            (λ name. (word_of name ≡ word.now) × IsPlain name) }
    {
        let (kind, rest) = word.split_once(':')?;
        match kind {
            "connect" => Some(LineName::Connect(rest)),
            "listen" => Some(LineName::Listen(rest)),
            "udp" => {
                let (local, remote) = rest.split_once(',')?;
                Some(LineName::Udp { local, remote })
            }
            "device" => Some(LineName::Device(rest)),
            _ => None,
        }
    }

    /// Returns the kind of the line.
    pub fn kind(self) -> LineKind
        ensures { result ≡ line_kind self.entry }
    {
        match self {
            LineName::Connect(_) => LineKind::Connect,
            LineName::Listen(_) => LineKind::Listen,
            LineName::Udp { .. } => LineKind::Datagrams,
            LineName::Device(_) => LineKind::Device,
        }
    }

    /// Returns what is reported if the line couldn't be opened. Of the two addresses of a line of
    /// datagrams it has the one that failed.
    pub fn open_fault(self, refused: OpenRefusal) -> OpenFault<'a>
        ensures { result ≡ open_fault_of self.entry refused }
    {
        let (attempt, name) = match self {
            LineName::Connect(name) => (Attempt::Connect, name),
            LineName::Listen(name) => (Attempt::Listen, name),
            LineName::Udp { local, remote } => {
                let name = if refused.is_remote { remote } else { local };
                (Attempt::Open, name)
            }
            LineName::Device(name) => (Attempt::Open, name),
        };
        OpenFault {
            attempt,
            name,
            cause: refused.cause,
        }
    }
}
