//! What is reported about a line on standard error.
use crate::fault::OpenFault;
use std::fmt;
use std::net::SocketAddr;

/// How far the opening of a line has come, or what has come over it beside its bytes.
#[derive(Clone, Copy, Debug)]
pub enum LineEvent {
    Listening(SocketAddr),
    Connecting(SocketAddr),
    Connected(SocketAddr),
    /// A caller at this address may not have the line.
    Refused(SocketAddr),
    /// A line of datagrams has the first address, and its peer the second one.
    Bound(SocketAddr, SocketAddr),
    /// A datagram from the first address was dropped, since the peer has the second one.
    Stranger(SocketAddr, SocketAddr),
}

impl fmt::Display for LineEvent {
    ghost use Rattle.std.specs.Prelude.{Some};
    ghost use Rattle.ddcmp_ports.specs.Events.{event_text};

    ghost output = { λ event. Some (event_text event) };

    fn fmt<W: fmt::Write>(&self, f: &mut fmt::Formatter<W>) -> fmt::Result {
        match self {
            LineEvent::Listening(addr) => write!(f, "listening {addr}"),
            LineEvent::Connecting(addr) => write!(f, "connecting {addr}"),
            LineEvent::Connected(addr) => write!(f, "connected {addr}"),
            LineEvent::Refused(addr) => write!(f, "refused {addr}"),
            LineEvent::Bound(local, peer) => write!(f, "bound {local}, peer {peer}"),
            LineEvent::Stranger(sender, peer) => {
                write!(f, "datagram from {sender} ignored: the peer is {peer}")
            }
        }
    }
}

/// A device that was opened.
#[derive(Clone, Copy)]
pub struct DeviceOpened<'a> {
    pub path: &'a str,
}

impl fmt::Display for DeviceOpened<'_> {
    ghost use Rattle.std.specs.Prelude.{Some};
    ghost use Rattle.ddcmp_ports.specs.Events.{device_text};

    ghost output = { λ opened. Some (device_text opened) };

    fn fmt<W: fmt::Write>(&self, f: &mut fmt::Formatter<W>) -> fmt::Result {
        let path = self.path;
        write!(f, "opened {path}")
    }
}

/// A line that couldn't be opened; the next attempt is after this many seconds.
#[derive(Clone, Copy)]
pub struct Retry<'a> {
    pub fault: OpenFault<'a>,
    pub seconds: u64,
}

impl fmt::Display for Retry<'_> {
    ghost use Rattle.std.specs.Prelude.{Some};
    ghost use Rattle.ddcmp_ports.specs.Events.{retry_text};

    ghost output = { λ retry. Some (retry_text retry) };

    fn fmt<W: fmt::Write>(&self, f: &mut fmt::Formatter<W>) -> fmt::Result {
        let Retry { fault, seconds } = self;
        write!(f, "ddcmp: {fault}; retry in {seconds} s")
    }
}
