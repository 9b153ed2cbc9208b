// A connection of the program with itself, on systems on which others connect first, or which
// listen at one address only, pass the stream of another connection, or keep a handle of each
// stream.

use crate::same::is;
use ddcmp_io::{Carrier, End, LineFault};
use ddcmp_net::Sockets;
use std::cell::Cell;
use std::io::{self, ErrorKind, Write};
use std::net::{Net, OpenListener, SocketAddr, TcpListener, TcpStream};
use std::os::fd::{AsRawFd, RawFd};
use std::process::Abort;
use std::test::Fail;
use std::time::{Clock, Duration, Instant};

/// A system on which another program connects first.
#[derive(Drop)]
struct Crowded<'a, S> {
    system: &'a S,
}

impl<S: Net<Stream = TcpStream, Listener = TcpListener>> Net for Crowded<'_, S> {
    type Stream = TcpStream;

    type Listener = TcpListener;

    fn bind(&self, addr: SocketAddr) -> io::Result<TcpListener> {
        self.system.bind(addr)
    }

    fn connect(&self, addr: SocketAddr) -> io::Result<TcpStream> {
        let _other = self.system.connect(addr)?;
        self.system.connect(addr)
    }
}

/// A system on which listening is possible only at the machine's own address, at any port.
#[derive(Drop)]
struct Own<'a, S> {
    system: &'a S,
}

impl<S: Net<Stream = TcpStream, Listener = TcpListener>> Net for Own<'_, S> {
    type Stream = TcpStream;

    type Listener = TcpListener;

    fn bind(&self, addr: SocketAddr) -> io::Result<TcpListener> {
        if !addr.ip().is_loopback() || addr.port() != 0 {
            return Err(io::Error::from(ErrorKind::AddrNotAvailable));
        }
        self.system.bind(addr)
    }

    fn connect(&self, addr: SocketAddr) -> io::Result<TcpStream> {
        self.system.connect(addr)
    }
}

/// A listener that reports the peer of its connection, but returns another stream.
#[derive(Drop)]
struct SwappingListener<'a> {
    own: TcpListener,
    other: &'a TcpListener,
}

impl OpenListener for SwappingListener<'_> {
    type Stream = TcpStream;

    fn accept(&self) -> io::Result<(TcpStream, SocketAddr)> {
        let (own, peer) = self.own.accept()?;
        // It isn't closed, so that writing to it is no fault.
        std::mem::forget(own);
        let (stream, _peer) = self.other.accept()?;
        Ok((stream, peer))
    }

    fn local_addr(&self) -> io::Result<SocketAddr> {
        self.own.local_addr()
    }
}

impl AsRawFd for SwappingListener<'_> {
    fn as_raw_fd(&self) -> RawFd {
        self.own.as_raw_fd()
    }
}

/// A system with such listeners.
#[derive(Drop)]
struct Swapping<'a, S> {
    system: &'a S,
    other: &'a TcpListener,
}

impl<'a, S: Net<Stream = TcpStream, Listener = TcpListener>> Net for Swapping<'a, S> {
    type Stream = TcpStream;

    type Listener = SwappingListener<'a>;

    fn bind(&self, addr: SocketAddr) -> io::Result<SwappingListener<'a>> {
        Ok(SwappingListener {
            own: self.system.bind(addr)?,
            other: self.other,
        })
    }

    fn connect(&self, addr: SocketAddr) -> io::Result<TcpStream> {
        self.system.connect(addr)
    }
}

/// A listener that keeps a handle of the stream that it returns.
#[derive(Drop)]
struct KeepingListener<'a> {
    own: TcpListener,
    accepted: &'a Cell<Option<TcpStream>>,
}

impl OpenListener for KeepingListener<'_> {
    type Stream = TcpStream;

    fn accept(&self) -> io::Result<(TcpStream, SocketAddr)> {
        let (stream, peer) = self.own.accept()?;
        self.accepted.set(Some(stream.try_clone()?));
        Ok((stream, peer))
    }

    fn local_addr(&self) -> io::Result<SocketAddr> {
        self.own.local_addr()
    }
}

impl AsRawFd for KeepingListener<'_> {
    fn as_raw_fd(&self) -> RawFd {
        self.own.as_raw_fd()
    }
}

/// A system that keeps a handle of each end of a connection.
#[derive(Drop)]
struct Keeping<'a, S> {
    system: &'a S,
    connected: &'a Cell<Option<TcpStream>>,
    accepted: &'a Cell<Option<TcpStream>>,
}

impl<'a, S: Net<Stream = TcpStream, Listener = TcpListener>> Net for Keeping<'a, S> {
    type Stream = TcpStream;

    type Listener = KeepingListener<'a>;

    fn bind(&self, addr: SocketAddr) -> io::Result<KeepingListener<'a>> {
        Ok(KeepingListener {
            own: self.system.bind(addr)?,
            accepted: self.accepted,
        })
    }

    fn connect(&self, addr: SocketAddr) -> io::Result<TcpStream> {
        let stream = self.system.connect(addr)?;
        self.connected.set(Some(stream.try_clone()?));
        Ok(stream)
    }
}

#[test]
fn another_program_is_refused(rt: HostRuntime) {
    let system = Crowded { system: &rt };
    let kind = match Sockets::new(&system) {
        Ok(_sockets) => None,
        Err(error) => Some(error.kind()),
    };
    is(&rt, kind, Some(ErrorKind::ConnectionRefused));
}

#[test]
fn a_connection_is_of_this_machine(rt: HostRuntime) {
    let system = Own { system: &rt };
    assert!(rt; Sockets::new(&system).is_ok());
}

/// Checks that an end has timeouts of five seconds, and TCP_NODELAY.
fn is_prepared(rt: &impl Abort, kept: &Cell<Option<TcpStream>>) -> Result<(), Fail> {
    let wait = Some(Duration::from_secs(5));
    let stream = kept.take();
    assert!(rt; stream.is_some());
    if let Some(stream) = stream {
        assert!(rt; stream.nodelay()?);
        is(rt, stream.read_timeout()?, wait);
        is(rt, stream.write_timeout()?, wait);
    }
    Ok(())
}

fn are_prepared(
    rt: &(impl Abort + Net<Stream = TcpStream, Listener = TcpListener>),
    connected: &Cell<Option<TcpStream>>,
    accepted: &Cell<Option<TcpStream>>,
) -> Result<(), Fail> {
    let system = Keeping {
        system: rt,
        connected,
        accepted,
    };
    let _sockets = Sockets::new(&system)?;
    is_prepared(rt, connected)?;
    is_prepared(rt, accepted)
}

#[test]
fn both_ends_send_at_once(rt: HostRuntime) -> Result<(), Fail> {
    let connected = Cell::new(None);
    let accepted = Cell::new(None);
    let ended = are_prepared(&rt, &connected, &accepted);
    // They are empty, but no proof can show that a cell with a stream may be dropped.
    std::mem::forget(connected);
    std::mem::forget(accepted);
    ended
}

/// Returns bytes that differ from index to index, also 256 apart.
fn differing<const N: usize>() -> [u8; N] {
    let mut bytes = [0; N];
    for i in 0..N {
        let page = (i / 256 % 256) as u8;
        bytes[i] = ((i % 256) as u8).wrapping_mul(7).wrapping_add(page);
    }
    bytes
}

/// Checks that this many bytes of an end arrive at the other unchanged.
fn cross(
    rt: &(impl Abort + Net<Stream = TcpStream>),
    from: End,
    length: usize,
) -> Result<(), Fail> {
    let mut sockets = Sockets::new(rt)?;
    let bytes = differing::<16393>();
    let mut out = [0; 16393];
    let n = length.min(16393);
    is(
        rt,
        sockets.carry(from, &bytes[..n], &mut out[..n]).ok(),
        Some(n),
    );
    is(rt, &out[..n], &bytes[..n]);
    Ok(())
}

#[test]
fn pieces_cross(rt: HostRuntime) -> Result<(), Fail> {
    for (from, length) in [
        (End::A, 0),
        (End::B, 1),
        (End::A, 1023),
        (End::B, 1024),
        (End::B, 1025),
        (End::A, 2047),
        (End::A, 2048),
        (End::B, 2049),
        (End::A, 16393),
        (End::B, 16393),
    ] {
        cross(&rt, from, length)?;
    }
    Ok(())
}

/// What is returned is what was received over the connection, not what was passed in.
#[test]
fn nothing_is_copied(rt: HostRuntime) -> Result<(), Fail> {
    let other = TcpListener::bind(&rt, "127.0.0.1:0")?;
    let mut feeder = TcpStream::connect(&rt, other.local_addr()?)?;
    let fed = differing::<3000>();
    feeder.write_all(&fed)?;
    let system = Swapping {
        system: &rt,
        other: &other,
    };
    let mut sockets = Sockets::new(&system)?;
    let mut out = [0; 3000];
    is(
        &rt,
        sockets.carry(End::A, &[1; 3000], &mut out).ok(),
        Some(3000),
    );
    is(&rt, out.as_slice(), fed.as_slice());
    Ok(())
}

/// If the other end was shut down, the connection has ended.
#[test]
fn a_shut_end_is_an_end(rt: HostRuntime) -> Result<(), Fail> {
    let other = TcpListener::bind(&rt, "127.0.0.1:0")?;
    drop(TcpStream::connect(&rt, other.local_addr()?)?);
    let system = Swapping {
        system: &rt,
        other: &other,
    };
    let mut sockets = Sockets::new(&system)?;
    let mut out = [0; 3];
    is(
        &rt,
        sockets.carry(End::A, &[1; 3], &mut out).err(),
        Some(LineFault::Ended),
    );
    Ok(())
}

/// If nothing is received, a read fails after five seconds.
#[test]
fn silence_is_a_failed_read(rt: HostRuntime) -> Result<(), Fail> {
    let other = TcpListener::bind(&rt, "127.0.0.1:0")?;
    let _feeder = TcpStream::connect(&rt, other.local_addr()?)?;
    let system = Swapping {
        system: &rt,
        other: &other,
    };
    let mut sockets = Sockets::new(&system)?;
    let began = Instant::now(&rt)?;
    let mut out = [0; 3];
    is(
        &rt,
        sockets.carry(End::A, &[1; 3], &mut out).err(),
        Some(LineFault::Read),
    );
    let waited = began.elapsed(&rt)?.as_millis();
    assert!(rt; 4900 <= waited && waited < 20000);
    Ok(())
}
