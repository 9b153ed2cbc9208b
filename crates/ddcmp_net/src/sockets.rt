//! A carrier over a TCP connection of the program with itself.
ghost use Rattle.std.specs.Prelude.{◌≡◌, false, IfOk};
ghost use Rattle.ddcmp_net.specs.Connection.{has_failed};

use ddcmp_io::{Carrier, End, LineFault};
use std::io::{self, Read, Write};
use std::net::{Ipv4Addr, Net, OpenListener, TcpListener, TcpStream};
use std::time::Duration;

/// How many bytes are written before as many are read: few enough to fit into the socket buffers.
const PIECE: usize = 1024;

/// The timeout of a write or a read, in seconds, after which the carrier has failed.
const WAIT_SECONDS: u64 = 5;

/// Has both ends of one TCP connection; writes to one and reads as many bytes from the other.
#[derive(Drop)]
pub struct Sockets {
    a: TcpStream,
    b: TcpStream,
    failed: bool,
}

/// Prepares an end of the connection: TCP_NODELAY and timeouts.
fn prepared(stream: TcpStream) -> io::Result<TcpStream> {
    let wait = Some(Duration::from_secs(WAIT_SECONDS));
    stream.set_read_timeout(wait)?;
    stream.set_write_timeout(wait)?;
    stream.set_nodelay(true)?;
    Ok(stream)
}

impl Sockets {
    /// Connects at a free port of this machine. A connection by another program to that port is
    /// refused.
    pub fn new<N: Net<Stream = TcpStream>>(net: &N) -> io::Result<Sockets>
        ensures { IfOk result (λ sockets. has_failed sockets ≡ false) }
    {
        let listener = TcpListener::bind(net, (Ipv4Addr::LOCALHOST, 0))?;
        let a = TcpStream::connect(net, listener.local_addr()?)?;
        let (b, peer) = listener.accept()?;
        if peer != a.local_addr()? {
            return Err(io::Error::from(io::ErrorKind::ConnectionRefused));
        }
        Ok(Sockets {
            a: prepared(a)?,
            b: prepared(b)?,
            failed: false,
        })
    }
}

/// Writes bytes to one end and reads as many from the other, chunk by chunk.
fn carry_across(
    mut writer: &TcpStream,
    mut reader: &TcpStream,
    bytes: &[u8],
    out: &mut [u8],
) -> Result<(), LineFault> {
    for (piece, room) in bytes.chunks(PIECE).zip(out.chunks_mut(PIECE)) {
        if writer.write_all(piece).is_err() {
            return Err(LineFault::Write);
        }
        if let Err(error) = reader.read_exact(room) {
            return Err(match error.kind() {
                io::ErrorKind::UnexpectedEof => LineFault::Ended,
                _ => LineFault::Read,
            });
        }
    }
    Ok(())
}

impl Carrier for Sockets {
    ghost use Rattle.std.specs.Prelude.{length, is_err};

    ghost broken = { λ sockets. sockets.failed };

    fn carry(&mut self, from: End, bytes: &[u8], out: &mut [u8]) -> Result<usize, LineFault>
        requires whole { has_failed self.old ≡ false }
        requires room { length out.old ≡ length bytes.now }
        // As many bytes come out as go in; no contract can state which.
        ensures all { IfOk result (λ n. n ≡ length bytes.now) }
        ensures broken { has_failed self.new ≡ is_err result }
    {
        let carried = match from {
            End::A => carry_across(&self.a, &self.b, bytes, out),
            End::B => carry_across(&self.b, &self.a, bytes, out),
        };
        self.failed = carried.is_err();
        carried?;
        Ok(bytes.len())
    }

    fn failed(&self) -> bool {
        self.failed
    }
}
