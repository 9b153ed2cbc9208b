//! The connection of a station.
use std::io;
use std::net::{Net, OpenListener, TcpListener, TcpStream};
use std::time::Duration;

/// The timeout of a read, in milliseconds.
const READ_WAIT_MS: u64 = 10;

/// The timeout of a write to a peer that doesn't read, in milliseconds.
const WRITE_WAIT_MS: u64 = 5000;

/// Sets the timeouts of a connection, and TCP_NODELAY.
fn patient(stream: TcpStream) -> io::Result<TcpStream> {
    stream.set_read_timeout(Some(Duration::from_millis(READ_WAIT_MS)))?;
    stream.set_write_timeout(Some(Duration::from_millis(WRITE_WAIT_MS)))?;
    stream.set_nodelay(true)?;
    Ok(stream)
}

/// Connects a station to a peer that listens at an address.
pub fn connect<N: Net<Stream = TcpStream>>(net: &N, addr: &str) -> io::Result<TcpStream> {
    patient(TcpStream::connect(net, addr)?)
}

/// Listens at an address for a station, and returns the first connection.
pub fn accept<N: Net<Stream = TcpStream>>(net: &N, addr: &str) -> io::Result<TcpStream> {
    let (stream, _peer) = TcpListener::bind(net, addr)?.accept()?;
    patient(stream)
}
