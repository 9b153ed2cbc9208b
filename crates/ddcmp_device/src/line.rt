//! A line: a socket or a device, read and written without blocking.
ghost use Rattle.std.specs.Prelude.{◌≡◌, ◌≢◌, ℕ, IfErr, IfOk, MatchResult, None, Ok};
ghost use Rattle.std.specs.Prelude.{Some, false, true};
ghost use Rattle.std.specs.IoError.{error_kind};
ghost use Rattle.ddcmp_device.specs.Inside.Lines.{has_datagrams, heard_by_error, moved_by_error};
ghost use Rattle.ddcmp_device.specs.Inside.Lines.{received_by_error, sent_by_error};
ghost use Rattle.ddcmp_io.specs.declared.transfer.Down.{Down as DownValue};

use ddcmp_io::{Down, Transfer};
use ddcmp_ports::LineEvent;
use ddcmp_station::Clock;
use mio::net::{TcpStream, UdpSocket};
use std::fs::File;
use std::io::{self, ErrorKind, IsTerminal, Read, Write};
use std::net::{self, Shutdown, SocketAddr};
use std::os::fd::{AsRawFd, RawFd};
use std::time::Duration;

/// For how long at most a peer is still read after its line was closed here, in milliseconds.
const CLOSING_MS: u64 = 500;

/// How long such a peer may send nothing, in milliseconds.
const SILENT_MS: u64 = 100;

/// How many times such a peer is read at most, in case the clock has stopped.
const CLOSING_READS: u32 = 1 << 16;

/// An open line.
pub enum Line {
    Stream(TcpStream),
    /// A socket of datagrams, and its peer's address.
    Datagrams(UdpSocket, SocketAddr),
    Device(File),
}

// Manual, since a derived `Drop` would be expanded wherever a value is dropped.
impl Drop for Line {
    fn drop(self) {
        match self {
            Line::Stream(_stream) => {}
            Line::Datagrams(_socket, _) => {}
            Line::Device(_file) => {}
        }
    }
}

/// Converts the result of a system call.
pub(crate) fn moved_by(answer: io::Result<usize>) -> Transfer
    ensures { MatchResult answer (λ n. result ≡ Transfer.Bytes n)
        (λ error. result ≡ moved_by_error (error_kind error)) }
{
    match answer {
        Ok(n) => Transfer::Bytes(n),
        Err(error) => match error.kind() {
            ErrorKind::WouldBlock => Transfer::Nothing,
            ErrorKind::Interrupted => Transfer::Interrupted,
            kind => Transfer::Ended(Down::Failed(kind)),
        },
    }
}

/// Converts the result of receiving a datagram. No error ends a line of datagrams.
fn received_by(answer: io::Result<(usize, SocketAddr)>, remote: SocketAddr) -> Transfer
    ensures peer { (n : ℕ) → answer ≡ Ok (n, remote) → result ≡ Transfer.Bytes n }
    ensures stranger { IfOk answer (λ got. got.1 ≢ remote → result ≡ Transfer.Bytes 0) }
    ensures error { IfErr answer (λ error. result ≡ received_by_error (error_kind error)) }
    ensures up { (why : DownValue) → result ≢ Transfer.Ended why }
{
    match answer {
        Ok((n, sender)) => Transfer::Bytes(if sender == remote { n } else { 0 }),
        Err(error) => match error.kind() {
            // The peer isn't there yet: the error of an earlier datagram.
            ErrorKind::ConnectionRefused => Transfer::Bytes(0),
            ErrorKind::Interrupted => Transfer::Interrupted,
            _ => Transfer::Nothing,
        },
    }
}

/// Returns what is to be reported of a datagram that isn't the peer's.
fn stranger(answer: &io::Result<(usize, SocketAddr)>, remote: SocketAddr) -> Option<LineEvent>
    ensures peer { (n : ℕ) → answer.now ≡ Ok (n, remote) → result ≡ None }
    ensures other { IfOk answer.now (λ got. got.1 ≢ remote
        → result ≡ Some (LineEvent.Stranger got.1 remote)) }
    ensures error { IfErr answer.now (λ error. result ≡ None) }
{
    match answer {
        Ok((_, sender)) if *sender != remote => Some(LineEvent::Stranger(*sender, remote)),
        Ok(_) | Err(_) => None,
    }
}

/// Converts the result of sending a datagram. If it failed, and wasn't just interrupted or would
/// block, the datagram is lost, as on a line.
fn sent_by(answer: io::Result<usize>, length: usize) -> Transfer
    ensures sent { IfOk answer (λ n. result ≡ Transfer.Bytes length) }
    ensures error { IfErr answer (λ error. result ≡ sent_by_error length (error_kind error)) }
    ensures up { (why : DownValue) → result ≢ Transfer.Ended why }
{
    match answer {
        Ok(_) => Transfer::Bytes(length),
        Err(error) => match error.kind() {
            ErrorKind::WouldBlock => Transfer::Nothing,
            ErrorKind::Interrupted => Transfer::Interrupted,
            _ => Transfer::Bytes(length),
        },
    }
}

/// Converts the result of reading a stream, whose end is a read of no bytes.
fn read_by(answer: io::Result<usize>) -> Transfer
    ensures end { answer ≡ Ok 0 → result ≡ Transfer.Ended Down.Closed }
    ensures bytes { IfOk answer (λ n. n ≢ 0 → result ≡ Transfer.Bytes n) }
    ensures error { IfErr answer (λ error. result ≡ moved_by_error (error_kind error)) }
{
    match moved_by(answer) {
        Transfer::Bytes(0) => Transfer::Ended(Down::Closed),
        got => got,
    }
}

/// Converts the result of reading a device. One whose line is up may return nothing, if it is set
/// to return at once.
fn device_read_by(answer: io::Result<usize>, is_up: bool) -> Transfer
    ensures idle { is_up ≡ true → answer ≡ Ok 0 → result ≡ Transfer.Nothing }
    ensures end { is_up ≡ false → answer ≡ Ok 0 → result ≡ Transfer.Ended Down.Closed }
    ensures bytes { IfOk answer (λ n. n ≢ 0 → result ≡ Transfer.Bytes n) }
    ensures error { IfErr answer (λ error. result ≡ moved_by_error (error_kind error)) }
{
    match moved_by(answer) {
        Transfer::Bytes(0) if is_up => Transfer::Nothing,
        Transfer::Bytes(0) => Transfer::Ended(Down::Closed),
        got => got,
    }
}

/// What is known of a caller before its bytes are read.
#[derive(Clone, Copy)]
pub(crate) enum Heard {
    /// It has sent something.
    Bytes,
    /// It has sent nothing yet.
    Nothing,
    /// It has sent nothing, and its connection is closed or failed.
    Gone,
}

/// Converts the result of looking at a connection's first byte, which stays unread.
fn heard_by(answer: io::Result<usize>) -> Heard
    ensures gone { answer ≡ Ok 0 → result ≡ Heard.Gone }
    ensures bytes { IfOk answer (λ n. n ≢ 0 → result ≡ Heard.Bytes) }
    ensures error { IfErr answer (λ error. result ≡ heard_by_error (error_kind error)) }
{
    match moved_by(answer) {
        Transfer::Bytes(0) | Transfer::Ended(_) => Heard::Gone,
        Transfer::Bytes(_) => Heard::Bytes,
        Transfer::Nothing | Transfer::Interrupted => Heard::Nothing,
    }
}

/// Reads and drops what a peer still sends, until it closes the connection too, sends nothing for a
/// while, or its time is over.
fn drain<C: Clock>(mut stream: net::TcpStream, clock: &mut C) {
    let ends_at = clock.now().saturating_add(CLOSING_MS);
    let mut space = [0; 16384];
    for _read in 0..CLOSING_READS {
        let left = Duration::from_millis(ends_at.saturating_sub(clock.now()).min(SILENT_MS));
        // A timeout of zero would be refused.
        if stream.set_read_timeout(Some(left)).is_err() {
            return;
        }
        match read_by(stream.read(&mut space)) {
            Transfer::Bytes(_) | Transfer::Interrupted => {}
            Transfer::Nothing | Transfer::Ended(_) => return,
        }
    }
}

impl Line {
    /// Ends the writing to the line, of which the peer is notified. Returns whether it is a
    /// connection that was up.
    pub(crate) fn shut(&self) -> bool {
        match self {
            Line::Stream(stream) => stream.shutdown(Shutdown::Write).is_ok(),
            Line::Datagrams(_, _) | Line::Device(_) => false,
        }
    }

    /// Closes the line. If a connection were closed with unread bytes it would be reset, and what
    /// was written last might be lost; so those bytes are read first.
    pub fn close<C: Clock>(self, clock: &mut C) {
        let is_up = self.shut();
        match self {
            Line::Stream(stream) => {
                let stream = net::TcpStream::from(stream);
                if is_up && stream.set_nonblocking(false).is_ok() {
                    drain(stream, clock);
                }
            }
            Line::Datagrams(_socket, _) => {}
            Line::Device(_file) => {}
        }
    }

    /// Reads received bytes. A datagram that isn't the peer's is dropped, and `event` reports it.
    pub fn read(&mut self, space: &mut [u8], event: &mut Option<LineEvent>) -> Transfer {
        match self {
            Line::Stream(stream) => read_by(stream.read(space)),
            Line::Datagrams(socket, remote) => {
                let answer = socket.recv_from(space);
                *event = stranger(&answer, *remote);
                received_by(answer, *remote)
            }
            Line::Device(file) => {
                let answer = file.read(space);
                // A terminal that was hung up is none any more.
                device_read_by(answer, file.is_terminal())
            }
        }
    }

    /// Writes bytes from the front of `bytes`, as far as there is room.
    pub fn write(&mut self, bytes: &[u8]) -> Transfer {
        match self {
            Line::Stream(stream) => moved_by(stream.write(bytes)),
            Line::Datagrams(socket, remote) => {
                sent_by(socket.send_to(bytes, *remote), bytes.len())
            }
            Line::Device(file) => moved_by(file.write(bytes)),
        }
    }

    /// Returns whether its peer has sent anything, without reading it. Only a connection is looked
    /// at.
    pub(crate) fn heard(&self) -> Heard {
        match self {
            Line::Stream(stream) => heard_by(stream.peek(&mut [0])),
            Line::Datagrams(_, _) | Line::Device(_) => Heard::Bytes,
        }
    }

    /// Returns the line's file descriptor.
    pub(crate) fn number(&self) -> RawFd {
        match self {
            Line::Stream(stream) => stream.as_raw_fd(),
            Line::Datagrams(socket, _) => socket.as_raw_fd(),
            Line::Device(file) => file.as_raw_fd(),
        }
    }

    /// Returns whether each write arrives as a whole, or not at all.
    pub(crate) fn has_datagrams(&self) -> bool
        ensures { result ≡ has_datagrams self.now }
    {
        matches!(self, Line::Datagrams(_, _))
    }
}
