//! The sides of a tap as nonblocking sockets.
ghost use Rattle.std.specs.Prelude.{◌≡◌, ◌≤◌, length};
ghost use Rattle.ddcmp_ports.specs.Moving.{count_moved};

use ddcmp_io::cause::failure_words_of;
use ddcmp_ports::{Buffers, Down, LastCalls, Machine, Opening, Port, System, Transfer};
use ddcmp_station::{Clock, Elapsed};
use mio::net::TcpStream;
use mio::{Events, Interest, Poll, Token};
use std::alloc::Global;
use std::fmt::Display;
use std::io::{self, Eprint, ErrorKind, Read, Write};
use std::net::{Net, Shutdown};
use std::str;
use std::time::{self, Duration};

/// The connection to a side, and why it failed, if it did.
#[derive(Drop)]
struct Socket {
    stream: TcpStream,
    failed: Option<ErrorKind>,
    last: LastCalls,
}

impl Socket {
    fn new(stream: TcpStream) -> Self {
        Socket {
            stream,
            failed: None,
            last: LastCalls::NONE,
        }
    }

    /// Reads into the front of `space`.
    fn read(&mut self, space: &mut [u8]) -> Transfer
        ensures fits { count_moved result ≤ length space.new }
        ensures last { self.new.last ≡ self.old.last }
    {
        match self.stream.read(space) {
            Ok(0) => Transfer::Over(Down::Closed),
            Ok(n) => Transfer::Bytes(n.min(space.len())),
            Err(error) => self.stuck(error.kind()),
        }
    }

    /// Writes bytes from the front of `bytes`.
    fn write(&mut self, bytes: &[u8]) -> Transfer
        ensures fits { count_moved result ≤ length bytes.now }
        ensures last { self.new.last ≡ self.old.last }
    {
        match self.stream.write(bytes) {
            Ok(0) => Transfer::Nothing,
            Ok(n) => Transfer::Bytes(n.min(bytes.len())),
            Err(error) => self.stuck(error.kind()),
        }
    }

    /// Returns what this error of a call is. Having no bytes or no room now is no failure.
    fn stuck(&mut self, kind: ErrorKind) -> Transfer
        ensures moved { count_moved result ≡ 0 }
        ensures last { self.new.last ≡ self.old.last }
    {
        match kind {
            ErrorKind::WouldBlock => Transfer::Nothing,
            ErrorKind::Interrupted => Transfer::Bytes(0),
            kind => {
                self.failed = Some(kind);
                Transfer::Over(Down::Failed(kind))
            }
        }
    }

    /// Prints why the side of this name failed, if it did.
    fn report<E: Eprint, N: Display>(&self, system: &E, side: &str, name: &N) {
        let Some(kind) = self.failed else { return };
        let why = failure_words_of(kind);
        let _ = eprintln!(system; "ddcmp: {side} {name}: {why}");
    }
}

/// The longest wait, in milliseconds.
const HOUR_MS: u64 = 3_600_000;

/// Prints lines on standard error.
fn print<E: Eprint>(system: &E, text: &[u8]) -> Transfer
    ensures { count_moved result ≤ length text.now }
{
    match system.eprint(str::from_utf8(text).unwrap_or("")) {
        Ok(()) => Transfer::Bytes(text.len()),
        Err(error) => Transfer::Over(Down::Failed(error.kind())),
    }
}

/// Both sides of a tap, which are open, standard error and a clock.
#[derive(Drop)]
pub(crate) struct Sides<'a, S> {
    caller: Socket,
    called: Socket,
    poll: Poll,
    events: Events,
    clock: Elapsed<'a, S>,
    system: &'a S,
    errors: LastCalls,
    /// The moment that it returned last.
    moment: u64,
}

impl<'a, S: Net + time::Clock> Sides<'a, S> {
    pub(crate) fn new(
        system: &'a S,
        alloc: Global,
        mut caller: TcpStream,
        mut called: TcpStream,
    ) -> io::Result<Self> {
        let poll = Poll::new(system)?;
        let both = Interest::READABLE | Interest::WRITABLE;
        poll.registry().register(&mut caller, Token(0), both)?;
        poll.registry().register(&mut called, Token(1), both)?;
        Ok(Sides {
            caller: Socket::new(caller),
            called: Socket::new(called),
            poll,
            events: Events::with_capacity(alloc, 2)?,
            clock: Elapsed::new(system),
            system,
            errors: LastCalls::NONE,
            moment: 0,
        })
    }

    /// Returns when its clock was at 0, in milliseconds after 1970; 0 if the time of day isn't
    /// known.
    pub(crate) fn began(&mut self) -> u64 {
        let since_1970 = match self.system.since_1970() {
            Ok(since_1970) => u64::try_from(since_1970.as_millis()).unwrap_or(0),
            Err(_unknown) => 0,
        };
        since_1970.saturating_sub(self.clock.now())
    }

    /// Prints why a side failed, if one did.
    pub(crate) fn report<E: Eprint, N: Display, M: Display>(
        &self,
        system: &E,
        caller: &N,
        called: &M,
    ) {
        self.caller.report(system, "caller", caller);
        self.called.report(system, "called", called);
    }
}

impl<S: Eprint + time::Clock> System for Sides<'_, S> {
    ghost use Rattle.std.specs.Prelude.{None};
    ghost use Rattle.ddcmp_tap.specs.Inside.Sides.{stuck_of};

    // No contract can state what came over a socket.
    ghost trace = { λ _ _. None };

    ghost stuck = { stuck_of };

    ghost moment = { λ s. s.moment };

    fn read(&mut self, port: Port, space: &mut [u8]) -> Transfer {
        match port {
            Port::First => {
                let got = self.caller.read(space);
                self.caller.last.read(got)
            }
            Port::Second => {
                let got = self.called.read(space);
                self.called.last.read(got)
            }
            Port::Errors => self.errors.read(Transfer::Nothing),
            Port::Input | Port::Output => Transfer::Nothing,
        }
    }

    fn write(&mut self, port: Port, bytes: &[u8]) -> Transfer {
        match port {
            Port::First => {
                let took = self.caller.write(bytes);
                self.caller.last.write(took)
            }
            Port::Second => {
                let took = self.called.write(bytes);
                self.called.last.write(took)
            }
            Port::Errors => {
                let took = print(self.system, bytes);
                self.errors.write(took)
            }
            Port::Input | Port::Output => Transfer::Nothing,
        }
    }

    /// Both sides are open already.
    fn open(&mut self, port: Port) -> Opening {
        match port {
            Port::First => self.caller.last.opening(Opening::Later),
            Port::Second => self.called.last.opening(Opening::Later),
            Port::Errors => self.errors.opening(Opening::Later),
            Port::Input | Port::Output => Opening::Later,
        }
    }

    fn shut(&mut self, port: Port) {
        // If the peer is gone, there is nothing to report.
        match port {
            Port::First => {
                let _ = self.caller.stream.shutdown(Shutdown::Write);
            }
            Port::Second => {
                let _ = self.called.stream.shutdown(Shutdown::Write);
            }
            Port::Input | Port::Output | Port::Errors => {}
        }
    }

    /// Both sides are closed as they are dropped.
    fn close(&mut self, _port: Port) {}

    /// Each call asks for itself.
    fn poll(&mut self) {}

    fn wait<M: Machine>(&mut self, _machine: &M, _held: &Buffers, most_ms: u64) -> bool {
        let most = Duration::from_millis(most_ms.min(HOUR_MS));
        self.poll.poll(&mut self.events, Some(most)).is_ok()
    }

    fn now(&mut self) -> u64 {
        self.moment = self.clock.now();
        self.moment
    }
}
