//! Waits for standard input, standard output, standard error, the line, or a moment.
ghost use Rattle.std.specs.Prelude.{◌≡◌, ◌||◌, MatchOption, false, not};
ghost use Rattle.mio.specs.Interest.{is_readable, is_writable};
ghost use Rattle.ddcmp_device.specs.Readiness.{is_any_ready};

use crate::place::LinePlace;
use ddcmp_io::Wanted;
use mio::event::Event;
use mio::unix::SourceFd;
use mio::{Events, Interest, Poll, Token};
use std::alloc::Global;
use std::io;
use std::net::Net;
use std::os::fd::RawFd;
use std::time::Duration;

/// The longest single wait, in milliseconds.
const HOUR_MS: u64 = 3_600_000;

const INPUT: Token = Token(0);

const OUTPUT: Token = Token(1);

const ERRORS: Token = Token(2);

const LINE: Token = Token(3);

const CALLERS: Token = Token(4);

/// Whether a device is known to be readable, and writable.
#[derive(Clone, Copy)]
pub struct Ready {
    pub to_read: bool,
    pub to_write: bool,
}

impl Ready {
    pub(crate) const NOT: Ready = Ready {
        to_read: false,
        to_write: false,
    };

    pub(crate) const BOTH: Ready = Ready {
        to_read: true,
        to_write: true,
    };

    /// Adds what was reported.
    pub(crate) fn add(&mut self, reported: Ready)
        ensures reads { self.new.to_read ≡ (self.old.to_read || reported.to_read) }
        ensures writes { self.new.to_write ≡ (self.old.to_write || reported.to_write) }
    {
        self.to_read = self.to_read || reported.to_read;
        self.to_write = self.to_write || reported.to_write;
    }
}

/// A descriptor that is armed again before each wait, if it isn't ready.
#[derive(Clone, Copy)]
pub struct Descriptor {
    number: RawFd,
    token: Token,
    /// Whether the system reports its readiness; it doesn't for a file, which is always ready.
    pub is_reported: bool,
    pub ready: Ready,
}

impl Descriptor {
    /// Registers a descriptor, if the system reports the readiness of such a one.
    pub(crate) fn new(poll: &Poll, number: RawFd, token: Token, interest: Interest) -> Descriptor {
        let is_reported = poll
            .registry()
            .register(&mut SourceFd(&number), token, interest)
            .is_ok();
        Descriptor {
            number,
            token,
            is_reported,
            ready: if is_reported { Ready::NOT } else { Ready::BOTH },
        }
    }

    /// Notes that a read returned all that there was.
    pub fn has_read(&mut self)
        ensures { self.new ≡ record self.old {
          ready = record self.old.ready { to_read = not self.old.is_reported };
        } }
    {
        self.ready.to_read = !self.is_reported;
    }

    /// Notes that a write filled the room that there was.
    pub fn has_written(&mut self)
        ensures { self.new ≡ record self.old {
          ready = record self.old.ready { to_write = not self.old.is_reported };
        } }
    {
        self.ready.to_write = !self.is_reported;
    }

    /// Has the next wait report it, if it is needed and not known to be ready.
    pub(crate) fn ask(&mut self, poll: &Poll, to_read: bool, to_write: bool) {
        let reads = to_read && !self.ready.to_read;
        let writes = to_write && !self.ready.to_write;
        let Some(interest) = interest_in(reads, writes) else {
            return;
        };
        if self.is_reported {
            let asked = poll
                .registry()
                .reregister(&mut SourceFd(&self.number), self.token, interest);
            if asked.is_err() {
                // It can't be waited for, so the next read or write finds out.
                self.ready = Ready::BOTH;
            }
        }
    }
}

/// Returns what to wait for on a device; none if nothing is needed of it.
fn interest_in(to_read: bool, to_write: bool) -> Option<Interest>
    ensures { MatchOption result ((to_read ≡ false) × (to_write ≡ false))
        (λ interest. (is_readable interest ≡ to_read) × (is_writable interest ≡ to_write)) }
{
    match (to_read, to_write) {
        (true, true) => Some(Interest::READABLE | Interest::WRITABLE),
        (true, false) => Some(Interest::READABLE),
        (false, true) => Some(Interest::WRITABLE),
        (false, false) => None,
    }
}

/// Returns what an event reports to be ready.
pub(crate) fn reported_by(event: &Event) -> Ready {
    Ready {
        to_read: event.is_readable() || event.is_read_closed() || event.is_error(),
        to_write: event.is_writable() || event.is_write_closed() || event.is_error(),
    }
}

/// What a link waits for: standard input, output and error, and the line.
pub struct Poller {
    pub poll: Poll,
    events: Events,
    pub input: Descriptor,
    pub output: Descriptor,
    pub errors: Descriptor,
    pub line: LinePlace,
}

// Manual, since a derived `Drop` would be expanded wherever a value is dropped.
impl Drop for Poller {
    fn drop(self) {
        let Poller {
            poll: _poll,
            events: _events,
            input: _input,
            output: _output,
            errors: _errors,
            line: _line,
        } = self;
    }
}

impl Poller {
    /// Makes a poller for standard input, output and error.
    pub fn new<N: Net>(net: &N, alloc: Global) -> io::Result<Poller> {
        let poll = Poll::new(net)?;
        let events = Events::with_capacity(alloc, 5)?;
        let input = Descriptor::new(&poll, 0, INPUT, Interest::READABLE);
        let output = Descriptor::new(&poll, 1, OUTPUT, Interest::WRITABLE);
        let errors = Descriptor::new(&poll, 2, ERRORS, Interest::WRITABLE);
        Ok(Poller {
            poll,
            events,
            input,
            output,
            errors,
            line: LinePlace::new(LINE, CALLERS),
        })
    }

    /// Waits until something that is needed is ready, or `most_ms` milliseconds or an hour have
    /// passed; returns whether it could wait.
    pub fn wait(&mut self, wanted: Wanted, most_ms: u64) -> bool {
        self.input.ask(&self.poll, wanted.input, false);
        self.output.ask(&self.poll, false, wanted.output);
        self.errors.ask(&self.poll, false, wanted.errors);
        self.line.ask(&self.poll, wanted.from_line, wanted.to_line);
        let most = if self.is_any_ready(wanted) {
            0
        } else {
            most_ms.min(HOUR_MS)
        };
        let most = Some(Duration::from_millis(most));
        if self.poll.poll(&mut self.events, most).is_err() {
            return false;
        }
        self.note();
        true
    }

    /// Returns whether something requested is known to be ready, so that there is no need to wait.
    fn is_any_ready(&self, wanted: Wanted) -> bool
        ensures { result ≡ is_any_ready wanted self.now }
    {
        wanted.input && self.input.ready.to_read
            || wanted.output && self.output.ready.to_write
            || wanted.errors && self.errors.ready.to_write
            || self.line.is_ready(wanted.from_line, wanted.to_line)
    }

    /// Notes what the wait reported.
    fn note(&mut self) {
        for event in self.events.iter() {
            let reported = reported_by(event);
            match event.token() {
                INPUT => self.input.ready.add(reported),
                OUTPUT => self.output.ready.add(reported),
                ERRORS => self.errors.ready.add(reported),
                token => self.line.note(token, reported),
            }
        }
    }
}

/// Returns whether standard error can be written, now or within a second.
pub fn errors_take<N: Net>(net: &N, alloc: Global) -> bool {
    let Ok(mut poller) = Poller::new(net, alloc) else {
        return true;
    };
    // Readiness of standard input may end a wait.
    for _try in 0..4u8 {
        if poller.errors.ready.to_write || !poller.wait(Wanted::ERRORS, 250) {
            return true;
        }
    }
    poller.errors.ready.to_write
}
