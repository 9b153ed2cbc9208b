//! Whether a line is ready: a socket, or a serial device.
ghost use Rattle.std.specs.Prelude.{◌≡◌, ◌&&◌, ◌||◌};
ghost use Rattle.ddcmp_device.specs.Readiness.{place_ready};

use crate::poller::{Descriptor, Ready};
use mio::event::Source;
use mio::unix::SourceFd;
use mio::{Interest, Poll, Token};
use std::io;
use std::os::fd::RawFd;

/// What is known of the readiness of a line, and what it is registered by.
pub struct LinePlace {
    line: Token,
    callers: Token,
    /// The line, if it is a serial device.
    device: Option<Descriptor>,
    /// The line, if it is a socket.
    socket: Ready,
}

// Manual, since a derived `Drop` would be expanded wherever a value is dropped.
impl Drop for LinePlace {
    fn drop(self) {
        let LinePlace {
            line: _,
            callers: _,
            device: _device,
            socket: _,
        } = self;
    }
}

impl LinePlace {
    /// Makes the place of a line that isn't open, which will be registered with these tokens: for
    /// itself, and for a listener to its callers.
    pub(crate) fn new(line: Token, callers: Token) -> LinePlace {
        LinePlace {
            line,
            callers,
            device: None,
            socket: Ready::NOT,
        }
    }

    /// Adds a socket, which is the line.
    pub(crate) fn add_socket<S: Source>(&mut self, poll: &Poll, socket: &mut S) -> io::Result<()> {
        self.device = None;
        self.socket = Ready::BOTH;
        let both = Interest::READABLE | Interest::WRITABLE;
        poll.registry().register(socket, self.line, both)
    }

    /// Adds a serial device, which is the line.
    pub(crate) fn add_device(&mut self, poll: &Poll, number: RawFd) {
        let both = Interest::READABLE | Interest::WRITABLE;
        self.device = Some(Descriptor::new(poll, number, self.line, both));
    }

    /// Adds a listener, to wait for callers.
    pub(crate) fn add_listener<S: Source>(&self, poll: &Poll, listener: &mut S) -> io::Result<()> {
        let registry = poll.registry();
        registry.register(listener, self.callers, Interest::READABLE)
    }

    /// Has the next wait report the pending callers of a listener again.
    pub(crate) fn ask_callers(&self, poll: &Poll, number: RawFd) -> io::Result<()> {
        let registry = poll.registry();
        registry.reregister(&mut SourceFd(&number), self.callers, Interest::READABLE)
    }

    /// Forgets the line, which was closed.
    pub fn forget(&mut self) {
        self.socket = Ready::NOT;
        self.device = None;
    }

    /// Returns whether a read may return something.
    pub fn may_read(&self) -> bool
        ensures { result ≡ (place_ready self.now).to_read }
    {
        match &self.device {
            Some(device) => device.ready.to_read,
            None => self.socket.to_read,
        }
    }

    /// Returns whether a write may succeed.
    pub fn may_write(&self) -> bool
        ensures { result ≡ (place_ready self.now).to_write }
    {
        match &self.device {
            Some(device) => device.ready.to_write,
            None => self.socket.to_write,
        }
    }

    /// Returns whether something that is needed is known to be ready, so that there is no need to
    /// wait.
    pub(crate) fn is_ready(&self, to_read: bool, to_write: bool) -> bool
        ensures { result ≡ (to_read && (place_ready self.now).to_read
            || to_write && (place_ready self.now).to_write) }
    {
        to_read && self.may_read() || to_write && self.may_write()
    }

    /// Notes a read; `is_dry` if it returned nothing.
    pub fn was_read(&mut self, is_dry: bool) {
        match &mut self.device {
            Some(device) => device.has_read(),
            None => self.socket.to_read = !is_dry,
        }
    }

    /// Notes a write; `is_full` if it took nothing.
    pub fn was_written(&mut self, is_full: bool) {
        match &mut self.device {
            Some(device) => device.has_written(),
            None => self.socket.to_write = !is_full,
        }
    }

    /// Has the next read find out whether there is anything left, after a write that failed.
    pub(crate) fn may_have_more(&mut self) {
        match &mut self.device {
            Some(device) => device.ready.to_read = true,
            None => self.socket.to_read = true,
        }
    }

    /// Has the next wait report it, if it is needed and not known to be ready.
    pub(crate) fn ask(&mut self, poll: &Poll, to_read: bool, to_write: bool) {
        if let Some(device) = &mut self.device {
            device.ask(poll, to_read, to_write);
        }
    }

    /// Notes what a wait reported, if it is of this line.
    pub(crate) fn note(&mut self, token: Token, reported: Ready) {
        if token != self.line {
            return;
        }
        match &mut self.device {
            Some(device) => device.ready.add(reported),
            None => self.socket.add(reported),
        }
    }
}
