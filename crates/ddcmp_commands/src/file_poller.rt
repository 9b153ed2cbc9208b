//! Waits for two files whose readiness the system reports.
use ddcmp_log::Side;
use mio::unix::SourceFd;
use mio::{Events, Interest, Poll, Token};
use std::alloc::Global;
use std::io;
use std::net::Net;
use std::os::fd::RawFd;

/// Waits for two files, one of each side.
pub(crate) struct FilePoller {
    poll: Poll,
    events: Events,
    caller: RawFd,
    called: RawFd,
}

// Manual, since a derived `Drop` would be expanded wherever a value is dropped.
impl Drop for FilePoller {
    fn drop(self) {
        let FilePoller {
            poll: _poll,
            events: _events,
            caller: _,
            called: _,
        } = self;
    }
}

/// Which of two files may be read without waiting: that of a side, and the other.
#[derive(Clone, Copy)]
pub(crate) struct Readable {
    pub(crate) own: bool,
    pub(crate) other: bool,
}

/// Returns the name by which the file of a side is reported.
fn token_of(side: Side) -> Token {
    match side {
        Side::Caller => Token(0),
        Side::Called => Token(1),
    }
}

impl FilePoller {
    /// Makes a poller for two descriptors. The system doesn't report a regular file, which can
    /// always be read: then there is an error.
    pub(crate) fn new<N: Net>(
        net: &N,
        alloc: Global,
        caller: RawFd,
        called: RawFd,
    ) -> io::Result<FilePoller> {
        let poll = Poll::new(net)?;
        for (number, side) in [(caller, Side::Caller), (called, Side::Called)] {
            let token = token_of(side);
            poll.registry()
                .register(&mut SourceFd(&number), token, Interest::READABLE)?;
        }
        Ok(FilePoller {
            poll,
            events: Events::with_capacity(alloc, 2)?,
            caller,
            called,
        })
    }

    /// Has the next wait report the file of a side.
    fn ask(&self, side: Side) -> io::Result<()> {
        let number = match side {
            Side::Caller => self.caller,
            Side::Called => self.called,
        };
        let token = token_of(side);
        self.poll
            .registry()
            .reregister(&mut SourceFd(&number), token, Interest::READABLE)
    }

    /// Waits until the file of a side can be read, or also, if `both`, the other. If it can't wait,
    /// the next read will.
    pub(crate) fn wait(&mut self, side: Side, both: bool) -> Readable {
        let waited = self.ask(side).is_ok()
            && (!both || self.ask(side.other()).is_ok())
            && self.poll.poll(&mut self.events, None).is_ok();
        let mut readable = Readable {
            own: !waited,
            other: false,
        };
        for event in self.events.iter() {
            if event.token() == token_of(side) {
                readable.own = true;
            } else {
                readable.other = both;
            }
        }
        readable
    }
}
