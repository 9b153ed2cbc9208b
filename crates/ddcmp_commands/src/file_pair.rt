//! Two files that are read as their bytes are received, whichever of them is needed next.
ghost use Rattle.std.specs.Prelude.{◌≡◌, [], drop};
ghost use Rattle.std.specs.Io.KnownBytes.{Keeps};
ghost use Rattle.ddcmp_io.specs.Device.{ReadGives};
ghost use Rattle.ddcmp_commands.specs.Early.{Reads, unread};

use crate::early::Early;
use crate::file_poller::FilePoller;
use ddcmp_io::{Got, Source, Worst};
use ddcmp_log::Side;
use std::alloc::Global;
use std::cell::RefCell;

/// Two files, one of each side. If the one that is needed can't be read yet, the other is read
/// early, so that who writes both isn't stopped by a full pipe. Read them by `HalfPair`.
pub struct FilePair<R> {
    caller: Early<R>,
    called: Early<R>,
    /// None if the system reports none or only one of them.
    poller: Option<FilePoller>,
}

// Manual, since a derived `Drop` would be expanded wherever a value is dropped.
impl<R: Drop> Drop for FilePair<R> {
    fn drop(self) {
        let FilePair {
            caller: _caller,
            called: _called,
            poller: _poller,
        } = self;
    }
}

/// Reads one of two files once it can be read, and the other early until then. It fails if there is
/// no memory for that.
fn read_as_received<R: Source>(
    own: &mut Early<R>,
    other: &mut Early<R>,
    poller: &mut Option<FilePoller>,
    side: Side,
    buf: &mut [u8],
) -> Got
    ensures own { ReadGives (unread own.old.taken own.old.bytes.items (R.left own.old.source))
        (unread own.new.taken own.new.bytes.items (R.left own.new.source)) result buf.new }
    ensures other { Keeps (unread other.old.taken other.old.bytes.items (R.left other.old.source))
        (unread other.new.taken other.new.bytes.items (R.left other.new.source)) }
{
    if let Some(poller) = poller {
        for _wait in 0..u64::MAX {
            if own.is_ready() {
                break;
            }
            let readable = poller.wait(side, other.is_open());
            if readable.own {
                break;
            }
            if readable.other {
                other.fetch();
            }
            if other.is_refused() {
                return Got::Failed;
            }
        }
    }
    own.read(buf)
}

impl<R: Source> FilePair<R> {
    /// Returns two files, and what waits for them.
    pub(crate) fn new(
        alloc: Global,
        caller: R,
        called: R,
        poller: Option<FilePoller>,
    ) -> FilePair<R>
        ensures caller { result.caller.source ≡ caller }
        ensures called { result.called.source ≡ called }
        ensures caller_early { drop result.caller.taken result.caller.bytes.items ≡ [] }
        ensures called_early { drop result.called.taken result.called.bytes.items ≡ [] }
    {
        FilePair {
            caller: Early::new(alloc, caller),
            called: Early::new(alloc, called),
            poller,
        }
    }

    /// Returns whether there was no memory to read one of them early.
    pub(crate) fn is_refused(&self) -> bool {
        self.caller.is_refused() || self.called.is_refused()
    }

    /// Reads the file of a side.
    fn read(&mut self, side: Side, buf: &mut [u8]) -> Got
        ensures caller { side ≡ Side.Caller → Reads
            (unread self.old.caller.taken self.old.caller.bytes.items
            (R.left self.old.caller.source))
            (unread self.new.caller.taken self.new.caller.bytes.items
            (R.left self.new.caller.source))
            (unread self.old.called.taken self.old.called.bytes.items
            (R.left self.old.called.source))
            (unread self.new.called.taken self.new.called.bytes.items
            (R.left self.new.called.source))
            result buf.new }
        ensures called { side ≡ Side.Called → Reads
            (unread self.old.called.taken self.old.called.bytes.items
            (R.left self.old.called.source))
            (unread self.new.called.taken self.new.called.bytes.items
            (R.left self.new.called.source))
            (unread self.old.caller.taken self.old.caller.bytes.items
            (R.left self.old.caller.source))
            (unread self.new.caller.taken self.new.caller.bytes.items
            (R.left self.new.caller.source))
            result buf.new }
    {
        let (caller, called, poller) = (&mut self.caller, &mut self.called, &mut self.poller);
        match side {
            Side::Caller => read_as_received(caller, called, poller, side, buf),
            Side::Called => read_as_received(called, caller, poller, side, buf),
        }
    }
}

/// The file of a side, as a source.
#[derive(Drop)]
pub(crate) struct HalfPair<'a, R> {
    pair: &'a RefCell<FilePair<R>>,
    side: Side,
    worst: Worst,
}

impl<'a, R> HalfPair<'a, R> {
    pub(crate) fn new(pair: &'a RefCell<FilePair<R>>, side: Side) -> Self
        ensures { result.worst ≡ Worst.Fine }
    {
        HalfPair {
            pair,
            side,
            worst: Worst::Fine,
        }
    }
}

impl<R: Source> Source for HalfPair<'_, R> {
    ghost use Rattle.std.specs.Prelude.{None};

    // No contract can state what a cell contains.
    ghost left = { λ _. None };

    ghost state = { λ half. half.worst };

    fn read(&mut self, buf: &mut [u8]) -> Got {
        let got = match self.pair.try_borrow_mut() {
            Ok(mut pair) => pair.read(self.side, buf),
            Err(_in_use) => Got::Failed,
        };
        self.worst = match got {
            Got::Bytes(_) => self.worst,
            Got::Idle if self.worst == Worst::Fine => Worst::Idle,
            Got::Idle => self.worst,
            Got::Failed => Worst::Failed,
        };
        got
    }

    fn worst(&self) -> Worst {
        self.worst
    }
}
