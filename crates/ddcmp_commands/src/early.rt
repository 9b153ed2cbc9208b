//! A source of which bytes may be read before they are needed.
ghost use Rattle.std.specs.Prelude.{◌≡◌, ◌≤◌, [], drop, vec_len};
ghost use Rattle.std.specs.Io.KnownBytes.{Keeps};
ghost use Rattle.ddcmp_io.specs.Device.{ReadGives};
ghost use Rattle.ddcmp_commands.specs.Early.{unread};

use ddcmp_explain::PIECE;
use ddcmp_io::{Got, Source, Worst};
use std::alloc::Global;

/// A source, and what was read of it before it was needed. Its memory doesn't grow beyond twice the
/// most that was waiting, and a chunk.
pub(crate) struct Early<R> {
    pub(crate) source: R,
    pub(crate) bytes: Vec<u8>,
    /// How many of these bytes were returned.
    pub(crate) taken: usize,
    /// Whether it ended or failed when it was read early.
    is_over: bool,
    /// Whether there was no memory to read it early.
    is_refused: bool,
    ghost within: { taken ≤ vec_len bytes },
}

// Manual, since a derived `Drop` would be expanded wherever a value is dropped.
impl<R: Drop> Drop for Early<R> {
    fn drop(self) {
        let Early {
            source: _source,
            bytes: _bytes,
            taken: _,
            is_over: _,
            is_refused: _,
        } = self;
    }
}

impl<R: Source> Early<R> {
    /// Returns a source of which nothing was read early.
    pub(crate) fn new(alloc: Global, source: R) -> Early<R>
        ensures source { result.source ≡ source }
        ensures none { drop result.taken result.bytes.items ≡ [] }
    {
        Early {
            source,
            bytes: Vec::new(alloc),
            taken: 0,
            is_over: false,
            is_refused: false,
        }
    }

    /// Returns whether more of it can be read early.
    pub(crate) fn is_open(&self) -> bool {
        !self.is_over
    }

    /// Returns whether a read need not wait for the source.
    pub(crate) fn is_ready(&self) -> bool {
        self.is_over || self.taken < self.bytes.len()
    }

    /// Returns whether there was no memory to read it early.
    pub(crate) fn is_refused(&self) -> bool {
        self.is_refused
    }

    /// Reads a chunk early, if there is memory for it.
    pub(crate) fn fetch(&mut self)
        ensures { Keeps (unread self.old.taken self.old.bytes.items (R.left self.old.source))
            (unread self.new.taken self.new.bytes.items (R.left self.new.source)) }
    {
        self.settle();
        if self.bytes.reserve(PIECE).is_err() {
            self.is_refused = true;
            return;
        }
        let mut piece = [0; PIECE];
        match read_unfailed(&mut self.source, &mut piece) {
            Got::Bytes(0) | Got::Failed => self.is_over = true,
            Got::Bytes(n) => match self.bytes.extend_from_slice(&piece[..n]) {
                Ok(()) => {}
                Err(_) => unreachable!(),
            },
            Got::Idle => {}
        }
    }

    /// Reuses the room of returned bytes if they are at least half of all.
    fn settle(&mut self)
        ensures waiting { drop self.new.taken self.new.bytes.items
            ≡ drop self.old.taken self.old.bytes.items }
        ensures source { self.new.source ≡ self.old.source }
    {
        let left = self.bytes.len() - self.taken;
        if left <= self.taken {
            self.bytes.copy_within(self.taken.., 0);
            self.bytes.truncate(left);
            self.taken = 0;
        }
    }

    /// Reads into the front of `buf`: what was read early, and then the source.
    pub(crate) fn read(&mut self, buf: &mut [u8]) -> Got
        ensures { ReadGives (unread self.old.taken self.old.bytes.items (R.left self.old.source))
            (unread self.new.taken self.new.bytes.items (R.left self.new.source)) result buf.new }
    {
        let left = self.bytes.len() - self.taken;
        if left == 0 {
            return read_unfailed(&mut self.source, buf);
        }
        let n = left.min(buf.len());
        buf[..n].copy_from_slice(&self.bytes[self.taken..][..n]);
        self.taken += n;
        Got::Bytes(n)
    }
}

/// Reads a source, unless it failed before.
fn read_unfailed<R: Source>(source: &mut R, buf: &mut [u8]) -> Got
    ensures { ReadGives (R.left source.old) (R.left source.new) result buf.new }
{
    match source.worst() {
        Worst::Failed => Got::Failed,
        Worst::Fine | Worst::Idle => source.read(buf),
    }
}
