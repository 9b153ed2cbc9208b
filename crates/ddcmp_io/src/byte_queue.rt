//! Bytes in flight to a device.
ghost use Rattle.std.specs.Prelude.{◌≡◌, ◌+◌, ◌≤◌, [], IfOk, length};
ghost use Rattle.ddcmp_io.specs.Queue.{no_bytes, after_pushed, after_taken, after_taken_back};
ghost use Rattle.ddcmp_io.specs.Queue.{cleared, room_settled};

use crate::device::Sink;
use std::alloc::{AllocError, Global};
use std::marker::Model;

/// A queue of bytes: they are appended at its end and removed from its front, and are contiguous.
/// It has a fixed size, and doesn't allocate after it is made.
pub struct ByteQueue {
    bytes: Vec<u8>,
    /// How many of them were taken.
    start: usize,
    size: usize,
    /// Whether some text was dropped for lack of room.
    is_cut: bool,
}

// Manual, since a derived `Drop` would be expanded wherever a value is dropped.
impl Drop for ByteQueue {
    fn drop(self) {
        let ByteQueue {
            bytes: _bytes,
            start: _,
            size: _,
            is_cut: _,
        } = self;
    }
}

impl Model for ByteQueue {
    ghost use Rattle.std.specs.Prelude.{◌≡◌, ◌-◌, ◌≤◌, drop, vec_len, vec_capacity};
    ghost use Rattle.ddcmp_io.specs.Queue.{QueueView};

    ghost Value = { QueueView };

    ghost view = { λ q. record {
      size = q.size;
      waiting = drop q.start q.bytes.items;
      room = q.size - vec_len q.bytes;
      is_cut = q.is_cut;
    } };

    ghost invariant = { λ q. (q.start ≤ vec_len q.bytes) × (vec_len q.bytes ≤ q.size)
        × (q.size ≤ vec_capacity q.bytes) × (q.start ≡ vec_len q.bytes → q.start ≡ 0) };
}

impl ByteQueue {
    /// Makes an empty queue with room for `size` bytes.
    pub fn new(alloc: Global, size: usize) -> Result<ByteQueue, AllocError>
        ensures { IfOk result (λ made. made ≡ no_bytes size) }
    {
        Ok(ByteQueue {
            bytes: Vec::with_capacity(alloc, size)?,
            start: 0,
            size,
            is_cut: false,
        })
    }

    /// Returns the queued bytes.
    pub fn waiting(&self) -> &[u8]
        ensures { result.now ≡ self.now.waiting }
    {
        &self.bytes[self.start..]
    }

    /// Returns how many more bytes fit.
    pub fn room(&self) -> usize
        ensures value { result ≡ self.now.room }
        ensures most { result + length self.now.waiting ≤ self.now.size }
        ensures whole { self.now.waiting ≡ [] → result ≡ self.now.size }
    {
        self.size - self.bytes.len()
    }

    /// Returns whether some text was dropped for lack of room.
    pub fn is_cut(&self) -> bool
        ensures { result ≡ self.now.is_cut }
    {
        self.is_cut
    }

    /// Appends bytes.
    pub fn push(&mut self, bytes: &[u8])
        requires { length bytes.now ≤ self.old.room }
        ensures { self.new ≡ after_pushed bytes.now self.old }
    {
        match self.bytes.extend_from_slice(bytes) {
            Ok(()) => {}
            Err(_) => unreachable!(),
        }
    }

    /// Removes the first `n` bytes.
    pub fn took(&mut self, n: usize)
        requires { n ≤ length self.old.waiting }
        ensures taken { self.new ≡ after_taken n self.old }
        ensures room { self.old.room ≤ self.new.room }
    {
        if n == self.waiting().len() {
            self.clear();
        } else {
            self.start += n;
        }
    }

    /// Removes all bytes.
    pub fn clear(&mut self)
        ensures cleared { self.new ≡ cleared self.old }
        ensures room { self.old.room ≤ self.new.room }
    {
        self.bytes.clear();
        self.start = 0;
    }

    /// Removes the last `n` bytes that were appended.
    pub fn take_back(&mut self, n: usize)
        ensures { self.new ≡ after_taken_back n self.old }
    {
        let waiting = self.waiting().len();
        if waiting <= n {
            self.clear();
        } else {
            self.bytes.truncate(self.start + (waiting - n));
        }
    }

    /// Reuses the room of removed bytes if they are at least half of the buffer.
    pub fn settle(&mut self)
        ensures size { self.new.size ≡ self.old.size }
        ensures waiting { self.new.waiting ≡ self.old.waiting }
        ensures room { self.new.room ≡ room_settled self.old }
        ensures more { self.old.room ≤ self.new.room }
        ensures cut { self.new.is_cut ≡ self.old.is_cut }
    {
        if self.start < self.size / 2 {
            return;
        }
        let left = self.bytes.len() - self.start;
        self.bytes.copy_within(self.start.., 0);
        self.bytes.truncate(left);
        self.start = 0;
    }
}

/// Takes text as far as there is room. If there is none, the queue counts as failed.
impl Sink for ByteQueue {
    ghost use Rattle.std.specs.Prelude.{Some};

    ghost contents = { λ queue. Some queue.waiting };

    ghost broken = { λ queue. queue.is_cut };

    fn write(&mut self, bytes: &[u8]) -> Option<usize> {
        if self.room() == 0 {
            self.is_cut = true;
            return None;
        }
        let n = bytes.len().min(self.room());
        self.push(&bytes[..n]);
        Some(n)
    }

    fn failed(&self) -> bool {
        self.is_cut
    }
}
