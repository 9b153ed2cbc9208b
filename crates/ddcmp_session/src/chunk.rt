//! Bytes that were read from a device and not used yet.
ghost use Rattle.std.specs.Prelude.{◌≡◌, ◌≤◌, ◌==◌, ◌++◌, [], IfOk, List, ℕ, drop, length};
ghost use Rattle.std.specs.Prelude.{take};
ghost use Rattle.ddcmp_session.specs.Traffic.{Becomes, after_line_read, after_read, count_read};
ghost use Rattle.ddcmp_session.specs.Traffic.{moved_of};

use crate::devices::{Devices, Transfer};
use ddcmp_io::Got;
use std::alloc::{AllocError, Global};
use std::marker::Model;

/// How many bytes it holds at most.
const SIZE: usize = 65536;

/// Bytes that were read. The line is read once all of them were used, and the input while it has
/// room after them.
pub(crate) struct Chunk {
    bytes: Vec<u8>,
    start: usize,
    end: usize,
}

impl Model for Chunk {
    ghost use Rattle.std.specs.Prelude.{◌≤◌, ◌<◌, ℕ, List, drop, take, vec_len};

    ghost Value = { List ℕ };

    ghost view = { λ c. drop c.start (take c.end c.bytes.items) };

    ghost invariant = { λ c. (c.start ≤ c.end) × (c.end ≤ vec_len c.bytes)
        × (0 < vec_len c.bytes) };
}

// Manual, since a derived `Drop` is expanded wherever a chunk is dropped.
impl Drop for Chunk {
    fn drop(self) {
        let Chunk {
            bytes: _bytes,
            start: _,
            end: _,
        } = self;
    }
}

impl Chunk {
    /// Makes an empty chunk. Allocates all the memory that it will need.
    pub(crate) fn new(alloc: Global) -> Result<Chunk, AllocError>
        ensures { IfOk result (λ made. made ≡ []) }
    {
        Ok(Chunk {
            bytes: Vec::from_elem(alloc, 0u8, SIZE)?,
            start: 0,
            end: 0,
        })
    }

    /// Returns the bytes that weren't used.
    pub(crate) fn rest(&self) -> &[u8]
        ensures { result.now ≡ self.now }
    {
        &self.bytes[self.start..self.end]
    }

    pub(crate) fn is_empty(&self) -> bool
        ensures { result ≡ (length self.now == 0) }
    {
        self.rest().is_empty()
    }

    /// Reads more of the input, after the bytes that weren't used, if there is room.
    pub(crate) fn read_input<D: Devices>(&mut self, devices: &mut D) -> Got
        ensures { (space : List ℕ) × (self.new ≡ self.old ++ take (count_read result) space)
            × Becomes (D.traffic devices.old) (D.traffic devices.new) (after_read result space) }
    {
        if self.is_empty() {
            self.clear();
        }
        self.read_more(devices)
    }

    /// Reads more of the input, if there is room after its bytes.
    fn read_more<D: Devices>(&mut self, devices: &mut D) -> Got
        ensures { (space : List ℕ) × (self.new ≡ self.old ++ take (count_read result) space)
            × Becomes (D.traffic devices.old) (D.traffic devices.new) (after_read result space) }
    {
        if self.end >= self.bytes.len() {
            return Got::Idle;
        }
        let got = devices.read_input(&mut self.bytes[self.end..]);
        self.end += count_read(got);
        got
    }

    /// Reads the line. All bytes must have been used.
    pub(crate) fn read_line<D: Devices>(&mut self, devices: &mut D) -> Transfer
        requires { self.old ≡ [] }
        ensures { (space : List ℕ) × (self.new ≡ moved_of result space)
            × Becomes (D.traffic devices.old) (D.traffic devices.new)
            (after_line_read result space) }
    {
        let got = devices.read_line(&mut self.bytes);
        self.start = 0;
        self.end = got.count();
        got
    }

    /// Notes that the first `n` bytes were used.
    pub(crate) fn used(&mut self, n: usize)
        requires { n ≤ length self.old }
        ensures { self.new ≡ drop n self.old }
    {
        self.start += n;
    }

    /// Drops all bytes.
    pub(crate) fn clear(&mut self)
        ensures { self.new ≡ [] }
    {
        self.start = 0;
        self.end = 0;
    }
}

/// Returns how many bytes were read.
fn count_read(got: Got) -> usize
    ensures { result ≡ count_read got }
{
    match got {
        Got::Bytes(n) => n,
        Got::Idle | Got::Failed => 0,
    }
}
