//! Bytes that were read from a port and not used yet.
ghost use Rattle.std.specs.Prelude.{◌≡◌, ◌≤◌, ◌==◌, [], IfOk, List, ℕ, drop, length, take, true};
ghost use Rattle.ddcmp_ports.specs.Moving.{count_moved};
ghost use Rattle.ddcmp_ports.specs.Running.{Changes, Keeps, Sticks, after_read, moves_nothing};

use crate::port::{Port, Transfer};
use crate::system::System;
use std::alloc::{AllocError, Global};
use std::marker::Model;

/// Bytes that were read. The port is read once all of them were used.
pub struct Chunk {
    bytes: Vec<u8>,
    start: usize,
    end: usize,
}

impl Model for Chunk {
    ghost use Rattle.std.specs.Prelude.{◌≤◌, ◌<◌, ℕ, List, drop, take, vec_len};

    ghost Value = { List ℕ };

    ghost view = { λ c. drop c.start (take c.end c.bytes.items) };

    ghost invariant = { λ c. (c.start ≤ c.end) × (c.end ≤ vec_len c.bytes)
        × (0 < vec_len c.bytes) };
}

// Manual, since a derived `Drop` is expanded wherever a chunk is dropped.
impl Drop for Chunk {
    fn drop(self) {
        let Chunk {
            bytes: _bytes,
            start: _,
            end: _,
        } = self;
    }
}

impl Chunk {
    /// Makes an empty chunk for at most `size` bytes, or one if that is 0. Allocates all the memory
    /// that it will need.
    pub fn new(alloc: Global, size: usize) -> Result<Chunk, AllocError>
        ensures { IfOk result (λ made. made ≡ []) }
    {
        Ok(Chunk {
            bytes: Vec::from_elem(alloc, 0u8, size.max(1))?,
            start: 0,
            end: 0,
        })
    }

    /// Returns the bytes that weren't used.
    pub fn rest(&self) -> &[u8]
        ensures { result.now ≡ self.now }
    {
        &self.bytes[self.start..self.end]
    }

    pub fn is_empty(&self) -> bool
        ensures exact { result ≡ (length self.now == 0) }
        ensures none { result ≡ true → self.now ≡ [] }
    {
        self.rest().is_empty()
    }

    /// Reads a port. All bytes must have been used.
    pub fn read<S: System>(&mut self, port: Port, system: &mut S) -> Transfer
        requires { self.old ≡ [] }
        ensures read { (space : List ℕ) × (self.new ≡ take (count_moved result) space)
            × Changes port (after_read result space) (S.trace system.old) (S.trace system.new) }
        ensures stuck { Sticks port (λ s. record s { read = moves_nothing result })
            (S.stuck system.old) (S.stuck system.new) }
        ensures moment { S.moment system.new ≡ S.moment system.old }
    {
        let got = system.read(port, &mut self.bytes);
        self.start = 0;
        self.end = got.count();
        got
    }

    /// Notes that the first `n` bytes were used.
    pub fn used(&mut self, n: usize)
        requires { n ≤ length self.old }
        ensures { self.new ≡ drop n self.old }
    {
        self.start += n;
    }

    /// Drops all bytes.
    pub fn clear(&mut self)
        ensures { self.new ≡ [] }
    {
        self.start = 0;
        self.end = 0;
    }
}
