//! Devices in memory, for tests: they move a few bytes at a time, are idle, and fail when
//! requested.
//! None allocates. Run a call with a failure at 1, 2, .. until no device fails any more.
ghost use Rattle.std.specs.Prelude.{◌≡◌, ◌<◌, ◌≤◌, ◌++◌, flat_map};
ghost use Rattle.ddcmp_io.specs.Failing.{empty_sink, pieces_of};

use crate::device::{Got, Sink, Source, Worst};
use std::marker::Model;

/// Stands for no call: calls are counted from 1.
const NEVER: usize = 0;

/// A source that returns chunks one after another, and then its end. An empty chunk is an idle
/// read. Contracts see the bytes that are left, the worst status so far and the requested faults.
#[derive(Drop)]
pub struct Pieces<'a> {
    /// What is left of the current chunk.
    begun: &'a [u8],
    later: &'a [&'a [u8]],
    most: usize,
    calls: usize,
    idle_at: usize,
    fails_at: usize,
    worst: Worst,
}

impl<'a> Model for Pieces<'a> {
    ghost use Rattle.std.specs.Prelude.{◌++◌, ◌<◌, flat_map};
    ghost use Rattle.ddcmp_io.specs.Failing.{PiecesView};

    ghost Value = { PiecesView };

    ghost view = { λ s. record {
      left = s.begun.now ++ flat_map (λ piece. piece.now) s.later.now;
      worst = s.worst;
      reads = s.calls;
      most = s.most;
      idle_at = s.idle_at;
      fails_at = s.fails_at;
    } };

    ghost invariant = { λ s. 0 < s.most };
}

impl<'a> Pieces<'a> {
    /// Makes a source of these pieces, which are read one at a time.
    pub fn new(pieces: &'a [&'a [u8]]) -> Self
        ensures { result ≡ pieces_of (flat_map (λ piece. piece.now) pieces.now) }
    {
        Pieces::beginning(&[], pieces)
    }

    /// Returns a source with a text in one chunk.
    pub fn of(text: &'a [u8]) -> Self
        ensures { result ≡ pieces_of text.now }
    {
        Pieces::beginning(text, &[])
    }

    fn beginning(begun: &'a [u8], later: &'a [&'a [u8]]) -> Self
        ensures { result ≡ pieces_of (begun.now ++ flat_map (λ piece. piece.now) later.now) }
    {
        Pieces {
            begun,
            later,
            most: usize::MAX,
            calls: 0,
            idle_at: NEVER,
            fails_at: NEVER,
            worst: Worst::Fine,
        }
    }

    /// Has a read return at most this many bytes.
    pub fn at_most(self, most: usize) -> Self
        requires { 0 < most }
        ensures { result ≡ record self.entry { most = most } }
    {
        Pieces { most, ..self }
    }

    /// Has the read number `call`, counted from 1, be idle; 0 for none.
    pub fn idle_at(self, call: usize) -> Self
        ensures { result ≡ record self.entry { idle_at = call } }
    {
        Pieces {
            idle_at: call,
            ..self
        }
    }

    /// Has the read number `call`, counted from 1, fail; 0 for none.
    pub fn failing_at(self, call: usize) -> Self
        ensures { result ≡ record self.entry { fails_at = call } }
    {
        Pieces {
            fails_at: call,
            ..self
        }
    }
}

impl<'a> Source for Pieces<'a> {
    ghost use Rattle.std.specs.Prelude.{◌≢◌, ◌↔◌, ◌+◌, ◌-◌, ◌^◌, ℕ, Some, min};
    ghost use Rattle.ddcmp_io.specs.Device.{ReadGives, worse};

    ghost left = { λ s. Some s.left };

    ghost state = { λ s. s.worst };

    fn read(&mut self, buf: &mut [u8]) -> Got
        requires { self.old.worst ≢ Worst.Failed }
        ensures bytes { ReadGives (Some self.old.left) (Some self.new.left) result buf.new }
        ensures worst { self.new.worst ≡ worse self.old.worst result }

        // It does what was requested.
        ensures told { self.new ≡ record self.old {
          left = self.new.left;
          worst = self.new.worst;
          reads = min (self.old.reads + 1) (2 ^ 64 - 1);
        } }
        ensures fails { (result ≡ Got.Failed) ↔ (self.new.reads ≡ self.old.fails_at) }
        ensures idle { self.new.reads ≡ self.old.idle_at
            → self.new.reads ≢ self.old.fails_at → result ≡ Got.Idle }
        ensures most { (n : ℕ) → result ≡ Got.Bytes n → n ≤ self.old.most }
    {
        self.calls = self.calls.saturating_add(1);
        if self.calls == self.fails_at {
            self.worst = Worst::Failed;
            return Got::Failed;
        }
        if self.calls == self.idle_at {
            self.worst = Worst::Idle;
            return Got::Idle;
        }
        if self.begun.is_empty() {
            if self.later.is_empty() {
                return Got::Bytes(0);
            }
            self.begun = self.later[0];
            self.later = &self.later[1..];
            if self.begun.is_empty() {
                self.worst = Worst::Idle;
                return Got::Idle;
            }
        }
        let n = self.begun.len().min(self.most).min(buf.len());
        let (given, rest) = self.begun.split_at(n);
        buf[..n].copy_from_slice(given);
        self.begun = rest;
        Got::Bytes(n)
    }

    fn worst(&self) -> Worst {
        self.worst
    }
}

/// A sink that keeps what was written, at most N bytes, and fails when it is full. Contracts see
/// the bytes that it holds, whether a write failed and the requested faults.
#[derive(Drop)]
pub struct BoundedSink<const N: usize> {
    bytes: [u8; N],
    len: usize,
    room: usize,
    most: usize,
    calls: usize,
    fails_at: usize,
    failed: bool,
}

impl<const N: usize> Model for BoundedSink<N> {
    ghost use Rattle.std.specs.Prelude.{◌<◌, ◌≤◌, take};
    ghost use Rattle.ddcmp_io.specs.Failing.{BoundedSinkView};

    ghost Value = { BoundedSinkView };

    ghost view = { λ s. record {
      bytes = take s.len s.bytes;
      broken = s.failed;
      writes = s.calls;
      room = s.room;
      most = s.most;
      fails_at = s.fails_at;
    } };

    ghost invariant = { λ s. (s.len ≤ s.room) × (s.room ≤ N) × (0 < s.most) };
}

impl<const N: usize> BoundedSink<N> {
    /// Makes an empty sink with room for `N` bytes.
    pub fn new() -> Self
        ensures { result ≡ empty_sink N }
    {
        BoundedSink::full_at(N)
    }

    /// Returns a sink that is full at this many bytes.
    pub fn full_at(room: usize) -> Self
        requires { room ≤ N }
        ensures { result ≡ empty_sink room }
    {
        BoundedSink {
            bytes: [0; N],
            len: 0,
            room,
            most: usize::MAX,
            calls: 0,
            fails_at: NEVER,
            failed: false,
        }
    }

    /// Has a write take at most this many bytes.
    pub fn at_most(self, most: usize) -> Self
        requires { 0 < most }
        ensures { result ≡ record self.entry { most = most } }
    {
        BoundedSink { most, ..self }
    }

    /// Has the write number `call`, counted from 1, fail; 0 for none.
    pub fn failing_at(self, call: usize) -> Self
        ensures { result ≡ record self.entry { fails_at = call } }
    {
        BoundedSink {
            fails_at: call,
            ..self
        }
    }

    /// Returns what was written.
    pub fn bytes(&self) -> &[u8]
        ensures { result.now ≡ self.now.bytes }
    {
        &self.bytes[..self.len]
    }
}

impl<const N: usize> Sink for BoundedSink<N> {
    ghost use Rattle.std.specs.Prelude.{◌↔◌, ◌⊎◌, ◌+◌, ◌-◌, ◌^◌, None, Some, IfSome};
    ghost use Rattle.std.specs.Prelude.{false, is_none, length, min};
    ghost use Rattle.ddcmp_io.specs.Device.{WriteTakes};

    ghost contents = { λ s. Some s.bytes };

    ghost broken = { λ s. s.broken };

    fn write(&mut self, bytes: &[u8]) -> Option<usize>
        requires whole { self.old.broken ≡ false }
        requires some { 0 < length bytes.now }
        ensures bytes { WriteTakes (Some self.old.bytes) (Some self.new.bytes) result bytes.now }
        ensures broken { self.new.broken ≡ is_none result }

        // It does what was requested.
        ensures told { self.new ≡ record self.old {
          bytes = self.new.bytes;
          broken = self.new.broken;
          writes = min (self.old.writes + 1) (2 ^ 64 - 1);
        } }
        ensures fails { (result ≡ None) ↔ ((self.new.writes ≡ self.old.fails_at)
            ⊎ (length self.old.bytes ≡ self.old.room)) }
        ensures takes { IfSome result (λ n. n ≡ min (min (length bytes.now) self.old.most)
            (self.old.room - length self.old.bytes)) }
    {
        self.calls = self.calls.saturating_add(1);
        let n = bytes.len().min(self.most).min(self.room - self.len);
        if n == 0 || self.calls == self.fails_at {
            self.failed = true;
            return None;
        }
        let end = self.len + n;
        let kept = &mut self.bytes[..];
        kept[self.len..end].copy_from_slice(&bytes[..n]);
        self.len = end;
        Some(n)
    }

    fn failed(&self) -> bool {
        self.failed
    }
}
