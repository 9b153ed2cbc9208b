//! The bytes pending for the line.
ghost use Rattle.std.specs.Prelude.{◌≡◌, ◌+◌, ◌≤◌, ◌++◌, IfOk, IfSome, drop, take, length, is_some};
ghost use Rattle.std.specs.Prelude.{option_map, vec_len};
ghost use Rattle.ddcmp_station.specs.Linking.{no_bytes, after_taken, after_put};
ghost use Rattle.ddcmp_station.specs.Driving.{frame_bytes};
ghost use Rattle.ddcmp_core.specs.Table.{next, next_frame};
ghost use Rattle.ddcmp_proto.specs.Bytes.{after_poll, frame_on_line};
ghost use Rattle.ddcmp_window.specs.Store.{with_front};

use ddcmp_proto::Station;
use std::alloc::{AllocError, Global};
use std::marker::Model;

/// The most bytes that can be pending: more than the longest frame has.
pub const ROOM: usize = 65536;

/// Bytes pending for the line, in their order.
#[derive(Drop)]
pub(crate) struct Outbox {
    bytes: Vec<u8>,
    /// The start and the end of the pending bytes.
    start: usize,
    end: usize,
}

impl Model for Outbox {
    ghost use Rattle.std.specs.Prelude.{◌≡◌, ◌-◌, ◌≤◌, drop, take, vec_len};
    ghost use Rattle.ddcmp_station.specs.Linking.{OutboxView};
    ghost use Rattle.ddcmp_station.specs.declared.outbox.TheConstants.{ROOM};

    ghost Value = { OutboxView };

    ghost view = { λ o. record {
      waiting = drop o.start (take o.end o.bytes.items);
      room = ROOM - o.end;
    } };

    ghost invariant = { λ o. (vec_len o.bytes ≡ ROOM) × (o.start ≤ o.end) × (o.end ≤ ROOM)
        × (o.start ≡ o.end → o.end ≡ 0) };
}

impl Outbox {
    /// Makes an empty one. Allocates all the memory that it will need.
    pub(crate) fn new(alloc: Global) -> Result<Outbox, AllocError>
        ensures { IfOk result (λ made. made ≡ no_bytes) }
    {
        Ok(Outbox {
            bytes: Vec::from_elem(alloc, 0, ROOM)?,
            start: 0,
            end: 0,
        })
    }

    /// Returns for how many more bytes there is room.
    pub(crate) fn room(&self) -> usize
        ensures value { result ≡ self.now.room }
        ensures most { result + length self.now.waiting ≤ ROOM }
    {
        ROOM - self.end
    }

    /// Queues the next frame of a station after the pending bytes; returns whether there was one.
    pub(crate) fn put_frame(&mut self, station: &mut Station) -> bool
        requires { station.old.syn + station.old.core.limits.longest + 10 ≤ self.old.room }
        ensures station { station.new ≡ record station.old { core = after_poll station.old.core } }
        ensures bytes { self.new ≡ after_put
            (frame_bytes station.old.syn (next_frame (next station.old.core.station))) self.old }
        ensures answer { result ≡ is_some (next_frame (next station.old.core.station)) }
    {
        match poll_after(station, &mut self.bytes, self.end) {
            None => false,
            Some(length) => {
                self.end += length;
                true
            }
        }
    }

    /// Returns the pending bytes.
    pub(crate) fn waiting(&self) -> &[u8]
        ensures { result.now ≡ self.now.waiting }
    {
        &self.bytes[self.start..self.end]
    }

    /// Notes that the line took the first `n` pending bytes. Once none is pending, all the room is
    /// free again.
    pub(crate) fn took(&mut self, n: usize)
        requires { n ≤ length self.old.waiting }
        ensures { self.new ≡ after_taken n self.old }
    {
        if n == self.waiting().len() {
            self.clear();
        } else {
            self.start += n;
        }
    }

    /// Drops all bytes.
    pub(crate) fn clear(&mut self)
        ensures { self.new ≡ no_bytes }
    {
        self.start = 0;
        self.end = 0;
    }
}

/// Polls a station for bytes after the first `end`; returns how many they are.
fn poll_after(station: &mut Station, bytes: &mut [u8], end: usize) -> Option<usize>
    requires { end + (station.old.syn + station.old.core.limits.longest + 10) ≤ length bytes.old }
    ensures station { station.new ≡ record station.old { core = after_poll station.old.core } }
    ensures length { result ≡ option_map length
        (option_map (frame_on_line station.old.syn) (next_frame (next station.old.core.station))) }
    ensures most { IfSome result
        (λ n. n ≤ station.old.syn + station.old.core.limits.longest + 10) }
    ensures bytes { bytes.new ≡ take end bytes.old ++ with_front
        (option_map (frame_on_line station.old.syn) (next_frame (next station.old.core.station)))
        (drop end bytes.old) }
{
    station.poll(&mut bytes[end..])
}
