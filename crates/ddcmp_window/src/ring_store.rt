//! A store with one ring for the bytes of all messages.
ghost use Rattle.ddcmp_num.specs.declared.limits.TheConstants.{MAX_COUNT, MAX_WINDOW};
ghost use Rattle.std.specs.Prelude.{◌≡◌, ◌+◌, ◌*◌, ◌<◌, ◌≤◌, IfOk};
ghost use Rattle.std.specs.Prelude.{[], ◌++◌, length, take, drop, slice_index, sum, All};
ghost use Rattle.circular_buffer.specs.Buffer.{buffer};

use crate::store::{Memory, Store};
use circular_buffer::HeapCircularBuffer;
use std::alloc::Global;

/// A store of one ring for the bytes of all messages.
#[derive(Drop)]
pub struct RingStore {
    /// The messages, one after another.
    ring: HeapCircularBuffer<u8>,
    /// The length of each.
    lengths: HeapCircularBuffer<u16>,
    limit: u8,
    longest: u16,
    ghost limit_in_range: { (1 ≤ limit) × (limit ≤ MAX_WINDOW) },
    ghost longest_in_range: { (1 ≤ longest) × (longest ≤ MAX_COUNT) },
    ghost within_limit: { length lengths.items ≤ limit },
    ghost lengths_in_range: { All (λ n. (1 ≤ n) × (n ≤ longest)) lengths.items },
    ghost no_other_bytes: { sum lengths.items ≡ length ring.items },
    ghost room_for_lengths: { lengths.capacity ≡ limit },
    ghost room_for_bytes: { ring.capacity ≡ limit * longest },
}

impl RingStore {
    /// Makes an empty store. Allocates all the memory that it will need.
    pub fn new(alloc: Global, limit: u8, longest: u16) -> Result<RingStore, Memory>
        requires limit { 1 ≤ limit }
        requires longest { (1 ≤ longest) × (longest ≤ MAX_COUNT) }
        ensures messages { IfOk result (λ store. ⟦<RingStore as Store>⟧.messages store ≡ []) }
        ensures limit { IfOk result (λ store. ⟦<RingStore as Store>⟧.limit store ≡ limit) }
        ensures longest { IfOk result (λ store. ⟦<RingStore as Store>⟧.longest store ≡ longest) }
    {
        let ring = HeapCircularBuffer::with_capacity(alloc, limit as usize * longest as usize)?;
        let lengths = HeapCircularBuffer::with_capacity(alloc, limit as usize)?;
        Ok(RingStore {
            ring,
            lengths,
            limit,
            longest,
        })
    }

    /// Returns the length of message `i`, counted from 0.
    fn length_of(&self, i: u8) -> usize
        requires { i < length self.now.lengths.items }
        ensures { result ≡ slice_index self.now.lengths.items i }
    {
        match self.lengths.get(i as usize) {
            Some(length) => *length as usize,
            None => unreachable!(),
        }
    }

    /// Returns the length of the first `n` messages together.
    fn bytes_before(&self, n: u8) -> usize
        requires { n ≤ length self.now.lengths.items }
        ensures { result ≡ sum (take n self.now.lengths.items) }
    {
        let (front, back) = self.lengths.as_slices();
        let in_front = front.len().min(n as usize);
        sum_of(&front[..in_front]) + sum_of(&back[..n as usize - in_front])
    }
}

/// Returns the sum of some lengths.
fn sum_of(lengths: &[u16]) -> usize
    requires { length lengths.now ≤ MAX_WINDOW }
    ensures value { result ≡ sum lengths.now }
    ensures most { result ≤ MAX_WINDOW * 65535 }
{
    let mut total = 0;
    for length in lengths {
        total += *length as u32;
    }
    total as usize
}

/// Drops the first `n` items.
fn drop_first<T: Drop>(ring: &mut HeapCircularBuffer<T>, n: usize)
    requires { n ≤ length ring.old.items }
    ensures { ring.new ≡ buffer (drop n ring.old.items) ring.old.capacity }
{
    ring.truncate_front(ring.len() - n);
}

/// Copies the bytes from `start` on, in two consecutive slices, into `out`.
fn copy_across(front: &[u8], back: &[u8], start: usize, out: &mut [u8])
    requires { start + length out.old ≤ length (front.now ++ back.now) }
    ensures { out.new ≡ take (length out.old) (drop start (front.now ++ back.now)) }
{
    let split = front.len();
    let end = start + out.len();
    let first = &front[start.min(split)..end.min(split)];
    let second = &back[start.saturating_sub(split)..end.saturating_sub(split)];
    out[..first.len()].copy_from_slice(first);
    out[first.len()..].copy_from_slice(second);
}

impl Store for RingStore {
    ghost use Rattle.ddcmp_window.specs.Inside.Cuts.{cut};

    ghost messages = { λ s. cut s.lengths.items s.ring.items };

    ghost limit = { λ s. s.limit };

    ghost longest = { λ s. s.longest };

    fn len(&self) -> u8 {
        self.lengths.len() as u8
    }

    fn limit(&self) -> u8 {
        self.limit
    }

    fn longest(&self) -> u16 {
        self.longest
    }

    fn room(&self) -> bool {
        self.len() < self.limit
    }

    fn push(&mut self, message: &[u8]) {
        self.ring.extend_from_slice(message);
        self.lengths.push_back(message.len() as u16);
    }

    fn drop_front(&mut self, n: u8) {
        let bytes = self.bytes_before(n);
        drop_first(&mut self.ring, bytes);
        drop_first(&mut self.lengths, n as usize);
    }

    fn length(&self, i: u8) -> usize {
        self.length_of(i)
    }

    fn copy(&self, i: u8, out: &mut [u8]) -> usize {
        let length = self.length_of(i);
        let (front, back) = self.ring.as_slices();
        copy_across(front, back, self.bytes_before(i), &mut out[..length]);
        length
    }

    fn bytes(&self) -> usize {
        self.ring.len()
    }

    fn clear(&mut self) {
        self.ring.clear();
        self.lengths.clear();
    }

    ghost use Rattle.ddcmp_window.specs.Inside.Cuts.{length-cut, range-cut};
    ghost use Rattle.std.proofs.Common.{arith};

    ghost within_limit = { λ s. Prim.omega (arith, length-cut s.lengths.items s.ring.items) };

    ghost limit_in_range = { λ s. s.limit_in_range };

    ghost longest_in_range = { λ s. s.longest_in_range };

    ghost lengths_in_range = { λ s. range-cut s.lengths.items s.ring.items s.longest
        s.lengths_in_range s.no_other_bytes };
}
