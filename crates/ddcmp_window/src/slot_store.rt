//! A store with a buffer for each message.
ghost use Rattle.ddcmp_num.specs.declared.limits.TheConstants.{MAX_COUNT, MAX_WINDOW};
ghost use Rattle.std.specs.Prelude.{◌≡◌, ◌<◌, ◌≤◌, ℕ, [], length, slice_index_or, vec_capacity};
ghost use Rattle.std.specs.Prelude.{IfOk};

use crate::store::{Memory, Store};
use std::alloc::Global;
use std::collections::VecDeque;

/// A store of one reserved buffer for each message.
#[derive(Drop)]
pub struct SlotStore {
    /// `limit` buffers of at least `longest` bytes. The first `len` of them hold the messages.
    slots: VecDeque<Vec<u8>>,
    len: u8,
    limit: u8,
    longest: u16,
    ghost limit_in_range: { (1 ≤ limit) × (limit ≤ MAX_WINDOW) },
    ghost longest_in_range: { (1 ≤ longest) × (longest ≤ MAX_COUNT) },
    ghost within_limit: { len ≤ limit },
    ghost one_each: { length slots.items ≡ limit },
    ghost reserved: { (i : ℕ) (slot : _) → i < limit
        → longest ≤ vec_capacity (slice_index_or slots.items i slot) },
    ghost lengths_in_range: { (i : ℕ) (slot : _) → i < len
        → (1 ≤ length (slice_index_or slots.items i slot).items)
        × (length (slice_index_or slots.items i slot).items ≤ longest) },
}

impl SlotStore {
    /// Makes an empty store. Allocates all the memory that it will need.
    pub fn new(alloc: Global, limit: u8, longest: u16) -> Result<SlotStore, Memory>
        requires limit { 1 ≤ limit }
        requires longest { (1 ≤ longest) × (longest ≤ MAX_COUNT) }
        ensures messages { IfOk result (λ store. ⟦<SlotStore as Store>⟧.messages store ≡ []) }
        ensures limit { IfOk result (λ store. ⟦<SlotStore as Store>⟧.limit store ≡ limit) }
        ensures longest { IfOk result (λ store. ⟦<SlotStore as Store>⟧.longest store ≡ longest) }
    {
        let mut slots = VecDeque::with_capacity(alloc, limit as usize)?;
        for _made in 0..limit {
            let slot = Vec::with_capacity(alloc, longest as usize)?;
            slots.push_back_reserved(slot);
        }
        Ok(SlotStore {
            slots,
            len: 0,
            limit,
            longest,
        })
    }
}

impl Store for SlotStore {
    ghost use Rattle.std.specs.Prelude.{map, take};

    ghost messages = { λ s. map (λ slot. slot.items) (take s.len s.slots.items) };

    ghost limit = { λ s. s.limit };

    ghost longest = { λ s. s.longest };

    fn len(&self) -> u8 {
        self.len
    }

    fn limit(&self) -> u8 {
        self.limit
    }

    fn longest(&self) -> u16 {
        self.longest
    }

    fn room(&self) -> bool {
        self.len < self.limit
    }

    fn push(&mut self, message: &[u8]) {
        let slot = &mut self.slots[self.len as usize];
        slot.clear();
        match slot.extend_from_slice(message) {
            Ok(()) => {}
            Err(_full) => unreachable!(),
        }
        self.len += 1;
    }

    fn drop_front(&mut self, n: u8) {
        self.slots.rotate_left(n as usize);
        self.len -= n;
    }

    fn length(&self, i: u8) -> usize {
        self.slots[i as usize].len()
    }

    fn copy(&self, i: u8, out: &mut [u8]) -> usize {
        let message = &self.slots[i as usize];
        let length = message.len();
        out[..length].copy_from_slice(message);
        length
    }

    fn bytes(&self) -> usize {
        let mut total = 0;
        for i in 0..self.len {
            total += self.slots[i as usize].len();
        }
        total
    }

    fn clear(&mut self) {
        self.len = 0;
    }

    ghost use Rattle.ddcmp_window.specs.Inside.Fronts.{length-front, each-front};
    ghost use Rattle.std.proofs.Common.{arith};

    ghost within_limit = { λ s. Prim.omega (
      arith,
      length-front
          (λ slot. slot.items) s.len s.slots.items,
    ) };

    ghost limit_in_range = { λ s. s.limit_in_range };

    ghost longest_in_range = { λ s. s.longest_in_range };

    ghost lengths_in_range = { λ s i below. (let count = length-front
        (λ slot. slot.items) s.len s.slots.items (Prim.omega arith) in
        each-front (λ slot. slot.items) (λ m. (1 ≤ length m)
        × (length m ≤ s.longest)) s.len s.slots.items i [] s.lengths_in_range
        (Prim.omega arith) (Prim.omega arith)) };
}
