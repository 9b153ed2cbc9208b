//! Delayed frames.
ghost use Rattle.std.specs.Prelude.{◌≡◌, ◌↔◌, ◌<◌, ◌≤◌, [], ◌∷◌, ◌++◌, length, IfSome, IsTrue};
ghost use Rattle.std.specs.Prelude.{Some, false};
ghost use Rattle.ddcmp_bridge.specs.Delaying.{after_taking, due_at, first_length, next_due};

use crate::relay::FRAME;
use std::alloc::Global;
use std::collections::VecDeque;
use std::marker::Model;

/// A delayed frame.
#[derive(Drop)]
struct Held {
    /// The moment from which it may be taken.
    due: u64,
    frame: Vec<u8>,
}

/// A queue of frames, each with the moment from which it may be taken. It doesn't allocate after it
/// is made.
pub(crate) struct DelayLine {
    held: VecDeque<Held>,
    /// How many bytes of the first frame were taken.
    from: usize,
    /// Buffers for further frames.
    spare: Vec<Vec<u8>>,
}

// Manual, since a derived `Drop` would be expanded wherever a value is dropped.
impl Drop for DelayLine {
    fn drop(self) {
        let DelayLine {
            held: _held,
            from: _,
            spare: _spare,
        } = self;
    }
}

impl Model for DelayLine {
    ghost use Rattle.std.specs.Prelude.{◌≡◌, ◌+◌, ◌≤◌, All, length, map, vec_capacity};
    ghost use Rattle.std.specs.VecDeque.{deque_capacity};
    ghost use Rattle.ddcmp_bridge.specs.Delaying.{LineView, first_length, without};
    ghost use Rattle.ddcmp_bridge.specs.declared.relay.TheConstants.{FRAME};

    ghost Value = { LineView };

    ghost view = { λ l. record {
      held = without l.from (map (λ h. (h.due, h.frame.items)) l.held.items);
      limit = length l.held.items + length l.spare.items;
    } };

    ghost invariant = { λ l.
        (l.from ≤ first_length (map (λ h. (h.due, h.frame.items)) l.held.items))
        × All (λ h. FRAME ≤ vec_capacity h.frame) l.held.items
        × All (λ b. FRAME ≤ vec_capacity b) l.spare.items
        × (length l.held.items + length l.spare.items ≤ deque_capacity l.held)
        × (length l.held.items + length l.spare.items ≤ vec_capacity l.spare) };
}

impl DelayLine {
    /// Makes a queue for `limit` frames; returns none if an allocation failed.
    pub(crate) fn new(alloc: Global, limit: usize) -> Option<DelayLine>
        ensures held { IfSome result (λ made. made.held ≡ []) }
        ensures limit { IfSome result (λ made. made.limit ≡ limit) }
    {
        let held = VecDeque::with_capacity(alloc, limit).ok()?;
        let mut spare = Vec::with_capacity(alloc, limit).ok()?;
        for _made in 0..limit {
            let buffer = Vec::with_capacity(alloc, FRAME).ok()?;
            match spare.push(buffer) {
                Ok(()) => {}
                Err(_full) => unreachable!(),
            }
        }
        Some(DelayLine {
            held,
            from: 0,
            spare,
        })
    }

    /// Drops all frames.
    pub(crate) fn clear(&mut self)
        ensures held { self.new.held ≡ [] }
        ensures limit { self.new.limit ≡ self.old.limit }
    {
        while self.drop_first() {}
    }

    /// Drops the first frame; returns whether there was one.
    fn drop_first(&mut self) -> bool
        ensures some { IsTrue result → length self.new.held < length self.old.held }
        ensures none { result ≡ false → self.new.held ≡ [] }
        ensures limit { self.new.limit ≡ self.old.limit }
    {
        let Some(first) = self.held.front() else {
            return false;
        };
        let left = first.frame.len() - self.from;
        self.took(left);
        true
    }

    /// Returns whether one more frame fits.
    pub(crate) fn has_room(&self) -> bool
        ensures { IsTrue result ↔ (length self.now.held < self.now.limit) }
    {
        !self.spare.is_empty()
    }

    /// Appends a frame, with the moment at which it is due.
    pub(crate) fn push(&mut self, due: u64, bytes: &[u8])
        requires room { length self.old.held < self.old.limit }
        requires fits { length bytes.now ≤ FRAME }
        ensures held { self.new.held ≡ self.old.held ++ (due, bytes.now) ∷ [] }
        ensures limit { self.new.limit ≡ self.old.limit }
    {
        let Some(mut frame) = self.spare.pop() else {
            unreachable!()
        };
        frame.clear();
        match frame.extend_from_slice(bytes) {
            Ok(()) => {}
            Err(_full) => unreachable!(),
        }
        self.held.push_back_reserved(Held { due, frame });
    }

    /// Returns the bytes that may be taken now: those left of the first frame, if it is due.
    pub(crate) fn waiting(&self, now: u64) -> &[u8]
        ensures value { result.now ≡ due_at now self.now.held }
        ensures most { length result.now ≤ first_length self.now.held }
    {
        match self.held.front() {
            Some(held) => match held.due <= now {
                true => &held.frame[self.from..],
                false => &[],
            },
            None => &[],
        }
    }

    /// Returns the moment at which the first frame is due.
    pub(crate) fn wakes_at(&self) -> Option<u64>
        ensures { result ≡ next_due self.now.held }
    {
        match self.held.front() {
            Some(held) => Some(held.due),
            None => None,
        }
    }

    /// Removes the first `n` remaining bytes of the first frame.
    pub(crate) fn took(&mut self, n: usize)
        requires { n ≤ first_length self.old.held }
        ensures held { self.new.held ≡ after_taking n self.old.held }
        ensures limit { self.new.limit ≡ self.old.limit }
    {
        let Some(first) = self.held.front() else {
            return;
        };
        if n < first.frame.len() - self.from {
            self.from += n;
            return;
        }
        let Some(Held { due: _, frame }) = self.held.pop_front() else {
            unreachable!()
        };
        self.from = 0;
        match self.spare.push(frame) {
            Ok(()) => {}
            Err(_full) => unreachable!(),
        }
    }
}
