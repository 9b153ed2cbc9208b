//! Stores of messages, within two limits.
ghost use Rattle.std.specs.Prelude.{◌≡◌, ◌↔◌, ℕ, ◌+◌, ◌<◌, ◌≤◌, List, [], ◌∷◌, ◌++◌, length, drop};
ghost use Rattle.std.specs.Prelude.{slice_index_or, sum_by, IsTrue, Option, Some, None, option_map};
ghost use Rattle.ddcmp_num.specs.declared.limits.TheConstants.{MAX_COUNT, MAX_WINDOW};
ghost use Rattle.ddcmp_window.specs.Store.{first_message, with_front};

use std::alloc::AllocError;

/// An allocation failed.
#[derive(Clone, Copy, Debug, PartialEq, Eq)]
pub struct Memory;

impl From<AllocError> for Memory {
    fn from(_refused: AllocError) -> Memory {
        Memory
    }
}

/// A list of messages, first in, first out. It holds at most `limit` messages of 1 to `longest`
/// bytes. All its memory is reserved when it is made: no call allocates.
pub trait Store {
    // The messages in their order; the largest number of messages; the largest length.
    ghost messages: { Self → List (List ℕ) };

    ghost limit: { Self → ℕ };

    ghost longest: { Self → ℕ };

    /// Returns the number of messages.
    fn len(&self) -> u8
        ensures { result ≡ length (messages self.now) };

    /// Returns the largest number of messages.
    fn limit(&self) -> u8
        ensures { result ≡ limit self.now };

    /// Returns the largest length of a message.
    fn longest(&self) -> u16
        ensures { result ≡ longest self.now };

    /// Returns whether there is room for one more message.
    fn room(&self) -> bool
        ensures { IsTrue result ↔ (length (messages self.now) < limit self.now) };

    /// Appends a message.
    fn push(&mut self, message: &[u8])
        requires room { length (messages self.old) < limit self.old }
        requires not_empty { 1 ≤ length message.now }
        requires not_too_long { length message.now ≤ longest self.old }
        ensures messages { messages self.new ≡ messages self.old ++ message.now ∷ [] }
        ensures limit { limit self.new ≡ limit self.old }
        ensures longest { longest self.new ≡ longest self.old };

    /// Removes the first `n` messages.
    fn drop_front(&mut self, n: u8)
        requires { n ≤ length (messages self.old) }
        ensures messages { messages self.new ≡ drop n (messages self.old) }
        ensures limit { limit self.new ≡ limit self.old }
        ensures longest { longest self.new ≡ longest self.old };

    /// Returns the length of message `i`, counted from 0.
    fn length(&self, i: u8) -> usize
        requires { i < length (messages self.now) }
        ensures { result ≡ length (slice_index_or (messages self.now) i []) };

    /// Copies message `i`, counted from 0, to the front of `out` and returns its length.
    fn copy(&self, i: u8, out: &mut [u8]) -> usize
        requires there { i < length (messages self.now) }
        requires fits { length (slice_index_or (messages self.now) i []) ≤ length out.old }
        ensures length { result ≡ length (slice_index_or (messages self.now) i []) }
        ensures out { out.new
            ≡ with_front (Some (slice_index_or (messages self.now) i [])) out.old };

    /// Returns the length of all messages together.
    fn bytes(&self) -> usize
        ensures { result ≡ sum_by length (messages self.now) };

    /// Removes all messages.
    fn clear(&mut self)
        ensures messages { messages self.new ≡ [] }
        ensures limit { limit self.new ≡ limit self.old }
        ensures longest { longest self.new ≡ longest self.old };

    // What holds for every store.
    ghost within_limit: { (s : Self) → length (messages s) ≤ limit s };

    ghost limit_in_range: { (s : Self) → (1 ≤ limit s) × (limit s ≤ MAX_WINDOW) };

    ghost longest_in_range: { (s : Self) → (1 ≤ longest s) × (longest s ≤ MAX_COUNT) };

    ghost lengths_in_range: { (s : Self) (i : ℕ) → i < length (messages s)
        → (1 ≤ length (slice_index_or (messages s) i []))
        × (length (slice_index_or (messages s) i []) ≤ longest s) };
}

/// Moves the first message to the front of `out` and returns its length.
pub(crate) fn take_first<S: Store>(store: &mut S, out: &mut [u8]) -> Option<usize>
    requires { S.longest store.old ≤ length out.old }
    ensures length { result ≡ option_map length (first_message (S.messages store.old)) }
    ensures out { out.new ≡ with_front (first_message (S.messages store.old)) out.old }
    ensures messages { S.messages store.new ≡ drop 1 (S.messages store.old) }
    ensures limit { S.limit store.new ≡ S.limit store.old }
    ensures longest { S.longest store.new ≡ S.longest store.old }
{
    if store.len() == 0 {
        return None;
    }
    let length = store.copy(0, out);
    store.drop_front(1);
    Some(length)
}
