//! Messages that are stored one after another in one allocation.
ghost use Rattle.std.specs.Prelude.{◌≡◌, ◌+◌, ◌<◌, ◌≤◌, ◌^◌, ◌++◌, ◌∷◌, [], IsOk, get_or, length};
ghost use Rattle.std.specs.Prelude.{slice_index_or, vec_capacity, vec_len};

use std::alloc::{AllocError, Global};
use std::marker::Model;

/// Messages in their order. A message costs its bytes and its end offset, and no allocation of its
/// own.
#[derive(Drop)]
pub(crate) struct Messages {
    bytes: Vec<u8>,
    ends: Vec<usize>,
}

impl Model for Messages {
    ghost use Rattle.std.specs.Prelude.{◌-◌, length, vec_capacity, vec_len};
    ghost use Rattle.ddcmp_pair.specs.Inside.Kept.{AreEnds, MessagesView, cut_from};

    ghost Value = { MessagesView };

    ghost view = { λ m. record {
      all = cut_from 0 m.ends.items m.bytes.items;
      spare_bytes = vec_capacity m.bytes - vec_len m.bytes;
      spare = vec_capacity m.ends - vec_len m.ends;
    } };

    ghost invariant = { λ m. AreEnds 0 m.ends.items (length m.bytes.items) };
}

impl Messages {
    /// Makes an empty list.
    pub(crate) fn new(alloc: Global) -> Messages
        ensures { result.all ≡ [] }
    {
        Messages {
            bytes: Vec::new(alloc),
            ends: Vec::new(alloc),
        }
    }

    /// Drops all messages.
    pub(crate) fn clear(&mut self)
        ensures { self.new.all ≡ [] }
    {
        self.bytes.clear();
        self.ends.clear();
    }

    /// Returns how many messages there are.
    pub(crate) fn len(&self) -> usize
        ensures count { result ≡ length self.now.all }
        ensures few { result < 2 ^ 63 }
    {
        self.ends.len()
    }

    /// Returns message `i`, counted from 0.
    pub(crate) fn at(&self, i: usize) -> &[u8]
        requires { i < length self.now.all }
        ensures { result.now ≡ slice_index_or self.now.all i [] }
    {
        let from = begin_of(&self.ends, i);
        &self.bytes[from..self.ends[i]]
    }

    /// Reserves room for one more message of this length.
    pub(crate) fn reserve(&mut self, length: usize) -> Result<(), AllocError>
        ensures all { self.new.all ≡ self.old.all }
        ensures bytes { IsOk result → length ≤ self.new.spare_bytes }
        ensures one { IsOk result → 0 < self.new.spare }
    {
        self.bytes.reserve(length)?;
        self.ends.reserve(1)
    }

    /// Appends a message for which there is room.
    pub(crate) fn push_reserved(&mut self, message: &[u8])
        requires bytes { length message.now ≤ self.old.spare_bytes }
        requires one { 0 < self.old.spare }
        ensures all { self.new.all ≡ self.old.all ++ message.now ∷ [] }
        ensures few { length self.new.all < 2 ^ 63 }
    {
        append(&mut self.bytes, message);
        self.ends.push_reserved(self.bytes.len());
    }
}

/// Returns the start of message `i`, which is the end of the one before it.
fn begin_of(ends: &[usize], i: usize) -> usize
    requires { i < length ends.now }
    ensures { result ≡ get_or (0 ∷ ends.now) i 0 }
{
    if i == 0 { 0 } else { ends[i - 1] }
}

/// Appends bytes if there is room for them.
pub(crate) fn append(list: &mut Vec<u8>, bytes: &[u8])
    requires { vec_len list.old + length bytes.now ≤ vec_capacity list.old }
    ensures items { list.new.items ≡ list.old.items ++ bytes.now }
    ensures capacity { vec_capacity list.old ≤ vec_capacity list.new }
{
    match list.extend_from_slice(bytes) {
        Ok(()) => {}
        Err(_full) => unreachable!(),
    }
}
