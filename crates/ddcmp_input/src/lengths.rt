//! Messages in binary.
ghost use Rattle.std.specs.Prelude.{◌≡◌, ◌+◌, ◌≤◌, ◌++◌, length, vec_len, vec_capacity};

use crate::entry::{Entry, PushedEntry};
use std::alloc::{AllocError, Global};
use std::marker::Model;

/// The place of the next byte in the input.
#[derive(Clone, Copy)]
pub enum LengthPlace {
    /// Before a length.
    Start,
    /// After its high byte.
    Half(u8),
    /// In a message, with this many bytes left.
    Inside(u16),
    /// In a message that is skipped, with this many bytes left.
    Skipping(u16),
}

/// Parses an input with each message after its length as two bytes, the high one first.
#[derive(Drop)]
pub struct Lengths {
    max: u16,
    place: LengthPlace,
    message: Vec<u8>,
}

impl Model for Lengths {
    ghost use Rattle.std.specs.Prelude.{◌≤◌, vec_len, vec_capacity};
    ghost use Rattle.ddcmp_input.specs.Lengths.{LengthsView, HasRoom};

    ghost Value = { LengthsView };

    ghost view = { λ l. record { max = l.max; place = l.place; message = l.message.items } };

    ghost invariant = { λ l. (l.max ≤ vec_capacity l.message)
        × HasRoom l.place (vec_len l.message) (vec_capacity l.message) };
}

impl Lengths {
    ghost use Rattle.std.specs.Prelude.{◌≡◌, ◌+◌, ◌<◌, ◌≤◌, ℕ, [], Some, IfOk, None, length, take};
    ghost use Rattle.std.specs.Prelude.{option_to_list};
    ghost use Rattle.ddcmp_input.specs.Lengths.{begun, after_length, entry_of_length};
    ghost use Rattle.ddcmp_input.specs.Lengths.{after_byte, entry_of_byte, after_bytes};
    ghost use Rattle.ddcmp_input.specs.Lengths.{entries_of_bytes, is_between, is_unfinished};

    /// Makes a parser that has read nothing. It allocates all memory that it will need.
    pub fn new(alloc: Global, max: u16) -> Result<Lengths, AllocError>
        ensures { IfOk result (λ made. made ≡ begun max) }
    {
        Ok(Lengths {
            max,
            place: LengthPlace::Start,
            message: Vec::with_capacity(alloc, max as usize)?,
        })
    }

    /// Takes a byte; returns what it completes.
    pub fn push(&mut self, byte: u8) -> Option<Entry>
        ensures state { self.new ≡ after_byte byte self.old }
        ensures entry { result ≡ entry_of_byte byte self.old }
    {
        match self.place {
            LengthPlace::Start => {
                self.place = LengthPlace::Half(byte);
                None
            }
            LengthPlace::Half(high) => self.begin(high as u16 * 256 + byte as u16),
            LengthPlace::Inside(left) => {
                match self.message.push(byte) {
                    Ok(()) => {}
                    Err(_) => unreachable!(),
                }
                if left <= 1 {
                    self.place = LengthPlace::Start;
                    Some(Entry::Message)
                } else {
                    self.place = LengthPlace::Inside(left - 1);
                    None
                }
            }
            LengthPlace::Skipping(left) => {
                self.place = if left <= 1 {
                    LengthPlace::Start
                } else {
                    LengthPlace::Skipping(left - 1)
                };
                None
            }
        }
    }

    /// Begins a message of this length.
    fn begin(&mut self, length: u16) -> Option<Entry>
        ensures state { self.new ≡ after_length length self.old }
        ensures entry { result ≡ entry_of_length length self.old.max }
    {
        if length == 0 {
            self.place = LengthPlace::Start;
            return Some(Entry::Empty);
        }
        if length > self.max {
            self.place = LengthPlace::Skipping(length);
            return Some(Entry::TooLong);
        }
        self.message.clear();
        self.place = LengthPlace::Inside(length);
        None
    }

    /// Takes bytes of a chunk, up to the first that completes something.
    pub fn push_all(&mut self, piece: &[u8]) -> PushedEntry
        ensures used { result.used ≤ length piece.now }
        // The last byte that was used completed it, and no byte before that completed anything.
        ensures first { (n : ℕ) (entry : Entry) → result.entry ≡ Some entry → result.used ≡ n + 1
            → entries_of_bytes (take n piece.now) self.old ≡ [] }
        ensures whole { result.entry ≡ None → result.used ≡ length piece.now }
        ensures state { self.new ≡ after_bytes (take result.used piece.now) self.old }
        ensures entries { entries_of_bytes (take result.used piece.now) self.old
            ≡ option_to_list result.entry }
    {
        let mut used = 0;
        while used < piece.len() {
            let more = self.push_part(&piece[used..]);
            used += more.used;
            if more.entry.is_some() {
                return PushedEntry {
                    used,
                    entry: more.entry,
                };
            }
        }
        PushedEntry { used, entry: None }
    }

    /// Takes the bytes of a chunk up to the next place: a byte of a length, or as much as there is
    /// of a message.
    fn push_part(&mut self, piece: &[u8]) -> PushedEntry
        requires { 0 < length piece.now }
        ensures some { 0 < result.used }
        ensures used { result.used ≤ length piece.now }
        ensures first { (n : ℕ) → n < result.used
            → entries_of_bytes (take n piece.now) self.old ≡ [] }
        ensures state { self.new ≡ after_bytes (take result.used piece.now) self.old }
        ensures entries { entries_of_bytes (take result.used piece.now) self.old
            ≡ option_to_list result.entry }
    {
        match self.place {
            LengthPlace::Inside(left) => self.push_within(piece, left),
            _ => PushedEntry {
                used: 1,
                entry: self.push(piece[0]),
            },
        }
    }

    /// Takes as much as there is of a message, of which this many bytes are left.
    fn push_within(&mut self, piece: &[u8], left: u16) -> PushedEntry
        requires place { self.old.place ≡ LengthPlace.Inside left }
        requires some { 0 < length piece.now }
        ensures some { 0 < result.used }
        ensures used { result.used ≤ length piece.now }
        ensures first { (n : ℕ) → n < result.used
            → entries_of_bytes (take n piece.now) self.old ≡ [] }
        ensures state { self.new ≡ after_bytes (take result.used piece.now) self.old }
        ensures entries { entries_of_bytes (take result.used piece.now) self.old
            ≡ option_to_list result.entry }
    {
        if piece.len() < left as usize {
            append(&mut self.message, piece);
            self.place = LengthPlace::Inside(left - piece.len() as u16);
            return PushedEntry {
                used: piece.len(),
                entry: None,
            };
        }
        append(&mut self.message, &piece[..left as usize]);
        self.place = LengthPlace::Start;
        PushedEntry {
            used: left as usize,
            entry: Some(Entry::Message),
        }
    }

    /// Returns the last message, if the last byte completed it.
    pub fn message(&self) -> &[u8]
        ensures { result.now ≡ self.now.message }
    {
        &self.message
    }

    /// Returns whether the next byte is the first of a length.
    pub fn is_between(&self) -> bool
        ensures { result ≡ is_between self.now.place }
    {
        matches!(self.place, LengthPlace::Start)
    }

    /// Returns whether a length or a message is incomplete: if the input ends here, it is
    /// truncated. The rest of a refused message is skipped, and doesn't count.
    pub fn is_unfinished(&self) -> bool
        ensures { result ≡ is_unfinished self.now.place }
    {
        matches!(self.place, LengthPlace::Half(_) | LengthPlace::Inside(_))
    }
}

/// Appends bytes to a message that has room for them.
fn append(message: &mut Vec<u8>, bytes: &[u8])
    requires { vec_len message.old + length bytes.now ≤ vec_capacity message.old }
    ensures items { message.new.items ≡ message.old.items ++ bytes.now }
    ensures room { vec_capacity message.old ≤ vec_capacity message.new }
{
    match message.extend_from_slice(bytes) {
        Ok(()) => {}
        Err(_) => unreachable!(),
    }
}
