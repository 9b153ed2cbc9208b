//! Messages in binary with commands among them.

use crate::entry::{Entry, PushedEntry};
use crate::lengths::Lengths;
use std::alloc::{AllocError, Global};
use std::marker::Model;

/// The top bit of the high byte of a length, which marks a command.
const COMMAND: u8 = 128;

/// The longest command, in bytes.
pub const COMMAND_ROOM: u16 = 16;

/// The place of the next byte in the input.
#[derive(Clone, Copy)]
pub enum RecordPlace {
    /// Before a record, or in a message or its length.
    Message,
    /// After the high byte of the length of a command, less its top bit.
    Half(u8),
    /// In a command, with this many bytes left.
    Command(u16),
    /// In a command that is skipped, with this many bytes left.
    Skipping(u16),
}

/// Parses an input with each message after its length as two bytes, the high one first, and with
/// commands among them: records whose lengths have the top bit set.
#[derive(Drop)]
pub struct Records {
    lengths: Lengths,
    place: RecordPlace,
    command: Vec<u8>,
}

impl Model for Records {
    ghost use Rattle.std.specs.Prelude.{◌≤◌, vec_len, vec_capacity};
    ghost use Rattle.ddcmp_input.specs.Records.{RecordsView, HasRoom};
    ghost use Rattle.ddcmp_input.specs.declared.records.TheConstants.{COMMAND_ROOM};

    ghost Value = { RecordsView };

    ghost view = { λ r. record { lengths = r.lengths; place = r.place; command = r.command.items } };

    ghost invariant = { λ r. (COMMAND_ROOM ≤ vec_capacity r.command)
        × HasRoom r.place (vec_len r.command) (vec_capacity r.command) };
}

impl Records {
    ghost use Rattle.std.specs.Prelude.{◌≡◌, ◌+◌, ◌≤◌, ℕ, [], Some, IfOk, None, length, take};
    ghost use Rattle.std.specs.Prelude.{option_to_list};
    ghost use Rattle.ddcmp_input.specs.Records.{begun, after_length, entry_of_length};
    ghost use Rattle.ddcmp_input.specs.Records.{after_byte, entry_of_byte, after_bytes};
    ghost use Rattle.ddcmp_input.specs.Records.{entries_of_bytes, is_unfinished};

    /// Makes a parser that has read nothing. It allocates all memory that it will need.
    pub fn new(alloc: Global, max: u16) -> Result<Records, AllocError>
        ensures { IfOk result (λ made. made ≡ begun max) }
    {
        Ok(Records {
            lengths: Lengths::new(alloc, max)?,
            place: RecordPlace::Message,
            command: Vec::with_capacity(alloc, COMMAND_ROOM as usize)?,
        })
    }

    /// Takes a byte; returns what it completes.
    pub fn push(&mut self, byte: u8) -> Option<Entry>
        ensures state { self.new ≡ after_byte byte self.old }
        ensures entry { result ≡ entry_of_byte byte self.old }
    {
        match self.place {
            RecordPlace::Message => {
                if byte >= COMMAND && self.lengths.is_between() {
                    self.place = RecordPlace::Half(byte - COMMAND);
                    return None;
                }
                self.lengths.push(byte)
            }
            RecordPlace::Half(high) => self.begin(high as u16 * 256 + byte as u16),
            RecordPlace::Command(left) => {
                match self.command.push(byte) {
                    Ok(()) => {}
                    Err(_) => unreachable!(),
                }
                if left <= 1 {
                    self.place = RecordPlace::Message;
                    Some(Entry::Command)
                } else {
                    self.place = RecordPlace::Command(left - 1);
                    None
                }
            }
            RecordPlace::Skipping(left) => {
                self.place = if left <= 1 {
                    RecordPlace::Message
                } else {
                    RecordPlace::Skipping(left - 1)
                };
                None
            }
        }
    }

    /// Begins a command of this length.
    fn begin(&mut self, length: u16) -> Option<Entry>
        ensures state { self.new ≡ after_length length self.old }
        ensures entry { result ≡ entry_of_length length }
    {
        if length > COMMAND_ROOM {
            self.place = RecordPlace::Skipping(length);
            return Some(Entry::TooLong);
        }
        self.command.clear();
        if length == 0 {
            self.place = RecordPlace::Message;
            return Some(Entry::Command);
        }
        self.place = RecordPlace::Command(length);
        None
    }

    /// Takes bytes of a chunk, up to the first that completes something.
    pub fn push_all(&mut self, piece: &[u8]) -> PushedEntry
        ensures used { result.used ≤ length piece.now }
        // The last byte that was used completed it, and no byte before that completed anything.
        ensures first { (n : ℕ) (entry : Entry) → result.entry ≡ Some entry → result.used ≡ n + 1
            → entries_of_bytes (take n piece.now) self.old ≡ [] }
        ensures whole { result.entry ≡ None → result.used ≡ length piece.now }
        ensures state { self.new ≡ after_bytes (take result.used piece.now) self.old }
        ensures entries { entries_of_bytes (take result.used piece.now) self.old
            ≡ option_to_list result.entry }
    {
        for used in 0..piece.len() {
            let entry = self.push(piece[used]);
            if entry.is_some() {
                return PushedEntry {
                    used: used + 1,
                    entry,
                };
            }
        }
        PushedEntry {
            used: piece.len(),
            entry: None,
        }
    }

    /// Returns the last message, if the last byte completed it.
    pub fn message(&self) -> &[u8]
        ensures { result.now ≡ self.now.lengths.message }
    {
        self.lengths.message()
    }

    /// Returns the last command, if the last byte completed it.
    pub fn command(&self) -> &[u8]
        ensures { result.now ≡ self.now.command }
    {
        &self.command
    }

    /// Returns whether a record is incomplete: if the input ends here, it is truncated. The rest of
    /// a refused one is skipped, and doesn't count.
    pub fn is_unfinished(&self) -> bool
        ensures { result ≡ is_unfinished self.now }
    {
        match self.place {
            RecordPlace::Message => self.lengths.is_unfinished(),
            RecordPlace::Half(_) | RecordPlace::Command(_) => true,
            RecordPlace::Skipping(_) => false,
        }
    }
}
