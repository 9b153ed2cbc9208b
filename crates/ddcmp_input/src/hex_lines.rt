//! Messages in hexadecimal, one a line.
ghost use Rattle.std.specs.Prelude.{◌≡◌};
ghost use Rattle.ddcmp_input.specs.HexLines.{byte_of_digits};

use crate::entry::{Entry, PushedEntry};
use std::alloc::{AllocError, Global};
use std::marker::Model;

/// Parses an input with one message a line, in hexadecimal digits. An empty line isn't a message. A
/// line ends with LF, or with CR LF.
#[derive(Drop)]
pub struct HexLines {
    max: u16,
    /// The number of the line, from 1.
    number: u64,
    /// A first digit without its second.
    high: Option<u8>,
    /// Why the line is refused, if it is.
    refused: Option<Entry>,
    /// Whether the line has ended.
    ended: bool,
    /// Whether the last byte was a CR, which is part of the line's end if LF follows.
    returned: bool,
    message: Vec<u8>,
}

impl Model for HexLines {
    ghost use Rattle.std.specs.Prelude.{◌≤◌, vec_len, vec_capacity};
    ghost use Rattle.ddcmp_input.specs.HexLines.{HexView};

    ghost Value = { HexView };

    ghost view = { λ h. record {
      max = h.max;
      number = h.number;
      high = h.high;
      refused = h.refused;
      ended = h.ended;
      returned = h.returned;
      message = h.message.items;
    } };

    ghost invariant = { λ h. (h.max ≤ vec_capacity h.message) × (vec_len h.message ≤ h.max) };
}

impl HexLines {
    ghost use Rattle.std.specs.Prelude.{◌≡◌, ◌+◌, ◌<◌, ◌≤◌, ℕ, [], Some, IfOk, None, length, take};
    ghost use Rattle.std.specs.Prelude.{is_some, option_to_list};
    ghost use Rattle.ddcmp_input.specs.HexLines.{begun, line_begun, after_digit, return_taken};
    ghost use Rattle.ddcmp_input.specs.HexLines.{line_ended, entry_of_line, after_byte};
    ghost use Rattle.ddcmp_input.specs.HexLines.{entry_of_byte, after_bytes, entries_of_bytes};
    ghost use Rattle.ddcmp_input.specs.HexLines.{is_before_line, is_nothing, is_question};

    /// Makes a parser that has read nothing. It allocates all memory that it will need.
    pub fn new(alloc: Global, max: u16) -> Result<HexLines, AllocError>
        ensures { IfOk result (λ made. made ≡ begun max) }
    {
        Ok(HexLines {
            max,
            number: 1,
            high: None,
            refused: None,
            ended: false,
            returned: false,
            message: Vec::with_capacity(alloc, max as usize)?,
        })
    }

    /// Takes a byte; returns what it completes. After the last line push a line feed.
    pub fn push(&mut self, byte: u8) -> Option<Entry>
        ensures state { self.new ≡ after_byte byte self.old }
        ensures entry { result ≡ entry_of_byte byte self.old }
    {
        if self.ended {
            self.begin_line();
        }
        if byte == b'\n' {
            return self.end_line();
        }
        self.take_return();
        if byte == b'\r' {
            self.returned = true;
        } else {
            self.take_digit(byte);
        }
        None
    }

    fn begin_line(&mut self)
        ensures { self.new ≡ line_begun self.old }
    {
        self.number = self.number.saturating_add(1);
        self.high = None;
        self.refused = None;
        self.ended = false;
        self.returned = false;
        self.message.clear();
    }

    fn end_line(&mut self) -> Option<Entry>
        ensures state { self.new ≡ line_ended self.old }
        ensures entry { result ≡ entry_of_line self.old }
    {
        self.ended = true;
        if self.refused.is_some() {
            return self.refused;
        }
        if self.high.is_some() {
            return Some(Entry::NotHexadecimal);
        }
        if self.message.is_empty() {
            return None;
        }
        Some(Entry::Message)
    }

    /// Takes a CR that isn't followed by LF as a character of the line.
    fn take_return(&mut self)
        ensures { self.new ≡ return_taken self.old }
    {
        if self.returned {
            self.returned = false;
            self.take_digit(b'\r');
        }
    }

    fn take_digit(&mut self, digit: u8)
        ensures { self.new ≡ after_digit digit self.old }
    {
        if self.refused.is_some() {
            return;
        }
        let Some(high) = self.high else {
            self.high = Some(digit);
            return;
        };
        self.high = None;
        let Some(byte) = byte_in(high, digit) else {
            self.refused = Some(Entry::NotHexadecimal);
            return;
        };
        if self.message.len() >= self.max as usize {
            self.refused = Some(Entry::TooLong);
            return;
        }
        match self.message.push(byte) {
            Ok(()) => {}
            Err(_) => unreachable!(),
        }
    }

    /// Takes bytes of a chunk, up to the first that completes something.
    pub fn push_all(&mut self, piece: &[u8]) -> PushedEntry
        ensures used { result.used ≤ length piece.now }
        // The last byte that was used completed it, and no byte before that completed anything.
        ensures first { (n : ℕ) (entry : Entry) → result.entry ≡ Some entry → result.used ≡ n + 1
            → entries_of_bytes (take n piece.now) self.old ≡ [] }
        ensures whole { result.entry ≡ None → result.used ≡ length piece.now }
        ensures state { self.new ≡ after_bytes (take result.used piece.now) self.old }
        ensures entries { entries_of_bytes (take result.used piece.now) self.old
            ≡ option_to_list result.entry }
    {
        for used in 0..piece.len() {
            let entry = self.push(piece[used]);
            if entry.is_some() {
                return PushedEntry {
                    used: used + 1,
                    entry,
                };
            }
        }
        PushedEntry {
            used: piece.len(),
            entry: None,
        }
    }

    /// Returns whether the input, if it ends here, has a last line without LF that isn't empty.
    pub fn has_last_line(&self) -> bool
        ensures { result ≡ is_some (entry_of_byte 10 self.now) }
    {
        !self.ended && !self.is_empty()
    }

    /// Returns whether the next byte is the first of a line.
    pub(crate) fn is_before_line(&self) -> bool
        ensures { result ≡ is_before_line self.now }
    {
        self.ended || (self.is_empty() && !self.returned)
    }

    /// Returns whether the line has no characters so far, apart from a CR at its end.
    fn is_empty(&self) -> bool
        ensures { result ≡ is_nothing self.now.high self.now.refused self.now.message }
    {
        self.refused.is_none() && self.high.is_none() && self.message.is_empty()
    }

    /// Returns whether the last byte was a CR, which is part of the line's end if LF follows.
    pub(crate) fn is_after_return(&self) -> bool
        ensures { result ≡ self.now.returned }
    {
        self.returned
    }

    /// Returns the message of the line, if its end completed one.
    pub fn message(&self) -> &[u8]
        ensures { result.now ≡ self.now.message }
    {
        &self.message
    }

    /// Returns whether the line consists of `?` only, which isn't a message.
    pub fn is_question(&self) -> bool
        ensures { result ≡ is_question self.now }
    {
        match self.high {
            Some(digit) => digit == b'?' && self.message.is_empty(),
            None => false,
        }
    }

    /// Returns the number of the line, from 1.
    pub fn number(&self) -> u64
        ensures { result ≡ self.now.number }
    {
        self.number
    }
}

/// Returns the byte that two digits encode.
#[tactic(auto, unfolding(crate::specs::HexLines::byte_of_digits))]
fn byte_in(high: u8, low: u8) -> Option<u8>
    ensures { result ≡ byte_of_digits high low }
{
    let mut byte = [0];
    match hex::decode_to_slice(&[high, low], &mut byte) {
        Ok(()) => Some(byte[0]),
        Err(_refused) => None,
    }
}
