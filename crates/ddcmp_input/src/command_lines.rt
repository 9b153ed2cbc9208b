//! Messages in hexadecimal, one a line, with commands among them.

use crate::entry::{Entry, PushedEntry};
use crate::hex_lines::HexLines;
use crate::records::COMMAND_ROOM;
use std::alloc::{AllocError, Global};
use std::marker::Model;

/// What the line that is read is.
#[derive(Clone, Copy)]
pub enum CommandPlace {
    /// No command: it doesn't begin with `?`.
    Message,
    /// A command, or `?` only.
    Command,
    /// A command that is too long.
    TooLong,
}

/// Parses an input with one message a line, in hexadecimal digits, and with commands among them:
/// lines that begin with `?`. A line that consists of `?` only is neither.
#[derive(Drop)]
pub struct CommandLines {
    lines: HexLines,
    place: CommandPlace,
    command: Vec<u8>,
}

impl Model for CommandLines {
    ghost use Rattle.std.specs.Prelude.{◌≤◌, vec_len, vec_capacity};
    ghost use Rattle.ddcmp_input.specs.CommandLines.{CommandsView};
    ghost use Rattle.ddcmp_input.specs.declared.records.TheConstants.{COMMAND_ROOM};

    ghost Value = { CommandsView };

    ghost view = { λ c. record { lines = c.lines; place = c.place; command = c.command.items } };

    ghost invariant = { λ c. (COMMAND_ROOM ≤ vec_capacity c.command)
        × (vec_len c.command ≤ COMMAND_ROOM) };
}

impl CommandLines {
    ghost use Rattle.std.specs.Prelude.{◌≡◌, ◌+◌, ◌≤◌, ℕ, [], Some, IfOk, None, length, take};
    ghost use Rattle.std.specs.Prelude.{is_some, option_to_list};
    ghost use Rattle.ddcmp_input.specs.CommandLines.{after_byte, after_bytes, after_char};
    ghost use Rattle.ddcmp_input.specs.CommandLines.{after_first, after_next, begun, entry_in};
    ghost use Rattle.ddcmp_input.specs.CommandLines.{entries_of_bytes, entry_of_byte};
    ghost use Rattle.ddcmp_input.specs.CommandLines.{return_taken};
    ghost use Rattle.ddcmp_input.specs.HexLines.{is_question};

    /// Makes a parser that has read nothing. It allocates all memory that it will need.
    pub fn new(alloc: Global, max: u16) -> Result<CommandLines, AllocError>
        ensures { IfOk result (λ made. made ≡ begun max) }
    {
        Ok(CommandLines {
            lines: HexLines::new(alloc, max)?,
            place: CommandPlace::Message,
            command: Vec::with_capacity(alloc, COMMAND_ROOM as usize)?,
        })
    }

    /// Takes a byte; returns what it completes. After the last line push a line feed.
    pub fn push(&mut self, byte: u8) -> Option<Entry>
        ensures state { self.new ≡ after_byte byte self.old }
        ensures entry { result ≡ entry_of_byte byte self.old }
    {
        if self.lines.is_before_line() {
            self.take_first(byte);
        } else {
            self.take_next(byte);
        }
        let entry = self.lines.push(byte);
        self.entry_in(entry)
    }

    /// Takes the first byte of a line.
    fn take_first(&mut self, byte: u8)
        ensures { self.new ≡ after_first byte self.old }
    {
        self.command.clear();
        self.place = if byte == b'?' {
            CommandPlace::Command
        } else {
            CommandPlace::Message
        };
    }

    /// Takes another byte of a line, or its end.
    fn take_next(&mut self, byte: u8)
        ensures { self.new ≡ after_next byte self.old }
    {
        if byte == b'\n' {
            return;
        }
        self.take_return();
        if byte != b'\r' {
            self.take_char(byte);
        }
    }

    /// Takes a CR that isn't followed by LF as a character of the line.
    fn take_return(&mut self)
        ensures { self.new ≡ return_taken self.old }
    {
        if self.lines.is_after_return() {
            self.take_char(b'\r');
        }
    }

    fn take_char(&mut self, byte: u8)
        ensures { self.new ≡ after_char byte self.old }
    {
        match self.place {
            CommandPlace::Message | CommandPlace::TooLong => {}
            CommandPlace::Command => {
                if self.command.len() >= COMMAND_ROOM as usize {
                    self.place = CommandPlace::TooLong;
                    return;
                }
                match self.command.push(byte) {
                    Ok(()) => {}
                    Err(_) => unreachable!(),
                }
            }
        }
    }

    /// Returns what a line completes that completes this without commands.
    fn entry_in(&self, entry: Option<Entry>) -> Option<Entry>
        ensures { result ≡ entry_in self.now.place self.now.command entry }
    {
        let Some(refused) = entry else {
            return None;
        };
        match self.place {
            CommandPlace::Message => Some(refused),
            CommandPlace::Command if self.command.is_empty() => Some(refused),
            CommandPlace::Command => Some(Entry::Command),
            CommandPlace::TooLong => Some(Entry::TooLong),
        }
    }

    /// Takes bytes of a chunk, up to the first that completes something.
    pub fn push_all(&mut self, piece: &[u8]) -> PushedEntry
        ensures used { result.used ≤ length piece.now }
        // The last byte that was used completed it, and no byte before that completed anything.
        ensures first { (n : ℕ) (entry : Entry) → result.entry ≡ Some entry → result.used ≡ n + 1
            → entries_of_bytes (take n piece.now) self.old ≡ [] }
        ensures whole { result.entry ≡ None → result.used ≡ length piece.now }
        ensures state { self.new ≡ after_bytes (take result.used piece.now) self.old }
        ensures entries { entries_of_bytes (take result.used piece.now) self.old
            ≡ option_to_list result.entry }
    {
        for used in 0..piece.len() {
            let entry = self.push(piece[used]);
            if entry.is_some() {
                return PushedEntry {
                    used: used + 1,
                    entry,
                };
            }
        }
        PushedEntry {
            used: piece.len(),
            entry: None,
        }
    }

    /// Returns whether the input, if it ends here, has a last line without LF that isn't empty.
    pub fn has_last_line(&self) -> bool
        ensures { result ≡ is_some (entry_of_byte 10 self.now) }
    {
        self.lines.has_last_line()
    }

    /// Returns the message of the line, if its end completed one.
    pub fn message(&self) -> &[u8]
        ensures { result.now ≡ self.now.lines.message }
    {
        self.lines.message()
    }

    /// Returns the command of the line, if its end completed one: what follows `?`.
    pub fn command(&self) -> &[u8]
        ensures { result.now ≡ self.now.command }
    {
        &self.command
    }

    /// Returns whether the line consists of `?` only, which isn't a message.
    pub fn is_question(&self) -> bool
        ensures { result ≡ is_question self.now.lines }
    {
        self.lines.is_question()
    }

    /// Returns the number of the line, from 1.
    pub fn number(&self) -> u64
        ensures { result ≡ self.now.lines.number }
    {
        self.lines.number()
    }
}
