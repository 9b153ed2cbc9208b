//! Messages as text: a line of hexadecimal digits each, or bytes after their length.
ghost use Rattle.std.specs.Prelude.{◌≡◌, ◌+◌, ◌≤◌, ℕ, [], IfOk, None, Some, length, take};
ghost use Rattle.std.specs.Prelude.{option_to_list};
ghost use Rattle.ddcmp_streams.specs.Messages.{messages_begun, message_in, after_input};
ghost use Rattle.ddcmp_streams.specs.Messages.{entries_of_input, is_message_unfinished};
ghost use Rattle.ddcmp_streams.specs.Messages.{after_last, entry_of_last, has_last_line};
ghost use Rattle.ddcmp_streams.specs.Messages.{command_in, command_of, is_question};
ghost use Rattle.ddcmp_streams.specs.Messages.{has_events, line_number};

use ddcmp_input::{CommandLines, Entry, HexLines, Lengths, PushedEntry, Records};
use std::alloc::{AllocError, Global};

/// How messages are written on standard input and output.
#[derive(Clone, Copy, Debug, PartialEq, Eq)]
pub enum MessageForm {
    /// Each as a line of hexadecimal digits.
    Digits,
    /// Each after its length as two bytes, high byte first.
    Binary,
    /// The same, with events among them in the output and commands among them in the input, whose
    /// lengths have the top bit set.
    Events,
    /// Each as a line of hexadecimal digits, with commands among them in the input: lines that
    /// begin with `?`.
    EventLines,
}

impl MessageForm {
    /// Returns whether commands are read among the messages.
    pub fn has_events(self) -> bool
        ensures { result ≡ has_events self }
    {
        match self {
            MessageForm::Digits | MessageForm::Binary => false,
            MessageForm::Events | MessageForm::EventLines => true,
        }
    }
}

/// What a command among messages asks for.
#[derive(Clone, Copy, PartialEq, Eq)]
pub enum Command {
    /// `ready`: acknowledges the first event that has none yet and begins an incarnation.
    Ready,
    /// `restart`: leaves the line, which is opened again if that is asked for.
    Restart,
    /// `halt`: leaves the line, which is opened again by `start` alone.
    Halt,
    /// `start`: takes a `halt` back.
    Start,
    /// `report`: asks for a report of the counters.
    Report,
    /// `quit`: ends the input.
    Quit,
    /// Another text.
    Unknown,
}

/// Returns what a command of this text asks for.
fn command_of(text: &[u8]) -> Command
    ensures { result ≡ command_of text.now }
{
    if text == b"ready".as_slice() {
        Command::Ready
    } else if text == b"restart".as_slice() {
        Command::Restart
    } else if text == b"halt".as_slice() {
        Command::Halt
    } else if text == b"start".as_slice() {
        Command::Start
    } else if text == b"report".as_slice() {
        Command::Report
    } else if text == b"quit".as_slice() {
        Command::Quit
    } else {
        Command::Unknown
    }
}

/// A reader of messages from an input in chunks of any size.
pub enum Messages {
    Digits(HexLines),
    Binary(Lengths),
    Events(Records),
    EventLines(CommandLines),
}

// Manual, since a derived `Drop` is expanded wherever it is dropped.
impl Drop for Messages {
    fn drop(self) {
        match self {
            Messages::Digits(_lines) => {}
            Messages::Binary(_lengths) => {}
            Messages::Events(_records) => {}
            Messages::EventLines(_lines) => {}
        }
    }
}

impl Messages {
    /// Makes a reader of messages of 1 to `max` bytes. Allocates all the memory that it will need.
    pub fn new(alloc: Global, form: MessageForm, max: u16) -> Result<Messages, AllocError>
        ensures { IfOk result (λ made. made ≡ messages_begun form max) }
    {
        match form {
            MessageForm::Digits => Ok(Messages::Digits(HexLines::new(alloc, max)?)),
            MessageForm::Binary => Ok(Messages::Binary(Lengths::new(alloc, max)?)),
            MessageForm::Events => Ok(Messages::Events(Records::new(alloc, max)?)),
            MessageForm::EventLines => Ok(Messages::EventLines(CommandLines::new(alloc, max)?)),
        }
    }

    /// Returns the message that was read last.
    pub fn message(&self) -> &[u8]
        ensures { result.now ≡ message_in self.now }
    {
        match self {
            Messages::Digits(lines) => lines.message(),
            Messages::Binary(lengths) => lengths.message(),
            Messages::Events(records) => records.message(),
            Messages::EventLines(lines) => lines.message(),
        }
    }

    /// Handles bytes of the input, up to the first that completes a message or a part that is none.
    pub fn push(&mut self, bytes: &[u8]) -> PushedEntry
        ensures used { result.used ≤ length bytes.now }
        ensures first { (n : ℕ) (entry : Entry) → result.entry ≡ Some entry → result.used ≡ n + 1
            → entries_of_input (take n bytes.now) self.old ≡ [] }
        ensures whole { result.entry ≡ None → result.used ≡ length bytes.now }
        ensures state { self.new ≡ after_input (take result.used bytes.now) self.old }
        ensures entries { entries_of_input (take result.used bytes.now) self.old
            ≡ option_to_list result.entry }
    {
        match self {
            Messages::Digits(lines) => lines.push_all(bytes),
            Messages::Binary(lengths) => lengths.push_all(bytes),
            Messages::Events(records) => records.push_all(bytes),
            Messages::EventLines(lines) => lines.push_all(bytes),
        }
    }

    /// Handles the end of the input, and returns what the last line is, if it has no LF.
    pub fn end(&mut self) -> Option<Entry>
        ensures state { self.new ≡ after_last self.old }
        ensures entry { result ≡ entry_of_last self.old }
    {
        match self {
            Messages::Digits(lines) => lines.push(b'\n'),
            Messages::EventLines(lines) => lines.push(b'\n'),
            Messages::Binary(_) | Messages::Events(_) => None,
        }
    }

    /// Returns whether the input, if it ends here, has a last line without LF that isn't empty.
    pub fn has_last_line(&self) -> bool
        ensures { result ≡ has_last_line self.now }
    {
        match self {
            Messages::Digits(lines) => lines.has_last_line(),
            Messages::EventLines(lines) => lines.has_last_line(),
            Messages::Binary(_) | Messages::Events(_) => false,
        }
    }

    /// Returns whether a message in binary, or a command, has begun whose end wasn't read yet.
    pub fn is_unfinished(&self) -> bool
        ensures { result ≡ is_message_unfinished self.now }
    {
        match self {
            Messages::Digits(_) | Messages::EventLines(_) => false,
            Messages::Binary(lengths) => lengths.is_unfinished(),
            Messages::Events(records) => records.is_unfinished(),
        }
    }

    /// Returns whether the line of the input that was read last is `?`, which asks for a report.
    pub fn is_question(&self) -> bool
        ensures { result ≡ is_question self.now }
    {
        match self {
            Messages::Digits(lines) => lines.is_question(),
            Messages::EventLines(lines) => lines.is_question(),
            Messages::Binary(_) | Messages::Events(_) => false,
        }
    }

    /// Returns what the last command asks for, if the last byte completed it.
    pub fn command(&self) -> Command
        ensures { result ≡ command_in self.now }
    {
        match self {
            Messages::Digits(_) | Messages::Binary(_) => Command::Unknown,
            Messages::Events(records) => command_of(records.command()),
            Messages::EventLines(lines) => command_of(lines.command()),
        }
    }

    /// Returns the number of the line of the input that was read last, from 1; none in binary.
    pub fn line_number(&self) -> Option<u64>
        ensures { result ≡ line_number self.now }
    {
        match self {
            Messages::Digits(lines) => Some(lines.number()),
            Messages::EventLines(lines) => Some(lines.number()),
            Messages::Binary(_) | Messages::Events(_) => None,
        }
    }
}
