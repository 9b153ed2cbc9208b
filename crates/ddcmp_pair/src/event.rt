//! The events on a line, and the replies.
ghost use Rattle.std.specs.Prelude.{◌≡◌};

use crate::bytes::{Bytes, Notices};
use ddcmp_core::{SendRefusal, Seq, StartRefusal};
use ddcmp_io::End;

/// An event of a pair.
#[derive(Drop)]
pub enum Event {
    /// The end asks its peer to start.
    Start(End),
    Halt(End),
    /// The end's user sends a message.
    Send(End, Bytes),
    /// The end writes its next frame.
    Poll(End),
    /// Bytes arrive at the end.
    Arrive(End, Bytes),
    /// The end's timer expires.
    Expire(End),
    /// The end's user takes a message.
    Take(End),
    /// The line is emptied, and the histories restart empty.
    Clear,
}

impl Event {
    ghost use Rattle.ddcmp_pair.specs.Run.{end_of};

    /// Returns the end where it happens; none for Clear, which concerns both.
    pub fn end(&self) -> Option<End>
        ensures { result ≡ end_of self.now }
    {
        match self {
            Event::Start(end) | Event::Halt(end) | Event::Poll(end) => Some(*end),
            Event::Expire(end) | Event::Take(end) => Some(*end),
            Event::Send(end, _message) => Some(*end),
            Event::Arrive(end, _bytes) => Some(*end),
            Event::Clear => None,
        }
    }
}

/// The reply to an event.
#[derive(Drop)]
pub enum Reply {
    /// Start: how many queued messages were dropped.
    Started(u8),
    StartRefused(StartRefusal),
    Halted,
    /// Send: the number of the message.
    Accepted(Seq),
    SendRefused(SendRefusal),
    /// Poll: the bytes on the line, with their SYN fill.
    Wrote(Bytes),
    /// Poll: there is nothing to send.
    Idle,
    /// Arrive: its notices.
    Notices(Notices),
    /// Expire: whether the timer was on.
    Expired(bool),
    /// Take: the message.
    Took(Bytes),
    /// Take: there is no message.
    Nothing,
    Cleared,
    /// Clear: an end isn't halted, or has a message that wasn't taken.
    ClearRefused(StartRefusal),
}
