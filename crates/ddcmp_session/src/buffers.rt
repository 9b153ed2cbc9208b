//! Bytes that were read for a session and not used yet.
ghost use Rattle.std.specs.Prelude.{◌≡◌, [], IfOk};
ghost use Rattle.ddcmp_session.specs.Devices.{nothing_read};

mod finish;
mod flow;
mod lines;
mod runner;

use crate::chunk::Chunk;
use crate::devices::{Down, Wanted};
use crate::session::Session;
pub use lines::Stop;
pub use runner::{drain_errors, drain_output};
use std::alloc::{AllocError, Global};
use std::marker::Model;

/// Bytes that were read for a session and not used yet. `run` moves bytes between the session and
/// its devices, and makes no decisions.
///
/// `run_to_end` runs a session from its first line to its last and finishes it. `run_lines` does so
/// until it has closed the session, and `run` runs over one line after `begin_line`. `drain_output`
/// and `drain_errors` write what is queued, as at the end.
pub struct Buffers {
    input: Chunk,
    received: Chunk,
    input_is_over: bool,
    /// Why nothing more is written to the line, if it is down. Bytes already received are still
    /// read.
    down: Option<Down>,
}

impl Model for Buffers {
    ghost use Rattle.ddcmp_session.specs.Devices.{BuffersView};

    ghost Value = { BuffersView };

    ghost view = { λ b. record {
      input = b.input;
      received = b.received;
      is_over = b.input_is_over;
      down = b.down;
    } };
}

// Manual, since a derived `Drop` is expanded wherever they are dropped.
impl Drop for Buffers {
    fn drop(self) {
        let Buffers {
            input: _input,
            received: _received,
            input_is_over: _,
            down: _,
        } = self;
    }
}

impl Buffers {
    ghost use Rattle.std.specs.Prelude.{◌≡◌, Option, true, false, [], is_ok};
    ghost use Rattle.ddcmp_core.specs.Table.{after_halt, answer_to_start};
    ghost use Rattle.ddcmp_session.specs.Traffic.{Becomes, Traffic, line_begun};
    ghost use Rattle.ddcmp_session.specs.Wanted.{reads_input, reads_line, wanted};
    ghost use Rattle.ddcmp_session.specs.Lines.{Closes, GoesOver, none_received};
    ghost use Rattle.ddcmp_session.specs.Session.{after_connected};

    /// Makes empty buffers. Allocates all the memory that they will need.
    pub fn new(alloc: Global) -> Result<Buffers, AllocError>
        ensures { IfOk result (λ made. made ≡ nothing_read) }
    {
        Ok(Buffers {
            input: Chunk::new(alloc)?,
            received: Chunk::new(alloc)?,
            input_is_over: false,
            down: None,
        })
    }

    /// Connects a session to a line that was opened, on which nothing was received yet. Returns
    /// false if received messages weren't delivered before.
    pub fn begin_line(&mut self, session: &mut Session) -> bool
        ensures state { self.new ≡ none_received self.old }
        ensures connected { session.new.state
            ≡ after_connected session.new.state.link.station.line session.old.state }
        ensures answer { result
            ≡ is_ok (answer_to_start (after_halt session.old.state.link.station.core.station)) }
        ensures over { (before after : Option Traffic) → Becomes before after line_begun
            → GoesOver self.old session.old.state before self.new session.new.state after }
        ensures log { session.new.log ≡ session.old.log }
    {
        self.received.clear();
        self.down = None;
        session.connected()
    }

    /// Returns which devices are to be waited for.
    pub fn wanted(&self, session: &Session) -> Wanted
        ensures { result ≡ wanted self.now session.now }
    {
        Wanted {
            input: self.wants_input(session),
            output: !session.to_output().is_empty(),
            errors: !session.to_errors().is_empty(),
            from_line: self.wants_line(session),
            to_line: self.down.is_none() && !session.to_line().is_empty(),
        }
    }

    /// Returns whether the input is to be read.
    fn wants_input(&self, session: &Session) -> bool
        ensures empty { result ≡ true → self.now.input ≡ [] }
        ensures goes_on { result ≡ true → self.now.is_over ≡ false }
        ensures exact { result ≡ reads_input self.now session.now.state }
    {
        !self.input_is_over && self.input.is_empty() && session.wants_input()
    }

    /// Returns whether the line is to be read.
    fn wants_line(&self, session: &Session) -> bool
        ensures used { result ≡ true → self.now.received ≡ [] }
        ensures exact { result ≡ reads_line self.now session.now.state }
    {
        self.received.is_empty() && session.wants_line()
    }

    /// Ends the run of a session. The messages that were read and that the session hasn't used are
    /// lost.
    pub fn close(&self, session: &mut Session)
        ensures closes { Closes self.now session.old.state session.new.state }
        ensures log { session.new.log ≡ record session.old.log {
          errors = session.new.log.errors;
          read = session.new.log.read;
        } }
    {
        let _has_room = session.close(self.input.rest(), self.input_is_over);
    }
}
