//! The connection between the laws of sessions and the code: for each call of a session a function
//! that makes it, whose contract states that it is that call of a history.
ghost use Rattle.std.specs.Prelude.{◌≡◌, ◌<◌, ◌≤◌, ◌++◌, ℕ, true, List, [], min, length, take};
ghost use Rattle.std.specs.Prelude.{is_ok, is_some, IfOk, None};
ghost use Rattle.ddcmp_frame.specs.Reader.{StandsFor};
ghost use Rattle.ddcmp_core.specs.Table.{after_halt, answer_to_start};
ghost use Rattle.ddcmp_proto.specs.Config.{first_refusal};
ghost use Rattle.ddcmp_station.specs.Linking.{countable};
ghost use Rattle.ddcmp_streams.specs.Messages.{entries_of_input};
ghost use Rattle.ddcmp_session.specs.Session.{wants_input, wants_line, room_for_mail};
ghost use Rattle.ddcmp_session.specs.Session.{next_mail, reports_end, reports_loss};
ghost use Rattle.ddcmp_session.specs.Calls.{SessionDoes, InputRead, InputEnded};
ghost use Rattle.ddcmp_session.specs.Calls.{Connected, LineEnded};
ghost use Rattle.ddcmp_session.specs.Calls.{Received, Filled, LineTook, TimedOut, Delivered};
ghost use Rattle.ddcmp_session.specs.Calls.{OutputTook, Closed, new_session};
ghost use Rattle.ddcmp_session.specs.Connections.{Does};

use ddcmp_session::{LineEnd, LineKind, Options, Session};
use ddcmp_station::ConfigRefusal;
use std::alloc::Global;

/// Makes a session of sizes in range, which begins a history.
pub fn makes(alloc: Global, options: Options, kind: LineKind) -> Result<Session, ConfigRefusal>
    ensures begins { IfOk result (λ s. s.state
        ≡ (new_session options kind s.state.link.station.line).session) }
    ensures line { IfOk result (λ s. StandsFor s.state.link.station.line []) }
    ensures in_range { IfOk result (λ s. first_refusal options.config ≡ None) }
{
    Session::new(alloc, options, kind)
}

/// Handles bytes of the input and returns how many were used: all, if they complete nothing.
pub fn reads_input(session: &mut Session, bytes: &[u8]) -> usize
    ensures done { (text : List ℕ)
        → SessionDoes (InputRead (take result bytes.now)) text session.old.state session.new.state }
    ensures whole { wants_input session.old.state ≡ true
        → entries_of_input (take result bytes.now) session.old.state.messages ≡ []
        → result ≡ length bytes.now }
    ensures line { session.new.state.link.station.line ≡ session.old.state.link.station.line }
{
    session.input_read(bytes)
}

/// Handles the end of the input.
pub fn ends_input(session: &mut Session)
    ensures done { (text : List ℕ)
        → SessionDoes InputEnded text session.old.state session.new.state }
    ensures line { session.new.state.link.station.line ≡ session.old.state.link.station.line }
{
    session.input_ended();
}

/// Starts a session on a line that is clear, if nothing is queued for it, or again on any line.
pub fn connects(session: &mut Session) -> bool
    ensures done { session.old.state.link.outbox.waiting ≡ []
        → SessionDoes Connected [] session.old.state session.new.state }
    ensures again { (text : List ℕ) → Does Connected text session.old.state session.new.state }
    ensures answer { result
        ≡ is_ok (answer_to_start (after_halt session.old.state.link.station.core.station)) }
    ensures line { StandsFor session.new.state.link.station.line [] }
{
    session.connected()
}

/// Handles this end of the line; returns whether there was room to report it and what is lost.
pub fn ends_line(session: &mut Session, how: LineEnd) -> bool
    ensures done { (text : List ℕ)
        → SessionDoes (LineEnded how result) text session.old.state session.new.state }
    ensures when { result ≡ reports_end session.old.state }
    ensures line { session.new.state.link.station.line ≡ session.old.state.link.station.line }
{
    session.line_ended(how)
}

/// Handles bytes of the line and returns how many were used.
pub fn receives(session: &mut Session, bytes: &[u8]) -> usize
    ensures done { (text : List ℕ) → StandsFor session.old.state.link.station.line text
        → SessionDoes (Received (take result bytes.now)) text session.old.state session.new.state }
    ensures some { 0 < length bytes.now → 0 < countable session.old.state.link.station
        → wants_line session.old.state ≡ true → 0 < result }
    ensures line { (text : List ℕ) → StandsFor session.old.state.link.station.line text
        → StandsFor session.new.state.link.station.line (text ++ take result bytes.now) }
{
    session.received(bytes)
}

/// Queues frames after the bytes pending for the line.
pub fn fills(session: &mut Session)
    ensures done { (text : List ℕ)
        → (frames : ℕ) × SessionDoes (Filled frames) text session.old.state session.new.state }
    ensures line { session.new.state.link.station.line ≡ session.old.state.link.station.line }
{
    session.fill();
}

/// Notes that the line took bytes.
pub fn line_takes(session: &mut Session, n: usize)
    ensures done { (text : List ℕ)
        → SessionDoes (LineTook (min n (length session.old.state.link.outbox.waiting))) text
        session.old.state session.new.state }
    ensures line { session.new.state.link.station.line ≡ session.old.state.link.station.line }
{
    session.line_took(n);
}

/// Handles the timers.
pub fn times_out(session: &mut Session, now: u64)
    ensures done { (text : List ℕ) → SessionDoes (TimedOut now) text session.old.state
        session.new.state }
    ensures line { session.new.state.link.station.line ≡ session.old.state.link.station.line }
{
    session.handle_timeout(now);
}

/// Writes the first received message, if there is one and there is room for it.
pub fn delivers(session: &mut Session) -> bool
    ensures done { (text : List ℕ)
        → SessionDoes (Delivered result) text session.old.state session.new.state }
    ensures when { room_for_mail session.old.state ≤ session.old.state.output.room → result
        ≡ is_some (next_mail session.old.state) }
    ensures line { session.new.state.link.station.line ≡ session.old.state.link.station.line }
{
    session.deliver()
}

/// Notes that standard output took bytes.
pub fn output_takes(session: &mut Session, n: usize)
    ensures done { (text : List ℕ)
        → SessionDoes (OutputTook (min n (length session.old.state.output.waiting))) text
        session.old.state session.new.state }
    ensures line { session.new.state.link.station.line ≡ session.old.state.link.station.line }
{
    session.output_took(n);
}

/// Ends the run; returns whether there was room to report what is lost.
pub fn closes(session: &mut Session, input: &[u8], input_is_at_end: bool) -> bool
    ensures done { (text : List ℕ)
        → SessionDoes (Closed input.now input_is_at_end result) text session.old.state
        session.new.state }
    ensures when { result ≡ reports_loss session.old.state }
    ensures line { session.new.state.link.station.line ≡ session.old.state.link.station.line }
{
    session.close(input, input_is_at_end)
}
