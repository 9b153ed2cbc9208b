//! Calls of a session whose contracts state more than tests need: each has a function of its own
//! here that promises nothing.
use ddcmp_session::{Down, EndReason, LineEnd, Session};

pub fn connects(session: &mut Session) -> bool {
    session.connected()
}

pub fn ends_line(session: &mut Session) {
    let _has_room = session.line_ended(LineEnd::Down(Down::Closed));
}

pub fn wake(session: &mut Session, now: u64) {
    session.handle_timeout(now);
}

pub fn pass_time(session: &mut Session, now: u64) {
    session.pass_time(now);
}

pub fn wakes_at(session: &Session) -> u64 {
    session.wakes_at()
}

pub fn wakes_without_line_at(session: &Session, now: u64) -> u64 {
    session.wakes_without_line_at(now)
}

/// Returns after how many seconds the line is opened again, and at which moment.
pub fn open_fails(session: &mut Session, now: u64) -> (u64, u64) {
    let seconds = session.open_failed(now);
    (seconds, session.opens_at())
}

pub fn end_of(session: &Session) -> Option<EndReason> {
    session.end()
}

pub fn lost(session: &Session) -> u64 {
    session.lost()
}

pub fn fill(session: &mut Session) {
    session.fill();
}

/// Drops what is pending for the line; returns how many bytes that is.
pub fn sends(session: &mut Session) -> usize {
    session.fill();
    let n = session.to_line().len();
    session.line_took(n);
    n
}

/// Returns how many bytes of its input it reads.
pub fn reads(session: &mut Session, input: &[u8]) -> usize {
    session.input_read(input)
}

pub fn ends_input(session: &mut Session) {
    session.input_ended();
}

/// Returns how many of these bytes of the line it reads.
pub fn hears(session: &mut Session, bytes: &[u8]) -> usize {
    session.received(bytes)
}

pub fn delivers(session: &mut Session) -> bool {
    session.deliver()
}

/// Has standard output take all that is queued for it.
pub fn writes(session: &mut Session) {
    let n = session.to_output().len();
    session.output_took(n);
}

pub fn drops_errors(session: &mut Session) {
    let n = session.to_errors().len();
    session.errors_took(n);
}

/// Returns whether this is what is pending for standard error.
pub fn has_errors(session: &Session, errors: &[u8]) -> bool {
    session.to_errors() == errors
}
