//! A session allocates all its memory when it is made: that fails, or the session does everything.
use crate::calls::{connects, delivers, drops_errors, end_of, ends_input, ends_line, reads, wake};
use ddcmp_log::LogNotation;
use ddcmp_session::{EndReason, LineKind, MessageForm, Options, Session};
use ddcmp_station::{Config, ConfigRefusal};
use std::process::Abort;

fn options(form: MessageForm) -> Options {
    Options {
        config: Config {
            window: 7,
            inbox: 8,
            max: 16_383,
            syn: 0,
            restart: false,
        },
        timer_ms: 1000,
        attempts: 0,
        linger_ms: 0,
        baud: 0,
        seconds: 100,
        report: 1,
        form,
        maintenance: false,
        acknowledge_early: false,
        stay: false,
        awaits_end: true,
        again: true,
        counters: true,
        trace: Some(LogNotation::Plain),
        clock: true,
        json: true,
    }
}

/// Returns a session, or none if an allocation failed.
fn session(rt: &(impl Abort + AllocGlobal), form: MessageForm, kind: LineKind) -> Option<Session> {
    match Session::new(rt.alloc(), options(form), kind) {
        Ok(mut session) => {
            session.began_at(0);
            Some(session)
        }
        Err(refusal) => {
            assert!(rt; refusal == ConfigRefusal::Memory);
            None
        }
    }
}

/// Passes what is pending for the line to the other end, and takes what both write; returns whether
/// anything moved.
fn passes(from: &mut Session, to: &mut Session) -> bool {
    from.fill();
    let sent = from.to_line();
    to.log_received(sent);
    let used = to.received(sent);
    from.line_took(used);
    let _delivered = delivers(to);
    drops_errors(from);
    used > 0
}

fn settles(a: &mut Session, b: &mut Session) {
    for _turn in 0..10_000u32 {
        let there = passes(a, b);
        let back = passes(b, a);
        if !there && !back {
            break;
        }
    }
}

/// Returns the text of the longest message in this form.
fn longest(rt: &(impl Abort + AllocGlobal), form: MessageForm) -> Option<Vec<u8>> {
    let (front, byte, count, back): (&[u8], &[u8], u32, &[u8]) = match form {
        MessageForm::Digits | MessageForm::EventLines => (b"", b"61", 16_383, b"\n"),
        MessageForm::Binary | MessageForm::Events => (b"\x3f\xff", b"a", 16_383, b""),
    };
    let mut text = Vec::with_capacity(rt.alloc(), 40_000).ok()?;
    text.extend_from_slice(front).ok()?;
    for _byte in 0..count {
        text.extend_from_slice(byte).ok()?;
    }
    text.extend_from_slice(back).ok()?;
    Some(text)
}

/// Runs two ends over one line after another, with a longest message on each; returns whether an
/// allocation failed before.
fn is_refused(rt: &(impl Abort + AllocGlobal), form: MessageForm, kind: LineKind) -> bool {
    let Some(text) = longest(rt, form) else {
        return true;
    };
    let Some(mut a) = session(rt, form, kind) else {
        return true;
    };
    let Some(mut b) = session(rt, form, kind) else {
        return true;
    };
    for line in 0..4u64 {
        let now = 1 + 1000 * line;
        assert!(rt; connects(&mut a) && connects(&mut b));
        wake(&mut a, now);
        wake(&mut b, now);
        settles(&mut a, &mut b);
        assert!(rt; reads(&mut a, text.as_slice()) == text.len());
        settles(&mut a, &mut b);
        is_written(rt, &mut b, text.as_slice());
        settles(&mut a, &mut b);
        ends_line(&mut a);
        ends_line(&mut b);
    }
    ends(rt, &mut a, &mut b);
    false
}

/// Checks that the end of what a session wrote is a message, with its mark if it is in digits.
fn is_written(rt: &impl Abort, session: &mut Session, text: &[u8]) {
    let told = session.to_output();
    let n = told.len();
    assert!(rt; told.ends_with(text));
    session.output_took(n);
}

fn finishes(session: &mut Session) {
    let _done = session.close(b"", true);
    session.finish();
    session.write_end();
}

fn ends(rt: &impl Abort, a: &mut Session, b: &mut Session) {
    assert!(rt; connects(a) && connects(b));
    settles(a, b);
    ends_input(a);
    wake(a, 5000);
    assert!(rt; end_of(a) == Some(EndReason::Done));
    finishes(a);
    assert!(rt; (a.lost(), a.has_run()) == (0, true));
}

/// Returns whether an allocation fails in two ends of a connection with messages in digits.
fn is_refused_digits(rt: &(impl Abort + AllocGlobal)) -> bool {
    is_refused(rt, MessageForm::Digits, LineKind::Connect)
}

/// Returns whether an allocation fails in two ends of a line of datagrams, with binary messages.
fn is_refused_binary(rt: &(impl Abort + AllocGlobal)) -> bool {
    is_refused(rt, MessageForm::Binary, LineKind::Datagrams)
}

#[test]
fn refused_memory_makes_no_session(rt: HostRuntime) {
    let _either = is_refused_digits(&rt);
}

#[test]
fn refused_memory_makes_no_session_in_binary(rt: HostRuntime) {
    let _either = is_refused_binary(&rt);
}

#[test]
fn ample_memory_exchanges(rt: HostRuntime) {
    assert!(&rt; !is_refused_digits(&rt));
}

#[test]
fn ample_memory_exchanges_in_binary(rt: HostRuntime) {
    assert!(&rt; !is_refused_binary(&rt));
}
