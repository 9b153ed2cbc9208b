//! Two sessions without I/O over lines that lose, damage and cut, by a clock of the test's own.
use crate::calls::{connects, delivers, end_of, ends_input, ends_line, lost, reads, wake, writes};
use ddcmp_session::{EndReason, LineKind, MessageForm, Options, Session};
use ddcmp_station::Config;
use std::process::Abort;
use test_kit::Draws;

/// Returns options for binary messages over a connection, for a day, with a reply timer of three
/// seconds.
pub(crate) fn options(linger_ms: u32, seconds: u32) -> Options {
    Options {
        config: Config {
            window: 7,
            inbox: 8,
            max: 1500,
            syn: 0,
            restart: false,
        },
        timer_ms: 3000,
        attempts: 0,
        linger_ms,
        baud: 0,
        seconds,
        report: 0,
        form: MessageForm::Binary,
        maintenance: false,
        acknowledge_early: false,
        stay: false,
        awaits_end: true,
        again: false,
        counters: false,
        trace: None,
        clock: false,
        json: false,
    }
}

pub(crate) fn session(rt: &(impl Abort + AllocGlobal), options: Options) -> Session {
    let Ok(mut session) = Session::new(rt.alloc(), options, LineKind::Connect) else {
        panic!(rt; "no memory");
    };
    assert!(rt; connects(&mut session));
    session
}

/// One end: its session, its input and how much of that was taken, its output, and the bytes in
/// flight to it.
#[derive(Drop)]
struct Side {
    session: Session,
    input: Vec<u8>,
    at: usize,
    output: Vec<u8>,
    line: Vec<u8>,
    end: Option<EndReason>,
}

pub(crate) fn append(rt: &impl Abort, to: &mut Vec<u8>, bytes: &[u8]) {
    assert!(rt; to.extend_from_slice(bytes).is_ok());
}

/// Returns this many messages of random lengths, each after its length.
pub(crate) fn messages(rt: &(impl Abort + AllocGlobal), draws: &mut Draws, count: u32) -> Vec<u8> {
    let mut input = Vec::new(rt.alloc());
    for _message in 0..count {
        let length = 1 + draws.below(1500) as u16;
        append(rt, &mut input, &length.to_be_bytes());
        for _byte in 0..length {
            append(rt, &mut input, &[draws.byte()]);
        }
    }
    input
}

impl Side {
    fn new(rt: &(impl Abort + AllocGlobal), draws: &mut Draws, count: u32) -> Side {
        Side {
            session: session(rt, options(3_600_000, 86_400)),
            input: messages(rt, draws, count),
            at: 0,
            output: Vec::new(rt.alloc()),
            line: Vec::new(rt.alloc()),
            end: None,
        }
    }

    /// Passes some of the input to the session, or its end.
    fn types(&mut self, draws: &mut Draws) {
        let rest = self.input.as_slice().get(self.at..).unwrap_or(&[]);
        if rest.is_empty() {
            ends_input(&mut self.session);
            return;
        }
        let piece = &rest[..rest.len().min(draws.below(4000))];
        self.at = self.at.saturating_add(reads(&mut self.session, piece));
    }

    /// Passes received bytes to the session, in a chunk of random size.
    fn hears(&mut self, draws: &mut Draws) {
        let piece = self.line.len().min(draws.below(3000));
        let used = self.session.received(&self.line.as_slice()[..piece]);
        let left = self.line.len().saturating_sub(used);
        self.line
            .as_mut_slice()
            .rotate_left(used.min(left.saturating_add(used)));
        self.line.truncate(left);
    }

    /// Writes some of the output.
    fn writes(&mut self, rt: &impl Abort, draws: &mut Draws) {
        for _message in 0..u64::MAX {
            if !delivers(&mut self.session) {
                break;
            }
        }
        let waiting = self.session.to_output();
        let n = waiting.len().min(draws.below(2000));
        append(rt, &mut self.output, &waiting[..n]);
        self.session.output_took(n);
    }

    /// Sends a chunk of what is pending for the line, with random faults.
    fn sends(&mut self, rt: &impl Abort, draws: &mut Draws, to: &mut Vec<u8>) {
        self.session.fill();
        let waiting = self.session.to_line();
        let n = waiting.len().min(draws.below(3000));
        let before = to.len();
        match draws.below(20) {
            0 => {}
            1 => append(rt, to, &waiting[..n / 2]),
            2 => {
                append(rt, to, &waiting[..n]);
                if let Some(byte) = to.as_mut_slice().get_mut(before.saturating_add(n / 3)) {
                    *byte ^= 1 + draws.up_to(200);
                }
            }
            _ => append(rt, to, &waiting[..n]),
        }
        self.session.line_took(n);
    }

    /// Runs what an end does between two waits.
    fn turn(&mut self, rt: &impl Abort, draws: &mut Draws, now: u64, to: &mut Vec<u8>) {
        wake(&mut self.session, now);
        self.end = end_of(&self.session);
        if self.end.is_none() {
            self.types(draws);
            self.sends(rt, draws, to);
            self.hears(draws);
            self.writes(rt, draws);
        }
    }
}

/// Two sessions over a line that loses, damages and cuts: both end, and what each wrote is what the
/// other read. A header whose data are lost takes the bytes after it as data; as these may be
/// nothing but acknowledgements in the end, both linger for an hour.
fn exchanges(rt: &(impl Abort + AllocGlobal), seed: u64) {
    let mut draws = Draws { state: seed };
    let mut a = Side::new(rt, &mut draws, 60);
    let mut b = Side::new(rt, &mut draws, 25);
    let mut now = 0u64;
    for _turn in 0..200_000u32 {
        a.turn(rt, &mut draws, now, &mut b.line);
        b.turn(rt, &mut draws, now, &mut a.line);
        if a.end.is_some() && b.end.is_some() {
            break;
        }
        now = now.saturating_add(100);
    }
    assert!(rt; (a.end, b.end) == (Some(EndReason::Done), Some(EndReason::Done)));
    assert!(rt; a.output.as_slice() == b.input.as_slice());
    assert!(rt; b.output.as_slice() == a.input.as_slice());
    assert!(rt; lost(&a.session) == 0 && lost(&b.session) == 0);
}

#[test]
fn outputs_are_inputs(rt: HostRuntime) {
    for seed in 1..9u64 {
        exchanges(&rt, seed);
    }
}

/// Has one session receive what is pending for the line of the other.
fn carries(from: &mut Session, to: &mut Session) {
    for _piece in 0..20u32 {
        from.fill();
        let used = to.received(from.to_line());
        from.line_took(used);
    }
}

/// Starts both.
fn start(one: &mut Session, other: &mut Session) {
    for _turn in 0..4u32 {
        carries(one, other);
        carries(other, one);
    }
}

/// A session that is connected again counts what happened on a line that was never ended.
#[test]
fn a_line_that_has_not_ended_is_counted(rt: HostRuntime) {
    let mut a = session(&rt, options(0, 86_400));
    let mut b = session(&rt, options(0, 86_400));
    start(&mut a, &mut b);
    assert!(rt; reads(&mut a, &[0, 1, 7]) == 3);
    assert!(rt; connects(&mut a));
    assert!(rt; lost(&a) == 1);
    ends_line(&mut a);
    assert!(rt; lost(&a) == 1);
}

/// If a received message, which isn't written, keeps it from starting, it counts that when it
/// starts.
#[test]
fn a_refused_start_counts_later(rt: HostRuntime) {
    let mut a = session(&rt, options(0, 86_400));
    let mut b = session(&rt, options(0, 86_400));
    start(&mut a, &mut b);
    assert!(rt; reads(&mut b, &[0, 1, 9]) == 3);
    carries(&mut b, &mut a);
    assert!(rt; reads(&mut a, &[0, 1, 7]) == 3);
    assert!(rt; !connects(&mut a));
    assert!(rt; lost(&a) == 0);
    assert!(rt; delivers(&mut a));
    assert!(rt; !connects(&mut a));
    writes(&mut a);
    assert!(rt; connects(&mut a));
    assert!(rt; lost(&a) == 1);
}
