//! The loop of a session over devices in memory, which move random numbers of bytes at a time.
ghost use Rattle.std.specs.Prelude.{◌≤◌, length};

use crate::calls::{connects, delivers, ends_input, ends_line, hears, reads, wake};
use crate::sessions::{append, messages, options, session};
use ddcmp_io::Got;
use ddcmp_session::{
    Buffers, Devices, Down, EndReason, LineKind, Options, Session, Stop, Transfer, Wanted,
    drain_output,
};
use std::process::Abort;
use test_kit::Draws;

/// Bytes in flight, and how many of them were taken.
#[derive(Drop)]
struct Way {
    bytes: Vec<u8>,
    at: usize,
}

fn fresh(bytes: Vec<u8>) -> Way {
    Way { bytes, at: 0 }
}

impl Way {
    fn rest(&self) -> &[u8] {
        self.bytes.as_slice().get(self.at..).unwrap_or(&[])
    }

    /// Moves some of its bytes to the front of `space`.
    fn give(&mut self, most: usize, space: &mut [u8]) -> usize
        ensures { result ≤ length space.new }
    {
        let rest = self.rest();
        let n = rest.len().min(most).min(space.len());
        space[..n].copy_from_slice(&rest[..n]);
        self.at = self.at.saturating_add(n);
        n
    }

    fn clear(&mut self) {
        self.bytes.clear();
        self.at = 0;
    }

    fn take(&mut self, bytes: &[u8]) {
        let _has_memory = self.bytes.extend_from_slice(bytes);
    }
}

/// The devices of one end, and the other end of its line, which runs in each wait.
#[derive(Drop)]
struct Desk {
    draws: Draws,
    /// One of this many reads finds that the line was closed; 0 for none.
    cuts: usize,
    is_open: bool,
    now: u64,
    input: Way,
    from_line: Way,
    to_line: Way,
    output: Way,
    peer: Session,
    peer_input: Way,
    peer_output: Way,
}

/// Returns that this many bytes were moved, or none for one of two reasons.
fn moved(draws: &mut Draws, n: usize) -> Transfer {
    match draws.below(5) {
        0 => Transfer::Nothing,
        1 => Transfer::Interrupted,
        _ if n == 0 => Transfer::Nothing,
        _ => Transfer::Bytes(n),
    }
}

impl Desk {
    /// Returns the devices of an end with this input, and the other end with that one.
    fn new(
        rt: &(impl Abort + AllocGlobal),
        draws: Draws,
        input: Vec<u8>,
        peer_input: Vec<u8>,
    ) -> Desk {
        Desk {
            draws,
            cuts: 0,
            is_open: false,
            now: 0,
            input: fresh(input),
            from_line: fresh(Vec::new(rt.alloc())),
            to_line: fresh(Vec::new(rt.alloc())),
            output: fresh(Vec::new(rt.alloc())),
            peer: session(rt, options(60_000, 86_400)),
            peer_input: fresh(peer_input),
            peer_output: fresh(Vec::new(rt.alloc())),
        }
    }

    /// Returns the result of a write of these bytes.
    fn takes(&mut self, bytes: &[u8]) -> Transfer {
        let n = bytes.len().min(self.draws.below(700));
        moved(&mut self.draws, n)
    }

    /// Runs the other end.
    fn peer_turn(&mut self) {
        wake(&mut self.peer, self.now);
        if self.peer_input.rest().is_empty() {
            ends_input(&mut self.peer);
        } else {
            let used = reads(&mut self.peer, self.peer_input.rest());
            self.peer_input.at = self.peer_input.at.saturating_add(used);
        }
        let used = hears(&mut self.peer, self.to_line.rest());
        self.to_line.at = self.to_line.at.saturating_add(used);
        for _message in 0..u64::MAX {
            if !delivers(&mut self.peer) {
                break;
            }
        }
        writes_output(&mut self.peer, &mut self.peer_output);
        writes_line(&mut self.peer, &mut self.from_line);
    }
}

/// Moves what is pending for the output.
fn writes_output(session: &mut Session, to: &mut Way) {
    to.take(session.to_output());
    session.output_took(session.to_output().len());
}

/// Moves what is pending for the line.
fn writes_line(session: &mut Session, to: &mut Way) {
    session.fill();
    to.take(session.to_line());
    session.line_took(session.to_line().len());
}

impl Devices for Desk {
    ghost use Rattle.std.specs.Prelude.{None};

    ghost traffic = { λ _. None };

    type Refusal = ();

    fn open_line(&mut self, _session: &mut Session) -> Result<bool, ()> {
        match self.draws.below(4) {
            0 => Err(()),
            1 => Ok(false),
            _ => {
                self.from_line.clear();
                self.to_line.clear();
                self.is_open = connects(&mut self.peer);
                Ok(self.is_open)
            }
        }
    }

    fn report_retry(&mut self, _session: &mut Session, _refusal: (), _seconds: u64) {}

    fn close_line(&mut self) {
        if self.is_open {
            ends_line(&mut self.peer);
            self.is_open = false;
        }
    }

    fn read_input(&mut self, space: &mut [u8]) -> Got {
        if self.draws.below(3) == 0 {
            return Got::Idle;
        }
        let most = self.draws.below(900).saturating_add(1);
        Got::Bytes(self.input.give(most, space))
    }

    fn may_read_line(&self) -> bool {
        true
    }

    fn read_line(&mut self, space: &mut [u8]) -> Transfer {
        if self.cuts > 0 && self.draws.below(self.cuts) == 0 {
            return Transfer::Ended(Down::Closed);
        }
        let most = self.draws.below(900);
        match self.from_line.give(most, space) {
            0 if self.draws.below(2) == 0 => Transfer::Interrupted,
            0 => Transfer::Nothing,
            n => Transfer::Bytes(n),
        }
    }

    fn report_read(&mut self, _session: &mut Session) {}

    fn write_line(&mut self, bytes: &[u8]) -> Transfer {
        let moved = self.takes(bytes);
        if let Transfer::Bytes(n) = moved {
            self.to_line.take(&bytes[..n.min(bytes.len())]);
        }
        moved
    }

    fn write_output(&mut self, bytes: &[u8]) -> Transfer {
        let moved = self.takes(bytes);
        if let Transfer::Bytes(n) = moved {
            self.output.take(&bytes[..n.min(bytes.len())]);
        }
        moved
    }

    fn write_errors(&mut self, bytes: &[u8]) -> Transfer {
        Transfer::Bytes(bytes.len())
    }

    fn rest(&mut self, _session: &Session, _buffers: &Buffers, most_ms: u64) -> bool {
        self.wait(Wanted::NOTHING, most_ms)
    }

    fn wait(&mut self, _wanted: Wanted, most_ms: u64) -> bool {
        let passed = self.draws.below(40) as u64;
        self.now = self.now.saturating_add(most_ms.min(passed));
        self.peer_turn();
        true
    }

    fn now(&mut self) -> u64 {
        self.now
    }

    fn time_of_day(&mut self) -> Option<u64> {
        None
    }
}

/// Two ends exchange messages, and each end's output is the other's input.
fn exchanges(rt: &(impl Abort + AllocGlobal), seed: u64) {
    let mut draws = Draws { state: seed };
    let input = messages(rt, &mut draws, 40);
    let answer = messages(rt, &mut draws, 30);
    let mut expected = (Vec::new(rt.alloc()), Vec::new(rt.alloc()));
    append(rt, &mut expected.0, input.as_slice());
    append(rt, &mut expected.1, answer.as_slice());
    let mut desk = Desk::new(rt, draws, input, answer);
    desk.is_open = true;
    let mut own = session(rt, options(60_000, 86_400));
    let Ok(mut buffers) = Buffers::new(rt.alloc()) else {
        panic!(rt; "no memory");
    };
    assert!(rt; buffers.begin_line(&mut own));
    assert!(rt; buffers.run(&mut own, &mut desk) == Ok(EndReason::Done));
    assert!(rt; drain_output(&mut own, &mut desk) == Ok(()));
    assert!(rt; desk.peer_output.bytes.as_slice() == expected.0.as_slice());
    assert!(rt; desk.output.bytes.as_slice() == expected.1.as_slice());
    assert!(rt; own.lost() == 0);
}

#[test]
fn outputs_are_inputs(rt: HostRuntime) {
    for seed in 1..9u64 {
        exchanges(&rt, seed);
    }
}

/// Returns the first message with its length, and what follows it.
fn first_message(bytes: &[u8]) -> Option<(&[u8], &[u8])> {
    let (high, low) = (*bytes.first()?, *bytes.get(1)?);
    let end = 2 + u16::from_be_bytes([high, low]) as usize;
    Some((bytes.get(..end)?, bytes.get(end..)?))
}

/// Returns how many messages of `read` weren't written; none if others were, or in another order.
fn missing(read: &[u8], written: &[u8]) -> Option<u64> {
    let mut read = read;
    let mut written = written;
    let mut count = 0u64;
    for _message in 0..u64::MAX {
        let Some((message, rest)) = first_message(read) else {
            break;
        };
        if let Some((next, later)) = first_message(written)
            && next == message
        {
            written = later;
        } else {
            count = count.saturating_add(1);
        }
        read = rest;
    }
    if written.is_empty() {
        Some(count)
    } else {
        None
    }
}

/// A session over one line after another, each of which may be closed at one of n reads: what
/// wasn't acknowledged is lost, and everything else arrives. Returns how many messages didn't.
fn exchanges_over_lines(rt: &(impl Abort + AllocGlobal), seed: u64, cuts: usize) -> u64 {
    let mut draws = Draws { state: seed };
    let input = messages(rt, &mut draws, 40);
    let mut expected = Vec::new(rt.alloc());
    append(rt, &mut expected, input.as_slice());
    let answer = messages(rt, &mut draws, 5);
    let mut desk = Desk::new(rt, draws, input, answer);
    desk.cuts = cuts;
    let options = Options {
        again: true,
        ..options(1000, 86_400)
    };
    let Ok(mut own) = Session::new(rt.alloc(), options, LineKind::Connect) else {
        panic!(rt; "no memory");
    };
    let Ok(mut buffers) = Buffers::new(rt.alloc()) else {
        panic!(rt; "no memory");
    };
    let ended = buffers.run_to_end(&mut own, &mut desk);
    let lost = own.lost();
    let expected_end = if lost == 0 {
        Ok(())
    } else {
        Err(Stop::Lost(lost))
    };
    assert!(rt; ended == expected_end);
    assert!(rt; own.to_output().is_empty());
    let Some(missing) = missing(expected.as_slice(), desk.peer_output.bytes.as_slice()) else {
        panic!(rt; "another message was written");
    };
    assert!(rt; missing <= lost);
    missing
}

#[test]
fn all_but_the_lost_arrive(rt: HostRuntime) {
    let mut missing = 0u64;
    for seed in 1..17u64 {
        missing = exchanges_over_lines(&rt, seed, 60).saturating_add(missing);
    }
    assert!(&rt; missing > 0);
}

#[test]
fn a_whole_line_ends_well(rt: HostRuntime) {
    for seed in 1..5u64 {
        assert!(&rt; exchanges_over_lines(&rt, seed, 0) == 0);
    }
}
