//! A tap allocates its queues when it is made, and its log as this grows. If an allocation fails,
//! what was forwarded and what was logged are prefixes.
ghost use Rattle.std.specs.Prelude.{◌≡◌, ◌≤◌, false, length};
ghost use Rattle.ddcmp_ports.specs.Moving.{count_moved};

use ddcmp_io::failing::BoundedSink;
use ddcmp_log::LogNotation;
use ddcmp_ports::{Buffers, Down, LastCalls, Machine, Opening, Port, System, Transfer};
use ddcmp_tap::{LogTimes, Tap, TapFault, TapLog, run_tap};
use std::process::Abort;

/// Three ACKs, each after bytes that aren't a frame.
const BYTES: &[u8] = b"\x81\x05\x05\x01\x00\x00\x00\x01\xfc\x55\
    \x00\x96\x05\x01\x00\x00\x00\x01\xfc\x55\x81\x05\x01\x00\x00\x00\x01\xfc\x55";

/// A side that sends these bytes a few at a time, and takes only those that it expects.
#[derive(Drop)]
struct Line {
    sends: &'static [u8],
    most: usize,
    expects: &'static [u8],
    last: LastCalls,
}

impl Line {
    fn new(most: usize) -> Self {
        Line {
            sends: BYTES,
            most,
            expects: BYTES,
            last: LastCalls::NONE,
        }
    }

    fn read(&mut self, space: &mut [u8]) -> Transfer
        ensures fits { count_moved result ≤ length space.new }
        ensures last { self.new.last ≡ self.old.last }
    {
        let n = self.most.min(self.sends.len()).min(space.len());
        if n == 0 {
            return Transfer::Over(Down::Closed);
        }
        let (sent, rest) = self.sends.split_at(n);
        space[..n].copy_from_slice(sent);
        self.sends = rest;
        Transfer::Bytes(n)
    }

    fn write(&mut self, bytes: &[u8]) -> Transfer
        ensures fits { count_moved result ≤ length bytes.now }
        ensures last { self.new.last ≡ self.old.last }
    {
        match self.expects.strip_prefix(bytes) {
            Some(rest) => {
                self.expects = rest;
                Transfer::Bytes(bytes.len())
            }
            None => Transfer::Over(Down::Closed),
        }
    }
}

/// Two sides, and a clock at its start.
#[derive(Drop)]
struct Lines {
    first: Line,
    second: Line,
}

impl System for Lines {
    ghost use Rattle.std.specs.Prelude.{None};
    ghost use Rattle.ddcmp_tool_tests.specs.Tapped.{stuck_of};

    // No contract states what they expect.
    ghost trace = { λ _ _. None };

    ghost stuck = { λ l. stuck_of l.first.last l.second.last };

    ghost moment = { λ _. 0 };

    fn read(&mut self, port: Port, space: &mut [u8]) -> Transfer {
        match port {
            Port::First => {
                let got = self.first.read(space);
                self.first.last.read(got)
            }
            Port::Second => {
                let got = self.second.read(space);
                self.second.last.read(got)
            }
            Port::Input | Port::Output | Port::Errors => Transfer::Nothing,
        }
    }

    fn write(&mut self, port: Port, bytes: &[u8]) -> Transfer {
        match port {
            Port::First => {
                let took = self.first.write(bytes);
                self.first.last.write(took)
            }
            Port::Second => {
                let took = self.second.write(bytes);
                self.second.last.write(took)
            }
            Port::Input | Port::Output | Port::Errors => Transfer::Nothing,
        }
    }

    fn open(&mut self, port: Port) -> Opening {
        match port {
            Port::First => self.first.last.opening(Opening::Later),
            Port::Second => self.second.last.opening(Opening::Later),
            Port::Input | Port::Output | Port::Errors => Opening::Later,
        }
    }

    fn shut(&mut self, _port: Port) {}

    fn close(&mut self, _port: Port) {}

    fn poll(&mut self) {}

    /// Each call moves something, until both have ended.
    fn wait<M: Machine>(&mut self, _machine: &M, _held: &Buffers, _most_ms: u64) -> bool {
        false
    }

    fn now(&mut self) -> u64 {
        0
    }
}

/// Returns how a tap in memory ends that writes to this log.
fn tapped(
    rt: &impl AllocGlobal,
    notation: LogNotation,
    lines: &mut Lines,
    log: &mut BoundedSink<8192>,
) -> Result<(), TapFault>
    requires { log.old.broken ≡ false }
{
    let asked = TapLog {
        notation,
        times: LogTimes::Elapsed,
        began: 0,
        report: 0,
        max: 100,
    };
    let Ok(mut tap) = Tap::new(rt.alloc(), asked) else {
        return Err(TapFault::Memory);
    };
    let Ok(mut buffers) = Buffers::new(rt.alloc(), 0, 64) else {
        return Err(TapFault::Memory);
    };
    run_tap(&mut buffers, &mut tap, lines, log)
}

/// Returns whether an allocation fails in a tap that logs like this.
fn is_refused(rt: &(impl Abort + AllocGlobal), notation: LogNotation) -> bool {
    let mut lines = Lines {
        first: Line::new(9),
        second: Line::new(5),
    };
    let mut log = BoundedSink::new();
    let ended = tapped(rt, notation, &mut lines, &mut log);
    assert!(rt; log.bytes().is_empty() || log.bytes().ends_with(b"\n"));
    let Err(fault) = ended else {
        assert!(rt; lines.first.expects.is_empty() && lines.second.expects.is_empty());
        return false;
    };
    assert!(rt; fault == TapFault::Memory);
    true
}

#[test]
fn refused_memory_ends_a_tap(rt: HostRuntime) {
    let _either = is_refused(&rt, LogNotation::Plain);
}

#[test]
fn refused_memory_ends_a_tap_with_json(rt: HostRuntime) {
    let _either = is_refused(&rt, LogNotation::Json);
}

#[test]
fn refused_memory_ends_a_tap_with_a_ladder(rt: HostRuntime) {
    let _either = is_refused(&rt, LogNotation::Ladder);
}

#[test]
fn ample_memory_taps(rt: HostRuntime) {
    assert!(&rt; !is_refused(&rt, LogNotation::Plain));
    assert!(&rt; !is_refused(&rt, LogNotation::Json));
    assert!(&rt; !is_refused(&rt, LogNotation::Ladder));
}
