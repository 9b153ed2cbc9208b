//! Lines in memory of which contracts know all that passed, for a bridge.
ghost use Rattle.std.specs.Prelude.{◌≡◌, ◌≤◌, ◌++◌, length, take};
ghost use Rattle.ddcmp_ports.specs.Moving.{count_moved};
ghost use Rattle.ddcmp_ports.specs.Running.{after_opening, after_read, after_written, is_later};
ghost use Rattle.ddcmp_ports.specs.Running.{no_passage};
ghost use Rattle.ddcmp_tool_tests.specs.Joined.{passage_of};

use crate::sessions::append;
use ddcmp_bridge::{Bridge, BridgeOptions, BridgeStop, Counts, Faults, TwoLines, run_bridge};
use ddcmp_ports::{Buffers, LineName, Machine, Opening, Port, System, Transfer};
use std::process::Abort;

/// A line that returns some bytes, with all that passed since it was opened. It never ends.
#[derive(Drop)]
struct Line {
    text: Vec<u8>,
    came: Vec<u8>,
    gone: Vec<u8>,
    is_open: bool,
    opens_later: bool,
}

impl Line {
    /// Returns some of the bytes that follow those that were returned.
    fn read(&mut self, space: &mut [u8]) -> usize
        ensures fits { result ≤ length space.new }
        ensures passage { passage_of self.new.came.items self.new.gone.items self.new.is_open
            ≡ after_read (Transfer.Bytes result) space.new
            (passage_of self.old.came.items self.old.gone.items self.old.is_open) }
        ensures later { self.new.opens_later ≡ self.old.opens_later }
    {
        let rest = self.text.as_slice().get(self.came.len()..).unwrap_or(&[]);
        let n = rest.len().min(space.len()).min(9);
        space[..n].copy_from_slice(&rest[..n]);
        match self.came.extend_from_slice(&space[..n]) {
            Ok(()) => n,
            Err(_refused) => 0,
        }
    }

    /// Takes some of the bytes.
    fn write(&mut self, bytes: &[u8]) -> usize
        ensures fits { result ≤ length bytes.now }
        ensures passage { passage_of self.new.came.items self.new.gone.items self.new.is_open
            ≡ after_written (Transfer.Bytes result) bytes.now
            (passage_of self.old.came.items self.old.gone.items self.old.is_open) }
        ensures later { self.new.opens_later ≡ self.old.opens_later }
    {
        let n = bytes.len().min(5);
        match self.gone.extend_from_slice(&bytes[..n]) {
            Ok(()) => n,
            Err(_refused) => 0,
        }
    }

    /// Opens it, once.
    fn open(&mut self) -> Opening
        ensures passage { passage_of self.new.came.items self.new.gone.items self.new.is_open
            ≡ after_opening result
            (passage_of self.old.came.items self.old.gone.items self.old.is_open) }
        ensures later { self.new.opens_later ≡ is_later result }
    {
        self.opens_later = self.is_open;
        if self.is_open {
            return Opening::Later;
        }
        self.came.clear();
        self.gone.clear();
        self.is_open = true;
        Opening::Done(None)
    }
}

/// Two lines, and a clock.
#[derive(Drop)]
struct Joined {
    first: Line,
    second: Line,
    first_name: LineName<'static>,
    second_name: LineName<'static>,
    moment: u64,
}

impl TwoLines for Joined {
    ghost use Rattle.ddcmp_bridge.specs.Crossing.{plan_of};

    ghost first = { λ j. plan_of j.first_name 0 };

    ghost second = { λ j. plan_of j.second_name 0 };
}

impl System for Joined {
    ghost use Rattle.ddcmp_tool_tests.specs.Joined.{passage_of, stuck_of, trace_of};

    ghost trace = { λ j. trace_of
        (passage_of j.first.came.items j.first.gone.items j.first.is_open)
        (passage_of j.second.came.items j.second.gone.items j.second.is_open) };

    ghost stuck = { λ j. stuck_of j.first.opens_later j.second.opens_later };

    ghost moment = { λ l. l.moment };

    fn read(&mut self, port: Port, space: &mut [u8]) -> Transfer {
        match port {
            Port::First => Transfer::Bytes(self.first.read(space)),
            Port::Second => Transfer::Bytes(self.second.read(space)),
            Port::Input | Port::Output | Port::Errors => Transfer::Bytes(0),
        }
    }

    fn write(&mut self, port: Port, bytes: &[u8]) -> Transfer {
        match port {
            Port::First => Transfer::Bytes(self.first.write(bytes)),
            Port::Second => Transfer::Bytes(self.second.write(bytes)),
            Port::Input | Port::Output | Port::Errors => Transfer::Bytes(bytes.len()),
        }
    }

    fn open(&mut self, port: Port) -> Opening {
        match port {
            Port::First => self.first.open(),
            Port::Second => self.second.open(),
            Port::Input | Port::Output | Port::Errors => Opening::Done(None),
        }
    }

    fn shut(&mut self, _port: Port) {}

    fn close(&mut self, _port: Port) {}

    fn poll(&mut self) {}

    fn wait<M: Machine>(&mut self, _machine: &M, _held: &Buffers, _most_ms: u64) -> bool {
        true
    }

    fn now(&mut self) -> u64 {
        self.moment = self.moment.saturating_add(1);
        self.moment
    }
}

/// A STACK, a byte of junk, a data message with a wrong CRC, and a good one.
const CAME: &[u8] = b"\x05\x07\xc0\x00\x00\x01\x48\x55\xff\
\x81\x03\x00\x00\x01\x01\x9a\x41\x78\x79\x7a\x22\x6b\
\x81\x03\x00\x00\x01\x01\x9a\x41\x78\x79\x7a\x22\x6a";

/// Its good frames.
const GOOD: &[u8] = b"\x05\x07\xc0\x00\x00\x01\x48\x55\
\x81\x03\x00\x00\x01\x01\x9a\x41\x78\x79\x7a\x22\x6a";

/// A STRT, and the beginning of another.
const BACK: &[u8] = b"\x05\x06\xc0\x00\x00\x01\x75\x95\x05\x06\xc0";

fn bytes(rt: &(impl Abort + AllocGlobal), from: &[u8]) -> Vec<u8> {
    let mut made = Vec::new(rt.alloc());
    append(rt, &mut made, from);
    made
}

fn line_of(rt: &(impl Abort + AllocGlobal), text: &[u8]) -> Line
    ensures { passage_of result.came.items result.gone.items result.is_open ≡ no_passage }
{
    Line {
        text: bytes(rt, text),
        came: Vec::new(rt.alloc()),
        gone: Vec::new(rt.alloc()),
        is_open: false,
        opens_later: false,
    }
}

fn counts(frames: u64, skipped: u64, damaged: u64) -> Counts {
    Counts {
        frames,
        skipped,
        damaged,
        lost: 0,
        altered: 0,
    }
}

const OPTIONS: BridgeOptions<'static> = BridgeOptions {
    seconds: 1,
    again: false,
    faults: Faults {
        lose: 0,
        damage: 0,
        seed: 1,
    },
    delay_ms: 3,
    baud: 0,
    trace: None,
    report: 0,
    clock: false,
    save_first: None,
    save_second: None,
    append: false,
};

/// All good frames of each line arrive at the other, in chunks, before the time is over.
#[test]
fn good_frames_come_to_the_other_line(rt: HostRuntime) {
    let (first, second) = (LineName::Device("a"), LineName::Device("b"));
    let mut lines = Joined {
        first: line_of(&rt, CAME),
        second: line_of(&rt, BACK),
        first_name: first,
        second_name: second,
        moment: 0,
    };
    let Some(mut bridge) = Bridge::new(rt.alloc(), first, second, &OPTIONS) else {
        panic!(rt; "no memory")
    };
    let Ok(mut buffers) = Buffers::new(rt.alloc(), 0, 100) else {
        panic!(rt; "no memory")
    };
    let Ok(end) = run_bridge(&mut buffers, &mut bridge, &mut lines) else {
        panic!(rt; "no line")
    };
    assert!(rt; end.stop == BridgeStop::Time && !end.has_failed);
    assert!(rt; lines.first.came.as_slice() == CAME);
    assert!(rt; lines.second.gone.as_slice() == GOOD);
    assert!(rt; lines.second.came.as_slice() == BACK);
    assert!(rt; lines.first.gone.as_slice() == BACK.get(..8).unwrap_or(&[]));
    assert!(rt; end.there == counts(2, 14, 1));
    assert!(rt; end.back == counts(1, 3, 0));
}
