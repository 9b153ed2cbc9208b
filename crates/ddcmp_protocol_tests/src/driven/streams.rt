//! Two stations, each started once, are driven over streams in memory, which return the bytes that
//! were written to them in order. Sizes, messages, clocks, cuts and faults are random. What the
//! users saw is compared, in plain code, with what the laws of `ddcmp_laws` state.
ghost use Rattle.std.specs.Prelude.{length};

use crate::same::is;
use ddcmp_frame::failing::{BoundedSink, Pieces};
use ddcmp_station::{Clock, Config, Driven, LineFault, Notice, Sink, Station, User, drive};
use std::alloc::Global;
use std::process::Abort;
use test_kit::Draws;

/// A user who sends random messages, and records what it saw.
#[derive(Drop)]
struct Watcher {
    alloc: Global,
    draws: Draws,
    /// How many messages it still has.
    left: u8,
    given: Vec<Vec<u8>>,
    handed: Vec<Vec<u8>>,
    acknowledged: usize,
    /// How often it was asked for a message or passed one.
    calls: usize,
    refused_memory: bool,
}

impl Watcher {
    fn new(alloc: Global, seed: u64) -> Watcher {
        Watcher {
            alloc,
            draws: Draws { state: seed },
            left: 20,
            given: Vec::new(alloc),
            handed: Vec::new(alloc),
            acknowledged: 0,
            calls: 0,
            refused_memory: false,
        }
    }

    fn is_called(&mut self) {
        self.calls = self.calls.saturating_add(1);
    }
}

/// Appends a copy of a message; returns whether the allocations succeeded.
fn keeps(alloc: Global, kept: &mut Vec<Vec<u8>>, message: &[u8]) -> bool {
    match Vec::from_slice(alloc, message) {
        Ok(copied) => kept.push(copied).is_ok(),
        Err(_refused) => false,
    }
}

impl User for Watcher {
    fn message(&mut self, out: &mut [u8]) -> usize {
        self.is_called();
        if self.left == 0 || out.is_empty() || self.draws.once_in(4) {
            return 0;
        }
        self.left -= 1;
        let length = (self.draws.next() % out.len() as u64) as usize + 1;
        for byte in &mut out[..length] {
            *byte = self.draws.up_to(255);
        }
        self.refused_memory |= !keeps(self.alloc, &mut self.given, &out[..length]);
        length
    }

    fn notice(&mut self, notice: Notice) {
        if let Notice::Acknowledged(count) | Notice::HandedUpAndAcknowledged(count) = notice {
            self.acknowledged = self.acknowledged.saturating_add(count as usize);
        }
    }

    fn mail(&mut self, message: &[u8]) {
        self.is_called();
        self.refused_memory |= !keeps(self.alloc, &mut self.handed, message);
    }
}

/// A clock that advances by random steps or not at all, and may jump now and then, also back.
#[derive(Drop)]
struct Drifting {
    draws: Draws,
    now: u64,
    leaps: bool,
}

impl Clock for Drifting {
    fn now(&mut self) -> u64 {
        if self.leaps && self.draws.once_in(30) {
            self.now = self.draws.next();
        }
        let step = self.draws.among(&[0, 1, 100, 700]);
        self.now = self.now.saturating_add(step);
        self.now
    }
}

/// Checks that what one user received is a prefix of what the other sent, in order, once and
/// unchanged, and that no more than that was reported acknowledged to the other.
fn reaches(rt: &impl Abort, giver: &Watcher, taker: &Watcher) {
    assert!(rt; taker.handed.len() <= giver.given.len());
    for (handed, given) in taker.handed.iter().zip(giver.given.iter()) {
        is(rt, handed.as_slice(), given.as_slice());
    }
    assert!(rt; giver.acknowledged <= taker.handed.len());
    assert!(rt; !giver.refused_memory && !taker.refused_memory);
}

/// The parameters of a call: what is received, how many turns there are, at which write the line
/// breaks and at which read it fails (0 for none).
#[derive(Clone, Copy)]
struct Line<'a> {
    pieces: &'a [&'a [u8]],
    turns: u32,
    breaks_at: usize,
    fails_at: usize,
}

/// A station with its user and its clock.
#[derive(Drop)]
struct End {
    station: Station,
    user: Watcher,
    clock: Drifting,
    /// All that it wrote.
    written: Vec<u8>,
    /// Whether a call ended early.
    is_over: bool,
}

impl End {
    fn new(alloc: Global, config: Config, seed: u64, leaps: bool) -> Option<End> {
        let mut station = Station::new(alloc, config).ok()?;
        let _number = station.start();
        Some(End {
            station,
            user: Watcher::new(alloc, seed),
            clock: Drifting {
                draws: Draws { state: seed },
                now: 0,
                leaps,
            },
            written: Vec::new(alloc),
            is_over: false,
        })
    }

    /// Makes a call with a timer of 1000 ms.
    fn is_driven(
        &mut self,
        line: Line<'_>,
        writer: &mut BoundedSink<512>,
    ) -> Result<Driven, LineFault> {
        if self.station.offset() > 1_000_000 || writer.failed() {
            return Err(LineFault::Memory);
        }
        drive(
            self.user.alloc,
            &mut self.station,
            &mut Pieces::new(line.pieces).failing_at(line.fails_at),
            writer,
            &mut self.user,
            &mut self.clock,
            1000,
            line.turns,
        )
    }

    /// Makes a call over a line. What it wrote is appended to what was written before.
    fn drives(&mut self, rt: &impl Abort, line: Line<'_>) {
        let mut writer = BoundedSink::<512>::new()
            .at_most(11)
            .failing_at(line.breaks_at);
        let answer = self.is_driven(line, &mut writer);
        assert!(rt; self.written.extend_from_slice(writer.bytes()).is_ok());
        assert!(rt; answer != Err(LineFault::Memory));
        self.is_over |= answer.is_err();
    }

    /// Makes a call that receives some more of what the other end wrote. After one that ended early
    /// the user isn't called, and nothing is written.
    fn goes_on(&mut self, rt: &impl Abort, stream: &[u8], cuts: &mut Cuts) {
        let read = self.station.offset() as usize;
        let pieces = cuts.pieces_of(stream.get(read..).unwrap_or(&[]));
        let line = Line {
            pieces: &pieces,
            turns: cuts.turns(),
            breaks_at: cuts.fault(),
            fails_at: cuts.fault(),
        };
        let (was_over, calls, written) = (self.is_over, self.user.calls, self.written.len());
        self.drives(rt, line);
        if was_over {
            is(rt, (self.user.calls, self.written.len()), (calls, written));
        }
    }
}

/// How a line is cut, and how it fails.
#[derive(Drop)]
struct Cuts {
    draws: Draws,
    /// Whether it fails at all.
    has_faults: bool,
}

impl Cuts {
    /// Returns the first bytes in three chunks. An empty one is an idle read.
    fn pieces_of<'a>(&mut self, bytes: &'a [u8]) -> [&'a [u8]; 3] {
        let mut rest = bytes;
        let mut pieces: [&[u8]; 3] = [&[]; 3];
        for i in 0..3usize {
            let most = self.draws.among(&[0, 3, 12, 255]);
            let (front, back) = rest.split_at((self.draws.up_to(most) as usize).min(rest.len()));
            pieces[i] = front;
            rest = back;
        }
        pieces
    }

    /// Returns three turns, or one more, in which the line ends.
    fn turns(&mut self) -> u32 {
        if self.has_faults && self.draws.once_in(300) {
            4
        } else {
            3
        }
    }

    /// Returns at which call there is a fault, or 0 for none.
    fn fault(&mut self) -> usize {
        if self.has_faults && self.draws.once_in(300) {
            self.draws.among(&[1, 2, 3, 5])
        } else {
            0
        }
    }
}

/// Draws sizes with this maximum length of a message.
fn sizes(draws: &mut Draws, max: u16) -> Config {
    Config {
        window: draws.among(&[1, 2, 7, 255]),
        inbox: draws.among(&[1, 3, 8, 255]),
        max,
        syn: draws.up_to(3),
        restart: draws.once_in(2),
    }
}

/// Drives both ends in a random order, and compares what their users saw after each call.
fn run(rt: &impl Abort, a: &mut End, b: &mut End, cuts: &mut Cuts) {
    for _call in 0..200u8 {
        if cuts.draws.once_in(2) {
            a.goes_on(rt, b.written.as_slice(), cuts);
        } else {
            b.goes_on(rt, a.written.as_slice(), cuts);
        }
        reaches(rt, &a.user, &b.user);
        reaches(rt, &b.user, &a.user);
    }
}

/// Draws two new ends and how the line between them is cut.
fn drawn(rt: &(impl Abort + AllocGlobal), seed: u64, has_faults: bool) -> (End, End, Cuts) {
    let mut draws = Draws { state: seed };
    let max = draws.up_to(60) as u16 + 1;
    let other_max = if has_faults {
        draws.up_to(60) as u16 + 1
    } else {
        max
    };
    let first = sizes(&mut draws, max);
    let second = sizes(&mut draws, other_max);
    let (Some(a), Some(b)) = (
        End::new(rt.alloc(), first, draws.next(), has_faults),
        End::new(rt.alloc(), second, draws.next(), has_faults),
    ) else {
        panic!(rt; "no memory for two stations");
    };
    (a, b, Cuts { draws, has_faults })
}

/// Whatever the sizes, the cuts, the clocks and the faults, and also if one end accepts shorter
/// messages than the other sends. Enough is delivered for this to be significant.
#[test]
fn users_see_the_first_in_order(rt: HostRuntime) {
    let mut handed = 0usize;
    for seed in 0..100u64 {
        let (mut a, mut b, mut cuts) = drawn(&rt, seed, true);
        run(&rt, &mut a, &mut b, &mut cuts);
        handed = handed.saturating_add(a.user.handed.len());
        handed = handed.saturating_add(b.user.handed.len());
    }
    assert!(rt; handed > 1000, "{handed}");
}

/// Checks that all that one user sent was received by the other, and acknowledged.
fn reaches_whole(rt: &impl Abort, giver: &Watcher, taker: &Watcher) {
    is(rt, (giver.left, giver.given.len()), (0, 20));
    is(rt, (taker.handed.len(), giver.acknowledged), (20, 20));
}

/// Without faults, with the same maximum length and clocks that never go back, all arrives at last.
#[test]
fn users_see_all_in_the_end(rt: HostRuntime) {
    for seed in 100..150u64 {
        let (mut a, mut b, mut cuts) = drawn(&rt, seed, false);
        run(&rt, &mut a, &mut b, &mut cuts);
        run(&rt, &mut a, &mut b, &mut cuts);
        reaches_whole(&rt, &a.user, &b.user);
        reaches_whole(&rt, &b.user, &a.user);
    }
}
