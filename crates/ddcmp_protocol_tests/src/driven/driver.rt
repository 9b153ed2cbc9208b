//! Calls of `drive` in memory, and their results.

use crate::same::is;
use ddcmp_frame::failing::{BoundedSink, Pieces};
use ddcmp_station::{Config, Counters, Driven, LineFault, Notice, Numbers, State, Station, drive};
use std::alloc::Global;
use std::process::Abort;
use test_kit::{Moments, Recorder, Seen};

pub const STRT: [u8; 8] = [0x05, 0x06, 0xC0, 0x00, 0x00, 0x01, 0x75, 0x95];

pub const STACK: [u8; 8] = [0x05, 0x07, 0xC0, 0x00, 0x00, 0x01, 0x48, 0x55];
/// An idle read.
pub const SILENCE: &[u8] = &[];

/// The default sizes.
pub const DEFAULT: Config = Config {
    window: 7,
    inbox: 8,
    max: 1500,
    syn: 0,
    restart: false,
};

/// The smallest sizes.
const LEAST: Config = Config {
    window: 1,
    inbox: 1,
    max: 1,
    syn: 0,
    restart: false,
};

/// Returns a halted station.
fn halted(rt: &impl Abort, alloc: Global, config: Config) -> Station {
    match Station::new(alloc, config) {
        Ok(station) => station,
        Err(refusal) => panic!(rt; "{refusal:?}"),
    }
}

/// Returns a started station.
pub fn started(rt: &impl Abort, alloc: Global, config: Config) -> Station {
    let mut station = halted(rt, alloc, config);
    is(rt, station.start(), Ok(0));
    station
}

/// The result of a call, and how often its clock was read.
#[derive(Drop)]
pub struct Outcome<const N: usize> {
    pub answer: Result<Driven, LineFault>,
    pub writer: BoundedSink<N>,
    pub moments: usize,
}

/// Makes a call with a timer of 1000 ms and a clock that doesn't advance. A read returns at most
/// this many bytes.
pub fn drives<const N: usize>(
    rt: &(impl Abort + AllocGlobal),
    station: &mut Station,
    came: &[&[u8]],
    most: usize,
    user: &mut Recorder<'_>,
    turns: u32,
) -> Outcome<N> {
    assert!(rt; station.offset() < 1000 && 0 < most);
    let mut reader = Pieces::new(came).at_most(most);
    let mut writer = BoundedSink::<N>::new();
    let mut clock = Moments {
        moments: &[0],
        next: 0,
    };
    let answer = drive(
        rt.alloc(),
        station,
        &mut reader,
        &mut writer,
        user,
        &mut clock,
        1000,
        turns,
    );
    Outcome {
        answer,
        writer,
        moments: clock.next,
    }
}

pub fn driven(turns: u32, read: u64, written: u64) -> Driven {
    Driven {
        turns,
        read,
        written,
    }
}

/// Checks the result of a call, and what it wrote.
pub fn is_told(rt: &impl Abort, outcome: &Outcome<64>, answer: Driven, written: &[u8]) {
    is(rt, outcome.answer, Ok(answer));
    is(rt, outcome.writer.bytes(), written);
}

/// Returns what the user of a station sees when the startup handshake is complete.
fn running() -> &'static [Seen] {
    &[Seen::Told(Notice::Running)]
}

/// Checks that the call did nothing.
fn is_nothing(rt: &impl Abort, outcome: &Outcome<64>) {
    is(rt, outcome.answer, Err(LineFault::Memory));
    assert!(rt; outcome.writer.bytes().is_empty());
    is(rt, outcome.moments, 0);
}

/// Returns whether an allocation fails for a station or a call: then the station is unchanged.
fn is_refused(rt: &(impl Abort + AllocGlobal)) -> bool {
    match Station::new(rt.alloc(), LEAST) {
        Ok(mut station) => {
            is(rt, station.start(), Ok(0));
            is_refused_to_a_call(rt, &mut station)
        }
        Err(_refusal) => true,
    }
}

fn told(station: &Station) -> (State, Numbers, Counters) {
    (station.state(), station.numbers(), *station.counters())
}

fn is_refused_to_a_call(rt: &(impl Abort + AllocGlobal), station: &mut Station) -> bool {
    let before = told(station);
    let mut user = Recorder::offering(&[]);
    let outcome = drives::<64>(rt, station, &[&STACK], 256, &mut user, 1);
    if outcome.answer.is_ok() {
        is_told(rt, &outcome, driven(1, 8, 8), &STRT);
        is(rt, user.seen(), running());
        is(rt, station.state(), State::Running);
        return false;
    }
    is_nothing(rt, &outcome);
    is(rt, before, told(station));
    let (state, _numbers, _counters) = before;
    is(rt, state, State::IStart);
    true
}

/// Run with one allocation after another failing, until the next test passes too.
#[test]
fn refused_memory_leaves_a_station(rt: HostRuntime) {
    let _either = is_refused(&rt);
}

#[test]
fn ample_memory_drives(rt: HostRuntime) {
    assert!(rt; !is_refused(&rt));
}

/// Checks that no allocation fails in a call of a halted station, which does nothing.
fn stays_halted(rt: &(impl Abort + AllocGlobal), max: u16) {
    let mut station = halted(rt, rt.alloc(), Config { max, ..LEAST });
    does_nothing(rt, &mut station);
    is(rt, station.state(), State::Halted);
}

fn does_nothing(rt: &(impl Abort + AllocGlobal), station: &mut Station) {
    let mut user = Recorder::offering(&[]);
    let outcome = drives::<64>(rt, station, &[], 256, &mut user, 0);
    is_told(rt, &outcome, driven(0, 0, 0), b"");
    sees_nothing(rt, &user);
}

fn sees_nothing(rt: &impl Abort, user: &Recorder<'_>) {
    assert!(rt; user.seen().is_empty() && user.mail().is_empty());
}

/// Checks that no allocation fails in a call of a started station, which sends STRT once.
fn starts_once(rt: &(impl Abort + AllocGlobal), turns: u32) {
    let mut station = started(rt, rt.alloc(), DEFAULT);
    sends_strt(rt, &mut station, turns);
    is(rt, station.state(), State::IStart);
}

fn sends_strt(rt: &(impl Abort + AllocGlobal), station: &mut Station, turns: u32) {
    let mut user = Recorder::offering(&[]);
    let outcome = drives::<64>(rt, station, &[SILENCE; 300], 256, &mut user, turns);
    is_told(rt, &outcome, driven(turns, 0, 8), &STRT);
    sees_nothing(rt, &user);
}

/// No allocation fails in a call, at every size of a message and any number of turns.
#[test]
fn calls_of_every_size(rt: HostRuntime) {
    for max in 1..=16383u16 {
        stays_halted(&rt, max);
    }
    for turns in 1..=300u32 {
        starts_once(&rt, turns);
    }
}
