//! Long runs of random events over pairs of random sizes. Frames are lost, damaged and cut, and
//! junk is inserted; the seed is fixed, so each run is the same.
ghost use Rattle.std.specs.Prelude.{◌<◌};

use crate::link::{Link, copy_of};
use ddcmp_line::{Config, End, Event};
use std::process::Abort;
use test_kit::Draws;

/// Draws the sizes of one end.
fn draw_config(draws: &mut Draws, max: u16) -> Config {
    Config {
        window: draws.among(&[1, 2, 7, 127, 255]),
        inbox: draws.among(&[1, 2, 8, 255]),
        max,
        syn: draws.among(&[0, 0, 2, 16]),
        restart: draws.below(8) == 0,
    }
}

fn draw_end(draws: &mut Draws) -> End {
    draws.among(&[End::A, End::B])
}

/// What scripts did while the line was honest and the run clean.
#[derive(Clone, Copy, Debug)]
struct Tally {
    /// Events after which the promise was checked.
    kept: u64,
    handed_up: u64,
    acknowledged: u64,
    /// Scripts after which the line could be repaired.
    repaired: u64,
}

/// Starts both ends; A sends STRT first.
fn starts(rt: &impl Abort, link: &mut Link) {
    let _a = link.does(rt, Event::Start(End::A));
    let _b = link.does(rt, Event::Start(End::B));
    for end in [End::A, End::B, End::A] {
        link.polls(rt, end);
        link.passes(rt, end);
    }
}

/// Sends a random message, of which many bytes begin frames, and which may be too long or empty.
fn sends(rt: &(impl Abort + AllocGlobal), link: &mut Link, draws: &mut Draws, end: End, max: u16) {
    let mut message = [0; 80];
    let length = draws.below(max.min(64) as usize + 2);
    for byte in message.iter_mut() {
        *byte = draw_byte(draws);
    }
    assert!(rt; length <= 80);
    let _taken = link.sends(rt, end, &message[..length]);
}

fn draw_byte(draws: &mut Draws) -> u8 {
    let any = draws.byte();
    draws.among(&[any, any, 0x05, 0x81, 0x90, 0x96, 0x00])
}

/// Injects junk without a good frame: random bytes, or the header of a message whose data are
/// missing.
fn junk_comes(rt: &(impl Abort + AllocGlobal), link: &mut Link, draws: &mut Draws, to: End) {
    let mut junk = [0; 24];
    for byte in junk.iter_mut() {
        *byte = draw_byte(draws);
    }
    let header: [u8; 8] = draws.among(&[
        [0x81, 0x03, 0x00, 0x00, 0x01, 0x01, 0x9A, 0x41],
        [0x81, 0x41, 0x00, 0x00, 0x01, 0x01, 0xE2, 0x4E],
        [0x81, 0x00, 0x00, 0x00, 0x01, 0x01, 0xDE, 0x41],
        [0x05, 0x04, 0x00, 0x00, 0x00, 0x01, 0x30, 0x55],
    ]);
    if draws.below(2) == 0 {
        junk[..8].copy_from_slice(&header);
    }
    let length = draws.below(25);
    link.arrives(rt, to, copy_of(rt, &junk[..length]));
}

/// Damages, cuts or drops the first frame of a line, or injects junk.
fn harms(rt: &(impl Abort + AllocGlobal), link: &mut Link, draws: &mut Draws, from: End) {
    let length = link.front(from).max(1);
    let at = draws.below(length);
    match draws.below(8) {
        0 | 1 => link.loses(from),
        2 | 3 => link.damages(from, at, draws.byte()),
        4 => link.leaves_out(from, at),
        5 => junk_comes(rt, link, draws, from.other()),
        6 => {
            link.cuts(rt, from, at + 1);
            link.loses(from);
        }
        _ => link.cuts(rt, from, at + 1),
    }
}

/// Halts both ends, takes all received messages, clears the line, and starts both.
fn begins_anew(rt: &impl Abort, link: &mut Link) {
    for end in [End::A, End::B] {
        let _halted = link.does(rt, Event::Halt(end));
        for _message in 0..link.pair.station(end).waiting() {
            let _taken = link.does(rt, Event::Take(end));
        }
    }
    link.loses_all();
    let _cleared = link.does(rt, Event::Clear);
    assert!(rt; link.pair.honest() && link.pair.clean());
    starts(rt, link);
}

/// Does something rare: a start, a halt, a frame that arrives twice, a repair, or a line that
/// restarts.
fn upsets(rt: &(impl Abort + AllocGlobal), link: &mut Link, draws: &mut Draws, end: End) {
    match draws.below(8) {
        0 => {
            let _halted = link.does(rt, Event::Halt(end));
        }
        1 | 2 => {
            let _started = link.does(rt, Event::Start(end));
        }
        3 => link.doubles(rt, end),
        4 | 5 => {
            let _settled = link.rounds(rt);
        }
        _ => begins_anew(rt, link),
    }
}

/// Runs one random event.
fn happens(
    rt: &(impl Abort + AllocGlobal),
    link: &mut Link,
    draws: &mut Draws,
    max: u16,
    kinds: usize,
)
    requires { 0 < kinds }
{
    let end = draw_end(draws);
    match draws.below(kinds) {
        0..=29 => link.polls(rt, end),
        30..=59 => link.passes(rt, end),
        60..=73 => sends(rt, link, draws, end, max),
        74..=80 => {
            let _taken = link.does(rt, Event::Take(end));
        }
        81..=88 => {
            let _was_on = link.does(rt, Event::Expire(end));
        }
        89..=97 => harms(rt, link, draws, end),
        _ => upsets(rt, link, draws, end),
    }
}

/// If the pair is ready, a recovery repairs the line whatever was lost: all accepted messages were
/// delivered, and are reported acknowledged.
fn recovers(rt: &impl Abort, link: &mut Link, tally: &mut Tally) {
    if link.pair.ready() {
        assert!(rt; link.recovers(rt).quiet);
        assert!(rt; link.pair.done());
        link.is_done(rt);
        tally.repaired = tally.repaired.saturating_add(1);
    }
}

/// The range of draws: all events, or all without the rare ones and restarts.
const ANYTHING: usize = 100;

const NOTHING_SELDOM: usize = 98;

/// Runs one script of sixty events.
fn plays(rt: &(impl Abort + AllocGlobal), draws: &mut Draws, tally: &mut Tally) {
    let max = draws.among(&[1, 2, 20, 64]);
    let first = draw_config(draws, max);
    let second = draw_config(draws, max);
    let mut link = Link::new(rt, first, second);
    if draws.below(8) != 0 {
        starts(rt, &mut link);
    }
    for _event in 0..60u8 {
        happens(rt, &mut link, draws, max, ANYTHING);
        link.keeps_its_promise(rt);
        if link.pair.honest() && link.pair.clean() {
            tally.kept = tally.kept.saturating_add(1);
        }
    }
    recovers(rt, &mut link, tally);
    counts(&link, tally);
}

/// Counts what a script did, if it was honest and clean to its end.
fn counts(link: &Link, tally: &mut Tally) {
    if link.pair.honest() && link.pair.clean() {
        for end in [End::A, End::B] {
            let handed_up = link.pair.handed_up(end) as u64;
            let acknowledged = link.pair.acknowledged(end);
            tally.handed_up = tally.handed_up.saturating_add(handed_up);
            tally.acknowledged = tally.acknowledged.saturating_add(acknowledged);
        }
    }
}

/// At least half of the events find the line honest and the run clean, and on average a message of
/// each script is delivered.
#[test]
fn two_thousand_scripts(rt: HostRuntime) {
    let mut draws = Draws {
        state: 0x4444_434D_5020_4634,
    };
    let mut tally = Tally {
        kept: 0,
        handed_up: 0,
        acknowledged: 0,
        repaired: 0,
    };
    for _script in 0..2000u16 {
        plays(&rt, &mut draws, &mut tally);
    }
    assert!(rt; tally.kept > 60_000, "{tally:?}");
    assert!(rt;
        tally.handed_up > 2000 && tally.acknowledged > 2000,
        "{tally:?}"
    );
    assert!(rt; tally.repaired > 500, "{tally:?}");
}

/// Runs one script of this many events with this window at both ends, and checks every fiftieth.
fn plays_long(rt: &(impl Abort + AllocGlobal), draws: &mut Draws, window: u16, events: u32) {
    let sizes = Config {
        window,
        inbox: 255,
        restart: false,
        ..draw_config(draws, 20)
    };
    let mut link = Link::new(rt, sizes, sizes);
    starts(rt, &mut link);
    for event in 0..events {
        happens(rt, &mut link, draws, 20, NOTHING_SELDOM);
        if event % 50 == 0 {
            link.keeps_its_promise(rt);
        }
    }
    assert!(rt; link.pair.honest() && link.pair.clean());
    link.keeps_its_promise(rt);
    for end in [End::A, End::B] {
        assert!(rt;
            link.pair.handed_up(end) > 256,
            "{window} {}",
            link.pair.handed_up(end)
        );
    }
}

/// The numbers wrap around, at every window.
#[test]
fn numbers_go_round(rt: HostRuntime) {
    let mut draws = Draws {
        state: 0x4C4F_4E47_2052_554E,
    };
    for (window, events) in [
        (1, 24_000),
        (2, 24_000),
        (7, 12_000),
        (127, 12_000),
        (255, 12_000),
    ] {
        plays_long(&rt, &mut draws, window, events);
    }
}
