//! Stations of the largest sizes, a message of the maximum length, and many turns.
ghost use Rattle.std.specs.Prelude.{◌≡◌};

use crate::driven::driver::{DEFAULT, SILENCE, STACK, STRT, driven, drives, is_told, started};
use crate::same::is;
use ddcmp_station::{Config, Fed, Notice, StartRefusal, Station};
use std::alloc::Global;
use std::process::Abort;
use test_kit::{Recorder, Seen};

/// STACK, and the header of data message 1 with 16383 bytes.
const FRONT: [u8; 16] = [
    0x05, 0x07, 0xC0, 0x00, 0x00, 0x01, 0x48, 0x55, 0x81, 0xFF, 0x3F, 0x00, 0x01, 0x01, 0xC6, 0x41,
];

const LARGEST: Config = Config {
    window: 255,
    inbox: 255,
    max: 16383,
    syn: 16,
    restart: false,
};

const ACK_1: &[u8] = &[0x05, 0x01, 0x00, 0x01, 0x00, 0x01, 0xAD, 0x95];

/// What the user of the longest message sees.
const LONGEST_SEEN: &[Seen] = &[
    Seen::Told(Notice::Running),
    Seen::Asked(16383),
    Seen::Told(Notice::HandedUp),
    Seen::Mail(16383, 0),
];

/// One byte a turn; no timer expires.
#[test]
fn five_thousand_turns(rt: HostRuntime) {
    let fill = [0x96; 5000];
    let mut station = started(&rt, rt.alloc(), DEFAULT);
    let mut user = Recorder::offering(&[]);
    let outcome = drives::<64>(&rt, &mut station, &[&fill], 1, &mut user, 5000);
    is_told(&rt, &outcome, driven(5000, 5000, 8), &STRT);
    is(&rt, outcome.moments, 5000);
}

fn is_zeros(bytes: Option<&[u8]>) -> bool {
    match bytes {
        Some(bytes) => bytes.iter().all(|byte| *byte == 0),
        None => false,
    }
}

/// Returns whether STRT, the message, and an ACK 1 for the peer's message were written.
fn is_message_and_answer(written: &[u8]) -> bool {
    written.len() == 16409
        && written.get(..8) == Some(STRT.as_slice())
        && written.get(8..16) == FRONT.get(8..)
        && is_zeros(written.get(16..16401))
        && written.get(16401..) == Some(ACK_1)
}

/// The longest message, of zeros, whose CRC is 0: it is received in 64 turns and sent in one.
#[test]
fn the_longest_message(rt: HostRuntime) {
    let zeros = [0; 16385];
    let max = 16383;
    let mut station = started(&rt, rt.alloc(), Config { max, ..DEFAULT });
    let offers: [&[u8]; 1] = [&zeros[..16383]];
    let mut user = Recorder::offering(&offers);
    let pieces: [&[u8]; 3] = [&FRONT, &zeros, SILENCE];
    let outcome = drives::<20000>(&rt, &mut station, &pieces, 256, &mut user, 67);
    is(&rt, outcome.answer, Ok(driven(67, 16401, 16409)));
    assert!(rt; is_message_and_answer(outcome.writer.bytes()));
    is(&rt, user.seen(), LONGEST_SEEN);
}

/// A station of the largest sizes.
#[derive(Drop)]
struct End {
    station: Station,
    ghost longest: { station.core.limits.longest ≡ 16383 },
    ghost syn: { station.syn ≡ 16 },
}

/// Calls whose contracts state more than tests need.
impl End {
    fn new(alloc: Global) -> Option<End> {
        match Station::new(alloc, LARGEST) {
            Ok(station) => Some(End { station }),
            Err(_refusal) => None,
        }
    }

    fn start(&mut self) -> Result<u8, StartRefusal> {
        self.station.start()
    }

    fn feed(&mut self, rt: &impl Abort, frame: &[u8]) -> Fed {
        assert!(rt; self.station.offset() < 1_000_000_000 && frame.len() < 20_000);
        self.station.feed(frame)
    }

    /// Returns whether it accepts a message.
    fn takes(&mut self, message: &[u8]) -> bool {
        self.station.send(message).is_ok()
    }

    fn held(&self) -> usize {
        self.station.held()
    }

    /// Writes its next frame to the front of `out`.
    fn polls(&mut self, out: &mut [u8; 16409]) -> Option<usize> {
        self.station.poll(out)
    }
}

impl End {
    fn running(rt: &impl Abort, alloc: Global) -> End {
        match End::new(alloc) {
            Some(mut end) => {
                is(rt, end.start(), Ok(0));
                end.receives(rt, &STACK, Some(Notice::Running));
                end
            }
            None => panic!(rt; "no station"),
        }
    }

    /// Receives a whole frame, for which it returns this notice.
    fn receives(&mut self, rt: &impl Abort, frame: &[u8], notice: Option<Notice>) {
        let used = frame.len();
        is(rt, self.feed(rt, frame), Fed { used, notice });
    }

    /// Sends its next frame to the other end, after 16 bytes of fill.
    fn sends(&mut self, rt: &impl Abort, len: usize, to: &mut End, notice: Option<Notice>) {
        let mut frame = [0; 16409];
        is(rt, self.polls(&mut frame), Some(len));
        match frame.get(..len) {
            Some(front) => to.receives(rt, front, notice),
            None => panic!(rt; "no frame is so long"),
        }
    }

    /// Checks that it has nothing to send.
    fn is_idle(&mut self, rt: &impl Abort) {
        is(rt, self.polls(&mut [0; 16409]), None);
    }

    /// Checks that its next frame is this one, after 16 bytes of fill.
    fn answers(&mut self, rt: &impl Abort, bytes: &[u8; 8]) {
        let mut out = [0; 16409];
        is(rt, self.polls(&mut out), Some(24));
        is(rt, &out[16..24], bytes.as_slice());
    }
}

/// Has one end accept 255 messages of the maximum length; one more is refused.
fn fills_the_window(rt: &impl Abort, one: &mut End, message: &[u8]) {
    for _message in 0..255u8 {
        assert!(rt; one.takes(message));
    }
    assert!(rt; !one.takes(message));
    is(rt, one.held(), 255 * 16383);
}

/// Fills the inbox of the other with them.
fn fills_the_inbox(rt: &impl Abort, one: &mut End, other: &mut End) {
    for _message in 0..255u8 {
        one.sends(rt, 16409, other, Some(Notice::HandedUp));
    }
    one.is_idle(rt);
    is(rt, other.held(), 255 * 16383);
    other.sends(rt, 24, one, Some(Notice::Acknowledged(255)));
}

/// Returns a message of the maximum length.
fn longest() -> [u8; 16383] {
    [7; 16383]
}

/// A window and an inbox are filled with 255 messages of the maximum length; one more is refused.
#[test]
fn a_full_window_and_a_full_inbox(rt: HostRuntime) {
    let message = longest();
    let mut one = End::running(&rt, rt.alloc());
    let mut other = End::running(&rt, rt.alloc());
    fills_the_window(&rt, &mut one, &message);
    fills_the_inbox(&rt, &mut one, &mut other);
    assert!(rt; one.takes(&message));
    one.sends(&rt, 16409, &mut other, None);
    // NAK 8 with RESP 255.
    other.answers(&rt, &[0x05, 0x02, 0x08, 0xFF, 0x00, 0x01, 0x8A, 0x05]);
}
