//! Each call of a station at least once, with rows computed by hand.
use crate::stations::bench::{Bench, Row};
use ddcmp_station::{Notice, SendRefusal, Seq, StartRefusal, State};
use std::process::Abort;

const STACK: &[u8] = &[0x05, 0x07, 0xC0, 0x00, 0x00, 0x01, 0x48, 0x55];

const STRT: &[u8] = &[0x05, 0x06, 0xC0, 0x00, 0x00, 0x01, 0x75, 0x95];
/// STRT after two bytes of fill.
const FILLED_STRT: &[u8] = &[0x96, 0x96, 0x05, 0x06, 0xC0, 0x00, 0x00, 0x01, 0x75, 0x95];

const ACK_0: &[u8] = &[0x05, 0x01, 0x00, 0x00, 0x00, 0x01, 0xFC, 0x55];
/// Data message 1, `abc`.
const DATA: &[u8] = &[
    0x81, 0x03, 0x00, 0x00, 0x01, 0x01, 0x9A, 0x41, 0x61, 0x62, 0x63, 0x38, 0x97,
];
/// Its first five bytes, and the others.
const FRONT_OF_DATA: &[u8] = &[0x81, 0x03, 0x00, 0x00, 0x01];

const REST_OF_DATA: &[u8] = &[0x01, 0x9A, 0x41, 0x61, 0x62, 0x63, 0x38, 0x97];
/// STACK, and then data message 1.
const STACK_AND_DATA: &[u8] = &[
    0x05, 0x07, 0xC0, 0x00, 0x00, 0x01, 0x48, 0x55, 0x81, 0x03, 0x00, 0x00, 0x01, 0x01, 0x9A, 0x41,
    0x61, 0x62, 0x63, 0x38, 0x97,
];
/// Data message 2, `abc`, without its last byte; and that byte.
const FRONT_OF_DATA_2: &[u8] = &[
    0x81, 0x03, 0x00, 0x00, 0x02, 0x01, 0x9A, 0xB1, 0x61, 0x62, 0x63, 0x38,
];

const END_OF_DATA_2: &[u8] = &[0x97];

const DAMAGED_DATA: &[u8] = &[
    0x81, 0x03, 0x00, 0x00, 0x01, 0x01, 0x9A, 0x41, 0x61, 0x62, 0x63, 0x38, 0x96,
];

const NAK_OF_DATA: &[u8] = &[0x05, 0x02, 0x02, 0x00, 0x00, 0x01, 0xB9, 0xED];
/// The header of data message 1 of 1501 bytes.
const TOO_LONG: &[u8] = &[0x81, 0xDD, 0x05, 0x00, 0x01, 0x01, 0x32, 0x9E];

const NAK_OF_TOO_LONG: &[u8] = &[0x05, 0x02, 0x10, 0x00, 0x00, 0x01, 0xBC, 0x95];
/// The maintenance message `abc`.
const MAINTENANCE: &[u8] = &[
    0x90, 0x03, 0xC0, 0x00, 0x00, 0x01, 0xA4, 0x90, 0x61, 0x62, 0x63, 0x38, 0x97,
];

const PIECES: &[Row] = &[
    Row::State(State::Halted),
    Row::Start(Ok(0)),
    Row::Start(Err(StartRefusal::NotHalted)),
    Row::Poll(STRT),
    Row::Poll(&[]),
    // STACK and the first message are received in one chunk.
    Row::Feed(STACK_AND_DATA, 8, Some(Notice::Running)),
    Row::Feed(DATA, 13, Some(Notice::HandedUp)),
    Row::Take(b"abc"),
    // The second message is received in two chunks.
    Row::Feed(FRONT_OF_DATA_2, 12, None),
    Row::Bytes(12, 12),
    Row::Feed(END_OF_DATA_2, 1, Some(Notice::HandedUp)),
    Row::Bytes(3, 0),
    Row::Waiting(1),
    Row::Take(b"abc"),
    Row::MessagesUp(2),
];

const FILL: &[Row] = &[
    Row::Start(Ok(0)),
    Row::Poll(FILLED_STRT),
    Row::TimerOn(true),
    Row::TakeArm(true),
    Row::TakeArm(false),
    Row::Expire(true),
    Row::Expiries(1),
];

/// It is started and receives STRT; the peer gets its STACK.
const STARTUP: &[Row] = &[
    Row::Start(Ok(0)),
    Row::Feed(STRT, 8, None),
    Row::Poll(STACK),
    Row::Feed(ACK_0, 8, Some(Notice::Running)),
];

const DAMAGE: &[Row] = &[Row::Feed(DAMAGED_DATA, 13, None), Row::Poll(NAK_OF_DATA)];

const LENGTH: &[Row] = &[
    Row::Feed(TOO_LONG, 8, None),
    Row::Bytes(0, 8),
    Row::Poll(NAK_OF_TOO_LONG),
];

const SEEN: &[Row] = &[
    Row::Feed(MAINTENANCE, 13, Some(Notice::MaintenanceSeen)),
    Row::State(State::Running),
];

const MAINTAINED: &[Row] = &[
    Row::EnterMaintenance(Ok(0)),
    Row::Feed(MAINTENANCE, 13, Some(Notice::MaintenanceHandedUp)),
    Row::Take(b"abc"),
    Row::SendMaintenance(b"abc", Ok(())),
    Row::Send(b"abc", Err(SendRefusal::WrongState)),
    Row::Poll(MAINTENANCE),
    Row::Poll(&[]),
];

const KEPT: &[Row] = &[
    Row::NothingNext,
    Row::SendRefusal(b"abc", None),
    Row::SendRefusal(b"", Some(SendRefusal::Empty)),
    Row::Send(b"abc", Ok(Seq(1))),
    Row::SendMaintenance(b"abc", Err(SendRefusal::WrongState)),
    Row::Outgoing(1),
    Row::Room(true),
    Row::Bytes(3, 0),
    Row::DataNext,
    Row::Poll(DATA),
    Row::Numbers([0, 1, 0, 2]),
    // The line is cleared if the station is halted, and not before.
    Row::Feed(FRONT_OF_DATA, 5, None),
    Row::ClearLine(false),
    Row::Open(5),
    Row::Feed(REST_OF_DATA, 8, Some(Notice::HandedUp)),
    Row::Shows(b"abc"),
    Row::Halt,
    Row::ClearLine(true),
    Row::Offset(0),
    Row::Start(Err(StartRefusal::Untaken)),
];

fn pieces() -> &'static [Row] {
    PIECES
}

fn fill() -> &'static [Row] {
    FILL
}

fn startup() -> &'static [Row] {
    STARTUP
}

fn damage() -> &'static [Row] {
    DAMAGE
}

fn length() -> &'static [Row] {
    LENGTH
}

fn seen() -> &'static [Row] {
    SEEN
}

fn maintained() -> &'static [Row] {
    MAINTAINED
}

fn kept() -> &'static [Row] {
    KEPT
}

/// Checks that a new station does what these rows expect.
fn plays(rt: &(impl Abort + AllocGlobal), rows: &[Row]) {
    Bench::new(rt, rt.alloc(), 0).plays(rt, rows);
}

/// Checks that a running station does what these rows expect.
fn plays_running(rt: &(impl Abort + AllocGlobal), rows: &[Row]) {
    let mut bench = Bench::new(rt, rt.alloc(), 0);
    bench.plays(rt, startup());
    bench.plays(rt, rows);
}

#[test]
fn takes_pieces_up_to_a_notice(rt: HostRuntime) {
    plays(&rt, pieces());
}

#[test]
fn fill_stands_before_a_frame(rt: HostRuntime) {
    Bench::new(&rt, rt.alloc(), 2).plays(&rt, fill());
}

#[test]
fn damaged_data_are_refused(rt: HostRuntime) {
    plays_running(&rt, damage());
}

#[test]
fn too_long_data_are_refused(rt: HostRuntime) {
    plays_running(&rt, length());
}

#[test]
fn a_running_station_sees_maintenance(rt: HostRuntime) {
    plays_running(&rt, seen());
}

#[test]
fn maintenance_has_a_state_of_its_own(rt: HostRuntime) {
    plays(&rt, maintained());
}

#[test]
fn messages_are_kept_and_the_line_is_cleared(rt: HostRuntime) {
    plays_running(&rt, kept());
}
