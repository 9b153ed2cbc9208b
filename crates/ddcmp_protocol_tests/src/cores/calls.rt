//! Rows computed by hand, as calls of a core over two stores, and each call at least once.
use crate::cores::bench::{Bench, Frame, Row};
use ddcmp_core::{Notice, SendRefusal, Seq, StartRefusal, State};
use std::process::Abort;
use std::test::Fail;

const HANDED_UP: Option<Notice> = Some(Notice::HandedUp);

/// The startup handshake, at the end that sent STRT, with its last ACK sent.
const STARTUP: &[Row] = &[
    Row::Start(Ok(0)),
    Row::NextHeader(Some(Frame::Strt)),
    Row::Next(Some(Frame::Strt)),
    Row::NextHeader(None),
    Row::Receive(Frame::Stack, Some(Notice::Running)),
    Row::Next(Some(Frame::Ack(0))),
    Row::Next(None),
];

/// After the startup handshake it sends messages 1 to 3, and none is acknowledged.
const WAITS: &[Row] = &[
    Row::SendRefusal(b"a", None),
    Row::Send(b"a", Ok(Seq(1))),
    Row::Next(Some(Frame::Data(1, 0))),
    Row::SendRefusal(b"a", None),
    Row::Send(b"a", Ok(Seq(2))),
    Row::Next(Some(Frame::Data(2, 0))),
    Row::SendRefusal(b"a", None),
    Row::Send(b"a", Ok(Seq(3))),
    Row::Next(Some(Frame::Data(3, 0))),
    Row::Numbers(0, 3, 0, 4),
    Row::TakeArm(true),
    Row::TakeArm(false),
];

const BEGINS_ON_AN_ANSWER: &[Row] = &[
    Row::Start(Ok(0)),
    Row::Receive(Frame::Strt, None),
    Row::NextHeader(Some(Frame::Stack)),
    Row::Next(Some(Frame::Stack)),
    // Frames that are stale.
    Row::Receive(Frame::Ack(1), None),
    Row::State(State::AStart),
    Row::Receive(Frame::Nak(1, 0), None),
    Row::State(State::AStart),
    Row::Receive(Frame::Data(1, 1), None),
    Row::State(State::AStart),
    // Frames that aren't.
    Row::Receive(Frame::Data(1, 0), Some(Notice::RunningAndHandedUp)),
    Row::Numbers(1, 0, 0, 1),
    Row::SendRefusal(b"fives", Some(SendRefusal::TooLong)),
    Row::NextHeader(Some(Frame::Ack(1))),
    Row::Next(Some(Frame::Ack(1))),
];

const REFUSED: &[Row] = &[
    Row::Receive(Frame::Nak(3, 1), Some(Notice::Acknowledged(1))),
    Row::Numbers(0, 3, 1, 2),
    Row::TimerOn(false),
    Row::Next(Some(Frame::Data(2, 0))),
    Row::MessagesAgain(1),
];

const STALE: &[Row] = &[
    Row::Receive(Frame::Nak(3, 7), None),
    Row::Numbers(0, 3, 0, 4),
    Row::Outgoing(3),
    Row::RepliesToRep(1),
    Row::Next(None),
];

const LATE: &[Row] = &[
    Row::Expire(true),
    Row::Expire(false),
    Row::Receive(Frame::Ack(1), Some(Notice::Acknowledged(1))),
    Row::TakeArm(true),
    Row::Next(None),
];

/// After the startup handshake it receives messages 1 to 5.
const RECEIVES_FIVE: &[Row] = &[
    Row::Receive(Frame::Data(1, 0), HANDED_UP),
    Row::Receive(Frame::Data(2, 0), HANDED_UP),
    Row::Receive(Frame::Data(3, 0), HANDED_UP),
    Row::Receive(Frame::Data(4, 0), HANDED_UP),
    Row::Receive(Frame::Data(5, 0), HANDED_UP),
    Row::Numbers(5, 0, 0, 1),
];

const MISSED: &[Row] = &[
    Row::Receive(Frame::Rep(5), None),
    Row::Next(Some(Frame::Ack(5))),
    Row::Receive(Frame::Rep(4), None),
    Row::Next(Some(Frame::Nak(3, 5))),
    // A NAK is sent before a REP, and both before messages.
    Row::SendRefusal(b"a", None),
    Row::Send(b"a", Ok(Seq(1))),
    Row::Next(Some(Frame::Data(1, 5))),
    Row::Send(b"a", Ok(Seq(2))),
    Row::Expire(true),
    Row::ReceiveDamage,
    Row::NextHeader(Some(Frame::Nak(1, 5))),
    Row::Next(Some(Frame::Nak(1, 5))),
    Row::NextHeader(Some(Frame::Rep(1))),
    Row::Next(Some(Frame::Rep(1))),
    Row::NextHeader(Some(Frame::Data(2, 5))),
    Row::Next(Some(Frame::Data(2, 5))),
    Row::Numbers(5, 2, 0, 3),
    // Each fault, and a message for which there is no room.
    Row::ReceiveDamagedData,
    Row::Next(Some(Frame::Nak(2, 5))),
    Row::ReceiveTooLong,
    Row::Next(Some(Frame::Nak(16, 5))),
    Row::ReceiveNoFormat,
    Row::Next(Some(Frame::Nak(17, 5))),
    Row::Receive(Frame::Data(6, 0), None),
    Row::Next(Some(Frame::Nak(8, 5))),
];

/// After 44 messages, each acknowledged, and an ACK of one that wasn't sent.
const WIDEST_WINDOW: &[Row] = &[
    Row::Receive(Frame::Nak(2, 43), None),
    Row::DataChecks(1),
    Row::Numbers(0, 44, 44, 45),
    Row::State(State::Running),
    Row::TimerOn(false),
    Row::Next(None),
];

const MAINTENANCE: &[Row] = &[
    Row::Receive(Frame::Maintenance, Some(Notice::MaintenanceSeen)),
    Row::State(State::Running),
    Row::EnterMaintenance(Err(StartRefusal::NotHalted)),
    Row::Halt,
    Row::EnterMaintenance(Ok(0)),
    Row::Receive(Frame::Maintenance, Some(Notice::MaintenanceHandedUp)),
    // `abc` is the only message in the inbox, and is taken.
    Row::Waiting(1),
    Row::WaitingLength(0, 3),
    Row::Clean,
    Row::WaitingAt(0, 3),
    Row::Took([b'a', b'b', b'c', 0]),
    Row::Clean,
    Row::Take(Some(3)),
    Row::Took([b'a', b'b', b'c', 0]),
    Row::Take(None),
    Row::SendMaintenance(b"abc", Ok(())),
    Row::SendMaintenance(b"abc", Err(SendRefusal::WindowFull)),
    Row::SendRefusal(b"a", Some(SendRefusal::WrongState)),
    Row::Send(b"a", Err(SendRefusal::WrongState)),
    Row::NextHeader(Some(Frame::Maintenance)),
    Row::Next(Some(Frame::Maintenance)),
    Row::Next(None),
];

const RESTARTS: &[Row] = &[
    Row::Receive(Frame::Strt, Some(Notice::Restarted(0))),
    Row::State(State::AStart),
    Row::Numbers(0, 0, 0, 1),
    Row::TimerOn(false),
    Row::Next(Some(Frame::Stack)),
];

const UNTAKEN: &[Row] = &[
    Row::Receive(Frame::Data(1, 0), HANDED_UP),
    Row::Receive(Frame::Strt, Some(Notice::PeerRestarted)),
    Row::State(State::Halted),
    Row::Numbers(1, 0, 0, 1),
    Row::Outgoing(0),
    Row::Waiting(1),
    Row::Start(Err(StartRefusal::Untaken)),
    Row::Bytes(1),
    Row::Room(true),
];

/// No frame acknowledges a message that wasn't taken, also after another start.
const ON_TAKE: &[Row] = &[
    Row::AcknowledgeOnTake(true, Ok(())),
    Row::Start(Ok(0)),
    Row::AcknowledgeOnTake(false, Err(StartRefusal::NotHalted)),
    Row::Next(Some(Frame::Strt)),
    Row::Receive(Frame::Stack, Some(Notice::Running)),
    Row::Next(Some(Frame::Ack(0))),
    Row::Receive(Frame::Data(1, 0), HANDED_UP),
    Row::Next(None),
    Row::ReceiveDamage,
    Row::Receive(Frame::Data(2, 0), HANDED_UP),
    Row::Next(None),
    Row::ReceiveDamage,
    Row::Next(Some(Frame::Nak(1, 0))),
    Row::Receive(Frame::Rep(2), None),
    Row::Next(Some(Frame::Ack(0))),
    Row::WaitingAt(0, 1),
    Row::Next(None),
    Row::Take(Some(1)),
    Row::Next(Some(Frame::Ack(1))),
    Row::Send(b"a", Ok(Seq(1))),
    Row::Next(Some(Frame::Data(1, 1))),
    Row::Take(Some(1)),
    Row::Next(Some(Frame::Ack(2))),
    Row::Take(None),
    Row::Next(None),
    Row::Halt,
    Row::Start(Ok(1)),
    Row::Next(Some(Frame::Strt)),
    Row::Receive(Frame::Stack, Some(Notice::Running)),
    Row::Receive(Frame::Data(1, 0), HANDED_UP),
    Row::Next(Some(Frame::Ack(0))),
    Row::Halt,
    Row::AcknowledgeOnTake(false, Err(StartRefusal::Untaken)),
    Row::Take(Some(1)),
    Row::AcknowledgeOnTake(false, Ok(())),
];

fn startup() -> &'static [Row] {
    STARTUP
}

fn waits() -> &'static [Row] {
    WAITS
}

fn begins_on_an_answer() -> &'static [Row] {
    BEGINS_ON_AN_ANSWER
}

fn refused() -> &'static [Row] {
    REFUSED
}

fn stale() -> &'static [Row] {
    STALE
}

fn late() -> &'static [Row] {
    LATE
}

fn receives_five() -> &'static [Row] {
    RECEIVES_FIVE
}

fn missed() -> &'static [Row] {
    MISSED
}

fn widest_window() -> &'static [Row] {
    WIDEST_WINDOW
}

fn maintenance() -> &'static [Row] {
    MAINTENANCE
}

fn restarts() -> &'static [Row] {
    RESTARTS
}

fn untaken() -> &'static [Row] {
    UNTAKEN
}

fn on_take() -> &'static [Row] {
    ON_TAKE
}

/// Returns a core with this window and restart option, after each of these parts in turn.
fn bench_of(
    rt: &(impl Abort + AllocGlobal),
    window: u8,
    restart: bool,
    parts: &[&[Row]],
) -> Result<Bench, Fail> {
    assert!(rt; window != 0);
    let mut bench = Bench::new(rt.alloc(), window, restart)?;
    for rows in parts {
        bench.plays(rt, rows);
    }
    Ok(bench)
}

#[test]
fn acknowledges_on_take(rt: HostRuntime) -> Result<(), Fail> {
    let _bench = bench_of(&rt, 7, false, &[on_take()])?;
    Ok(())
}

#[test]
fn begins_on_an_answer_to_its_stack(rt: HostRuntime) -> Result<(), Fail> {
    let _bench = bench_of(&rt, 7, false, &[begins_on_an_answer()])?;
    Ok(())
}

#[test]
fn receives_refusals_and_acknowledgements(rt: HostRuntime) -> Result<(), Fail> {
    let _refused = bench_of(&rt, 7, false, &[startup(), waits(), refused()])?;
    let _stale = bench_of(&rt, 7, false, &[startup(), waits(), stale()])?;
    let _late = bench_of(&rt, 7, false, &[startup(), waits(), late()])?;
    Ok(())
}

#[test]
fn answers_what_it_missed(rt: HostRuntime) -> Result<(), Fail> {
    let _bench = bench_of(&rt, 7, false, &[startup(), receives_five(), missed()])?;
    Ok(())
}

/// Checks that a message is queued, sent and acknowledged.
fn carries(rt: &impl Abort, bench: &mut Bench, number: u8) {
    let rows = [
        Row::SendRefusal(b"a", None),
        Row::Send(b"a", Ok(Seq(number))),
        Row::Next(Some(Frame::Data(number, 0))),
        Row::Receive(Frame::Ack(number), Some(Notice::Acknowledged(1))),
    ];
    bench.plays(rt, &rows);
}

/// Returns whether an acknowledgement reports nothing and isn't counted.
fn is_passed_over(bench: &mut Bench, resp: u8) -> bool {
    let before = bench.counters();
    bench.is_right(Row::Receive(Frame::Ack(resp), None)) && bench.counters() == before
}

#[test]
fn numbers_lie_in_the_widest_window(rt: HostRuntime) -> Result<(), Fail> {
    let mut bench = bench_of(&rt, 255, false, &[startup()])?;
    for number in 1..45u8 {
        carries(&rt, &mut bench, number);
    }
    assert!(rt; is_passed_over(&mut bench, 45));
    bench.plays(&rt, widest_window());
    Ok(())
}

#[test]
fn maintains(rt: HostRuntime) -> Result<(), Fail> {
    let _bench = bench_of(&rt, 1, false, &[startup(), maintenance()])?;
    Ok(())
}

#[test]
fn restarts_by_option(rt: HostRuntime) -> Result<(), Fail> {
    let _anew = bench_of(&rt, 7, true, &[startup(), restarts()])?;
    let _untaken = bench_of(&rt, 7, true, &[startup(), untaken()])?;
    Ok(())
}
