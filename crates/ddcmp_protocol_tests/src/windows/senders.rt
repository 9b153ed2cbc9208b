//! A sender for which calls are made one after another and their results checked. Each call is in a
//! branch of a function that promises next to nothing.
ghost use Rattle.std.specs.Prelude.{◌≡◌, []};

use ddcmp_window::{SendRefusal, Sender, Seq, Store};
use std::process::Abort;

/// A call of a sender, with its arguments and its expected result.
#[derive(Clone, Copy)]
enum Row {
    Refusal(&'static [u8], Option<SendRefusal>),
    Accept(&'static [u8], Result<Seq, SendRefusal>),
    Next(Option<(Seq, usize)>),
    Acknowledged(Seq, u8),
    Refused(Seq, Option<u8>),
    Pop(Option<usize>),
    Reset(u8),
    Peek(Option<(Seq, usize)>),
    FirstLength(Option<usize>),
    Room(bool),
    Bytes(usize),
    Len(u8),
    Outstanding(u8),
    LastSent(Seq),
    LastAcknowledged(Seq),
    NextNumber(Seq),
    /// What is in the buffer to which messages are written.
    Wrote([u8; 4]),
}

/// A window of 3 messages of at most 4 bytes.
const KEPT_UNTIL_ACKNOWLEDGED: &[Row] = &[
    Row::Refusal(b"a", None),
    Row::Accept(b"a", Ok(Seq(1))),
    Row::Refusal(b"", Some(SendRefusal::Empty)),
    Row::Accept(b"", Err(SendRefusal::Empty)),
    Row::Refusal(b"fives", Some(SendRefusal::TooLong)),
    Row::Accept(b"fives", Err(SendRefusal::TooLong)),
    Row::Refusal(b"bcd", None),
    Row::Accept(b"bcd", Ok(Seq(2))),
    Row::Refusal(b"e", None),
    Row::Accept(b"e", Ok(Seq(3))),
    Row::Refusal(b"f", Some(SendRefusal::WindowFull)),
    Row::Accept(b"f", Err(SendRefusal::WindowFull)),
    Row::Refusal(b"fives", Some(SendRefusal::TooLong)),
    Row::Accept(b"fives", Err(SendRefusal::TooLong)),
    Row::Refusal(b"", Some(SendRefusal::Empty)),
    Row::Accept(b"", Err(SendRefusal::Empty)),
    Row::Room(false),
    Row::Bytes(5),
    // It sends in order.
    Row::Peek(Some((Seq(1), 1))),
    Row::Next(Some((Seq(1), 1))),
    Row::Peek(Some((Seq(2), 3))),
    Row::Next(Some((Seq(2), 3))),
    Row::Wrote([b'b', b'c', b'd', 0]),
    Row::Next(Some((Seq(3), 1))),
    Row::Wrote([b'e', b'c', b'd', 0]),
    Row::Peek(None),
    Row::Next(None),
    Row::Outstanding(3),
    // Acknowledgements inside the window and outside it.
    Row::Acknowledged(Seq(2), 2),
    Row::Acknowledged(Seq(4), 0),
    // The same with NAKs.
    Row::Refused(Seq(9), None),
    Row::NextNumber(Seq(4)),
    Row::Refused(Seq(2), Some(0)),
    // It retransmits.
    Row::Next(Some((Seq(3), 1))),
    Row::Acknowledged(Seq(3), 1),
    Row::Len(0),
    Row::LastAcknowledged(Seq(3)),
    Row::Accept(b"g", Ok(Seq(4))),
    Row::Reset(1),
    Row::LastSent(Seq(0)),
    Row::NextNumber(Seq(1)),
];

/// Messages that are removed without a number.
const GIVEN_WITHOUT_NUMBERS: &[Row] = &[
    Row::FirstLength(None),
    Row::Pop(None),
    Row::Accept(b"ab", Ok(Seq(1))),
    Row::Accept(b"c", Ok(Seq(2))),
    Row::FirstLength(Some(2)),
    Row::Pop(Some(2)),
    Row::FirstLength(Some(1)),
    Row::Pop(Some(1)),
    Row::Wrote([b'c', b'b', 0, 0]),
    Row::LastSent(Seq(0)),
];

/// A window of 255 messages, all sent.
const FULL: &[Row] = &[
    Row::Accept(b"a", Err(SendRefusal::WindowFull)),
    Row::Next(None),
    Row::Outstanding(255),
    Row::Acknowledged(Seq(255), 255),
    Row::Acknowledged(Seq(0), 0),
];

fn kept_until_acknowledged() -> &'static [Row] {
    KEPT_UNTIL_ACKNOWLEDGED
}

fn given_without_numbers() -> &'static [Row] {
    GIVEN_WITHOUT_NUMBERS
}

fn full() -> &'static [Row] {
    FULL
}

/// Returns whether a sender, or the buffer, is as in the row.
fn is_told<S: Store>(sender: &Sender<S>, out: &[u8; 4], row: Row) -> bool {
    match row {
        Row::Refusal(message, answer) => sender.refusal(message) == answer,
        Row::Peek(answer) => sender.peek() == answer,
        Row::FirstLength(answer) => sender.first_length() == answer,
        Row::Room(answer) => sender.room() == answer,
        Row::Bytes(answer) => sender.bytes() == answer,
        Row::Len(answer) => sender.len() == answer,
        Row::Outstanding(answer) => sender.outstanding() == answer,
        Row::LastSent(answer) => sender.last_sent() == answer,
        Row::LastAcknowledged(answer) => sender.last_acknowledged() == answer,
        Row::NextNumber(answer) => sender.next_number() == answer,
        Row::Wrote(bytes) => *out == bytes,
        _ => false,
    }
}

/// Returns whether a sender does what the row expects.
fn is_done<S: Store>(sender: &mut Sender<S>, out: &mut [u8; 4], row: Row) -> bool
    requires { sender.old.longest ≡ 4 }
    ensures { sender.new.longest ≡ sender.old.longest }
{
    match row {
        Row::Accept(message, answer) => sender.accept(message) == answer,
        Row::Next(answer) => sender.next(out) == answer,
        Row::Acknowledged(number, answer) => sender.acknowledged(number) == answer,
        Row::Refused(number, answer) => sender.refused(number) == answer,
        Row::Reset(answer) => sender.reset() == answer,
        Row::Pop(answer) => pops(sender, out) == Some(answer),
        _ => is_told(sender, out, row),
    }
}

/// Removes a message without a number; returns its length, or None if messages were sent.
fn pops<S: Store>(sender: &mut Sender<S>, out: &mut [u8; 4]) -> Option<Option<usize>>
    requires { sender.old.longest ≡ 4 }
    ensures { sender.new.longest ≡ sender.old.longest }
{
    let acknowledged = sender.last_acknowledged();
    if acknowledged != sender.last_sent() || sender.next_number() != acknowledged.next() {
        return None;
    }
    Some(sender.pop(out))
}

/// Checks that each row is as expected.
fn plays<S: Store>(rt: &impl Abort, sender: &mut Sender<S>, rows: &[Row])
    requires { sender.old.longest ≡ 4 }
    ensures { sender.new.longest ≡ sender.old.longest }
{
    let mut out = [0; 4];
    for (i, row) in rows.iter().enumerate() {
        assert!(rt; is_done(sender, &mut out, *row), "row {i}");
    }
}

pub fn keeps_until_acknowledged<S: Store + Drop>(rt: &impl Abort, store: S)
    requires empty { S.messages store ≡ [] }
    requires longest { S.longest store ≡ 4 }
{
    let mut sender = Sender::new(store);
    plays(rt, &mut sender, kept_until_acknowledged());
    sender.holds();
}

pub fn gives_without_numbers<S: Store + Drop>(rt: &impl Abort, store: S)
    requires empty { S.messages store ≡ [] }
    requires longest { S.longest store ≡ 4 }
{
    let mut sender = Sender::new(store);
    plays(rt, &mut sender, given_without_numbers());
}

/// Queues and sends a message; returns its number, if that was sent.
fn sends_one<S: Store>(sender: &mut Sender<S>) -> Option<Seq>
    requires { sender.old.longest ≡ 4 }
    ensures { sender.new.longest ≡ sender.old.longest }
{
    let mut out = [0; 4];
    let Ok(kept) = sender.accept(b"a") else {
        return None;
    };
    match sender.next(&mut out) {
        Some((sent, _length)) if sent == kept => Some(kept),
        _ => None,
    }
}

/// Returns whether a message is queued, sent and acknowledged.
fn is_carried<S: Store>(sender: &mut Sender<S>) -> bool
    requires { sender.old.longest ≡ 4 }
    ensures { sender.new.longest ≡ sender.old.longest }
{
    match sends_one(sender) {
        Some(_number) => sender.acknowledged(sender.last_sent()) == 1,
        None => false,
    }
}

/// 300 messages, each acknowledged before the next is queued.
pub fn numbers_wrap<S: Store + Drop>(rt: &impl Abort, store: S)
    requires empty { S.messages store ≡ [] }
    requires longest { S.longest store ≡ 4 }
{
    let mut sender = Sender::new(store);
    for round in 0..300u16 {
        assert!(rt; is_carried(&mut sender), "{round}");
    }
    assert!(rt; sender.last_sent() == Seq(44));
}

pub fn fills_the_window<S: Store + Drop>(rt: &impl Abort, store: S)
    requires empty { S.messages store ≡ [] }
    requires longest { S.longest store ≡ 4 }
{
    let mut sender = Sender::new(store);
    for message in 0..255u8 {
        assert!(rt; sends_one(&mut sender).is_some(), "{message}");
    }
    plays(rt, &mut sender, full());
}
