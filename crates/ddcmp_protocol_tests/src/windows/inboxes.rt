//! An inbox for which calls are made one after another and their results checked.
ghost use Rattle.std.specs.Prelude.{◌≡◌, []};

use ddcmp_window::{Inbox, Offer, Seq, Store};
use std::process::Abort;

/// A call of an inbox, with its arguments and its expected result.
#[derive(Clone, Copy)]
enum Row {
    Offer(Seq, &'static [u8], Offer),
    Put(&'static [u8], bool),
    Take(Option<usize>),
    Reset,
    Holds,
    Last(Seq),
    Bytes(usize),
    Len(u8),
    Length(u8, usize),
    Copy(u8, usize),
    /// What is in the buffer to which messages are written.
    Wrote([u8; 4]),
    /// Fills the buffer with zeros.
    Clean,
}

/// An inbox of one message.
const IN_SEQUENCE: &[Row] = &[
    Row::Offer(Seq(1), b"ab", Offer::Accepted),
    Row::Offer(Seq(2), b"ab", Offer::NoRoom),
    Row::Offer(Seq(1), b"ab", Offer::OutOfSequence),
    Row::Put(b"d", false),
    Row::Last(Seq(1)),
    Row::Bytes(2),
    // It returns received messages.
    Row::Holds,
    Row::Len(1),
    Row::Length(0, 2),
    Row::Copy(0, 2),
    Row::Wrote([b'a', b'b', 0, 0]),
    Row::Take(Some(2)),
    Row::Take(None),
    Row::Offer(Seq(2), b"c", Offer::Accepted),
    Row::Last(Seq(2)),
    // It restarts.
    Row::Reset,
    Row::Last(Seq(0)),
    Row::Put(b"e", true),
    Row::Clean,
    Row::Take(Some(1)),
    Row::Wrote([b'e', 0, 0, 0]),
];

fn in_sequence() -> &'static [Row] {
    IN_SEQUENCE
}

/// Returns whether an inbox, or the buffer, is as in the row.
fn is_told<S: Store>(inbox: &Inbox<S>, out: &[u8; 4], row: Row) -> bool {
    match row {
        Row::Last(answer) => inbox.last() == answer,
        Row::Bytes(answer) => inbox.bytes() == answer,
        Row::Len(answer) => inbox.len() == answer,
        Row::Length(i, answer) => i < inbox.len() && inbox.length(i) == answer,
        Row::Wrote(bytes) => *out == bytes,
        _ => false,
    }
}

/// Returns whether there is a message `i` with this length, and copies it to the buffer.
fn is_copied<S: Store>(inbox: &Inbox<S>, out: &mut [u8; 4], i: u8, length: usize) -> bool {
    i < inbox.len() && inbox.length(i) <= 4 && inbox.copy(i, out) == length
}

/// Returns whether an inbox does what the row expects.
fn is_done<S: Store>(inbox: &mut Inbox<S>, out: &mut [u8; 4], row: Row) -> bool
    requires { inbox.old.longest ≡ 4 }
    ensures { inbox.new.longest ≡ inbox.old.longest }
{
    match row {
        Row::Offer(number, message, answer) => {
            1 <= message.len() && message.len() <= 4 && inbox.offer(number, message) == answer
        }
        Row::Put(message, answer) => {
            1 <= message.len() && message.len() <= 4 && inbox.put(message) == answer
        }
        Row::Take(answer) => inbox.take(out) == answer,
        Row::Copy(i, length) => is_copied(inbox, out, i, length),
        Row::Reset => {
            inbox.reset();
            true
        }
        Row::Holds => {
            inbox.holds();
            true
        }
        Row::Clean => {
            *out = [0; 4];
            true
        }
        _ => is_told(inbox, out, row),
    }
}

/// Checks that each row is as expected.
fn plays<S: Store>(rt: &impl Abort, inbox: &mut Inbox<S>, rows: &[Row])
    requires { inbox.old.longest ≡ 4 }
{
    let mut out = [0; 4];
    for (i, row) in rows.iter().enumerate() {
        assert!(rt; is_done(inbox, &mut out, *row), "row {i}");
    }
}

pub fn takes_in_sequence<S: Store + Drop>(rt: &impl Abort, store: S)
    requires empty { S.messages store ≡ [] }
    requires longest { S.longest store ≡ 4 }
{
    let mut inbox = Inbox::new(store);
    plays(rt, &mut inbox, in_sequence());
    inbox.holds();
}
