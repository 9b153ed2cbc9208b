//! The devices of the tests do what is requested.
use crate::frames::calls::{is, read, write};
use ddcmp_frame::failing::{BoundedSink, Pieces};
use ddcmp_frame::{Got, Worst};
use std::process::Abort;

/// Returns a source of single bytes, which is idle at its fourth read and fails at its seventh.
fn faulty<'a>(pieces: &'a [&'a [u8]]) -> Pieces<'a> {
    Pieces::new(pieces).at_most(1).idle_at(4).failing_at(7)
}

fn without_pieces() -> Pieces<'static> {
    Pieces::new(&[])
}

#[test]
fn pieces_come_in_order(rt: HostRuntime) {
    let pieces: [&[u8]; 4] = [b"ab", b"", b"c", b"d"];
    let mut source = faulty(&pieces);
    let rows = [
        (Got::Bytes(1), b'a', Worst::Fine),
        (Got::Bytes(1), b'b', Worst::Fine),
        (Got::Idle, 0, Worst::Idle),
        (Got::Idle, 0, Worst::Idle),
        (Got::Bytes(1), b'c', Worst::Idle),
        (Got::Bytes(1), b'd', Worst::Idle),
        (Got::Failed, 0, Worst::Failed),
    ];
    for (got, first, worst) in rows {
        let mut buf = [0; 4];
        is(&rt, read(&rt, &mut source, &mut buf), (got, worst));
        is(&rt, buf.as_slice(), [first, 0, 0, 0].as_slice());
    }
    let mut source = without_pieces();
    is(
        &rt,
        read(&rt, &mut source, &mut [0; 4]),
        (Got::Bytes(0), Worst::Fine),
    );
}

/// Returns a sink of eight bytes, or of `room`, whose writes take at most this many bytes; the
/// write `fails_at` fails (0 for none).
fn sink_of(rt: &impl Abort, room: usize, most: usize, fails_at: usize) -> BoundedSink<8> {
    assert!(rt; room <= 8 && 0 < most);
    BoundedSink::full_at(room)
        .at_most(most)
        .failing_at(fails_at)
}

fn kept(sink: &BoundedSink<8>) -> &[u8] {
    sink.bytes()
}

/// Checks the results of writes of `abc`, and the bytes that are kept.
fn keeps(rt: &impl Abort, mut sink: BoundedSink<8>, answers: &[Option<usize>], bytes: &[u8]) {
    for answer in answers {
        is(
            rt,
            write(rt, &mut sink, b"abc"),
            (*answer, answer.is_none()),
        );
    }
    is(rt, kept(&sink), bytes);
}

#[test]
fn what_was_taken_is_kept(rt: HostRuntime) {
    keeps(
        &rt,
        BoundedSink::new(),
        &[Some(3), Some(3), Some(2), None],
        b"abcabcab",
    );
    keeps(
        &rt,
        sink_of(&rt, 4, usize::MAX, 0),
        &[Some(3), Some(1), None],
        b"abca",
    );
    keeps(&rt, sink_of(&rt, 8, 2, 0), &[Some(2), Some(2)], b"abab");
    keeps(
        &rt,
        sink_of(&rt, 8, usize::MAX, 2),
        &[Some(3), None],
        b"abc",
    );
}
