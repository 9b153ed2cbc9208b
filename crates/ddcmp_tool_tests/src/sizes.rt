// There is a reader for every maximum length of data, and a direction of a tap; and buffers of
// ports have the room that was asked for.
use ddcmp_explain::{Form, explain};
use ddcmp_frame::failing::{BoundedSink, Pieces};
use ddcmp_log::{LogNotation, Side};
use ddcmp_ports::{Buffers, Chunk, Machine, Opening, Port, System, Transfer};
use ddcmp_tap::Direction;
use std::process::Abort;

const NO_ITEM: &[u8] = b"items=0 bytes=0 open=0\n";

/// Checks an empty input in a form.
fn writes_no_item(rt: &(impl Abort + AllocGlobal), form: Form, max: u16) {
    assert!(rt; 0 < max && max <= 16383);
    let mut writer = BoundedSink::<64>::new();
    let told = explain(rt.alloc(), &mut Pieces::of(b""), &mut writer, form, max);
    assert!(rt; told.is_ok() && writer.bytes() == NO_ITEM);
}

#[test]
fn nothing_at_every_maximum(rt: HostRuntime) {
    for max in 1..=16383u16 {
        writes_no_item(&rt, Form::Hex, max);
        writes_no_item(&rt, Form::Raw, max);
        writes_no_item(&rt, Form::Dump, max);
    }
}

#[test]
fn directions_of_every_maximum(rt: HostRuntime) {
    for max in 1..=16383u16 {
        assert!(&rt; 0 < max && max <= 16383);
        let made = Direction::new(rt.alloc(), Side::Called, LogNotation::Plain, max);
        assert!(&rt; made.is_ok());
    }
}

/// Ports at which each call moves as many bytes as it can.
#[derive(Drop)]
struct Brisk;

impl System for Brisk {
    ghost use Rattle.std.specs.Prelude.{None, false};

    ghost trace = { λ _ _. None };

    ghost stuck = { λ _ _. record { read = false; write = false; opening = false } };

    ghost moment = { λ _. 0 };

    fn read(&mut self, _port: Port, space: &mut [u8]) -> Transfer {
        Transfer::Bytes(space.len())
    }

    fn write(&mut self, _port: Port, bytes: &[u8]) -> Transfer {
        Transfer::Bytes(bytes.len())
    }

    fn open(&mut self, _port: Port) -> Opening {
        Opening::Done(None)
    }

    fn shut(&mut self, _port: Port) {}

    fn close(&mut self, _port: Port) {}

    fn poll(&mut self) {}

    fn wait<M: Machine>(&mut self, _machine: &M, _held: &Buffers, _most_ms: u64) -> bool {
        true
    }

    fn now(&mut self) -> u64 {
        0
    }
}

/// Returns for how many bytes a new buffer has room.
fn room(rt: &impl Abort, made: &mut Chunk) -> usize {
    assert!(rt; made.is_empty());
    made.read(Port::Input, &mut Brisk).count()
}

#[test]
fn buffers_of_ports(rt: HostRuntime) {
    let Ok(mut made) = Buffers::new(rt.alloc(), 300, 70) else {
        panic!(&rt; "no memory");
    };
    assert!(&rt; room(&rt, &mut made.input) == 300);
    assert!(&rt; room(&rt, &mut made.output) == 1);
    assert!(&rt; room(&rt, &mut made.errors) == 1);
    assert!(&rt; room(&rt, &mut made.first) == 70);
    assert!(&rt; room(&rt, &mut made.second) == 70);
}
