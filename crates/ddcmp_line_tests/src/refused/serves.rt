//! A served station with failing allocations, whose writes take a byte each.
use crate::same::is;
use ddcmp_frame::failing::{BoundedSink, Pieces};
use ddcmp_net::{ServeFault, serve};
use ddcmp_station::{Clock, LineFault};
use std::alloc::Global;
use std::process::Abort;

/// A clock that doesn't advance.
#[derive(Drop)]
struct Standing;

impl Clock for Standing {
    fn now(&mut self) -> u64 {
        0
    }
}

const STRT: &[u8] = &[0x05, 0x06, 0xC0, 0x00, 0x00, 0x01, 0x75, 0x95];

/// STACK, and then data message 1, `abc`.
fn stack_and_data() -> &'static [u8] {
    &[
        0x05, 0x07, 0xC0, 0x00, 0x00, 0x01, 0x48, 0x55, 0x81, 0x03, 0x00, 0x00, 0x01, 0x01, 0x9A,
        0x41, 0x61, 0x62, 0x63, 0x38, 0x97,
    ]
}

fn reported() -> &'static [u8] {
    b"notice Running\nnotice HandedUp\nmail 616263\nturns=1 state=Running read=21 written=8\n"
}

/// The result of a call.
#[derive(Drop)]
struct ServeOutcome {
    answer: Result<(), ServeFault>,
    writer: BoundedSink<256>,
    report: BoundedSink<256>,
}

fn serves(alloc: Global) -> ServeOutcome {
    let mut reader = Pieces::of(stack_and_data());
    let mut writer = BoundedSink::<256>::new().at_most(1);
    let mut report = BoundedSink::<256>::new().at_most(1);
    let answer = serve(
        alloc,
        &mut reader,
        &mut writer,
        &mut report,
        &mut Standing,
        b"",
        1,
        1000,
        false,
        false,
    );
    ServeOutcome {
        answer,
        writer,
        report,
    }
}

/// Returns whether this is the result of a failed allocation.
fn is_want(answer: &Result<(), ServeFault>) -> bool {
    *answer == Err(ServeFault::Config) || *answer == Err(ServeFault::Line(LineFault::Memory))
}

/// Returns whether an allocation fails in a call: then nothing is read, written or reported, and
/// else all is.
fn is_refused(rt: &(impl Abort + AllocGlobal)) -> bool {
    let told = serves(rt.alloc());
    if is_want(&told.answer) {
        assert!(rt; told.report.bytes().is_empty() && told.writer.bytes().is_empty());
        return true;
    }
    is(rt, &told.answer, &Ok(()));
    is(rt, told.report.bytes(), reported());
    assert!(rt; told.writer.bytes() == STRT);
    false
}

#[test]
fn refused_memory_serves_nothing(rt: HostRuntime) {
    let _either = is_refused(&rt);
}

#[test]
fn ample_memory_serves(rt: HostRuntime) {
    assert!(rt; !is_refused(&rt));
}
