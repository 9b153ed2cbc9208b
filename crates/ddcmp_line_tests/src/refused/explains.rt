//! explain with failing allocations.
use crate::same::is;
use ddcmp_explain::{ExplainFault, Form, explain};
use ddcmp_frame::failing::{BoundedSink, Pieces};
use std::alloc::Global;
use std::process::Abort;

fn startup() -> &'static [u8] {
    b"0506c00000017595 9696ff 0507c00000014855"
}

fn startup_text() -> &'static [u8] {
    b"0 STRT sub=0 q=1 s=1 resp=0 num=0 addr=1\n\
    11 STACK sub=0 q=1 s=1 resp=0 num=0 addr=1\n\
    items=2 bytes=19 open=0\n"
}

/// Returns what explain returns and writes.
fn explains(alloc: Global) -> (Result<(), ExplainFault>, BoundedSink<256>) {
    let mut reader = Pieces::of(startup());
    let mut writer = BoundedSink::<256>::new();
    let answer = explain(alloc, &mut reader, &mut writer, Form::Hex, 16383);
    (answer, writer)
}

/// Returns whether an allocation fails in a call: then nothing is written, and else all is.
fn is_refused(rt: &(impl Abort + AllocGlobal)) -> bool {
    let (answer, writer) = explains(rt.alloc());
    if answer == Err(ExplainFault::Memory) {
        assert!(rt; writer.bytes().is_empty());
        return true;
    }
    is(rt, &answer, &Ok(()));
    is(rt, writer.bytes(), startup_text());
    false
}

#[test]
fn refused_memory_is_told(rt: HostRuntime) {
    let _either = is_refused(&rt);
}

#[test]
fn ample_memory_is_enough(rt: HostRuntime) {
    assert!(rt; !is_refused(&rt));
}
