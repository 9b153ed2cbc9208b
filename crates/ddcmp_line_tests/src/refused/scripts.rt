//! A script with failing allocations. What scripts write, over good devices and bad ones, is tested
//! in `worked`.
use crate::same::is;
use ddcmp_frame::failing::{BoundedSink, Pieces};
use ddcmp_line::{Config, Direct, Pair, ScriptFault, script};
use std::alloc::Global;
use std::process::Abort;

/// Returns a startup handshake, and one message that is acknowledged.
fn lines() -> &'static [u8] {
    b"start A\nstart B\npoll A\npass A\npoll B\npass B\npoll A\npass A\n\
    send A 616263\npoll A\npass A\ntake B\npoll B\npass B\n"
}

/// Returns what it writes.
fn text() -> &'static [u8] {
    b"A started dropped=0\nB started dropped=0\n\
    A wrote 0506c00000017595\nA passed 8\n\
    B wrote 0507c00000014855\nB passed 8\nA notice Running\n\
    A wrote 050100000001fc55\nA passed 8\nB notice Running\n\
    A accepted 1\nA wrote 8103000001019a416162633897\nA passed 13\nB notice HandedUp\n\
    B took 616263\nB wrote 050100010001ad95\nB passed 8\nA notice Acknowledged 1\n\
    honest yes clean yes up A=0 B=1 acked A=1 B=0\n"
}

const DEFAULT: Config = Config {
    window: 7,
    inbox: 8,
    max: 1500,
    syn: 0,
    restart: false,
};

/// The result of a script.
#[derive(Drop)]
struct ScriptOutcome {
    answer: Result<(), ScriptFault>,
    writer: BoundedSink<512>,
}

/// Runs the script, with a pair that was made.
fn plays(alloc: Global, pair: &mut Pair) -> ScriptOutcome {
    let mut reader = Pieces::of(lines());
    let mut writer = BoundedSink::<512>::new();
    let answer = script(alloc, pair, &mut reader, &mut writer, &mut Direct);
    ScriptOutcome { answer, writer }
}

fn pair_of(alloc: Global) -> Option<Pair> {
    Pair::new(alloc, DEFAULT, DEFAULT).ok()
}

fn premises(pair: &Pair) -> (bool, bool) {
    (pair.honest(), pair.clean())
}

/// Returns whether a text is a prefix of the whole, and not all of it.
fn is_beginning(text: &[u8], whole: &[u8]) -> bool {
    text.len() < whole.len() && whole.get(..text.len()) == Some(text)
}

/// Returns whether an allocation fails in a script that has its pair: then a prefix of its text is
/// written without the last line, and else all of it.
fn is_refused_then(rt: &(impl Abort + AllocGlobal), pair: &mut Pair) -> bool {
    let told = plays(rt.alloc(), pair);
    is(rt, premises(pair), (true, true));
    if told.answer == Err(ScriptFault::Memory) {
        assert!(rt; is_beginning(told.writer.bytes(), text()));
        return true;
    }
    is(rt, &told.answer, &Ok(()));
    is(rt, told.writer.bytes(), text());
    false
}

/// Returns whether an allocation fails in a script, or for its pair.
fn is_refused(rt: &(impl Abort + AllocGlobal)) -> bool {
    match pair_of(rt.alloc()) {
        Some(mut pair) => is_refused_then(rt, &mut pair),
        None => true,
    }
}

#[test]
fn refused_memory_stops_a_script(rt: HostRuntime) {
    let _either = is_refused(&rt);
}

#[test]
fn ample_memory_plays_a_script(rt: HostRuntime) {
    assert!(rt; !is_refused(&rt));
}
