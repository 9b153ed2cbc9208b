// For how many bytes a direction of a tap has room. What it forwards and logs is tried by
// `tests/test_tap.py`.
ghost use Rattle.std.specs.Prelude.{◌<◌, length};

use ddcmp_log::LogNotation;
use ddcmp_ports::{Machine, Need, Port};
use ddcmp_tap::{LogTimes, ROOM, Tap, TapLog};
use std::process::Abort;

fn tap(rt: &(impl Abort + AllocGlobal)) -> Tap {
    let log = TapLog {
        notation: LogNotation::Plain,
        times: LogTimes::Absent,
        began: 0,
        report: 0,
        max: 16383,
    };
    match Tap::new(rt.alloc(), log) {
        Ok(made) => made,
        Err(_refused) => panic!(rt; "no memory"),
    }
}

/// Has a tap receive bytes of the caller, of which it takes so many.
fn comes(rt: &impl Abort, tap: &mut Tap, bytes: &[u8], used: usize)
    requires { 0 < length bytes.now }
{
    assert!(rt; has_room(tap));
    if let Need::Bytes = tap.needs(Port::First) {
        assert!(rt; tap.give(Port::First, bytes) == used);
    }
}

fn has_room(tap: &Tap) -> bool {
    matches!(tap.needs(Port::First), Need::Bytes)
}

/// Forwards this many bytes, after which so many are queued.
fn forwards(rt: &impl Abort, tap: &mut Tap, n: usize, left: usize) {
    assert!(rt; n <= tap.pending(Port::Second).len());
    tap.took(Port::Second, n);
    assert!(rt; tap.pending(Port::Second).len() == left);
}

#[test]
fn room_until_all_is_written(rt: HostRuntime) {
    let mut made = tap(&rt);
    comes(&rt, &mut made, &[0; ROOM - 1], ROOM - 1);
    comes(&rt, &mut made, &[0; 2], 1);
    assert!(&rt; !has_room(&made));
    forwards(&rt, &mut made, ROOM - 1, 1);
    assert!(&rt; !has_room(&made));
    forwards(&rt, &mut made, 1, 0);
    assert!(&rt; has_room(&made));
}
