//! Vectors from the published description of the CRC, and one call of each function of `ddcmp_num`.
use ddcmp_num::{Check, Seq, check, check_bytes};

const KNOWN: [(&[u8], u16); 8] = [
    (b"123456789", 0xBB3D),
    (b"abc", 0x9738),
    (b"", 0),
    (&[0x01], 0xC0C1),
    (&[0x80], 0xA001),
    (&[0xFF], 0x4040),
    (b"a", 0xE8C1),
    (b"b", 0xE981),
];

/// Returns the CRC of a text.
fn whole(text: &[u8]) -> u16 {
    check(text)
}

/// Returns the same, byte by byte.
fn bytewise(text: &[u8]) -> u16 {
    let mut running = Check::new();
    for byte in text {
        running.push(*byte);
    }
    running.value()
}

/// Returns the same, in two chunks.
fn in_two(front: &[u8], back: &[u8]) -> u16 {
    let mut running = Check::new();
    running.push_all(front);
    running.push_all(back);
    running.value()
}

#[test]
fn known_checks(rt: HostRuntime) {
    for (text, want) in KNOWN {
        assert!(rt; whole(text) == want && bytewise(text) == want);
    }
    assert!(rt; check_bytes(0x9738) == [0x38, 0x97]);
}

#[test]
fn pieces_have_the_check_of_the_whole(rt: HostRuntime) {
    let text = b"Sixteen bytes go by eights, and the last few alone.";
    let wanted = whole(text);
    assert!(rt; bytewise(text) == wanted);
    for end in 0..text.len() {
        let (front, back) = text.split_at(end);
        assert!(rt; in_two(front, back) == wanted);
    }
}

#[test]
fn numbers_wrap(rt: HostRuntime) {
    assert!(rt; Seq(255).next() == Seq(0));
    assert!(rt; Seq::distance(Seq(250), Seq(3)) == 9);
    assert!(rt; Seq::distance(Seq(3), Seq(250)) == 247);
    assert!(rt; Seq::within(Seq(250), Seq(3), Seq(4)));
    assert!(rt; !Seq::within(Seq(250), Seq(5), Seq(4)));
}
