//! The frames of the published layouts, and one call of each function. How they are read and
//! written is tried by `tests/test_tables.py` and in `worked`, and stated by
//! `ddcmp_laws::vectors`.
use crate::frames::calls::{counts, data as lent_by, is, push, reader_of, reset};
use ddcmp_frame::{
    ControlType, Counted, Flags, Header, HeaderFault, Item, Nak as Reason, Reader, ReaderRefusal,
    Short,
};
use std::alloc::Global;
use std::process::Abort;
use std::test::Fail;

const NO_FLAGS: Flags = Flags { q: false, s: false };

const ABC_1: [u8; 13] = [
    0x81, 0x03, 0x00, 0x00, 0x01, 0x01, 0x9A, 0x41, 0x61, 0x62, 0x63, 0x38, 0x97,
];

/// The frames of the published layouts: STRT, STACK, ACKs, NAKs, REPs, data and maintenance.
const FRAMES: [&[u8]; 17] = [
    b"\x05\x06\xC0\x00\x00\x01\x75\x95",
    b"\x05\x07\xC0\x00\x00\x01\x48\x55",
    b"\x05\x01\x00\x00\x00\x01\xFC\x55",
    b"\x05\x01\x00\x01\x00\x01\xAD\x95",
    b"\x05\x01\x00\x02\x00\x01\x5D\x95",
    b"\x05\x02\x01\x00\x00\x01\xB9\xA9",
    b"\x05\x02\x02\x00\x00\x01\xB9\xED",
    b"\x05\x02\x03\x00\x00\x01\xB8\x11",
    b"\x05\x02\x08\x01\x00\x01\xEB\xF5",
    b"\x05\x02\x10\x00\x00\x01\xBC\x95",
    b"\x05\x03\x00\x00\x01\x01\x84\x05",
    b"\x05\x03\x00\x00\x02\x01\x84\xF5",
    &ABC_1,
    b"\x81\x03\x00\x00\x02\x01\x9A\xB1abc\x38\x97",
    b"\x81\x01\x00\x00\x01\x01\xE3\x81a\xC1\xE8",
    b"\x81\x01\x00\x00\x02\x01\xE3\x71b\x81\xE9",
    b"\x90\x03\xC0\x00\x00\x01\xA4\x90abc\x38\x97",
];

pub(crate) fn frames() -> &'static [&'static [u8]] {
    &FRAMES
}

fn parsed(bytes: &[u8; 8]) -> Result<Header, HeaderFault> {
    Header::parse(bytes)
}

fn is_fault(rt: &impl Abort, bytes: [u8; 8], fault: HeaderFault) {
    is(rt, parsed(&bytes), Err(fault));
}

#[test]
fn faults_of_headers(rt: HostRuntime) {
    let count_zero = [0x81, 0x00, 0x00, 0x00, 0x01, 0x01, 0xDE, 0x41];
    is_fault(&rt, count_zero, HeaderFault::CountZero);
    let type_4 = [0x05, 0x04, 0x00, 0x00, 0x00, 0x01, 0x30, 0x55];
    is_fault(&rt, type_4, HeaderFault::BadType(4));
    let check = [0x05, 0x01, 0x00, 0x00, 0x00, 0x01, 0xFC, 0x54];
    is_fault(&rt, check, HeaderFault::Check);
    let fill = [0x96, 0x01, 0x00, 0x00, 0x00, 0x01, 0xFC, 0x55];
    is_fault(&rt, fill, HeaderFault::NotAStart);
}

fn short(kind: ControlType, sub: u8, flags: Flags, resp: u8, addr: u8) -> Option<Short> {
    Short::new(kind, sub, flags, resp, 0, addr)
}

fn counted(count: u16) -> Option<Counted> {
    Counted::new(count, NO_FLAGS, 0, 0, 1)
}

#[test]
fn fields_of_headers(rt: HostRuntime) {
    let flags = Flags { q: true, s: false };
    let bytes = [0x05, 0x01, 0x40, 0x05, 0x00, 0x07, 0x79, 0x96];
    let ack = short(ControlType::Ack, 0, flags, 5, 7);
    assert!(rt; ack.is_some());
    is(&rt, parsed(&bytes).ok(), ack.map(Header::Control));
    is(&rt, short(ControlType::Nak, 64, NO_FLAGS, 0, 1), None);
    is(&rt, counted(0), None);
    is(&rt, counted(16384), None);
}

fn reason_of(sub: u8) -> Reason {
    Reason::of(sub)
}

fn sub_of(reason: Reason) -> u8 {
    reason.sub()
}

#[test]
fn reasons_of_naks(rt: HostRuntime) {
    let reasons = [
        (1, Reason::HeaderCheck),
        (2, Reason::DataCheck),
        (3, Reason::ReplyToRep),
        (8, Reason::NoBuffer),
        (9, Reason::Overrun),
        (16, Reason::TooLong),
        (17, Reason::Format),
        (4, Reason::Other(4)),
    ];
    for (sub, reason) in reasons {
        is(&rt, reason_of(sub), reason);
        is(&rt, sub_of(reason), sub);
    }
}

/// Checks how many bytes are open and buffered.
fn has_open(rt: &impl Abort, reader: &Reader, open: usize, kept: usize) {
    let (is_open, is_kept, _offset) = counts(reader);
    is(rt, (is_open, is_kept), (open, kept));
}

fn has_offset(rt: &impl Abort, reader: &Reader, offset: u64) {
    let (_open, _kept, is_at) = counts(reader);
    is(rt, is_at, offset);
}

/// Checks a byte that completes nothing: one more is open and buffered, and there are no data.
fn opens(rt: &impl Abort, reader: &mut Reader, byte: u8, open: usize) {
    is(rt, push(rt, reader, byte), None);
    has_open(rt, reader, open, open);
    is(rt, lent_by(reader), b"".as_slice());
}

/// A data frame byte by byte: no item before its last byte, and its data until the next byte.
#[test]
fn one_frame_byte_by_byte(rt: HostRuntime) -> Result<(), Fail> {
    let mut reader = reader_of(rt.alloc(), 16383)?;
    for (done, byte) in ABC_1[..12].iter().enumerate() {
        opens(&rt, &mut reader, *byte, done + 1);
    }
    ends_with(&rt, &mut reader)?;
    opens(&rt, &mut reader, 0x96, 0);
    reset(&mut reader);
    has_offset(&rt, &reader, 0);
    has_open(&rt, &reader, 0, 0);
    Ok(())
}

/// Checks its last byte.
fn ends_with(rt: &impl Abort, reader: &mut Reader) -> Result<(), Fail> {
    let fields = Counted::new(3, NO_FLAGS, 0, 1, 1).ok_or("no header")?;
    let good = Item::Good(0, Header::Data(fields));
    is(rt, push(rt, reader, ABC_1[12]), Some(good));
    is(rt, lent_by(reader), b"abc".as_slice());
    has_open(rt, reader, 0, 0);
    has_offset(rt, reader, 13);
    Ok(())
}

/// Returns why there can't be a reader with this maximum, or how many bytes are open in a new one.
fn made(alloc: Global, max: u16) -> Result<(usize, u64), ReaderRefusal> {
    match Reader::new(alloc, max) {
        Ok(reader) => Ok((reader.open(), reader.offset())),
        Err(refusal) => Err(refusal),
    }
}

/// Returns whether an allocation fails for a reader.
fn is_refused(rt: &(impl Abort + AllocGlobal)) -> bool {
    let alloc = rt.alloc();
    is(rt, made(alloc, 0), Err(ReaderRefusal::MaxZero));
    is(rt, made(alloc, 16384), Err(ReaderRefusal::MaxAbove16383));
    match made(alloc, 1) {
        Ok(counts) => {
            is(rt, counts, (0, 0));
            false
        }
        Err(refusal) => {
            is(rt, refusal, ReaderRefusal::Memory);
            true
        }
    }
}

/// Run with one allocation after another failing, until the next test passes too.
#[test]
fn refused_memory(rt: HostRuntime) {
    let _either = is_refused(&rt);
}

#[test]
fn ample_memory(rt: HostRuntime) {
    assert!(rt; !is_refused(&rt));
}

/// There is a reader for every maximum in range.
#[test]
fn readers_of_every_size(rt: HostRuntime) {
    for max in 1..=16383u16 {
        is(&rt, made(rt.alloc(), max), Ok((0, 0)));
    }
}
