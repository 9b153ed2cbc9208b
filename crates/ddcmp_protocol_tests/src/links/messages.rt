//! Messages of an input, in lines, in binary, and with commands among them, pushed in chunks and
//! byte by byte.
use ddcmp_input::{Entry, HexLines, Lengths, PushedEntry, Records};
use std::process::Abort;

/// A call, with its argument and its expected result.
#[derive(Clone, Copy)]
enum Row {
    /// A chunk, how many of its bytes are used, and what they complete.
    Chunk(&'static [u8], usize, Option<Entry>),
    Byte(u8, Option<Entry>),
    Message(&'static [u8]),
    Command(&'static [u8]),
    Number(u64),
    Unfinished(bool),
}

fn lines(rt: &(impl Abort + AllocGlobal)) -> HexLines {
    match HexLines::new(rt.alloc(), 3) {
        Ok(lines) => lines,
        Err(_refused) => panic!(rt; "no memory"),
    }
}

fn lengths(rt: &(impl Abort + AllocGlobal)) -> Lengths {
    match Lengths::new(rt.alloc(), 3) {
        Ok(lengths) => lengths,
        Err(_refused) => panic!(rt; "no memory"),
    }
}

/// Returns whether lines do what the row expects.
fn is_line(lines: &mut HexLines, row: Row) -> bool {
    match row {
        Row::Chunk(piece, used, entry) => lines.push_all(piece) == PushedEntry { used, entry },
        Row::Byte(byte, entry) => lines.push(byte) == entry,
        Row::Message(message) => lines.message() == message,
        Row::Number(number) => lines.number() == number,
        Row::Command(_) | Row::Unfinished(_) => false,
    }
}

/// Returns whether messages after their lengths do what the row expects.
fn is_binary(lengths: &mut Lengths, row: Row) -> bool {
    match row {
        Row::Chunk(piece, used, entry) => lengths.push_all(piece) == PushedEntry { used, entry },
        Row::Byte(byte, entry) => lengths.push(byte) == entry,
        Row::Message(message) => lengths.message() == message,
        Row::Unfinished(is_unfinished) => lengths.is_unfinished() == is_unfinished,
        Row::Command(_) | Row::Number(_) => false,
    }
}

/// Returns whether messages with commands among them do what the row expects.
fn is_record(records: &mut Records, row: Row) -> bool {
    match row {
        Row::Chunk(piece, used, entry) => records.push_all(piece) == PushedEntry { used, entry },
        Row::Byte(byte, entry) => records.push(byte) == entry,
        Row::Message(message) => records.message() == message,
        Row::Command(command) => records.command() == command,
        Row::Unfinished(is_unfinished) => records.is_unfinished() == is_unfinished,
        Row::Number(_) => false,
    }
}

/// Checks that each row is as expected.
fn plays(rt: &impl Abort, lines: &mut HexLines, rows: &[Row]) {
    for (i, row) in rows.iter().enumerate() {
        assert!(rt; is_line(lines, *row), "row {i}");
    }
}

/// Checks what one line completes.
fn completes(rt: &(impl Abort + AllocGlobal), line: &'static [u8], entry: Option<Entry>) {
    let mut lines = lines(rt);
    let row = Row::Chunk(line, line.len(), entry);
    assert!(rt; is_line(&mut lines, row));
}

/// Lines, and what each completes.
const LINES: &[(&[u8], Option<Entry>)] = &[
    (b"00fF7a\n", Some(Entry::Message)),
    (b"00fF7a01\n", Some(Entry::TooLong)),
    (b"00f\n", Some(Entry::NotHexadecimal)),
    (b"0g\n", Some(Entry::NotHexadecimal)),
    (b"\n", None),
    (b"00fF7a", None),
    (b"00fF7a\r\n", Some(Entry::Message)),
    (b"00f\r\n", Some(Entry::NotHexadecimal)),
    (b"\r\n", None),
    (b"00\rfF\n", Some(Entry::NotHexadecimal)),
    (b"\r00\n", Some(Entry::NotHexadecimal)),
    (b"00\r\r\n", Some(Entry::NotHexadecimal)),
];

fn each_line() -> &'static [(&'static [u8], Option<Entry>)] {
    LINES
}

const CR: &[Row] = &[
    Row::Chunk(b"6162\r", 5, None),
    Row::Byte(b'\n', Some(Entry::Message)),
    Row::Message(b"ab"),
    Row::Chunk(b"63\r\n", 4, Some(Entry::Message)),
    Row::Message(b"c"),
    Row::Number(2),
];

const COUNTED: &[Row] = &[
    Row::Chunk(b"\n616263\nx\n62", 8, Some(Entry::Message)),
    Row::Message(b"abc"),
    Row::Number(2),
    Row::Chunk(b"x\n62", 2, Some(Entry::NotHexadecimal)),
    Row::Number(3),
    Row::Chunk(b"62", 2, None),
    Row::Byte(b'\n', Some(Entry::Message)),
    Row::Message(b"b"),
];

const BINARY: &[Row] = &[
    Row::Chunk(b"\x00\x03abc\x00\x00", 5, Some(Entry::Message)),
    Row::Message(b"abc"),
    Row::Chunk(b"\x00\x00", 2, Some(Entry::Empty)),
    Row::Unfinished(false),
    Row::Chunk(b"\x00\x04abcd\x00\x01z", 2, Some(Entry::TooLong)),
    Row::Unfinished(false),
    Row::Chunk(b"abcd\x00\x01z", 7, Some(Entry::Message)),
    Row::Message(b"z"),
    Row::Chunk(b"\x00", 1, None),
    Row::Unfinished(true),
    Row::Chunk(b"\x03", 1, None),
    Row::Unfinished(true),
    Row::Chunk(b"ab", 2, None),
    Row::Unfinished(true),
];

const RECORDS: &[Row] = &[
    Row::Chunk(b"\x80\x05ready\x00\x01a", 7, Some(Entry::Command)),
    Row::Command(b"ready"),
    Row::Chunk(b"\x00\x03\x80\xff\x80\x80\x00", 5, Some(Entry::Message)),
    Row::Message(b"\x80\xff\x80"),
    Row::Command(b"ready"),
    Row::Chunk(b"\x80\x00\x80\x01x", 2, Some(Entry::Command)),
    Row::Command(b""),
    Row::Chunk(b"\x80\x100123456789abcdef", 18, Some(Entry::Command)),
    Row::Command(b"0123456789abcdef"),
    Row::Chunk(b"\x80\x110", 2, Some(Entry::TooLong)),
    Row::Unfinished(false),
    Row::Chunk(b"0123456789abcdefg\x00\x01z", 20, Some(Entry::Message)),
    Row::Message(b"z"),
    Row::Byte(b'\x80', None),
    Row::Unfinished(true),
    Row::Byte(b'\x02', None),
    Row::Byte(b'a', None),
    Row::Unfinished(true),
    Row::Byte(b'b', Some(Entry::Command)),
    Row::Unfinished(false),
    Row::Chunk(b"\x7f\xff", 2, Some(Entry::TooLong)),
    Row::Chunk(b"\x00", 1, None),
    Row::Unfinished(false),
];

fn with_cr() -> &'static [Row] {
    CR
}

fn counted() -> &'static [Row] {
    COUNTED
}

fn binary() -> &'static [Row] {
    BINARY
}

fn with_commands() -> &'static [Row] {
    RECORDS
}

#[test]
fn lines_of_digits(rt: HostRuntime) {
    for (line, entry) in each_line() {
        completes(&rt, *line, *entry);
    }
}

#[test]
fn lines_that_end_with_cr(rt: HostRuntime) {
    let mut lines = lines(&rt);
    plays(&rt, &mut lines, with_cr());
}

#[test]
fn lines_are_counted(rt: HostRuntime) {
    let mut lines = lines(&rt);
    plays(&rt, &mut lines, counted());
}

#[test]
fn messages_after_lengths(rt: HostRuntime) {
    let mut lengths = lengths(&rt);
    for (i, row) in binary().iter().enumerate() {
        assert!(rt; is_binary(&mut lengths, *row), "row {i}");
    }
}

#[test]
fn messages_with_commands(rt: HostRuntime) {
    let mut records = match Records::new(rt.alloc(), 3) {
        Ok(records) => records,
        Err(_refused) => panic!(rt; "no memory"),
    };
    for (i, row) in with_commands().iter().enumerate() {
        assert!(rt; is_record(&mut records, *row), "row {i}");
    }
}
