//! `FromRead` and `ToWrite` report the faults of std and no others, with one call for each of
//! theirs.
use crate::frames::calls::{is, read};
use ddcmp_frame::{FromRead, Got, Sink, Source, ToWrite, Worst};
use std::io::{self, ErrorKind, Read, Write};
use std::process::Abort;

/// The kinds of error of a read for which there is nothing yet.
const IDLE: [ErrorKind; 3] = [
    ErrorKind::WouldBlock,
    ErrorKind::TimedOut,
    ErrorKind::Interrupted,
];
/// All other kinds.
const FAILURES: [ErrorKind; 39] = [
    ErrorKind::NotFound,
    ErrorKind::PermissionDenied,
    ErrorKind::ConnectionRefused,
    ErrorKind::ConnectionReset,
    ErrorKind::HostUnreachable,
    ErrorKind::NetworkUnreachable,
    ErrorKind::ConnectionAborted,
    ErrorKind::NotConnected,
    ErrorKind::AddrInUse,
    ErrorKind::AddrNotAvailable,
    ErrorKind::NetworkDown,
    ErrorKind::BrokenPipe,
    ErrorKind::AlreadyExists,
    ErrorKind::NotADirectory,
    ErrorKind::IsADirectory,
    ErrorKind::DirectoryNotEmpty,
    ErrorKind::ReadOnlyFilesystem,
    ErrorKind::FilesystemLoop,
    ErrorKind::StaleNetworkFileHandle,
    ErrorKind::InvalidInput,
    ErrorKind::InvalidData,
    ErrorKind::WriteZero,
    ErrorKind::StorageFull,
    ErrorKind::NotSeekable,
    ErrorKind::QuotaExceeded,
    ErrorKind::FileTooLarge,
    ErrorKind::ResourceBusy,
    ErrorKind::ExecutableFileBusy,
    ErrorKind::Deadlock,
    ErrorKind::CrossesDevices,
    ErrorKind::TooManyLinks,
    ErrorKind::InvalidFilename,
    ErrorKind::ArgumentListTooLong,
    ErrorKind::Unsupported,
    ErrorKind::UnexpectedEof,
    ErrorKind::OutOfMemory,
    ErrorKind::InProgress,
    ErrorKind::Other,
    ErrorKind::Uncategorized,
];

/// A reader of sevens and a writer: each call moves at most this many bytes, or fails with an error
/// of this kind, and is counted.
#[derive(Drop)]
struct Counting {
    answer: Result<usize, ErrorKind>,
    calls: u32,
}

impl Counting {
    fn new(answer: Result<usize, ErrorKind>) -> Self {
        Counting { answer, calls: 0 }
    }
}

impl Read for Counting {
    fn read(&mut self, buf: &mut [u8]) -> io::Result<usize> {
        self.calls = self.calls.saturating_add(1);
        match self.answer {
            Ok(most) => {
                let n = most.min(buf.len());
                buf[..n].fill(7);
                Ok(n)
            }
            Err(kind) => Err(io::Error::from(kind)),
        }
    }
}

impl Write for Counting {
    fn write(&mut self, buf: &[u8]) -> io::Result<usize> {
        self.calls = self.calls.saturating_add(1);
        match self.answer {
            Ok(most) => Ok(most.min(buf.len())),
            Err(kind) => Err(io::Error::from(kind)),
        }
    }

    fn flush(&mut self) -> io::Result<()> {
        Ok(())
    }
}

/// Returns the result of one read into this buffer, and how often the reader was called; there was
/// no fault before.
fn read_once(
    rt: &impl Abort,
    answer: Result<usize, ErrorKind>,
    buf: &mut [u8],
) -> (Got, Worst, u32) {
    let mut reader = Counting::new(answer);
    let mut source = FromRead::new(&mut reader);
    is(rt, source.worst(), Worst::Fine);
    let (got, worst) = read(rt, &mut source, buf);
    (got, worst, reader.calls)
}

/// Checks one read into this buffer.
fn reads(
    rt: &impl Abort,
    answer: Result<usize, ErrorKind>,
    buf: &mut [u8],
    got: Got,
    worst: Worst,
) {
    is(rt, read_once(rt, answer, buf), (got, worst, 1));
}

#[test]
fn reads_tell_their_kind(rt: HostRuntime) {
    for kind in IDLE {
        reads(&rt, Err(kind), &mut [0; 4], Got::Idle, Worst::Idle);
    }
    for kind in FAILURES {
        reads(&rt, Err(kind), &mut [0; 4], Got::Failed, Worst::Failed);
    }
}

/// No bytes are the end, at any size of the buffer.
#[test]
fn reads_tell_how_much_came(rt: HostRuntime) {
    for (most, room, n) in [
        (1, 4, 1),
        (9, 0, 0),
        (9, 1, 1),
        (65536, 4096, 4096),
        (65536, 65536, 65536),
        (4095, 65536, 4095),
        (0, 1, 0),
        (0, 65536, 0),
    ] {
        reads_into(&rt, most, room, n);
    }
}

fn is_all(bytes: Option<&[u8]>, wanted: u8) -> bool {
    match bytes {
        Some(bytes) => bytes.iter().all(|byte| *byte == wanted),
        None => false,
    }
}

/// Returns whether a buffer has this many sevens, and zeros after them.
fn is_filled(buf: &[u8], n: usize) -> bool {
    is_all(buf.get(..n), 7) && is_all(buf.get(n..), 0)
}

/// Checks that a read into a buffer of this size fills this much of it.
fn reads_into(rt: &impl Abort, most: usize, room: usize, n: usize) {
    let mut buf = [0; 65536];
    match buf.get_mut(..room) {
        Some(front) => reads(rt, Ok(most), front, Got::Bytes(n), Worst::Fine),
        None => panic!(rt; "no room"),
    }
    assert!(rt; is_filled(&buf, n));
}

/// A reader that returns these in order: a byte, an interruption, a byte, a failure.
#[derive(Drop)]
struct InTurn(u8);

impl Read for InTurn {
    fn read(&mut self, buf: &mut [u8]) -> io::Result<usize> {
        self.0 = self.0.saturating_add(1);
        match self.0 {
            2 => Err(io::Error::from(ErrorKind::Interrupted)),
            4 => Err(io::Error::from(ErrorKind::BrokenPipe)),
            _ => {
                if buf.is_empty() {
                    return Ok(0);
                }
                buf[0] = self.0;
                Ok(1)
            }
        }
    }
}

#[test]
fn the_worst_answer_stays(rt: HostRuntime) {
    let mut source = in_turn();
    let rows = [
        (Got::Bytes(1), Worst::Fine),
        (Got::Idle, Worst::Idle),
        (Got::Bytes(1), Worst::Idle),
        (Got::Failed, Worst::Failed),
    ];
    for (got, worst) in rows {
        is(&rt, read(&rt, &mut source, &mut [0; 4]), (got, worst));
    }
}

fn in_turn() -> FromRead<InTurn> {
    FromRead::new(InTurn(0))
}

/// Returns the result of one write of these bytes, whether the sink has then failed, and how often
/// the writer was called; there was no fault before.
fn write_once(
    rt: &impl Abort,
    answer: Result<usize, ErrorKind>,
    bytes: &[u8],
) -> (Option<usize>, bool, u32) {
    let mut sink = ToWrite::new(Counting::new(answer));
    assert!(rt; !bytes.is_empty());
    assert!(rt; !sink.failed());
    let taken = sink.write(bytes);
    let failed = sink.failed();
    (taken, failed, sink.into_inner().calls)
}

/// Checks one write of these bytes.
fn writes(rt: &impl Abort, answer: Result<usize, ErrorKind>, bytes: &[u8], taken: Option<usize>) {
    is(
        rt,
        write_once(rt, answer, bytes),
        (taken, taken.is_none(), 1),
    );
}

#[test]
fn writes_tell_what_was_taken(rt: HostRuntime) {
    for (most, len, taken) in [
        (2, 3, Some(2)),
        (9, 3, Some(3)),
        (0, 3, None),
        (0, 1, None),
        (1, 1, Some(1)),
        (65536, 4096, Some(4096)),
        (65536, 65536, Some(65536)),
        (4095, 65536, Some(4095)),
        (0, 65536, None),
    ] {
        writes_of(&rt, most, len, taken);
    }
}

fn writes_of(rt: &impl Abort, most: usize, len: usize, taken: Option<usize>) {
    let bytes = [7; 65536];
    assert!(rt; len <= bytes.len());
    writes(rt, Ok(most), &bytes[..len], taken);
}

/// No fault of a write is ignored.
#[test]
fn failed_writes_are_told(rt: HostRuntime) {
    for kind in FAILURES {
        writes(&rt, Err(kind), b"abc", None);
    }
    for kind in IDLE {
        writes(&rt, Err(kind), b"abc", None);
    }
}
