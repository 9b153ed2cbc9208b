//! Each fault has its text, including those that the program reports with another's text.
use ddcmp_explain::{ExplainFault, NotDumped};
use ddcmp_io::cause::words_of;
use ddcmp_ports::{Attempt, Cause, OpenFault};
use ddcmp_tap::{CarrierFault, Stage, TapFault};
use std::fmt::Display;
use std::io::ErrorKind;
use std::process::Abort;
use std::test::Fail;

/// Checks the text of a fault.
fn reads<T: Display>(rt: &(impl Abort + AllocGlobal), fault: &T, text: &str) -> Result<(), Fail> {
    let told = fault.to_string(rt.alloc())?;
    assert!(rt; told.as_str() == text);
    Ok(())
}

#[test]
fn explain(rt: HostRuntime) -> Result<(), Fail> {
    let rows = [
        (ExplainFault::Odd, "odd number of digits"),
        (
            ExplainFault::NotHex(u64::MAX),
            "not hexadecimal at 18446744073709551615",
        ),
        (ExplainFault::NotHex(0), "not hexadecimal at 0"),
        (
            ExplainFault::Line(NotDumped::NotALine(1_000_001)),
            "line 1000001: not a line of a dump",
        ),
        (
            ExplainFault::Line(NotDumped::Star(2)),
            "line 2: repeated lines left out (*): dump with -v",
        ),
        (ExplainFault::Read, "read"),
        (ExplainFault::Write, "write"),
        (ExplainFault::Memory, "memory"),
    ];
    for (fault, text) in rows {
        reads(&rt, &fault, text)?;
    }
    Ok(())
}

/// Returns a fault of the carrier of a tap.
fn at(stage: Stage, cause: Option<ErrorKind>) -> TapFault {
    TapFault::Carrier(CarrierFault { stage, cause })
}

#[test]
fn taps(rt: HostRuntime) -> Result<(), Fail> {
    let (in_use, refused) = (ErrorKind::AddrInUse, ErrorKind::ConnectionRefused);
    let denied = ErrorKind::PermissionDenied;
    let rows = [
        (at(Stage::Listen, Some(in_use)), "listen: address in use"),
        (
            at(Stage::Connect, Some(refused)),
            "connect: connection refused",
        ),
        (at(Stage::Connect, None), "connect: no such host"),
        (at(Stage::Wait, Some(denied)), "epoll: permission denied"),
        (TapFault::Read, "read"),
        (TapFault::Write, "write"),
        (TapFault::Report, "write"),
        (TapFault::Memory, "memory"),
    ];
    for (fault, text) in rows {
        reads(&rt, &fault, text)?;
    }
    Ok(())
}

#[test]
fn files(rt: HostRuntime) {
    let rows = [
        (ErrorKind::NotFound, "no such file"),
        (ErrorKind::PermissionDenied, "permission denied"),
        (ErrorKind::NotADirectory, "not a directory"),
        (ErrorKind::FilesystemLoop, "links in a circle"),
        (ErrorKind::InvalidFilename, "name too long"),
        (ErrorKind::Other, "it can't be opened"),
    ];
    for (kind, text) in rows {
        assert!(&rt; words_of(kind) == text);
    }
}

/// Checks the report of a failed attempt at a line with the name `it`.
fn tells(
    rt: &(impl Abort + AllocGlobal),
    attempt: Attempt,
    cause: Cause,
    text: &str,
) -> Result<(), Fail> {
    let name = "it";
    let fault = OpenFault {
        attempt,
        name,
        cause,
    };
    reads(rt, &fault, text)
}

/// Attempts that the system refuses.
const REFUSED: [(Attempt, ErrorKind, &str); 13] = [
    (Attempt::Open, ErrorKind::NotFound, "open it: no such file"),
    (
        Attempt::Open,
        ErrorKind::PermissionDenied,
        "open it: permission denied",
    ),
    (
        Attempt::Connect,
        ErrorKind::ConnectionRefused,
        "connect it: connection refused",
    ),
    (
        Attempt::Connect,
        ErrorKind::ConnectionReset,
        "connect it: connection reset",
    ),
    (
        Attempt::Connect,
        ErrorKind::HostUnreachable,
        "connect it: host unreachable",
    ),
    (
        Attempt::Connect,
        ErrorKind::NetworkUnreachable,
        "connect it: network unreachable",
    ),
    (
        Attempt::Listen,
        ErrorKind::AddrInUse,
        "listen it: address in use",
    ),
    (
        Attempt::Listen,
        ErrorKind::AddrNotAvailable,
        "listen it: address not available",
    ),
    (
        Attempt::Connect,
        ErrorKind::TimedOut,
        "connect it: timed out",
    ),
    (
        Attempt::Listen,
        ErrorKind::InvalidInput,
        "listen it: not an address",
    ),
    (
        Attempt::Open,
        ErrorKind::OutOfMemory,
        "open it: out of memory",
    ),
    (
        Attempt::Open,
        ErrorKind::BrokenPipe,
        "open it: it can't be opened",
    ),
    (
        Attempt::Open,
        ErrorKind::IsADirectory,
        "open it: is a directory",
    ),
];

#[test]
fn lines(rt: HostRuntime) -> Result<(), Fail> {
    for (attempt, kind, text) in REFUSED {
        tells(&rt, attempt, Cause::System(kind), text)?;
    }
    let rows = [
        (
            Attempt::Connect,
            Cause::UnknownHost,
            "connect it: no such host",
        ),
        (
            Attempt::Open,
            Cause::OtherFamily,
            "open it: not of the other address's family",
        ),
        (
            Attempt::Open,
            Cause::NotDevice,
            "open it: not a character device",
        ),
        (Attempt::Open, Cause::InUse, "open it: already in use"),
    ];
    for (attempt, cause, text) in rows {
        tells(&rt, attempt, cause, text)?;
    }
    Ok(())
}
