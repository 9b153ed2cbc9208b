//! The texts of the system's errors.
ghost use Rattle.std.specs.Prelude.{◌≡◌};
ghost use Rattle.ddcmp_io.specs.Causes.{cause_words, failure_words};

use std::io::ErrorKind;

/// Returns the text of an error of opening a file, a device or a connection.
pub fn words_of(kind: ErrorKind) -> &'static str
    ensures { result.now ≡ cause_words kind }
{
    match kind {
        ErrorKind::NotFound => "no such file",
        ErrorKind::PermissionDenied => "permission denied",
        ErrorKind::IsADirectory => "is a directory",
        ErrorKind::NotADirectory => "not a directory",
        ErrorKind::FilesystemLoop => "links in a circle",
        ErrorKind::InvalidFilename => "name too long",
        ErrorKind::ConnectionRefused => "connection refused",
        ErrorKind::ConnectionReset => "connection reset",
        ErrorKind::HostUnreachable => "host unreachable",
        ErrorKind::NetworkUnreachable => "network unreachable",
        ErrorKind::AddrInUse => "address in use",
        ErrorKind::AddrNotAvailable => "address not available",
        ErrorKind::TimedOut => "timed out",
        ErrorKind::InvalidInput => "not an address",
        ErrorKind::OutOfMemory => "out of memory",
        _ => "it can't be opened",
    }
}

/// Returns the text of an error of reading or writing an open line.
pub fn failure_words_of(kind: ErrorKind) -> &'static str
    ensures { result.now ≡ failure_words kind }
{
    match kind {
        ErrorKind::BrokenPipe => "broken pipe",
        ErrorKind::ConnectionRefused
        | ErrorKind::ConnectionReset
        | ErrorKind::HostUnreachable
        | ErrorKind::NetworkUnreachable
        | ErrorKind::TimedOut
        | ErrorKind::OutOfMemory => words_of(kind),
        // A device that is gone has an error code of its own.
        _ => "input or output error",
    }
}
