//! A standard stream, written without blocking.
ghost use Rattle.std.specs.Prelude.{◌≡◌, ◌≤◌, length, take};
ghost use Rattle.ddcmp_io.specs.Transfers.{count_moved};
ghost use Rattle.ddcmp_device.specs.StandardStreams.{at_once};

use crate::line::moved_by;
use crate::poller::Descriptor;
use ddcmp_io::Transfer;
use std::fs::{self, File, Files, OpenOptions};
use std::io::{Eprint, IsTerminal, Write};
use std::os::fd::AsRawFd;
use std::os::unix::fs::FileTypeExt;

/// The maximum size of a write that might block for lack of room: a pipe or a socket that is ready
/// has room for it.
const SMALL: usize = 4096;

/// Standard output or standard error, by what it is.
#[derive(Drop)]
pub enum StandardStream {
    /// A pipe or a terminal, opened again so that writes to it don't block. Processes that share
    /// the old descriptor see no change.
    Again(File),
    /// A file, which is always ready.
    File,
    /// A socket, or something that can't be opened again.
    Other,
}

impl StandardStream {
    /// Returns the stream of this name, such as /dev/stdout.
    pub fn new<F: Files<File = File>>(files: &F, name: &str) -> StandardStream {
        let Ok(metadata) = fs::metadata(files, name) else {
            return StandardStream::Other;
        };
        let kind = metadata.file_type();
        if kind.is_file() {
            return StandardStream::File;
        }
        if kind.is_fifo() || kind.is_char_device() {
            match open_again(files, name) {
                Some(file) if kind.is_fifo() || file.is_terminal() => {
                    return StandardStream::Again(file);
                }
                _ => {}
            }
        }
        StandardStream::Other
    }

    /// Writes bytes if the stream was opened again; else returns none, and its owner writes.
    pub fn write(&mut self, bytes: &[u8]) -> Option<Transfer> {
        match self {
            StandardStream::Again(file) => Some(moved_by(file.write(bytes))),
            StandardStream::File | StandardStream::Other => None,
        }
    }

    /// Returns those of these bytes that its owner writes in one call.
    pub fn piece<'b>(&self, bytes: &'b [u8]) -> &'b [u8]
        ensures piece { result.now ≡ at_once self.now bytes.now }
        ensures most { length result.now ≤ length bytes.now }
    {
        match self {
            StandardStream::File => bytes,
            StandardStream::Again(_) | StandardStream::Other => front(bytes),
        }
    }
}

/// Returns a prefix of some bytes, so short that writing it doesn't block.
fn front(bytes: &[u8]) -> &[u8]
    ensures front { result.now ≡ take 4096 bytes.now }
    ensures most { length result.now ≤ length bytes.now }
{
    &bytes[..SMALL.min(bytes.len())]
}

/// Writes bytes to standard error, if it is ready. What its owner has to write counts as written
/// even if that fails.
pub fn write_errors<E: Eprint>(
    system: &E,
    stream: &mut StandardStream,
    there: &mut Descriptor,
    bytes: &[u8],
) -> Transfer
    ensures { count_moved result ≤ length bytes.now }
{
    if !there.ready.to_write {
        return Transfer::Nothing;
    }
    match stream.write(bytes) {
        Some(Transfer::Bytes(n)) => Transfer::Bytes(n.min(bytes.len())),
        Some(Transfer::Interrupted) => Transfer::Interrupted,
        Some(Transfer::Nothing) => {
            there.has_written();
            Transfer::Nothing
        }
        // The stream's owner gets the error.
        Some(Transfer::Ended(_)) | None => {
            there.has_written();
            let piece = stream.piece(bytes);
            if let Ok(text) = str::from_utf8(piece) {
                let _ = system.eprint(text);
            }
            Transfer::Bytes(piece.len())
        }
    }
}

/// Opens a pipe or a terminal for nonblocking writes. Opening a pipe would block if it had no
/// reader any more; so it is opened for reading too meanwhile.
fn open_again<F: Files<File = File>>(files: &F, name: &str) -> Option<File> {
    let mut opening = OpenOptions::new();
    let _reader = opening.read(true).write(true).open(files, name).ok()?;
    let file = opening.read(false).open(files, name).ok()?;
    if os::set_nonblocking(file.as_raw_fd(), true) < 0 {
        return None;
    }
    Some(file)
}
