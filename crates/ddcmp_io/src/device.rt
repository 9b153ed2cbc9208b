//! Sources and sinks of bytes.
ghost use Rattle.std.specs.Prelude.{◌≡◌, ◌≢◌, ◌<◌, length, false, true, is_none, List, ℕ, Option};
ghost use Rattle.std.specs.Prelude.{Bool, is_err};
ghost use Rattle.ddcmp_io.specs.Device.{got_of_error as got_of_error_kind};
ghost use Rattle.ddcmp_io.specs.Written.{Writes};

use std::io::{ErrorKind, Read, Write};

/// The result of one read.
#[derive(Clone, Copy, Debug, PartialEq, Eq)]
pub enum Got {
    /// This many bytes were put into the front of the buffer; 0 is the end.
    Bytes(usize),
    /// There is nothing to read yet.
    Idle,
    /// The read failed.
    Failed,
}

/// The worst status that a source has returned since it was made.
#[derive(Clone, Copy, Debug, PartialEq, Eq)]
pub enum Worst {
    Fine,
    Idle,
    Failed,
}

/// A device that bytes are read from. If the bytes are known, contracts see them.
pub trait Source {
    ghost use Rattle.std.specs.Prelude.{[], ◌∷◌, None};
    ghost use Rattle.ddcmp_io.specs.declared.device.Got.{Got as GotValue};
    ghost use Rattle.ddcmp_io.specs.declared.device.Worst.{Worst as WorstValue};
    ghost use Rattle.ddcmp_io.specs.declared.device.Worst.TheVariants.{Failed};
    ghost use Rattle.ddcmp_io.specs.Device.{ReadGives, worse, Logs};

    // The bytes that reads will return, if known.
    ghost left: { Self → Option (List ℕ) };

    // The worst status so far.
    ghost state: { Self → WorstValue };

    // The results of its reads, if known.
    ghost answers: { Self → Option (List GotValue) } = { λ _. None };

    /// Reads into the front of `buf`.
    fn read(&mut self, buf: &mut [u8]) -> Got
        requires { state self.old ≢ Failed }
        ensures bytes { ReadGives (left self.old) (left self.new) result buf.new }
        ensures worst { state self.new ≡ worse (state self.old) result }
        ensures answers { Logs (answers self.old) (answers self.new) (result ∷ []) };

    /// Returns the worst status so far.
    fn worst(&self) -> Worst
        ensures { result ≡ state self.now };
}

/// A device that bytes are written to. If the bytes that it holds are known, contracts see them.
pub trait Sink {
    ghost use Rattle.ddcmp_io.specs.Device.{WriteTakes};

    // The bytes that the sink holds, if known.
    ghost contents: { Self → Option (List ℕ) };

    // Whether a write has failed.
    ghost broken: { Self → Bool };

    /// Writes bytes from the front of `bytes`, at least one if there is one, and returns how many;
    /// None is a failed write.
    fn write(&mut self, bytes: &[u8]) -> Option<usize>
        requires whole { broken self.old ≡ false }
        requires some { 0 < length bytes.now }
        ensures bytes { WriteTakes (contents self.old) (contents self.new) result bytes.now }
        ensures broken { broken self.new ≡ is_none result };

    /// Returns whether a write has failed.
    fn failed(&self) -> bool
        ensures { result ≡ broken self.now };
}

/// A write to a sink failed.
#[derive(Clone, Copy)]
pub struct WriteFailed;

/// Writes all of some bytes to a sink.
pub fn write_all<W: Sink>(writer: &mut W, bytes: &[u8]) -> Result<(), WriteFailed>
    requires { W.broken writer.old ≡ false }
    ensures written { Writes (W.contents writer.old) (W.contents writer.new) result bytes.now }
    ensures broken { W.broken writer.new ≡ is_err result }
{
    let mut at = 0;
    while at < bytes.len() {
        match writer.write(&bytes[at..]) {
            Some(n) => at += n,
            None => return Err(WriteFailed),
        }
    }
    Ok(())
}

/// Why a line can't be used any further.
#[derive(Clone, Copy, Debug, PartialEq, Eq)]
pub enum LineFault {
    /// A read failed.
    Read,
    /// A write failed. It isn't known how much of the last frame was written.
    Write,
    /// A read returned no bytes: the line ended.
    Ended,
    /// An allocation failed, before anything was done.
    Memory,
}

/// Any `Read` as a source. A read that would block, times out or is interrupted is idle; every
/// other error is a failure.
#[derive(Drop)]
pub struct FromRead<R> {
    inner: R,
    worst: Worst,
}

impl<R> FromRead<R> {
    ghost use Rattle.ddcmp_io.specs.Device.{reader_of, worst_of};

    /// Makes a source that reads `inner`.
    pub fn new(inner: R) -> Self
        ensures reader { reader_of result ≡ inner }
        ensures worst { worst_of result ≡ Worst.Fine }
    {
        FromRead {
            inner,
            worst: Worst::Fine,
        }
    }
}

/// Returns the result of a read with an error of this kind: idle, or a failure.
fn got_of_error(kind: ErrorKind) -> Got
    ensures { result ≡ got_of_error_kind kind }
{
    match kind {
        ErrorKind::WouldBlock | ErrorKind::TimedOut | ErrorKind::Interrupted => Got::Idle,
        _ => Got::Failed,
    }
}

impl<R: Read> Source for FromRead<R> {
    ghost left = { λ s. R.remaining s.inner };

    ghost state = { λ s. s.worst };

    fn read(&mut self, buf: &mut [u8]) -> Got {
        let got = match self.inner.read(buf) {
            Ok(n) => Got::Bytes(n),
            Err(e) => got_of_error(e.kind()),
        };
        self.worst = match got {
            Got::Bytes(_) => self.worst,
            Got::Idle if self.worst == Worst::Fine => Worst::Idle,
            Got::Idle => self.worst,
            Got::Failed => Worst::Failed,
        };
        got
    }

    fn worst(&self) -> Worst {
        self.worst
    }
}

/// Any `Write` as a sink. An error, or a write that takes no byte, is a failure.
#[derive(Drop)]
pub struct ToWrite<W> {
    inner: W,
    failed: bool,
}

impl<W> ToWrite<W> {
    ghost use Rattle.ddcmp_io.specs.Device.{writer_of, has_failed};

    /// Makes a sink that writes to `inner`.
    pub fn new(inner: W) -> Self
        ensures writer { writer_of result ≡ inner }
        ensures failed { has_failed result ≡ false }
    {
        ToWrite {
            inner,
            failed: false,
        }
    }

    /// Returns the writer, with all that was written.
    pub fn into_inner(self) -> W
        ensures { result ≡ writer_of self }
    {
        self.inner
    }
}

impl<W: Write> Sink for ToWrite<W> {
    ghost contents = { λ s. W.contents s.inner };

    ghost broken = { λ s. s.failed };

    fn write(&mut self, bytes: &[u8]) -> Option<usize> {
        match self.inner.write(bytes) {
            Ok(0) | Err(_) => {
                self.failed = true;
                None
            }
            Ok(n) => Some(n),
        }
    }

    fn failed(&self) -> bool {
        self.failed
    }
}
