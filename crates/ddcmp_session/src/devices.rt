//! The devices of a session: the input, a line, two outputs, a clock and a wait.
ghost use Rattle.std.specs.Prelude.{◌≡◌, ◌<◌, ◌≤◌, length, Option};

use crate::buffers::Buffers;
use crate::session::Session;
use ddcmp_io::Got;
pub use ddcmp_io::{Down, Transfer, Wanted};

/// The devices that a session runs over. Of these calls only `rest` and `wait` wait, and
/// `close_line` for a moment. A line that was opened is read and written until `close_line`.
pub trait Devices {
    ghost use Rattle.ddcmp_session.specs.Traffic.{Becomes, Traffic, after_line_read};
    ghost use Rattle.ddcmp_session.specs.Traffic.{after_line_written, after_read, after_wait};
    ghost use Rattle.ddcmp_session.specs.Traffic.{after_written, count_read, line_begun};
    ghost use Rattle.std.specs.Prelude.{None};
    ghost use Rattle.ddcmp_io.specs.Transfers.{count_moved};
    ghost use Rattle.ddcmp_session.specs.Devices.{Rests};
    ghost use Rattle.ddcmp_session.specs.Timing.{end, wait_ms};
    ghost use Rattle.std.specs.Prelude.{◌≢◌, Ok, true};

    // The bytes read from them and written to them, if that is known.
    ghost traffic: { Self → Option Traffic };

    /// The reason why a line can't be opened.
    type Refusal: Copy;

    /// Opens a line as far as that is possible without waiting, and reports the peer; returns
    /// whether it is open. A line that is open stays so, and counts as a new one.
    fn open_line(&mut self, session: &mut Session) -> Result<bool, Self::Refusal>
        ensures session { session.new.state ≡ session.old.state }
        ensures log { session.new.log
            ≡ record session.old.log { errors = session.new.log.errors } }
        ensures opened { result ≡ Ok true
            → Becomes (traffic self.old) (traffic self.new) line_begun }
        ensures not_opened { result ≢ Ok true → traffic self.new ≡ traffic self.old };

    /// Reports why a line couldn't be opened, and that it is tried again after this many seconds.
    fn report_retry(&mut self, session: &mut Session, refusal: Self::Refusal, seconds: u64)
        ensures session { session.new.state ≡ session.old.state }
        ensures log { session.new.log
            ≡ record session.old.log { errors = session.new.log.errors } }
        ensures devices { traffic self.new ≡ traffic self.old };

    /// Closes the line, if one is open: the peer is notified at once, and has a moment to close it,
    /// too.
    fn close_line(&mut self)
        ensures { traffic self.new ≡ traffic self.old };

    /// Reads the input into the front of `space`, if it has bytes. A read of 0 bytes is the end of
    /// the input.
    fn read_input(&mut self, space: &mut [u8]) -> Got
        requires space { 0 < length space.old }
        ensures read { Becomes (traffic self.old) (traffic self.new)
            (after_read result space.new) }
        ensures fits { count_read result ≤ length space.new };

    /// Returns whether a read of the line may return bytes.
    fn may_read_line(&self) -> bool;

    /// Reads the line into the front of `space`.
    fn read_line(&mut self, space: &mut [u8]) -> Transfer
        ensures came { Becomes (traffic self.old) (traffic self.new)
            (after_line_read result space.new) }
        ensures fits { count_moved result ≤ length space.new };

    /// Reports what a read of the line has found beside its bytes, if anything.
    fn report_read(&mut self, session: &mut Session)
        ensures session { session.new.state ≡ session.old.state }
        ensures log { session.new.log
            ≡ record session.old.log { errors = session.new.log.errors } }
        ensures devices { traffic self.new ≡ traffic self.old };

    /// Writes bytes from the front of `bytes` to the line, as far as it has room.
    fn write_line(&mut self, bytes: &[u8]) -> Transfer
        ensures gone { Becomes (traffic self.old) (traffic self.new)
            (after_line_written result bytes.now) };

    /// Writes bytes from the front of `bytes` to standard output, as far as it has room.
    fn write_output(&mut self, bytes: &[u8]) -> Transfer
        ensures written { Becomes (traffic self.old) (traffic self.new)
            (after_written result bytes.now) };

    /// Writes bytes from the front of `bytes` to standard error, as far as it has room.
    fn write_errors(&mut self, bytes: &[u8]) -> Transfer
        ensures { traffic self.new ≡ traffic self.old };

    /// Waits until a device is ready that the session wants, at most this many milliseconds. Called
    /// when nothing is left to do without a device. Returns false if the wait failed.
    fn rest(&mut self, session: &Session, buffers: &Buffers, most_ms: u64) -> bool
        requires rests { Rests buffers.now session.now.state }
        requires goes_on { end session.now.state ≡ None }
        requires until { most_ms ≤ wait_ms session.now.state }
        ensures { Becomes (traffic self.old) (traffic self.new) (after_wait result) };

    /// Waits until a device that is wanted is ready, at most this many milliseconds; returns false
    /// if the wait failed. It may report only once that a line can be opened, so `open_line` is
    /// called before the next wait.
    fn wait(&mut self, wanted: Wanted, most_ms: u64) -> bool
        ensures { Becomes (traffic self.old) (traffic self.new) (after_wait result) };

    /// Returns the moment in milliseconds since the session was made.
    fn now(&mut self) -> u64
        ensures { traffic self.new ≡ traffic self.old };

    /// Returns the time of day in milliseconds after 1970, if it is known. Called only if the
    /// session shows it.
    fn time_of_day(&mut self) -> Option<u64>
        ensures { traffic self.new ≡ traffic self.old };
}

/// The reason why a session can't continue over its devices.
#[derive(Clone, Copy, PartialEq, Eq)]
pub enum DeviceFault {
    /// The line has ended or failed.
    Line(Down),
    /// The input failed, or a wait failed.
    Input,
    /// Standard output failed.
    Output,
    /// A time limit was reached: that of the run, or that of a blocked output.
    Time,
}
