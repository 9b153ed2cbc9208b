//! What decides.
ghost use Rattle.std.specs.Prelude.{◌≡◌, ◌≢◌, ◌≤◌, ◌<◌, ℕ, Option, List, None, Some, [], false};
ghost use Rattle.std.specs.Prelude.{length, take};
ghost use Rattle.ddcmp_ports.specs.declared.port.Port.{Port as PortValue};
ghost use Rattle.ddcmp_ports.specs.declared.port.Need.{Need as NeedValue};
ghost use Rattle.ddcmp_ports.specs.declared.port.Down.{Down as DownValue};
ghost use Rattle.ddcmp_ports.specs.Running.{Adds, Event, Gave, IsAwaited, Left, Passed};
ghost use Rattle.ddcmp_ports.specs.Running.{Rested, Shut, Stopped, Told, Took};

use crate::port::{Need, News, Port};

/// A value without I/O and clock: it is given bytes, news and moments by port, and has bytes
/// pending by port.
pub trait Machine {
    /// What it was asked for.
    type Asked;

    /// How it ended.
    type Outcome;

    // no call changes it
    ghost asked: { Self → Self.Asked };

    // whether this may be its history, latest event first
    ghost has: { Self → List Event → Type 0 };

    ghost needs: { Self → PortValue → NeedValue };

    ghost pending: { Self → PortValue → List ℕ };

    // nothing is left to be moved inside it
    ghost settled: { Self → Type 0 };

    // the moment that was passed last
    ghost moment: { Self → ℕ };

    ghost wakes_at: { Self → ℕ };

    ghost outcome: { Self → Option Self.Outcome };

    /// Returns what it needs of this port now.
    fn needs(&self, port: Port) -> Need
        ensures { result ≡ needs self.now port };

    /// Uses bytes from the front of `bytes`; returns how many.
    fn give(&mut self, port: Port, bytes: &[u8]) -> usize
        requires needed { needs self.old port ≡ Need.Bytes }
        requires some { 0 < length bytes.now }
        ensures fits { result ≤ length bytes.now }
        ensures used { needs self.new port ≡ Need.Bytes → 0 < result }
        ensures has { Adds has asked self.old (Gave port (take result bytes.now)) self.new };

    /// Returns the bytes to be written to this port.
    fn pending(&self, port: Port) -> &[u8]
        ensures { result.now ≡ pending self.now port };

    /// Notes that the first `n` of them were written.
    fn took(&mut self, port: Port, n: usize)
        requires { n ≤ length (pending self.old port) }
        ensures { Adds has asked self.old (Took port (take n (pending self.old port))) self.new };

    /// Notes what has become of this port.
    fn told(&mut self, port: Port, what: News)
        requires awaited { IsAwaited (needs self.old port) what }
        ensures has { Adds has asked self.old (Told port what) self.new }
        ensures broken { (why : DownValue) → what ≡ News.Broken why → pending self.new port ≡ [] };

    /// Notes that the peer at this port learns that no more bytes will be written.
    fn was_shut(&mut self, port: Port)
        requires needed { needs self.old port ≡ Need.Shutting }
        ensures { Adds has asked self.old (Shut port) self.new };

    /// Notes that this port was closed.
    fn was_closed(&mut self, port: Port)
        requires needed { needs self.old port ≡ Need.Closing }
        ensures { Adds has asked self.old (Left port) self.new };

    /// Passes the time.
    fn pass_time(&mut self, now: u64)
        ensures has { Adds has asked self.old (Passed now) self.new }
        ensures moment { moment self.new ≡ now }
        ensures settled { settled self.new };

    /// Notes that nothing can move now; returns whether that changes anything.
    fn rests(&mut self) -> bool
        ensures has { Adds has asked self.old Rested self.new }
        ensures same { result ≡ false → self.new ≡ self.old };

    /// Returns the next moment at which it has something to do.
    fn wakes_at(&self) -> u64
        ensures { result ≡ wakes_at self.now };

    /// Returns how it ended, if it has.
    fn outcome(&self) -> Option<Self::Outcome>
        ensures { result ≡ outcome self.now };

    /// Ends it, as the system can't go on.
    fn stop(&mut self) -> Self::Outcome
        ensures outcome { outcome self.new ≡ Some result }
        ensures has { Adds has asked self.old Stopped self.new };
}
