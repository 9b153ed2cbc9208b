//! Devices, a wait and a clock.
ghost use Rattle.std.specs.Prelude.{◌≡◌, ◌≤◌, ◌<◌, ◌-◌, ℕ, Option, None, length};
ghost use Rattle.ddcmp_ports.specs.declared.port.Port.{Port as PortValue};
ghost use Rattle.ddcmp_ports.specs.Moving.{count_moved};

use crate::buffers::Buffers;
use crate::machine::Machine;
use crate::port::{Opening, Port, Transfer};

/// Ports that can be opened, read, written and closed. Of these calls only `wait` waits.
pub trait System {
    ghost use Rattle.std.specs.Prelude.{true};
    ghost use Rattle.ddcmp_ports.specs.Running.{Changes, Keeps, Passage, Sticks, Stuck, Rests};
    ghost use Rattle.ddcmp_ports.specs.Running.{after_opening, after_read, after_written};
    ghost use Rattle.ddcmp_ports.specs.Running.{is_later, moves_nothing};
    ghost use Rattle.ddcmp_ports.specs.Holding.{held_of};

    // what is known of each port
    ghost trace: { Self → PortValue → Option Passage };

    // whether the last call at a port could do nothing
    ghost stuck: { Self → PortValue → Stuck };

    // the moment that was returned last
    ghost moment: { Self → ℕ };

    /// Reads into the front of `space`, without waiting.
    fn read(&mut self, port: Port, space: &mut [u8]) -> Transfer
        requires space { 0 < length space.old }
        ensures trace { Changes port (after_read result space.new)
            (trace self.old) (trace self.new) }
        ensures fits { count_moved result ≤ length space.new }
        ensures stuck { Sticks port (λ s. record s { read = moves_nothing result })
            (stuck self.old) (stuck self.new) }
        ensures moment { moment self.new ≡ moment self.old };

    /// Writes bytes from the front of `bytes`, without waiting.
    fn write(&mut self, port: Port, bytes: &[u8]) -> Transfer
        requires some { 0 < length bytes.now }
        ensures trace { Changes port (after_written result bytes.now)
            (trace self.old) (trace self.new) }
        ensures fits { count_moved result ≤ length bytes.now }
        ensures stuck { Sticks port (λ s. record s { write = moves_nothing result })
            (stuck self.old) (stuck self.new) }
        ensures moment { moment self.new ≡ moment self.old };

    /// Opens a port as far as that is possible without waiting.
    fn open(&mut self, port: Port) -> Opening
        ensures trace { Changes port (after_opening result) (trace self.old) (trace self.new) }
        ensures stuck { Sticks port (λ s. record s { opening = is_later result })
            (stuck self.old) (stuck self.new) }
        ensures moment { moment self.new ≡ moment self.old };

    /// Has the peer at a port learn that no more bytes will be written.
    fn shut(&mut self, port: Port)
        ensures trace { Keeps (trace self.old) (trace self.new) }
        ensures stuck { Sticks port (λ s. s) (stuck self.old) (stuck self.new) }
        ensures moment { moment self.new ≡ moment self.old };

    /// Closes a port.
    fn close(&mut self, port: Port)
        ensures trace { Keeps (trace self.old) (trace self.new) }
        ensures stuck { Sticks port (λ s. s) (stuck self.old) (stuck self.new) }
        ensures moment { moment self.new ≡ moment self.old };

    /// Asks, without waiting, which ports may be read or written again.
    fn poll(&mut self)
        ensures { Keeps (trace self.old) (trace self.new) };

    /// Waits until something that the machine needs is possible, at most this many milliseconds;
    /// returns false if the wait failed.
    fn wait<M: Machine>(&mut self, machine: &M, held: &Buffers, most_ms: u64) -> bool
        requires rests { Rests (M.needs machine.now) (M.pending machine.now) (held_of held.now)
            (stuck self.old) }
        requires goes_on { M.outcome machine.now ≡ None }
        requires settled { M.settled machine.now }
        requires told { M.moment machine.now ≡ moment self.old }
        requires until { most_ms ≡ M.wakes_at machine.now - moment self.old }
        ensures { Keeps (trace self.old) (trace self.new) };

    /// Returns the moment in milliseconds.
    fn now(&mut self) -> u64
        ensures trace { Keeps (trace self.old) (trace self.new) }
        ensures moment { result ≡ moment self.new };
}
