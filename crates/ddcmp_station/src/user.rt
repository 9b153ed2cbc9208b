//! The clock and the user of a driven station.
ghost use Rattle.std.specs.Prelude.{◌≤◌, length};

use ddcmp_proto::Notice;

/// The clock of a driven station.
pub trait Clock {
    ghost use Rattle.std.specs.Prelude.{ℕ, List, [], ◌∷◌, Option, None};
    ghost use Rattle.std.specs.Io.KnownBytes.{Appends};

    // The moments that it has returned, if they are known.
    ghost told: { Self → Option (List ℕ) } = { λ _. None };

    /// The time in milliseconds.
    fn now(&mut self) -> u64
        ensures { Appends (told self.old) (told self.new) (result ∷ []) };
}

/// The user of a driven station.
pub trait User {
    ghost use Rattle.std.specs.Prelude.{◌≤◌, length, take};
    ghost use Rattle.ddcmp_station.specs.UserCalls.{UserCall, Asked, Told, Handed};

    // Its state after a call, if that is known.
    ghost becomes: { Self → UserCall → Self → Type 0 } = { λ _ _ _. Unit {0} };

    /// Writes a message to be sent at the front of `out`; returns its length, 0 for none.
    fn message(&mut self, out: &mut [u8]) -> usize
        ensures within { result ≤ length out.new }
        ensures asked { becomes self.old (Asked (length out.new) (take result out.new)) self.new };

    /// Handles a notice.
    fn notice(&mut self, notice: Notice)
        ensures { becomes self.old (Told notice) self.new };

    /// Handles a received message.
    fn mail(&mut self, message: &[u8])
        ensures { becomes self.old (Handed message.now) self.new };
}
