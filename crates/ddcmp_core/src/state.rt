//! The states of a station, its pending reply, and its reply timer.
ghost use Rattle.std.specs.Prelude.{◌≡◌};
ghost use Rattle.ddcmp_core.specs.Table.{timer_started, owed_after_take, owed_after_message};

use ddcmp_frame::Nak;

/// The states of a station.
#[derive(Clone, Copy, Debug, PartialEq, Eq)]
pub enum State {
    /// Nothing is sent, and input is ignored.
    Halted,
    /// It asks its peer to start.
    IStart,
    /// It replies to a peer that asks it to start.
    AStart,
    /// Messages are sent and received.
    Running,
    /// Only maintenance messages are sent and received.
    Maintenance,
}

/// The pending reply to the peer.
#[derive(Clone, Copy, Debug, PartialEq, Eq)]
pub enum Owed {
    /// Nothing.
    Quiet,
    /// An ACK, or data that carry it.
    Ack,
    /// A NAK with this reason.
    Nak(Nak),
}

impl Owed {
    /// Returns the pending reply after a message was acknowledged: a NAK carries it too.
    pub(crate) fn after_take(self) -> Owed
        ensures { result ≡ owed_after_take self }
    {
        match self {
            Owed::Quiet | Owed::Ack => Owed::Ack,
            Owed::Nak(_) => self,
        }
    }

    /// Returns the pending reply after a message was received in sequence: no NAK, and an ACK only
    /// if it isn't the user who acknowledges.
    pub(crate) fn after_message(self, by_user: bool) -> Owed
        ensures { result ≡ owed_after_message by_user self }
    {
        if !by_user {
            return Owed::Ack;
        }
        match self {
            Owed::Nak(_) => Owed::Quiet,
            Owed::Quiet | Owed::Ack => self,
        }
    }
}

/// The reply timer. The caller keeps the time.
#[derive(Clone, Copy, Debug, PartialEq, Eq)]
pub enum Timer {
    Off,
    /// It was started, and `take_arm` hasn't reported that yet.
    Fresh,
    On,
}

impl Timer {
    /// Returns the timer after a frame that needs a reply was sent: it continues, or is started.
    pub(crate) fn started(self) -> Timer
        ensures { result ≡ timer_started self }
    {
        match self {
            Timer::Off => Timer::Fresh,
            Timer::Fresh | Timer::On => self,
        }
    }
}
