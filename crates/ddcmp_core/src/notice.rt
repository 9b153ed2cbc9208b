//! The notices of a station to its user.

/// A notice for the user.
#[derive(Clone, Copy, Debug, PartialEq, Eq)]
pub enum Notice {
    /// Both ends have started.
    Running,
    /// Both ends have started; the message by which this end knows is in the inbox.
    RunningAndHandedUp,
    /// The peer acknowledged this many more messages.
    Acknowledged(u8),
    /// A message is in the inbox.
    HandedUp,
    /// A message is in the inbox, and the peer acknowledged this many more messages.
    HandedUpAndAcknowledged(u8),
    /// The peer asks this end, which isn't starting, to start.
    PeerStarts,
    /// The peer restarted, so this end halted.
    PeerRestarted,
    /// The peer restarted, and so did this end. It dropped this many messages.
    Restarted(u8),
    /// A maintenance message was received in a state that accepts none.
    MaintenanceSeen,
    /// A maintenance message is in the inbox.
    MaintenanceHandedUp,
    /// There was no room for a maintenance message.
    MaintenanceDropped,
}
