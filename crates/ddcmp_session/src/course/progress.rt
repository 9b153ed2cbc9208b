//! The progress of a link.
ghost use Rattle.std.specs.Prelude.{◌≡◌};
ghost use Rattle.ddcmp_session.specs.Course.{goes_on, is_at, progress_of, step_of};

use ddcmp_station::{Link, State};

/// The progress of a link.
#[derive(Clone, Copy)]
pub(crate) struct Progress {
    /// How far the startup handshake is.
    pub(crate) step: u8,
    /// How many messages were acknowledged.
    pub(crate) acknowledged: u64,
    /// How many messages were received.
    pub(crate) received: u32,
}

/// Returns how far the startup handshake is.
fn step_of(state: State) -> u8
    ensures { result ≡ step_of state }
{
    match state {
        State::Halted => 0,
        State::IStart => 1,
        State::AStart => 2,
        State::Running => 3,
        State::Maintenance => 4,
    }
}

/// Returns the progress of a link.
pub(super) fn progress_of(link: &Link) -> Progress
    ensures { result ≡ progress_of link.now }
{
    Progress {
        step: step_of(link.state()),
        acknowledged: link.totals().acknowledged,
        received: link.counters().messages_up,
    }
}

/// Returns whether there was no progress since.
pub(super) fn is_at(progress: Progress, before: Option<Progress>) -> bool
    ensures { result ≡ is_at progress before }
{
    match before {
        None => false,
        Some(before) => {
            progress.step == before.step
                && progress.acknowledged == before.acknowledged
                && progress.received == before.received
        }
    }
}

/// Returns whether the handshake made a step since, or a message was received; true at first.
pub(super) fn goes_on(progress: Progress, before: Option<Progress>) -> bool
    ensures { result ≡ goes_on progress before }
{
    match before {
        None => true,
        Some(before) => { !(progress.step == before.step && progress.received == before.received) }
    }
}
