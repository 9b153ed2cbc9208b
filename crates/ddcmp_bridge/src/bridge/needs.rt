//! What a bridge needs of its lines, and when.
ghost use Rattle.std.specs.Prelude.{◌≡◌, ◌<◌, None, Some, min, Option};
ghost use Rattle.ddcmp_bridge.specs.Crossing.{later_than, need_to_leave, need_to_open};
ghost use Rattle.ddcmp_bridge.specs.Crossing.{need_to_read, needs_of_first, needs_of_second};

use crate::bridge::{Bridge, Phase};
use crate::direction::Direction;
use crate::line::{BridgeLine, Stage};
use ddcmp_ports::Need;

impl<'a> Bridge<'a> {
    /// Returns what is needed of the first line.
    pub(super) fn needs_of_first(&self) -> Need
        ensures { result ≡ needs_of_first self.now.phase self.now }
    {
        match self.phase {
            Phase::ListenFirst | Phase::OpenFirst => need_to_open(&self.first, self.moment),
            Phase::Joined => need_to_read(&self.first, &self.there),
            Phase::Leaving => need_to_leave(self.first.stage, self.second.stage),
            _ => Need::Nothing,
        }
    }

    /// Returns what is needed of the second line.
    pub(super) fn needs_of_second(&self) -> Need
        ensures { result ≡ needs_of_second self.now.phase self.now }
    {
        match self.phase {
            Phase::ListenSecond | Phase::OpenSecond => need_to_open(&self.second, self.moment),
            Phase::Joined => need_to_read(&self.second, &self.back),
            Phase::Leaving => need_to_leave(self.second.stage, self.first.stage),
            _ => Need::Nothing,
        }
    }

    /// Returns the moment at which a line that is to be opened may be, or the time is over.
    pub(super) fn opens_at(&self, line: &BridgeLine<'a>) -> u64
        ensures { result ≡ min self.now.ends_at
            (later_than self.now.moment (Some line.now.pause.ends_at)) }
    {
        self.ends_at
            .min(later_than(self.moment, Some(line.opens_at())))
    }
}

/// Returns what is needed of a line that is to be opened.
fn need_to_open(line: &BridgeLine<'_>, now: u64) -> Need
    ensures { result ≡ need_to_open line.now now }
{
    if now < line.opens_at() {
        Need::Nothing
    } else {
        Need::Opening
    }
}

/// Returns what is needed of a line whose frames are passed on in this direction.
fn need_to_read(line: &BridgeLine<'_>, way: &Direction) -> Need
    ensures { result ≡ need_to_read line.now way.now }
{
    if line.over.is_none() && way.has_room() && way.countable() > 0 {
        Need::Bytes
    } else {
        Need::Nothing
    }
}

/// Returns what is needed of a line that is being left. Both peers learn of it before one line is
/// closed, which may have to wait for its peer.
fn need_to_leave(stage: Stage, other: Stage) -> Need
    ensures { result ≡ need_to_leave stage other }
{
    match (stage, other) {
        (Stage::Open, _) => Need::Shutting,
        (Stage::Shut, Stage::Open) => Need::Nothing,
        (Stage::Shut, _) => Need::Closing,
        (Stage::Closed, _) => Need::Nothing,
    }
}

/// Returns the moment if it is in the future, and else `u64::MAX`.
pub(super) fn later_than(now: u64, moment: Option<u64>) -> u64
    ensures { result ≡ later_than now moment }
{
    match moment {
        Some(moment) if moment > now => moment,
        Some(_) | None => u64::MAX,
    }
}
