//! What is known of both ends.
ghost use Rattle.std.specs.Prelude.{◌≡◌};
ghost use Rattle.ddcmp_picture.specs.Marks.{seen_at, seen_now, states_in};

use ddcmp_pair::{End, Pair, State};
use ddcmp_proto::Counters;

/// The state of an end, and its counters.
#[derive(Clone, Copy, Drop)]
pub(crate) struct Seen {
    pub(crate) state: State,
    pub(crate) counters: Counters,
}

impl Seen {
    pub(crate) fn of(pair: &Pair, end: End) -> Self
        ensures { result ≡ seen_now end pair.now }
    {
        let station = pair.station(end);
        Seen {
            state: station.state(),
            counters: *station.counters(),
        }
    }
}

/// What is known of both ends.
#[derive(Clone, Copy, Drop)]
pub(crate) struct States {
    pub(crate) a: Seen,
    pub(crate) b: Seen,
}

impl States {
    pub(crate) fn of(pair: &Pair) -> Self
        ensures { result ≡ states_in pair.now }
    {
        States {
            a: Seen::of(pair, End::A),
            b: Seen::of(pair, End::B),
        }
    }

    pub(crate) fn at(&self, end: End) -> &Seen
        ensures { result.now ≡ seen_at end self.now }
    {
        match end {
            End::A => &self.a,
            End::B => &self.b,
        }
    }
}
