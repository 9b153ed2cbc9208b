// The time that is passed to a station, a tap and a link, over a clock of the test's own.
use crate::same::is;
use ddcmp_station::{Clock, Elapsed};
use std::cell::Cell;
use std::io::{self, ErrorKind};
use std::process::Abort;
use std::time::{self, Duration};

/// A clock that returns what it is set to, and fails if it is set to nothing.
#[derive(Drop)]
struct SetClock {
    at: Cell<Option<Duration>>,
}

impl time::Clock for SetClock {
    fn monotonic(&self) -> io::Result<Duration> {
        match self.at.get() {
            Some(at) => Ok(at),
            None => Err(io::Error::from(ErrorKind::Other)),
        }
    }

    fn since_1970(&self) -> io::Result<Duration> {
        self.monotonic()
    }
}

/// Returns a clock that is set to seven seconds.
fn clock_at_seven() -> SetClock {
    SetClock {
        at: Cell::new(Some(Duration::from_secs(7))),
    }
}

/// Checks how many milliseconds are returned, this long after the clock was set to seven seconds.
fn tells(
    rt: &impl Abort,
    clock: &SetClock,
    elapsed: &mut Elapsed<'_, SetClock>,
    nanoseconds: u64,
    milliseconds: u64,
) {
    let seven = Duration::from_secs(7);
    let at = seven.checked_add(Duration::from_nanos(nanoseconds));
    clock.at.set(at);
    is(rt, elapsed.now(), milliseconds);
}

/// Milliseconds are whole, and count from when the value was made.
#[test]
fn milliseconds_since_the_making(rt: HostRuntime) {
    let clock = clock_at_seven();
    let mut elapsed = Elapsed::new(&clock);
    tells(&rt, &clock, &mut elapsed, 0, 0);
    tells(&rt, &clock, &mut elapsed, 999_999, 0);
    tells(&rt, &clock, &mut elapsed, 1_000_000, 1);
    tells(&rt, &clock, &mut elapsed, 31_000_000, 31);
    tells(&rt, &clock, &mut elapsed, 500_000_000, 500);
    tells(&rt, &clock, &mut elapsed, 999_999_999, 999);
    tells(&rt, &clock, &mut elapsed, 1_000_000_000, 1000);
    tells(&rt, &clock, &mut elapsed, 86_400_123_456_789, 86_400_123);
}

/// If the clock fails the time doesn't advance, and continues with the clock.
#[test]
fn a_clock_that_fails(rt: HostRuntime) {
    let clock = clock_at_seven();
    let mut elapsed = Elapsed::new(&clock);
    tells(&rt, &clock, &mut elapsed, 31_000_000, 31);
    clock.at.set(None);
    is(&rt, elapsed.now(), 31);
    tells(&rt, &clock, &mut elapsed, 32_000_000, 32);
}

/// If it failed when the value was made, no time passes.
#[test]
fn a_clock_that_failed_at_first(rt: HostRuntime) {
    let clock = SetClock {
        at: Cell::new(None),
    };
    let mut elapsed = Elapsed::new(&clock);
    tells(&rt, &clock, &mut elapsed, 31_000_000, 0);
}
