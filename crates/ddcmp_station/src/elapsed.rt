//! The time of the system.
use crate::user::Clock;
use std::io;
use std::time::{self, Instant};

/// The time since it was made, by the system's clock. If the clock fails, the time stops.
#[derive(Drop)]
pub struct Elapsed<'a, C> {
    clock: &'a C,
    start: io::Result<Instant>,
    last: u64,
}

impl<'a, C: time::Clock> Elapsed<'a, C> {
    /// Begins to measure.
    pub fn new(clock: &'a C) -> Self {
        Elapsed {
            clock,
            start: Instant::now(clock),
            last: 0,
        }
    }
}

impl<C: time::Clock> Clock for Elapsed<'_, C> {
    fn now(&mut self) -> u64 {
        if let Ok(start) = &self.start {
            if let Ok(passed) = start.elapsed(self.clock) {
                self.last = u64::try_from(passed.as_millis()).unwrap_or(u64::MAX);
            }
        }
        self.last
    }
}
