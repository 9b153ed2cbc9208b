//! A pair, and the values of it that are printed.
use ddcmp_pair::{Config, End, Event, Memory, Pair, Recovered, Reply, Settled, Station};
use std::alloc::Global;

/// The maximum length of a message at any end.
pub const LONGEST: usize = 16383;

/// A pair for events. The contracts of its calls state more than is needed here, so each call has a
/// function of its own that promises nothing.
pub struct Table {
    pair: Pair,
}

// Manual, since a derived `Drop` would be expanded wherever a value is dropped.
impl Drop for Table {
    fn drop(self) {
        let Table { pair: _pair } = self;
    }
}

impl Table {
    pub fn new(alloc: Global, first: Config, second: Config) -> Option<Table> {
        match Pair::new(alloc, first, second) {
            Ok(pair) => Some(Table { pair }),
            Err(_refusal) => None,
        }
    }

    pub fn step(&mut self, event: Event) -> Result<Reply, Memory> {
        self.pair.step(event)
    }

    pub fn settle(&mut self) -> Result<Settled, Memory> {
        self.pair.settle()
    }

    pub fn round(&mut self) -> Result<Settled, Memory> {
        self.pair.round()
    }

    pub fn recover(&mut self) -> Result<Recovered, Memory> {
        self.pair.recover()
    }

    pub fn station(&self, end: End) -> &Station {
        self.pair.station(end)
    }

    pub fn honest(&self) -> bool {
        self.pair.honest()
    }

    pub fn clean(&self) -> bool {
        self.pair.clean()
    }

    pub fn ready(&self) -> bool {
        self.pair.ready()
    }

    pub fn done(&self) -> bool {
        self.pair.done()
    }

    pub fn acknowledged(&self, end: End) -> u64 {
        self.pair.acknowledged(end)
    }

    /// Returns message `i` of those that an end accepted, if there is one.
    pub fn given_at(&self, end: End, i: usize) -> Option<&[u8]> {
        if i < self.pair.given(end) {
            Some(self.pair.given_at(end, i))
        } else {
            None
        }
    }

    /// Copies message `i` of those delivered at an end to `out`, if there is one.
    pub fn handed_up_at<'a>(
        &self,
        end: End,
        i: usize,
        out: &'a mut [u8; LONGEST],
    ) -> Option<&'a [u8]> {
        if i >= self.pair.handed_up(end) || usize::from(self.pair.config(end).max) > LONGEST {
            return None;
        }
        let length = self.pair.handed_up_at(end, i, out);
        out.get(..length)
    }
}
