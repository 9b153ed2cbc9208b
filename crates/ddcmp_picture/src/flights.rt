//! The frames in flight between two ends.
ghost use Rattle.std.specs.Prelude.{◌≡◌, ◌++◌, ◌∷◌, [], drop, length, IsOk, OnErr};
ghost use Rattle.ddcmp_picture.specs.Trips.{damaged_by, first_trip, no_trips, rest_of, trips_of};
ghost use Rattle.ddcmp_picture.specs.Trips.{with_first, with_trips};

use crate::mark::Trip;
use ddcmp_pair::{End, Memory};
use std::alloc::Global;
use std::collections::VecDeque;
use std::marker::Model;

/// The frames of both ends that were sent and haven't arrived completely.
pub(crate) struct Flights {
    a: VecDeque<Trip>,
    b: VecDeque<Trip>,
}

impl Model for Flights {
    ghost use Rattle.ddcmp_picture.specs.Trips.{Trips};

    ghost Value = { Trips };

    ghost view = { λ f. record { a = f.a.items; b = f.b.items } };
}

// Manual, since a derived `Drop` would be expanded wherever a value is dropped.
impl Drop for Flights {
    fn drop(self) {
        let Flights { a: _a, b: _b } = self;
    }
}

/// Appends a frame.
fn push(trips: &mut VecDeque<Trip>, trip: Trip) -> Result<(), Memory>
    ensures pushed { IsOk result → trips.new.items ≡ trips.old.items ++ trip ∷ [] }
    ensures memory { OnErr result (trips.new.items ≡ trips.old.items) }
{
    trips.reserve(1)?;
    trips.push_back_reserved(trip);
    Ok(())
}

/// Records that a byte of the first frame was changed.
fn damage_front(trips: &mut VecDeque<Trip>, by: u8)
    ensures { trips.new.items ≡ with_first (damaged_by by) trips.old.items }
{
    if let Some(trip) = trips.front_mut() {
        trip.damage(by);
    }
}

/// Records that some bytes of the first frame have arrived.
fn leave_rest(trips: &mut VecDeque<Trip>, row: u64)
    ensures { trips.new.items ≡ with_first (rest_of row) trips.old.items }
{
    if let Some(trip) = trips.front_mut() {
        trip.leave_rest(row);
    }
}

impl Flights {
    pub(crate) fn new(alloc: Global) -> Self
        ensures { result ≡ no_trips }
    {
        Flights {
            a: VecDeque::new(alloc),
            b: VecDeque::new(alloc),
        }
    }

    /// Appends a frame of an end.
    pub(crate) fn push(&mut self, trip: Trip) -> Result<(), Memory>
        ensures pushed { IsOk result → self.new
            ≡ with_trips trip.from (trips_of trip.from self.old ++ trip ∷ []) self.old }
        ensures memory { OnErr result (self.new ≡ self.old) }
    {
        match trip.from {
            End::A => push(&mut self.a, trip),
            End::B => push(&mut self.b, trip),
        }
    }

    /// Returns how many frames of an end there are.
    pub(crate) fn len(&self, end: End) -> usize
        ensures { result ≡ length (trips_of end self.now) }
    {
        match end {
            End::A => self.a.len(),
            End::B => self.b.len(),
        }
    }

    /// Removes the first frame of an end.
    pub(crate) fn pop(&mut self, end: End) -> Option<Trip>
        ensures trips { self.new ≡ with_trips end (drop 1 (trips_of end self.old)) self.old }
        ensures first { result ≡ first_trip (trips_of end self.old) }
    {
        match end {
            End::A => self.a.pop_front(),
            End::B => self.b.pop_front(),
        }
    }

    /// Returns the first frame of an end.
    pub(crate) fn front(&self, end: End) -> Option<Trip>
        ensures { result ≡ first_trip (trips_of end self.now) }
    {
        let front = match end {
            End::A => self.a.front(),
            End::B => self.b.front(),
        };
        match front {
            Some(trip) => Some(*trip),
            None => None,
        }
    }

    /// Records that a byte of the first frame of an end was changed by exclusive or.
    pub(crate) fn damage(&mut self, end: End, by: u8)
        ensures { self.new
            ≡ with_trips end (with_first (damaged_by by) (trips_of end self.old)) self.old }
    {
        match end {
            End::A => damage_front(&mut self.a, by),
            End::B => damage_front(&mut self.b, by),
        }
    }

    /// Records that some bytes of an end's first frame have arrived; the rest leaves in this row.
    pub(crate) fn leave_rest(&mut self, end: End, row: u64)
        ensures { self.new
            ≡ with_trips end (with_first (rest_of row) (trips_of end self.old)) self.old }
    {
        match end {
            End::A => leave_rest(&mut self.a, row),
            End::B => leave_rest(&mut self.b, row),
        }
    }
}
