//! The reply timer, and values of a station.
ghost use Rattle.std.specs.Prelude.{◌≡◌, false, Some, None};
ghost use Rattle.ddcmp_core.specs.Table.{after_expire, after_take_arm, is_on, is_fresh};
ghost use Rattle.ddcmp_core.specs.Counting.{counters_after_expire};
ghost use Rattle.ddcmp_proto.specs.Station.{StationView};
ghost use Rattle.ddcmp_proto.specs.StationCalls.{Expires, TakesArm, with_state};
ghost use Rattle.ddcmp_c.specs.Codes.{given_counters, given_numbers};
ghost use Rattle.ddcmp_c.specs.Calls.{Asks, FillsIn, Makes};

use crate::handle::{Handle, put_back, take_out};
use crate::values::{CCounters, CLOSED, CNumbers, OK, counters_of, numbers_of};
use std::alloc::Global;

/// Has the reply timer expire; returns whether it was on.
#[unsafe(no_mangle)]
pub extern "C" fn ddcmp_expire(alloc: Global, station: &mut Handle) -> bool
    ensures closed { station.old.station ≡ None
        → (result ≡ false) × (station.new.station ≡ None) }
    ensures state { (s : StationView) → station.old.station ≡ Some s → station.new.station
        ≡ Some (record s {
          core = record s.core {
            station = after_expire s.core.station;
            counters = counters_after_expire s.core.station s.core.counters;
          };
        }) }
    ensures answer { (s : StationView) → station.old.station ≡ Some s
        → result ≡ is_on s.core.station.timer }
    ensures call { Makes Expires station.old.station station.new.station }
{
    let Some(mut open) = take_out(alloc, station) else {
        return false;
    };
    let was_on = open.expire();
    put_back(station, open);
    was_on
}

/// Returns whether the reply timer was started since the last such call.
#[unsafe(no_mangle)]
pub extern "C" fn ddcmp_take_arm(alloc: Global, station: &mut Handle) -> bool
    ensures closed { station.old.station ≡ None
        → (result ≡ false) × (station.new.station ≡ None) }
    ensures state { (s : StationView) → station.old.station ≡ Some s
        → station.new.station ≡ Some (with_state s (after_take_arm s.core.station)) }
    ensures answer { (s : StationView) → station.old.station ≡ Some s
        → result ≡ is_fresh s.core.station.timer }
    ensures call { Makes TakesArm station.old.station station.new.station }
{
    let Some(mut open) = take_out(alloc, station) else {
        return false;
    };
    let armed = open.take_arm();
    put_back(station, open);
    armed
}

/// Returns whether the reply timer is running.
#[unsafe(no_mangle)]
pub extern "C" fn ddcmp_timer_on(alloc: Global, station: &mut Handle) -> bool
    ensures { Asks false (λ s. is_on s.core.station.timer)
        station.old.station result station.new.station }
{
    let Some(open) = take_out(alloc, station) else {
        return false;
    };
    let value = open.timer_on();
    put_back(station, open);
    value
}

/// Puts the station's numbers into `numbers`.
#[unsafe(no_mangle)]
pub extern "C" fn ddcmp_numbers(alloc: Global, station: &mut Handle, numbers: &mut CNumbers) -> u32
    ensures { FillsIn (λ s. given_numbers s.core.station) station.old.station numbers.old result
        station.new.station numbers.new }
{
    let Some(open) = take_out(alloc, station) else {
        return CLOSED;
    };
    let value = open.numbers();
    put_back(station, open);
    *numbers = numbers_of(value);
    OK
}

/// Puts the station's counters into `counters`.
#[unsafe(no_mangle)]
pub extern "C" fn ddcmp_counters(
    alloc: Global,
    station: &mut Handle,
    counters: &mut CCounters,
) -> u32
    ensures { FillsIn (λ s. given_counters s.core.counters) station.old.station counters.old result
        station.new.station counters.new }
{
    let Some(open) = take_out(alloc, station) else {
        return CLOSED;
    };
    *counters = counters_of(open.counters());
    put_back(station, open);
    OK
}
