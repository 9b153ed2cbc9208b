//! The life of a station: making, starting, halting, clearing and freeing it; its sizes and its
//! state.
ghost use Rattle.std.specs.Prelude.{◌≡◌, ◌≢◌, [], true, false, Some, None};
ghost use Rattle.ddcmp_frame.specs.Reader.{StandsFor};
ghost use Rattle.ddcmp_core.specs.Table.{after_start, after_enter_maintenance, after_halt};
ghost use Rattle.ddcmp_core.specs.Table.{is_halted};
ghost use Rattle.ddcmp_core.specs.Choosing.{chosen, answer_to_choose};
ghost use Rattle.ddcmp_proto.specs.Config.{first_refusal, core_made, config_of};
ghost use Rattle.ddcmp_proto.specs.Station.{StationView};
ghost use Rattle.ddcmp_proto.specs.StationCalls.{Starts as StartCall, Halts, ClearsLine};
ghost use Rattle.ddcmp_proto.specs.StationCalls.{EntersMaintenance, with_state};
ghost use Rattle.ddcmp_c.specs.Codes.{code_of_config, code_of_state, given_config, taken_config};
ghost use Rattle.ddcmp_c.specs.Codes.{code_of_choose_answer};
ghost use Rattle.ddcmp_c.specs.Calls.{Asks, FillsIn, Makes, Starts};

use crate::handle::{Handle, put_back, take_out};
use crate::values::{
    CConfig, CLOSED, MEMORY, OK, OPEN, asked_sizes, choose_code, config_code, sizes_of, start_code,
    state_code,
};
use ddcmp_proto::{ConfigRefusal, Station};
use std::alloc::Global;

/// Makes a halted station in a handle that has none.
#[unsafe(no_mangle)]
pub extern "C" fn ddcmp_new(alloc: Global, config: &CConfig, station: &mut Handle) -> u32
    ensures open { station.old.station ≢ None
        → (result ≡ OPEN) × (station.new.station ≡ station.old.station) }
    ensures refused { (refusal : ConfigRefusal) → station.old.station ≡ None
        → first_refusal (taken_config config.now) ≡ Some refusal
        → (result ≡ code_of_config refusal) × (station.new.station ≡ None) }
    ensures made { station.old.station ≡ None → result ≡ OK → (s : StationView)
        × (station.new.station ≡ Some s) × (s.core ≡ core_made (taken_config config.now))
        × (s.syn ≡ config.now.syn) × StandsFor s.line [] }
    ensures failed { result ≢ OK → station.new.station ≡ station.old.station }
{
    match take_out(alloc, station) {
        Some(open) => {
            put_back(station, open);
            OPEN
        }
        None => match Station::new(alloc, asked_sizes(config)) {
            Ok(made) => match Box::new(alloc, made) {
                Ok(boxed) => {
                    put_back(station, boxed);
                    OK
                }
                Err(_) => MEMORY,
            },
            Err(refusal) => config_code(refusal),
        },
    }
}

/// Frees the station of a handle, which then has none.
#[unsafe(no_mangle)]
pub extern "C" fn ddcmp_free(alloc: Global, station: &mut Handle)
    ensures { station.new.station ≡ None }
{
    let _open = take_out(alloc, station);
}

/// Puts the station's sizes into `config`.
#[unsafe(no_mangle)]
pub extern "C" fn ddcmp_config(alloc: Global, station: &mut Handle, config: &mut CConfig) -> u32
    ensures { FillsIn (λ s. given_config (config_of s.core.limits s.syn)) station.old.station
        config.old result station.new.station config.new }
{
    let Some(open) = take_out(alloc, station) else {
        return CLOSED;
    };
    *config = sizes_of(open.config());
    put_back(station, open);
    OK
}

/// Starts the station: it begins the startup handshake.
#[unsafe(no_mangle)]
pub extern "C" fn ddcmp_start(alloc: Global, station: &mut Handle, dropped: &mut u8) -> u32
    ensures starts { Starts after_start station.old.station dropped.old result station.new.station
        dropped.new }
    ensures call { Makes StartCall station.old.station station.new.station }
{
    let Some(mut open) = take_out(alloc, station) else {
        return CLOSED;
    };
    let answer = open.start();
    put_back(station, open);
    start_code(answer, dropped)
}

/// Enters maintenance mode.
#[unsafe(no_mangle)]
pub extern "C" fn ddcmp_enter_maintenance(
    alloc: Global,
    station: &mut Handle,
    dropped: &mut u8,
) -> u32
    ensures starts { Starts after_enter_maintenance station.old.station dropped.old result
        station.new.station dropped.new }
    ensures call { Makes EntersMaintenance station.old.station station.new.station }
{
    let Some(mut open) = take_out(alloc, station) else {
        return CLOSED;
    };
    let answer = open.enter_maintenance();
    put_back(station, open);
    start_code(answer, dropped)
}

/// Chooses when messages are acknowledged: when they are taken, or when they are received.
#[unsafe(no_mangle)]
pub extern "C" fn ddcmp_acknowledge_on_take(
    alloc: Global,
    station: &mut Handle,
    by_user: bool,
) -> u32
    ensures closed { station.old.station ≡ None
        → (result ≡ CLOSED) × (station.new.station ≡ None) }
    ensures state { (s : StationView) → station.old.station ≡ Some s → station.new.station
        ≡ Some (with_state s (chosen by_user s.core.station)) }
    ensures code { (s : StationView) → station.old.station ≡ Some s → result
        ≡ code_of_choose_answer (answer_to_choose s.core.station) }
    ensures refused { result ≢ OK → station.new.station ≡ station.old.station }
{
    let Some(mut open) = take_out(alloc, station) else {
        return CLOSED;
    };
    let answer = open.acknowledge_on_take(by_user);
    put_back(station, open);
    choose_code(answer)
}

/// Halts the station, which then sends and accepts nothing.
#[unsafe(no_mangle)]
pub extern "C" fn ddcmp_halt(alloc: Global, station: &mut Handle) -> u32
    ensures closed { station.old.station ≡ None
        → (result ≡ CLOSED) × (station.new.station ≡ None) }
    ensures state { (s : StationView) → station.old.station ≡ Some s → (result ≡ OK)
        × (station.new.station ≡ Some (with_state s (after_halt s.core.station))) }
    ensures call { Makes Halts station.old.station station.new.station }
{
    let Some(mut open) = take_out(alloc, station) else {
        return CLOSED;
    };
    open.halt();
    put_back(station, open);
    OK
}

/// Forgets the bytes of the line so far, if the station is halted; returns whether it is.
#[unsafe(no_mangle)]
pub extern "C" fn ddcmp_clear_line(alloc: Global, station: &mut Handle) -> bool
    ensures closed { station.old.station ≡ None
        → (result ≡ false) × (station.new.station ≡ None) }
    ensures answer { (s : StationView) → station.old.station ≡ Some s
        → result ≡ is_halted s.core.station.state }
    ensures cleared { (s : StationView) → station.old.station ≡ Some s → result ≡ true
        → (t : StationView) × (station.new.station ≡ Some t) × (t.core ≡ s.core)
        × (t.syn ≡ s.syn) × StandsFor t.line [] }
    ensures refused { result ≡ false → station.new.station ≡ station.old.station }
    ensures call { Makes ClearsLine station.old.station station.new.station }
{
    let Some(mut open) = take_out(alloc, station) else {
        return false;
    };
    let cleared = open.clear_line();
    put_back(station, open);
    cleared
}

/// Returns the state, or 5 if there is no station.
#[unsafe(no_mangle)]
pub extern "C" fn ddcmp_state(alloc: Global, station: &mut Handle) -> u32
    ensures { Asks 5 (λ s. code_of_state s.core.station.state)
        station.old.station result station.new.station }
{
    let Some(open) = take_out(alloc, station) else {
        return 5;
    };
    let value = state_code(open.state());
    put_back(station, open);
    value
}
