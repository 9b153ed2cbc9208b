//! Stations of many sizes, and sizes that are refused.
use ddcmp_station::{Config, ConfigRefusal, State, Station};
use std::alloc::Global;
use std::process::Abort;

fn config_of(window: u16, inbox: u16, max: u16, syn: u8) -> Config {
    Config {
        window,
        inbox,
        max,
        syn,
        restart: false,
    }
}

/// Returns why there can't be a station of these sizes, or the state of a new one.
fn made(alloc: Global, config: Config) -> Result<State, ConfigRefusal> {
    match Station::new(alloc, config) {
        Ok(station) => Ok(station.state()),
        Err(refusal) => Err(refusal),
    }
}

fn makes(rt: &(impl Abort + AllocGlobal), config: Config) {
    assert!(rt; made(rt.alloc(), config) == Ok(State::Halted));
}

/// Window, inbox, maximum length of a message and fill, and why these sizes are refused, if they
/// are.
type Sizes = (u16, u16, u16, u8, Option<ConfigRefusal>);

/// Which refusal is returned if several sizes are wrong, and stations of other sizes.
const TESTED_IN_ORDER: &[Sizes] = &[
    (0, 0, 0, 17, Some(ConfigRefusal::Window)),
    (7, 0, 0, 17, Some(ConfigRefusal::Inbox)),
    (7, 256, 0, 17, Some(ConfigRefusal::Inbox)),
    (7, 8, 0, 17, Some(ConfigRefusal::Max)),
    (7, 8, 16384, 17, Some(ConfigRefusal::Max)),
    (7, 8, 1500, 17, Some(ConfigRefusal::Syn)),
    (256, 8, 1500, 0, Some(ConfigRefusal::Window)),
    (128, 8, 1500, 0, None),
    (255, 8, 1500, 0, None),
    (1, 1, 1, 16, None),
];

/// Each size at the ends of its range and between.
const MANY: &[(u16, u16, u16, u8)] = &[
    (1, 8, 1500, 0),
    (128, 8, 1500, 0),
    (255, 8, 1500, 0),
    (7, 1, 1500, 0),
    (7, 128, 1500, 0),
    (7, 255, 1500, 0),
    (7, 8, 1, 0),
    (7, 8, 8192, 0),
    (7, 8, 16383, 0),
    (7, 8, 1500, 8),
    (7, 8, 1500, 16),
    (255, 255, 16383, 16),
];

fn tested_in_order() -> &'static [Sizes] {
    TESTED_IN_ORDER
}

fn many() -> &'static [(u16, u16, u16, u8)] {
    MANY
}

/// Returns whether a halted station is made, or none for this reason.
fn is_answered(alloc: Global, config: Config, refusal: Option<ConfigRefusal>) -> bool {
    match (made(alloc, config), refusal) {
        (Ok(state), None) => state == State::Halted,
        (Err(told), Some(refusal)) => told == refusal,
        _ => false,
    }
}

#[test]
fn sizes_are_tested_in_order(rt: HostRuntime) {
    for (window, inbox, max, syn, refusal) in tested_in_order() {
        let config = config_of(*window, *inbox, *max, *syn);
        assert!(rt;
            is_answered(rt.alloc(), config, *refusal),
            "{window} {inbox} {max} {syn}"
        );
    }
}

/// With and without the restart option.
#[test]
fn stations_of_many_sizes(rt: HostRuntime) {
    for (window, inbox, max, syn) in many() {
        let config = config_of(*window, *inbox, *max, *syn);
        makes(&rt, config);
        let restart = true;
        makes(&rt, Config { restart, ..config });
    }
}

/// Returns whether an allocation fails for a station.
fn is_refused(rt: &(impl Abort + AllocGlobal)) -> bool {
    match made(rt.alloc(), config_of(2, 2, 8, 0)) {
        Ok(state) => {
            assert!(rt; state == State::Halted);
            false
        }
        Err(refusal) => {
            assert!(rt; refusal == ConfigRefusal::Memory);
            true
        }
    }
}

/// Run with one allocation after another failing, until the next test passes too.
#[test]
fn refused_memory_makes_no_station(rt: HostRuntime) {
    let _either = is_refused(&rt);
}

#[test]
fn ample_memory_makes_a_station(rt: HostRuntime) {
    assert!(rt; !is_refused(&rt));
}

/// There is a station for every size in range.
#[test]
fn stations_of_every_size(rt: HostRuntime) {
    for window in 1..=255u16 {
        makes(&rt, config_of(window, 1, 1, 0));
    }
    for inbox in 1..=255u16 {
        makes(&rt, config_of(1, inbox, 1, 0));
    }
    for max in 1..=16383u16 {
        makes(&rt, config_of(1, 1, max, 0));
    }
    for syn in 0..=16u8 {
        makes(&rt, config_of(1, 1, 1, syn));
    }
}
