//! Each call once, and pairs of many sizes.
use crate::bench::{Bench, DEFAULT, Step, event_of, path, sizes};
use ddcmp_pair::{Config, ConfigRefusal, End, Event, Pair, PairRefusal, RunRefusal, State, run};
use std::alloc::{AllocError, Global};
use std::process::Abort;
use std::test::Fail;

/// Returns sizes at both ends of their ranges. They are in a function, since the prover takes
/// minutes for such a table as a constant.
fn many_sizes() -> [Config; 10] {
    let largest = largest();
    [
        DEFAULT,
        Config {
            window: 1,
            ..DEFAULT
        },
        sizes(255),
        Config {
            inbox: 1,
            ..DEFAULT
        },
        Config {
            inbox: 255,
            ..DEFAULT
        },
        Config { max: 1, ..DEFAULT },
        Config {
            max: 16383,
            ..DEFAULT
        },
        Config { syn: 16, ..DEFAULT },
        Config {
            restart: true,
            ..DEFAULT
        },
        largest,
    ]
}

fn largest() -> Config {
    Config {
        window: 255,
        inbox: 255,
        max: 16383,
        syn: 16,
        restart: true,
    }
}

/// Returns sizes of which several are out of range.
fn all_wrong() -> Config {
    Config {
        window: 7,
        inbox: 256,
        max: 0,
        syn: 17,
        restart: false,
    }
}

/// Returns sizes out of range, each with the refusal of the first such one.
fn refused_sizes() -> [(Config, ConfigRefusal); 8] {
    let inbox = Config {
        inbox: 256,
        ..DEFAULT
    };
    let max = Config {
        max: 16384,
        ..DEFAULT
    };
    [
        (sizes(0), ConfigRefusal::Window),
        (sizes(256), ConfigRefusal::Window),
        (
            Config {
                inbox: 0,
                ..DEFAULT
            },
            ConfigRefusal::Inbox,
        ),
        (inbox, ConfigRefusal::Inbox),
        (Config { max: 0, ..DEFAULT }, ConfigRefusal::Max),
        (max, ConfigRefusal::Max),
        (Config { syn: 17, ..DEFAULT }, ConfigRefusal::Syn),
        (all_wrong(), ConfigRefusal::Inbox),
    ]
}

/// Returns whether nothing has been done, and both ends are halted.
fn is_new(bench: &Bench) -> bool {
    bench.premises() == (true, true)
        && bench.counts(End::A) == (0, 0, 0)
        && bench.counts(End::B) == (0, 0, 0)
        && bench.station(End::A).state() == State::Halted
        && bench.station(End::B).state() == State::Halted
}

#[test]
fn pairs_of_many_sizes(rt: HostRuntime) {
    let sizes = many_sizes();
    for first in &sizes {
        for second in &sizes {
            assert!(rt; is_new(&Bench::ample(&rt, *first, *second)));
        }
    }
}

/// Returns the refusal of a pair, for its sizes.
fn refusal_of_pair(alloc: Global, first: Config, second: Config) -> Option<PairRefusal> {
    Pair::new(alloc, first, second).err()
}

/// Returns a run without events.
fn runs_nothing(alloc: Global, first: Config, second: Config) -> Result<Pair, RunRefusal> {
    run(alloc, first, second, &[])
}

/// Returns the refusal in that of a run.
fn sizes_of(refused: &RunRefusal) -> Option<PairRefusal> {
    match refused {
        RunRefusal::First(refusal) => Some(PairRefusal::First(*refusal)),
        RunRefusal::Second(refusal) => Some(PairRefusal::Second(*refusal)),
        RunRefusal::Memory {
            done: _done,
            pair: _pair,
        } => None,
    }
}

/// Returns the refusal of a run, for its sizes.
fn refusal_of_run(alloc: Global, first: Config, second: Config) -> Option<PairRefusal> {
    match runs_nothing(alloc, first, second) {
        Ok(_pair) => None,
        Err(refused) => sizes_of(&refused),
    }
}

/// Checks that a pair with these sizes is refused like this, and a run too.
fn refuses(rt: &(impl Abort + AllocGlobal), first: Config, second: Config, refusal: PairRefusal) {
    assert!(rt; refusal_of_pair(rt.alloc(), first, second) == Some(refusal));
    assert!(rt; refusal_of_run(rt.alloc(), first, second) == Some(refusal));
}

/// Checks that these sizes are refused at either end, and the first end's refusal is returned
/// first.
fn refuses_at_both(rt: &(impl Abort + AllocGlobal), config: Config, refusal: ConfigRefusal) {
    let first = PairRefusal::First(refusal);
    refuses(rt, config, DEFAULT, first);
    refuses(rt, config, largest(), first);
    refuses(
        rt,
        config,
        Config {
            window: 0,
            ..DEFAULT
        },
        first,
    );
    let second = PairRefusal::Second(refusal);
    refuses(rt, DEFAULT, config, second);
    refuses(rt, largest(), config, second);
}

#[test]
fn sizes_out_of_range_are_refused(rt: HostRuntime) {
    for (config, refusal) in &refused_sizes() {
        refuses_at_both(&rt, *config, *refusal);
    }
}

/// Returns the events of some steps.
pub fn events_of(alloc: Global, steps: &[Step]) -> Result<Vec<Event>, AllocError> {
    let mut events = Vec::new(alloc);
    for (action, _answer) in steps {
        events.push(event_of(alloc, *action)?)?;
    }
    Ok(events)
}

/// Returns the pair of a run of these events; no allocation fails.
fn ran(rt: &(impl Abort + AllocGlobal), events: &[Event]) -> Bench {
    match Bench::of_run(rt.alloc(), events) {
        Ok(bench) => bench,
        Err(_refused) => panic!(rt; "the run is refused"),
    }
}

#[test]
fn a_run_is_its_steps(rt: HostRuntime) -> Result<(), Fail> {
    let events = events_of(rt.alloc(), path())?;
    assert_eq!(rt; events.len(), 14);
    ran(&rt, &events).has_many(&rt, b"abc", 1);
    let mut bench = Bench::ample(&rt, DEFAULT, DEFAULT);
    bench.plays(&rt, path());
    bench.has_many(&rt, b"abc", 1);
    ran(&rt, &[]).has_many(&rt, b"", 0);
    Ok(())
}
