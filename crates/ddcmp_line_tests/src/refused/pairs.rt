//! A pair with failing allocations.
use crate::bench::{
    ACK_2, Action, Answer, Bench, DATA_1, DATA_2, DEFAULT, HANDED_UP, Step, event_of, is_answer,
    path, startup,
};
use crate::calls::events_of;
use ddcmp_pair::{
    ConfigRefusal, End, Event, Notice, Pair, PairRefusal, Recovered, RunRefusal, Settled,
};
use ddcmp_station::{Counters, Header, Numbers, State};
use std::process::Abort;

/// The values of an end of a pair.
#[derive(Clone, Copy, PartialEq, Eq)]
struct EndReport {
    given: usize,
    handed_up: usize,
    acknowledged: u64,
    state: State,
    numbers: Numbers,
    outgoing: u8,
    waiting: u8,
    timer_on: bool,
    counters: Counters,
    next_header: Option<Header>,
    held: usize,
    open: usize,
    offset: u64,
}

/// The values of a pair.
#[derive(Clone, Copy, PartialEq, Eq)]
struct PairReport {
    honest: bool,
    clean: bool,
    a: EndReport,
    b: EndReport,
}

fn told_by(pair: &Pair, end: End) -> EndReport {
    let station = pair.station(end);
    EndReport {
        given: pair.given(end),
        handed_up: pair.handed_up(end),
        acknowledged: pair.acknowledged(end),
        state: station.state(),
        numbers: station.numbers(),
        outgoing: station.outgoing(),
        waiting: station.waiting(),
        timer_on: station.timer_on(),
        counters: *station.counters(),
        next_header: station.next_header(),
        held: station.held(),
        open: station.open(),
        offset: station.offset(),
    }
}

fn tells(pair: &Pair) -> PairReport {
    PairReport {
        honest: pair.honest(),
        clean: pair.clean(),
        a: told_by(pair, End::A),
        b: told_by(pair, End::B),
    }
}

/// Leaves a message in B's inbox, and another for A to send.
fn to_settle() -> [Step; 4] {
    [
        (Action::Send(End::A, b"abc"), Answer::Accepted(1)),
        (Action::Poll(End::A), Answer::Wrote(DATA_1)),
        (Action::Arrive(End::B, DATA_1), HANDED_UP),
        (Action::Send(End::A, b"abc"), Answer::Accepted(2)),
    ]
}

/// Returns what a settle then does.
fn settling() -> [Step; 8] {
    [
        (Action::Take(End::B), Answer::Took(b"abc")),
        (Action::Poll(End::A), Answer::Wrote(DATA_2)),
        (Action::Arrive(End::B, DATA_2), HANDED_UP),
        (Action::Take(End::B), Answer::Took(b"abc")),
        (Action::Poll(End::B), Answer::Wrote(ACK_2)),
        (
            Action::Arrive(End::A, ACK_2),
            Answer::Notices(&[Notice::Acknowledged(2)]),
        ),
        (Action::Poll(End::A), Answer::Idle),
        (Action::Poll(End::B), Answer::Idle),
    ]
}

/// Returns what each round after it does.
fn round() -> [Step; 4] {
    [
        (Action::Expire(End::A), Answer::Expired(false)),
        (Action::Expire(End::B), Answer::Expired(false)),
        (Action::Poll(End::A), Answer::Idle),
        (Action::Poll(End::B), Answer::Idle),
    ]
}

/// Returns whether a pair has these values.
fn is_told(pair: &Pair, seen: &PairReport) -> bool {
    tells(pair) == *seen
}

/// A pair that retries what failed for lack of memory, and whether anything did.
struct Patient {
    bench: Bench,
    refused: bool,
}

// Manual, since a derived `Drop` would be expanded wherever a value is dropped.
impl Drop for Patient {
    fn drop(self) {
        let Patient {
            bench: _bench,
            refused: _,
        } = self;
    }
}

impl Patient {
    fn new(rt: &(impl Abort + AllocGlobal)) -> Patient {
        match Bench::new(rt, DEFAULT, DEFAULT) {
            Ok(bench) => Patient {
                bench,
                refused: false,
            },
            Err(PairRefusal::First(refusal)) | Err(PairRefusal::Second(refusal)) => {
                assert!(rt; refusal == ConfigRefusal::Memory);
                Patient {
                    bench: Bench::ample(rt, DEFAULT, DEFAULT),
                    refused: true,
                }
            }
        }
    }

    /// Makes an event, retrying a failed allocation.
    fn event(&mut self, rt: &(impl Abort + AllocGlobal), action: Action) -> Event {
        match event_of(rt.alloc(), action) {
            Ok(event) => event,
            Err(_refused) => {
                self.refused = true;
                event_of(rt.alloc(), action).expect(rt, "memory is refused twice")
            }
        }
    }

    /// Checks that a step has its reply; or that nothing changed, and then it has.
    fn plays_one(&mut self, rt: &(impl Abort + AllocGlobal), action: Action, answer: Answer) {
        let event = self.event(rt, action);
        let before = tells(self.bench.pair());
        match self.bench.step(event) {
            Ok(reply) => assert!(rt; is_answer(&reply, answer)),
            Err(_memory) => {
                self.refused = true;
                assert!(rt; is_told(self.bench.pair(), &before));
                assert!(rt; self.bench.is_played(rt.alloc(), action, answer));
            }
        }
    }

    /// Runs steps, each of which has its reply or changes nothing.
    fn plays(&mut self, rt: &(impl Abort + AllocGlobal), steps: &[Step]) {
        for (action, answer) in steps {
            self.plays_one(rt, *action, *answer);
        }
    }

    /// The settle is done, or some of its steps are. A frame that was polled then and didn't arrive
    /// is lost, so the line settles again, and twice more after the timers expired.
    fn settles(&mut self, rt: &(impl Abort + AllocGlobal)) {
        match self.bench.settle() {
            Ok(settled) => assert!(rt; is_settled_at_once(settled)),
            Err(_memory) => {
                self.refused = true;
                assert!(rt; is_among(rt, &[&settling()], &tells(self.bench.pair())));
                self.settles_again(rt);
                self.expires(rt);
                self.settles_again(rt);
                self.expires(rt);
                self.settles_again(rt);
            }
        }
    }

    /// The recovery is done, or some of its steps are, and the next one is.
    fn recovers(&mut self, rt: &(impl Abort + AllocGlobal)) {
        match self.bench.recover() {
            Ok(recovered) => assert!(rt; is_recovered_at_once(recovered)),
            Err(_memory) => {
                self.refused = true;
                let seen = tells(self.bench.pair());
                assert!(rt; is_among(rt, &[&settling(), &round(), &round()], &seen));
                self.recovers_again(rt);
            }
        }
        assert!(rt; self.bench.is_done());
    }

    fn settles_again(&mut self, rt: &impl Abort) {
        match self.bench.settle() {
            Ok(settled) => assert!(rt; settled.quiet),
            Err(_memory) => panic!(rt; "memory is refused twice"),
        }
    }

    fn recovers_again(&mut self, rt: &impl Abort) {
        match self.bench.recover() {
            Ok(recovered) => assert!(rt; recovered.quiet),
            Err(_memory) => panic!(rt; "memory is refused twice"),
        }
    }

    fn expires(&mut self, rt: &impl Abort) {
        assert!(rt; self.bench.step(Event::Expire(End::A)).is_ok());
        assert!(rt; self.bench.step(Event::Expire(End::B)).is_ok());
    }
}

/// Returns whether a settle had one exchange, and the line is then quiet.
fn is_settled_at_once(settled: Settled) -> bool {
    let exchanges = 1;
    settled
        == Settled {
            exchanges,
            quiet: true,
        }
}

/// Returns whether the first settle of a recovery had one exchange and the others none, and the
/// line is then quiet.
fn is_recovered_at_once(recovered: Recovered) -> bool {
    let exchanges = [1, 0, 0];
    recovered
        == Recovered {
            exchanges,
            quiet: true,
        }
}

/// Returns whether a pair has these values before one of these steps, each of which is run until
/// then.
fn is_before(
    rt: &(impl Abort + AllocGlobal),
    bench: &mut Bench,
    steps: &[Step],
    seen: &PairReport,
) -> bool {
    for (action, answer) in steps {
        if is_told(bench.pair(), seen) {
            return true;
        }
        assert!(rt; bench.is_played(rt.alloc(), *action, *answer));
    }
    false
}

/// Returns whether a pair that was to do these steps has these values between two of them.
fn is_among(rt: &(impl Abort + AllocGlobal), parts: &[&[Step]], seen: &PairReport) -> bool {
    let mut bench = Bench::running(rt, DEFAULT);
    bench.plays(rt, &to_settle());
    for steps in parts {
        if is_before(rt, &mut bench, steps, seen) {
            return true;
        }
    }
    is_told(bench.pair(), seen)
}

/// Returns whether an allocation fails on the path of one message.
fn is_refused_to_steps(rt: &(impl Abort + AllocGlobal)) -> bool {
    let mut patient = Patient::new(rt);
    patient.plays(rt, path());
    patient.bench.has_many(rt, b"abc", 1);
    patient.refused
}

/// Returns whether an allocation fails before or in a settle.
fn is_refused_to_a_settle(rt: &(impl Abort + AllocGlobal)) -> bool {
    let mut patient = Patient::new(rt);
    patient.plays(rt, startup());
    patient.plays(rt, &to_settle());
    patient.settles(rt);
    patient.bench.has_many(rt, b"abc", 2);
    patient.refused
}

/// Returns whether an allocation fails before or in a recovery.
fn is_refused_to_a_recovery(rt: &(impl Abort + AllocGlobal)) -> bool {
    let mut patient = Patient::new(rt);
    patient.plays(rt, startup());
    patient.plays(rt, &to_settle());
    patient.recovers(rt);
    patient.bench.has_many(rt, b"abc", 2);
    patient.refused
}

/// Checks that the pair has the values of one after these steps.
fn is_after(rt: &(impl Abort + AllocGlobal), pair: &Pair, steps: &[Step]) {
    let mut bench = Bench::ample(rt, DEFAULT, DEFAULT);
    bench.plays(rt, steps);
    assert!(rt; is_told(pair, &tells(bench.pair())));
}

/// Returns whether an allocation fails in a run, or for its events.
fn is_refused_to_a_run(rt: &(impl Abort + AllocGlobal)) -> bool {
    let Ok(events) = events_of(rt.alloc(), path()) else {
        return true;
    };
    match Bench::of_run(rt.alloc(), &events) {
        Ok(bench) => {
            bench.has_many(rt, b"abc", 1);
            false
        }
        Err(refused) => {
            is_as_far(rt, refused, path());
            true
        }
    }
}

/// Checks that a run with a failed allocation wasn't begun, or is as far as it reports.
fn is_as_far(rt: &(impl Abort + AllocGlobal), refused: RunRefusal, path: &[Step]) {
    match refused {
        RunRefusal::First(refusal) => assert!(rt; refusal == ConfigRefusal::Memory),
        RunRefusal::Second(refusal) => assert!(rt; refusal == ConfigRefusal::Memory),
        RunRefusal::Memory { done, pair } => {
            assert!(rt; done < path.len());
            is_after(rt, &pair, &path[..done]);
        }
    }
}

#[test]
fn refused_memory_leaves_a_pair(rt: HostRuntime) {
    let _either = is_refused_to_steps(&rt);
}

#[test]
fn refused_memory_stops_a_settle(rt: HostRuntime) {
    let _either = is_refused_to_a_settle(&rt);
}

#[test]
fn refused_memory_stops_a_recovery(rt: HostRuntime) {
    let _either = is_refused_to_a_recovery(&rt);
}

#[test]
fn refused_memory_stops_a_run(rt: HostRuntime) {
    let _either = is_refused_to_a_run(&rt);
}

#[test]
fn ample_memory_steps(rt: HostRuntime) {
    assert!(rt; !is_refused_to_steps(&rt));
}

#[test]
fn ample_memory_settles(rt: HostRuntime) {
    assert!(rt; !is_refused_to_a_settle(&rt));
}

#[test]
fn ample_memory_recovers(rt: HostRuntime) {
    assert!(rt; !is_refused_to_a_recovery(&rt));
}

#[test]
fn ample_memory_runs(rt: HostRuntime) {
    assert!(rt; !is_refused_to_a_run(&rt));
}
