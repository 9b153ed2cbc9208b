//! A pair for which actions are run one after another and their replies checked.
use ddcmp_pair::{
    Bytes, Config, End, Event, Memory, Notice, Pair, PairRefusal, Recovered, Reply, RunRefusal,
    Seq, Settled, Station, run,
};
use std::alloc::{AllocError, Global};
use std::process::Abort;

pub const STRT: &[u8] = &[0x05, 0x06, 0xC0, 0x00, 0x00, 0x01, 0x75, 0x95];

pub const STACK: &[u8] = &[0x05, 0x07, 0xC0, 0x00, 0x00, 0x01, 0x48, 0x55];

pub const ACK_0: &[u8] = &[0x05, 0x01, 0x00, 0x00, 0x00, 0x01, 0xFC, 0x55];

pub const ACK_1: &[u8] = &[0x05, 0x01, 0x00, 0x01, 0x00, 0x01, 0xAD, 0x95];

pub const ACK_2: &[u8] = &[0x05, 0x01, 0x00, 0x02, 0x00, 0x01, 0x5D, 0x95];
/// Data message 1, `abc`, with RESP 0.
pub const DATA_1: &[u8] = &[
    0x81, 0x03, 0x00, 0x00, 0x01, 0x01, 0x9A, 0x41, 0x61, 0x62, 0x63, 0x38, 0x97,
];
/// Data message 2, `abc`, with RESP 0.
pub const DATA_2: &[u8] = &[
    0x81, 0x03, 0x00, 0x00, 0x02, 0x01, 0x9A, 0xB1, 0x61, 0x62, 0x63, 0x38, 0x97,
];

/// An arrival without a notice.
pub const NO_NOTICE: Answer = Answer::Notices(&[]);

pub const RUNNING: Answer = Answer::Notices(&[Notice::Running]);

pub const HANDED_UP: Answer = Answer::Notices(&[Notice::HandedUp]);

pub const ACKNOWLEDGED: Answer = Answer::Notices(&[Notice::Acknowledged(1)]);

/// The default sizes.
pub const DEFAULT: Config = Config {
    window: 7,
    inbox: 8,
    max: 1500,
    syn: 0,
    restart: false,
};

/// Returns the default sizes with another window.
pub fn sizes(window: u16) -> Config {
    Config { window, ..DEFAULT }
}

/// An action.
#[derive(Clone, Copy)]
pub enum Action {
    Start(End),
    Send(End, &'static [u8]),
    Poll(End),
    Arrive(End, &'static [u8]),
    Expire(End),
    Take(End),
}

/// The expected reply.
#[derive(Clone, Copy)]
pub enum Answer {
    Started(u8),
    Accepted(u8),
    Wrote(&'static [u8]),
    Idle,
    Notices(&'static [Notice]),
    Expired(bool),
    Took(&'static [u8]),
}

/// An action and its expected reply.
pub type Step = (Action, Answer);

/// Both ends start, and A sends STRT first; then a message is delivered and acknowledged.
const PATH: &[Step] = &[
    (Action::Start(End::A), Answer::Started(0)),
    (Action::Start(End::B), Answer::Started(0)),
    (Action::Poll(End::A), Answer::Wrote(STRT)),
    (Action::Arrive(End::B, STRT), NO_NOTICE),
    (Action::Poll(End::B), Answer::Wrote(STACK)),
    (Action::Arrive(End::A, STACK), RUNNING),
    (Action::Poll(End::A), Answer::Wrote(ACK_0)),
    (Action::Arrive(End::B, ACK_0), RUNNING),
    (Action::Send(End::A, b"abc"), Answer::Accepted(1)),
    (Action::Poll(End::A), Answer::Wrote(DATA_1)),
    (Action::Arrive(End::B, DATA_1), HANDED_UP),
    (Action::Take(End::B), Answer::Took(b"abc")),
    (Action::Poll(End::B), Answer::Wrote(ACK_1)),
    (Action::Arrive(End::A, ACK_1), ACKNOWLEDGED),
];

/// How many steps the startup handshake has.
const STARTUP: usize = 8;

/// Returns the startup handshake, and the path of one message.
pub fn path() -> &'static [Step] {
    PATH
}

/// Returns the startup handshake.
pub fn startup() -> &'static [Step] {
    path().get(..STARTUP).unwrap_or(&[])
}

pub fn event_of(alloc: Global, action: Action) -> Result<Event, AllocError> {
    let event = match action {
        Action::Start(end) => Event::Start(end),
        Action::Send(end, bytes) => Event::Send(end, Bytes::new(Vec::from_slice(alloc, bytes)?)),
        Action::Poll(end) => Event::Poll(end),
        Action::Arrive(end, bytes) => {
            Event::Arrive(end, Bytes::new(Vec::from_slice(alloc, bytes)?))
        }
        Action::Expire(end) => Event::Expire(end),
        Action::Take(end) => Event::Take(end),
    };
    Ok(event)
}

/// Returns whether a reply is as expected.
pub fn is_answer(reply: &Reply, answer: Answer) -> bool {
    match (reply, answer) {
        (Reply::Started(told), Answer::Started(dropped)) => *told == dropped,
        (Reply::Accepted(Seq(told)), Answer::Accepted(number)) => *told == number,
        (Reply::Wrote(told), Answer::Wrote(bytes)) => told.as_slice() == bytes,
        (Reply::Idle, Answer::Idle) => true,
        (Reply::Notices(told), Answer::Notices(notices)) => told.as_slice() == notices,
        (Reply::Expired(told), Answer::Expired(was_on)) => *told == was_on,
        (Reply::Took(told), Answer::Took(message)) => told.as_slice() == message,
        _ => false,
    }
}

/// The maximum length of a message at any end.
const LONGEST: usize = 16383;

/// A pair for events.
pub struct Bench {
    pair: Pair,
}

// Manual, since a derived `Drop` would be expanded wherever a value is dropped.
impl Drop for Bench {
    fn drop(self) {
        let Bench { pair: _pair } = self;
    }
}

/// Calls whose contracts state more than tests need: each has a function of its own here that
/// promises nothing.
impl Bench {
    pub fn new(
        rt: &(impl Abort + AllocGlobal),
        first: Config,
        second: Config,
    ) -> Result<Bench, PairRefusal> {
        match Pair::new(rt.alloc(), first, second) {
            Ok(pair) => Ok(Bench { pair }),
            Err(refusal) => Err(refusal),
        }
    }

    /// Returns the pair of a run between ends of the default sizes.
    pub fn of_run(alloc: Global, events: &[Event]) -> Result<Bench, RunRefusal> {
        match run(alloc, DEFAULT, DEFAULT, events) {
            Ok(pair) => Ok(Bench { pair }),
            Err(refusal) => Err(refusal),
        }
    }

    pub fn pair(&self) -> &Pair {
        &self.pair
    }

    pub fn station(&self, end: End) -> &Station {
        self.pair.station(end)
    }

    pub fn step(&mut self, event: Event) -> Result<Reply, Memory> {
        self.pair.step(event)
    }

    pub fn settle(&mut self) -> Result<Settled, Memory> {
        self.pair.settle()
    }

    pub fn recover(&mut self) -> Result<Recovered, Memory> {
        self.pair.recover()
    }

    /// Returns whether the line is honest and the run clean.
    pub fn premises(&self) -> (bool, bool) {
        (self.pair.honest(), self.pair.clean())
    }

    pub fn is_done(&self) -> bool {
        self.pair.done()
    }

    /// Returns how many messages were accepted, delivered, and reported acknowledged at an end.
    pub fn counts(&self, end: End) -> (usize, usize, u64) {
        (
            self.pair.given(end),
            self.pair.handed_up(end),
            self.pair.acknowledged(end),
        )
    }

    /// Returns whether message `i` of those that an end accepted is this one.
    pub fn is_given(&self, end: End, i: usize, message: &[u8]) -> bool {
        i < self.pair.given(end) && self.pair.given_at(end, i) == message
    }

    /// Returns whether message `i` of those delivered at an end is this one.
    pub fn is_handed_up(&self, end: End, i: usize, message: &[u8]) -> bool {
        let mut out = [0; LONGEST];
        match self.handed_up_at(end, i, &mut out) {
            Some(length) => out.get(..length) == Some(message),
            None => false,
        }
    }

    /// Copies message `i` of those delivered at an end, if there are this many, and returns its
    /// length.
    fn handed_up_at(&self, end: End, i: usize, out: &mut [u8; LONGEST]) -> Option<usize> {
        if i >= self.pair.handed_up(end) || usize::from(self.pair.config(end).max) > LONGEST {
            return None;
        }
        Some(self.pair.handed_up_at(end, i, out))
    }
}

impl Bench {
    /// Makes a pair; no allocation fails.
    pub fn ample(rt: &(impl Abort + AllocGlobal), first: Config, second: Config) -> Bench {
        match Bench::new(rt, first, second) {
            Ok(bench) => bench,
            Err(_refusal) => panic!(rt; "no pair"),
        }
    }

    /// Returns a pair with both ends running and nothing to send.
    pub fn running(rt: &(impl Abort + AllocGlobal), config: Config) -> Bench {
        let mut bench = Bench::ample(rt, config, config);
        bench.plays(rt, startup());
        bench
    }

    /// Checks that each action has its expected reply; no allocation fails.
    pub fn plays(&mut self, rt: &(impl Abort + AllocGlobal), steps: &[Step]) {
        for (i, (action, answer)) in steps.iter().enumerate() {
            assert!(rt; self.is_played(rt.alloc(), *action, *answer), "step {i}");
        }
    }

    /// Returns whether an action has its expected reply.
    pub fn is_played(&mut self, alloc: Global, action: Action, answer: Answer) -> bool {
        match event_of(alloc, action) {
            Ok(event) => self.is_answered(event, answer),
            Err(_refused) => false,
        }
    }

    /// Returns whether an event has this reply.
    pub fn is_answered(&mut self, event: Event, answer: Answer) -> bool {
        match self.step(event) {
            Ok(reply) => is_answer(&reply, answer),
            Err(_memory) => false,
        }
    }

    /// Checks that on an honest line A sent this message this many times, and each was delivered at
    /// B and is reported acknowledged; B sent none.
    pub fn has_many(&self, rt: &impl Abort, message: &[u8], times: usize) {
        assert!(rt; self.counts(End::A) == (times, 0, times as u64));
        assert!(rt; self.counts(End::B) == (0, times, 0));
        assert!(rt; self.premises() == (true, true));
        for i in 0..times {
            assert!(rt; self.is_given(End::A, i, message), "{i}");
            assert!(rt; self.is_handed_up(End::B, i, message), "{i}");
        }
    }
}
