//! A pair, and the frames that its ends wrote: they are queued on the line, and arrive whole,
//! damaged, in parts or not at all.
use ddcmp_line::{Bytes, Config, End, Event, Memory, Pair, Recovered, Reply, Settled, State};
use std::collections::VecDeque;
use std::process::Abort;

/// The maximum length of a message at any end.
pub const LONGEST: usize = 1500;

/// The frames that an end wrote and that haven't arrived, in order.
type Line = VecDeque<Vec<u8>>;

/// What each end wrote.
struct Lines {
    of_a: Line,
    of_b: Line,
}

// Manual, since a derived `Drop` would be expanded wherever a value is dropped.
impl Drop for Lines {
    fn drop(self) {
        let Lines {
            of_a: _of_a,
            of_b: _of_b,
        } = self;
    }
}

impl Lines {
    fn of(&mut self, from: End) -> &mut Line {
        match from {
            End::A => &mut self.of_a,
            End::B => &mut self.of_b,
        }
    }
}

pub struct Link {
    pub pair: Pair,
    lines: Lines,
}

// Manual, since a derived `Drop` would be expanded wherever a value is dropped.
impl Drop for Link {
    fn drop(self) {
        let Link {
            pair: _pair,
            lines: _lines,
        } = self;
    }
}

impl Link {
    pub fn new(rt: &(impl Abort + AllocGlobal), first: Config, second: Config) -> Link {
        match Pair::new(rt.alloc(), first, second) {
            Ok(pair) => Link {
                pair,
                lines: Lines {
                    of_a: VecDeque::new(rt.alloc()),
                    of_b: VecDeque::new(rt.alloc()),
                },
            },
            Err(refusal) => panic!(rt; "{refusal:?} of {first:?} and {second:?}"),
        }
    }

    fn step(&mut self, event: Event) -> Result<Reply, Memory> {
        self.pair.step(event)
    }

    fn settle(&mut self) -> Result<Settled, Memory> {
        self.pair.settle()
    }

    fn recover(&mut self) -> Result<Recovered, Memory> {
        self.pair.recover()
    }

    /// Returns the reply to an event. No allocation fails.
    pub fn does(&mut self, rt: &impl Abort, event: Event) -> Reply {
        match self.step(event) {
            Ok(reply) => reply,
            Err(refused) => panic!(rt; "{refused:?}"),
        }
    }

    /// Returns whether the end accepts this message.
    pub fn sends(&mut self, rt: &(impl Abort + AllocGlobal), end: End, message: &[u8]) -> bool {
        let bytes = copy_of(rt, message);
        matches!(self.does(rt, Event::Send(end, bytes)), Reply::Accepted(_))
    }

    /// Puts the end's next frame on the line, if there is one.
    pub fn polls(&mut self, rt: &impl Abort, from: End) {
        if let Reply::Wrote(frame) = self.does(rt, Event::Poll(from)) {
            let kept = self.lines.of(from).push_back(frame.into_vec());
            assert!(rt; kept.is_ok());
        }
    }

    /// Has these bytes arrive.
    pub fn arrives(&mut self, rt: &impl Abort, to: End, bytes: Bytes) {
        let Reply::Notices(_told) = self.does(rt, Event::Arrive(to, bytes)) else {
            panic!(rt; "an arrival tells notices");
        };
    }

    /// Has the first frame of the line arrive, if there is one.
    pub fn passes(&mut self, rt: &impl Abort, from: End) {
        if let Some(front) = self.lines.of(from).pop_front() {
            self.arrives(rt, from.other(), Bytes::new(front));
        }
    }

    /// Has this many bytes of the first frame arrive; the rest stays on the line.
    pub fn cuts(&mut self, rt: &(impl Abort + AllocGlobal), from: End, count: usize) {
        if let Some(front) = self.lines.of(from).pop_front() {
            let count = count.min(front.len());
            let bytes = copy_of(rt, &front[..count]);
            if count < front.len() {
                let rest = copy_of(rt, &front[count..]).into_vec();
                assert!(rt; self.lines.of(from).push_front(rest).is_ok());
            }
            self.arrives(rt, from.other(), bytes);
        }
    }

    /// Has the first frame arrive, and keeps it on the line.
    pub fn doubles(&mut self, rt: &(impl Abort + AllocGlobal), from: End) {
        if let Some(front) = self.lines.of(from).front() {
            let bytes = copy_of(rt, front);
            self.arrives(rt, from.other(), bytes);
        }
    }

    /// Drops the first frame.
    pub fn loses(&mut self, from: End) {
        let _lost = self.lines.of(from).pop_front();
    }

    /// Changes a byte of the first frame.
    pub fn damages(&mut self, from: End, at: usize, change: u8) {
        if let Some(front) = self.lines.of(from).front_mut() {
            if let Some(byte) = front.get_mut(at) {
                *byte ^= change;
            }
        }
    }

    /// Removes a byte of the first frame.
    pub fn leaves_out(&mut self, from: End, at: usize) {
        if let Some(front) = self.lines.of(from).front_mut() {
            if at < front.len() {
                let _left_out = front.remove(at);
            }
        }
    }

    /// Returns how many bytes the first frame has.
    pub fn front(&mut self, from: End) -> usize {
        match self.lines.of(from).front() {
            Some(front) => front.len(),
            None => 0,
        }
    }

    /// Drops all that is on the line.
    pub fn loses_all(&mut self) {
        self.lines.of_a.clear();
        self.lines.of_b.clear();
    }

    /// Drops all that is on the line, and then settles.
    pub fn settles(&mut self, rt: &impl Abort) -> Settled {
        self.loses_all();
        match self.settle() {
            Ok(settled) => settled,
            Err(refused) => panic!(rt; "{refused:?}"),
        }
    }

    /// Runs a recovery: a settle and two rounds.
    pub fn recovers(&mut self, rt: &impl Abort) -> Recovered {
        self.loses_all();
        match self.recover() {
            Ok(recovered) => recovered,
            Err(refused) => panic!(rt; "{refused:?}"),
        }
    }

    /// Has both timers expire, and then settles.
    pub fn rounds(&mut self, rt: &impl Abort) -> Settled {
        let _a = self.does(rt, Event::Expire(End::A));
        let _b = self.does(rt, Event::Expire(End::B));
        self.settles(rt)
    }

    /// Checks that on an honest line and in a clean run what was delivered is a prefix of what was
    /// accepted at the other end, and no more is reported acknowledged than was delivered.
    pub fn keeps_its_promise(&self, rt: &impl Abort) {
        if self.pair.honest() && self.pair.clean() {
            self.is_in_order(rt, End::A);
            self.is_in_order(rt, End::B);
            self.acknowledges_what_came(rt, End::A);
            self.acknowledges_what_came(rt, End::B);
        }
    }

    fn acknowledges_what_came(&self, rt: &impl Abort, end: End) {
        assert!(rt; self.pair.acknowledged(end) <= self.pair.handed_up(end.other()) as u64);
    }

    /// Checks that what was delivered at an end is a prefix of what was accepted at the other.
    pub fn is_in_order(&self, rt: &impl Abort, to: End) {
        let from = to.other();
        let mut out = [0; LONGEST];
        assert!(rt; self.pair.handed_up(to) <= self.pair.given(from));
        for i in 0..self.pair.handed_up(to) {
            assert!(rt; i < self.pair.given(from) && i < self.pair.handed_up(to));
            assert!(rt; usize::from(self.pair.config(to).max) <= LONGEST);
            let length = self.pair.handed_up_at(to, i, &mut out);
            assert!(rt; length <= LONGEST);
            assert_eq!(rt; &out[..length], self.pair.given_at(from, i), "{to:?} {i}");
        }
    }

    /// Checks that both ends run, and that all that was accepted at each was delivered at the other
    /// and is reported acknowledged.
    pub fn is_done(&self, rt: &impl Abort) {
        for end in [End::A, End::B] {
            assert_eq!(rt; self.pair.station(end).state(), State::Running, "{end:?}");
            let given = self.pair.given(end);
            assert_eq!(rt; self.pair.handed_up(end.other()), given, "{end:?}");
            assert_eq!(rt; self.pair.acknowledged(end), given as u64, "{end:?}");
        }
        assert!(rt; self.pair.honest() && self.pair.clean());
        self.keeps_its_promise(rt);
    }
}

/// Copies bytes.
pub fn copy_of(rt: &(impl Abort + AllocGlobal), bytes: &[u8]) -> Bytes {
    match Vec::from_slice(rt.alloc(), bytes) {
        Ok(copied) => Bytes::new(copied),
        Err(_refused) => panic!(rt; "no memory"),
    }
}
