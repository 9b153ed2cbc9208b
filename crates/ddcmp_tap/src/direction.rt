//! One direction of a tap: bytes received from a side, to be forwarded unchanged, and their log.
ghost use Rattle.std.specs.Prelude.{◌≡◌, ◌+◌, ◌<◌, ◌≤◌, ◌++◌, [], ℕ, List, IfOk, drop, false};
ghost use Rattle.std.specs.Prelude.{length, take, true};
ghost use Rattle.ddcmp_frame.specs.Limits.{MAX_COUNT};
ghost use Rattle.ddcmp_ports.specs.declared.port.Need.{Need as NeedValue};
ghost use Rattle.ddcmp_log.specs.Items.{HasTold};
ghost use Rattle.ddcmp_log.specs.Logged.{items_added, logged_lines};
ghost use Rattle.ddcmp_tap.specs.Forwarding.{Forwards, IsOf, ends, is_counted_out, need_of};
ghost use Rattle.ddcmp_tap.specs.Forwarding.{room_of};

use ddcmp_io::{ByteQueue, MemorySink};
use ddcmp_log::{ItemLog, LogNotation, NoMemory, Side, Stamp};
use ddcmp_ports::Need;
use std::alloc::Global;
use std::marker::Model;

/// The maximum number of bytes that a direction queues.
pub const ROOM: usize = 65536;

/// How many received bytes were taken, and whether their lines are in the text.
#[derive(Clone, Copy)]
pub struct Taken {
    pub used: usize,
    pub is_logged: bool,
}

/// The bytes received from one side. They are queued until they were forwarded to the other side.
pub struct Direction {
    waiting: ByteQueue,
    log: ItemLog,
    /// Whether the side sends no more.
    ended: bool,
    /// Whether the other side was told so.
    over: bool,
}

// Manual, since a derived `Drop` would be expanded wherever a value is dropped.
impl Drop for Direction {
    fn drop(self) {
        let Direction {
            waiting: _waiting,
            log: _log,
            ended: _,
            over: _,
        } = self;
    }
}

impl Model for Direction {
    ghost use Rattle.std.specs.Prelude.{◌≡◌};
    ghost use Rattle.ddcmp_tap.specs.Forwarding.{DirectionView};
    ghost use Rattle.ddcmp_tap.specs.declared.direction.TheConstants.{ROOM};

    ghost Value = { DirectionView };

    ghost view = { λ d. record {
      log = d.log;
      waiting = d.waiting.waiting;
      room = d.waiting.room;
      ended = d.ended;
      over = d.over;
    } };

    ghost invariant = { λ d. d.waiting.size ≡ ROOM };
}

impl Direction {
    /// Makes a direction without bytes.
    pub fn new(
        alloc: Global,
        side: Side,
        notation: LogNotation,
        max: u16,
    ) -> Result<Direction, NoMemory>
        requires low { 0 < max }
        requires high { max ≤ MAX_COUNT }
        ensures forwards { IfOk result (λ made. Forwards made [] [] []) }
        ensures log { IfOk result (λ made. IsOf side notation max made.log) }
        ensures open { IfOk result (λ made. (made.ended ≡ false) × (made.over ≡ false)) }
    {
        let Ok(waiting) = ByteQueue::new(alloc, ROOM) else {
            return Err(NoMemory);
        };
        Ok(Direction {
            waiting,
            log: ItemLog::new(alloc, side, notation, max)?,
            ended: false,
            over: false,
        })
    }

    /// Returns how many bytes may be received now: 65,536 if all were forwarded, none after
    /// 2^64 - 1 bytes.
    pub fn room(&self) -> usize
        ensures value { result ≡ room_of self.now }
        ensures most { result + length self.now.waiting ≤ 65536 }
    {
        let room = self.waiting.room();
        let countable = self.log.room();
        if countable < room as u64 {
            countable as usize
        } else {
            room
        }
    }

    /// Returns what is needed of a line whose received bytes this direction forwards, while the
    /// other one writes to it.
    pub(crate) fn need(&self, other: &Direction) -> Need
        ensures { result ≡ need_of self.now other.now }
    {
        if other.ends() {
            Need::Shutting
        } else if !self.ended && self.room() > 0 {
            Need::Bytes
        } else {
            Need::Nothing
        }
    }

    /// Returns whether the other side is to be told that this one has ended.
    fn ends(&self) -> bool
        ensures { result ≡ ends self.now }
    {
        self.ended && !self.over && self.waiting().is_empty()
    }

    /// Returns whether no more bytes can be counted, and all were forwarded.
    pub(crate) fn is_counted_out(&self) -> bool
        ensures { result ≡ is_counted_out self.now }
    {
        !self.ended && self.log.room() == 0 && self.waiting().is_empty()
    }

    /// Takes received bytes, as many as there is room for, and appends the lines of the items that
    /// they complete to a text.
    pub fn push(&mut self, text: &mut MemorySink, stamp: Option<Stamp>, bytes: &[u8]) -> Taken
        requires some { 0 < length bytes.now }
        requires room { 0 < room_of self.old }
        requires going { self.old.ended ≡ false }
        requires whole { text.old.refused ≡ false }
        ensures some { 0 < result.used }
        ensures fits { result.used ≤ length bytes.now }
        ensures going { self.new.ended ≡ false }
        ensures forwards { (came gone whole : List ℕ) → Forwards self.old came gone whole
            → Forwards self.new (came ++ take result.used bytes.now) gone whole }
        ensures log { (side : Side) (notation : LogNotation) (max : ℕ)
            → IsOf side notation max self.old.log → IsOf side notation max self.new.log }
        ensures whole { result.is_logged ≡ true → text.new.refused ≡ false }
        ensures lines { result.is_logged ≡ true → (came : List ℕ)
            → HasTold self.old.log.frames self.old.log.items came
            → text.new.bytes.items ≡ text.old.bytes.items
            ++ logged_lines self.old.log.notation stamp self.old.log.side
            (items_added self.old.log.frames.max came (take result.used bytes.now)) }
    {
        let used = self.room().min(bytes.len());
        let bytes = &bytes[..used];
        self.waiting.push(bytes);
        let is_logged = self.log.log(text, stamp, bytes).is_ok() && !text.refused;
        Taken { used, is_logged }
    }

    /// Returns the bytes to be forwarded to the other side.
    pub fn waiting(&self) -> &[u8]
        ensures { result.now ≡ self.now.waiting }
    {
        self.waiting.waiting()
    }

    /// Removes the first `n` waiting bytes, which the other side took.
    pub fn took(&mut self, n: usize)
        requires { n ≤ length self.old.waiting }
        ensures forwards { (came gone whole : List ℕ) → Forwards self.old came gone whole
            → Forwards self.new came (gone ++ take n self.old.waiting) whole }
        ensures waiting { self.new.waiting ≡ drop n self.old.waiting }
        ensures room { self.old.room ≤ self.new.room }
        ensures log { self.new.log ≡ self.old.log }
        ensures ended { self.new.ended ≡ self.old.ended }
    {
        self.waiting.took(n);
    }

    /// Notes that the side sends no more.
    pub fn end(&mut self)
        ensures { self.new ≡ record self.old { ended = true } }
    {
        self.ended = true;
    }

    /// Notes that the other side was told so.
    pub(crate) fn was_shut(&mut self)
        ensures { self.new ≡ record self.old { over = true } }
    {
        self.over = true;
    }

    /// Returns whether the side has ended, and all its bytes and its end were forwarded.
    pub(crate) fn is_over(&self) -> bool
        ensures { result ≡ self.now.over }
    {
        self.over
    }

    /// Returns the log of the received bytes.
    pub(crate) fn log(&self) -> &ItemLog
        ensures { result.now ≡ self.now.log }
    {
        &self.log
    }
}
