//! A station for which calls are made one after another and their results checked. Each call has a
//! function of its own that promises nothing.
ghost use Rattle.std.specs.Prelude.{◌≡◌, ◌≤◌};

use ddcmp_frame::{Counted, Flags};
use ddcmp_station::{
    Config, Counters, Fed, Header, Notice, SendRefusal, Seq, StartRefusal, State, Station,
};
use std::alloc::Global;
use std::process::Abort;

/// A call of a station, with its arguments and its expected result.
#[derive(Clone, Copy)]
pub enum Row {
    Start(Result<u8, StartRefusal>),
    EnterMaintenance(Result<u8, StartRefusal>),
    Halt,
    ClearLine(bool),
    Send(&'static [u8], Result<Seq, SendRefusal>),
    SendMaintenance(&'static [u8], Result<(), SendRefusal>),
    /// A chunk that is received, how many of its bytes are used, and what is reported.
    Feed(&'static [u8], usize, Option<Notice>),
    /// The next frame; no bytes if there is none.
    Poll(&'static [u8]),
    /// The first message in the inbox, which is removed.
    Take(&'static [u8]),
    Expire(bool),
    TakeArm(bool),
    /// The first message in the inbox, which is kept.
    Shows(&'static [u8]),
    State(State),
    /// R, N, A and T.
    Numbers([u8; 4]),
    /// How many bytes are buffered and open.
    Bytes(usize, usize),
    Open(usize),
    SendRefusal(&'static [u8], Option<SendRefusal>),
    /// There is nothing to send.
    NothingNext,
    /// Data message 1 of three bytes is sent next.
    DataNext,
    Outgoing(u8),
    Waiting(u8),
    Room(bool),
    TimerOn(bool),
    Offset(u64),
    MessagesUp(u32),
    Expiries(u32),
}

/// Returns the header of data message 1 of three bytes.
fn header() -> Header {
    Header::Data(Counted {
        count: 3,
        flags: Flags { q: false, s: false },
        resp: 0,
        num: 1,
        addr: 1,
    })
}

/// Returns whether these bytes are at the front, and what is after them is unchanged.
fn begins(out: &[u8], bytes: &[u8]) -> bool {
    out.starts_with(bytes) && out.get(bytes.len()) == Some(&0xAA)
}

/// A station of the default sizes.
pub struct Bench {
    station: Station,
    ghost longest: { station.core.limits.longest ≡ 1500 },
    ghost syn: { station.syn ≤ 16 },
}

// Manual, since a derived `Drop` would be expanded wherever a value is dropped.
impl Drop for Bench {
    fn drop(self) {
        let Bench { station: _station } = self;
    }
}

/// Calls whose contracts state more than tests need.
impl Bench {
    pub fn new(rt: &impl Abort, alloc: Global, syn: u8) -> Bench
        requires { syn ≤ 16 }
    {
        let config = Config {
            window: 7,
            inbox: 8,
            max: 1500,
            syn,
            restart: false,
        };
        match Station::new(alloc, config) {
            Ok(station) => Bench { station },
            Err(_refusal) => panic!(rt; "no station"),
        }
    }

    fn numbers(&self) -> [u8; 4] {
        let numbers = self.station.numbers();
        [numbers.r.0, numbers.n.0, numbers.a.0, numbers.t.0]
    }

    fn counters(&self) -> Counters {
        *self.station.counters()
    }

    fn next_header(&self) -> Option<Header> {
        self.station.next_header()
    }

    fn send_refusal(&self, message: &[u8]) -> Option<SendRefusal> {
        self.station.send_refusal(message)
    }

    fn offset(&self) -> u64 {
        self.station.offset()
    }

    /// Returns how many bytes are buffered and open.
    fn bytes(&self) -> (usize, usize) {
        (self.station.held(), self.station.open())
    }

    fn start(&mut self) -> Result<u8, StartRefusal> {
        self.station.start()
    }

    fn enter_maintenance(&mut self) -> Result<u8, StartRefusal> {
        self.station.enter_maintenance()
    }

    fn send(&mut self, message: &[u8]) -> Result<Seq, SendRefusal> {
        self.station.send(message)
    }

    fn send_maintenance(&mut self, message: &[u8]) -> Result<(), SendRefusal> {
        self.station.send_maintenance(message)
    }

    fn expire(&mut self) -> bool {
        self.station.expire()
    }

    fn take_arm(&mut self) -> bool {
        self.station.take_arm()
    }

    fn halt(&mut self) {
        self.station.halt();
    }

    fn clear_line(&mut self) -> bool {
        self.station.clear_line()
    }

    /// Feeds it a chunk; returns None if that is too long, or too much was received before.
    fn feed(&mut self, piece: &[u8]) -> Option<Fed> {
        if self.station.offset() >= 1000 || piece.len() >= 1000 {
            return None;
        }
        Some(self.station.feed(piece))
    }

    fn poll(&mut self, out: &mut [u8; 1526]) -> Option<usize> {
        self.station.poll(out)
    }

    fn take(&mut self, out: &mut [u8; 1500]) -> Option<usize> {
        self.station.take(out)
    }

    /// Copies the first message in the inbox, if there is one; returns its length as reported, and
    /// as copied.
    fn copy_first(&self, out: &mut [u8; 1500]) -> Option<(usize, usize)> {
        if self.station.waiting() == 0 {
            return None;
        }
        Some((
            self.station.waiting_length(0),
            self.station.waiting_at(0, out),
        ))
    }
}

impl Bench {
    /// Returns whether a chunk has this result.
    fn is_fed(&mut self, piece: &[u8], used: usize, notice: Option<Notice>) -> bool {
        let offset = self.offset();
        self.feed(piece) == Some(Fed { used, notice })
            && self.offset().checked_sub(offset) == Some(used as u64)
    }

    /// Returns whether its next frame is this one.
    fn is_written(&mut self, bytes: &[u8]) -> bool {
        let mut out = [0xAA; 1526];
        self.poll(&mut out).unwrap_or(0) == bytes.len() && begins(&out, bytes)
    }

    /// Returns whether the first message in its inbox is this one, and removes it.
    fn is_taken(&mut self, message: &[u8]) -> bool {
        let mut out = [0xAA; 1500];
        self.take(&mut out) == Some(message.len()) && begins(&out, message)
    }

    /// Returns whether the first message in its inbox is this one, and keeps it.
    fn is_shown(&self, message: &[u8]) -> bool {
        let mut out = [0xAA; 1500];
        let length = message.len();
        self.copy_first(&mut out) == Some((length, length)) && begins(&out, message)
    }

    /// Returns whether the station is as in the row.
    fn is_told(&self, row: Row) -> bool {
        match row {
            Row::Shows(message) => self.is_shown(message),
            Row::State(answer) => self.station.state() == answer,
            Row::Numbers(answer) => self.numbers() == answer,
            Row::Bytes(held, open) => self.bytes() == (held, open),
            Row::Open(answer) => self.station.open() == answer,
            Row::SendRefusal(message, answer) => self.send_refusal(message) == answer,
            Row::NothingNext => self.next_header().is_none(),
            Row::DataNext => self.next_header() == Some(header()),
            Row::Outgoing(answer) => self.station.outgoing() == answer,
            Row::Waiting(answer) => self.station.waiting() == answer,
            Row::Room(answer) => self.station.room() == answer,
            Row::TimerOn(answer) => self.station.timer_on() == answer,
            Row::Offset(answer) => self.offset() == answer,
            Row::MessagesUp(answer) => self.counters().messages_up == answer,
            Row::Expiries(answer) => self.counters().expiries == answer,
            _ => false,
        }
    }

    /// Returns whether the station does what the row expects.
    fn is_right(&mut self, row: Row) -> bool {
        match row {
            Row::Start(answer) => self.start() == answer,
            Row::EnterMaintenance(answer) => self.enter_maintenance() == answer,
            Row::Halt => {
                self.halt();
                true
            }
            Row::ClearLine(answer) => self.clear_line() == answer,
            Row::Send(message, answer) => self.send(message) == answer,
            Row::SendMaintenance(message, answer) => self.send_maintenance(message) == answer,
            Row::Feed(piece, used, notice) => self.is_fed(piece, used, notice),
            Row::Poll(bytes) => self.is_written(bytes),
            Row::Take(message) => self.is_taken(message),
            Row::Expire(answer) => self.expire() == answer,
            Row::TakeArm(answer) => self.take_arm() == answer,
            _ => self.is_told(row),
        }
    }

    /// Checks that each row is as expected.
    pub fn plays(&mut self, rt: &impl Abort, rows: &[Row]) {
        for (i, row) in rows.iter().enumerate() {
            assert!(rt; self.is_right(*row), "row {i}");
        }
    }
}
