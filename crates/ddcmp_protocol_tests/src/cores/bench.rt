//! A core over two stores, for which calls are made one after another and their results checked.
ghost use Rattle.std.specs.Prelude.{◌≡◌, ◌≤◌};

use ddcmp_core::{
    ControlType, Core, Counted, Counters, Flags, Header, Input, Notice, Numbers, SendRefusal, Seq,
    Short, StartRefusal, State,
};
use ddcmp_window::{Memory, SlotStore};
use std::alloc::Global;
use std::process::Abort;

const NO_FLAGS: Flags = Flags { q: false, s: false };

const BOTH_FLAGS: Flags = Flags { q: true, s: true };

/// The header of a frame.
#[derive(Clone, Copy)]
pub enum Frame {
    /// With this RESP.
    Ack(u8),
    /// With this reason and RESP.
    Nak(u8, u8),
    /// With this NUM.
    Rep(u8),
    Strt,
    Stack,
    /// A data message of one byte, with this NUM and RESP.
    Data(u8, u8),
    /// A maintenance message of three bytes.
    Maintenance,
}

/// A call of a core, with its arguments and its expected result.
#[derive(Clone, Copy)]
pub enum Row {
    Start(Result<u8, StartRefusal>),
    EnterMaintenance(Result<u8, StartRefusal>),
    AcknowledgeOnTake(bool, Result<(), StartRefusal>),
    Halt,
    Send(&'static [u8], Result<Seq, SendRefusal>),
    SendMaintenance(&'static [u8], Result<(), SendRefusal>),
    /// A frame is received, with one byte of data, or three in maintenance.
    Receive(Frame, Option<Notice>),
    /// A header with a wrong CRC.
    ReceiveDamage,
    ReceiveDamagedData,
    ReceiveTooLong,
    ReceiveNoFormat,
    /// The next frame's header.
    Next(Option<Frame>),
    /// The length of the message that is taken, if there is one.
    Take(Option<usize>),
    Expire(bool),
    TakeArm(bool),
    /// Fills the buffer with zeros.
    Clean,
    NextHeader(Option<Frame>),
    SendRefusal(&'static [u8], Option<SendRefusal>),
    State(State),
    /// R, N, A and T.
    Numbers(u8, u8, u8, u8),
    Outgoing(u8),
    Waiting(u8),
    WaitingLength(u8, usize),
    WaitingAt(u8, usize),
    TimerOn(bool),
    Bytes(usize),
    Room(bool),
    MessagesAgain(u32),
    /// The number of received NAKs with reason 3.
    RepliesToRep(u32),
    /// The number of received NAKs with reason 2.
    DataChecks(u32),
    /// What is in the buffer to which messages are taken.
    Took([u8; 4]),
}

fn control(kind: ControlType, sub: u8, flags: Flags, resp: u8, num: u8) -> Header
    requires { sub ≤ 63 }
{
    Header::Control(Short {
        kind,
        sub,
        flags,
        resp,
        num,
        addr: 1,
    })
}

fn counted(count: u16, flags: Flags, resp: u8, num: u8) -> Counted
    requires at_least { 1 ≤ count }
    requires at_most { count ≤ 16383 }
{
    Counted {
        count,
        flags,
        resp,
        num,
        addr: 1,
    }
}

/// Returns a frame's header; None if the reason of a NAK is out of range.
fn header_of(frame: Frame) -> Option<Header> {
    let header = match frame {
        Frame::Ack(resp) => control(ControlType::Ack, 0, NO_FLAGS, resp, 0),
        Frame::Nak(reason, resp) => {
            if reason > 63 {
                return None;
            }
            control(ControlType::Nak, reason, NO_FLAGS, resp, 0)
        }
        Frame::Rep(num) => control(ControlType::Rep, 0, NO_FLAGS, 0, num),
        Frame::Strt => control(ControlType::Strt, 0, BOTH_FLAGS, 0, 0),
        Frame::Stack => control(ControlType::Stack, 0, BOTH_FLAGS, 0, 0),
        Frame::Data(num, resp) => Header::Data(counted(1, NO_FLAGS, resp, num)),
        Frame::Maintenance => Header::Maint(counted(3, BOTH_FLAGS, 0, 0)),
    };
    Some(header)
}

/// Returns whether this is the header of the frame, or there is neither.
fn is_header(header: Option<Header>, frame: Option<Frame>) -> bool {
    match (header, frame) {
        (Some(header), Some(frame)) => header_of(frame) == Some(header),
        (None, None) => true,
        _ => false,
    }
}

/// A core whose messages have at most four bytes, and a buffer for messages.
pub struct Bench {
    core: Core<SlotStore>,
    out: [u8; 4],
    ghost longest: { core.limits.longest ≡ 4 },
}

// Manual, since a derived `Drop` would be expanded wherever a value is dropped.
impl Drop for Bench {
    fn drop(self) {
        let Bench {
            core: _core,
            out: _out,
        } = self;
    }
}

impl Bench {
    pub fn new(alloc: Global, window: u8, restart: bool) -> Result<Bench, Memory>
        requires { 1 ≤ window }
    {
        let out = SlotStore::new(alloc, window, 4)?;
        let inbox = SlotStore::new(alloc, 5, 4)?;
        Ok(Bench {
            core: Core::new(out, inbox, restart),
            out: [0; 4],
        })
    }

    fn receives(&mut self, header: Header) -> Option<Notice> {
        match header {
            Header::Control(_control) => self.core.on(&Input::Good(header, b"")),
            Header::Data(counted) if counted.count == 1 => self.core.on(&Input::Good(header, b"a")),
            Header::Maint(counted) if counted.count == 3 => {
                self.core.on(&Input::Good(header, b"abc"))
            }
            _ => None,
        }
    }

    /// Receives a fault, of a data message if it has a header.
    fn receives_fault(&mut self, row: Row) -> Option<Notice> {
        let data = Header::Data(counted(1, NO_FLAGS, 0, 1));
        match row {
            Row::ReceiveDamagedData => self.core.on(&Input::DataCheck(data)),
            Row::ReceiveTooLong => self.core.on(&Input::TooLong(data)),
            Row::ReceiveNoFormat => self.core.on(&Input::Format),
            _ => self.core.on(&Input::HeaderCheck),
        }
    }

    fn sends(&mut self) -> Option<Header> {
        let mut out = [0; 4];
        self.core.next(&mut out).map(|(header, _length)| header)
    }

    fn is_received(&mut self, frame: Frame, notice: Option<Notice>) -> bool {
        match header_of(frame) {
            Some(header) => self.receives(header) == notice,
            None => false,
        }
    }

    fn is_waiting_length(&self, i: u8, length: usize) -> bool {
        i < self.core.waiting() && self.core.waiting_length(i) == length
    }

    fn is_waiting_at(&mut self, i: u8, length: usize) -> bool {
        i < self.core.waiting() && self.core.waiting_at(i, &mut self.out) == length
    }

    fn starts(&mut self) -> Result<u8, StartRefusal> {
        self.core.start()
    }

    fn enters_maintenance(&mut self) -> Result<u8, StartRefusal> {
        self.core.enter_maintenance()
    }

    fn halts(&mut self) {
        self.core.halt();
    }

    fn gives(&mut self, message: &[u8]) -> Result<Seq, SendRefusal> {
        self.core.send(message)
    }

    fn gives_maintenance(&mut self, message: &[u8]) -> Result<(), SendRefusal> {
        self.core.send_maintenance(message)
    }

    fn takes(&mut self) -> Option<usize> {
        self.core.take(&mut self.out)
    }

    fn expires(&mut self) -> bool {
        self.core.expire()
    }

    fn takes_arm(&mut self) -> bool {
        self.core.take_arm()
    }

    pub fn counters(&self) -> Counters {
        *self.core.counters()
    }

    fn next_header(&self) -> Option<Header> {
        self.core.next_header()
    }

    fn refusal(&self, message: &[u8]) -> Option<SendRefusal> {
        self.core.send_refusal(message)
    }

    fn has_numbers(&self, r: u8, n: u8, a: u8, t: u8) -> bool {
        let numbers = Numbers {
            r: Seq(r),
            n: Seq(n),
            a: Seq(a),
            t: Seq(t),
        };
        self.core.numbers() == numbers
    }

    /// Returns whether the counters are as in the row.
    fn is_counted(&self, row: Row) -> bool {
        let counters = self.counters();
        match row {
            Row::MessagesAgain(count) => counters.messages_again == count,
            Row::RepliesToRep(count) => counters.nak_received.reply_to_rep == count,
            Row::DataChecks(count) => counters.nak_received.data_check == count,
            _ => false,
        }
    }

    /// Returns whether the core, or the buffer, is as in the row.
    fn is_told(&self, row: Row) -> bool {
        match row {
            Row::NextHeader(frame) => is_header(self.next_header(), frame),
            Row::SendRefusal(message, answer) => self.refusal(message) == answer,
            Row::State(answer) => self.core.state() == answer,
            Row::Numbers(r, n, a, t) => self.has_numbers(r, n, a, t),
            Row::Outgoing(answer) => self.core.outgoing() == answer,
            Row::Waiting(answer) => self.core.waiting() == answer,
            Row::WaitingLength(i, length) => self.is_waiting_length(i, length),
            Row::TimerOn(answer) => self.core.timer_on() == answer,
            Row::Bytes(answer) => self.core.bytes() == answer,
            Row::Room(answer) => self.core.room() == answer,
            Row::Took(bytes) => self.out == bytes,
            _ => self.is_counted(row),
        }
    }

    /// Returns whether the core does what the row expects.
    pub fn is_right(&mut self, row: Row) -> bool {
        match row {
            Row::Start(answer) => self.starts() == answer,
            Row::EnterMaintenance(answer) => self.enters_maintenance() == answer,
            Row::AcknowledgeOnTake(on_take, answer) => {
                self.core.acknowledge_on_take(on_take) == answer
            }
            Row::Halt => {
                self.halts();
                true
            }
            Row::Send(message, answer) => self.gives(message) == answer,
            Row::SendMaintenance(message, answer) => self.gives_maintenance(message) == answer,
            Row::Receive(frame, notice) => self.is_received(frame, notice),
            Row::ReceiveDamage
            | Row::ReceiveDamagedData
            | Row::ReceiveTooLong
            | Row::ReceiveNoFormat => self.receives_fault(row).is_none(),
            Row::Next(frame) => is_header(self.sends(), frame),
            Row::Take(answer) => self.takes() == answer,
            Row::Expire(answer) => self.expires() == answer,
            Row::TakeArm(answer) => self.takes_arm() == answer,
            Row::WaitingAt(i, length) => self.is_waiting_at(i, length),
            Row::Clean => {
                self.out = [0; 4];
                true
            }
            _ => self.is_told(row),
        }
    }

    /// Checks that each row is as expected.
    pub fn plays(&mut self, rt: &impl Abort, rows: &[Row]) {
        for (i, row) in rows.iter().enumerate() {
            assert!(rt; self.is_right(*row), "row {i}");
        }
    }
}
