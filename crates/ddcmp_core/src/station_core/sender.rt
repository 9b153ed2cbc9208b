//! The frames that a station sends.
ghost use Rattle.std.specs.Prelude.{◌≡◌, ◌<◌, ◌≤◌};
ghost use Rattle.ddcmp_core.specs.Frames.{control_header, data_header, maint_header};

use crate::state::{Owed, State, Timer};
use crate::station_core::Core;
use ddcmp_frame::{ControlType, Counted, Flags, Header, MAX_COUNT, Nak, Short};
use ddcmp_window::{Seq, Store};

/// The address that a station writes.
const ADDRESS: u8 = 1;

const NO_FLAGS: Flags = Flags { q: false, s: false };

const BOTH_FLAGS: Flags = Flags { q: true, s: true };

/// The frame that is sent next: a row of the table.
#[derive(Clone, Copy)]
enum Sending {
    Nothing,
    Strt,
    Stack,
    Nak(Nak),
    Rep,
    /// The next message of the window: its number and its length.
    Data(Seq, usize),
    Ack,
    /// The first maintenance message: its length.
    Maint(usize),
}

/// Makes the header of a control message.
fn control(kind: ControlType, sub: u8, flags: Flags, resp: u8, num: u8) -> Header
    requires { sub < 64 }
    ensures { result ≡ control_header kind sub flags resp num }
{
    Header::Control(Short {
        kind,
        sub,
        flags,
        resp,
        num,
        addr: ADDRESS,
    })
}

/// Makes the header of a data message of this many bytes.
fn data(count: usize, resp: u8, num: u8) -> Header
    requires { (1 ≤ count) × (count ≤ MAX_COUNT) }
    ensures { result ≡ data_header count resp num }
{
    Header::Data(Counted {
        count: count as u16,
        flags: NO_FLAGS,
        resp,
        num,
        addr: ADDRESS,
    })
}

/// Makes the header of a maintenance message of this many bytes.
fn maintenance(count: usize) -> Header
    requires { (1 ≤ count) × (count ≤ MAX_COUNT) }
    ensures { result ≡ maint_header count }
{
    Header::Maint(Counted {
        count: count as u16,
        flags: BOTH_FLAGS,
        resp: 0,
        num: 0,
        addr: ADDRESS,
    })
}

impl<S: Store> Core<S> {
    ghost use Rattle.std.specs.Prelude.{◌≡◌, ◌≤◌, length, option_map};
    ghost use Rattle.ddcmp_window.specs.Store.{with_front};
    ghost use Rattle.ddcmp_core.specs.Table.{next, next_running, next_frame, after_next};
    ghost use Rattle.ddcmp_core.specs.Table.{resp_of};
    ghost use Rattle.ddcmp_core.specs.Inside.NextSending.{next_of, FitsSending};
    ghost use Rattle.ddcmp_core.specs.Frames.{header_of, message_of, data_length};
    ghost use Rattle.ddcmp_core.specs.Frames.{header_and_length};
    ghost use Rattle.ddcmp_core.specs.Counting.{counters_after_next};
    ghost use Rattle.ddcmp_core.specs.Core.{IsSound};

    /// Returns the next frame: its header, and the length of its data, which it copies to the front
    /// of `out`.
    pub fn next(&mut self, out: &mut [u8]) -> Option<(Header, usize)>
        requires { self.old.limits.longest ≤ length out.old }
        ensures state { self.new ≡ record self.old {
          station = after_next (next self.old.station) self.old.station;
          counters = counters_after_next self.old.station (next self.old.station) self.old.counters;
        } }
        ensures frame { result ≡ option_map header_and_length (next_frame (next self.old.station)) }
        ensures out { out.new
            ≡ with_front (option_map message_of (next_frame (next self.old.station))) out.old }
        ensures sound { IsSound self.old.limits self.old.station }
    {
        let sending = self.sending();
        let header = self.header(sending);
        let length = self.advance(sending, out);
        header.map(|header| (header, length))
    }

    /// Returns the header of the frame that `next` would return.
    pub fn next_header(&self) -> Option<Header>
        ensures header { result ≡ option_map header_of (next_frame (next self.now.station)) }
        ensures sound { IsSound self.now.limits self.now.station }
    {
        self.header(self.sending())
    }

    /// Returns the row of the table that is next, by the order of precedence.
    #[tactic(auto, unfolding(crate::specs::Table::next))]
    fn sending(&self) -> Sending
        ensures row { next self.now.station ≡ next_of result self.now.station }
        ensures fits { FitsSending result self.now.station }
    {
        match self.state {
            State::IStart if self.due => Sending::Strt,
            State::AStart if self.due => Sending::Stack,
            State::Running => self.sending_running(),
            State::Maintenance => match self.sender.first_length() {
                Some(length) => Sending::Maint(length),
                None => Sending::Nothing,
            },
            _ => Sending::Nothing,
        }
    }

    /// The same for a running station.
    fn sending_running(&self) -> Sending
        requires { self.now.station.state ≡ State.Running }
        ensures row { let s = self.now.station in next_running s.reply s ≡ next_of result s }
        ensures fits { FitsSending result self.now.station }
    {
        if let Owed::Nak(reason) = self.reply {
            return Sending::Nak(reason);
        }
        if self.rep {
            return Sending::Rep;
        }
        match self.sender.peek() {
            Some((number, length)) => Sending::Data(number, length),
            None if self.reply == Owed::Ack => Sending::Ack,
            None => Sending::Nothing,
        }
    }

    /// Returns the header of the frame that is sent.
    fn header(&self, sending: Sending) -> Option<Header>
        requires { FitsSending sending self.now.station }
        ensures header { result
            ≡ option_map header_of (next_frame (next_of sending self.now.station)) }
        ensures sound { IsSound self.now.limits self.now.station }
    {
        let r = self.resp();
        let n = self.sender.last_sent().0;
        match sending {
            Sending::Nothing => None,
            Sending::Strt => Some(control(ControlType::Strt, 0, BOTH_FLAGS, 0, 0)),
            Sending::Stack => Some(control(ControlType::Stack, 0, BOTH_FLAGS, 0, 0)),
            Sending::Nak(reason) => Some(control(ControlType::Nak, reason.sub(), NO_FLAGS, r, 0)),
            Sending::Rep => Some(control(ControlType::Rep, 0, NO_FLAGS, 0, n)),
            Sending::Data(number, length) => Some(data(length, r, number.0)),
            Sending::Ack => Some(control(ControlType::Ack, 0, NO_FLAGS, r, 0)),
            Sending::Maint(length) => Some(maintenance(length)),
        }
    }

    /// Returns RESP of the frames that are sent.
    fn resp(&self) -> u8
        ensures { result ≡ resp_of self.now.station }
    {
        if self.by_user {
            Seq::distance(Seq(self.inbox.len()), self.inbox.last())
        } else {
            self.inbox.last().0
        }
    }

    /// Updates the state as for a sent frame, copies its data to the front of `out` and returns
    /// their length, 0 if there are none.
    #[tactic(auto, unfolding(crate::specs::Counting::counters_after_next))]
    fn advance(&mut self, sending: Sending, out: &mut [u8]) -> usize
        requires fits { FitsSending sending self.old.station }
        requires longest { self.old.limits.longest ≤ length out.old }
        ensures state { self.new ≡ record self.old {
          station = after_next (next_of sending self.old.station) self.old.station;
          counters = counters_after_next self.old.station
              (next_of sending self.old.station) self.old.counters;
        } }
        ensures length { result
            ≡ data_length (next_frame (next_of sending self.old.station)) }
        ensures out { let row = next_of sending self.old.station in
            out.new ≡ with_front (option_map message_of (next_frame row)) out.old }
    {
        match sending {
            Sending::Nothing => 0,
            Sending::Strt | Sending::Stack => {
                self.due = false;
                self.timer = Timer::Fresh;
                0
            }
            Sending::Nak(reason) => {
                self.reply = Owed::Quiet;
                self.counters.nak_sent(reason);
                0
            }
            Sending::Rep => {
                self.rep = false;
                self.timer = Timer::Fresh;
                self.counters.rep_sent();
                0
            }
            Sending::Data(number, length) => {
                self.advance_data(number, length, out);
                length
            }
            Sending::Ack => {
                self.reply = Owed::Quiet;
                0
            }
            Sending::Maint(length) => {
                self.advance_maintenance(length, out);
                length
            }
        }
    }

    /// Sends the next message of the window.
    #[tactic(auto, unfolding(crate::specs::Counting::counters_after_next))]
    fn advance_data(&mut self, number: Seq, bytes: usize, out: &mut [u8])
        requires fits { FitsSending (Sending.Data number bytes) self.old.station }
        requires longest { self.old.limits.longest ≤ length out.old }
        ensures state { self.new ≡ record self.old {
          station = after_next (next_of (Sending.Data number bytes) self.old.station)
              self.old.station;
          counters = counters_after_next self.old.station
              (next_of (Sending.Data number bytes) self.old.station)
              self.old.counters;
        } }
        ensures out { let row = next_of (Sending.Data number bytes) self.old.station in
            out.new ≡ with_front (option_map message_of (next_frame row)) out.old }
    {
        // The data carry a pending ACK.
        self.reply = Owed::Quiet;
        self.timer = self.timer.started();
        let first = self.sender.last_sent().next();
        let _ = self.sender.next(out);
        if number == first {
            self.counters.sent(bytes);
        } else {
            self.counters.again(bytes);
        }
    }

    /// Sends the first maintenance message.
    #[tactic(auto, unfolding(crate::specs::Counting::counters_after_next))]
    fn advance_maintenance(&mut self, bytes: usize, out: &mut [u8])
        requires fits { FitsSending (Sending.Maint bytes) self.old.station }
        requires longest { self.old.limits.longest ≤ length out.old }
        ensures state { self.new ≡ record self.old {
          station = after_next (next_of (Sending.Maint bytes) self.old.station)
              self.old.station;
          counters = counters_after_next self.old.station
              (next_of (Sending.Maint bytes) self.old.station)
              self.old.counters;
        } }
        ensures out { let row = next_of (Sending.Maint bytes) self.old.station in
            out.new ≡ with_front (option_map message_of (next_frame row)) out.old }
    {
        self.counters.sent(bytes);
        let _ = self.sender.pop(out);
    }
}
