//! How a station handles its input.
ghost use Rattle.std.specs.Prelude.{◌≡◌};
ghost use Rattle.ddcmp_core.specs.Table.{acknowledged_notice as notice_told};
ghost use Rattle.ddcmp_core.specs.Frames.{is_data_header};

use crate::input::Input;
use crate::notice::Notice;
use crate::state::{Owed, State, Timer};
use crate::station_core::Core;
use ddcmp_frame::{ControlType, Counted, Header, Nak, Short};
use ddcmp_window::{Offer, Seq, Store};

/// Returns the notice that this many messages were acknowledged.
fn acknowledged(messages: u8) -> Option<Notice>
    ensures { result ≡ notice_told messages }
{
    if messages == 0 {
        None
    } else {
        Some(Notice::Acknowledged(messages))
    }
}

fn is_data(header: &Header) -> bool
    ensures { result ≡ is_data_header header.now }
{
    match header {
        Header::Data(_data) => true,
        _ => false,
    }
}

impl<S: Store> Core<S> {
    ghost use Rattle.std.specs.Prelude.{◌≡◌, ◌+◌, ◌≤◌, length, true, None, if◌then◌else◌};
    ghost use Rattle.ddcmp_core.specs.Table.{on, notice_of, halted_notice, istart_notice};
    ghost use Rattle.ddcmp_core.specs.Table.{after_startup, on_strt, strt_notice, on_rep, on_nak};
    ghost use Rattle.ddcmp_core.specs.Table.{on_data, data_notice, takes_data, after_offer};
    ghost use Rattle.ddcmp_core.specs.Table.{after_ack, newly_acknowledged, acknowledged_notice};
    ghost use Rattle.ddcmp_core.specs.Table.{acknowledged_by, with_incoming, incoming, has_room};
    ghost use Rattle.ddcmp_window.specs.Inbox.{incoming_after_put as put_unnumbered};
    ghost use Rattle.ddcmp_core.specs.Frames.{received, FitsHeader};
    ghost use Rattle.ddcmp_core.specs.Core.{is_sent_reply};
    ghost use Rattle.ddcmp_core.specs.Counting.{counters_after_up_if, counters_on};
    ghost use Rattle.ddcmp_core.specs.Inside.Receiving.{received_control, counters_on_data};
    ghost use Rattle.ddcmp_core.specs.Inside.Receiving.{core_on_istart, core_on_astart};
    ghost use Rattle.ddcmp_core.specs.Inside.Receiving.{told_in_astart};
    ghost use Rattle.ddcmp_core.specs.Inside.Receiving.{core_on_running, told_in_running};
    ghost use Rattle.ddcmp_core.specs.Inside.Receiving.{core_on_maintenance, told_in_maintenance};

    /// Handles one input from the line; returns the notice for the user, if any.
    #[tactic(auto, unfolding(crate::specs::Table::on, crate::specs::Table::notice_of, crate::specs::Counting::counters_on))]
    pub fn on(&mut self, input: &Input<'_>) -> Option<Notice>
        requires { FitsHeader self.old.limits.longest input.now }
        ensures state { self.new ≡ record self.old {
          station = on self.old.limits self.old.station (received input.now);
          counters = counters_on self.old.limits self.old.station
              (received input.now) self.old.counters;
        } }
        ensures told { result ≡ notice_of self.old.limits self.old.station (received input.now) }
        // Messages that are reported acknowledged have left the queue.
        ensures leaves { acknowledged_by result + length self.new.station.out
            ≤ length self.old.station.out }
    {
        self.counters.fault(input);
        match self.state {
            State::Halted => Self::on_halted(input),
            State::IStart => self.on_istart(input),
            State::AStart => self.on_astart(input),
            State::Running => self.on_running(input),
            State::Maintenance => self.on_maintenance(input),
        }
    }

    fn on_halted(input: &Input<'_>) -> Option<Notice>
        ensures { result ≡ halted_notice (received input.now) }
    {
        match input {
            Input::Good(header, _message) => match header {
                Header::Control(control) if control.kind == ControlType::Strt => Some(
                    Notice::PeerStarts,
                ),
                Header::Maint(_maintenance) => Some(Notice::MaintenanceSeen),
                _ => None,
            },
            _ => None,
        }
    }

    fn on_istart(&mut self, input: &Input<'_>) -> Option<Notice>
        requires { self.old.station.state ≡ State.IStart }
        ensures state { self.new ≡ core_on_istart (received input.now) self.old }
        ensures told { result ≡ istart_notice (received input.now) }
    {
        match input {
            Input::Good(header, _message) => match header {
                Header::Control(control) => self.on_istart_control(*control),
                Header::Data(_data) => None,
                Header::Maint(_maintenance) => Some(Notice::MaintenanceSeen),
            },
            _ => None,
        }
    }

    fn on_istart_control(&mut self, header: Short) -> Option<Notice>
        requires { self.old.station.state ≡ State.IStart }
        ensures state { self.new ≡ core_on_istart (received_control header) self.old }
        ensures told { result ≡ istart_notice (received_control header) }
    {
        match header.kind {
            ControlType::Strt => {
                self.state = State::AStart;
                self.due = true;
                self.timer = Timer::Off;
                None
            }
            ControlType::Stack => {
                self.enter_running();
                self.reply = Owed::Ack;
                Some(Notice::Running)
            }
            _ => None,
        }
    }

    fn enter_running(&mut self)
        ensures { self.new ≡ record self.old { station = after_startup self.old.station } }
    {
        self.state = State::Running;
        self.due = false;
        self.timer = Timer::Off;
    }

    fn on_astart(&mut self, input: &Input<'_>) -> Option<Notice>
        requires astart { self.old.station.state ≡ State.AStart }
        requires within { FitsHeader self.old.limits.longest input.now }
        ensures state { self.new ≡ core_on_astart (received input.now) self.old }
        ensures told { result ≡ told_in_astart (received input.now) self.old }
    {
        match input {
            Input::Good(header, message) => match header {
                Header::Control(control) => self.on_astart_control(*control),
                Header::Data(data) if data.resp == 0 => {
                    self.enter_running();
                    match self.on_data(*data, message) {
                        Some(Notice::HandedUp | Notice::HandedUpAndAcknowledged(_)) => Some(
                            Notice::RunningAndHandedUp,
                        ),
                        _ => Some(Notice::Running),
                    }
                }
                Header::Data(_stale) => None,
                Header::Maint(_maintenance) => Some(Notice::MaintenanceSeen),
            },
            _ => None,
        }
    }

    fn on_astart_control(&mut self, header: Short) -> Option<Notice>
        requires { self.old.station.state ≡ State.AStart }
        ensures state { self.new ≡ core_on_astart (received_control header) self.old }
        ensures told { result ≡ told_in_astart (received_control header) self.old }
    {
        match header.kind {
            ControlType::Stack => {
                self.enter_running();
                self.reply = Owed::Ack;
                Some(Notice::Running)
            }
            ControlType::Strt => {
                self.due = true;
                None
            }
            ControlType::Ack if header.resp == 0 => {
                self.enter_running();
                Some(Notice::Running)
            }
            _ => None,
        }
    }

    fn on_running(&mut self, input: &Input<'_>) -> Option<Notice>
        requires running { self.old.station.state ≡ State.Running }
        requires within { FitsHeader self.old.limits.longest input.now }
        ensures state { self.new ≡ core_on_running (received input.now) self.old }
        ensures told { result ≡ told_in_running (received input.now) self.old }
    {
        match input {
            Input::Good(header, message) => match header {
                Header::Control(control) => self.on_running_control(*control),
                Header::Data(data) => self.on_data(*data, message),
                Header::Maint(_maintenance) => Some(Notice::MaintenanceSeen),
            },
            Input::HeaderCheck => self.owe(Owed::Nak(Nak::HeaderCheck)),
            Input::DataCheck(header) if is_data(header) => self.owe(Owed::Nak(Nak::DataCheck)),
            Input::DataCheck(_other) => None,
            Input::TooLong(header) if is_data(header) => self.owe(Owed::Nak(Nak::TooLong)),
            Input::TooLong(_other) => None,
            Input::Format => self.owe(Owed::Nak(Nak::Format)),
        }
    }

    fn on_running_control(&mut self, header: Short) -> Option<Notice>
        requires { self.old.station.state ≡ State.Running }
        ensures state { self.new ≡ core_on_running (received_control header) self.old }
        ensures told { result ≡ told_in_running (received_control header) self.old }
    {
        match header.kind {
            ControlType::Strt => Some(self.on_strt()),
            ControlType::Stack => self.owe(Owed::Ack),
            ControlType::Ack => acknowledged(self.acknowledging(Seq(header.resp))),
            ControlType::Nak => {
                self.counters.nak_received(Nak::of(header.sub));
                self.on_nak(Seq(header.resp))
            }
            ControlType::Rep => {
                self.counters.rep_received();
                self.on_rep(Seq(header.num))
            }
        }
    }

    /// Sets the pending reply.
    fn owe(&mut self, reply: Owed) -> Option<Notice>
        requires { is_sent_reply reply ≡ true }
        ensures state { self.new
            ≡ record self.old { station = record self.old.station { reply = reply } } }
        ensures told { result ≡ None }
    {
        self.reply = reply;
        None
    }

    /// Handles a REP: this number is the highest that the peer sent.
    fn on_rep(&mut self, num: Seq) -> Option<Notice>
        ensures state { self.new ≡ record self.old { station = on_rep self.old.station num.0 } }
        ensures told { result ≡ None }
    {
        if num == self.inbox.last() {
            self.owe(Owed::Ack)
        } else {
            self.owe(Owed::Nak(Nak::ReplyToRep))
        }
    }

    /// Handles a STRT in a running station.
    fn on_strt(&mut self) -> Notice
        requires { self.old.station.state ≡ State.Running }
        ensures state { self.new
            ≡ record self.old { station = on_strt self.old.limits self.old.station } }
        ensures told { result ≡ strt_notice self.old.limits self.old.station }
    {
        if self.restart && self.inbox.len() == 0 {
            return Notice::Restarted(self.begin(State::AStart, true));
        }
        self.halt();
        Notice::PeerRestarted
    }

    /// Handles an acknowledgement of all messages up to a number; returns how many are newly
    /// acknowledged.
    fn acknowledging(&mut self, resp: Seq) -> u8
        requires { self.old.station.state ≡ State.Running }
        ensures state { self.new ≡ record self.old { station = after_ack self.old.station resp.0 } }
        ensures newly { result ≡ newly_acknowledged self.old.station resp.0 }
    {
        let messages = self.sender.acknowledged(resp);
        if messages > 0 {
            self.rep = false;
            self.timer = if resp == self.sender.last_sent() {
                Timer::Off
            } else {
                Timer::Fresh
            };
        }
        messages
    }

    /// Handles a NAK: it acknowledges all messages up to a number, and asks for those after it.
    fn on_nak(&mut self, resp: Seq) -> Option<Notice>
        requires { self.old.station.state ≡ State.Running }
        ensures state { self.new ≡ record self.old { station = on_nak self.old.station resp.0 } }
        ensures told { result ≡ acknowledged_notice (newly_acknowledged self.old.station resp.0) }
    {
        match self.sender.refused(resp) {
            None => None,
            Some(messages) => {
                self.rep = false;
                self.timer = Timer::Off;
                acknowledged(messages)
            }
        }
    }

    /// Handles a data message in a running station.
    fn on_data(&mut self, header: Counted, message: &[u8]) -> Option<Notice>
        requires running { self.old.station.state ≡ State.Running }
        requires count { header.count ≡ length message.now }
        requires longest { length message.now ≤ self.old.limits.longest }
        ensures state { self.new ≡ record self.old {
          station = on_data self.old.limits self.old.station header.resp header.num message.now;
          counters = counters_on_data header.num message.now self.old;
        } }
        ensures told { result
            ≡ data_notice self.old.limits self.old.station header.resp header.num }
    {
        let messages = self.acknowledging(Seq(header.resp));
        let is_taken = self.offer(header, message);
        if is_taken && messages == 0 {
            Some(Notice::HandedUp)
        } else if is_taken {
            Some(Notice::HandedUpAndAcknowledged(messages))
        } else {
            acknowledged(messages)
        }
    }

    /// Offers a data message to the inbox; returns whether it is there now.
    fn offer(&mut self, header: Counted, message: &[u8]) -> bool
        requires running { self.old.station.state ≡ State.Running }
        requires count { header.count ≡ length message.now }
        requires longest { length message.now ≤ self.old.limits.longest }
        ensures state { self.new ≡ record self.old {
          station = after_offer self.old.limits self.old.station header.num message.now;
          counters = counters_on_data header.num message.now self.old;
        } }
        ensures taken { result ≡ takes_data self.old.limits self.old.station header.num }
    {
        let number = Seq(header.num);
        match self.inbox.offer(number, message) {
            Offer::Accepted => {
                self.reply = self.reply.after_message(self.by_user);
                self.counters.up(message.len());
                true
            }
            Offer::NoRoom => {
                self.reply = Owed::Nak(Nak::NoBuffer);
                false
            }
            Offer::OutOfSequence => false,
        }
    }

    fn on_maintenance(&mut self, input: &Input<'_>) -> Option<Notice>
        requires maintenance { self.old.station.state ≡ State.Maintenance }
        requires within { FitsHeader self.old.limits.longest input.now }
        ensures state { self.new ≡ core_on_maintenance (received input.now) self.old }
        ensures told { result ≡ told_in_maintenance (received input.now) self.old }
    {
        match input {
            Input::Good(header, message) => match header {
                Header::Control(control) if control.kind == ControlType::Strt => Some(
                    Notice::PeerStarts,
                ),
                Header::Maint(maintenance) => Some(self.offer_maintenance(*maintenance, message)),
                _ => None,
            },
            _ => None,
        }
    }

    fn offer_maintenance(&mut self, header: Counted, message: &[u8]) -> Notice
        requires maintenance { self.old.station.state ≡ State.Maintenance }
        requires count { header.count ≡ length message.now }
        requires longest { length message.now ≤ self.old.limits.longest }
        ensures state { self.new ≡ record self.old {
          station = with_incoming self.old.station
              (put_unnumbered self.old.limits.room (incoming self.old.station) message.now);
          counters = counters_after_up_if (has_room self.old.limits self.old.station)
              (length message.now) self.old.counters;
        } }
        ensures told { result ≡ (if has_room self.old.limits self.old.station
            then Notice.MaintenanceHandedUp else Notice.MaintenanceDropped) }
    {
        if !self.inbox.put(message) {
            return Notice::MaintenanceDropped;
        }
        self.counters.up(header.count as usize);
        Notice::MaintenanceHandedUp
    }
}
