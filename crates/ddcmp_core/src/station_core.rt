//! A station over two stores.
mod receiver;
mod sender;

use crate::counters::Counters;
use crate::state::{Owed, State, Timer};
use ddcmp_window::{Inbox, SendRefusal, Sender, Seq, Store};
use std::marker::Model;

/// The reason why a station isn't started: the first that applies.
#[derive(Clone, Copy, Debug, PartialEq, Eq)]
pub enum StartRefusal {
    NotHalted,
    /// The inbox isn't empty.
    Untaken,
}

/// The numbers of a station.
#[derive(Clone, Copy, Debug, PartialEq, Eq)]
pub struct Numbers {
    /// The highest number received in sequence.
    pub r: Seq,
    /// The highest number sent.
    pub n: Seq,
    /// The highest number acknowledged.
    pub a: Seq,
    /// The next number to send.
    pub t: Seq,
}

/// One end of a link: its state, flags and numbers, the messages that it sends, an inbox of
/// received messages, and counters.
pub struct Core<S: Store> {
    state: State,
    /// A STRT or a STACK is pending.
    due: bool,
    reply: Owed,
    /// A REP is pending.
    rep: bool,
    timer: Timer,
    sender: Sender<S>,
    inbox: Inbox<S>,
    /// Restart when the peer restarts, if the inbox is empty.
    restart: bool,
    /// Messages are acknowledged when they are taken, and not when they are received.
    by_user: bool,
    counters: Counters,
}

// Manual, since a derived `Drop` is expanded wherever a core is dropped.
impl<S: Store + Drop> Drop for Core<S> {
    fn drop(self) {
        let Core {
            state: _,
            due: _,
            reply: _,
            rep: _,
            timer: _,
            sender: _sender,
            inbox: _inbox,
            restart: _,
            by_user: _,
            counters: _,
        } = self;
    }
}

impl<S: Store> Model for Core<S> {
    ghost use Rattle.std.specs.Prelude.{◌≡◌};
    ghost use Rattle.ddcmp_window.specs.Sender.{IsSoundSender};
    ghost use Rattle.ddcmp_window.specs.Inbox.{IsSoundInbox};
    ghost use Rattle.ddcmp_core.specs.Core.{CoreView, FitsState, state_of};

    ghost Value = { CoreView };

    ghost view = { λ c. record {
      limits = record {
        window = c.sender.limit;
        room = c.inbox.limit;
        longest = c.sender.longest;
        restart = c.restart;
      };
      station = state_of c.state c.due c.reply c.rep c.timer c.sender c.inbox c.by_user;
      counters = c.counters;
    } };

    ghost invariant = { λ c. (c.sender.longest ≡ c.inbox.longest) × IsSoundSender c.sender
        × IsSoundInbox c.inbox
        × FitsState (state_of c.state c.due c.reply c.rep c.timer c.sender c.inbox c.by_user) };
}

impl<S: Store> Core<S> {
    ghost use Rattle.std.specs.Prelude.{◌≡◌, ◌↔◌, ◌+◌, ◌*◌, ◌<◌, ◌≤◌, [], length, sum_by};
    ghost use Rattle.std.specs.Prelude.{slice_index_or, IsTrue, Some, Ok, Err, OnErr, option_map};
    ghost use Rattle.std.specs.Prelude.{if◌then◌else◌};
    ghost use Rattle.ddcmp_window.specs.Store.{first_message, with_front};
    ghost use Rattle.ddcmp_core.specs.Table.{new_station, may_start, answer_to_start, after_start};
    ghost use Rattle.ddcmp_core.specs.Choosing.{chosen, answer_to_choose};
    ghost use Rattle.ddcmp_core.specs.Table.{after_enter_maintenance, station_begun, after_halt};
    ghost use Rattle.ddcmp_core.specs.Table.{send_refusal as send_refusal_of, answer_to_send};
    ghost use Rattle.ddcmp_core.specs.Table.{may_send, after_accept, answer_to_send_maintenance};
    ghost use Rattle.ddcmp_core.specs.Table.{may_send_maintenance, after_take, after_expire, is_on};
    ghost use Rattle.ddcmp_core.specs.Table.{is_ack};
    ghost use Rattle.ddcmp_core.specs.Table.{is_fresh, after_take_arm};
    ghost use Rattle.ddcmp_core.specs.Counting.{no_counts, counters_after_expire};
    ghost use Rattle.ddcmp_core.specs.Core.{IsSound};

    /// Makes a halted station that stores the messages to send in `out` and the received ones in
    /// `inbox`.
    pub fn new(out: S, inbox: S, restart: bool) -> Self
        requires out_empty { S.messages out ≡ [] }
        requires inbox_empty { S.messages inbox ≡ [] }
        requires one_longest { S.longest out ≡ S.longest inbox }
        ensures { result ≡ record {
          limits = record {
            window = S.limit out;
            room = S.limit inbox;
            longest = S.longest out;
            restart = restart;
          };
          station = new_station;
          counters = no_counts;
        } }
    {
        Core {
            state: State::Halted,
            due: false,
            reply: Owed::Quiet,
            rep: false,
            timer: Timer::Off,
            sender: Sender::new(out),
            inbox: Inbox::new(inbox),
            restart,
            by_user: false,
            counters: Counters::none(),
        }
    }

    /// Asks the peer to start; returns how many queued messages were dropped.
    pub fn start(&mut self) -> Result<u8, StartRefusal>
        ensures state { self.new ≡ record self.old {
          station = if may_start self.old.station then after_start self.old.station
              else self.old.station;
        } }
        ensures answer { result ≡ answer_to_start self.old.station }
        ensures refused { OnErr result (self.new ≡ self.old) }
    {
        self.begin_halted(State::IStart, true)
    }

    /// Enters the Maintenance state; returns how many queued messages were dropped.
    pub fn enter_maintenance(&mut self) -> Result<u8, StartRefusal>
        ensures state { self.new ≡ record self.old {
          station = if may_start self.old.station then after_enter_maintenance self.old.station
              else self.old.station;
        } }
        ensures answer { result ≡ answer_to_start self.old.station }
        ensures refused { OnErr result (self.new ≡ self.old) }
    {
        self.begin_halted(State::Maintenance, false)
    }

    /// Starts in a state, if it is halted and its inbox empty; returns how many messages were
    /// dropped.
    fn begin_halted(&mut self, state: State, due: bool) -> Result<u8, StartRefusal>
        ensures state { self.new ≡ record self.old {
          station = if may_start self.old.station
              then station_begun state due self.old.station.by_user self.old.station.inbox
              else self.old.station;
        } }
        ensures answer { result ≡ answer_to_start self.old.station }
    {
        if self.state != State::Halted {
            return Err(StartRefusal::NotHalted);
        }
        if self.inbox.len() != 0 {
            return Err(StartRefusal::Untaken);
        }
        Ok(self.begin(state, due))
    }

    /// Starts in a state with an empty inbox; returns how many messages were dropped.
    fn begin(&mut self, state: State, due: bool) -> u8
        requires { length self.old.station.inbox ≡ 0 }
        ensures state { self.new ≡ record self.old {
          station = station_begun state due self.old.station.by_user self.old.station.inbox;
        } }
        ensures dropped { result ≡ length self.old.station.out }
    {
        let dropped = self.sender.reset();
        self.inbox.reset();
        self.reply = Owed::Quiet;
        self.rep = false;
        self.timer = Timer::Off;
        self.state = state;
        self.due = due;
        dropped
    }

    /// Halts: the station sends and accepts nothing more. Numbers and messages stay.
    pub fn halt(&mut self)
        ensures { self.new ≡ record self.old { station = after_halt self.old.station } }
    {
        self.state = State::Halted;
        self.due = false;
        self.reply = Owed::Quiet;
        self.rep = false;
        self.timer = Timer::Off;
    }

    /// Returns why a message isn't accepted, or None if it is.
    pub fn send_refusal(&self, message: &[u8]) -> Option<SendRefusal>
        ensures { result ≡ send_refusal_of self.now.limits self.now.station message.now }
    {
        match self.state {
            State::Running => self.sender.refusal(message),
            _ => Some(SendRefusal::WrongState),
        }
    }

    /// Queues a message and returns its number.
    pub fn send(&mut self, message: &[u8]) -> Result<Seq, SendRefusal>
        ensures state { self.new ≡ record self.old {
          station = if may_send self.old.limits self.old.station message.now
              then after_accept self.old.station message.now else self.old.station;
        } }
        ensures answer { result ≡ answer_to_send self.old.limits self.old.station message.now }
        ensures refused { OnErr result (self.new ≡ self.old) }
    {
        if self.state != State::Running {
            return Err(SendRefusal::WrongState);
        }
        self.sender.accept(message)
    }

    /// Queues a maintenance message.
    pub fn send_maintenance(&mut self, message: &[u8]) -> Result<(), SendRefusal>
        ensures state { self.new ≡ record self.old {
          station = if may_send_maintenance self.old.limits self.old.station message.now
              then after_accept self.old.station message.now else self.old.station;
        } }
        ensures answer { result
            ≡ answer_to_send_maintenance self.old.limits self.old.station message.now }
        ensures refused { OnErr result (self.new ≡ self.old) }
    {
        if self.state != State::Maintenance {
            return Err(SendRefusal::WrongState);
        }
        match self.sender.accept(message) {
            Ok(_number) => Ok(()),
            Err(refusal) => Err(refusal),
        }
    }

    /// Moves the first message of the inbox to the front of `out` and returns its length.
    pub fn take(&mut self, out: &mut [u8]) -> Option<usize>
        requires { self.old.limits.longest ≤ length out.old }
        ensures state { self.new ≡ record self.old { station = after_take self.old.station } }
        ensures length { result ≡ option_map length (first_message self.old.station.inbox) }
        ensures out { out.new ≡ with_front (first_message self.old.station.inbox) out.old }
    {
        if self.by_user && self.state == State::Running && self.inbox.len() > 0 {
            self.reply = self.reply.after_take();
        }
        self.inbox.take(out)
    }

    /// Chooses when messages are acknowledged, if the station is halted and its inbox empty: when
    /// they are taken, or when they are received. It stays so over starts. A new station
    /// acknowledges what it receives.
    pub fn acknowledge_on_take(&mut self, by_user: bool) -> Result<(), StartRefusal>
        ensures state { self.new ≡ record self.old { station = chosen by_user self.old.station } }
        ensures answer { result ≡ answer_to_choose self.old.station }
        ensures refused { OnErr result (self.new ≡ self.old) }
    {
        if self.state != State::Halted {
            return Err(StartRefusal::NotHalted);
        }
        if self.inbox.len() != 0 {
            return Err(StartRefusal::Untaken);
        }
        self.by_user = by_user;
        Ok(())
    }

    /// Handles an expiry of the timer; returns whether it was on.
    pub fn expire(&mut self) -> bool
        ensures state { self.new ≡ record self.old {
          station = after_expire self.old.station;
          counters = counters_after_expire self.old.station self.old.counters;
        } }
        ensures answer { result ≡ is_on self.old.station.timer }
    {
        if self.timer == Timer::Off {
            return false;
        }
        self.timer = Timer::Off;
        self.counters.expired();
        match self.state {
            State::Halted | State::Maintenance => {}
            State::IStart | State::AStart => self.due = true,
            State::Running => {
                if self.sender.last_acknowledged() != self.sender.last_sent() {
                    self.rep = true;
                }
            }
        }
        true
    }

    /// Returns whether the timer was started since the last call: if so, the caller sets its
    /// deadline.
    pub fn take_arm(&mut self) -> bool
        ensures state { self.new ≡ record self.old { station = after_take_arm self.old.station } }
        ensures answer { result ≡ is_fresh self.old.station.timer }
    {
        if self.timer != Timer::Fresh {
            return false;
        }
        self.timer = Timer::On;
        true
    }

    /// Returns the state.
    pub fn state(&self) -> State
        ensures { result ≡ self.now.station.state }
    {
        self.state
    }

    /// Returns the numbers of the station.
    pub fn numbers(&self) -> Numbers
        ensures { result ≡ record {
          r = record { 0 = self.now.station.r };
          n = record { 0 = self.now.station.n };
          a = record { 0 = self.now.station.a };
          t = record { 0 = self.now.station.t };
        } }
    {
        Numbers {
            r: self.inbox.last(),
            n: self.sender.last_sent(),
            a: self.sender.last_acknowledged(),
            t: self.sender.next_number(),
        }
    }

    /// Returns the number of queued messages.
    pub fn outgoing(&self) -> u8
        ensures { result ≡ length self.now.station.out }
    {
        self.sender.len()
    }

    /// Returns whether fewer messages are queued than the window allows.
    pub fn room(&self) -> bool
        ensures { IsTrue result ↔ (length self.now.station.out < self.now.limits.window) }
    {
        self.sender.room()
    }

    /// Returns the number of messages in the inbox.
    pub fn waiting(&self) -> u8
        ensures { result ≡ length self.now.station.inbox }
    {
        self.inbox.len()
    }

    /// Returns the length of message `i` of the inbox, counted from 0.
    pub fn waiting_length(&self, i: u8) -> usize
        requires { i < length self.now.station.inbox }
        ensures length { result ≡ length (slice_index_or self.now.station.inbox i []) }
        ensures most { result ≤ self.now.limits.longest }
    {
        self.inbox.length(i)
    }

    /// Copies message `i` of the inbox, counted from 0, to the front of `out` and returns its
    /// length.
    pub fn waiting_at(&self, i: u8, out: &mut [u8]) -> usize
        requires there { i < length self.now.station.inbox }
        requires longest { self.now.limits.longest ≤ length out.old }
        ensures length { result ≡ length (slice_index_or self.now.station.inbox i []) }
        ensures out { out.new
            ≡ with_front (Some (slice_index_or self.now.station.inbox i [])) out.old }
    {
        self.inbox.copy(i, out)
    }

    /// Returns whether the timer isn't off.
    pub fn timer_on(&self) -> bool
        ensures { result ≡ is_on self.now.station.timer }
    {
        self.timer != Timer::Off
    }

    /// Returns whether an ACK is owed, or data that carry it.
    pub fn owes_ack(&self) -> bool
        ensures { result ≡ is_ack self.now.station.reply }
    {
        self.reply == Owed::Ack
    }

    /// Returns the counters.
    pub fn counters(&self) -> &Counters
        ensures { result.now ≡ self.now.counters }
    {
        &self.counters
    }

    /// Returns the length of all messages queued and in the inbox.
    pub fn bytes(&self) -> usize
        ensures value { result
            ≡ sum_by length self.now.station.out + sum_by length self.now.station.inbox }
        ensures within { result ≤
            (self.now.limits.window + self.now.limits.room) * self.now.limits.longest }
        ensures sound { IsSound self.now.limits self.now.station }
    {
        self.sender.bytes() + self.inbox.bytes()
    }

    /// States what holds for every core. Does nothing.
    pub fn holds(&self)
        ensures { IsSound self.now.limits self.now.station }
    {
        // A look at a field lets the proof use what holds for all of them.
        let _ = &self.state;
    }
}
