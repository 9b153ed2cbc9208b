//! The sending half: messages are queued until they are acknowledged.
ghost use Rattle.std.specs.Prelude.{◌≡◌, ◌≢◌, ◌↔◌, ◌<◌, ◌≤◌, [], length, sum_by, IsTrue, Option};
ghost use Rattle.std.specs.Prelude.{Some, None, option_map, if◌then◌else◌, Err, OnOk};

use crate::store::{Store, take_first};
use ddcmp_num::Seq;
use std::marker::Model;

/// The reason why a message to be sent isn't accepted: the first that applies.
#[derive(Clone, Copy, Debug, PartialEq, Eq)]
pub enum SendRefusal {
    /// The station is in another state. Only a station returns this.
    WrongState,
    /// The message has no bytes.
    Empty,
    /// The message is longer than the longest that is accepted.
    TooLong,
    /// As many messages are queued as the window allows.
    WindowFull,
}

/// Queues messages until they are acknowledged, and yields them in order, each with its number, to
/// be sent. A message that is refused is retransmitted, with all that follow it.
#[derive(Drop)]
pub struct Sender<S: Store> {
    store: S,
    /// The highest number acknowledged.
    acknowledged: Seq,
    /// The highest number sent.
    sent: Seq,
    /// The next number to send.
    next: Seq,
}

impl<S: Store> Model for Sender<S> {
    ghost use Rattle.ddcmp_window.specs.Sender.{SenderView, IsInWindow};

    ghost Value = { SenderView };

    ghost view = { λ s. record {
      limit = S.limit s.store;
      longest = S.longest s.store;
      outgoing = record {
        a = s.acknowledged.0;
        n = s.sent.0;
        t = s.next.0;
        out = S.messages s.store;
      };
    } };

    ghost invariant = { λ s. IsInWindow (record {
      a = s.acknowledged.0;
      n = s.sent.0;
      t = s.next.0;
      out = S.messages s.store;
    }) };
}

impl<S: Store> Sender<S> {
    ghost use Rattle.ddcmp_window.specs.Store.{first_message, with_front};
    ghost use Rattle.ddcmp_window.specs.Sender.{IsSoundSender, nothing_sent, outgoing_before_next};
    ghost use Rattle.ddcmp_window.specs.Sender.{outgoing_after_accept, accept_refusal};
    ghost use Rattle.ddcmp_window.specs.Sender.{number_accepted, answer_unless, count_acknowledged};
    ghost use Rattle.ddcmp_window.specs.Sender.{outgoing_after_ack, outgoing_after_nak};
    ghost use Rattle.ddcmp_window.specs.Sender.{next_message, outgoing_after_next};
    ghost use Rattle.ddcmp_window.specs.Sender.{outgoing_after_pop};
    ghost use Rattle.ddcmp_window.specs.Numbers.{is_within, next_number};
    ghost use Rattle.ddcmp_num.specs.Sequence.{distance};

    /// Makes a sender that has sent nothing.
    pub fn new(store: S) -> Self
        requires { S.messages store ≡ [] }
        ensures value { result
            ≡ record { limit = S.limit store; longest = S.longest store; outgoing = nothing_sent } }
        ensures sound { IsSoundSender result }
    {
        Sender {
            store,
            acknowledged: Seq(0),
            sent: Seq(0),
            next: Seq(1),
        }
    }

    /// Restarts; returns how many messages were dropped.
    pub fn reset(&mut self) -> u8
        ensures state { self.new ≡ record self.old { outgoing = nothing_sent } }
        ensures dropped { result ≡ length self.old.outgoing.out }
        ensures sound { IsSoundSender self.new }
    {
        let dropped = self.store.len();
        self.store.clear();
        self.acknowledged = Seq(0);
        self.sent = Seq(0);
        self.next = Seq(1);
        dropped
    }

    /// Returns why a message isn't accepted, or None if it is.
    pub fn refusal(&self, message: &[u8]) -> Option<SendRefusal>
        ensures { result
            ≡ accept_refusal self.now.limit self.now.longest self.now.outgoing message.now }
    {
        if message.is_empty() {
            return Some(SendRefusal::Empty);
        }
        if message.len() > self.store.longest() as usize {
            return Some(SendRefusal::TooLong);
        }
        if !self.store.room() {
            return Some(SendRefusal::WindowFull);
        }
        None
    }

    /// Queues a message and returns its number.
    pub fn accept(&mut self, message: &[u8]) -> Result<Seq, SendRefusal>
        ensures state { self.new ≡ record self.old {
          outgoing = outgoing_after_accept
              self.old.limit self.old.longest self.old.outgoing message.now;
        } }
        ensures answer { result ≡ answer_unless
            (accept_refusal self.old.limit self.old.longest self.old.outgoing message.now)
            (number_accepted self.old.outgoing) }
        ensures sound { OnOk result (IsSoundSender self.new) }

        // When each refusal is returned.
        ensures wrong_state { result ≢ Err SendRefusal.WrongState }
        ensures empty { (result ≡ Err SendRefusal.Empty) ↔ (length message.now ≡ 0) }
        ensures too_long { (result ≡ Err SendRefusal.TooLong)
            ↔ (self.old.longest < length message.now) }
        ensures window_full { (result ≡ Err SendRefusal.WindowFull) ↔ ((1 ≤ length message.now)
            × (length message.now ≤ self.old.longest)
            × (self.old.limit ≤ length self.old.outgoing.out)) }
    {
        if let Some(refusal) = self.refusal(message) {
            return Err(refusal);
        }
        self.store.push(message);
        Ok(Seq(self.acknowledged.0.wrapping_add(self.store.len())))
    }

    /// Handles an acknowledgement of all messages up to `number`; returns how many are newly
    /// acknowledged.
    pub fn acknowledged(&mut self, number: Seq) -> u8
        ensures state { self.new
            ≡ record self.old { outgoing = outgoing_after_ack self.old.outgoing number.0 } }
        ensures newly { result ≡ count_acknowledged self.old.outgoing number.0 }
        ensures sound { IsSoundSender self.new }
    {
        // The usual frame acknowledges nothing new.
        if number == self.acknowledged || !Seq::within(self.acknowledged, number, self.sent) {
            return 0;
        }
        let newly = Seq::distance(self.acknowledged, number);
        if self.before_next() < newly {
            self.next = number.next();
        }
        self.store.drop_front(newly);
        self.acknowledged = number;
        newly
    }

    /// Handles a NAK, which acknowledges all messages up to `number` and asks for those after it;
    /// returns how many are newly acknowledged, or None if `number` can't be acknowledged.
    pub fn refused(&mut self, number: Seq) -> Option<u8>
        ensures state { self.new
            ≡ record self.old { outgoing = outgoing_after_nak self.old.outgoing number.0 } }
        ensures newly { result ≡ (if is_within self.old.outgoing.a number.0 self.old.outgoing.n
            then Some (count_acknowledged self.old.outgoing number.0) else None) }
        ensures sound { IsSoundSender self.new }
    {
        let in_window = Seq::within(self.acknowledged, number, self.sent);
        if !in_window {
            return None;
        }
        let newly = self.acknowledged(number);
        self.next = self.acknowledged.next();
        Some(newly)
    }

    /// Returns the number and the length of the next message to send, without advancing.
    pub fn peek(&self) -> Option<(Seq, usize)>
        ensures { result
            ≡ option_map (λ message. (record { 0 = self.now.outgoing.t }, length message))
            (next_message self.now.outgoing) }
    {
        let before = self.before_next();
        if before >= self.store.len() {
            return None;
        }
        Some((self.next, self.store.length(before)))
    }

    /// Writes the next message to send at the front of `out`; returns its number and its length.
    pub fn next(&mut self, out: &mut [u8]) -> Option<(Seq, usize)>
        requires { self.old.longest ≤ length out.old }
        ensures state { self.new
            ≡ record self.old { outgoing = outgoing_after_next self.old.outgoing } }
        ensures sent { result
            ≡ option_map (λ message. (record { 0 = self.old.outgoing.t }, length message))
            (next_message self.old.outgoing) }
        ensures out { out.new ≡ with_front (next_message self.old.outgoing) out.old }
        ensures sound { IsSoundSender self.new }
    {
        let (number, length) = self.peek()?;
        self.store.copy(self.before_next(), out);
        if number == self.sent.next() {
            self.sent = number;
        }
        self.next = number.next();
        Some((number, length))
    }

    /// Moves the first message, without a number, to the front of `out` and returns its length.
    pub fn pop(&mut self, out: &mut [u8]) -> Option<usize>
        requires longest { self.old.longest ≤ length out.old }
        requires all_acknowledged { self.old.outgoing.a ≡ self.old.outgoing.n }
        requires none_sent { self.old.outgoing.t ≡ next_number self.old.outgoing.a }
        ensures state { self.new
            ≡ record self.old { outgoing = outgoing_after_pop self.old.outgoing } }
        ensures length { result ≡ option_map length (first_message self.old.outgoing.out) }
        ensures out { out.new ≡ with_front (first_message self.old.outgoing.out) out.old }
        ensures sound { IsSoundSender self.new }
    {
        take_first(&mut self.store, out)
    }

    /// Returns the length of the first message, sent or not.
    pub fn first_length(&self) -> Option<usize>
        ensures { result ≡ option_map length (first_message self.now.outgoing.out) }
    {
        if self.store.len() == 0 {
            return None;
        }
        Some(self.store.length(0))
    }

    /// Returns how many messages were sent and aren't acknowledged.
    pub fn outstanding(&self) -> u8
        ensures { result ≡ distance self.now.outgoing.a self.now.outgoing.n }
    {
        Seq::distance(self.acknowledged, self.sent)
    }

    /// Returns the highest number sent.
    pub fn last_sent(&self) -> Seq
        ensures { result.0 ≡ self.now.outgoing.n }
    {
        self.sent
    }

    /// Returns the highest number acknowledged.
    pub fn last_acknowledged(&self) -> Seq
        ensures { result.0 ≡ self.now.outgoing.a }
    {
        self.acknowledged
    }

    /// Returns the next number to send.
    pub fn next_number(&self) -> Seq
        ensures { result.0 ≡ self.now.outgoing.t }
    {
        self.next
    }

    /// Returns the number of queued messages.
    pub fn len(&self) -> u8
        ensures { result ≡ length self.now.outgoing.out }
    {
        self.store.len()
    }

    /// Returns whether one more message may be queued.
    pub fn room(&self) -> bool
        ensures { IsTrue result ↔ (length self.now.outgoing.out < self.now.limit) }
    {
        self.store.room()
    }

    /// Returns the length of all queued messages.
    pub fn bytes(&self) -> usize
        ensures { result ≡ sum_by length self.now.outgoing.out }
    {
        self.store.bytes()
    }

    /// States what holds for every sender. Does nothing.
    pub fn holds(&self)
        ensures { IsSoundSender self.now }
    {
        // A look at a field lets the proof use what holds for all of them.
        let _ = &self.store;
    }

    fn before_next(&self) -> u8
        ensures { result ≡ outgoing_before_next self.now.outgoing }
    {
        Seq::distance(self.acknowledged, Seq(self.next.0.wrapping_sub(1)))
    }
}
