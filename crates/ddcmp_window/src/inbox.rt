//! The receiving half: messages that were received in sequence.
ghost use Rattle.std.specs.Prelude.{◌≡◌, ◌≢◌, ◌↔◌, ◌<◌, ◌≤◌, [], length, slice_index_or, sum_by};
ghost use Rattle.std.specs.Prelude.{IsTrue, Option, Some, option_map};

use crate::store::{Store, take_first};
use ddcmp_num::Seq;
use std::marker::Model;

/// The result of offering a message.
#[derive(Clone, Copy, Debug, PartialEq, Eq)]
pub enum Offer {
    /// It is in the inbox.
    Accepted,
    /// Its number isn't the one that follows the last.
    OutOfSequence,
    /// Its number is the one that follows, and the inbox is full.
    NoRoom,
}

/// Messages that were received in sequence and weren't taken yet.
#[derive(Drop)]
pub struct Inbox<S: Store> {
    store: S,
    /// The highest number received in sequence.
    last: Seq,
}

impl<S: Store> Model for Inbox<S> {
    ghost use Rattle.std.specs.Prelude.{◌<◌};
    ghost use Rattle.ddcmp_window.specs.Inbox.{InboxView};

    ghost Value = { InboxView };

    ghost view = { λ s. record {
      limit = S.limit s.store;
      longest = S.longest s.store;
      incoming = record { r = s.last.0; inbox = S.messages s.store };
    } };

    ghost invariant = { λ s. s.last.0 < 256 };
}

impl<S: Store> Inbox<S> {
    ghost use Rattle.ddcmp_window.specs.Store.{first_message, with_front};
    ghost use Rattle.ddcmp_window.specs.Numbers.{next_number};
    ghost use Rattle.ddcmp_window.specs.Inbox.{IsSoundInbox, nothing_received, answer_to_offer};
    ghost use Rattle.ddcmp_window.specs.Inbox.{incoming_after_offer, incoming_after_put};
    ghost use Rattle.ddcmp_window.specs.Inbox.{incoming_after_take};

    /// Makes an inbox that has received nothing.
    pub fn new(store: S) -> Self
        requires { S.messages store ≡ [] }
        ensures value { result
            ≡ record {
              limit = S.limit store;
              longest = S.longest store;
              incoming = nothing_received;
            } }
        ensures sound { IsSoundInbox result }
    {
        Inbox {
            store,
            last: Seq(0),
        }
    }

    /// Restarts: all messages are dropped.
    pub fn reset(&mut self)
        ensures state { self.new ≡ record self.old { incoming = nothing_received } }
        ensures sound { IsSoundInbox self.new }
    {
        self.store.clear();
        self.last = Seq(0);
    }

    /// Accepts a message if its number follows the last one and there is room.
    pub fn offer(&mut self, number: Seq, message: &[u8]) -> Offer
        requires not_empty { 1 ≤ length message.now }
        requires not_too_long { length message.now ≤ self.old.longest }
        ensures state { self.new ≡ record self.old {
          incoming = incoming_after_offer self.old.limit self.old.incoming number.0 message.now;
        } }
        ensures answer { result ≡ answer_to_offer self.old.limit self.old.incoming number.0 }
        ensures sound { IsSoundInbox self.new }

        // When each refusal is returned.
        ensures out_of_sequence { (result ≡ Offer.OutOfSequence)
            ↔ (number.0 ≢ next_number self.old.incoming.r) }
        ensures no_room { (result ≡ Offer.NoRoom) ↔ ((number.0 ≡ next_number self.old.incoming.r)
            × (self.old.limit ≤ length self.old.incoming.inbox)) }
    {
        if number != self.last.next() {
            return Offer::OutOfSequence;
        }
        if !self.store.room() {
            return Offer::NoRoom;
        }
        self.store.push(message);
        self.last = number;
        Offer::Accepted
    }

    /// Accepts a message without a number, if there is room.
    pub fn put(&mut self, message: &[u8]) -> bool
        requires not_empty { 1 ≤ length message.now }
        requires not_too_long { length message.now ≤ self.old.longest }
        ensures state { self.new ≡ record self.old {
          incoming = incoming_after_put self.old.limit self.old.incoming message.now;
        } }
        ensures room { IsTrue result ↔ (length self.old.incoming.inbox < self.old.limit) }
        ensures sound { IsSoundInbox self.new }
    {
        if !self.store.room() {
            return false;
        }
        self.store.push(message);
        true
    }

    /// Moves the first message to the front of `out` and returns its length.
    pub fn take(&mut self, out: &mut [u8]) -> Option<usize>
        requires { self.old.longest ≤ length out.old }
        ensures state { self.new
            ≡ record self.old { incoming = incoming_after_take self.old.incoming } }
        ensures length { result ≡ option_map length (first_message self.old.incoming.inbox) }
        ensures out { out.new ≡ with_front (first_message self.old.incoming.inbox) out.old }
        ensures sound { IsSoundInbox self.new }
    {
        take_first(&mut self.store, out)
    }

    /// Returns the highest number received in sequence.
    pub fn last(&self) -> Seq
        ensures { result.0 ≡ self.now.incoming.r }
    {
        self.last
    }

    /// Returns the number of messages.
    pub fn len(&self) -> u8
        ensures { result ≡ length self.now.incoming.inbox }
    {
        self.store.len()
    }

    /// Returns the length of message `i`, counted from 0.
    pub fn length(&self, i: u8) -> usize
        requires { i < length self.now.incoming.inbox }
        ensures { result ≡ length (slice_index_or self.now.incoming.inbox i []) }
    {
        self.store.length(i)
    }

    /// Copies message `i`, counted from 0, to the front of `out` and returns its length.
    pub fn copy(&self, i: u8, out: &mut [u8]) -> usize
        requires there { i < length self.now.incoming.inbox }
        requires fits { length (slice_index_or self.now.incoming.inbox i []) ≤ length out.old }
        ensures length { result ≡ length (slice_index_or self.now.incoming.inbox i []) }
        ensures out { out.new
            ≡ with_front (Some (slice_index_or self.now.incoming.inbox i [])) out.old }
    {
        self.store.copy(i, out)
    }

    /// Returns the length of all messages.
    pub fn bytes(&self) -> usize
        ensures { result ≡ sum_by length self.now.incoming.inbox }
    {
        self.store.bytes()
    }

    /// States what holds for every inbox. Does nothing.
    pub fn holds(&self)
        ensures { IsSoundInbox self.now }
    {
        // A look at a field lets the proof use what holds for all of them.
        let _ = &self.store;
    }
}
