//! The bytes of a link that its line is to take, and those received from it.
ghost use Rattle.std.specs.Prelude.{◌≡◌};
ghost use Rattle.ddcmp_core.specs.Table.{acknowledged_by};
ghost use Rattle.ddcmp_station.specs.Linking.{is_nak_for_buffer, is_reply as is_reply_header};
ghost use Rattle.ddcmp_station.specs.Linking.{refuses_frame as refuses_header};

use crate::link::Link;
use ddcmp_frame::ControlType;
use ddcmp_frame::codes::NO_BUFFER_REASON;
use ddcmp_proto::{Fed, Header, Notice};

impl Link {
    ghost use Rattle.std.specs.Prelude.{◌≡◌, ℕ, ◌+◌, ◌<◌, ◌≤◌, ◌^◌, true, false, List, [], ◌++◌};
    ghost use Rattle.std.specs.Prelude.{length, take, min, Some, None, option_to_list};
    ghost use Rattle.ddcmp_frame.specs.Reader.{StandsFor};
    ghost use Rattle.ddcmp_proto.specs.Bytes.{after_piece, notices_of_piece};
    ghost use Rattle.ddcmp_station.specs.Linking.{puts_frame, after_frame, after_frames};
    ghost use Rattle.ddcmp_station.specs.Linking.{after_sent, countable, totals_after_feed};
    ghost use Rattle.ddcmp_station.specs.Linking.{holds_back, carries_message, is_needed};
    ghost use Rattle.ddcmp_station.specs.Linking.{carries_refusal, owes_ack, wants_bytes};

    /// Queues the next frame after the bytes pending for the line; returns whether there was one
    /// and room for it. A NAK 8 (no buffer) isn't queued while the line isn't to be read.
    pub fn fill_one(&mut self) -> bool
        ensures state { self.new ≡ after_frame self.old }
        ensures answer { result ≡ puts_frame self.old }
        ensures less { result ≡ true → self.new.outbox.room < self.old.outbox.room }
    {
        if self.outbox.room() < self.station.frame_room() || self.holds_back() {
            return false;
        }
        self.outbox.put_frame(&mut self.station)
    }

    /// Queues frames after the bytes pending for the line, as long as `fill_one` queues one.
    pub fn fill(&mut self)
        ensures frames { (n : ℕ) × (self.new ≡ after_frames n self.old) }
        ensures all { puts_frame self.new ≡ false }
    {
        while self.fill_one() {}
    }

    /// Returns whether the next frame is a NAK 8 (no buffer), and the line isn't to be read yet.
    fn holds_back(&self) -> bool
        ensures { result ≡ holds_back self.now }
    {
        // If the line is to be read, which is the usual case, `poll` alone decides.
        if self.wants_line() {
            return false;
        }
        match self.station.next_header() {
            Some(header) => asks_for_buffer(&header),
            None => false,
        }
    }

    /// Returns whether the next frame carries a message, a new one or one to be retransmitted.
    pub fn sends_message(&self) -> bool
        ensures { result ≡ carries_message self.now }
    {
        matches!(self.station.next_header(), Some(Header::Data(_)))
    }

    /// Returns whether the next frame is a NAK of a frame that came damaged or too long, and so
    /// neither replies to a REP nor waits for a buffer.
    pub fn sends_refusal(&self) -> bool
        ensures { result ≡ carries_refusal self.now }
    {
        match self.station.next_header() {
            Some(header) => refuses_frame(&header),
            None => false,
        }
    }

    /// Returns whether an ACK is owed to the peer, or a message that carries it.
    pub fn owes_ack(&self) -> bool
        ensures { result ≡ owes_ack self.now }
    {
        self.station.owes_ack()
    }

    /// Returns whether the peer isn't done: an ACK for it is pending, or a NAK in reply to a REP,
    /// or a frame of it is partly received, with a good header. Junk has no such header.
    pub fn is_needed(&self) -> bool
        ensures { result ≡ is_needed self.now }
    {
        if self.station.open() >= 8 {
            return true;
        }
        match self.station.next_header() {
            Some(header) => is_reply(&header),
            None => false,
        }
    }

    /// Returns the bytes pending for the line.
    pub fn unsent(&self) -> &[u8]
        ensures { result.now ≡ self.now.outbox.waiting }
    {
        self.outbox.waiting()
    }

    /// Notes that the line took the first `n` bytes of `unsent`.
    pub fn sent(&mut self, n: usize)
        requires { n ≤ length self.old.outbox.waiting }
        ensures { self.new ≡ after_sent n self.old }
    {
        self.outbox.took(n);
        self.totals.written = self.totals.written.saturating_add(n as u64);
    }

    /// Returns whether the line is to be read: the inbox isn't full, or accepted messages aren't
    /// acknowledged. Received messages that find no room are refused, and retransmitted later.
    pub fn wants_line(&self) -> bool
        ensures { result ≡ wants_bytes self.now.station.core.limits self.now.station.core.station }
    {
        (self.station.waiting() as u16) < self.station.config().inbox || self.lost() > 0
    }

    /// Handles received bytes, up to the first that yields a notice. With that notice the inbox may
    /// be full: ask `wants_line` before the rest.
    pub fn feed(&mut self, piece: &[u8]) -> Fed
        ensures stands { (text : List ℕ) → StandsFor self.old.station.line text
            → StandsFor self.new.station.line (text ++ take result.used piece.now) }
        ensures state { (text : List ℕ) → StandsFor self.old.station.line text
            → self.new.station.core
            ≡ after_piece text (take result.used piece.now) self.old.station.core }
        // The last byte used yielded the notice, and no byte before it yielded one.
        ensures told { (text : List ℕ) → StandsFor self.old.station.line text
            → notices_of_piece text (take result.used piece.now) self.old.station.core
            ≡ option_to_list result.notice }
        ensures first { (text : List ℕ) (n : ℕ) → StandsFor self.old.station.line text
            → n < result.used
            → notices_of_piece text (take n piece.now) self.old.station.core ≡ [] }
        ensures used { result.used ≤ length piece.now }
        ensures whole { result.notice ≡ None
            → result.used ≡ min (length piece.now) (countable self.old.station) }
        ensures some { 0 < length piece.now → 0 < countable self.old.station → 0 < result.used }
        ensures stays { self.new ≡ record self.old {
          station = self.new.station;
          totals = totals_after_feed result.used result.notice self.old.totals;
        } }
        // Whatever the text.
        ensures offset { self.new.station.line.offset
            ≡ self.old.station.line.offset + result.used }
        ensures limits { self.new.station.core.limits ≡ self.old.station.core.limits }
        ensures syn { self.new.station.syn ≡ self.old.station.syn }
    {
        let most = self.countable(piece.len());
        let fed = self.station.feed(&piece[..most]);
        self.totals.read = self.totals.read.saturating_add(fed.used as u64);
        let count = acknowledged(fed.notice);
        self.totals.acknowledged = self.totals.acknowledged.saturating_add(count as u64);
        fed
    }

    /// Returns how many of `length` bytes can be counted.
    fn countable(&self, length: usize) -> usize
        ensures value { result ≡ min length (countable self.now.station) }
        ensures fits { self.now.station.line.offset + result < 2 ^ 64 }
    {
        let countable = u64::MAX - self.station.offset();
        if countable < length as u64 {
            countable as usize
        } else {
            length
        }
    }
}

/// Returns whether a header is that of an ACK, or of a NAK that replies to a REP.
fn is_reply(header: &Header) -> bool
    ensures { result ≡ is_reply_header header.now }
{
    match header {
        Header::Control(fields) => match fields.kind {
            ControlType::Ack => true,
            ControlType::Nak => fields.sub == 3,
            _ => false,
        },
        _ => false,
    }
}

/// Returns whether a header is that of a NAK 8 (no buffer).
fn asks_for_buffer(header: &Header) -> bool
    ensures { result ≡ is_nak_for_buffer header.now }
{
    match header {
        Header::Control(fields) => {
            fields.kind == ControlType::Nak && fields.sub == NO_BUFFER_REASON
        }
        _ => false,
    }
}

/// Returns whether a header is that of a NAK of a frame that came damaged or too long.
fn refuses_frame(header: &Header) -> bool
    ensures { result ≡ refuses_header header.now }
{
    match header {
        Header::Control(fields) => {
            fields.kind == ControlType::Nak && fields.sub != 3 && fields.sub != NO_BUFFER_REASON
        }
        _ => false,
    }
}

/// Returns how many messages a notice reports acknowledged.
fn acknowledged(notice: Option<Notice>) -> u8
    ensures { result ≡ acknowledged_by notice }
{
    match notice {
        Some(Notice::Acknowledged(count)) => count,
        Some(Notice::HandedUpAndAcknowledged(count)) => count,
        _ => 0,
    }
}
