//! Counters of a station.
ghost use Rattle.std.specs.Prelude.{◌≡◌, ◌≤◌};
ghost use Rattle.ddcmp_core.specs.Counting.{count_plus, nak_counts_after, counters_after_sent};
ghost use Rattle.ddcmp_core.specs.Counting.{counters_after_again, counters_after_up};
ghost use Rattle.ddcmp_core.specs.Counting.{counters_after_fault, no_naks, no_counts};
ghost use Rattle.ddcmp_core.specs.Frames.{received};

use crate::input::Input;
use ddcmp_frame::{MAX_COUNT, Nak};

/// NAKs by their reasons.
#[derive(Clone, Copy, Debug, PartialEq, Eq)]
pub struct NakCounts {
    pub header_check: u32,
    pub data_check: u32,
    pub reply_to_rep: u32,
    pub no_buffer: u32,
    pub overrun: u32,
    pub too_long: u32,
    pub format: u32,
    pub other: u32,
}

/// The counters since the station was made. A counter that has reached 4294967295 stays there.
#[derive(Clone, Copy, Debug, PartialEq, Eq)]
pub struct Counters {
    /// NAKs sent.
    pub nak_sent: NakCounts,
    /// NAKs received while running.
    pub nak_received: NakCounts,
    /// REPs sent.
    pub rep_sent: u32,
    /// REPs received while running.
    pub rep_received: u32,
    /// Data messages sent for the first time, and maintenance messages sent.
    pub messages_sent: u32,
    /// Bytes of data in these.
    pub bytes_sent: u32,
    /// Retransmitted data messages.
    pub messages_again: u32,
    /// Bytes of data in retransmitted messages.
    pub bytes_again: u32,
    /// Messages put into the inbox.
    pub messages_up: u32,
    /// Bytes of data in messages put into the inbox.
    pub bytes_up: u32,
    /// Expiries of a timer that wasn't off.
    pub expiries: u32,
    /// Losses of synchronism, counted in every state, as are the next three.
    pub header_checks: u32,
    /// Frames whose data were damaged.
    pub data_checks: u32,
    /// Frames that are too long for this end.
    pub too_longs: u32,
    /// Headers of no known form.
    pub formats: u32,
}

/// Adds to a counter, which stops at its largest value.
fn add(count: &mut u32, more: u32)
    ensures { count.new ≡ count_plus count.old more }
{
    *count = count.saturating_add(more);
}

impl NakCounts {
    fn none() -> NakCounts
        ensures { result ≡ no_naks }
    {
        NakCounts {
            header_check: 0,
            data_check: 0,
            reply_to_rep: 0,
            no_buffer: 0,
            overrun: 0,
            too_long: 0,
            format: 0,
            other: 0,
        }
    }

    fn count(&mut self, reason: Nak)
        ensures { self.new ≡ nak_counts_after reason self.old }
    {
        match reason {
            Nak::HeaderCheck => add(&mut self.header_check, 1),
            Nak::DataCheck => add(&mut self.data_check, 1),
            Nak::ReplyToRep => add(&mut self.reply_to_rep, 1),
            Nak::NoBuffer => add(&mut self.no_buffer, 1),
            Nak::Overrun => add(&mut self.overrun, 1),
            Nak::TooLong => add(&mut self.too_long, 1),
            Nak::Format => add(&mut self.format, 1),
            Nak::Other(_) => add(&mut self.other, 1),
        }
    }
}

impl Counters {
    pub(crate) fn none() -> Counters
        ensures { result ≡ no_counts }
    {
        Counters {
            nak_sent: NakCounts::none(),
            nak_received: NakCounts::none(),
            rep_sent: 0,
            rep_received: 0,
            messages_sent: 0,
            bytes_sent: 0,
            messages_again: 0,
            bytes_again: 0,
            messages_up: 0,
            bytes_up: 0,
            expiries: 0,
            header_checks: 0,
            data_checks: 0,
            too_longs: 0,
            formats: 0,
        }
    }

    pub(crate) fn nak_sent(&mut self, reason: Nak)
        ensures { self.new
            ≡ record self.old { nak_sent = nak_counts_after reason self.old.nak_sent } }
    {
        self.nak_sent.count(reason);
    }

    pub(crate) fn nak_received(&mut self, reason: Nak)
        ensures { self.new
            ≡ record self.old { nak_received = nak_counts_after reason self.old.nak_received } }
    {
        self.nak_received.count(reason);
    }

    pub(crate) fn rep_sent(&mut self)
        ensures { self.new ≡ record self.old { rep_sent = count_plus self.old.rep_sent 1 } }
    {
        add(&mut self.rep_sent, 1);
    }

    pub(crate) fn rep_received(&mut self)
        ensures { self.new ≡ record self.old { rep_received = count_plus self.old.rep_received 1 } }
    {
        add(&mut self.rep_received, 1);
    }

    /// Counts a message of this many bytes that is sent for the first time.
    pub(crate) fn sent(&mut self, bytes: usize)
        requires { bytes ≤ MAX_COUNT }
        ensures { self.new ≡ counters_after_sent bytes self.old }
    {
        add(&mut self.messages_sent, 1);
        add(&mut self.bytes_sent, bytes as u32);
    }

    /// Counts a message of this many bytes that is retransmitted.
    pub(crate) fn again(&mut self, bytes: usize)
        requires { bytes ≤ MAX_COUNT }
        ensures { self.new ≡ counters_after_again bytes self.old }
    {
        add(&mut self.messages_again, 1);
        add(&mut self.bytes_again, bytes as u32);
    }

    /// Counts a message of this many bytes that is put into the inbox.
    pub(crate) fn up(&mut self, bytes: usize)
        requires { bytes ≤ MAX_COUNT }
        ensures { self.new ≡ counters_after_up bytes self.old }
    {
        add(&mut self.messages_up, 1);
        add(&mut self.bytes_up, bytes as u32);
    }

    pub(crate) fn expired(&mut self)
        ensures { self.new ≡ record self.old { expiries = count_plus self.old.expiries 1 } }
    {
        add(&mut self.expiries, 1);
    }

    /// Counts an input that is a fault.
    pub(crate) fn fault(&mut self, input: &Input<'_>)
        ensures { self.new ≡ counters_after_fault (received input.now) self.old }
    {
        match input {
            Input::Good(_, _) => {}
            Input::HeaderCheck => add(&mut self.header_checks, 1),
            Input::DataCheck(_) => add(&mut self.data_checks, 1),
            Input::TooLong(_) => add(&mut self.too_longs, 1),
            Input::Format => add(&mut self.formats, 1),
        }
    }
}
