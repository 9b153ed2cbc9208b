//! The order in which the items of two captured directions are drawn, which have no time stamps.
ghost use Rattle.std.specs.Prelude.{◌≡◌, false, true};
ghost use Rattle.ddcmp_num.specs.Sequence.{distance as distance_of};
ghost use Rattle.ddcmp_tap.specs.Order.{acknowledged as acknowledged_by, after_data};
ghost use Rattle.ddcmp_tap.specs.Order.{after_drawn, after_other as after_of_other};
ghost use Rattle.ddcmp_tap.specs.Order.{after_own as after_of_own, control_summary, goes_first};
ghost use Rattle.ddcmp_tap.specs.Order.{header_summary, is_ahead as is_ahead_of, is_early};
ghost use Rattle.ddcmp_tap.specs.Order.{is_for as is_for_data, is_new as is_new_data, is_unasked};
ghost use Rattle.ddcmp_tap.specs.Order.{higher, is_after, is_undrawn, must_wait, next_of_both};
ghost use Rattle.ddcmp_tap.specs.Order.{next_side, nothing_drawn, raised, summary_of};
ghost use Rattle.ddcmp_tap.specs.Order.{refers as refers_to_other, waits as waits_for_other};

use ddcmp_frame::{ControlType, Header, Item, Short};
use ddcmp_log::Side;
use ddcmp_num::Seq;

/// What the order needs to know about an item: what it acknowledges, and its own number.
#[derive(Clone, Copy)]
pub enum ItemSummary {
    /// An item that isn't a good frame.
    Bad,
    Maint,
    /// A data message: RESP and NUM.
    Data(u8, u8),
    /// An ACK: RESP.
    Ack(u8),
    /// A NAK: RESP, and whether it is a reply to a REP.
    Nak(u8, bool),
    Rep,
    Strt,
    Stack,
}

impl ItemSummary {
    /// Returns what the order needs to know about an item.
    pub fn of(item: &Item) -> ItemSummary
        ensures { result ≡ summary_of item.now }
    {
        match item {
            Item::Good(_, header) => of_header(header),
            Item::HeaderCheck(_)
            | Item::DataCheck(_, _)
            | Item::TooLong(_, _)
            | Item::Format(_, _) => ItemSummary::Bad,
        }
    }

    /// Returns whether it acknowledges the data of the other side's next item, or data after them.
    fn refers(self, theirs: ItemSummary) -> bool
        ensures { result ≡ refers_to_other self theirs }
    {
        match self {
            ItemSummary::Data(resp, _) | ItemSummary::Ack(resp) | ItemSummary::Nak(resp, _) =>
                theirs.is_met(resp),
            ItemSummary::Bad
            | ItemSummary::Maint
            | ItemSummary::Rep
            | ItemSummary::Strt
            | ItemSummary::Stack => false,
        }
    }

    /// Returns whether this number acknowledges these data, or data after them.
    fn is_met(self, resp: u8) -> bool
        ensures { result ≡ is_for_data resp self }
    {
        match self {
            ItemSummary::Data(_, num) => distance(num, resp) < 128,
            ItemSummary::Bad
            | ItemSummary::Maint
            | ItemSummary::Ack(_)
            | ItemSummary::Nak(_, _)
            | ItemSummary::Rep
            | ItemSummary::Strt
            | ItemSummary::Stack => false,
        }
    }
}

fn of_header(header: &Header) -> ItemSummary
    ensures { result ≡ header_summary header.now }
{
    match header {
        Header::Data(h) => ItemSummary::Data(h.resp, h.num),
        Header::Maint(_) => ItemSummary::Maint,
        Header::Control(h) => of_control(h),
    }
}

fn of_control(h: &Short) -> ItemSummary
    ensures { result ≡ control_summary h.now.kind h.now }
{
    match h.kind {
        ControlType::Ack => ItemSummary::Ack(h.resp),
        ControlType::Nak => ItemSummary::Nak(h.resp, h.sub == 3),
        ControlType::Rep => ItemSummary::Rep,
        ControlType::Strt => ItemSummary::Strt,
        ControlType::Stack => ItemSummary::Stack,
    }
}

/// Returns how far a number is ahead of another, modulo 256.
fn distance(from: u8, to: u8) -> u8
    ensures { result ≡ distance_of from to }
{
    Seq::distance(Seq(from), Seq(to))
}

/// A summary of what was drawn of a side, as far as items of the other side depend on it.
#[derive(Clone, Copy)]
pub struct SideSummary {
    /// The number of its last data message in sequence; a NAK sets it back.
    pub num: u8,
    /// The highest number of its data messages.
    pub top: u8,
    /// The number that it acknowledged last.
    pub resp: u8,
    /// Whether it had a STRT or STACK, and the other side only STRTs since.
    pub starts: bool,
    /// Whether it had a REP since the other's last ACK or NAK.
    pub asks: bool,
    /// Whether it had anything since then that may get a reply, new data messages apart.
    pub repeats: bool,
    /// Whether the message after `num` is to be retransmitted, since the other side sent a NAK.
    pub goes_back: bool,
}

impl SideSummary {
    /// The summary at the start.
    const NOTHING: SideSummary = SideSummary {
        num: 0,
        top: 0,
        resp: 0,
        starts: false,
        asks: false,
        repeats: false,
        goes_back: false,
    };

    /// Returns whether the other side's data of this number weren't drawn at all.
    fn is_undrawn(&self, other: &SideSummary, resp: u8) -> bool
        ensures { result ≡ is_undrawn self.now other.now resp }
    {
        distance(self.resp, other.top) < distance(self.resp, resp)
    }

    /// Returns whether an item acknowledges data that weren't drawn at all.
    #[tactic(auto, unfolding(crate::specs::Order::must_wait))]
    fn must_wait(&self, other: &SideSummary, summary: ItemSummary) -> bool
        ensures { result ≡ must_wait self.now other.now summary }
    {
        match summary {
            ItemSummary::Data(resp, _) | ItemSummary::Ack(resp) | ItemSummary::Nak(resp, _) => {
                self.is_undrawn(other, resp)
            }
            ItemSummary::Bad
            | ItemSummary::Maint
            | ItemSummary::Rep
            | ItemSummary::Strt
            | ItemSummary::Stack => false,
        }
    }

    /// Returns whether the other side's data of this number weren't drawn in sequence yet.
    fn is_ahead(&self, other: &SideSummary, resp: u8) -> bool
        ensures { result ≡ is_ahead_of self.now other.now resp }
    {
        distance(self.resp, other.num) < distance(self.resp, resp)
    }

    /// Returns whether an ACK acknowledges nothing new, and nothing that was repeated.
    fn is_unasked(&self, other: &SideSummary, resp: u8) -> bool
        ensures { result ≡ is_unasked self.now other.now resp }
    {
        resp == self.resp && !other.repeats
    }

    /// Returns whether a NAK of the other side is before anything that it may refer to.
    fn is_early(&self, resp: u8, is_reply: bool) -> bool
        ensures { result ≡ is_early self.now resp is_reply }
    {
        if is_reply {
            !self.asks
        } else {
            resp == self.num && !self.repeats
        }
    }

    /// Returns whether an item waits for one of the other side that it probably replies to.
    #[tactic(auto, unfolding(crate::specs::Order::waits))]
    fn waits(&self, other: &SideSummary, summary: ItemSummary) -> bool
        ensures { result ≡ waits_for_other self.now other.now summary }
    {
        match summary {
            ItemSummary::Bad | ItemSummary::Maint | ItemSummary::Strt => false,
            ItemSummary::Data(resp, _) => self.starts || self.is_ahead(other, resp),
            ItemSummary::Ack(resp) => {
                self.starts || self.is_ahead(other, resp) || self.is_unasked(other, resp)
            }
            ItemSummary::Nak(resp, is_reply) => {
                self.starts || self.is_ahead(other, resp) || other.is_early(resp, is_reply)
            }
            ItemSummary::Rep => self.starts,
            ItemSummary::Stack => !other.starts,
        }
    }

    /// Returns whether a number of the other side's data comes after another, and isn't an old one.
    fn is_after(&self, last: u8, num: u8) -> bool
        ensures { result ≡ is_after self.now last num }
    {
        distance(self.resp, num) < 128 && distance(self.resp, last) < distance(self.resp, num)
    }

    /// Returns whether a data message is a new one, which comes after those that were drawn.
    fn is_new(&self, other: &SideSummary, num: u8) -> bool
        ensures { result ≡ is_new_data self.now other.now num }
    {
        if self.goes_back {
            num == Seq(self.num).next().0
        } else {
            other.is_after(self.num, num)
        }
    }

    /// Returns the highest number, that of a data message included.
    fn higher(&self, other: &SideSummary, num: u8) -> u8
        ensures { result ≡ higher self.now other.now num }
    {
        if other.is_after(self.top, num) {
            num
        } else {
            self.top
        }
    }

    /// Returns the highest number of the other side, after data of it were acknowledged.
    fn raised(&self, other: &SideSummary, resp: u8) -> u8
        ensures { result ≡ raised self.now other.now resp }
    {
        if self.is_undrawn(other, resp) {
            resp
        } else {
            other.top
        }
    }

    /// Updates the summary for a data message of this side.
    fn take_data(&mut self, other: &SideSummary, num: u8)
        ensures { self.new ≡ after_data self.old other.now num }
    {
        if self.is_new(other, num) {
            self.num = num;
            self.goes_back = false;
        } else {
            self.repeats = true;
        }
    }

    /// Updates the summary for an item of this side.
    #[tactic(auto, unfolding(crate::specs::Order::after_own))]
    fn take_own(&mut self, other: &SideSummary, summary: ItemSummary)
        ensures { self.new ≡ after_of_own self.old other.now summary }
    {
        match summary {
            ItemSummary::Bad => self.repeats = true,
            ItemSummary::Maint => {}
            ItemSummary::Data(resp, num) => {
                let top = self.higher(other, num);
                self.take_data(other, num);
                self.resp = resp;
                self.top = top;
            }
            ItemSummary::Ack(resp) | ItemSummary::Nak(resp, _) => self.resp = resp,
            ItemSummary::Rep => {
                self.asks = true;
                self.repeats = true;
            }
            ItemSummary::Strt => self.begin(),
            ItemSummary::Stack => {
                self.begin();
                self.repeats = true;
            }
        }
    }

    /// Restarts the numbers.
    fn begin(&mut self)
        ensures { self.new ≡ record self.old {
          num = 0;
          top = 0;
          resp = 0;
          starts = true;
          goes_back = false;
        } }
    {
        self.num = 0;
        self.top = 0;
        self.resp = 0;
        self.starts = true;
        self.goes_back = false;
    }

    /// Updates the summary for an acknowledgement by the other side, whose summary was `own`.
    fn acknowledge(&mut self, own: &SideSummary, resp: u8)
        ensures { self.new ≡ acknowledged_by own.now self.old resp }
    {
        if own.is_ahead(self, resp) {
            self.num = resp;
            self.goes_back = false;
        }
    }

    /// Updates the summary for an item of the other side, whose summary was `own`.
    #[tactic(auto, unfolding(crate::specs::Order::after_other))]
    fn take_other(&mut self, own: &SideSummary, summary: ItemSummary)
        ensures { self.new ≡ after_of_other own.now self.old summary }
    {
        match summary {
            ItemSummary::Bad | ItemSummary::Maint | ItemSummary::Strt => {}
            ItemSummary::Data(resp, _) => {
                let top = own.raised(self, resp);
                self.acknowledge(own, resp);
                self.top = top;
                self.starts = false;
            }
            ItemSummary::Ack(resp) => {
                let top = own.raised(self, resp);
                self.acknowledge(own, resp);
                self.top = top;
                self.starts = false;
                self.asks = false;
                self.repeats = false;
            }
            ItemSummary::Nak(resp, _) => {
                *self = SideSummary {
                    num: resp,
                    top: own.raised(self, resp),
                    resp: self.resp,
                    starts: false,
                    asks: false,
                    repeats: false,
                    goes_back: true,
                };
            }
            ItemSummary::Rep | ItemSummary::Stack => self.starts = false,
        }
    }

    /// Returns whether its item goes before the other side's, if it is its turn.
    fn goes_first(&self, other: &SideSummary, mine: ItemSummary, theirs: ItemSummary) -> bool
        ensures { result ≡ goes_first self.now other.now mine theirs }
    {
        if self.must_wait(other, mine) {
            other.must_wait(self, theirs) && !mine.refers(theirs)
        } else if self.waits(other, mine) {
            other.must_wait(self, theirs) || other.waits(self, theirs)
        } else {
            true
        }
    }
}

/// The summaries of both sides, and whose turn it is.
#[derive(Clone, Copy)]
pub struct Order {
    turn: Side,
    caller: SideSummary,
    called: SideSummary,
}

impl Order {
    /// Returns the order before anything was drawn.
    pub fn new() -> Order
        ensures { result ≡ nothing_drawn }
    {
        Order {
            turn: Side::Caller,
            caller: SideSummary::NOTHING,
            called: SideSummary::NOTHING,
        }
    }

    /// Returns the side whose item is drawn next, from the next item of each, if there is one.
    pub fn next(&self, caller: Option<ItemSummary>, called: Option<ItemSummary>) -> Option<Side>
        ensures { result ≡ next_side self.now caller called }
    {
        match (caller, called) {
            (None, None) => None,
            (Some(_), None) => Some(Side::Caller),
            (None, Some(_)) => Some(Side::Called),
            (Some(up), Some(down)) => Some(self.next_of_both(up, down)),
        }
    }

    fn next_of_both(&self, up: ItemSummary, down: ItemSummary) -> Side
        ensures { result ≡ next_of_both self.now.turn self.now up down }
    {
        let goes_first = match self.turn {
            Side::Caller => self.caller.goes_first(&self.called, up, down),
            Side::Called => self.called.goes_first(&self.caller, down, up),
        };
        if goes_first {
            self.turn
        } else {
            self.turn.other()
        }
    }

    /// Updates the order for an item of a side.
    pub fn draw(&mut self, side: Side, summary: ItemSummary)
        ensures { self.new ≡ after_drawn self.old side summary }
    {
        let (caller, called) = (self.caller, self.called);
        match side {
            Side::Caller => {
                self.caller.take_own(&called, summary);
                self.called.take_other(&caller, summary);
            }
            Side::Called => {
                self.called.take_own(&caller, summary);
                self.caller.take_other(&called, summary);
            }
        }
        self.turn = side.other();
    }
}
