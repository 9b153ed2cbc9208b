//! The opening of the lines of a bridge.
ghost use Rattle.std.specs.Prelude.{◌≡◌, List, Some, false, true, Option, ◌∷◌};
ghost use Rattle.std.specs.declared.net.socket_addr.SocketAddr.{SocketAddr as AddrValue};
ghost use Rattle.ddcmp_ports.specs.Running.{Event, IsAwaited, Told};
ghost use Rattle.ddcmp_ports.specs.declared.port.Down.{Down};
ghost use Rattle.ddcmp_ports.specs.declared.port.News.TheVariants as news;
ghost use Rattle.ddcmp_ports.specs.declared.port.Port.TheVariants.{First, Second};
ghost use Rattle.ddcmp_bridge.specs.Crossing.{Crosses, Keeps, asked_of, is_joined, is_opening};
ghost use Rattle.ddcmp_bridge.specs.Crossing.{needs_of_first, needs_of_second, is_left};
ghost use Rattle.ddcmp_bridge.specs.Crossing.{is_printing, passes_to};

use crate::bridge::{Bridge, BridgeStop, Phase};
use crate::line::Stage;
use ddcmp_ports::{LineEvent, News, OpenFault, OpenRefusal, Port};

impl<'a> Bridge<'a> {
    /// Begins to open both lines.
    pub(super) fn begin(&mut self)
        ensures phase { self.new ≡ record self.old { phase = self.new.phase } }
        ensures opening { is_opening self.new.phase ≡ true }
        ensures joined { is_joined self.new.phase ≡ false }
        ensures left { is_left self.new.phase ≡ false }
    {
        self.phase = if self.first.listens() {
            Phase::ListenFirst
        } else if self.second.listens() {
            Phase::ListenSecond
        } else {
            Phase::OpenFirst
        };
    }

    /// Goes on to the next line that is to listen or to be opened.
    fn goes_on(&mut self)
        ensures phase { self.new ≡ record self.old { phase = self.new.phase } }
        ensures opening { is_opening self.new.phase ≡ is_opening self.old.phase }
        ensures joined { is_joined self.new.phase ≡ is_joined self.old.phase }
        ensures left { is_left self.new.phase ≡ is_left self.old.phase }
        ensures printing { is_printing self.new.phase ≡ is_printing self.old.phase }
    {
        self.phase = match self.phase {
            Phase::ListenFirst if self.second.listens() => Phase::ListenSecond,
            Phase::ListenFirst | Phase::ListenSecond => Phase::OpenFirst,
            phase => phase,
        };
    }

    /// Notes that a line is open.
    fn opened(&mut self, port: Port)
        ensures first { (peer : Option AddrValue) (h : List Event) → port ≡ Port.First
            → is_opening self.old.phase ≡ true → Crosses self.old h
            → Crosses self.new (Told First (news.Opened peer) ∷ h) }
        ensures second { (peer : Option AddrValue) (h : List Event) → port ≡ Port.Second
            → is_opening self.old.phase ≡ true → Crosses self.old h
            → Crosses self.new (Told Second (news.Opened peer) ∷ h) }
        ensures asked { asked_of self.new ≡ asked_of self.old }
    {
        match port {
            Port::First => self.first.opened(&mut self.errors),
            _ => self.second.opened(&mut self.errors),
        }
        match (self.first.stage, self.second.stage) {
            (Stage::Open, Stage::Open) => {
                self.phase = Phase::Joined;
                self.was_joined = true;
            }
            (Stage::Open, _) => self.phase = Phase::OpenSecond,
            _ => self.phase = Phase::OpenFirst,
        }
    }

    /// Notes that the first line can't be opened. It is tried again after a pause, if lines are
    /// opened again.
    fn first_refused(&mut self, why: OpenRefusal)
        requires opening { is_printing self.old.phase ≡ false }
        ensures { Keeps self.old self.new }
    {
        let fault = self.first.fault(why);
        if self.options.again {
            self.first.retries(fault, self.moment, &mut self.errors);
            self.goes_on();
        } else {
            self.gives_up(fault);
        }
    }

    /// Notes that the second line can't be opened, in the same way.
    fn second_refused(&mut self, why: OpenRefusal)
        requires opening { is_printing self.old.phase ≡ false }
        ensures { Keeps self.old self.new }
    {
        let fault = self.second.fault(why);
        if self.options.again {
            self.second.retries(fault, self.moment, &mut self.errors);
            self.goes_on();
        } else {
            self.gives_up(fault);
        }
    }

    /// Ends it, as a line can't be opened.
    fn gives_up(&mut self, fault: OpenFault<'a>)
        requires opening { is_printing self.old.phase ≡ false }
        ensures { Keeps self.old self.new }
    {
        self.unopened = Some(fault);
        self.leave(BridgeStop::Stopped);
    }

    /// Notes what has become of the first line.
    pub(super) fn told_of_first(&mut self, what: News)
        requires awaited { IsAwaited (needs_of_first self.old.phase self.old) what }
        ensures has { (h : List Event) → Crosses self.old h
            → Crosses self.new (Told First what ∷ h) }
        ensures asked { asked_of self.new ≡ asked_of self.old }
        ensures broken { (why : Down) → what ≡ News.Broken why
            → passes_to self.new.phase self.new.first ≡ false }
    {
        match what {
            News::Opened(_) => self.opened(Port::First),
            News::Reported(event) => self.reported(event),
            News::Refused(why) => self.first_refused(why),
            News::Ended(why) => self.first.ended(why),
            News::Broken(why) => self.first.broke(why),
        }
    }

    /// Notes what has become of the second line.
    pub(super) fn told_of_second(&mut self, what: News)
        requires awaited { IsAwaited (needs_of_second self.old.phase self.old) what }
        ensures has { (h : List Event) → Crosses self.old h
            → Crosses self.new (Told Second what ∷ h) }
        ensures asked { asked_of self.new ≡ asked_of self.old }
        ensures broken { (why : Down) → what ≡ News.Broken why
            → passes_to self.new.phase self.new.second ≡ false }
    {
        match what {
            News::Opened(_) => self.opened(Port::Second),
            News::Reported(event) => self.reported(event),
            News::Refused(why) => self.second_refused(why),
            News::Ended(why) => self.second.ended(why),
            News::Broken(why) => self.second.broke(why),
        }
    }

    /// Reports how far the opening of a line has come.
    fn reported(&mut self, event: LineEvent)
        requires opening { is_printing self.old.phase ≡ false }
        ensures { Keeps self.old self.new }
    {
        self.errors.report(event);
        self.goes_on();
    }
}
