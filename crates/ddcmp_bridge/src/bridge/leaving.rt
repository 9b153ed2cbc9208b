//! The end of a bridge: its lines are left, and are opened again or not.
ghost use Rattle.std.specs.Prelude.{◌≡◌, ◌≤◌, [], List, None, Some, false, true, IsTrue, Ok};
ghost use Rattle.std.specs.Prelude.{Option, ◌*◌};
ghost use Rattle.ddcmp_ports.specs.Running.{Event};
ghost use Rattle.ddcmp_bridge.specs.Crossing.{Crosses, Keeps, asked_of, is_joined, Counted, IsOver};
ghost use Rattle.ddcmp_bridge.specs.Crossing.{is_printing};
ghost use Rattle.ddcmp_bridge.specs.declared.bridge.BridgeEnd.{BridgeEnd as EndValue};
ghost use Rattle.ddcmp_bridge.specs.Delaying.{Directs};

use crate::bridge::{Bridge, BridgeEnd, BridgeStop, Phase};
use crate::line::Stage;
use crate::trace::BridgeTrace;

/// For how long lines for standard error are printed once a bridge has ended, in milliseconds.
const PRINTING_MS: u64 = 1000;

impl Bridge<'_> {
    /// Does what is due at this moment.
    pub(super) fn settle(&mut self)
        ensures keeps { Keeps self.old self.new }
        ensures moment { self.new.moment ≡ self.old.moment }
        ensures reports { self.new.reports ≡ self.old.reports }
    {
        match self.phase {
            Phase::ListenFirst | Phase::ListenSecond | Phase::OpenFirst | Phase::OpenSecond => {
                if self.moment >= self.ends_at {
                    self.leave(BridgeStop::Time);
                }
            }
            Phase::Joined => self.settle_joined(),
            Phase::Printing => {
                if self.moment >= self.ends_at || self.errors.waiting().is_empty() {
                    self.end();
                }
            }
            Phase::Leaving => {}
        }
    }

    /// Leaves both lines if one has ended, and all that came over it was passed on, or the time is
    /// over.
    fn settle_joined(&mut self)
        requires joined { is_joined self.old.phase ≡ true }
        ensures keeps { Keeps self.old self.new }
        ensures moment { self.new.moment ≡ self.old.moment }
        ensures reports { self.new.reports ≡ self.old.reports }
    {
        if self.first.is_unsaved() || self.second.is_unsaved() {
            self.leave(BridgeStop::Stopped);
        } else if self.is_over() {
            self.leave(BridgeStop::Line);
        } else if self.moment >= self.ends_at {
            self.leave(BridgeStop::Time);
        }
    }

    /// Returns whether a line has ended, and nothing that came over it can be passed on any more.
    fn is_over(&self) -> bool
        ensures { IsTrue result → IsOver self.now.first.over self.now.second.over
            self.now.there.held self.now.back.held }
    {
        match (self.first.over.is_some(), self.second.over.is_some()) {
            (false, false) => false,
            (true, false) => self.there.wakes_at().is_none(),
            (false, true) => self.back.wakes_at().is_none(),
            (true, true) => true,
        }
    }

    /// Reports why the lines have ended, and begins to close them.
    pub(super) fn leave(&mut self, stop: BridgeStop)
        ensures crosses { (h : List Event) → Crosses self.old h
            → (stop ≡ BridgeStop.Line → IsOver self.old.first.over self.old.second.over
            self.old.there.held self.old.back.held)
            → (stop ≡ BridgeStop.Time → 1000 * self.old.options.seconds ≤ self.old.moment)
            → is_printing self.old.phase ≡ false → Crosses self.new h }
        ensures asked { asked_of self.new ≡ asked_of self.old }
        ensures moment { self.new.moment ≡ self.old.moment }
        ensures reports { self.new.reports ≡ self.old.reports }
    {
        self.stop = stop;
        self.left_at = self.moment;
        self.has_failed = self.first.has_failed() || self.second.has_failed();
        self.first.report_end(&mut self.errors);
        self.second.report_end(&mut self.errors);
        self.phase = Phase::Leaving;
        self.leave_if_closed();
    }

    /// Once both lines are closed, opens them again, or prints the last lines.
    pub(super) fn leave_if_closed(&mut self)
        ensures keeps { Keeps self.old self.new }
        ensures moment { self.new.moment ≡ self.old.moment }
        ensures reports { self.new.reports ≡ self.old.reports }
    {
        match (self.phase, self.first.stage, self.second.stage) {
            (Phase::Leaving, Stage::Closed, Stage::Closed) => self.left(),
            _ => {}
        }
    }

    fn left(&mut self)
        requires phase { self.old.phase ≡ Phase.Leaving }
        requires first { self.old.first.stage ≡ Stage.Closed }
        requires second { self.old.second.stage ≡ Stage.Closed }
        ensures keeps { Keeps self.old self.new }
        ensures moment { self.new.moment ≡ self.old.moment }
        ensures reports { self.new.reports ≡ self.old.reports }
    {
        if self.reopens() {
            self.restart();
            self.begin();
        } else {
            self.phase = Phase::Printing;
            self.ends_at = self.prints_until();
        }
    }

    /// Returns the moment until which the last lines are printed: this one if there are none.
    fn prints_until(&self) -> u64 {
        match self.errors.waiting().is_empty() {
            true => self.moment,
            false => self.moment.saturating_add(PRINTING_MS),
        }
    }

    /// Returns whether both lines are opened again.
    fn reopens(&self) -> bool
        ensures { IsTrue result → self.now.options.again ≡ true }
    {
        self.options.again && self.stop == BridgeStop::Line
    }

    /// Prepares for two other lines: drops what wasn't passed on, so that nothing of a frame that
    /// was half passed on goes to them, and keeps the counters. The faults go on as if the lines
    /// were the same.
    fn restart(&mut self)
        ensures there { Directs self.old.there.relay.draws self.new.there [] [] }
        ensures back { Directs self.old.back.relay.draws self.new.back [] [] }
        ensures faults { (self.new.there.relay.faults ≡ self.old.there.relay.faults)
            × (self.new.back.relay.faults ≡ self.old.back.relay.faults) }
        ensures delay { (self.new.there.delay ≡ self.old.there.delay)
            × (self.new.back.delay ≡ self.old.back.delay) }
        ensures lines { (self.new.first.stage ≡ self.old.first.stage) × (self.new.first.over ≡ None)
            × (self.new.second.stage ≡ self.old.second.stage) × (self.new.second.over ≡ None) }
        ensures flags { (self.new.was_joined ≡ false) × (self.new.has_reopened ≡ true) }
        ensures asked { asked_of self.new ≡ asked_of self.old }
        ensures stays { (self.new.options ≡ self.old.options)
            × (self.new.moment ≡ self.old.moment) × (self.new.ends_at ≡ self.old.ends_at)
            × (self.new.ended ≡ self.old.ended) × (self.new.reports ≡ self.old.reports) }
    {
        let there = self.there.counts();
        let back = self.back.counts();
        let has_passed = there.frames > 0 || back.frames > 0;
        self.first
            .reopens(has_passed, self.moment, &mut self.errors);
        self.second
            .reopens(has_passed, self.moment, &mut self.errors);
        self.earlier_there = self.earlier_there.plus(there);
        self.earlier_back = self.earlier_back.plus(back);
        self.there.restart();
        self.back.restart();
        restart_trace(&mut self.trace_there);
        restart_trace(&mut self.trace_back);
        self.was_joined = false;
        self.has_reopened = true;
    }

    /// Ends it, as its lines did.
    fn end(&mut self)
        ensures stays { self.new ≡ record self.old { ended = self.new.ended } }
        ensures there { (end : EndValue) → self.new.ended ≡ Some (Ok end)
            → Counted self.old.earlier_there self.old.there end.there }
        ensures back { (end : EndValue) → self.new.ended ≡ Some (Ok end)
            → Counted self.old.earlier_back self.old.back end.back }
    {
        self.ended = Some(match self.unopened {
            Some(fault) => Err(fault),
            None => Ok(self.counted()),
        });
    }

    /// Returns the counters of all lines.
    pub(super) fn counted(&self) -> BridgeEnd
        ensures there { Counted self.now.earlier_there self.now.there result.there }
        ensures back { Counted self.now.earlier_back self.now.back result.back }
    {
        BridgeEnd {
            stop: self.stop,
            there: self.earlier_there.plus(self.there.counts()),
            back: self.earlier_back.plus(self.back.counts()),
            has_failed: self.has_failed,
        }
    }
}

/// Begins the log of another line on the same side, if there is one.
fn restart_trace(trace: &mut Option<BridgeTrace>) {
    if let Some(trace) = trace {
        trace.restart();
    }
}
