//! Both ends of a line, step by step. Here each call equals the definition of a run; `Pair` adds
//! what holds for all honest and clean runs.
use crate::side::Side;
use crate::{End, Event, Reply};
use ddcmp_proto::{Memory, StartRefusal, State};
use std::marker::Model;

/// Both ends of a line.
pub(crate) struct Ends {
    pub(crate) a: Side,
    pub(crate) b: Side,
}

// Manual, since a derived `Drop` is expanded wherever a pair is dropped.
impl Drop for Ends {
    fn drop(self) {
        let Ends { a: _a, b: _b } = self;
    }
}

impl Model for Ends {
    ghost use Rattle.std.specs.Prelude.{◌&&◌, is_some};
    ghost use Rattle.ddcmp_pair.specs.Run.{PairState};
    ghost use Rattle.ddcmp_pair.specs.Inside.Sides.{IsPlaced};

    ghost Value = { PairState };

    ghost view = { λ p. record {
      a = p.a.state;
      b = p.b.state;
      honest = is_some p.a.place && is_some p.b.place;
    } };

    ghost invariant = { λ p. IsPlaced p.a p.b.state.sent × IsPlaced p.b p.a.state.sent };
}

impl Ends {
    ghost use Rattle.std.specs.Prelude.{◌≡◌, Some, IsOk, IfOk, OnErr, false};
    ghost use Rattle.ddcmp_pair.specs.Run.{after_event, after_event_at, reply_to, reply_at};
    ghost use Rattle.ddcmp_pair.specs.Run.{asks_memory, asks_at, clear_refusal as clear_refusal_of};
    ghost use Rattle.ddcmp_pair.specs.Run.{after_clear_by, reply_to_clear, at, is_clean};

    /// Applies an event and returns its reply.
    #[tactic(auto, unfolding(crate::specs::Run::after_event, crate::specs::Run::reply_to, crate::specs::Run::asks_memory))]
    pub(crate) fn apply(&mut self, event: &Event) -> Result<Reply, Memory>
        ensures state { IsOk result → self.new ≡ after_event event.now self.old }
        ensures reply { IfOk result (λ reply. reply ≡ reply_to event.now self.old) }
        ensures memory { OnErr result (self.new ≡ self.old) }
        ensures asks { asks_memory event.now self.old ≡ false → IsOk result }
    {
        match event.end() {
            Some(End::A) => self.apply_at_a(event),
            Some(End::B) => self.apply_at_b(event),
            None => Ok(self.clear()),
        }
    }

    fn apply_at_a(&mut self, event: &Event) -> Result<Reply, Memory>
        ensures state { IsOk result → self.new ≡ after_event_at (Some End.A) event.now self.old }
        ensures reply { IfOk result (λ reply. reply
            ≡ reply_at (Some End.A) event.now self.old) }
        ensures memory { OnErr result (self.new ≡ self.old) }
        ensures asks { asks_at (Some End.A) event.now self.old ≡ false → IsOk result }
    {
        self.a.apply(event, self.b.sent())
    }

    fn apply_at_b(&mut self, event: &Event) -> Result<Reply, Memory>
        ensures state { IsOk result → self.new ≡ after_event_at (Some End.B) event.now self.old }
        ensures reply { IfOk result (λ reply. reply
            ≡ reply_at (Some End.B) event.now self.old) }
        ensures memory { OnErr result (self.new ≡ self.old) }
        ensures asks { asks_at (Some End.B) event.now self.old ≡ false → IsOk result }
    {
        self.b.apply(event, self.a.sent())
    }

    /// Clears the line, if both ends are halted and have no message to take.
    fn clear(&mut self) -> Reply
        ensures state { self.new ≡ after_clear_by (clear_refusal_of self.old) self.old }
        ensures reply { result ≡ reply_to_clear (clear_refusal_of self.old) }
    {
        if let Some(refusal) = self.clear_refusal() {
            return Reply::ClearRefused(refusal);
        }
        self.a.clear();
        self.b.clear();
        Reply::Cleared
    }

    /// Returns why the line isn't cleared.
    fn clear_refusal(&self) -> Option<StartRefusal>
        ensures { result ≡ clear_refusal_of self.now }
    {
        if self.a.station().state() != State::Halted || self.b.station().state() != State::Halted {
            return Some(StartRefusal::NotHalted);
        }
        if self.a.station().waiting() != 0 || self.b.station().waiting() != 0 {
            return Some(StartRefusal::Untaken);
        }
        None
    }

    /// Returns one of both ends.
    pub(crate) fn side(&self, end: End) -> &Side
        ensures { result.now.state ≡ at end self.now }
    {
        match end {
            End::A => &self.a,
            End::B => &self.b,
        }
    }

    /// Returns whether all arrivals at both ends were honest.
    pub(crate) fn honest(&self) -> bool
        ensures { result ≡ self.now.honest }
    {
        self.a.is_placed() && self.b.is_placed()
    }

    /// Returns whether neither end started twice.
    pub(crate) fn clean(&self) -> bool
        ensures { result ≡ is_clean self.now }
    {
        self.a.began_once() && self.b.began_once()
    }
}
