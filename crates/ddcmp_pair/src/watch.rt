//! A watch of a pair.
use crate::pair::Pair;
use crate::{Event, Reply};

/// A watch of a pair: each event that was done is reported to it, in order.
pub trait Watch {
    ghost use Rattle.std.specs.Prelude.{Option, List, None, [], ◌∷◌};
    ghost use Rattle.ddcmp_io.specs.Device.{Logs};
    ghost use Rattle.ddcmp_pair.specs.Steps.{Step};

    // The steps that were reported to it, if they are known.
    ghost seen: { Self → Option (List Step) } = { λ _. None };

    /// Notes an event and its reply; `pair` is the pair after it.
    fn on_step(&mut self, pair: &Pair, event: &Event, reply: &Reply)
        ensures { Logs (seen self.old) (seen self.new)
            (record { event = event.now; reply = reply.now } ∷ []) };
}

/// A watch that does nothing.
#[derive(Clone, Copy, Drop)]
pub struct Unwatched;

impl Watch for Unwatched {
    fn on_step(&mut self, _pair: &Pair, _event: &Event, _reply: &Reply) {}
}
