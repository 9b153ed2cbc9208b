//! A settle: frames arrive whole, one after another, until neither end sends any more.
use crate::pair::Pair;
use crate::watch::{Unwatched, Watch};
use crate::{End, Event, Reply};
use ddcmp_proto::Memory;

/// The result of a settle.
#[derive(Clone, Copy, PartialEq, Eq)]
pub struct Settled {
    /// How many exchanges were counted: at most 16 * (w + 4), w being the larger window.
    pub exchanges: u32,
    /// Whether neither end had anything more to send.
    pub quiet: bool,
}

impl Pair {
    ghost use Rattle.std.specs.Prelude.{◌≡◌, IsOk, IfOk, OnErr};
    ghost use Rattle.ddcmp_io.specs.declared.carrier.End.{End as EndValue};
    ghost use Rattle.ddcmp_pair.specs.Run.{at, run};
    ghost use Rattle.ddcmp_pair.specs.InOrder.{IsInOrder};
    ghost use Rattle.ddcmp_pair.specs.Settle.{settling, settled, exchange, either_writes, crossing};
    ghost use Rattle.ddcmp_pair.specs.Settle.{writes, mail_events, WantsMemory};
    ghost use Rattle.ddcmp_pair.specs.Steps.{Reports};

    /// Takes all received messages, and then carries frames to and fro until neither end writes
    /// one. Bytes in flight before are lost.
    pub fn settle(&mut self) -> Result<Settled, Memory>
        ensures state { IsOk result → self.new ≡ settled self.old }
        ensures exchanges { IfOk result (λ s. s.exchanges ≡ (settling self.old).exchanges) }
        ensures quiet { IfOk result (λ s. s.quiet ≡ (settling self.old).quiet) }
        // On an allocation failure some of its events were done, each of them whole, and the next
        // one allocates.
        ensures memory { OnErr result (WantsMemory (settling self.old).events self.old self.new) }
        ensures limits { (end : EndValue) → (at end self.new).core.limits
            ≡ (at end self.old).core.limits }
        // Messages are in order even after an allocation failure.
        ensures order { IsInOrder self.new }
    {
        self.settle_watched(&mut Unwatched)
    }

    /// The same as `settle`, reported to a watch.
    pub fn settle_watched<W: Watch>(&mut self, watch: &mut W) -> Result<Settled, Memory>
        ensures state { IsOk result → self.new ≡ settled self.old }
        ensures exchanges { IfOk result (λ s. s.exchanges ≡ (settling self.old).exchanges) }
        ensures quiet { IfOk result (λ s. s.quiet ≡ (settling self.old).quiet) }
        ensures memory { OnErr result (WantsMemory (settling self.old).events self.old self.new) }
        ensures limits { (end : EndValue) → (at end self.new).core.limits
            ≡ (at end self.old).core.limits }
        ensures order { IsInOrder self.new }
        // Each event of the settle is reported, in order, and no other.
        ensures seen { IsOk result
            → Reports (W.seen watch.old) (W.seen watch.new) (settling self.old).events self.old }
    {
        let settled = self.settle_all(watch);
        self.is_run();
        settled
    }

    fn settle_all<W: Watch>(&mut self, watch: &mut W) -> Result<Settled, Memory>
        ensures state { IsOk result → self.new ≡ settled self.old }
        ensures exchanges { IfOk result (λ s. s.exchanges ≡ (settling self.old).exchanges) }
        ensures quiet { IfOk result (λ s. s.quiet ≡ (settling self.old).quiet) }
        ensures memory { OnErr result (WantsMemory (settling self.old).events self.old self.new) }
        ensures seen { IsOk result
            → Reports (W.seen watch.old) (W.seen watch.new) (settling self.old).events self.old }
    {
        let most = 16 * (self.window() as u32 + 4);
        self.take_mail(watch, End::A)?;
        self.take_mail(watch, End::B)?;
        for exchanges in 0..most {
            if !self.exchange(watch)? {
                return Ok(Settled {
                    exchanges,
                    quiet: true,
                });
            }
        }
        Ok(Settled {
            exchanges: most,
            quiet: false,
        })
    }

    /// Carries a frame from A to B and one from B to A; returns whether either end wrote.
    fn exchange<W: Watch>(&mut self, watch: &mut W) -> Result<bool, Memory>
        ensures state { IsOk result → self.new ≡ run (exchange self.old) self.old }
        ensures wrote { IfOk result (λ wrote. wrote ≡ either_writes self.old) }
        ensures memory { OnErr result (WantsMemory (exchange self.old) self.old self.new) }
        ensures seen { IsOk result
            → Reports (W.seen watch.old) (W.seen watch.new) (exchange self.old) self.old }
    {
        let first = self.cross(watch, End::A)?;
        let second = self.cross(watch, End::B)?;
        Ok(first || second)
    }

    /// Carries the end's next frame to the other, whose messages are taken; returns whether there
    /// was one.
    fn cross<W: Watch>(&mut self, watch: &mut W, from: End) -> Result<bool, Memory>
        ensures state { IsOk result → self.new ≡ run (crossing from self.old) self.old }
        ensures wrote { IfOk result (λ wrote. wrote ≡ writes from self.old) }
        ensures memory { OnErr result (WantsMemory (crossing from self.old) self.old self.new) }
        ensures seen { IsOk result
            → Reports (W.seen watch.old) (W.seen watch.new) (crossing from self.old) self.old }
    {
        let to = from.other();
        let Reply::Wrote(bytes) = self.step_watched(watch, Event::Poll(from))? else {
            return Ok(false);
        };
        let _notices = self.step_watched(watch, Event::Arrive(to, bytes))?;
        self.take_mail(watch, to)?;
        Ok(true)
    }

    /// Takes all received messages of an end.
    fn take_mail<W: Watch>(&mut self, watch: &mut W, end: End) -> Result<(), Memory>
        ensures state { IsOk result → self.new ≡ run (mail_events end self.old) self.old }
        ensures memory { OnErr result (WantsMemory (mail_events end self.old) self.old self.new) }
        ensures seen { IsOk result
            → Reports (W.seen watch.old) (W.seen watch.new) (mail_events end self.old) self.old }
    {
        for _taken in 0..self.station(end).waiting() {
            let _message = self.step_watched(watch, Event::Take(end))?;
        }
        Ok(())
    }
}
