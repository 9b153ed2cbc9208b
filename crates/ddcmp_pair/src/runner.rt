//! Runs a list of events from two new stations.
ghost use Rattle.std.specs.Prelude.{◌≡◌, ◌⊎◌, ◌<◌, ℕ, length, take, true, Some, None, Err};
ghost use Rattle.std.specs.Prelude.{slice_index_or, IsOk, IfOk};
ghost use Rattle.ddcmp_proto.specs.Config.{first_refusal};
ghost use Rattle.ddcmp_pair.specs.declared.event.Event.TheVariants as event_value;
ghost use Rattle.ddcmp_pair.specs.Run.{PairState, new_pair, asks_memory, run as run_of};
ghost use Rattle.ddcmp_pair.specs.InOrder.{IsInOrder};

use crate::Event;
use crate::pair::{Pair, PairRefusal};
use ddcmp_proto::{Config, ConfigRefusal};
use std::alloc::Global;

/// The reason why a run wasn't completed.
#[derive(Drop)]
pub enum RunRefusal {
    /// The refusal of the station at A.
    First(ConfigRefusal),
    /// The refusal of the station at B.
    Second(ConfigRefusal),
    /// An allocation failed: the pair is as after the first `done` events.
    Memory { done: usize, pair: Pair },
}

/// Applies events, up to one whose allocation fails; in that case returns how many were done.
fn play(pair: &mut Pair, events: &[Event]) -> Result<(), usize>
    ensures done { IsOk result → pair.new ≡ run_of events.now pair.old }
    ensures memory { (done : ℕ) → result ≡ Err done → (done < length events.now)
        × (pair.new ≡ run_of (take done events.now) pair.old) }
    ensures asks { (done : ℕ) → result ≡ Err done
        → asks_memory (slice_index_or events.now done event_value.Clear) pair.new ≡ true }
{
    for (done, event) in events.iter().enumerate() {
        match pair.apply(event) {
            Ok(_reply) => {}
            Err(_refused) => return Err(done),
        }
    }
    Ok(())
}

/// Returns the pair after a list of events.
pub fn run(
    alloc: Global,
    first: Config,
    second: Config,
    events: &[Event],
) -> Result<Pair, RunRefusal>
    ensures done { IfOk result (λ pair. pair ≡ run_of events.now (new_pair first second)) }
    ensures memory { (done : ℕ) (pair : PairState)
        → result ≡ Err (RunRefusal.Memory done pair) → (done < length events.now)
        × (pair ≡ run_of (take done events.now) (new_pair first second)) × IsInOrder pair }
    // An allocation fails only for an event that allocates.
    ensures asks { (done : ℕ) (pair : PairState)
        → result ≡ Err (RunRefusal.Memory done pair)
        → asks_memory (slice_index_or events.now done event_value.Clear) pair ≡ true }
    ensures order { IfOk result IsInOrder }

    // If a size is out of range, the first such is the refusal; otherwise it can only be an
    // allocation failure.
    ensures first_size { (refusal : ConfigRefusal) → first_refusal first ≡ Some refusal → result
        ≡ Err (RunRefusal.First refusal) }
    ensures second_size { (refusal : ConfigRefusal) → first_refusal first ≡ None
        → first_refusal second ≡ Some refusal
        → (result ≡ Err (RunRefusal.Second refusal))
        ⊎ (result ≡ Err (RunRefusal.First ConfigRefusal.Memory)) }
    ensures first { (refusal : ConfigRefusal) → result ≡ Err (RunRefusal.First refusal)
        → (first_refusal first ≡ Some refusal)
        ⊎ ((refusal ≡ ConfigRefusal.Memory) × (first_refusal first ≡ None)) }
    ensures second { (refusal : ConfigRefusal) → result ≡ Err (RunRefusal.Second refusal)
        → (first_refusal first ≡ None) × ((first_refusal second ≡ Some refusal)
        ⊎ ((refusal ≡ ConfigRefusal.Memory) × (first_refusal second ≡ None))) }
{
    let mut pair = match Pair::new(alloc, first, second) {
        Ok(pair) => pair,
        Err(PairRefusal::First(refusal)) => return Err(RunRefusal::First(refusal)),
        Err(PairRefusal::Second(refusal)) => return Err(RunRefusal::Second(refusal)),
    };
    let played = play(&mut pair, events);
    pair.is_run();
    match played {
        Ok(()) => Ok(pair),
        Err(done) => Err(RunRefusal::Memory { done, pair }),
    }
}
