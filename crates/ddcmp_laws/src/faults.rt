//! What a bridge does to the frames that it passes on, as it was asked.
ghost use Rattle.std.specs.Prelude.{◌≡◌, ◌≢◌, ◌≤◌, ◌<◌, ◌+◌, ◌*◌, ◌^◌, min, ℕ};
ghost use Rattle.ddcmp_bridge.specs.Delaying.{due_after};
ghost use Rattle.ddcmp_bridge.specs.Faults.{fate_by, start_of};
ghost use Rattle.ddcmp_bridge.specs.declared.faults.Faults.{Faults};
ghost use Rattle.ddcmp_bridge.specs.declared.faults.Fate.TheVariants.{Passed};
ghost use Rattle.ddcmp_laws.specs.BridgeFaults.{IsAltered, lost_among};

/// Of the words 100k to 100k + 99 that may be drawn for a frame, as many lose it as `lose` says,
/// whatever else is drawn. If none is lost, all are damaged, or none, if `damage` says so. Each
/// direction has a generator of its own, and a frame is due as much later as it is to be delayed.
pub fn faults_are_as_asked()
    ensures lost { (faults : Faults) (size k : ℕ) (second : ℕ → ℕ)
        → lost_among faults size (100 * k) second 100 ≡ min 100 faults.lose }
    ensures altered { (faults : Faults) (size first second : ℕ) → faults.lose ≡ 0
        → 100 ≤ faults.damage → IsAltered (fate_by faults size first second) }
    ensures passed { (faults : Faults) (size first second : ℕ) → faults.lose ≡ 0
        → faults.damage ≡ 0 → fate_by faults size first second ≡ Passed }
    ensures apart { (seed : ℕ) → start_of seed 0 ≢ start_of seed 1 }
    ensures delayed { (delay now : ℕ) → now + delay < 2 ^ 64 → due_after delay now ≡ now + delay }
{}
