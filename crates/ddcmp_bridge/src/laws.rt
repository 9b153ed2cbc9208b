//! What holds of a direction that agrees with its lines: functions without an effect, whose
//! contracts are the laws.
ghost use Rattle.std.specs.Prelude.{◌≡◌, ◌++◌, [], List, ℕ};
ghost use Rattle.rand_pcg.specs.Lcg.{Lcg};
ghost use Rattle.ddcmp_bridge.specs.Delaying.{DirectionView, Directs};
ghost use Rattle.ddcmp_bridge.specs.Relaying.{passed_on, relayed};

/// What was taken of a direction is a prefix of what is passed on of all that was received, also
/// later, and all of it once nothing is held. Then, without faults, it is the good frames.
pub fn good_frames_are_passed_on()
    ensures begins { (start : Lcg) (d : DirectionView) (used later taken : List ℕ)
        → Directs start d used taken
        → (more : List ℕ) × (passed_on d.relay.faults start (used ++ later) ≡ taken ++ more) }
    ensures all { (start : Lcg) (d : DirectionView) (came taken : List ℕ)
        → Directs start d came taken → d.held ≡ [] → d.relay.waiting ≡ []
        → taken ≡ passed_on d.relay.faults start came }
    ensures faultless { (start : Lcg) (d : DirectionView) (came taken : List ℕ)
        → Directs start d came taken → d.held ≡ [] → d.relay.waiting ≡ []
        → d.relay.faults.lose ≡ 0 → d.relay.faults.damage ≡ 0 → taken ≡ relayed came }
{}
