//! Two links that restart.
ghost use Rattle.std.specs.Prelude.{◌≡◌, [], true};
ghost use Rattle.ddcmp_io.specs.declared.carrier.End.TheVariants.{A, B};
ghost use Rattle.ddcmp_pair.specs.Run.{PairState};
ghost use Rattle.ddcmp_station.specs.Linking.{LinkView, delivered};
ghost use Rattle.ddcmp_laws.specs.Links.{BeginsAnew, LinkReaches, received};
ghost use Rattle.ddcmp_laws.specs.LinkRestarts.{IsKeptAnew, all_calls, at_end};
ghost use Rattle.ddcmp_laws.specs.StationRuns.{has_heard_none, run_station_calls};

/// Two new links that restart any number of times, over an honest line, in a clean run: the
/// messages that each received since its last restart are a prefix of those that the other accepted
/// since its own, each once and unchanged, and no more is reported acknowledged than was received;
/// and if one reports that all is delivered, the other has received all that the one accepted since
/// its last restart. A link that restarts leaves the line honest, and counts as started once,
/// however often it was started before, if the other end has received no good frame since that
/// one's line was cleared, and no received message is left to be taken. So a link that listens may
/// restart for each caller that goes away.
pub fn links_begin_anew()
    ensures to_b { IsKeptAnew (λ p. LinkReaches p.a p.b) }
    ensures to_a { IsKeptAnew (λ p. LinkReaches p.b p.a) }
    ensures all_to_b { IsKeptAnew
        (λ p. delivered p.a.link ≡ true → received p.b ≡ p.a.accepted) }
    ensures all_to_a { IsKeptAnew
        (λ p. delivered p.b.link ≡ true → received p.a ≡ p.b.accepted) }
    ensures again_a { (p : PairState) (d : LinkView) → p.a.core.station.inbox ≡ []
        → has_heard_none p.b ≡ true
        → ((run_station_calls (at_end A (all_calls BeginsAnew d)) p).honest ≡ true)
        × ((run_station_calls (at_end A (all_calls BeginsAnew d)) p).a.starts ≡ 1)
        × ((run_station_calls (at_end A (all_calls BeginsAnew d)) p).b ≡ p.b) }
    ensures again_b { (p : PairState) (d : LinkView) → p.b.core.station.inbox ≡ []
        → has_heard_none p.a ≡ true
        → ((run_station_calls (at_end B (all_calls BeginsAnew d)) p).honest ≡ true)
        × ((run_station_calls (at_end B (all_calls BeginsAnew d)) p).b.starts ≡ 1)
        × ((run_station_calls (at_end B (all_calls BeginsAnew d)) p).a ≡ p.a) }
{}
