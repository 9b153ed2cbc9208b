//! Two stations over streams that yield the bytes that were written to them, in their order.
ghost use Rattle.std.specs.Prelude.{◌≡◌, List, true, None};
ghost use Rattle.ddcmp_proto.specs.Config.{first_refusal};
ghost use Rattle.ddcmp_proto.specs.declared.config.Config.{Config as ConfigValue};
ghost use Rattle.ddcmp_io.specs.declared.carrier.End.{End as EndValue};
ghost use Rattle.ddcmp_io.specs.declared.carrier.End.TheVariants.{A, B};
ghost use Rattle.ddcmp_pair.specs.Run.{new_pair};
ghost use Rattle.ddcmp_laws.specs.PairCalls.{Call, run_calls};
ghost use Rattle.ddcmp_laws.specs.Driven.{DriveCall, Reaches, AreDriven, seen_of, begun};
ghost use Rattle.ddcmp_laws.specs.Streams.{OverStreams, drives_at, DrivenInTurn};

/// Over streams every arrival is honest, whatever the calls and the chunks of bytes.
pub fn stream_is_honest()
    ensures { (first second : ConfigValue) (calls : List (EndValue × Call))
        → first_refusal first ≡ None → first_refusal second ≡ None
        → OverStreams calls (new_pair first second)
        → (run_calls calls (new_pair first second)).honest ≡ true }
{}

/// Two new stations of any sizes in range, each started once and then driven over streams: whatever
/// the turns, the clocks, the users and the chunks of bytes, each user receives a prefix of the
/// messages that were accepted from the other, each once and unchanged, and no more is reported
/// acknowledged to it than the other received.
pub fn over_a_stream()
    ensures to_b { (first second : ConfigValue) (a b : List DriveCall)
        (calls : List (EndValue × Call))
        → first_refusal first ≡ None → first_refusal second ≡ None
        → AreDriven first second a b calls → OverStreams calls (new_pair first second)
        → Reaches (seen_of first a) (seen_of second b) }
    ensures to_a { (first second : ConfigValue) (a b : List DriveCall)
        (calls : List (EndValue × Call))
        → first_refusal first ≡ None → first_refusal second ≡ None
        → AreDriven first second a b calls → OverStreams calls (new_pair first second)
        → Reaches (seen_of second b) (seen_of first a) }
{}

/// The same for calls of `drive` that are made one after another, as by one program: each reads
/// only a prefix of what the other end had written before it.
pub fn driven_in_turn()
    ensures to_b { (first second : ConfigValue) (drives : List (EndValue × DriveCall))
        → first_refusal first ≡ None → first_refusal second ≡ None
        → DrivenInTurn first.syn second.syn drives (begun first) (begun second)
        → Reaches (seen_of first (drives_at A drives)) (seen_of second (drives_at B drives)) }
    ensures to_a { (first second : ConfigValue) (drives : List (EndValue × DriveCall))
        → first_refusal first ≡ None → first_refusal second ≡ None
        → DrivenInTurn first.syn second.syn drives (begun first) (begun second)
        → Reaches (seen_of second (drives_at B drives)) (seen_of first (drives_at A drives)) }
{}
