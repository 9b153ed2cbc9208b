//! What holds for every run of two ends.
ghost use Rattle.std.specs.Prelude.{◌≡◌, ◌+◌, ◌%◌, ◌++◌, ℕ, List, length, true, None};
ghost use Rattle.ddcmp_core.specs.Seq.{Seq as SeqValue};
ghost use Rattle.ddcmp_proto.specs.Config.{first_refusal};
ghost use Rattle.ddcmp_proto.specs.declared.config.Config.{Config as ConfigValue};
ghost use Rattle.ddcmp_io.specs.declared.carrier.End.{End as EndValue};
ghost use Rattle.ddcmp_pair.specs.declared.event.Event.{Event as EventValue};
ghost use Rattle.ddcmp_pair.specs.declared.event.Event.TheVariants.{Send, Poll};
ghost use Rattle.ddcmp_pair.specs.declared.event.Reply.TheVariants.{Accepted, Wrote};
ghost use Rattle.ddcmp_pair.specs.Run.{PairState, at, after_event, reply_to, run, new_pair};
ghost use Rattle.ddcmp_pair.specs.Run.{is_clean};
ghost use Rattle.ddcmp_laws.specs.Faithful.{written, StaysFaithful};
ghost use Rattle.ddcmp_laws.specs.Positions.{CarryPositions, IsNumberedLink};
ghost use Rattle.ddcmp_laws.specs.Clear.{StaysClear, WastesNothing};
ghost use Rattle.ddcmp_laws.specs.Counted.{NeverClears, HasCounted};

/// Counters count what was done: in every run in which the line isn't cleared, whatever arrives,
/// the counters of both ends are the numbers of REPs, NAKs and messages in the histories.
pub fn counts_what_was_done()
    ensures { (first second : ConfigValue) (events : List EventValue) (end : EndValue)
        → NeverClears events → HasCounted (at end (run events (new_pair first second))) }
{}

/// A faithful line is honest: if, after each event, the bytes that arrived at each end are a prefix
/// of those that the other wrote, fill and all, in chunks of any size, the run is honest. So the
/// laws of order and of recovery apply to it. The bytes that an end wrote are those that it
/// returned.
pub fn faithful_is_honest()
    ensures wrote { (end : EndValue) (p : PairState) (bytes : List ℕ)
        → reply_to (Poll end) p ≡ Wrote bytes
        → written (at end (after_event (Poll end) p)) ≡ written (at end p) ++ bytes }
    ensures honest { (first second : ConfigValue) (events : List EventValue)
        → first_refusal first ≡ None → first_refusal second ≡ None
        → StaysFaithful events (new_pair first second)
        → (run events (new_pair first second)).honest ≡ true }
{}

/// Numbers are positions: in every honest and clean run R, N, A and T of each end that was started,
/// and the numbers and messages of the frames in flight, are those of two links with unbounded
/// numbers, modulo 256.
pub fn numbers_are_positions()
    ensures { (first second : ConfigValue) (events : List EventValue)
        → first_refusal first ≡ None → first_refusal second ≡ None
        → (run events (new_pair first second)).honest ≡ true
        → is_clean (run events (new_pair first second)) ≡ true
        → IsNumberedLink (run events (new_pair first second)).a
        (run events (new_pair first second)).b
        × IsNumberedLink (run events (new_pair first second)).b
        (run events (new_pair first second)).a }
{}

/// The number that `send` returns, and that of each data message that was ever sent, for the first
/// time or again, is the position of the message among those that the end accepted, modulo 256.
pub fn messages_carry_positions()
    ensures answered { (first second : ConfigValue) (events : List EventValue) (end : EndValue)
        (message : List ℕ) (number : SeqValue)
        → first_refusal first ≡ None → first_refusal second ≡ None
        → (run events (new_pair first second)).honest ≡ true
        → is_clean (run events (new_pair first second)) ≡ true
        → reply_to (Send end message) (run events (new_pair first second)) ≡ Accepted number
        → number.0 ≡ (length (at end (run events (new_pair first second))).given + 1) % 256 }
    ensures sent { (first second : ConfigValue) (events : List EventValue) (end : EndValue)
        → first_refusal first ≡ None → first_refusal second ≡ None
        → (run events (new_pair first second)).honest ≡ true
        → is_clean (run events (new_pair first second)) ≡ true
        → CarryPositions (at end (run events (new_pair first second))).given
        (at end (run events (new_pair first second))).sent }
{}

/// A clear line wastes nothing: between two ends that accept messages of the same lengths, if after
/// each event the bytes that arrived at each end are a prefix of those that the other wrote, no
/// message arrives at a full inbox, and no end halts, then no NAK is ever sent, and each message is
/// sent once, in its order, whatever timers expire.
pub fn clear_line_wastes_nothing()
    ensures { (first second : ConfigValue) (events : List EventValue)
        → first_refusal first ≡ None → first_refusal second ≡ None → first.max ≡ second.max
        → StaysClear events (new_pair first second)
        → WastesNothing (run events (new_pair first second)).a
        × WastesNothing (run events (new_pair first second)).b }
{}
