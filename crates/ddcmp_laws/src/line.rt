//! What one end sends, the other reads.
ghost use Rattle.std.specs.Prelude.{◌≡◌, ◌≤◌, ℕ, List, [], ◌∷◌, ◌++◌, length, map, None};
ghost use Rattle.ddcmp_frame.specs.Reading.{open_at_end};
ghost use Rattle.ddcmp_core.specs.Core.{IsSound};
ghost use Rattle.ddcmp_core.specs.Table.{Limits, StationState, Frame, Data, Good, Sends, next};
ghost use Rattle.ddcmp_proto.specs.Bytes.{frame_on_line, items_added, received_of};
ghost use Rattle.ddcmp_proto.specs.Config.{first_refusal};
ghost use Rattle.ddcmp_proto.specs.declared.config.Config.{Config as ConfigValue};
ghost use Rattle.ddcmp_io.specs.declared.carrier.End.TheVariants.{A, B};
ghost use Rattle.ddcmp_pair.specs.declared.event.Event.TheVariants.{Send, Poll, Arrive};
ghost use Rattle.ddcmp_pair.specs.declared.event.Reply.TheVariants.{Wrote};
ghost use Rattle.ddcmp_pair.specs.Run.{reply_to, run, handed_up};
ghost use Rattle.ddcmp_laws.specs.Starts.{started};

/// A frame that a station sends, another reads as that frame and as nothing else, whatever was read
/// before and with any fill, if it accepts messages as long as that station does and no frame was
/// unfinished. Nor is one unfinished then.
pub fn reads_what_another_sends()
    ensures read { (l : Limits) (s u : StationState) (f : Frame) (max fill : ℕ) (text : List ℕ)
        → IsSound l s → next s ≡ Sends f u → l.longest ≤ max → open_at_end max text ≡ 0
        → map received_of (items_added max text (frame_on_line fill f)) ≡ Good f ∷ [] }
    ensures closed { (l : Limits) (s u : StationState) (f : Frame) (max fill : ℕ) (text : List ℕ)
        → IsSound l s → next s ≡ Sends f u → l.longest ≤ max → open_at_end max text ≡ 0
        → open_at_end max (text ++ frame_on_line fill f) ≡ 0 }
{}

/// After the startup handshake, at two ends of any sizes: a message that A accepts is what A writes
/// next. Once these bytes arrive it is delivered at B, and nothing else is.
pub fn delivers_what_was_accepted()
    ensures wrote { (first second : ConfigValue) (message : List ℕ) → first_refusal first ≡ None
        → 1 ≤ length message → length message ≤ first.max
        → reply_to (Poll A) (run (Send A message ∷ []) (started first second))
        ≡ Wrote (frame_on_line first.syn (Data 0 1 message)) }
    ensures delivered { (first second : ConfigValue) (message : List ℕ)
        → first_refusal second ≡ None
        → 1 ≤ length message → length message ≤ second.max
        → handed_up (run (Send A message ∷ Poll A
        ∷ Arrive B (frame_on_line first.syn (Data 0 1 message)) ∷ []) (started first second)).b
        ≡ message ∷ [] }
{}
