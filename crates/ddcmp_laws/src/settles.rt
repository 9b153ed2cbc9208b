//! How many frames a line without loss carries before it rests.
ghost use Rattle.std.specs.Prelude.{◌≡◌, ◌+◌, ◌*◌, ◌≤◌, List, None};
ghost use Rattle.ddcmp_proto.specs.Config.{first_refusal};
ghost use Rattle.ddcmp_proto.specs.declared.config.Config.{Config as ConfigValue};
ghost use Rattle.ddcmp_pair.specs.Recovery.{larger_window};
ghost use Rattle.ddcmp_pair.specs.Run.{new_pair};
ghost use Rattle.ddcmp_pair.specs.declared.event.Event.{Event as EventValue};
ghost use Rattle.ddcmp_laws.specs.LossFree.{Line, empty_line, IsLossFree, run_on_line, IsWhole};
ghost use Rattle.ddcmp_laws.specs.Price.{price, frames_given, added, items_on_way};

/// A line without loss settles, in any order. From two sound ends in any states, with anything in
/// flight that arrives whole: by any list of events in which nothing is lost, no more polls yield a
/// frame than the price of the line and what the events add to it, and what is then in flight
/// arrives whole again. If nothing is in flight the price is at most 12 * w + 12, w being the
/// larger window, and each item in flight adds at most 2 * w + 1.
pub fn settles_in_any_order()
    ensures frames { (events : List EventValue) (l : Line) → IsWhole l → IsLossFree events l
        → frames_given events l.pair
        ≤ price (larger_window l.pair) l + added (larger_window l.pair) events l.pair }
    ensures whole { (events : List EventValue) (l : Line) → IsWhole l → IsLossFree events l
        → IsWhole (run_on_line events l) }
    ensures most { (l : Line) → IsWhole l → price (larger_window l.pair) l
        ≤ 12 * larger_window l.pair + 12 + (2 * larger_window l.pair + 1) * items_on_way l }
{}

/// Two new stations that accept messages of the same lengths, over a line without loss from the
/// beginning on: no more polls yield a frame than the events add: 3 for each start and 2 for each
/// message, and, w being the larger window, 2 * w + 2 for each timeout and 2 * w for each NAK of a
/// full inbox.
pub fn each_frame_has_a_cause()
    ensures { (first second : ConfigValue) (events : List EventValue)
        → first_refusal first ≡ None → first_refusal second ≡ None → first.max ≡ second.max
        → IsLossFree events (empty_line (new_pair first second))
        → frames_given events (new_pair first second)
        ≤ added (larger_window (new_pair first second)) events (new_pair first second) }
{}
