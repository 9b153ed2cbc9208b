//! Laws of a line: functions without an effect, whose contracts are the laws.
ghost use Rattle.std.specs.Prelude.{◌≡◌, ◌↔◌, ℕ, ◌+◌, ◌-◌, ◌%◌, ◌≤◌, List, [], ◌∷◌, ◌++◌, length};
ghost use Rattle.std.specs.Prelude.{true, IsTrue, Some, None, is_some, option_and_then};
ghost use Rattle.ddcmp_core.specs.Sequence.{distance, Within};
ghost use Rattle.ddcmp_core.specs.Numbers.{next_number};
ghost use Rattle.ddcmp_pair.specs.Place.{WholeFrame, same_frame, place_after, place_of};
ghost use Rattle.ddcmp_pair.specs.Place.{IsSubsequence};
ghost use Rattle.ddcmp_pair.specs.declared.event.Event.{Event as EventValue};
ghost use Rattle.ddcmp_io.specs.declared.carrier.End.{End as EndValue};
ghost use Rattle.ddcmp_pair.specs.Run.{PairState, at, after_event, reply_to, run, new_pair};
ghost use Rattle.ddcmp_pair.specs.Run.{is_clean};
ghost use Rattle.ddcmp_pair.specs.InOrder.{IsInOrder, IsLink, NoRestart};
ghost use Rattle.ddcmp_pair.specs.Choices.{Act, run_acts, IsAcknowledgedTaken};
ghost use Rattle.ddcmp_proto.specs.Config.{first_refusal};
ghost use Rattle.ddcmp_proto.specs.declared.config.Config.{Config as ConfigValue};
ghost use Rattle.ddcmp_core.specs.Core.{IsSound};
ghost use Rattle.ddcmp_pair.specs.Recovery.{is_ready, recovering, recovered, IsRepaired};
ghost use Rattle.ddcmp_pair.specs.Prefix.{IsPrefixOf};
ghost use Rattle.ddcmp_pair.specs.Link.{Link, IsReached};

/// The main law. For two new stations of any sizes in range, whether they restart or not, after
/// every list of events that is honest and clean: the messages delivered at each end are a prefix
/// of those that the other accepted, each once and unchanged; and no more were reported
/// acknowledged than were delivered. The messages accepted at one end and delivered at the other
/// are a run of a link with unbounded numbers. And if an arrival at a clean pair is honest, no end
/// reports that its peer restarted.
pub fn in_order()
    ensures order { (first second : ConfigValue) (events : List EventValue)
        → first_refusal first ≡ None → first_refusal second ≡ None
        → IsInOrder (run events (new_pair first second)) }
    ensures links { (first second : ConfigValue) (events : List EventValue)
        → first_refusal first ≡ None → first_refusal second ≡ None
        → (run events (new_pair first second)).honest ≡ true
        → is_clean (run events (new_pair first second)) ≡ true
        → IsLink (run events (new_pair first second)).a (run events (new_pair first second)).b
        × IsLink (run events (new_pair first second)).b (run events (new_pair first second)).a }
    ensures no_restart { (first second : ConfigValue) (events : List EventValue) (e : EventValue)
        → first_refusal first ≡ None → first_refusal second ≡ None
        → is_clean (run events (new_pair first second)) ≡ true
        → (after_event e (run events (new_pair first second))).honest ≡ true
        → NoRestart (reply_to e (run events (new_pair first second))) }
{}

/// The main law, and recovery, if users choose when their stations acknowledge. If the station at
/// an end acknowledges messages when they are taken, no more are reported acknowledged to the other
/// end than were taken: what was reported acknowledged, its user has.
pub fn acknowledges_what_was_taken()
    ensures order { (first second : ConfigValue) (acts : List Act)
        → first_refusal first ≡ None → first_refusal second ≡ None
        → IsInOrder (run_acts acts (new_pair first second)) }
    ensures links { (first second : ConfigValue) (acts : List Act)
        → first_refusal first ≡ None → first_refusal second ≡ None
        → (run_acts acts (new_pair first second)).honest ≡ true
        → is_clean (run_acts acts (new_pair first second)) ≡ true
        → IsLink (run_acts acts (new_pair first second)).a (run_acts acts (new_pair first second)).b
        × IsLink (run_acts acts (new_pair first second)).b
        (run_acts acts (new_pair first second)).a }
    ensures taken { (first second : ConfigValue) (acts : List Act)
        → first_refusal first ≡ None → first_refusal second ≡ None
        → (run_acts acts (new_pair first second)).honest ≡ true
        → is_clean (run_acts acts (new_pair first second)) ≡ true
        → IsAcknowledgedTaken (run_acts acts (new_pair first second)).a
        (run_acts acts (new_pair first second)).b
        × IsAcknowledgedTaken (run_acts acts (new_pair first second)).b
        (run_acts acts (new_pair first second)).a }
    ensures repaired { (first second : ConfigValue) (acts : List Act) (p : PairState)
        → first_refusal first ≡ None → first_refusal second ≡ None
        → run_acts acts (new_pair first second) ≡ p
        → IsSound p.a.core.limits p.a.core.station → IsSound p.b.core.limits p.b.core.station
        → is_ready p ≡ true → IsRepaired p }
{}

/// Recovery. For two new stations of any sizes in range, after every list of events: if the pair is
/// ready, a recovery repairs it. The two stations are sound, as is every station, whatever bytes it
/// received. And a recovery is the run of its events.
pub fn recovery()
    ensures repaired { (first second : ConfigValue) (events : List EventValue) (p : PairState)
        → first_refusal first ≡ None → first_refusal second ≡ None
        → run events (new_pair first second) ≡ p
        → IsSound p.a.core.limits p.a.core.station → IsSound p.b.core.limits p.b.core.station
        → is_ready p ≡ true → IsRepaired p }
    ensures events { (p : PairState) → run (recovering p).events p ≡ recovered p }
{}

/// The test of two frames returns true exactly if header and data are equal.
pub fn frames_are_compared_whole()
    ensures { (f g : WholeFrame) → IsTrue (same_frame f g) ↔ ((f.0 ≡ g.0) × (f.1 ≡ g.1)) }
{}

/// A place doesn't change when more is sent, and advances from one frame that arrived to the next.
pub fn place_goes_on()
    ensures sent { (arrived sent more_sent : List WholeFrame) (n : ℕ)
        → place_of arrived sent ≡ Some n → place_of arrived (sent ++ more_sent) ≡ Some n }
    ensures arrived { (arrived sent : List WholeFrame) (f : WholeFrame)
        → place_of (arrived ++ f ∷ []) sent
        ≡ option_and_then (place_after f sent) (place_of arrived sent) }
{}

/// Frames have a place among those that were sent exactly if they are a subsequence of them.
pub fn place_is_of_a_subsequence()
    ensures { (arrived sent : List WholeFrame) → IsTrue (is_some (place_of arrived sent))
        ↔ IsSubsequence arrived sent }
{}

/// A list of events does the same as its parts, one after another, and no event changes the limits
/// of an end, or when its station acknowledges.
pub fn runs()
    ensures parts { (first second : List EventValue) (p : PairState)
        → run (first ++ second) p ≡ run second (run first p) }
    ensures limits { (events : List EventValue) (p : PairState) (end : EndValue)
        → (at end (run events p)).core.limits ≡ (at end p).core.limits }
    ensures modes { (events : List EventValue) (p : PairState) (end : EndValue)
        → (at end (run events p)).core.station.by_user ≡ (at end p).core.station.by_user }
{}

/// In every run of one direction of a link, whatever is lost and whatever the window, the messages
/// delivered are a prefix of those accepted, and no more are acknowledged than were delivered.
/// Those delivered were sent, those sent were accepted, and at most a window of them isn't
/// acknowledged.
pub fn in_order_on_a_link()
    ensures order { (window : ℕ) (l : Link) → IsReached window l
        → IsPrefixOf l.handed_up l.given }
    ensures counts { (window : ℕ) (l : Link) → IsReached window l
        → (l.acknowledged ≤ length l.handed_up) × (length l.handed_up ≤ l.sent)
        × (l.sent ≤ length l.given) }
    ensures outstanding { (window : ℕ) (l : Link) → IsReached window l
        → l.sent ≤ l.acknowledged + window }
{}

/// With a window of at most 255, numbers modulo 256 are as good as unbounded numbers. The position
/// that arrives first differs from the next one by at most the window, so it is the next one
/// exactly if its number is the next number. (With a window of 256 the first message,
/// retransmitted, would be taken for message 257.) The count that arrives first lies, by its number
/// too, between what is acknowledged and what was sent, and determines how many messages it newly
/// acknowledges.
pub fn numbers_determine_positions()
    ensures near { (window k : ℕ) (later : List ℕ) (l : Link) → IsReached window l
        → l.forward ≡ k ∷ later
        → (length l.handed_up + 1 ≤ k + window) × (k ≤ length l.handed_up + window) }
    ensures next { (window k : ℕ) (later : List ℕ) (l : Link) → window ≤ 255
        → IsReached window l → l.forward ≡ k ∷ later
        → (k % 256 ≡ next_number (length l.handed_up % 256)) ↔ (k ≡ length l.handed_up + 1) }
    ensures within { (window q : ℕ) (later : List ℕ) (l : Link) → window ≤ 255
        → IsReached window l → l.back ≡ q ∷ later
        → Within (l.acknowledged % 256) (q % 256) (l.sent % 256) }
    ensures newly { (window q : ℕ) (later : List ℕ) (l : Link) → window ≤ 255
        → IsReached window l → l.back ≡ q ∷ later
        → distance (l.acknowledged % 256) (q % 256) ≡ q - l.acknowledged }
{}
