//! The connection between the laws of links and the code: for each call of a link a function that
//! makes it, whose contract states that it is that call of a history.
ghost use Rattle.std.specs.Prelude.{◌≡◌, ◌≤◌, ◌∷◌, ◌++◌, ℕ, List, [], if◌then◌else◌, is_ok, None};
ghost use Rattle.std.specs.Prelude.{min, length, take, option_map, option_to_list};
ghost use Rattle.ddcmp_frame.specs.Reader.{StandsFor};
ghost use Rattle.ddcmp_core.specs.Table.{acknowledged_by, after_halt, answer_to_start};
ghost use Rattle.ddcmp_station.specs.Linking.{countable, answer_to_offered, puts_frame};
ghost use Rattle.ddcmp_proto.specs.Bytes.{notices_of_piece};
ghost use Rattle.ddcmp_pair.specs.Run.{acknowledged_in};
ghost use Rattle.ddcmp_laws.specs.Links.{Starts, BeginsAnew, Halts, Wakes, Offers, FillsOne};
ghost use Rattle.ddcmp_laws.specs.Links.{IsSent, Feeds, Takes, HasDone, accepted_by, taken_by};
ghost use Rattle.ddcmp_laws.specs.LinkRestarts.{Does};

use ddcmp_station::{Fed, Link, SendRefusal, StartRefusal};

/// Starts a link.
pub fn starts(link: &mut Link) -> Result<u8, StartRefusal>
    ensures done { (text : List ℕ) → HasDone Starts text link.old link.new }
    ensures line { link.new.station.line ≡ link.old.station.line }
    ensures answer { result ≡ answer_to_start link.old.station.core.station }
{
    link.start()
}

/// Starts a link whose line is clear and whose outbox is empty; or restarts it on a new line.
pub fn begins_anew(link: &mut Link) -> Result<u8, StartRefusal>
    ensures done { link.old.outbox.waiting ≡ [] → HasDone BeginsAnew [] link.old link.new }
    ensures again { (text : List ℕ) → Does BeginsAnew text link.old link.new }
    ensures line { StandsFor link.new.station.line [] }
    ensures answer { result ≡ answer_to_start (after_halt link.old.station.core.station) }
{
    link.restart()
}

/// Halts a link.
pub fn halts(link: &mut Link)
    ensures done { (text : List ℕ) → HasDone Halts text link.old link.new }
    ensures line { link.new.station.line ≡ link.old.station.line }
{
    link.halt();
}

/// Handles the reply timer.
pub fn wakes(link: &mut Link, now: u64)
    ensures done { (text : List ℕ) → HasDone (Wakes now) text link.old link.new }
    ensures line { link.new.station.line ≡ link.old.station.line }
{
    link.wake(now);
}

/// Offers a message. The history has it as accepted exactly if the call returns that.
pub fn offers(link: &mut Link, message: &[u8]) -> Result<(), SendRefusal>
    ensures done { (text : List ℕ) → HasDone (Offers message.now) text link.old link.new }
    ensures line { link.new.station.line ≡ link.old.station.line }
    ensures answer { result ≡ answer_to_offered message.now link.old }
    ensures accepted { accepted_by (Offers message.now) link.old
        ≡ (if is_ok result then message.now ∷ [] else []) }
{
    link.offer(message)
}

/// Queues a frame in the outbox, or none.
pub fn fills_one(link: &mut Link) -> bool
    ensures done { (text : List ℕ) → HasDone FillsOne text link.old link.new }
    ensures line { link.new.station.line ≡ link.old.station.line }
    ensures answer { result ≡ puts_frame link.old }
{
    link.fill_one()
}

/// Drops bytes from the outbox that the line took.
pub fn is_sent(link: &mut Link, n: usize)
    requires { n ≤ length link.old.outbox.waiting }
    ensures done { (text : List ℕ) → HasDone (IsSent n) text link.old link.new }
    ensures line { link.new.station.line ≡ link.old.station.line }
{
    link.sent(n);
}

/// Handles received bytes and returns how many were used: if they yield no notice, all that can be
/// counted. The history counts the messages that the notice reports acknowledged.
pub fn feeds(link: &mut Link, piece: &[u8]) -> Fed
    ensures done { (text : List ℕ) → StandsFor link.old.station.line text
        → HasDone (Feeds (take result.used piece.now)) text link.old link.new }
    ensures line { (text : List ℕ) → StandsFor link.old.station.line text
        → StandsFor link.new.station.line (text ++ take result.used piece.now) }
    ensures acknowledged { (text : List ℕ) → StandsFor link.old.station.line text
        → acknowledged_in
        (notices_of_piece text (take result.used piece.now) link.old.station.core)
        ≡ acknowledged_by result.notice }
    ensures whole { result.notice ≡ None
        → result.used ≡ min (length piece.now) (countable link.old.station) }
{
    link.feed(piece)
}

/// Takes the first message. The history has the bytes that were returned.
pub fn takes(link: &mut Link, out: &mut [u8]) -> Option<usize>
    requires { link.old.station.core.limits.longest ≤ length out.old }
    ensures done { (text : List ℕ) → HasDone Takes text link.old link.new }
    ensures line { link.new.station.line ≡ link.old.station.line }
    ensures mail { taken_by Takes link.old
        ≡ option_to_list (option_map (λ n. take n out.new) result) }
{
    link.take(out)
}
