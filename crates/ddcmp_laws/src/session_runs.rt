//! Two runs over devices, over one line after the other: the input of one is the output of the
//! other.
ghost use Rattle.std.specs.Prelude.{◌≡◌, ◌++◌, Bool, List, [], Option, Some};
ghost use Rattle.ddcmp_frame.specs.Reader.{ReaderView};
ghost use Rattle.ddcmp_frame.specs.Reader.{StandsFor};
ghost use Rattle.ddcmp_io.specs.declared.carrier.End.{End};
ghost use Rattle.ddcmp_io.specs.declared.carrier.End.TheVariants.{A, B};
ghost use Rattle.ddcmp_session.specs.Session.{SessionView};
ghost use Rattle.ddcmp_session.specs.Calls.{SessionStep};
ghost use Rattle.ddcmp_session.specs.Connections.{AreDone, Connection, after_all};
ghost use Rattle.ddcmp_session.specs.Devices.{BuffersView, nothing_read};
ghost use Rattle.ddcmp_session.specs.Traffic.{Traffic, no_traffic};
ghost use Rattle.ddcmp_session.specs.Lines.{Ends};
ghost use Rattle.ddcmp_laws.specs.AllLines.{AllInBinary, AllInDigits, BinaryInOrder, BothWays};
ghost use Rattle.ddcmp_laws.specs.AllLines.{DeliversInOrder, DigitsInOrder, GoOverLines};
ghost use Rattle.ddcmp_laws.specs.AllLines.{IsKeptOverLines};
ghost use Rattle.ddcmp_laws.specs.AnewStory.{lines_anew, run_of};
ghost use Rattle.ddcmp_laws.specs.Connections.{AreCalls, Connections, after_steps};
ghost use Rattle.ddcmp_laws.specs.Connections.{first_connection};
ghost use Rattle.ddcmp_laws.specs.EachLine.{DeliversLine, IsReadOverLines, WritesLine};
ghost use Rattle.ddcmp_laws.specs.LastConnection.{IsKeptOverLastConnection, StartsEach};
ghost use Rattle.ddcmp_laws.specs.LastConnection.{StartsLast};
ghost use Rattle.ddcmp_laws.specs.Pipe.{Made, session_of};
ghost use Rattle.ddcmp_laws.specs.SessionRuns.{DeliversAll, DeliversFirst, FilesBegin, FilesPass};
ghost use Rattle.ddcmp_laws.specs.SessionRuns.{IsKeptByRuns, Ran, WasEnded, calls_of};

use crate::pipe::a_message_comes_through_anew;

/// A new session that `ddcmp_session::Buffers::run_lines` has run and closed was ended in the sense
/// of the other laws: none of its calls closed it before, and it was closed with the input held.
pub fn runs_end()
    ensures { (made : Made) (is_well : Bool) (held : BuffersView) (now : SessionView)
        (known : Option Traffic) → StandsFor made.line []
        → Ends is_well nothing_read (session_of made).session (Some no_traffic) held now known
        → (t : Traffic) × (known ≡ Some t)
        × (steps : List SessionStep) × AreDone steps (first_connection made)
        × WasEnded (record { made = made; steps = steps }) held t now }
{}

/// Each call that connected such a session returned true. So the premise of
/// `runs_over_the_last_connection` that the last one did holds for its calls up to any point.
pub fn runs_start()
    ensures each { (made : Made) (is_well : Bool) (held : BuffersView) (now : SessionView)
        (known : Option Traffic) → StandsFor made.line []
        → Ends is_well nothing_read (session_of made).session (Some no_traffic) held now known
        → (t : Traffic) × (known ≡ Some t)
        × (steps : List SessionStep) × AreDone steps (first_connection made)
        × WasEnded (record { made = made; steps = steps }) held t now
        × StartsEach steps (first_connection made) }
    ensures last { (before after : List SessionStep) (c : Connection)
        → StartsEach (before ++ after) c → StartsLast before c }
{}

/// The calls of two sessions, in whatever order they were made, are calls as in the laws of `pipe`,
/// and lead each session to the state to which its own calls lead it.
pub fn runs_are_calls()
    ensures { (steps : List (End × SessionStep)) (p : Connections)
        → AreDone (calls_of A steps) p.a → AreDone (calls_of B steps) p.b
        → AreCalls steps p
        × (after_steps steps p
        ≡ record { a = after_all (calls_of A steps) p.a; b = after_all (calls_of B steps) p.b }) }
{}

/// Two such runs, in an order of their calls over an honest line in a clean run: the messages that
/// one has delivered since it was connected last are a prefix of those read from the other's input
/// since that was, and it has received all of them if the other's run was ended and lost nothing,
/// as when `run_lines` returns `Ok`. In binary, if before that the one delivered nothing and the
/// other read nothing, and the bytes read from the input are a prefix of a file of messages that
/// fit: the output is a prefix of that file; and it is the whole file if that was read, the run
/// ended and lost nothing, and nothing is left to be delivered or written at the one.
pub fn runs_are_pipes()
    ensures to_b { IsKeptByRuns (λ a b. DeliversFirst a b) }
    ensures to_a { IsKeptByRuns (λ a b. DeliversFirst b a) }
    ensures all_to_b { IsKeptByRuns (λ a b. DeliversAll a b) }
    ensures all_to_a { IsKeptByRuns (λ a b. DeliversAll b a) }
    ensures files_to_b { IsKeptByRuns (λ a b. FilesBegin a b) }
    ensures files_to_a { IsKeptByRuns (λ a b. FilesBegin b a) }
    ensures whole_to_b { IsKeptByRuns (λ a b. FilesPass a b) }
    ensures whole_to_a { IsKeptByRuns (λ a b. FilesPass b a) }
{}

/// A run that was ended and lost nothing has lost nothing over any of its lines: whenever one is
/// over, the session at its other end has received all messages read from the run's input over that
/// line, as `runs_are_pipes` and `runs_over_the_last_connection` state for the calls up to then.
/// And the messages read from the input are those read over its lines, one line after the other.
pub fn runs_over_each_line()
    ensures to_b { IsKeptByRuns (λ a b. DeliversLine a b) }
    ensures to_a { IsKeptByRuns (λ a b. DeliversLine b a) }
    ensures connected_to_b { IsKeptOverLastConnection (λ a b. DeliversLine a b) }
    ensures connected_to_a { IsKeptOverLastConnection (λ a b. DeliversLine b a) }
    ensures input { (ran : Ran) → AreDone ran.steps (first_connection ran.made)
        → IsReadOverLines ran }
{}

/// And the session at the other end has written all of them, after those of earlier lines, unless
/// it is to acknowledge early.
pub fn each_line_is_written()
    ensures to_b { IsKeptByRuns (λ a b. WritesLine a b) }
    ensures to_a { IsKeptByRuns (λ a b. WritesLine b a) }
    ensures connected_to_b { IsKeptOverLastConnection (λ a b. WritesLine a b) }
    ensures connected_to_a { IsKeptOverLastConnection (λ a b. WritesLine b a) }
{}

/// Two runs over one line after the other. Over all of them together, the messages that one session
/// has delivered are among those read from the other's input, in their order, each at most once and
/// unchanged, and so are those in its output. If the other run was ended and lost nothing, the one
/// has written all of them and no others, unless it is to acknowledge early.
pub fn runs_over_all_lines()
    ensures order { IsKeptOverLines (BothWays DeliversInOrder) }
    ensures binary { IsKeptOverLines (BothWays BinaryInOrder) }
    ensures lines { IsKeptOverLines (BothWays DigitsInOrder) }
    ensures all_in_binary { IsKeptOverLines (BothWays AllInBinary) }
    ensures all_in_lines { IsKeptOverLines (BothWays AllInDigits) }
{}

/// Two runs over two lines, of which the first loses a frame and the second brings a message, so
/// that `runs_over_all_lines` doesn't hold vacuously.
pub fn a_message_goes_over_two_lines()
    ensures { (line other_line : ReaderView)
        → GoOverLines (run_of line) (run_of other_line) (lines_anew line other_line) }
{
    a_message_comes_through_anew();
}
