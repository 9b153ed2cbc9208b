//! Runs over devices to their end: the input of one is the output of the other.
ghost use Rattle.std.specs.Prelude.{◌≡◌, Bool, true, List, [], Option, Some};
ghost use Rattle.ddcmp_frame.specs.Reader.{StandsFor};
ghost use Rattle.ddcmp_session.specs.Session.{SessionView};
ghost use Rattle.ddcmp_session.specs.Calls.{SessionStep};
ghost use Rattle.ddcmp_session.specs.Connections.{AreDone};
ghost use Rattle.ddcmp_session.specs.Devices.{BuffersView, nothing_read};
ghost use Rattle.ddcmp_session.specs.Traffic.{Traffic, no_traffic};
ghost use Rattle.ddcmp_session.specs.Finishing.{RunsToEnd};
ghost use Rattle.ddcmp_laws.specs.Connected.{IsKeptOverOneConnection};
ghost use Rattle.ddcmp_laws.specs.Connections.{first_connection};
ghost use Rattle.ddcmp_laws.specs.Endings.{FilesArrive, TookAll, WasFinished};
ghost use Rattle.ddcmp_laws.specs.LastConnection.{IsKeptOverLastConnection};
ghost use Rattle.ddcmp_laws.specs.Pipe.{Made, session_of};
ghost use Rattle.ddcmp_laws.specs.SessionRuns.{IsKeptByRuns, Ran};

/// A new session that `ddcmp_session::Buffers::run_to_end` has run was ended in the sense of
/// `runs_end`, and then finished.
pub fn runs_finish()
    ensures { (made : Made) (is_well : Bool) (held : BuffersView) (last : SessionView)
        (known : Option Traffic) → StandsFor made.line []
        → RunsToEnd is_well nothing_read (session_of made).session (Some no_traffic) held last
        known
        → (t after : Traffic) × (known ≡ Some after)
        × (steps : List SessionStep) × AreDone steps (first_connection made)
        × WasFinished is_well (record { made = made; steps = steps }) held t last after }
{}

/// If such a run ends well, the text of all messages that the session received, of all notices, and
/// of the last lines (in lines, if there was room for these) was written to its output, and nothing
/// is queued: an empty output has room for a message of any length.
pub fn finished_runs_write_all()
    ensures { (ran : Ran) (held : BuffersView) (t after : Traffic) (last : SessionView)
        → AreDone ran.steps (first_connection ran.made)
        → (finished : WasFinished true ran held t last after)
        → TookAll finished.ended.closes.is_reported ran last after }
{}

/// Two such runs that end well, over an honest line in a clean run, with their messages in binary:
/// the file that was the one's input is the other's output, if no message went over an earlier
/// line. Over one connection, or the last one, no premise about frames is needed. For the messages
/// of runs in either form see `runs_are_pipes` and `runs_over_connections`.
pub fn files_arrive()
    ensures to_b { IsKeptByRuns (λ a b. FilesArrive a b) }
    ensures to_a { IsKeptByRuns (λ a b. FilesArrive b a) }
    ensures connected_to_b { IsKeptOverOneConnection (λ a b. FilesArrive a b) }
    ensures connected_to_a { IsKeptOverOneConnection (λ a b. FilesArrive b a) }
    ensures last_to_b { IsKeptOverLastConnection (λ a b. FilesArrive a b) }
    ensures last_to_a { IsKeptOverLastConnection (λ a b. FilesArrive b a) }
{}
