//! Two runs over one connection: the input of one is the output of the other, with no premise about
//! frames.
ghost use Rattle.std.specs.Prelude.{List};
ghost use Rattle.ddcmp_io.specs.declared.carrier.End.{End};
ghost use Rattle.ddcmp_session.specs.Calls.{SessionStep};
ghost use Rattle.ddcmp_session.specs.Connections.{AreDone};
ghost use Rattle.ddcmp_laws.specs.Connected.{AreTwoRuns, BinaryIsInFiles, IsConnectedOnce};
ghost use Rattle.ddcmp_laws.specs.Connected.{IsKeptOverOneConnection, IsOneHistory};
ghost use Rattle.ddcmp_laws.specs.Connections.{first_connection};
ghost use Rattle.ddcmp_laws.specs.LastConnection.{IsKeptOverLastConnection};
ghost use Rattle.ddcmp_laws.specs.Pipe.{AreConnectedOnce, Made, SessionsOverStreams, new_sessions};
ghost use Rattle.ddcmp_laws.specs.SessionRuns.{DeliversAll, DeliversFirst, FilesBegin, FilesPass};
ghost use Rattle.ddcmp_laws.specs.SessionRuns.{Ran};

/// The calls of a new session that is connected at most once, on any line, are a history as in the
/// laws of sessions, in which that line was clear: before, the session has used no bytes of a line
/// and had none queued for one. Nor has it read any input then, or delivered a message.
pub fn one_connection_is_a_history()
    ensures { (ran : Ran) → AreDone ran.steps (first_connection ran.made) → IsConnectedOnce ran
        → IsOneHistory ran }
{}

/// The calls of two new sessions to which the laws of sessions over connections apply are calls of
/// two runs to which the next law applies: it has no further premises.
pub fn sessions_over_connections_are_runs()
    ensures { (first second : Made) (steps : List (End × SessionStep))
        → SessionsOverStreams steps (new_sessions first second) → AreConnectedOnce steps
        → AreTwoRuns first second steps }
{}

/// Two runs, each connected at most once, in an order of their calls such that after each call, the
/// bytes that each has used from its line are a prefix of those that the other has written to its
/// line, as over a connection. The messages that one has delivered are a prefix of those read from
/// the other's input, and it has received all of them if the other's run was ended and lost
/// nothing, as when `run_lines` returns `Ok`. In binary, if the bytes read from the input are a
/// prefix of a file of messages that fit, the output is a prefix of that file; and it is the whole
/// file if that was read, the run ended and lost nothing, and nothing is left to be delivered or
/// written at the one.
pub fn runs_over_connections()
    ensures to_b { IsKeptOverOneConnection (λ a b. DeliversFirst a b) }
    ensures to_a { IsKeptOverOneConnection (λ a b. DeliversFirst b a) }
    ensures all_to_b { IsKeptOverOneConnection (λ a b. DeliversAll a b) }
    ensures all_to_a { IsKeptOverOneConnection (λ a b. DeliversAll b a) }
    ensures in_files_to_b { IsKeptOverOneConnection (λ a b. BinaryIsInFiles a b) }
    ensures in_files_to_a { IsKeptOverOneConnection (λ a b. BinaryIsInFiles b a) }
    ensures files_to_b { IsKeptOverOneConnection (λ a b. FilesBegin a b) }
    ensures files_to_a { IsKeptOverOneConnection (λ a b. FilesBegin b a) }
    ensures whole_to_b { IsKeptOverOneConnection (λ a b. FilesPass a b) }
    ensures whole_to_a { IsKeptOverOneConnection (λ a b. FilesPass b a) }
{}

/// Two runs, connected any number of times, if `connected` returned true when each was connected
/// last. The same holds for the last connection, if since both were connected, after each call, the
/// bytes that each has used from its line are a prefix of those that the other has written to its
/// line; and for bytes if before that the one delivered nothing and the other read nothing.
pub fn runs_over_the_last_connection()
    ensures to_b { IsKeptOverLastConnection (λ a b. DeliversFirst a b) }
    ensures to_a { IsKeptOverLastConnection (λ a b. DeliversFirst b a) }
    ensures all_to_b { IsKeptOverLastConnection (λ a b. DeliversAll a b) }
    ensures all_to_a { IsKeptOverLastConnection (λ a b. DeliversAll b a) }
    ensures files_to_b { IsKeptOverLastConnection (λ a b. FilesBegin a b) }
    ensures files_to_a { IsKeptOverLastConnection (λ a b. FilesBegin b a) }
    ensures whole_to_b { IsKeptOverLastConnection (λ a b. FilesPass a b) }
    ensures whole_to_a { IsKeptOverLastConnection (λ a b. FilesPass b a) }
{}
