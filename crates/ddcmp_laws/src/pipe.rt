//! Two sessions as pipes, over a line that may lose, cut and damage what it carries.
ghost use Rattle.std.specs.Prelude.{◌≡◌, true};
ghost use Rattle.ddcmp_frame.specs.Reader.{ReaderView};
ghost use Rattle.ddcmp_io.specs.declared.carrier.End.TheVariants.{A, B};
ghost use Rattle.ddcmp_pair.specs.Run.{is_clean};
ghost use Rattle.ddcmp_laws.specs.PairCalls.{run_calls};
ghost use Rattle.ddcmp_laws.specs.LinkLines.{calls_of_steps};
ghost use Rattle.ddcmp_laws.specs.LinkRestarts.{calls_of_links};
ghost use Rattle.ddcmp_laws.specs.Vectors.{small};
ghost use Rattle.ddcmp_laws.specs.StationRuns.{run_station_calls};
ghost use Rattle.ddcmp_laws.specs.Pipe.{IsKeptByPipes, Pipes, PipesAll, PipesBytes};
ghost use Rattle.ddcmp_laws.specs.Pipe.{PipesClosed, PipesWhole};
ghost use Rattle.ddcmp_laws.specs.Pipe.{IsKeptOverConnections, SessionsOverStreams};
ghost use Rattle.ddcmp_laws.specs.Pipe.{AreConnectedOnce, link_steps_at, links_made};
ghost use Rattle.ddcmp_laws.specs.Pipe.{after_sessions, pair_made};
ghost use Rattle.ddcmp_laws.specs.AnewStory.{HasComeThroughAnew, small_connections, steps_anew};
ghost use Rattle.ddcmp_laws.specs.Connections.{AreCalls, after_steps, first_connection, link_steps};
ghost use Rattle.ddcmp_laws.specs.Connections.{IsKeptAnew, PipesAllAnew, PipesAnew};
ghost use Rattle.ddcmp_laws.specs.Connections.{PipesClosedAnew, WritesAnew};
ghost use Rattle.ddcmp_laws.specs.Written.{PipesWritten, PipesWrittenAnew};
ghost use Rattle.ddcmp_laws.specs.PipeStory.{small_made, small_sessions, pipe_steps};
ghost use Rattle.ddcmp_laws.specs.PipeStory.{HasComeThrough};
ghost use Rattle.ddcmp_laws.specs.LastConnection.{EndOverStreams, StartsLast};
ghost use Rattle.ddcmp_laws.specs.SessionRuns.{calls_of};

/// Two new sessions of any sizes in range, each connected at most once, over an honest line: the
/// good frames that each received are, in their order, among those that the other sent. Whatever
/// else the line did, such as lose, cut or damage what it carries, and whatever the calls, the
/// moments and the chunks of bytes: the messages that each delivered are a prefix of those read
/// from the other's input, each once and unchanged.
pub fn pipe()
    ensures to_b { IsKeptByPipes (λ first second p. Pipes first p.a p.b) }
    ensures to_a { IsKeptByPipes (λ first second p. Pipes second p.b p.a) }
{}

/// If `is_delivered` holds for one of two such sessions, the other has received all messages read
/// from that one's input: these, in their order, each once and unchanged, and no others.
pub fn pipe_is_whole()
    ensures to_b { IsKeptByPipes (λ first second p. PipesAll first p.a p.b) }
    ensures to_a { IsKeptByPipes (λ first second p. PipesAll second p.b p.a) }
{}

/// If one of two such sessions is closed and had lost nothing by then, as when
/// `ddcmp_session::Buffers::run_lines` returns `Ok`, the other has received all messages read from
/// that one's input, even if the line ended, or the time was over, before it saw the last
/// acknowledgement answered. The same holds for sessions that are connected again, since they were
/// connected last.
pub fn closed_without_loss()
    ensures to_b { IsKeptByPipes (λ first second p. PipesClosed first p.a p.b) }
    ensures to_a { IsKeptByPipes (λ first second p. PipesClosed second p.b p.a) }
    ensures connected_to_b { IsKeptOverConnections
        (λ first second p. PipesClosed first p.a p.b) }
    ensures connected_to_a { IsKeptOverConnections
        (λ first second p. PipesClosed second p.b p.a) }
    ensures anew_to_b { IsKeptAnew (λ first second p. PipesClosedAnew first p.a p.b) }
    ensures anew_to_a { IsKeptAnew (λ first second p. PipesClosedAnew second p.b p.a) }
{}

/// Acknowledged means written: at each moment the other of two such sessions has written all
/// messages read from one's input but those that this still keeps until they are acknowledged,
/// unless the other is to acknowledge early. The same holds for sessions that are connected again,
/// since they were connected last.
pub fn acknowledged_is_written()
    ensures to_b { IsKeptByPipes (λ first second p. PipesWritten first second p.a p.b) }
    ensures to_a { IsKeptByPipes (λ first second p. PipesWritten second first p.b p.a) }
    ensures connected_to_b { IsKeptOverConnections
        (λ first second p. PipesWritten first second p.a p.b) }
    ensures connected_to_a { IsKeptOverConnections
        (λ first second p. PipesWritten second first p.b p.a) }
    ensures anew_to_b { IsKeptAnew (λ first second p. PipesWrittenAnew first second p.a p.b) }
    ensures anew_to_a { IsKeptAnew (λ first second p. PipesWrittenAnew second first p.b p.a) }
{}

/// The laws of messages in bytes, if both have theirs in binary: if the bytes read from one's input
/// are a prefix of a file of messages that fit, each after its length, then those written to the
/// other's standard output are a prefix of that file; and it is the whole file if all of it was
/// read, `is_delivered` holds for the one, and nothing is left to be delivered or written at the
/// other.
pub fn pipe_in_bytes()
    ensures to_b { IsKeptByPipes (λ first second p. PipesBytes first second p.a p.b) }
    ensures to_a { IsKeptByPipes (λ first second p. PipesBytes second first p.b p.a) }
    ensures whole_to_b { IsKeptByPipes (λ first second p. PipesWhole first second p.a p.b) }
    ensures whole_to_a { IsKeptByPipes (λ first second p. PipesWhole second first p.b p.a) }
{}

/// The same over connections, which yield their bytes in order, and so without a premise about
/// frames: if after each call, the bytes that each session used are a prefix of those that the
/// other wrote to its line.
pub fn pipe_over_connections()
    ensures to_b { IsKeptOverConnections (λ first second p. Pipes first p.a p.b) }
    ensures to_a { IsKeptOverConnections (λ first second p. Pipes second p.b p.a) }
    ensures all_to_b { IsKeptOverConnections (λ first second p. PipesAll first p.a p.b) }
    ensures all_to_a { IsKeptOverConnections (λ first second p. PipesAll second p.b p.a) }
    ensures bytes_to_b { IsKeptOverConnections
        (λ first second p. PipesBytes first second p.a p.b) }
    ensures bytes_to_a { IsKeptOverConnections
        (λ first second p. PipesBytes second first p.b p.a) }
    ensures whole_to_b { IsKeptOverConnections
        (λ first second p. PipesWhole first second p.a p.b) }
    ensures whole_to_a { IsKeptOverConnections
        (λ first second p. PipesWhole second first p.b p.a) }
{}

/// Two new sessions that are connected any number of times, over an honest line, in a clean run:
/// the messages that each has delivered since it was connected last are a prefix of those read from
/// the other's input since that was connected last, each once and unchanged; and if `is_delivered`
/// holds for one, the other has received all of them. In binary they follow in its output the
/// messages that it had delivered before. `ddcmp_laws::link_restarts` states when a session that is
/// connected again keeps the line honest and the run clean.
pub fn pipe_anew()
    ensures to_b { IsKeptAnew (λ first second p. PipesAnew first p.a p.b) }
    ensures to_a { IsKeptAnew (λ first second p. PipesAnew second p.b p.a) }
    ensures all_to_b { IsKeptAnew (λ first second p. PipesAllAnew first p.a p.b) }
    ensures all_to_a { IsKeptAnew (λ first second p. PipesAllAnew second p.b p.a) }
    ensures bytes_at_a { IsKeptAnew (λ first second p. WritesAnew first p.a) }
    ensures bytes_at_b { IsKeptAnew (λ first second p. WritesAnew second p.b) }
{}

/// Two sessions that transfer a message, so that no law above holds vacuously: a list of calls over
/// connections, each end connected once, after which one has read a message and the end of its
/// input, the message was written to the other's output, and `is_delivered` holds for the first.
pub fn a_message_comes_through()
    ensures streams { (line other_line : ReaderView)
        → SessionsOverStreams (pipe_steps line other_line) (small_sessions line other_line) }
    ensures once { (line other_line : ReaderView)
        → AreConnectedOnce (pipe_steps line other_line) }
    ensures honest { (line other_line : ReaderView)
        → (run_calls
        (calls_of_steps
        (link_steps_at (pipe_steps line other_line) (small_sessions line other_line))
        (links_made (small_made line) (small_made other_line)))
        (pair_made (small_made line) (small_made other_line))).honest ≡ true }
    ensures ends { (line other_line : ReaderView)
        → HasComeThrough
        (after_sessions (pipe_steps line other_line) (small_sessions line other_line)) }
{}

/// Two sessions that are connected twice and transfer a message over their second line, so that the
/// laws of sessions that are connected again, and of the last connection of two runs, don't hold
/// vacuously.
pub fn a_message_comes_through_anew()
    ensures calls { (line other_line : ReaderView)
        → AreCalls (steps_anew line other_line) (small_connections line other_line) }
    ensures honest { (line other_line : ReaderView)
        → (run_station_calls
        (calls_of_links
        (link_steps (steps_anew line other_line) (small_connections line other_line))
        (links_made (small_made line) (small_made other_line)))
        (pair_made (small_made line) (small_made other_line))).honest ≡ true }
    ensures clean { (line other_line : ReaderView)
        → is_clean (run_station_calls
        (calls_of_links
        (link_steps (steps_anew line other_line) (small_connections line other_line))
        (links_made (small_made line) (small_made other_line)))
        (pair_made (small_made line) (small_made other_line))) ≡ true }
    ensures ready_a { (line other_line : ReaderView)
        → StartsLast (calls_of A (steps_anew line other_line))
        (first_connection (small_made line)) }
    ensures ready_b { (line other_line : ReaderView)
        → StartsLast (calls_of B (steps_anew line other_line))
        (first_connection (small_made other_line)) }
    ensures streams { (line other_line : ReaderView)
        → EndOverStreams (steps_anew line other_line) (small_connections line other_line) }
    ensures ends { (line other_line : ReaderView)
        → HasComeThroughAnew line
        (after_steps (steps_anew line other_line) (small_connections line other_line)) }
{}
