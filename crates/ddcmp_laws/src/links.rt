//! Links, and two of them over streams.
ghost use Rattle.std.specs.Prelude.{◌≡◌, ℕ, List, true};
ghost use Rattle.ddcmp_frame.specs.Reader.{ReaderView};
ghost use Rattle.ddcmp_station.specs.Linking.{delivered};
ghost use Rattle.ddcmp_proto.specs.declared.config.Config.{Config as ConfigValue};
ghost use Rattle.ddcmp_pair.specs.Run.{EndState, new_end, new_pair};
ghost use Rattle.ddcmp_laws.specs.PairCalls.{after_calls_here, run_calls};
ghost use Rattle.ddcmp_laws.specs.Links.{LinkStep, LinkHistory, station_calls, HasDone};
ghost use Rattle.ddcmp_laws.specs.Links.{new_history, after_step, IsHistory, after_history};
ghost use Rattle.ddcmp_laws.specs.Links.{calls_in_history, offered_in, sent_in, IsSameEnd};
ghost use Rattle.ddcmp_laws.specs.Links.{IsKeptOverStreams, LinkReaches, received};
ghost use Rattle.ddcmp_laws.specs.LinkLines.{IsKeptOverHonestLines, LinksAreUp, LinkIsAsleep};
ghost use Rattle.ddcmp_laws.specs.Links.{LinkOverStreams, AreStartedOnce, after_steps};
ghost use Rattle.ddcmp_laws.specs.LinkLines.{LinkIsDelivered, calls_of_steps};
ghost use Rattle.ddcmp_laws.specs.LinkStory.{small_links, story_steps, HasGotAcross};
ghost use Rattle.ddcmp_laws.specs.Vectors.{small};

/// Each call of a link makes calls of its station, and so does a history of calls. They lead to the
/// same station; the bytes that were written to the link's line, and then those queued for it, are
/// the bytes that their polls wrote; they accept and deliver the same messages. Each message
/// offered to the link is passed to `send` once, in order.
pub fn link_calls_are_calls()
    ensures begins { (config : ConfigValue) (milliseconds : ℕ) (line : ReaderView)
        → IsSameEnd (new_end config) (new_history config milliseconds line) }
    ensures call { (step : LinkStep) (h : LinkHistory) (x : EndState)
        → HasDone step.call h.used h.link step.link → IsSameEnd x h
        → IsSameEnd (after_calls_here (station_calls step.call h.link) x) (after_step step h) }
    ensures history { (steps : List LinkStep) (h : LinkHistory) (x : EndState)
        → IsHistory steps h → IsSameEnd x h
        → IsSameEnd (after_calls_here (calls_in_history steps h) x) (after_history steps h) }
    ensures offers { (steps : List LinkStep) (h : LinkHistory)
        → sent_in (calls_in_history steps h) ≡ offered_in steps }
{}

/// Two new links of any sizes in range, each started at most once, over an honest line: the good
/// frames that each received are, in their order, among those that the other sent. Whatever else
/// the line did, such as lose, cut or damage what it carries, and whatever the calls, the moments
/// and the chunks of bytes: the messages that each received are a prefix of those that the other
/// accepted, each once and unchanged, and no more is reported acknowledged than was received.
pub fn links_in_order()
    ensures to_b { IsKeptOverHonestLines (λ p. LinkReaches p.a p.b) }
    ensures to_a { IsKeptOverHonestLines (λ p. LinkReaches p.b p.a) }
{}

/// If one of two such links reports that all is delivered, the other has received all messages that
/// the one accepted: these, in their order, each once and unchanged, and no others.
pub fn delivered_over_an_honest_line()
    ensures to_b { IsKeptOverHonestLines
        (λ p. delivered p.a.link ≡ true → received p.b ≡ p.a.accepted) }
    ensures to_a { IsKeptOverHonestLines
        (λ p. delivered p.b.link ≡ true → received p.a ≡ p.b.accepted) }
{}

/// Two such links of which neither is halted sleep only if there is nothing left to do: if one has
/// no moment to wake at, and queues no frame though it has room for one, then it runs, and each
/// message that it accepted is received by the other and acknowledged. So a caller that waits for
/// its line alone, without a moment, doesn't miss anything that is due.
pub fn links_sleep_when_done()
    ensures from_a { IsKeptOverHonestLines (λ p. LinksAreUp p → LinkIsAsleep p.a.link
        → LinkIsDelivered p.a p.b) }
    ensures from_b { IsKeptOverHonestLines (λ p. LinksAreUp p → LinkIsAsleep p.b.link
        → LinkIsDelivered p.b p.a) }
{}

/// Two new links of any sizes in range, each started at most once, over streams: whatever the
/// calls, the moments and the chunks of bytes, the user of each takes a prefix of the messages that
/// the other accepted, each once and unchanged, and no more is reported acknowledged to it than was
/// received.
pub fn links_over_a_stream()
    ensures to_b { IsKeptOverStreams (λ p. LinkReaches p.a p.b) }
    ensures to_a { IsKeptOverStreams (λ p. LinkReaches p.b p.a) }
{}

/// If one of two such links reports that all is delivered, the other has received all messages that
/// the one accepted: these, in their order, each once and unchanged, and no others.
pub fn delivered_is_received()
    ensures to_b { IsKeptOverStreams
        (λ p. delivered p.a.link ≡ true → received p.b ≡ p.a.accepted) }
    ensures to_a { IsKeptOverStreams
        (λ p. delivered p.b.link ≡ true → received p.a ≡ p.b.accepted) }
{}

/// Two links that transfer a message, so that no law above holds vacuously: a list of calls over
/// streams, each end started once, after which the message that one accepted was taken from the
/// other and is acknowledged, `is_delivered` returns true, and both links sleep.
pub fn a_message_gets_across()
    ensures streams { (line other_line : ReaderView)
        → LinkOverStreams (story_steps line other_line) (small_links line other_line) }
    ensures once { (line other_line : ReaderView) → AreStartedOnce (story_steps line other_line) }
    ensures honest { (line other_line : ReaderView)
        → (run_calls (calls_of_steps (story_steps line other_line) (small_links line other_line))
        (new_pair small small)).honest ≡ true }
    ensures ends { (line other_line : ReaderView)
        → HasGotAcross (after_steps (story_steps line other_line) (small_links line other_line)) }
{}
