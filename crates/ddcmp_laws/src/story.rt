//! Three runs of two ends, written out.
ghost use Rattle.std.specs.Prelude.{◌≡◌, [], ◌∷◌, map};
ghost use Rattle.ddcmp_pair.specs.Run.{run, new_pair};
ghost use Rattle.ddcmp_laws.specs.Vectors.{abc};
ghost use Rattle.ddcmp_laws.specs.Story.{de, f, g, default_sizes, tight, written_run, second_run};
ghost use Rattle.ddcmp_laws.specs.Story.{clear_run, event_in, reply_in, replies_to, EndsWell};
ghost use Rattle.ddcmp_laws.specs.Story.{counts_of_a, counts_of_b, second_counts_of_a};
ghost use Rattle.ddcmp_laws.specs.Story.{second_counts_of_b, clear_counts_of_a, clear_counts_of_b};
ghost use Rattle.ddcmp_laws.specs.Clear.{StaysClear};

/// A handshake, messages both ways, of which one is lost and one is damaged, a lost ACK, and the
/// repair of each: every frame on the line, every notice and every number is the one that is
/// written down. In the end each message was delivered once, and the counters of both ends are
/// right.
pub fn written_run_is_answered()
    ensures replies { replies_to (map event_in written_run) (new_pair default_sizes default_sizes)
        ≡ map reply_in written_run }
    ensures ends { EndsWell (run (map event_in written_run) (new_pair default_sizes default_sizes))
        (f ∷ []) (abc ∷ de ∷ g ∷ []) counts_of_a counts_of_b }
{}

/// The same for a run in which a header has a wrong CRC, one has no known form, a message is too
/// long, and there is no room for one.
pub fn second_run_is_answered()
    ensures replies { replies_to (map event_in second_run) (new_pair tight tight)
        ≡ map reply_in second_run }
    ensures ends { EndsWell (run (map event_in second_run) (new_pair tight tight))
        [] (abc ∷ de ∷ []) second_counts_of_a second_counts_of_b }
{}

/// The same for a run over a clear line, in which a timer expires all the same: so the law that
/// such a line wastes nothing applies to runs in which messages and REPs are sent, also between
/// ends whose inboxes hold one message.
pub fn clear_run_is_answered()
    ensures clear { StaysClear (map event_in clear_run) (new_pair default_sizes default_sizes) }
    ensures one { StaysClear (map event_in clear_run) (new_pair tight tight) }
    ensures replies { replies_to (map event_in clear_run) (new_pair default_sizes default_sizes)
        ≡ map reply_in clear_run }
    ensures ends { EndsWell (run (map event_in clear_run) (new_pair default_sizes default_sizes))
        [] (abc ∷ []) clear_counts_of_a clear_counts_of_b }
{}
