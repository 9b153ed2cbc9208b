//! What a user may expect of a session, stated apart from the steps of its calls: functions without
//! an effect, whose contracts are the laws.
ghost use Rattle.std.specs.Prelude.{◌≡◌, ◌⊎◌, ◌+◌, ◌≤◌, ℕ, List, Some, None};
ghost use Rattle.ddcmp_session.specs.Session.{SessionView};
ghost use Rattle.ddcmp_session.specs.Calls.{SessionCall, SessionDoes, TimedOut};

/// Messages that the peer refuses are held back for a while. No call prolongs such a pause. One
/// that begins ends within the time of the reply timer, and `handle_timeout` ends it at that
/// moment.
pub fn pauses_end()
    ensures kept { (call : SessionCall) (text : List ℕ) (old new : SessionView) (until : ℕ)
        → SessionDoes call text old new → old.course.pause ≡ Some until
        → (new.course.pause ≡ Some until) ⊎ (new.course.pause ≡ None) }
    ensures short { (call : SessionCall) (text : List ℕ) (old new : SessionView) (until : ℕ)
        → SessionDoes call text old new → old.course.pause ≡ None
        → new.course.pause ≡ Some until → until ≤ new.course.moment + old.options.timer_ms }
    ensures over { (text : List ℕ) (old new : SessionView) (now until : ℕ)
        → SessionDoes (TimedOut now) text old new → old.course.pause ≡ Some until → until ≤ now
        → new.course.pause ≡ None }
{}

/// NAKs of what the peer sends wrong are held back for a while, too, and such a pause ends in the
/// same way: no call prolongs it, it lasts no longer than the reply timer, and `handle_timeout`
/// ends it at its moment.
pub fn nak_pauses_end()
    ensures kept { (call : SessionCall) (text : List ℕ) (old new : SessionView) (until : ℕ)
        → SessionDoes call text old new → old.course.nak_pause ≡ Some until
        → (new.course.nak_pause ≡ Some until) ⊎ (new.course.nak_pause ≡ None) }
    ensures short { (call : SessionCall) (text : List ℕ) (old new : SessionView) (until : ℕ)
        → SessionDoes call text old new → old.course.nak_pause ≡ None
        → new.course.nak_pause ≡ Some until → until ≤ new.course.moment + old.options.timer_ms }
    ensures over { (text : List ℕ) (old new : SessionView) (now until : ℕ)
        → SessionDoes (TimedOut now) text old new → old.course.nak_pause ≡ Some until → until ≤ now
        → new.course.nak_pause ≡ None }
{}
