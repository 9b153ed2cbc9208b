//! Two sessions that sleep.
ghost use Rattle.std.specs.Prelude.{◌≡◌, ◌≤◌, ℕ, Some};
ghost use Rattle.ddcmp_station.specs.Linking.{wakes_at as timer_at};
ghost use Rattle.ddcmp_session.specs.Session.{SessionView};
ghost use Rattle.ddcmp_session.specs.Timing.{wakes_at};
ghost use Rattle.ddcmp_laws.specs.Pipe.{IsKeptByPipes};
ghost use Rattle.ddcmp_laws.specs.SessionSleep.{SessionsAreUp, SessionIsAsleep, SessionIsDelivered};

/// A session that waits with nothing queued, its timer off and no pause has delivered all that it
/// has read.
pub fn sessions_sleep_when_done()
    ensures from_a { IsKeptByPipes (λ first second p. SessionsAreUp p
        → SessionIsAsleep p.a.session
        → SessionIsDelivered first p.a p.b) }
    ensures from_b { IsKeptByPipes (λ first second p. SessionsAreUp p
        → SessionIsAsleep p.b.session
        → SessionIsDelivered second p.b p.a) }
{}

/// A session wakes no later than its reply timer expires or a pause of it ends.
pub fn sessions_wake_in_time()
    ensures timer { (s : SessionView) (moment : ℕ) → timer_at s.link ≡ Some moment
        → wakes_at s ≤ moment }
    ensures pause { (s : SessionView) (moment : ℕ) → s.course.pause ≡ Some moment
        → wakes_at s ≤ moment }
    ensures nak_pause { (s : SessionView) (moment : ℕ) → s.course.nak_pause ≡ Some moment
        → wakes_at s ≤ moment }
{}
