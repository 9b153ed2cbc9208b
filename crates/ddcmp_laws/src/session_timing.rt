//! When a session is done, opens its line again, and what its messages look like as lines: rules
//! that its course and its text must keep, stated apart from them.
ghost use Rattle.std.specs.Prelude.{◌≡◌, ◌≢◌, ◌≤◌, ◌<◌, ◌+◌, ◌++◌, ◌⊎◌, ℕ, List, Some, codes};
ghost use Rattle.std.specs.Prelude.{false, true};
ghost use Rattle.hex.specs.Hex.{IsBytes};
ghost use Rattle.ddcmp_input.specs.InLines.{Spells};
ghost use Rattle.ddcmp_streams.specs.declared.messages.MessageForm.TheVariants.{Digits};
ghost use Rattle.ddcmp_core.specs.declared.state.State.TheVariants.{Halted};
ghost use Rattle.ddcmp_session.specs.declared.session.EndReason.TheVariants.{Done};
ghost use Rattle.ddcmp_session.specs.Session.{SessionView, is_awaited, is_delivered};
ghost use Rattle.ddcmp_session.specs.Text.{mail_text};
ghost use Rattle.ddcmp_session.specs.Timing.{after_failure, after_line, end, lingers_until};
ghost use Rattle.ddcmp_session.specs.Timing.{reopens};
ghost use Rattle.ddcmp_session.specs.Timing.{wakes_without_line_at};

/// A session is done only once its input was read to its end and all of it is delivered, or was
/// lost with a line that has ended; its line was quiet for as long as it is to linger; and never if
/// it is to stay, or while received messages aren't acknowledged since they aren't written yet.
pub fn done_once_all_is_read()
    ensures read { (s : SessionView) → end s ≡ Some Done → s.is_read ≡ true }
    ensures delivered { (s : SessionView) → end s ≡ Some Done → s.has_line ≡ true
        → is_delivered s ≡ true }
    ensures quiet { (s : SessionView) → end s ≡ Some Done → lingers_until s ≤ s.course.moment }
    ensures stays { (s : SessionView) → s.options.stay ≡ true → end s ≢ Some Done }
    ensures awaited { (s : SessionView) → is_awaited s ≡ true → end s ≢ Some Done }
{}

/// With `--again` a line that has ended, or couldn't be opened, is opened again, 30 seconds later
/// at most, or at once if the station ran on it, unless a command has halted the link; and the
/// session wakes for that.
pub fn opens_again()
    ensures reopens { (s : SessionView) → s.options.again ≡ true → reopens s ≡ true }
    // With `--restart` a link whose peer has restarted doesn't end by that.
    ensures restarts { (s : SessionView) → s.link.station.core.limits.restart ≡ true
        → s.link.station.core.station.state ≡ Halted → s.course.leaves ≡ true
        → reopens s ≡ true }
    ensures at_once { (s : SessionView) → s.course.has_run_here ≡ true
        → (after_line s).course.opens_at ≡ 0 }
    ensures later { (s : SessionView) → s.course.opens_at ≤ s.course.moment + 30000
        → (after_line s).course.opens_at ≤ s.course.moment + 30000 }
    ensures after_failure { (s : SessionView)
        → (after_failure s).course.opens_at ≤ s.course.moment + 30000 }
    ensures wakes { (now : ℕ) (s : SessionView) → now < s.course.opens_at
        → wakes_without_line_at now s ≤ s.course.opens_at }
{}

/// A received message is written as a line whose digits, read as an input, are that message.
pub fn mail_is_read_back()
    ensures { (message : List ℕ) → IsBytes message → (digits : List ℕ)
        × (mail_text Digits message ≡ codes "mail " ++ digits ++ codes "\n")
        × Spells digits message }
{}
