//! The reply timer of a station against a clock.
ghost use Rattle.std.specs.Prelude.{◌≡◌};
ghost use Rattle.ddcmp_station.specs.Driving.{deadline_at, core_after_take_arm, core_at_deadline};
ghost use Rattle.ddcmp_station.specs.Driving.{expires_at};

use ddcmp_proto::Station;

/// Sets the deadline of a timer that was started, or that was on before this call, and lets it
/// expire if the deadline is reached. Returns whether it has.
pub(crate) fn keep_time(
    station: &mut Station,
    now: u64,
    timer_ms: u32,
    deadline: &mut Option<u64>,
) -> bool
    ensures expires { result ≡ expires_at timer_ms now station.old.core.station.timer deadline.old }
    ensures deadline { deadline.new
        ≡ deadline_at timer_ms now station.old.core.station.timer deadline.old }
    ensures station { station.new ≡ record station.old {
      core = core_at_deadline now
          (deadline_at timer_ms now station.old.core.station.timer deadline.old)
          (core_after_take_arm station.old.core);
    } }
{
    let started = station.take_arm();
    if !station.timer_on() {
        return false;
    }
    let due = match *deadline {
        Some(moment) if !started => moment,
        _ => now.saturating_add(timer_ms as u64),
    };
    *deadline = Some(due);
    let expires = due <= now;
    if expires {
        station.expire();
    }
    expires
}
