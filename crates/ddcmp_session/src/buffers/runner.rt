//! The loop of a session over its devices.
ghost use Rattle.std.specs.Prelude.{◌≡◌, ◌≢◌, [], Err, Ok, false};
ghost use Rattle.ddcmp_session.specs.Course.{lost_more};
ghost use Rattle.ddcmp_session.specs.Devices.{BuffersView, GoesOn, HoldsMail, OnlyDelivers};
ghost use Rattle.ddcmp_session.specs.Devices.{Reports};
ghost use Rattle.ddcmp_session.specs.Finishing.{Drains, IsDrained};
ghost use Rattle.ddcmp_session.specs.LastReports.{WritesQueued};
ghost use Rattle.ddcmp_session.specs.Session.{lost_by_end};
ghost use Rattle.ddcmp_session.specs.Lines.{IsReady, ReportsOver, StaysOver};
ghost use Rattle.ddcmp_session.specs.declared.devices.DeviceFault.{DeviceFault as FaultValue};

use crate::buffers::Buffers;
use crate::buffers::flow::{deliver_all, write_errors, write_output};
use crate::devices::{DeviceFault, Devices, Wanted};
use crate::line_end::LineEnd;
use crate::session::{EndReason, Session};

/// After how many passes the devices are polled although something moved, so that none starves
/// another.
const PASSES: u64 = 16;

/// How long an output may be blocked at the end of a run, in milliseconds.
pub(super) const END_MS: u64 = 1000;

impl Buffers {
    ghost use Rattle.std.specs.Prelude.{◌≡◌, ◌≢◌, Err, None, Ok, Some, false};
    ghost use Rattle.ddcmp_session.specs.Timing.{end};
    ghost use Rattle.ddcmp_session.specs.Devices.{GoesOn, Reports, Rests};
    ghost use Rattle.ddcmp_session.specs.Traffic.{Becomes, after_wait};
    ghost use Rattle.ddcmp_session.specs.declared.devices.DeviceFault.{DeviceFault as FaultValue};
    ghost use Rattle.ddcmp_session.specs.declared.session.EndReason.{EndReason as EndValue};

    /// Runs a session over its line, until the session leaves the line or a device ends or fails.
    pub fn run<D: Devices>(
        &mut self,
        session: &mut Session,
        devices: &mut D,
    ) -> Result<EndReason, DeviceFault>
        ensures on { GoesOn self.old session.old.state (D.traffic devices.old)
            self.new session.new.state (D.traffic devices.new) }
        ensures reports { (fault : FaultValue) → result ≡ Err fault
            → Reports self.old session.old.state (D.traffic devices.old)
            (D.traffic devices.new) fault }
        ensures ended { (why : EndValue) → result ≡ Ok why → end session.new.state ≡ Some why }
        ensures untimed { result ≢ Err DeviceFault.Time }
    {
        for pass in 0..u64::MAX {
            let now = read_clocks(session, devices);
            session.handle_timeout(now);
            if let Some(end) = session.end() {
                return Ok(end);
            }
            let moved = match self.pass(session, devices) {
                Ok(moved) => moved,
                Err(fault) => return Err(fault),
            };
            // The next turn returns it.
            if session.end().is_some() {
                continue;
            }
            if !self.wait(session, devices, moved, pass % PASSES == 0) {
                return Err(DeviceFault::Input);
            }
        }
        // This many passes take longer than any run.
        let now = session.run_ends_at();
        session.handle_timeout(now);
        Ok(EndReason::Time)
    }

    /// Waits for a device or a moment if nothing moved; otherwise, if `asks`, polls the devices
    /// without waiting. Returns false if the wait failed.
    fn wait<D: Devices>(&self, session: &Session, devices: &mut D, moved: bool, asks: bool) -> bool
        requires rests { moved ≡ false → Rests self.now session.now.state }
        requires goes_on { end session.now.state ≡ None }
        ensures { Becomes (D.traffic devices.old) (D.traffic devices.new) (after_wait result) }
    {
        if !moved {
            return devices.rest(session, self, session.wait_ms());
        }
        !asks || devices.wait(self.wanted(session), 0)
    }
}

/// Returns the moment. If lines for standard error begin with the time of day, those of this moment
/// have the one of now: the clock of the day may have been set, and the other one doesn't count
/// while the machine sleeps.
pub(super) fn read_clocks<D: Devices>(session: &mut Session, devices: &mut D) -> u64
    ensures devices { D.traffic devices.new ≡ D.traffic devices.old }
    ensures state { session.new.state ≡ session.old.state }
    ensures log { session.new.log ≡ record session.old.log {
      errors = record session.old.log.errors { began = session.new.log.errors.began };
    } }
    ensures unasked { session.old.state.options.clock ≡ false → session.new ≡ session.old }
{
    let now = devices.now();
    if session.shows_time() {
        if let Some(time) = devices.time_of_day() {
            session.began_at(time.saturating_sub(now));
        }
    }
    now
}

/// How long standard error may be blocked at the end of a line, in milliseconds.
const LINE_END_MS: u64 = 80;

/// Leaves a line that has ended so: writes the messages received over it, and reports what was
/// lost.
pub(super) fn leave_line<D: Devices>(
    session: &mut Session,
    devices: &mut D,
    how: LineEnd,
) -> Result<(), DeviceFault>
    ensures over { (held : BuffersView) → StaysOver held session.old.state (D.traffic devices.old)
        held session.new.state (D.traffic devices.new) }
    ensures reports { (held : BuffersView) (fault : FaultValue) → fault ≢ DeviceFault.Time
        → result ≡ Err fault → ReportsOver held session.old.state (D.traffic devices.old)
        (D.traffic devices.new) fault }
    ensures drained { result ≡ Ok tt → session.new.state.output.waiting ≡ [] }
    ensures left { result ≡ Ok tt → session.new.state.has_line ≡ false }
    ensures ready { result ≡ Ok tt → IsReady session.new.state }
    ensures log { session.new.log ≡ record session.old.log {
      errors = session.new.log.errors;
      trace = session.new.log.trace;
    } }
    ensures counted { result ≡ Ok tt
        → session.new.state.course
        ≡ lost_more (lost_by_end session.old.state) session.old.state.course }
{
    match drain_output(session, devices) {
        Ok(()) => {}
        Err(fault) => return Err(fault),
    }
    let _has_room = session.line_ended(how);
    match drain_output(session, devices) {
        Ok(()) => {}
        Err(fault) => return Err(fault),
    }
    drain_errors(session, devices, LINE_END_MS);
    Ok(())
}

/// Writes what is queued for standard error, until it was blocked for `most_ms` milliseconds.
pub fn drain_errors<D: Devices>(session: &mut Session, devices: &mut D, most_ms: u64)
    ensures on { (held : BuffersView) → GoesOn held session.old.state (D.traffic devices.old)
        held session.new.state (D.traffic devices.new) }
    ensures drains { Drains session.old.state (D.traffic devices.old)
        session.new.state (D.traffic devices.new) }
    ensures session { session.new.state ≡ session.old.state }
    ensures log { session.new.log
        ≡ record session.old.log { errors = session.new.log.errors } }
    ensures written { WritesQueued session.old.log.errors session.new.log.errors }
{
    let mut last = devices.now();
    for _write in 0..u64::MAX {
        if session.to_errors().is_empty() {
            return;
        }
        if write_errors(session, devices) {
            last = devices.now();
            continue;
        }
        let left = last.saturating_add(most_ms).saturating_sub(devices.now());
        if left == 0 {
            return;
        }
        if !devices.wait(Wanted::ERRORS, left) {
            return;
        }
    }
}

/// Writes all received messages and what else is queued for standard output. After the end of the
/// run it gives up once the output was blocked for `END_MS` milliseconds.
pub fn drain_output<D: Devices>(session: &mut Session, devices: &mut D) -> Result<(), DeviceFault>
    ensures on { (held : BuffersView) → GoesOn held session.old.state (D.traffic devices.old)
        held session.new.state (D.traffic devices.new) }
    ensures reports { (held : BuffersView) (fault : FaultValue) → result ≡ Err fault
        → fault ≢ DeviceFault.Time
        → Reports held session.old.state (D.traffic devices.old) (D.traffic devices.new) fault }
    ensures drains { Drains session.old.state (D.traffic devices.old)
        session.new.state (D.traffic devices.new) }
    ensures only { OnlyDelivers session.old.state session.new.state }
    ensures log { session.new.log ≡ session.old.log }
    ensures drained { result ≡ Ok tt → session.new.state.output.waiting ≡ [] }
    ensures left { result ≡ Ok tt → HoldsMail session.new.state }
    ensures emptied { result ≡ Ok tt → IsDrained session.new.state }
{
    let end = session.run_ends_at();
    let mut last = end.max(devices.now());
    for _write in 0..u64::MAX {
        let delivered = deliver_all(session);
        if !delivered && session.is_written() {
            return Ok(());
        }
        let moved = match write_output(session, devices) {
            Ok(moved) => moved,
            Err(fault) => return Err(fault),
        };
        let now = devices.now();
        if moved {
            last = end.max(now);
            continue;
        }
        // Something else may end a wait, so the clock measures how long the output was blocked.
        let left = last.saturating_add(END_MS).saturating_sub(now);
        if left == 0 {
            return Err(DeviceFault::Time);
        }
        if !devices.wait(Wanted::OUTPUT, left) {
            return Err(DeviceFault::Input);
        }
    }
    Err(DeviceFault::Time)
}
