//! The end of a run: received messages are delivered, and then the last lines are written.
ghost use Rattle.std.specs.Prelude.{◌≡◌, ◌≢◌, ◌&&◌, ◌⊎◌, Err, Ok, is_ok};
ghost use Rattle.ddcmp_session.specs.Devices.{BuffersView, GoesOn, Reports};
ghost use Rattle.ddcmp_session.specs.Finishing.{Drains, Finishes, IsDrained};
ghost use Rattle.ddcmp_session.specs.Logged.{LogView};
ghost use Rattle.ddcmp_session.specs.LastReports.{WritesLastReports, ReportsUnread};
ghost use Rattle.ddcmp_session.specs.declared.devices.DeviceFault.{DeviceFault as FaultValue};

use crate::buffers::Buffers;
use crate::buffers::lines::Stop;
use crate::buffers::runner::{END_MS, drain_errors, drain_output};
use crate::devices::{DeviceFault, Devices};
use crate::session::Session;

impl Buffers {
    ghost use Rattle.std.specs.Prelude.{◌≡◌, ◌≢◌, ◌<◌, Err, Ok, ℕ, false, is_ok};
    ghost use Rattle.ddcmp_session.specs.Finishing.{RunsToEnd};
    ghost use Rattle.ddcmp_session.specs.Lines.{ReportsOver};
    ghost use Rattle.ddcmp_session.specs.Stopping.{StopsToEnd};
    ghost use Rattle.ddcmp_session.specs.declared.devices.DeviceFault.{DeviceFault as FaultValue};

    /// Runs a new session as `run_lines` does, and then writes all received messages and the last
    /// lines. It ends well only if nothing is lost and all output was written.
    pub fn run_to_end<D: Devices>(
        &mut self,
        session: &mut Session,
        devices: &mut D,
    ) -> Result<(), Stop<D::Refusal>>
        ensures ends { RunsToEnd (is_ok result) self.old session.old.state (D.traffic devices.old)
            self.new session.new.state (D.traffic devices.new) }
        ensures stops { (ends : RunsToEnd (is_ok result) self.old session.old.state
            (D.traffic devices.old) self.new session.new.state (D.traffic devices.new))
            × StopsToEnd result self.old session.old.state (D.traffic devices.old)
            ends.ends.unclosed
            ends.between }
        ensures whole { result ≡ Ok tt → session.new.state.course.lost ≡ 0 }
        ensures lost { (count : ℕ) → result ≡ Err (Stop.Lost count)
            → (count ≡ session.new.state.course.lost) × (0 < count) }
        ensures left { result ≡ Err Stop.Left → session.new.state.course.has_run ≡ false }
        ensures unread { result ≡ Err Stop.Unread
            → (self.new.is_over ≡ false) × (session.new.state.course.lost ≡ 0) }
        ensures reports { (fault : FaultValue) → fault ≢ DeviceFault.Time
            → result ≡ Err (Stop.Device fault) → ReportsOver self.old session.old.state
            (D.traffic devices.old) (D.traffic devices.new) fault }
    {
        let ran = self.run_lines(session, devices);
        let finished = finish(session, devices);
        drain_errors(session, devices, END_MS);
        outcome(ran, finished)
    }
}

/// Returns the result of a run: that of its lines, and if that is `Ok` that of its output.
fn outcome<R: Copy>(
    ran: Result<(), Stop<R>>,
    finished: Result<(), DeviceFault>,
) -> Result<(), Stop<R>>
    ensures well { is_ok result ≡ is_ok ran && is_ok finished }
    ensures whole { result ≡ Ok tt → (ran ≡ Ok tt) × (finished ≡ Ok tt) }
    ensures fault { (fault : FaultValue) → result ≡ Err (Stop.Device fault)
        → (ran ≡ result) ⊎ (finished ≡ Err fault) }
    ensures device { (fault : FaultValue) → ran ≡ Ok tt → finished ≡ Err fault
        → result ≡ Err (Stop.Device fault) }
    ensures stop { ran ≢ Ok tt → result ≡ ran }
    ensures stops { (result ≡ ran) ⊎ ((fault : FaultValue) × (ran ≡ Ok tt)
        × (result ≡ Err (Stop.Device fault))) }
{
    match ran {
        Ok(()) => {}
        Err(stop) => return Err(stop),
    }
    match finished {
        Ok(()) => Ok(()),
        Err(fault) => Err(Stop::Device(fault)),
    }
}

/// Writes all received messages, and then the last lines.
fn finish<D: Devices>(session: &mut Session, devices: &mut D) -> Result<(), DeviceFault>
    ensures finishes { Finishes (is_ok result) session.old.state (D.traffic devices.old)
        session.new.state (D.traffic devices.new) }
    ensures reports { (held : BuffersView) (fault : FaultValue) → result ≡ Err fault
        → fault ≢ DeviceFault.Time
        → Reports held session.old.state (D.traffic devices.old) (D.traffic devices.new) fault }
    ensures course { session.new.state.course ≡ session.old.state.course }
    ensures log { session.new.log ≡ record session.old.log {
      errors = session.new.log.errors;
      trace = session.new.log.trace;
    } }
{
    match deliver_rest(session, devices) {
        Ok(()) => {}
        Err(fault) => return Err(fault),
    }
    session.write_end();
    drain_output(session, devices)
}

/// Writes all received messages, and reports it if they are lost since the output isn't read.
fn deliver_rest<D: Devices>(session: &mut Session, devices: &mut D) -> Result<(), DeviceFault>
    ensures drains { Drains session.old.state (D.traffic devices.old)
        session.new.state (D.traffic devices.new) }
    ensures on { (held : BuffersView) → GoesOn held session.old.state (D.traffic devices.old)
        held session.new.state (D.traffic devices.new) }
    ensures reports { (held : BuffersView) (fault : FaultValue) → result ≡ Err fault
        → fault ≢ DeviceFault.Time
        → Reports held session.old.state (D.traffic devices.old) (D.traffic devices.new) fault }
    ensures course { session.new.state.course ≡ session.old.state.course }
    ensures log { session.new.log ≡ record session.old.log {
      errors = session.new.log.errors;
      trace = session.new.log.trace;
    } }
    ensures emptied { result ≡ Ok tt → IsDrained session.new.state }
    ensures told { (last : LogView) × WritesLastReports session.new.state session.old.log last
        × ReportsUnread result last session.new.log }
{
    let drained = drain_output(session, devices);
    session.finish();
    report_if_unread(session, drained);
    drained
}

/// Reports that received messages are lost since the output isn't read, if that is the fault.
fn report_if_unread(session: &mut Session, drained: Result<(), DeviceFault>)
    ensures state { session.new.state ≡ session.old.state }
    ensures told { ReportsUnread drained session.old.log session.new.log }
{
    match drained {
        Err(DeviceFault::Time) => session.report_unread(),
        Ok(()) | Err(DeviceFault::Line(_) | DeviceFault::Input | DeviceFault::Output) => {}
    }
}
