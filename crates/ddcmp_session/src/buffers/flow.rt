//! One pass over the devices of a session: each step moves bytes between a device and the session,
//! without waiting, and returns whether it moved any.
ghost use Rattle.std.specs.Prelude.{◌≡◌, ◌≢◌, Err, Ok, Option, false};
ghost use Rattle.ddcmp_session.specs.Devices.{BuffersView, GoesOn, HoldsMail, OnlyDelivers};
ghost use Rattle.ddcmp_session.specs.Devices.{Reports};
ghost use Rattle.ddcmp_session.specs.Traffic.{Traffic};
ghost use Rattle.ddcmp_session.specs.Finishing.{Drains, HasRoomIfEmpty};
ghost use Rattle.ddcmp_session.specs.LastReports.{WritesQueued};
ghost use Rattle.ddcmp_session.specs.declared.devices.DeviceFault.{DeviceFault as FaultValue};

use crate::buffers::Buffers;
use crate::devices::{DeviceFault, Devices, Transfer, Wanted};
use crate::session::{EndReason, Session};
use ddcmp_io::Got;

/// How many parts of the input are passed to the session before the line is served. The queue for
/// standard error has room for the reports of that many lines `?`.
const INPUT_PARTS: u8 = 64;

/// Writes the received messages that the output has room for; returns whether there was one.
pub(super) fn deliver_all(session: &mut Session) -> bool
    ensures on { (held : BuffersView) (known : Option Traffic)
        → GoesOn held session.old.state known held session.new.state known }
    ensures idle { result ≡ false
        → session.new.state ≡ record session.old.state { output = session.new.state.output } }
    ensures log { session.new.log ≡ session.old.log }
    ensures drains { (known : Option Traffic)
        → Drains session.old.state known session.new.state known }
    ensures only { OnlyDelivers session.old.state session.new.state }
    ensures left { result ≡ false → HoldsMail session.new.state }
    ensures emptied { result ≡ false → HasRoomIfEmpty session.new.state }
{
    let mut moved = false;
    for _message in 0..u64::MAX {
        if !session.deliver() {
            return moved;
        }
        moved = true;
    }
    true
}

impl Buffers {
    ghost use Rattle.std.specs.Prelude.{◌≡◌, ◌≢◌, ◌⊎◌, [], Err, None, Ok, Option, Some, false};
    ghost use Rattle.ddcmp_session.specs.Session.{SessionView, takes_end, wants_input, wants_line};
    ghost use Rattle.ddcmp_session.specs.Lines.{IsReady};
    ghost use Rattle.ddcmp_session.specs.Devices.{GoesOn, HoldsMail, KeepsFaults, Reports, Rests};
    ghost use Rattle.ddcmp_session.specs.Devices.{IsIdle};
    ghost use Rattle.ddcmp_session.specs.Traffic.{Traffic};
    ghost use Rattle.ddcmp_io.specs.declared.transfer.Down.{Down as DownValue};
    ghost use Rattle.ddcmp_session.specs.declared.devices.DeviceFault.{DeviceFault as FaultValue};

    /// Moves what can be moved, without waiting, and returns whether there was anything; if not, it
    /// is time to wait.
    pub fn pass<D: Devices>(
        &mut self,
        session: &mut Session,
        devices: &mut D,
    ) -> Result<bool, DeviceFault>
        ensures on { GoesOn self.old session.old.state (D.traffic devices.old)
            self.new session.new.state (D.traffic devices.new) }
        ensures reports { (fault : FaultValue) → result ≡ Err fault
            → Reports self.old session.old.state (D.traffic devices.old)
            (D.traffic devices.new) fault }
        ensures rests { result ≡ Ok false → Rests self.new session.new.state }
        ensures untimed { result ≢ Err DeviceFault.Time }
    {
        match self.move_all(session, devices) {
            Ok(false) => {}
            moved => return moved,
        }
        if session.wants_line() {
            self.end_if_down(session, devices)
        } else {
            Ok(false)
        }
    }

    /// Moves what can be moved, without waiting, and returns whether there was anything.
    fn move_all<D: Devices>(
        &mut self,
        session: &mut Session,
        devices: &mut D,
    ) -> Result<bool, DeviceFault>
        ensures on { GoesOn self.old session.old.state (D.traffic devices.old)
            self.new session.new.state (D.traffic devices.new) }
        ensures reports { (fault : FaultValue) → result ≡ Err fault
            → Reports self.old session.old.state (D.traffic devices.old)
            (D.traffic devices.new) fault }
        ensures rests { result ≡ Ok false → IsIdle self.new session.new.state }
        ensures untimed { result ≢ Err DeviceFault.Time }
    {
        // An acknowledgement is written before the line is read to its end.
        session.fill();
        let mut moved = self.write_line(session, devices);
        moved |= self.read_input(session, devices)?;
        moved |= self.pass_input(session, devices)?;
        moved |= self.read_line(session, devices)?;
        moved |= self.pass_received(session);
        moved |= write_output(session, devices)?;
        moved |= write_errors(session, devices);
        Ok(moved)
    }

    /// Reads the input, if a message or a command is wanted.
    pub(super) fn read_input<D: Devices>(
        &mut self,
        session: &Session,
        devices: &mut D,
    ) -> Result<bool, DeviceFault>
        ensures on { GoesOn self.old session.now.state (D.traffic devices.old)
            self.new session.now.state (D.traffic devices.new) }
        ensures reports { (fault : FaultValue) → result ≡ Err fault
            → Reports self.old session.now.state (D.traffic devices.old)
            (D.traffic devices.new) fault }
        ensures idle { result ≡ Ok false → self.new ≡ self.old }
        ensures untimed { result ≢ Err DeviceFault.Time }
    {
        if !self.wants_input(session) {
            return Ok(false);
        }
        self.read_now(devices)
    }

    /// Reads more of the input, if it has bytes or has ended and there is room.
    fn read_now<D: Devices>(&mut self, devices: &mut D) -> Result<bool, DeviceFault>
        requires goes_on { self.old.is_over ≡ false }
        ensures on { (session : SessionView) → GoesOn self.old session (D.traffic devices.old)
            self.new session (D.traffic devices.new) }
        ensures reports { (session : SessionView) (fault : FaultValue) → result ≡ Err fault
            → Reports self.old session (D.traffic devices.old) (D.traffic devices.new) fault }
        ensures idle { result ≡ Ok false → self.new ≡ self.old }
        ensures keeps { KeepsFaults (D.traffic devices.old) (D.traffic devices.new) }
        ensures untimed { result ≢ Err DeviceFault.Time }
    {
        match self.input.read_input(devices) {
            Got::Bytes(n) => self.input_is_over = n == 0,
            Got::Idle => return Ok(false),
            Got::Failed => return Err(DeviceFault::Input),
        }
        Ok(true)
    }

    /// Passes what was read of the input to the session, as far as it accepts it. If some is left,
    /// asks without waiting what else is ready, as the loop won't wait until that is used.
    pub(super) fn pass_input<D: Devices>(
        &mut self,
        session: &mut Session,
        devices: &mut D,
    ) -> Result<bool, DeviceFault>
        ensures on { GoesOn self.old session.old.state (D.traffic devices.old)
            self.new session.new.state (D.traffic devices.new) }
        ensures reports { (fault : FaultValue) → result ≡ Err fault
            → Reports self.old session.old.state (D.traffic devices.old)
            (D.traffic devices.new) fault }
        ensures idle { result ≡ Ok false → (session.new ≡ session.old) × (self.new ≡ self.old) }
        ensures input_read { result ≡ Ok false
            → (self.new.input ≡ []) ⊎ (wants_input session.new.state ≡ false) }
        ensures told { result ≡ Ok false
            → (self.new.is_over ≡ false) ⊎ ((wants_input session.new.state ≡ false)
            ⊎ (takes_end session.new.state ≡ false)) }
        ensures ready { IsReady session.old.state → IsReady session.new.state }
        ensures untimed { result ≢ Err DeviceFault.Time }
    {
        let moved = self.pass_parts(session);
        if !session.wants_input() {
            return Ok(moved);
        }
        if !self.input.is_empty() {
            let wanted = self.wanted(session);
            return if devices.wait(wanted, 0) {
                Ok(true)
            } else {
                Err(DeviceFault::Input)
            };
        }
        if self.input_is_over && session.takes_end() {
            session.input_ended();
            return Ok(true);
        }
        Ok(moved)
    }

    /// Passes at most `INPUT_PARTS` parts of the input to the session.
    fn pass_parts(&mut self, session: &mut Session) -> bool
        ensures on { (known : Option Traffic)
            → GoesOn self.old session.old.state known self.new session.new.state known }
        ensures idle { result ≡ false → (session.new ≡ session.old) × (self.new ≡ self.old) }
        ensures ready { IsReady session.old.state → IsReady session.new.state }
    {
        let mut moved = false;
        for _part in 0..INPUT_PARTS {
            if self.input.is_empty() || !session.wants_input() {
                break;
            }
            let used = session.input_read(self.input.rest());
            self.input.used(used);
            moved = true;
        }
        moved
    }

    /// Reads once what the input has now, if there is room after what is left of it: for its end,
    /// or so that messages that won't be sent are counted as lost.
    pub fn read_the_rest<D: Devices>(&mut self, devices: &mut D) -> Result<(), DeviceFault>
        ensures on { (session : SessionView) → GoesOn self.old session (D.traffic devices.old)
            self.new session (D.traffic devices.new) }
        ensures reports { (session : SessionView) (fault : FaultValue) → result ≡ Err fault
            → Reports self.old session (D.traffic devices.old) (D.traffic devices.new) fault }
        ensures keeps { KeepsFaults (D.traffic devices.old) (D.traffic devices.new) }
        ensures untimed { result ≢ Err DeviceFault.Time }
    {
        if self.input_is_over {
            return Ok(());
        }
        if !devices.wait(Wanted::INPUT, 0) {
            return Err(DeviceFault::Input);
        }
        match self.read_now(devices) {
            Ok(_moved) => Ok(()),
            Err(fault) => Err(fault),
        }
    }

    /// Writes the bytes pending for the line, as far as it has room.
    fn write_line<D: Devices>(&mut self, session: &mut Session, devices: &mut D) -> bool
        ensures on { GoesOn self.old session.old.state (D.traffic devices.old)
            self.new session.new.state (D.traffic devices.new) }
        ensures idle { result ≡ false → session.new ≡ session.old }
        ensures held { result ≡ false → self.new ≡ self.old }
    {
        if self.down.is_some() || session.to_line().is_empty() {
            return false;
        }
        match devices.write_line(session.to_line()) {
            Transfer::Bytes(n) => session.line_took(n),
            Transfer::Nothing => return false,
            Transfer::Interrupted => {}
            Transfer::Ended(why) => self.down = Some(why),
        }
        true
    }

    /// Reads what the line has, if all bytes received before were used.
    fn read_line<D: Devices>(
        &mut self,
        session: &mut Session,
        devices: &mut D,
    ) -> Result<bool, DeviceFault>
        ensures on { GoesOn self.old session.old.state (D.traffic devices.old)
            self.new session.new.state (D.traffic devices.new) }
        ensures reports { (fault : FaultValue) → result ≡ Err fault
            → Reports self.old session.old.state (D.traffic devices.old)
            (D.traffic devices.new) fault }
        ensures idle { result ≡ Ok false → self.new ≡ self.old }
        ensures session { session.new.state ≡ session.old.state }
        ensures log { session.new.log ≡ record session.old.log {
          errors = session.new.log.errors;
          trace = session.new.log.trace;
          echo = session.new.log.echo;
        } }
        ensures untimed { result ≢ Err DeviceFault.Time }
    {
        if !self.wants_line(session) || !devices.may_read_line() {
            return Ok(false);
        }
        let got = self.received.read_line(devices);
        session.log_received(self.received.rest());
        devices.report_read(session);
        self.after_read(got)
    }

    /// Returns the fault of a failed write to the line, once there is nothing to read from it
    /// either: a device may never report that otherwise. Returns whether the line can be read by
    /// now.
    fn end_if_down<D: Devices>(
        &self,
        session: &Session,
        devices: &mut D,
    ) -> Result<bool, DeviceFault>
        ensures on { GoesOn self.now session.now.state (D.traffic devices.old)
            self.now session.now.state (D.traffic devices.new) }
        ensures reports { (fault : FaultValue) → result ≡ Err fault
            → Reports self.now session.now.state (D.traffic devices.old)
            (D.traffic devices.new) fault }
        ensures up { result ≡ Ok false → self.now.down ≡ None }
        ensures untimed { result ≢ Err DeviceFault.Time }
    {
        match self.down {
            None => Ok(false),
            Some(_) if !devices.wait(self.wanted(session), 0) => Err(DeviceFault::Input),
            Some(_) if devices.may_read_line() => Ok(true),
            Some(why) => Err(DeviceFault::Line(why)),
        }
    }

    /// Returns whether a read of the line returned anything. The line is read to its end before the
    /// fault of a write is reported.
    fn after_read(&self, got: Transfer) -> Result<bool, DeviceFault>
        ensures idle { result ≡ Ok false → got ≡ Transfer.Nothing }
        ensures fault { (fault : FaultValue) → result ≡ Err fault → (why : DownValue)
            × (fault ≡ DeviceFault.Line why)
            × ((self.now.down ≡ Some why) ⊎ (got ≡ Transfer.Ended why)) }
    {
        match got {
            Transfer::Bytes(_) | Transfer::Interrupted => Ok(true),
            Transfer::Nothing => match self.down {
                Some(why) => Err(DeviceFault::Line(why)),
                None => Ok(false),
            },
            Transfer::Ended(why) => match self.down {
                Some(first) => Err(DeviceFault::Line(first)),
                None => Err(DeviceFault::Line(why)),
            },
        }
    }

    /// Passes the bytes received from the line to the session, as far as it accepts them, and
    /// delivers messages. Once the peer has restarted the session accepts no more.
    fn pass_received(&mut self, session: &mut Session) -> bool
        ensures on { (known : Option Traffic)
            → GoesOn self.old session.old.state known self.new session.new.state known }
        ensures idle { result ≡ false
            → (session.new.state ≡ record session.old.state { output = session.new.state.output })
            × (self.new ≡ self.old) }
        ensures fed { result ≡ false
            → (self.new.received ≡ []) ⊎ (wants_line session.new.state ≡ false) }
        ensures left { result ≡ false → HoldsMail session.new.state }
    {
        let mut moved = false;
        for _notice in 0..u64::MAX {
            moved |= deliver_all(session);
            if session.end() == Some(EndReason::Restarted) {
                return true;
            }
            if self.received.is_empty() || !session.wants_line() {
                return moved;
            }
            let used = session.received(self.received.rest());
            self.received.used(used);
            moved = true;
        }
        true
    }
}

/// Writes what standard output has room for.
pub(super) fn write_output<D: Devices>(
    session: &mut Session,
    devices: &mut D,
) -> Result<bool, DeviceFault>
    ensures on { (held : BuffersView) → GoesOn held session.old.state (D.traffic devices.old)
        held session.new.state (D.traffic devices.new) }
    ensures reports { (held : BuffersView) (fault : FaultValue) → result ≡ Err fault
        → Reports held session.old.state (D.traffic devices.old) (D.traffic devices.new) fault }
    ensures drains { Drains session.old.state (D.traffic devices.old)
        session.new.state (D.traffic devices.new) }
    ensures idle { result ≡ Ok false → session.new ≡ session.old }
    ensures only { OnlyDelivers session.old.state session.new.state }
    ensures log { session.new.log ≡ session.old.log }
    ensures untimed { result ≢ Err DeviceFault.Time }
{
    if session.to_output().is_empty() {
        return Ok(false);
    }
    match devices.write_output(session.to_output()) {
        Transfer::Bytes(n) => session.output_took(n),
        Transfer::Nothing => return Ok(false),
        Transfer::Interrupted => {}
        Transfer::Ended(_) => return Err(DeviceFault::Output),
    }
    Ok(true)
}

/// Writes what standard error has room for.
pub(super) fn write_errors<D: Devices>(session: &mut Session, devices: &mut D) -> bool
    ensures session { session.new.state ≡ session.old.state }
    ensures log { session.new.log
        ≡ record session.old.log { errors = session.new.log.errors } }
    ensures devices { D.traffic devices.new ≡ D.traffic devices.old }
    ensures written { WritesQueued session.old.log.errors session.new.log.errors }
{
    if session.to_errors().is_empty() {
        return false;
    }
    match devices.write_errors(session.to_errors()) {
        Transfer::Bytes(n) => session.errors_took(n),
        Transfer::Nothing => return false,
        Transfer::Interrupted => {}
        // What can never be written is dropped.
        Transfer::Ended(_) => session.errors_took(usize::MAX),
    }
    true
}
