//! A session over one line after the other.
ghost use Rattle.std.specs.Prelude.{◌≡◌, ◌≢◌, ◌⊎◌, ◌<◌, [], Err, Ok, Option, Some, ℕ, false, true};
ghost use Rattle.ddcmp_session.specs.Devices.{BuffersView};
ghost use Rattle.ddcmp_session.specs.Traffic.{Traffic};
ghost use Rattle.ddcmp_session.specs.Lines.{IsReady, ReportsOver, StaysOver};
ghost use Rattle.ddcmp_session.specs.Stopping.{Judges};
ghost use Rattle.ddcmp_session.specs.Timing.{end};
ghost use Rattle.ddcmp_session.specs.declared.devices.DeviceFault.{DeviceFault as FaultValue};

use crate::buffers::Buffers;
use crate::buffers::flow::write_errors;
use crate::buffers::runner::{leave_line, read_clocks};
use crate::devices::{DeviceFault, Devices, Wanted};
use crate::line_end::LineEnd;
use crate::session::{EndReason, Session};

/// The reason why a run ended before all was delivered.
#[derive(Clone, Copy, PartialEq, Eq)]
pub enum Stop<R> {
    /// The line couldn't be opened, for this reason.
    NotOpened(R),
    /// A device failed, or a time limit was reached.
    Device(DeviceFault),
    /// The line was left, and isn't opened again; the station has run over no line.
    Left,
    /// The number of messages that were read and never acknowledged.
    Lost(u64),
    /// The lines have ended, or the time is over, before the input was read to its end.
    Unread,
}

impl Buffers {
    ghost use Rattle.std.specs.Prelude.{◌≡◌, ◌≢◌, ◌⊎◌, ◌<◌, Err, Ok, Some, ℕ, false, is_ok, true};
    ghost use Rattle.std.specs.Prelude.{◌&&◌, [], None, not};
    ghost use Rattle.ddcmp_session.specs.Devices.{GoesOn, KeepsFaults, Reports};
    ghost use Rattle.ddcmp_session.specs.Traffic.{Becomes, after_wait};
    ghost use Rattle.ddcmp_session.specs.Session.{SessionView, takes_end};
    ghost use Rattle.ddcmp_session.specs.Lines.{Closes, Ends, GoesOver, IsReady, MayEndWell};
    ghost use Rattle.ddcmp_session.specs.Lines.{IsReadToEnd, ReportsOver};
    ghost use Rattle.ddcmp_session.specs.Stopping.{HasNotStarted, IfNotOpened, IsLeft};
    ghost use Rattle.ddcmp_session.specs.Stopping.{IsTimeOver, Judges, LeavesLine, Stops};
    ghost use Rattle.ddcmp_session.specs.Timing.{end};
    ghost use Rattle.ddcmp_session.specs.declared.devices.DeviceFault.{DeviceFault as FaultValue};
    ghost use Rattle.ddcmp_session.specs.declared.line_end.LineEnd.{LineEnd as LineEndValue};

    /// Runs a new session over one line after the other, until nothing of the input is left or a
    /// line ends for good, and closes it: messages that were read and aren't acknowledged are lost
    /// then. If none is and the input was read to its end, all is delivered even if the line has
    /// ended or the time is over.
    pub fn run_lines<D: Devices>(
        &mut self,
        session: &mut Session,
        devices: &mut D,
    ) -> Result<(), Stop<D::Refusal>>
        ensures ends { Ends (is_ok result) self.old session.old.state (D.traffic devices.old)
            self.new session.new.state (D.traffic devices.new) }
        ensures stops { (ends : Ends (is_ok result) self.old session.old.state
            (D.traffic devices.old) self.new session.new.state (D.traffic devices.new))
            × Stops result self.old session.old.state (D.traffic devices.old) ends.unclosed
            (D.traffic devices.new) }
        ensures whole { result ≡ Ok tt → session.new.state.course.lost ≡ 0 }
        ensures lost { (count : ℕ) → result ≡ Err (Stop.Lost count)
            → (count ≡ session.new.state.course.lost) × (0 < count) }
        ensures left { result ≡ Err Stop.Left → session.new.state.course.has_run ≡ false }
        ensures unread { result ≡ Err Stop.Unread
            → (self.new.is_over ≡ false) × (session.new.state.course.lost ≡ 0) }
        ensures reports { (fault : FaultValue) → fault ≢ DeviceFault.Time
            → result ≡ Err (Stop.Device fault) → ReportsOver self.old session.old.state
            (D.traffic devices.old) (D.traffic devices.new) fault }
    {
        let ran = self.run_each(session, devices);
        let judged = self.judge(session, devices, ran);
        devices.close_line();
        judged
    }

    /// Runs a session over one line after the other, until all is done or a line ends for good.
    fn run_each<D: Devices>(
        &mut self,
        session: &mut Session,
        devices: &mut D,
    ) -> Result<(), Stop<D::Refusal>>
        ensures over { GoesOver self.old session.old.state (D.traffic devices.old)
            self.new session.new.state (D.traffic devices.new) }
        ensures reports { (fault : FaultValue) → fault ≢ DeviceFault.Time
            → result ≡ Err (Stop.Device fault) → ReportsOver self.old session.old.state
            (D.traffic devices.old) (D.traffic devices.new) fault }
        ensures well { result ≡ Ok tt → MayEndWell session.new.state }
        ensures ended { result ≡ Ok tt → end session.new.state ≡ Some EndReason.Done }
        ensures left { result ≡ Err Stop.Left → IsLeft self.old session.old.state
            (D.traffic devices.old) session.new.state (D.traffic devices.new) }
        ensures shut { IfNotOpened result (session.new.state.options.again ≡ false) }
        ensures time { result ≡ Err (Stop.Device DeviceFault.Time) → IsTimeOver session.new.state }
        ensures unjudged { (count : ℕ) → result ≢ Err (Stop.Lost count) }
        ensures read { result ≢ Err Stop.Unread }
    {
        for _line in 0..u64::MAX {
            let how = match self.run_one(session, devices) {
                Ok(None) => return Ok(()),
                Ok(Some(how)) if session.reopens() => how,
                Ok(Some(_)) => return Err(Stop::Left),
                Err(stop) => return Err(stop),
            };
            self.close_left(session, devices);
            match leave(session, devices, how) {
                Ok(()) => {}
                Err(fault) => return Err(Stop::Device(fault)),
            }
        }
        pass_run(session);
        Err(Stop::Device(DeviceFault::Time))
    }

    /// Closes a line that was left, unless the session restarts over it: then `open_line` keeps it.
    fn close_left<D: Devices>(&self, session: &Session, devices: &mut D)
        ensures { D.traffic devices.new ≡ D.traffic devices.old }
    {
        if !session.restarts() || self.down.is_some() {
            devices.close_line();
        }
    }

    /// Runs a session over a line, until all is done, or it ends; returns how it did.
    fn run_one<D: Devices>(
        &mut self,
        session: &mut Session,
        devices: &mut D,
    ) -> Result<Option<LineEnd>, Stop<D::Refusal>>
        ensures over { GoesOver self.old session.old.state (D.traffic devices.old)
            self.new session.new.state (D.traffic devices.new) }
        ensures reports { (fault : FaultValue) → fault ≢ DeviceFault.Time
            → result ≡ Err (Stop.Device fault) → ReportsOver self.old session.old.state
            (D.traffic devices.old) (D.traffic devices.new) fault }
        ensures well { result ≡ Ok None → MayEndWell session.new.state }
        ensures ended { result ≡ Ok None → end session.new.state ≡ Some EndReason.Done }
        ensures gone { (how : LineEndValue) → result ≡ Ok (Some how)
            → LeavesLine how self.old session.old.state (D.traffic devices.old)
            session.new.state (D.traffic devices.new) }
        ensures left { result ≡ Err Stop.Left → HasNotStarted session.new.state }
        ensures shut { IfNotOpened result (session.new.state.options.again ≡ false) }
        ensures time { result ≡ Err (Stop.Device DeviceFault.Time) → IsTimeOver session.new.state }
        ensures unjudged { (count : ℕ) → result ≢ Err (Stop.Lost count) }
        ensures read { result ≢ Err Stop.Unread }
    {
        match self.begin(session, devices) {
            Ok(true) => {}
            Ok(false) => return Ok(None),
            Err(stop) => return Err(stop),
        }
        match self.run(session, devices) {
            Ok(EndReason::Done) => Ok(None),
            Ok(EndReason::Restarted) if session.is_halted() => Ok(Some(LineEnd::Halted)),
            Ok(EndReason::Restarted) => Ok(Some(LineEnd::Restarted)),
            Ok(EndReason::GivenUp) => Ok(Some(LineEnd::GivenUp)),
            Ok(EndReason::Time) => Err(Stop::Device(DeviceFault::Time)),
            Err(DeviceFault::Line(why)) => {
                session.report_down(why);
                Ok(Some(LineEnd::Down(why)))
            }
            Err(fault) => Err(Stop::Device(fault)),
        }
    }

    /// Opens a line and connects the session to it, unless the time of the run is over first.
    /// Retries if the line can't be opened and that is asked for. Returns false if there is no
    /// line, all is done, and a peer that may have more to send didn't reconnect in time.
    fn begin<D: Devices>(
        &mut self,
        session: &mut Session,
        devices: &mut D,
    ) -> Result<bool, Stop<D::Refusal>>
        ensures over { GoesOver self.old session.old.state (D.traffic devices.old)
            self.new session.new.state (D.traffic devices.new) }
        ensures reports { (fault : FaultValue) → fault ≢ DeviceFault.Time
            → result ≡ Err (Stop.Device fault) → ReportsOver self.old session.old.state
            (D.traffic devices.old) (D.traffic devices.new) fault }
        ensures ended { result ≡ Ok false → end session.new.state ≡ Some EndReason.Done }
        ensures left { result ≡ Err Stop.Left → HasNotStarted session.new.state }
        ensures shut { IfNotOpened result (session.new.state.options.again ≡ false) }
        ensures time { result ≡ Err (Stop.Device DeviceFault.Time) → IsTimeOver session.new.state }
        ensures unjudged { (count : ℕ) → result ≢ Err (Stop.Lost count) }
        ensures read { result ≢ Err Stop.Unread }
    {
        for _try in 0..u64::MAX {
            match self.look_at_input(session, devices) {
                Ok(()) => {}
                Err(fault) => return Err(Stop::Device(fault)),
            }
            let now = read_clocks(session, devices);
            session.pass_time(now);
            match session.end() {
                Some(EndReason::Time) => return Err(Stop::Device(DeviceFault::Time)),
                Some(EndReason::Done) => return Ok(false),
                _ => {}
            }
            match self.try_line(session, devices, now) {
                Ok(true) => return Ok(true),
                Ok(false) => {}
                Err(stop) => return Err(stop),
            }
            // No other wait comes between: it would take the report that the line can be opened.
            write_errors(session, devices);
            if !self.wait_between_lines(session, devices, now) {
                return Err(Stop::Device(DeviceFault::Input));
            }
        }
        pass_run(session);
        Err(Stop::Device(DeviceFault::Time))
    }

    /// Opens a line once it is time to, and returns whether the session was connected to it.
    fn try_line<D: Devices>(
        &mut self,
        session: &mut Session,
        devices: &mut D,
        now: u64,
    ) -> Result<bool, Stop<D::Refusal>>
        ensures over { GoesOver self.old session.old.state (D.traffic devices.old)
            self.new session.new.state (D.traffic devices.new) }
        ensures ready { result ≡ Ok false → IsReady session.old.state → IsReady session.new.state }
        ensures open { (fault : FaultValue) → result ≢ Err (Stop.Device fault) }
        ensures left { result ≡ Err Stop.Left → HasNotStarted session.new.state }
        ensures shut { IfNotOpened result (session.new.state.options.again ≡ false) }
        ensures unjudged { (count : ℕ) → result ≢ Err (Stop.Lost count) }
        ensures read { result ≢ Err Stop.Unread }
    {
        if session.is_halted() {
            return Ok(false);
        }
        if now < session.opens_at() {
            return Ok(false);
        }
        match devices.open_line(session) {
            Ok(true) if self.begin_line(session) => Ok(true),
            Ok(true) => Err(Stop::Left),
            Ok(false) => Ok(false),
            Err(refusal) if !session.retries() => Err(Stop::NotOpened(refusal)),
            Err(refusal) => {
                let seconds = session.open_failed(now);
                devices.report_retry(session, refusal, seconds);
                Ok(false)
            }
        }
    }

    /// Reads what the session wants of the input without a line: commands, or its end, since what
    /// was sent and isn't acknowledged may be all that there was.
    fn look_at_input<D: Devices>(
        &mut self,
        session: &mut Session,
        devices: &mut D,
    ) -> Result<(), DeviceFault>
        ensures on { GoesOn self.old session.old.state (D.traffic devices.old)
            self.new session.new.state (D.traffic devices.new) }
        ensures ready { IsReady session.old.state → IsReady session.new.state }
        ensures reports { (fault : FaultValue) → result ≡ Err fault
            → Reports self.old session.old.state (D.traffic devices.old)
            (D.traffic devices.new) fault }
        ensures untimed { result ≢ Err DeviceFault.Time }
    {
        if session.wants_input() {
            return self.read_commands(session, devices);
        }
        if !self.awaits_end(session) {
            return Ok(());
        }
        match self.read_the_rest(devices) {
            Ok(()) => {}
            Err(fault) => return Err(fault),
        }
        if self.has_ended() {
            session.input_ended();
        }
        Ok(())
    }

    /// Reads the input and passes it to the session, as far as it accepts it.
    fn read_commands<D: Devices>(
        &mut self,
        session: &mut Session,
        devices: &mut D,
    ) -> Result<(), DeviceFault>
        ensures on { GoesOn self.old session.old.state (D.traffic devices.old)
            self.new session.new.state (D.traffic devices.new) }
        ensures ready { IsReady session.old.state → IsReady session.new.state }
        ensures reports { (fault : FaultValue) → result ≡ Err fault
            → Reports self.old session.old.state (D.traffic devices.old)
            (D.traffic devices.new) fault }
        ensures untimed { result ≢ Err DeviceFault.Time }
    {
        match self.read_input(session, devices) {
            Ok(_moved) => {}
            Err(fault) => return Err(fault),
        }
        match self.pass_input(session, devices) {
            Ok(_moved) => Ok(()),
            Err(fault) => Err(fault),
        }
    }

    /// Returns whether all of the input was read and used.
    fn has_ended(&self) -> bool
        ensures empty { result ≡ true → self.now.input ≡ [] }
        ensures over { result ≡ true → self.now.is_over ≡ true }
    {
        self.input_is_over && self.input.is_empty()
    }

    /// Returns whether the input is to be read without a line, since its end may be all that is
    /// left of it.
    fn awaits_end(&self, session: &Session) -> bool
        ensures empty { result ≡ true → self.now.input ≡ [] }
        ensures goes_on { result ≡ true → self.now.is_over ≡ false }
        ensures takes { result ≡ true → takes_end session.now.state ≡ true }
    {
        !self.input_is_over && self.input.is_empty() && session.takes_end()
    }

    /// Waits while there is no line; returns false if the wait failed.
    fn wait_between_lines<D: Devices>(&self, session: &Session, devices: &mut D, now: u64) -> bool
        ensures { Becomes (D.traffic devices.old) (D.traffic devices.new) (after_wait result) }
    {
        let wanted = Wanted {
            input: self.awaits_end(session) || self.wants_input(session),
            output: false,
            errors: !session.to_errors().is_empty(),
            from_line: false,
            to_line: false,
        };
        let moment = session.wakes_without_line_at(now);
        devices.wait(wanted, moment.saturating_sub(now))
    }

    /// Closes the session after its lines, and returns how the run ended.
    fn judge<D: Devices>(
        &mut self,
        session: &mut Session,
        devices: &mut D,
        ran: Result<(), Stop<D::Refusal>>,
    ) -> Result<(), Stop<D::Refusal>>
        requires unjudged { (count : ℕ) → ran ≢ Err (Stop.Lost count) }
        requires read { ran ≢ Err Stop.Unread }
        requires well { ran ≡ Ok tt → MayEndWell session.old.state }
        requires done { ran ≡ Ok tt → session.old.state.is_read ≡ true }
        ensures on { GoesOn self.old session.old.state (D.traffic devices.old)
            self.new session.old.state (D.traffic devices.new) }
        ensures closes { Closes self.new session.old.state session.new.state }
        ensures well { is_ok result ≡ true → MayEndWell session.old.state }
        ensures read_to_end { is_ok result ≡ true → IsReadToEnd self.new session.old.state }
        ensures judges { Judges ran result }
        ensures keeps { KeepsFaults (D.traffic devices.old) (D.traffic devices.new) }
        ensures whole { result ≡ Ok tt → session.new.state.course.lost ≡ 0 }
        ensures lost { (count : ℕ) → result ≡ Err (Stop.Lost count)
            → (count ≡ session.new.state.course.lost) × (0 < count) }
        ensures left { result ≡ Err Stop.Left → session.new.state.course.has_run ≡ false }
        ensures unread { result ≡ Err Stop.Unread
            → (self.new.is_over ≡ false) × (session.new.state.course.lost ≡ 0) }
        ensures reports { (fault : FaultValue) → fault ≢ DeviceFault.Time
            → result ≡ Err (Stop.Device fault)
            → ((ran ≡ result) × (D.traffic devices.new ≡ D.traffic devices.old))
            ⊎ Reports self.old session.old.state (D.traffic devices.old)
            (D.traffic devices.new) fault }
    {
        let has_run = session.has_run();
        let reads = has_run && is_over(&ran) && !session.has_read_input();
        let read = self.read_if(devices, reads);
        let has_more = self.has_more(session);
        self.close(session);
        match read {
            Ok(()) => verdict(ran, has_run, session.lost(), has_more),
            Err(fault) => Err(Stop::Device(fault)),
        }
    }

    /// Returns whether there may be more input than was read.
    fn has_more(&self, session: &Session) -> bool
        ensures { result ≡ (not self.now.is_over && (not session.now.state.is_read
            && session.now.state.options.awaits_end)) }
    {
        !self.input_is_over && session.awaits_end()
    }

    /// Reads what the input has now, if it is to be read.
    fn read_if<D: Devices>(&mut self, devices: &mut D, reads: bool) -> Result<(), DeviceFault>
        ensures on { (session : SessionView) → GoesOn self.old session (D.traffic devices.old)
            self.new session (D.traffic devices.new) }
        ensures reports { (session : SessionView) (fault : FaultValue) → result ≡ Err fault
            → Reports self.old session (D.traffic devices.old) (D.traffic devices.new) fault }
        ensures stays { reads ≡ false → D.traffic devices.new ≡ D.traffic devices.old }
        ensures keeps { KeepsFaults (D.traffic devices.old) (D.traffic devices.new) }
        ensures untimed { result ≢ Err DeviceFault.Time }
    {
        if reads {
            self.read_the_rest(devices)
        } else {
            Ok(())
        }
    }
}

/// Returns whether the lines ended in a way in which all may be delivered nevertheless.
fn is_over<R>(ran: &Result<(), Stop<R>>) -> bool
    ensures device { (fault : FaultValue) → fault ≢ DeviceFault.Time
        → ran.now ≡ Err (Stop.Device fault) → result ≡ false }
    ensures left { ran.now ≡ Err Stop.Left → result ≡ true }
    ensures over { result ≡ true
        → (ran.now ≡ Err Stop.Left) ⊎ (ran.now ≡ Err (Stop.Device DeviceFault.Time)) }
{
    matches!(ran, Err(Stop::Left | Stop::Device(DeviceFault::Time)))
}

/// Returns how a run ended, from how its lines ended, whether the station has run, the number of
/// lost messages and whether there may be more input than was read.
fn verdict<R: Copy>(
    ran: Result<(), Stop<R>>,
    has_run: bool,
    lost: u64,
    has_more: bool,
) -> Result<(), Stop<R>>
    requires unjudged { (count : ℕ) → ran ≢ Err (Stop.Lost count) }
    requires read { ran ≢ Err Stop.Unread }
    ensures whole { result ≡ Ok tt → lost ≡ 0 }
    ensures lost { (count : ℕ) → result ≡ Err (Stop.Lost count)
        → (count ≡ lost) × (0 < count) }
    ensures left { result ≡ Err Stop.Left → has_run ≡ false }
    ensures well { result ≡ Ok tt → (ran ≡ result) ⊎ (has_run ≡ true) }
    ensures read { result ≡ Ok tt → (ran ≡ result) ⊎ (has_more ≡ false) }
    ensures unread { result ≡ Err Stop.Unread → (has_more ≡ true) × (lost ≡ 0) }
    ensures device { (fault : FaultValue) → result ≡ Err (Stop.Device fault) → ran ≡ result }
    ensures judges { Judges ran result }
{
    let is_over = is_over(&ran);
    if lost > 0 && (is_over || ran.is_ok()) {
        return Err(Stop::Lost(lost));
    }
    if is_over && has_run {
        return if has_more { Err(Stop::Unread) } else { Ok(()) };
    }
    ran
}

/// Leaves a line that has ended so, and sets the pause before the next one is opened, if there is
/// one.
fn leave<D: Devices>(
    session: &mut Session,
    devices: &mut D,
    how: LineEnd,
) -> Result<(), DeviceFault>
    ensures over { (held : BuffersView) → StaysOver held session.old.state (D.traffic devices.old)
        held session.new.state (D.traffic devices.new) }
    ensures ready { result ≡ Ok tt → IsReady session.new.state }
    ensures reports { (held : BuffersView) (fault : FaultValue) → fault ≢ DeviceFault.Time
        → result ≡ Err fault → ReportsOver held session.old.state (D.traffic devices.old)
        (D.traffic devices.new) fault }
    ensures time { result ≡ Err DeviceFault.Time
        → (end session.new.state ≡ Some EndReason.Time) ⊎ (session.new.state.output.waiting ≢ []) }
{
    match leave_line(session, devices, how) {
        Ok(()) => {}
        Err(fault) => {
            note_time(session, fault);
            return Err(fault);
        }
    }
    let now = read_clocks(session, devices);
    if let Some(seconds) = session.pause_after_line(now) {
        session.report_pause(seconds);
    }
    Ok(())
}

/// Passes the time of the run, if an output timed out for which nothing is queued.
fn note_time(session: &mut Session, fault: DeviceFault)
    ensures over { (held : BuffersView) (known : Option Traffic)
        → StaysOver held session.old.state known held session.new.state known }
    ensures time { fault ≡ DeviceFault.Time
        → (end session.new.state ≡ Some EndReason.Time) ⊎ (session.new.state.output.waiting ≢ []) }
{
    if fault == DeviceFault::Time && session.to_output().is_empty() {
        pass_run(session);
    }
}

/// Passes the time of the run: this many lines or calls take longer than any run.
fn pass_run(session: &mut Session)
    ensures over { (held : BuffersView) (known : Option Traffic)
        → StaysOver held session.old.state known held session.new.state known }
    ensures time { end session.new.state ≡ Some EndReason.Time }
{
    let now = session.run_ends_at();
    session.pass_time(now);
}
