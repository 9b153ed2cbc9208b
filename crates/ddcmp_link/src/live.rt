//! The devices of a link, on the system.
ghost use Rattle.std.specs.Prelude.{◌≡◌, ◌≤◌, ◌↔◌, length};
ghost use Rattle.ddcmp_device.specs.StandardStreams.{at_once};
ghost use Rattle.ddcmp_io.specs.Transfers.{count_moved};
ghost use Rattle.ddcmp_link.specs.Events.{Reports, ReportsOpened};
ghost use Rattle.ddcmp_session.specs.Traffic.{count_read};

use ddcmp_device::{
    Descriptor, Framing, Line, Opened, Opener, Pace, Poller, StandardStream, System, write_errors,
};
use ddcmp_frame::ReaderRefusal;
use ddcmp_io::{Down, Got, Sink, Source, Transfer, Wanted, Worst};
use ddcmp_ports::{DeviceOpened, LineEvent, LineName, OpenRefusal, Retry};
use ddcmp_session::{Buffers, Devices, Session};
use ddcmp_station::Clock;
use std::alloc::Global;
use std::fmt::InlineText;
use std::io::{Eprint, ErrorKind};

/// Standard input, output and error, a line and a clock.
pub(crate) struct Live<'a, S, C, R, W> {
    system: &'a S,
    poller: Poller,
    name: LineName<'a>,
    opener: Opener<'a>,
    line: Option<Line>,
    clock: C,
    reader: &'a mut R,
    writer: &'a mut W,
    output: StandardStream,
    errors: StandardStream,
    /// The pace at which a device is written to.
    pace: Pace,
    /// Finds the end of the last whole frame in a datagram, if the line is one of datagrams.
    framing: Option<Framing>,
    /// What the last read of the line has found beside its bytes, and from when on that is reported
    /// again.
    event: Option<LineEvent>,
    event_at: u64,
}

// Manual, since a derived `Drop` would be expanded wherever a value is dropped.
impl<S, C: Drop, R, W> Drop for Live<'_, S, C, R, W> {
    fn drop(self) {
        let Live {
            system: _,
            poller: _poller,
            name: _,
            opener: _opener,
            line: _line,
            clock: _clock,
            reader: _,
            writer: _,
            output: _output,
            errors: _errors,
            pace: _,
            framing: _framing,
            event: _,
            event_at: _,
        } = self;
    }
}

/// The parts that a session's devices are made of.
pub(crate) struct Parts<'a, S, C, R, W> {
    pub(crate) system: &'a S,
    pub(crate) poller: Poller,
    pub(crate) name: LineName<'a>,
    /// The host whose callers are accepted; if there is none, all are.
    pub(crate) only: Option<&'a str>,
    /// The speed at which a device is written to; 0 if it isn't known.
    pub(crate) baud: u32,
    pub(crate) clock: C,
    pub(crate) reader: &'a mut R,
    pub(crate) writer: &'a mut W,
}

impl<'a, S: System, C: Clock + Drop, R: Source, W: Sink> Live<'a, S, C, R, W> {
    /// Makes the devices, without a line. It allocates all memory that it will need. If the line is
    /// one of datagrams, `datagrams` is the maximum length of a message.
    pub(crate) fn new(
        parts: Parts<'a, S, C, R, W>,
        alloc: Global,
        datagrams: Option<u16>,
    ) -> Result<Self, ReaderRefusal> {
        let Parts {
            system,
            poller,
            name,
            only,
            baud,
            clock,
            reader,
            writer,
        } = parts;
        let framing = match datagrams {
            Some(max) => Some(Framing::new(alloc, max.max(1))?),
            None => None,
        };
        Ok(Live {
            system,
            poller,
            name,
            opener: Opener::new(name, only),
            line: None,
            clock,
            reader,
            writer,
            output: StandardStream::new(system, "/dev/stdout"),
            errors: StandardStream::new(system, "/dev/stderr"),
            pace: Pace::new(baud),
            framing,
            event: None,
            event_at: 0,
        })
    }

    /// Has the owner of standard output write some of the pending bytes.
    fn write_by_owner(&mut self, bytes: &[u8]) -> Transfer
        ensures { count_moved result ≤ length (at_once self.old.output bytes.now) }
    {
        let bytes = self.output.piece(bytes);
        if bytes.is_empty() {
            return Transfer::Nothing;
        }
        if self.writer.failed() {
            return FAILED;
        }
        match self.writer.write(bytes) {
            Some(n) => Transfer::Bytes(n),
            None => FAILED,
        }
    }
}

/// A write by the owner of an output failed.
const FAILED: Transfer = Transfer::Ended(Down::Failed(ErrorKind::Other));

/// For how long such an event isn't reported again, in milliseconds.
const EVENT_MS: u64 = 60_000;

/// Reads an input, if it is ready. An input that has failed stays failed.
fn read_ready<R: Source>(reader: &mut R, there: &mut Descriptor, space: &mut [u8]) -> Got
    ensures failed { (result ≡ Got.Failed) ↔ (R.state reader.new ≡ Worst.Failed) }
    ensures fits { count_read result ≤ length space.new }
{
    if reader.worst() == Worst::Failed {
        return Got::Failed;
    }
    if !there.ready.to_read {
        return Got::Idle;
    }
    there.has_read();
    reader.read(space)
}

/// Writes to a stream that was opened again; returns none if its owner is to write, who then gets
/// the error.
fn written(stream: &mut StandardStream, there: &mut Descriptor, bytes: &[u8]) -> Option<Transfer> {
    let moved = stream.write(bytes);
    match moved {
        Some(Transfer::Bytes(_) | Transfer::Interrupted) => moved,
        Some(Transfer::Nothing) => {
            there.has_written();
            moved
        }
        Some(Transfer::Ended(_)) | None => {
            there.has_written();
            None
        }
    }
}

/// Reports an event of the line on standard error, if there is one.
fn report(session: &mut Session, event: Option<LineEvent>)
    ensures state { session.new.state ≡ session.old.state }
    ensures errors { Reports event session.old.log.errors session.new.log.errors }
    ensures log { session.new.log ≡ record session.old.log { errors = session.new.log.errors } }
{
    if let Some(event) = event {
        session.report(&InlineText::of(event));
    }
}

/// Reports how far the opening of a line of this name has come.
fn report_opened(session: &mut Session, name: LineName<'_>, opened: &Opened)
    ensures state { session.new.state ≡ session.old.state }
    ensures errors { ReportsOpened name.entry opened.now session.old.log.errors
        session.new.log.errors }
    ensures log { session.new.log ≡ record session.old.log { errors = session.new.log.errors } }
{
    match (name, opened) {
        (LineName::Device(path), Opened::Line(_)) => {
            session.report(&InlineText::of(DeviceOpened { path }));
        }
        _ => report(session, opened.event()),
    }
}

impl<S: System, C: Clock + Drop, R: Source, W: Sink> Devices for Live<'_, S, C, R, W> {
    ghost use Rattle.std.specs.Prelude.{IfOk, Ok, OnErr, None, Some, false, is_some, true};
    ghost use Rattle.ddcmp_link.specs.Events.{HasReported, Reports, ReportsOpened};
    ghost use Rattle.std.specs.Prelude.{◌⊎◌, Option};
    ghost use Rattle.ddcmp_ports.specs.declared.event.LineEvent.{LineEvent};
    ghost use Rattle.ddcmp_ports.specs.Events.{retry_text};
    ghost use Rattle.ddcmp_ports.specs.LineNames.{line_kind, open_fault_of};
    ghost use Rattle.ddcmp_device.specs.Opening.{SameIfNotYet, Opens, line_of};
    ghost use Rattle.ddcmp_device.specs.declared.opener.Opened.{Opened};

    ghost traffic = { λ _. None };

    type Refusal = OpenRefusal;

    fn open_line(&mut self, session: &mut Session) -> Result<bool, OpenRefusal>
        ensures session { session.new.state ≡ session.old.state }
        ensures log { session.new.log
            ≡ record session.old.log { errors = session.new.log.errors } }
        ensures kept { is_some self.old.line ≡ true → (result ≡ Ok true)
            × (self.new ≡ self.old) × (session.new ≡ session.old) }
        ensures reports { is_some self.old.line ≡ false → IfOk result (λ is_open. (opened : Opened)
            × Opens (line_kind self.old.opener.name) opened
            × SameIfNotYet self.old.opener.connecting self.new.opener.connecting opened
            × SameIfNotYet self.old.opener.listener self.new.opener.listener opened
            × (self.new.line ≡ line_of opened) × (is_open ≡ is_some (line_of opened))
            × ReportsOpened self.old.name opened session.old.log.errors
            session.new.log.errors) }
        ensures refused { OnErr result (session.new ≡ session.old) }
    {
        if self.line.is_some() {
            return Ok(true);
        }
        let opened = {
            let Poller { poll, line, .. } = &mut self.poller;
            self.opener.open(self.system, poll, line)?
        };
        report_opened(session, self.name, &opened);
        self.line = opened.into_line();
        Ok(self.line.is_some())
    }

    fn report_retry(&mut self, session: &mut Session, refusal: OpenRefusal, seconds: u64)
        ensures session { session.new.state ≡ session.old.state }
        ensures log { session.new.log
            ≡ record session.old.log { errors = session.new.log.errors } }
        ensures reports { HasReported
            (retry_text (record { fault = open_fault_of self.old.name refusal; seconds = seconds }))
            session.old.log.errors session.new.log.errors }
    {
        let fault = self.name.open_fault(refusal);
        session.report(&InlineText::of(Retry { fault, seconds }));
    }

    fn close_line(&mut self) {
        if let Some(line) = self.line.take() {
            line.close(&mut self.clock);
        }
        self.poller.line.forget();
    }

    fn read_input(&mut self, space: &mut [u8]) -> Got {
        read_ready(&mut *self.reader, &mut self.poller.input, space)
    }

    fn may_read_line(&self) -> bool {
        self.poller.line.may_read()
    }

    fn read_line(&mut self, space: &mut [u8]) -> Transfer {
        let Some(line) = &mut self.line else {
            return Transfer::Ended(Down::Closed);
        };
        let got = line.read(space, &mut self.event);
        self.poller.line.was_read(got == Transfer::Nothing);
        match (got, &mut self.framing) {
            // No frame continues in the next datagram, so an incomplete one is dropped.
            (Transfer::Bytes(n), Some(framing)) => {
                let n = n.min(space.len());
                let unfinished = framing.unfinished(&space[..n]);
                Transfer::Bytes(n.saturating_sub(unfinished))
            }
            (Transfer::Bytes(n), None) => Transfer::Bytes(n.min(space.len())),
            (got, _) => got,
        }
    }

    fn report_read(&mut self, session: &mut Session)
        ensures session { session.new.state ≡ session.old.state }
        ensures log { session.new.log
            ≡ record session.old.log { errors = session.new.log.errors } }
        ensures reports { (event : Option LineEvent)
            × ((event ≡ None) ⊎ (event ≡ self.old.event))
            × Reports event session.old.log.errors session.new.log.errors }
    {
        let Some(event) = self.event.take() else {
            return;
        };
        let now = self.clock.now();
        if self.event_at <= now {
            self.event_at = now.saturating_add(EVENT_MS);
            report(session, Some(event));
        }
    }

    fn write_line(&mut self, bytes: &[u8]) -> Transfer {
        let Some(line) = &mut self.line else {
            return Transfer::Ended(Down::Closed);
        };
        if !self.poller.line.may_write() {
            return Transfer::Nothing;
        }
        if !self.pace.is_on() {
            let took = line.write(bytes);
            self.poller.line.was_written(took == Transfer::Nothing);
            return took;
        }
        let now = self.clock.now();
        let most = self.pace.room(now).min(bytes.len());
        if most == 0 {
            return Transfer::Nothing;
        }
        let took = line.write(&bytes[..most]);
        self.pace.given(now, took.count());
        self.poller.line.was_written(took == Transfer::Nothing);
        took
    }

    fn write_output(&mut self, bytes: &[u8]) -> Transfer {
        if !self.poller.output.ready.to_write {
            return Transfer::Nothing;
        }
        match written(&mut self.output, &mut self.poller.output, bytes) {
            Some(moved) => moved,
            None => self.write_by_owner(bytes),
        }
    }

    fn write_errors(&mut self, bytes: &[u8]) -> Transfer {
        write_errors(
            self.system,
            &mut self.errors,
            &mut self.poller.errors,
            bytes,
        )
    }

    fn rest(&mut self, session: &Session, buffers: &Buffers, most_ms: u64) -> bool {
        // Who starts has the line, and others learn it at once.
        if session.peer_has_started() {
            self.opener.refuse_callers();
        }
        let mut wanted = buffers.wanted(session);
        if !self.pace.is_on() {
            return self.poller.wait(wanted, most_ms);
        }
        let paced_ms = self.pace.wait_ms(self.clock.now());
        if wanted.to_line && paced_ms > 0 {
            wanted.to_line = false;
            return self.poller.wait(wanted, most_ms.min(paced_ms));
        }
        self.poller.wait(wanted, most_ms)
    }

    fn wait(&mut self, wanted: Wanted, most_ms: u64) -> bool {
        self.poller.wait(wanted, most_ms)
    }

    fn now(&mut self) -> u64 {
        self.clock.now()
    }

    fn time_of_day(&mut self) -> Option<u64> {
        let since_1970 = self.system.since_1970().ok()?;
        u64::try_from(since_1970.as_millis()).ok()
    }
}
