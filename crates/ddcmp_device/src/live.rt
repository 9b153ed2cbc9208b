//! The system of a bridge: two lines, standard error and a clock.
ghost use Rattle.std.specs.Prelude.{◌≡◌, ◌≤◌, IfOk, length};
ghost use Rattle.ddcmp_device.specs.Inside.Lives.{plan};
ghost use Rattle.ddcmp_ports.specs.Moving.{count_moved};

use crate::live_line::{LiveLine, moved_by, wanted_of};
use crate::poller::{Descriptor, reported_by};
use crate::standard_stream::{StandardStream, write_errors};
use crate::system::System;
use ddcmp_bridge::{BridgeEnd, TwoLines};
use ddcmp_ports::{self as ports, Buffers, LastCalls, LineEvent, Machine, Opening, Port, Transfer};
use ddcmp_station::{Clock, Elapsed};
use mio::{Events, Interest, Poll, Token};
use std::alloc::Global;
use std::fmt::InlineText;
use std::io;
use std::time::Duration;

const ERRORS: Token = Token(0);

/// The room for the line of an event, which has two addresses at most.
const EVENT_ROOM: usize = 256;

/// The longest single wait, in milliseconds.
const HOUR_MS: u64 = 3_600_000;

/// Two lines, standard error and a clock, on the system's devices.
pub(crate) struct Live<'a, S> {
    system: &'a S,
    clock: Elapsed<'a, S>,
    /// The moment that it returned last.
    moment: u64,
    poll: Poll,
    events: Events,
    first: LiveLine<'a>,
    second: LiveLine<'a>,
    errors: StandardStream,
    errors_there: Descriptor,
    first_last: LastCalls,
    second_last: LastCalls,
    errors_last: LastCalls,
}

// Manual, since a derived `Drop` would be expanded wherever a value is dropped.
impl<S> Drop for Live<'_, S> {
    fn drop(self) {
        let Live {
            system: _,
            clock: _clock,
            moment: _,
            poll: _poll,
            events: _events,
            first: _first,
            second: _second,
            errors: _errors,
            errors_there: _,
            first_last: _,
            second_last: _,
            errors_last: _,
        } = self;
    }
}

impl<'a, S: System> Live<'a, S> {
    /// Makes a system with two lines, which aren't open yet.
    pub(crate) fn new(
        system: &'a S,
        alloc: Global,
        first: LiveLine<'a>,
        second: LiveLine<'a>,
    ) -> io::Result<Live<'a, S>>
        ensures { IfOk result (λ made. (plan made.first ≡ plan first.entry)
            × (plan made.second ≡ plan second.entry)) }
    {
        let poll = Poll::new(system)?;
        let events = Events::with_capacity(alloc, 8)?;
        let errors_there = Descriptor::new(&poll, 2, ERRORS, Interest::WRITABLE);
        Ok(Live {
            system,
            clock: Elapsed::new(system),
            moment: 0,
            poll,
            events,
            first,
            second,
            errors: StandardStream::new(system, "/dev/stderr"),
            errors_there,
            first_last: LastCalls::NONE,
            second_last: LastCalls::NONE,
            errors_last: LastCalls::NONE,
        })
    }

    /// Returns the counters, with the bytes that were dropped here counted as skipped.
    pub(crate) fn counted(&self, end: BridgeEnd) -> BridgeEnd {
        BridgeEnd {
            there: self.first.counted(end.there),
            back: self.second.counted(end.back),
            ..end
        }
    }

    /// Writes bytes to standard error.
    fn print(&mut self, bytes: &[u8]) -> Transfer
        ensures fits { count_moved result ≤ length bytes.now }
        ensures moment { self.new.moment ≡ self.old.moment }
        ensures first { self.new.first_last ≡ self.old.first_last }
        ensures second { self.new.second_last ≡ self.old.second_last }
        ensures errors { self.new.errors_last ≡ self.old.errors_last }
    {
        let there = &mut self.errors_there;
        moved_by(write_errors(self.system, &mut self.errors, there, bytes))
    }

    /// Prints what is to be reported of a line; returns it if standard error isn't ready.
    fn print_event(&mut self, event: Option<LineEvent>) -> Option<LineEvent>
        ensures moment { self.new.moment ≡ self.old.moment }
    {
        let text = InlineText::<EVENT_ROOM>::of(event?).and_str("\n", EVENT_ROOM);
        match self.print(text.as_str().as_bytes()) {
            Transfer::Bytes(0) | Transfer::Nothing => event,
            Transfer::Bytes(_) | Transfer::Over(_) => None,
        }
    }

    /// Prints what is to be reported of both lines, while nothing else is to be printed; returns
    /// whether some is left.
    fn print_events(&mut self) -> bool
        ensures moment { self.new.moment ≡ self.old.moment }
    {
        let (first, second) = (self.first.event, self.second.event);
        self.first.event = self.print_event(first);
        self.second.event = self.print_event(second);
        self.first.event.is_some() || self.second.event.is_some()
    }

    /// Waits until something is ready, at most this many milliseconds; returns whether it could.
    fn wait_for(&mut self, most_ms: u64) -> bool {
        let most = Some(Duration::from_millis(most_ms.min(HOUR_MS)));
        if self.poll.poll(&mut self.events, most).is_err() {
            return false;
        }
        for event in self.events.iter() {
            let reported = reported_by(event);
            if event.token() == ERRORS {
                self.errors_there.ready.add(reported);
            }
            self.first.place.note(event.token(), reported);
            self.second.place.note(event.token(), reported);
        }
        true
    }
}

impl<S: System> TwoLines for Live<'_, S> {
    ghost first = { λ l. plan l.first };

    ghost second = { λ l. plan l.second };
}

impl<S: System> ports::System for Live<'_, S> {
    ghost use Rattle.std.specs.Prelude.{None};
    ghost use Rattle.ddcmp_device.specs.Inside.Lives.{stuck_of};

    ghost trace = { λ _ _. None };

    ghost stuck = { stuck_of };

    ghost moment = { λ l. l.moment };

    fn read(&mut self, port: Port, space: &mut [u8]) -> Transfer {
        match port {
            Port::First => {
                let got = self.first.read(self.system, self.moment, space);
                self.first_last.read(got)
            }
            Port::Second => {
                let got = self.second.read(self.system, self.moment, space);
                self.second_last.read(got)
            }
            Port::Input | Port::Output | Port::Errors => Transfer::Nothing,
        }
    }

    fn write(&mut self, port: Port, bytes: &[u8]) -> Transfer {
        match port {
            Port::First => self.first_last.write(self.first.write(self.moment, bytes)),
            Port::Second => self
                .second_last
                .write(self.second.write(self.moment, bytes)),
            Port::Errors => {
                let took = self.print(bytes);
                self.errors_last.write(took)
            }
            Port::Input | Port::Output => Transfer::Nothing,
        }
    }

    fn open(&mut self, port: Port) -> Opening {
        match port {
            Port::First => self
                .first_last
                .opening(self.first.open(self.system, &self.poll)),
            Port::Second => self
                .second_last
                .opening(self.second.open(self.system, &self.poll)),
            Port::Input | Port::Output | Port::Errors => Opening::Later,
        }
    }

    fn shut(&mut self, port: Port) {
        match port {
            Port::First => self.first.shut(),
            Port::Second => self.second.shut(),
            Port::Input | Port::Output | Port::Errors => {}
        }
    }

    fn close(&mut self, port: Port) {
        match port {
            Port::First => self.first.close(&mut self.clock),
            Port::Second => self.second.close(&mut self.clock),
            Port::Input | Port::Output | Port::Errors => {}
        }
    }

    fn poll(&mut self) {
        self.first.place.ask(&self.poll, true, true);
        self.second.place.ask(&self.poll, true, true);
        self.errors_there.ask(&self.poll, false, true);
        let _could_wait = self.wait_for(0);
    }

    fn wait<M: Machine>(&mut self, machine: &M, _held: &Buffers, most_ms: u64) -> bool {
        let first = wanted_of(machine, Port::First);
        let second = wanted_of(machine, Port::Second);
        let errors = !machine.pending(Port::Errors).is_empty() || self.print_events();
        let most_ms = self.first.wait_ms(&self.poll, first, self.moment, most_ms);
        let most_ms = self
            .second
            .wait_ms(&self.poll, second, self.moment, most_ms);
        self.errors_there.ask(&self.poll, false, errors);
        let is_ready = errors && self.errors_there.ready.to_write;
        self.wait_for(if is_ready { 0 } else { most_ms })
    }

    fn now(&mut self) -> u64 {
        self.moment = self.clock.now();
        self.moment
    }
}
