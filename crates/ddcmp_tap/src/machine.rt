//! A tap between two lines, as a machine.
ghost use Rattle.std.specs.Prelude.{◌≡◌, ◌+◌, ◌<◌, ◌≤◌, ◌⊎◌, [], IfOk, None, Some, ℕ, false};
ghost use Rattle.std.specs.Prelude.{length};
ghost use Rattle.std.specs.Prelude.{if◌then◌else◌, is_some, List, IsOk, true};
ghost use Rattle.ddcmp_frame.specs.Limits.{MAX_COUNT};
ghost use Rattle.ddcmp_log.specs.Logged.{logged_last};
ghost use Rattle.ddcmp_log.specs.Items.{HasTold};
ghost use Rattle.ddcmp_log.specs.declared.side.Side.TheVariants.{Caller, Called};
ghost use Rattle.ddcmp_ports.specs.Running.{Event};
ghost use Rattle.ddcmp_tap.specs.Tapping.{Taps, log_at, stamp_of};

use crate::direction::Direction;
use crate::reports::TapReports;
use crate::tap_fault::TapFault;
use crate::tap_log::TapLog;
use ddcmp_io::MemorySink;
use ddcmp_log::{NoMemory, Side, Stamp};
use ddcmp_ports::{Down, Machine, Need, News, Port};
use std::alloc::Global;
use std::marker::Model;

/// Why a tap stops its run.
#[derive(Clone, Copy)]
pub enum TapPause {
    /// Lines of its log are to be written.
    Logging,
    /// Both sides have ended, or one has failed.
    Ended(Result<(), TapFault>),
}

/// Forwards the bytes of each of two lines to the other, and logs them.
///
/// It is a machine for `ddcmp_ports::run`, with a caller at `Port::First` and the side that it
/// called at `Port::Second`; both are open. A run pauses whenever it has lines for its log.
pub struct Tap {
    log: TapLog,
    /// From the caller to the side that was called.
    up: Direction,
    down: Direction,
    /// The lines that weren't written yet.
    text: MemorySink,
    /// How many bytes of lines were written.
    written: u64,
    /// The moment that was passed last.
    moment: u64,
    fault: Option<TapFault>,
    reports: TapReports,
}

// Manual, since a derived `Drop` would be expanded wherever a value is dropped.
impl Drop for Tap {
    fn drop(self) {
        let Tap {
            log: _,
            up: _up,
            down: _down,
            text: _text,
            written: _,
            moment: _,
            fault: _,
            reports: _reports,
        } = self;
    }
}

impl Model for Tap {
    ghost use Rattle.std.specs.Prelude.{◌≡◌, false};
    ghost use Rattle.ddcmp_log.specs.declared.side.Side.TheVariants.{Caller, Called};
    ghost use Rattle.ddcmp_tap.specs.Forwarding.{IsOf};
    ghost use Rattle.ddcmp_tap.specs.Tapping.{IsOwn, TapView};

    ghost Value = { TapView };

    ghost view = { λ t. record {
      log = t.log;
      up = t.up;
      down = t.down;
      text = t.text.bytes.items;
      written = t.written;
      moment = t.moment;
      fault = t.fault;
      reports = t.reports;
    } };

    ghost invariant = { λ t. (t.text.refused ≡ false)
        × IsOf Caller t.log.notation t.log.max t.up.log
        × IsOf Called t.log.notation t.log.max t.down.log × IsOwn t.fault };
}

impl Tap {
    /// Makes a tap between two lines over which nothing has come. Only the memory for its lines is
    /// allocated later.
    pub fn new(alloc: Global, log: TapLog) -> Result<Tap, NoMemory>
        requires low { 0 < log.max }
        requires high { log.max ≤ MAX_COUNT }
        ensures taps { IfOk result (λ made. Taps made []) }
        ensures log { IfOk result (λ made. made.log ≡ log) }
        ensures written { IfOk result (λ made. made.written ≡ 0) }
    {
        Ok(Tap {
            log,
            up: Direction::new(alloc, Side::Caller, log.notation, log.max)?,
            down: Direction::new(alloc, Side::Called, log.notation, log.max)?,
            text: MemorySink::new(alloc),
            written: 0,
            moment: 0,
            fault: None,
            reports: TapReports::new(alloc, log.report),
        })
    }

    /// Returns what lines of now begin with, if with a time.
    fn stamp(&self) -> Option<Stamp>
        ensures { result ≡ stamp_of self.now }
    {
        self.log.stamp_at(self.moment)
    }

    /// Ends it with this fault, unless it had one; returns that with which it ends.
    fn fail(&mut self, fault: TapFault) -> TapFault
        requires { (fault ≡ TapFault.Read) ⊎ (fault ≡ TapFault.Write) }
        ensures fault { self.new ≡ record self.old { fault = Some result } }
        ensures has { (h : List Event) → Taps self.old h → Taps self.new h }
    {
        let fault = self.fault.unwrap_or(fault);
        self.fault = Some(fault);
        fault
    }

    /// Returns the lines that are to be written.
    pub(crate) fn text(&self) -> &[u8]
        ensures { result.now ≡ self.now.text }
    {
        self.text.bytes.as_slice()
    }

    /// Notes that these were written. More than 2^64 - 1 bytes can't be: returns whether they were
    /// counted.
    pub(crate) fn was_logged(&mut self) -> bool
        ensures counted { result ≡ true → self.new ≡ record self.old {
          text = [];
          written = self.old.written + length self.old.text;
        } }
    {
        match self.written.checked_add(self.text().len() as u64) {
            Some(written) => {
                self.written = written;
                self.text.clear();
                true
            }
            None => false,
        }
    }

    /// Makes the last line of a side.
    pub(crate) fn finish(&mut self, side: Side) -> Result<(), NoMemory>
        ensures stays { self.new ≡ record self.old { text = self.new.text } }
        ensures last { IsOk result → (told : List ℕ)
            → HasTold (log_at side self.old).frames (log_at side self.old).items told
            → self.new.text ≡ logged_last self.old.log.notation
            (stamp_of self.old) side self.old.log.max told }
    {
        let stamp = self.stamp();
        self.text.clear();
        let finished = match side {
            Side::Caller => self.up.log().finish(&mut self.text, stamp),
            Side::Called => self.down.log().finish(&mut self.text, stamp),
        };
        if finished.is_err() || self.text.refused {
            self.text.clear();
            return Err(NoMemory);
        }
        Ok(())
    }
}

impl Machine for Tap {
    ghost use Rattle.ddcmp_log.specs.Scheduling.{NoneIsDue};
    ghost use Rattle.ddcmp_tap.specs.Tapping.{Taps, asked_of, needs_of, outcome_of, pending_of};

    type Asked = (TapLog, u64);

    ghost asked = { asked_of };

    ghost has = { Taps };

    ghost needs = { needs_of };

    ghost pending = { pending_of };

    ghost settled = { λ t. NoneIsDue t.moment t.reports.schedule };

    ghost moment = { λ t. t.moment };

    ghost wakes_at = { λ t. t.reports.schedule.due_at };

    ghost outcome = { outcome_of };

    type Outcome = TapPause;

    fn needs(&self, port: Port) -> Need {
        match port {
            Port::First if self.fault.is_none() => self.up.need(&self.down),
            Port::Second if self.fault.is_none() => self.down.need(&self.up),
            Port::First | Port::Second => Need::Closing,
            Port::Input | Port::Output | Port::Errors => Need::Nothing,
        }
    }

    fn give(&mut self, port: Port, bytes: &[u8]) -> usize {
        let stamp = self.stamp();
        match port {
            Port::First => {
                let taken = self.up.push(&mut self.text, stamp, bytes);
                if !taken.is_logged {
                    self.text.clear();
                    self.fault = Some(TapFault::Memory);
                }
                taken.used
            }
            Port::Second => {
                let taken = self.down.push(&mut self.text, stamp, bytes);
                if !taken.is_logged {
                    self.text.clear();
                    self.fault = Some(TapFault::Memory);
                }
                taken.used
            }
            Port::Input | Port::Output | Port::Errors => 0,
        }
    }

    fn pending(&self, port: Port) -> &[u8] {
        if self.fault.is_some() {
            return &[];
        }
        match port {
            Port::First => self.down.waiting(),
            Port::Second => self.up.waiting(),
            Port::Errors => self.reports.unprinted(),
            Port::Input | Port::Output => &[],
        }
    }

    fn took(&mut self, port: Port, n: usize) {
        if self.fault.is_some() {
            return;
        }
        match port {
            Port::First => self.down.took(n),
            Port::Second => self.up.took(n),
            Port::Errors => self.reports.printed(n),
            Port::Input | Port::Output => {}
        }
    }

    fn told(&mut self, port: Port, what: News) {
        match what {
            News::Ended(Down::Closed) => match port {
                Port::First => self.up.end(),
                Port::Second => self.down.end(),
                Port::Input | Port::Output | Port::Errors => {}
            },
            News::Ended(_) => {
                let _kept = self.fail(TapFault::Read);
            }
            News::Broken(_) => match port {
                Port::Errors => self.reports.mute(),
                _ => {
                    let _kept = self.fail(TapFault::Write);
                }
            },
            // Its lines are open.
            News::Opened(_) => {}
            News::Reported(_) | News::Refused(_) => {}
        }
    }

    fn was_shut(&mut self, port: Port) {
        match port {
            Port::First => self.down.was_shut(),
            Port::Second => self.up.was_shut(),
            Port::Input | Port::Output | Port::Errors => {}
        }
    }

    fn was_closed(&mut self, _port: Port) {}

    fn pass_time(&mut self, now: u64) {
        self.moment = now;
        let stamp = self.stamp();
        // Without memory it goes on, and leaves the report out.
        let _is_queued = self
            .reports
            .report_if_due(now, stamp, self.up.log(), self.down.log());
        if self.up.is_counted_out() || self.down.is_counted_out() {
            let _kept = self.fail(TapFault::Read);
        }
    }

    fn rests(&mut self) -> bool {
        false
    }

    fn wakes_at(&self) -> u64 {
        self.reports.due_at()
    }

    fn outcome(&self) -> Option<TapPause> {
        if !self.text().is_empty() {
            return Some(TapPause::Logging);
        }
        match self.fault {
            Some(fault) => Some(TapPause::Ended(Err(fault))),
            None if self.up.is_over() && self.down.is_over() => Some(TapPause::Ended(Ok(()))),
            None => None,
        }
    }

    fn stop(&mut self) -> TapPause {
        let fault = self.fail(TapFault::Read);
        if self.text().is_empty() {
            TapPause::Ended(Err(fault))
        } else {
            TapPause::Logging
        }
    }
}
