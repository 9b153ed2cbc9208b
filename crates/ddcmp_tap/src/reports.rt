//! The reports of a tap while it runs.
ghost use Rattle.std.specs.Prelude.{◌≡◌, ◌==◌, ◌≤◌, ◌++◌, [], List, ℕ, drop, length, true, false};
ghost use Rattle.ddcmp_log.specs.Items.{HasTold};
ghost use Rattle.ddcmp_log.specs.Logged.{reported_line};
ghost use Rattle.ddcmp_log.specs.Scheduling.{schedule_of};
ghost use Rattle.ddcmp_tap.specs.Reporting.{QueuesReport, ReportsIfDue, no_reports};

use ddcmp_io::MemorySink;
use ddcmp_log::{Added, ItemLog, NoMemory, Schedule, Stamp};
use std::alloc::Global;
use std::marker::Model;

/// The reports of a tap that are queued for standard error, and when the next is due.
pub(crate) struct TapReports {
    text: MemorySink,
    /// How many bytes of the text were printed.
    printed: usize,
    schedule: Schedule,
    /// What had come from each side at the last report.
    caller: Added,
    called: Added,
}

// Manual, since a derived `Drop` would be expanded wherever a value is dropped.
impl Drop for TapReports {
    fn drop(self) {
        let TapReports {
            text: _text,
            printed: _,
            schedule: _,
            caller: _,
            called: _,
        } = self;
    }
}

impl Model for TapReports {
    ghost use Rattle.std.specs.Prelude.{◌≡◌, ◌≤◌, drop, false, length};
    ghost use Rattle.ddcmp_tap.specs.Reporting.{TapReportsView};

    ghost Value = { TapReportsView };

    ghost view = { λ r. record {
      text = drop r.printed r.text.bytes.items;
      schedule = r.schedule;
      caller = r.caller;
      called = r.called;
    } };

    ghost invariant = { λ r. (r.text.refused ≡ false)
        × (r.printed ≤ length r.text.bytes.items) };
}

impl TapReports {
    /// Plans a report every this many seconds; none for 0.
    pub(crate) fn new(alloc: Global, seconds: u32) -> TapReports
        ensures { result ≡ no_reports seconds }
    {
        TapReports {
            text: MemorySink::new(alloc),
            printed: 0,
            schedule: Schedule::new(seconds),
            caller: Added { items: 0, bytes: 0 },
            called: Added { items: 0, bytes: 0 },
        }
    }

    /// Returns when the next report is due.
    pub(crate) fn due_at(&self) -> u64
        ensures { result ≡ self.now.schedule.due_at }
    {
        self.schedule.due_at
    }

    /// Returns the reports that weren't printed yet.
    pub(crate) fn unprinted(&self) -> &[u8]
        ensures { result.now ≡ self.now.text }
    {
        &self.text.bytes.as_slice()[self.printed..]
    }

    /// Notes that the first `n` bytes of them were printed.
    pub(crate) fn printed(&mut self, n: usize)
        requires { n ≤ length self.old.text }
        ensures { self.new ≡ record self.old { text = drop n self.old.text } }
    {
        self.printed += n;
    }

    /// Notes that reports can't be printed any more.
    pub(crate) fn mute(&mut self)
        ensures { self.new ≡ record self.old { text = []; schedule = schedule_of 0 } }
    {
        self.text.clear();
        self.printed = 0;
        self.schedule = Schedule::new(0);
    }

    /// Queues a report on both sides, if one is due, and the last one was printed.
    pub(crate) fn report_if_due(
        &mut self,
        now: u64,
        stamp: Option<Stamp>,
        caller: &ItemLog,
        called: &ItemLog,
    ) -> Result<(), NoMemory>
        ensures { ReportsIfDue now stamp caller.now called.now self.old self.new result }
    {
        if !self.schedule.is_due(now) {
            return Ok(());
        }
        let queued = self.queue(stamp, caller, called);
        self.schedule.pass(now);
        self.caller = caller.added();
        self.called = called.added();
        queued
    }

    /// Returns whether no report is queued.
    fn is_idle(&self) -> bool
        ensures { result ≡ (length self.now.text == 0) }
    {
        self.unprinted().is_empty()
    }

    /// Queues a report on both sides, if none is queued.
    fn queue(
        &mut self,
        stamp: Option<Stamp>,
        caller: &ItemLog,
        called: &ItemLog,
    ) -> Result<(), NoMemory>
        ensures stays { self.new ≡ record self.old { text = self.new.text } }
        ensures lines { QueuesReport result stamp caller.now called.now self.old self.new.text }
    {
        if !self.is_idle() {
            return Ok(());
        }
        self.text.clear();
        self.printed = 0;
        if !write_report(&mut self.text, caller, stamp, self.caller) {
            self.text.clear();
            return Err(NoMemory);
        }
        if !write_report(&mut self.text, called, stamp, self.called) {
            self.text.clear();
            return Err(NoMemory);
        }
        Ok(())
    }
}

/// Appends the report on a side to a text; returns whether it is all there.
fn write_report(text: &mut MemorySink, log: &ItemLog, stamp: Option<Stamp>, since: Added) -> bool
    requires whole { text.old.refused ≡ false }
    ensures whole { result ≡ true → text.new.refused ≡ false }
    ensures lines { result ≡ true → (told : List ℕ)
        → HasTold log.now.frames log.now.items told
        → text.new.bytes.items ≡ text.old.bytes.items
        ++ reported_line log.now.notation stamp log.now.side log.now.frames.max since told }
{
    log.report(text, stamp, since).is_ok() && !text.refused
}
