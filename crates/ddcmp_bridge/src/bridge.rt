//! A bridge between two lines, as a machine.
ghost use Rattle.std.specs.Prelude.{◌≡◌, ◌≤◌, ◌<◌, ◌++◌, [], IfSome, List, ℕ, length, take, true};
ghost use Rattle.rand_pcg.specs.Lcg.{Lcg};
ghost use Rattle.ddcmp_bridge.specs.Crossing.{Crosses, asked_of, can_take, passes_to};
ghost use Rattle.ddcmp_bridge.specs.Delaying.{Directs};
ghost use Rattle.ddcmp_bridge.specs.Reported.{ReportsIfDue, reports_json, with_time};

mod leaving;
mod needs;
mod opening;

use crate::counts::Counts;
use crate::direction::Direction;
use crate::errors::BridgeErrors;
use crate::line::{BridgeLine, Stage};
use crate::options::BridgeOptions;
use crate::relay::RelayStep;
use crate::reports::Reports;
use crate::trace::BridgeTrace;
use ddcmp_log::{LogNotation, Side};
use ddcmp_ports::{LineName, Machine, Need, News, OpenFault, Port};
use needs::later_than;
use std::alloc::Global;

/// Why a bridge has ended.
#[derive(Clone, Copy, PartialEq, Eq)]
pub enum BridgeStop {
    /// A line is down.
    Line,
    /// Its time is over.
    Time,
    /// What came over a line couldn't be saved, a line couldn't be opened, or it couldn't wait.
    Stopped,
}

/// The counters of a bridge, and how it ended.
#[derive(Clone, Copy)]
pub struct BridgeEnd {
    pub stop: BridgeStop,
    /// The counters from the first line to the second.
    pub there: Counts,
    pub back: Counts,
    /// Whether a line failed, and wasn't just closed, or received bytes couldn't be saved.
    pub has_failed: bool,
}

/// What a bridge does.
#[derive(Clone, Copy, PartialEq, Eq)]
enum Phase {
    /// It has a line listen for callers; both do before one is opened.
    ListenFirst,
    ListenSecond,
    OpenFirst,
    OpenSecond,
    /// It passes frames on.
    Joined,
    /// It closes both lines.
    Leaving,
    /// It prints what is queued for standard error, and then has ended.
    Printing,
}

/// Passes the good frames of each of two lines on to the other, with faults if any are set, until a
/// line has ended and isn't opened again, or the time is over.
///
/// It is a machine for `ddcmp_ports::run`: it decides when a line is opened, left and opened again,
/// and has its reports pending at `Port::Errors`. It doesn't allocate after it is made, but for the
/// log of received frames.
pub struct Bridge<'a> {
    /// From the first line to the second.
    there: Direction,
    back: Direction,
    first: BridgeLine<'a>,
    second: BridgeLine<'a>,
    options: BridgeOptions<'a>,
    phase: Phase,
    /// The moment that was passed last.
    moment: u64,
    /// The moment at which its time is over; once it prints its last lines, that at which it ends.
    ends_at: u64,
    /// Whether these lines were both open at once.
    was_joined: bool,
    /// Whether it had other lines before these.
    has_reopened: bool,
    /// Why it leaves these lines.
    stop: BridgeStop,
    /// The moment at which it left them.
    left_at: u64,
    has_failed: bool,
    /// Why a line can't be opened, if that ends it.
    unopened: Option<OpenFault<'a>>,
    /// How it ended, once it has.
    ended: Option<Result<BridgeEnd, OpenFault<'a>>>,
    /// The counters of the lines before these.
    earlier_there: Counts,
    earlier_back: Counts,
    trace_there: Option<BridgeTrace>,
    trace_back: Option<BridgeTrace>,
    errors: BridgeErrors,
    reports: Reports,
}

// Manual, since a derived `Drop` would be expanded wherever a value is dropped.
impl Drop for Bridge<'_> {
    fn drop(self) {
        let Bridge {
            there: _there,
            back: _back,
            first: _first,
            second: _second,
            phase: _,
            moment: _,
            ends_at: _,
            options: _,
            was_joined: _,
            has_reopened: _,
            stop: _,
            left_at: _,
            has_failed: _,
            unopened: _,
            ended: _,
            earlier_there: _,
            earlier_back: _,
            trace_there: _trace_there,
            trace_back: _trace_back,
            errors: _errors,
            reports: _reports,
        } = self;
    }
}

/// Makes the log of a side's bytes, if one is requested; returns none if an allocation failed.
fn trace_of(
    alloc: Global,
    notation: Option<LogNotation>,
    side: Side,
) -> Option<Option<BridgeTrace>> {
    match notation {
        Some(notation) => Some(Some(BridgeTrace::new(alloc, notation, side).ok()?)),
        None => Some(None),
    }
}

/// Returns whether reports are JSON objects: if the log is.
fn reports_json(notation: Option<LogNotation>) -> bool
    ensures { result ≡ reports_json notation }
{
    matches!(notation, Some(LogNotation::Json))
}

impl<'a> Bridge<'a> {
    /// Makes a bridge between two lines, which aren't open yet. Allocates all memory that it will
    /// need; returns none if an allocation failed.
    pub fn new(
        alloc: Global,
        first: LineName<'a>,
        second: LineName<'a>,
        options: &BridgeOptions<'a>,
    ) -> Option<Bridge<'a>>
        ensures crosses { IfSome result (λ made. Crosses made []) }
        ensures asked { IfSome result (λ made. asked_of made
            ≡ (first.entry, second.entry, options.now)) }
    {
        let there = Direction::new(alloc, options.faults, options.delay_ms, 0)?;
        let back = Direction::new(alloc, options.faults, options.delay_ms, 1)?;
        let trace_there = trace_of(alloc, options.trace, Side::Caller)?;
        let trace_back = trace_of(alloc, options.trace, Side::Called)?;
        let errors = BridgeErrors::new(alloc)?;
        let mut bridge = Bridge {
            there,
            back,
            first: BridgeLine::new("first", first, options.save_first),
            second: BridgeLine::new("second", second, options.save_second),
            phase: Phase::ListenFirst,
            moment: 0,
            ends_at: 1000 * u64::from(options.seconds),
            options: *options,
            was_joined: false,
            has_reopened: false,
            stop: BridgeStop::Stopped,
            left_at: 0,
            has_failed: false,
            unopened: None,
            ended: None,
            earlier_there: Counts::NONE,
            earlier_back: Counts::NONE,
            trace_there,
            trace_back,
            errors,
            reports: Reports::new(options.report, reports_json(options.trace)),
        };
        bridge.begin();
        Some(bridge)
    }

    /// Begins each line on standard error with the time of day, if that is asked for. The moment 0
    /// is this many milliseconds after 1970.
    pub fn show_time(&mut self, began: u64)
        ensures { self.new ≡ record self.old { errors = with_time began self.old } }
    {
        if self.options.clock {
            self.errors.show_time(began);
        }
    }

    /// Reports the counters, if that is due.
    fn report_if_due(&mut self)
        ensures stays { self.new
            ≡ record self.old { errors = self.new.errors; reports = self.new.reports } }
        ensures reports { ReportsIfDue self.old self.new }
    {
        if self.reports.schedule.is_due(self.moment) {
            let BridgeEnd { there, back, .. } = self.counted();
            self.reports
                .report(self.moment, there, back, &mut self.errors);
        }
    }
}

/// Passes received bytes to a direction, up to the end of a frame, and logs them; returns how many.
fn cross(
    way: &mut Direction,
    trace: &mut Option<BridgeTrace>,
    errors: &mut BridgeErrors,
    now: u64,
    bytes: &[u8],
) -> usize
    requires can { can_take way.old ≡ true }
    requires some { 0 < length bytes.now }
    ensures fits { result ≤ length bytes.now }
    ensures used { 0 < result }
    ensures directs { (start : Lcg) (came taken : List ℕ) → Directs start way.old came taken
        → Directs start way.new (came ++ take result bytes.now) taken }
    ensures faults { way.new.relay.faults ≡ way.old.relay.faults }
    ensures delay { way.new.delay ≡ way.old.delay }
{
    let RelayStep { used, fate } = push(way, now, bytes);
    if let Some(trace) = trace {
        trace.log(errors, now, &bytes[..used], fate);
    }
    used
}

/// Passes received bytes to a direction, as many as it can count, up to the end of a frame.
fn push(way: &mut Direction, now: u64, bytes: &[u8]) -> RelayStep
    requires can { can_take way.old ≡ true }
    requires some { 0 < length bytes.now }
    ensures fits { result.used ≤ length bytes.now }
    ensures used { 0 < result.used }
    ensures directs { (start : Lcg) (came taken : List ℕ) → Directs start way.old came taken
        → Directs start way.new (came ++ take result.used bytes.now) taken }
    ensures faults { way.new.relay.faults ≡ way.old.relay.faults }
    ensures delay { way.new.delay ≡ way.old.delay }
{
    let most = way.countable();
    if most < bytes.len() as u64 {
        way.push(now, &bytes[..most as usize])
    } else {
        way.push(now, bytes)
    }
}

impl<'a> Machine for Bridge<'a> {
    ghost use Rattle.ddcmp_log.specs.Scheduling.{NoneIsDue};
    ghost use Rattle.ddcmp_bridge.specs.Crossing.{Crosses, needs_of, pending_of, wakes_of};

    type Asked = (LineName<'a>, LineName<'a>, BridgeOptions<'a>);

    ghost asked = { asked_of };

    ghost has = { Crosses };

    ghost needs = { needs_of };

    ghost pending = { pending_of };

    ghost settled = { λ b. NoneIsDue b.moment b.reports.schedule };

    ghost moment = { λ b. b.moment };

    ghost wakes_at = { wakes_of };

    ghost outcome = { λ b. b.ended };

    type Outcome = Result<BridgeEnd, OpenFault<'a>>;

    fn needs(&self, port: Port) -> Need {
        match port {
            Port::First => self.needs_of_first(),
            Port::Second => self.needs_of_second(),
            Port::Input | Port::Output | Port::Errors => Need::Nothing,
        }
    }

    fn give(&mut self, port: Port, bytes: &[u8]) -> usize {
        match port {
            Port::First => cross(
                &mut self.there,
                &mut self.trace_there,
                &mut self.errors,
                self.moment,
                bytes,
            ),
            Port::Second => cross(
                &mut self.back,
                &mut self.trace_back,
                &mut self.errors,
                self.moment,
                bytes,
            ),
            Port::Input | Port::Output | Port::Errors => 0,
        }
    }

    fn pending(&self, port: Port) -> &[u8] {
        match port {
            Port::First if self.passes_to(&self.first) => self.back.waiting(self.moment),
            Port::Second if self.passes_to(&self.second) => self.there.waiting(self.moment),
            Port::Errors => self.errors.waiting(),
            _ => &[],
        }
    }

    fn took(&mut self, port: Port, n: usize) {
        match port {
            Port::First if self.passes_to(&self.first) => self.back.took(n),
            Port::Second if self.passes_to(&self.second) => self.there.took(n),
            Port::Errors => self.errors.took(n),
            _ => {}
        }
    }

    fn told(&mut self, port: Port, what: News) {
        match port {
            Port::First => self.told_of_first(what),
            Port::Second => self.told_of_second(what),
            Port::Errors => {
                if let News::Broken(_) = what {
                    self.errors.broke();
                }
            }
            Port::Input | Port::Output => {}
        }
    }

    fn was_shut(&mut self, port: Port) {
        match port {
            Port::First => self.first.stage = Stage::Shut,
            Port::Second => self.second.stage = Stage::Shut,
            Port::Input | Port::Output | Port::Errors => {}
        }
    }

    fn was_closed(&mut self, port: Port) {
        match port {
            Port::First => {
                self.first.stage = Stage::Closed;
                self.leave_if_closed();
            }
            Port::Second => {
                self.second.stage = Stage::Closed;
                self.leave_if_closed();
            }
            Port::Input | Port::Output | Port::Errors => {}
        }
    }

    fn pass_time(&mut self, now: u64) {
        self.moment = now;
        self.errors.pass_time(now);
        self.report_if_due();
        self.settle();
    }

    fn rests(&mut self) -> bool {
        if self.phase != Phase::Joined {
            return false;
        }
        let first = self.first.gives_up();
        let second = self.second.gives_up();
        first || second
    }

    fn wakes_at(&self) -> u64 {
        let phase_ends_at = match self.phase {
            Phase::ListenFirst | Phase::OpenFirst => self.opens_at(&self.first),
            Phase::ListenSecond | Phase::OpenSecond => self.opens_at(&self.second),
            Phase::Joined => {
                let there = later_than(self.moment, self.there.wakes_at());
                let back = later_than(self.moment, self.back.wakes_at());
                self.ends_at.min(there).min(back)
            }
            Phase::Leaving | Phase::Printing => self.ends_at,
        };
        self.reports.schedule.due_at.min(phase_ends_at)
    }

    fn outcome(&self) -> Option<Result<BridgeEnd, OpenFault<'a>>> {
        self.ended
    }

    fn stop(&mut self) -> Result<BridgeEnd, OpenFault<'a>> {
        self.stop = BridgeStop::Stopped;
        self.has_failed = true;
        self.phase = Phase::Printing;
        let ended = Ok(self.counted());
        self.ended = Some(ended);
        ended
    }
}

impl Bridge<'_> {
    /// Returns whether frames are passed on to this line.
    fn passes_to(&self, line: &BridgeLine<'_>) -> bool
        ensures { result ≡ passes_to self.now.phase line.now }
    {
        self.phase == Phase::Joined && line.broken.is_none()
    }
}
