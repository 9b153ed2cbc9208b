//! One of the two lines of a bridge.
ghost use Rattle.std.specs.Prelude.{◌≡◌, ◌≢◌, ◌⊎◌, None, Some, is_some, false, true};
ghost use Rattle.ddcmp_ports.specs.LineNames.{open_fault_of};

use crate::errors::BridgeErrors;
use crate::pause::Pause;
use ddcmp_io::LineKind;
use ddcmp_ports::{Attempt, DeviceOpened, Down, LineName, OpenFault, OpenRefusal, Retry};
use std::fmt;

/// How far a line is open.
#[derive(Clone, Copy, PartialEq, Eq)]
pub(crate) enum Stage {
    Closed,
    Open,
    /// Its peer learns that no more will be written.
    Shut,
}

/// What a bridge knows of one of its lines.
pub(crate) struct BridgeLine<'a> {
    /// Which of the two it is, in words.
    which: &'static str,
    name: LineName<'a>,
    /// The file that all bytes that come over it are saved in, if there is one.
    save: Option<&'a str>,
    /// The pause before it is opened again.
    pause: Pause,
    pub(crate) stage: Stage,
    /// Why nothing more is read from it, if so.
    pub(crate) over: Option<Down>,
    /// Why nothing more is written to it, if so. What its peer has sent is still read.
    pub(crate) broken: Option<Down>,
}

// Manual, since a derived `Drop` would be expanded wherever a value is dropped.
impl Drop for BridgeLine<'_> {
    fn drop(self) {
        let BridgeLine {
            which: _,
            name: _,
            save: _,
            pause: _,
            stage: _,
            over: _,
            broken: _,
        } = self;
    }
}

impl<'a> BridgeLine<'a> {
    pub(crate) fn new(
        which: &'static str,
        name: LineName<'a>,
        save: Option<&'a str>,
    ) -> BridgeLine<'a>
        ensures { result ≡ record {
          which = which.entry;
          name = name.entry;
          save = save.entry;
          pause = result.pause;
          stage = Stage.Closed;
          over = None;
          broken = None;
        } }
    {
        BridgeLine {
            which,
            name,
            save,
            pause: Pause::NONE,
            stage: Stage::Closed,
            over: None,
            broken: None,
        }
    }

    /// Returns whether it is one for callers.
    pub(crate) fn listens(&self) -> bool {
        self.name.kind() == LineKind::Listen
    }

    /// Returns the moment from which it may be opened.
    pub(crate) fn opens_at(&self) -> u64
        ensures { result ≡ self.now.pause.ends_at }
    {
        self.pause.ends_at
    }

    /// Notes that it is open, and reports that of a device, which has no address.
    pub(crate) fn opened(&mut self, errors: &mut BridgeErrors)
        ensures { self.new ≡ record self.old { stage = Stage.Open } }
    {
        if let LineName::Device(path) = self.name {
            errors.report(DeviceOpened { path });
        }
        self.stage = Stage::Open;
    }

    /// Notes that nothing more can be written. What its peer has sent is still read.
    pub(crate) fn broke(&mut self, why: Down)
        ensures { self.new ≡ record self.old { broken = Some why } }
    {
        self.broken = Some(why);
    }

    /// Notes that nothing more can be read.
    pub(crate) fn ended(&mut self, why: Down)
        ensures stays { self.new ≡ record self.old { over = self.new.over } }
        ensures over { is_some self.new.over ≡ true }
    {
        self.over = Some(self.broken.unwrap_or(why));
    }

    /// Notes that nothing is left to be read, if nothing more can be written; returns whether that
    /// is so.
    pub(crate) fn gives_up(&mut self) -> bool
        ensures same { result ≡ false → self.new ≡ self.old }
        ensures over { self.new ≡ record self.old { over = self.new.over } }
        ensures broken { result ≡ true → is_some self.new.broken ≡ true }
    {
        if self.over.is_some() || self.broken.is_none() {
            return false;
        }
        self.over = self.broken;
        true
    }

    /// Returns the fault of an attempt to open it.
    pub(crate) fn fault(&self, why: OpenRefusal) -> OpenFault<'a>
        ensures { result ≡ open_fault_of self.now.name why }
    {
        self.name.open_fault(why)
    }

    /// Begins a pause before it is opened again, and reports why.
    pub(crate) fn retries(&mut self, fault: OpenFault<'a>, now: u64, errors: &mut BridgeErrors)
        ensures { self.new ≡ record self.old { pause = self.new.pause } }
    {
        let seconds = self.pause.begin(now);
        errors.report(Retry { fault, seconds });
    }

    /// Prepares for opening it again. If no good frame came over both lines, and it isn't one for
    /// callers, that is after a pause.
    pub(crate) fn reopens(&mut self, has_passed: bool, now: u64, errors: &mut BridgeErrors)
        ensures stays { self.new
            ≡ record self.old { pause = self.new.pause; over = None; broken = None } }
        ensures pause { has_passed ≡ true
            → self.new.pause ≡ record { seconds = 0; ends_at = 0 } }
    {
        self.over = None;
        self.broken = None;
        if has_passed || self.listens() {
            self.pause = Pause::NONE;
        } else {
            let seconds = self.pause.begin(now);
            let which = self.which;
            errors.report(LinePauses { which, seconds });
        }
    }

    /// Reports why nothing more is read from it, if so: it is down, or its file can't be written.
    pub(crate) fn report_end(&self, errors: &mut BridgeErrors) {
        match (self.over, self.save) {
            (Some(Down::Unsaved(cause)), Some(name)) => errors.report(OpenFault {
                attempt: Attempt::Write,
                name,
                cause,
            }),
            (Some(why), _) => errors.report(LineDown {
                which: self.which,
                why: words_of(why),
            }),
            (None, _) => {}
        }
    }

    /// Returns whether it has failed, and wasn't just closed.
    pub(crate) fn has_failed(&self) -> bool {
        matches!(self.over, Some(Down::Failed(_) | Down::Unsaved(_)))
    }

    /// Returns whether what came over it couldn't be saved.
    pub(crate) fn is_unsaved(&self) -> bool {
        matches!(self.over, Some(Down::Unsaved(_)))
    }
}

/// Returns why nothing more can be read or written, in words.
fn words_of(why: Down) -> &'static str {
    match why {
        Down::Closed => ddcmp_io::Down::Closed.words(),
        Down::Failed(kind) => ddcmp_io::Down::Failed(kind).words(),
        Down::Unsaved(cause) => cause.words(),
    }
}

/// The line that reports that a line is down.
#[derive(Drop)]
struct LineDown {
    which: &'static str,
    why: &'static str,
}

impl fmt::Display for LineDown {
    fn fmt<W: fmt::Write>(&self, f: &mut fmt::Formatter<W>) -> fmt::Result {
        let LineDown { which, why } = self;
        write!(f, "{which} line down: {why}")
    }
}

/// The line that reports after how many seconds a line is opened again.
#[derive(Drop)]
struct LinePauses {
    which: &'static str,
    seconds: u64,
}

impl fmt::Display for LinePauses {
    fn fmt<W: fmt::Write>(&self, f: &mut fmt::Formatter<W>) -> fmt::Result {
        let LinePauses { which, seconds } = self;
        write!(f, "{which} line: retry in {seconds} s")
    }
}
