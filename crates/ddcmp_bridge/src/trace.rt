//! The log of the frames that a bridge receives.
use crate::errors::BridgeErrors;
use crate::faults::Fate;
use ddcmp_frame::MAX_COUNT;
use ddcmp_io::MemorySink;
use ddcmp_log::{ItemLog, LogNotation, NoMemory, Side, Stamp};
use std::alloc::Global;
use std::fmt::InlineText;
use std::{fmt, str};

/// The longest line of what the bridge did to a frame, in bytes.
const LINE_ROOM: usize = 128;

/// The log of one direction: a line for each frame, and what the bridge did to it.
pub(crate) struct BridgeTrace {
    log: ItemLog,
    text: MemorySink,
}

// Manual, since a derived `Drop` would be expanded wherever a value is dropped.
impl Drop for BridgeTrace {
    fn drop(self) {
        let BridgeTrace {
            log: _log,
            text: _text,
        } = self;
    }
}

impl BridgeTrace {
    /// Allocates all memory apart from that of its lines.
    pub(crate) fn new(
        alloc: Global,
        notation: LogNotation,
        side: Side,
    ) -> Result<BridgeTrace, NoMemory> {
        Ok(BridgeTrace {
            log: ItemLog::new(alloc, side, notation, MAX_COUNT)?,
            text: MemorySink::new(alloc),
        })
    }

    /// Begins the log of another line on the same side.
    pub(crate) fn restart(&mut self) {
        self.log.restart();
    }

    /// Queues the lines of received bytes, and the fate of the frame that they completed. Lines for
    /// which an allocation failed are missing.
    pub(crate) fn log(
        &mut self,
        errors: &mut BridgeErrors,
        now: u64,
        bytes: &[u8],
        fate: Option<Fate>,
    ) {
        if bytes.len() as u64 >= self.log.room() {
            return;
        }
        self.text.clear();
        if self
            .log
            .log(&mut self.text, Some(Stamp::Elapsed(now)), bytes)
            .is_ok()
        {
            errors.write_lines(str::from_utf8(self.text()).unwrap_or(""));
        }
        match fate {
            Some(fate @ (Fate::Lost | Fate::Altered { .. })) => {
                let line = InlineText::<LINE_ROOM>::of(self.line_of(now, fate));
                errors.write_lines(line.as_str());
            }
            Some(Fate::Passed) | None => {}
        }
    }

    /// Returns the lines that were made last.
    fn text(&self) -> &[u8] {
        self.text.bytes.as_slice()
    }

    /// Returns the line of what the bridge did to a frame.
    fn line_of(&self, now: u64, fate: Fate) -> FateLine {
        FateLine {
            now,
            mark: match self.log.side() {
                Side::Caller => ">",
                Side::Called => "<",
            },
            fate,
            is_object: matches!(self.log.notation(), LogNotation::Json),
        }
    }
}

/// What a bridge did to a frame of a direction, as a line or as a JSON object.
#[derive(Drop)]
struct FateLine {
    now: u64,
    mark: &'static str,
    fate: Fate,
    is_object: bool,
}

impl fmt::Display for FateLine {
    fn fmt<W: fmt::Write>(&self, f: &mut fmt::Formatter<W>) -> fmt::Result {
        let FateLine {
            now,
            mark,
            fate,
            is_object,
        } = self;
        match (fate, is_object) {
            (Fate::Lost, false) => write!(f, "{now} {mark} lost"),
            (Fate::Lost, true) => {
                write!(f, "{{\"from\":\"{mark}\",\"ms\":{now},\"item\":\"lost\"}}")
            }
            (Fate::Altered { at, .. }, false) => write!(f, "{now} {mark} altered byte {at}"),
            (Fate::Altered { at, .. }, true) => write!(
                f,
                "{{\"from\":\"{mark}\",\"ms\":{now},\"item\":\"altered\",\"byte\":{at}}}"
            ),
            (Fate::Passed, _) => Ok(()),
        }
    }
}
