//! The options of a bridge.
use crate::faults::Faults;
use ddcmp_log::LogNotation;

/// The options of a bridge.
#[derive(Clone, Copy)]
pub struct BridgeOptions<'a> {
    /// After how many seconds it ends, if no line has ended before.
    pub seconds: u32,
    /// Whether both lines are opened again if one has ended, or can't be opened.
    pub again: bool,
    pub faults: Faults,
    /// By how many milliseconds each frame is delayed.
    pub delay_ms: u32,
    /// The speed at which each line is written to, in bits a second; 0 for as fast as it takes
    /// bytes.
    pub baud: u32,
    /// The notation in which received frames are printed on standard error, if they are.
    pub trace: Option<LogNotation>,
    /// After how many seconds each report of the counters is printed on standard error; 0 is never.
    pub report: u32,
    /// Whether lines on standard error begin with the time of day.
    pub clock: bool,
    /// The files to save the bytes received over each line in, if any.
    pub save_first: Option<&'a str>,
    pub save_second: Option<&'a str>,
    /// Whether these are appended to, and opened again once their names lead elsewhere; if not,
    /// they must not exist.
    pub append: bool,
}
