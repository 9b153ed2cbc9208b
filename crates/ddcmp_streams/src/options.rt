//! The options of a session.
ghost use Rattle.std.specs.Prelude.{◌≡◌, ◌<◌};
ghost use Rattle.ddcmp_streams.specs.Options.{report_ms, speed_of, takes_at_once};

use crate::messages::MessageForm;
use ddcmp_log::LogNotation;
use ddcmp_proto::Config;

/// The options of a session.
#[derive(Clone, Copy, Debug)]
pub struct Options {
    /// The sizes of the station.
    pub config: Config,
    /// The reply timer, in milliseconds.
    pub timer_ms: u32,
    /// After how many tries in vain a line is left: without progress, or without a byte from the
    /// peer once the station runs; 0 is never, and `u32::MAX` is 7 until it runs and never then.
    pub attempts: u32,
    /// How long it waits for more from a quiet peer once nothing of the input is left, in
    /// milliseconds.
    pub linger_ms: u32,
    /// The speed of a serial line in bits a second; 0 if it isn't known.
    pub baud: u32,
    /// After how many seconds the run ends.
    pub seconds: u32,
    /// After how many seconds each report of the counters is written; 0 is never.
    pub report: u32,
    /// How messages are written on standard input and output.
    pub form: MessageForm,
    /// Whether messages are sent as maintenance messages, each once: none is numbered, acknowledged
    /// or retransmitted.
    pub maintenance: bool,
    /// Whether a message is acknowledged when it is received, and not only once it was written to
    /// standard output.
    pub acknowledge_early: bool,
    /// Whether it continues once nothing of the input is left.
    pub stay: bool,
    /// Whether a run ends well only if its input was read to its end. An input without an end that
    /// could be waited for, such as a terminal, isn't.
    pub awaits_end: bool,
    /// Whether the line is opened again if it ends or can't be opened.
    pub again: bool,
    /// Whether counters are written before the last line.
    pub counters: bool,
    /// How the frames of both directions are logged on standard error, if they are.
    pub trace: Option<LogNotation>,
    /// Whether lines on standard error begin with the time of day.
    pub clock: bool,
    /// Whether reports are JSON objects.
    pub json: bool,
}

impl Options {
    /// Returns after how many milliseconds each report of the counters is due; 0 is never.
    pub fn report_ms(&self) -> u64
        ensures { result ≡ report_ms self.now }
    {
        1000 * self.report as u64
    }

    /// Returns the speed of a serial line in bits a second: 9600 if it isn't known.
    pub fn speed(&self) -> u32
        ensures value { result ≡ speed_of self.now }
        ensures some { 0 < result }
    {
        if self.baud == 0 { 9600 } else { self.baud }
    }

    /// Returns whether a received message is taken as soon as its text is queued, and not only once
    /// that was written: if messages are acknowledged early, and in maintenance mode, in which none
    /// is acknowledged.
    pub fn takes_at_once(&self) -> bool
        ensures { result ≡ takes_at_once self.now }
    {
        self.maintenance || self.acknowledge_early
    }
}
