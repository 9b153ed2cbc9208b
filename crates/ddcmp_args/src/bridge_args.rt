//! The arguments of `bridge`.
ghost use Rattle.clap.specs.Words.{first_value, found_of, one_text};
ghost use Rattle.ddcmp_args.specs.Inside.Making.{Makes};
ghost use Rattle.ddcmp_args.specs.Args.{HasBridge, bridge_app};

use crate::given::{flag_given, notation_given, number_given, text_given};
use crate::options::Takes::{Nothing, Number, Place, Text};
use crate::options::{CommandOption, CommandText, table};
use crate::parser::{Made, begun, with_options};
use clap::ArgMatches;
use ddcmp_bridge::Faults;
use ddcmp_explain::Notation;
use std::alloc::Global;

/// The arguments of a bridge between two lines.
#[derive(Clone, Copy, Debug)]
pub struct BridgeArgs<'a> {
    /// The name of a line, such as `connect:127.0.0.1:7000`.
    pub first: &'a str,
    pub second: &'a str,
    /// After how many seconds it ends, if no line has ended before.
    pub seconds: u32,
    /// Whether both lines are opened again if one ends, or can't be opened.
    pub again: bool,
    pub faults: Faults,
    /// By how many milliseconds each frame is delayed.
    pub delay: u32,
    /// The speed of both lines in bits a second; 0 for as fast as they take bytes.
    pub baud: u32,
    /// Whether received frames are printed.
    pub trace: bool,
    /// Whether they are drawn as a ladder.
    pub ladder: bool,
    /// The notation in which they are printed. It can't be JSON with a ladder.
    pub notation: Notation,
    /// After how many seconds each report of the counters is printed; 0 is never.
    pub report: u32,
    /// Whether lines on standard error begin with the time of day.
    pub clock: bool,
    /// The files to save the bytes received over each line in, if any.
    pub save_first: Option<&'a str>,
    pub save_second: Option<&'a str>,
    /// Whether they are appended to, and opened again after they were moved or removed.
    pub append: bool,
}

/// `bridge`, with its description and help.
static BRIDGE: CommandText = CommandText {
    name: "bridge",
    about: "Pass the good frames of each of two lines on to the other",
    help: "\
LINE is one of:
  connect:HOST:PORT      a TCP connection to this address
  listen:HOST:PORT       a TCP connection accepted at this address
  udp:LOCAL,REMOTE       datagrams between two addresses
  device:PATH            a serial device that is set up already, as by stty
Only whole good frames are passed on, unchanged but for the faults that are asked for;
it ends with one of its lines, unless --again is given.
Output, at the end:
  > frames=F skipped=S damaged=D lost=L altered=A
      from the first line to the second: good frames, bytes that are in none, damaged
      frames and headers; and how many good frames were lost and altered
  < frames=F skipped=S damaged=D lost=L altered=A
      the same for the other direction",
};

/// The options of a bridge.
static BRIDGE_OPTIONS: [CommandOption; 17] = table! {
    "first" required: Place("LINE"), "First line to open, as listen:127.0.0.1:7000";
    "second" required: Place("LINE"),
        "Second line, opened after the first; both listen from the start";
    "seconds": Number(1, u32::MAX), "End after N seconds, whatever the state";
    "again": Nothing, "Open both lines again if one ends or can't be opened";
    "lose": Number(0, 100), "Lose N percent of the good frames, 0 to 100 [default: 0]";
    "damage": Number(0, 100), "Change a byte in N percent of the others, 0 to 100 [default: 0]";
    "delay": Number(0, u32::MAX), "Hold each good frame back for N milliseconds [default: 0]";
    "baud": Number(0, u32::MAX),
        "Write to each line at this speed, 0: as it takes bytes [default: 0]";
    "seed": Number(0, u32::MAX), "Seed of the random faults; the same N repeats them [default: 1]";
    "trace": Nothing, "Log received frames on standard error";
    "ladder": Nothing, "Draw received frames as a ladder on standard error";
    "json": Nothing, "Log received frames as JSON objects on standard error";
    "report": Number(0, u32::MAX), "Report the counters on standard error every N seconds";
    "clock": Nothing, "Begin each line on standard error with the time of day (UTC)";
    "save-first": Text("FILE"), "Save all bytes that come over the first line in a new FILE";
    "save-second": Text("FILE"), "Save those that come over the second line";
    "append": Nothing, "Append to these files; open them again once moved or removed";
};

/// Returns the parser of `bridge` with its options.
pub(crate) fn bridge_parser<'a>(alloc: Global) -> Made<'a>
    ensures { Makes result bridge_app }
{
    with_options(alloc, Ok(begun(alloc, &BRIDGE)), &BRIDGE_OPTIONS)
}

/// Returns the arguments of `bridge`.
pub(crate) fn bridge_given<'a>(options: &ArgMatches<'a>) -> BridgeArgs<'a>
    ensures { HasBridge (one_text (found_of options.now)) (first_value (found_of options.now))
        result }
{
    BridgeArgs {
        first: text_given(options, "first"),
        second: text_given(options, "second"),
        seconds: number_given(options, "seconds", 1, u32::MAX, u32::MAX),
        again: flag_given(options, "again"),
        faults: Faults {
            lose: number_given(options, "lose", 0, 100, 0),
            damage: number_given(options, "damage", 0, 100, 0),
            seed: number_given(options, "seed", 0, u32::MAX, 1),
        },
        delay: number_given(options, "delay", 0, u32::MAX, 0),
        baud: number_given(options, "baud", 0, u32::MAX, 0),
        trace: flag_given(options, "trace"),
        ladder: flag_given(options, "ladder"),
        notation: notation_given(options),
        report: number_given(options, "report", 0, u32::MAX, 0),
        clock: flag_given(options, "clock"),
        save_first: options.get_str("save-first"),
        save_second: options.get_str("save-second"),
        append: flag_given(options, "append"),
    }
}
