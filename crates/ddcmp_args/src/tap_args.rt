//! The arguments of `tap`.
ghost use Rattle.clap.specs.Words.{first_value, found_of, one_text};
ghost use Rattle.ddcmp_args.specs.Inside.Making.{Makes};
ghost use Rattle.ddcmp_args.specs.Args.{HasTap, tap_app};

use crate::given::{flag_given, notation_given, number_given, text_given};
use crate::options::Takes::{Nothing, Number, Text};
use crate::options::{CommandOption, CommandText, table};
use crate::parser::{Made, begun, with_options};
use clap::ArgMatches;
use ddcmp_core::MAX_COUNT;
use ddcmp_explain::Notation;
use std::alloc::Global;

/// The arguments of a tap.
#[derive(Clone, Copy, Debug)]
pub struct TapArgs<'a> {
    /// The address to listen at, such as `127.0.0.1:7000`.
    pub listen: &'a str,
    /// The address to connect to once someone has connected.
    pub connect: &'a str,
    /// Whether it serves one caller after another.
    pub again: bool,
    pub notation: Notation,
    /// Whether the traffic is drawn as a ladder. It can't be with JSON.
    pub ladder: bool,
    /// Whether each line begins with the milliseconds.
    pub time: bool,
    /// Whether each line begins with the time of day, in their place.
    pub clock: bool,
    /// After how many seconds each report of the totals is printed; 0 is never.
    pub report: u32,
    /// The maximum number of bytes of data in a frame.
    pub max: u16,
}

/// `tap`, with its description and help.
static TAP: CommandText = CommandText {
    name: "tap",
    about: "Log the traffic between two ends of a TCP line",
    help: "\
Output, as bytes arrive:
  > LINE                     a line of explain for the side that connected to the tap
  < LINE                     the same for the other side
  > items=I bytes=B open=O   at the end, and the same for the other side",
};

/// The options of a tap.
static TAP_OPTIONS: [CommandOption; 9] = table! {
    "listen" required: Text("ADDR"), "Address to listen at, for one connection, as 127.0.0.1:7001";
    "connect" required: Text("ADDR"), "Address to connect to once someone has connected";
    "again": Nothing, "Carry one connection after another, until it is killed";
    "json": Nothing, "Print one JSON object per line";
    "ladder": Nothing, "Draw the traffic as a ladder of text";
    "time": Nothing, "Print the milliseconds since both were connected before each line";
    "clock": Nothing, "Print the time of day (UTC) before each line, not the milliseconds";
    "report": Number(0, u32::MAX), "Report the totals on standard error every N seconds";
    "max": Number(1, MAX_COUNT as u32),
        "Longest data of a frame, 1 to 16383 bytes [default: 16383]";
};

/// Returns the parser of `tap` with its options.
pub(crate) fn tap_parser<'a>(alloc: Global) -> Made<'a>
    ensures { Makes result tap_app }
{
    with_options(alloc, Ok(begun(alloc, &TAP)), &TAP_OPTIONS)
}

/// Returns the arguments of `tap`.
pub(crate) fn tap_given<'a>(options: &ArgMatches<'a>) -> TapArgs<'a>
    ensures { HasTap (one_text (found_of options.now)) (first_value (found_of options.now))
        result }
{
    TapArgs {
        listen: text_given(options, "listen"),
        connect: text_given(options, "connect"),
        again: flag_given(options, "again"),
        notation: notation_given(options),
        ladder: flag_given(options, "ladder"),
        time: flag_given(options, "time"),
        clock: flag_given(options, "clock"),
        report: number_given(options, "report", 0, u32::MAX, 0),
        max: number_given(options, "max", 1, MAX_COUNT as u32, MAX_COUNT as u32) as u16,
    }
}
