//! The arguments of `explain`.
ghost use Rattle.std.specs.Prelude.{codes};
ghost use Rattle.clap.specs.Words.{first_value, found_of, one_text};
ghost use Rattle.ddcmp_args.specs.Inside.Making.{Makes};
ghost use Rattle.ddcmp_args.specs.Args.{HasExplain, HasForm, HasStyle, explain_app};

use crate::given::{file_given, flag_given, notation_given, number_given};
use crate::options::Takes::{Nothing, Number, Place, Text};
use crate::options::{CommandOption, CommandText, table};
use crate::parser::{Made, begun, with_options};
use clap::ArgMatches;
use ddcmp_core::MAX_COUNT;
use ddcmp_explain::{Form, Style};
use std::alloc::Global;

/// The arguments for an input to be explained.
#[derive(Clone, Copy, Debug)]
pub struct ExplainArgs<'a> {
    pub form: Form,
    /// How the input is written, if `--from` is given: `hexdump`, `xxd` or `od` for a dump, `text`
    /// for digits as in logs, and `auto` for one of these or raw bytes. It can't be used with raw
    /// bytes.
    pub from: Option<&'a str>,
    pub style: Style,
    /// The maximum number of bytes of data in a frame.
    pub max: u16,
    /// The file to read; standard input if there is none.
    pub file: Option<&'a str>,
    /// The file of the other direction, if both are drawn as a ladder.
    pub second: Option<&'a str>,
    /// Whether both directions are drawn as a ladder.
    pub ladder: bool,
}

/// `explain`, with its description and help.
static EXPLAIN: CommandText = CommandText {
    name: "explain",
    about: "Decode captured bytes of a line",
    help: "\
With --ladder FILE and SECOND are the two directions of one line, drawn as arrows to the
right and to the left. Captures have no times: the directions take turns, but a frame waits
until what it replies to is drawn; if both wait for data, these are missing.",
};

/// The options of `explain`.
static EXPLAIN_OPTIONS: [CommandOption; 8] = table! {
    "file": Place("FILE"), "File to read; standard input if left out or -";
    "second": Place("SECOND"), "File of the other direction, for --ladder";
    "raw": Nothing, "Read raw bytes, not hexadecimal digits";
    "from": Text("hexdump|xxd|od|text|auto"),
        "Read a dump or a log's digits; auto detects the form";
    "json": Nothing, "Print one JSON object per line";
    "discarded": Nothing, "Report skipped bytes, an unfinished frame, no good frame";
    "ladder": Nothing, "Draw two files, one of each direction, as a ladder";
    "max": Number(1, MAX_COUNT as u32),
        "Longest data of a frame, 1 to 16383 bytes [default: 16383]";
};

/// Returns the parser of `explain` with its options.
pub(crate) fn explain_parser<'a>(alloc: Global) -> Made<'a>
    ensures { Makes result explain_app }
{
    with_options(alloc, Ok(begun(alloc, &EXPLAIN)), &EXPLAIN_OPTIONS)
}

/// Returns the form of the input: raw bytes if `--raw` is given, else digits.
fn form_given(options: &ArgMatches<'_>) -> Form
    ensures { HasForm (one_text (found_of options.now) (codes "raw")) result }
{
    if options.get_flag("raw") {
        Form::Raw
    } else {
        Form::Hex
    }
}

/// Returns the style of the output.
fn style_given(options: &ArgMatches<'_>) -> Style
    ensures { HasStyle (one_text (found_of options.now)) result }
{
    Style {
        notation: notation_given(options),
        discarded: flag_given(options, "discarded"),
    }
}

/// Returns the arguments of `explain`, with defaults.
pub(crate) fn explain_given<'a>(options: &ArgMatches<'a>) -> ExplainArgs<'a>
    ensures { HasExplain (one_text (found_of options.now)) (first_value (found_of options.now))
        result }
{
    ExplainArgs {
        form: form_given(options),
        from: options.get_str("from"),
        style: style_given(options),
        max: number_given(options, "max", 1, MAX_COUNT as u32, MAX_COUNT as u32) as u16,
        file: file_given(options, "file"),
        second: file_given(options, "second"),
        ladder: flag_given(options, "ladder"),
    }
}
