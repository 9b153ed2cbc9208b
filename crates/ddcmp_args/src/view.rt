//! The options for the output of a run.
ghost use Rattle.clap.specs.Words.{found_of, one_text};
ghost use Rattle.ddcmp_args.specs.Args.{HasView};

use crate::given::flag_given;
use crate::options::Takes::Nothing;
use crate::options::{CommandOption, table};
use clap::ArgMatches;

/// The options for the output of a run between two ends. At most one of the two pictures is drawn.
#[derive(Clone, Copy, Debug)]
pub struct ScriptView {
    /// A document in SVG, in place of the text.
    pub svg: bool,
    /// A ladder, in place of the text.
    pub ladder: bool,
    /// The counters of both stations, before the last line.
    pub counters: bool,
}

/// The options for the output of a run.
pub(crate) static VIEW_OPTIONS: [CommandOption; 3] = table! {
    "svg": Nothing, "Draw the run as an SVG document";
    "ladder": Nothing, "Draw the run as a ladder of text";
    "counters": Nothing, "Print the counters of both stations before the last line";
};

/// Returns the options for the output of a run.
pub(crate) fn view_given(options: &ArgMatches<'_>) -> ScriptView
    ensures { HasView (one_text (found_of options.now)) result }
{
    ScriptView {
        svg: flag_given(options, "svg"),
        ladder: flag_given(options, "ladder"),
        counters: flag_given(options, "counters"),
    }
}
