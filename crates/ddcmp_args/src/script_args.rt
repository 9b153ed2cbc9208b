//! The arguments of `simulate` and `pair`.
ghost use Rattle.clap.specs.Words.{first_value, found_of, one_text};
ghost use Rattle.ddcmp_args.specs.Inside.Making.{Makes};
ghost use Rattle.ddcmp_args.specs.Args.{HasScript, script_app};

use crate::given::{file_given, flag_given};
use crate::options::Takes::{Nothing, Place};
use crate::options::{CommandOption, CommandText, table};
use crate::parser::{Made, begun, with_options};
use crate::size_args::{SIZE_OPTIONS, sizes_given};
use crate::view::{ScriptView, VIEW_OPTIONS, view_given};
use clap::ArgMatches;
use ddcmp_proto::Config;
use std::alloc::Global;

/// The two stations that a script begins with.
#[derive(Clone, Copy, Debug)]
pub struct Beginning {
    /// The sizes of both.
    pub config: Config,
    /// Whether both were started, and settled.
    pub begun: bool,
    /// Whether both acknowledge messages when they are taken, and not when they are received.
    pub by_user: bool,
}

/// The arguments of a script between two stations.
#[derive(Clone, Copy, Debug)]
pub struct ScriptArgs<'a> {
    pub from: Beginning,
    pub view: ScriptView,
    /// The file of the script; standard input if there is none.
    pub file: Option<&'a str>,
}

/// The help on the lines of a script.
const SCRIPT_HELP: &str = "\
Lines of a script (E is A or B):
  start E        start station E
  halt E         halt it
  send E HEX     give it a message to send, in hexadecimal digits
  poll E         put its next frame on its line
  pass E         deliver the first frame of its line to the other end
  cut E N        deliver the first N bytes of that frame, keep the rest
  lose E         drop that frame
  damage E N XX  XOR byte N (from 0) of that frame with XX
  raw E HEX      deliver these bytes to E
  expire E       let its reply timer expire
  take E         take a received message
  clear          clear the line, if both ends are halted
  settle         exchange frames until neither end has one
  recover        settle, then twice: both timers expire, and settle
  state E        print its state and numbers
  # TEXT         a comment";

/// `simulate`.
pub(crate) static SIMULATE: CommandText = CommandText {
    name: "simulate",
    about: "Run a script between two simulated stations A and B",
    help: SCRIPT_HELP,
};

/// `pair`.
pub(crate) static PAIR: CommandText = CommandText {
    name: "pair",
    about: "Run a script as simulate does, over a TCP connection with itself",
    help: SCRIPT_HELP,
};

/// The options for the file of a script and its stations.
static SCRIPT_OPTIONS: [CommandOption; 3] = table! {
    "file": Place("FILE"), "Script to read; standard input if left out or -";
    "begun": Nothing, "Begin with both stations running, the startup handshake done";
    "acknowledge-on-take": Nothing, "Acknowledge messages when they are taken, not when received";
};

/// Returns the parser of a command that runs a script, with its options.
pub(crate) fn script_parser<'a>(alloc: Global, named: &CommandText) -> Made<'a>
    ensures { Makes result (script_app named.now.name.now) }
{
    let scripted = with_options(alloc, Ok(begun(alloc, named)), &SCRIPT_OPTIONS);
    let sized = with_options(alloc, scripted, &SIZE_OPTIONS);
    with_options(alloc, sized, &VIEW_OPTIONS)
}

/// Returns the arguments of a script.
pub(crate) fn script_given<'a>(options: &ArgMatches<'a>) -> ScriptArgs<'a>
    ensures { HasScript (one_text (found_of options.now)) (first_value (found_of options.now))
        result }
{
    let file = file_given(options, "file");
    ScriptArgs {
        from: Beginning {
            config: sizes_given(options, 0),
            begun: flag_given(options, "begun"),
            by_user: flag_given(options, "acknowledge-on-take"),
        },
        view: view_given(options),
        file,
    }
}
