//! The arguments of `link`.
ghost use Rattle.std.specs.Prelude.{◌≡◌, ◌≤◌, codes};
ghost use Rattle.clap.specs.Words.{first_value, found_of, one_text};
ghost use Rattle.ddcmp_args.specs.Inside.Making.{Makes};
ghost use Rattle.ddcmp_args.specs.Args.{HasLink, HasMessages, HasTrace, link_app};
ghost use Rattle.ddcmp_args.specs.Args.{default_linger_of, default_syn_of, default_timer_of};
ghost use Rattle.ddcmp_args.specs.Args.{timers_lingered};
ghost use Rattle.ddcmp_proto.specs.declared.config.TheConstants.{MAX_SYN};

use crate::given::{flag_given, number_given, text_given};
use crate::options::Takes::{Nothing, Number, Text};
use crate::options::{CommandOption, CommandText, table};
use crate::parser::{Made, begun, with_options};
use crate::size_args::{SIZE_OPTIONS, sizes_given};
use clap::ArgMatches;
use ddcmp_log::LogNotation;
use ddcmp_streams::{MessageForm, Options};
use std::alloc::Global;

/// The `attempts` of a link if no option sets them.
pub const DEFAULT_ATTEMPTS: u32 = u32::MAX;

/// The arguments of a link.
#[derive(Clone, Copy, Debug)]
pub struct LinkArgs<'a> {
    /// The name of the line, such as `connect:127.0.0.1:7000`.
    pub line: &'a str,
    /// The host whose callers are accepted, if it is given.
    pub only: Option<&'a str>,
    pub options: Options,
}

/// `link`, with its description and help.
static LINK: CommandText = CommandText {
    name: "link",
    about: "Exchange messages over a line, by standard input and output",
    help: "\
LINE is one of:
  connect:HOST:PORT      a TCP connection to this address
  listen:HOST:PORT       a TCP connection accepted at this address
  udp:LOCAL,REMOTE       datagrams between two addresses
  device:PATH            a serial device that is set up already, as by stty;
                         the default of --syn is 4
Input: one message per line, in hexadecimal digits; a line ? asks for a report.
With --events such a line may be a command, as ?ready; the commands are below.
Output, as it happens:
  notice N               a notice of the station, as Running or Acknowledged 1
  mail HEX               a received message
  lost N                 messages that were accepted and may not have arrived
  state=S read=R written=W sent=M acknowledged=K handed=H
                         at the end: state, bytes of the line, messages
With --binary each message is preceded by its length in two bytes, high byte first,
and all else goes to standard error; with --events, too, notices and losses are in
the output: the text of such a line after its length, whose top bit is set. Commands
in the input have that form, too: ready, which is due after each notice Running,
RunningAndHandedUp or Restarted, and before which messages are lost; restart, which
leaves the line; halt, the same until start; report; and quit, which ends the input.
With --maintenance, as for MOP, each message goes once: it may be lost, and is
never damaged. A message counts as delivered once it is written.",
};

/// The line of a link, which is required, and who may call.
static LINE_OPTIONS: [CommandOption; 2] = table! {
    "line" required: Text("LINE"), "Line to open, as connect:127.0.0.1:7000";
    "only": Text("HOST"), "Accept callers of this host alone, on a listen: line";
};

/// The options of a link apart from its line and its sizes.
static LINK_OPTIONS: [CommandOption; 17] = table! {
    "timer-ms": Number(1, u32::MAX),
        "Reply timer in milliseconds, from 1 [default: 3000, over UDP 500]";
    "attempts": Number(0, u32::MAX),
        "Leave after N tries in vain, 0: never [default: 7 to start]";
    "linger-ms": Number(0, u32::MAX),
        "Once done, stay until no reply was due for N ms [default: 500 over TCP]";
    "baud": Number(0, u32::MAX),
        "Write to a device at this speed, 0: as it takes them [default: 0]";
    "seconds": Number(1, u32::MAX), "End after N seconds, whatever the state";
    "report": Number(0, u32::MAX), "Report the counters on standard error every N seconds";
    "binary": Nothing, "Read and write messages as bytes after their length";
    "events": Nothing, "Read commands; with --binary, write notices among the messages";
    "acknowledge-early": Nothing, "Acknowledge messages once received, not once written";
    "maintenance": Nothing, "Exchange maintenance messages, which nobody acknowledges";
    "stay": Nothing, "Keep running once all input was delivered";
    "again": Nothing, "Open the line again if it ends or can't be opened";
    "counters": Nothing, "Print the station's counters before the last line";
    "trace": Nothing, "Log each frame both ways on standard error";
    "ladder": Nothing, "Draw each frame as an arrow of a ladder there";
    "clock": Nothing, "Begin each line on standard error with the time of day (UTC)";
    "json": Nothing, "Write reports and the lines of --trace as JSON objects";
};

/// Returns the parser of `link` with its options.
pub(crate) fn link_parser<'a>(alloc: Global) -> Made<'a>
    ensures { Makes result link_app }
{
    let lined = with_options(alloc, Ok(begun(alloc, &LINK)), &LINE_OPTIONS);
    let sized = with_options(alloc, lined, &SIZE_OPTIONS);
    with_options(alloc, sized, &LINK_OPTIONS)
}

/// Returns the default for SYN bytes before each frame of a line: a serial line needs them for
/// synchronism.
fn default_syn(line: &str) -> u8
    ensures value { result ≡ default_syn_of line.now }
    ensures most { result ≤ MAX_SYN }
{
    if line.starts_with("device:") { 4 } else { 0 }
}

/// Returns the default for the reply timer in milliseconds. A datagram arrives soon or not at all,
/// so over UDP a lost one is asked for sooner.
pub fn default_timer(line: &str) -> u32
    ensures value { result ≡ default_timer_of line.now }
    ensures least { 1 ≤ result }
{
    if line.starts_with("udp:") { 500 } else { 3000 }
}

/// Returns how many times the reply timer of a peer that lost the last ACK may expire while a link
/// that is done waits for it. UDP and devices don't report that the peer has gone.
fn timers_lingered(line: &str) -> u32
    ensures value { result ≡ timers_lingered line.now }
    ensures most { result ≤ 10 }
{
    if line.starts_with("udp:") {
        10
    } else if line.starts_with("device:") {
        2
    } else {
        0
    }
}

/// Returns the default for the milliseconds in which a link that is done waits for its peer.
fn default_linger(line: &str, timer_ms: u32) -> u32
    ensures { result ≡ default_linger_of line.now timer_ms }
{
    let timers = timer_ms.saturating_mul(timers_lingered(line));
    timers.saturating_add(500)
}

/// Returns the form of messages.
fn messages_given(options: &ArgMatches<'_>) -> MessageForm
    ensures { HasMessages (one_text (found_of options.now) (codes "binary"))
        (one_text (found_of options.now) (codes "events")) result }
{
    let binary = flag_given(options, "binary");
    let events = flag_given(options, "events");
    match (binary, events) {
        (false, false) => MessageForm::Digits,
        (false, true) => MessageForm::EventLines,
        (true, false) => MessageForm::Binary,
        (true, true) => MessageForm::Events,
    }
}

/// Returns how frames are logged, if they are.
fn trace_given(options: &ArgMatches<'_>) -> Option<LogNotation>
    ensures { HasTrace (one_text (found_of options.now)) result }
{
    let ladder = flag_given(options, "ladder");
    let trace = flag_given(options, "trace");
    let json = flag_given(options, "json");
    match (ladder, trace, json) {
        (true, _, _) => Some(LogNotation::Ladder),
        (false, true, true) => Some(LogNotation::Json),
        (false, true, false) => Some(LogNotation::Plain),
        (false, false, _) => None,
    }
}

/// Returns the arguments of `link`.
pub(crate) fn link_given<'a>(options: &ArgMatches<'a>) -> LinkArgs<'a>
    ensures { HasLink (one_text (found_of options.now)) (first_value (found_of options.now))
        result }
{
    let line = text_given(options, "line");
    let timer_ms = number_given(options, "timer-ms", 1, u32::MAX, default_timer(line));
    let linger_ms = default_linger(line, timer_ms);
    let link_options = Options {
        config: sizes_given(options, default_syn(line)),
        timer_ms,
        attempts: number_given(options, "attempts", 0, u32::MAX, DEFAULT_ATTEMPTS),
        linger_ms: number_given(options, "linger-ms", 0, u32::MAX, linger_ms),
        baud: number_given(options, "baud", 0, u32::MAX, 0),
        seconds: number_given(options, "seconds", 1, u32::MAX, u32::MAX),
        report: number_given(options, "report", 0, u32::MAX, 0),
        form: messages_given(options),
        maintenance: flag_given(options, "maintenance"),
        acknowledge_early: flag_given(options, "acknowledge-early"),
        stay: flag_given(options, "stay"),
        awaits_end: true,
        again: flag_given(options, "again"),
        counters: flag_given(options, "counters"),
        trace: trace_given(options),
        clock: flag_given(options, "clock"),
        json: flag_given(options, "json"),
    };
    LinkArgs {
        line,
        only: options.get_str("only"),
        options: link_options,
    }
}
