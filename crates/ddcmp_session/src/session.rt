//! A link with its messages as text, without a device.
ghost use Rattle.std.specs.Prelude.{◌≡◌, ◌⊎◌, [], Err, IfOk, IsOk, None, Some};
ghost use Rattle.ddcmp_frame.specs.Reader.{StandsFor};
ghost use Rattle.ddcmp_proto.specs.Config.{first_refusal};
ghost use Rattle.ddcmp_session.specs.Reported.{TracesIfAsked};
ghost use Rattle.ddcmp_session.specs.Session.{link_begun};

mod closing;
mod input;
mod line;
mod output;
mod patience;
mod start;
mod timing;

use crate::course::Course;
use crate::text;
use ddcmp_io::{ByteQueue, LineKind};
use ddcmp_station::{ConfigRefusal, Link};
use ddcmp_streams::{Echo, Errors, Messages, Options, Trace};
use std::alloc::Global;
use std::marker::Model;

/// The room for queued standard output beside the longest message, in bytes.
const OUTPUT_ROOM: usize = 65536;

/// The room for queued lines for standard error, in bytes; with a trace it is eight times as large.
const ERRORS_ROOM: usize = 65536;

/// The reason for which a session leaves its line.
#[derive(Clone, Copy, Debug, PartialEq, Eq)]
pub enum EndReason {
    /// All of the input was delivered, or lost with a line that has ended.
    Done,
    /// The time limit of the run was reached.
    Time,
    /// The peer restarted, which halted the station, or a command asks for a restart.
    Restarted,
    /// The peer didn't reply, or refused messages, too many times in a row.
    GivenUp,
}

/// A link with its messages as text: standard input on one side, a line on the other, and two
/// outputs. It makes all decisions, and has no device and no clock: pass it the received bytes and
/// the current time in milliseconds since it was made, and write what it returns.
///
/// Once a line is open call `connected`. Then, in any order: `input_read` with bytes of the input
/// while `wants_input`, and `input_ended` at its end if `takes_end`; `received` with bytes of the
/// line while `wants_line`; `fill`, then write what `to_line` returns and call `line_took`; the
/// same with `to_output` and `to_errors`; `deliver` after each of these, until it returns false.
/// A received message is acknowledged once `output_took` reports that its text was written.
/// Call `handle_timeout` before and after each wait, and wait until `wakes_at` at most. If `end`
/// returns a reason, or the line ends, call `line_ended`, which reports what is lost; without that
/// call the loss is only counted, once the session starts on another line. `close` and `finish` end
/// the run. No call after `new` allocates.
pub struct Session {
    options: Options,
    kind: LineKind,
    link: Link,
    messages: Messages,
    output: ByteQueue,
    errors: Errors,
    /// How many received messages, from the first on, have their text in the output or written,
    /// and aren't taken from the link.
    unwritten: u8,
    mail: Vec<u8>,
    trace: Option<Trace>,
    echo: Echo,
    course: Course,
    /// How many messages of an input in binary were read.
    read: u64,
    input_is_read: bool,
    was_refused: bool,
    /// Whether a line is open: what isn't acknowledged is lost when it ends.
    has_line: bool,
}

impl Model for Session {
    ghost use Rattle.std.specs.Prelude.{◌≡◌, ◌<◌, vec_len};
    ghost use Rattle.ddcmp_session.specs.Logged.{LoggedSession};
    ghost use Rattle.ddcmp_session.specs.Session.{form_of};

    ghost Value = { LoggedSession };

    ghost view = { λ s. record {
      state = record {
        options = s.options;
        kind = s.kind;
        link = s.link;
        has_line = s.has_line;
        course = s.course;
        messages = s.messages;
        is_read = s.input_is_read;
        was_refused = s.was_refused;
        output = s.output;
        unwritten = s.unwritten;
      };
      log = record {
        errors = s.errors;
        trace = s.trace;
        echo = s.echo;
        read = s.read;
      };
    } };

    ghost invariant = { λ s. (s.options.form ≡ form_of s.messages)
        × (s.link.station.core.limits.longest ≡ vec_len s.mail) × (vec_len s.mail < 65536) };
}

// Manual, since a derived `Drop` is expanded wherever a session is dropped.
impl Drop for Session {
    fn drop(self) {
        let Session {
            options: _,
            kind: _,
            link: _link,
            messages: _messages,
            output: _output,
            unwritten: _,
            errors: _errors,
            mail: _mail,
            trace: _trace,
            echo: _echo,
            course: _,
            read: _,
            input_is_read: _,
            was_refused: _,
            has_line: _,
        } = self;
    }
}

/// Makes a link that acknowledges messages when they are taken, unless each is taken at once.
fn new_link(alloc: Global, options: &Options) -> Result<Link, ConfigRefusal>
    ensures made { IfOk result (λ l. l ≡ link_begun options.now l.station.line) }
    ensures stands { IfOk result (λ l. StandsFor l.station.line []) }
    ensures refused { (refusal : ConfigRefusal) → first_refusal options.now.config ≡ Some refusal
        → result ≡ Err refusal }
    ensures only { first_refusal options.now.config ≡ None → IsOk result
        ⊎ (result ≡ Err ConfigRefusal.Memory) }
{
    let mut link = match Link::new(alloc, options.config, options.timer_ms) {
        Ok(link) => link,
        Err(refusal) => return Err(refusal),
    };
    let _chosen = link.acknowledge_on_take(!options.takes_at_once());
    Ok(link)
}

/// Makes a trace, if one is asked for.
fn trace_of(alloc: Global, options: &Options) -> Result<Option<Trace>, ConfigRefusal>
    ensures made { IfOk result (λ trace. TracesIfAsked options.now trace) }
    ensures only { IsOk result ⊎ (result ≡ Err ConfigRefusal.Memory) }
{
    let Some(notation) = options.trace else {
        return Ok(None);
    };
    match Trace::new(
        alloc,
        notation,
        options.config.max,
        text::text_room(options.config.max),
    ) {
        Ok(trace) => Ok(Some(trace)),
        Err(_refused) => Err(ConfigRefusal::Memory),
    }
}

impl Session {
    ghost use Rattle.std.specs.Prelude.{◌≡◌, ◌⊎◌, ◌+◌, ◌*◌, [], IfOk, IsOk, None, Some, Err};
    ghost use Rattle.ddcmp_frame.specs.Reader.{StandsFor};
    ghost use Rattle.ddcmp_proto.specs.Config.{first_refusal};
    ghost use Rattle.ddcmp_session.specs.Reported.{TracesIfAsked, log_made};
    ghost use Rattle.ddcmp_session.specs.Session.{session_made};

    /// Makes a session that has no line yet. Allocates all the memory that it will need.
    pub fn new(alloc: Global, options: Options, kind: LineKind) -> Result<Session, ConfigRefusal>
        ensures made { IfOk result (λ s. s.state
            ≡ session_made options kind s.state.link.station.line) }
        ensures room { IfOk result (λ s. s.state.output.size ≡ 131_232 + 4 * options.config.max) }
        ensures stands { IfOk result (λ s. StandsFor s.state.link.station.line []) }
        ensures log { IfOk result (λ s. s.log ≡ log_made options s.log.trace) }
        ensures traced { IfOk result (λ s. TracesIfAsked options s.log.trace) }

        // If a size is out of range, the first such is the refusal; otherwise it can only be an
        // allocation failure.
        ensures refused { (refusal : ConfigRefusal) → first_refusal options.config ≡ Some refusal
            → result ≡ Err refusal }
        ensures only { first_refusal options.config ≡ None → IsOk result
            ⊎ (result ≡ Err ConfigRefusal.Memory) }
    {
        let max = options.config.max;
        let link = match new_link(alloc, &options) {
            Ok(link) => link,
            Err(refusal) => return Err(refusal),
        };
        let trace = match trace_of(alloc, &options) {
            Ok(trace) => trace,
            Err(refusal) => return Err(refusal),
        };
        let errors_room = if options.trace.is_some() {
            8 * ERRORS_ROOM
        } else {
            ERRORS_ROOM
        };
        let Ok(messages) = Messages::new(alloc, options.form, max) else {
            return Err(ConfigRefusal::Memory);
        };
        let room = OUTPUT_ROOM + text::NOTICES_ROOM + 2 * text::text_room(max);
        let Ok(output) = ByteQueue::new(alloc, room) else {
            return Err(ConfigRefusal::Memory);
        };
        let Ok(errors) = Errors::new(alloc, errors_room) else {
            return Err(ConfigRefusal::Memory);
        };
        let Ok(mail) = Vec::from_elem(alloc, 0u8, max as usize) else {
            return Err(ConfigRefusal::Memory);
        };
        let Ok(echo) = Echo::new(alloc) else {
            return Err(ConfigRefusal::Memory);
        };
        let course = Course::begun(options.report_ms());
        Ok(Session {
            options,
            kind,
            link,
            messages,
            output,
            unwritten: 0,
            errors,
            mail,
            trace,
            echo,
            course,
            read: 0,
            input_is_read: false,
            was_refused: false,
            has_line: false,
        })
    }
}
