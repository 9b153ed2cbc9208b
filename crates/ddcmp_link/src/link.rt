//! A link over a line, from its opening to its end.
ghost use Rattle.std.specs.Prelude.{◌≡◌, ◌≢◌, ◌↔◌, Err, IsTrue, false};

use crate::ending::LinkStop;
use crate::fault::LinkFailure;
use crate::live::{Live, Parts};
use ddcmp_device::{Poller, StandardInput, System};
use ddcmp_io::{LineKind, Sink, Source, Worst};
use ddcmp_ports::LineName;
use ddcmp_session::{LinkFault, LinkOutcome, Options, run_link};
use ddcmp_station::Elapsed;
use std::alloc::Global;
use std::fs::{File, Files};
use std::io::{Eprint, ErrorKind};
use std::net::{self, Net};
use std::time;

/// The line of a link.
#[derive(Clone, Copy)]
pub struct LinkLine<'a> {
    pub name: LineName<'a>,
    /// The host whose callers alone are accepted, if not all are.
    pub only: Option<&'a str>,
}

/// Runs a link between a line and standard input and output, which `reader` and `writer` read and
/// write, until all of the input is delivered, or the line ends. The end of the input is waited for
/// only if it has one; with `stay` a FIFO has none.
pub fn link_line<'a, S, R: Source, W: Sink>(
    system: &S,
    alloc: Global,
    line: LinkLine<'a>,
    options: Options,
    reader: &mut R,
    writer: &mut W,
) -> Result<LinkOutcome, LinkFailure<'a>>
where
    S: Net<Stream = net::TcpStream, Listener = net::TcpListener>
        + Files<File = File>
        + Eprint
        + time::Clock,
    ensures broken { (result ≡ Err LinkFailure.Write) ↔ IsTrue (W.broken writer.new) }
    ensures unread { R.state reader.new ≡ Worst.Failed → W.broken writer.new ≡ false
        → result ≡ Err LinkFailure.Read }
{
    let input = StandardInput::new(system, alloc, options.stay);
    let options = Options {
        awaits_end: options.awaits_end && input.has_end(),
        ..options
    };
    let ended = run_over_devices(system, alloc, line, options, reader, writer);
    ending_of(ended, line.name, reader, writer)
}

/// Returns how a link over a line of this name ends: with a fault of the output if there is one,
/// else with one of the input, else as the run ended.
fn ending_of<'a, R: Source, W: Sink>(
    ended: Result<LinkOutcome, LinkStop>,
    line: LineName<'a>,
    reader: &R,
    writer: &W,
) -> Result<LinkOutcome, LinkFailure<'a>>
    ensures broken { (result ≡ Err LinkFailure.Write) ↔ IsTrue (W.broken writer.now) }
    ensures unread { R.state reader.now ≡ Worst.Failed → W.broken writer.now ≡ false
        → result ≡ Err LinkFailure.Read }
{
    if writer.failed() {
        return Err(LinkFailure::Write);
    }
    if reader.worst() == Worst::Failed {
        return Err(LinkFailure::Read);
    }
    match ended {
        Ok(outcome) => Ok(outcome),
        Err(ended) => Err(ended.fault(line)),
    }
}

/// Makes the devices of a link, and runs it over them.
fn run_over_devices<S: System, R: Source, W: Sink>(
    system: &S,
    alloc: Global,
    line: LinkLine<'_>,
    options: Options,
    reader: &mut R,
    writer: &mut W,
) -> Result<LinkOutcome, LinkStop> {
    let poller = match Poller::new(system, alloc) {
        Ok(poller) => poller,
        Err(error) => return Err(no_poller(error.kind())),
    };
    let parts = Parts {
        system,
        poller,
        name: line.name,
        only: line.only,
        baud: options.baud,
        clock: Elapsed::new(system),
        reader,
        writer,
    };
    let kind = line.name.kind();
    let datagrams = match kind {
        LineKind::Datagrams => Some(options.config.max),
        LineKind::Connect | LineKind::Listen | LineKind::Device => None,
    };
    let Ok(mut devices) = Live::new(parts, alloc, datagrams) else {
        return Err(LinkStop::Memory);
    };
    match run_link(alloc, options, kind, &mut devices) {
        Ok(outcome) => Ok(outcome),
        Err(LinkFault::Refused(_)) => Err(LinkStop::Memory),
        Err(LinkFault::Stopped(stop)) => Err(LinkStop::Stopped(stop)),
    }
}

/// Returns why the run of a link that can't wait for several devices ended.
fn no_poller(kind: ErrorKind) -> LinkStop
    ensures memory { kind ≡ ErrorKind.OutOfMemory → result ≡ LinkStop.Memory }
    ensures other { kind ≢ ErrorKind.OutOfMemory → result ≡ LinkStop.CannotWait kind }
{
    match kind {
        ErrorKind::OutOfMemory => LinkStop::Memory,
        kind => LinkStop::CannotWait(kind),
    }
}
