//! `tap`: a proxy between two addresses that logs the traffic.
ghost use Rattle.std.specs.Prelude.{◌≡◌, ◌≤◌, Err, IsTrue, false};
ghost use Rattle.ddcmp_core.specs.Limits.{MAX_COUNT};
ghost use Rattle.ddcmp_commands.specs.Endings.{is_json as is_json_notation};
ghost use Rattle.ddcmp_commands.specs.TapEndings.{TapEnds, Taps, TapsAsked, TapsInTurn};
ghost use Rattle.ddcmp_commands.specs.TapEndings.{carrier_text, notation_of as notation};
ghost use Rattle.ddcmp_commands.specs.TapEndings.{times_of as times};
ghost use Rattle.ddcmp_ports.specs.Events.{open_fault_text};

use crate::ending::Ending;
use crate::fault::Fault;
use crate::usage::{no_line, usage};
use ddcmp_args::TapArgs;
use ddcmp_explain::Notation;
use ddcmp_io::Sink;
use ddcmp_log::LogNotation;
use ddcmp_ports::{Attempt, Cause, OpenFault};
use ddcmp_tap::{CarrierFault, LogTimes, Stage, TapFault, TapLog, tap_again};
use std::alloc::Global;
use std::io::Eprint;
use std::net::{Net, TcpStream};
use std::time;

/// Returns the connection that a tap can't make, as for the line of a link.
fn open_fault<'a>(args: &TapArgs<'a>, why: CarrierFault) -> OpenFault<'a>
    ensures { open_fault_text result ≡ carrier_text args.now why }
{
    let (attempt, name) = match why.stage {
        Stage::Listen => (Attempt::Listen, args.listen),
        Stage::Connect => (Attempt::Connect, args.connect),
        Stage::Wait => (Attempt::Open, "epoll"),
    };
    OpenFault {
        attempt,
        name,
        cause: match why.cause {
            Some(kind) => Cause::System(kind),
            None => Cause::UnknownHost,
        },
    }
}

/// Returns how the program ends after this fault of a tap.
fn ending_of_fault(alloc: Global, args: &TapArgs<'_>, fault: TapFault) -> Ending
    ensures ends { TapEnds args.now (Err fault) result }
    ensures write { fault ≡ TapFault.Report → result ≡ Ending.Fault Fault.Write }
{
    match fault {
        TapFault::Carrier(why) => no_line(alloc, &open_fault(args, why)),
        TapFault::Read => Ending::Fault(Fault::Read),
        TapFault::Write | TapFault::Report => Ending::Fault(Fault::Write),
        TapFault::Memory => Ending::Fault(Fault::Memory),
    }
}

/// The usage error for `--json` with `--ladder`.
pub const TWO_NOTATIONS: &str = "'--json' and '--ladder' can't be used together";

/// Returns whether a notation is JSON.
pub fn is_json(notation: Notation) -> bool
    ensures { result ≡ is_json_notation notation }
{
    match notation {
        Notation::Plain => false,
        Notation::Json => true,
    }
}

/// Returns the notation of the log.
fn notation_of(args: &TapArgs<'_>) -> LogNotation
    ensures { result ≡ notation args.now }
{
    match (args.notation, args.ladder) {
        (_, true) => LogNotation::Ladder,
        (Notation::Plain, false) => LogNotation::Plain,
        (Notation::Json, false) => LogNotation::Json,
    }
}

/// Returns what lines begin with.
fn times_of(args: &TapArgs<'_>) -> LogTimes
    ensures { result ≡ times args.now }
{
    match (args.clock, args.time) {
        (true, _) => LogTimes::OfDay,
        (false, true) => LogTimes::Elapsed,
        (false, false) => LogTimes::Absent,
    }
}

/// Returns how the traffic is logged.
fn log_of(args: &TapArgs<'_>) -> TapLog
    ensures notation { result.notation ≡ notation args.now }
    ensures times { result.times ≡ times args.now }
    ensures report { result.report ≡ args.now.report }
    ensures max { result.max ≡ args.now.max }
{
    TapLog {
        notation: notation_of(args),
        times: times_of(args),
        began: 0,
        report: args.report,
        max: args.max,
    }
}

/// Opens both connections, and forwards between them until both sides have ended.
fn tap_between<S: Net<Stream = TcpStream> + Eprint + time::Clock, W: Sink>(
    system: &S,
    alloc: Global,
    args: &TapArgs<'_>,
    writer: &mut W,
) -> Ending
    requires whole { W.broken writer.old ≡ false }
    requires low { 1 ≤ args.now.max }
    requires high { args.now.max ≤ MAX_COUNT }
    ensures taps { Taps args.now (W.contents writer.old) (W.contents writer.new) result }
    ensures written { IsTrue (W.broken writer.new) → result ≡ Ending.Fault Fault.Write }
{
    let log = log_of(args);
    match ddcmp_tap::tap(system, alloc, args.listen, args.connect, log, writer) {
        Ok(()) => Ending::Done,
        Err(fault) => ending_of_fault(alloc, args, fault),
    }
}

/// Serves one caller after another, until a fault that isn't of one side.
fn tap_in_turn<S: Net<Stream = TcpStream> + Eprint + time::Clock, W: Sink>(
    system: &S,
    alloc: Global,
    args: &TapArgs<'_>,
    writer: &mut W,
) -> Ending
    requires whole { W.broken writer.old ≡ false }
    requires low { 1 ≤ args.now.max }
    requires high { args.now.max ≤ MAX_COUNT }
    ensures taps { TapsInTurn args.now (W.contents writer.old) (W.contents writer.new) result }
    ensures written { IsTrue (W.broken writer.new) → result ≡ Ending.Fault Fault.Write }
{
    let log = log_of(args);
    let fault = tap_again(system, alloc, args.listen, args.connect, log, writer);
    ending_of_fault(alloc, args, fault)
}

/// Runs `tap`.
pub fn tap<S: Net<Stream = TcpStream> + Eprint + time::Clock, W: Sink>(
    system: &S,
    alloc: Global,
    args: &TapArgs<'_>,
    writer: &mut W,
) -> Ending
    requires whole { W.broken writer.old ≡ false }
    requires low { 1 ≤ args.now.max }
    requires high { args.now.max ≤ MAX_COUNT }
    ensures taps { TapsAsked args.now (W.contents writer.old) (W.contents writer.new) result }
    ensures written { IsTrue (W.broken writer.new) → result ≡ Ending.Fault Fault.Write }
{
    let misused = args.ladder && is_json(args.notation);
    match misused {
        true => usage(alloc, TWO_NOTATIONS),
        false => match args.again {
            true => tap_in_turn(system, alloc, args, writer),
            false => tap_between(system, alloc, args, writer),
        },
    }
}
