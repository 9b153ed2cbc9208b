//! `bridge`: passes the good frames of each of two lines on to the other.
ghost use Rattle.std.specs.Prelude.{◌≡◌, ◌↔◌, IsTrue, false};
ghost use Rattle.ddcmp_cli.specs.BridgeEndings.{BridgeEnds, Bridges, Reports, trace_of};

use crate::link_command::LineSystem;
use ddcmp_args::BridgeArgs;
use ddcmp_bridge::{BridgeEnd, BridgeOptions, write_report};
use ddcmp_commands::usage::{no_line, usage};
use ddcmp_commands::{Ending, Fault, TWO_NOTATIONS, is_json};
use ddcmp_device::BridgeFault;
use ddcmp_explain::Notation;
use ddcmp_io::Sink;
use ddcmp_log::LogNotation;
use ddcmp_ports::LineName;
use std::alloc::Global;

/// The usage error for a LINE that isn't one.
const NO_LINE: &str =
    "a LINE is connect:HOST:PORT, listen:HOST:PORT, udp:LOCAL,REMOTE or device:PATH";

/// Writes the report of a bridge, and returns how the program ends.
fn ending_of<W: Sink>(
    alloc: Global,
    ended: Result<BridgeEnd, BridgeFault<'_>>,
    writer: &mut W,
) -> Ending
    requires whole { W.broken writer.old ≡ false }
    ensures ends { BridgeEnds (W.contents writer.old) (W.contents writer.new) ended.entry result }
    ensures write { (result ≡ Ending.Fault Fault.Write) ↔ IsTrue (W.broken writer.new) }
{
    match ended {
        Ok(end) => report(&end, writer),
        Err(BridgeFault::Open(fault)) => no_line(alloc, &fault),
        Err(BridgeFault::Memory) => Ending::Fault(Fault::Memory),
    }
}

/// Writes the report of a bridge.
fn report<W: Sink>(end: &BridgeEnd, writer: &mut W) -> Ending
    requires whole { W.broken writer.old ≡ false }
    ensures reports { Reports (W.contents writer.old) (W.contents writer.new) end.now result }
    ensures write { (result ≡ Ending.Fault Fault.Write) ↔ IsTrue (W.broken writer.new) }
{
    match write_report(writer, &end.there, &end.back) {
        Ok(()) => match end.has_failed {
            true => Ending::Fault(Fault::Ended),
            false => Ending::Done,
        },
        Err(_failed) => Ending::Fault(Fault::Write),
    }
}

/// Returns the notation in which received frames are printed, or drawn, if they are.
fn traced_as(args: &BridgeArgs<'_>) -> Option<LogNotation>
    ensures { result ≡ trace_of args.now }
{
    match (args.ladder, args.notation, args.trace) {
        (true, _, _) => Some(LogNotation::Ladder),
        (false, Notation::Json, _) => Some(LogNotation::Json),
        (false, Notation::Plain, true) => Some(LogNotation::Plain),
        (false, Notation::Plain, false) => None,
    }
}

/// Passes frames on between two lines until one of them ends, and writes the report.
pub(crate) fn bridge<S: LineSystem, W: Sink>(
    system: &S,
    alloc: Global,
    args: &BridgeArgs<'_>,
    writer: &mut W,
) -> Ending
    requires whole { W.broken writer.old ≡ false }
    ensures bridges { Bridges (S.lines system.now) args.now (W.contents writer.old)
        (W.contents writer.new) result }
    ensures write { (result ≡ Ending.Fault Fault.Write) ↔ IsTrue (W.broken writer.new) }
{
    if args.ladder && is_json(args.notation) {
        return usage(alloc, TWO_NOTATIONS);
    }
    let Some(first) = LineName::read(args.first) else {
        return usage(alloc, NO_LINE);
    };
    let Some(second) = LineName::read(args.second) else {
        return usage(alloc, NO_LINE);
    };
    let options = BridgeOptions {
        seconds: args.seconds,
        again: args.again,
        faults: args.faults,
        delay_ms: args.delay,
        baud: args.baud,
        trace: traced_as(args),
        report: args.report,
        clock: args.clock,
        save_first: args.save_first,
        save_second: args.save_second,
        append: args.append,
    };
    let ended = system.bridge(alloc, first, second, options);
    ending_of(alloc, ended, writer)
}
