//! `link`: messages between a line and the program's streams.
ghost use Rattle.std.specs.Prelude.{◌≡◌, ◌↔◌, Err, IsTrue, false};
ghost use Rattle.ddcmp_cli.specs.LinkEndings.{LinkEnds, Links, has_no_callers, has_no_speed};
ghost use Rattle.ddcmp_cli.specs.LinkEndings.{has_two_notations, means_nothing};

use ddcmp_args::link_args::{DEFAULT_ATTEMPTS, LinkArgs, default_timer};
use ddcmp_bridge::{BridgeEnd, BridgeOptions};
use ddcmp_commands::usage::{no_line, usage};
use ddcmp_commands::{Ending, Fault, TWO_NOTATIONS};
use ddcmp_device::{BridgeFault, bridge_lines};
use ddcmp_io::{LineKind, Sink, Source};
use ddcmp_link::{LinkFailure, LinkLine, LinkOutcome, Options, link_line};
use ddcmp_log::LogNotation;
use ddcmp_ports::LineName;
use ddcmp_proto::Config;
use std::alloc::Global;
use std::fs::{File, Files};
use std::io::Eprint;
use std::net::{self, Net};
use std::time;

/// The usage error for another value of `--line`.
const NO_LINE: &str =
    "'--line' is connect:HOST:PORT, listen:HOST:PORT, udp:LOCAL,REMOTE or device:PATH";

/// The usage error for options that can't be used in maintenance mode.
const NOT_IN_MAINTENANCE: &str = "'--maintenance' can't be used with \
    '--window', '--restart', '--timer-ms', '--attempts' or '--acknowledge-early'";

/// The usage error for `--only` with a line that has no callers.
const NO_CALLERS: &str = "'--only' is for a line listen:HOST:PORT";

/// The usage error for `--baud` with a line that is no device.
const NO_DEVICE: &str = "'--baud' is for a line device:PATH";

/// Returns whether a speed is given for a line that has none.
fn has_no_speed(line: LineName<'_>, options: &Options) -> bool
    ensures { result ≡ has_no_speed line.entry options.now }
{
    match line.kind() {
        LineKind::Device => false,
        LineKind::Connect | LineKind::Listen | LineKind::Datagrams => options.baud != 0,
    }
}

/// Returns whether the callers of a line that has none are restricted.
fn has_no_callers(line: LineName<'_>, only: Option<&str>) -> bool
    ensures { result ≡ has_no_callers line.entry only.entry }
{
    match line.kind() {
        LineKind::Listen => false,
        LineKind::Connect | LineKind::Datagrams | LineKind::Device => only.is_some(),
    }
}

/// Returns whether a ladder is asked for, and JSON.
fn has_two_notations(args: &LinkArgs<'_>) -> bool
    ensures { result ≡ has_two_notations args.now }
{
    args.options.json && matches!(args.options.trace, Some(LogNotation::Ladder))
}

/// Returns whether options are given that can't be used in maintenance mode.
fn means_nothing(args: &LinkArgs<'_>) -> bool
    ensures { result ≡ means_nothing args.now }
{
    let options = &args.options;
    options.maintenance
        && (options.config.window != Config::DEFAULT.window
            || options.config.restart
            || options.acknowledge_early
            || options.timer_ms != default_timer(args.line)
            || options.attempts != DEFAULT_ATTEMPTS)
}

/// A system that opens the lines of links.
pub trait LineSystem {
    ghost use Rattle.std.specs.Prelude.{◌≡◌, ◌↔◌, Err, IsTrue, Result, Some};
    ghost use Rattle.ddcmp_ports.specs.LineNames.{word_of};
    ghost use Rattle.ddcmp_link.specs.declared.fault.LinkFailure.{LinkFailure as FaultValue};
    ghost use Rattle.ddcmp_link.specs.declared.fault.LinkFailure.TheVariants.{Write};
    ghost use Rattle.ddcmp_session.specs.declared.link.LinkOutcome.{LinkOutcome as OutcomeValue};
    ghost use Rattle.ddcmp_bridge.specs.declared.bridge.BridgeEnd.{BridgeEnd as EndValue};
    ghost use Rattle.ddcmp_device.specs.declared.bridging.BridgeFault.{BridgeFault as NotBridged};
    ghost use Rattle.ddcmp_cli.specs.Lines.{LinesKnown, text_of};

    // What is known of its lines.
    ghost lines: { Self → LinesKnown };

    /// Opens a line and runs a link over it, between standard input and output, which `reader` and
    /// `writer` read and write.
    fn link<'a, R: Source, W: Sink>(
        &self,
        alloc: Global,
        line: LinkLine<'a>,
        options: Options,
        reader: &mut R,
        writer: &mut W,
    ) -> Result<LinkOutcome, LinkFailure<'a>>
        ensures broken { (result ≡ Err Write) ↔ IsTrue (W.broken writer.new) }
        ensures known { (ended : Result OutcomeValue FaultValue)
            → (lines self.now).links (word_of line.entry.name) (text_of line.entry.only) options
            ≡ Some ended
            → result ≡ ended };

    /// Opens two lines and passes frames on between them.
    fn bridge<'a>(
        &self,
        alloc: Global,
        first: LineName<'a>,
        second: LineName<'a>,
        options: BridgeOptions<'a>,
    ) -> Result<BridgeEnd, BridgeFault<'a>>
        ensures { (ended : Result EndValue NotBridged)
            → (lines self.now).bridges (word_of first.entry) (word_of second.entry) options.entry
            ≡ Some ended → result ≡ ended };
}

impl LineSystem for HostRuntime {
    ghost use Rattle.ddcmp_cli.specs.Lines.{no_lines_known};

    ghost lines = { λ _. no_lines_known };

    fn link<'a, R: Source, W: Sink>(
        &self,
        alloc: Global,
        line: LinkLine<'a>,
        options: Options,
        reader: &mut R,
        writer: &mut W,
    ) -> Result<LinkOutcome, LinkFailure<'a>> {
        link_line(self, alloc, line, options, reader, writer)
    }

    fn bridge<'a>(
        &self,
        alloc: Global,
        first: LineName<'a>,
        second: LineName<'a>,
        options: BridgeOptions<'a>,
    ) -> Result<BridgeEnd, BridgeFault<'a>> {
        bridge_over(self, alloc, first, second, options)
    }
}

/// Opens two lines and passes frames on between them. The system's traits are listed, since
/// `ddcmp_device::System` can't stand for them where the system is known.
fn bridge_over<'a, S>(
    system: &S,
    alloc: Global,
    first: LineName<'a>,
    second: LineName<'a>,
    options: BridgeOptions<'a>,
) -> Result<BridgeEnd, BridgeFault<'a>>
where
    S: Net<Stream = net::TcpStream, Listener = net::TcpListener>
        + Files<File = File>
        + Eprint
        + time::Clock,
{
    bridge_lines(system, alloc, first, second, options)
}

/// Runs a link until all of standard input is delivered, or its line ends.
pub(crate) fn link<S: LineSystem, R: Source, W: Sink>(
    system: &S,
    alloc: Global,
    args: &LinkArgs<'_>,
    reader: &mut R,
    writer: &mut W,
) -> Ending
    requires whole { W.broken writer.old ≡ false }
    ensures links { Links (S.lines system.now) args.now result }
    ensures write { (result ≡ Ending.Fault Fault.Write) ↔ IsTrue (W.broken writer.new) }
{
    let Some(name) = LineName::read(args.line) else {
        return usage(alloc, NO_LINE);
    };
    if has_no_callers(name, args.only) {
        return usage(alloc, NO_CALLERS);
    }
    if has_no_speed(name, &args.options) {
        return usage(alloc, NO_DEVICE);
    }
    if means_nothing(args) {
        return usage(alloc, NOT_IN_MAINTENANCE);
    }
    if has_two_notations(args) {
        return usage(alloc, TWO_NOTATIONS);
    }
    let line = LinkLine {
        name,
        only: args.only,
    };
    let ended = system.link(alloc, line, args.options, reader, writer);
    ending_of(alloc, ended)
}

/// Returns how the program ends after a link with this result.
fn ending_of(alloc: Global, ended: Result<LinkOutcome, LinkFailure<'_>>) -> Ending
    ensures ends { LinkEnds ended.entry result }
    ensures write { (result ≡ Ending.Fault Fault.Write) ↔ (ended.entry ≡ Err LinkFailure.Write) }
{
    match ended {
        Ok(LinkOutcome::Delivered) => Ending::Done,
        Ok(LinkOutcome::SomeRefused) => Ending::SomeRefused,
        Ok(LinkOutcome::TooLong) => Ending::Fault(Fault::Ended),
        Err(LinkFailure::Open(fault)) => no_line(alloc, &fault),
        Err(LinkFailure::Ended) => Ending::Fault(Fault::Ended),
        Err(LinkFailure::Lost(count)) => Ending::Fault(Fault::Lost(count)),
        Err(LinkFailure::Read) => Ending::Fault(Fault::Read),
        Err(LinkFailure::Write) => Ending::Fault(Fault::Write),
        Err(LinkFailure::Memory) => Ending::Fault(Fault::Memory),
    }
}
