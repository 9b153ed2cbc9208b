//! The program: from its arguments to its ending.
ghost use Rattle.std.specs.Prelude.{IfErr, OnErr, ◌≡◌, ◌≢◌, ◌⊎◌, ◌↔◌, false, IsTrue, IfOk};
ghost use Rattle.std.specs.Prelude.{List, ℕ, None, Some, codes, map, string_bytes};
ghost use Rattle.std.specs.IoError.{error_kind};
ghost use Rattle.ddcmp_io.specs.Input.{GaveMost};
ghost use Rattle.ddcmp_args.specs.Args.{name_of};
ghost use Rattle.ddcmp_args.specs.declared.station_args.StationArgs.{StationArgs as StationValue};
ghost use Rattle.ddcmp_cli.specs.Endings.{CanRun, Performs, Shows, file_named, RunsAs};
ghost use Rattle.ddcmp_commands.specs.Endings.{streams};
ghost use Rattle.ddcmp_args.specs.declared.tap_args.TapArgs.{TapArgs as TapArgsValue};
ghost use Rattle.ddcmp_commands.specs.Stations.{Stations};
ghost use Rattle.ddcmp_commands.specs.TapEndings.{TapsAsked};
ghost use Rattle.ddcmp_args.specs.declared.link_args.LinkArgs.{LinkArgs as LinkArgsValue};
ghost use Rattle.ddcmp_cli.specs.LinkEndings.{Links};
ghost use Rattle.ddcmp_args.specs.declared.bridge_args.BridgeArgs.{BridgeArgs as BridgeArgsValue};
ghost use Rattle.ddcmp_cli.specs.BridgeEndings.{Bridges};
ghost use Rattle.ddcmp_io.specs.Change.{sink_change, source_change};

use crate::bridge_command::bridge;
use crate::link_command::{LineSystem, link};
use crate::script_command::{Way, script_asked};
use ddcmp_args::{Command, NoCommand, parse_args};
pub use ddcmp_args::{
    bridge_is_asked, explain_is_asked, link_is_asked, pair_is_asked, simulate_is_asked,
    station_is_asked, tap_is_asked,
};
use ddcmp_commands::{Connections, Ending, Fault, Inputs, explain_asked, station, tap};
use ddcmp_io::{Sink, Source, Worst, write_all};
use std::alloc::{AllocError, Global};
use std::io::{Eprint, ErrorKind};
use std::net::{Net, TcpStream};
use std::{io, time};

/// Runs a command.
fn perform<
    S: Net<Stream = TcpStream> + Eprint + time::Clock + Inputs + Connections + LineSystem,
    R: Source,
    W: Sink,
>(system: &S, alloc: Global, command: Command<'_>, reader: &mut R, writer: &mut W) -> Ending
    requires fine { R.state reader.old ≡ Worst.Fine }
    requires whole { W.broken writer.old ≡ false }
    requires runs { CanRun command }
    ensures performs { (input : List ℕ) → R.left reader.old ≡ Some input
        → Performs (S.held system.now) (S.peers system.now) (S.lines system.now) command.entry
        (streams input
        (R.left reader.new) (W.contents writer.old) (W.contents writer.new)) result }
    ensures read { name_of command.entry ≢ codes "link"
        → R.state reader.new ≢ Worst.Fine → result ≡ Ending.Fault Fault.Read }
    ensures read_only { name_of command.entry ≢ codes "station"
        → name_of command.entry ≢ codes "tap" → name_of command.entry ≢ codes "link"
        → file_named command.entry ≡ None
        → result ≡ Ending.Fault Fault.Read
        → (R.state reader.new ≢ Worst.Fine) ⊎ GaveMost (R.left reader.old) (R.left reader.new) }
    ensures write { name_of command.entry ≢ codes "station"
        → name_of command.entry ≢ codes "tap"
        → (result ≡ Ending.Fault Fault.Write) ↔ IsTrue (W.broken writer.new) }
    ensures whole { result ≡ Ending.Done → W.broken writer.new ≡ false }
    ensures untouched { file_named command.entry ≢ None → reader.new ≡ reader.old }
    ensures stations { (args : StationValue) → command.entry ≡ Command.Station args
        → (reader.new ≡ reader.old)
        × Stations (S.peers system.now) args (W.contents writer.old) (W.contents writer.new)
        result }
    ensures taps { (args : TapArgsValue) → command.entry ≡ Command.Tap args
        → (reader.new ≡ reader.old)
        × TapsAsked args (W.contents writer.old) (W.contents writer.new) result
        × (IsTrue (W.broken writer.new) → result ≡ Ending.Fault Fault.Write) }
    ensures links { (args : LinkArgsValue) → command.entry ≡ Command.Link args
        → Links (S.lines system.now) args result }
    ensures bridges { (args : BridgeArgsValue) → command.entry ≡ Command.Bridge args
        → (reader.new ≡ reader.old)
        × Bridges (S.lines system.now) args (W.contents writer.old) (W.contents writer.new)
        result }
{
    match command {
        Command::Explain(args) => { explain_asked(system, alloc, &args, reader, writer) }
        Command::Simulate(args) => {
            script_asked(system, alloc, Way::Simulated, &args, reader, writer)
        }
        Command::Pair(args) => script_asked(system, alloc, Way::Paired, &args, reader, writer),
        Command::Station(args) => station(system, alloc, &args, writer),
        Command::Tap(args) => tap(system, alloc, &args, writer),
        Command::Link(args) => link(system, alloc, &args, reader, writer),
        Command::Bridge(args) => bridge(system, alloc, &args, writer),
    }
}

/// Writes a whole text.
fn show<W: Sink>(writer: &mut W, text: &str) -> Ending
    requires { W.broken writer.old ≡ false }
    ensures shows { Shows text.now (W.contents writer.old) (W.contents writer.new) result }
    ensures write { (result ≡ Ending.Fault Fault.Write) ↔ IsTrue (W.broken writer.new) }
{
    match write_all(writer, text.as_bytes()) {
        Ok(()) => Ending::Done,
        Err(_failed) => Ending::Fault(Fault::Write),
    }
}

/// Runs the command that the arguments name, from `reader` to `writer`. The first argument is the
/// program's name; `system` opens files, connections and lines, and has a clock.
pub fn run<
    S: Net<Stream = TcpStream> + Eprint + time::Clock + Inputs + Connections + LineSystem,
    R: Source,
    W: Sink,
>(system: &S, alloc: Global, words: &[&str], reader: &mut R, writer: &mut W) -> Ending
    requires fine { R.state reader.old ≡ Worst.Fine }
    requires whole { W.broken writer.old ≡ false }
    ensures { RunsAs (S.held system.now) (S.peers system.now) (S.lines system.now)
        (map (λ word. word.now) words.now)
        (source_change (R.left reader.old) (R.left reader.new) (R.state reader.new))
        (sink_change (W.contents writer.old) (W.contents writer.new) (W.broken writer.new))
        (reader.new ≡ reader.old) (writer.new ≡ writer.old) result }
{
    match parse_args(alloc, words) {
        Ok(command) => perform(system, alloc, command, reader, writer),
        Err(NoCommand::Help(text)) => show(writer, text.as_str()),
        Err(NoCommand::Version(text)) => show(writer, text.as_str()),
        Err(NoCommand::Usage(text)) => Ending::Usage(text),
        Err(NoCommand::Memory) => Ending::Fault(Fault::Memory),
    }
}

fn texts(alloc: Global, args: &[String]) -> Result<Vec<&str>, AllocError>
    ensures { IfOk result (λ all. map (λ word. word.now) all.items ≡ map string_bytes args.now) }
{
    let mut all = Vec::new(alloc);
    for arg in args {
        all.push(arg.as_str())?;
    }
    Ok(all)
}

/// Runs the command that the arguments name, as the system passes them: they may not be text, or
/// their allocation may have failed.
pub fn run_args<
    S: Net<Stream = TcpStream> + Eprint + time::Clock + Inputs + Connections + LineSystem,
    R: Source,
    W: Sink,
>(
    system: &S,
    alloc: Global,
    args: io::Result<Vec<String>>,
    reader: &mut R,
    writer: &mut W,
) -> Ending
    requires fine { R.state reader.old ≡ Worst.Fine }
    requires whole { W.broken writer.old ≡ false }
    ensures runs { IfOk args (λ words. RunsAs (S.held system.now) (S.peers system.now)
        (S.lines system.now) (map string_bytes words.items)
        (source_change (R.left reader.old) (R.left reader.new) (R.state reader.new))
        (sink_change (W.contents writer.old) (W.contents writer.new) (W.broken writer.new))
        (reader.new ≡ reader.old) (writer.new ≡ writer.old) result) }
    ensures no_memory { IfErr args (λ error. error_kind error ≡ ErrorKind.OutOfMemory
        → result ≡ Ending.Fault Fault.Memory) }
    ensures not_text { IfErr args (λ error. error_kind error ≢ ErrorKind.OutOfMemory
        → result ≡ Ending.NotText) }
    ensures untouched { OnErr args ((reader.new ≡ reader.old) × (writer.new ≡ writer.old)) }
{
    let args = match args {
        Ok(args) => args,
        Err(error) => {
            return if error.kind() == io::ErrorKind::OutOfMemory {
                Ending::Fault(Fault::Memory)
            } else {
                Ending::NotText
            };
        }
    };
    let Ok(words) = texts(alloc, args.as_slice()) else {
        return Ending::Fault(Fault::Memory);
    };
    run(system, alloc, words.as_slice(), reader, writer)
}
