//! The arguments of the command line, and the command that they name.
ghost use Rattle.std.specs.Prelude.{◌≡◌, ◌≢◌, ◌⊎◌, IfSome, IsOk, None, Some, map, List, ℕ};
ghost use Rattle.std.specs.Option.{option_and_then};
ghost use Rattle.ddcmp_args.specs.Inside.Making.{IsMade, Makes};
ghost use Rattle.ddcmp_args.specs.Args.{Declines, HasOptions, IsAsked, IsName, Reads, bare_app};
ghost use Rattle.ddcmp_args.specs.Args.{name_of, program};
ghost use Rattle.clap.specs.Words.{kind_of, first_of, one_of, subcommand_name_of};
ghost use Rattle.clap.specs.Words.{subcommand_rows_of};

use crate::bridge_args::{BridgeArgs, bridge_given, bridge_parser};
use crate::explain_args::{ExplainArgs, explain_given, explain_parser};
use crate::link_args::{LinkArgs, link_given, link_parser};
use crate::no_command::NoCommand;
use crate::parser::{Made, with_command};
use crate::script_args::{PAIR, SIMULATE, ScriptArgs, script_given, script_parser};
use crate::station_args::{StationArgs, station_given, station_parser};
use crate::tap_args::{TapArgs, tap_given, tap_parser};
use crate::units::with_unit;
use clap::error::ErrorKind;
use clap::{ArgMatches, Error};
use std::alloc::Global;

/// A command with its options.
#[derive(Clone, Copy, Debug)]
pub enum Command<'a> {
    /// Explain an input.
    Explain(ExplainArgs<'a>),
    /// Run a script between two simulated stations.
    Simulate(ScriptArgs<'a>),
    /// The same, with the bytes carried over a TCP connection.
    Pair(ScriptArgs<'a>),
    /// Drive a station over a connection.
    Station(StationArgs<'a>),
    /// Log the traffic between two ends of a line over TCP.
    Tap(TapArgs<'a>),
    /// Run a station over a line, with messages on standard input and output.
    Link(LinkArgs<'a>),
    /// Pass good frames on between two lines.
    Bridge(BridgeArgs<'a>),
}

/// Returns `ddcmp` without its commands.
fn program_command<'a>(alloc: Global) -> clap::Command<'a>
    ensures { IsMade result bare_app }
{
    clap::Command::new(alloc, "ddcmp")
        .version("0.2.0")
        .about("DDCMP, the data link protocol of DECnet")
        .subcommand_required(true)
}

fn program_parser<'a>(alloc: Global) -> Made<'a>
    ensures { Makes result program }
{
    let mut made = with_command(Ok(program_command(alloc)), explain_parser(alloc));
    made = with_command(made, script_parser(alloc, &SIMULATE));
    made = with_command(made, script_parser(alloc, &PAIR));
    made = with_command(made, station_parser(alloc));
    made = with_command(made, tap_parser(alloc));
    made = with_command(made, link_parser(alloc));
    with_command(made, bridge_parser(alloc))
}

/// Converts an error of clap.
fn decline(alloc: Global, error: &Error) -> NoCommand
    ensures { Declines (kind_of error.now) result }
{
    match error.to_string(alloc) {
        Ok(text) => match error.kind() {
            ErrorKind::OutOfMemory => NoCommand::Memory,
            ErrorKind::DisplayHelp => NoCommand::Help(text),
            ErrorKind::DisplayVersion => NoCommand::Version(text),
            _ => match with_unit(alloc, text) {
                Ok(text) => NoCommand::Usage(text),
                Err(_refused) => NoCommand::Memory,
            },
        },
        Err(_refused) => NoCommand::Memory,
    }
}

/// Returns the command of valid arguments.
fn asked<'a>(matches: &ArgMatches<'a>) -> Option<Command<'a>>
    ensures named { IfSome result (λ command. subcommand_name_of matches.now
        ≡ Some (name_of command)) }
    ensures options { IfSome result (λ command. HasOptions
        (λ id. option_and_then (λ named. one_of id named.1) (subcommand_rows_of matches.now))
        (λ id. option_and_then (λ named. first_of id named.1) (subcommand_rows_of matches.now))
        command) }
    ensures unnamed { result ≡ None → (name : List ℕ) → IsName name
        → subcommand_name_of matches.now ≢ Some name }
{
    if let Some(options) = matches.subcommand_matches("explain") {
        return Some(Command::Explain(explain_given(options)));
    }
    if let Some(options) = matches.subcommand_matches("simulate") {
        return Some(Command::Simulate(script_given(options)));
    }
    if let Some(options) = matches.subcommand_matches("pair") {
        return Some(Command::Pair(script_given(options)));
    }
    if let Some(options) = matches.subcommand_matches("station") {
        return Some(Command::Station(station_given(options)));
    }
    if let Some(options) = matches.subcommand_matches("tap") {
        return Some(Command::Tap(tap_given(options)));
    }
    if let Some(options) = matches.subcommand_matches("link") {
        return Some(Command::Link(link_given(options)));
    }
    let options = matches.subcommand_matches("bridge")?;
    Some(Command::Bridge(bridge_given(options)))
}

/// Parses a command line, whose first argument is the program's name.
pub fn parse_args<'a>(alloc: Global, words: &'a [&'a str]) -> Result<Command<'a>, NoCommand>
    ensures asked { (name : List ℕ) → IsName name
        → IsAsked (map (λ word. word.now) words.entry.now) name
        → IsOk result ⊎ (result ≡ Err NoCommand.Memory) }
    // Whatever the arguments: what they ask for.
    ensures reads { Reads (map (λ word. word.now) words.entry.now) result }
{
    let Ok(command) = program_parser(alloc) else {
        return Err(NoCommand::Memory);
    };
    match command.try_get_matches_from(words) {
        Ok(matches) => match asked(&matches) {
            Some(command) => Ok(command),
            None => Err(NoCommand::Usage(String::new(alloc))),
        },
        Err(error) => Err(decline(alloc, &error)),
    }
}
