//! The arguments of `station`.
ghost use Rattle.std.specs.Prelude.{◌≡◌};
ghost use Rattle.clap.specs.Words.{first_value, found_of, one_text};
ghost use Rattle.ddcmp_args.specs.Inside.Making.{Makes};
ghost use Rattle.ddcmp_args.specs.Args.{HasStation, role_of, station_app};

use crate::given::{flag_given, number_given, text_given};
use crate::options::Takes::{Nothing, Number, Text};
use crate::options::{CommandOption, CommandText, table};
use crate::parser::{Made, begun, with_options};
use clap::ArgMatches;
use std::alloc::Global;

/// Who opens the connection of a station.
#[derive(Clone, Copy, Debug)]
pub enum Role {
    /// The station connects to a peer that listens.
    Connect,
    /// The station listens, and accepts one connection.
    Listen,
}

/// The arguments of a station over a connection.
#[derive(Clone, Copy, Debug)]
pub struct StationArgs<'a> {
    /// None if there is no such role; a station needs one.
    pub role: Option<Role>,
    /// The address to connect to or to listen at, such as `127.0.0.1:7000`.
    pub addr: &'a str,
    pub turns: u32,
    pub timer_ms: u32,
    /// The hexadecimal message that is sent once the station runs; none if it is empty.
    pub send: &'a str,
    /// Whether it restarts when its peer does.
    pub restart: bool,
    /// Whether the report ends with the counters too.
    pub counters: bool,
}

/// `station`, with its description and help.
static STATION: CommandText = CommandText {
    name: "station",
    about: "Run one station over TCP for a number of turns",
    help: "\
Output, as it happens:
  notice N                           a notice of the station, as Running or Acknowledged 1
  mail HEX                           a received message
  turns=T state=S read=R written=W   at the end: turns made, bytes read and written",
};

/// The options of a station over a connection.
static STATION_OPTIONS: [CommandOption; 7] = table! {
    "role" required: Text("connect|listen"), "Who opens the connection; start the listener first";
    "addr" required: Text("ADDR"), "Address and port, as 127.0.0.1:7000";
    "turns" required: Number(0, u32::MAX), "Number of turns; a turn waits up to 10 ms for bytes";
    "timer-ms" required: Number(0, u32::MAX), "Reply timer in milliseconds";
    "send": Text("HEX"), "Message to send once the station runs, up to 1500 bytes";
    "restart": Nothing, "Restart when the peer restarts, if no received message is waiting";
    "counters": Nothing, "Print the station's counters before the last line";
};

/// Returns the parser of `station` with its options.
pub(crate) fn station_parser<'a>(alloc: Global) -> Made<'a>
    ensures { Makes result station_app }
{
    with_options(alloc, Ok(begun(alloc, &STATION)), &STATION_OPTIONS)
}

/// Returns the role of this name.
fn role_named(name: &str) -> Option<Role>
    ensures { result ≡ role_of name.now }
{
    if name == "connect" {
        Some(Role::Connect)
    } else if name == "listen" {
        Some(Role::Listen)
    } else {
        None
    }
}

/// Returns the arguments of `station`.
pub(crate) fn station_given<'a>(options: &ArgMatches<'a>) -> StationArgs<'a>
    ensures { HasStation (one_text (found_of options.now)) (first_value (found_of options.now))
        result }
{
    let restart = flag_given(options, "restart");
    let counters = flag_given(options, "counters");
    StationArgs {
        role: role_named(text_given(options, "role")),
        addr: text_given(options, "addr"),
        turns: number_given(options, "turns", 0, u32::MAX, 0),
        timer_ms: number_given(options, "timer-ms", 0, u32::MAX, 0),
        send: text_given(options, "send"),
        restart,
        counters,
    }
}
