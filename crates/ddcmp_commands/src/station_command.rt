//! `station`: one station over a connection.
ghost use Rattle.std.specs.Prelude.{◌≡◌, ◌≤◌, ◌*◌, length, false, option_map, IfSome};
ghost use Rattle.std.specs.Result.{result_ok};
ghost use Rattle.hex.specs.Hex.{decode_of};
ghost use Rattle.ddcmp_commands.specs.Stations.{Stations};

use crate::connections::Connections;
use crate::ending::Ending;
use crate::fault::Fault;
use crate::usage::usage;
use ddcmp_args::StationArgs;
use ddcmp_io::Sink;
use ddcmp_net::{SERVED_MAX, serve};
use ddcmp_station::Elapsed;
use std::alloc::Global;
use std::time;

/// The usage error for another value of `--role`.
const NO_ROLE: &str = "'--role' is connect or listen";

/// The usage error for a message that is too long.
const TOO_LONG: &str = "the message of '--send <HEX>' has more than 1500 bytes";

/// Decodes a message into the front of a buffer; returns none if it isn't hexadecimal.
fn message_in<'a>(digits: &str, buffer: &'a mut [u8]) -> Option<&'a [u8]>
    requires { length digits.now ≤ 2 * length buffer.old }
    ensures bytes { option_map (λ message. message.now) result ≡ result_ok (decode_of digits.now) }
    ensures length { IfSome result (λ message. 2 * length message.now ≤ length digits.now) }
{
    let message = &mut buffer[..digits.len() / 2];
    match hex::decode_to_slice(digits.as_bytes(), message) {
        Ok(()) => Some(message),
        Err(_refused) => None,
    }
}

/// Opens a connection, and drives a station over it that reports events.
pub fn station<S: Connections + time::Clock, W: Sink>(
    system: &S,
    alloc: Global,
    args: &StationArgs<'_>,
    report: &mut W,
) -> Ending
    requires { W.broken report.old ≡ false }
    ensures stations { Stations (S.peers system.now) args.now (W.contents report.old)
        (W.contents report.new) result }
    ensures whole { result ≡ Ending.Done → W.broken report.new ≡ false }
{
    let Some(role) = args.role else {
        return usage(alloc, NO_ROLE);
    };
    if args.send.len() > 2 * SERVED_MAX as usize {
        return usage(alloc, TOO_LONG);
    }
    let mut buffer = [0; SERVED_MAX as usize];
    let Some(message) = message_in(args.send, &mut buffer) else {
        return Ending::Fault(Fault::Message);
    };
    let Some(mut line) = system.connection(role, args.addr) else {
        return Ending::Fault(Fault::Carrier);
    };
    match serve(
        alloc,
        &mut line.reader,
        &mut line.writer,
        report,
        &mut Elapsed::new(system),
        message,
        args.turns,
        args.timer_ms,
        args.restart,
        args.counters,
    ) {
        Ok(()) => Ending::Done,
        Err(fault) => Ending::Fault(Fault::from(fault)),
    }
}
