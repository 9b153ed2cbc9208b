//! The options of stations that run a script or a link.
ghost use Rattle.std.specs.Prelude.{◌≤◌};
ghost use Rattle.clap.specs.Words.{found_of, one_text};
ghost use Rattle.ddcmp_args.specs.Args.{HasSizes};
ghost use Rattle.ddcmp_proto.specs.declared.config.TheConstants.{MAX_SYN};

use crate::given::{flag_given, number_given};
use crate::options::Takes::{Nothing, Number};
use crate::options::{CommandOption, table};
use clap::ArgMatches;
use ddcmp_core::{MAX_COUNT, MAX_WINDOW};
use ddcmp_proto::{Config, MAX_INBOX, MAX_SYN};

/// The options of both stations.
pub(crate) static SIZE_OPTIONS: [CommandOption; 5] = table! {
    "window": Number(1, MAX_WINDOW as u32),
        "Most messages sent and not acknowledged, 1 to 255 [default: 7]";
    "inbox": Number(1, MAX_INBOX as u32),
        "Most messages received and not taken, 1 to 255 [default: 8]";
    "max": Number(1, MAX_COUNT as u32), "Longest message in bytes, 1 to 16383 [default: 1500]";
    "syn": Number(0, MAX_SYN as u32), "SYN bytes before each frame, 0 to 16 [default: 0]";
    "restart": Nothing, "Restart when the peer restarts, if no received message is waiting";
};

/// Returns the sizes of both stations, with defaults; `default_syn` is that for SYN bytes before
/// each frame.
pub(crate) fn sizes_given(options: &ArgMatches<'_>, default_syn: u8) -> Config
    requires { default_syn ≤ MAX_SYN }
    ensures { HasSizes default_syn (one_text (found_of options.now)) result }
{
    let Config {
        window,
        inbox,
        max,
        ..
    } = Config::DEFAULT;
    Config {
        window: number_given(options, "window", 1, MAX_WINDOW as u32, window as u32) as u16,
        inbox: number_given(options, "inbox", 1, MAX_INBOX as u32, inbox as u32) as u16,
        max: number_given(options, "max", 1, MAX_COUNT as u32, max as u32) as u16,
        syn: number_given(options, "syn", 0, MAX_SYN as u32, default_syn as u32) as u8,
        restart: flag_given(options, "restart"),
    }
}
