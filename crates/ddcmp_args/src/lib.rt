//! Parses the arguments of the command line: which command they name, with which options, or why
//! none is run. It runs nothing.
#![tactic(auto)]

pub mod bridge_args;
pub mod command;
pub mod explain_args;
mod given;
mod laws;
pub mod link_args;
pub mod no_command;
mod options;
mod parser;
pub mod script_args;
mod size_args;
pub mod station_args;
pub mod tap_args;
mod units;
pub mod view;

pub use bridge_args::BridgeArgs;
pub use command::{Command, parse_args};
pub use explain_args::ExplainArgs;
pub use laws::{
    bridge_is_asked, explain_is_asked, link_is_asked, pair_is_asked, simulate_is_asked,
    station_is_asked, tap_is_asked,
};
pub use link_args::LinkArgs;
pub use no_command::NoCommand;
pub use script_args::{Beginning, ScriptArgs};
pub use station_args::{Role, StationArgs};
pub use tap_args::TapArgs;
pub use view::ScriptView;
