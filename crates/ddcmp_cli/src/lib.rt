//! The program `ddcmp`: runs the command that its arguments name. `simulate`, `pair`, `link` and
//! `bridge` are here, the other commands in `ddcmp_commands`.
#![tactic(auto)]

mod bridge_command;
mod link_command;
pub mod program;
mod script_command;
mod standard;

pub use ddcmp_args::{
    Beginning, BridgeArgs, Command, LinkArgs, NoCommand, Role, ScriptArgs, ScriptView, StationArgs,
    TapArgs, bridge_args, command, link_args, no_command, parse_args, script_args, station_args,
    tap_args, view,
};
pub use ddcmp_bridge::{BridgeEnd, BridgeOptions};
pub use ddcmp_commands::{
    Connection, Connections, Ending, Fault, FilePair, Inputs, connections, ending, fault,
    file_pair, inputs,
};
pub use ddcmp_device::BridgeFault;
pub use ddcmp_explain::{
    ExplainFault, Form, InputForm, NotDumped, Notation, Style, explain, explain_fault,
    explain_with, explanation, form, notation, style,
};
pub use ddcmp_link::{LinkFailure, LinkLine, LinkOutcome, Options};
pub use ddcmp_net::{SERVED_MAX, ServeFault, serve, serve_fault, server};
pub use ddcmp_ports::LineName;
pub use ddcmp_tap::{TapFault, tap_fault};
pub use link_command::LineSystem;
pub use program::{
    bridge_is_asked, explain_is_asked, link_is_asked, pair_is_asked, run, run_args,
    simulate_is_asked, station_is_asked, tap_is_asked,
};
pub use standard::{StandIns, report};
