//! The commands that need neither a link nor a picture: `explain`, `station` and `tap`; what they
//! read and connect to; and how any command ends, with its status.
#![tactic(auto)]

pub mod connections;
mod early;
pub mod ending;
mod explain_command;
pub mod fault;
pub mod file_pair;
mod file_poller;
pub mod inputs;
mod ladder_command;
mod origin;
mod station_command;
mod tap_command;
pub mod usage;

pub use connections::{Connection, Connections};
pub use ending::Ending;
pub use explain_command::explain_asked;
pub use fault::Fault;
pub use file_pair::FilePair;
pub use inputs::Inputs;
pub use station_command::station;
pub use tap_command::{TWO_NOTATIONS, is_json, tap};
