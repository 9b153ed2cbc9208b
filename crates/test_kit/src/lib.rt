//! What tests and worked programs share: a user and a clock in memory, pseudorandom numbers, and
//! parsing of sizes and bytes in a line of words. It tests nothing itself, and the program doesn't
//! depend on it.
//!
//! `let config = config_of("7 8 1500 0 no the usual sizes");` reads the sizes of a station.
#![tactic(auto)]

pub mod devices;
pub mod draws;
pub mod parse;

pub use devices::{Moments, Recorder, Seen};
pub use draws::Draws;
pub use parse::{bytes_of, config_of, number};
