//! Stations over a network: `serve` drives one of the default sizes over a line and reports its
//! events, `connect` and `accept` open its connection, and `Sockets` is a carrier over a connection
//! of the program with itself.
#![tactic(auto)]

mod connection;
mod reporter;
pub mod serve_fault;
pub mod server;
mod sockets;

pub use connection::{accept, connect};
pub use serve_fault::ServeFault;
pub use server::{SERVED_MAX, serve};
pub use sockets::Sockets;
