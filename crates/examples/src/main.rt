//! Examples of stations: two that exchange messages by hand, one that is driven, two that are
//! driven over a connection, and two links as pipes.
#![tactic(auto)]

mod driven;
mod driving;
mod exchange;
mod pipe;
mod stream;

use std::io;

fn main(rt: HostRuntime) -> io::Result<()> {
    exchange::run(&rt)?;
    driven::run(&rt)?;
    stream::run(&rt)?;
    pipe::run(&rt)
}
