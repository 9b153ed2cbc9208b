//! Tests of the protocol from outside: of numbers, frames, windows and a core, and of a station by
//! its calls, driven, and as a link; of the sockets of `ddcmp_net` over the network of this
//! machine, and of the time that is passed to a station.
#![tactic(auto)]

#[cfg(test)]
mod cores;
#[cfg(test)]
mod driven;
#[cfg(test)]
mod elapsed;
#[cfg(test)]
mod frames;
#[cfg(test)]
mod links;
#[cfg(test)]
mod numbers;
#[cfg(test)]
mod same;
#[cfg(test)]
mod sockets;
#[cfg(test)]
mod stations;
#[cfg(test)]
mod windows;
