//! Tests of the tools from outside, of what the program can't show; the rest is in `tests/`. Of
//! `ddcmp_explain` and `ddcmp_tap`: a reader for every size, and the room of a direction. Of
//! `ddcmp_ports`: the room of buffers. Of `ddcmp_bridge`: its loop over lines in memory. Of
//! `ddcmp_session`: two sessions over bad lines, a session over many days, its loop over devices,
//! what contracts know of these, its reports, and what a link asks of its devices and when. Of
//! sessions and taps: failing allocations. Of all: the texts of faults.
#![tactic(auto)]

#[cfg(test)]
mod calls;
#[cfg(test)]
mod clocks;
#[cfg(test)]
mod days;
#[cfg(test)]
mod directions;
#[cfg(test)]
mod joined;
#[cfg(test)]
mod loops;
#[cfg(test)]
mod refused;
#[cfg(test)]
mod reports;
#[cfg(test)]
mod sessions;
#[cfg(test)]
mod sizes;
#[cfg(test)]
mod texts;
#[cfg(test)]
mod told;
