//! Tests of two ends from outside, of what a script of `ddcmp simulate` can't show; the rest is in
//! `tests/`. Of `ddcmp_pair` with events: sizes, runs, damage, loss and ends of different sizes.
//! Of everything that plays or serves: failing allocations, and the texts of faults.
#![tactic(auto)]

#[cfg(test)]
mod bench;
#[cfg(test)]
mod calls;
#[cfg(test)]
mod damage;
#[cfg(test)]
mod link;
#[cfg(test)]
mod readers;
#[cfg(test)]
mod refused;
#[cfg(test)]
mod same;
#[cfg(test)]
mod scripts;
#[cfg(test)]
mod texts;
