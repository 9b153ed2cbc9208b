//! One allocation fails, at any point, in sessions of a link and in taps. Outside the gate these
//! tests are run with one allocation after another failing; in the gate none fails.

mod sessions;
mod taps;
