//! Tests of `ddcmp_frame` on frames and texts, and of the devices of `ddcmp_io`.

mod calls;
mod devices;
mod faults;
mod readers;
mod vectors;
