//! Tests of the calls of `ddcmp_station`, apart from `drive`, on bytes.

mod bench;
mod calls;
mod sizes;
