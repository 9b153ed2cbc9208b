//! Tests of `ddcmp_station::drive` with failing allocations and at every size, of the largest
//! stations, and of two driven stations over streams. Worked calls are in `worked`.

mod driver;
mod largest;
mod streams;
