//! Tests of `ddcmp_core` on lists of calls.

mod bench;
mod calls;
