//! Tests of `Link` and `ddcmp_input`: links over queues in memory, messages of an input.

mod messages;
mod streams;
