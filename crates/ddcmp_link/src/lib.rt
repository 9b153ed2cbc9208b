//! The devices of `ddcmp link`: a line, standard streams, a clock and a wait, as `ddcmp_device` has
//! them. `run_link` of `ddcmp_session` decides what moves between them.
#![tactic(auto)]

mod ending;
mod fault;
mod link;
mod live;

pub use ddcmp_session::{LinkOutcome, Options};
pub use fault::LinkFailure;
pub use link::{LinkLine, link_line};
