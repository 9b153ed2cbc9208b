//! What a protocol engineer expects of the definitions, stated apart from their tables; recovery in
//! any order: what becomes of a line without loss, whatever the order in which its ends are polled
//! and bytes arrive; and the promise for every caller of two stations: any calls, the turns of
//! `drive`, two driven stations over streams, two links, and two sessions, each of which writes
//! what the other reads, as through a pipe. The laws are functions without an effect, whose
//! contracts state them. For each call of a station, of a link and of a session a function in
//! `station_steps`, `link_steps` or `session_steps` makes that call.
#![tactic(auto)]

pub mod arrival;
pub mod calls;
pub mod connections;
pub mod damage;
pub mod delivers;
pub mod drives_recover;
pub mod endings;
pub mod faults;
pub mod line;
pub mod link_restarts;
pub mod link_steps;
pub mod links;
pub mod loops;
pub mod pipe;
pub mod recovery;
pub mod rests;
pub mod rules;
pub mod runs;
pub mod server;
pub mod session_runs;
pub mod session_sleep;
pub mod session_steps;
pub mod session_timing;
pub mod sessions;
pub mod settles;
pub mod sizes;
pub mod sleep;
pub mod starts;
pub mod state_table;
pub mod station;
pub mod station_runs;
pub mod station_steps;
pub mod story;
pub mod streams;
pub mod sweeps;
pub mod turns;
pub mod vectors;
