//! The log of a line's bytes: a line for each item, in words, as JSON or as an arrow of a ladder,
//! after the milliseconds and the mark of its side; a line for skipped bytes, and the totals.
//! `ItemLog` reads the bytes of one side, and writes their lines.
#![tactic(auto)]

mod day;
mod front;
mod item_log;
mod line;
mod no_memory;
pub mod notation;
mod reason;
mod rung;
mod schedule;
pub mod side;

pub use day::write_time;
pub use item_log::ItemLog;
pub use line::{
    write_item_members, write_line, write_skipped, write_skipped_members, write_totals,
};
pub use no_memory::NoMemory;
pub use notation::LogNotation;
pub use reason::write_reasoned;
pub use schedule::Schedule;
pub use side::{Added, Origin, Side, Stamp};
